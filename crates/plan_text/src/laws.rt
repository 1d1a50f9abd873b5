//! What holds of the texts of all plans.
ghost use Rattle.plan_text.specs.Laws.{OneLineIsRefused, PlansHaveOneSpelling};

/// Two plans with the same text are the same plan, field by field.
pub fn one_spelling()
    ensures { PlansHaveOneSpelling }
{}

/// A text is refused at one line at most, and a refused text is no plan's.
pub fn one_refused_line()
    ensures { OneLineIsRefused }
{}
