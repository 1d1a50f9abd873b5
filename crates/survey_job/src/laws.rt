//! What holds of the texts of all plans.
ghost use Rattle.survey_job.specs.Laws.{NoPlanIsTooLong};

/// The text of a plan has at most as many bytes as are read of one, so the plan that a survey prints can be read. It
/// runs nothing: its contract is the law.
#[tactic(auto, using(crate::proofs::Sizes::no_plan_is_too_long))]
pub fn no_plan_is_too_long()
    ensures { NoPlanIsTooLong }
{}
