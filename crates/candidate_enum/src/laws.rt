//! Laws of what a walk gives.
ghost use Rattle.candidate_enum.specs.Laws.{SurvivorsAreLists, SurvivorsByRank};

/// The ranks of what a walk gives are the admitted ranks of its range, in order.
pub fn survivors_by_rank()
    ensures { SurvivorsByRank }
{}

/// Each leaf that a walk gives holds the list of its rank.
pub fn survivors_are_lists()
    ensures { SurvivorsAreLists }
{}
