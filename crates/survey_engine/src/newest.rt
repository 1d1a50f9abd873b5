//! The laws that the newest leaves of the tree of chunks decide where a tree block of btrfs lies.
ghost use Rattle.survey_engine.specs.Newest.{NewestDecides, OrderIsFree};

/// Of the leaves that tell where a tree block lies the newest decide, in whatever order they are read.
/// It runs nothing: its contract is the law.
#[tactic(auto, using(crate::proofs::NewerLeaves::order_is_free, crate::proofs::NewerLeaves::newest_decides))]
pub fn newest_leaves_decide()
    ensures order { OrderIsFree }
    ensures newest { NewestDecides }
{}
