//! The law that the sweep passes over no inode of XFS that begins a stretch of 64 KiB.
ghost use Rattle.survey_engine.specs.Stretches.{LargerMarksAreSeen, SmallMarksAreSeen};

/// No inode of XFS that is a mark of a file system is passed over while it is not known of which: one of 512 bytes in its
/// sector, and a larger one by its first sector.
/// It runs nothing: its contract is the law.
#[tactic(auto, using(crate::proofs::MarksSeen::small_seen, crate::proofs::MarksSeen::larger_seen))]
pub fn no_mark_is_passed_over()
    ensures small { SmallMarksAreSeen }
    ensures larger { LargerMarksAreSeen }
{}
