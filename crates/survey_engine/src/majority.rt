//! The law that most superblocks of a file system of XFS decide where its inodes lie.
ghost use Rattle.survey_engine.specs.Majority.{MostDecide};

/// No more superblocks of a file system of XFS state anything else of where inodes lie than what decides.
/// It runs nothing: its contract is the law.
pub fn most_superblocks_decide()
    ensures { MostDecide }
{}
