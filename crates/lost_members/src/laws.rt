//! How many member sectors a volume or a lost member needs. A function does nothing: its clause is the law.
ghost use Rattle.lost_members.specs.Laws.{NeedsAsManyAsData, NeedsAsManyAsTheVolume};

/// Of each row as many sectors are needed as it has data, whichever members are lost: for each lost data
/// block one of parity is.
#[tactic(auto, using(crate::proofs::NeededRows::as_many_as_data))]
pub fn as_many_are_needed_as_are_data()
    ensures { NeedsAsManyAsData }
{}

/// A volume is found by as many member sectors as it has sectors, whichever members are lost.
#[tactic(auto, using(crate::proofs::NeededRows::as_many_as_volume))]
pub fn as_many_are_needed_as_the_volume_has()
    ensures { NeedsAsManyAsTheVolume }
{}
