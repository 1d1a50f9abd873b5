//! What holds of all salvaged volumes. A function does nothing: its clause is the law.
ghost use Rattle.rescue_map.specs.Laws.{GoodSectorsTell, UndamagedIsTheVolume};

/// Where no image has a section, the salvaged volume is the volume.
#[tactic(auto, using(crate::proofs::LawsShown::undamaged))]
pub fn undamaged_is_the_volume()
    ensures { UndamagedIsTheVolume }
{}

/// Images that agree on all good sectors of the members have the same salvaged volume: it depends on these alone.
#[tactic(auto, using(crate::proofs::LawsShown::good_tell))]
pub fn good_sectors_tell()
    ensures { GoodSectorsTell }
{}
