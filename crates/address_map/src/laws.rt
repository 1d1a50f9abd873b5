//! Laws of the address map.
ghost use Rattle.address_map.specs.Laws.{EachSectorHasOneHome, EachSectorHasOnePlace, PlacesAndHomesUndo};

/// `place` and `locate` undo each other: `locate` of a volume sector gives a slot and a member
/// sector exactly where `place` of these is that volume sector.
pub fn places_and_homes_undo()
    ensures { PlacesAndHomesUndo }
{}

/// Only one answer of `place` is right.
pub fn each_sector_has_one_place()
    ensures { EachSectorHasOnePlace }
{}

/// Only one answer of `locate` is right, and its slot is below the members.
pub fn each_sector_has_one_home()
    ensures { EachSectorHasOneHome }
{}
