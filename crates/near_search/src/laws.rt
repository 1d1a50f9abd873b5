//! Laws of the search.
ghost use Rattle.near_search.specs.Laws.{LostChunksHaveNoCopy, PassingMirrorsAreHopeful, PassingMirrorsBreakNoRule};

/// Each beginning of a slot list that passes is hopeful, and the whole list is hopeful just where it passes: so no mirror that
/// passes is passed over.
pub fn passing_mirrors_are_hopeful()
    ensures { PassingMirrorsAreHopeful }
{}

/// Of a whole slot list a chunk is lost just where the set has a chunk without a copy, so that a search and `NearSet::validate` ask the same.
pub fn lost_chunks_have_no_copy()
    ensures { LostChunksHaveNoCopy }
{}

/// A set of the shape of a mirror breaks no rule of `NearSet::validate` where it passes.
pub fn passing_mirrors_break_no_rule()
    ensures { PassingMirrorsBreakNoRule }
{}
