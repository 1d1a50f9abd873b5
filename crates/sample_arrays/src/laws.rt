//! What generated arrays are: functions that do nothing, and whose clauses are the laws.
ghost use Rattle.sample_arrays.specs.Laws.{DataLieWhereTheMapSays, GroupsAreAsLargeAsMayBe, NoGeneratedRowIsUnsound, RowsOfGeneratedArraysAreSound};

/// The data of each item have the sectors of the volume that lie there by the address map.
#[tactic(auto, using(crate::proofs::Lies::data_lie))]
pub fn data_lie_where_the_map_says()
    ensures { DataLieWhereTheMapSays }
{}

/// The groups of the XFS have the most blocks that such groups may have, and the volume holds all of them.
#[tactic(auto, using(crate::proofs::GroupSizes::group_size))]
pub fn groups_are_as_large_as_may_be()
    ensures { GroupsAreAsLargeAsMayBe }
{}

/// Where the set breaks no rule, every sector row of the images is sound: the equations of P and Q hold in it, with
/// some bytes for the empty slots. So none of the rows counts as unsound.
pub fn rows_of_generated_arrays_are_sound()
    ensures sound { RowsOfGeneratedArraysAreSound }
    ensures none { NoGeneratedRowIsUnsound }
{}
