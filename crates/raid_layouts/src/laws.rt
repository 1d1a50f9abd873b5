//! Laws of the rows of an array.
ghost use Rattle.raid_layouts.specs.Laws.{EachRoleHasOneSlot, EachRowCanBeSolved, EachSlotHasOneRole, ExponentsAreBelowMembers, ExponentsDiffer};

/// In every row of a valid head, each role of the level has one slot below the members.
pub fn each_role_has_one_slot()
    ensures { EachRoleHasOneSlot }
{}

/// In every row of a valid head, each slot below the members has one role of the level.
pub fn each_slot_has_one_role()
    ensures { EachSlotHasOneRole }
{}

/// At level 6 the exponent of a data slot is below the members.
pub fn exponents_are_below_members()
    ensures { ExponentsAreBelowMembers }
{}

/// No two data slots of a row of level 6 have the same exponent.
pub fn exponents_differ()
    ensures { ExponentsDiffer }
{}

/// The cells of every row of a parameter set of a sensible shape are such that the parity
/// equations can be solved for the missing blocks: at most one is P and one Q, the exponents of
/// data cells differ beside Q, and no more are missing than hold parity.
pub fn each_row_can_be_solved()
    ensures { EachRowCanBeSolved }
{}
