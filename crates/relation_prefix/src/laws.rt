//! What the tests never refuse. A function does nothing: its clause is the law.
ghost use Rattle.relation_prefix.specs.Laws.{PassingSetsMayBegin, SoundRowsRefuseNoPrefix};

/// Where a row is sound under a set, it refuses no prefix of the set's slots.
pub fn sound_rows_refuse_no_prefix()
    ensures { SoundRowsRefuseNoPrefix }
{}

/// Where a set passes the parity test, rows of its images let each prefix of its slots begin a set, whichever they are, as long as none comes
/// twice.
pub fn passing_sets_may_begin()
    ensures { PassingSetsMayBegin }
{}
