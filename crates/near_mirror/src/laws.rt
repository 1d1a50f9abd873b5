//! What holds of all mirrors.
ghost use Rattle.near_mirror.specs.Laws.{CopiesAreApart, CopiesShareNoSector, NearWordsHaveOneSpelling};

/// The copies of a sector are on different slots.
pub fn copies_are_apart()
    ensures { CopiesAreApart }
{}

/// A sector of a member is one copy of one sector of the volume.
pub fn copies_share_no_sector()
    ensures { CopiesShareNoSector }
{}

/// Two parameter sets with the same word are the same set, field by field.
pub fn near_words_have_one_spelling()
    ensures { NearWordsHaveOneSpelling }
{}
