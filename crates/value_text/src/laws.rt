//! What holds of the words of all parameter sets.
ghost use Rattle.value_text.specs.Laws.{SetWordsHaveOneSpelling};

/// Two parameter sets with the same word are the same set, field by field.
pub fn set_words_have_one_spelling()
    ensures { SetWordsHaveOneSpelling }
{}
