//! What holds of all lists of words.
ghost use Rattle.command_words.specs.Laws.{WordsHaveOneReading};

/// A list of words says one command, or it is refused at one word: never both, and never two.
pub fn words_have_one_reading()
    ensures { WordsHaveOneReading }
{}
