//! Words between blanks.
ghost use Rattle.std.specs.Prelude.{◌≡◌, length};
ghost use Rattle.rescue_text.specs.Lines.{is_blank, past_word, without_blanks, word};

/// What follows the blanks that stand first.
pub(crate) fn skip_blanks(text: &[u8]) -> &[u8]
    ensures { result.now ≡ without_blanks text.entry.now }
{
    let mut rest = text;
    while let [first, more @ ..] = rest {
        if !is_blank_byte(*first) {
            break;
        }
        rest = more;
    }
    rest
}

/// The word that stands first, blanks before it left out, and what follows the word.
pub(crate) fn first_word(text: &[u8]) -> (&[u8], &[u8])
    ensures word { result.0.now ≡ word (without_blanks text.entry.now) }
    ensures rest { result.1.now ≡ past_word (without_blanks text.entry.now) }
{
    split_word(skip_blanks(text))
}

/// What stands before the first blank, and what is from there on.
#[tactic(auto, using(crate::proofs::FirstWords::word_is_taken, crate::proofs::FirstWords::past_word_is_left, crate::proofs::FirstWords::word_fits))]
fn split_word(text: &[u8]) -> (&[u8], &[u8])
    ensures word { result.0.now ≡ word text.entry.now }
    ensures rest { result.1.now ≡ past_word text.entry.now }
{
    let end = word_length(text);
    (&text[..end], &text[end..])
}

/// How many bytes stand before the first blank.
fn word_length(text: &[u8]) -> usize
    ensures { result ≡ length (word text.now) }
{
    let mut end = 0;
    for byte in text {
        if is_blank_byte(*byte) {
            break;
        }
        end += 1;
    }
    end
}

/// Whether a byte is a space or a tab.
fn is_blank_byte(byte: u8) -> bool
    ensures { result ≡ is_blank byte }
{
    byte == b' ' || byte == b'\t'
}
