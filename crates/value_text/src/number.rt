//! Numbers, and words that begin a text.
ghost use Rattle.std.specs.Prelude.{◌≡◌, ◌≢◌, ◌<◌, ◌^◌, ◌++◌, ◌-◌, ℕ, List, decimal, MatchOption, length, slice_index, IsTrue, ◌↔◌};
ghost use Rattle.std.specs.Char.{digit_value};
ghost use Rattle.std.specs.Int.{IsInRange};
ghost use Rattle.std.specs.Str.Parse.{AllDigits, digits_value};

/// The number that a whole text spells: decimal digits without sign or leading zero, below 2 to
/// the power 64.
pub fn read_number(text: &[u8]) -> Option<u64>
    ensures { MatchOption result ((n : ℕ) → n < 2 ^ 64 → text.now ≢ decimal n) (λ n. text.now ≡ decimal n) }
{
    if has_no_leading_zero(text) {
        value_of_digits(text)
    } else {
        None
    }
}

/// Whether there is a first byte, and it is no zero before others.
fn has_no_leading_zero(text: &[u8]) -> bool
    ensures { IsTrue result ↔ ((0 < length text.now) × (slice_index text.now 0 ≡ 48 → length text.now ≡ 1)) }
{
    match text {
        [] => false,
        [_] => true,
        [first, ..] => *first != b'0',
    }
}

/// The number that the digits of a text spell, leading zeros and all.
fn value_of_digits(text: &[u8]) -> Option<u64>
    ensures { MatchOption result ((n : ℕ) → n < 2 ^ 64 → text.now ≢ decimal n) (λ n. (n < 2 ^ 64) × AllDigits 10 text.now × (n ≡ digits_value 10 text.now)) }
{
    let mut value: u64 = 0;
    for byte in text {
        let digit = digit_of(*byte)?;
        value = value.checked_mul(10)?.checked_add(digit)?;
    }
    Some(value)
}

/// The value of a decimal digit.
fn digit_of(byte: u8) -> Option<u64>
    ensures { MatchOption result (¬ (IsInRange 48 57 byte)) (λ d. (d ≡ digit_value byte) × (d < 10) × IsInRange 48 57 byte) }
{
    if byte.is_ascii_digit() {
        Some(u64::from(byte - b'0'))
    } else {
        None
    }
}

/// What follows the word, where the text begins with it.
pub fn after<'a>(text: &'a [u8], word: &[u8]) -> Option<&'a [u8]>
    ensures { MatchOption result ((rest : List ℕ) → text.entry.now ≢ word.now ++ rest) (λ rest. text.entry.now ≡ word.now ++ rest.now) }
{
    text.strip_prefix(word)
}
