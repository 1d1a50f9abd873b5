//! The prefix of a text up to a separator.
ghost use Rattle.std.specs.Prelude.{◌≡◌, ◌≢◌, ◌∷◌, ◌++◌, All, MatchOption};

/// What stands before the first such separator, and what follows the separator.
pub fn cut(text: &[u8], separator: u8) -> Option<(&[u8], &[u8])>
    ensures { MatchOption result
        (All (λ byte. byte ≢ separator) text.entry.now)
        (λ r. All (λ byte. byte ≢ separator) r.0.now × (text.entry.now ≡ r.0.now ++ separator ∷ r.1.now)) }
{
    let end = text.iter().position(|byte| *byte == separator)?;
    Some((&text[..end], &text[end + 1..]))
}
