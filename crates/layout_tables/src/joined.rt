//! Texts of pieces with a separator between them.
ghost use Rattle.std.specs.Prelude.{◌≡◌, ◌≢◌, ◌≤◌, ◌∷◌, ◌++◌, ℕ, List, All, length, map, MatchOption};
ghost use Rattle.std.specs.List.{join_with_byte};
ghost use Rattle.layout_tables.specs.Pieces.{IsPieceName};

use arrayvec::ArrayVec;

/// A piece of a text, which it spells in one way alone.
pub(crate) trait Piece: Drop + Default {
    ghost name: { Self → List ℕ };

    ghost IsPiece: { Self → Type 0 };

    /// The value that the whole piece spells.
    fn read(text: &[u8]) -> Option<Self>
        ensures { MatchOption result ((x : Self) → IsPiece x → text.now ≢ name x) (λ x. IsPiece x × (text.now ≡ name x)) };
}

/// What stands before the first such separator, and what follows the separator.
fn cut(text: &[u8], separator: u8) -> Option<(&[u8], &[u8])>
    ensures { MatchOption result
        (All (λ byte. byte ≢ separator) text.entry.now)
        (λ r. All (λ byte. byte ≢ separator) r.0.now × (text.entry.now ≡ r.0.now ++ separator ∷ r.1.now)) }
{
    let end = text.iter().position(|byte| *byte == separator)?;
    Some((&text[..end], &text[end + 1..]))
}

/// The values that a text spells with such a separator between them: at least one, and at most `CAP`.
pub(crate) fn joined<T: Piece, const CAP: usize>(
    text: &[u8],
    separator: u8,
) -> Option<ArrayVec<T, CAP>>
    requires { IsPieceName separator T.name T.IsPiece }
    ensures { MatchOption result
        ((xs : List T) → 1 ≤ length xs → length xs ≤ CAP → All T.IsPiece xs → text.now ≢ join_with_byte separator (map T.name xs))
        (λ xs. (1 ≤ length xs.items) × (length xs.items ≤ CAP) × All T.IsPiece xs.items × (text.now ≡ join_with_byte separator (map T.name xs.items))) }
{
    let mut values = ArrayVec::new();
    let mut rest = text;
    while let Some((word, more)) = cut(rest, separator) {
        values.try_push(T::read(word)?).ok()?;
        rest = more;
    }
    values.try_push(T::read(rest)?).ok()?;
    Some(values)
}
