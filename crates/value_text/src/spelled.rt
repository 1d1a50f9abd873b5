//! Values with a spelling of their own, and lists of them.
ghost use Rattle.std.specs.Prelude.{◌≡◌, ◌≢◌, ◌≤◌, ◌∷◌, ◌++◌, ◌↔◌, ℕ, List, All, length, map, nat_lt, MatchOption, OnOk, IsTrue};
ghost use Rattle.std.specs.List.{flat_map, join_with_byte};
ghost use Rattle.std.specs.List.Sorted.{IsStrictlyIncreasing};
ghost use Rattle.raid_params.specs.Places.{AreRising};
ghost use Rattle.value_text.specs.Spelling.{IsFieldName, IsListName, IsSpelling, commas, is_separator};

use crate::front::cut;
use crate::text::Text;
use arrayvec::ArrayVec;
use outside::Memory;

/// A value that a text spells, in one way alone. Its spelling has no comma, so that it may stand in lists.
pub trait Spelled: Drop {
    ghost name: { Self → List ℕ };

    ghost IsSpelled: { Self → Type 0 };

    /// The value that the whole text spells.
    fn read(text: &[u8]) -> Option<Self>
        ensures { MatchOption result ((x : Self) → IsSpelled x → text.now ≢ name x) (λ x. IsSpelled x × (text.now ≡ name x)) };

    ghost law: { IsSpelling name IsSpelled };
}

/// A value of which plans and set words are made. Its spelling has no separator that ends values, and it is written too.
pub trait Field: Spelled {
    /// Appends the spelling of the value.
    fn add_to(&self, text: &mut Text) -> Result<(), Memory>
        ensures { OnOk result (text.new ≡ text.old ++ Self.name self.now) };

    ghost law: { IsFieldName Self.name Self.IsSpelled };
}

/// A value that stands in lists in strictly rising order: it has a place among those of its kind.
pub trait Listed: Spelled + Default {
    ghost place: { Self → ℕ };

    /// Whether it stands before another one of its kind.
    fn is_before(&self, next: &Self) -> bool
        ensures { result ≡ nat_lt (place self.now) (place next.now) };
}

/// The value before the first such separator, and what follows the separator.
pub fn value_until<T: Field>(text: &[u8], separator: u8) -> Option<(T, &[u8])>
    requires { IsTrue (is_separator separator) }
    ensures { MatchOption result
        ((x : T) (rest : List ℕ) → T.IsSpelled x → text.entry.now ≢ T.name x ++ separator ∷ rest)
        (λ r. T.IsSpelled r.0 × (text.entry.now ≡ T.name r.0 ++ separator ∷ r.1.now)) }
{
    let (word, rest) = cut(text, separator)?;
    let value = T::read(word)?;
    Some((value, rest))
}

/// The values that a text spells with a comma between them: at least one, and at most `CAP`.
pub fn list<T: Spelled + Default, const CAP: usize>(text: &[u8]) -> Option<ArrayVec<T, CAP>>
    ensures { MatchOption result
        ((xs : List T) → 1 ≤ length xs → length xs ≤ CAP → All T.IsSpelled xs → text.now ≢ commas (map T.name xs))
        (λ xs. (1 ≤ length xs.items) × (length xs.items ≤ CAP) × All T.IsSpelled xs.items × (text.now ≡ commas (map T.name xs.items))) }
{
    joined(text, b',')
}

/// The values that a text spells with such a separator between them: at least one, and at most `CAP`.
pub(crate) fn joined<T: Spelled + Default, const CAP: usize>(
    text: &[u8],
    separator: u8,
) -> Option<ArrayVec<T, CAP>>
    requires { IsListName separator T.name T.IsSpelled }
    ensures { MatchOption result
        ((xs : List T) → 1 ≤ length xs → length xs ≤ CAP → All T.IsSpelled xs → text.now ≢ join_with_byte separator (map T.name xs))
        (λ xs. (1 ≤ length xs.items) × (length xs.items ≤ CAP) × All T.IsSpelled xs.items × (text.now ≡ join_with_byte separator (map T.name xs.items))) }
{
    let mut values = ArrayVec::new();
    let mut rest = text;
    while let Some((word, more)) = cut(rest, separator) {
        values.try_push(T::read(word)?).ok()?;
        rest = more;
    }
    values.try_push(T::read(rest)?).ok()?;
    Some(values)
}

/// The values that a text spells with a comma between them, at least one and at most `CAP`, each with a
/// place before the next one's.
pub fn rising<T: Listed, const CAP: usize>(text: &[u8]) -> Option<ArrayVec<T, CAP>>
    ensures { MatchOption result
        ((xs : List T) → AreRising (map T.place xs) × (length xs ≤ CAP) × All T.IsSpelled xs → text.now ≢ commas (map T.name xs))
        (λ xs. (AreRising (map T.place xs.items) × (length xs.items ≤ CAP) × All T.IsSpelled xs.items) × (text.now ≡ commas (map T.name xs.items))) }
{
    let values = list::<T, CAP>(text)?;
    if rises(&values) { Some(values) } else { None }
}

/// Whether each value has a place before the next one's.
fn rises<T: Listed>(values: &[T]) -> bool
    ensures { IsTrue result ↔ IsStrictlyIncreasing (map T.place values.now) }
{
    values.is_sorted_by(|earlier, later| earlier.is_before(later))
}

/// Appends the spellings of values, with a comma between them.
pub fn add_list<T: Field>(text: &mut Text, values: &[T]) -> Result<(), Memory>
    ensures { OnOk result (text.new ≡ text.old ++ commas (map T.name values.now)) }
{
    add_joined(text, values, b',')
}

/// Appends the spellings of values, with such a separator between them.
#[tactic(auto, using(crate::proofs::Commas::with_separators))]
pub(crate) fn add_joined<T: Field>(
    text: &mut Text,
    values: &[T],
    separator: u8,
) -> Result<(), Memory>
    ensures { OnOk result (text.new ≡ text.old ++ join_with_byte separator (map T.name values.now)) }
{
    match values {
        [] => Ok(()),
        [first, rest @ ..] => {
            first.add_to(text)?;
            add_more(text, rest, separator)
        }
    }
}

/// Appends the spellings of values, with a separator before each.
fn add_more<T: Field>(text: &mut Text, values: &[T], separator: u8) -> Result<(), Memory>
    ensures { OnOk result (text.new ≡ text.old ++ flat_map (λ value. separator ∷ T.name value) values.now) }
{
    for value in values {
        text.push(separator)?;
        value.add_to(text)?;
    }
    Ok(())
}
