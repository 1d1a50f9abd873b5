//! The offset of a parameter set: one that is common to all images, or a base for each.
ghost use Rattle.std.specs.Prelude.{◌≡◌, ◌≢◌, ◌++◌, ℕ, List, IsTrue, MatchOption, OnOk};
ghost use Rattle.raid_params.specs.Bases.{greatest_base, is_offset_of};
ghost use Rattle.value_text.specs.SetText.{HasOffset, offset_name};

use crate::spelled::{add_joined, joined};
use crate::text::{Text, add_number};
use arrayvec::ArrayVec;
use outside::Memory;
use raid_params::{MOST, SECTORS_END};

/// The end of the bases: 2^54.
const BASES_END: u64 = 1 << 54;

/// The offset that a text spells, and the bases where it spells them: then the offset is the greatest of them.
pub(crate) fn read_offset(text: &[u8]) -> Option<(u64, ArrayVec<u64, MOST>)>
    ensures { MatchOption result
        ((offset : ℕ) (bases : List ℕ) → HasOffset offset bases → text.now ≢ offset_name offset bases)
        (λ read. HasOffset read.0 read.1.items × IsTrue (is_offset_of read.1.items read.0) × (text.now ≡ offset_name read.0 read.1.items)) }
{
    let numbers: ArrayVec<u64, MOST> = joined(text, b'+')?;
    let greatest = greatest_of(&numbers);
    if numbers.len() == 1 && greatest < SECTORS_END {
        Some((greatest, ArrayVec::new()))
    } else if numbers.len() != 1 && greatest < BASES_END {
        Some((greatest, numbers))
    } else {
        None
    }
}

/// The greatest of bases, and 0 of none.
fn greatest_of(bases: &[u64]) -> u64
    ensures { result ≡ greatest_base bases.now }
{
    let mut greatest = 0;
    for base in bases {
        greatest = greatest.max(*base);
    }
    greatest
}

/// Appends the bases, or the offset where there are none.
pub(crate) fn add_offset(text: &mut Text, offset: u64, bases: &[u64]) -> Result<(), Memory>
    ensures { OnOk result (text.new ≡ text.old ++ offset_name offset bases.now) }
{
    if bases.is_empty() {
        add_number(text, offset)
    } else {
        add_joined(text, bases, b'+')
    }
}
