//! The entries of a partition table.

ghost use Rattle.std.specs.Prelude.{◌≡◌, ◌+◌, ◌≤◌, ◌<◌, All, IfSome, ◌^◌};
ghost use Rattle.gpt_marks.specs.Entry.{first_lba, first_lbas, is_used_entry};

use sector_fields::{DISTANCE_LIMIT, SECTOR, has_bytes, u64_le};

/// The bytes of an entry: a sector has four.
const ENTRY: usize = 128;

/// The first block of each of the four entries of a sector of a table whose other header lies in
/// block `alternate`. None for an entry that is unused, that ends before it begins or past
/// `alternate`, or that begins at 2^55 or later.
#[tactic(auto, unfolding(crate::specs::Entry::first_lbas))]
pub fn read_entries(sector: &[u8; SECTOR], alternate: u64) -> [Option<u64>; 4]
    ensures firsts { result ≡ first_lbas sector.now alternate }
    ensures within { All (λ o. IfSome o (λ first. first < 2 ^ 55)) result }
{
    [
        read_entry(sector, alternate, 0),
        read_entry(sector, alternate, ENTRY),
        read_entry(sector, alternate, 2 * ENTRY),
        read_entry(sector, alternate, 3 * ENTRY),
    ]
}

/// The first block of the entry that begins at byte `at` of the sector, where the entry is used.
#[tactic(auto, unfolding(crate::specs::Entry::first_lba), using(crate::proofs::Limits::first_within))]
fn read_entry(sector: &[u8; SECTOR], alternate: u64, at: usize) -> Option<u64>
    requires { at + ENTRY ≤ SECTOR }
    ensures first { result ≡ first_lba sector.now alternate at }
    ensures within { IfSome result (λ first. first < 2 ^ 55) }
{
    if is_used(sector, alternate, at) {
        Some(u64_le(sector, at + 32))
    } else {
        None
    }
}

/// Whether the entry that begins at byte `at` is used: it has a type, and its blocks lie in order up to `alternate`,
/// the first of them below 2^55.
#[tactic(auto, unfolding(crate::specs::Entry::is_used_entry))]
fn is_used(sector: &[u8; SECTOR], alternate: u64, at: usize) -> bool
    requires { at + ENTRY ≤ SECTOR }
    ensures { result ≡ is_used_entry sector.now alternate at }
{
    let first = u64_le(sector, at + 32);
    let last = u64_le(sector, at + 40);
    !has_bytes(sector, at, &[0; 16]) && first <= last && last <= alternate && first < DISTANCE_LIMIT
}
