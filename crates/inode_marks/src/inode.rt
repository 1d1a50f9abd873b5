//! Two inodes in a sector, and the number of the first.

ghost use Rattle.std.specs.Prelude.{ℕ, ◌≡◌, ◌+◌, ◌%◌, ◌<◌, ◌≤◌, ◌^◌, IfSome, Some, bit_xor, true};
ghost use Rattle.crc32c.specs.Register.{register_before};
ghost use Rattle.inode_marks.specs.Inode.{after_number, has_extra, any_pair, are_ones, inode_pair, is_inode, is_pair, pair_number, stored_checksum, told_number};

use sector_fields::{SECTOR, u16_le};

/// An inode that has its number in its checksum uses at least so many bytes of its second half.
pub const LEAST_EXTRA: u16 = 4;

/// The most that it uses of them: all.
pub const MOST_EXTRA: u16 = 128;

/// The bytes of an inode.
const INODE: usize = 256;

/// The fewest ones of numbers that two inodes beside each other differ by: the second is a multiple of 32.
const FEWEST_ONES: u32 = 6;

/// The most of them, all bits of a number.
const MOST_ONES: u32 = 32;

/// The numbers that two inodes of a sector tell where the seed of their file system is taken for 0: theirs with that seed
/// added bit by bit.
#[derive(Clone, Copy, PartialEq, Eq)]
pub struct InodePair {
    /// What the first tells.
    pub first: u32,
    /// What the second tells.
    pub second: u32,
}

/// The numbers that two inodes of 256 bytes tell, whatever the file system, if the second number is a multiple of 32:
/// one sector of each 8 KiB of a table of inodes. None where the sector holds no two: an inode whose bytes past the
/// first 128 do not reach its checksum's upper half, pass its end or are no multiple of four; or numbers that follow each
/// other in no file system, or of which the second is no multiple of 32.
///
/// So two inodes count exactly where such a number and a seed are: `only` and `some`. Which they are in a file system
/// [`InodePair::number`] says: `numbers`, and of two of it that is the number of the first: `first`. Two inodes of another
/// file system may be told to have numbers that follow each other too: those that they have there, with the difference of
/// the seeds added. They count where these are not past the last inode here.
#[tactic(auto, unfolding(crate::specs::Inode::any_pair, crate::specs::Inode::are_beside), using(crate::proofs::Beside::only_beside, crate::proofs::Beside::some_beside, crate::proofs::Beside::same_number, crate::proofs::Numbers::only_pair))]
pub fn read_any_pair(sector: &[u8; SECTOR]) -> Option<InodePair>
    ensures pair { result ≡ any_pair sector.now }
    ensures only { (seed n : ℕ) → seed < 2 ^ 32 → n + 1 < 2 ^ 32 → (n + 1) % 32 ≡ 0
        → is_inode seed sector.now 0 n ≡ true → is_inode seed sector.now 256 (n + 1) ≡ true
        → result ≡ Some (record { first = bit_xor seed n; second = bit_xor seed (n + 1) }) }
    ensures some { IfSome result (λ pair. (seed : ℕ) × (n : ℕ) × ((n + 1) % 32 ≡ 0)
        × (is_inode seed sector.now 0 n ≡ true) × (is_inode seed sector.now 256 (n + 1) ≡ true)) }
    ensures numbers { IfSome result (λ pair. (seed inodes : ℕ) → seed < 2 ^ 32 → inodes < 2 ^ 32
        → pair_number seed inodes pair ≡ inode_pair seed inodes sector.now) }
    ensures first { (seed inodes n : ℕ) → seed < 2 ^ 32 → n < 2 ^ 32
        → is_pair seed inodes sector.now n ≡ true → inode_pair seed inodes sector.now ≡ Some n }
{
    if !has_extra(sector, 0) || !has_extra(sector, INODE) {
        return None;
    }
    let first = told_number(0, sector, 0);
    let second = told_number(0, sector, INODE);
    if are_ones(first ^ second) {
        Some(InodePair { first, second })
    } else {
        None
    }
}

/// Whether a number is ones alone in binary, from `FEWEST_ONES` to `MOST_ONES` of them.
#[tactic(auto, unfolding(crate::specs::Inode::are_ones))]
fn are_ones(difference: u32) -> bool
    ensures { result ≡ are_ones difference }
{
    (FEWEST_ONES..MOST_ONES + 1).any(|ones| difference as u64 == (1u64 << ones) - 1)
}

impl InodePair {
    /// The number of the first in the file system whose checksums begin with `seed` and which has `inodes`, if they are
    /// two of it.
    #[tactic(auto, unfolding(crate::specs::Inode::pair_number))]
    pub fn number(&self, seed: u32, inodes: u32) -> Option<u32>
        ensures number { result ≡ pair_number seed inodes self.now }
        ensures least { IfSome result (λ number. 1 ≤ number) }
    {
        let number = seed ^ self.first;
        if number % 2 == 1 && number < inodes && seed ^ self.second == number + 1 {
            Some(number)
        } else {
            None
        }
    }
}

/// Whether the inode at a byte uses bytes past its first 128 as an inode with a whole checksum may.
#[tactic(auto, unfolding(crate::specs::Inode::has_extra))]
fn has_extra(sector: &[u8; SECTOR], at: usize) -> bool
    requires { at + 256 ≤ SECTOR }
    ensures { result ≡ has_extra sector.now at }
{
    let extra = u16_le(sector, at + 128);
    LEAST_EXTRA <= extra && extra <= MOST_EXTRA && extra % 4 == 0
}

/// The number with which the checksum of the inode at a byte is right.
#[tactic(auto, unfolding(crate::specs::Inode::told_number))]
fn told_number(seed: u32, sector: &[u8; SECTOR], at: usize) -> u32
    requires { at + 256 ≤ SECTOR }
    ensures { result ≡ told_number seed sector.now at }
{
    seed ^ crc32c::before(before_inode(sector, at), &[0, 0, 0, 0])
}

/// The register from which the generation and the inode at a byte leave its checksum.
#[tactic(auto, unfolding(crate::specs::Inode::after_number), using(crate::proofs::Pieces::pieces))]
fn before_inode(sector: &[u8; SECTOR], at: usize) -> u32
    requires { at + 256 ≤ SECTOR }
    ensures { result ≡ register_before (stored_checksum sector.now at) (after_number sector.now at) }
{
    let high = crc32c::before(stored_checksum(sector, at), &sector[at + 132..at + 256]);
    let extra = crc32c::before(crc32c::before(high, &[0, 0]), &sector[at + 126..at + 130]);
    let core = crc32c::before(crc32c::before(extra, &[0, 0]), &sector[at..at + 124]);
    crc32c::before(core, &sector[at + 100..at + 104])
}

/// The checksum that the inode at a byte keeps.
#[tactic(auto, unfolding(crate::specs::Inode::stored_checksum))]
fn stored_checksum(sector: &[u8; SECTOR], at: usize) -> u32
    requires { at + 256 ≤ SECTOR }
    ensures { result ≡ stored_checksum sector.now at }
{
    u16_le(sector, at + 124) as u32 + 65_536 * u16_le(sector, at + 130) as u32
}
