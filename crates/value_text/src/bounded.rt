//! Lists of numbers, within the limits of what they count.
ghost use Rattle.std.specs.Prelude.{◌≡◌, ◌≢◌, ◌≤◌, ◌<◌, ◌^◌, ◌↔◌, ℕ, List, All, IsTrue, MatchOption, decimal, map};
ghost use Rattle.raid_params.specs.Validity.{is_chunk as is_chunk_size};
ghost use Rattle.value_text.specs.Bounded.{AreChunks, AreDelays, AreMembers, ArePlaces, AreSectors};
ghost use Rattle.value_text.specs.Spelling.{commas, pluses};

use crate::spelled::{joined, rising};
use arrayvec::ArrayVec;
use raid_params::{
    LONGEST_DELAY, MOST, MOST_CHUNKS, MOST_DELAYS, MOST_LESS_ONE, MOST_OFFSETS, SECTORS_END,
    is_chunk,
};

/// The fewest members of an array: at level 0 two.
const FEWEST_MEMBERS: u8 = 2;

/// The numbers of members of arrays that a text spells, in strictly rising order, with a comma between them.
pub fn read_members(text: &[u8]) -> Option<ArrayVec<u8, MOST_LESS_ONE>>
    ensures { MatchOption result
        ((ns : List ℕ) → AreMembers ns → text.now ≢ commas (map decimal ns))
        (λ ns. AreMembers ns.items × (text.now ≡ commas (map decimal ns.items))) }
{
    let members = rising(text)?;
    if are_members(&members) {
        Some(members)
    } else {
        None
    }
}

/// The delays that a text spells so: at most 16, each from 1 to 1,024.
pub fn read_delays(text: &[u8]) -> Option<ArrayVec<u64, MOST_DELAYS>>
    ensures { MatchOption result
        ((ns : List ℕ) → AreDelays ns → text.now ≢ commas (map decimal ns))
        (λ ns. AreDelays ns.items × (text.now ≡ commas (map decimal ns.items))) }
{
    let delays = rising(text)?;
    if are_delays(&delays) {
        Some(delays)
    } else {
        None
    }
}

/// The chunks that a text spells so, in sectors.
pub fn read_chunks(text: &[u8]) -> Option<ArrayVec<u64, MOST_CHUNKS>>
    ensures { MatchOption result
        ((ns : List ℕ) → AreChunks ns → text.now ≢ commas (map decimal ns))
        (λ ns. AreChunks ns.items × (text.now ≡ commas (map decimal ns.items))) }
{
    let chunks = rising(text)?;
    if are_chunks(&chunks) {
        Some(chunks)
    } else {
        None
    }
}

/// The places on an image or on the volume that a text spells so, in sectors: at most `CAP`.
pub fn read_sectors<const CAP: usize>(text: &[u8]) -> Option<ArrayVec<u64, CAP>>
    ensures { MatchOption result
        ((ns : List ℕ) → AreSectors CAP ns → text.now ≢ commas (map decimal ns))
        (λ ns. AreSectors CAP ns.items × (text.now ≡ commas (map decimal ns.items))) }
{
    let sectors = rising(text)?;
    if are_sectors(&sectors) {
        Some(sectors)
    } else {
        None
    }
}

/// The places that a text spells with a plus sign between them, one for each image, in sectors: from 1 to 64.
pub fn read_places(text: &[u8]) -> Option<ArrayVec<u64, MOST_OFFSETS>>
    ensures { MatchOption result
        ((ns : List ℕ) → ArePlaces ns → text.now ≢ pluses (map decimal ns))
        (λ ns. ArePlaces ns.items × (text.now ≡ pluses (map decimal ns.items))) }
{
    let places = joined(text, b'+')?;
    if are_sectors(&places) {
        Some(places)
    } else {
        None
    }
}

/// Whether each number is one of members that an array may have.
fn are_members(members: &[u8]) -> bool
    ensures { IsTrue result ↔ All (λ n. (2 ≤ n) × (n ≤ MOST)) members.now }
{
    members.iter().all(|count| FEWEST_MEMBERS <= *count && usize::from(*count) <= MOST)
}

/// Whether each number is one of rows for which parity may stay.
fn are_delays(delays: &[u64]) -> bool
    ensures { IsTrue result ↔ All (λ n. (1 ≤ n) × (n ≤ LONGEST_DELAY)) delays.now }
{
    delays
        .iter()
        .all(|delay| 1 <= *delay && *delay <= LONGEST_DELAY)
}

/// Whether each number is a chunk size.
fn are_chunks(chunks: &[u64]) -> bool
    ensures { IsTrue result ↔ All (λ n. IsTrue (is_chunk_size n)) chunks.now }
{
    chunks.iter().all(|chunk| is_chunk(*chunk))
}

/// Whether each number is one of a sector: below 2^55.
fn are_sectors(sectors: &[u64]) -> bool
    ensures { IsTrue result ↔ All (λ n. n < 2 ^ 55) sectors.now }
{
    sectors.iter().all(|sector| *sector < SECTORS_END)
}
