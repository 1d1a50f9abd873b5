//! The value that a line spells after its name.
ghost use Rattle.std.specs.Prelude.{◌≡◌, ◌≢◌, ◌≤◌, ◌<◌, ◌++◌, ◌↔◌, ℕ, Bool, true, List, All, IsTrue, decimal, length, map, MatchOption};
ghost use Rattle.search_plan.specs.Plans.{AreRising};
ghost use Rattle.value_text.specs.Bounded.{AreChunks, AreDelays, AreMembers};
ghost use Rattle.plan_text.specs.declared.parts.AfterPatterns.{AfterPatterns as AfterPatternsOf};
ghost use Rattle.plan_text.specs.Parts.{AreBelow, MayComeAfter, line_after};
ghost use Rattle.value_text.specs.Spelling.{commas};
ghost use Rattle.plan_text.specs.PlanText.{mode_line, some_delays as some_delays_of};

use crate::parts::AfterPatterns;
use arrayvec::ArrayVec;
use raid_params::{MOST_CHUNKS, MOST_DELAYS, MOST_LESS_ONE};
use value_text::{
    Listed, after, read_chunks, read_delays, read_members, read_number, read_sectors, rising,
};

/// Whether each image has an offset of its own, as a line says that is one of the mode.
pub fn mode_after(line: &[u8]) -> Option<bool>
    ensures { MatchOption result
        ((each : Bool) → line.now ≢ mode_line each)
        (λ each. line.now ≡ mode_line each) }
{
    if line == b"mode common".as_slice() {
        Some(false)
    } else if line == b"mode each".as_slice() {
        Some(true)
    } else {
        None
    }
}

/// The number from `least` to `most` that a line spells after the word.
pub fn number_after(line: &[u8], word: &[u8], least: u64, most: u64) -> Option<u64>
    ensures { MatchOption result
        ((n : ℕ) → (least ≤ n) × (n ≤ most) → line.now ≢ word.now ++ decimal n)
        (λ n. ((least ≤ n) × (n ≤ most)) × (line.now ≡ word.now ++ decimal n)) }
{
    let number = read_number(after(line, word)?)?;
    if least <= number && number <= most {
        Some(number)
    } else {
        None
    }
}

/// The list that a line spells after the word, of values in strictly rising order.
pub fn list_after<T: Listed, const CAP: usize>(line: &[u8], word: &[u8]) -> Option<ArrayVec<T, CAP>>
    ensures { MatchOption result
        ((xs : List T) → AreRising (map T.place xs) × (length xs ≤ CAP) × All T.IsSpelled xs → line.now ≢ word.now ++ commas (map T.name xs))
        (λ xs. (AreRising (map T.place xs.items) × (length xs.items ≤ CAP) × All T.IsSpelled xs.items) × (line.now ≡ word.now ++ commas (map T.name xs.items))) }
{
    rising(after(line, word)?)
}

/// The numbers of members that a line spells after the word.
pub fn members_after(line: &[u8], word: &[u8]) -> Option<ArrayVec<u8, MOST_LESS_ONE>>
    ensures { MatchOption result
        ((ns : List ℕ) → AreMembers ns → line.now ≢ word.now ++ commas (map decimal ns))
        (λ ns. AreMembers ns.items × (line.now ≡ word.now ++ commas (map decimal ns.items))) }
{
    read_members(after(line, word)?)
}

/// The chunks that a line spells after the word.
pub fn chunks_after(line: &[u8], word: &[u8]) -> Option<ArrayVec<u64, MOST_CHUNKS>>
    ensures { MatchOption result
        ((ns : List ℕ) → AreChunks ns → line.now ≢ word.now ++ commas (map decimal ns))
        (λ ns. AreChunks ns.items × (line.now ≡ word.now ++ commas (map decimal ns.items))) }
{
    read_chunks(after(line, word)?)
}

/// What a line spells that stands after the patterns: delays, which version 3 alone has, or orders of Q.
pub fn after_patterns(line: &[u8], third: bool) -> Option<AfterPatterns>
    ensures { MatchOption result
        ((what : AfterPatternsOf) → MayComeAfter third what → line.now ≢ line_after what)
        (λ what. MayComeAfter third what × (line.now ≡ line_after what)) }
{
    match after(line, b"delays ") {
        Some(text) if third => Some(AfterPatterns::Delays(other_delays(text)?)),
        Some(_) => None,
        None => Some(AfterPatterns::Syndromes(list_after(line, b"syndromes ")?)),
    }
}

/// The delays that a text spells, which are others than one alone.
fn other_delays(text: &[u8]) -> Option<ArrayVec<u64, MOST_DELAYS>>
    ensures { MatchOption result
        ((ns : List ℕ) → AreDelays ns × (some_delays_of ns ≡ true) → text.now ≢ commas (map decimal ns))
        (λ ns. (AreDelays ns.items × (some_delays_of ns.items ≡ true)) × (text.now ≡ commas (map decimal ns.items))) }
{
    let delays = read_delays(text)?;
    if some_delays(&delays) {
        Some(delays)
    } else {
        None
    }
}

/// Whether delays are others than one alone.
pub fn some_delays(delays: &[u64]) -> bool
    ensures { result ≡ some_delays_of delays.now }
{
    match delays {
        [delay] => *delay != 1,
        _ => true,
    }
}

/// The places that a line spells after the word, each below `end`.
pub fn sectors_after<const CAP: usize>(
    line: &[u8],
    word: &[u8],
    end: u64,
) -> Option<ArrayVec<u64, CAP>>
    ensures { MatchOption result
        ((ns : List ℕ) → AreBelow end CAP ns → line.now ≢ word.now ++ commas (map decimal ns))
        (λ ns. AreBelow end CAP ns.items × (line.now ≡ word.now ++ commas (map decimal ns.items))) }
{
    below(after(line, word)?, end)
}

/// The places that a text spells, each below `end`.
fn below<const CAP: usize>(text: &[u8], end: u64) -> Option<ArrayVec<u64, CAP>>
    ensures { MatchOption result
        ((ns : List ℕ) → AreBelow end CAP ns → text.now ≢ commas (map decimal ns))
        (λ ns. AreBelow end CAP ns.items × (text.now ≡ commas (map decimal ns.items))) }
{
    let sectors = read_sectors(text)?;
    if are_below(&sectors, end) {
        Some(sectors)
    } else {
        None
    }
}

/// Whether each number is below `end`.
fn are_below(sectors: &[u64], end: u64) -> bool
    ensures { IsTrue result ↔ All (λ n. n < end) sectors.now }
{
    sectors.iter().all(|sector| *sector < end)
}
