//! Sectors of random words.
ghost use Rattle.std.specs.Prelude.{◌≡◌, ◌<◌, ◌+◌, ◌*◌, ◌≤◌, ◌^◌, ◌++◌, length};
ghost use Rattle.rand_xoshiro.specs.SplitMix64.{next_state};
ghost use Rattle.sample_arrays.specs.Words.{answers, random_sector as random_sector_of, state_after as state_after_words, word};

use arrayvec::ArrayVec;
use outside::SECTOR;
use rand_core::{Rng, SeedableRng};
use rand_xoshiro::SplitMix64;

/// A sector while it is made.
pub(crate) type Sector = ArrayVec<u8, SECTOR>;

/// The words of a sector.
const WORDS: u64 = 64;

/// By how much the state of the generator rises from one word to the next, modulo 2 to the power 64.
const STEP: u64 = 0x9e37_79b9_7f4a_7c15;

/// The state of the generator before word `words`, counted from 0.
#[tactic(auto, using(crate::proofs::States::state_at))]
fn state_after(number: u64, words: u64) -> u64
    ensures { result ≡ state_after_words words number }
{
    number.wrapping_add(words.wrapping_mul(STEP))
}

/// The next word.
fn next(generator: &mut SplitMix64) -> u64
    ensures word { result ≡ word generator.old }
    ensures rest { answers generator.new ≡ answers (next_state generator.old) }
{
    generator.next_u64()
}

/// Sector `sector` of the words that follow from a number.
#[tactic(auto, using(crate::proofs::States::no_words, crate::proofs::States::one_word_more, crate::proofs::States::all_words, crate::proofs::States::answers_next, crate::proofs::States::word_same, crate::proofs::States::state_more))]
pub(crate) fn random_sector(number: u64, sector: u64) -> Sector
    requires { WORDS * sector < 2 ^ 64 }
    ensures bytes { result.items ≡ random_sector_of number sector }
    ensures long { length result.items ≡ 512 }
{
    let mut generator = SplitMix64::seed_from_u64(state_after(number, WORDS * sector));
    let mut bytes = Sector::new();
    for _ in 0..WORDS {
        append(&mut bytes, &next(&mut generator).to_le_bytes());
    }
    bytes
}

/// Appends bytes for which there is room.
pub(crate) fn append(sector: &mut Sector, bytes: &[u8])
    requires { length sector.old.items + length bytes.now ≤ 512 }
    ensures items { sector.new.items ≡ sector.old.items ++ bytes.now }
    ensures long { length sector.new.items ≡ length sector.old.items + length bytes.now }
{
    sector.try_extend_from_slice(bytes).unwrap();
}
