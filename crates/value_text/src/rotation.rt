//! A pattern, and for how many rows its parity stays.
ghost use Rattle.std.specs.Prelude.{◌≡◌, ◌≢◌, ◌≤◌, ◌<◌, ◌^◌, ℕ, decimal, MatchOption};
ghost use Rattle.value_text.specs.NameLaws.{in_lists};
ghost use Rattle.value_text.specs.RotationLaws.{IsRotation, called, rotation_law};

use crate::front::cut;
use crate::number::read_number;
use crate::spelled::{Field, Spelled};
use crate::text::{Text, add_number};
use outside::Memory;
use raid_params::Pattern;

/// How parity rotates: by a pattern, and staying for some rows before it moves on.
#[derive(Clone, Copy)]
pub(crate) struct Rotation {
    /// The pattern.
    pub(crate) pattern: Pattern,
    /// For how many rows parity stays.
    pub(crate) delay: u64,
}

/// A rotation: `PATTERN` where the delay is 1, otherwise `PATTERN*DELAY`.
impl Spelled for Rotation {
    ghost name = { called };

    ghost IsSpelled = { IsRotation };

    fn read(text: &[u8]) -> Option<Rotation> {
        match cut(text, b'*') {
            None => {
                let pattern = Pattern::read(text)?;
                Some(Rotation { pattern, delay: 1 })
            }
            Some((name, number)) => {
                let pattern = Pattern::read(name)?;
                let delay = read_delay(number)?;
                Some(Rotation { pattern, delay })
            }
        }
    }

    ghost law = { in_lists called IsRotation rotation_law };
}

impl Field for Rotation {
    fn add_to(&self, text: &mut Text) -> Result<(), Memory> {
        self.pattern.add_to(text)?;
        if self.delay == 1 {
            return Ok(());
        }
        text.push(b'*')?;
        add_number(text, self.delay)
    }

    ghost law = { rotation_law };
}

/// The delay that the whole text spells, where it is one that a word names: from 2 on and below 2^32.
fn read_delay(text: &[u8]) -> Option<u64>
    ensures { MatchOption result
        ((delay : ℕ) → 2 ≤ delay → delay < 2 ^ 32 → text.now ≢ decimal delay)
        (λ delay. (2 ≤ delay) × (delay < 2 ^ 32) × (text.now ≡ decimal delay)) }
{
    let delay = read_number(text)?;
    if 2 <= delay && delay <= u64::from(u32::MAX) {
        Some(delay)
    } else {
        None
    }
}
