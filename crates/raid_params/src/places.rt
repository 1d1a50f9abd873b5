//! The places of levels, patterns, orders of Q and numbers in the lists of a plan.
ghost use Rattle.std.specs.Prelude.{◌≡◌, ℕ};
ghost use Rattle.raid_params.specs.Places.{level_place, pattern_place, syndrome_place};

use crate::types::{Level, Pattern, Syndrome};

/// A value with a place among those of its kind, which the lists of a plan follow.
pub trait Placed {
    ghost place: { Self → ℕ };

    /// The place of the value, from 0.
    fn place(&self) -> u64
        ensures { result ≡ place self.now };
}

impl Placed for Level {
    ghost place = { level_place };

    fn place(&self) -> u64 {
        match self {
            Level::Raid0 => 0,
            Level::Raid5 => 1,
            Level::Raid6 => 2,
        }
    }
}

impl Placed for Pattern {
    ghost place = { pattern_place };

    fn place(&self) -> u64 {
        match self {
            Pattern::Plain => 0,
            Pattern::La => 1,
            Pattern::Ra => 2,
            Pattern::Ls => 3,
            Pattern::Rs => 4,
            Pattern::ParityFirst => 5,
            Pattern::ParityLast => 6,
            Pattern::NRestart => 7,
            Pattern::NContinue => 8,
            Pattern::La6 => 9,
            Pattern::Ra6 => 10,
            Pattern::Ls6 => 11,
            Pattern::Rs6 => 12,
            Pattern::ParityFirst6 => 13,
        }
    }
}

impl Placed for Syndrome {
    ghost place = { syndrome_place };

    fn place(&self) -> u64 {
        match self {
            Syndrome::NoQ => 0,
            Syndrome::AfterQ => 1,
            Syndrome::ByData => 2,
            Syndrome::BySlot => 3,
        }
    }
}

impl Placed for u8 {
    ghost place = { λ number. number };

    fn place(&self) -> u64 {
        u64::from(*self)
    }
}

impl Placed for u64 {
    ghost place = { λ number. number };

    fn place(&self) -> u64 {
        *self
    }
}
