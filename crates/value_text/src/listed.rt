//! The places of values in the lists of plans and of the command line.
ghost use Rattle.std.specs.Prelude.{◌≡◌};
ghost use Rattle.raid_params.specs.Places.{level_place, pattern_place, syndrome_place};

use crate::spelled::Listed;
use raid_params::{Level, Pattern, Placed, Syndrome};

impl Listed for Level {
    ghost place = { level_place };

    fn is_before(&self, next: &Self) -> bool {
        self.place() < next.place()
    }
}

impl Listed for Pattern {
    ghost place = { pattern_place };

    fn is_before(&self, next: &Self) -> bool {
        self.place() < next.place()
    }
}

impl Listed for Syndrome {
    ghost place = { syndrome_place };

    fn is_before(&self, next: &Self) -> bool {
        self.place() < next.place()
    }
}

impl Listed for u8 {
    ghost place = { λ number. number };

    fn is_before(&self, next: &Self) -> bool {
        *self < *next
    }
}

impl Listed for u64 {
    ghost place = { λ number. number };

    fn is_before(&self, next: &Self) -> bool {
        *self < *next
    }
}
