//! The family that admits all.
ghost use Rattle.std.specs.Prelude.{true};

use candidate_enum::Family;
use raid_params::Slots;
use slot_math::Space;

/// A space of which every prefix is admitted.
#[derive(Drop)]
pub struct Everything {
    /// The space.
    pub space: Space,
}

impl Family for Everything {
    type Kept = ();

    ghost space_of = { λ all. all.space };

    ghost admits = { λ _ _. true };

    ghost keeps = { λ _ _ _. Unit };

    fn space(&self) -> Space {
        self.space
    }

    fn kept_first(&self) {}

    fn kept_next(&self, _kept: &(), _prefix: &Slots) {}

    fn may_pass(&self, _prefix: &Slots, _kept: &()) -> bool {
        true
    }
}
