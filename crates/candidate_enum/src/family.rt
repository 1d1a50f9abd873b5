//! What a walk asks of a family of lists.
ghost use Rattle.std.specs.Prelude.{◌≡◌, ◌<◌, ◌-◌, [], List, Option, Bool, ℕ, length, take, filter};
ghost use Rattle.slot_math.specs.Space.{begins, lists_of};
ghost use Rattle.slot_math.specs.declared.space.Space.{Space as SpaceOf};

use raid_params::Slots;
use slot_math::Space;

/// A space of slot lists, and which prefixes it admits. Both are functions of the value.
///
/// Of a prefix something may be kept, by which those with one place more are tested sooner.
pub trait Family {
    /// What is kept of a prefix.
    type Kept: Copy;

    /// The space.
    ghost space_of: { Self → SpaceOf };

    /// Whether the prefix is admitted.
    ghost admits: { Self → List (Option ℕ) → Bool };

    /// Whether this may be kept of the prefix.
    ghost keeps: { Self → List (Option ℕ) → Self.Kept → Type 0 };

    /// The space.
    fn space(&self) -> Space
        ensures { result ≡ space_of self.now };

    /// What is kept of the empty prefix.
    fn kept_first(&self) -> Self::Kept
        ensures { keeps self.now [] result };

    /// What is kept of a prefix, by what is kept of it without its last place. It begins some list of the space.
    fn kept_next(&self, kept: &Self::Kept, prefix: &Slots) -> Self::Kept
        requires some { 0 < length prefix.now.items }
        requires begins { 0 < length (filter (begins prefix.now.items) (lists_of (space_of self.now))) }
        requires kept { keeps self.now (take (length prefix.now.items - 1) prefix.now.items) kept.now }
        ensures { keeps self.now prefix.now.items result };

    /// Whether the prefix is admitted, by what is kept of it. It begins some list of the space.
    fn may_pass(&self, prefix: &Slots, kept: &Self::Kept) -> bool
        requires begins { 0 < length (filter (begins prefix.now.items) (lists_of (space_of self.now))) }
        requires kept { keeps self.now prefix.now.items kept.now }
        ensures { result ≡ admits self.now prefix.now.items };
}
