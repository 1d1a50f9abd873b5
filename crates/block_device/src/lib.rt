//! A device of whole sectors that is only read, as a server of blocks sees it.
//!
//! It stands on `outside` alone. What a reading may do beside giving bytes is for each device to say (`reads`), so that who reads one
//! by [`BlockDevice`] alone asks for no other sectors than its contract says. A reading fails where a sector that it asks for is lost,
//! or what the device stands on fails, and for no other reason.
//! [`read_bytes`] reads bytes that begin and end inside sectors.
#![tactic(auto)]

mod reading;

ghost use Rattle.std.specs.Prelude.{◌≡◌, ◌<◌, ◌≤◌, ◌+◌, ◌*◌, ◌/◌, ◌%◌, ℕ, Bool, List, length, slice_range, OnOk, IfSome};
ghost use Rattle.std.specs.Result.{is_err};
ghost use Rattle.std.specs.declared.option.Option.{Option};
ghost use Rattle.block_device.specs.Content.{Fixed, IsContent};
ghost use Rattle.block_device.specs.Reading.{Asked, FailsFor, is_any_lost};

use outside::Failed;
pub use reading::read_bytes;

/// A device of whole sectors of 512 bytes that is only read.
pub trait BlockDevice {
    /// Its bytes, where they are known.
    ghost content: { Self → Option (List ℕ) };

    /// Its length in sectors.
    ghost size: { Self → ℕ };

    /// Whether a sector of it is lost: then its bytes cannot be had, and those of `content` stand for them.
    ghost lost: { Self → ℕ → Bool };

    /// The count of faults of what it stands on. It never falls.
    ghost faults: { Self → ℕ };

    /// What no reading changes of what it stands on.
    ghost fixed: { Self → Fixed };

    /// What a reading may do: the first device was asked for these sectors, failed or did not, and became the second. A device says
    /// here what its readings cost; `fails` says when they fail. Only a reading shows it: so it says which sectors were asked for.
    ghost reads: { Self → Asked → Bool → Self → Type 0 };

    /// Its length in sectors.
    fn sectors(&self) -> u64
        ensures { result ≡ size self.now };

    /// Fills `to` with the device's bytes from a sector on.
    ///
    /// `to` is a whole number of sectors, not 0, that lie within the device. Where it fails `to` holds unknown bytes; why it fails is
    /// said by `fails`.
    fn read(&mut self, first: u64, to: &mut [u8]) -> Result<(), Failed>
        requires whole { length to.old % 512 ≡ 0 }
        requires some { 0 < length to.old }
        requires inside { first + length to.old / 512 ≤ size self.old }
        ensures told { OnOk result (IfSome (content self.old) (λ bytes. to.new ≡ slice_range bytes (512 * first) (512 * first + length to.old))) }
        ensures kept { (content self.new ≡ content self.old) × (size self.new ≡ size self.old) }
        ensures fixed { fixed self.new ≡ fixed self.old }
        ensures later { faults self.old ≤ faults self.new }
        ensures reads { reads self.old (record { first = first; count = length to.old / 512 }) (is_err result) self.new };

    /// Its known bytes are 512 for each of its sectors.
    ghost whole: { (s : Self) → IsContent (content s) (size s) };

    /// A reading fails where one of the sectors that it was asked for is lost, or the count of faults rose in it, and for no other reason.
    ghost fails: { (before : Self) (asked : Asked) (failed : Bool) (after : Self) → reads before asked failed after →
        FailsFor (is_any_lost (lost before) asked) failed (faults before) (faults after) };
}
