//! Reads sectors of one member.
ghost use Rattle.std.specs.Prelude.{ℕ, ◌≡◌, if◌then◌else◌, ◌+◌, ◌%◌, ◌/◌, ◌^◌, ◌<◌, length, slice_index, false, OnOk, IfSome};
ghost use Rattle.std.specs.Option.{is_none};
ghost use Rattle.outside.specs.Attached.{told_all};
ghost use Rattle.outside.specs.Causes.{HasCause};
ghost use Rattle.outside.specs.Seen.{OnlyReads};
ghost use Rattle.raid_terms.specs.Parity.{member_byte};
ghost use Rattle.member_regions.specs.Members.{Reaches};

use outside::{Failed, Images};

/// Fills `to` with the sectors of the member in a slot from number `first` on, where there is one.
pub fn read_member<I: Images>(
    images: &mut I,
    held: Option<u8>,
    offset: u64,
    first: u64,
    to: &mut [u8],
) -> Result<(), Failed>
    requires held { Reaches (I.seen images.old).attached (offset + (first + length to.old / 512)) held }
    requires near { offset + first < 2 ^ 55 }
    requires whole { length to.old % 512 ≡ 0 }
    requires some { 0 < length to.old }
    ensures told { OnOk result (IfSome (told_all (I.seen images.old).attached)
        (λ bytes. (y : ℕ) → y < length to.new → is_none held ≡ false →
        slice_index to.new y ≡ member_byte bytes offset first y held)) }
    ensures reads { OnlyReads (I.seen images.old) (I.seen images.new) (if is_none held then 0 else length to.old / 512) }
    ensures cause { HasCause (I.seen images.old).faults (I.seen images.new).faults result }
{
    match held {
        Some(image) => images.read(image as u32, offset + first, to),
        None => Ok(()),
    }
}
