//! Which chunks have lost all their copies.
ghost use Rattle.std.specs.Prelude.{◌≡◌, ◌<◌, ◌≤◌, ◌^◌, IsTrue, slice_get};
ghost use Rattle.raid_params.specs.declared.limits.TheConstants.{MOST};
ghost use Rattle.near_mirror.specs.Heads.{is_valid_near};
ghost use Rattle.near_tables.specs.Torn.{is_gone as is_gone_of, is_lost as is_lost_of, lost_among, with_slots};

use near_mirror::NearHead;
use raid_params::count_empty;

/// Whether one of the first chunks of a mirror has lost all its copies where its slots begin so: each of its slots is there, and empty.
pub fn has_lost(head: &NearHead, slots: &[Option<u8>], chunks: u64) -> bool
    requires head { IsTrue (is_valid_near head.now) }
    requires chunks { chunks ≤ MOST }
    ensures { result ≡ lost_among chunks (with_slots head.now slots.now) }
{
    if count_empty(slots) < usize::from(head.layout.copies) {
        return false;
    }
    for chunk in 0..chunks {
        if is_lost(head, slots, chunk) {
            return true;
        }
    }
    false
}

/// Whether a chunk has.
fn is_lost(head: &NearHead, slots: &[Option<u8>], chunk: u64) -> bool
    requires head { IsTrue (is_valid_near head.now) }
    requires chunk { chunk < 2 ^ 60 }
    ensures { result ≡ is_lost_of (with_slots head.now slots.now) chunk }
{
    for copy in 0..head.layout.copies {
        if !is_gone(slots, usize::from(head.slot(copy, chunk))) {
            return false;
        }
    }
    true
}

/// Whether a slot is there, and empty.
fn is_gone(slots: &[Option<u8>], slot: usize) -> bool
    ensures { result ≡ is_gone_of (slice_get slots.now slot) }
{
    slot < slots.len() && slots[slot].is_none()
}
