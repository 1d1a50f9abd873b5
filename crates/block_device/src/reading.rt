//! Reading bytes that begin and end inside sectors.
ghost use Rattle.std.specs.Prelude.{◌≡◌, ◌+◌, ◌*◌, ◌/◌, ◌%◌, ◌<◌, ◌≤◌, length, slice_range, IfSome, OnOk};
ghost use Rattle.std.specs.Result.{is_err};
ghost use Rattle.block_device.specs.Reading.{asked_for};

use crate::BlockDevice;
use outside::{Failed, SECTOR};

/// Reads the sectors in which `count` bytes from `offset` on lie, so that the first of the bytes stands at `offset % SECTOR` of `room`.
///
/// The bytes lie within the device, and `room` holds those sectors. It asks once, for just these sectors, and fails where that
/// reading does; then `room` holds unknown bytes.
pub fn read_bytes<D: BlockDevice>(
    device: &mut D,
    room: &mut [u8],
    offset: u64,
    count: usize,
) -> Result<(), Failed>
    requires some { 0 < count }
    requires within { offset + count ≤ 512 * D.size device.old }
    requires room { 512 * ((offset % 512 + count + 511) / 512) ≤ length room.old }
    ensures told { OnOk result (IfSome (D.content device.old) (λ content.
        slice_range room.new (offset % 512) (offset % 512 + count) ≡ slice_range content offset (offset + count))) }
    ensures kept { (D.content device.new ≡ D.content device.old) × (D.size device.new ≡ D.size device.old) }
    ensures fixed { D.fixed device.new ≡ D.fixed device.old }
    ensures later { D.faults device.old ≤ D.faults device.new }
    ensures reads { D.reads device.old (asked_for offset count) (is_err result) device.new }
{
    let shift = (offset % SECTOR as u64) as usize;
    let sectors = (shift + count).div_ceil(SECTOR);
    device.read(offset / SECTOR as u64, &mut room[..SECTOR * sectors])
}
