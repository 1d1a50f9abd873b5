//! Reading what a request asks for.
ghost use Rattle.std.specs.Prelude.{ℕ, ◌≡◌, ◌+◌, ◌-◌, ◌*◌, ◌<◌, ◌≤◌, ◌^◌, ◌%◌, ◌++◌, true, length, slice_range, IfOk, IfSome, OnOk};
ghost use Rattle.std.specs.Result.{is_err};
ghost use Rattle.block_device.specs.Reading.{asked_for};
ghost use Rattle.nbd_text.specs.Requests.{is_read, simple_reply as simple_reply_of};

use block_device::{BlockDevice, read_bytes};
use nbd_text::numbers::*;
use nbd_text::{Request, simple_reply};
use outside::{Failed, Memory, SECTOR};
use std::alloc::Global;

/// Room for the sectors of the longest read, which may begin and end inside a sector, and for a sector before them, in whose last
/// bytes the head of the reply stands.
pub(crate) const ROOM: usize = SECTOR + MOST_BLOCK as usize + SECTOR;

/// Room for `count` bytes.
pub(crate) fn room_for(alloc: Global, count: usize) -> Result<Vec<u8>, Memory>
    ensures { IfOk result (λ room. length room.items ≡ count) }
{
    let room = vec![in alloc; 0u8; count].map_err(|_| Memory)?;
    Ok(room)
}

/// Copies a head in front of the bytes that stand at `at`.
fn put_head(room: &mut [u8], at: usize, head: &[u8])
    requires head { length head.now ≤ at }
    requires room { at ≤ length room.old }
    ensures { (count : ℕ) → at + count ≤ length room.old → slice_range room.new (at - length head.now) (at + count) ≡ head.now ++ slice_range room.old at (at + count) }
{
    room[at - head.len()..at].copy_from_slice(head);
}

/// Reads what a request asks for, and nothing else, and gives where the reply begins in the room.
pub(crate) fn read_request<D: BlockDevice>(
    device: &mut D,
    room: &mut [u8],
    request: &Request,
) -> Result<usize, Failed>
    requires room { length room.old ≡ ROOM }
    requires small { 512 * D.size device.old < 2 ^ 63 }
    requires read { is_read (512 * D.size device.old) request.now ≡ true }
    ensures within { IfOk result (λ start. start + (16 + request.now.length) ≤ ROOM) }
    ensures told { IfOk result (λ start. IfSome (D.content device.old) (λ content.
        slice_range room.new start (start + (16 + request.now.length)) ≡ simple_reply_of 0 request.now.handle ++ slice_range content request.now.offset (request.now.offset + request.now.length))) }
    ensures kept { (D.content device.new ≡ D.content device.old) × (D.size device.new ≡ D.size device.old) }
    ensures fixed { D.fixed device.new ≡ D.fixed device.old }
    ensures later { D.faults device.old ≤ D.faults device.new }
    ensures reads { D.reads device.old (asked_for request.now.offset request.now.length) (is_err result) device.new }
{
    read_bytes(
        device,
        &mut room[SECTOR..],
        request.offset,
        request.length as usize,
    )?;
    let at = SECTOR + (request.offset % SECTOR as u64) as usize;
    put_head(room, at, &simple_reply(0, request.handle));
    Ok(at - REPLY_HEAD)
}
