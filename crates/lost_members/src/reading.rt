//! Reads what the data of members are found by.
ghost use Rattle.std.specs.Prelude.{ℕ, ◌≡◌, ◌+◌, ◌*◌, ◌^◌, ◌<◌, ◌≤◌, length, All, OnOk, IfSome};
ghost use Rattle.outside.specs.Attached.{told_all};
ghost use Rattle.outside.specs.Causes.{HasCause};
ghost use Rattle.outside.specs.Seen.{OnlyReads};
ghost use Rattle.member_regions.specs.Members.{IsTestable, Reaches};
ghost use Rattle.lost_members.specs.Needs.{HoldNeeded, HoldNeededOf, needed_of, needed_sectors};

use crate::needs::{is_needed, run_end};
use member_regions::read_member;
use outside::{Failed, Images, SECTOR};
use raid_params::Geometry;

/// Reads those of `count` sectors of each member from member sector `first` on that the data are found
/// by, each into its region. A region has `stride` bytes.
#[tactic(auto, using(row_parity::proofs::Regions::region_inside))]
pub(crate) fn read_needed<I: Images>(
    images: &mut I,
    geo: &Geometry,
    sectors: &mut [u8],
    stride: usize,
    first: u64,
    count: usize,
) -> Result<(), Failed>
    requires set { IsTestable geo.now }
    requires held { All (Reaches (I.seen images.old).attached (geo.now.head.offset + (first + count)))
        geo.now.slots.items }
    requires near { geo.now.head.offset + (first + count) < 2 ^ 55 }
    requires sectors { stride * length geo.now.slots.items ≤ length sectors.old }
    requires fits { 512 * count ≤ stride }
    ensures told { OnOk result (IfSome (told_all (I.seen images.old).attached)
        (λ bytes. HoldNeeded bytes geo.now stride first count sectors.new)) }
    ensures reads { OnlyReads (I.seen images.old) (I.seen images.new) (needed_sectors geo.now first count) }
    ensures cause { HasCause (I.seen images.old).faults (I.seen images.new).faults result }
{
    for slot in 0..geo.slots.len() {
        let at = stride * slot;
        let to = &mut sectors[at..at + SECTOR * count];
        read_runs(images, to, geo, slot, first, count)?;
    }
    Ok(())
}

/// Reads the needed ones of `count` sectors of a slot, from member sector `first` on, neighbours by one
/// call.
fn read_runs<I: Images>(
    images: &mut I,
    to: &mut [u8],
    geo: &Geometry,
    slot: usize,
    first: u64,
    count: usize,
) -> Result<(), Failed>
    requires set { IsTestable geo.now }
    requires slot { slot < length geo.now.slots.items }
    requires held { All (Reaches (I.seen images.old).attached (geo.now.head.offset + (first + count)))
        geo.now.slots.items }
    requires near { geo.now.head.offset + (first + count) < 2 ^ 55 }
    requires room { length to.old ≡ 512 * count }
    ensures told { OnOk result (IfSome (told_all (I.seen images.old).attached)
        (λ bytes. HoldNeededOf bytes geo.now slot first count to.new)) }
    ensures reads { OnlyReads (I.seen images.old) (I.seen images.new) (needed_of geo.now first count slot) }
    ensures cause { HasCause (I.seen images.old).faults (I.seen images.new).faults result }
{
    let end = first + count as u64;
    let mut at = first;
    while at < end {
        let next = run_end(geo, slot, at, end);
        if is_needed(geo, slot, at) {
            let run = &mut to[SECTOR * (at - first) as usize..SECTOR * (next - first) as usize];
            read_member(images, geo.slots[slot], geo.head.offset, at, run)?;
        }
        at = next;
    }
    Ok(())
}
