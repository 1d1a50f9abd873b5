//! Reading rows of sectors of all images.
ghost use Rattle.std.specs.Prelude.{◌≡◌, ◌+◌, ◌*◌, ◌≤◌, IfOk, IfSome, OnOk, Some, length, map};
ghost use Rattle.std.specs.List.{range_with_len};
ghost use Rattle.outside.specs.Attached.{told_all};
ghost use Rattle.outside.specs.Causes.{HasCause};
ghost use Rattle.outside.specs.Seen.{OnlyReads};
ghost use Rattle.raid_params.specs.declared.limits.TheConstants.{MOST};
ghost use Rattle.member_regions.specs.Regions.{IsRoomFor};
ghost use Rattle.member_regions.specs.declared.regions.TheConstants.{BLOCK};
ghost use Rattle.search_plan.specs.Plans.{IsPlan, AgreeWith};
ghost use Rattle.xor_tables.specs.Xors.{AreSumsOf, HoldRows};

use member_regions::{BLOCK, ImageSum, Regions, sum_images};
use outside::{Failed, Images};
use raid_params::Slots;
use search_plan::Plan;

/// The exclusive or of the images of a plan in each of `count` rows of sectors from an image sector on, with room for
/// a block of each image: these sectors are in it then. Of other rows nothing is said.
pub(crate) fn row_sums<I: Images>(
    images: &mut I,
    regions: &mut Regions,
    plan: &Plan,
    sector: u64,
    count: usize,
) -> Result<[ImageSum; BLOCK], Failed>
    requires plan { IsPlan plan.now }
    requires images { AgreeWith plan.now (I.seen images.old).attached }
    requires room { IsRoomFor (length plan.now.lengths.items) BLOCK regions.old }
    requires some { 1 ≤ count }
    requires count { count ≤ BLOCK }
    requires within { sector + count ≤ plan.now.end }
    ensures told { IfOk result (λ sums. IfSome (told_all (I.seen images.old).attached)
        (λ bytes. AreSumsOf bytes (length plan.now.lengths.items) sector count sums)) }
    ensures hold { OnOk result (IfSome (told_all (I.seen images.old).attached)
        (λ bytes. HoldRows bytes (length plan.now.lengths.items) sector count regions.new)) }
    ensures room { IsRoomFor (length plan.now.lengths.items) BLOCK regions.new }
    ensures reads { OnlyReads (I.seen images.old) (I.seen images.new) (length plan.now.lengths.items * count) }
    ensures cause { HasCause (I.seen images.old).faults (I.seen images.new).faults result }
{
    let slots = all_images(plan.lengths.len());
    regions.read(images, &slots, sector, 0, count)?;
    Ok(sum_images(regions, plan.lengths.len(), count))
}

/// Slots that hold `count` images, each in the slot of its number.
fn all_images(count: usize) -> Slots
    requires { count ≤ MOST }
    ensures { result.items ≡ map (λ i. Some i) (range_with_len 0 count) }
{
    let mut slots = Slots::new();
    for image in 0..count {
        slots.push(Some(image as u8));
    }
    slots
}
