//! The images of an array.
ghost use Rattle.std.specs.Prelude.{◌≡◌, ◌==◌, ◌<◌, ◌≤◌, ◌*◌, ◌^◌, ◌++◌, [], ◌∷◌, All, IfOk, IfSome, IsTrue, OnOk, None, Some, decimal, false, length, unwrap_or};
ghost use Rattle.std.specs.Option.{option_map_or};
ghost use Rattle.image_source.specs.Memory.{no_images, told_bytes};
ghost use Rattle.landmark_rules.specs.Marks.{slot_holding};
ghost use Rattle.member_regions.specs.Members.{held as held_in};
ghost use Rattle.raid_params.specs.Size.{volume_sectors as volume_sectors_of};
ghost use Rattle.raid_params.specs.Validity.{first_fault, is_valid_head};
ghost use Rattle.raid_params.specs.declared.limits.TheConstants.{MOST};
ghost use Rattle.sample_arrays.specs.Arrays.{end_of, groups_of, image_of, sampled, slot_of as slot_of_image, IsFile};
ghost use Rattle.sample_arrays.specs.Marks.{volume_sector};

use crate::marks::{Filling, group_blocks};
use crate::members::image;
use address_map::{data_blocks, volume_sectors};
use image_source::MemImages;
use itoa::Buffer;
use outside::Memory;
use raid_params::{Geometry, Head};
use std::alloc::Global;

/// The most sectors of all members together, their offsets with them: 1 GiB.
pub const MOST_SAMPLED: u64 = 2_097_152;

/// The fewest sectors of a volume that has an XFS: one block for each of its groups.
pub const LEAST_MARKED: u64 = 512;

/// The images of an array of `rows` rows of chunks, one for each filled slot of the set: image `j` is the member
/// in the slot that names it, and its name is its number. The words of the volume are made from `number`, and
/// `xfs` says whether the volume has the groups of an XFS. Nothing is attached, and no call is listed to fail.
#[tactic(auto, using(crate::proofs::Sampled::none_sampled, crate::proofs::Sampled::one_sampled_more, crate::proofs::Sampled::none_long, crate::proofs::Sampled::one_long_more, crate::proofs::Sampled::near_end, crate::proofs::Sampled::few_slots, raid_layouts::proofs::Shapes::shaped_head, raid_layouts::proofs::Shapes::shaped_slots, raid_params::proofs::Ruled::ruled_shape))]
pub fn sample(
    alloc: Global,
    number: u64,
    geo: &Geometry,
    rows: u64,
    xfs: bool,
) -> Result<MemImages, Memory>
    requires set { first_fault geo.now (held_in geo.now.slots.items) (end_of geo.now.head rows) ≡ None }
    requires size { geo.now.head.members * end_of geo.now.head rows ≤ 2097152 }
    requires marked { IsTrue xfs → 512 ≤ volume_sectors_of geo.now.head (end_of geo.now.head rows) }
    ensures images { IfOk result (λ images. images ≡ record no_images { files = sampled number geo.now rows xfs }) }
    ensures long { OnOk result (All (IsFile (end_of geo.now.head rows)) (sampled number geo.now rows xfs)) }
{
    let blocks = groups(&geo.head, rows, xfs);
    let filling = Filling { number, blocks };
    let mut images = MemImages::new(alloc)?;
    for image in 0..count_held(&geo.slots) {
        add_image(alloc, &mut images, &filling, geo, rows, image)?;
    }
    Ok(images)
}

/// The blocks of a group of the volume, if it has an XFS.
#[tactic(auto, using(crate::proofs::Sampled::some_blocks, crate::proofs::Sampled::short_volume, address_map::proofs::Heads::some_data))]
fn groups(head: &Head, rows: u64, xfs: bool) -> Option<u32>
    requires head { IsTrue (is_valid_head head.now) }
    requires end { end_of head.now rows < 2 ^ 21 }
    requires marked { IsTrue xfs → 512 ≤ volume_sectors_of head.now (end_of head.now rows) }
    ensures blocks { result ≡ groups_of head.now rows xfs }
    ensures some { IfSome result (λ blocks. 1 ≤ blocks) }
{
    if !xfs {
        return None;
    }
    let sectors = volume_sectors(head, head.offset + rows * head.chunk);
    Some(group_blocks(sectors, data_blocks(head) as u64))
}

/// How many slots hold an image.
#[tactic(auto, unfolding(member_regions::specs::Members::held))]
pub fn count_held(slots: &[Option<u8>]) -> u8
    requires { length slots.now ≤ MOST }
    ensures { result ≡ held_in slots.now }
{
    slots.iter().filter(|held| held.is_some()).count() as u8
}

/// Adds an image of the array.
fn add_image(
    alloc: Global,
    images: &mut MemImages,
    filling: &Filling,
    geo: &Geometry,
    rows: u64,
    number: u8,
) -> Result<(), Memory>
    requires blocks { IfSome filling.now.blocks (λ blocks. 1 ≤ blocks) }
    requires head { IsTrue (is_valid_head geo.now.head) }
    requires slots { length geo.now.slots.items ≡ geo.now.head.members }
    requires offset { geo.now.head.offset < 2 ^ 32 }
    requires rows { rows * geo.now.head.chunk < 2 ^ 32 }
    ensures files { OnOk result (images.new ≡ record images.old {
      files = images.old.files ++
          (decimal number, image_of (volume_sector filling.now.number filling.now.blocks) geo.now.head rows (slot_of_image geo.now number)) ∷ [];
    }) }
    ensures long { OnOk result (length (image_of (volume_sector filling.now.number filling.now.blocks) geo.now.head rows (slot_of_image geo.now number)) ≡ 512 * end_of geo.now.head rows) }
    ensures told { OnOk result (told_bytes (image_of (volume_sector filling.now.number filling.now.blocks) geo.now.head rows (slot_of_image geo.now number))
        ≡ Some (image_of (volume_sector filling.now.number filling.now.blocks) geo.now.head rows (slot_of_image geo.now number))) }
{
    let slot = slot_of(&geo.slots, number);
    let bytes = image(alloc, filling, &geo.head, slot, rows)?;
    let mut buffer = Buffer::new();
    images.add(buffer.format(number), &bytes)
}

/// The slot that names an image, or the first one.
fn slot_of(slots: &[Option<u8>], image: u8) -> u8
    requires some { 1 ≤ length slots.now }
    requires few { length slots.now ≤ MOST }
    ensures slot { result ≡ unwrap_or (slot_holding image slots.now) 0 }
    ensures within { result < length slots.now }
{
    slot_named(slots, image).unwrap_or(0) as u8
}

/// The first slot that names an image.
#[tactic(auto, unfolding(landmark_rules::specs::Marks::slot_holding))]
fn slot_named(slots: &[Option<u8>], image: u8) -> Option<usize>
    ensures slot { result ≡ slot_holding image slots.now }
    ensures within { IfSome result (λ slot. slot < length slots.now) }
{
    slots.iter().position(|held| holds(held, image))
}

/// Whether the slot names the image.
fn holds(held: &Option<u8>, image: u8) -> bool
    ensures { result ≡ option_map_or (λ i. i == image) held.now false }
{
    match held {
        Some(other) => *other == image,
        None => false,
    }
}
