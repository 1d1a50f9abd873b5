//! The members of a set over a volume.
ghost use Rattle.std.specs.Prelude.{◌≡◌, ◌<◌, ◌≤◌, ◌+◌, ◌*◌, ◌^◌, ◌++◌, IfOk, IfSome, IsTrue, OnOk, length};
ghost use Rattle.raid_params.specs.Size.{data_blocks as data_blocks_of};
ghost use Rattle.raid_params.specs.Validity.{is_valid_head};
ghost use Rattle.raid_params.specs.declared.types.Level.TheVariants.{Raid6};
ghost use Rattle.sample_arrays.specs.Arrays.{end_of, image_of, member_sector, p_sector as p_sector_of, q_sector as q_sector_of, row_sector as row_sector_of, weight_of};
ghost use Rattle.sample_arrays.specs.Marks.{volume_sector as volume_sector_of};

use crate::marks::{Filling, volume_sector};
use crate::words::Sector;
use address_map::data_blocks;
use gf256::power;
use lane_kernels::{scale_xor, xor_into};
use member_regions::zeros;
use outside::{Memory, SECTOR};
use raid_layouts::{SlotRole, exponent, role, slot_of_item};
use raid_params::{Head, Level};
use std::alloc::Global;

/// The volume sector of an item at a sector of the members.
#[tactic(auto, using(address_map::proofs::Heads::some_chunk, crate::proofs::Near::row_near))]
fn row_sector(head: &Head, sector: u64, item: u8) -> u64
    requires head { IsTrue (is_valid_head head.now) }
    requires sector { sector < 2 ^ 32 }
    requires item { item < data_blocks_of head.now }
    ensures sector { result ≡ row_sector_of head.now sector item }
    ensures near { result < 2 ^ 40 }
{
    let chunk = sector / head.chunk * data_blocks(head) as u64 + item as u64;
    chunk * head.chunk + sector % head.chunk
}

/// The data of an item at a sector of the members.
fn data_sector(filling: &Filling, head: &Head, sector: u64, item: u8) -> Sector
    requires blocks { IfSome filling.now.blocks (λ blocks. 1 ≤ blocks) }
    requires head { IsTrue (is_valid_head head.now) }
    requires sector { sector < 2 ^ 32 }
    requires item { item < data_blocks_of head.now }
    ensures bytes { result.items ≡ volume_sector_of filling.now.number filling.now.blocks (row_sector_of head.now sector item) }
    ensures long { length result.items ≡ 512 }
{
    volume_sector(filling, row_sector(head, sector, item))
}

/// P at a sector of the members.
#[tactic(auto, using(crate::proofs::Sums::no_sectors, crate::proofs::Sums::one_sector_more))]
fn p_sector(filling: &Filling, head: &Head, sector: u64) -> [u8; SECTOR]
    requires blocks { IfSome filling.now.blocks (λ blocks. 1 ≤ blocks) }
    requires head { IsTrue (is_valid_head head.now) }
    requires sector { sector < 2 ^ 32 }
    ensures sum { result ≡ p_sector_of (volume_sector_of filling.now.number filling.now.blocks) head.now sector }
{
    let mut sum = [0u8; SECTOR];
    for item in 0..data_blocks(head) {
        xor_into(
            &mut sum,
            data_sector(filling, head, sector, item).as_slice(),
        );
    }
    sum
}

/// The weight of an item in Q: 2 to the power of its exponent.
#[tactic(auto, using(crate::proofs::Sums::holds_item))]
fn weight(head: &Head, row: u64, item: u8) -> u8
    requires head { IsTrue (is_valid_head head.now) }
    requires level { head.now.level ≡ Raid6 }
    requires item { item < data_blocks_of head.now }
    ensures { result ≡ weight_of head.now row item }
{
    power(exponent(head, row, slot_of_item(head, row, item)))
}

/// Q at a sector of the members.
#[tactic(auto, using(address_map::proofs::Heads::some_chunk, crate::proofs::Sums::no_sectors, crate::proofs::Sums::one_sector_more, crate::proofs::Sums::weighed))]
fn q_sector(filling: &Filling, head: &Head, sector: u64) -> [u8; SECTOR]
    requires blocks { IfSome filling.now.blocks (λ blocks. 1 ≤ blocks) }
    requires head { IsTrue (is_valid_head head.now) }
    requires level { head.now.level ≡ Raid6 }
    requires sector { sector < 2 ^ 32 }
    ensures sum { result ≡ q_sector_of (volume_sector_of filling.now.number filling.now.blocks) head.now sector }
{
    let row = sector / head.chunk;
    let mut sum = [0u8; SECTOR];
    for item in 0..data_blocks(head) {
        let data = data_sector(filling, head, sector, item);
        scale_xor(&mut sum, data.as_slice(), weight(head, row, item));
    }
    sum
}

/// Appends a sector of the member of a slot.
#[tactic(auto, using(address_map::proofs::Heads::some_chunk, crate::proofs::Roles::on_p, crate::proofs::Roles::on_q, crate::proofs::Roles::on_item, crate::proofs::Roles::level_of_q))]
fn add_sector(
    image: &mut Vec<u8>,
    filling: &Filling,
    head: &Head,
    slot: u8,
    sector: u64,
) -> Result<(), Memory>
    requires blocks { IfSome filling.now.blocks (λ blocks. 1 ≤ blocks) }
    requires head { IsTrue (is_valid_head head.now) }
    requires slot { slot < head.now.members }
    requires sector { sector < 2 ^ 32 }
    ensures bytes { OnOk result (image.new.items ≡ image.old.items
        ++ member_sector (volume_sector_of filling.now.number filling.now.blocks) head.now slot sector) }
    ensures long { OnOk result (length image.new.items ≡ length image.old.items + 512) }
{
    match role(head, sector / head.chunk, slot) {
        SlotRole::P => add(image, &p_sector(filling, head, sector)),
        SlotRole::Q => add(image, &q_sector(filling, head, sector)),
        SlotRole::Block(item) => add(image, data_sector(filling, head, sector, item).as_slice()),
    }
}

/// Appends bytes.
fn add(image: &mut Vec<u8>, bytes: &[u8]) -> Result<(), Memory>
    ensures bytes { OnOk result (image.new.items ≡ image.old.items ++ bytes.now) }
    ensures long { OnOk result (length image.new.items ≡ length image.old.items + length bytes.now) }
{
    image.extend_from_slice(bytes).map_err(|_| Memory)
}

/// The image of a slot: zeros up to the data offset, and then `rows` rows of its member.
#[tactic(auto, using(address_map::proofs::Heads::some_chunk, crate::proofs::Images::no_sectors, crate::proofs::Images::one_sector_more))]
pub(crate) fn image(
    alloc: Global,
    filling: &Filling,
    head: &Head,
    slot: u8,
    rows: u64,
) -> Result<Vec<u8>, Memory>
    requires blocks { IfSome filling.now.blocks (λ blocks. 1 ≤ blocks) }
    requires head { IsTrue (is_valid_head head.now) }
    requires slot { slot < head.now.members }
    requires offset { head.now.offset < 2 ^ 32 }
    requires rows { rows * head.now.chunk < 2 ^ 32 }
    ensures bytes { IfOk result (λ image. image.items ≡ image_of (volume_sector_of filling.now.number filling.now.blocks) head.now rows slot) }
    ensures long { IfOk result (λ image. length image.items ≡ 512 * end_of head.now rows) }
{
    let mut image = zeros(alloc, SECTOR * head.offset as usize)?;
    for sector in 0..rows * head.chunk {
        add_sector(&mut image, filling, head, slot, sector)?;
    }
    Ok(image)
}
