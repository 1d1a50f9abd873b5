//! Ranges of the volume: parts of rows, and whole rows.
ghost use Rattle.std.specs.Prelude.{◌≡◌, ◌+◌, ◌*◌, ◌%◌, ◌/◌, ◌^◌, ◌<◌, ◌≤◌, IsTrue, OnOk, length};
ghost use Rattle.std.specs.List.{list_all};
ghost use Rattle.std.specs.Option.{is_some};
ghost use Rattle.outside.specs.Causes.{HasCause};
ghost use Rattle.raid_params.specs.Size.{volume_sectors};
ghost use Rattle.raid_params.specs.Validity.{is_valid_head};
ghost use Rattle.volume_device.specs.Cost.{IsStep, range_cost, row_sectors as row_sectors_of, step_cost};
ghost use Rattle.volume_device.specs.Kept.{CanRead, HasRead, most_kept};
ghost use Rattle.volume_device.specs.Sectors.{AreSectors};

use crate::kept::Kept;
use crate::runs::read_part;
use address_map::data_blocks;
use member_regions::BLOCK;
use outside::{Failed, Images, SECTOR};
use raid_params::{Geometry, Head};

/// Whether each slot holds an image.
fn is_full(geo: &Geometry) -> bool
    ensures { result ≡ list_all is_some geo.now.slots.items }
{
    geo.slots.iter().all(|held| held.is_some())
}

/// The sectors of the volume in a row of chunks.
pub fn row_sectors(head: &Head) -> u64
    requires { IsTrue (is_valid_head head.now) }
    ensures { result ≡ row_sectors_of head.now }
{
    data_blocks(head) as u64 * head.chunk
}

/// How many of the `left` sectors of the volume from `sector` on are read by one step: where a row begins and is asked for
/// whole, whole rows, of which the regions hold `most`; and else the part of the row.
fn step_sectors(row: u64, most: u64, sector: u64, left: u64) -> u64
    requires row { 0 < row }
    requires most { 1 ≤ most }
    requires fits { most * row < 2 ^ 64 }
    requires some { 1 ≤ left }
    ensures { IsStep row most sector left result }
{
    let into = sector % row;
    if into > 0 {
        return left.min(row - into);
    }
    if left < row {
        return left;
    }
    most.min(left / row) * row
}

/// Reads sectors of the volume from number `first` on, which are one step of a range. Where some member is missing the lost data of whole rows
/// are found together, before they are copied.
fn read_step<I: Images>(
    images: &mut I,
    kept: &mut Kept,
    geo: &Geometry,
    end: u64,
    first: u64,
    to: &mut [u8],
) -> Result<(), Failed>
    requires can { CanRead geo.now end (most_kept geo.now.head) (I.seen images.old).attached kept.old }
    requires whole { length to.old % 512 ≡ 0 }
    requires begins { row_sectors_of geo.now.head ≤ length to.old / 512 → first % row_sectors_of geo.now.head ≡ 0 }
    requires rows { row_sectors_of geo.now.head ≤ length to.old / 512 → length to.old / 512 % row_sectors_of geo.now.head ≡ 0 }
    requires short { length to.old / 512 / row_sectors_of geo.now.head * geo.now.head.chunk ≤ most_kept geo.now.head }
    requires inside { first + length to.old / 512 ≤ volume_sectors geo.now.head end }
    ensures told { OnOk result (AreSectors (I.seen images.old).attached geo.now first (length to.old / 512) to.new) }
    ensures read { HasRead geo.now (step_cost geo.now first (length to.old / 512)) (I.seen images.old) (I.seen images.new) kept.old kept.new }
    ensures cause { HasCause (I.seen images.old).faults (I.seen images.new).faults result }
{
    let row = row_sectors(&geo.head);
    let count = (to.len() / SECTOR) as u64;
    if count < row || is_full(geo) {
        return read_part(images, kept, geo, end, first, to);
    }
    let chunk = geo.head.chunk;
    kept.fill(
        images,
        geo,
        first / row * chunk,
        (count / row * chunk) as usize,
    )?;
    read_part(images, kept, geo, end, first, to)
}

/// How many of the `left` sectors of the volume from number `first` on are read by one step of [`read_range`].
pub fn step_of(head: &Head, first: u64, left: u64) -> u64
    requires head { IsTrue (is_valid_head head.now) }
    requires some { 1 ≤ left }
    ensures { IsStep (row_sectors_of head.now) (most_kept head.now / head.now.chunk) first left result }
{
    let most = head.chunk.max(BLOCK as u64) / head.chunk;
    step_sectors(row_sectors(head), most, first, left)
}

/// Reads sectors of the volume from number `first` on, by steps: whole rows, and parts of rows.
pub fn read_range<I: Images>(
    images: &mut I,
    kept: &mut Kept,
    geo: &Geometry,
    end: u64,
    first: u64,
    to: &mut [u8],
) -> Result<(), Failed>
    requires can { CanRead geo.now end (most_kept geo.now.head) (I.seen images.old).attached kept.old }
    requires whole { length to.old % 512 ≡ 0 }
    requires inside { first + length to.old / 512 ≤ volume_sectors geo.now.head end }
    ensures told { OnOk result (AreSectors (I.seen images.old).attached geo.now first (length to.old / 512) to.new) }
    ensures read { HasRead geo.now (range_cost geo.now first (length to.old / 512)) (I.seen images.old) (I.seen images.new) kept.old kept.new }
    ensures cause { HasCause (I.seen images.old).faults (I.seen images.new).faults result }
{
    let row = row_sectors(&geo.head);
    let most = geo.head.chunk.max(BLOCK as u64) / geo.head.chunk;
    let count = (to.len() / SECTOR) as u64;
    let mut at = 0;
    while at < count {
        let next = at + step_sectors(row, most, first + at, count - at);
        let part = &mut to[SECTOR * at as usize..SECTOR * next as usize];
        read_step(images, kept, geo, end, first + at, part)?;
        at = next;
    }
    Ok(())
}
