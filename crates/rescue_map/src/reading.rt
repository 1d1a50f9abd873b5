//! What is read of the images for sectors of the volume.
ghost use Rattle.std.specs.Prelude.{if◌then◌else◌, ℕ, ◌≡◌, ◌+◌, ◌*◌, ◌^◌, ◌<◌, length, slice_index, All, IfOk, IfSome, OnOk};
ghost use Rattle.outside.specs.Attached.{told_all};
ghost use Rattle.std.specs.Option.{is_none};
ghost use Rattle.member_regions.specs.Members.{held as held_of, Reaches};
ghost use Rattle.raid_terms.specs.Parity.{member_byte};
ghost use Rattle.rescue_map.specs.Damaged.{IsReadable};
ghost use Rattle.rescue_map.specs.Salvaged.{reads_for_all, HasRoom, HoldCells, IsRead, KeepLengths, ReadsUpTo};
ghost use Rattle.rescue_map.specs.Ways.{sectors_of, to_find, AreFound, IsPart, IsWay};

use crate::damaged::Damage;
use crate::ways::{Way, way_of};
use member_regions::read_member;
use outside::{Failed, Images, SECTOR};
use raid_params::Geometry;

/// Reads a sector of the member in a slot, zeros where there is none.
fn read_cell<I: Images>(
    images: &mut I,
    held: Option<u8>,
    offset: u64,
    sector: u64,
    to: &mut [u8],
) -> Result<(), Failed>
    requires held { Reaches (I.seen images.old).attached (offset + (sector + 1)) held }
    requires near { offset + sector < 2 ^ 55 }
    requires to { length to.old ≡ 512 }
    ensures told { OnOk result (IfSome (told_all (I.seen images.old).attached)
        (λ bytes. (x : ℕ) → x < 512 → slice_index to.new x ≡ member_byte bytes offset sector x held)) }
    ensures long { length to.new ≡ 512 }
    ensures reads { ReadsUpTo (I.seen images.old) (I.seen images.new) (if is_none held then 0 else 1) result }
{
    if held.is_none() {
        to.fill(0);
        return Ok(());
    }
    read_member(images, held, offset, sector, to)
}

/// Reads a sector of each member into `row`, one after the other, zeros where a slot is empty.
fn read_row<I: Images>(
    images: &mut I,
    geo: &Geometry,
    sector: u64,
    row: &mut [u8],
) -> Result<(), Failed>
    requires held { All (Reaches (I.seen images.old).attached (geo.now.head.offset + (sector + 1))) geo.now.slots.items }
    requires near { geo.now.head.offset + sector < 2 ^ 55 }
    requires row { length row.old ≡ 512 * length geo.now.slots.items }
    ensures told { OnOk result (IfSome (told_all (I.seen images.old).attached)
        (λ bytes. HoldCells bytes geo.now.slots.items geo.now.head.offset sector (length geo.now.slots.items) row.new)) }
    ensures long { length row.new ≡ length row.old }
    ensures reads { ReadsUpTo (I.seen images.old) (I.seen images.new) (held_of geo.now.slots.items) result }
{
    for (slot, held) in geo.slots.iter().enumerate() {
        let to = &mut row[SECTOR * slot..SECTOR * slot + SECTOR];
        read_cell(images, *held, geo.head.offset, sector, to)?;
    }
    Ok(())
}

/// Reads what is needed for sectors of the volume: themselves into `to` where they are known, the known cells of the row into `row`
/// where one is found by these, and nothing where it is lost.
pub(crate) fn read_step<I: Images>(
    images: &mut I,
    damage: &Damage,
    first: u64,
    way: &Way,
    row: &mut [u8],
    to: &mut [u8],
) -> Result<(), Failed>
    requires set { IsReadable damage.now.set.now damage.now.end (I.seen images.old).attached }
    requires way { IsWay damage.now.rescue.now damage.now.set.now first way.now }
    requires part { IsPart damage.now.set.now damage.now.end first (sectors_of way.now) row.old to.old }
    requires some { 0 < sectors_of way.now }
    ensures told { OnOk result (IfSome (told_all (I.seen images.old).attached)
        (λ bytes. AreFound bytes damage.now.rescue.now damage.now.set.now first (sectors_of way.now) row.new to.new)) }
    ensures lengths { KeepLengths to.old to.new row.old row.new }
    ensures reads { ReadsUpTo (I.seen images.old) (I.seen images.new) (reads_for_all damage.now.rescue.now damage.now.set.now first (sectors_of way.now)) result }
{
    let geo = &damage.set.geo;
    match way {
        Way::Known(home, _) => {
            let held = geo.slots[home.slot as usize];
            read_member(images, held, geo.head.offset, home.sector, to)
        }
        Way::Found(home, cells) => read_row(images, cells, home.sector, row),
        Way::Lost => Ok(()),
    }
}

/// Reads what is needed for `count` sectors of the volume from number `first` on: sectors into `block`, rows of sectors, one
/// a member, into `rows`. Gives how many are to be found by their rows.
pub(crate) fn read_block<I: Images>(
    images: &mut I,
    damage: &Damage,
    first: u64,
    count: usize,
    block: &mut [u8],
    rows: &mut [u8],
) -> Result<usize, Failed>
    requires set { IsReadable damage.now.set.now damage.now.end (I.seen images.old).attached }
    requires room { HasRoom damage.now.set.now damage.now.end first count block.old rows.old }
    ensures found { IfOk result (λ found. found ≡ to_find damage.now.rescue.now damage.now.set.now first count) }
    ensures told { OnOk result (IfSome (told_all (I.seen images.old).attached)
        (λ bytes. (j : ℕ) → j < count → IsRead bytes damage.now.rescue.now damage.now.set.now first rows.new block.new j)) }
    ensures lengths { KeepLengths block.old block.new rows.old rows.new }
    ensures reads { ReadsUpTo (I.seen images.old) (I.seen images.new) (reads_for_all damage.now.rescue.now damage.now.set.now first count) result }
{
    let stride = SECTOR * damage.set.geo.slots.len();
    let mut found = 0;
    let mut j = 0;
    while j < count {
        let sector = first + j as u64;
        let way = way_of(damage, sector, (count - j) as u64);
        let next = j + way.count() as usize;
        found += way.unsolved();
        let row = &mut rows[stride * j..stride * j + stride];
        let to = &mut block[SECTOR * j..SECTOR * next];
        read_step(images, damage, sector, &way, row, to)?;
        j = next;
    }
    Ok(found)
}
