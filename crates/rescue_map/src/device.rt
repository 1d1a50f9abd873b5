//! Sectors of the volume where they are asked for.
ghost use Rattle.std.specs.Prelude.{◌≡◌, ◌+◌, ◌*◌, ◌%◌, ◌/◌, ◌<◌, ◌≤◌, ℕ, IfOk, IfSome, OnOk, false, true, length};
ghost use Rattle.std.specs.List.{list_any, range_with_len};
ghost use Rattle.outside.specs.Attached.{told_all};
ghost use Rattle.raid_params.specs.Size.{volume_sectors as volume_sectors_of};
ghost use Rattle.rescue_map.specs.Damaged.{is_lost as is_lost_of, IsDamaged, IsMendable, IsReadable};
ghost use Rattle.rescue_map.specs.Salvaged.{reads_for_all, salvaged_sectors, AreSalvaged, KeepLengths, ReadsUpTo};
ghost use Rattle.rescue_map.specs.Ways.{sectors_of, to_find, IsPart, IsWay};

use crate::damaged::{Damage, are_all_good};
use crate::filling::fill_step;
use crate::reading::read_step;
use crate::ways::{Way, way_of};
use address_map::locate;
use outside::{Failed, Images, SECTOR};

/// How many volume sectors from number `sector` on, `most` at most, lie beside each other in one chunk, where all members are good beside
/// them; 0 where they are not.
fn good_run(damage: &Damage, sector: u64, most: u64) -> u64
    requires set { IsDamaged damage.now.set.now damage.now.end }
    requires some { 1 ≤ most }
    requires within { sector + most ≤ volume_sectors_of damage.now.set.now.geo.head damage.now.end }
    ensures most { result ≤ most }
    ensures none { (v : ℕ) → sector ≤ v → v < sector + result → is_lost_of damage.now.rescue.now damage.now.set.now v ≡ false }
{
    let head = &damage.set.geo.head;
    let Some(home) = locate(head, damage.end, sector) else {
        return 0;
    };
    let run = most.min(head.chunk - sector % head.chunk);
    if are_all_good(damage.set, damage.rescue, home.sector, run) {
        return run;
    }
    0
}

/// How many volume sectors from number `sector` on, `most` at most, are seen together not to be lost; 0 where the first is lost.
pub(crate) fn kept_run(damage: &Damage, sector: u64, most: u64) -> u64
    requires set { IsDamaged damage.now.set.now damage.now.end }
    requires some { 1 ≤ most }
    requires within { sector + most ≤ volume_sectors_of damage.now.set.now.geo.head damage.now.end }
    ensures most { result ≤ most }
    ensures none { (v : ℕ) → sector ≤ v → v < sector + result → is_lost_of damage.now.rescue.now damage.now.set.now v ≡ false }
    ensures lost { result ≡ 0 → is_lost_of damage.now.rescue.now damage.now.set.now sector ≡ true }
{
    let good = good_run(damage, sector, most);
    if good > 0 {
        return good;
    }
    match way_of(damage, sector, most) {
        Way::Known(_, count) => count,
        Way::Found(_, _) => 1,
        Way::Lost => 0,
    }
}

/// Whether one of `count` volume sectors from number `first` on is lost. No image is read.
pub fn has_lost(damage: &Damage, first: u64, count: u64) -> bool
    requires set { IsMendable damage.now.set.now damage.now.end }
    requires within { first + count ≤ volume_sectors_of damage.now.set.now.geo.head damage.now.end }
    ensures { result ≡ list_any (is_lost_of damage.now.rescue.now damage.now.set.now) (range_with_len first count) }
{
    let mut at = 0;
    while at < count {
        let kept = kept_run(damage, first + at, count - at);
        if kept == 0 {
            return true;
        }
        at += kept;
    }
    false
}

/// Reads sectors of the volume that come about in one way into `to`. `row` is room for a sector of each member.
fn read_finished<I: Images>(
    images: &mut I,
    damage: &Damage,
    first: u64,
    way: &Way,
    row: &mut [u8],
    to: &mut [u8],
) -> Result<(), Failed>
    requires set { IsReadable damage.now.set.now damage.now.end (I.seen images.old).attached }
    requires way { IsWay damage.now.rescue.now damage.now.set.now first way.now }
    requires part { IsPart damage.now.set.now damage.now.end first (sectors_of way.now) row.old to.old }
    requires some { 0 < sectors_of way.now }
    ensures told { OnOk result (IfSome (told_all (I.seen images.old).attached)
        (λ bytes. AreSalvaged bytes damage.now.rescue.now damage.now.set.now first (sectors_of way.now) to.new)) }
    ensures lengths { KeepLengths to.old to.new row.old row.new }
    ensures reads { ReadsUpTo (I.seen images.old) (I.seen images.new) (reads_for_all damage.now.rescue.now damage.now.set.now first (sectors_of way.now)) result }
{
    read_step(images, damage, first, way, row, to)?;
    fill_step(damage, first, way, row, to);
    Ok(())
}

/// Reads sectors of the volume from number `first` on. Gives how many were found by their rows. `row` is room for a sector of each
/// member.
pub(crate) fn read_each<I: Images>(
    images: &mut I,
    damage: &Damage,
    first: u64,
    row: &mut [u8],
    to: &mut [u8],
) -> Result<usize, Failed>
    requires set { IsReadable damage.now.set.now damage.now.end (I.seen images.old).attached }
    requires whole { length to.old % 512 ≡ 0 }
    requires within { first + length to.old / 512 ≤ volume_sectors_of damage.now.set.now.geo.head damage.now.end }
    requires row { length row.old ≡ 512 * length damage.now.set.now.geo.slots.items }
    ensures found { IfOk result (λ found. found ≡ to_find damage.now.rescue.now damage.now.set.now first (length to.old / 512)) }
    ensures told { OnOk result (IfSome (told_all (I.seen images.old).attached)
        (λ bytes. to.new ≡ salvaged_sectors bytes damage.now.rescue.now damage.now.set.now first (length to.old / 512))) }
    ensures row { length row.new ≡ length row.old }
    ensures reads { ReadsUpTo (I.seen images.old) (I.seen images.new) (reads_for_all damage.now.rescue.now damage.now.set.now first (length to.old / 512)) result }
{
    let count = to.len() / SECTOR;
    let mut found = 0;
    let mut j = 0;
    while j < count {
        let sector = first + j as u64;
        let way = way_of(damage, sector, (count - j) as u64);
        let next = j + way.count() as usize;
        found += way.unsolved();
        let part = &mut to[SECTOR * j..SECTOR * next];
        read_finished(images, damage, sector, &way, row, part)?;
        j = next;
    }
    Ok(found)
}

/// Reads sectors of the volume from number `first` on, as [`salvage`](crate::salvage) writes them: those that lie beside each other and are
/// known by one call, others one by one, by the known cells of their rows; zeros where they are lost. `row` is room for a sector of each
/// member. It takes no memory.
pub fn read_salvaged<I: Images>(
    images: &mut I,
    damage: &Damage,
    first: u64,
    row: &mut [u8],
    to: &mut [u8],
) -> Result<(), Failed>
    requires set { IsReadable damage.now.set.now damage.now.end (I.seen images.old).attached }
    requires whole { length to.old % 512 ≡ 0 }
    requires within { first + length to.old / 512 ≤ volume_sectors_of damage.now.set.now.geo.head damage.now.end }
    requires row { length row.old ≡ 512 * length damage.now.set.now.geo.slots.items }
    ensures told { OnOk result (IfSome (told_all (I.seen images.old).attached)
        (λ bytes. to.new ≡ salvaged_sectors bytes damage.now.rescue.now damage.now.set.now first (length to.old / 512))) }
    ensures row { length row.new ≡ length row.old }
    ensures reads { ReadsUpTo (I.seen images.old) (I.seen images.new) (reads_for_all damage.now.rescue.now damage.now.set.now first (length to.old / 512)) result }
{
    read_each(images, damage, first, row, to)?;
    Ok(())
}
