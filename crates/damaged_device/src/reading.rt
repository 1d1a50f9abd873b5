//! Reading sectors of a damaged volume.
ghost use Rattle.std.specs.Prelude.{◌≡◌, ◌+◌, ◌*◌, ◌%◌, ◌/◌, ◌<◌, ◌≤◌, OnOk, length, true};
ghost use Rattle.outside.specs.Attached.{told_all};
ghost use Rattle.raid_params.specs.Size.{volume_sectors as volume_sectors_of};
ghost use Rattle.rescue_map.specs.Damaged.{IsMendable};
ghost use Rattle.rescue_map.specs.Salvaged.{ReadsUpTo, reads_for_all};
ghost use Rattle.damaged_device.specs.Reading.{AreGoodRows, AreSectorsOf, CanReadDamaged};

use outside::{Failed, Images, SECTOR};
use rescue_map::{Damage, are_all_good, read_salvaged};
use volume_device::{Kept, read_range, row_sectors, step_of};

/// Whether all members are good in the rows of chunks of `count` volume sectors from number `first` on.
fn rows_are_good(damage: &Damage, first: u64, count: u64) -> bool
    requires set { IsMendable damage.now.set.now damage.now.end }
    requires some { 1 ≤ count }
    requires within { first + count ≤ volume_sectors_of damage.now.set.now.geo.head damage.now.end }
    ensures { result ≡ true → AreGoodRows damage.now.rescue.now damage.now.set.now first count }
{
    let head = &damage.set.geo.head;
    let row = row_sectors(head);
    let start = first / row;
    let rows = (first + count - 1) / row + 1 - start;
    are_all_good(
        damage.set,
        damage.rescue,
        start * head.chunk,
        rows * head.chunk,
    )
}

/// Reads sectors of the volume from number `first` on, which are one step: as those of undamaged images where all is good beside them, and
/// else by what is known of each row.
fn read_step<I: Images>(
    images: &mut I,
    damage: &Damage,
    kept: &mut Kept,
    row: &mut [u8],
    first: u64,
    to: &mut [u8],
) -> Result<(), Failed>
    requires can { CanReadDamaged damage.now.set.now damage.now.end (I.seen images.old).attached kept.old row.old }
    requires whole { length to.old % 512 ≡ 0 }
    requires some { 0 < length to.old }
    requires within { first + length to.old / 512 ≤ volume_sectors_of damage.now.set.now.geo.head damage.now.end }
    ensures told { OnOk result (AreSectorsOf (told_all (I.seen images.old).attached) damage.now.rescue.now damage.now.set.now first (length to.old / 512) to.new) }
    ensures can { CanReadDamaged damage.now.set.now damage.now.end (I.seen images.new).attached kept.new row.new }
    ensures reads { ReadsUpTo (I.seen images.old) (I.seen images.new) (reads_for_all damage.now.rescue.now damage.now.set.now first (length to.old / 512)) result }
{
    if rows_are_good(damage, first, (to.len() / SECTOR) as u64) {
        return read_range(images, kept, &damage.set.geo, damage.end, first, to);
    }
    read_salvaged(images, damage, first, row, to)
}

/// Reads sectors of the volume from number `first` on, step by step.
pub(crate) fn read_steps<I: Images>(
    images: &mut I,
    damage: &Damage,
    kept: &mut Kept,
    row: &mut [u8],
    first: u64,
    to: &mut [u8],
) -> Result<(), Failed>
    requires can { CanReadDamaged damage.now.set.now damage.now.end (I.seen images.old).attached kept.old row.old }
    requires whole { length to.old % 512 ≡ 0 }
    requires within { first + length to.old / 512 ≤ volume_sectors_of damage.now.set.now.geo.head damage.now.end }
    ensures told { OnOk result (AreSectorsOf (told_all (I.seen images.old).attached) damage.now.rescue.now damage.now.set.now first (length to.old / 512) to.new) }
    ensures can { CanReadDamaged damage.now.set.now damage.now.end (I.seen images.new).attached kept.new row.new }
    ensures reads { ReadsUpTo (I.seen images.old) (I.seen images.new) (reads_for_all damage.now.rescue.now damage.now.set.now first (length to.old / 512)) result }
{
    let count = (to.len() / SECTOR) as u64;
    let mut at = 0;
    while at < count {
        let next = at + step_of(&damage.set.geo.head, first + at, count - at);
        let part = &mut to[SECTOR * at as usize..SECTOR * next as usize];
        read_step(images, damage, kept, row, first + at, part)?;
        at = next;
    }
    Ok(())
}
