//! Reading sectors of a mirror of damaged images.
ghost use Rattle.std.specs.Prelude.{◌≡◌, ◌+◌, ◌*◌, ◌%◌, ◌/◌, ◌<◌, ◌≤◌, ℕ, IfSome, OnOk, length, false};
ghost use Rattle.std.specs.Result.{is_err};
ghost use Rattle.block_device.specs.Reading.{Answers, counts_of};
ghost use Rattle.outside.specs.Attached.{told_all};
ghost use Rattle.outside.specs.Causes.{HasCause};
ghost use Rattle.outside.specs.Seen.{OnlyReads};
ghost use Rattle.near_mirror.specs.Copies.{near_sectors};
ghost use Rattle.near_volume.specs.Mirrored.{IsMirrored};
ghost use Rattle.damaged_mirror.specs.Damaged.{is_lost as is_lost_of, mended_cost, mended_sectors};

use crate::good::{MirrorDamage, good_copy, has_lost, taken_run};
use near_volume::read_copy;
use outside::{Failed, Images, SECTOR};

/// Reads sectors of the volume from number `first` on, none of which is lost, run by run.
#[tactic(auto, using(near_volume::proofs::Mirrors::mirrored_mirror, near_volume::proofs::Mirrors::mirrored_held, near_volume::proofs::Mirrors::mirror_chunk))]
fn read_runs<I: Images>(
    images: &mut I,
    damage: &MirrorDamage,
    first: u64,
    to: &mut [u8],
) -> Result<(), Failed>
    requires set { IsMirrored damage.now.set.now damage.now.end (I.seen images.old).attached }
    requires whole { length to.old % 512 ≡ 0 }
    requires within { first + length to.old / 512 ≤ near_sectors damage.now.set.now.head damage.now.end }
    requires kept { (v : ℕ) → first ≤ v → v < first + length to.old / 512 → is_lost_of damage.now.rescue.now damage.now.set.now damage.now.end v ≡ false }
    ensures told { OnOk result (IfSome (told_all (I.seen images.old).attached)
        (λ bytes. to.new ≡ mended_sectors bytes damage.now.rescue.now damage.now.set.now damage.now.end first (length to.old / 512))) }
    ensures reads { OnlyReads (I.seen images.old) (I.seen images.new) (length to.old / 512) }
    ensures cause { HasCause (I.seen images.old).faults (I.seen images.new).faults result }
{
    let chunk = damage.set.head.chunk;
    let count = (to.len() / SECTOR) as u64;
    let mut done = 0;
    while done < count {
        let at = first + done;
        let copy = match good_copy(damage, at) {
            Some(copy) => copy,
            None => return Err(Failed),
        };
        let run = taken_run(damage, copy, at, (chunk - at % chunk).min(count - done));
        let part = &mut to[SECTOR * done as usize..SECTOR * (done + run) as usize];
        read_copy(images, damage.set, damage.end, copy, at, part)?;
        done += run;
    }
    Ok(())
}

/// Reads sectors of the volume from number `first` on, or fails where one of them is lost: then nothing is read.
pub(crate) fn read_damaged<I: Images>(
    images: &mut I,
    damage: &MirrorDamage,
    first: u64,
    to: &mut [u8],
) -> Result<(), Failed>
    requires set { IsMirrored damage.now.set.now damage.now.end (I.seen images.old).attached }
    requires whole { length to.old % 512 ≡ 0 }
    requires within { first + length to.old / 512 ≤ near_sectors damage.now.set.now.head damage.now.end }
    ensures told { OnOk result (IfSome (told_all (I.seen images.old).attached)
        (λ bytes. to.new ≡ mended_sectors bytes damage.now.rescue.now damage.now.set.now damage.now.end first (length to.old / 512))) }
    ensures only { OnlyReads (I.seen images.old) (I.seen images.new) (length to.old / 512) }
    ensures answers { Answers (mended_cost damage.now.rescue.now damage.now.set.now damage.now.end (record { first = first; count = length to.old / 512 }))
        (is_err result) (counts_of (I.seen images.old)) (counts_of (I.seen images.new)) }
{
    if has_lost(damage, first, (to.len() / SECTOR) as u64) {
        return Err(Failed);
    }
    read_runs(images, damage, first, to)
}
