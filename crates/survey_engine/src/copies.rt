//! Where copies of superblocks of ext tell that inodes of ext4 lie.
ghost use Rattle.std.specs.Prelude.{◌≡◌, ◌^◌, ◌<◌, if◌then◌else◌, map, All, IfSome, IsTrue, OnOk};
ghost use Rattle.inode_marks.specs.Tables.{is_sound};
ghost use Rattle.outside.specs.Attached.{told_all};
ghost use Rattle.outside.specs.Causes.{HasCause};
ghost use Rattle.outside.specs.Seen.{OnlyReads, lengths_of};
ghost use Rattle.survey_engine.specs.Sightings.{IsInImages};
ghost use Rattle.survey_engine.specs.Telling.{bare, begins_copy, has_copy, landmark_by_copy, place_by, sighting_by_copy, told_by_copy};

use crate::landmark::{InodePlace, Landmark};
use crate::sighting::Sighting;
use inode_marks::{COPY_BYTES, COPY_SECTORS, InodePair, InodeTables, read_copy};
use outside::{Failed, Images};

/// Adds to each of the sightings what another tells of it, where inodes of ext4 are `asked` and that is a copy of a
/// superblock of ext of which its image has all sectors that are read.
pub fn tell_by_copy<I: Images>(
    images: &mut I,
    lengths: &[u64],
    asked: bool,
    by: &Sighting,
    found: &mut [Sighting],
) -> Result<(), Failed>
    requires by { IsInImages lengths.now by.now }
    requires lengths { lengths.now ≡ lengths_of (I.seen images.old).attached }
    requires short { All (λ n. n < 2 ^ 55) lengths.now }
    ensures told { OnOk result (IfSome (told_all (I.seen images.old).attached)
        (λ bytes. found.new ≡ map (λ s. told_by_copy asked lengths.now bytes s by.now) found.old)) }
    ensures alike { map bare found.new ≡ map bare found.old }
    ensures reads { OnlyReads (I.seen images.old) (I.seen images.new) (if has_copy asked lengths.now by.now then 256 else 0) }
    ensures cause { HasCause (I.seen images.old).faults (I.seen images.new).faults result }
{
    if !has_copy(asked, lengths, by) {
        return Ok(());
    }
    let mut copy = [0; COPY_BYTES];
    images.read(by.image as u32, by.sector, &mut copy)?;
    if let Some(tables) = read_copy(&copy) {
        place_all(&copy, &tables, found);
    }
    Ok(())
}

/// Whether inodes of ext4 are `asked`, and a sighting is a copy of which its image has all sectors that are read.
#[tactic(auto, unfolding(crate::specs::Telling::has_copy))]
fn has_copy(asked: bool, lengths: &[u64], sighting: &Sighting) -> bool
    requires sighting { IsInImages lengths.now sighting.now }
    requires short { All (λ n. n < 2 ^ 55) lengths.now }
    ensures { result ≡ has_copy asked lengths.now sighting.now }
{
    asked
        && begins_copy(&sighting.landmark)
        && sighting.sector + COPY_SECTORS as u64 <= lengths[sighting.image as usize]
}

/// Whether a landmark is a copy of a superblock of ext.
fn begins_copy(landmark: &Landmark) -> bool
    ensures { result ≡ begins_copy landmark.now }
{
    match landmark {
        Landmark::Ext(_) => true,
        _ => false,
    }
}

/// Adds to each of the sightings what a copy, which says this, tells of it.
#[tactic(auto, using(crate::proofs::Descriptors::placed_none, crate::proofs::Descriptors::placed_more, crate::proofs::Descriptors::placed_all))]
fn place_all(copy: &[u8; COPY_BYTES], tables: &InodeTables, found: &mut [Sighting])
    requires { IsTrue (is_sound tables.now) }
    ensures { found.new ≡ map (sighting_by_copy copy.now tables.now) found.old }
{
    for place in 0..found.len() {
        let sighting = found[place];
        found[place] = sighting_by_copy(copy, tables, &sighting);
    }
}

/// A sighting with what a copy tells of it.
fn sighting_by_copy(copy: &[u8; COPY_BYTES], tables: &InodeTables, sighting: &Sighting) -> Sighting
    requires { IsTrue (is_sound tables.now) }
    ensures { result ≡ sighting_by_copy copy.now tables.now sighting.now }
{
    Sighting {
        image: sighting.image,
        sector: sighting.sector,
        landmark: landmark_by_copy(copy, tables, &sighting.landmark),
    }
}

/// A landmark once a copy was read: of two inodes the first that tells counts.
fn landmark_by_copy(copy: &[u8; COPY_BYTES], tables: &InodeTables, landmark: &Landmark) -> Landmark
    requires { IsTrue (is_sound tables.now) }
    ensures { result ≡ landmark_by_copy copy.now tables.now landmark.now }
{
    match landmark {
        Landmark::Inodes(pair) => match place_by(copy, tables, pair) {
            Some(place) => Landmark::Placed(*pair, place),
            None => *landmark,
        },
        _ => *landmark,
    }
}

/// Where two inodes lie by a copy and the descriptors behind it, if they are two of its file system.
#[tactic(auto, unfolding(crate::specs::Telling::place_by))]
fn place_by(copy: &[u8; COPY_BYTES], tables: &InodeTables, pair: &InodePair) -> Option<InodePlace>
    requires { IsTrue (is_sound tables.now) }
    ensures { result ≡ place_by copy.now tables.now pair.now }
{
    let number = pair.number(tables.seed, tables.inodes)?;
    let sector = tables.copied_place(copy, number)?;
    Some(InodePlace {
        identifier: tables.uuid,
        sector,
    })
}
