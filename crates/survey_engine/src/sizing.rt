//! How many bytes inodes of XFS have of which there is more than their first sector.
ghost use Rattle.std.specs.Prelude.{◌≡◌, ◌*◌, ◌^◌, ◌<◌, if◌then◌else◌, count_by, map, All, IfOk, IfSome, OnOk};
ghost use Rattle.outside.specs.Attached.{told_all};
ghost use Rattle.outside.specs.Causes.{HasCause};
ghost use Rattle.outside.specs.Seen.{OnlyReads, lengths_of};
ghost use Rattle.survey_engine.specs.Sightings.{AreSightings, IsInImages};
ghost use Rattle.survey_engine.specs.Sizing.{all_sized, has_run, is_unsized, landmark_by_run, sized};
ghost use Rattle.survey_engine.specs.Telling.{bare};

use crate::landmark::{InodeSeen, Landmark};
use crate::sighting::Sighting;
use outside::{Failed, Images};
use xfs5::{LARGEST_INODE, LARGEST_SECTORS, read_larger};

/// Finds out how many bytes each inode of XFS has of which there is more than its first sector, where they are `asked`. The
/// four sectors of the largest are read once for each of which its image has them.
pub fn size_inodes<I: Images>(
    images: &mut I,
    lengths: &[u64],
    asked: bool,
    found: &mut [Sighting],
) -> Result<(), Failed>
    requires found { AreSightings lengths.now found.old }
    requires lengths { lengths.now ≡ lengths_of (I.seen images.old).attached }
    requires short { All (λ n. n < 2 ^ 55) lengths.now }
    ensures sized { OnOk result (IfSome (told_all (I.seen images.old).attached)
        (λ bytes. found.new ≡ all_sized asked lengths.now bytes found.old)) }
    ensures alike { map bare found.new ≡ map bare found.old }
    ensures reads { OnlyReads (I.seen images.old) (I.seen images.new) (4 * count_by (has_run asked lengths.now) found.old) }
    ensures cause { HasCause (I.seen images.old).faults (I.seen images.new).faults result }
{
    for place in 0..found.len() {
        let sighting = found[place];
        found[place] = sized(images, lengths, asked, &sighting)?;
    }
    Ok(())
}

/// A sighting with how many bytes the inode has, where inodes are `asked`, it is one of which that is not known, and its
/// image has the sectors.
fn sized<I: Images>(
    images: &mut I,
    lengths: &[u64],
    asked: bool,
    sighting: &Sighting,
) -> Result<Sighting, Failed>
    requires sighting { IsInImages lengths.now sighting.now }
    requires lengths { lengths.now ≡ lengths_of (I.seen images.old).attached }
    requires short { All (λ n. n < 2 ^ 55) lengths.now }
    ensures sized { IfOk result (λ new. IfSome (told_all (I.seen images.old).attached)
        (λ bytes. new ≡ sized asked lengths.now bytes sighting.now)) }
    ensures alike { IfOk result (λ new. bare new ≡ bare sighting.now) }
    ensures reads { OnlyReads (I.seen images.old) (I.seen images.new) (if has_run asked lengths.now sighting.now then 4 else 0) }
    ensures cause { HasCause (I.seen images.old).faults (I.seen images.new).faults result }
{
    if !has_run(asked, lengths, sighting) {
        return Ok(*sighting);
    }
    let mut run = [0; LARGEST_INODE];
    images.read(sighting.image as u32, sighting.sector, &mut run)?;
    Ok(Sighting {
        image: sighting.image,
        sector: sighting.sector,
        landmark: landmark_by_run(&run, &sighting.landmark),
    })
}

/// Whether inodes are `asked`, and a sighting is one of which it is not known how many bytes it has, and of which its image
/// has the sectors of the largest.
#[tactic(auto, unfolding(crate::specs::Sizing::has_run))]
fn has_run(asked: bool, lengths: &[u64], sighting: &Sighting) -> bool
    requires sighting { IsInImages lengths.now sighting.now }
    requires short { All (λ n. n < 2 ^ 55) lengths.now }
    ensures { result ≡ has_run asked lengths.now sighting.now }
{
    asked
        && is_unsized(&sighting.landmark)
        && sighting.sector + LARGEST_SECTORS as u64 <= lengths[sighting.image as usize]
}

/// Whether a landmark is the first sector of an inode of which it is not known how many bytes it has.
fn is_unsized(landmark: &Landmark) -> bool
    ensures { result ≡ is_unsized landmark.now }
{
    match landmark {
        Landmark::Inode(seen) => seen.bytes.is_none(),
        _ => false,
    }
}

/// A landmark with how many bytes the inode has with which a run of sectors begins.
fn landmark_by_run(run: &[u8; LARGEST_INODE], landmark: &Landmark) -> Landmark
    ensures { result ≡ landmark_by_run run.now landmark.now }
{
    match landmark {
        Landmark::Inode(seen) => Landmark::Inode(InodeSeen {
            inode: seen.inode,
            bytes: read_larger(run),
        }),
        _ => *landmark,
    }
}
