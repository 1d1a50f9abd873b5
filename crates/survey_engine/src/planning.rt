//! The survey.
ghost use Rattle.std.specs.Prelude.{◌≡◌, ◌≤◌, length, IfErr, IfOk, OnOk, IfSome};
ghost use Rattle.outside.specs.Attached.{told_all};
ghost use Rattle.outside.specs.Seen.{OnlyReads, lengths_of};
ghost use Rattle.search_plan.specs.Plans.{IsPlan};
ghost use Rattle.survey_engine.specs.Surveys.{survey_reads, Adds, EndsSurvey, IsSurveyable, Repeats};

use crate::ask::Ask;
use crate::gathering::gather;
use crate::grouping::groups;
use crate::hints::{headers_of, origins};
use crate::sizing::size_inodes;
use crate::tables::{add_tables, read_tables};
use crate::telling::tell;
use arrayvec::ArrayVec;
use landmark_rules::MarkTests;
use outside::Images;
use raid_params::{Bounds, MOST};
use search_plan::Plan;
use std::alloc::Global;
use thiserror::Error;

/// Why there is no plan.
#[derive(Clone, Copy, Debug, Drop, Error)]
pub enum SurveyFault {
    /// The images failed.
    #[error("an image cannot be read")]
    ReadFault,
    /// Out of memory.
    #[error("not enough memory")]
    Memory,
}

/// Surveys the attached images: the plan repeats what was asked, and adds the images' lengths, the groups
/// of marks that the sightings make, and the origins that partition tables hint at.
///
/// Each sector from the smallest offset to the end is read once, and where partition tables are looked for at most one
/// sector of entries for each header that counts and that entries follow, where file records of NTFS are looked for 8 sectors
/// from each on that counts and that its image has whole, where inodes of XFS are looked for 4 sectors from
/// each that counts on with which one of more than 512 bytes may begin and of which its image has them, where tree blocks of
/// btrfs are looked for 32 sectors for each leaf of the tree of chunks that counts and that its image has whole, and, where
/// inodes of ext4 are, 256 sectors from each copy of a superblock of ext on that counts and of which its image has them.
pub fn survey<I: Images>(alloc: Global, images: &mut I, ask: &Ask) -> Result<Plan, SurveyFault>
    requires { IsSurveyable ask.now (I.seen images.old).attached }
    ensures plan { IfOk result IsPlan }
    ensures repeats { IfOk result (Repeats ask.now (I.seen images.old).attached) }
    ensures adds { IfOk result (λ plan. IfSome (told_all (I.seen images.old).attached)
        (λ bytes. Adds ask.now (I.seen images.old).attached bytes plan)) }
    ensures reads { OnlyReads (I.seen images.old) (I.seen images.new) (survey_reads ask.now (I.seen images.old).attached) }
    ensures ends { IfErr result (EndsSurvey (I.seen images.old) (I.seen images.new)) }
    ensures stays { OnOk result ((I.seen images.new).faults ≡ (I.seen images.old).faults) }
{
    let lengths = lengths(images);
    let mut found = gather(alloc, images, ask, &lengths)?;
    let asked = ask.tests.origins.as_slice();
    let headers = headers_of(ask.kinds.gpt, &found);
    let origins = origins(images, asked, &lengths, headers).map_err(|_| SurveyFault::ReadFault)?;
    let records = read_tables(alloc, images, &lengths, ask.kinds.mft, &found)?;
    let told = found.as_mut_slice();
    size_inodes(images, &lengths, ask.kinds.xfs5, told).map_err(|_| SurveyFault::ReadFault)?;
    tell(images, &lengths, &ask.kinds, told).map_err(|_| SurveyFault::ReadFault)?;
    let mut groups = groups(alloc, &ask.kinds, told).map_err(|_| SurveyFault::Memory)?;
    add_tables(alloc, &records, &mut groups).map_err(|_| SurveyFault::Memory)?;
    Ok(Plan {
        lengths,
        end: ask.end,
        bounds: copy_of_bounds(&ask.bounds),
        limits: ask.limits,
        tests: MarkTests {
            origins,
            misfits: ask.tests.misfits,
            least: ask.tests.least,
        },
        groups,
        each: ask.each,
    })
}

/// The lengths of the attached images.
#[tactic(auto, using(crate::proofs::Lengths::lengths_more, crate::proofs::Lengths::lengths_same, crate::proofs::Lengths::lengths_all))]
fn lengths<I: Images>(images: &I) -> ArrayVec<u64, MOST>
    requires { length (I.seen images.now).attached ≤ MOST }
    ensures { result.items ≡ lengths_of (I.seen images.now).attached }
{
    let mut lengths = ArrayVec::new();
    for image in 0..MOST as u32 {
        if let Some(length) = images.length(image) {
            lengths.push(length);
        }
    }
    lengths
}

/// A copy of the bounds, list by list.
fn copy_of_bounds(bounds: &Bounds) -> Bounds
    ensures { result ≡ bounds.now }
{
    Bounds {
        levels: copy_of(&bounds.levels),
        members: copy_of(&bounds.members),
        patterns: copy_of(&bounds.patterns),
        delays: copy_of(&bounds.delays),
        syndromes: copy_of(&bounds.syndromes),
        chunks: copy_of(&bounds.chunks),
        offsets: copy_of(&bounds.offsets),
        missing: bounds.missing,
        foreign: bounds.foreign,
    }
}

/// A copy of a list.
fn copy_of<T: Copy + Default, const N: usize>(list: &ArrayVec<T, N>) -> ArrayVec<T, N>
    ensures { result ≡ list.now }
{
    let mut copy = ArrayVec::new();
    copy.try_extend_from_slice(list.as_slice()).unwrap();
    copy
}
