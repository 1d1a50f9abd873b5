//! Reading rows for samples alone.
ghost use Rattle.std.specs.Prelude.{ℕ, List, ◌≡◌, ◌+◌, ◌*◌, ◌/◌, ◌^◌, ◌<◌, ◌≤◌, Some, map, min, length, IfErr, IfOk, IfSome, OnOk};
ghost use Rattle.std.specs.List.{range_with_len};
ghost use Rattle.outside.specs.Attached.{told_all};
ghost use Rattle.outside.specs.Causes.{HasCause};
ghost use Rattle.outside.specs.Seen.{OnlyReads};
ghost use Rattle.raid_params.specs.declared.limits.TheConstants.{MOST};
ghost use Rattle.member_regions.specs.Regions.{IsRoomFor};
ghost use Rattle.search_scope.specs.Scopes.{IsScope, AgreeWith};
ghost use Rattle.row_samples.specs.Rows.{most_kept as most_rows_kept, AreImageRows, EndsSamples};
ghost use Rattle.relation_prefix.specs.Sampled.{AreBelow};
ghost use Rattle.row_samples.specs.Spreads.{AreSampled, HasNone, LieBelow};

use crate::sampler::{RowSampler, most_kept};
use member_regions::Regions;
use outside::{Failed, Images};
use raid_params::{MOST, Slots};
use relation_prefix::SampledRows;
use search_scope::Scope;
use std::alloc::Global;
use thiserror::Error;

/// The rows that are read for each that is kept, at most.
pub const TRIES: u64 = 8;

/// How far the place of a row that is read moves within its part from one part to the next, in rows: an odd prime.
const STRIDE: u64 = 7919;

/// Why samples are not read.
#[derive(Clone, Copy, Debug, Drop, Error)]
pub enum SampleFault {
    /// The images failed.
    #[error("an image cannot be read")]
    ReadFault,
    /// Out of memory.
    #[error("not enough memory")]
    Memory,
}

/// Reads some of the first `rows` rows of sectors of the images of a scope from an offset on, and keeps what is asked of some of them.
/// Memory is taken before the first reading. `ReadFault` comes only where the images failed.
pub fn read_rows<I: Images>(
    alloc: Global,
    images: &mut I,
    scope: &Scope,
    rows: u64,
    offset: u64,
) -> Result<SampledRows, SampleFault>
    requires scope { IsScope scope.now }
    requires images { AgreeWith scope.now (I.seen images.old).attached }
    requires within { offset + rows ≤ scope.now.end }
    ensures images { IfOk result (λ kept. kept.images ≡ length scope.now.lengths.items) }
    ensures told { IfOk result (λ kept. IfSome (told_all (I.seen images.old).attached)
        (λ bytes. AreImageRows bytes (length scope.now.lengths.items) offset kept.list)) }
    ensures few { IfOk result (λ kept. length kept.list ≤ most_rows_kept scope.now.limits.badrows) }
    ensures below { IfOk result (λ kept. AreBelow rows kept.list) }
    ensures reads { OnlyReads (I.seen images.old) (I.seen images.new)
        (length scope.now.lengths.items * min (TRIES * most_rows_kept scope.now.limits.badrows) rows) }
    ensures ends { IfErr result (EndsSamples (I.seen images.old) (I.seen images.new)) }
    ensures stays { OnOk result ((I.seen images.new).faults ≡ (I.seen images.old).faults) }
{
    let count = scope.lengths.len();
    let badrows = scope.limits.badrows;
    let mut sampler = RowSampler::new(alloc, count, rows, badrows).map_err(
        |_| SampleFault::Memory,
    )?;
    let mut regions = Regions::new(alloc, count, 1).map_err(|_| SampleFault::Memory)?;
    let tries = (TRIES * most_kept(badrows) as u64).min(rows);
    fill(
        &mut sampler,
        images,
        &mut regions,
        scope,
        rows,
        tries,
        offset,
    )
    .map_err(|_| SampleFault::ReadFault)?;
    Ok(sampler.finish())
}

/// Reads `tries` of the first `rows` rows at most, with room for a sector of each image.
fn fill<I: Images>(
    sampler: &mut RowSampler,
    images: &mut I,
    regions: &mut Regions,
    scope: &Scope,
    rows: u64,
    tries: u64,
    offset: u64,
) -> Result<(), Failed>
    requires scope { IsScope scope.now }
    requires images { AgreeWith scope.now (I.seen images.old).attached }
    requires within { offset + rows ≤ scope.now.end }
    requires tries { tries ≤ rows }
    requires few { tries ≤ 32768 }
    requires room { IsRoomFor (length scope.now.lengths.items) 1 regions.old }
    requires none { HasNone (length scope.now.lengths.items) sampler.old }
    requires telling_room { sampler.old.telling.kept.most ≡ most_rows_kept scope.now.limits.badrows }
    requires others_room { sampler.old.others.kept.most ≡ most_rows_kept scope.now.limits.badrows }
    ensures telling_images { sampler.new.telling.kept.images ≡ length scope.now.lengths.items }
    ensures others_images { sampler.new.others.kept.images ≡ length scope.now.lengths.items }
    ensures told { OnOk result (IfSome (told_all (I.seen images.old).attached)
        (λ bytes. AreSampled bytes (length scope.now.lengths.items) offset sampler.new)) }
    ensures telling_few { length sampler.new.telling.kept.list ≤ most_rows_kept scope.now.limits.badrows }
    ensures others_few { length sampler.new.others.kept.list ≤ most_rows_kept scope.now.limits.badrows }
    ensures below { LieBelow rows sampler.new }
    ensures reads { OnlyReads (I.seen images.old) (I.seen images.new) (length scope.now.lengths.items * tries) }
    ensures cause { HasCause (I.seen images.old).faults (I.seen images.new).faults result }
{
    let slots = all_images(scope.lengths.len());
    for number in 0..tries {
        let row = try_row(rows, tries, number);
        if sampler.wants(row) {
            regions.read(images, &slots, offset, row, 1)?;
            sampler.offer(regions, row, 0);
        }
    }
    Ok(())
}

/// Slots that hold `count` images, each in the slot of its number.
fn all_images(count: usize) -> Slots
    requires { count ≤ MOST }
    ensures { result.items ≡ map (λ i. Some i) (range_with_len 0 count) }
{
    let mut slots = Slots::new();
    for image in 0..count {
        slots.push(Some(image as u8));
    }
    slots
}

/// The row that is read by its number, where `tries` of `rows` are: one in each of as many equal parts, at a place that differs from
/// part to part.
fn try_row(rows: u64, tries: u64, number: u64) -> u64
    requires rows { rows < 2 ^ 55 }
    requires tries { tries ≤ rows }
    requires few { tries ≤ 32768 }
    requires number { number < tries }
    ensures low { rows / tries * number ≤ result }
    ensures high { result < rows / tries * (number + 1) }
    ensures within { result < rows }
{
    let part = rows / tries;
    part * number + number * STRIDE % part
}
