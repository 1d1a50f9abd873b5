//! The count of a set's unsound rows, and the sets that nothing can break.
ghost use Rattle.std.specs.Prelude.{◌≡◌, ◌+◌, ◌-◌, ◌*◌, ◌^◌, ◌<◌, ◌≤◌, length, All, true, IfErr, IfOk, IfSome, OnOk};
ghost use Rattle.outside.specs.Attached.{told_all};
ghost use Rattle.outside.specs.Causes.{HasCause};
ghost use Rattle.outside.specs.Seen.{OnlyReads};
ghost use Rattle.raid_terms.specs.Parity.{tested_rows, unsound_rows};
ghost use Rattle.member_regions.specs.Members.{held, IsTestable, Reaches};
ghost use Rattle.member_regions.specs.Regions.{IsRoomFor, KeepsRoom};
ghost use Rattle.parity_scan.specs.Scan.{EndsScan, is_unbreakable, IsScannable, read_rows};

use crate::image_rows::rows_of;
use crate::rows::unsound_of;
use member_regions::{BLOCK, Regions};
use outside::{Failed, Images};
use raid_params::{Geometry, count_empty};
use search_scope::Scope;
use std::alloc::Global;
use thiserror::Error;

/// Why the unsound rows are not counted.
#[derive(Clone, Copy, Debug, Drop, Error)]
pub enum ScanFault {
    /// The images failed.
    #[error("an image cannot be read")]
    ReadFault,
    /// Out of memory.
    #[error("not enough memory")]
    Memory,
}

/// How many of the tested sector rows of a parameter set are unsound: those below its area, whose
/// whole rows end before the scope's `end`, and below the scope's `window`. Memory is taken before the
/// first reading. Nothing is read where nothing can break a row.
pub fn unsound<I: Images>(
    alloc: Global,
    images: &mut I,
    scope: &Scope,
    geo: &Geometry,
) -> Result<u64, ScanFault>
    requires set { IsScannable geo.now scope.now.end (I.seen images.old).attached }
    ensures told { IfOk result (λ n. IfSome (told_all (I.seen images.old).attached)
        (λ bytes. n ≡ unsound_rows bytes geo.now (tested_rows geo.now scope.now.end scope.now.limits.window))) }
    ensures reads { OnlyReads (I.seen images.old) (I.seen images.new)
        (length (I.seen images.old).attached * read_rows geo.now scope.now.end scope.now.limits.window) }
    ensures unread { is_unbreakable geo.now ≡ true → I.seen images.new ≡ I.seen images.old }
    ensures quiet { OnOk result ((I.seen images.new).faults ≡ (I.seen images.old).faults) }
    ensures ends { IfErr result (EndsScan (I.seen images.old) (I.seen images.new)) }
{
    let mut regions = Regions::new(alloc, geo.slots.len(), BLOCK).map_err(|_| ScanFault::Memory)?;
    count_unsound(images, &mut regions, scope, geo).map_err(|_| ScanFault::ReadFault)
}

/// How many of the tested sector rows of a parameter set are unsound, with room for the members' blocks. Nothing is read where
/// nothing can break a row.
fn count_unsound<I: Images>(
    images: &mut I,
    regions: &mut Regions,
    scope: &Scope,
    geo: &Geometry,
) -> Result<u64, Failed>
    requires set { IsScannable geo.now scope.now.end (I.seen images.old).attached }
    requires room { IsRoomFor (length geo.now.slots.items) BLOCK regions.old }
    ensures told { IfOk result (λ n. IfSome (told_all (I.seen images.old).attached)
        (λ bytes. n ≡ unsound_rows bytes geo.now (tested_rows geo.now scope.now.end scope.now.limits.window))) }
    ensures reads { OnlyReads (I.seen images.old) (I.seen images.new)
        (length (I.seen images.old).attached * read_rows geo.now scope.now.end scope.now.limits.window) }
    ensures unread { is_unbreakable geo.now ≡ true → I.seen images.new ≡ I.seen images.old }
    ensures cause { HasCause (I.seen images.old).faults (I.seen images.new).faults result }
    ensures room { KeepsRoom regions.old regions.new }
{
    if nothing_can_break(geo) {
        return Ok(0);
    }
    let rows = rows_of(scope, geo);
    count_rows(images, regions, geo, rows)
}

/// Whether each row of the set is sound whatever its bytes: as many slots are empty as the level has
/// redundancy.
pub fn nothing_can_break(geo: &Geometry) -> bool
    ensures { result ≡ is_unbreakable geo.now }
{
    count_empty(geo.slots.as_slice()) == geo.head.level.redundancy() as usize
}

/// How many of the first `rows` rows are unsound. They are read a block at a time.
fn count_rows<I: Images>(
    images: &mut I,
    regions: &mut Regions,
    geo: &Geometry,
    rows: u64,
) -> Result<u64, Failed>
    requires set { IsTestable geo.now }
    requires near { geo.now.head.offset + rows < 2 ^ 55 }
    requires held { 1 ≤ rows → All (Reaches (I.seen images.old).attached (geo.now.head.offset + rows)) geo.now.slots.items }
    requires room { IsRoomFor (length geo.now.slots.items) BLOCK regions.old }
    ensures told { IfOk result (λ n. IfSome (told_all (I.seen images.old).attached)
        (λ bytes. n ≡ unsound_rows bytes geo.now rows)) }
    ensures reads { OnlyReads (I.seen images.old) (I.seen images.new) (held geo.now.slots.items * rows) }
    ensures room { KeepsRoom regions.old regions.new }
    ensures cause { HasCause (I.seen images.old).faults (I.seen images.new).faults result }
{
    let mut sum = 0;
    let mut first = 0;
    while first < rows {
        let count = (rows - first).min(BLOCK as u64);
        sum += count_block(images, regions, geo, first, count)?;
        first += count;
    }
    Ok(sum)
}

/// How many of the `count` rows from `first` on are unsound. It reads a block of each member that is there.
fn count_block<I: Images>(
    images: &mut I,
    regions: &mut Regions,
    geo: &Geometry,
    first: u64,
    count: u64,
) -> Result<u64, Failed>
    requires set { IsTestable geo.now }
    requires near { geo.now.head.offset + (first + count) < 2 ^ 55 }
    requires held { All (Reaches (I.seen images.old).attached (geo.now.head.offset + (first + count))) geo.now.slots.items }
    requires room { IsRoomFor (length geo.now.slots.items) BLOCK regions.old }
    requires some { 1 ≤ count }
    requires most { count ≤ BLOCK }
    ensures told { IfOk result (λ n. IfSome (told_all (I.seen images.old).attached)
        (λ bytes. unsound_rows bytes geo.now (first + count) ≡ unsound_rows bytes geo.now first + n)) }
    ensures few { IfOk result (λ n. n ≤ count) }
    ensures reads { OnlyReads (I.seen images.old) (I.seen images.new) (held geo.now.slots.items * count) }
    ensures room { KeepsRoom regions.old regions.new }
    ensures cause { HasCause (I.seen images.old).faults (I.seen images.new).faults result }
{
    let count = count as usize;
    regions.read(images, &geo.slots, geo.head.offset, first, count)?;
    Ok(unsound_of(geo, regions, first, count))
}
