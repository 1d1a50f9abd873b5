//! Samples: some rows of each set, tested before the others.
ghost use Rattle.std.specs.Prelude.{ℕ, ◌≡◌, ◌+◌, ◌*◌, ◌^◌, ◌<◌, ◌≤◌, length, map, All, IfOk, IfSome, OnOk};
ghost use Rattle.std.specs.List.{range_with_len};
ghost use Rattle.std.specs.List.Sorted.{IsNonDecreasing, IsPermutation};
ghost use Rattle.outside.specs.Attached.{told_all};
ghost use Rattle.outside.specs.Causes.{HasCause};
ghost use Rattle.outside.specs.Seen.{OnlyReads};
ghost use Rattle.member_regions.specs.Regions.{KeepsRoom};
ghost use Rattle.parity_scan.specs.ImageRows.{rows_of as tested};
ghost use Rattle.parity_scan.specs.Pass.{BeginAnew, CanScan, IsScanned, TalliesSome, TalliesTo};
ghost use Rattle.parity_scan.specs.Samples.{sample_in, sample_of};
ghost use Rattle.parity_scan.specs.Tallies.{AllTallies, BeginsAs, KeepSettled, NoneOpen};

use crate::image_rows::rows_of;
use crate::runs::{Run, are_open};
use crate::scan_parts::Scanned;
use crate::tallies::{add_to_piece, sums_for};
use crate::tally::Tally;
use crate::wanted::wanted_images;
use member_regions::Regions;
use outside::{Failed, Images};
use raid_params::Geometry;
use search_scope::Scope;

/// The most sectors of each image that are read as samples.
pub const SAMPLES: usize = 64;

/// How far apart in their rows the samples of neighbouring sets lie, in parts of `SAMPLES`: prime to it, so that
/// sets which are alike are sampled all over.
const STEP: usize = 37;

/// Tests some rows of each open set, and settles those of which more are unsound than may be. The tallies that are still open
/// begin again then, so that no row counts twice.
pub fn test_samples<I: Images>(
    scanned: &Scanned,
    images: &mut I,
    regions: &mut Regions,
    tallies: &mut [Tally],
) -> Result<(), Failed>
    requires can { CanScan scanned.now.scope.now scanned.now.sets.now (I.seen images.old).attached regions.old }
    requires some { 1 ≤ length scanned.now.sets.now }
    requires long { length tallies.old ≡ length scanned.now.sets.now }
    requires begin { AllTallies (BeginsAs (told_all (I.seen images.old).attached) scanned.now.scope.now) scanned.now.sets.now tallies.old }
    ensures told { OnOk result (IfSome (told_all (I.seen images.old).attached)
        (λ bytes. AllTallies (TalliesTo bytes scanned.now.scope.now 0) scanned.now.sets.now tallies.new)) }
    ensures long { length tallies.new ≡ length scanned.now.sets.now }
    ensures settled { KeepSettled tallies.old tallies.new }
    ensures room { KeepsRoom regions.old regions.new }
    ensures reads { OnlyReads (I.seen images.old) (I.seen images.new) (length (I.seen images.old).attached * 64) }
    ensures closed { NoneOpen tallies.old → (I.seen images.new ≡ I.seen images.old) × (tallies.new ≡ tallies.old) }
    ensures cause { HasCause (I.seen images.old).faults (I.seen images.new).faults result }
{
    if !are_open(tallies) {
        return Ok(());
    }
    let points = sample_points(scanned);
    let mut at = 0;
    for k in 0..SAMPLES {
        at = test_sample(scanned, images, regions, tallies, at, points[k])?;
    }
    count_anew(scanned.scope, tallies);
    Ok(())
}

/// Lets the tallies that are open begin again.
fn count_anew(scope: &Scope, tallies: &mut [Tally])
    ensures anew { BeginAnew scope.now.limits.badrows tallies.old tallies.new }
    ensures long { length tallies.new ≡ length tallies.old }
{
    for i in 0..tallies.len() {
        if tallies[i].is_open() {
            tallies[i] = Tally::Left(scope.limits.badrows);
        }
    }
}

/// Tests the rows at an image sector, where it is not before `at`: up to there samples were taken. Ok says up to
/// where they are now.
fn test_sample<I: Images>(
    scanned: &Scanned,
    images: &mut I,
    regions: &mut Regions,
    tallies: &mut [Tally],
    at: u64,
    point: u64,
) -> Result<u64, Failed>
    requires can { CanScan scanned.now.scope.now scanned.now.sets.now (I.seen images.old).attached regions.old }
    requires long { length tallies.old ≡ length scanned.now.sets.now }
    ensures told { IfOk result (λ next. IfSome (told_all (I.seen images.old).attached)
        (λ bytes. AllTallies (TalliesSome bytes scanned.now.scope.now at) scanned.now.sets.now tallies.old → AllTallies (TalliesSome bytes scanned.now.scope.now next) scanned.now.sets.now tallies.new)) }
    ensures long { length tallies.new ≡ length scanned.now.sets.now }
    ensures settled { KeepSettled tallies.old tallies.new }
    ensures room { KeepsRoom regions.old regions.new }
    ensures reads { OnlyReads (I.seen images.old) (I.seen images.new) (length (I.seen images.old).attached) }
    ensures cause { HasCause (I.seen images.old).faults (I.seen images.new).faults result }
{
    if point < at || scanned.scope.end <= point {
        return Ok(at);
    }
    // Where all sets are settled, no image has to be looked up among them.
    if !are_open(tallies) {
        return Ok(at);
    }
    let run = Run {
        first: point,
        count: 1,
    };
    let wanted = wanted_images(scanned, tallies, run);
    regions.read(images, &wanted, 0, point, 1)?;
    let sums = sums_for(scanned.scope, tallies, regions, run);
    add_to_piece(scanned, 0, tallies, regions, &sums, run);
    Ok(point + 1)
}

/// The image sectors to take samples at, rising. Samples are spread over the sets, and each is a tested row of its set, where
/// that has one.
fn sample_points(scanned: &Scanned) -> [u64; SAMPLES]
    requires sets { All (IsScanned scanned.now.scope.now) scanned.now.sets.now }
    requires some { 1 ≤ length scanned.now.sets.now }
    ensures points { (none : Geometry) → IsPermutation (map (sample_of scanned.now.scope.now scanned.now.sets.now none) (range_with_len 0 64)) result }
    ensures rising { IsNonDecreasing result }
{
    let mut points = [0; SAMPLES];
    for k in 0..SAMPLES {
        let geo = &scanned.sets[k * scanned.sets.len() / SAMPLES];
        points[k] = sample_point(scanned.scope, geo, k);
    }
    points.sort_unstable();
    points
}

/// The image sector of the sample with a number, where it is taken of this set: so many parts into its tested rows.
fn sample_point(scope: &Scope, geo: &Geometry, number: usize) -> u64
    requires set { IsScanned scope.now geo.now }
    requires number { number < 64 }
    ensures point { result ≡ sample_in scope.now geo.now number }
    ensures tested { 1 ≤ tested scope.now geo.now → result < geo.now.head.offset + tested scope.now geo.now }
{
    let part = (number * STEP % SAMPLES) as u64;
    geo.head.offset + rows_of(scope, geo) * part / SAMPLES as u64
}
