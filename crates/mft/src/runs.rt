//! Runs of clusters.

ghost use Rattle.std.specs.Prelude.{◌≡◌, ◌+◌, ◌*◌, ◌^◌, ◌<◌, ◌≤◌, All, IfSome, IsTrue, length};
ghost use Rattle.std.specs.Option.{option_map};
ghost use Rattle.mft.specs.Runs.{data_from, clusters_at, count_bytes, distance_bytes, has_next, has_run, is_data, is_near_run, moved, near_run, next_run, run_at, runs_at, runs_from, runs_of};

use crate::fields::{byte_at, number_at, power};
use arrayvec::ArrayVec;
use sector_fields::DISTANCE_LIMIT;

/// The most runs of a table.
pub const MOST_RUNS: usize = 256;

/// The most attributes of a record of which one may be $DATA.
const MOST_ATTRIBUTES: u32 = 64;

/// The type of $DATA.
const DATA: u64 = 0x80;

/// The type that ends the attributes of a record.
const END: u64 = 0xFFFF_FFFF;

/// The fewest bytes of an attribute.
const LEAST_BYTES: usize = 24;

/// A run of clusters.
#[derive(Clone, Copy, Default, PartialEq, Eq)]
pub struct Run {
    /// Its first cluster.
    pub first: u64,
    /// How many clusters it has.
    pub count: u64,
}

/// Runs in their order.
pub type Runs = ArrayVec<Run, MOST_RUNS>;

/// The runs of $DATA of a file record, whose clusters have so many sectors: None where it has none without a name outside
/// the record among its first 64 attributes, or has more than 256 runs; where it is compressed or sparse; or where a run is
/// none, or ends at sector 2^55 or later.
#[tactic(auto, unfolding(crate::specs::Runs::runs_of))]
pub fn read_runs(cluster: u64, file: &[u8]) -> Option<Runs>
    requires file { length file.now ≤ 4096 }
    requires cluster { (1 ≤ cluster) × (cluster ≤ 4096) }
    ensures runs { option_map (λ runs. runs.items) result ≡ runs_of cluster file.now }
    ensures near { IfSome result (λ runs. All (λ run. IsTrue (is_near_run cluster run)) runs.items) }
{
    let first = number_at(file, 20, 2) as usize;
    match data_from(file, MOST_ATTRIBUTES, first) {
        Some(at) => runs_at(cluster, file, at),
        None => None,
    }
}

/// The runs of $DATA whose header begins at a byte.
#[tactic(auto, unfolding(crate::specs::Runs::runs_at))]
fn runs_at(cluster: u64, file: &[u8], at: usize) -> Option<Runs>
    requires file { length file.now ≤ 4096 }
    requires cluster { (1 ≤ cluster) × (cluster ≤ 4096) }
    requires at { at < 2 ^ 31 }
    ensures runs { option_map (λ runs. runs.items) result ≡ runs_at cluster file.now at }
    ensures near { IfSome result (λ runs. All (λ run. IsTrue (is_near_run cluster run)) runs.items) }
{
    let end = at + number_at(file, at + 4, 4) as usize;
    let first = at + number_at(file, at + 32, 2) as usize;
    runs_from(
        cluster,
        file,
        end,
        MOST_RUNS as u32,
        first,
        0,
        ArrayVec::new(),
    )
}

/// Where $DATA begins, among so many attributes from a byte on.
#[tactic(auto, using(crate::proofs::Steps::data_none, crate::proofs::Steps::data_step, crate::proofs::Steps::next_near))]
fn data_from(file: &[u8], left: u32, at: usize) -> Option<usize>
    requires file { length file.now ≤ 4096 }
    requires at { at < 2 ^ 17 }
    ensures data { result ≡ data_from file.now left at }
    ensures near { IfSome result (λ n. n < 2 ^ 17) }
{
    if left == 0 {
        return None;
    }
    if is_data(file, at) {
        return Some(at);
    }
    if has_next(file, at) {
        data_from(file, left - 1, at + number_at(file, at + 4, 4) as usize)
    } else {
        None
    }
}

/// Whether the attribute at a byte is $DATA without a name, outside the record, neither compressed nor sparse, and ends within
/// the record.
#[tactic(auto, unfolding(crate::specs::Runs::is_data))]
fn is_data(file: &[u8], at: usize) -> bool
    requires at { at < 2 ^ 17 }
    ensures { result ≡ is_data file.now at }
{
    number_at(file, at, 4) == DATA
        && at + (number_at(file, at + 4, 4) as usize) <= file.len()
        && byte_at(file, at + 8) == 1
        && byte_at(file, at + 9) == 0
        && number_at(file, at + 12, 2) == 0
        && number_at(file, at + 16, 8) == 0
}

/// Whether another attribute may follow the one at a byte.
#[tactic(auto, unfolding(crate::specs::Runs::has_next))]
fn has_next(file: &[u8], at: usize) -> bool
    requires at { at < 2 ^ 17 }
    ensures { result ≡ has_next file.now at }
{
    let bytes = number_at(file, at + 4, 4) as usize;
    number_at(file, at, 4) != END && LEAST_BYTES <= bytes && at + bytes <= file.len()
}

/// The runs from a byte on, up to the byte 0 that ends them, behind those before and a cluster: at most `left` more.
#[tactic(auto, using(crate::proofs::Steps::runs_end, crate::proofs::Steps::runs_none, crate::proofs::Steps::runs_step))]
fn runs_from(
    cluster: u64,
    file: &[u8],
    end: usize,
    left: u32,
    at: usize,
    from: u64,
    mut runs: Runs,
) -> Option<Runs>
    requires file { length file.now ≤ 4096 }
    requires cluster { (1 ≤ cluster) × (cluster ≤ 4096) }
    requires at { at + 31 * left < 2 ^ 32 }
    requires left { length runs.items + left ≤ 256 }
    requires near { All (λ run. IsTrue (is_near_run cluster run)) runs.items }
    ensures runs { option_map (λ runs. runs.items) result ≡ runs_from cluster file.now end left at from runs.items }
    ensures near { IfSome result (λ runs. All (λ run. IsTrue (is_near_run cluster run)) runs.items) }
{
    if at < end && byte_at(file, at) == 0 {
        return Some(runs);
    }
    if left == 0 {
        return None;
    }
    let run = run_at(cluster, file, end, at, from)?;
    runs.push(run);
    runs_from(
        cluster,
        file,
        end,
        left - 1,
        next_run(file, at),
        run.first,
        runs,
    )
}

/// The run at a byte, behind one that begins at a cluster.
#[tactic(auto, unfolding(crate::specs::Runs::run_at, crate::specs::Runs::near_run, crate::specs::Runs::is_near_run), using(crate::proofs::Steps::count_few, crate::proofs::Steps::distance_few))]
fn run_at(cluster: u64, file: &[u8], end: usize, at: usize, from: u64) -> Option<Run>
    requires cluster { (1 ≤ cluster) × (cluster ≤ 4096) }
    requires at { at + 31 < 2 ^ 32 }
    ensures run { result ≡ run_at cluster file.now end at from }
    ensures near { IfSome result (λ run. IsTrue (is_near_run cluster run)) }
    ensures there { IfSome result (λ run. IsTrue (has_run file.now end at)) }
{
    if !has_run(file, end, at) {
        return None;
    }
    let bytes = distance_bytes(file, at);
    let distance = number_at(file, at + 1 + count_bytes(file, at) as usize, bytes);
    match moved(from, distance, bytes) {
        Some(first) => near_run(cluster, first, clusters_at(file, at)),
        None => None,
    }
}

/// A run of so many clusters from one on, if it ends below sector 2^55.
#[tactic(auto, unfolding(crate::specs::Runs::near_run, crate::specs::Runs::is_near_run), using(crate::proofs::Steps::run_small))]
fn near_run(cluster: u64, first: u128, count: u64) -> Option<Run>
    requires cluster { (1 ≤ cluster) × (cluster ≤ 4096) }
    requires first { first < 2 ^ 66 }
    ensures run { result ≡ near_run cluster (record { first = first; count = count }) }
    ensures near { IfSome result (λ run. IsTrue (is_near_run cluster run)) }
{
    let end = (first + count as u128) * cluster as u128;
    if end < DISTANCE_LIMIT as u128 {
        Some(Run {
            first: first as u64,
            count,
        })
    } else {
        None
    }
}

/// A cluster and a distance of so many bytes, which is negative where its highest bit is set.
#[tactic(auto, unfolding(crate::specs::Runs::moved))]
fn moved(from: u64, distance: u64, bytes: u8) -> Option<u128>
    requires { bytes ≤ 8 }
    ensures moved { result ≡ moved from distance bytes }
    ensures small { IfSome result (λ n. n < 2 ^ 66) }
{
    let all = power(bytes);
    let sum = from as u128 + distance as u128;
    if 2 * (distance as u128) < all {
        Some(sum)
    } else if all <= sum {
        Some(sum - all)
    } else {
        None
    }
}

/// How many bytes the number of clusters of a run has.
fn count_bytes(file: &[u8], at: usize) -> u8
    requires { at < 2 ^ 32 }
    ensures bytes { result ≡ count_bytes file.now at }
    ensures few { result < 16 }
{
    byte_at(file, at) % 16
}

/// How many bytes the distance of a run from the one before has.
fn distance_bytes(file: &[u8], at: usize) -> u8
    requires { at < 2 ^ 32 }
    ensures bytes { result ≡ distance_bytes file.now at }
    ensures few { result < 16 }
{
    byte_at(file, at) / 16
}

/// The byte behind a run.
fn next_run(file: &[u8], at: usize) -> usize
    requires { at < 2 ^ 32 }
    ensures next { result ≡ next_run file.now at }
    ensures near { result ≤ at + 31 }
{
    at + 1 + count_bytes(file, at) as usize + distance_bytes(file, at) as usize
}

/// The clusters of a run.
fn clusters_at(file: &[u8], at: usize) -> u64
    requires at { at + 1 < 2 ^ 32 }
    requires few { count_bytes file.now at ≤ 8 }
    ensures { result ≡ clusters_at file.now at }
{
    number_at(file, at + 1, count_bytes(file, at))
}

/// Whether a run stands at a byte of an attribute that ends at byte `end`.
#[tactic(auto, unfolding(crate::specs::Runs::has_run))]
fn has_run(file: &[u8], end: usize, at: usize) -> bool
    requires { at + 31 < 2 ^ 32 }
    ensures { result ≡ has_run file.now end at }
{
    let count = count_bytes(file, at);
    let distance = distance_bytes(file, at);
    1 <= count
        && count <= 8
        && 1 <= distance
        && distance <= 8
        && next_run(file, at) <= end
        && 0 < clusters_at(file, at)
}
