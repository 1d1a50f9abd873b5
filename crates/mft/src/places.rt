//! Tables, and where they say that records lie.

ghost use Rattle.std.specs.Prelude.{◌≡◌, ◌*◌, ◌+◌, ◌/◌, ◌^◌, ◌<◌, ◌≤◌, All, IfSome, IsTrue, length};
ghost use Rattle.mft.specs.Boot.{is_near};
ghost use Rattle.mft.specs.Places.{begins_at, mirrored, place_in, place_of, place_within, run_sectors, second_place, table_of, table_with, IsTable};
ghost use Rattle.mft.specs.Runs.{is_near_run};

use crate::boot::MftBoot;
use crate::runs::{Run, Runs, read_runs};
use sector_fields::{DISTANCE_LIMIT, SECTOR};

/// The fewest records that the mirror repeats.
const LEAST_MIRRORED: u64 = 4;

/// The table of the file records of a volume.
#[derive(Drop)]
pub struct MftTable {
    /// What the boot sector says.
    pub boot: MftBoot,
    /// The runs of clusters in which it lies.
    pub runs: Runs,
}

/// Where a volume has a record, in sectors from its start.
#[derive(Clone, Copy, PartialEq, Eq)]
pub struct MftPlace {
    /// In the table.
    pub first: u64,
    /// In the mirror, if that repeats it.
    pub second: Option<u64>,
}

/// The table of the volume of a boot sector, by the bytes of its record 0. None where the record has another size than that
/// volume's, its runs are none ([`Runs`]), or the first begins elsewhere than the boot sector says.
#[tactic(auto, unfolding(crate::specs::Places::table_of), using(crate::proofs::Tables::cluster_some, crate::proofs::Tables::cluster_few, crate::proofs::Tables::bytes_few))]
pub fn read_table(boot: &MftBoot, file: &[u8]) -> Option<MftTable>
    requires { IsTrue (is_near boot.now) }
    ensures table { result ≡ table_of boot.now file.now }
    ensures sound { IfSome result IsTable }
{
    if file.len() != boot.bytes as usize {
        return None;
    }
    match read_runs(boot.cluster, file) {
        Some(runs) => table_with(boot, runs),
        None => None,
    }
}

/// The table with these runs, if it begins where the boot sector says.
#[tactic(auto, unfolding(crate::specs::Places::table_with))]
fn table_with(boot: &MftBoot, runs: Runs) -> Option<MftTable>
    requires boot { IsTrue (is_near boot.now) }
    requires runs { All (λ run. IsTrue (is_near_run boot.now.cluster run)) runs.items }
    ensures table { result ≡ table_with boot.now runs.items }
    ensures sound { IfSome result IsTable }
{
    if begins_at(boot.mft, runs.as_slice()) {
        Some(MftTable { boot: *boot, runs })
    } else {
        None
    }
}

/// Whether runs begin at a cluster.
#[tactic(auto, using(crate::proofs::Tables::begins, crate::proofs::Tables::begins_none))]
fn begins_at(cluster: u64, runs: &[Run]) -> bool
    ensures { result ≡ begins_at cluster runs.now }
{
    match runs.first() {
        Some(run) => run.first == cluster,
        None => false,
    }
}

impl MftTable {
    /// Where the volume has the record of a number. None where the table does not have it in one run.
    #[tactic(auto, unfolding(crate::specs::Places::place_of), using(crate::proofs::Tables::table_cluster, crate::proofs::Tables::table_sectors, crate::proofs::Tables::table_before))]
    pub fn place(&self, number: u32) -> Option<MftPlace>
        requires { IsTable self.now }
        ensures place { result ≡ place_of self.now number }
        ensures near { IfSome result (λ p. (p.first < 2 ^ 55) × IfSome p.second (λ n. n < 2 ^ 55)) }
    {
        let sectors = (self.boot.bytes / SECTOR as u32) as u64;
        let before = number as u64 * sectors;
        match place_in(self.boot.cluster, self.runs.as_slice(), before, sectors) {
            Some(first) => Some(MftPlace {
                first,
                second: second_place(&self.boot, number),
            }),
            None => None,
        }
    }
}

/// Where the mirror has a record, if it repeats it, below 2^55.
#[tactic(auto, unfolding(crate::specs::Places::second_place), using(crate::proofs::Tables::mirror_near, crate::proofs::Tables::bytes_few))]
fn second_place(boot: &MftBoot, number: u32) -> Option<u64>
    requires { IsTrue (is_near boot.now) }
    ensures place { result ≡ second_place boot.now number }
    ensures near { IfSome result (λ n. n < 2 ^ 55) }
{
    let sectors = (boot.bytes / SECTOR as u32) as u64;
    let place = boot.mirror * boot.cluster + number as u64 * sectors;
    if (number as u64) < mirrored(boot) && place < DISTANCE_LIMIT {
        Some(place)
    } else {
        None
    }
}

/// How many records the mirror repeats.
#[tactic(auto, unfolding(crate::specs::Places::mirrored), using(crate::proofs::Tables::cluster_few, crate::proofs::Tables::bytes_some))]
fn mirrored(boot: &MftBoot) -> u64
    requires { IsTrue (is_near boot.now) }
    ensures { result ≡ mirrored boot.now }
{
    LEAST_MIRRORED.max(boot.cluster * SECTOR as u64 / boot.bytes as u64)
}

/// Where so many sectors of a table lie, by how many sectors of it are before them: all in one run.
#[tactic(auto, using(crate::proofs::Tables::no_place, crate::proofs::Tables::place_here, crate::proofs::Tables::place_later, crate::proofs::Tables::head_near, crate::proofs::Tables::rest_near))]
fn place_in(cluster: u64, runs: &[Run], before: u64, sectors: u64) -> Option<u64>
    requires cluster { cluster ≤ 4096 }
    requires runs { All (λ run. IsTrue (is_near_run cluster run)) runs.now }
    requires before { before < 2 ^ 35 }
    requires sectors { sectors ≤ 8 }
    ensures place { result ≡ place_in cluster runs.now before sectors }
    ensures near { IfSome result (λ n. n < 2 ^ 55) }
{
    match runs.split_first() {
        Some((run, rest)) => {
            let length = run_sectors(cluster, run);
            if before < length {
                place_within(cluster, run, before, sectors)
            } else {
                place_in(cluster, rest, before - length, sectors)
            }
        }
        None => None,
    }
}

/// The sectors of a run.
#[tactic(auto, using(crate::proofs::Tables::count_ends))]
fn run_sectors(cluster: u64, run: &Run) -> u64
    requires { IsTrue (is_near_run cluster run.now) }
    ensures { result ≡ run_sectors cluster run.now }
{
    run.count * cluster
}

/// Where so many sectors of a run lie, by how many of it are before them, if it has all of them.
#[tactic(auto, unfolding(crate::specs::Places::place_within), using(crate::proofs::Tables::count_ends, crate::proofs::Tables::first_ends))]
fn place_within(cluster: u64, run: &Run, before: u64, sectors: u64) -> Option<u64>
    requires run { IsTrue (is_near_run cluster run.now) }
    requires before { before < 2 ^ 35 }
    requires sectors { sectors ≤ 8 }
    ensures place { result ≡ place_within cluster run.now before sectors }
    ensures near { IfSome result (λ n. n < 2 ^ 55) }
{
    if before + sectors <= run_sectors(cluster, run) {
        Some(run.first * cluster + before)
    } else {
        None
    }
}
