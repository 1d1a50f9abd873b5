//! Records that are whole, and tables.
ghost use Rattle.std.specs.Prelude.{◌≡◌, ◌==◌, true, [], ◌∷◌, ◌++◌, ◌+◌, ◌*◌, ◌/◌, ◌^◌, ◌<◌, ◌≤◌, if◌then◌else◌, count_by, fold, length, All, IfErr, IfOk, IfSome, IsTrue, OnErr, OnOk};
ghost use Rattle.std.specs.List.{cons_option, list_all, list_any, range_with_len};
ghost use Rattle.outside.specs.Attached.{told_all};
ghost use Rattle.outside.specs.Causes.{HasCause, Rose};
ghost use Rattle.outside.specs.Seen.{OnlyReads, lengths_of};
ghost use Rattle.mft.specs.Boot.{is_near};
ghost use Rattle.mft.specs.Places.{table_of, IsTable};
ghost use Rattle.mft_survey.specs.Records.{are_same_runs, has_record, is_new, is_same_boot, is_same_run, is_same_table, is_whole_in, kept_with, record_bytes, run_at, tables_at, tables_by, tables_in, whole_at, whole_records, EndsReading, IsPart, IsSeen};

use mft::{LARGEST_RECORD, MftBoot, MftTable, RecordStart, Run, is_whole, read_table};
use outside::{Failed, Images, ListOf, Memory};
use sector_fields::SECTOR;
use std::alloc::Global;

/// The bytes of the smaller records.
const SMALLEST_RECORD: usize = 1024;

/// The most tables.
pub const MOST_TABLES: usize = 32;

/// A sector of an image in which a file record begins.
#[derive(Clone, Copy)]
pub struct RecordSeen {
    /// The number of its image.
    pub image: u8,
    /// Its sector of the image.
    pub sector: u64,
    /// What it says of the record.
    pub start: RecordStart,
}

/// What was read.
#[derive(Drop)]
pub struct Records {
    /// The records that are whole, in their order.
    pub whole: ListOf<RecordSeen>,
    /// The tables that records 0 among them tell.
    pub tables: ListOf<MftTable>,
}

/// Why nothing was read.
#[derive(Clone, Copy, Debug, Drop)]
pub enum ReadFault {
    /// The images failed.
    Images,
    /// Out of memory.
    Memory,
}

/// Reads the records that begin in these sectors of images of these lengths, as far as an image has all sectors of one: which
/// are whole, and which tables of the volumes of these boot sectors the records 0 among them tell.
pub fn read_records<I: Images>(
    alloc: Global,
    images: &mut I,
    lengths: &[u64],
    boots: &[MftBoot],
    seen: &[RecordSeen],
) -> Result<Records, ReadFault>
    requires lengths { lengths.now ≡ lengths_of (I.seen images.old).attached }
    requires short { All (λ n. n < 2 ^ 55) lengths.now }
    requires boots { All (λ boot. IsTrue (is_near boot)) boots.now }
    requires seen { All (IsSeen lengths.now) seen.now }
    ensures whole { IfOk result (λ r. IfSome (told_all (I.seen images.old).attached) (λ bytes. r.whole ≡ whole_records lengths.now bytes seen.now)) }
    ensures tables { IfOk result (λ r. IfSome (told_all (I.seen images.old).attached) (λ bytes. r.tables ≡ tables_in lengths.now bytes boots.now seen.now)) }
    ensures part { IfOk result (λ r. IsPart seen.now r.whole) }
    ensures sound { IfOk result (λ r. All IsTable r.tables) }
    ensures few { IfOk result (λ r. length r.tables ≤ 32) }
    ensures reads { OnlyReads (I.seen images.old) (I.seen images.new) (8 * count_by (has_record lengths.now) seen.now) }
    ensures ends { IfErr result (EndsReading (I.seen images.old) (I.seen images.new)) }
    ensures stays { OnOk result ((I.seen images.new).faults ≡ (I.seen images.old).faults) }
{
    let mut records = Records {
        whole: ListOf::new(alloc),
        tables: ListOf::new(alloc),
    };
    for one in seen {
        look_at(images, lengths, boots, one, &mut records)?;
    }
    Ok(records)
}

/// Reads one of these records, and adds what it is and tells. Returns whether it is whole.
#[tactic(auto, using(crate::proofs::Reading::bytes_other))]
fn look_at<I: Images>(
    images: &mut I,
    lengths: &[u64],
    boots: &[MftBoot],
    one: &RecordSeen,
    records: &mut Records,
) -> Result<bool, ReadFault>
    requires lengths { lengths.now ≡ lengths_of (I.seen images.old).attached }
    requires short { All (λ n. n < 2 ^ 55) lengths.now }
    requires boots { All (λ boot. IsTrue (is_near boot)) boots.now }
    requires one { IsSeen lengths.now one.now }
    requires tables { All IsTable records.old.tables }
    requires few { length records.old.tables ≤ 32 }
    ensures whole { OnOk result (IfSome (told_all (I.seen images.old).attached)
        (λ bytes. records.new.whole ≡ records.old.whole ++ cons_option (whole_at lengths.now bytes one.now) [])) }
    ensures tables { OnOk result (IfSome (told_all (I.seen images.old).attached)
        (λ bytes. records.new.tables ≡ fold kept_with records.old.tables (tables_at lengths.now bytes boots.now one.now))) }
    ensures grows { IfOk result (λ is. records.new.whole ≡ records.old.whole ++ (if is then one.now ∷ [] else [])) }
    ensures sound { OnOk result (All IsTable records.new.tables) }
    ensures few { OnOk result (length records.new.tables ≤ 32) }
    ensures reads { OnlyReads (I.seen images.old) (I.seen images.new) (if has_record lengths.now one.now then 8 else 0) }
    ensures ends { IfErr result (EndsReading (I.seen images.old) (I.seen images.new)) }
    ensures stays { OnOk result ((I.seen images.new).faults ≡ (I.seen images.old).faults) }
{
    if one.start.bytes as usize == SMALLEST_RECORD {
        let mut file = [0; SMALLEST_RECORD];
        look_into(images, lengths, boots, one, &mut file, records)
    } else {
        let mut file = [0; LARGEST_RECORD];
        look_into(images, lengths, boots, one, &mut file, records)
    }
}

/// Reads one of these records into `file`, and adds what it is and tells. Returns whether it is whole.
#[tactic(auto, using(crate::proofs::Reading::some_told, crate::proofs::Reading::none_told))]
fn look_into<I: Images>(
    images: &mut I,
    lengths: &[u64],
    boots: &[MftBoot],
    one: &RecordSeen,
    file: &mut [u8],
    records: &mut Records,
) -> Result<bool, ReadFault>
    requires lengths { lengths.now ≡ lengths_of (I.seen images.old).attached }
    requires short { All (λ n. n < 2 ^ 55) lengths.now }
    requires boots { All (λ boot. IsTrue (is_near boot)) boots.now }
    requires one { IsSeen lengths.now one.now }
    requires file { length file.old ≡ one.now.start.bytes }
    requires tables { All IsTable records.old.tables }
    requires few { length records.old.tables ≤ 32 }
    ensures whole { OnOk result (IfSome (told_all (I.seen images.old).attached)
        (λ bytes. records.new.whole ≡ records.old.whole ++ cons_option (whole_at lengths.now bytes one.now) [])) }
    ensures tables { OnOk result (IfSome (told_all (I.seen images.old).attached)
        (λ bytes. records.new.tables ≡ fold kept_with records.old.tables (tables_at lengths.now bytes boots.now one.now))) }
    ensures grows { IfOk result (λ is. records.new.whole ≡ records.old.whole ++ (if is then one.now ∷ [] else [])) }
    ensures sound { OnOk result (All IsTable records.new.tables) }
    ensures few { OnOk result (length records.new.tables ≤ 32) }
    ensures reads { OnlyReads (I.seen images.old) (I.seen images.new) (if has_record lengths.now one.now then 8 else 0) }
    ensures ends { IfErr result (EndsReading (I.seen images.old) (I.seen images.new)) }
    ensures stays { OnOk result ((I.seen images.new).faults ≡ (I.seen images.old).faults) }
{
    let whole = read_whole(images, lengths, one, file).map_err(|_| ReadFault::Images)?;
    if whole {
        add(boots, one, file, records).map_err(|_| ReadFault::Memory)?;
    }
    Ok(whole)
}

/// Whether a record is whole: its bytes then are in `file`.
fn read_whole<I: Images>(
    images: &mut I,
    lengths: &[u64],
    one: &RecordSeen,
    file: &mut [u8],
) -> Result<bool, Failed>
    requires lengths { lengths.now ≡ lengths_of (I.seen images.old).attached }
    requires short { All (λ n. n < 2 ^ 55) lengths.now }
    requires one { IsSeen lengths.now one.now }
    requires file { length file.old ≡ one.now.start.bytes }
    ensures is { IfOk result (λ is. IfSome (told_all (I.seen images.old).attached) (λ bytes. is ≡ is_whole_in lengths.now bytes one.now)) }
    ensures file { IfOk result (λ is. is ≡ true → IfSome (told_all (I.seen images.old).attached) (λ bytes. file.new ≡ record_bytes bytes one.now)) }
    ensures reads { OnlyReads (I.seen images.old) (I.seen images.new) (if has_record lengths.now one.now then 8 else 0) }
    ensures cause { HasCause (I.seen images.old).faults (I.seen images.new).faults result }
{
    if !has_record(lengths, one) {
        return Ok(false);
    }
    images.read(one.image as u32, one.sector, file)?;
    Ok(is_whole(file))
}

/// Whether an image has all sectors of a record.
#[tactic(auto, unfolding(crate::specs::Records::has_record))]
fn has_record(lengths: &[u64], one: &RecordSeen) -> bool
    requires one { IsSeen lengths.now one.now }
    requires short { All (λ n. n < 2 ^ 55) lengths.now }
    ensures { result ≡ has_record lengths.now one.now }
{
    one.sector + (one.start.bytes / SECTOR as u32) as u64 <= lengths[one.image as usize]
}

/// Adds a whole record with these bytes, and where it is record 0 the tables that it tells.
fn add(
    boots: &[MftBoot],
    one: &RecordSeen,
    file: &[u8],
    records: &mut Records,
) -> Result<(), Memory>
    requires boots { All (λ boot. IsTrue (is_near boot)) boots.now }
    requires tables { All IsTable records.old.tables }
    requires few { length records.old.tables ≤ 32 }
    ensures whole { OnOk result (records.new.whole ≡ records.old.whole ++ one.now ∷ []) }
    ensures tables { OnOk result (records.new.tables ≡ fold kept_with records.old.tables (if one.now.start.number == 0 then tables_by boots.now file.now else [])) }
    ensures sound { OnOk result (All IsTable records.new.tables) }
    ensures few { OnOk result (length records.new.tables ≤ 32) }
{
    records.whole.push(*one)?;
    if one.start.number == 0 {
        hear(boots, file, &mut records.tables)?;
    }
    Ok(())
}

/// Adds the tables that a record 0 with these bytes tells.
#[tactic(auto, using(crate::proofs::Reading::heard_none, crate::proofs::Reading::heard_more, crate::proofs::Reading::boot_at, crate::proofs::Reading::heard_all))]
fn hear(boots: &[MftBoot], file: &[u8], tables: &mut ListOf<MftTable>) -> Result<(), Memory>
    requires boots { All (λ boot. IsTrue (is_near boot)) boots.now }
    requires tables { All IsTable tables.old }
    requires few { length tables.old ≤ 32 }
    ensures tables { OnOk result (tables.new ≡ fold kept_with tables.old (tables_by boots.now file.now)) }
    ensures sound { OnOk result (All IsTable tables.new) }
    ensures few { OnOk result (length tables.new ≤ 32) }
{
    for boot in boots {
        hear_of(boot, file, tables)?;
    }
    Ok(())
}

/// Adds the table that a record 0 with these bytes tells of the volume of a boot sector, if it does.
fn hear_of(boot: &MftBoot, file: &[u8], tables: &mut ListOf<MftTable>) -> Result<(), Memory>
    requires boot { IsTrue (is_near boot.now) }
    requires tables { All IsTable tables.old }
    requires few { length tables.old ≤ 32 }
    ensures tables { OnOk result (tables.new ≡ fold kept_with tables.old (cons_option (table_of boot.now file.now) [])) }
    ensures sound { OnOk result (All IsTable tables.new) }
    ensures few { OnOk result (length tables.new ≤ 32) }
{
    match read_table(boot, file) {
        Some(table) => add_table(tables, table),
        None => Ok(()),
    }
}

/// Adds a table that is new, where there is room for one more.
fn add_table(tables: &mut ListOf<MftTable>, table: MftTable) -> Result<(), Memory>
    requires tables { All IsTable tables.old }
    requires few { length tables.old ≤ 32 }
    requires table { IsTable table }
    ensures tables { OnOk result (tables.new ≡ kept_with tables.old table) }
    ensures sound { OnOk result (All IsTable tables.new) }
    ensures few { OnOk result (length tables.new ≤ 32) }
{
    if tables.as_slice().len() < MOST_TABLES && !is_there(tables.as_slice(), &table) {
        tables.push(table)?;
    }
    Ok(())
}

/// Whether a table is among these.
fn is_there(tables: &[MftTable], table: &MftTable) -> bool
    ensures { result ≡ list_any (is_same_table table.now) tables.now }
{
    tables.iter().any(|other| is_same_table(table, other))
}

/// Whether two tables are one.
fn is_same_table(a: &MftTable, b: &MftTable) -> bool
    ensures { result ≡ is_same_table a.now b.now }
{
    is_same_boot(&a.boot, &b.boot) && are_same_runs(a.runs.as_slice(), b.runs.as_slice())
}

/// Whether two boot sectors say the same, field by field.
pub fn is_same_boot(a: &MftBoot, b: &MftBoot) -> bool
    ensures { result ≡ is_same_boot a.now b.now }
{
    (a.cluster == b.cluster && a.mft == b.mft) && (a.mirror == b.mirror && a.bytes == b.bytes)
}

/// Whether runs are the same, one by one.
#[tactic(auto, unfolding(crate::specs::Records::are_same_runs))]
fn are_same_runs(a: &[Run], b: &[Run]) -> bool
    ensures { result ≡ are_same_runs a.now b.now }
{
    if a.len() == b.len() {
        all_same(a, b)
    } else {
        false
    }
}

/// Whether the second has the runs of the first.
fn all_same(a: &[Run], b: &[Run]) -> bool
    ensures { result ≡ list_all (is_same_run a.now b.now) (range_with_len 0 (length a.now)) }
{
    (0..a.len()).all(|at| is_same_run(a, b, at))
}

/// Whether the runs at a place are the same.
fn is_same_run(a: &[Run], b: &[Run], at: usize) -> bool
    ensures { result ≡ is_same_run a.now b.now at }
{
    let one = run_at(a, at);
    let other = run_at(b, at);
    one.first == other.first && one.count == other.count
}

/// The run at a place, one without clusters past the last.
fn run_at(runs: &[Run], at: usize) -> Run
    ensures { result ≡ run_at runs.now at }
{
    runs.get(at).copied().unwrap_or(Run { first: 0, count: 0 })
}
