//! The groups of file records of NTFS.
ghost use Rattle.std.specs.Prelude.{◌≡◌, ◌++◌, ◌*◌, ◌/◌, ◌^◌, ◌<◌, ◌≤◌, [], count_by, length, map, All, IfErr, IfOk, IfSome, IsTrue, OnOk};
ghost use Rattle.std.specs.List.{cons_option, filter_map, list_any};
ghost use Rattle.std.specs.Option.{option_map};
ghost use Rattle.mft.specs.Boot.{is_near, is_record_size};
ghost use Rattle.mft.specs.Places.{IsTable};
ghost use Rattle.mft_survey.specs.Records.{has_record, is_same_boot, tables_in, whole_records};
ghost use Rattle.outside.specs.Attached.{told_all};
ghost use Rattle.outside.specs.Seen.{OnlyReads, lengths_of};
ghost use Rattle.survey_engine.specs.Kept.{kept_with};
ghost use Rattle.survey_engine.specs.Landmarks.{IsSound};
ghost use Rattle.survey_engine.specs.Sightings.{AreSightings};
ghost use Rattle.survey_engine.specs.Surveys.{EndsSurvey};
ghost use Rattle.survey_engine.specs.Tables.{boot_by, boot_of, boots_of, first_record, group_by, groups_by, is_new_boot, near_boot, place_rule, record_by, record_mark, records_of, start_by, AreRecords};

use crate::landmark::Landmark;
use crate::planning::SurveyFault;
use crate::sighting::Sighting;
use landmark_rules::{Group, GroupKind, Groups, Kind, Mark, Marks, Rule};
use mft::{MftBoot, MftPlace, MftTable, RecordStart, is_near, is_record_size};
use mft_survey::{
    MOST_TABLES, ReadFault, RecordMark, RecordSeen, Records, is_same_boot, marks_by, most_marks,
    read_records,
};
use ntfs_marks::{NtfsBoot, NtfsRecord};
use outside::{Images, ListOf, Memory};
use std::alloc::Global;

/// Reads the file records among the sightings, where they are `asked`: those that are whole, and the tables of the volumes that
/// records 0 among them tell. 8 sectors at most are read of each that its image has whole.
pub fn read_tables<I: Images>(
    alloc: Global,
    images: &mut I,
    lengths: &[u64],
    asked: bool,
    found: &[Sighting],
) -> Result<Records, SurveyFault>
    requires found { AreSightings lengths.now found.now }
    requires lengths { lengths.now ≡ lengths_of (I.seen images.old).attached }
    requires short { All (λ n. n < 2 ^ 55) lengths.now }
    ensures whole { IfOk result (λ r. IfSome (told_all (I.seen images.old).attached)
        (λ bytes. r.whole ≡ whole_records lengths.now bytes (records_of asked found.now))) }
    ensures tables { IfOk result (λ r. IfSome (told_all (I.seen images.old).attached)
        (λ bytes. r.tables ≡ tables_in lengths.now bytes (boots_of found.now) (records_of asked found.now))) }
    ensures are { IfOk result (AreRecords lengths.now) }
    ensures reads { OnlyReads (I.seen images.old) (I.seen images.new) (8 * count_by (has_record lengths.now) (records_of asked found.now)) }
    ensures ends { IfErr result (EndsSurvey (I.seen images.old) (I.seen images.new)) }
    ensures stays { OnOk result ((I.seen images.new).faults ≡ (I.seen images.old).faults) }
{
    let seen = records_of(alloc, asked, found).map_err(|_| SurveyFault::Memory)?;
    let boots = boots_of(alloc, found).map_err(|_| SurveyFault::Memory)?;
    match read_records(alloc, images, lengths, boots.as_slice(), seen.as_slice()) {
        Ok(records) => Ok(records),
        Err(ReadFault::Images) => Err(SurveyFault::ReadFault),
        Err(ReadFault::Memory) => Err(SurveyFault::Memory),
    }
}

/// The file records that were seen, where they are `asked`.
fn records_of(alloc: Global, asked: bool, found: &[Sighting]) -> Result<ListOf<RecordSeen>, Memory>
    ensures { IfOk result (λ seen. seen ≡ records_of asked found.now) }
{
    if asked {
        all_records(alloc, found)
    } else {
        Ok(ListOf::new(alloc))
    }
}

/// The file records among sightings.
#[tactic(auto, using(crate::proofs::Recorded::records_none, crate::proofs::Recorded::records_some, crate::proofs::Recorded::records_same, crate::proofs::Recorded::records_all))]
fn all_records(alloc: Global, found: &[Sighting]) -> Result<ListOf<RecordSeen>, Memory>
    ensures { IfOk result (λ seen. seen ≡ filter_map record_by found.now) }
{
    let mut seen = ListOf::new(alloc);
    for sighting in found {
        if let Some(one) = record_by(sighting) {
            seen.push(one)?;
        }
    }
    Ok(seen)
}

/// The file record that a sighting is.
fn record_by(sighting: &Sighting) -> Option<RecordSeen>
    ensures { result ≡ record_by sighting.now }
{
    match start_by(&sighting.landmark) {
        Some(start) => Some(RecordSeen {
            image: sighting.image,
            sector: sighting.sector,
            start,
        }),
        None => None,
    }
}

/// The file record that begins in the sector of a landmark: one of the first sixteen, or another that counts.
fn start_by(landmark: &Landmark) -> Option<RecordStart>
    ensures { result ≡ start_by landmark.now }
{
    match landmark {
        Landmark::FileRecord(file) => first_record(file),
        Landmark::Record(start) => Some(*start),
        _ => None,
    }
}

/// One of the first sixteen records, if it has one of the two sizes.
#[tactic(auto, unfolding(crate::specs::Tables::first_record))]
fn first_record(file: &NtfsRecord) -> Option<RecordStart>
    ensures { result ≡ first_record file.now }
{
    if is_record_size(file.bytes) {
        Some(RecordStart {
            number: file.number,
            bytes: file.bytes,
        })
    } else {
        None
    }
}

/// What the first distinct boot sectors say of tables, in their order.
#[tactic(auto, using(crate::proofs::Recorded::boots_none, crate::proofs::Recorded::boots_some, crate::proofs::Recorded::boots_same, crate::proofs::Recorded::boots_all, crate::proofs::Groups::sound_at))]
fn boots_of(alloc: Global, found: &[Sighting]) -> Result<ListOf<MftBoot>, Memory>
    requires { All (λ s. IsSound s.landmark) found.now }
    ensures boots { IfOk result (λ boots. boots ≡ boots_of found.now) }
    ensures near { IfOk result (All (λ boot. IsTrue (is_near boot))) }
{
    let mut boots = ListOf::new(alloc);
    for sighting in found {
        if let Some(boot) = boot_by(&sighting.landmark) {
            add_boot(&mut boots, boot)?;
        }
    }
    Ok(boots)
}

/// Appends what no other boot sector said, where there is room for one more.
fn add_boot(boots: &mut ListOf<MftBoot>, boot: MftBoot) -> Result<(), Memory>
    requires boots { All (λ boot. IsTrue (is_near boot)) boots.old }
    requires boot { IsTrue (is_near boot) }
    ensures added { OnOk result (boots.new ≡ kept_with is_new_boot boots.old boot) }
    ensures near { OnOk result (All (λ boot. IsTrue (is_near boot)) boots.new) }
{
    if boots.as_slice().len() < MOST_TABLES && !is_there(boots.as_slice(), &boot) {
        boots.push(boot)?;
    }
    Ok(())
}

/// Whether a boot sector said the same before.
fn is_there(boots: &[MftBoot], boot: &MftBoot) -> bool
    ensures { result ≡ list_any (is_same_boot boot.now) boots.now }
{
    boots.iter().any(|other| is_same_boot(boot, other))
}

/// What a landmark says of a table.
fn boot_by(landmark: &Landmark) -> Option<MftBoot>
    requires { IsSound landmark.now }
    ensures boot { result ≡ boot_by landmark.now }
    ensures near { IfSome result (λ boot. IsTrue (is_near boot)) }
{
    match landmark {
        Landmark::Boot(boot) => near_boot(boot_of(boot)),
        Landmark::Volume(boot) => Some(*boot),
        _ => None,
    }
}

/// What a boot sector says of the table.
#[tactic(auto, unfolding(crate::specs::Tables::boot_of))]
fn boot_of(boot: &NtfsBoot) -> MftBoot
    ensures { result ≡ boot_of boot.now }
{
    MftBoot {
        cluster: boot.cluster,
        mft: boot.mft,
        mirror: boot.mirror,
        bytes: boot.record_bytes,
    }
}

/// That, if it is within limits.
#[tactic(auto, unfolding(crate::specs::Tables::near_boot))]
fn near_boot(boot: MftBoot) -> Option<MftBoot>
    ensures boot { result ≡ near_boot boot }
    ensures near { IfSome result (λ boot. IsTrue (is_near boot)) }
{
    if is_near(&boot) { Some(boot) } else { None }
}

/// Appends the groups of tables, by the records that are whole.
#[tactic(auto, unfolding(crate::specs::Tables::groups_by), using(crate::proofs::Recorded::tables_none, crate::proofs::Recorded::tables_more, crate::proofs::Recorded::tables_all, crate::proofs::Recorded::table_at, crate::proofs::Recorded::no_tables))]
pub fn add_tables(alloc: Global, records: &Records, groups: &mut Groups) -> Result<(), Memory>
    requires { All IsTable records.now.tables }
    ensures { OnOk result (groups.new ≡ groups.old ++ groups_by records.now.whole records.now.tables) }
{
    let tables = records.tables.as_slice();
    if tables.is_empty() {
        return Ok(());
    }
    let most = most_marks(tables.len());
    for table in tables {
        add_table(alloc, most, records.whole.as_slice(), table, groups)?;
    }
    Ok(())
}

/// Appends the group of a table, if it has marks.
#[tactic(auto, unfolding(crate::specs::Tables::group_by), using(crate::proofs::Recorded::no_group, crate::proofs::Recorded::one_group))]
fn add_table(
    alloc: Global,
    most: usize,
    whole: &[RecordSeen],
    table: &MftTable,
    groups: &mut Groups,
) -> Result<(), Memory>
    requires { IsTable table.now }
    ensures { OnOk result (groups.new ≡ groups.old ++ cons_option (group_by most whole.now table.now) []) }
{
    let records = marks_by(alloc, most, whole, table)?;
    let marks = marks_of(alloc, records.as_slice())?;
    if marks.as_slice().is_empty() {
        return Ok(());
    }
    groups.push(Group {
        kind: GroupKind::Mft,
        marks,
        bounds: None,
    })
}

/// The marks of records that lie where a table has them.
#[tactic(auto, using(crate::proofs::Recorded::marks_none, crate::proofs::Recorded::marks_more, crate::proofs::Recorded::marks_all))]
fn marks_of(alloc: Global, records: &[RecordMark]) -> Result<Marks, Memory>
    ensures { IfOk result (λ marks. marks ≡ map record_mark records.now) }
{
    let mut marks = Marks::new(alloc);
    for one in records {
        marks.push(record_mark(one))?;
    }
    Ok(marks)
}

/// The mark of a record.
fn record_mark(one: &RecordMark) -> Mark
    ensures { result ≡ record_mark one.now }
{
    Mark {
        kind: Kind::Mft,
        image: one.image,
        sector: one.sector,
        rule: place_rule(&one.place),
    }
}

/// Where a record may lie: in the table, or there and in the mirror.
fn place_rule(place: &MftPlace) -> Rule
    ensures { result ≡ place_rule place.now }
{
    match place.second {
        Some(second) => Rule::Either(place.first, second),
        None => Rule::At(place.first),
    }
}
