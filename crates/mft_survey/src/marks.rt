//! Where records lie by a table.
ghost use Rattle.std.specs.Prelude.{◌≡◌, ◌/◌, ◌^◌, ◌<◌, ◌≤◌, All, IfOk, IfSome, OnOk};
ghost use Rattle.mft.specs.Places.{IsTable};
ghost use Rattle.mft_survey.specs.Marks.{mark_by, marks_by as marks_by_table, with_mark, with_some, IsNearMark};

use crate::records::RecordSeen;
use mft::{MftPlace, MftTable};
use outside::{ListOf, Memory};
use std::alloc::Global;

/// The most marks of all tables together.
const MOST_MARKS: usize = 4096;

/// A record on an image, with where a volume has it.
#[derive(Clone, Copy)]
pub struct RecordMark {
    /// The number of its image.
    pub image: u8,
    /// Its first sector of the image.
    pub sector: u64,
    /// Where the volume has it.
    pub place: MftPlace,
}

/// How many marks each of so many tables has at most: together 4,096.
pub fn most_marks(tables: usize) -> usize
    requires { 1 ≤ tables }
    ensures { result ≡ 4096 / tables }
{
    MOST_MARKS / tables
}

/// The first so many marks of a table: whole records of its size whose number it has.
#[tactic(auto, using(crate::proofs::Marked::marks_none, crate::proofs::Marked::marks_next, crate::proofs::Marked::marks_all))]
pub fn marks_by(
    alloc: Global,
    most: usize,
    whole: &[RecordSeen],
    table: &MftTable,
) -> Result<ListOf<RecordMark>, Memory>
    requires { IsTable table.now }
    ensures marks { IfOk result (λ marks. marks ≡ marks_by_table most whole.now table.now) }
    ensures near { IfOk result (All IsNearMark) }
{
    let mut marks = ListOf::new(alloc);
    for one in whole {
        mark_one(most, table, one, &mut marks)?;
    }
    Ok(marks)
}

/// Adds the mark of a record, if it has one, where there is room for one more.
fn mark_one(
    most: usize,
    table: &MftTable,
    one: &RecordSeen,
    marks: &mut ListOf<RecordMark>,
) -> Result<(), Memory>
    requires table { IsTable table.now }
    requires near { All IsNearMark marks.old }
    ensures marks { OnOk result (marks.new ≡ with_some most marks.old (mark_by table.now one.now)) }
    ensures near { OnOk result (All IsNearMark marks.new) }
{
    match mark_by(table, one) {
        Some(mark) => add_mark(most, mark, marks),
        None => Ok(()),
    }
}

/// Adds a mark, where there is room for one more.
fn add_mark(most: usize, mark: RecordMark, marks: &mut ListOf<RecordMark>) -> Result<(), Memory>
    requires mark { IsNearMark mark }
    requires near { All IsNearMark marks.old }
    ensures marks { OnOk result (marks.new ≡ with_mark most marks.old mark) }
    ensures near { OnOk result (All IsNearMark marks.new) }
{
    if marks.as_slice().len() < most {
        marks.push(mark)?;
    }
    Ok(())
}

/// Where a record lies by a table, if it has the size of the table's records and the table has its number; record 0 is no mark.
#[tactic(auto, unfolding(crate::specs::Marks::mark_by))]
fn mark_by(table: &MftTable, one: &RecordSeen) -> Option<RecordMark>
    requires { IsTable table.now }
    ensures mark { result ≡ mark_by table.now one.now }
    ensures near { IfSome result IsNearMark }
{
    if one.start.bytes != table.boot.bytes || one.start.number == 0 {
        return None;
    }
    let place = table.place(one.start.number)?;
    Some(RecordMark {
        image: one.image,
        sector: one.sector,
        place,
    })
}
