//! A report over rows that are taken one after the other.
ghost use Rattle.std.specs.Prelude.{ℕ, ◌≡◌, ◌+◌, ◌*◌, ◌<◌, ◌≤◌, ◌^◌, ◌++◌, ◌∷◌, [], IfOk, OnErr, OnOk, Some, length};
ghost use Rattle.outside.specs.Causes.{HasCause};
ghost use Rattle.outside.specs.Streams.{Puts};
ghost use Rattle.std.specs.List.{fold};
ghost use Rattle.std.specs.Prelude.{bit_or, map, not};
ghost use Rattle.relation_lines.specs.Reports.{after, goes_on, last_line, lines_at, lines_end, most_sets, others, run_after, start_of, together};
ghost use Rattle.relation_lines.specs.Reports.Line.{Alone, Free};
ghost use Rattle.relation_lines.specs.Sets.{is_in as is_in_set, set_where};
ghost use Rattle.relation_lines.specs.Spans.{run_of};
ghost use Rattle.relation_lines.specs.Text.{text_of};

use crate::line::LineBytes;
use crate::saying::{Span, say_alone, say_free, say_others, say_rows, say_together};
use crate::sets::{image_bit, is_in, parts_of};
use crate::shared::{add_shares, push_sets};
use crate::style::Style;
use outside::{Failed, Memory, Sink};
use row_relations::{MOST_IMAGES, RowTable};
use std::alloc::Global;
use std::marker::Model;

/// The most rows of a report.
pub const MOST_ROWS: usize = 1_048_576;

/// The most sets of images that are said.
const MOST_SETS: usize = 4096;

/// A report in the making. Contracts see what it knows as a `State`.
#[derive(Drop)]
pub struct Report {
    style: Style,
    line: LineBytes,
    kept: RowTable,
    span: Option<Span>,
    sets: Vec<u64>,
    shares: Vec<u128>,
    free: u64,
    rows: u64,
    room: usize,
}

impl Model for Report {
    ghost use Rattle.std.specs.Prelude.{◌≡◌, ◌+◌, ◌*◌, ◌≤◌, [], length};
    ghost use Rattle.std.specs.Vec.{vec_capacity};
    ghost use Rattle.relation_lines.specs.Reports.{State};
    ghost use Rattle.relation_lines.specs.Spans.{run_of};
    ghost use Rattle.relation_lines.specs.declared.report.TheConstants.{MOST_ROWS};

    ghost Value = { State };

    ghost view = { λ r. record {
      style = r.style;
      images = length r.kept.standings;
      run = run_of r.span r.kept;
      sets = r.sets.items;
      free = r.free;
      rows = r.rows;
      room = r.room;
    } };

    ghost invariant = { λ r. (r.shares.items ≡ []) × (length r.sets.items + 64 * r.room ≤ vec_capacity r.sets) × (length r.sets.items + 64 * r.room ≤ vec_capacity r.shares)
        × (length r.sets.items ≤ 64 * r.rows) × (r.free ≤ r.rows) × (r.rows + r.room ≤ MOST_ROWS) };
}

impl Report {
    /// A report without a row, with room for so many. All memory is taken here: 24 bytes for each row and 64 images.
    pub fn new(alloc: Global, style: Style, images: usize, rows: usize) -> Result<Report, Memory>
        requires images { images ≤ 64 }
        requires rows { rows ≤ MOST_ROWS }
        ensures { IfOk result (λ report. report ≡ start_of style images rows) }
    {
        Ok(Report {
            style,
            line: LineBytes::new(alloc)?,
            kept: RowTable::new(alloc, images)?,
            span: None,
            sets: Vec::with_capacity(alloc, 64 * rows).map_err(|_| Memory)?,
            shares: Vec::with_capacity(alloc, 64 * rows).map_err(|_| Memory)?,
            free: 0,
            rows: 0,
            room: rows,
        })
    }

    /// Takes a row with its table. Where it ends a run, that run's line is put. The table is then one of as many images, to be filled
    /// for the next row. Where the line could not be put, the report and the table are as they were: of the line, the sink may have a
    /// part.
    pub fn add<K: Sink>(
        &mut self,
        sink: &mut K,
        row: u64,
        table: &mut RowTable,
    ) -> Result<(), Failed>
        requires room { 1 ≤ self.old.room }
        requires images { length table.old.standings ≡ self.old.images }
        ensures state { OnOk result (self.new ≡ after self.old (record { sector = row; table = table.old })) }
        ensures images { OnOk result (length table.new.standings ≡ self.new.images) }
        ensures kept { OnErr result (self.new ≡ self.old) }
        ensures returned { OnErr result (table.new ≡ table.old) }
        ensures put { Puts (K.gained sink.old) (K.gained sink.new) result (text_of self.old.style (lines_at self.old.run (record { sector = row; table = table.old }))) }
        ensures cause { HasCause (K.faults sink.old) (K.faults sink.new) result }
    {
        take_row(
            sink,
            &mut self.line,
            self.style,
            &mut self.kept,
            table,
            &mut self.span,
            row,
        )?;
        let parts = parts_of(&self.kept);
        push_sets(&mut self.sets, &parts);
        if parts.is_empty() {
            self.free += 1;
        }
        self.rows += 1;
        self.room -= 1;
        Ok(())
    }

    /// Puts the lines that come after all rows.
    pub fn finish<K: Sink>(self, sink: &mut K) -> Result<(), Failed>
        ensures put { Puts (K.gained sink.old) (K.gained sink.new) result (text_of self.style (lines_end self)) }
        ensures cause { HasCause (K.faults sink.old) (K.faults sink.new) result }
    {
        let Report {
            style,
            mut line,
            kept,
            span,
            mut sets,
            mut shares,
            free,
            rows,
            ..
        } = self;
        put_last(sink, &mut line, style, span, &kept)?;
        let tied = union_of(&sets);
        add_shares(&mut sets, &mut shares);
        let count = shares.len();
        shares.truncate(MOST_SETS);
        put_shares(sink, &mut line, style, &shares)?;
        let more = count.saturating_sub(MOST_SETS) as u64;
        put_rest(
            sink,
            &mut line,
            style,
            more,
            untied(kept.images(), tied),
            free,
            rows,
        )
    }
}

/// Takes the table of a row: the run goes on, or its line is put and the next one begins.
fn take_row<K: Sink>(
    sink: &mut K,
    line: &mut LineBytes,
    style: Style,
    kept: &mut RowTable,
    next: &mut RowTable,
    span: &mut Option<Span>,
    row: u64,
) -> Result<(), Failed>
    ensures run { OnOk result (run_of span.new kept.new ≡ Some (run_after (run_of span.old kept.old) (record { sector = row; table = next.old }))) }
    ensures table { OnOk result (kept.new ≡ next.old) }
    ensures images { OnOk result (length next.old.standings ≡ length kept.old.standings → length next.new.standings ≡ length kept.new.standings) }
    ensures untaken { OnErr result ((span.new ≡ span.old) × (kept.new ≡ kept.old) × (next.new ≡ next.old)) }
    ensures put { Puts (K.gained sink.old) (K.gained sink.new) result (text_of style (lines_at (run_of span.old kept.old) (record { sector = row; table = next.old }))) }
    ensures cause { HasCause (K.faults sink.old) (K.faults sink.new) result }
{
    let goes_on = put_ended(sink, line, style, *span, kept, next)?;
    std::mem::swap(kept, next);
    *span = Some(Span {
        first: goes_on.unwrap_or(row),
        last: row,
    });
    Ok(())
}

/// Puts the line of a run, unless it goes on with the next row: then this is its first row.
#[tactic(auto, using(crate::proofs::Tables::same_is))]
fn put_ended<K: Sink>(
    sink: &mut K,
    line: &mut LineBytes,
    style: Style,
    span: Option<Span>,
    kept: &RowTable,
    next: &RowTable,
) -> Result<Option<u64>, Failed>
    ensures first { IfOk result (λ first. (row : ℕ) → first ≡ goes_on (run_of span kept.now) (record { sector = row; table = next.now })) }
    ensures put { (row : ℕ) → Puts (K.gained sink.old) (K.gained sink.new) result (text_of style (lines_at (run_of span kept.now) (record { sector = row; table = next.now }))) }
    ensures cause { HasCause (K.faults sink.old) (K.faults sink.new) result }
{
    match span {
        Some(span) if kept.is_same(next) => Ok(Some(span.first)),
        Some(span) => {
            line.clear();
            say_rows(line, style, span, kept);
            sink.put(line.as_slice())?;
            Ok(None)
        }
        None => Ok(None),
    }
}

/// Puts the line of the last run.
fn put_last<K: Sink>(
    sink: &mut K,
    line: &mut LineBytes,
    style: Style,
    span: Option<Span>,
    kept: &RowTable,
) -> Result<(), Failed>
    ensures put { Puts (K.gained sink.old) (K.gained sink.new) result (text_of style (last_line (run_of span kept.now))) }
    ensures cause { HasCause (K.faults sink.old) (K.faults sink.new) result }
{
    match span {
        Some(span) => {
            line.clear();
            say_rows(line, style, span, kept);
            sink.put(line.as_slice())
        }
        None => Ok(()),
    }
}

/// All images of these sets.
fn union_of(sets: &[u64]) -> u64
    ensures { result ≡ fold bit_or 0 sets.now }
{
    let mut union = 0;
    for set in sets {
        union |= *set;
    }
    union
}

/// Those of so many images that are not in a set.
#[tactic(auto, using(crate::proofs::Loops::set_more))]
fn untied(images: usize, set: u64) -> u64
    requires { images ≤ MOST_IMAGES }
    ensures { result ≡ set_where images (λ image. not (is_in_set set image)) }
{
    let mut others = 0;
    for image in 0..images {
        if !is_in(set, image) {
            others |= image_bit(image);
        }
    }
    others
}

/// Puts the lines of these shares.
fn put_shares<K: Sink>(
    sink: &mut K,
    line: &mut LineBytes,
    style: Style,
    shares: &[u128],
) -> Result<(), Failed>
    ensures put { Puts (K.gained sink.old) (K.gained sink.new) result (text_of style (map together shares.now)) }
    ensures cause { HasCause (K.faults sink.old) (K.faults sink.new) result }
{
    for share in shares {
        line.clear();
        say_together(
            line,
            style,
            (*share % (1 << 64)) as u64,
            (*share / (1 << 64)) as u64,
        );
        sink.put(line.as_slice())?;
    }
    Ok(())
}

/// Puts the lines of how many sets there are besides, of the images in no tie, and of the rows without a tie.
fn put_rest<K: Sink>(
    sink: &mut K,
    line: &mut LineBytes,
    style: Style,
    more: u64,
    alone: u64,
    free: u64,
    rows: u64,
) -> Result<(), Failed>
    ensures put { Puts (K.gained sink.old) (K.gained sink.new) result (text_of style (others more ++ Alone alone ∷ Free free rows ∷ [])) }
    ensures cause { HasCause (K.faults sink.old) (K.faults sink.new) result }
{
    line.clear();
    say_others(line, style, more);
    say_alone(line, style, alone);
    say_free(line, style, free, rows);
    sink.put(line.as_slice())
}
