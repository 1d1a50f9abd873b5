//! Looking at rows.
ghost use Rattle.std.specs.Prelude.{ℕ, ◌≡◌, ◌+◌, ◌*◌, ◌≤◌, ◌<◌, ◌^◌, All, IfErr, IfOk, IfSome, OnOk, length};
ghost use Rattle.outside.specs.Attached.{told_all};
ghost use Rattle.outside.specs.Causes.{HasCause};
ghost use Rattle.outside.specs.Seen.{OnlyReads, lengths_of};
ghost use Rattle.outside.specs.Streams.{Puts};
ghost use Rattle.relation_lines.specs.Reports.{after_all, lines_end, said_by, start_of};
ghost use Rattle.relation_lines.specs.Text.{text_of};
ghost use Rattle.relation_job.specs.Blocks.{block_rows, rows_at_once as rows_at_once_in};
ghost use Rattle.relation_job.specs.Looking.{AddsPart, AddsRows, HasRows, StopsInPart, StopsInRows};
ghost use Rattle.relation_job.specs.Sampling.{row_number};
ghost use Rattle.run_ends.specs.Counts.{Raises};
ghost use Rattle.run_ends.specs.declared.stop.Stop.{Stop};

use crate::reading::{AT_ONCE, pick_row, read_rows, rows_at_once};
use crate::sampling::{Part, Sampling};
use command_words::MOST_RELATED;
use outside::{Failed, Images, Memory, SECTOR, Sink};
use relation_lines::{MOST_ROWS, Report, Style};
use row_relations::RowTable;
use run_ends::Stop;
use std::alloc::Global;

/// Room for the rows that are read together, as it is of zeros.
pub fn block_for(alloc: Global, images: usize, sampling: Sampling) -> Result<Vec<u8>, Memory>
    requires images { images ≤ MOST_RELATED }
    ensures { IfOk result (λ block. length block.items ≡ 512 * rows_at_once_in sampling * images) }
{
    let rows = rows_at_once(sampling);
    let block = vec![in alloc; 0u8; SECTOR * rows * images].map_err(|_| Memory)?;
    Ok(block)
}

/// A report in the making, and the row that is looked at.
#[derive(Drop)]
pub struct Looking {
    /// The sectors of the row, one of each image.
    pub sectors: Vec<u8>,
    /// Its table.
    pub table: RowTable,
    /// The report of the rows before it.
    pub report: Report,
}

impl Looking {
    /// Room for so many rows of so many images. All memory is taken here.
    pub fn new(alloc: Global, style: Style, images: usize, rows: usize) -> Result<Looking, Memory>
        requires images { images ≤ MOST_RELATED }
        requires rows { rows ≤ MOST_ROWS }
        ensures sectors { IfOk result (λ looking. length looking.sectors.items ≡ 512 * images) }
        ensures table { IfOk result (λ looking. length looking.table.standings ≡ images) }
        ensures report { IfOk result (λ looking. looking.report ≡ start_of style images rows) }
    {
        let sectors = vec![in alloc; 0u8; SECTOR * images].map_err(|_| Memory)?;
        Ok(Looking {
            sectors,
            table: RowTable::new(alloc, images)?,
            report: Report::new(alloc, style, images, rows)?,
        })
    }

    /// Looks at all rows, as many at a time as `block` has room for.
    pub fn add_rows<I: Images, K: Sink>(
        &mut self,
        images: &mut I,
        offsets: &[u64],
        sampling: Sampling,
        block: &mut [u8],
        out: &mut K,
    ) -> Result<(), Stop>
        requires rows { HasRows offsets.now (lengths_of (I.seen images.old).attached) sampling }
        requires small { All (λ image. image.sectors < 2 ^ 55) (I.seen images.old).attached }
        requires limit { sampling.rows ≤ MOST_ROWS }
        requires room { sampling.rows ≤ self.old.report.room }
        requires some { 1 ≤ self.old.report.images }
        requires images { length (I.seen images.old).attached ≡ self.old.report.images }
        requires few { self.old.report.images ≤ MOST_RELATED }
        requires block { length block.old ≡ 512 * rows_at_once_in sampling * self.old.report.images }
        requires sectors { length self.old.sectors.items ≡ 512 * self.old.report.images }
        requires table { length self.old.table.standings ≡ self.old.report.images }
        ensures ok { OnOk result (AddsRows (told_all (I.seen images.old).attached) offsets.now sampling sampling.rows self.old.report self.new.report (K.gained out.old) (K.gained out.new)) }
        ensures err { IfErr result (StopsInRows (told_all (I.seen images.old).attached) offsets.now sampling self.old.report (K.gained out.old) (K.gained out.new)) }
        ensures reads { OnlyReads (I.seen images.old) (I.seen images.new) (sampling.rows * length (I.seen images.old).attached) }
        ensures images { Raises Stop.ImageFault (I.seen images.old).faults (I.seen images.new).faults result }
        ensures out { Raises Stop.OutFault (K.faults out.old) (K.faults out.new) result }
    {
        let at_once = rows_at_once(sampling);
        let count = self.table.images();
        let mut first = 0;
        while first < sampling.rows {
            let rows = at_once.min(sampling.rows - first);
            let part = Part {
                sampling,
                first,
                rows,
            };
            let bytes = SECTOR * rows * count;
            match self.add_part(images, offsets, part, &mut block[..bytes], out) {
                Ok(()) => {}
                Err(stop) => return Err(stop),
            }
            first += rows;
        }
        Ok(())
    }

    /// Looks at neighbouring rows, which `block` has room for.
    fn add_part<I: Images, K: Sink>(
        &mut self,
        images: &mut I,
        offsets: &[u64],
        part: Part,
        block: &mut [u8],
        out: &mut K,
    ) -> Result<(), Stop>
        requires rows { HasRows offsets.now (lengths_of (I.seen images.old).attached) part.sampling }
        requires small { All (λ image. image.sectors < 2 ^ 55) (I.seen images.old).attached }
        requires limit { part.sampling.rows ≤ MOST_ROWS }
        requires within { part.first + part.rows ≤ part.sampling.rows }
        requires any { 1 ≤ part.rows }
        requires most { part.rows ≤ AT_ONCE }
        requires near { 2 ≤ part.rows → part.sampling.step ≡ 1 }
        requires room { part.rows ≤ self.old.report.room }
        requires some { 1 ≤ self.old.report.images }
        requires images { length (I.seen images.old).attached ≡ self.old.report.images }
        requires few { self.old.report.images ≤ MOST_RELATED }
        requires block { length block.old ≡ 512 * part.rows * self.old.report.images }
        requires sectors { length self.old.sectors.items ≡ 512 * self.old.report.images }
        requires table { length self.old.table.standings ≡ self.old.report.images }
        ensures ok { OnOk result (AddsPart (told_all (I.seen images.old).attached) offsets.now part self.old.report self.new.report (K.gained out.old) (K.gained out.new)) }
        ensures err { IfErr result (StopsInPart (told_all (I.seen images.old).attached) offsets.now part self.old.report (K.gained out.old) (K.gained out.new)) }
        ensures room { OnOk result (self.new.report.room + part.rows ≡ self.old.report.room) }
        ensures images_kept { OnOk result (self.new.report.images ≡ self.old.report.images) }
        ensures sectors { length self.new.sectors.items ≡ length self.old.sectors.items }
        ensures table { OnOk result (length self.new.table.standings ≡ self.old.report.images) }
        ensures reads { OnlyReads (I.seen images.old) (I.seen images.new) (part.rows * length (I.seen images.old).attached) }
        ensures images { Raises Stop.ImageFault (I.seen images.old).faults (I.seen images.new).faults result }
        ensures out { Raises Stop.OutFault (K.faults out.old) (K.faults out.new) result }
    {
        let count = self.table.images();
        let row = part.sampling.from + part.sampling.step * part.first as u64;
        match read_rows(images, count, offsets, row, part.rows, block) {
            Ok(()) => self.add_read(block, part, out),
            Err(_) => Err(Stop::ImageFault),
        }
    }

    /// Takes neighbouring rows, whose block was read.
    fn add_read<K: Sink>(&mut self, block: &[u8], part: Part, out: &mut K) -> Result<(), Stop>
        requires limit { part.first + part.rows ≤ MOST_ROWS }
        requires near { (place : ℕ) → place < part.rows → row_number part.sampling (part.first + place) < 2 ^ 55 }
        requires most { part.rows ≤ AT_ONCE }
        requires room { part.rows ≤ self.old.report.room }
        requires few { self.old.report.images ≤ MOST_RELATED }
        requires block { length block.now ≡ 512 * part.rows * self.old.report.images }
        requires sectors { length self.old.sectors.items ≡ 512 * self.old.report.images }
        requires table { length self.old.table.standings ≡ self.old.report.images }
        ensures state { OnOk result (self.new.report ≡ after_all self.old.report (block_rows block.now self.old.report.images part part.rows)) }
        ensures put { Puts (K.gained out.old) (K.gained out.new) result (text_of self.old.report.style (said_by self.old.report (block_rows block.now self.old.report.images part part.rows))) }
        ensures stop { IfErr result (λ stop. stop ≡ Stop.OutFault) }
        ensures room { OnOk result (self.new.report.room + part.rows ≡ self.old.report.room) }
        ensures images { OnOk result (self.new.report.images ≡ self.old.report.images) }
        ensures sectors { length self.new.sectors.items ≡ length self.old.sectors.items }
        ensures table { OnOk result (length self.new.table.standings ≡ self.old.report.images) }
        ensures out { Raises Stop.OutFault (K.faults out.old) (K.faults out.new) result }
    {
        let count = self.table.images();
        for place in 0..part.rows {
            pick_row(block, count, part.rows, place, self.sectors.as_mut_slice());
            self.table.fill(&self.sectors);
            let row = part.sampling.from + part.sampling.step * (part.first + place) as u64;
            match self.report.add(out, row, &mut self.table) {
                Ok(()) => {}
                Err(_) => return Err(Stop::OutFault),
            }
        }
        Ok(())
    }

    /// Puts the lines that come after all rows.
    pub fn finish<K: Sink>(self, out: &mut K) -> Result<(), Failed>
        ensures put { Puts (K.gained out.old) (K.gained out.new) result (text_of self.report.style (lines_end self.report)) }
        ensures cause { HasCause (K.faults out.old) (K.faults out.new) result }
    {
        let Looking { report, .. } = self;
        report.finish(out)
    }
}
