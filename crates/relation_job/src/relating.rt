//! The command `relations`.
ghost use Rattle.std.specs.Prelude.{◌≡◌, ◌+◌, ◌*◌, ◌≤◌, ◌<◌, ◌^◌, All, IfErr, IfOk, IfSome, OnOk, length, min};
ghost use Rattle.outside.specs.Seen.{OnlyReads, lengths_of};
ghost use Rattle.outside.specs.Streams.{Stream};
ghost use Rattle.run_ends.specs.Jobs.{Does, around, named, stream};
ghost use Rattle.outside.specs.Attached.{told_all};
ghost use Rattle.std.specs.Io.KnownBytes.{Appends};
ghost use Rattle.relation_lines.specs.Reports.{start_of};
ghost use Rattle.relation_job.specs.Blocks.{rows_at_once as rows_at_once_in};
ghost use Rattle.relation_job.specs.Looking.{EndsReport, HasRows};
ghost use Rattle.relation_job.specs.Relating.{relations_job, report_text, style_of as style_for};
ghost use Rattle.run_ends.specs.Counts.{Raises};

use crate::looking::{Looking, block_for};
use crate::sampling::{Sampling, sampling_of};
use command_words::{Form, MOST_RELATED, RelationWords};
use outside::{Images, MOST_ATTACHED, Sink};
use relation_lines::{MOST_ROWS, Style};
use run_ends::{Refusal, Stop};
use std::alloc::Global;

/// Looks at rows of the images at a step, and puts what is said of how the images depend on one another. A line is put as soon as its
/// run of rows has ended, so where the images fail the lines before stand on `out`. `names` is the number of images.
#[inline(never)]
pub fn relations<I: Images, K: Sink>(
    alloc: Global,
    images: &mut I,
    names: usize,
    asked: RelationWords,
    out: &mut K,
) -> Result<(), Stop>
    requires attached { length (I.seen images.old).attached ≡ min names MOST_ATTACHED }
    requires small { All (λ image. image.sectors < 2 ^ 55) (I.seen images.old).attached }
    requires step { IfSome asked.step (λ step. (1 ≤ step) × (step < 2 ^ 55)) }
    ensures does { (source : Stream) → Does (relations_job asked) (named names (I.seen images.old).attached)
        (around (I.seen images.old) source) (around (I.seen images.new) source)
        (stream (K.gained out.old) (K.faults out.old)) (stream (K.gained out.new) (K.faults out.new)) result }
    ensures kept { (I.seen images.new).attached ≡ (I.seen images.old).attached }
{
    match sampling_of(images, names, &asked) {
        Ok(sampling) => report_rows(
            alloc,
            images,
            names,
            &asked.offsets,
            sampling,
            style_of(asked.form),
            out,
        ),
        Err(fault) => Err(Stop::Refused(Refusal::Images(fault))),
    }
}

/// Puts the report of these rows of the `names` attached images.
fn report_rows<I: Images, K: Sink>(
    alloc: Global,
    images: &mut I,
    names: usize,
    offsets: &[u64],
    sampling: Sampling,
    style: Style,
    out: &mut K,
) -> Result<(), Stop>
    requires attached { length (I.seen images.old).attached ≡ names }
    requires some { 2 ≤ names }
    requires few { names ≤ MOST_RELATED }
    requires room { sampling.rows ≤ MOST_ROWS }
    requires rows { HasRows offsets.now (lengths_of (I.seen images.old).attached) sampling }
    requires small { All (λ image. image.sectors < 2 ^ 55) (I.seen images.old).attached }
    ensures put { OnOk result (IfSome (told_all (I.seen images.old).attached)
        (λ bytes. Appends (K.gained out.old) (K.gained out.new) (report_text bytes offsets.now sampling style))) }
    ensures ends { IfErr result (EndsReport (told_all (I.seen images.old).attached) offsets.now sampling style (I.seen images.old) (I.seen images.new)
        (stream (K.gained out.old) (K.faults out.old)) (stream (K.gained out.new) (K.faults out.new))) }
    ensures reads { OnlyReads (I.seen images.old) (I.seen images.new) (sampling.rows * length (I.seen images.old).attached) }
    ensures images { Raises Stop.ImageFault (I.seen images.old).faults (I.seen images.new).faults result }
    ensures out { Raises Stop.OutFault (K.faults out.old) (K.faults out.new) result }
{
    match Looking::new(alloc, style, names, sampling.rows) {
        Ok(looking) => match block_for(alloc, names, sampling) {
            Ok(mut block) => put_report(images, offsets, sampling, looking, &mut block, out),
            Err(_) => Err(Stop::OutOfMemory),
        },
        Err(_) => Err(Stop::OutOfMemory),
    }
}

/// Looks at the rows, and puts their report.
fn put_report<I: Images, K: Sink>(
    images: &mut I,
    offsets: &[u64],
    sampling: Sampling,
    mut looking: Looking,
    block: &mut [u8],
    out: &mut K,
) -> Result<(), Stop>
    requires limit { sampling.rows ≤ MOST_ROWS }
    requires some { 2 ≤ length (I.seen images.old).attached }
    requires few { length (I.seen images.old).attached ≤ MOST_RELATED }
    requires rows { HasRows offsets.now (lengths_of (I.seen images.old).attached) sampling }
    requires small { All (λ image. image.sectors < 2 ^ 55) (I.seen images.old).attached }
    requires block { length block.old ≡ 512 * rows_at_once_in sampling * length (I.seen images.old).attached }
    requires sectors { length looking.sectors.items ≡ 512 * length (I.seen images.old).attached }
    requires table { length looking.table.standings ≡ length (I.seen images.old).attached }
    requires report { looking.report ≡ start_of looking.report.style (length (I.seen images.old).attached) sampling.rows }
    ensures put { OnOk result (IfSome (told_all (I.seen images.old).attached)
        (λ bytes. Appends (K.gained out.old) (K.gained out.new) (report_text bytes offsets.now sampling looking.report.style))) }
    ensures ends { IfErr result (EndsReport (told_all (I.seen images.old).attached) offsets.now sampling looking.report.style (I.seen images.old) (I.seen images.new)
        (stream (K.gained out.old) (K.faults out.old)) (stream (K.gained out.new) (K.faults out.new))) }
    ensures reads { OnlyReads (I.seen images.old) (I.seen images.new) (sampling.rows * length (I.seen images.old).attached) }
    ensures images { Raises Stop.ImageFault (I.seen images.old).faults (I.seen images.new).faults result }
    ensures out { Raises Stop.OutFault (K.faults out.old) (K.faults out.new) result }
{
    match looking.add_rows(images, offsets, sampling, block, out) {
        Ok(()) => match looking.finish(out) {
            Ok(()) => Ok(()),
            Err(_) => Err(Stop::OutFault),
        },
        Err(stop) => Err(stop),
    }
}

/// How lines are written in a form.
fn style_of(form: Form) -> Style
    ensures { result ≡ style_for form }
{
    match form {
        Form::Text => Style::Text,
        Form::Json => Style::Json,
    }
}
