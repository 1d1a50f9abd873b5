//! The lines, each as bytes.
ghost use Rattle.std.specs.Prelude.{◌≡◌, ◌+◌, ◌*◌, ◌<◌, ◌≤◌, ◌++◌, [], All, decimal, length};
ghost use Rattle.std.specs.List.{flat_map};
ghost use Rattle.relation_lines.specs.Reports.{others};
ghost use Rattle.relation_lines.specs.Reports.Line.{Alone, Free, Rows, Together};
ghost use Rattle.relation_lines.specs.Text.{inner, joined, line_text, listed, mark_text, numbers, term_text, text_of, tie_text};
ghost use Rattle.relation_lines.specs.declared.style.Mark.TheVariants.{ListBetween, TermBetween, TieBetween};

use crate::line::{LONGEST, LineBytes};
use crate::lists::{dependents_of, images_in, summands_of, zeros_of};
use crate::style::{Mark, Style};
use row_relations::RowTable;

/// The rows of a run, both included.
#[derive(Clone, Copy)]
pub(crate) struct Span {
    /// The first row.
    pub first: u64,
    /// The last row that was looked at.
    pub last: u64,
}

/// Appends numbers as a list.
fn push_numbers(line: &mut LineBytes, style: Style, images: &[u8])
    requires few { length images.now ≤ 64 }
    requires room { length line.old + 4096 ≤ LONGEST }
    ensures text { line.new ≡ line.old ++ numbers style images.now }
    ensures short { length line.new ≤ length line.old + 4096 }
{
    line.push_mark(style, Mark::ListOpen);
    push_inner_numbers(line, style, images);
    line.push_mark(style, Mark::ListEnd);
}

/// Appends what stands in a list of numbers.
fn push_inner_numbers(line: &mut LineBytes, style: Style, images: &[u8])
    requires few { length images.now ≤ 64 }
    requires room { length line.old + 2100 ≤ LONGEST }
    ensures text { line.new ≡ line.old ++ inner style (mark_text style ListBetween) decimal images.now }
    ensures short { length line.new ≤ length line.old + 2100 }
{
    match images {
        [] => line.push_mark(style, Mark::ListNone),
        [first, rest @ ..] => {
            line.push_number(u64::from(*first));
            push_more_numbers(line, style, rest);
        }
    }
}

/// Appends numbers, each after a mark.
fn push_more_numbers(line: &mut LineBytes, style: Style, images: &[u8])
    requires few { length images.now < 64 }
    requires room { length line.old + 2048 ≤ LONGEST }
    ensures text { line.new ≡ line.old ++ flat_map (λ image. mark_text style ListBetween ++ decimal image) images.now }
    ensures short { length line.new ≤ length line.old + 2048 }
{
    for image in images {
        line.push_mark(style, Mark::ListBetween);
        line.push_number(u64::from(*image));
    }
}

/// Appends a weight and its image.
#[tactic(auto, unfolding(crate::specs::Text::term_text))]
fn push_term(line: &mut LineBytes, style: Style, table: &RowTable, image: usize, other: usize)
    requires image { image < length table.now.standings }
    requires other { other < length table.now.standings }
    requires room { length line.old + 76 ≤ LONGEST }
    ensures text { line.new ≡ line.old ++ term_text style table.now image other }
    ensures short { length line.new ≤ length line.old + 76 }
{
    line.push_mark(style, Mark::TermOpen);
    line.push_number(u64::from(table.weight(image, other)));
    line.push_mark(style, Mark::TermOf);
    line.push_number(other as u64);
    line.push_mark(style, Mark::TermEnd);
}

/// Appends the terms of a sum.
fn push_sum(line: &mut LineBytes, style: Style, table: &RowTable, image: usize, others: &[u8])
    requires image { image < length table.now.standings }
    requires within { All (λ other. other < length table.now.standings) others.now }
    requires few { length others.now ≤ 64 }
    requires room { length line.old + 6000 ≤ LONGEST }
    ensures text { line.new ≡ line.old ++ joined (mark_text style TermBetween) (term_text style table.now image) others.now }
    ensures short { length line.new ≤ length line.old + 6000 }
{
    match others {
        [] => {}
        [first, rest @ ..] => {
            push_term(line, style, table, image, *first as usize);
            push_more_terms(line, style, table, image, rest);
        }
    }
}

/// Appends the terms of a sum, each after a mark.
fn push_more_terms(
    line: &mut LineBytes,
    style: Style,
    table: &RowTable,
    image: usize,
    others: &[u8],
)
    requires image { image < length table.now.standings }
    requires within { All (λ other. other < length table.now.standings) others.now }
    requires few { length others.now < 64 }
    requires room { length line.old + 5700 ≤ LONGEST }
    ensures text { line.new ≡ line.old ++ flat_map (λ other. mark_text style TermBetween ++ term_text style table.now image other) others.now }
    ensures short { length line.new ≤ length line.old + 5700 }
{
    for other in others {
        line.push_mark(style, Mark::TermBetween);
        push_term(line, style, table, image, *other as usize);
    }
}

/// Appends a dependent image and the sum that it is.
#[tactic(auto, unfolding(crate::specs::Text::tie_text))]
fn push_tie(line: &mut LineBytes, style: Style, table: &RowTable, image: usize)
    requires image { image < length table.now.standings }
    requires room { length line.old + 6100 ≤ LONGEST }
    ensures text { line.new ≡ line.old ++ tie_text style table.now image }
    ensures short { length line.new ≤ length line.old + 6100 }
{
    line.push_mark(style, Mark::TieOpen);
    line.push_number(image as u64);
    line.push_mark(style, Mark::TieOf);
    push_sum(line, style, table, image, &summands_of(table, image));
    line.push_mark(style, Mark::TieEnd);
}

/// Appends the ties of these images as a list.
fn push_ties(line: &mut LineBytes, style: Style, table: &RowTable, images: &[u8])
    requires within { All (λ image. image < length table.now.standings) images.now }
    requires few { length images.now ≤ 64 }
    requires room { length line.old + 407000 ≤ LONGEST }
    ensures text { line.new ≡ line.old ++ listed style (mark_text style TieBetween) (tie_text style table.now) images.now }
    ensures short { length line.new ≤ length line.old + 407000 }
{
    line.push_mark(style, Mark::ListOpen);
    push_inner_ties(line, style, table, images);
    line.push_mark(style, Mark::ListEnd);
}

/// Appends what stands in a list of ties.
#[tactic(auto, using(crate::proofs::Loops::with_marks))]
fn push_inner_ties(line: &mut LineBytes, style: Style, table: &RowTable, images: &[u8])
    requires within { All (λ image. image < length table.now.standings) images.now }
    requires few { length images.now ≤ 64 }
    requires room { length line.old + 406500 ≤ LONGEST }
    ensures text { line.new ≡ line.old ++ inner style (mark_text style TieBetween) (tie_text style table.now) images.now }
    ensures short { length line.new ≤ length line.old + 406500 }
{
    match images {
        [] => line.push_mark(style, Mark::ListNone),
        [first, rest @ ..] => {
            push_tie(line, style, table, *first as usize);
            push_more_ties(line, style, table, rest);
        }
    }
}

/// Appends the ties of these images, each after a mark.
fn push_more_ties(line: &mut LineBytes, style: Style, table: &RowTable, images: &[u8])
    requires within { All (λ image. image < length table.now.standings) images.now }
    requires few { length images.now < 64 }
    requires room { length line.old + 400000 ≤ LONGEST }
    ensures text { line.new ≡ line.old ++ flat_map (λ image. mark_text style TieBetween ++ tie_text style table.now image) images.now }
    ensures short { length line.new ≤ length line.old + 400000 }
{
    for image in images {
        line.push_mark(style, Mark::TieBetween);
        push_tie(line, style, table, *image as usize);
    }
}

/// Appends the line of a run.
pub(crate) fn say_rows(line: &mut LineBytes, style: Style, span: Span, table: &RowTable)
    requires { length line.old ≡ 0 }
    ensures { line.new ≡ line.old ++ line_text style (Rows (record { first = span.first; last = span.last; table = table.now })) }
{
    line.push_mark(style, Mark::RowsOpen);
    line.push_number(span.first);
    line.push_mark(style, Mark::RowsTo);
    line.push_number(span.last);
    line.push_mark(style, Mark::RowsZero);
    push_numbers(line, style, &zeros_of(table));
    line.push_mark(style, Mark::RowsTied);
    push_ties(line, style, table, &dependents_of(table));
    line.push_mark(style, Mark::RowsEnd);
}

/// Appends the line of a set of images that so many rows connect.
pub(crate) fn say_together(line: &mut LineBytes, style: Style, set: u64, rows: u64)
    requires { length line.old ≡ 0 }
    ensures { line.new ≡ line.old ++ line_text style (Together set rows) }
{
    line.push_mark(style, Mark::TogetherOpen);
    push_numbers(line, style, &images_in(set));
    line.push_mark(style, Mark::TogetherIn);
    line.push_number(rows);
    line.push_mark(style, Mark::TogetherEnd);
}

/// Appends the line of how many more sets there are, where there are any.
pub(crate) fn say_others(line: &mut LineBytes, style: Style, sets: u64)
    requires { length line.old ≡ 0 }
    ensures text { line.new ≡ line.old ++ text_of style (others sets) }
    ensures short { length line.new ≤ 44 }
{
    if sets != 0 {
        line.push_mark(style, Mark::OthersOpen);
        line.push_number(sets);
        line.push_mark(style, Mark::OthersEnd);
    }
}

/// Appends the line of the images in no tie.
pub(crate) fn say_alone(line: &mut LineBytes, style: Style, set: u64)
    requires { length line.old ≤ 44 }
    ensures text { line.new ≡ line.old ++ line_text style (Alone set) }
    ensures short { length line.new ≤ 4200 }
{
    line.push_mark(style, Mark::AloneOpen);
    push_numbers(line, style, &images_in(set));
    line.push_mark(style, Mark::AloneEnd);
}

/// Appends the line of how many of all rows have no tie.
pub(crate) fn say_free(line: &mut LineBytes, style: Style, free: u64, rows: u64)
    requires { length line.old ≤ 4200 }
    ensures { line.new ≡ line.old ++ line_text style (Free free rows) }
{
    line.push_mark(style, Mark::FreeOpen);
    line.push_number(free);
    line.push_mark(style, Mark::FreeOf);
    line.push_number(rows);
    line.push_mark(style, Mark::FreeEnd);
}
