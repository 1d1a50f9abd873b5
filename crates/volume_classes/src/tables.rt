//! The coefficients of a set, made once.
ghost use Rattle.std.specs.Prelude.{◌≡◌, ◌++◌, ◌+◌, ◌*◌, ◌%◌, ◌<◌, ◌≤◌, ◌↔◌, ℕ, IsTrue, IfOk, OnOk, None, drop, length, take, true};
ghost use Rattle.raid_params.specs.Size.{rows as rows_of};
ghost use Rattle.raid_params.specs.Validity.{first_fault, is_shaped, is_valid_head};
ghost use Rattle.raid_params.specs.declared.types.Geometry.{Geometry as GeometryOf};
ghost use Rattle.volume_classes.specs.Alike.{AreAlike};
ghost use Rattle.volume_classes.specs.Coefficients.{AgreeInRow, AreUnits, HaveEqualSizes, own_turns as own_turns_of, row_coefficients, turn_coefficients, turns as turns_of};
ghost use Rattle.raid_terms.specs.Role.{turn as turn_of};
ghost use Rattle.volume_classes.specs.Tables.{HasRow, HasSet, IsTable, RowsAgree};

use crate::alike::have_equal_sizes;
use crate::coefficients::{put_coefficients, turns};
use crate::stretches::{stretch_end, told_rows};
use crate::units::units_of;
use address_map::{data_blocks, rows};
use outside::{Memory, SECTOR};
use raid_layouts::{row_cells, turn};
use raid_params::{Geometry, Head};
use std::alloc::Global;
use value_text::Text;

/// The coefficients of a set in the first rows of its turns, before its layout begins anew.
#[derive(Drop)]
pub struct Table {
    /// The set's parameters but for its slots.
    pub head: Head,
    /// The coefficients: turn by turn, item by item, image by image.
    pub coefficients: Text,
}

/// The table of a set that breaks no rule over so many images, whose members end before the image sector `end`.
pub(crate) fn table_of(alloc: Global, geo: &Geometry, images: u8, end: u64) -> Result<Table, Memory>
    requires { first_fault geo.now images end ≡ None }
    ensures { IfOk result (IsTable images end geo.now) }
{
    let mut coefficients = Text::new(alloc);
    let units = units_of(&geo.slots);
    for turn in 0..own_turns(&geo.head, end) {
        let slots = &units[..SECTOR * geo.slots.len()];
        add_row(&mut coefficients, geo, slots, images, turn * geo.head.delay)?;
    }
    Ok(Table {
        head: geo.head,
        coefficients,
    })
}

/// How many turns a table has.
fn own_turns(head: &Head, end: u64) -> u64
    requires { IsTrue (is_valid_head head.now) }
    ensures { result ≡ own_turns_of head.now end }
{
    rows(head, end).min(u64::from(turns(head)))
}

/// Appends the coefficients of a row.
fn add_row(
    coefficients: &mut Text,
    geo: &Geometry,
    units: &[u8],
    images: u8,
    row: u64,
) -> Result<(), Memory>
    requires shape { is_shaped geo.now images ≡ true }
    requires units { AreUnits geo.now.slots.items units.now }
    ensures { OnOk result (coefficients.new ≡ coefficients.old ++ row_coefficients geo.now images row) }
{
    let cells = row_cells(geo, row);
    for item in 0..data_blocks(&geo.head) {
        let mut found = [0; SECTOR];
        put_coefficients(geo, units, row, &cells, item, &mut found);
        coefficients.extend_from_slice(&found[..images as usize])?;
    }
    Ok(())
}

/// Whether the sets of two tables give the same volume, whatever the images hold.
pub(crate) fn are_alike(one: &Table, other: &Table, images: u8, end: u64) -> bool
    requires one { HasSet images end one.now }
    requires other { HasSet images end other.now }
    ensures { (a b : GeometryOf) → IsTable images end a one.now → IsTable images end b other.now → IsTrue result ↔ AreAlike a b images end }
{
    if have_equal_sizes(&one.head, &other.head) {
        rows_agree(one, other, images, end)
    } else {
        false
    }
}

/// Whether two tables agree in the rows that tell.
///
/// They are compared where a stretch of rows begins over which neither set turns.
fn rows_agree(one: &Table, other: &Table, images: u8, end: u64) -> bool
    requires one { HasSet images end one.now }
    requires other { HasSet images end other.now }
    requires sizes { HaveEqualSizes one.now.head other.now.head }
    ensures { (a b : GeometryOf) → IsTable images end a one.now → IsTable images end b other.now → IsTrue result ↔ RowsAgree a b images end }
{
    let count = told_rows(&one.head, &other.head, end);
    let mut row = 0;
    while row < count {
        if !row_agrees(one, other, images, row) {
            return false;
        }
        row = stretch_end(&one.head, &other.head, row);
    }
    true
}

/// Whether two tables agree in a row.
fn row_agrees(one: &Table, other: &Table, images: u8, row: u64) -> bool
    requires one { HasRow images row one.now }
    requires other { HasRow images row other.now }
    ensures { (a b : GeometryOf) (end : ℕ) → IsTable images end a one.now → IsTable images end b other.now → HaveEqualSizes a.head b.head →
        row < rows_of a.head end → row < rows_of b.head end → IsTrue result ↔ AgreeInRow a b images row }
{
    are_equal(row_of(one, images, row), row_of(other, images, row))
}

/// Whether two lists of bytes are equal.
fn are_equal(left: &[u8], right: &[u8]) -> bool
    ensures { IsTrue result ↔ (left.now ≡ right.now) }
{
    left == right
}

/// The coefficients of a row, which a table has by its turn modulo the turns before the layout begins anew.
fn row_of(table: &Table, images: u8, row: u64) -> &[u8]
    requires { HasRow images row table.now }
    ensures { (geo : GeometryOf) (end : ℕ) → IsTable images end geo table.entry.now → row < rows_of geo.head end →
        result.now ≡ turn_coefficients geo images (turn_of geo.head row % turns_of geo.head) }
{
    let width = usize::from(data_blocks(&table.head)) * usize::from(images);
    let place = (turn(&table.head, row) % u64::from(turns(&table.head))) as usize;
    row_at(table.coefficients.as_slice(), width, place)
}

/// A row of a table, where each row has so many bytes.
fn row_at(coefficients: &[u8], width: usize, row: usize) -> &[u8]
    requires { width * row + width ≤ length coefficients.now }
    ensures { result.now ≡ take width (drop (width * row) coefficients.entry.now) }
{
    &coefficients[width * row..width * row + width]
}
