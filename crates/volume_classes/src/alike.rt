//! Whether two parameter sets give the same volume.
ghost use Rattle.std.specs.Prelude.{◌≡◌, ◌↔◌, ◌<◌, ◌≤◌, ◌^◌, ℕ, IsTrue, None, length, slice_index, true};
ghost use Rattle.raid_params.specs.Size.{data_blocks as data_blocks_of};
ghost use Rattle.raid_params.specs.Validity.{first_fault, is_shaped, is_valid_head};
ghost use Rattle.volume_classes.specs.Alike.{AreAlike};
ghost use Rattle.volume_classes.specs.Coefficients.{AgreeInRow, AreUnits, HaveEqualCoefficients, HaveEqualSizes};

use crate::coefficients::put_coefficients;
use crate::stretches::{stretch_end, told_rows};
use crate::units::units_of;
use address_map::data_blocks;
use outside::SECTOR;
use raid_layouts::row_cells;
use raid_params::{Geometry, Head};

/// Whether two sets give the same volume, whatever the images hold. Each breaks no rule over so many images, whose members
/// end before the image sector `end`. It takes no memory.
pub fn same_volume(one: &Geometry, other: &Geometry, images: u8, end: u64) -> bool
    requires one { first_fault one.now images end ≡ None }
    requires other { first_fault other.now images end ≡ None }
    ensures { IsTrue result ↔ AreAlike one.now other.now images end }
{
    have_equal_coefficients(one, other, images, end)
}

/// Whether two sets have the same offset, chunk and number of data items, and equal coefficients in the rows that tell.
fn have_equal_coefficients(one: &Geometry, other: &Geometry, images: u8, end: u64) -> bool
    requires one { first_fault one.now images end ≡ None }
    requires other { first_fault other.now images end ≡ None }
    ensures { IsTrue result ↔ HaveEqualCoefficients one.now other.now images end }
{
    if have_equal_sizes(&one.head, &other.head) {
        agree_in_rows(one, other, images, told_rows(&one.head, &other.head, end))
    } else {
        false
    }
}

/// Whether two heads have the same offset, chunk and number of data items.
pub(crate) fn have_equal_sizes(one: &Head, other: &Head) -> bool
    requires one { IsTrue (is_valid_head one.now) }
    requires other { IsTrue (is_valid_head other.now) }
    ensures { IsTrue result ↔ HaveEqualSizes one.now other.now }
{
    one.offset == other.offset && one.chunk == other.chunk && data_blocks(one) == data_blocks(other)
}

/// Whether two sets have equal coefficients in the first rows.
///
/// They are compared where a stretch of rows begins over which neither set turns.
fn agree_in_rows(one: &Geometry, other: &Geometry, images: u8, count: u64) -> bool
    requires one { is_shaped one.now images ≡ true }
    requires other { is_shaped other.now images ≡ true }
    requires few { count ≤ 2 ^ 30 }
    requires items { data_blocks_of one.now.head ≡ data_blocks_of other.now.head }
    ensures { IsTrue result ↔ ((row : ℕ) → row < count → AgreeInRow one.now other.now images row) }
{
    let one_units = units_of(&one.slots);
    let other_units = units_of(&other.slots);
    let mut row = 0;
    while row < count {
        if !agree_in_row(
            one,
            &one_units[..SECTOR * one.slots.len()],
            other,
            &other_units[..SECTOR * other.slots.len()],
            images,
            row,
        ) {
            return false;
        }
        row = stretch_end(&one.head, &other.head, row);
    }
    true
}

/// Whether two sets have equal coefficients in a row.
fn agree_in_row(
    one: &Geometry,
    one_units: &[u8],
    other: &Geometry,
    other_units: &[u8],
    images: u8,
    row: u64,
) -> bool
    requires one { is_shaped one.now images ≡ true }
    requires one_units { AreUnits one.now.slots.items one_units.now }
    requires other { is_shaped other.now images ≡ true }
    requires other_units { AreUnits other.now.slots.items other_units.now }
    requires items { data_blocks_of one.now.head ≡ data_blocks_of other.now.head }
    ensures { IsTrue result ↔ AgreeInRow one.now other.now images row }
{
    let one_cells = row_cells(one, row);
    let other_cells = row_cells(other, row);
    for item in 0..data_blocks(&one.head) {
        let mut left = [0; SECTOR];
        let mut right = [0; SECTOR];
        put_coefficients(one, one_units, row, &one_cells, item, &mut left);
        put_coefficients(other, other_units, row, &other_cells, item, &mut right);
        if !begin_alike(&left, &right, images) {
            return false;
        }
    }
    true
}

/// Whether two sectors have the same first bytes.
fn begin_alike(left: &[u8], right: &[u8], count: u8) -> bool
    requires left { length left.now ≡ 512 }
    requires right { length right.now ≡ 512 }
    ensures { IsTrue result ↔ ((at : ℕ) → at < count → slice_index left.now at ≡ slice_index right.now at) }
{
    left[..count as usize] == right[..count as usize]
}
