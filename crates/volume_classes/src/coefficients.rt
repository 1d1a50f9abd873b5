//! The coefficients of the data items of a row.
ghost use Rattle.std.specs.Prelude.{◌≡◌, ◌<◌, ◌≤◌, ◌*◌, ℕ, length, slice_index, take, true};
ghost use Rattle.raid_params.specs.Size.{data_blocks as data_blocks_of};
ghost use Rattle.raid_params.specs.Validity.{is_shaped};
ghost use Rattle.raid_terms.specs.Cells.{row_cells as row_cells_of};
ghost use Rattle.volume_classes.specs.Coefficients.{AreUnits, coefficient, turns as turns_of};

use outside::SECTOR;
use pq_parity::solve;
use raid_layouts::slot_of_item;
use raid_params::{Cell, Geometry, Head, Pattern};

/// After how many turns a layout begins anew.
pub(crate) fn turns(head: &Head) -> u8
    requires { 1 ≤ head.now.members }
    ensures { result ≡ turns_of head.now }
{
    match head.pattern {
        Pattern::La6 | Pattern::Ra6 | Pattern::Ls6 | Pattern::Rs6 | Pattern::ParityFirst6 =>
            head.members - 1,
        _ => head.members,
    }
}

/// Writes the coefficients of a data item of a row: byte j of `to` is that over image j. `cells` are the cells of the row,
/// `units` the sectors of the set's slots, and `to` holds one sector.
pub(crate) fn put_coefficients(
    geo: &Geometry,
    units: &[u8],
    row: u64,
    cells: &[Cell],
    item: u8,
    to: &mut [u8],
)
    requires shape { (images : ℕ) × (is_shaped geo.now images ≡ true) }
    requires units { AreUnits geo.now.slots.items units.now }
    requires cells { cells.now ≡ row_cells_of geo.now row }
    requires item { item < data_blocks_of geo.now.head }
    requires to { length to.old ≡ 512 }
    ensures length { length to.new ≡ 512 }
    ensures bytes { (image : ℕ) → image < 512 → slice_index to.new image ≡ coefficient geo.now row item image }
{
    let slot = slot_of_item(&geo.head, row, item) as usize;
    match geo.slots[slot] {
        Some(_) => to.copy_from_slice(&units[SECTOR * slot..SECTOR * slot + SECTOR]),
        None => solve(cells, units, slot, to),
    }
}
