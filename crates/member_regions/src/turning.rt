//! The cells of one row after another.
ghost use Rattle.std.specs.Prelude.{◌≡◌};
ghost use Rattle.raid_terms.specs.Cells.{row_cells as row_cells_of};
ghost use Rattle.member_regions.specs.Members.{IsTestable};

use arrayvec::ArrayVec;
use raid_layouts::row_cells;
use raid_params::{Cell, Geometry, MOST};

/// Makes the cells of one row those of another.
#[tactic(auto, using(crate::proofs::Sets::testable_head, crate::proofs::Sets::testable_slots))]
pub fn turn_to(geo: &Geometry, cells: &mut ArrayVec<Cell, MOST>, at: u64, row: u64)
    requires set { IsTestable geo.now }
    requires at { cells.old.items ≡ row_cells_of geo.now at }
    ensures { cells.new.items ≡ row_cells_of geo.now row }
{
    if at != row {
        *cells = row_cells(geo, row);
    }
}
