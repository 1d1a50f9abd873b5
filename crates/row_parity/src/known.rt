//! Where the cells of a row stand that are there.
ghost use Rattle.std.specs.Prelude.{ℕ, ◌≡◌, ◌<◌, ◌≤◌, ◌^◌, if◌then◌else◌, slice_index_or, true, length, None, Some};
ghost use Rattle.raid_terms.specs.Parity.{has_q, IsRow};
ghost use Rattle.row_parity.specs.Known.{known_block, known_p, known_q, ArePlaces};

use raid_params::{Cell, Part};

/// The places of the cells that are there, by what they hold.
#[derive(Drop)]
pub struct Known {
    /// The places of the data cells that are there, by their exponents.
    pub data_places: [Option<u8>; 256],
    /// No exponent reaches it.
    pub end: usize,
    /// The place of P.
    pub p: Option<u8>,
    /// The place of Q.
    pub q: Option<u8>,
}

/// The places of the cells of a row with a Q.
pub fn known_of(cells: &[Cell]) -> Known
    requires cells { IsRow cells.now }
    requires q { has_q cells.now ≡ true }
    ensures { ArePlaces cells.now (length cells.now) result }
{
    let mut known = Known {
        data_places: [None; 256],
        end: 0,
        p: None,
        q: None,
    };
    for place in 0..cells.len() {
        note(&mut known, cells[place], place as u8);
    }
    known
}

/// Notes the place of a cell, where it is there.
fn note(known: &mut Known, cell: Cell, place: u8)
    requires long { length known.old.data_places ≡ 256 }
    ensures long { length known.new.data_places ≡ 256 }
    ensures data_at { (k : ℕ) → slice_index_or known.new.data_places k None ≡ (if known_block k cell then Some place else slice_index_or known.old.data_places k None) }
    ensures later { known.old.end ≤ known.new.end }
    ensures end { (k : ℕ) → known_block k cell ≡ true → k < known.new.end }
    ensures few { known.old.end ≤ 256 → known.new.end ≤ 256 }
    ensures p { known.new.p ≡ (if known_p cell then Some place else known.old.p) }
    ensures q { known.new.q ≡ (if known_q cell then Some place else known.old.q) }
{
    if cell.missing {
        return;
    }
    match cell.part {
        Part::Block(k) => {
            known.data_places[k as usize] = Some(place);
            known.end = known.end.max(k as usize + 1);
        }
        Part::P => known.p = Some(place),
        Part::Q => known.q = Some(place),
    }
}
