//! The cells of rows, as the tests have them.
ghost use Rattle.std.specs.Prelude.{◌≡◌, ◌≢◌, ◌<◌, ◌≤◌, [], ◌∷◌, count_by};
ghost use Rattle.raid_terms.specs.Parity.{IsRow};

use raid_params::{Cell, Part};
use std::process::Abort;

/// Q, two data blocks with these exponents, and P, of which some are missing.
fn four(i: u8, j: u8, q: bool, first: bool, second: bool, p: bool) -> [Cell; 4]
    requires exponents { (i < 255) × (j < 255) × (i ≢ j) }
    requires lost { count_by (λ m. m) (q ∷ first ∷ second ∷ p ∷ []) ≤ 2 }
    ensures { IsRow result }
{
    [
        Cell {
            part: Part::Q,
            missing: q,
        },
        Cell {
            part: Part::Block(i),
            missing: first,
        },
        Cell {
            part: Part::Block(j),
            missing: second,
        },
        Cell {
            part: Part::P,
            missing: p,
        },
    ]
}

/// The same, of which these are missing, in the order of the cells.
pub fn four_cells<R: Abort>(rt: &R, exponents: [u8; 2], lost: [bool; 4]) -> [Cell; 4]
    ensures { IsRow result }
{
    let [i, j] = exponents;
    let [q, first, second, p] = lost;
    assert!(rt; i < 255 && j < 255 && i != j);
    assert!(rt; u8::from(q) + u8::from(first) + u8::from(second) + u8::from(p) <= 2);
    four(i, j, q, first, second, p)
}

/// Four data blocks between P and Q.
pub fn six() -> [Cell; 6]
    ensures { IsRow result }
{
    [
        Cell {
            part: Part::Block(7),
            missing: false,
        },
        Cell {
            part: Part::P,
            missing: false,
        },
        Cell {
            part: Part::Block(200),
            missing: false,
        },
        Cell {
            part: Part::Block(31),
            missing: false,
        },
        Cell {
            part: Part::Q,
            missing: false,
        },
        Cell {
            part: Part::Block(254),
            missing: false,
        },
    ]
}
