//! The spelling of a table.
ghost use Rattle.std.specs.Prelude.{◌≡◌, ◌≤◌, ◌+◌, ◌++◌, length};
ghost use Rattle.layout_tables.specs.Cells.{AreCells, IsCell, cell_name};
ghost use Rattle.layout_tables.specs.Spelling.{row_name};
ghost use Rattle.layout_tables.specs.Tables.{spelling};

use crate::limits::{LONGEST_TABLE, P_BYTE, Q_BYTE, SPARE_BYTE};
use crate::table::Table;
use arrayvec::ArrayVec;

/// The bytes of a spelling.
pub type TableText = ArrayVec<u8, LONGEST_TABLE>;

impl Table {
    /// The spelling of the table, which [`parse`](crate::parse) reads.
    pub fn spell(&self) -> TableText
        ensures { result.items ≡ spelling self.now }
    {
        let mut text = TableText::new();
        text.push(b'=');
        add_row(&mut text, self.row(0));
        for at in 1..self.period {
            text.push(b'/');
            add_row(&mut text, self.row(u64::from(at)));
        }
        text
    }
}

/// Appends the cells of a row.
fn add_row(text: &mut TableText, row: &[u8])
    requires cells { AreCells row.now }
    requires room { length text.old.items + 71 ≤ LONGEST_TABLE }
    ensures name { text.new.items ≡ text.old.items ++ row_name row.now }
    ensures few { length text.new.items ≤ length text.old.items + 71 }
{
    add_cell(text, row[0]);
    for at in 1..row.len() {
        text.push(b'.');
        add_cell(text, row[at]);
    }
}

/// Appends the name of a cell.
fn add_cell(text: &mut TableText, byte: u8)
    requires cell { IsCell byte }
    requires room { length text.old.items + 2 ≤ LONGEST_TABLE }
    ensures name { text.new.items ≡ text.old.items ++ cell_name byte }
    ensures few { length text.new.items ≤ length text.old.items + 2 }
{
    match byte {
        P_BYTE => text.push(b'P'),
        Q_BYTE => text.push(b'Q'),
        SPARE_BYTE => text.push(b'-'),
        0..=9 => text.push(b'0' + byte),
        _ => {
            text.push(b'0' + byte / 10);
            text.push(b'0' + byte % 10);
        }
    }
}
