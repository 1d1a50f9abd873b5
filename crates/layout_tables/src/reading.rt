//! The table that a text spells.
ghost use Rattle.std.specs.Prelude.{◌≡◌, ◌≢◌, ◌∷◌, ℕ, List, MatchOption};
ghost use Rattle.layout_tables.specs.Tables.{spelling};
ghost use Rattle.layout_tables.specs.declared.table.Table.{Table as TableOf};

use crate::building::drawn;
use crate::joined::joined;
use crate::pieces::Rows;
use crate::table::Table;

/// Reads a table, `=` and the rows of one period with `/` between them, to the last byte of the text. The cells of a row stand with `.` between
/// them, slot 0 first: the number of a data item of the row from 0, `P`, `Q`, or `-` for a spare.
///
/// A table has 2 to 24 slots and 1 to 64 rows. Each row has the same number of data items, at least two, each once. Either no row has parity, or each
/// row has one P and no Q, or each row has one P and one Q. Each slot is no spare in some row.
///
/// It returns None exactly if the text is the spelling of no table.
pub fn parse(text: &[u8]) -> Option<Table>
    ensures { MatchOption result ((table : TableOf) → text.now ≢ spelling table) (λ table. text.now ≡ spelling table) }
{
    let rows: Rows = joined(after_equals(text)?, b'/')?;
    drawn(rows.as_slice())
}

/// What follows the equals sign with which a text begins.
fn after_equals(text: &[u8]) -> Option<&[u8]>
    ensures { MatchOption result ((rest : List ℕ) → text.entry.now ≢ 61 ∷ rest) (λ rest. text.entry.now ≡ 61 ∷ rest.now) }
{
    text.strip_prefix(b"=")
}
