//! The order of tables in lists.
ghost use Rattle.std.specs.Prelude.{◌≡◌};
ghost use Rattle.std.specs.Cmp.Lexicographic.{slice_cmp};
ghost use Rattle.std.specs.Ordering.{nat_cmp};
ghost use Rattle.layout_tables.specs.Tables.{spelling};

use crate::table::Table;
use std::cmp::Ordering;

impl Table {
    /// Compares the spellings of two tables byte by byte, as lists of tables rise.
    pub fn compare(&self, other: &Table) -> Ordering
        ensures { result ≡ slice_cmp nat_cmp (spelling self.now) (spelling other.now) }
    {
        let text = self.spell();
        let next = other.spell();
        text.as_slice().cmp(next.as_slice())
    }
}
