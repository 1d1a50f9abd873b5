//! The least period of a table.
ghost use Rattle.std.specs.Prelude.{◌≡◌, ◌≤◌, ◌+◌, ℕ, take};
ghost use Rattle.std.specs.Str.{bytes_eq};
ghost use Rattle.layout_tables.specs.Periods.{first_of_grid, least_period, repeats_after};
ghost use Rattle.layout_tables.specs.Tables.{cell_of, period_of, row_at, rows_of};

use crate::limits::{MOST_TABLE_ROWS, MOST_TABLE_SLOTS, SPARE_BYTE};
use crate::table::{Grid, Table};

impl Table {
    /// The least number of rows after which the rows repeat. A table in normal form has as many.
    #[tactic(auto, unfolding(crate::specs::Periods::least_period))]
    pub fn least_period(&self) -> u8
        ensures { result ≡ least_period self.now }
    {
        (1..self.period)
            .find(|shift| self.repeats_after(*shift))
            .unwrap_or(self.period)
    }

    /// The same table with its least period: its normal form.
    pub fn reduced(&self) -> Table
        ensures rows { rows_of result ≡ take (least_period self.now) (rows_of self.now) }
        ensures cells { (row slot : ℕ) → cell_of result row slot ≡ cell_of self.now row slot }
    {
        let period = self.least_period();
        Table {
            grid: self.first_rows(period),
            slots: self.slots,
            period,
            items: self.items,
            parities: self.parities,
        }
    }

    /// Whether each row is the same as the row that is so many rows later.
    #[tactic(auto, unfolding(crate::specs::Periods::repeats_after))]
    fn repeats_after(&self, shift: u8) -> bool
        ensures { result ≡ repeats_after self.now shift }
    {
        (0..self.period).all(|row| self.is_same_row(row, shift))
    }

    /// Whether a row of the first period is the same as the row that is so many rows later.
    fn is_same_row(&self, row: u8, shift: u8) -> bool
        ensures { result ≡ bytes_eq (row_at self.now row) (row_at self.now (row + shift)) }
    {
        let row = u64::from(row);
        self.row(row) == self.row(row + u64::from(shift))
    }

    /// The first rows, with rows of spares behind them.
    fn first_rows(&self, rows: u8) -> Grid
        requires { rows ≤ period_of self.now }
        ensures { result ≡ first_of_grid self.now.grid rows }
    {
        let mut grid = [[SPARE_BYTE; MOST_TABLE_SLOTS]; MOST_TABLE_ROWS];
        for at in 0..usize::from(rows) {
            grid[at] = self.grid[at];
        }
        grid
    }
}
