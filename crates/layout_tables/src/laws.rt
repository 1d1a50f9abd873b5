//! Laws of all tables.
ghost use Rattle.layout_tables.specs.Laws.{EachCellHasOneSlot, EachSlotHasACell, EachSlotIsUsed, LeastPeriodsAreLeast, NumbersAreInRange, RowsHaveEqualCounts, RowsRepeat, SlotsAreThoseOfCells, TablesHaveOneSpelling};

/// In every row each data item, P and Q of the level has one slot.
pub fn each_cell_has_one_slot()
    ensures { EachCellHasOneSlot }
{}

/// A slot that is no spare in a row has a data item, P or Q of the level there.
pub fn each_slot_has_a_cell()
    ensures { EachSlotHasACell }
{}

/// The slots of P, Q and data items are those whose cells are P, Q and these items.
pub fn slots_are_those_of_cells()
    ensures { SlotsAreThoseOfCells }
{}

/// Every row has as many data items and as many parities, and its other slots are spares.
pub fn rows_have_equal_counts()
    ensures { RowsHaveEqualCounts }
{}

/// Each slot is no spare in some row of the period.
pub fn each_slot_is_used()
    ensures { EachSlotIsUsed }
{}

/// The rows repeat after the period.
pub fn rows_repeat()
    ensures { RowsRepeat }
{}

/// The rows repeat after the least period, and after no fewer rows.
pub fn least_periods_are_least()
    ensures { LeastPeriodsAreLeast }
{}

/// A table has 2 to 24 slots, 1 to 64 rows, at least two data items a row, and at most two parities.
pub fn numbers_are_in_range()
    ensures { NumbersAreInRange }
{}

/// Two tables with the same spelling are the same table.
pub fn tables_have_one_spelling()
    ensures { TablesHaveOneSpelling }
{}
