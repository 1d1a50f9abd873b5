//! Laws of tables. A function does nothing: its clause is the law.
ghost use Rattle.row_relations.specs.Laws.{RelationsAreSumsOfTies, RowsHaveOneTable};

/// A row has one table.
pub fn a_row_has_one_table()
    ensures { RowsHaveOneTable }
{}

/// The relations of a row are the sums of multiples of the ties of its dependent images, with any weights at images of zeros.
pub fn relations_are_sums_of_ties()
    ensures { RelationsAreSumsOfTies }
{}
