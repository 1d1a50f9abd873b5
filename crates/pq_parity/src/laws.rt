//! What holds of lost columns. A function does nothing: its clause is the law.
ghost use Rattle.row_parity.specs.LostBytes.{EachLostColumnHasOneSolution};

/// Where cells of a row are missing, there is one way to fill a column by which the equations that
/// find lost bytes hold, and no other.
#[tactic(auto, using(crate::proofs::LostColumns::one_solution))]
pub fn each_lost_column_has_one_solution()
    ensures { EachLostColumnHasOneSolution }
{}
