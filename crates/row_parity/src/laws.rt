//! Rows that nothing can break. A function does nothing: its clause is the law.
ghost use Rattle.row_parity.specs.Unbreakable.{FullRowIsSound, NoParityIsSound};

/// A row that has no parity block is sound, whatever its bytes.
#[tactic(auto, using(crate::proofs::Soundness::without_parity))]
pub fn a_row_without_parity_is_sound()
    ensures { NoParityIsSound }
{}

/// A row is sound, whatever its bytes, where as many of its cells are missing as hold parity.
#[tactic(auto, using(crate::proofs::Soundness::full_row))]
pub fn a_full_row_is_sound()
    ensures { FullRowIsSound }
{}
