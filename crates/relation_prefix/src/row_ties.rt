//! The ties of a row in few numbers.
ghost use Rattle.std.specs.Prelude.{ℕ, ◌≡◌, ◌<◌, ◌≤◌, All, IfSome, MatchOption, length, slice_index};
ghost use Rattle.row_relations.specs.Tables.{standing_of};
ghost use Rattle.relation_prefix.specs.Ties.{coefficient, dependents, is_dependent, is_zero, is_blank as ties_are_blank, tells_much as ties_tell_much, AreTiesOf, FitTies, HasCoefficients};

use crate::condition::MOST_TIES;
use arrayvec::ArrayVec;
use row_relations::{MOST_IMAGES, RowTable, Standing};

/// The ties of a row, numbered in the order of their dependent images, and what the weight of each image in a relation is by the
/// weights of the ties.
#[derive(Clone, Copy)]
pub struct RowTies {
    /// How many images a row has.
    pub images: usize,
    /// How many ties it has.
    pub count: usize,
    /// The dependent image of each: no other tie has it.
    pub dependents: [u8; MOST_TIES],
    /// Which images are zeros: they may have any weight.
    pub zeros: [bool; MOST_IMAGES],
    /// The coefficients of each other image: its weight is the sum of the weights of the ties, each times its coefficient.
    pub coefficients: [[u8; MOST_TIES]; MOST_IMAGES],
}

/// The dependent images of a table, or None where there are more than [`MOST_TIES`].
#[tactic(auto, using(crate::proofs::Dependents::none_yet))]
fn dependents_of(table: &RowTable) -> Option<ArrayVec<u8, MOST_TIES>>
    ensures { MatchOption result (8 < length (dependents table.now (length table.now.standings)))
        (λ list. (list.items ≡ dependents table.now (length table.now.standings)) × (length list.items ≤ 8)) }
{
    let mut list = ArrayVec::new();
    for image in 0..table.images() {
        if is_dependent_at(table, image) {
            if list.is_full() {
                return None;
            }
            list.push(image as u8);
        }
    }
    Some(list)
}

/// Whether an image is dependent.
fn is_dependent_at(table: &RowTable, image: usize) -> bool
    requires { image < length table.now.standings }
    ensures { result ≡ is_dependent (standing_of table.now image) }
{
    match table.standing(image) {
        Standing::Dependent => true,
        Standing::Zero | Standing::Independent => false,
    }
}

/// Whether an image is zeros.
fn is_zero_at(table: &RowTable, image: usize) -> bool
    requires { image < length table.now.standings }
    ensures { result ≡ is_zero (standing_of table.now image) }
{
    match table.standing(image) {
        Standing::Zero => true,
        Standing::Dependent | Standing::Independent => false,
    }
}

/// The weight of an image in the tie of a dependent one: that of another dependent image is 0.
fn coefficient_of(table: &RowTable, dependent: usize, image: usize) -> u8
    requires dependent { dependent < length table.now.standings }
    requires image { image < length table.now.standings }
    ensures { result ≡ coefficient table.now dependent image }
{
    if dependent == image {
        1
    } else if is_dependent_at(table, image) {
        0
    } else {
        table.weight(dependent, image)
    }
}

/// The weights of an image in the ties of these dependent ones.
fn coefficients_at(table: &RowTable, list: &[u8], image: usize) -> [u8; MOST_TIES]
    requires few { length list.now ≤ 8 }
    requires below { All (λ d. d < length table.now.standings) list.now }
    requires image { image < length table.now.standings }
    ensures { HasCoefficients table.now list.now result image }
{
    let mut coefficients = [0u8; MOST_TIES];
    for t in 0..list.len() {
        coefficients[t] = coefficient_of(table, list[t] as usize, image);
    }
    coefficients
}

/// A list of so many with zeros behind them.
fn padded(list: &[u8]) -> [u8; MOST_TIES]
    requires { length list.now ≤ 8 }
    ensures long { length result ≡ 8 }
    ensures same { (t : ℕ) → t < length list.now → slice_index result t ≡ slice_index list.now t }
{
    let mut all = [0u8; MOST_TIES];
    for t in 0..list.len() {
        all[t] = list[t];
    }
    all
}

impl RowTies {
    /// The ties of a table, or None where it has more than [`MOST_TIES`].
    pub fn of(table: &RowTable) -> Option<RowTies>
        ensures fit { IfSome result FitTies }
        ensures of { MatchOption result (8 < length (dependents table.now (length table.now.standings))) (AreTiesOf table.now) }
    {
        let list = dependents_of(table)?;
        let mut zeros = [false; MOST_IMAGES];
        let mut coefficients = [[0u8; MOST_TIES]; MOST_IMAGES];
        for image in 0..table.images() {
            zeros[image] = is_zero_at(table, image);
            let own = coefficients_at(table, list.as_slice(), image);
            coefficients[image] = own;
        }
        let images = table.images();
        Some(RowTies {
            images,
            count: list.len(),
            dependents: padded(list.as_slice()),
            zeros,
            coefficients,
        })
    }

    /// Whether the row tells much: it has more independent images than ties. Of few images that are not zeros, or of many equal ones, it
    /// refuses few prefixes.
    pub fn tells_much(&self) -> bool
        requires { FitTies self.now }
        ensures { result ≡ ties_tell_much self.now }
    {
        let mut held = 0usize;
        for image in 0..self.images {
            if !self.zeros[image] {
                held += 1;
            }
        }
        2 * self.count < held
    }

    /// Whether the row is zeros.
    pub fn is_blank(&self) -> bool
        requires { FitTies self.now }
        ensures { result ≡ ties_are_blank self.now }
    {
        self.zeros[..self.images].iter().all(|zero| *zero)
    }
}
