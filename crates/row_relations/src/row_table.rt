//! The table of a row.
ghost use Rattle.std.specs.Prelude.{ℕ, ◌≡◌, ◌*◌, ◌<◌, ◌≤◌, ◌↔◌, List, IfOk, IsTrue, count_by, length, replicate};
ghost use Rattle.row_relations.specs.declared.standing.Standing.TheVariants.{Zero};
ghost use Rattle.row_relations.specs.declared.standing.TheConstants.{MOST_IMAGES as MOST};
ghost use Rattle.row_relations.specs.Tables.{is_independent, no_weights, standing_of, weight_of, IsTable};

use crate::combination::{Combination, zero_weights};
use crate::elimination::fill_table;
use crate::standing::{MOST_IMAGES, Standing};
use outside::Memory;
use std::alloc::Global;
use std::marker::Model;

/// The standings of images of zeros.
fn zero_images(alloc: Global, images: usize) -> Result<Vec<Standing>, Memory>
    ensures { IfOk result (λ standings. standings.items ≡ replicate images Zero) }
{
    let standings = vec![in alloc; Standing::Zero; images].map_err(|_| Memory)?;
    Ok(standings)
}

/// No weights for each image.
fn unweighed_images(alloc: Global, images: usize) -> Result<Vec<[u8; MOST_IMAGES]>, Memory>
    ensures { IfOk result (λ weights. weights.items ≡ replicate images no_weights) }
{
    let mut weights = Vec::with_capacity(alloc, images).map_err(|_| Memory)?;
    for _ in 0..images {
        weights.push(zero_weights()).map_err(|_| Memory)?;
    }
    Ok(weights)
}

/// Room for a combination for each image.
fn room_for(alloc: Global, images: usize) -> Result<Vec<Combination>, Memory>
    ensures { IfOk result (λ kept. length kept.items ≡ images) }
{
    let kept = vec![in alloc; Combination::NOTHING; images].map_err(|_| Memory)?;
    Ok(kept)
}

/// The table of a row: of each image how its sector stands to those before it, and with which weights. It is filled for one row
/// after the other, and takes no memory then.
///
/// Contracts see it as a `Table`.
#[derive(Drop)]
pub struct RowTable {
    standings: Vec<Standing>,
    weights: Vec<[u8; MOST_IMAGES]>,
    /// Room for what is kept while a table is made.
    kept: Vec<Combination>,
}

impl Model for RowTable {
    ghost use Rattle.std.specs.Prelude.{◌≡◌, ◌≤◌, length};
    ghost use Rattle.row_relations.specs.declared.standing.TheConstants.{MOST_IMAGES};
    ghost use Rattle.row_relations.specs.Tables.{Table};

    ghost Value = { Table };

    ghost view = { λ table. record { standings = table.standings.items; weights = table.weights.items } };

    ghost invariant = { λ table. (length table.standings.items ≤ MOST_IMAGES) × (length table.weights.items ≡ length table.standings.items)
        × (length table.kept.items ≡ length table.standings.items) };
}

impl RowTable {
    /// Room for the table of rows of so many images, as it is of a row of zeros. All memory is taken here.
    pub fn new(alloc: Global, images: usize) -> Result<RowTable, Memory>
        requires { images ≤ MOST }
        ensures { IfOk result (λ table. table ≡ record { standings = replicate images Zero; weights = replicate images no_weights }) }
    {
        let standings = zero_images(alloc, images)?;
        let weights = unweighed_images(alloc, images)?;
        let kept = room_for(alloc, images)?;
        Ok(RowTable {
            standings,
            weights,
            kept,
        })
    }

    /// Makes the table of a row: `sectors` are the sectors of its images, one after the other. It takes no memory.
    pub fn fill(&mut self, sectors: &[u8])
        requires { length sectors.now ≡ 512 * length self.old.standings }
        ensures { IsTable (length self.old.standings) sectors.now self.new }
    {
        fill_table(
            self.standings.as_mut_slice(),
            self.weights.as_mut_slice(),
            self.kept.as_mut_slice(),
            sectors,
        );
    }

    /// How many images a row has.
    pub fn images(&self) -> usize
        ensures images { result ≡ length self.now.standings }
        ensures few { result ≤ MOST }
    {
        self.standings.len()
    }

    /// How an image stands.
    pub fn standing(&self, image: usize) -> Standing
        requires { image < length self.now.standings }
        ensures { result ≡ standing_of self.now image }
    {
        self.standings[image]
    }

    /// The weight of the second image in the sum that the first one is: 0 unless the first is dependent and the second one of the
    /// independent images before it.
    pub fn weight(&self, dependent: usize, independent: usize) -> u8
        requires dependent { dependent < length self.now.standings }
        requires independent { independent < length self.now.standings }
        ensures { result ≡ weight_of self.now dependent independent }
    {
        self.weights[dependent][independent]
    }

    /// How many images are independent.
    pub fn rank(&self) -> usize
        ensures { result ≡ count_by is_independent self.now.standings }
    {
        self.standings
            .iter()
            .filter(|standing| matches!(standing, Standing::Independent))
            .count()
    }

    /// Whether two tables are the same.
    pub fn is_same(&self, other: &RowTable) -> bool
        ensures { IsTrue result ↔ (self.now ≡ other.now) }
    {
        self.standings == other.standings && self.weights == other.weights
    }
}
