//! The rows by which the prefixes of slot lists are tested.
ghost use Rattle.std.specs.Prelude.{◌≡◌, ◌≤◌, [], All, IfErr, IfOk, OnOk, length, nat_le};
ghost use Rattle.relation_prefix.specs.Sampled.{with_row};
ghost use Rattle.relation_prefix.specs.Ties.{FitTies};

use crate::row_ties::RowTies;
use crate::sampled::SampledRow;
use outside::Memory;
use std::alloc::Global;
use std::marker::Model;

/// Rows of sectors over some images with the ties of each, in their order.
///
/// Contracts see over how many images they are, how many there is room for at least, and the list.
#[derive(Drop)]
pub struct SampledRows {
    images: usize,
    most: usize,
    list: Vec<SampledRow>,
}

impl Model for SampledRows {
    ghost use Rattle.std.specs.Prelude.{◌≤◌, vec_capacity};
    ghost use Rattle.relation_prefix.specs.Sampled.{AreKeptRows, KeptRows};

    ghost Value = { KeptRows };

    ghost view = { λ s. record { images = s.images; most = s.most; list = s.list.items } };

    ghost invariant = { λ s. AreKeptRows s.images s.list.items × (s.most ≤ vec_capacity s.list) };
}

impl SampledRows {
    /// None yet, over so many images. It takes no memory.
    pub fn new(alloc: Global, images: usize) -> SampledRows
        ensures { result ≡ record { images = images; most = 0; list = [] } }
    {
        SampledRows {
            images,
            most: 0,
            list: Vec::new(alloc),
        }
    }

    /// None yet, with room for `most` rows. That many are kept with no more memory.
    pub fn with_room(alloc: Global, images: usize, most: usize) -> Result<SampledRows, Memory>
        ensures { IfOk result (λ rows. rows ≡ record { images = images; most = most; list = [] }) }
    {
        let list = Vec::with_capacity(alloc, most).map_err(|_| Memory)?;
        Ok(SampledRows { images, most, list })
    }

    /// Keeps a row of these ties. It takes no memory where there is room.
    pub fn keep(&mut self, row: u64, ties: &RowTies) -> Result<(), Memory>
        requires ties { FitTies ties.now }
        requires images { ties.now.images ≡ self.old.images }
        ensures kept { OnOk result (self.new ≡ with_row self.old row ties.now) }
        ensures same { IfErr result (λ fault. self.new ≡ self.old) }
        ensures full { IfErr result (λ fault. self.old.most ≤ length self.old.list) }
    {
        let sampled = SampledRow { row, ties: *ties };
        self.list.push(sampled).map_err(|_| Memory)?;
        Ok(())
    }

    /// Whether as many rows are kept as there is room for.
    pub fn is_full(&self) -> bool
        ensures { result ≡ nat_le self.now.most (length self.now.list) }
    {
        self.most <= self.list.len()
    }

    /// The rows, in their order.
    pub(crate) fn as_slice(&self) -> &[SampledRow]
        ensures rows { result.now ≡ self.now.list }
        ensures fit { All (λ sampled. FitTies sampled.ties) result.now }
        ensures images { All (λ sampled. sampled.ties.images ≡ self.now.images) result.now }
    {
        self.list.as_slice()
    }

    /// How many rows are kept.
    pub fn count(&self) -> usize
        ensures { result ≡ length self.now.list }
    {
        self.list.len()
    }
}
