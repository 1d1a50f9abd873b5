//! What rows say of the slot lists of a head.
ghost use Rattle.std.specs.Prelude.{◌≡◌, ◌≤◌, ◌+◌, All, IfOk, IsTrue, drop, length, take};
ghost use Rattle.raid_params.specs.Validity.{is_valid_head};
ghost use Rattle.relation_prefix.specs.Sampled.{all_tell as all_rows_tell, may_begin as set_may_begin, CanTest};
ghost use Rattle.relation_prefix.specs.Ties.{AreThere, FitTies};

use crate::beginning::may_begin;
use crate::sampled::{PrefixTest, SampledRow};
use crate::sampled_rows::SampledRows;
use crate::weights::RowWeights;
use outside::Memory;
use std::alloc::Global;
use std::marker::Model;

/// The test of the slot lists of a head by some rows. It is made once for a head.
///
/// Contracts see the rows, and what is asked of them.
#[derive(Drop)]
pub struct HeadRelations<'a> {
    rows: &'a SampledRows,
    /// The weights of the head's slots in each row.
    weights: Vec<RowWeights>,
    /// Whether each row tells much.
    all_tell: bool,
    test: PrefixTest,
}

impl<'a> Model for HeadRelations<'a> {
    ghost use Rattle.std.specs.Prelude.{◌≡◌};
    ghost use Rattle.relation_prefix.specs.Sampled.{all_tell as all_rows_tell, Asked, CanTest};

    ghost Value = { Asked };

    ghost view = { λ s. record { rows = s.rows.now; test = s.test } };

    ghost invariant = { λ s. CanTest s.test.head s.rows.now.list s.weights.items × (s.all_tell ≡ all_rows_tell s.rows.now.list) };
}

/// The weights of the slots of a head in each of some rows.
fn weights_of(
    alloc: Global,
    rows: &[SampledRow],
    test: &PrefixTest,
) -> Result<Vec<RowWeights>, Memory>
    requires valid { IsTrue (is_valid_head test.now.head) }
    requires fit { All (λ sampled. FitTies sampled.ties) rows.now }
    ensures { IfOk result (λ weights. CanTest test.now.head rows.now weights.items) }
{
    let mut weights = Vec::with_capacity(alloc, rows.len()).map_err(|_| Memory)?;
    for number in 0..rows.len() {
        let row = RowWeights::of(&test.head, rows[number].row / test.head.chunk);
        weights.push(row).map_err(|_| Memory)?;
    }
    Ok(weights)
}

/// Whether each row tells much.
fn all_tell(rows: &[SampledRow]) -> bool
    requires { All (λ sampled. FitTies sampled.ties) rows.now }
    ensures { result ≡ all_rows_tell rows.now }
{
    for number in 0..rows.len() {
        if !rows[number].ties.tells_much() {
            return false;
        }
    }
    true
}

impl<'a> HeadRelations<'a> {
    /// Those of a head, by rows of its offset.
    pub fn new(
        alloc: Global,
        rows: &'a SampledRows,
        test: &PrefixTest,
    ) -> Result<HeadRelations<'a>, Memory>
        requires { IsTrue (is_valid_head test.now.head) }
        ensures { IfOk result (λ relations. relations ≡ record { rows = rows.now; test = test.now }) }
    {
        let weights = weights_of(alloc, rows.as_slice(), test)?;
        Ok(HeadRelations {
            rows,
            weights,
            all_tell: all_tell(rows.as_slice()),
            test: *test,
        })
    }

    /// Whether each row tells much. Others refuse few prefixes, and are asked of whole lists alone.
    #[inline]
    pub fn all_tell(&self) -> bool
        ensures { result ≡ all_rows_tell self.now.rows.list }
    {
        self.all_tell
    }

    /// What is asked of the rows.
    #[inline]
    pub fn test(&self) -> &PrefixTest
        ensures { result.now ≡ self.now.test }
    {
        &self.test
    }

    /// Whether the slots of a set may begin so. It takes no memory.
    pub fn may_begin(&self, slots: &[Option<u8>]) -> bool
        requires short { length slots.now ≤ self.now.test.head.members }
        requires images { AreThere self.now.rows.images slots.now }
        ensures { result ≡ set_may_begin self.now.rows.list self.now.test slots.now }
    {
        may_begin(
            self.rows.as_slice(),
            self.weights.as_slice(),
            &self.test,
            slots,
        )
    }

    /// How many rows are asked.
    #[inline]
    pub fn count(&self) -> usize
        ensures { result ≡ length self.now.rows.list }
    {
        self.rows.count()
    }

    /// Whether they may by `count` of the rows alone, from one of them on. It takes no memory.
    pub fn may_begin_by(&self, first: usize, count: usize, slots: &[Option<u8>]) -> bool
        requires short { length slots.now ≤ self.now.test.head.members }
        requires images { AreThere self.now.rows.images slots.now }
        requires within { first + count ≤ length self.now.rows.list }
        ensures { result ≡ set_may_begin (take count (drop first self.now.rows.list)) self.now.test slots.now }
    {
        may_begin(
            &self.rows.as_slice()[first..first + count],
            &self.weights[first..first + count],
            &self.test,
            slots,
        )
    }
}
