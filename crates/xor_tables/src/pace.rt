//! For how long parity stays on its slots.
ghost use Rattle.std.specs.Prelude.{◌≡◌, ◌^◌, ◌<◌, ◌≤◌, All, IfErr, IfOk, IsTrue};
ghost use Rattle.raid_params.specs.Validity.{is_valid_head};
ghost use Rattle.xor_tables.specs.Paces.{pace_of, paces_of as paces_of_plan, span as span_of, IsPace, IsPaceOf};
ghost use Rattle.xor_tables.specs.declared.xor_table.TableFault.TheVariants.{Memory};

use crate::xor_table::TableFault;
use raid_params::Head;
use search_plan::Plan;
use std::alloc::Global;

/// A chunk and a delay: parity stays on its slots for `delay` rows of chunks of `chunk` sectors.
#[derive(Clone, Copy, Debug, PartialEq, Eq)]
pub struct Pace {
    /// The chunk, in sectors.
    pub chunk: u64,
    /// For how many rows of chunks parity stays.
    pub delay: u64,
}

impl Pace {
    /// The pace of a head.
    pub fn of(head: &Head) -> Pace
        requires { IsTrue (is_valid_head head.now) }
        ensures is { result ≡ pace_of head.now }
        ensures pace { IsPace result }
    {
        Pace {
            chunk: head.chunk,
            delay: head.delay,
        }
    }

    /// For how many rows of sectors parity stays.
    #[tactic(auto, using(crate::proofs::Paces::span_some, crate::proofs::Paces::span_short))]
    pub(crate) fn span(self) -> u64
        requires { IsPace self }
        ensures is { result ≡ span_of self }
        ensures some { 0 < result }
        ensures short { result ≤ 2 ^ 25 }
    {
        self.chunk * self.delay
    }
}

/// The paces of a plan: each of its chunks with each of its delays.
pub(crate) fn paces_of(alloc: Global, plan: &Plan) -> Result<Vec<Pace>, TableFault>
    ensures is { IfOk result (λ paces. paces.items ≡ paces_of_plan plan.now) }
    ensures each { IfOk result (λ paces. All (IsPaceOf plan.now) paces.items) }
    ensures memory { IfErr result (λ fault. fault ≡ Memory) }
{
    let mut paces = Vec::new(alloc);
    for chunk in plan.bounds.chunks.as_slice() {
        for delay in plan.bounds.delays.as_slice() {
            let pace = Pace {
                chunk: *chunk,
                delay: *delay,
            };
            paces.push(pace).map_err(|_| TableFault::Memory)?;
        }
    }
    Ok(paces)
}
