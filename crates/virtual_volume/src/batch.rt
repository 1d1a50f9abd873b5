//! How many rows are read at once.
ghost use Rattle.std.specs.Prelude.{◌*◌, ◌≤◌, IsTrue, max};
ghost use Rattle.raid_params.specs.Validity.{is_valid_head};

use member_regions::BLOCK;
use raid_params::Head;

/// The rows of chunks in a batch: as many as fit into `BLOCK` sectors a member, and at least one.
#[tactic(auto, using(address_map::proofs::Heads::some_chunk, crate::proofs::Places::short_batch))]
pub(crate) fn batch_rows(head: &Head) -> u64
    requires { IsTrue (is_valid_head head.now) }
    ensures some { 1 ≤ result }
    ensures short { result * head.now.chunk ≤ max BLOCK head.now.chunk }
{
    (BLOCK as u64 / head.chunk).max(1)
}
