//! The slot lists of a head of which each beginning is hopeful.
ghost use Rattle.std.specs.Prelude.{◌≡◌, ◌*◌, ◌<◌, ◌^◌, IfErr, IfOk, IfSome, IsTrue, length};
ghost use Rattle.outside.specs.Attached.{told_all};
ghost use Rattle.outside.specs.Seen.{OnlyReads};
ghost use Rattle.near_mirror.specs.Heads.{is_valid_near};
ghost use Rattle.near_tables.specs.Reading.{read_of};
ghost use Rattle.near_search.specs.Asks.{HasImages, IsNearAsk};
ghost use Rattle.near_search.specs.Hopeful.{AdmitsHopeful, IsHeadTable, is_near_admitted};
ghost use Rattle.near_search.specs.Walk.{EndsWalk};

use crate::ask::NearAsk;
use candidate_enum::Family;
use near_mirror::NearHead;
use near_tables::{TableFault, TornTable, has_lost, tested_sectors};
use outside::Images;
use raid_params::Slots;
use slot_math::Space;
use std::alloc::Global;
use std::marker::Model;

/// The slot lists of a head, of which the hopeful prefixes are admitted: those in which no chunk is lost, and no more copies are torn
/// than may be, of those both of whose slots are in it and hold images. Of a head without a chunk none is.
///
/// Contracts see it as `NearAsked`.
#[derive(Drop)]
pub struct NearHopeful {
    /// The slot lists.
    space: Space,
    /// The head.
    head: NearHead,
    /// How many of the first chunks are looked at, no more than members: all others stand on the slots of these.
    chunks: u64,
    /// The sectors in which each two images differ, where the head has a chunk.
    table: Option<TornTable>,
    /// The most torn sectors.
    most: u64,
}

impl Model for NearHopeful {
    ghost use Rattle.std.specs.Prelude.{◌<◌, ◌≤◌, IsTrue};
    ghost use Rattle.near_mirror.specs.Heads.{is_valid_near};
    ghost use Rattle.raid_params.specs.declared.limits.TheConstants.{MOST};
    ghost use Rattle.near_search.specs.Hopeful.{NearAsked};

    ghost Value = { NearAsked };

    ghost view = { λ s. record { space = s.space; head = s.head; chunks = s.chunks; table = s.table; most = s.most } };

    ghost invariant = { λ s. (s.space.images ≤ MOST) × (0 < s.space.members) × IsTrue (is_valid_near s.head) × (s.chunks ≤ MOST) };
}

impl NearHopeful {
    /// Those of a head, over the attached images, of which there are `many`. The tested sectors of each image are read once, and
    /// nothing is where the head has no chunk.
    pub fn of_head<I: Images>(
        alloc: Global,
        images: &mut I,
        many: u8,
        ask: &NearAsk,
        head: &NearHead,
        space: Space,
    ) -> Result<NearHopeful, TableFault>
        requires ask { IsNearAsk ask.now }
        requires images { HasImages ask.now (I.seen images.old).attached }
        requires many { many ≡ length (I.seen images.old).attached }
        requires valid { IsTrue (is_valid_near head.now) }
        requires offset { head.now.offset < 2 ^ 55 }
        requires over { space.images ≡ many }
        requires members { space.members ≡ head.now.members }
        ensures space { IfOk result (λ family. family.space ≡ space) }
        ensures hopeful { IfOk result (λ family. IfSome (told_all (I.seen images.old).attached) (λ bytes. AdmitsHopeful bytes many ask.now head.now family)) }
        ensures reads { OnlyReads (I.seen images.old) (I.seen images.new) (many * read_of head.now ask.now.end ask.now.window) }
        ensures quiet { IfOk result (λ family. (I.seen images.new).faults ≡ (I.seen images.old).faults) }
        ensures ends { IfErr result (EndsWalk (I.seen images.old) (I.seen images.new)) }
    {
        let table = head_table(alloc, images, many, ask, head)?;
        Ok(NearHopeful {
            space,
            head: *head,
            chunks: head.first_chunks(ask.end),
            table,
            most: ask.badrows,
        })
    }
}

/// The table of torn sectors of a head with a chunk.
fn head_table<I: Images>(
    alloc: Global,
    images: &mut I,
    many: u8,
    ask: &NearAsk,
    head: &NearHead,
) -> Result<Option<TornTable>, TableFault>
    requires ask { IsNearAsk ask.now }
    requires images { HasImages ask.now (I.seen images.old).attached }
    requires many { many ≡ length (I.seen images.old).attached }
    requires valid { IsTrue (is_valid_near head.now) }
    requires offset { head.now.offset < 2 ^ 55 }
    ensures table { IfOk result (λ table. IfSome (told_all (I.seen images.old).attached) (λ bytes. IsHeadTable bytes many ask.now head.now table)) }
    ensures reads { OnlyReads (I.seen images.old) (I.seen images.new) (many * read_of head.now ask.now.end ask.now.window) }
    ensures quiet { IfOk result (λ table. (I.seen images.new).faults ≡ (I.seen images.old).faults) }
    ensures ends { IfErr result (EndsWalk (I.seen images.old) (I.seen images.new)) }
{
    if head.volume_chunks(ask.end) == 0 {
        return Ok(None);
    }
    let limit = tested_sectors(head, ask.end, ask.window);
    let table = TornTable::build(alloc, images, usize::from(many), head, ask.end, limit)?;
    Ok(Some(table))
}

impl Family for NearHopeful {
    type Kept = ();

    ghost space_of = { λ asked. asked.space };

    ghost admits = { is_near_admitted };

    ghost keeps = { λ _ _ _. Unit };

    fn space(&self) -> Space {
        self.space
    }

    fn kept_first(&self) {}

    fn kept_next(&self, _kept: &(), _prefix: &Slots) {}

    fn may_pass(&self, prefix: &Slots, _kept: &()) -> bool {
        match &self.table {
            Some(table) => {
                !has_lost(&self.head, prefix, self.chunks)
                    && table.torn(&self.head, prefix) <= u128::from(self.most)
            }
            None => false,
        }
    }
}
