//! How sectors of the volume come about.
ghost use Rattle.std.specs.Prelude.{◌≡◌, ◌+◌, ◌<◌, ◌≤◌};
ghost use Rattle.raid_params.specs.Size.{volume_sectors as volume_sectors_of};
ghost use Rattle.rescue_map.specs.Damaged.{IsDamaged};
ghost use Rattle.rescue_map.specs.Ways.{sectors_of, unsolved_of, IsWay};

use crate::damaged::{Damage, damaged, is_beyond, known_front, known_slot};
use address_map::{Home, locate};
use raid_params::Geometry;

/// How volume sectors from a number on come about.
#[derive(Drop)]
pub enum Way {
    /// So many lie beside each other on one member from the home of the first on, and are known.
    Known(Home, u64),
    /// The first is found by the known cells of its row: of the set whose unknown slots there are empty.
    Found(Home, Geometry),
    /// The first is lost.
    Lost,
}

impl Way {
    /// How many sectors come about so.
    pub(crate) fn count(&self) -> u64
        ensures { result ≡ sectors_of self.now }
    {
        match self {
            Way::Known(_, count) => *count,
            Way::Found(_, _) => 1,
            Way::Lost => 1,
        }
    }

    /// How many of them are to be found by the known cells of their row.
    pub(crate) fn unsolved(&self) -> usize
        ensures found { result ≡ unsolved_of self.now }
        ensures one { result ≤ 1 }
    {
        match self {
            Way::Found(_, _) => 1,
            Way::Known(_, _) | Way::Lost => 0,
        }
    }
}

/// How the volume sectors from number `sector` on come about, `most` at most. That sectors are known is found by bisection.
pub(crate) fn way_of(damage: &Damage, sector: u64, most: u64) -> Way
    requires set { IsDamaged damage.now.set.now damage.now.end }
    requires some { 1 ≤ most }
    requires within { sector + most ≤ volume_sectors_of damage.now.set.now.geo.head damage.now.end }
    ensures way { IsWay damage.now.rescue.now damage.now.set.now sector result }
    ensures some { 0 < sectors_of result }
    ensures most { sectors_of result ≤ most }
{
    let head = &damage.set.geo.head;
    let Some(home) = locate(head, damage.end, sector) else {
        return Way::Lost;
    };
    let held = damage.set.geo.slots[home.slot as usize];
    if known_slot(damage.set, damage.rescue, home.sector, held).is_some() {
        let run = most.min(head.chunk - sector % head.chunk);
        let known = known_front(damage.set, damage.rescue, home.sector, run, held);
        return Way::Known(home, known);
    }
    let row = damaged(damage.set, damage.rescue, home.sector);
    if is_beyond(&row) {
        return Way::Lost;
    }
    Way::Found(home, row)
}
