//! Sectors of the volume, by what was read for them.
ghost use Rattle.std.specs.Prelude.{◌≡◌, ◌*◌, ◌/◌, length, nat_le};
ghost use Rattle.rescue_map.specs.Damaged.{IsMendable};
ghost use Rattle.rescue_map.specs.Salvaged.{FillsPiece, IsPiece};
ghost use Rattle.rescue_map.specs.Ways.{sectors_of, AreFinished, IsPart, IsWay};
ghost use Rattle.rescue_map.specs.declared.filling.TheConstants.{MANY as MANY_CELLS};

use crate::damaged::Damage;
use crate::ways::{Way, way_of};
use gates::{Gate, OpenGate};
use outside::SECTOR;
use pq_parity::solve;
use raid_layouts::row_cells;
use std::thread;
use std::thread::Threads;

/// The bytes of a piece: 64 sectors.
const PIECE: usize = 64 * SECTOR;

/// As many cells of rows from which sectors are to be found as make threads worth their cost.
const MANY: usize = 1024;

/// What works on pieces.
#[derive(Drop)]
pub(crate) struct Threading<'a, R, G> {
    /// What starts threads.
    pub rt: &'a R,
    /// The gate that each piece passes before its work on the first block.
    pub gate: &'a G,
    /// Whether the next block is finished in pieces.
    pub many: bool,
}

/// Finishes sectors of the volume, `to`: they stay where they were read themselves, one is found by `row`, a sector of each
/// member, where its home is not known, and is zeros where it is lost.
pub(crate) fn fill_step(damage: &Damage, first: u64, way: &Way, row: &[u8], to: &mut [u8])
    requires set { IsMendable damage.now.set.now damage.now.end }
    requires way { IsWay damage.now.rescue.now damage.now.set.now first way.now }
    requires part { IsPart damage.now.set.now damage.now.end first (sectors_of way.now) row.now to.old }
    ensures long { length to.new ≡ length to.old }
    ensures finished { AreFinished damage.now.rescue.now damage.now.set.now first (sectors_of way.now) row.now to.old to.new }
{
    match way {
        Way::Known(_, _) => {}
        Way::Found(home, cells) => {
            solve(&row_cells(cells, home.row), row, home.slot as usize, to);
        }
        Way::Lost => to.fill(0),
    }
}

/// Finishes the sectors of a piece, the first of which is number `start` of those from `first` on. `rows` has a row of
/// sectors, one a member, for each of these. Sectors that were read themselves are passed over together.
pub(crate) fn fill_piece(damage: &Damage, first: u64, start: usize, piece: &mut [u8], rows: &[u8])
    requires set { IsMendable damage.now.set.now damage.now.end }
    requires piece { IsPiece damage.now.set.now damage.now.end first start piece.old rows.now }
    ensures { FillsPiece damage.now.rescue.now damage.now.set.now first start rows.now piece.old piece.new }
{
    let stride = SECTOR * damage.set.geo.slots.len();
    let count = piece.len() / SECTOR;
    let mut j = 0;
    while j < count {
        let sector = first + (start + j) as u64;
        let way = way_of(damage, sector, (count - j) as u64);
        let next = j + way.count() as usize;
        let at = stride * (start + j);
        let to = &mut piece[SECTOR * j..SECTOR * next];
        fill_step(damage, sector, &way, &rows[at..at + stride], to);
        j = next;
    }
}

/// Finishes the sectors of a block in pieces that may run side by side. Each piece passes the gate first.
fn fill_pieces<R: Threads + Sync, G: Gate + Sync>(
    rt: &R,
    gate: &G,
    damage: &Damage,
    first: u64,
    block: &mut [u8],
    rows: &[u8],
)
    requires set { IsMendable damage.now.set.now damage.now.end }
    requires block { IsPiece damage.now.set.now damage.now.end first 0 block.old rows.now }
    ensures { FillsPiece damage.now.rescue.now damage.now.set.now first 0 rows.now block.old block.new }
{
    thread::for_each_chunk_mut(
        rt,
        block,
        PIECE,
        &|start: usize, piece: &mut [u8]|
            requires { IsMendable damage.now.set.now damage.now.end × IsPiece damage.now.set.now damage.now.end first (start / 512) piece.old rows.now }
            ensures { FillsPiece damage.entry.now.rescue.now damage.entry.now.set.now first (start / 512) rows.entry.now piece.old piece.new }
        {
            gate.pass(start / PIECE);
            fill_piece(damage, first, start / SECTOR, piece, rows);
        },
    );
}

/// Finishes the sectors of the block that begins at volume sector `first`, in pieces that may run side by side. Those of the first
/// block pass the gate first.
pub(crate) fn fill_block<R: Threads + Sync, G: Gate + Sync>(
    threads: &Threading<R, G>,
    damage: &Damage,
    first: u64,
    block: &mut [u8],
    rows: &[u8],
)
    requires set { IsMendable damage.now.set.now damage.now.end }
    requires block { IsPiece damage.now.set.now damage.now.end first 0 block.old rows.now }
    ensures { FillsPiece damage.now.rescue.now damage.now.set.now first 0 rows.now block.old block.new }
{
    if first == 0 {
        fill_pieces(threads.rt, threads.gate, damage, first, block, rows);
    } else {
        fill_pieces(threads.rt, &OpenGate, damage, first, block, rows);
    }
}

/// Whether it is worth the cost of threads to find so many sectors by their rows.
pub(crate) fn are_many(damage: &Damage, found: usize) -> bool
    ensures { result ≡ nat_le MANY_CELLS (found * length damage.now.set.now.geo.slots.items) }
{
    MANY <= found.saturating_mul(damage.set.geo.slots.len())
}
