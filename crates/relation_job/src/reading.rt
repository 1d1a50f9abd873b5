//! Reading neighbouring rows together.
ghost use Rattle.std.specs.Prelude.{◌≡◌, ◌+◌, ◌-◌, ◌*◌, ◌≤◌, ◌<◌, ◌^◌, All, IfSome, OnOk, length};
ghost use Rattle.outside.specs.Attached.{told_all};
ghost use Rattle.outside.specs.Causes.{HasCause};
ghost use Rattle.outside.specs.Seen.{OnlyReads, lengths_of};
ghost use Rattle.relation_job.specs.Blocks.{IsBlock, block_row, rows_at_once as rows_at_once_in};
ghost use Rattle.relation_job.specs.Looking.{HasRow};

use crate::sampling::{Sampling, offset_of};
use command_words::MOST_RELATED;
use outside::{Failed, Images, SECTOR};

/// The most rows that are read together: 128 KiB of each image.
pub const AT_ONCE: usize = 256;

/// How many rows are read together: one, unless there is no sector between them.
#[tactic(auto, unfolding(crate::specs::Blocks::rows_at_once))]
pub fn rows_at_once(sampling: Sampling) -> usize
    ensures rows { result ≡ rows_at_once_in sampling }
    ensures some { 1 ≤ result }
    ensures most { result ≤ AT_ONCE }
    ensures near { 2 ≤ result → sampling.step ≡ 1 }
{
    if sampling.step == 1 {
        sampling.rows.min(AT_ONCE).max(1)
    } else {
        1
    }
}

/// Fills `to` with neighbouring rows, image by image: so many sectors of each of the `count` attached images.
pub fn read_rows<I: Images>(
    images: &mut I,
    count: usize,
    offsets: &[u64],
    row: u64,
    rows: usize,
    to: &mut [u8],
) -> Result<(), Failed>
    requires some { 1 ≤ rows }
    requires most { rows ≤ AT_ONCE }
    requires row { HasRow offsets.now (lengths_of (I.seen images.old).attached) (row + (rows - 1)) }
    requires small { All (λ image. image.sectors < 2 ^ 55) (I.seen images.old).attached }
    requires images { length (I.seen images.old).attached ≡ count }
    requires few { count ≤ MOST_RELATED }
    requires long { length to.old ≡ 512 * rows * count }
    ensures told { OnOk result (IfSome (told_all (I.seen images.old).attached) (λ bytes. IsBlock bytes offsets.now row rows to.new)) }
    ensures reads { OnlyReads (I.seen images.old) (I.seen images.new) (rows * length (I.seen images.old).attached) }
    ensures cause { HasCause (I.seen images.old).faults (I.seen images.new).faults result }
{
    let width = SECTOR * rows;
    for image in 0..count {
        let start = width * image;
        images.read(
            image as u32,
            row + offset_of(offsets, image),
            &mut to[start..start + width],
        )?;
    }
    Ok(())
}

/// Fills `to` with one of the so many rows of a block of `count` images.
pub fn pick_row(block: &[u8], count: usize, rows: usize, place: usize, to: &mut [u8])
    requires place { place < rows }
    requires most { rows ≤ AT_ONCE }
    requires few { count ≤ MOST_RELATED }
    requires block { length block.now ≡ 512 * rows * count }
    requires long { length to.old ≡ 512 * count }
    ensures { to.new ≡ block_row block.now count rows place }
{
    for image in 0..count {
        let from = SECTOR * (rows * image + place);
        let start = SECTOR * image;
        to[start..start + SECTOR].copy_from_slice(&block[from..from + SECTOR]);
    }
}
