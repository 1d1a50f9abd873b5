//! A sweep over images.
ghost use Rattle.std.specs.Prelude.{◌≡◌, ◌+◌, ◌-◌, ◌*◌, ◌^◌, ◌<◌, ◌≤◌, [], ◌∷◌, nat_lt, length, map, replicate, slice_index_or, slice_range, All, IfOk, OnErr, OnOk, IfSome};
ghost use Rattle.outside.specs.Attached.{told_all};
ghost use Rattle.outside.specs.Causes.{HasCause};
ghost use Rattle.outside.specs.Seen.{OnlyReads};
ghost use Rattle.survey_engine.specs.Sweep.{blocks_in, sectors_of, next_of, next_count, GoesOn};

use outside::{Failed, Images, MOST_ATTACHED, Memory, SECTOR};
use std::alloc::Global;
use std::marker::Model;

/// The most sectors of a block, 128 KiB: a read then costs little beside the bytes that it brings,
/// and the blocks of all images fit a processor's cache.
pub const BLOCK: usize = 256;

/// The bytes of a block.
pub const BLOCK_BYTES: usize = BLOCK * SECTOR;

/// A sweep over the attached images, from one sector to another. Contracts see it as a `Swept`.
#[derive(Drop)]
pub struct Sweep {
    images: usize,
    first: u64,
    count: usize,
    end: u64,
    /// A block of each image, one after the other.
    bytes: Vec<u8>,
}

impl Model for Sweep {
    ghost use Rattle.std.specs.Prelude.{◌≡◌, ◌+◌, ◌*◌, ◌^◌, ◌<◌, ◌≤◌, length};
    ghost use Rattle.outside.specs.declared.TheConstants.{MOST_ATTACHED};
    ghost use Rattle.survey_engine.specs.Sweep.{Swept, blocks_in};
    ghost use Rattle.survey_engine.specs.declared.sweep.TheConstants.{BLOCK, BLOCK_BYTES};

    ghost Value = { Swept };

    ghost view = { λ s. record {
      first = s.first;
      count = s.count;
      end = s.end;
      blocks = blocks_in s.images s.count s.bytes.items;
    } };

    ghost invariant = { λ s. (s.images ≤ MOST_ATTACHED) × (length s.bytes.items ≡ BLOCK_BYTES * s.images)
        × (s.count ≤ BLOCK) × (s.first + s.count < 2 ^ 64) };
}

impl Sweep {
    /// A sweep over `images` images from sector `first` up to and not including sector `end`. It takes the
    /// memory for its blocks, which are empty at first.
    #[tactic(auto, using(crate::proofs::Blocks::no_blocks))]
    pub fn new(alloc: Global, images: usize, first: u64, end: u64) -> Result<Sweep, Memory>
        requires { images ≤ MOST_ATTACHED }
        ensures { IfOk result (λ s. s ≡ record { first = first; count = 0; end = end; blocks = replicate images [] }) }
    {
        let bytes = vec![in alloc; 0u8; images * BLOCK_BYTES].map_err(|_| Memory)?;
        Ok(Sweep {
            images,
            first,
            count: 0,
            end,
            bytes,
        })
    }

    /// Reads the next block of each image, the attached ones in their order. Ok says whether there was one.
    ///
    /// At an error the blocks are empty, and the next call tries the same sectors again.
    #[tactic(auto, using(crate::proofs::Blocks::blocks_length, crate::proofs::Advancing::none_told, crate::proofs::Advancing::not_read))]
    pub fn advance<I: Images>(&mut self, images: &mut I) -> Result<bool, Failed>
        requires images { length (I.seen images.old).attached ≡ length self.old.blocks }
        requires long { All (λ image. self.old.end ≤ image.sectors) (I.seen images.old).attached }
        ensures more { IfOk result (λ more. more ≡ nat_lt 0 (next_count self.old)) }
        ensures ok { OnOk result (GoesOn self.old self.new (next_count self.old)) }
        ensures err { OnErr result (GoesOn self.old self.new 0) }
        ensures told { OnOk result (IfSome (told_all (I.seen images.old).attached)
            (λ bytes. self.new.blocks ≡ map (sectors_of self.new.first self.new.count) bytes)) }
        ensures reads { OnlyReads (I.seen images.old) (I.seen images.new)
            (length (I.seen images.old).attached * next_count self.old) }
        ensures cause { HasCause (I.seen images.old).faults (I.seen images.new).faults result }
    {
        self.first += self.count as u64;
        self.count = 0;
        if self.end <= self.first {
            return Ok(false);
        }
        let count = (self.end - self.first).min(BLOCK as u64) as usize;
        read_blocks(images, &mut self.bytes, self.images, self.first, count)?;
        self.count = count;
        Ok(true)
    }

    /// The sector at which the blocks begin.
    pub fn first(&self) -> u64
        ensures { result ≡ self.now.first }
    {
        self.first
    }

    /// How many sectors each block has.
    pub fn count(&self) -> usize
        ensures { result ≡ self.now.count }
    {
        self.count
    }

    /// The bytes of the block of an image, which are not copied.
    #[tactic(auto, using(crate::proofs::Blocks::blocks_length, crate::proofs::Blocks::block_at, crate::proofs::Blocks::block_inside))]
    pub fn block(&self, image: usize) -> &[u8]
        requires { image < length self.now.blocks }
        ensures bytes { result.now ≡ slice_index_or self.now.blocks image [] }
        ensures length { length result.now ≡ 512 * self.now.count }
    {
        let bytes = &self.bytes;
        let at = BLOCK_BYTES * image;
        &bytes[at..at + SECTOR * self.count]
    }

    /// A sector of the block of an image, by its place in the block.
    pub fn sector(&self, image: usize, place: usize) -> &[u8; SECTOR]
        requires image { image < length self.now.blocks }
        requires place { place < self.now.count }
        ensures { result.now ≡ slice_range (slice_index_or self.now.blocks image []) (512 * place) (512 * place + 512) }
    {
        let block = self.block(image);
        let at = SECTOR * place;
        block[at..at + SECTOR].as_array().unwrap()
    }
}

/// Reads `count` sectors of each of the attached images into its region, from sector `first` on.
fn read_blocks<I: Images>(
    images: &mut I,
    bytes: &mut [u8],
    number: usize,
    first: u64,
    count: usize,
) -> Result<(), Failed>
    requires number { length (I.seen images.old).attached ≡ number }
    requires few { number ≤ MOST_ATTACHED }
    requires long { All (λ image. first + count ≤ image.sectors) (I.seen images.old).attached }
    requires bytes { length bytes.old ≡ BLOCK_BYTES * number }
    requires some { 1 ≤ count }
    requires fits { count ≤ BLOCK }
    ensures told { OnOk result (IfSome (told_all (I.seen images.old).attached)
        (λ all. blocks_in number count bytes.new ≡ map (sectors_of first count) all)) }
    ensures reads { OnlyReads (I.seen images.old) (I.seen images.new) (number * count) }
    ensures cause { HasCause (I.seen images.old).faults (I.seen images.new).faults result }
{
    for image in 0..number {
        let at = BLOCK_BYTES * image;
        images.read(image as u32, first, &mut bytes[at..at + SECTOR * count])?;
    }
    Ok(())
}
