//! Images with sectors of zero before them.
ghost use Rattle.std.specs.Prelude.{◌≡◌, ◌≤◌, ◌<◌, ◌+◌, ◌-◌, ◌/◌, ◌^◌, All, IsOk, IsTrue, OnOk, length, slice_get};
ghost use Rattle.std.specs.Option.{option_map};
ghost use Rattle.outside.specs.Causes.{HasCause};
ghost use Rattle.outside.specs.Seen.{AreTold, AreWithin, Attaches, OnlyReads};
ghost use Rattle.image_padding.specs.Padded.{greatest_base, padding, seen_behind, ArePadded};
ghost use Rattle.image_padding.specs.Tells.{images_tell};

use arrayvec::ArrayVec;
use outside::{Failed, Images, MOST_ATTACHED, SECTOR};
use raid_params::MOST;

/// Every base, and the number of sectors of an image that is padded, is below this: so is their sum below 2^55.
pub const BASES_END: u64 = 1 << 54;

/// Images whose data begin at different sectors, as images whose data begin at the greatest of these.
///
/// Each image has a base, in sectors. It begins later by what its base lacks of the greatest base: sectors of zero
/// stand there. These are not read from the images within and are not counted as read. An image that is attached
/// later has no base, and none stand before it. Names, faults and their bytes are those of the images within.
#[derive(Drop)]
pub struct Padded<'a, I: Images> {
    images: &'a mut I,
    bases: ArrayVec<u64, MOST>,
    greatest: u64,
    ghost is_greatest: { greatest ≡ greatest_base bases.items },
    ghost are_padded: { ArePadded bases.items (I.seen images.now).attached },
}

impl<'a, I: Images> Padded<'a, I> {
    /// The images, padded by their bases in sectors, one for each attached image. It takes no memory and reads
    /// nothing.
    pub fn new(images: &'a mut I, bases: &[u64]) -> Padded<'a, I>
        requires some { 0 < length bases.now }
        requires most { length bases.now ≤ MOST }
        requires each { length bases.now ≡ length (I.seen images.old).attached }
        requires near { All (λ base. base < BASES_END) bases.now }
        requires short { All (λ image. image.sectors < BASES_END) (I.seen images.old).attached }
        ensures same_reference { result.images.ghost_name ≡ images.entry.ghost_name }
        ensures within { result.images.now ≡ images.old }
        ensures bases { result.bases.items ≡ bases.now }
    {
        let greatest = greatest_of(bases);
        let mut kept = ArrayVec::new();
        kept.try_extend_from_slice(bases).unwrap();
        Padded {
            images,
            bases: kept,
            greatest,
        }
    }

    /// The sectors of zero before an image.
    fn padding(&self, image: u32) -> u64
        ensures { result ≡ padding self.now.bases.items image }
    {
        match self.bases.get(image as usize) {
            Some(&base) => self.greatest.saturating_sub(base),
            None => 0,
        }
    }
}

impl<'a, I: Images> Images for Padded<'a, I> {
    ghost seen = { λ p. seen_behind I.seen p.images p.bases.items };

    ghost tells_bytes = { λ p. images_tell p.bases.items (I.seen p.images.now).attached (I.tells_bytes p.images.now) };

    fn attach(&mut self, name: &str) -> Result<u64, Failed>
        requires room { length (seen_behind I.seen self.old.images self.old.bases.items).attached < MOST_ATTACHED }
        requires named { IsTrue ((seen_behind I.seen self.old.images self.old.bases.items).world.may_attach name.now) }
        ensures attached { Attaches (seen_behind I.seen self.old.images self.old.bases.items)
            (seen_behind I.seen self.new.images self.new.bases.items) name.now result }
        ensures cause { HasCause (I.seen self.old.images.now).faults (I.seen self.new.images.now).faults result }
        ensures same_reference { self.new.images.ghost_name ≡ self.old.images.ghost_name }
    {
        self.images.attach(name)
    }

    fn read(&mut self, image: u32, sector: u64, to: &mut [u8]) -> Result<(), Failed>
        requires { AreWithin (seen_behind I.seen self.old.images self.old.bases.items).attached image sector (length to.old) }
        ensures told { OnOk result
            (AreTold (seen_behind I.seen self.old.images self.old.bases.items).attached image sector to.new) }
        ensures reads { OnlyReads (seen_behind I.seen self.old.images self.old.bases.items)
            (seen_behind I.seen self.new.images self.new.bases.items) (length to.old / 512) }
        ensures cause { HasCause (I.seen self.old.images.now).faults (I.seen self.new.images.now).faults result }
        ensures same_reference { self.new.images.ghost_name ≡ self.old.images.ghost_name }

        // No more is read than what lies past the padding, and a read that lies in it asks for nothing.
        ensures past_padding { (I.seen self.new.images.now).sectors_read
            ≤ (I.seen self.old.images.now).sectors_read + (length to.old / 512 - (padding self.old.bases.items image - sector)) }
        ensures in_padding { length to.old / 512 ≤ padding self.old.bases.items image - sector →
            IsOk result × (self.new ≡ self.old) }
    {
        let padding = self.padding(image);
        let asked = (to.len() / SECTOR) as u64;
        let zeros = padding.saturating_sub(sector).min(asked);
        let (front, rest) = to.split_at_mut(zeros as usize * SECTOR);
        front.fill(0);
        if rest.is_empty() {
            return Ok(());
        }
        self.images
            .read(image, sector.saturating_sub(padding), rest)
    }

    fn length(&self, image: u32) -> Option<u64> {
        let sectors = self.images.length(image)?;
        Some(self.padding(image) + sectors)
    }
}

/// The greatest base, in sectors, and 0 of none.
pub fn greatest_of(bases: &[u64]) -> u64
    ensures { result ≡ greatest_base bases.now }
{
    let mut greatest = 0;
    for base in bases {
        greatest = greatest.max(*base);
    }
    greatest
}
