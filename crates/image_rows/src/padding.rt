//! What images give whose data begin at different sectors, once they are padded.
ghost use Rattle.std.specs.Prelude.{◌≡◌, ◌<◌, ◌≤◌, All, length};
ghost use Rattle.outside.specs.Seen.{OnlyReads};

use image_padding::{BASES_END, Padded};
use image_source::MemImages;
use outside::Images;
use raid_params::MOST;
use std::alloc::Global;
use std::test::Fail;

// The second and third sector of the first image, where it has four.
fn middle<I: Images>(images: &mut I) -> Option<[u8; 1024]>
    ensures { OnlyReads (I.seen images.old) (I.seen images.new) 2 }
{
    match images.length(0) {
        Some(4) => {
            let mut to = [1; 1024];
            images.read(0, 1, &mut to).ok()?;
            Some(to)
        }
        _ => None,
    }
}

// The same once the images are padded, which does to them what a reading does.
fn padded_middle<I: Images>(images: &mut I, bases: &[u64]) -> Option<[u8; 1024]>
    requires some { 0 < length bases.now }
    requires most { length bases.now ≤ MOST }
    requires each { length bases.now ≡ length (I.seen images.old).attached }
    requires near { All (λ base. base < BASES_END) bases.now }
    requires short { All (λ image. image.sectors < BASES_END) (I.seen images.old).attached }
    ensures { OnlyReads (I.seen images.old) (I.seen images.new) 2 }
{
    let mut padded = Padded::new(images, bases);
    middle(&mut padded)
}

// The same of images of two sectors and of one, of which the first has two sectors of padding.
fn across_the_padding(alloc: Global) -> Result<Option<[u8; 1024]>, Fail> {
    let mut images = MemImages::new(alloc)?;
    images.add("long", &[7; 1024])?;
    images.add("short", &[8; 512])?;
    let long = images.attach("long")?;
    let short = images.attach("short")?;
    if BASES_END <= long || BASES_END <= short {
        return Ok(None);
    }
    Ok(padded_middle(&mut images, &[3, 5]))
}

#[test]
fn a_read_across_the_padding(rt: HostRuntime) -> Result<(), Fail> {
    let mut wanted = [0; 1024];
    wanted[512..].fill(7);
    assert!(rt; across_the_padding(rt.alloc())? == Some(wanted));
    Ok(())
}
