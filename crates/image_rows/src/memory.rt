//! That the calls which take memory succeed.
use image_source::{MemImages, MemSink, MemSource};
use outside::{Images, ListOf, Sink, Source};
use std::alloc::Global;
use std::test::Fail;

#[test]
fn a_list_grows(rt: HostRuntime) {
    let mut text = ListOf::<u8>::new(rt.alloc());
    assert!(rt; text.push(b'a').is_ok());
    assert!(rt; text.extend_from_slice(b"bc").is_ok());
    assert!(rt; text.as_slice() == b"abc".as_slice());
}

// How many bytes are taken, of two at most.
fn taken(source: &mut MemSource) -> Option<usize> {
    source.take(&mut [0; 2]).ok()
}

#[test]
fn a_source_holds_bytes(rt: HostRuntime) -> Result<(), Fail> {
    let mut source = MemSource::new(rt.alloc(), b"abc")?;
    assert!(rt; source.fail_call(2).is_ok());
    for count in [Some(2), None, Some(1), Some(0)] {
        assert!(rt; taken(&mut source) == count);
    }
    Ok(())
}

// Whether so many ones are put.
fn is_put(sink: &mut MemSink, count: usize) -> bool {
    match [1; 128].get(..count) {
        Some(ones) => sink.put(ones).is_ok(),
        None => false,
    }
}

#[test]
fn a_sink_has_room(rt: HostRuntime) -> Result<(), Fail> {
    let mut sink = MemSink::new(rt.alloc(), 150)?;
    assert!(rt; sink.fail_call(1, 100).is_ok());
    assert!(rt; !is_put(&mut sink, 128));
    assert!(rt; sink.bytes() == [1; 100].as_slice());
    assert!(rt; !is_put(&mut sink, 64));
    assert!(rt; sink.bytes() == [1; 150].as_slice());
    Ok(())
}

// The first sector of the first image, if it is read.
fn first_sector(images: &mut MemImages) -> Option<[u8; 512]> {
    match images.length(0) {
        Some(sectors) if 0 < sectors => {
            let mut to = [0; 512];
            images.read(0, 0, &mut to).ok()?;
            Some(to)
        }
        _ => None,
    }
}

// Two files of one name, attached once, with the sectors that it has. The call after that fails.
fn two_files(alloc: Global) -> Result<(MemImages, u64), Fail> {
    let mut images = MemImages::new(alloc)?;
    images.add("a", &[7; 1000])?;
    images.add("a", &[8; 1024])?;
    images.fail_call(2)?;
    let sectors = images.attach("a")?;
    Ok((images, sectors))
}

#[test]
fn images_hold_bytes(rt: HostRuntime) -> Result<(), Fail> {
    let (mut images, sectors) = two_files(rt.alloc())?;
    assert!(rt; sectors == 1);
    assert!(rt; first_sector(&mut images).is_none());
    assert!(rt; first_sector(&mut images) == Some([7; 512]));
    Ok(())
}
