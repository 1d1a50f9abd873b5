//! What images that are files give.
ghost use Rattle.std.specs.Prelude.{◌+◌, ◌<◌, ◌≤◌, ◌^◌, length};

use image_source::FileImages;
use outside::Images;
use std::fs;
use std::fs::File;
use std::io::{Seek, SeekFrom, Write};
use std::test::Fail;

// A sector of an attached image, if it has one there that is read.
fn sector_of(images: &mut FileImages<HostRuntime>, image: u32, sector: u64) -> Option<[u8; 512]> {
    match images.length(image) {
        Some(sectors) if sector < sectors => {
            let mut to = [0; 512];
            images.read(image, sector, &mut to).ok()?;
            Some(to)
        }
        _ => None,
    }
}

// Writes files of 511, 1000 and 1536 bytes: ones, but twos in the bytes 512 to 1023 of the last.
fn write_files(rt: &HostRuntime) -> Result<(), Fail> {
    let mut bytes = [1; 1536];
    bytes[512..1024].fill(2);
    fs::write(rt, "short.img", &bytes[..511])?;
    fs::write(rt, "one.img", &bytes[512..1512])?;
    fs::write(rt, "long.img", bytes.as_slice())?;
    Ok(())
}

// The sectors of a file that is attached, if it is.
fn attached(images: &mut FileImages<HostRuntime>, name: &str) -> Option<u64>
    requires { length images.old.files.lengths < 3 }
    ensures { length images.new.files.lengths ≤ length images.old.files.lengths + 1 }
{
    images.attach(name).ok()
}

fn is_removed(rt: &HostRuntime, name: &str) -> bool {
    fs::remove_file(rt, name).is_ok()
}

// What is read of the three files.
#[derive(Drop)]
struct Reading {
    // The sectors of each.
    lengths: [Option<u64>; 3],
    // Whether a file that is not there was refused after them.
    lacks: bool,
    // Sectors 1 and 2 of the last one.
    first: Option<[u8; 512]>,
    second: Option<[u8; 512]>,
    // Sector 1 once the file was cut short in it.
    cut: Option<[u8; 512]>,
}

fn read_files(rt: &HostRuntime) -> Result<Reading, Fail> {
    let mut images = FileImages::new(rt, rt.alloc())?;
    let lengths = [
        attached(&mut images, "short.img"),
        attached(&mut images, "one.img"),
        attached(&mut images, "long.img"),
    ];
    let lacks = images.attach("missing.img").is_err();
    let first = sector_of(&mut images, 2, 1);
    let second = sector_of(&mut images, 2, 2);
    fs::write(rt, "long.img", [1; 1023].as_slice())?;
    let cut = sector_of(&mut images, 2, 1);
    Ok(Reading {
        lengths,
        lacks,
        first,
        second,
        cut,
    })
}

// Whether a sector was read that holds this byte everywhere.
fn is_full(sector: &Option<[u8; 512]>, byte: u8) -> bool {
    *sector == Some([byte; 512])
}

// Bytes after the last whole sector don't count, and a file that got shorter is a fault.
#[test]
fn files_are_images(rt: HostRuntime) -> Result<(), Fail> {
    write_files(&rt)?;
    let reading = read_files(&rt)?;
    assert!(rt; reading.lengths == [Some(0), Some(1), Some(3)]);
    assert!(rt; reading.lacks);
    assert!(rt; is_full(&reading.first, 2));
    assert!(rt; is_full(&reading.second, 1));
    assert!(rt; reading.cut.is_none());
    for name in ["long.img", "short.img", "one.img"] {
        assert!(rt; is_removed(&rt, name));
    }
    Ok(())
}

// What is read of the images of two names that differ in a space alone.
fn read_both(rt: &HostRuntime) -> Result<[Option<[u8; 512]>; 2], Fail> {
    fs::write(rt, "a", [1; 512].as_slice())?;
    fs::write(rt, " a", [2; 1024].as_slice())?;
    let mut images = FileImages::new(rt, rt.alloc())?;
    let _sectors = [attached(&mut images, " a"), attached(&mut images, "a")];
    Ok([sector_of(&mut images, 0, 1), sector_of(&mut images, 1, 0)])
}

// A name is the whole name: a space before it is part of it.
#[test]
fn a_name_is_taken_as_it_stands(rt: HostRuntime) -> Result<(), Fail> {
    let sectors = read_both(&rt)?;
    assert!(rt; is_full(&sectors[0], 2));
    assert!(rt; is_full(&sectors[1], 1));
    for name in ["a", " a"] {
        assert!(rt; is_removed(&rt, name));
    }
    Ok(())
}

// Whether no image of the name can be attached.
fn is_fault(rt: &HostRuntime, name: &str) -> bool {
    match FileImages::new(rt, rt.alloc()) {
        Ok(mut images) => images.attach(name).is_err(),
        Err(_) => false,
    }
}

// A folder and character devices are no images, nor is what is not there. /dev/zero gives bytes without end.
#[test]
fn folders_and_character_devices_are_no_images(rt: HostRuntime) {
    for name in [".", "/dev/null", "/dev/zero", "missing.img"] {
        assert!(rt; is_fault(&rt, name), "{name}");
    }
}

// Writes a sector of one byte into the file `far.img`, and says whether an image of the file has it there.
fn is_read(rt: &HostRuntime, file: &mut File, sector: u64, byte: u8) -> Result<bool, Fail>
    requires { sector < 2 ^ 55 }
{
    file.seek(SeekFrom::Start(sector * 512))?;
    file.write_all(&[byte; 512])?;
    let mut images = FileImages::new(rt, rt.alloc())?;
    images.attach("far.img")?;
    Ok(is_full(&sector_of(&mut images, 0, sector), byte))
}

// A place past 4 GiB is read, and the sector number 2^32 where the file system has files of that length.
#[test]
fn far_sectors_are_read(rt: HostRuntime) -> Result<(), Fail> {
    let mut file = File::create(&rt, "far.img")?;
    assert!(rt; is_read(&rt, &mut file, 1 << 23, 1)?);
    if file.set_len((1 << 41) + 512).is_ok() {
        assert!(rt; is_read(&rt, &mut file, 1 << 32, 2)?);
    }
    assert!(rt; is_removed(&rt, "far.img"));
    Ok(())
}
