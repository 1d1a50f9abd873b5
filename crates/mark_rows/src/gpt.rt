//! Sectors that `sgdisk` wrote, and the bounds of a header and of an entry on both sides.
use crate::sectors::with;
use gpt_marks::{GptHeader, crc32, own_table, read_entries, read_header};
use uuid::Uuid;

// truncate -s 8M gpt.img
// sgdisk -a 1 -U 01234567-89AB-CDEF-0123-456789ABCDEF \
//     -n 1:40:2087 -t 1:8300 -u 1:11111111-2222-3333-4444-555555555555 \
//     -n 2:2088:8191 -t 2:0700 -u 2:66666666-7777-8888-9999-AAAAAAAAAAAA gpt.img
// `sgdisk -p` prints the 16384 sectors, the disk's identifier and the two ranges.

// The first 96 bytes of sector 1; the others are zero.
const FIRST: [u8; 96] = [
    0x45, 0x46, 0x49, 0x20, 0x50, 0x41, 0x52, 0x54, 0x00, 0x00, 0x01, 0x00, 0x5c, 0x00, 0x00, 0x00,
    0xda, 0x03, 0x6c, 0xe4, 0x00, 0x00, 0x00, 0x00, 0x01, 0x00, 0x00, 0x00, 0x00, 0x00, 0x00, 0x00,
    0xff, 0x3f, 0x00, 0x00, 0x00, 0x00, 0x00, 0x00, 0x22, 0x00, 0x00, 0x00, 0x00, 0x00, 0x00, 0x00,
    0xde, 0x3f, 0x00, 0x00, 0x00, 0x00, 0x00, 0x00, 0x67, 0x45, 0x23, 0x01, 0xab, 0x89, 0xef, 0xcd,
    0x01, 0x23, 0x45, 0x67, 0x89, 0xab, 0xcd, 0xef, 0x02, 0x00, 0x00, 0x00, 0x00, 0x00, 0x00, 0x00,
    0x80, 0x00, 0x00, 0x00, 0x80, 0x00, 0x00, 0x00, 0x49, 0xc5, 0x28, 0x1f, 0x00, 0x00, 0x00, 0x00,
];

// The same of sector 16383.
const LAST: [u8; 96] = [
    0x45, 0x46, 0x49, 0x20, 0x50, 0x41, 0x52, 0x54, 0x00, 0x00, 0x01, 0x00, 0x5c, 0x00, 0x00, 0x00,
    0xef, 0x16, 0x59, 0x50, 0x00, 0x00, 0x00, 0x00, 0xff, 0x3f, 0x00, 0x00, 0x00, 0x00, 0x00, 0x00,
    0x01, 0x00, 0x00, 0x00, 0x00, 0x00, 0x00, 0x00, 0x22, 0x00, 0x00, 0x00, 0x00, 0x00, 0x00, 0x00,
    0xde, 0x3f, 0x00, 0x00, 0x00, 0x00, 0x00, 0x00, 0x67, 0x45, 0x23, 0x01, 0xab, 0x89, 0xef, 0xcd,
    0x01, 0x23, 0x45, 0x67, 0x89, 0xab, 0xcd, 0xef, 0xdf, 0x3f, 0x00, 0x00, 0x00, 0x00, 0x00, 0x00,
    0x80, 0x00, 0x00, 0x00, 0x80, 0x00, 0x00, 0x00, 0x49, 0xc5, 0x28, 0x1f, 0x00, 0x00, 0x00, 0x00,
];

// The first 48 bytes of sector 2, entry 1.
const ENTRY: [u8; 48] = [
    0xaf, 0x3d, 0xc6, 0x0f, 0x83, 0x84, 0x72, 0x47, 0x8e, 0x79, 0x3d, 0x69, 0xd8, 0x47, 0x7d, 0xe4,
    0x11, 0x11, 0x11, 0x11, 0x22, 0x22, 0x33, 0x33, 0x44, 0x44, 0x55, 0x55, 0x55, 0x55, 0x55, 0x55,
    0x28, 0x00, 0x00, 0x00, 0x00, 0x00, 0x00, 0x00, 0x27, 0x08, 0x00, 0x00, 0x00, 0x00, 0x00, 0x00,
];

// Its bytes 128 to 175, entry 2. The rest of the sector is zero.
const SECOND_ENTRY: [u8; 48] = [
    0xa2, 0xa0, 0xd0, 0xeb, 0xe5, 0xb9, 0x33, 0x44, 0x87, 0xc0, 0x68, 0xb6, 0xb7, 0x26, 0x99, 0xc7,
    0x66, 0x66, 0x66, 0x66, 0x77, 0x77, 0x88, 0x88, 0x99, 0x99, 0xaa, 0xaa, 0xaa, 0xaa, 0xaa, 0xaa,
    0x28, 0x08, 0x00, 0x00, 0x00, 0x00, 0x00, 0x00, 0xff, 0x1f, 0x00, 0x00, 0x00, 0x00, 0x00, 0x00,
];

// What both headers of the disk say alike.
fn header_at(my_lba: u64, alternate: u64, table: u64) -> GptHeader {
    let disk = Uuid::from_bytes([
        0x67, 0x45, 0x23, 0x01, 0xab, 0x89, 0xef, 0xcd, 0x01, 0x23, 0x45, 0x67, 0x89, 0xab, 0xcd,
        0xef,
    ]);
    GptHeader {
        my_lba,
        alternate,
        disk,
        table,
        entries: 128,
        entry_size: 128,
    }
}

// The header of the sector that begins so.
fn header_of(front: &[u8; 96]) -> Option<GptHeader> {
    read_header(&with([0; 512], 0, front))
}

// The first header, changed there, is one.
fn is_header(at: usize, bytes: &[u8]) -> bool {
    read_header(&with(with([0; 512], 0, &FIRST), at, bytes)).is_some()
}

#[test]
fn checksum(rt: HostRuntime) {
    assert!(rt; crc32(b"123456789") == 0xcbf4_3926);
}

#[test]
fn headers_of_sgdisk(rt: HostRuntime) {
    assert!(rt; header_of(&FIRST) == Some(header_at(1, 16383, 2)));
    assert!(rt; header_of(&LAST) == Some(header_at(16383, 1, 16351)));
    // One bit of the disk's identifier.
    assert!(rt; !is_header(56, &[0x66]));
    assert!(rt; is_header(0, b"E"));
    assert!(rt; !is_header(0, b"F"));
}

#[test]
fn own_headers(rt: HostRuntime) {
    let header = header_at(1, 16383, 2);
    assert!(rt; own_table(&header, 1, 16384, 1));
    assert!(rt; !own_table(&header, 2, 16384, 1));
    assert!(rt; !own_table(&header, 1, 16385, 1));
    let copy = header_at(16383, 1, 16351);
    assert!(rt; own_table(&copy, 16383, 16384, 1));
    assert!(rt; !own_table(&copy, 1, 16384, 1));
}

// A disk of 64 sectors whose blocks have 4,096 bytes: 8 blocks of 8 sectors.
#[test]
fn own_headers_of_large_blocks(rt: HostRuntime) {
    let header = header_at(1, 7, 2);
    assert!(rt; own_table(&header, 8, 64, 8));
    assert!(rt; !own_table(&header, 1, 64, 8));
    assert!(rt; !own_table(&header, 9, 64, 8));
    assert!(rt; !own_table(&header, 8, 64, 1));
    // Blocks to the end, and one that is cut off.
    assert!(rt; !own_table(&header, 8, 72, 8));
    assert!(rt; !own_table(&header, 8, 65, 8));
    let copy = header_at(7, 1, 2);
    assert!(rt; own_table(&copy, 56, 64, 8));
    assert!(rt; !own_table(&copy, 7, 64, 8));
}

// The MyLBA that is read of the header with this size, MyLBA and checksum.
fn lba_read(size: u32, my_lba: u64, checksum: u32) -> Option<u64> {
    let sized = with(with([0; 512], 0, &FIRST), 12, &size.to_le_bytes());
    let placed = with(sized, 24, &my_lba.to_le_bytes());
    match read_header(&with(placed, 16, &checksum.to_le_bytes())) {
        Some(header) => Some(header.my_lba),
        None => None,
    }
}

// The checksums are those that zlib's `crc32` gives.
#[test]
fn bounds_of_a_header(rt: HostRuntime) {
    for (size, my_lba, checksum, read) in [
        (91, 1, 0x4539_e343, None),
        (92, 1, 0xe46c_03da, Some(1)),
        (512, 1, 0xd0fb_c6c3, Some(1)),
        (513, 1, 0xff35_8024, None),
        (92, (1 << 55) - 1, 0xec8f_0f73, Some((1 << 55) - 1)),
        (92, 1 << 55, 0x520f_be47, None),
    ] {
        assert!(rt; lba_read(size, my_lba, checksum) == read, "{size} {my_lba}");
    }
}

// A type of one bit.
const LEAST_TYPE: [u8; 16] = [0, 0, 0, 0, 0, 0, 0, 0, 0, 0, 0, 0, 0, 0, 0, 1];

// Whether these are the first blocks of the entries of the sector, changed there.
fn are_firsts(at: usize, bytes: &[u8], alternate: u64, firsts: [Option<u64>; 4]) -> bool {
    let entries = with(with([0; 512], 0, &ENTRY), 128, &SECOND_ENTRY);
    read_entries(&with(entries, at, bytes), alternate) == firsts
}

#[test]
fn entries_of_sgdisk(rt: HostRuntime) {
    assert!(rt; are_firsts(0, &[], 16383, [Some(40), Some(2088), None, None]));
    assert!(rt; are_firsts(0, &[], 8191, [Some(40), Some(2088), None, None]));
    assert!(rt; are_firsts(0, &[], 8190, [Some(40), None, None, None]));
    // An entry without a type is unused; one byte is a type.
    assert!(rt; are_firsts(0, &[0; 16], 16383, [None, Some(2088), None, None]));
    assert!(rt; are_firsts(0, &LEAST_TYPE, 16383, [Some(40), Some(2088), None, None]));
}

// The first block of the first entry, with these blocks.
fn first_of(first: u64, last: u64, alternate: u64) -> Option<u64> {
    let entry = with([0; 512], 0, &ENTRY);
    let begun = with(entry, 32, &first.to_le_bytes());
    read_entries(&with(begun, 40, &last.to_le_bytes()), alternate)[0]
}

#[test]
fn bounds_of_an_entry(rt: HostRuntime) {
    for (first, last, alternate, read) in [
        (7, 7, 7, Some(7)),
        (8, 7, 9, None),
        ((1 << 55) - 1, u64::MAX, u64::MAX, Some((1 << 55) - 1)),
        (1 << 55, u64::MAX, u64::MAX, None),
    ] {
        assert!(rt; first_of(first, last, alternate) == read, "{first}");
    }
}
