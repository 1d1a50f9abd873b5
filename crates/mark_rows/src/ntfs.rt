//! Sectors that `mkntfs` wrote, and the bounds of a boot sector and of a file record on both sides.
use crate::sectors::with;
use ntfs_marks::{NtfsBoot, NtfsRecord, read_boot, read_record};

// truncate -s 2M a.img; mkntfs -F -Q -s 512 -c 1024 -p 63 -H 16 -S 63 -L x a.img
// `ntfsinfo -m` prints clusters of 1024 bytes, 2047 of them, records of 1024 bytes, the table at
// cluster 16 and its copy at 1023. The first 80 bytes of sector 0; 510 and 511 are 55 aa.
const BOOT: [u8; 80] = [
    0xeb, 0x52, 0x90, 0x4e, 0x54, 0x46, 0x53, 0x20, 0x20, 0x20, 0x20, 0x00, 0x02, 0x02, 0x00, 0x00,
    0x00, 0x00, 0x00, 0x00, 0x00, 0xf8, 0x00, 0x00, 0x3f, 0x00, 0x10, 0x00, 0x3f, 0x00, 0x00, 0x00,
    0x00, 0x00, 0x00, 0x00, 0x80, 0x00, 0x80, 0x00, 0xff, 0x0f, 0x00, 0x00, 0x00, 0x00, 0x00, 0x00,
    0x10, 0x00, 0x00, 0x00, 0x00, 0x00, 0x00, 0x00, 0xff, 0x03, 0x00, 0x00, 0x00, 0x00, 0x00, 0x00,
    0x01, 0x00, 0x00, 0x00, 0x04, 0x00, 0x00, 0x00, 0xb1, 0xe0, 0xae, 0x3d, 0x37, 0x45, 0xde, 0x49,
];

// truncate -s 8M b.img; mkntfs -F -Q -s 512 -c 4096 -p 0 -H 16 -S 63 -L y b.img
// `ntfsinfo -m` prints clusters of 4096 bytes, 2047 of them, records of 1024 bytes, the table at
// cluster 4 and its copy at 1023. The same bytes.
const LARGE_BOOT: [u8; 80] = [
    0xeb, 0x52, 0x90, 0x4e, 0x54, 0x46, 0x53, 0x20, 0x20, 0x20, 0x20, 0x00, 0x02, 0x08, 0x00, 0x00,
    0x00, 0x00, 0x00, 0x00, 0x00, 0xf8, 0x00, 0x00, 0x3f, 0x00, 0x10, 0x00, 0x00, 0x00, 0x00, 0x00,
    0x00, 0x00, 0x00, 0x00, 0x80, 0x00, 0x80, 0x00, 0xff, 0x3f, 0x00, 0x00, 0x00, 0x00, 0x00, 0x00,
    0x04, 0x00, 0x00, 0x00, 0x00, 0x00, 0x00, 0x00, 0xff, 0x03, 0x00, 0x00, 0x00, 0x00, 0x00, 0x00,
    0xf6, 0x00, 0x00, 0x00, 0x01, 0x00, 0x00, 0x00, 0x3b, 0x63, 0x7f, 0x5f, 0x4d, 0xe0, 0xce, 0x50,
];

// The first 48 bytes of sector 42 of a.img. `ntfsinfo -i 5 -v` prints the update sequence at 48 and
// 1024 bytes allocated.
const RECORD: [u8; 48] = [
    0x46, 0x49, 0x4c, 0x45, 0x30, 0x00, 0x03, 0x00, 0x00, 0x00, 0x00, 0x00, 0x00, 0x00, 0x00, 0x00,
    0x05, 0x00, 0x01, 0x00, 0x38, 0x00, 0x03, 0x00, 0x00, 0x02, 0x00, 0x00, 0x00, 0x04, 0x00, 0x00,
    0x00, 0x00, 0x00, 0x00, 0x00, 0x00, 0x00, 0x00, 0x06, 0x00, 0x00, 0x00, 0x05, 0x00, 0x00, 0x00,
];

fn boot_sector(front: &[u8; 80]) -> [u8; 512] {
    with(with([0; 512], 0, front), 510, &[0x55, 0xaa])
}

// The boot sector that begins so.
fn boot_of(front: &[u8; 80]) -> Option<NtfsBoot> {
    read_boot(&boot_sector(front))
}

// The first boot sector, changed there, is one.
fn is_boot(at: usize, bytes: &[u8]) -> bool {
    read_boot(&with(boot_sector(&BOOT), at, bytes)).is_some()
}

// The record size of the first boot sector with this code and clusters of `cluster` sectors.
fn size_by(code: i8, cluster: u8) -> Option<u32> {
    let clusters = with(boot_sector(&BOOT), 13, &[cluster]);
    match read_boot(&with(clusters, 64, &[code.cast_unsigned()])) {
        Some(boot) => Some(boot.record_bytes),
        None => None,
    }
}

#[test]
fn boot_sectors_of_mkntfs(rt: HostRuntime) {
    let boot = NtfsBoot {
        cluster: 2,
        total: 4095,
        mft: 16,
        mirror: 1023,
        record_bytes: 1024,
        serial: 0x49de_4537_3dae_e0b1,
    };
    assert!(rt; boot_of(&BOOT) == Some(boot));
    let large = NtfsBoot {
        cluster: 8,
        total: 16383,
        mft: 4,
        mirror: 1023,
        record_bytes: 1024,
        serial: 0x50ce_e04d_5f7f_633b,
    };
    assert!(rt; boot_of(&LARGE_BOOT) == Some(large));
}

#[test]
fn marks_of_a_boot_sector(rt: HostRuntime) {
    assert!(rt; is_boot(0, b"\x00") && !is_boot(10, b"\x00") && !is_boot(3, b"n"));
    assert!(rt; !is_boot(510, b"\x56") && !is_boot(511, b"\xab"));
    // Bytes per sector: 512, 513, 4096.
    assert!(rt; is_boot(11, b"\x00\x02") && !is_boot(11, b"\x01\x02") && !is_boot(11, b"\x00\x10"));
}

#[test]
fn sizes_of_records(rt: HostRuntime) {
    for (code, cluster, size) in [
        (0, 2, None),
        (-8, 2, None),
        (-17, 2, None),
        (-128, 2, None),
        (127, 128, None),
        (2, 128, None),
        (1, 0, None),
        (1, 3, None),
        (1, 255, None),
        (-9, 2, Some(512)),
        (-16, 2, Some(65536)),
        (1, 1, Some(512)),
        (1, 128, Some(65536)),
    ] {
        assert!(rt; size_by(code, cluster) == size, "{code} {cluster}");
    }
}

// The first boot sector with this number there is one.
fn has_number(at: usize, number: u64) -> bool {
    is_boot(at, &number.to_le_bytes())
}

#[test]
fn bounds_of_a_boot_sector(rt: HostRuntime) {
    // All sectors, from 1 to 2^55 - 1.
    for (number, read) in [
        (0, false),
        (1, true),
        ((1 << 55) - 1, true),
        (1 << 55, false),
    ] {
        assert!(rt; has_number(40, number) == read, "{number} sectors");
    }
    // Clusters have 2 sectors here, and record 15 begins 30 sectors after record 0. Twice 2^63 is 2^64.
    for (cluster, read) in [
        ((1 << 54) - 16, true),
        ((1 << 54) - 15, false),
        (u64::MAX, false),
        (1 << 63, false),
    ] {
        assert!(rt; has_number(48, cluster) == read, "the table at {cluster}");
        assert!(rt; has_number(56, cluster) == read, "its copy at {cluster}");
    }
}

// The record, changed there.
fn record_with(at: usize, bytes: &[u8]) -> Option<NtfsRecord> {
    read_record(&with(with([0; 512], 0, &RECORD), at, bytes))
}

#[test]
fn file_records_of_mkntfs(rt: HostRuntime) {
    assert!(rt;
        record_with(0, &[])
            == Some(NtfsRecord {
                number: 5,
                bytes: 1024
            })
    );
    assert!(rt; record_with(44, &[15]).is_some());
    assert!(rt; record_with(44, &[16]).is_none());
    assert!(rt; record_with(47, &[1]).is_none());
    // The records of NTFS before 3.1 have the update sequence at 42.
    assert!(rt; record_with(4, &[42]).is_none());
    assert!(rt; record_with(5, &[1]).is_none());
    assert!(rt; record_with(0, b"BAAD").is_none());
}
