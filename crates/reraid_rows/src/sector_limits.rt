//! Landmark sectors at both sides of their limits, and images at the limits of a survey.
use crate::placed::{Field, HEADER, Placed, images, put_all};
use crate::plans::bytes_of;
use crate::rows::{End, ends_so};
use outside::Memory;
use std::alloc::Global;
use std::process::Abort;
use std::test::Fail;
use std::thread::Threads;

/// What a sector that stands alone on an image of two has beside what is alike, and the lines of its group.
type Seen = (&'static [Field], &'static str);

/// What a survey is asked for here, and what it prints before and after the groups.
const LINE: &str =
    "survey levels=0 patterns=plain syndromes=none chunks=1 offsets=0 origins=0 -- a";

const BEFORE: &str =
    "reraid-plan 1\nimages 1\nlength 2\nend 2\nlevels 0\nmembers 2\npatterns plain\nsyndromes none\nchunks 1\noffsets 0\norigins 0\nmissing 0\nforeign 0\nbadrows 0\nwindow 2\nmisfits 0\nleast 1\n";

/// A header in block 1 of 128.
const IN_ONE: &[Placed] = &[
    (0, 0, HEADER),
    (0, 0, &[(24, &[1]), (32, &[127]), (72, &[2])]),
];

/// The longest distance, and what is one sector longer.
const MOST: &[u8] = &[0xFF, 0xFF, 0xFF, 0xFF, 0xFF, 0xFF, 0x7F];

const OVER: &[u8] = &[0, 0, 0, 0, 0, 0, 0x80];

/// Headers of partition tables, whose checksums were computed by zlib: MyLBA of 2^55 - 1 and of 2^55; header sizes of 512 and 513,
/// and of 92 and 91.
static HEADERS: [Seen; 6] = [
    (
        &[(16, &[0x28, 0xF2, 0x04, 0x79]), (24, MOST)],
        "group gpt\nmark gpt 0 0 at:36028797018963967\n",
    ),
    (&[(16, &[0x1C, 0x43, 0x84, 0xC7]), (24, OVER)], ""),
    (
        &[(12, &[0, 2]), (16, &[0x80, 0xBE, 0x4D, 0x30])],
        "group gpt\nmark gpt 0 0 at:1\n",
    ),
    (&[(12, &[1, 2]), (16, &[0x76, 0x26, 0, 0x10])], ""),
    (
        &[(12, &[92]), (16, &[0x81, 0xFE, 0xE7, 0x71])],
        "group gpt\nmark gpt 0 0 at:1\n",
    ),
    (&[(12, &[91]), (16, &[0x94, 0x3A, 0x8E, 0x71])], ""),
];

/// A boot sector of NTFS with clusters of one sector, its table and the copy in clusters 4 and 2, and records of 2^10 bytes.
const BOOT: &[Placed] = &[(
    0,
    0,
    &[
        (3, b"NTFS    "),
        (12, &[2, 1]),
        (48, &[4]),
        (56, &[2]),
        (64, &[0xF6]),
        (510, &[0x55, 0xAA]),
    ],
)];

/// Such boot sectors: of 2^55 - 1 sectors, of 2^55, and of none; with $MFT as far as record 15 may lie, 30 sectors before 2^55 - 1, and
/// one further.
static BOOTS: [Seen; 5] = [
    (
        &[(40, MOST)],
        "group ntfs\nmark boot 0 0 either:0:36028797018963967\n",
    ),
    (&[(40, OVER)], ""),
    (&[], ""),
    (
        &[
            (40, &[100]),
            (48, &[0xE1, 0xFF, 0xFF, 0xFF, 0xFF, 0xFF, 0x7F]),
        ],
        "group ntfs\nmark boot 0 0 either:0:100\n",
    ),
    (
        &[
            (40, &[100]),
            (48, &[0xE2, 0xFF, 0xFF, 0xFF, 0xFF, 0xFF, 0x7F]),
        ],
        "",
    ),
];

/// A superblock of XFS with blocks of 512 bytes, 2^27 a group, and sectors of 512 bytes.
const SUPER: &[Placed] = &[(0, 0, &[(0, b"XFSB"), (6, &[2]), (84, &[8]), (102, &[2])])];

/// Superblocks of XFS: blocks of 65,536 bytes, and as many blocks a group and groups as their fields hold, 128 * (2^32 - 1)^2
/// sectors, which is more than 2^55; blocks of 512 bytes, 2^27 a group, of 2^28 groups less one, with sectors of 512 bytes, whose
/// end is 2^55 - 2^27 + 2; and one group more, whose end is 2^55 + 2.
static SUPERS: [Seen; 3] = [
    (
        &[
            (5, &[1, 0]),
            (84, &[0xFF, 0xFF, 0xFF, 0xFF, 0xFF, 0xFF, 0xFF, 0xFF]),
        ],
        "",
    ),
    (
        &[(88, &[0x0F, 0xFF, 0xFF, 0xFF])],
        "group xfs\nmark super 0 0 every:134217728:268435455:0\n",
    ),
    (&[(88, &[0x10])], ""),
];

/// The plan with these groups.
fn plan_with(alloc: Global, groups: &str) -> Result<Vec<u8>, Memory> {
    let mut plan = bytes_of(alloc, BEFORE)?;
    plan.extend_from_slice(groups.as_bytes())
        .map_err(|_| Memory)?;
    plan.extend_from_slice(b"done\n").map_err(|_| Memory)?;
    Ok(plan)
}

/// Surveys an image of two sectors with these fields and those of the row in its first, and compares the plan.
fn surveyed<R: Threads + Sync + Abort>(
    rt: &R,
    alloc: Global,
    base: &[Placed],
    seen: &Seen,
) -> Result<(), Fail> {
    let (fields, groups) = *seen;
    let mut contents = images(alloc, &[1024], base)?;
    put_all(&mut contents, &[(0, 0, fields)]);
    let plan = plan_with(alloc, groups)?;
    let end = End {
        status: 0,
        out: &plan,
        notes: b"",
    };
    ends_so(rt, alloc, LINE, &contents, b"", &end)
}

/// Surveys such an image for each row.
fn surveyed_all<R: Threads + Sync + Abort>(
    rt: &R,
    alloc: Global,
    base: &[Placed],
    rows: &[Seen],
) -> Result<(), Fail> {
    for seen in rows {
        surveyed(rt, alloc, base, seen)?;
    }
    Ok(())
}

#[test]
fn landmarks_at_their_limits(rt: HostRuntime) -> Result<(), Fail> {
    surveyed_all(&rt, rt.alloc(), IN_ONE, &HEADERS)?;
    surveyed_all(&rt, rt.alloc(), BOOT, &BOOTS)?;
    surveyed_all(&rt, rt.alloc(), SUPER, &SUPERS)
}
