//! Damaged images by the map files of ddrescue: what is written, and what is lost.
use crate::objects::{Objects, filled, images_of, ready, words_of};
use crate::rows::{End, Row, Written, check_all, same_bytes, same_status, writes_by};
use reraid_cli::{OpenGate, reraid};
use std::alloc::Global;
use std::process::Abort;
use std::test::Fail;
use std::thread::Threads;
use test_objects::Holed;

/// Two rows of left-symmetric over three members: 0 1 P and 3 P 2 hold 01 03 and 06 02.
const MEMBERS: &[&[u8]] = &[&[1, 2], &[3, 4], &[2, 6]];

/// The first sector of the first image is bad.
const ONE: &str = "map 0\n# x\n0x0 ? 1\n0x0 0x200 -\n0x200 0x200 +\n";

/// And that of the second.
const TWO: &str =
    "map 0\n# x\n0x0 ? 1\n0x0 0x200 -\n0x200 0x200 +\nmap 1\n0 +\n0 512 -\n512 512 +\n";

/// So they lie.
const ONE_HOLE: &[(u32, u64)] = &[(0, 0)];

const TWO_HOLES: &[(u32, u64)] = &[(0, 0), (1, 0)];

/// A block that does not go on from the one before.
const APART: &str =
    "map 0\n# x\n0x0 ? 1\n0x0 0x200 -\n0x200 0x200 +\nmap 1\n0 +\n0 512 -\n513 512 +\n";

/// What is written.
const WRITTEN: Written = Written {
    line: "salvage set=5:ls:none:1:0:0,1,2 -- a b c",
    images: MEMBERS,
    out: &[1, 3, 6, 2],
};

/// What is left of it.
const LEFT: Written = Written {
    line: "salvage set=5:ls:none:1:0:0,1,2 form=data -- a b c",
    images: MEMBERS,
    out: &[0, 0, 6, 2],
};

#[test]
fn volumes_of_damaged_images(rt: HostRuntime) -> Result<(), Fail> {
    writes_by(&rt, rt.alloc(), &WRITTEN, ONE)?;
    writes_by(&rt, rt.alloc(), &LEFT, TWO)
}

/// What is lost, and refused texts.
const ROWS: [Row; 4] = [
    Row {
        line: "salvage set=5:ls:none:1:0:0,1,2 form=lost -- a b c",
        images: MEMBERS,
        plan: ONE,
        status: 0,
        out: "good 4 of 4\n",
        notes: "",
    },
    Row {
        line: "salvage set=5:ls:none:1:0:0,1,2 form=lost -- a b c",
        images: MEMBERS,
        plan: TWO,
        status: 0,
        out: "lost 0 2\ngood 2 of 4\n",
        notes: "",
    },
    Row {
        line: "salvage set=5:ls:none:1:0:0,1,2 form=lost -- a b c",
        images: MEMBERS,
        plan: APART,
        status: 9,
        out: "",
        notes: "reraid: rescue line 9 is not understood\n",
    },
    Row {
        line: "salvage set=5:ls:none:1:0:0,1,1 -- a b c",
        images: MEMBERS,
        plan: ONE,
        status: 7,
        out: "",
        notes: "reraid: set rule 6 value 1\n",
    },
];

#[test]
fn what_is_lost_of_damaged_images(rt: HostRuntime) -> Result<(), Fail> {
    check_all(&rt, rt.alloc(), &ROWS)
}

/// Rows of chunks of four sectors, left-symmetric: the first has two data chunks and P, the second one of data, P and the one
/// before it. P is 1 + 16 = 17 and so on, and 5 + 80 = 85 and so on, bit by bit.
const CHUNKS: &[&[u8]] = &[
    &[1, 2, 3, 4, 5, 6, 7, 8],
    &[16, 32, 48, 64, 85, 102, 119, 136],
    &[17, 34, 51, 68, 80, 96, 112, 128],
];

/// Sectors 1 and 2 of the first image are bad, 3 and 5 of the second, and 6 of the third: in each row one at most.
const APART_HOLES: &[(u32, u64)] = &[(0, 1), (0, 2), (1, 3), (1, 5), (2, 6)];

/// So the maps say.
const APART_MAPS: &str =
    "map 0\n0 ? 1\n0 512 +\n512 1024 -\n1536 2560 +\nmap 1\n0 ? 1\n0 1536 +\n1536 512 /\n2048 512 +\n2560 512 *\n3072 1024 +\nmap 2\n0 ? 1\n0 3072 +\n3072 512 -\n3584 512 +\n";

/// All is found.
const APART_WRITTEN: Written = Written {
    line: "salvage set=5:ls:none:4:0:0,1,2 -- a b c",
    images: CHUNKS,
    out: &[1, 2, 3, 4, 16, 32, 48, 64, 80, 96, 112, 128, 5, 6, 7, 8],
};

/// Sector 6 of the first image is bad too, beside that of the third.
const BESIDE_HOLES: &[(u32, u64)] = &[(0, 1), (0, 2), (0, 6), (1, 3), (1, 5), (2, 6)];

/// So the maps say.
const BESIDE_MAPS: &str =
    "map 0\n0 ? 1\n0 512 +\n512 1024 -\n1536 1536 +\n3072 512 -\n3584 512 +\nmap 1\n0 ? 1\n0 1536 +\n1536 512 /\n2048 512 +\n2560 512 *\n3072 1024 +\nmap 2\n0 ? 1\n0 3072 +\n3072 512 -\n3584 512 +\n";

/// The data of that row are lost.
const BESIDE_WRITTEN: Written = Written {
    line: "salvage set=5:ls:none:4:0:0,1,2 -- a b c",
    images: CHUNKS,
    out: &[1, 2, 3, 4, 16, 32, 48, 64, 80, 96, 0, 128, 5, 6, 0, 8],
};

/// Q, two data chunks and P of one row of chunks: 01 + 2 * 80 = 1C, 1 + 2 * 3 = 7, 6 + 2 * 2 = 2 and 5 + 2 * 9 = 17 in hexadecimal.
const DOUBLE_CHUNKS: &[&[u8]] = &[
    &[0x1C, 0x07, 0x02, 0x17],
    &[0x01, 0x01, 0x06, 0x05],
    &[0x80, 0x03, 0x02, 0x09],
    &[0x81, 0x02, 0x04, 0x0C],
];

/// In the first row the data and P are bad, in the second the first data and P, in the third the data, in the last the second
/// data and Q.
const DOUBLE_HOLES: &[(u32, u64)] = &[
    (0, 3),
    (1, 0),
    (1, 1),
    (1, 2),
    (2, 0),
    (2, 2),
    (2, 3),
    (3, 0),
    (3, 1),
];

/// So the maps say.
const DOUBLE_MAPS: &str =
    "map 0\n0 ? 1\n0 1536 +\n1536 512 -\nmap 1\n0 ? 1\n0 1536 -\n1536 512 +\nmap 2\n0 ? 1\n0 512 -\n512 512 +\n1024 1024 -\nmap 3\n0 ? 1\n0 1024 -\n1024 1024 +\n";

/// The first row is lost, the others are found.
const DOUBLE_WRITTEN: Written = Written {
    line: "salvage set=6:ls:after-q:4:0:0,1,2,3 -- a b c d",
    images: DOUBLE_CHUNKS,
    out: &[0, 1, 6, 5, 0, 3, 2, 9],
};

/// The data begin at sector 1 of the first image, and at sector 0 of the others, in chunks of two sectors.
const LATER: &[&[u8]] = &[
    &[9, 1, 2, 5, 6],
    &[16, 32, 85, 102, 9],
    &[17, 34, 80, 96, 9],
];

/// Sectors of the images: what is before and after the data, and one of each member, in different rows.
const LATER_HOLES: &[(u32, u64)] = &[(0, 0), (0, 2), (1, 0), (1, 4), (2, 3)];

/// So the maps say.
const LATER_MAPS: &str =
    "map 0\n0 ? 1\n0 512 -\n512 512 +\n1024 512 -\n1536 1024 +\nmap 1\n0 ? 1\n0 512 -\n512 1536 +\n2048 512 -\nmap 2\n0 ? 1\n0 1536 +\n1536 512 -\n2048 512 +\n";

/// All is found.
const LATER_WRITTEN: Written = Written {
    line: "salvage set=5:ls:none:2:1+0+0:0,1,2 -- a b c",
    images: LATER,
    out: &[1, 2, 16, 32, 80, 96, 5, 6],
};

// Runs the row over images with holes, of which the text says what was read, and compares what it leaves.
fn ends_around<R: Threads + Sync + Abort>(
    rt: &R,
    alloc: Global,
    row: &Written,
    text: &str,
    holes: &[(u32, u64)],
    end: &End,
) -> Result<(), Fail> {
    let words = words_of(alloc, row.line)?;
    let contents = images_of(alloc, row.images)?;
    let Objects {
        images,
        mut plan,
        mut out,
        mut notes,
    } = ready(alloc, &words, &contents, text.as_bytes())?;
    let mut images = Holed::new(images, holes);
    let status = reraid(
        rt,
        alloc,
        &words,
        &mut plan,
        &mut images,
        &mut out,
        &mut notes,
        &OpenGate,
    );
    same_status(rt, status, end.status, row.line);
    same_bytes(rt, out.bytes(), end.out, row.line);
    same_bytes(rt, notes.bytes(), end.notes, row.line);
    Ok(())
}

// Runs the row over images with holes, and compares what it puts.
fn writes_around<R: Threads + Sync + Abort>(
    rt: &R,
    alloc: Global,
    row: &Written,
    text: &str,
    holes: &[(u32, u64)],
) -> Result<(), Fail> {
    let out = filled(alloc, row.out)?;
    let end = End {
        status: 0,
        out: &out,
        notes: b"",
    };
    ends_around(rt, alloc, row, text, holes, &end)
}

#[test]
fn no_bad_sector_is_read(rt: HostRuntime) -> Result<(), Fail> {
    let alloc = rt.alloc();
    writes_around(&rt, alloc, &WRITTEN, ONE, ONE_HOLE)?;
    writes_around(&rt, alloc, &LEFT, TWO, TWO_HOLES)?;
    writes_around(&rt, alloc, &APART_WRITTEN, APART_MAPS, APART_HOLES)?;
    writes_around(&rt, alloc, &BESIDE_WRITTEN, BESIDE_MAPS, BESIDE_HOLES)?;
    writes_around(&rt, alloc, &DOUBLE_WRITTEN, DOUBLE_MAPS, DOUBLE_HOLES)?;
    writes_around(&rt, alloc, &LATER_WRITTEN, LATER_MAPS, LATER_HOLES)
}

// Such a reading fails: without maps all is read, and so it is with maps that call sector 6 of the first image good.
#[test]
fn a_bad_sector_that_is_read_is_told(rt: HostRuntime) -> Result<(), Fail> {
    let alloc = rt.alloc();
    let end = End {
        status: 10,
        out: b"",
        notes: b"reraid: image read fault\n",
    };
    ends_around(&rt, alloc, &APART_WRITTEN, "", APART_HOLES, &end)?;
    ends_around(&rt, alloc, &BESIDE_WRITTEN, APART_MAPS, BESIDE_HOLES, &end)
}
