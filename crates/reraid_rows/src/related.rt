//! Runs of `relations`, and what they put. Sectors are made here as sums of generated ones, by products of shifts; ties were worked out
//! by hand from these sums.
use crate::rows::{End, ends_so};
use outside::Memory;
use std::alloc::Global;
use std::process::Abort;
use std::test::Fail;
use std::thread::Threads;

/// A sector: a sum of generated ones, each by its weight and the number from which it is generated. No term is zeros.
type Terms = &'static [(u8, u32)];

const ZEROS: Terms = &[];

const A: Terms = &[(1, 1)];

const B: Terms = &[(1, 2)];

const C: Terms = &[(1, 3)];

const D: Terms = &[(1, 4)];

/// Seven times the first.
const SEVEN_A: Terms = &[(7, 1)];

const AB: Terms = &[(1, 1), (1, 2)];

const CD: Terms = &[(1, 3), (1, 4)];

/// One run: the line of its words, the sectors of its images, and what it puts.
#[derive(Clone, Copy)]
struct Related<'a> {
    line: &'a str,
    images: &'a [&'a [Terms]],
    out: &'a str,
}

/// Twice a byte of the field.
fn twice(byte: u8) -> u8 {
    if byte < 128 {
        byte * 2
    } else {
        ((byte - 128) * 2) ^ 0x1D
    }
}

/// The product of two bytes of the field.
fn times(weight: u8, byte: u8) -> u8 {
    let mut product = 0;
    let mut shifted = byte;
    for bit in 0..8u8 {
        if (weight >> bit) % 2 == 1 {
            product ^= shifted;
        }
        shifted = twice(shifted);
    }
    product
}

/// Appends a sector.
fn push_sector(bytes: &mut Vec<u8>, terms: Terms) -> Result<(), Memory> {
    let mut sector = [0u8; 512];
    for (weight, seed) in terms {
        let mut number = *seed;
        for place in 0..512 {
            number = number.wrapping_mul(75).wrapping_add(74) % 65537;
            sector[place] ^= times(*weight, (number % 256) as u8);
        }
    }
    bytes.extend_from_slice(&sector).map_err(|_| Memory)
}

/// Images of such sectors.
fn images_of(alloc: Global, images: &[&[Terms]]) -> Result<Vec<Vec<u8>>, Memory> {
    let mut contents = Vec::new(alloc);
    for image in images {
        let mut bytes = Vec::new(alloc);
        for terms in *image {
            push_sector(&mut bytes, terms)?;
        }
        contents.push(bytes).map_err(|_| Memory)?;
    }
    Ok(contents)
}

/// Runs each row, and compares what it puts.
fn check_all<R: Threads + Sync + Abort>(
    rt: &R,
    alloc: Global,
    rows: &[Related],
) -> Result<(), Fail> {
    for row in rows {
        let contents = images_of(alloc, row.images)?;
        let end = End {
            status: 0,
            out: row.out.as_bytes(),
            notes: b"",
        };
        ends_so(rt, alloc, row.line, &contents, b"", &end)?;
    }
    Ok(())
}

/// Images that depend on one another, or do not.
const DEPENDENT: [Related; 6] = [
    // two equal images
    Related {
        line: "relations -- a b",
        images: &[&[A, B], &[A, B]],
        out: "rows 0 1 zero - tied 1=1*0\ntogether 0,1 in 2 rows\nalone -\nfree 0 of 2\n",
    },
    // three of RAID 5: the parity moves, and no tie shows it
    Related {
        line: "relations -- a b c",
        images: &[&[A, D], &[B, CD], &[AB, C]],
        out: "rows 0 1 zero - tied 2=1*0+1*1\ntogether 0,1,2 in 2 rows\nalone -\nfree 0 of 2\n",
    },
    // zeros, of which none depends on any
    Related {
        line: "relations -- a b",
        images: &[&[ZEROS, ZEROS], &[A, ZEROS]],
        out: "rows 0 0 zero 0 tied -\nrows 1 1 zero 0,1 tied -\nalone 0,1\nfree 2 of 2\n",
    },
    // a multiple of another
    Related {
        line: "relations -- a b",
        images: &[&[A], &[SEVEN_A]],
        out: "rows 0 0 zero - tied 1=7*0\ntogether 0,1 in 1 rows\nalone -\nfree 0 of 1\n",
    },
    // a foreign image between two of a mirror
    Related {
        line: "relations -- a b c",
        images: &[&[A, B], &[C, D], &[A, B]],
        out: "rows 0 1 zero - tied 2=1*0\ntogether 0,2 in 2 rows\nalone 1\nfree 0 of 2\n",
    },
    // images that are shorter than their offset have no row
    Related {
        line: "relations offsets=0+3 -- a b",
        images: &[&[A], &[A]],
        out: "alone 0,1\nfree 0 of 0\n",
    },
];

#[test]
fn images_that_depend(rt: HostRuntime) -> Result<(), Fail> {
    check_all(&rt, rt.alloc(), &DEPENDENT)
}

/// The parity P of the blocks of row 0, and Q, in which they weigh 1, 2, 4 and so on.
const P0: Terms = &[(1, 1), (1, 2), (1, 3), (1, 4), (1, 5), (1, 6)];

const Q0: Terms = &[(1, 1), (2, 2), (4, 3), (8, 4), (16, 5), (32, 6)];

/// The same of row 1.
const P1: Terms = &[(1, 7), (1, 8), (1, 9), (1, 10), (1, 11), (1, 12)];

const Q1: Terms = &[(1, 7), (2, 8), (4, 9), (8, 10), (16, 11), (32, 12)];

/// Left-symmetric with eight members, chunks of one sector and Q behind P: in row 0 Q stands in slot 0, the data in slots 1 to 6 and P in
/// slot 7, in row 1 the data in slots 0 to 5, P in slot 6 and Q in slot 7. Slot 3 is lost: a block that weighs 4 in Q of row 0, and 8 in
/// that of row 1.
const SEVEN_OF_EIGHT: &[&[Terms]] = &[
    &[Q0, &[(1, 7)]],
    &[&[(1, 1)], &[(1, 8)]],
    &[&[(1, 2)], &[(1, 9)]],
    &[&[(1, 4)], &[(1, 11)]],
    &[&[(1, 5)], &[(1, 12)]],
    &[&[(1, 6)], P1],
    &[P0, Q1],
];

// In row 0 Q + 4 P lacks the lost block, and weighs the others by 1 + 4, 2 + 4, 8 + 4, 16 + 4 and 32 + 4. Over 4, whose inverse is 71, P
// is 71 Q and these by 1 + 71, 1 + 142, 2 + 1, 4 + 1 and 8 + 1. In row 1 it is Q + 8 P, and Q comes last.
#[test]
fn seven_of_eight_of_raid_6(rt: HostRuntime) -> Result<(), Fail> {
    let rows = [Related {
        line: "relations -- a b c d e f g",
        images: SEVEN_OF_EIGHT,
        out: "rows 0 0 zero - tied 6=71*0+70*1+143*2+3*3+5*4+9*5\nrows 1 1 zero - tied 6=9*0+10*1+12*2+24*3+40*4+8*5\ntogether 0,1,2,3,4,5,6 in 2 rows\nalone -\nfree 0 of 2\n",
    }];
    check_all(&rt, rt.alloc(), &rows)
}

/// A RAID 5 of three and a mirror, whose second image is old in row 1.
const TWO_ARRAYS: &[&[Terms]] = &[&[A, B], &[B, D], &[C, A], &[AB, &[(1, 2), (1, 4)]], &[C, C]];

#[test]
fn two_arrays(rt: HostRuntime) -> Result<(), Fail> {
    let rows = [
        Related {
            line: "relations form=text -- a b c d e",
            images: TWO_ARRAYS,
            out: "rows 0 0 zero - tied 3=1*0+1*1 4=1*2\nrows 1 1 zero - tied 3=1*0+1*1\ntogether 0,1,3 in 2 rows\ntogether 2,4 in 1 rows\nalone -\nfree 0 of 2\n",
        },
        Related {
            line: "relations form=json -- a b c d e",
            images: TWO_ARRAYS,
            out: "{\"rows\":[0,0],\"zero\":[],\"tied\":[[3,[[1,0],[1,1]]],[4,[[1,2]]]]}\n{\"rows\":[1,1],\"zero\":[],\"tied\":[[3,[[1,0],[1,1]]]]}\n{\"together\":[0,1,3],\"rows\":2}\n{\"together\":[2,4],\"rows\":1}\n{\"alone\":[]}\n{\"free\":0,\"of\":2}\n",
        },
    ];
    check_all(&rt, rt.alloc(), &rows)
}

/// Images that differ in rows that are not looked at.
const LOOKED_AT: [Related; 6] = [
    // every second from row 1 on: the others differ
    Related {
        line: "relations from=1 step=2 -- a b",
        images: &[&[A, B, C, D, A], &[B, B, D, D, C]],
        out: "rows 1 3 zero - tied 1=1*0\ntogether 0,1 in 2 rows\nalone -\nfree 0 of 2\n",
    },
    // none behind the end, and none behind the shorter image
    Related {
        line: "relations end=1 -- a b",
        images: &[&[A, B], &[A, D]],
        out: "rows 0 0 zero - tied 1=1*0\ntogether 0,1 in 1 rows\nalone -\nfree 0 of 1\n",
    },
    Related {
        line: "relations -- a b",
        images: &[&[A, B, C], &[A]],
        out: "rows 0 0 zero - tied 1=1*0\ntogether 0,1 in 1 rows\nalone -\nfree 0 of 1\n",
    },
    // none from the end on
    Related {
        line: "relations from=2 end=2 -- a b",
        images: &[&[A, B], &[A, B]],
        out: "alone 0,1\nfree 0 of 0\n",
    },
    // the second image begins a sector later
    Related {
        line: "relations offsets=0+1 -- a b",
        images: &[&[A, B, C], &[D, A, B]],
        out: "rows 0 1 zero - tied 1=1*0\ntogether 0,1 in 2 rows\nalone -\nfree 0 of 2\n",
    },
    // a run ends where the table changes, and goes on nowhere
    Related {
        line: "relations -- a b",
        images: &[&[A, B, A, D], &[A, C, A, D]],
        out: "rows 0 0 zero - tied 1=1*0\nrows 1 1 zero - tied -\nrows 2 3 zero - tied 1=1*0\ntogether 0,1 in 3 rows\nalone -\nfree 1 of 4\n",
    },
];

#[test]
fn which_rows_are_looked_at(rt: HostRuntime) -> Result<(), Fail> {
    check_all(&rt, rt.alloc(), &LOOKED_AT)
}

/// Relations of so many times one image.
fn repeated(alloc: Global, count: usize) -> Result<String, Memory> {
    let mut line = String::from_str(alloc, "relations --").map_err(|_| Memory)?;
    for _ in 0..count {
        line.push_str(" a").map_err(|_| Memory)?;
    }
    Ok(line)
}

/// What is put for 64 times one image of one sector.
fn all_equal(alloc: Global) -> Result<String, Memory> {
    let mut text = String::from_str(alloc, "rows 0 0 zero - tied").map_err(|_| Memory)?;
    for image in 1..64u64 {
        let tie = format!(in alloc; " {image}=1*0").map_err(|_| Memory)?;
        text.push_str(tie.as_str()).map_err(|_| Memory)?;
    }
    text.push_str("\ntogether 0").map_err(|_| Memory)?;
    for image in 1..64u64 {
        let next = format!(in alloc; ",{image}").map_err(|_| Memory)?;
        text.push_str(next.as_str()).map_err(|_| Memory)?;
    }
    text.push_str(" in 1 rows\nalone -\nfree 0 of 1\n")
        .map_err(|_| Memory)?;
    Ok(text)
}

#[test]
fn as_many_images_as_may_be(rt: HostRuntime) -> Result<(), Fail> {
    let alloc = rt.alloc();
    let contents = images_of(alloc, &[&[A]])?;
    let text = all_equal(alloc)?;
    let end = End {
        status: 0,
        out: text.as_bytes(),
        notes: b"",
    };
    ends_so(
        &rt,
        alloc,
        repeated(alloc, 64)?.as_str(),
        &contents,
        b"",
        &end,
    )?;
    let end = End {
        status: 4,
        out: b"",
        notes: b"reraid: images: count given 65 planned 64\n",
    };
    ends_so(
        &rt,
        alloc,
        repeated(alloc, 65)?.as_str(),
        &contents,
        b"",
        &end,
    )
}

/// Lines that are refused over two images of two sectors, with the notes of each.
const REFUSED: [(&str, &[u8]); 6] = [
    ("relations --", b"reraid: images: count given 0 planned 2\n"),
    (
        "relations offsets=0+0 -- a",
        b"reraid: images: count given 1 planned 2\n",
    ),
    (
        "relations offsets=0+0+0 -- a b",
        b"reraid: images: offsets given 3 planned 2\n",
    ),
    (
        "relations offsets=7 end=9 -- a b",
        b"reraid: images: offsets given 1 planned 2\n",
    ),
    (
        "relations end=3 -- a b",
        b"reraid: images: end given 3 planned 2\n",
    ),
    (
        "relations offsets=1+0 end=2 -- a b",
        b"reraid: images: end given 2 planned 1\n",
    ),
];

#[test]
fn what_is_refused(rt: HostRuntime) -> Result<(), Fail> {
    let alloc = rt.alloc();
    let contents = images_of(alloc, &[&[A, B], &[A, B]])?;
    for (line, notes) in &REFUSED {
        let end = End {
            status: 4,
            out: b"",
            notes,
        };
        ends_so(&rt, alloc, line, &contents, b"", &end)?;
    }
    Ok(())
}
