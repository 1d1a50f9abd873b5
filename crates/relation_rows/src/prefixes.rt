//! Which prefixes of slots two rows let begin a set. What is wanted was worked out by hand from the equations of the rows: each
//! sector is a sum of generated ones, of which no sum is zeros.
ghost use Rattle.std.specs.Prelude.{◌≡◌, IfOk, length};
ghost use Rattle.std.specs.Bool.{Decides};
ghost use Rattle.relation_prefix.specs.Ties.{AreThere};

use crate::sectors::{A, AB, B, C, D, NONE, Terms, row_of};
use raid_params::{Head, Level, Pattern, Syndrome};
use relation_prefix::{HeadRelations, PrefixTest, RowTies, SampledRows};
use row_relations::RowTable;
use std::alloc::Global;
use std::process::Abort;
use std::test::Fail;

/// The parity P of three data blocks.
const ABC: Terms = &[(1, 1), (1, 2), (1, 3)];
/// Q of two.
const QAB: Terms = &[(1, 1), (2, 2)];

/// Four members of RAID 6, P on the third slot and Q on the last one: their weights are 1, 1, 1, 0 in P's equation and 1, 2, 0, 1 in
/// Q's.
const SIX: Head = Head {
    level: Level::Raid6,
    members: 4,
    pattern: Pattern::ParityLast,
    delay: 1,
    syndrome: Syndrome::ByData,
    chunk: 1,
    offset: 0,
};

/// Three members of RAID 5.
const FIVE: Head = Head {
    level: Level::Raid5,
    members: 3,
    pattern: Pattern::ParityLast,
    delay: 1,
    syndrome: Syndrome::NoQ,
    chunk: 1,
    offset: 0,
};

/// Keeps the row of a table.
fn keep(kept: &mut SampledRows, row: u64, table: &RowTable) -> Result<(), Fail>
    requires { length table.now.standings ≡ kept.old.images }
    ensures { kept.new.images ≡ kept.old.images }
{
    if let Some(ties) = RowTies::of(table) {
        kept.keep(row, &ties)?;
    }
    Ok(())
}

/// Two rows of images, kept.
fn both_kept<R: Abort>(
    rt: &R,
    alloc: Global,
    images: usize,
    first: &[u8],
    second: &[u8],
) -> Result<SampledRows, Fail>
    ensures { IfOk result (λ kept. kept.images ≡ images) }
{
    assert!(rt; images <= 64);
    let mut kept = SampledRows::new(alloc, images);
    let mut table = RowTable::new(alloc, images)?;
    assert!(rt; first.len() == 512 * table.images());
    table.fill(first);
    keep(&mut kept, 0, &table)?;
    assert!(rt; second.len() == 512 * table.images());
    table.fill(second);
    keep(&mut kept, 1, &table)?;
    assert!(rt; kept.count() == 2);
    Ok(kept)
}

/// Whether each slot holds none or one of the first `images` images.
fn are_there(images: usize, slots: &[Option<u8>]) -> bool
    ensures { Decides result (AreThere images slots.now) }
{
    for slot in 0..slots.len() {
        if let Some(image) = slots[slot] {
            if image as usize >= images {
                return false;
            }
        }
    }
    true
}

/// Looks whether two rows of four sectors let these slots begin a set, or do not.
fn tells<R: Abort>(
    rt: &R,
    alloc: Global,
    rows: [&[Terms]; 2],
    test: &PrefixTest,
    slots: &[Option<u8>],
    wanted: bool,
) -> Result<(), Fail> {
    let images = rows[0].len();
    let first = row_of(alloc, rows[0])?;
    let second = row_of(alloc, rows[1])?;
    let kept = both_kept(rt, alloc, images, &first, &second)?;
    assert!(rt; test.head.is_valid() && slots.len() <= test.head.members as usize);
    assert!(rt; are_there(images, slots));
    let relations = HeadRelations::new(alloc, &kept, test)?;
    assert!(rt; relations.may_begin(slots) == wanted);
    Ok(())
}

/// What is asked of both rows, where none may be unsound.
fn both(head: Head, missing: u8) -> PrefixTest {
    PrefixTest {
        head,
        tested: 2,
        badrows: 0,
        missing,
    }
}

// Of the order 1, 0 P's equation may hold, and Q's with any third image but P's: 2 A + B is no sum that P takes part in.
#[test]
fn no_slot_lost(rt: HostRuntime) -> Result<(), Fail> {
    let rows: [&[Terms]; 2] = [&[A, B, AB, QAB], &[A, B, AB, QAB]];
    let test = both(SIX, 0);
    let alloc = rt.alloc();
    tells(&rt, alloc, rows, &test, &[], true)?;
    tells(&rt, alloc, rows, &test, &[Some(1), Some(0)], true)?;
    tells(&rt, alloc, rows, &test, &[Some(1), Some(0), Some(2)], false)?;
    tells(&rt, alloc, rows, &test, &[Some(0), Some(1), Some(2)], true)?;
    let whole = [Some(0), Some(1), Some(2), Some(3)];
    tells(&rt, alloc, rows, &test, &whole, true)
}

// P is lost: A + 2 B + Q is the only relation. With the images of A and B exchanged no slot may be the lost one.
#[test]
fn a_slot_lost(rt: HostRuntime) -> Result<(), Fail> {
    let rows: [&[Terms]; 2] = [&[A, B, QAB], &[A, B, QAB]];
    let test = both(SIX, 1);
    let alloc = rt.alloc();
    tells(&rt, alloc, rows, &test, &[Some(0), Some(1)], true)?;
    tells(&rt, alloc, rows, &test, &[Some(1), Some(0)], false)?;
    tells(
        &rt,
        alloc,
        rows,
        &test,
        &[Some(0), Some(1), None, Some(2)],
        true,
    )?;
    tells(
        &rt,
        alloc,
        rows,
        &test,
        &[Some(0), Some(1), Some(2), None],
        false,
    )?;
    let none_lost = both(SIX, 0);
    tells(&rt, alloc, rows, &none_lost, &[Some(0), Some(1)], false)
}

// At most one may be lost, and none is.
#[test]
fn none_of_one_lost(rt: HostRuntime) -> Result<(), Fail> {
    let rows: [&[Terms]; 2] = [&[A, B, AB, QAB], &[A, B, AB, QAB]];
    let whole = [Some(0), Some(1), Some(2), Some(3)];
    tells(&rt, rt.alloc(), rows, &both(SIX, 1), &whole, true)
}

// The fifth image takes part in the parity of the first three. As long as slots are to come it may be one of them.
#[test]
fn a_foreign_image(rt: HostRuntime) -> Result<(), Fail> {
    let rows: [&[Terms]; 2] = [&[A, B, ABC, QAB, C], &[A, B, ABC, QAB, C]];
    let test = both(SIX, 0);
    let alloc = rt.alloc();
    tells(&rt, alloc, rows, &test, &[Some(0), Some(1), Some(2)], true)?;
    let whole = [Some(0), Some(1), Some(2), Some(3)];
    tells(&rt, alloc, rows, &test, &whole, false)?;
    let others: [&[Terms]; 2] = [&[A, B, AB, QAB, C], &[A, B, AB, QAB, D]];
    tells(&rt, alloc, others, &test, &whole, true)
}

// The second row is unsound: it refuses where it is tested, unless one may be unsound.
#[test]
fn a_row_that_is_unsound(rt: HostRuntime) -> Result<(), Fail> {
    let rows: [&[Terms]; 2] = [&[A, B, AB], &[A, B, C]];
    let whole = [Some(0), Some(1), Some(2)];
    let alloc = rt.alloc();
    let strict = both(FIVE, 0);
    tells(&rt, alloc, rows, &strict, &whole, false)?;
    let mut lenient = strict;
    lenient.badrows = 1;
    tells(&rt, alloc, rows, &lenient, &whole, true)?;
    let mut short = strict;
    short.tested = 1;
    tells(&rt, alloc, rows, &short, &whole, true)
}

// With as many slots lost as the level survives nothing is tested, and rows of zeros refuse nothing.
#[test]
fn what_tells_nothing(rt: HostRuntime) -> Result<(), Fail> {
    let alloc = rt.alloc();
    let rows: [&[Terms]; 2] = [&[A, B], &[B, A]];
    tells(
        &rt,
        alloc,
        rows,
        &both(FIVE, 1),
        &[Some(1), Some(0), None],
        true,
    )?;
    tells(&rt, alloc, rows, &both(FIVE, 0), &[Some(1)], false)?;
    let blank: [&[Terms]; 2] = [&[NONE, NONE, NONE], &[NONE, NONE, NONE]];
    tells(
        &rt,
        alloc,
        blank,
        &both(FIVE, 0),
        &[Some(2), Some(0), Some(1)],
        true,
    )
}
