//! The first rows of arrays of four members and the rows of mirrors, as docs/LAYOUTS.md draws them, and the names of
//! layouts. The drawings are written out by hand there, and not made by a crate.
ghost use Rattle.std.specs.Prelude.{◌≡◌};

use near_mirror::{CopyLayout, Copying, NearHead};
use raid_layouts::{SlotRole, md_name, role};
use raid_params::{Head, Level, Pattern, Syndrome};

// Four rows of four slots: data items by their numbers, P and Q.
type Drawing = [u8; 19];

// Six rows of them.
type LongDrawing = [u8; 29];

// At level 5.
const LEVEL_5: [(Pattern, &Drawing); 6] = [
    (Pattern::La, b"012P 01P2 0P12 P012"),
    (Pattern::Ra, b"P012 0P12 01P2 012P"),
    (Pattern::Ls, b"012P 12P0 2P01 P012"),
    (Pattern::Rs, b"P012 2P01 12P0 012P"),
    (Pattern::ParityFirst, b"P012 P012 P012 P012"),
    (Pattern::ParityLast, b"012P 012P 012P 012P"),
];

// At level 6, those with Q in the last slot after the others.
const LEVEL_6: [(Pattern, Syndrome, &Drawing); 13] = [
    (Pattern::La, Syndrome::AfterQ, b"Q01P 01PQ 0PQ1 PQ01"),
    (Pattern::Ra, Syndrome::AfterQ, b"PQ01 0PQ1 01PQ Q01P"),
    (Pattern::Ls, Syndrome::AfterQ, b"Q01P 01PQ 1PQ0 PQ01"),
    (Pattern::Rs, Syndrome::AfterQ, b"PQ01 1PQ0 01PQ Q01P"),
    (Pattern::NRestart, Syndrome::BySlot, b"01PQ 0PQ1 PQ01 Q01P"),
    (Pattern::NContinue, Syndrome::BySlot, b"01QP 1QP0 QP01 P01Q"),
    (
        Pattern::ParityFirst,
        Syndrome::AfterQ,
        b"PQ01 PQ01 PQ01 PQ01",
    ),
    (
        Pattern::ParityLast,
        Syndrome::AfterQ,
        b"01PQ 01PQ 01PQ 01PQ",
    ),
    (Pattern::La6, Syndrome::AfterQ, b"01PQ 0P1Q P01Q 01PQ"),
    (Pattern::Ra6, Syndrome::AfterQ, b"P01Q 0P1Q 01PQ P01Q"),
    (Pattern::Ls6, Syndrome::AfterQ, b"01PQ 1P0Q P01Q 01PQ"),
    (Pattern::Rs6, Syndrome::AfterQ, b"P01Q 1P0Q 01PQ P01Q"),
    (
        Pattern::ParityFirst6,
        Syndrome::AfterQ,
        b"P01Q P01Q P01Q P01Q",
    ),
];

// With a delay of two rows: at level 6 the rows are those of `La`, a turn further on.
const DELAYED: [(Level, Pattern, Syndrome, &LongDrawing); 3] = [
    (
        Level::Raid5,
        Pattern::La,
        Syndrome::NoQ,
        b"012P 012P 01P2 01P2 0P12 0P12",
    ),
    (
        Level::Raid5,
        Pattern::Rs,
        Syndrome::NoQ,
        b"P012 P012 2P01 2P01 12P0 12P0",
    ),
    (
        Level::Raid6,
        Pattern::NRestart,
        Syndrome::BySlot,
        b"01PQ 01PQ 0PQ1 0PQ1 PQ01 PQ01",
    ),
];

// What stands for a role in a drawing.
fn drawn(role: SlotRole) -> u8 {
    match role {
        SlotRole::Block(item) if item < 10 => b'0' + item,
        SlotRole::Block(_) => b'?',
        SlotRole::P => b'P',
        SlotRole::Q => b'Q',
    }
}

// The head of four members of one sector a chunk.
fn four_members(level: Level, pattern: Pattern, delay: u64, syndrome: Syndrome) -> Head
    ensures { result.members ≡ 4 }
{
    Head {
        level,
        members: 4,
        pattern,
        delay,
        syndrome,
        chunk: 1,
        offset: 0,
    }
}

// Whether the first rows of four members are those of the drawing, in which a space stands behind each row.
fn is_drawn(head: &Head, drawing: &[u8]) -> bool
    requires { head.now.members ≡ 4 }
{
    if !head.is_valid() {
        return false;
    }
    for at in 0..drawing.len() {
        let slot = at % 5;
        let cell = if slot < 4 {
            drawn(role(head, (at / 5) as u64, slot as u8))
        } else {
            b' '
        };
        if cell != drawing[at] {
            return false;
        }
    }
    true
}

// The most cells of a drawing of a mirror.
const CELLS: usize = 16;

// What stands for a chunk of the volume in a drawing.
fn digit(chunk: u64) -> u8 {
    if chunk < 10 { b'0' + chunk as u8 } else { b'?' }
}

// Whether the cells of a mirror of so many members and rows, of one sector a chunk, are those of the drawing: in each the number of
// its chunk, or a dash where the cell is no part of the volume.
fn are_copies_drawn(copying: Copying, copies: u8, members: u8, rows: u64, drawing: &[u8]) -> bool {
    let head = NearHead {
        members,
        chunk: 1,
        offset: 0,
        layout: CopyLayout { copying, copies },
    };
    if !head.is_valid() || rows > CELLS as u64 {
        return false;
    }
    let mut cells = [b'-'; CELLS];
    for chunk in 0..CELLS as u64 {
        for copy in 0..copies {
            if let Some(place) = head.copy_place(rows, copy, chunk) {
                let row = (place.sector as usize).min(CELLS);
                if let Some(cell) = cells.get_mut(row * members as usize + place.slot as usize) {
                    *cell = digit(chunk);
                }
            }
        }
    }
    cells.starts_with(drawing) && drawing.len() as u64 == rows * members as u64
}

// How chunks are copied, how often, the members, the rows, and a drawing that is theirs or not.
type Copies = (Copying, u8, u8, u64, &'static [u8], bool);

static COPIES: [Copies; 12] = [
    (Copying::Near, 2, 4, 3, b"001122334455", true),
    (Copying::Near, 2, 3, 4, b"001122334455", true),
    // the last of an odd number of cells is no part
    (Copying::Near, 2, 3, 3, b"00112233-", true),
    (Copying::Near, 2, 3, 3, b"001122334", false),
    (Copying::Near, 3, 4, 3, b"000111222333", true),
    (Copying::Far, 2, 2, 4, b"01231032", true),
    (Copying::Far, 2, 3, 4, b"012345201534", true),
    // an odd number of rows
    (Copying::Far, 2, 4, 3, b"01233012----", true),
    (Copying::Far, 3, 3, 3, b"012201120", true),
    (Copying::Offset, 2, 3, 4, b"012201345534", true),
    (Copying::Offset, 2, 4, 3, b"01233012----", true),
    (Copying::Offset, 3, 4, 3, b"012330122301", true),
];

#[test]
fn rows_of_copies(rt: HostRuntime) {
    for (copying, copies, members, rows, drawing, drawn) in &COPIES {
        let are = are_copies_drawn(*copying, *copies, *members, *rows, drawing);
        assert_eq!(rt;
            are,
            *drawn,
            "{copies} copies, {members} members, {rows} rows"
        );
    }
}

#[test]
fn rows_of_level_0(rt: HostRuntime) {
    let drawing = b"0123 0123 0123 0123";
    let head = four_members(Level::Raid0, Pattern::Plain, 1, Syndrome::NoQ);
    assert!(rt; is_drawn(&head, drawing));
}

#[test]
fn rows_of_level_5(rt: HostRuntime) {
    for i in 0..LEVEL_5.len() {
        let (pattern, drawing) = LEVEL_5[i];
        let head = four_members(Level::Raid5, pattern, 1, Syndrome::NoQ);
        assert!(rt; is_drawn(&head, drawing), "drawing {i}");
    }
}

#[test]
fn rows_of_level_6(rt: HostRuntime) {
    for i in 0..LEVEL_6.len() {
        let (pattern, syndrome, drawing) = LEVEL_6[i];
        let head = four_members(Level::Raid6, pattern, 1, syndrome);
        assert!(rt; is_drawn(&head, drawing), "drawing {i}");
    }
}

#[test]
fn rows_with_a_delay(rt: HostRuntime) {
    for i in 0..DELAYED.len() {
        let (level, pattern, syndrome, drawing) = DELAYED[i];
        let head = four_members(level, pattern, 2, syndrome);
        assert!(rt; is_drawn(&head, drawing), "drawing {i}");
    }
}

#[test]
fn delays_have_limits(rt: HostRuntime) {
    for (pattern, delay, valid) in [
        (Pattern::La, 0, false),
        (Pattern::La, 1024, true),
        (Pattern::La, 1025, false),
        (Pattern::ParityFirst, 1, true),
        (Pattern::ParityFirst, 2, false),
        (Pattern::ParityLast, 2, false),
    ] {
        let head = four_members(Level::Raid5, pattern, delay, Syndrome::NoQ);
        assert!(rt; head.is_valid() == valid, "a delay of {delay}");
    }
}

#[test]
fn names(rt: HostRuntime) {
    assert!(rt;
        md_name(Level::Raid6, Pattern::NRestart, Syndrome::BySlot) == Some("ddf-N-restart")
    );
    assert!(rt; md_name(Level::Raid6, Pattern::Ra, Syndrome::BySlot) == Some("ddf-zero-restart"));
    assert!(rt; md_name(Level::Raid6, Pattern::Ra, Syndrome::AfterQ) == Some("right-asymmetric"));
    assert!(rt; md_name(Level::Raid6, Pattern::NRestart, Syndrome::AfterQ).is_none());
}
