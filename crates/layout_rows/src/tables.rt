//! Tables that a user draws: their cells and numbers, their spellings, the texts that spell none, their least periods and their
//! order. What is expected was read off the drawings by hand.
use layout_tables::{Table, TableCell, TableText, parse};
use std::cmp::Ordering;

// Level 5 with a spare that moves.
const MOVING_SPARE: &str = "=0.1.P.-/1.P.-.0/P.-.0.1/-.0.1.P";

// Level 6 with a spare that moves.
const TWO_PARITIES: &str = "=P.Q.0.1.-/1.-.Q.0.P/0.P.1.-.Q";

// Level 0.
const NO_PARITY: &str = "=0.1.2/2.0.1";

// Level 0 with more spares than one in a row.
const TWO_SPARES: &str = "=0.1.-.-/-.-.1.0";

// As many slots as there may be, at level 0 and at level 6.
const SLOTS_24: &str = "=0.1.2.3.4.5.6.7.8.9.10.11.12.13.14.15.16.17.18.19.20.21.22.23";

const SLOTS_24_OF_LEVEL_6: &str = "=21.20.19.18.17.16.15.14.13.12.11.10.9.8.7.6.5.4.3.2.1.0.Q.P";

// Texts with their slots, rows of the period, data items and parities of a row, and slots that are no spares.
static NUMBERS: [(&str, [u8; 5]); 9] = [
    (MOVING_SPARE, [4, 4, 2, 1, 3]),
    (TWO_PARITIES, [5, 3, 2, 2, 4]),
    (NO_PARITY, [3, 2, 3, 0, 3]),
    (TWO_SPARES, [4, 2, 2, 0, 2]),
    ("=P.0.1", [3, 1, 2, 1, 3]),
    ("=0.1", [2, 1, 2, 0, 2]),
    ("=0.1/1.0/0.1", [2, 3, 2, 0, 2]),
    (SLOTS_24, [24, 1, 24, 0, 24]),
    (SLOTS_24_OF_LEVEL_6, [24, 1, 22, 2, 24]),
];

// Texts with their first rows, one byte a slot: small letters are the data items from 10 on.
static DRAWINGS: [(&str, &[&str]); 9] = [
    (
        MOVING_SPARE,
        &["01P-", "1P-0", "P-01", "-01P", "01P-", "1P-0"],
    ),
    (TWO_PARITIES, &["PQ01-", "1-Q0P", "0P1-Q", "PQ01-"]),
    (NO_PARITY, &["012", "201", "012", "201"]),
    (TWO_SPARES, &["01--", "--10", "01--"]),
    ("=P.0.1", &["P01", "P01", "P01"]),
    ("=0.1", &["01", "01"]),
    ("=1.0", &["10", "10"]),
    (
        SLOTS_24,
        &["0123456789abcdefghijklmn", "0123456789abcdefghijklmn"],
    ),
    (SLOTS_24_OF_LEVEL_6, &["lkjihgfedcba9876543210QP"]),
];

/// A row: its number, the slots of its data items, those of P and Q, and the number of its spares.
type Places = (u64, &'static [u8], Option<u8>, Option<u8>, u8);

static PLACES: [(&str, &[Places]); 6] = [
    (
        MOVING_SPARE,
        &[
            (0, &[0, 1], Some(2), None, 1),
            (1, &[3, 0], Some(1), None, 1),
            (2, &[2, 3], Some(0), None, 1),
            (3, &[1, 2], Some(3), None, 1),
            (4, &[0, 1], Some(2), None, 1),
            // 2^32 + 1
            (4_294_967_297, &[3, 0], Some(1), None, 1),
            // 2^64 - 1
            (18_446_744_073_709_551_615, &[1, 2], Some(3), None, 1),
        ],
    ),
    (
        TWO_PARITIES,
        &[
            (0, &[2, 3], Some(0), Some(1), 1),
            (1, &[3, 0], Some(4), Some(2), 1),
            (2, &[0, 2], Some(1), Some(4), 1),
            (3, &[2, 3], Some(0), Some(1), 1),
            // 2^64 - 1 is a multiple of three
            (18_446_744_073_709_551_615, &[2, 3], Some(0), Some(1), 1),
            (18_446_744_073_709_551_614, &[0, 2], Some(1), Some(4), 1),
        ],
    ),
    (
        NO_PARITY,
        &[
            (0, &[0, 1, 2], None, None, 0),
            (1, &[1, 2, 0], None, None, 0),
        ],
    ),
    (
        TWO_SPARES,
        &[(0, &[0, 1], None, None, 2), (1, &[3, 2], None, None, 2)],
    ),
    (
        "=P.0.1",
        &[
            (0, &[1, 2], Some(0), None, 0),
            (18_446_744_073_709_551_615, &[1, 2], Some(0), None, 0),
        ],
    ),
    (
        SLOTS_24_OF_LEVEL_6,
        &[(
            5,
            &[
                21, 20, 19, 18, 17, 16, 15, 14, 13, 12, 11, 10, 9, 8, 7, 6, 5, 4, 3, 2, 1, 0,
            ],
            Some(23),
            Some(22),
            0,
        )],
    ),
];

// Tables that are drawn in an unusual way.
static ALLOWED: [&str; 6] = [
    // a shorter period
    "=0.1.P/0.1.P",
    // a layout with a name
    "=0.1.P/0.P.1/P.0.1",
    // no first item first
    "=1.P.0",
    // a slot that only the last row uses
    "=0.1.-/0.1.-/0.1.-/0.-.1",
    // a slot that only P and Q use
    "=0.1.P.Q/1.0.Q.P",
    // more spares than other slots
    "=0.1.-.-.-/-.-.0.1.-/-.-.-.0.1",
];

// Texts that spell no table, each beside one like it that spells one.
static FAULTS: [(&str, &str); 74] = [
    // fewer than two slots, or than two data items
    ("=0", "=0.1"),
    ("=0/0", "=0.1/0.1"),
    ("=0.P", "=0.1.P"),
    ("=0.P.Q", "=0.1.P.Q"),
    ("=0.-/-.0", "=0.1.-/-.0.1"),
    ("=P.Q", "=0.1.P.Q"),
    // 25 slots
    (
        "=0.1.2.3.4.5.6.7.8.9.10.11.12.13.14.15.16.17.18.19.20.21.22.23.P",
        "=0.1.2.3.4.5.6.7.8.9.10.11.12.13.14.15.16.17.18.19.20.21.22.P",
    ),
    (
        "=0.1.2.3.4.5.6.7.8.9.10.11.12.13.14.15.16.17.18.19.20.P.Q.-.-/-.-.0.1.2.3.4.5.6.7.8.9.10.11.12.13.14.15.16.17.18.19.20.P.Q",
        "=0.1.2.3.4.5.6.7.8.9.10.11.12.13.14.15.16.17.18.19.20.P.Q.-/-.0.1.2.3.4.5.6.7.8.9.10.11.12.13.14.15.16.17.18.19.20.P.Q",
    ),
    // rows of unequal lengths
    ("=0.1.P.-/-.0.1.P/P.0.1", "=0.1.P.-/-.0.1.P/P.0.1.-"),
    ("=0.1.P/0.1.P.-", "=0.1.P/0.1.P"),
    ("=0.1.-/-.1.0/0.1", "=0.1.-/-.1.0/0.1.-"),
    ("=0.1/0.1.-", "=0.1/0.1"),
    ("=0.1.P/0.1", "=0.1.P/0.1.P"),
    ("=0.1/0.1.P", "=0.1/0.1"),
    // leading zeros
    ("=00.1", "=0.1"),
    ("=0.01", "=0.1"),
    ("=0.1.02", "=0.1.2"),
    ("=0.1.P/0.01.P", "=0.1.P/0.1.P"),
    ("=0.1.2.3.4.5.6.7.8.9.010", "=0.1.2.3.4.5.6.7.8.9.10"),
    // a data item twice
    ("=0.0", "=0.1"),
    ("=0.1.0", "=0.1.2"),
    ("=0.1.1.P", "=0.1.2.P"),
    ("=0.1.P/0.0.P", "=0.1.P/0.1.P"),
    ("=0.1.2/0.1.1", "=0.1.2/0.1.2"),
    // a data item missing
    ("=1.2", "=1.0"),
    ("=0.2.P", "=0.1.P"),
    ("=0.1.3", "=0.1.2"),
    ("=0.1.P/1.2.P", "=0.1.P/1.0.P"),
    ("=0.1.23", "=0.1.2"),
    // more data items than in the first row, and fewer
    ("=0.1.-/0.1.2", "=0.1.-/0.-.1"),
    ("=0.1.2/0.1.-", "=0.1.2/0.1.2"),
    ("=0.1.2.P/0.1.-.P", "=0.1.2.P/0.1.2.P"),
    // two P
    ("=0.1.P.P", "=0.1.2.P"),
    ("=0.1.-.P/0.1.P.P", "=0.1.-.P/0.1.P.-"),
    // two Q
    ("=0.1.P.Q.Q", "=0.1.2.P.Q"),
    ("=0.1.P.Q.-/0.1.P.Q.Q", "=0.1.P.Q.-/0.1.P.-.Q"),
    ("=0.1.P.Q/0.1.Q.Q", "=0.1.P.Q/0.1.Q.P"),
    // no P or no Q, if another row has one
    ("=0.1.P/0.1.-", "=0.1.P/0.1.P"),
    ("=0.1.-/0.1.P", "=0.1.P/0.1.P"),
    ("=0.1.P.Q/0.1.P.-", "=0.1.P.Q/0.1.P.Q"),
    ("=0.1.P.-/0.1.P.Q", "=0.1.P.-/0.1.-.P"),
    ("=0.1.P.Q/0.1.-.Q", "=0.1.P.Q/0.1.P.Q"),
    ("=0.1.P/0.1.Q", "=0.1.P/0.1.P"),
    // Q without P
    ("=0.1.Q", "=0.1.P"),
    ("=0.1.2.Q/Q.0.1.2", "=0.1.P.Q/Q.0.1.P"),
    // a slot with only spares
    ("=0.1.-", "=0.1"),
    ("=-.0.1", "=0.1"),
    ("=0.-.1", "=0.1"),
    ("=0.1.P.-/P.1.0.-", "=0.1.P.-/P.1.-.0"),
    ("=-.0.1.P.Q/-.P.Q.0.1", "=-.0.1.P.Q/P.-.Q.0.1"),
    // an empty cell, and an empty row
    ("=", "=0.1"),
    ("=0..1", "=0.1"),
    ("=.0.1", "=0.1"),
    ("=0.1.", "=0.1"),
    ("=0.1.P/0.1.", "=0.1.P/0.1.P"),
    ("=/0.1", "=0.1"),
    ("=0.1/", "=0.1"),
    ("=0.1//1.0", "=0.1/1.0"),
    // no equals sign in front, or two
    ("", "=0.1"),
    ("0.1.P", "=0.1.P"),
    ("==0.1.P", "=0.1.P"),
    (" =0.1.P", "=0.1.P"),
    // what is no cell
    ("=0.1.24", "=0.1.2"),
    ("=0.1.100", "=0.1.2"),
    ("=0.1.p", "=0.1.P"),
    ("=0.1.P.q", "=0.1.P.Q"),
    ("=0.1.R", "=0.1.P"),
    ("=0.1.PQ", "=0.1.P.Q"),
    ("=0.1.--/-.0.1", "=0.1.-/-.0.1"),
    ("=0.+1", "=0.1"),
    ("=0.1.P ", "=0.1.P"),
    ("=0,1,P", "=0.1.P"),
    ("=0.1:1.0", "=0.1/1.0"),
    ("=0.1.:", "=0.1.2"),
];

// Texts with their least periods, and with the spellings of their tables of these periods.
static LEAST: [(&str, u8, &str); 11] = [
    (MOVING_SPARE, 4, MOVING_SPARE),
    (NO_PARITY, 2, NO_PARITY),
    ("=0.1", 1, "=0.1"),
    ("=0.1/0.1", 1, "=0.1"),
    ("=P.0.1/P.0.1/P.0.1", 1, "=P.0.1"),
    ("=0.1.P/P.0.1/0.1.P/P.0.1", 2, "=0.1.P/P.0.1"),
    (
        "=0.1.-/0.-.1/-.0.1/0.1.-/0.-.1/-.0.1",
        3,
        "=0.1.-/0.-.1/-.0.1",
    ),
    // the last row is as the first, but the rows repeat only after three
    ("=0.1.P/P.0.1/0.1.P", 3, "=0.1.P/P.0.1/0.1.P"),
    ("=0.1.P/0.1.P/P.0.1", 3, "=0.1.P/0.1.P/P.0.1"),
    ("=0.1.P/0.1.P/P.0.1/P.0.1", 4, "=0.1.P/0.1.P/P.0.1/P.0.1"),
    (
        "=0.1.P.-/1.P.-.0/P.-.0.1/-.0.1.P/0.1.P.-/1.P.-.0/P.-.0.1/-.0.1.P",
        4,
        MOVING_SPARE,
    ),
];

// Spellings that rise byte by byte: a dash, a full stop, a slash, digits, P and Q.
static RISING: [&str; 15] = [
    "=-.0.1/0.1.-",
    "=0.1",
    "=0.1.-/-.0.1",
    "=0.1.2",
    "=0.1.P",
    "=0.1.P.Q",
    "=0.1.P/0.1.P",
    "=0.1.Q.P",
    "=0.1/0.1",
    "=0.1/1.0",
    "=1.0",
    "=10.0.1.2.3.4.5.6.7.8.9",
    "=2.0.1",
    "=P.0.1",
    "=Q.P.0.1",
];

// What stands for a cell in a drawing.
fn drawn(cell: TableCell) -> u8 {
    match cell {
        TableCell::Item(item) if item < 10 => b'0' + item,
        TableCell::Item(item) if item < 24 => b'a' + (item - 10),
        TableCell::Item(_) => b'?',
        TableCell::P => b'P',
        TableCell::Q => b'Q',
        TableCell::Spare => b'-',
    }
}

// Whether a row of a table has these cells, and no more.
fn has_cells(table: &Table, row: u64, cells: &[u8]) -> bool {
    let slots = table.slots();
    for slot in 0..slots {
        if cells.get(slot as usize).copied() != Some(drawn(table.cell(row, slot))) {
            return false;
        }
    }
    cells.len() == slots as usize
}

// Whether the first rows of a table are those of the drawing.
fn is_drawn(text: &str, rows: &[&str]) -> bool {
    let Some(table) = parse(text.as_bytes()) else {
        return false;
    };
    for at in 0..rows.len() {
        if !has_cells(&table, at as u64, rows[at].as_bytes()) {
            return false;
        }
    }
    true
}

// Whether the data items of a row have these slots, and there are no more of them.
fn has_items(table: &Table, row: u64, slots: &[u8]) -> bool {
    let items = table.items();
    for item in 0..items {
        if slots.get(item as usize).copied() != Some(table.slot_of_item(row, item)) {
            return false;
        }
    }
    slots.len() == items as usize
}

// Whether a row is as its places say.
fn is_placed(text: &str, places: &Places) -> bool {
    let Some(table) = parse(text.as_bytes()) else {
        return false;
    };
    let (row, items, p, q, spares) = *places;
    has_items(&table, row, items)
        && table.p_slot(row) == p
        && table.q_slot(row) == q
        && table.spares(row) == spares
}

// The numbers of the table of a text.
fn numbers(text: &str) -> Option<[u8; 5]> {
    let table = parse(text.as_bytes())?;
    Some([
        table.slots(),
        table.period(),
        table.items(),
        table.parities(),
        table.used(),
    ])
}

fn is_spelled(table: &Table, text: &[u8]) -> bool {
    table.spell().as_slice() == text
}

// Whether a text spells a table, which spells this text.
fn is_spelled_back(text: &[u8]) -> bool {
    match parse(text) {
        Some(table) => is_spelled(&table, text),
        None => false,
    }
}

// Whether this is the least period of a table, and that its spelling with this period.
fn has_least_period(text: &[u8], period: u8, reduced: &[u8]) -> bool {
    match parse(text) {
        Some(table) => {
            let first = table.reduced();
            table.least_period() == period
                && first.period() == period
                && first.least_period() == period
                && is_spelled(&first, reduced)
        }
        None => false,
    }
}

// How the tables of two texts compare.
fn order(text: &str, other: &str) -> Option<Ordering> {
    let table = parse(text.as_bytes())?;
    let next = parse(other.as_bytes())?;
    Some(table.compare(&next))
}

// Rows of three slots with P on each in turn, and a slash in front.
const TURNS: [[u8; 6]; 3] = [*b"/P.0.1", *b"/0.P.1", *b"/0.1.P"];

// The text of so many of these rows.
fn turns(rows: u8) -> TableText {
    let mut text = TableText::new();
    for at in 0..6 * rows as usize {
        let byte = TURNS[at / 6 % 3][at % 6];
        let _ = text.try_push(if at == 0 { b'=' } else { byte });
    }
    text
}

// The slot of P in a row of such a table, whose period has 64 rows.
fn turned_p(row: u64) -> Option<u8> {
    let text = turns(64);
    parse(text.as_slice())?.p_slot(row)
}

// The longest text: 64 rows of 24 data items, each row beginning with the next item.
fn longest() -> TableText {
    let mut text = TableText::new();
    for at in 0..1536u64 {
        let (row, slot) = (at / 24, at % 24);
        let item = ((row + slot) % 24) as u8;
        let _ = text.try_push(if at == 0 {
            b'='
        } else if slot == 0 {
            b'/'
        } else {
            b'.'
        });
        if item > 9 {
            let _ = text.try_push(b'0' + item / 10);
        }
        let _ = text.try_push(b'0' + item % 10);
    }
    text
}

#[test]
fn cells(rt: HostRuntime) {
    for (text, rows) in &DRAWINGS {
        assert!(rt; is_drawn(text, rows), "{text}");
    }
}

#[test]
fn slots_of_cells(rt: HostRuntime) {
    for (text, rows) in &PLACES {
        for places in *rows {
            assert!(rt; is_placed(text, places), "{text}, row {}", places.0);
        }
    }
}

#[test]
fn counts(rt: HostRuntime) {
    for (text, five) in &NUMBERS {
        assert_eq!(rt; numbers(text), Some(*five), "{text}");
    }
}

#[test]
fn faults(rt: HostRuntime) {
    for (text, mended) in &FAULTS {
        assert!(rt; parse(text.as_bytes()).is_none(), "{text}");
        assert!(rt; is_spelled_back(mended.as_bytes()), "{mended}");
    }
}

#[test]
fn spelled_back(rt: HostRuntime) {
    for text in &ALLOWED {
        assert!(rt; is_spelled_back(text.as_bytes()), "{text}");
    }
    for (text, _) in &NUMBERS {
        assert!(rt; is_spelled_back(text.as_bytes()), "{text}");
    }
}

#[test]
fn bytes_of_no_cell(rt: HostRuntime) {
    // the bytes that a table keeps for cells, and bytes beyond ASCII
    assert!(rt; parse(b"=\x00.\x01").is_none());
    assert!(rt; parse(b"=0.1.\x18").is_none());
    assert!(rt; parse(b"=0.1.\x18.\x19").is_none());
    assert!(rt; parse(b"=0.1.-/0.\x1a.1").is_none());
    assert!(rt; parse(b"=0.1.P\x00").is_none());
    assert!(rt; parse(b"=0.1.P\n").is_none());
    assert!(rt; parse(b"=0.1.\xb2").is_none());
}

#[test]
fn least_periods(rt: HostRuntime) {
    for (text, period, reduced) in &LEAST {
        let least = has_least_period(text.as_bytes(), *period, reduced.as_bytes());
        assert!(rt; least, "{text}");
    }
}

#[test]
fn rows_up_to_64(rt: HostRuntime) {
    let (three, many) = (turns(3), turns(64));
    assert_eq!(rt; three.as_slice(), b"=P.0.1/0.P.1/0.1.P".as_slice());
    // 64 is no multiple of three, so no fewer rows repeat; 63 is one
    assert!(rt; has_least_period(many.as_slice(), 64, many.as_slice()));
    assert!(rt; has_least_period(turns(63).as_slice(), 3, three.as_slice()));
    assert!(rt; parse(turns(65).as_slice()).is_none());
    for (row, slot) in [
        (0, 0),
        (1, 1),
        (2, 2),
        (62, 2),
        (63, 0),
        (64, 0),
        (65, 1),
        (127, 0),
    ] {
        assert_eq!(rt; turned_p(row), Some(slot), "row {row}");
    }
    // the last two rows of all: the number of the last is 63 more than a multiple of 64
    assert_eq!(rt; turned_p(18_446_744_073_709_551_615), Some(0));
    assert_eq!(rt; turned_p(18_446_744_073_709_551_614), Some(2));
}

#[test]
fn the_longest_text(rt: HostRuntime) {
    let text = longest();
    // a row has 38 digits, and a byte before each of its 24 cells
    assert_eq!(rt; text.len(), 3968);
    assert!(rt; is_spelled_back(text.as_slice()));
    assert!(rt; has_least_period(text.as_slice(), 64, text.as_slice()));
}

#[test]
fn rising(rt: HostRuntime) {
    for at in 0..RISING.len() {
        for next in 0..RISING.len() {
            let (text, other) = (RISING[at], RISING[next]);
            assert_eq!(rt; order(text, other), Some(at.cmp(&next)), "{text} {other}");
        }
    }
}
