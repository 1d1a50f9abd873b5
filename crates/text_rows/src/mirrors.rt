//! Words of mirrors, the rules that sets of them break, and where their copies lie, found by hand.
use near_mirror::{NearRule, NearSet, near_line, read_near};
use std::process::Abort;
use std::test::Fail;

/// Texts that are no near words.
static REFUSED: [&[u8]; 23] = [
    b"",
    b"near2",
    b"near2:1:0",
    b"near2:1:0:",
    b"near:1:0:0,1",
    b"near1:1:0:0,1",
    b"near5:1:0:0,1",
    b"near02:1:0:0,1",
    b"near22:1:0:0,1",
    b"far:1:0:0,1",
    b"far1:1:0:0,1",
    b"offset5:1:0:0,1",
    b"2:1:0:0,1",
    b"Near2:1:0:0,1",
    b"near2:01:0:0,1",
    b"near2:4294967296:0:0,1",
    b"near2:1:36028797018963968:0,1",
    b"near2:1:0:0,24",
    b"near2:1:0:0,,1",
    b"near2:1:0:0,1,",
    b"near2:1:0:0,1:",
    b"near2:1:0:0,1 ",
    b"near2:1:0:0,0,0,0,0,0,0,0,0,0,0,0,0,0,0,0,0,0,0,0,0,0,0,0,0",
];

#[test]
fn other_texts_are_no_near_words(rt: HostRuntime) {
    for text in &REFUSED {
        assert!(rt; read_near(text).is_none());
    }
}

/// Near words with the first rule that each breaks over three images that end before sector 2.
static RULES: [(&[u8], Option<NearRule>); 24] = [
    (b"near2:1:0:0,1,2", None),
    (b"near2:2:0:0,1", None),
    (b"near2:1:1:0,-,1", None),
    (b"near2:1:0:0", Some(NearRule::Members(1))),
    (b"near2:3:0:0", Some(NearRule::Members(1))),
    (b"near2:0:0:0,1", Some(NearRule::Chunk(0))),
    (b"near2:65536:0:0,1", Some(NearRule::Chunk(65536))),
    (b"near2:1:0:0,0,4,3", Some(NearRule::Image(4))),
    (b"near2:1:0:0,1,1,0", Some(NearRule::Repeat(1))),
    (b"near2:1:0:0,-,-", Some(NearRule::Missing(2))),
    (b"near2:4:0:0,1", Some(NearRule::NoRow(0))),
    (b"near2:1:2:0,1", Some(NearRule::NoRow(2))),
    (b"near2:1:0:-,2,-,0,1", None),
    (b"near2:1:0:-,-,2,0,1", Some(NearRule::Missing(2))),
    (b"near2:4:0:0,-,1,-", Some(NearRule::Missing(2))),
    (b"near3:1:0:0,1", Some(NearRule::Members(2))),
    (b"near3:1:0:-,0,-,1", None),
    (b"near3:1:0:0,-,-,-,-", Some(NearRule::NoCopy(2))),
    (b"near3:4:0:-,-,-", Some(NearRule::NoRow(0))),
    (b"far2:1:0:-,0,-,1", None),
    (b"far2:1:0:0,-,-,1", Some(NearRule::NoCopy(1))),
    (b"far2:2:0:0,1", Some(NearRule::NoRow(0))),
    (b"offset2:1:0:-,0,1", None),
    (b"offset2:1:0:0,1,-,-", Some(NearRule::NoCopy(2))),
];

#[test]
fn the_first_broken_rule_is_told(rt: HostRuntime) -> Result<(), Fail> {
    for (word, broken) in &RULES {
        let set = read_near(word).ok_or("a near word")?;
        assert_eq!(rt; set.validate(3, 2).err(), *broken);
    }
    Ok(())
}

#[test]
fn a_mirror_is_written_with_its_rank(rt: HostRuntime) -> Result<(), Fail> {
    let set = read_near(b"near2:128:2048:11,-,0").ok_or("a near word")?;
    let line = near_line(rt.alloc(), 7, &set)?;
    assert!(rt; line.as_slice() == b"7 near2:128:2048:11,-,0\n".as_slice());
    let set = read_near(b"offset4:128:2048:11,-,0").ok_or("a near word")?;
    let line = near_line(rt.alloc(), 7, &set)?;
    assert!(rt; line.as_slice() == b"7 offset4:128:2048:11,-,0\n".as_slice());
    Ok(())
}

/// Where the sectors of a volume are read, as slot and member sector.
fn homes<R: Abort>(rt: &R, word: &[u8], places: &[(u8, u64)]) -> Result<(), Fail> {
    let set: NearSet = read_near(word).ok_or("a near word")?;
    assert!(rt; set.validate(4, 2).is_ok());
    for v in 0..places.len() {
        let home = set.home(2, v as u64).ok_or("a sector of the volume")?;
        assert_eq!(rt; (home.slot, home.sector), places[v]);
    }
    assert!(rt; set.home(2, places.len() as u64).is_none());
    Ok(())
}

#[test]
fn sectors_are_read_from_their_homes(rt: HostRuntime) -> Result<(), Fail> {
    homes(&rt, b"near2:1:0:0,1,2,3", &[(0, 0), (2, 0), (0, 1), (2, 1)])?;
    homes(&rt, b"near2:1:0:0,1,2", &[(0, 0), (2, 0), (1, 1)])?;
    homes(&rt, b"near2:1:0:0,-,1", &[(0, 0), (2, 0), (2, 1)])?;
    homes(&rt, b"near2:1:0:-,0,1", &[(1, 0), (2, 0), (1, 1)])?;
    homes(&rt, b"near2:2:0:0,1,2", &[(0, 0), (0, 1)])?;
    homes(
        &rt,
        b"near2:1:0:-,2,-,0,1",
        &[(1, 0), (3, 0), (4, 0), (1, 1), (3, 1)],
    )?;
    homes(&rt, b"near3:1:0:-,0,-,1", &[(1, 0), (3, 0)])?;
    homes(&rt, b"far2:1:0:-,0,1,2", &[(1, 1), (1, 0), (2, 0), (3, 0)])?;
    homes(&rt, b"far2:1:0:0,-,1", &[(0, 0), (2, 1), (2, 0)])?;
    homes(&rt, b"offset2:1:0:0,-,1", &[(0, 0), (2, 1), (2, 0)])
}
