//! Plans and sets in which each image has an offset of its own, and the later kinds of groups.
use plan_text::{
    PlanFault, Text, read_common_set, read_plan, read_set, set_line, write_plan, write_set,
};
use std::alloc::Global;
use std::process::Abort;
use std::test::Fail;

/// The words of sets: their bases, and the offset that is the greatest of them.
static BASES: [(&[u8], &[u64], u64); 5] = [
    (b"5:ls:none:1:1+0+0:0,1,2", &[1, 0, 0], 1),
    (b"5:ls:none:1:0+0:0,1,2", &[0, 0], 0),
    (b"0:plain:none:8:2048+7+2049:0,-", &[2048, 7, 2049], 2049),
    (
        b"0:plain:none:8:0+18014398509481983:0,1",
        &[0, 18014398509481983],
        18014398509481983,
    ),
    (
        b"0:plain:none:8:36028797018963967:0,1",
        &[],
        36028797018963967,
    ),
];

#[test]
fn bases_are_read_and_written(rt: HostRuntime) -> Result<(), Fail> {
    for (word, bases, offset) in &BASES {
        let set = read_set(word).ok_or("a set")?;
        assert_eq!(rt; set.bases.as_slice(), *bases);
        assert_eq!(rt; set.geo.head.offset, *offset);
        let again = write_set(rt.alloc(), &set)?;
        assert_eq!(rt; again.as_slice(), *word);
    }
    Ok(())
}

#[test]
fn a_set_with_bases_is_written_with_its_rank(rt: HostRuntime) -> Result<(), Fail> {
    let set = read_set(b"5:ls:none:1:1+0+0:0,1,2").ok_or("a set")?;
    let line = set_line(rt.alloc(), 24, &set)?;
    assert_eq!(rt; line.as_slice(), b"24 5:ls:none:1:1+0+0:0,1,2\n".as_slice());
    Ok(())
}

/// Words whose offset is none.
static NO_OFFSETS: [&[u8]; 8] = [
    b"0:plain:none:8:36028797018963968:0,1",
    b"0:plain:none:8:0+18014398509481984:0,1",
    b"0:plain:none:8:1+:0,1",
    b"0:plain:none:8:+1:0,1",
    b"0:plain:none:8:1++1:0,1",
    b"0:plain:none:8:1+01:0,1",
    b"0:plain:none:8:1,1:0,1",
    b"0:plain:none:8:0+0+0+0+0+0+0+0+0+0+0+0+0+0+0+0+0+0+0+0+0+0+0+0+0:0,1",
];

#[test]
fn other_offsets_are_refused(rt: HostRuntime) -> Result<(), Fail> {
    for word in &NO_OFFSETS {
        assert!(rt; read_set(word).is_none());
    }
    Ok(())
}

#[test]
fn a_common_offset_is_one_number(rt: HostRuntime) -> Result<(), Fail> {
    assert!(rt; read_common_set(b"5:ls:none:1:7:0,1,2").is_some_and(|geo| geo.head.offset == 7));
    assert!(rt; read_common_set(b"5:ls:none:1:0+0+0:0,1,2").is_none());
    Ok(())
}

/// A plan over three images of three sectors, each with an offset of its own.
const APART: &[u8] =
    b"reraid-plan 2\nimages 3\nlength 3\nlength 3\nlength 3\nend 3\nlevels 5\nmembers 3\npatterns ls\nsyndromes none\nchunks 1\noffsets 0,1\norigins 0\nmissing 0\nforeign 0\nbadrows 0\nwindow 2\nmisfits 0\nleast 1\ndone\n";

/// A plan with the kinds of groups that come after XFS.
const LATER_GROUPS: &[u8] =
    b"reraid-plan 1\nimages 1\nlength 18014398509481984\nend 0\nlevels 0\nmembers 2\npatterns plain\nsyndromes none\nchunks 8\noffsets 18014398509481984\norigins 0\nmissing 1\nforeign 1\nbadrows 0\nwindow 1\nmisfits 0\nleast 1\ngroup xfs\ngroup btrfs\nmark btrfs 0 130 at:128\ngroup btrfs\ngroup lvm\nmark lvm 0 3 at:1\ngroup ext\nmark ext 0 5 either:2:4\ndone\n";

/// The lines before the groups of a plan of version 3: 18 of them.
const THIRD: &[u8] =
    b"reraid-plan 3\nmode common\nimages 1\nlength 5000\nend 5000\nlevels 0\nmembers 2\npatterns plain\nsyndromes none\nchunks 8\noffsets 0\norigins 0\nmissing 1\nforeign 1\nbadrows 0\nwindow 1\nmisfits 0\nleast 1\n";

/// Groups of which some have bounds of their own.
const BOUNDED_GROUPS: &[u8] =
    b"group xfs\nbounds 36028797018963967 0\ngroup btrfs\nmark btrfs 0 130 at:128\ngroup lvm\nbounds 7 2\nmark lvm 0 3 at:1\ndone\n";

/// A plan over three images, each with an offset of its own, and bounds of its table of partitions.
const BOUNDED_APART: &[u8] =
    b"reraid-plan 3\nmode each\nimages 3\nlength 3\nlength 3\nlength 3\nend 3\nlevels 5\nmembers 3\npatterns ls\nsyndromes none\nchunks 1\noffsets 0,1\norigins 0\nmissing 0\nforeign 0\nbadrows 0\nwindow 2\nmisfits 0\nleast 1\ngroup gpt\nbounds 0 3\ndone\n";

/// A plan in which parity may stay for some rows, without groups: nothing else asks for version 3.
const DELAYED: &[u8] =
    b"reraid-plan 3\nmode common\nimages 1\nlength 5000\nend 5000\nlevels 5\nmembers 3\npatterns la,ls\ndelays 1,16\nsyndromes none\nchunks 8\noffsets 0\norigins 0\nmissing 1\nforeign 1\nbadrows 0\nwindow 1\nmisfits 0\nleast 1\ndone\n";

/// The same where each image has an offset of its own, parity stays for the most rows, and a group has bounds of its own.
const DELAYED_APART: &[u8] =
    b"reraid-plan 3\nmode each\nimages 1\nlength 5000\nend 5000\nlevels 5\nmembers 3\npatterns la,ls\ndelays 1024\nsyndromes none\nchunks 8\noffsets 0\norigins 0\nmissing 1\nforeign 0\nbadrows 0\nwindow 1\nmisfits 0\nleast 1\ngroup xfs\ngroup lvm\nbounds 7 2\nmark lvm 0 3 at:1\ndone\n";

/// The lines of a plan of version 3 up to its patterns: eight.
const UP_TO_PATTERNS: &[u8] =
    b"reraid-plan 3\nmode common\nimages 1\nlength 5000\nend 5000\nlevels 5\nmembers 3\npatterns la,ls\n";

/// What follows the delays, up to the groups: ten lines.
const PAST_DELAYS: &[u8] =
    b"syndromes none\nchunks 8\noffsets 0\norigins 0\nmissing 1\nforeign 1\nbadrows 0\nwindow 1\nmisfits 0\nleast 1\n";

/// The text of a plan of version 3 with these groups.
fn with_groups(alloc: Global, groups: &[u8]) -> Result<Text, Fail> {
    let mut text = Text::new(alloc);
    text.extend_from_slice(THIRD)?;
    text.extend_from_slice(groups)?;
    Ok(text)
}

/// Compares what is written of a plan that was read.
fn compare_again<R: Abort>(rt: &R, alloc: Global, text: &[u8], each: bool) -> Result<(), Fail> {
    let plan = read_plan(alloc, text)?;
    assert_eq!(rt; plan.each, each);
    let again = write_plan(alloc, &plan)?;
    assert_eq!(rt; again.as_slice(), text);
    Ok(())
}

#[test]
fn all_versions_are_read_and_written(rt: HostRuntime) -> Result<(), Fail> {
    compare_again(&rt, rt.alloc(), APART, true)?;
    compare_again(&rt, rt.alloc(), LATER_GROUPS, false)?;
    compare_again(&rt, rt.alloc(), BOUNDED_APART, true)?;
    compare_again(&rt, rt.alloc(), DELAYED, false)?;
    compare_again(&rt, rt.alloc(), DELAYED_APART, true)?;
    let text = with_groups(rt.alloc(), BOUNDED_GROUPS)?;
    compare_again(&rt, rt.alloc(), text.as_slice(), false)
}

/// Groups whose last line no plan of version 3 has there, and its number.
static REFUSED_GROUPS: [(&[u8], u64); 8] = [
    (b"done\n", 19),
    (b"bounds 0 1\n", 19),
    (b"group gpt\ndone\n", 20),
    (b"group gpt\nbounds 0 36028797018963968\n", 20),
    (b"group gpt\nbounds 00 1\n", 20),
    (b"group gpt\nbounds 0\n", 20),
    (b"group gpt\nbounds 0 1\nbounds 0 1\n", 21),
    (b"group lvm\nmark lvm 0 3 at:1\nbounds 0 1\n", 21),
];

#[test]
fn other_bounds_are_refused_at_their_line(rt: HostRuntime) -> Result<(), Fail> {
    for (groups, line) in &REFUSED_GROUPS {
        let text = with_groups(rt.alloc(), groups)?;
        let fault = read_plan(rt.alloc(), text.as_slice()).err();
        assert_eq!(rt; fault, Some(PlanFault::Line(*line)));
    }
    Ok(())
}

#[test]
fn a_plan_has_its_delays(rt: HostRuntime) -> Result<(), Fail> {
    let plan = read_plan(rt.alloc(), DELAYED)?;
    assert_eq!(rt; plan.bounds.delays.as_slice(), [1, 16].as_slice());
    let plan = read_plan(rt.alloc(), LATER_GROUPS)?;
    assert_eq!(rt; plan.bounds.delays.as_slice(), [1].as_slice());
    Ok(())
}

/// Lines after the patterns of a plan of version 3, of which the last is refused, and its number.
static REFUSED_DELAYS: [(&[u8], u64); 10] = [
    (b"delays 1\n", 9),
    (b"delays 0\n", 9),
    (b"delays 1025\n", 9),
    (b"delays 2,2\n", 9),
    (b"delays 16,1\n", 9),
    (b"delays 016\n", 9),
    (b"delays \n", 9),
    (b"delays 1,2,3,4,5,6,7,8,9,10,11,12,13,14,15,16,17\n", 9),
    (b"delays 16\ndelays 16\n", 10),
    (b"syndromes none\ndelays 16\n", 10),
];

#[test]
fn other_delays_are_refused_at_their_line(rt: HostRuntime) -> Result<(), Fail> {
    for (lines, line) in &REFUSED_DELAYS {
        let mut text = Text::new(rt.alloc());
        text.extend_from_slice(UP_TO_PATTERNS)?;
        text.extend_from_slice(lines)?;
        let fault = read_plan(rt.alloc(), text.as_slice()).err();
        assert_eq!(rt; fault, Some(PlanFault::Line(*line)));
    }
    Ok(())
}

#[test]
fn a_plan_of_one_delay_has_bounds_in_version_3(rt: HostRuntime) -> Result<(), Fail> {
    let mut text = Text::new(rt.alloc());
    text.extend_from_slice(UP_TO_PATTERNS)?;
    text.extend_from_slice(PAST_DELAYS)?;
    text.extend_from_slice(b"done\n")?;
    let fault = read_plan(rt.alloc(), text.as_slice()).err();
    assert_eq!(rt; fault, Some(PlanFault::Line(19)));
    Ok(())
}

/// Beginnings of texts whose last line no plan has there, and its number.
static REFUSED: [(&str, u64); 17] = [
    ("reraid-plan 4\n", 1),
    ("reraid-plan 3\n", 2),
    ("reraid-plan 3\nimages 1\n", 2),
    ("reraid-plan 3\nmode both\n", 2),
    (
        "reraid-plan 1\nimages 1\nlength 3\nend 3\nlevels 5\nmembers 3\npatterns ls\nsyndromes none\nchunks 1\noffsets 0\norigins 0\nmissing 0\nforeign 0\nbadrows 0\nwindow 1\nmisfits 0\nleast 1\ngroup gpt\nbounds 0 1\n",
        19,
    ),
    ("reraid-plan 02\n", 1),
    (
        "reraid-plan 1\nimages 1\nlength 3\nend 3\nlevels 5\nmembers 3\npatterns ls\ndelays 16\n",
        8,
    ),
    (
        "reraid-plan 2\nimages 1\nlength 3\nend 3\nlevels 5\nmembers 3\npatterns ls\ndelays 1,16\n",
        8,
    ),
    ("reraid-plan 2\nimages 1\nlength 18014398509481984\n", 3),
    ("reraid-plan 1\nimages 1\nlength 36028797018963968\n", 3),
    (
        "reraid-plan 2\nimages 1\nlength 3\nend 3\nlevels 5\nmembers 3\npatterns ls\nsyndromes none\nchunks 1\noffsets 0,18014398509481984\n",
        10,
    ),
    (
        "reraid-plan 2\nimages 1\nlength 3\nend 3\nlevels 5\nmembers 3\npatterns ls\nsyndromes none\nchunks 1\noffsets 0\norigins 36028797018963967\nmissing 2\nforeign 1\n",
        13,
    ),
    (
        "reraid-plan 1\nimages 1\nlength 3\nend 3\nlevels 5\nmembers 3\npatterns ls\nsyndromes none\nchunks 1\noffsets 0\norigins 0\nmissing 2\nforeign 25\n",
        13,
    ),
    (
        "reraid-plan 1\nimages 1\nlength 3\nend 3\nlevels 5\nmembers 3\npatterns ls\nsyndromes none\nchunks 1\noffsets 0\norigins 0\nmissing 0\nforeign 0\nbadrows 0\nwindow 1\nmisfits 0\nleast 1\ngroup lvm\ngroup btrfs\n",
        19,
    ),
    (
        "reraid-plan 1\nimages 1\nlength 3\nend 3\nlevels 5\nmembers 3\npatterns ls\nsyndromes none\nchunks 1\noffsets 0\norigins 0\nmissing 0\nforeign 0\nbadrows 0\nwindow 1\nmisfits 0\nleast 1\ngroup ext\ngroup ext\ngroup lvm\n",
        20,
    ),
    (
        "reraid-plan 1\nimages 1\nlength 3\nend 3\nlevels 5\nmembers 3\npatterns ls\nsyndromes none\nchunks 1\noffsets 0\norigins 0\nmissing 0\nforeign 0\nbadrows 0\nwindow 1\nmisfits 0\nleast 1\ngroup btrfs\nmark super 0 0 at:0\n",
        19,
    ),
    (
        "reraid-plan 1\nimages 1\nlength 3\nend 3\nlevels 5\nmembers 3\npatterns ls\nsyndromes none\nchunks 1\noffsets 0\norigins 0\nmissing 0\nforeign 0\nbadrows 0\nwindow 1\nmisfits 0\nleast 1\ngroup jfs\n",
        18,
    ),
];

#[test]
fn other_texts_are_refused_at_their_line(rt: HostRuntime) -> Result<(), Fail> {
    for (text, line) in &REFUSED {
        let fault = read_plan(rt.alloc(), text.as_bytes()).err();
        assert_eq!(rt; fault, Some(PlanFault::Line(*line)));
    }
    Ok(())
}
