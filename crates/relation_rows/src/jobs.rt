//! Runs of the command `relations` over images in memory.
ghost use Rattle.std.specs.Prelude.{◌≤◌, ◌<◌, IfSome, IsTrue};

use crate::objects::{Tall, images_of};
use crate::sectors::{A, AB, B, C, CD, D, E, F, NONE, P, Q, SEVEN, Terms};
use arrayvec::ArrayVec;
use command_words::{Form, MOST_RELATED, RelationWords};
use image_source::{MemImages, MemSink};
use outside::{Images, SECTOR, Sink};
use relation_job::relations;
use run_ends::Stop;
use std::alloc::Global;
use std::process::Abort;
use std::test::Fail;
use test_objects::{Counted, FAR, are_below, join};

/// What is asked for where no word names it.
fn plain() -> RelationWords {
    RelationWords {
        from: 0,
        end: None,
        step: None,
        offsets: ArrayVec::new(),
        form: Form::Text,
        names: 0,
    }
}

/// Offsets, one for each image.
fn offsets_of<R: Abort>(rt: &R, numbers: &[u64]) -> ArrayVec<u64, MOST_RELATED> {
    let mut offsets = ArrayVec::new();
    for number in numbers {
        assert!(rt; offsets.try_push(*number).is_ok());
    }
    offsets
}

/// Whether a step is one that the words can name.
fn is_step(step: Option<u64>) -> bool
    ensures { IsTrue result → IfSome step (λ n. (1 ≤ n) × (n < FAR)) }
{
    match step {
        Some(step) => 1 <= step && step < FAR,
        None => true,
    }
}

/// Runs the command over `count` images, and gives why it stops.
fn run<R: Abort, I: Images, K: Sink>(
    rt: &R,
    alloc: Global,
    images: &mut I,
    count: u8,
    asked: RelationWords,
    sink: &mut K,
) -> Option<Stop> {
    assert!(rt; are_below(images, count, FAR));
    assert!(rt; is_step(asked.step));
    relations(alloc, images, count as usize, asked, sink).err()
}

/// Looks whether this is said of images of these sectors.
fn says<R: Abort>(
    rt: &R,
    alloc: Global,
    each: &[&[Terms]],
    asked: RelationWords,
    wanted: &str,
) -> Result<(), Fail> {
    let mut images = images_of(alloc, each)?;
    let mut sink = MemSink::new(alloc, 16_384)?;
    assert!(rt; each.len() < 256);
    assert!(rt; run(rt, alloc, &mut images, each.len() as u8, asked, &mut sink).is_none());
    assert!(rt; sink.bytes() == wanted.as_bytes());
    Ok(())
}

/// Looks whether images are refused with this line, and nothing is put.
fn refuses<R: Abort, I: Images>(
    rt: &R,
    alloc: Global,
    images: &mut I,
    count: u8,
    asked: RelationWords,
    line: &str,
) -> Result<(), Fail> {
    let mut sink = MemSink::new(alloc, 16_384)?;
    match run(rt, alloc, images, count, asked, &mut sink) {
        Some(stop) => {
            let notice = stop.notice();
            assert!(rt; notice.status == 4);
            assert!(rt; notice.line.as_bytes() == line.as_bytes());
            assert!(rt; sink.bytes().is_empty());
            Ok(())
        }
        None => Err("a refusal".into()),
    }
}

#[test]
fn two_equal_images(rt: HostRuntime) -> Result<(), Fail> {
    let text = "rows 0 1 zero - tied 1=1*0\ntogether 0,1 in 2 rows\nalone -\nfree 0 of 2\n";
    says(&rt, rt.alloc(), &[&[A, B], &[A, B]], plain(), text)
}

#[test]
fn three_images_of_raid_5(rt: HostRuntime) -> Result<(), Fail> {
    let text = "rows 0 1 zero - tied 2=1*0+1*1\ntogether 0,1,2 in 2 rows\nalone -\nfree 0 of 2\n";
    says(
        &rt,
        rt.alloc(),
        &[&[A, CD], &[B, C], &[AB, D]],
        plain(),
        text,
    )
}

// Eight members in the layout left-symmetric with Q behind P, of which that of slot 3 is missing. Row 0 has Q on slot 0, the items with
// the exponents 0 to 5 on slots 1 to 6, and P on slot 7. So Q + 4 P is known, and P is Q / 4 plus the sum of (2^k / 4 + 1) times item k,
// where 1 / 4 is 71 and 2 / 4 is 142. Row 1 has the items on slots 0 to 5, P on slot 6, and Q on slot 7. So Q + 8 P is known, and Q is
// 8 P plus the sum of (2^k + 8) times item k.
#[test]
fn seven_of_eight_of_raid_6(rt: HostRuntime) -> Result<(), Fail> {
    let text =
        "rows 0 0 zero - tied 6=71*0+70*1+143*2+3*3+5*4+9*5\nrows 1 1 zero - tied 6=9*0+10*1+12*2+24*3+40*4+8*5\ntogether 0,1,2,3,4,5,6 in 2 rows\nalone -\nfree 0 of 2\n";
    says(
        &rt,
        rt.alloc(),
        &[
            &[Q, A],
            &[A, B],
            &[B, C],
            &[D, E],
            &[E, F],
            &[F, P],
            &[P, Q],
        ],
        plain(),
        text,
    )
}

#[test]
fn zeros_a_multiple_and_a_foreign_image(rt: HostRuntime) -> Result<(), Fail> {
    let text =
        "rows 0 0 zero 0,1 tied -\nrows 1 1 zero - tied 1=7*0\ntogether 0,1 in 1 rows\nalone 2\nfree 1 of 2\n";
    says(
        &rt,
        rt.alloc(),
        &[&[NONE, A], &[NONE, SEVEN], &[B, C]],
        plain(),
        text,
    )
}

#[test]
fn two_arrays_as_json(rt: HostRuntime) -> Result<(), Fail> {
    let text =
        "{\"rows\":[0,0],\"zero\":[],\"tied\":[[2,[[1,0],[1,1]]],[4,[[1,3]]]]}\n{\"rows\":[1,1],\"zero\":[3,4],\"tied\":[[2,[[1,0],[1,1]]]]}\n{\"together\":[0,1,2],\"rows\":2}\n{\"together\":[3,4],\"rows\":1}\n{\"alone\":[]}\n{\"free\":0,\"of\":2}\n";
    let asked = RelationWords {
        form: Form::Json,
        ..plain()
    };
    says(
        &rt,
        rt.alloc(),
        &[&[A, CD], &[B, C], &[AB, D], &[E, NONE], &[E, NONE]],
        asked,
        text,
    )
}

// The last of 64 images is the first.
#[test]
fn as_many_images_as_may_be(rt: HostRuntime) -> Result<(), Fail> {
    let mut each: [&[Terms]; 64] = [&[NONE]; 64];
    each[0] = &[A];
    each[63] = &[A];
    let text =
        "rows 0 0 zero 1,2,3,4,5,6,7,8,9,10,11,12,13,14,15,16,17,18,19,20,21,22,23,24,25,26,27,28,29,30,31,32,33,34,35,36,37,38,39,40,41,42,43,44,45,46,47,48,49,50,51,52,53,54,55,56,57,58,59,60,61,62 tied 63=1*0\ntogether 0,63 in 1 rows\nalone 1,2,3,4,5,6,7,8,9,10,11,12,13,14,15,16,17,18,19,20,21,22,23,24,25,26,27,28,29,30,31,32,33,34,35,36,37,38,39,40,41,42,43,44,45,46,47,48,49,50,51,52,53,54,55,56,57,58,59,60,61,62\nfree 0 of 1\n";
    says(&rt, rt.alloc(), &each, plain(), text)
}

// The data of the first image begin at its sector 2. Of the four rows that both have, those from row 1 on at a step of 2 are looked at.
#[test]
fn rows_at_offsets(rt: HostRuntime) -> Result<(), Fail> {
    let text = "rows 1 3 zero - tied 1=1*0\ntogether 0,1 in 2 rows\nalone -\nfree 0 of 2\n";
    let asked = RelationWords {
        from: 1,
        step: Some(2),
        offsets: offsets_of(&rt, &[2, 0]),
        ..plain()
    };
    says(
        &rt,
        rt.alloc(),
        &[&[E, E, C, A, D, B], &[E, A, C, B, E]],
        asked,
        text,
    )
}

// The end is before the last row, and the first row past it.
#[test]
fn no_rows(rt: HostRuntime) -> Result<(), Fail> {
    let asked = RelationWords {
        from: 9,
        end: Some(1),
        ..plain()
    };
    says(
        &rt,
        rt.alloc(),
        &[&[A, B], &[A, B]],
        asked,
        "alone 0,1\nfree 0 of 0\n",
    )
}

// Of 4,097 rows every other one is looked at.
#[test]
fn a_step_of_two(rt: HostRuntime) -> Result<(), Fail> {
    let alloc = rt.alloc();
    let zeros = vec![in alloc; 0u8; 4097 * SECTOR]?;
    let mut images = MemImages::new(alloc)?;
    join(&mut images, "a", &zeros)?;
    join(&mut images, "b", &zeros)?;
    let mut counted = Counted::new(images);
    let mut sink = MemSink::new(alloc, 16_384)?;
    assert!(rt; run(&rt, alloc, &mut counted, 2, plain(), &mut sink).is_none());
    assert!(rt;
        sink.bytes() == b"rows 0 4096 zero 0,1 tied -\nalone 0,1\nfree 2049 of 2049\n".as_slice()
    );
    assert!(rt; counted.reads() == [2049, 2049, 0, 0]);
    Ok(())
}

#[test]
fn refused_numbers(rt: HostRuntime) -> Result<(), Fail> {
    let alloc = rt.alloc();
    let mut one = images_of(alloc, &[&[A]])?;
    refuses(
        &rt,
        alloc,
        &mut one,
        1,
        plain(),
        "reraid: images: count given 1 planned 2\n",
    )?;
    let each: [&[Terms]; 65] = [&[A]; 65];
    let mut many = images_of(alloc, &each)?;
    refuses(
        &rt,
        alloc,
        &mut many,
        65,
        plain(),
        "reraid: images: count given 65 planned 64\n",
    )?;
    let mut two = images_of(alloc, &[&[A, B, C], &[A, B]])?;
    let asked = RelationWords {
        offsets: offsets_of(&rt, &[1]),
        ..plain()
    };
    refuses(
        &rt,
        alloc,
        &mut two,
        2,
        asked,
        "reraid: images: offsets given 1 planned 2\n",
    )
}

// The first image has two rows behind its offset, and the second one.
#[test]
fn refused_rows(rt: HostRuntime) -> Result<(), Fail> {
    let alloc = rt.alloc();
    let mut two = images_of(alloc, &[&[A, B, C], &[A, B]])?;
    let asked = RelationWords {
        end: Some(2),
        offsets: offsets_of(&rt, &[1, 1]),
        ..plain()
    };
    refuses(
        &rt,
        alloc,
        &mut two,
        2,
        asked,
        "reraid: images: end given 2 planned 1\n",
    )?;
    let asked = RelationWords {
        step: Some(1),
        ..plain()
    };
    refuses(
        &rt,
        alloc,
        &mut Tall::new(),
        2,
        asked,
        "reraid: images: rows given 1048577 planned 1048576\n",
    )
}

// Rows 0, 2 and 4 are read one by one. The images fail at the second sector of row 4, after two attachments and five readings: the
// run of row 0 has ended, that of row 2 has not.
#[test]
fn images_that_fail(rt: HostRuntime) -> Result<(), Fail> {
    let alloc = rt.alloc();
    let mut images = images_of(alloc, &[&[A, E, A, E, B], &[A, E, B, E, B]])?;
    images.fail_call(8)?;
    let mut sink = MemSink::new(alloc, 16_384)?;
    let asked = RelationWords {
        step: Some(2),
        ..plain()
    };
    let stop = run(&rt, alloc, &mut images, 2, asked, &mut sink);
    assert!(rt; matches!(stop, Some(Stop::ImageFault)));
    assert!(rt; sink.bytes() == b"rows 0 0 zero - tied 1=1*0\n".as_slice());
    Ok(())
}

// Of 300 rows that lie beside each other the first 256 are read together, and then the others. The last of the first ones, and the
// first of the others, are rows of their own.
#[test]
fn rows_that_are_read_together(rt: HostRuntime) -> Result<(), Fail> {
    let alloc = rt.alloc();
    let mut first: [Terms; 300] = [A; 300];
    let mut second: [Terms; 300] = [A; 300];
    second[255] = SEVEN;
    first[256] = NONE;
    let images = images_of(alloc, &[&first, &second])?;
    let mut counted = Counted::new(images);
    let mut sink = MemSink::new(alloc, 16_384)?;
    assert!(rt; run(&rt, alloc, &mut counted, 2, plain(), &mut sink).is_none());
    let text =
        "rows 0 254 zero - tied 1=1*0\nrows 255 255 zero - tied 1=7*0\nrows 256 256 zero 0 tied -\nrows 257 299 zero - tied 1=1*0\ntogether 0,1 in 299 rows\nalone -\nfree 1 of 300\n";
    assert!(rt; sink.bytes() == text.as_bytes());
    assert!(rt; counted.reads() == [300, 300, 0, 0]);
    Ok(())
}

// The images fail where the other rows of the second image are read, after two attachments and three readings: the run of the first
// rows has not ended.
#[test]
fn rows_that_cannot_be_read_together(rt: HostRuntime) -> Result<(), Fail> {
    let alloc = rt.alloc();
    let same: [Terms; 300] = [A; 300];
    let mut images = images_of(alloc, &[&same, &same])?;
    images.fail_call(6)?;
    let mut sink = MemSink::new(alloc, 16_384)?;
    let stop = run(&rt, alloc, &mut images, 2, plain(), &mut sink);
    assert!(rt; matches!(stop, Some(Stop::ImageFault)));
    assert!(rt; sink.bytes().is_empty());
    Ok(())
}

// The put of the first run fails once it took five bytes.
#[test]
fn an_output_that_fails(rt: HostRuntime) -> Result<(), Fail> {
    let alloc = rt.alloc();
    let mut images = images_of(alloc, &[&[A, A, B], &[A, B, B]])?;
    let mut sink = MemSink::new(alloc, 16_384)?;
    sink.fail_call(1, 5)?;
    let stop = run(&rt, alloc, &mut images, 2, plain(), &mut sink);
    assert!(rt; matches!(stop, Some(Stop::OutFault)));
    assert!(rt; sink.bytes() == b"rows ".as_slice());
    Ok(())
}
