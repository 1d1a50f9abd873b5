//! Images that are too long to have an offset each.
ghost use Rattle.std.specs.Prelude.{◌≡◌, ◌<◌, ◌/◌, ◌^◌, IfOk, IsTrue, OnOk, length};
ghost use Rattle.image_source.specs.Bytes.{files_tell};
ghost use Rattle.image_source.specs.Files.{no_files, seen_of_files};
ghost use Rattle.outside.specs.Causes.{HasCause};
ghost use Rattle.outside.specs.Seen.{AreTold, AreWithin, Attaches, OnlyReads};

use crate::objects::words_of;
use crate::plans::LONG;
use crate::rows::{Row, same_bytes, same_status};
use image_source::{MemSink, MemSource};
use outside::{Failed, Images, MOST_ATTACHED, Memory};
use reraid_cli::{OpenGate, reraid};
use std::alloc::Global;
use std::marker::Model;
use std::process::Abort;
use std::test::Fail;
use std::thread::Threads;

/// The most sectors of an image that may have an offset of its own.
const MOST_SECTORS: u64 = 18_014_398_509_481_983;

/// Images under any names, of which the first is as long as one with an offset of its own may be, and the others are longer by a
/// sector. No sector can be read.
#[derive(Drop)]
pub struct Long {
    lengths: Vec<u64>,
    faults: u64,
}

impl Model for Long {
    ghost use Rattle.std.specs.Prelude.{◌≤◌};
    ghost use Rattle.std.specs.Vec.{vec_capacity};
    ghost use Rattle.outside.specs.declared.TheConstants.{MOST_ATTACHED};
    ghost use Rattle.image_source.specs.Files.{OpenFiles};

    ghost Value = { OpenFiles };

    ghost view = { λ m. record { lengths = m.lengths.items; faults = m.faults; sectors_read = 0 } };

    ghost invariant = { λ m. MOST_ATTACHED ≤ vec_capacity m.lengths };
}

impl Long {
    /// No images, with room for as many as may be attached.
    pub fn new(alloc: Global) -> Result<Long, Memory>
        ensures { IfOk result (λ m. m ≡ no_files) }
    {
        let lengths = Vec::with_capacity(alloc, MOST_ATTACHED).map_err(|_| Memory)?;
        Ok(Long { lengths, faults: 0 })
    }
}

impl Images for Long {
    ghost seen = { seen_of_files };

    ghost tells_bytes = { files_tell };

    #[tactic(auto, using(image_source::proofs::Files::attaches))]
    fn attach(&mut self, name: &str) -> Result<u64, Failed>
        requires room { length (seen_of_files self.old).attached < MOST_ATTACHED }
        requires named { IsTrue ((seen_of_files self.old).world.may_attach name.now) }
        ensures attached { Attaches (seen_of_files self.old) (seen_of_files self.new) name.now result }
        ensures cause { HasCause (seen_of_files self.old).faults (seen_of_files self.new).faults result }
    {
        let sectors = length_of(self.lengths.len());
        self.lengths.push(sectors).unwrap();
        Ok(sectors)
    }

    fn read(&mut self, image: u32, sector: u64, to: &mut [u8]) -> Result<(), Failed>
        requires { AreWithin (seen_of_files self.old).attached image sector (length to.old) }
        ensures told { OnOk result (AreTold (seen_of_files self.old).attached image sector to.new) }
        ensures reads { OnlyReads (seen_of_files self.old) (seen_of_files self.new) (length to.old / 512) }
        ensures cause { HasCause (seen_of_files self.old).faults (seen_of_files self.new).faults result }
    {
        self.faults = self.faults.saturating_add(1);
        Err(Failed)
    }

    fn length(&self, image: u32) -> Option<u64> {
        self.lengths.get(image as usize).copied()
    }
}

/// The sectors of an image by its number.
fn length_of(image: usize) -> u64
    ensures { result < 2 ^ 55 }
{
    if image == 0 {
        MOST_SECTORS
    } else {
        MOST_SECTORS + 1
    }
}

/// Runs the row's words over such images, and compares what the run leaves. The row has no images of its own.
fn check<R: Threads + Sync + Abort>(rt: &R, alloc: Global, row: &Row) -> Result<(), Fail> {
    let words = words_of(alloc, row.line)?;
    let mut plan = MemSource::new(alloc, row.plan.as_bytes())?;
    let mut images = Long::new(alloc)?;
    let mut out = MemSink::new(alloc, 1000)?;
    let mut notes = MemSink::new(alloc, 1000)?;
    let status = reraid(
        rt,
        alloc,
        &words,
        &mut plan,
        &mut images,
        &mut out,
        &mut notes,
        &OpenGate,
    );
    same_status(rt, status, row.status, row.line);
    same_bytes(rt, out.bytes(), row.out.as_bytes(), row.line);
    same_bytes(rt, notes.bytes(), row.notes.as_bytes(), row.line);
    Ok(())
}

/// What is noted of the second image.
const SECOND: &str = "reraid: images: long 1 given 18014398509481984 planned 18014398509481983\n";

/// The runs over such images.
const RUNS: [Row; 9] = [
    Row {
        line: "relations step=1 -- a b",
        images: &[],
        plan: "",
        status: 4,
        out: "",
        notes: "reraid: images: rows given 18014398509481983 planned 1048576\n",
    },
    Row {
        line: "relations step=2 from=1 end=2097154 -- a b",
        images: &[],
        plan: "",
        status: 4,
        out: "",
        notes: "reraid: images: rows given 1048577 planned 1048576\n",
    },
    Row {
        line: "map set=5:ls:none:1:0+0+0:0,1,2 sector=0 -- a b c",
        images: &[],
        plan: "",
        status: 4,
        out: "",
        notes: SECOND,
    },
    Row {
        line: "map set=5:ls:none:1:0:0,1,2 sector=0 -- a b c",
        images: &[],
        plan: "",
        status: 0,
        out: "row 0 item 0 slot 0 image 0 sector 0 p 2 q -\nname left-symmetric\n",
        notes: "",
    },
    Row {
        line: "write set=5:ls:none:3:0+0+0:0,1,2 -- a b c",
        images: &[],
        plan: "",
        status: 4,
        out: "",
        notes: SECOND,
    },
    Row {
        line: "rebuild set=5:ls:none:1:0+0:0,1,- slot=0 -- a b",
        images: &[],
        plan: "",
        status: 4,
        out: "",
        notes: SECOND,
    },
    Row {
        line: "check set=5:ls:none:1:0+0+0:0,1,2 -- a b c",
        images: &[],
        plan: LONG,
        status: 4,
        out: "",
        notes: SECOND,
    },
    Row {
        line: "survey mode=each -- a b",
        images: &[],
        plan: "",
        status: 4,
        out: "",
        notes: SECOND,
    },
    Row {
        line: "survey mode=each -- a",
        images: &[],
        plan: "",
        status: 10,
        out: "",
        notes: "reraid: image read fault\n",
    },
];

// An image may have an offset of its own where it has fewer than 2^54 sectors. One that has more is refused before any rule of
// the set, and is no reason to refuse a set with one offset.
#[test]
fn images_may_be_too_long_to_be_padded(rt: HostRuntime) -> Result<(), Fail> {
    for row in &RUNS {
        check(&rt, rt.alloc(), row)?;
    }
    Ok(())
}
