//! Objects in memory, and a run over them.
ghost use Rattle.std.specs.Prelude.{◌≡◌, ◌++◌, All, IfOk, IsTrue, OnOk, List, ℕ};
ghost use Rattle.image_source.specs.Memory.{seen_of};
ghost use Rattle.reraid_rows.specs.Ready.{AreReady};

use crate::pieces::Pieces;
use image_source::{MemImages, MemSink, MemSource};
use outside::{Memory, SECTOR};
use reraid_cli::{Gate, OpenGate, Word, reraid};
use std::alloc::Global;
use std::mem::replace;
use std::thread::Threads;

/// The names of images that hold something, in their order.
static NAMES: [&str; 24] = [
    "a", "b", "c", "d", "e", "f", "g", "h", "i", "j", "k", "l", "m", "n", "o", "p", "q", "r", "s",
    "t", "u", "v", "w", "x",
];

/// The bytes that the output has room for.
const ROOM: usize = 65_536;

/// The objects that a run works on.
#[derive(Drop)]
pub struct Objects {
    pub images: MemImages,
    pub plan: MemSource,
    pub out: MemSink,
    pub notes: MemSink,
}

/// The words of a line. A space ends a word, so two beside each other have an empty word between them.
pub fn words_of(alloc: Global, line: &str) -> Result<Vec<Word>, Memory> {
    let mut words = Vec::new(alloc);
    for text in line.split(' ') {
        let word = Word::new(alloc, text)?;
        words.push(word).map_err(|_| Memory)?;
    }
    Ok(words)
}

/// Objects for a run of these words: the images a, b and so on have these bytes, and every other word names an image
/// without a byte.
pub fn ready(
    alloc: Global,
    words: &[Word],
    contents: &[Vec<u8>],
    plan: &[u8],
) -> Result<Objects, Memory>
    ensures { IfOk result (λ o. AreReady words.now o.images o.plan o.out o.notes) }
{
    let mut images = MemImages::new(alloc)?;
    add_contents(&mut images, contents)?;

    // Where two images have one name, the name means the first. So those without bytes above are empty.
    name_words(&mut images, words)?;
    Ok(Objects {
        images,
        plan: MemSource::new(alloc, plan)?,
        out: MemSink::new(alloc, ROOM)?,
        notes: MemSink::new(alloc, 1000)?,
    })
}

/// Adds an image of each of these bytes.
fn add_contents(images: &mut MemImages, contents: &[Vec<u8>]) -> Result<(), Memory>
    ensures attached { images.new.attached ≡ images.old.attached }
    ensures faults { images.new.faults ≡ images.old.faults }
{
    for (name, bytes) in NAMES.iter().zip(contents) {
        add(images, name, bytes)?;
    }
    Ok(())
}

/// Adds an empty image under each word, so that all of them may be attached.
fn name_words(images: &mut MemImages, words: &[Word]) -> Result<(), Memory>
    ensures named { OnOk result (All (λ word. IsTrue ((seen_of images.new).world.may_attach word)) words.now) }
    ensures attached { images.new.attached ≡ images.old.attached }
    ensures faults { images.new.faults ≡ images.old.faults }
{
    for word in words {
        add(images, word.as_str(), &[])?;
    }
    Ok(())
}

/// Adds an image, so that its name may be attached too.
#[tactic(auto, using(crate::proofs::Ready::added, crate::proofs::Ready::kept))]
fn add(images: &mut MemImages, name: &str, bytes: &[u8]) -> Result<(), Memory>
    ensures named { OnOk result (IsTrue ((seen_of images.new).world.may_attach name.now)) }
    ensures others { OnOk result ((other : List ℕ) → IsTrue ((seen_of images.old).world.may_attach other) → IsTrue ((seen_of images.new).world.may_attach other)) }
    ensures attached { images.new.attached ≡ images.old.attached }
    ensures faults { images.new.faults ≡ images.old.faults }
{
    images.add(name, bytes)
}

/// A sector of each of these bytes, one after the other.
pub fn filled(alloc: Global, sectors: &[u8]) -> Result<Vec<u8>, Memory> {
    let mut bytes = Vec::new(alloc);
    for byte in sectors {
        bytes
            .extend_from_slice(&[*byte; SECTOR])
            .map_err(|_| Memory)?;
    }
    Ok(bytes)
}

/// Images of such sectors.
pub fn images_of(alloc: Global, images: &[&[u8]]) -> Result<Vec<Vec<u8>>, Memory> {
    let mut contents = Vec::new(alloc);
    for sectors in images {
        let bytes = filled(alloc, sectors)?;
        contents.push(bytes).map_err(|_| Memory)?;
    }
    Ok(contents)
}

/// Runs these words, and gives the status.
pub fn run_words<R: Threads + Sync>(
    rt: &R,
    alloc: Global,
    words: &[Word],
    objects: &mut Objects,
) -> u8
    requires { AreReady words.now objects.old.images objects.old.plan objects.old.out objects.old.notes }
{
    run_gated(rt, alloc, words, objects, &OpenGate)
}

/// Runs these words, where each piece of a scan passes the gate, and gives the status.
pub fn run_gated<R: Threads + Sync, G: Gate + Sync>(
    rt: &R,
    alloc: Global,
    words: &[Word],
    objects: &mut Objects,
    gate: &G,
) -> u8
    requires { AreReady words.now objects.old.images objects.old.plan objects.old.out objects.old.notes }
{
    reraid(
        rt,
        alloc,
        words,
        &mut objects.plan,
        &mut objects.images,
        &mut objects.out,
        &mut objects.notes,
        gate,
    )
}

/// Runs these words, with the plan in pieces of at most `most` bytes, and gives the status.
pub fn run_in_pieces<R: Threads + Sync>(
    rt: &R,
    alloc: Global,
    words: &[Word],
    objects: &mut Objects,
    most: usize,
) -> Result<u8, Memory>
    requires { AreReady words.now objects.old.images objects.old.plan objects.old.out objects.old.notes }
{
    let source = replace(&mut objects.plan, MemSource::new(alloc, b"")?);
    let mut plan = Pieces::of(source, most);
    Ok(reraid(
        rt,
        alloc,
        words,
        &mut plan,
        &mut objects.images,
        &mut objects.out,
        &mut objects.notes,
        &OpenGate,
    ))
}
