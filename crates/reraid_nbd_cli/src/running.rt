//! A run, up to why it ends.
ghost use Rattle.std.specs.Prelude.{◌≡◌, ◌<◌, ◌^◌, ◌⊎◌, [], All, IsTrue, List, Ok, Result, Some, length, ℕ};
ghost use Rattle.outside.specs.Attached.{AreImagesOf};
ghost use Rattle.run_ends.specs.Jobs.{named, stream};
ghost use Rattle.command_words.specs.Commands.{names_after};
ghost use Rattle.command_words.specs.declared.command.Command.{Command as CommandOf};
ghost use Rattle.reraid_nbd_cli.specs.Mapped.{IsUnasked, RunsMapped, RunsWords};
ghost use Rattle.reraid_nbd_cli.specs.Runs.{Runs, place_of};
ghost use Rattle.reraid_nbd_cli.specs.Words.{AreNamed, Asks, AsksDamaged, PutsVolume, maps_at, without};

use crate::asking::{maps_place, read_asked, read_damaged, words_without};
use crate::ends::NbdEnd;
use crate::mapping::show_damaged;
use crate::mending::show_mended;
use crate::showing::{show_mirror, show_set};
use crate::telling::{read_alone, tell};
use command_words::{Command, Word};
use outside::{Images, Sink, Source};
use run_ends::{Refusal, attach_front};
use std::alloc::Global;

/// Puts what one word asks for alone, or else does the work for a volume, or, beside a word that names the text of maps, for a damaged one.
pub(crate) fn run<M: Source, S: Source, I: Images, K: Sink>(
    alloc: Global,
    words: &[Word],
    maps: &mut M,
    source: &mut S,
    images: &mut I,
    out: &mut K,
) -> Result<(), NbdEnd>
    requires fresh { (I.seen images.old).attached ≡ [] }
    requires named { All (λ name. IsTrue ((I.seen images.old).world.may_attach name)) (names_after words.now) }
    ensures runs { RunsWords words.now (named (length (names_after words.now)) (I.seen images.new).attached)
        (place_of I.seen S.left S.faults K.gained K.faults images.old source.old out.old)
        (place_of I.seen S.left S.faults K.gained K.faults images.new source.new out.new)
        (stream (M.left maps.old) (M.faults maps.old)) (stream (M.left maps.new) (M.faults maps.new)) result }
    ensures attached { AreImagesOf (I.seen images.old).world (names_after words.now) (I.seen images.new).attached }
{
    match read_alone(words) {
        Some(alone) => tell(alone, out),
        None => match maps_place(words) {
            Some(place) => run_mapped(alloc, words, place, maps, source, images, out),
            None => run_volume(alloc, words, source, images, out),
        },
    }
}

/// Does the work in its order: words, images, and the dialogue.
fn run_volume<S: Source, I: Images, K: Sink>(
    alloc: Global,
    words: &[Word],
    source: &mut S,
    images: &mut I,
    out: &mut K,
) -> Result<(), NbdEnd>
    requires fresh { (I.seen images.old).attached ≡ [] }
    requires named { All (λ name. IsTrue ((I.seen images.old).world.may_attach name)) (names_after words.now) }
    ensures runs { (asked : Result CommandOf ℕ) × Asks words.now asked ×
        Runs asked (named (length (names_after words.now)) (I.seen images.new).attached)
        (place_of I.seen S.left S.faults K.gained K.faults images.old source.old out.old)
        (place_of I.seen S.left S.faults K.gained K.faults images.new source.new out.new) result }
    ensures attached { AreImagesOf (I.seen images.old).world (names_after words.now) (I.seen images.new).attached }
{
    match read_asked(words) {
        Err(number) => Err(NbdEnd::Refused(Refusal::Word(number))),
        Ok(command) => {
            let names = names_of(&command, words);
            match attach_front(images, names) {
                Ok(()) => match &command {
                    Command::Write { set, end, .. } => {
                        show_set(alloc, images, names.len(), set, *end, source, out)
                    }
                    Command::MirrorWrite { set, end, .. } => {
                        show_mirror(alloc, images, names.len(), set, *end, source, out)
                    }
                    _ => unreachable!(),
                },
                Err(_) => Err(NbdEnd::ImageFault),
            }
        }
    }
}

/// The names of the images: the last of the words.
fn names_of<'a>(command: &Command, words: &'a [Word]) -> &'a [Word]
    requires volume { PutsVolume command.now }
    requires named { AreNamed words.now command.now }
    ensures { result.now ≡ names_after words.now }
{
    match command {
        Command::Write { names, .. } | Command::MirrorWrite { names, .. } => &words[names - 1..],
        _ => unreachable!(),
    }
}

/// Does the work for a damaged volume. The word that names the text of maps stands at this place.
fn run_mapped<M: Source, S: Source, I: Images, K: Sink>(
    alloc: Global,
    words: &[Word],
    place: usize,
    maps: &mut M,
    source: &mut S,
    images: &mut I,
    out: &mut K,
) -> Result<(), NbdEnd>
    requires fresh { (I.seen images.old).attached ≡ [] }
    requires named { All (λ name. IsTrue ((I.seen images.old).world.may_attach name)) (names_after words.now) }
    requires place { maps_at words.now ≡ Some place }
    ensures runs { IsUnasked (place_of I.seen S.left S.faults K.gained K.faults images.old source.old out.old)
        (place_of I.seen S.left S.faults K.gained K.faults images.new source.new out.new)
        (stream (M.left maps.old) (M.faults maps.old)) (stream (M.left maps.new) (M.faults maps.new)) result
        ⊎ ((asked : Result CommandOf ℕ) × AsksDamaged place words.now asked ×
        RunsMapped asked (named (length (names_after words.now)) (I.seen images.new).attached)
        (place_of I.seen S.left S.faults K.gained K.faults images.old source.old out.old)
        (place_of I.seen S.left S.faults K.gained K.faults images.new source.new out.new)
        (stream (M.left maps.old) (M.faults maps.old)) (stream (M.left maps.new) (M.faults maps.new)) result) }
    ensures attached { AreImagesOf (I.seen images.old).world (names_after words.now) (I.seen images.new).attached }
{
    let others = words_without(alloc, words, place)?;
    run_damaged(alloc, &others, place, maps, source, images, out)
}

/// Does the work for a damaged volume in its order: words, images, the text of the maps, and the dialogue. The words are those without the
/// one that names the text, which stood at this place.
fn run_damaged<M: Source, S: Source, I: Images, K: Sink>(
    alloc: Global,
    others: &[Word],
    place: usize,
    maps: &mut M,
    source: &mut S,
    images: &mut I,
    out: &mut K,
) -> Result<(), NbdEnd>
    requires fresh { (I.seen images.old).attached ≡ [] }
    requires named { All (λ name. IsTrue ((I.seen images.old).world.may_attach name)) (names_after others.now) }
    requires short { place < 2 ^ 63 }
    ensures runs { (asked : Result CommandOf ℕ) × ((words : List (List ℕ)) → others.now ≡ without place words → AsksDamaged place words asked) ×
        RunsMapped asked (named (length (names_after others.now)) (I.seen images.new).attached)
        (place_of I.seen S.left S.faults K.gained K.faults images.old source.old out.old)
        (place_of I.seen S.left S.faults K.gained K.faults images.new source.new out.new)
        (stream (M.left maps.old) (M.faults maps.old)) (stream (M.left maps.new) (M.faults maps.new)) result }
    ensures attached { AreImagesOf (I.seen images.old).world (names_after others.now) (I.seen images.new).attached }
{
    match read_damaged(others, place) {
        Err(number) => Err(NbdEnd::Refused(Refusal::Word(number))),
        Ok(command) => {
            let names = names_of(&command, others);
            match attach_front(images, names) {
                Ok(()) => match &command {
                    Command::Write { set, end, .. } => {
                        show_damaged(alloc, images, names.len(), set, *end, maps, source, out)
                    }
                    Command::MirrorWrite { set, end, .. } => {
                        show_mended(alloc, images, names.len(), set, *end, maps, source, out)
                    }
                    _ => unreachable!(),
                },
                Err(_) => Err(NbdEnd::ImageFault),
            }
        }
    }
}
