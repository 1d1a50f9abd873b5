//! The top call.
ghost use Rattle.std.specs.Prelude.{◌≡◌, [], All, IsTrue, Result, length};
ghost use Rattle.outside.specs.Attached.{AreImagesOf};
ghost use Rattle.run_ends.specs.Jobs.{named, stream};
ghost use Rattle.command_words.specs.Commands.{names_after};
ghost use Rattle.reraid_nbd_cli.specs.Ends.{IsTold};
ghost use Rattle.reraid_nbd_cli.specs.Mapped.{RunsWords};
ghost use Rattle.reraid_nbd_cli.specs.Runs.{place_of};
ghost use Rattle.reraid_nbd_cli.specs.declared.ends.NbdEnd.{NbdEnd};

use crate::running::run;
use command_words::Word;
use outside::{Images, Sink, Source};
use std::alloc::Global;

/// Does all that the program does, and answers the status that it ends with.
///
/// Status 0: the client ended the dialogue, or the input ended between two messages, or what the words ask for alone was put. 1: the words
/// are refused at a word. 3 and 9: the text of the maps is too long, or no such text from a line on. 4: the images are not those that the
/// set takes. 7: the set breaks a rule. 10, 11, 12 and 16: an image could not be attached; the input, the output or the maps failed. 14: the
/// client sent what the protocol does not allow, or the input ended inside a message. 15: the volume has 2^63 bytes or more. 20: out of
/// memory.
///
/// Where a word before `--` is `maps=FILE`, the others are those for a volume, and the text of `maps` says what was read of its images, as
/// that of `salvage` does. A sector that an image's map calls good, or that parity has, is answered, and of a mirror one of which a copy is
/// good, by the first such copy. `EIO` is told for a request
/// of which a sector is lost, or in whose reading an image failed, and for no other. Without such a word nothing is taken of `maps`.
///
/// Images are read only for requests. A reading that fails is told the client as `EIO`, and the dialogue goes on. All memory is taken
/// before the first byte is put.
pub fn reraid_nbd<M: Source, S: Source, I: Images, K: Sink, N: Sink>(
    alloc: Global,
    words: &[Word],
    maps: &mut M,
    source: &mut S,
    images: &mut I,
    out: &mut K,
    notes: &mut N,
) -> u8
    requires fresh { (I.seen images.old).attached ≡ [] }
    requires named { All (λ name. IsTrue ((I.seen images.old).world.may_attach name)) (names_after words.now) }

    // The words ask for one volume, or beside the word of the maps for a damaged one, are refused at one word, or are `--help` or `--version`
    // alone, whose text is put. What is done for that,
    // and why it ended, is told by the status and, where the dialogue did not end or the text was not put, by a line on the notes.
    ensures runs { (end : Result (Unit {0}) NbdEnd) ×
        RunsWords words.now (named (length (names_after words.now)) (I.seen images.new).attached)
        (place_of I.seen S.left S.faults K.gained K.faults images.old source.old out.old)
        (place_of I.seen S.left S.faults K.gained K.faults images.new source.new out.new)
        (stream (M.left maps.old) (M.faults maps.old)) (stream (M.left maps.new) (M.faults maps.new)) end
        × IsTold end result (stream (N.gained notes.old) (N.faults notes.old)) (stream (N.gained notes.new) (N.faults notes.new)) }

    // The images attached are those of the words after `--`, in their order. Nothing else is attached.
    ensures attached { AreImagesOf (I.seen images.old).world (names_after words.now) (I.seen images.new).attached }
{
    match run(alloc, words, maps, source, images, out) {
        Ok(()) => 0,
        Err(end) => {
            let notice = end.notice();
            let _ = notes.put(notice.line.as_bytes());
            notice.status
        }
    }
}
