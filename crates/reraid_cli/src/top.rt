//! The top call.
ghost use Rattle.std.specs.Prelude.{◌≡◌, ◌≢◌, ◌<◌, [], All, IsTrue, IfSome, Err, Ok, Result, Some, ℕ, false, length, min, true};
ghost use Rattle.std.specs.Io.KnownBytes.{Appends, Keeps};
ghost use Rattle.run_ends.specs.Jobs.{stream};
ghost use Rattle.outside.specs.Streams.{AppendsFront};
ghost use Rattle.run_ends.specs.Pieces.{AppendsPieces};
ghost use Rattle.run_ends.specs.Stops.{note_of, status_of};
ghost use Rattle.run_ends.specs.declared.stop.Refusal.{Refusal};
ghost use Rattle.run_ends.specs.declared.stop.Stop.{Stop};
ghost use Rattle.run_ends.specs.declared.stop.Stop.TheVariants.{Refused};
ghost use Rattle.outside.specs.Attached.{AreImagesOf};
ghost use Rattle.command_words.specs.Commands.{IsCommandLine, Reads, names_after};
ghost use Rattle.command_words.specs.declared.command.Command.{Command};
ghost use Rattle.reraid_cli.specs.Answers.{IsExact, IsNoted, IsOrdered, MayRead, Reading, TakesBy, is_cut_status, named_by, note_by, output, refusal, status_by};
ghost use Rattle.reraid_cli.specs.Table.{job_of};

use crate::running::run;
use command_words::Word;
use gates::Gate;
use outside::{Images, Sink, Source};
use std::alloc::Global;
use std::thread::Threads;

/// Does all that the program does, and answers the status that it ends with.
///
/// Status 0: the answer is on `out`. 1: the words are refused at a word. 2: the plan is not understood from
/// a line on. 3: more than 4,194,304 bytes were left in the source of the plan, of the list of sets, or of the maps. 4: the
/// images are not those that the plan or the command takes. 5: the plan has more sets than ranks. 6: the first rank asked for is past
/// the total. 7: the set breaks a rule. 8: the sector asked for is past the end of the volume. 9: the maps
/// of damaged images are not understood from a line on. 10, 11 and 12: the images, the source or the output failed. 13: the list of sets is not understood from a line on. 20: out of memory.
///
/// Where many sets are tested in one scan, pieces of them may run side by side, and so may pieces of a salvaged volume: each
/// passes the gate, of which no clause speaks.
pub fn reraid<R: Threads + Sync, S: Source, I: Images, K: Sink, N: Sink, G: Gate + Sync>(
    rt: &R,
    alloc: Global,
    words: &[Word],
    plan: &mut S,
    images: &mut I,
    out: &mut K,
    notes: &mut N,
    gate: &G,
) -> u8
    requires fresh { (I.seen images.old).attached ≡ [] }
    requires named { All (λ name. IsTrue ((I.seen images.old).world.may_attach name)) (names_after words.now) }
    requires images { (I.seen images.old).faults ≡ 0 }
    requires plan { S.faults plan.old ≡ 0 }
    requires out { K.faults out.old ≡ 0 }
    requires notes { N.faults notes.old ≡ 0 }

    // Each status but 0 is that of a stop, whose line the notes gained: whole where they did not fail.
    // At status 0 they gained nothing.
    ensures line { result ≢ 0 → (stop : Stop) × (status_of stop ≡ result) ×
        IsNoted (N.faults notes.new) (N.gained notes.old) (N.gained notes.new) (note_of stop) }
    ensures silent { result ≡ 0 → N.gained notes.new ≡ N.gained notes.old }

    // Unless the outside or memory is the cause, the status and the line are those of the first refusal in the
    // order of work, and 0 and none where nothing is refused.
    ensures exact { IsExact result → (reading : Reading words.now (S.left plan.old)) →
        result ≡ status_by (refusal reading (I.seen images.new).attached) }
    ensures note { IsExact result → (reading : Reading words.now (S.left plan.old)) →
        IsNoted (N.faults notes.new) (N.gained notes.old) (N.gained notes.new) (note_by (refusal reading (I.seen images.new).attached)) }

    // Unless the outside or memory is the cause, the words and the text of the source have a reading: so `exact` tells each such status.
    ensures read { IsExact result → IfSome (S.left plan.old) (λ text. Reading words.now (Some text)) }

    // A refusal comes before the work itself: nothing is read or put, and no fault of the images or of the
    // output is answered in its place.
    ensures order { (reading : Reading words.now (S.left plan.old)) → (refused : Refusal) →
        refusal reading (I.seen images.new).attached ≡ Some refused →
        length (I.seen images.new).attached ≡ min (length (names_after words.now)) 65536 →
        IsOrdered (I.seen images.old).sectors_read (I.seen images.new).sectors_read (K.gained out.old) (K.gained out.new) result }

    // Words that are no command line are refused. They touch no image, and neither do `sample`, which works
    // on images of its own, `classes`, which works on sets alone, `--help` and `--version`.
    ensures words { (number : ℕ) → Reads words.now (Err number) → result ≡ 1 }
    ensures apart { (read : Result Command ℕ) → Reads words.now read → (job_of read).apart ≡ true → I.seen images.new ≡ I.seen images.old }

    // What a command over a text refuses early, as `salvage` does its images, it refuses before its source is touched.
    ensures early_refusal { (read : Result Command ℕ) (refused : Refusal) → Reads words.now read →
        (job_of read).early (named_by words.now (I.seen images.new).attached) ≡ Some refused →
        length (I.seen images.new).attached ≡ min (length (names_after words.now)) 65536 →
        (result ≡ status_of (Refused refused)) × (S.left plan.new ≡ S.left plan.old) × (S.faults plan.new ≡ S.faults plan.old) }

    // Only a command over a text takes from the source: at most one byte more than the text may have, and at
    // status 0 all of it.
    ensures takes { (read : Result Command ℕ) × Reads words.now read ×
        TakesBy (job_of read).most (stream (S.left plan.old) (S.faults plan.old)) (stream (S.left plan.new) (S.faults plan.new)) result }

    // Status 0: `out` gained the answer, and nothing else.
    ensures printed { result ≡ 0 → (reading : Reading words.now (S.left plan.old)) →
        IfSome (output reading (I.seen images.new).attached) (λ text. Appends (K.gained out.old) (K.gained out.new) text) }

    // Each count of faults rose just where that object's fault is the answer: the images' at 10, the source's at
    // 11, that of `out` at 12. So a run that ends out of memory met no fault of theirs.
    ensures image_fault { (result ≡ 10 → 0 < (I.seen images.new).faults) × (result ≢ 10 → (I.seen images.new).faults ≡ 0) }
    ensures plan_fault { (result ≡ 11 → 0 < S.faults plan.new) × (result ≢ 11 → S.faults plan.new ≡ 0) }
    ensures out_fault { (result ≡ 12 → 0 < K.faults out.new) × (result ≢ 12 → K.faults out.new ≡ 0) }

    // At every other status `out` gained a front of the answer: nothing but at 12, and at 10 where
    // the command puts as it reads. At 10 it is a front of whole pieces: of sectors of a volume, of lines of a report.
    ensures front { result ≢ 0 → (reading : Reading words.now (S.left plan.old)) →
        IfSome (output reading (I.seen images.new).attached) (λ text. AppendsFront (K.gained out.old) (K.gained out.new) text) }
    ensures nothing { result ≢ 0 → result ≢ 10 → result ≢ 12 → Keeps (K.gained out.old) (K.gained out.new) }
    ensures whole { result ≡ 10 → (reading : Reading words.now (S.left plan.old)) →
        IfSome (output reading (I.seen images.new).attached) (λ text. AppendsPieces (job_of reading.command).pieces (K.gained out.old) (K.gained out.new) text) }
    ensures unput { result ≡ 10 → (read : Result Command ℕ) → Reads words.now read → (job_of read).streams ≡ false →
        Keeps (K.gained out.old) (K.gained out.new) }

    // Where an attachment failed nothing is taken from the source, nothing put, and no sector read.
    ensures cut { length (I.seen images.new).attached < min (length (names_after words.now)) 65536 →
        Keeps (K.gained out.old) (K.gained out.new) × ((I.seen images.new).sectors_read ≡ (I.seen images.old).sectors_read)
        × (S.left plan.new ≡ S.left plan.old) × (S.faults plan.new ≡ S.faults plan.old) × (K.faults out.new ≡ K.faults out.old) }

    // The images attached are those of the words after `--`, in their order, and all of them (the
    // first 65,536 of more) unless an attachment failed. Nothing else is attached.
    ensures attached { AreImagesOf (I.seen images.old).world (names_after words.now) (I.seen images.new).attached }
    ensures all { (command : Command) → IsCommandLine words.now command → result ≢ 10 →
        length (I.seen images.new).attached ≡ min (length (names_after words.now)) 65536 }

    // Images are only attached and read. A refusal reads none, and neither does a run out of memory whose
    // command puts as it reads. What a command reads is bounded; only where the images failed or memory ran out may
    // a listing have a page that could not be made.
    ensures world { (I.seen images.new).world ≡ (I.seen images.old).world }
    ensures unread { result ≢ 0 → result ≢ 10 → result ≢ 12 → result ≢ 20 → (I.seen images.new).sectors_read ≡ (I.seen images.old).sectors_read }
    ensures early { result ≡ 20 → (read : Result Command ℕ) → Reads words.now read → (job_of read).streams ≡ true →
        (I.seen images.new).sectors_read ≡ (I.seen images.old).sectors_read }
    ensures reads { (reading : Reading words.now (S.left plan.old)) →
        MayRead reading (I.seen images.new).attached (is_cut_status result) (I.seen images.old).sectors_read (I.seen images.new).sectors_read }
{
    match run(rt, gate, alloc, words, plan, images, out) {
        Ok(()) => 0,
        Err(stop) => {
            let notice = stop.notice();
            let _ = notes.put(notice.line.as_bytes());
            notice.status
        }
    }
}
