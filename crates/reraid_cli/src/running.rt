//! A run, up to why it ends.
ghost use Rattle.std.specs.Prelude.{◌≡◌, ◌^◌, ◌<◌, [], All, Err, IsErrOf, IsTrue, Ok, Result, length, min, ℕ};
ghost use Rattle.std.specs.Io.KnownBytes.{Keeps};
ghost use Rattle.outside.specs.Attached.{AreImagesOf};
ghost use Rattle.run_ends.specs.Jobs.{Does, around, named, stream};
ghost use Rattle.command_words.specs.Commands.{EndsInNames, IsCommandLine, IsWithin, Reads, names_after};
ghost use Rattle.command_words.specs.declared.command.Command.{Command as CommandOf};
ghost use Rattle.reraid_cli.specs.Answers.{named_by};
ghost use Rattle.reraid_cli.specs.Table.{job_of};

use class_job::classes;
use command_words::{Command, Word, read_words};
use gates::Gate;
use near_jobs::{MirrorWords, mirrors, mirrorwrite};
use outside::{Images, MOST_ATTACHED, Sink, Source};
use plan_jobs::{Listing, check, list};
use program_texts::{help, version};
use relation_job::relations;
use run_ends::{Refusal, Stop, attach_front};
use salvage_job::salvage;
use sample_job::sample;
use set_jobs::{map, rebuild, write};
use std::alloc::Global;
use std::thread::Threads;
use survey_job::survey;

/// Does the work in its order: words, images, and the command's job.
pub fn run<R: Threads + Sync, S: Source, I: Images, K: Sink, G: Gate + Sync>(
    rt: &R,
    gate: &G,
    alloc: Global,
    words: &[Word],
    plan: &mut S,
    images: &mut I,
    out: &mut K,
) -> Result<(), Stop>
    requires fresh { (I.seen images.old).attached ≡ [] }
    requires named { All (λ name. IsTrue ((I.seen images.old).world.may_attach name)) (names_after words.now) }
    ensures does { (read : Result CommandOf ℕ) × Reads words.now read ×
        Does (job_of read) (named_by words.now (I.seen images.new).attached)
        (around (I.seen images.old) (stream (S.left plan.old) (S.faults plan.old)))
        (around (I.seen images.new) (stream (S.left plan.new) (S.faults plan.new)))
        (stream (K.gained out.old) (K.faults out.old)) (stream (K.gained out.new) (K.faults out.new)) result }
    ensures words { (number : ℕ) → Reads words.now (Err number) → IsErrOf result (Stop.Refused (Refusal.Word number)) }
    ensures cut { length (I.seen images.new).attached < min (length (names_after words.now)) MOST_ATTACHED →
        Keeps (K.gained out.old) (K.gained out.new) × ((I.seen images.new).sectors_read ≡ (I.seen images.old).sectors_read)
        × (S.left plan.new ≡ S.left plan.old) × (S.faults plan.new ≡ S.faults plan.old) × (K.faults out.new ≡ K.faults out.old) }
    ensures attached { AreImagesOf (I.seen images.old).world (names_after words.now) (I.seen images.new).attached }
    ensures all { (command : CommandOf) → IsCommandLine words.now command → (IsErrOf result Stop.ImageFault → ⊥) →
        length (I.seen images.new).attached ≡ min (length (names_after words.now)) MOST_ATTACHED }
{
    match read_words(words) {
        Err(number) => Err(Stop::Refused(Refusal::Word(number))),
        Ok(command) => {
            let names = names_of(&command, words);
            match attach_front(images, names) {
                Ok(()) => serve(rt, alloc, command, plan, images, names.len(), out, gate),
                Err(_) => Err(Stop::ImageFault),
            }
        }
    }
}

/// The names of the command's images: the last words. `sample`, `classes`, `--help` and `--version` have none.
fn names_of<'a>(command: &Command, words: &'a [Word]) -> &'a [Word]
    requires { EndsInNames words.now command.now }
    ensures { result.now ≡ names_after words.now }
{
    match command {
        Command::Survey(asked) => &words[asked.names..],
        Command::Relations(asked) => &words[asked.names..],
        Command::List { names, .. }
        | Command::Check { names, .. }
        | Command::Map { names, .. }
        | Command::Write { names, .. }
        | Command::Rebuild { names, .. }
        | Command::Mirrors { names, .. }
        | Command::MirrorWrite { names, .. }
        | Command::Salvage { names, .. } => &words[*names..],
        Command::Sample { .. } | Command::Classes { .. } | Command::Help | Command::Version => &[],
    }
}

/// Does the command's job over the attached images, of which `names` are named.
fn serve<R: Threads + Sync, S: Source, I: Images, K: Sink, G: Gate + Sync>(
    rt: &R,
    alloc: Global,
    command: Command,
    plan: &mut S,
    images: &mut I,
    names: usize,
    out: &mut K,
    gate: &G,
) -> Result<(), Stop>
    requires attached { length (I.seen images.old).attached ≡ min names MOST_ATTACHED }
    requires small { All (λ image. image.sectors < 2 ^ 55) (I.seen images.old).attached }
    requires within { IsWithin command }
    ensures does { Does (job_of (Ok command)) (named names (I.seen images.old).attached)
        (around (I.seen images.old) (stream (S.left plan.old) (S.faults plan.old)))
        (around (I.seen images.new) (stream (S.left plan.new) (S.faults plan.new)))
        (stream (K.gained out.old) (K.faults out.old)) (stream (K.gained out.new) (K.faults out.new)) result }
    ensures kept { (I.seen images.new).attached ≡ (I.seen images.old).attached }
{
    match command {
        Command::Survey(asked) => survey(alloc, images, names, asked, out),
        Command::List {
            from,
            size,
            span,
            pages,
            form,
            ..
        } => {
            let asked = Listing {
                from,
                size,
                span,
                pages,
                form,
            };
            list(rt, alloc, plan, images, names, &asked, out, gate)
        }
        Command::Check { set, .. } => check(alloc, plan, images, names, &set, out),
        Command::Map {
            set,
            sector,
            end,
            ..
        } => map(alloc, images, names, &set, end, sector, out),
        Command::Write { set, end, .. } => write(alloc, images, names, &set, end, out),
        Command::Rebuild { set, slot, end, .. } => {
            rebuild(alloc, images, names, &set, end, slot, out)
        }
        Command::Sample {
            number,
            set,
            rows,
            xfs,
        } => sample(rt, alloc, number, &set, rows, xfs, out, gate),
        Command::Classes { images, end } => classes(alloc, plan, images, end, out),
        Command::Mirrors {
            layouts,
            members,
            chunks,
            offsets,
            missing,
            foreign,
            badrows,
            window,
            end,
            from,
            size,
            span,
            ..
        } => {
            let asked = MirrorWords {
                layouts,
                members,
                chunks,
                offsets,
                missing,
                foreign,
                badrows,
                window,
                end,
                from,
                size,
                span,
            };
            mirrors(alloc, images, names, asked, out)
        }
        Command::MirrorWrite { set, end, .. } => mirrorwrite(alloc, images, names, &set, end, out),
        Command::Salvage { set, lost, end, .. } => {
            salvage(rt, alloc, plan, images, names, &set, lost, end, out, gate)
        }
        Command::Relations(asked) => relations(alloc, images, names, asked, out),
        Command::Help => help(out),
        Command::Version => version(out),
    }
}
