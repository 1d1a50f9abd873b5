//! Why a run ends without the dialogue's end.
ghost use Rattle.std.specs.Prelude.{◌≡◌, ◌≤◌, length};
ghost use Rattle.nbd_server.specs.declared.stop.NbdStop.TheVariants.{OutOfMemory};
ghost use Rattle.reraid_nbd_cli.specs.Ends.{end_notice, ended as ended_of, long_line as long_line_of, stop_notice as stop_notice_of};
ghost use Rattle.reraid_nbd_cli.specs.declared.ends.NbdEnd.TheVariants.{Refused, Stopped};

use arrayvec::ArrayString;
use itoa::Buffer;
use nbd_server::NbdStop;
use outside::Memory;
use run_ends::{Notice, Refusal, Stop};

/// Why a run ends without the dialogue's end.
#[derive(Clone, Copy)]
pub enum NbdEnd {
    /// The words, the images or the set are refused, as `write` and `mirrorwrite` refuse them, or as `salvage` does, with the text of its maps.
    Refused(Refusal),
    /// An image could not be attached.
    ImageFault,
    /// The text of the maps could not be read.
    MapsFault,
    /// The volume has so many sectors, 2^54 or more. The protocol's clients cannot take so many bytes.
    Long(u64),
    /// The server stopped.
    Stopped(NbdStop),
}

impl From<Memory> for NbdEnd {
    ghost from_gives = { λ _ end. end ≡ Stopped OutOfMemory };

    fn from(_: Memory) -> NbdEnd {
        NbdEnd::Stopped(NbdStop::OutOfMemory)
    }
}

impl From<Refusal> for NbdEnd {
    ghost from_gives = { λ refusal end. end ≡ Refused refusal };

    fn from(refusal: Refusal) -> NbdEnd {
        NbdEnd::Refused(refusal)
    }
}

impl NbdEnd {
    /// The status that the program ends with, and the line for the notes.
    pub fn notice(&self) -> Notice
        ensures status { result.status ≡ (end_notice self.now).0 }
        ensures line { result.line.bytes ≡ (end_notice self.now).1 }
    {
        match self {
            NbdEnd::Refused(refusal) => Stop::Refused(*refusal).notice(),
            NbdEnd::ImageFault => Stop::ImageFault.notice(),
            NbdEnd::MapsFault => Notice {
                status: 16,
                line: text("reraid: maps read fault\n"),
            },
            NbdEnd::Long(sectors) => Notice {
                status: 15,
                line: long_line(*sectors),
            },
            NbdEnd::Stopped(stop) => stop_notice(*stop),
        }
    }
}

/// How a run ends, by how its server did.
pub(crate) fn ended(served: Result<(), NbdStop>) -> Result<(), NbdEnd>
    ensures { result ≡ ended_of served }
{
    match served {
        Ok(()) => Ok(()),
        Err(stop) => Err(NbdEnd::Stopped(stop)),
    }
}

/// The status and the line where the server stopped.
fn stop_notice(stop: NbdStop) -> Notice
    ensures status { result.status ≡ (stop_notice_of stop).0 }
    ensures line { result.line.bytes ≡ (stop_notice_of stop).1 }
{
    match stop {
        NbdStop::SourceFault => Notice {
            status: 11,
            line: text("reraid: input fault\n"),
        },
        NbdStop::OutFault => Stop::OutFault.notice(),
        NbdStop::Malformed => Notice {
            status: 14,
            line: text("reraid: dialogue is malformed\n"),
        },
        NbdStop::OutOfMemory => Stop::OutOfMemory.notice(),
    }
}

/// The line of a volume that is too long.
fn long_line(sectors: u64) -> ArrayString<128>
    ensures { result.bytes ≡ long_line_of sectors }
{
    let mut buffer = Buffer::new();
    let mut line = text("reraid: volume of ");
    line.push_str(buffer.format(sectors));
    line.push_str(" sectors is too long\n");
    line
}

/// A line of a fixed text, or the beginning of one.
fn text(line: &str) -> ArrayString<128>
    requires { length line.now ≤ 32 }
    ensures { result.bytes ≡ line.now }
{
    let mut room = ArrayString::new();
    room.push_str(line);
    room
}
