//! Blocks of a map file.
ghost use Rattle.std.specs.Prelude.{◌≡◌};
ghost use Rattle.rescue_text.specs.Lines.{block, block_between, sign_status, status};

use crate::number::read_number;
use crate::words::{first_word, skip_blanks};

/// How far a block of an image was read.
#[derive(Clone, Copy, Debug, PartialEq, Eq)]
pub enum Status {
    /// `?`: it was not tried.
    NonTried,
    /// `*`: it failed, and its edges were not sought.
    NonTrimmed,
    /// `/`: it failed, and its sectors were not tried one by one.
    NonScraped,
    /// `-`: its sectors are bad.
    Bad,
    /// `+`: it was read.
    Finished,
}

/// Bytes of an image that lie side by side and were read equally far.
#[derive(Clone, Copy, Debug, PartialEq, Eq)]
pub struct Block {
    /// The first byte.
    pub start: u64,
    /// The byte after the last one, above `start`.
    pub end: u64,
    /// How far they were read.
    pub status: Status,
}

/// The block that a line of a map file tells: its first byte, its size in bytes and its status, with spaces or tabs between
/// them, and any number of these before and after. The size is at least 1, and the end is below 2 to the power 64. `None`
/// for any other line.
///
/// Source: the data blocks of the map file of GNU ddrescue.
pub(crate) fn read_block(line: &[u8]) -> Option<Block>
    ensures { result ≡ block line.now }
{
    let (start, after_start) = first_word(line);
    let (size, after_size) = first_word(after_start);
    let (status, after_status) = first_word(after_size);
    if !skip_blanks(after_status).is_empty() {
        return None;
    }
    let start = read_number(start)?;
    let size = read_number(size)?;
    let status = read_status(status)?;
    block_of_size(start, size, status)
}

/// The block of so many bytes.
fn block_of_size(start: u64, size: u64, status: Status) -> Option<Block>
    ensures { result ≡ block_between start size status }
{
    if size == 0 {
        return None;
    }
    let end = start.checked_add(size)?;
    Some(Block { start, end, status })
}

/// The status that a word names, one sign. `None` for any other word.
fn read_status(word: &[u8]) -> Option<Status>
    ensures { result ≡ status word.now }
{
    match word {
        [sign] => status_of_sign(*sign),
        _ => None,
    }
}

/// The status that a sign stands for.
fn status_of_sign(sign: u8) -> Option<Status>
    ensures { result ≡ sign_status sign }
{
    match sign {
        b'?' => Some(Status::NonTried),
        b'*' => Some(Status::NonTrimmed),
        b'/' => Some(Status::NonScraped),
        b'-' => Some(Status::Bad),
        b'+' => Some(Status::Finished),
        _ => None,
    }
}
