//! The heads of options and requests.
ghost use Rattle.std.specs.Prelude.{◌≡◌, ◌+◌, ◌≤◌, ◌&&◌, length, nat_le};
ghost use Rattle.nbd_text.specs.Fields.{u16_at, u32_at, u64_at};
ghost use Rattle.nbd_text.specs.Requests.{error_of, is_read, request_of};

use crate::numbers::*;
use byteorder::{BigEndian, ByteOrder};

/// The head of an option.
#[derive(Clone, Copy, Debug, PartialEq, Eq)]
pub struct OptionHead {
    /// Its magic number, which has to be `IHAVEOPT`.
    pub magic: u64,
    /// Which option it is.
    pub option: u32,
    /// The bytes of data that follow.
    pub length: u32,
}

/// A request.
#[derive(Clone, Copy, Debug, PartialEq, Eq)]
pub struct Request {
    /// Its command flags.
    pub flags: u16,
    /// Its command.
    pub command: u16,
    /// The client's name for it, which the reply repeats.
    pub handle: u64,
    /// The first byte of the device that it is about.
    pub offset: u64,
    /// How many bytes it is about.
    pub length: u32,
}

/// The number in the two bytes from `at` on.
#[tactic(auto, unfolding(crate::specs::Fields::u16_at))]
pub(crate) fn u16_at(at: usize, bytes: &[u8]) -> u16
    requires { at + 2 ≤ length bytes.now }
    ensures { result ≡ u16_at at bytes.now }
{
    BigEndian::read_u16(&bytes[at..])
}

/// The number in the four bytes from `at` on.
#[tactic(auto, unfolding(crate::specs::Fields::u32_at))]
pub fn u32_at(at: usize, bytes: &[u8]) -> u32
    requires { at + 4 ≤ length bytes.now }
    ensures { result ≡ u32_at at bytes.now }
{
    BigEndian::read_u32(&bytes[at..])
}

/// The number in the eight bytes from `at` on.
#[tactic(auto, unfolding(crate::specs::Fields::u64_at))]
fn u64_at(at: usize, bytes: &[u8]) -> u64
    requires { at + 8 ≤ length bytes.now }
    ensures { result ≡ u64_at at bytes.now }
{
    BigEndian::read_u64(&bytes[at..])
}

impl OptionHead {
    /// The head that stands in the bytes.
    pub fn read(bytes: &[u8; OPTION_HEAD]) -> OptionHead
        ensures { result ≡ record { magic = u64_at 0 bytes.now; option = u32_at 8 bytes.now; length = u32_at 12 bytes.now } }
    {
        OptionHead {
            magic: u64_at(0, bytes),
            option: u32_at(8, bytes),
            length: u32_at(12, bytes),
        }
    }
}

impl Request {
    /// The request that stands in the bytes, or None where its magic number is wrong.
    #[tactic(auto, unfolding(crate::specs::Requests::request_of))]
    pub fn read(bytes: &[u8; REQUEST_HEAD]) -> Option<Request>
        ensures { result ≡ request_of bytes.now }
    {
        if u32_at(0, bytes) != REQUEST_MAGIC {
            return None;
        }
        Some(Request {
            flags: u16_at(4, bytes),
            command: u16_at(6, bytes),
            handle: u64_at(8, bytes),
            offset: u64_at(16, bytes),
            length: u32_at(24, bytes),
        })
    }

    /// The error of the request to a device of `size` bytes, and 0 for none.
    #[tactic(auto, unfolding(crate::specs::Requests::error_of))]
    pub fn error(&self, size: u64) -> u32
        ensures { result ≡ error_of size self.now }
    {
        match self.command {
            CMD_WRITE | CMD_TRIM | CMD_WRITE_ZEROES => EPERM,
            CMD_READ if self.flags == 0 && self.is_within(size) => 0,
            _ => EINVAL,
        }
    }

    /// Whether a device of `size` bytes is read for the request.
    #[tactic(auto, unfolding(crate::specs::Requests::is_read))]
    pub fn is_read(&self, size: u64) -> bool
        ensures { result ≡ is_read size self.now }
    {
        self.error(size) == 0 && self.length > 0
    }

    /// Whether what the request is about is no longer than the greatest block, and lies within a device of `size` bytes.
    fn is_within(&self, size: u64) -> bool
        ensures { result ≡ (nat_le self.now.length MOST_BLOCK && nat_le (self.now.offset + self.now.length) size) }
    {
        let end = self.offset.checked_add(self.length as u64);
        self.length <= MOST_BLOCK && end.is_some_and(|end| end <= size)
    }
}
