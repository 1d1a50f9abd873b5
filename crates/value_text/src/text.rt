//! Texts in the making.
ghost use Rattle.std.specs.Prelude.{◌≡◌, ◌++◌, OnOk, decimal};

use itoa::Buffer;
use outside::{ListOf, Memory};

/// A list of bytes.
pub type Text = ListOf<u8>;

/// Appends the digits of a number.
pub fn add_number(text: &mut Text, number: u64) -> Result<(), Memory>
    ensures { OnOk result (text.new ≡ text.old ++ decimal number) }
{
    let mut buffer = Buffer::new();
    text.extend_from_slice(buffer.format(number).as_bytes())
}
