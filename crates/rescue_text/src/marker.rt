//! Lines that are no blocks.
ghost use Rattle.std.specs.Prelude.{◌≡◌};
ghost use Rattle.std.specs.declared.option.Option.TheVariants.{Some};
ghost use Rattle.rescue_text.specs.RescueText.{image_below, is_skipped, map_image};

use crate::number::read_decimal;

/// Whether a line is empty, or a comment.
pub(crate) fn is_skipped_line(line: &[u8]) -> bool
    ensures { result ≡ is_skipped line.now }
{
    match line {
        [] => true,
        [first, ..] => *first == b'#',
    }
}

/// The image, of so many, whose section a line `map I` begins.
pub(crate) fn read_map(line: &[u8], images: u8) -> Option<u8>
    ensures { result ≡ map_image images line.now }
{
    match line {
        [b'm', b'a', b'p', b' ', number @ ..] => image_of(read_decimal(number)?, images),
        _ => None,
    }
}

/// A number as that of one of so many images.
fn image_of(number: u64, images: u8) -> Option<u8>
    ensures { result ≡ image_below images (Some number) }
{
    match u8::try_from(number) {
        Ok(image) if image < images => Some(image),
        _ => None,
    }
}
