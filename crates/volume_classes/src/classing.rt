//! The classes of the sets of a list.
ghost use Rattle.volume_classes.specs.Classes.{Classes};

use crate::fault::ClassFault;
use crate::numbering::number_sets;
use crate::reading::read_sets;
use crate::writing::write_classes;
use std::alloc::Global;
use value_text::Text;

/// Puts each set of a list into a class of sets that give the same volume, over so many images, whose members end before
/// the image sector `end`.
///
/// The text is what a listing prints: each line ends with a line feed and is `RANK SETWORD` or `next A of B`, with numbers
/// below 2 to the power 64. A set breaks no rule, and there are at most 1,024 of them. `Line` has the number of the first
/// line that is none of these.
///
/// The answer has a line `K SETWORD` for each set, in order, where K is the number of its class, from 0, in the order of
/// first members; then `classes C of S`, the numbers of classes and of sets.
pub fn classes(alloc: Global, text: &[u8], images: u8, end: u64) -> Result<Text, ClassFault>
    ensures { Classes images end text.now result }
{
    let sets = read_sets(alloc, text, images, end)?;
    let classed = number_sets(alloc, sets.as_slice(), images, end)?;
    Ok(write_classes(alloc, sets.as_slice(), &classed)?)
}
