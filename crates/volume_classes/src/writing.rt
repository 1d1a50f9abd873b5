//! The text of classes.
ghost use Rattle.std.specs.Prelude.{◌≡◌, ◌++◌, IfOk, List, OnOk, codes, length};
ghost use Rattle.volume_classes.specs.Classes.{class_lines, class_text};
ghost use Rattle.volume_classes.specs.SetLists.{share_line};

use crate::numbering::Classed;
use outside::Memory;
use raid_params::Geometry;
use std::alloc::Global;
use value_text::{Text, add_number, common_set_line};

/// The line `K SETWORD` of each set, and the last line `classes C of S`.
pub(crate) fn write_classes(
    alloc: Global,
    sets: &[Geometry],
    classed: &Classed,
) -> Result<Text, Memory>
    requires { length classed.now.numbers ≡ length sets.now }
    ensures { IfOk result (λ text. text ≡ class_text sets.now classed.now.numbers classed.now.count) }
{
    let mut text = Text::new(alloc);
    add_sets(alloc, &mut text, classed.numbers.as_slice(), sets)?;
    add_share(&mut text, classed.count, sets.len() as u64)?;
    Ok(text)
}

/// Appends the line of each set.
fn add_sets(
    alloc: Global,
    text: &mut Text,
    numbers: &[u64],
    sets: &[Geometry],
) -> Result<(), Memory>
    requires { length numbers.now ≡ length sets.now }
    ensures { OnOk result (text.new ≡ text.old ++ class_lines numbers.now sets.now) }
{
    for (place, set) in sets.iter().enumerate() {
        let line = common_set_line(alloc, numbers[place], set)?;
        text.extend_from_slice(line.as_slice())?;
    }
    Ok(())
}

/// Appends the line `classes C of S`.
fn add_share(text: &mut Text, classes: u64, sets: u64) -> Result<(), Memory>
    ensures { OnOk result (text.new ≡ text.old ++ share_line (codes "classes ") classes sets) }
{
    text.extend_from_slice(b"classes ")?;
    add_number(text, classes)?;
    text.extend_from_slice(b" of ")?;
    add_number(text, sets)?;
    text.push(b'\n')
}
