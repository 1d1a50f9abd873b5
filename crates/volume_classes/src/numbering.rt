//! The numbers of classes.
ghost use Rattle.std.specs.Prelude.{◌≡◌, ◌<◌, ℕ, All, IfOk, MatchOption, None, length};
ghost use Rattle.raid_params.specs.Validity.{first_fault};
ghost use Rattle.volume_classes.specs.Classes.{AreClasses};
ghost use Rattle.volume_classes.specs.Tables.{HasSet, TellsAlike, TellsClass, TellsNone};

use crate::tables::{Table, are_alike, table_of};
use outside::{ListOf, Memory};
use raid_params::Geometry;
use std::alloc::Global;

/// The classes of sets.
#[derive(Drop)]
pub struct Classed {
    /// The number of its class for each set.
    pub numbers: ListOf<u64>,
    /// How many classes there are.
    pub count: u64,
}

/// Puts each set into its class. Each breaks no rule over so many images, whose members end before the image sector `end`.
///
/// The coefficients of a set are found once, and compared with those of the first set of each class.
pub(crate) fn number_sets(
    alloc: Global,
    sets: &[Geometry],
    images: u8,
    end: u64,
) -> Result<Classed, Memory>
    requires { All (λ geo. first_fault geo images end ≡ None) sets.now }
    ensures { IfOk result (λ classed. AreClasses images end sets.now classed.numbers classed.count) }
{
    let mut numbers = ListOf::new(alloc);
    let mut firsts = ListOf::new(alloc);
    for set in sets {
        let table = table_of(alloc, set, images, end)?;
        let number = class_of(&mut firsts, table, images, end)?;
        numbers.push(number as u64)?;
    }
    Ok(Classed {
        numbers,
        count: firsts.as_slice().len() as u64,
    })
}

/// The number of the class of a set, by its table, and that of a new class where no first set is alike. The first sets
/// stand in the order of their classes.
fn class_of(firsts: &mut ListOf<Table>, table: Table, images: u8, end: u64) -> Result<usize, Memory>
    requires firsts { All (HasSet images end) firsts.old }
    requires table { HasSet images end table }
    ensures { IfOk result (λ number. TellsClass images end firsts.old firsts.new table number) }
{
    match alike_first(firsts.as_slice(), &table, images, end) {
        Some(number) => Ok(number),
        None => {
            let number = firsts.as_slice().len();
            firsts.push(table)?;
            Ok(number)
        }
    }
}

/// The first of these sets that is alike.
fn alike_first(firsts: &[Table], table: &Table, images: u8, end: u64) -> Option<usize>
    requires firsts { All (HasSet images end) firsts.now }
    requires table { HasSet images end table.now }
    ensures { MatchOption result
        ((place : ℕ) → place < length firsts.now → TellsNone images end firsts.now place table.now)
        (λ place. (place < length firsts.now) × TellsAlike images end firsts.now place table.now) }
{
    for place in 0..firsts.len() {
        if are_alike(&firsts[place], table, images, end) {
            return Some(place);
        }
    }
    None
}
