//! Which images a run is read of.
ghost use Rattle.std.specs.Prelude.{ℕ, ◌≡◌, ◌≢◌, ◌+◌, ◌^◌, ◌<◌, ◌≤◌, length, slice_index_or, All, Some, false, true};
ghost use Rattle.raid_params.specs.declared.limits.TheConstants.{MOST};
ghost use Rattle.member_regions.specs.Members.{IsTestable};
ghost use Rattle.parity_scan.specs.ImageRows.{asks as asks_for};
ghost use Rattle.parity_scan.specs.Wanted.{AreWanted, HasNone, HasOne, KeepMarks, MarkOnly, MarkWanted};

use crate::image_rows::asks;
use crate::runs::Run;
use crate::scan_parts::Scanned;
use crate::tally::Tally;
use raid_params::{Geometry, Slots};
use search_scope::Scope;

/// The images of which some asking tally needs a run, each in the slot of its own number; the slots of the others are empty.
pub fn wanted_images(scanned: &Scanned, tallies: &[Tally], run: Run) -> Slots
    requires sets { All IsTestable scanned.now.sets.now }
    requires long { length tallies.now ≡ length scanned.now.sets.now }
    requires run { run.first + run.count < 2 ^ 64 }
    ensures wanted { AreWanted scanned.now.scope.now scanned.now.sets.now tallies.now run result.items (length result.items) }
    ensures slots { length result.items ≡ length scanned.now.scope.now.lengths.items }
{
    let marks = wanted_marks(scanned, tallies, run);
    let mut slots = Slots::new();
    for image in 0..scanned.scope.lengths.len() {
        let image = image as u8;
        slots.push(if marks[image as usize] {
            Some(image)
        } else {
            None
        });
    }
    slots
}

/// Marks the images of which some asking tally needs a run.
fn wanted_marks(scanned: &Scanned, tallies: &[Tally], run: Run) -> [bool; 256]
    requires sets { All IsTestable scanned.now.sets.now }
    requires long { length tallies.now ≡ length scanned.now.sets.now }
    requires run { run.first + run.count < 2 ^ 64 }
    ensures { MarkWanted scanned.now.scope.now scanned.now.sets.now tallies.now run (length scanned.now.sets.now) result }
{
    let mut marks = [false; 256];
    for k in 0..scanned.sets.len() {
        mark_set(&mut marks, scanned.scope, &scanned.sets[k], tallies[k], run);
    }
    marks
}

/// Marks the images of a set where its tally asks for the run.
fn mark_set(marks: &mut [bool], scope: &Scope, geo: &Geometry, tally: Tally, run: Run)
    requires marks { length marks.old ≡ 256 }
    requires set { IsTestable geo.now }
    requires run { run.first + run.count < 2 ^ 64 }
    ensures kept { KeepMarks marks.old marks.new }
    ensures marked { asks_for scope.now geo.now tally run ≡ true → (image : ℕ) → slice_index_or marks.new image false ≡ false → HasNone geo.now.slots.items image }
    ensures only { MarkOnly marks.old marks.new (λ image. (asks_for scope.now geo.now tally run ≡ true) × HasOne geo.now.slots.items image) }
    ensures long { length marks.new ≡ 256 }
{
    if asks(scope, geo, tally, run) {
        mark_images(marks, &geo.slots);
    }
}

/// Marks the images in some slots.
fn mark_images(marks: &mut [bool], slots: &[Option<u8>])
    requires { length marks.old ≡ 256 }
    ensures kept { KeepMarks marks.old marks.new }
    ensures marked { (image : ℕ) → slice_index_or marks.new image false ≡ false → HasNone slots.now image }
    ensures only { MarkOnly marks.old marks.new (HasOne slots.now) }
    ensures long { length marks.new ≡ 256 }
{
    for slot in 0..slots.len() {
        mark_slot(marks, slots[slot]);
    }
}

/// Marks the image in a slot.
fn mark_slot(marks: &mut [bool], held: Option<u8>)
    requires { length marks.old ≡ 256 }
    ensures kept { KeepMarks marks.old marks.new }
    ensures marked { (image : ℕ) → slice_index_or marks.new image false ≡ false → held ≢ Some image }
    ensures only { MarkOnly marks.old marks.new (λ image. held ≡ Some image) }
    ensures long { length marks.new ≡ 256 }
{
    if let Some(image) = held {
        marks[image as usize] = true;
    }
}
