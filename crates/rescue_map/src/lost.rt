//! What of a volume is lost, as a text.
ghost use Rattle.std.specs.Prelude.{◌≡◌, ◌+◌, ◌-◌, ◌*◌, ◌<◌, ◌≤◌, ◌^◌, ◌++◌, ℕ, Bool, IfOk, IfSome, OnOk, decimal, false, true};
ghost use Rattle.raid_params.specs.Size.{data_blocks as data_blocks_of, rows as rows_of, volume_sectors as volume_sectors_of};
ghost use Rattle.rescue_map.specs.Damaged.{IsDamaged};
ghost use Rattle.rescue_map.specs.LostText.{lines_before, lost_text as lost_text_of, HasLost, HasRuns};
ghost use Rattle.value_text.specs.Spelling.{line};

use crate::damaged::{Damage, are_all_good};
use crate::device::kept_run;
use address_map::{data_blocks, rows, volume_sectors};
use outside::Memory;
use raid_params::Wide;
use rescue_text::Rescue;
use std::alloc::Global;
use value_text::{Text, add_number};

/// The runs of lost sectors among the first sectors of a volume.
#[derive(Drop)]
pub struct Runs {
    /// A line for each run that has ended.
    pub text: Text,
    /// The first sector of the run that has not.
    pub first: Option<u64>,
    /// How many sectors are not lost.
    pub good: u64,
}

/// Appends a line: a word, a number, what stands between, and a number.
fn add_line(
    text: &mut Text,
    word: &[u8],
    first: u64,
    between: &[u8],
    second: u64,
) -> Result<(), Memory>
    ensures { OnOk result (text.new ≡ text.old ++ line (word.now ++ decimal first ++ between.now ++ decimal second)) }
{
    text.extend_from_slice(word)?;
    add_number(text, first)?;
    text.extend_from_slice(between)?;
    add_number(text, second)?;
    text.extend_from_slice(b"\n")
}

impl Runs {
    /// None, before the first sector.
    fn new(alloc: Global) -> Runs
        ensures { (lost : ℕ → Bool) (sectors : ℕ) → HasRuns lost sectors 0 result }
    {
        Runs {
            text: Text::new(alloc),
            first: None,
            good: 0,
        }
    }

    /// Ends the run that has not ended, before a sector that is not lost, or past the last one.
    fn end_at(&mut self, at: u64) -> Result<(), Memory>
        requires before { IfSome self.old.first (λ first. first ≤ at) }
        ensures lines { (lost : ℕ → Bool) (sectors : ℕ) → HasRuns lost sectors at self.old → (at < sectors → lost at ≡ false) →
            OnOk result (self.new.text ≡ lines_before lost sectors at) }
        ensures first { OnOk result (self.new.first ≡ None) }
        ensures good { self.new.good ≡ self.old.good }
    {
        if let Some(first) = self.first {
            add_line(&mut self.text, b"lost ", first, b" ", at - first)?;
            self.first = None;
        }
        Ok(())
    }

    /// Passes over sectors that are not lost.
    fn pass(&mut self, at: u64, count: u64) -> Result<(), Memory>
        requires some { 0 < count }
        requires before { IfSome self.old.first (λ first. first ≤ at) }
        requires good { self.old.good ≤ at }
        requires room { at + count < 2 ^ 64 }
        ensures { (lost : ℕ → Bool) (sectors : ℕ) → HasRuns lost sectors at self.old → at + count ≤ sectors →
            ((w : ℕ) → at ≤ w → w < at + count → lost w ≡ false) → OnOk result (HasRuns lost sectors (at + count) self.new) }
    {
        self.end_at(at)?;
        self.good += count;
        Ok(())
    }

    /// Takes a lost sector to the run.
    fn lose(&mut self, at: u64)
        ensures { (lost : ℕ → Bool) (sectors : ℕ) → HasRuns lost sectors at self.old → at < sectors → lost at ≡ true → HasRuns lost sectors (at + 1) self.new }
    {
        if self.first.is_none() {
            self.first = Some(at);
        }
    }
}

/// Adds the volume sectors from one up to another.
fn add_sectors(damage: &Damage, from: u64, to: u64, runs: &mut Runs) -> Result<(), Memory>
    requires set { IsDamaged damage.now.set.now damage.now.end }
    requires range { from ≤ to }
    requires within { to ≤ volume_sectors_of damage.now.set.now.geo.head damage.now.end }
    requires runs { HasLost damage.now.rescue.now damage.now.set.now damage.now.end from runs.old }
    ensures { OnOk result (HasLost damage.now.rescue.now damage.now.set.now damage.now.end to runs.new) }
{
    let mut at = from;
    while at < to {
        let kept = kept_run(damage, at, to - at);
        if kept == 0 {
            runs.lose(at);
        } else {
            runs.pass(at, kept)?;
        }
        at += kept.max(1);
    }
    Ok(())
}

/// Adds the volume sectors of `count` rows of chunks from number `first` on. Rows in which all is good are passed over together.
fn add_rows(damage: &Damage, first: u64, count: u64, runs: &mut Runs) -> Result<(), Memory>
    requires set { IsDamaged damage.now.set.now damage.now.end }
    requires within { first + count ≤ rows_of damage.now.set.now.geo.head damage.now.end }
    requires runs { HasLost damage.now.rescue.now damage.now.set.now damage.now.end
        (first * (damage.now.set.now.geo.head.chunk * data_blocks_of damage.now.set.now.geo.head)) runs.old }
    ensures { OnOk result (HasLost damage.now.rescue.now damage.now.set.now damage.now.end
        ((first + count) * (damage.now.set.now.geo.head.chunk * data_blocks_of damage.now.set.now.geo.head)) runs.new) }
{
    if count == 0 {
        return Ok(());
    }
    let head = &damage.set.geo.head;
    let sectors = head.chunk * data_blocks(head) as u64;
    if are_all_good(
        damage.set,
        damage.rescue,
        first * head.chunk,
        count * head.chunk,
    ) {
        return runs.pass(first * sectors, count * sectors);
    }
    if count == 1 {
        return add_sectors(damage, first * sectors, (first + 1) * sectors, runs);
    }
    let half = count / 2;
    add_rows(damage, first, half, runs)?;
    add_rows(damage, first + half, count - half, runs)
}

/// What of the volume is lost: a line for each longest run of lost sectors, and how many sectors are not lost.
pub fn lost_text(alloc: Global, set: &Wide, end: u64, rescue: &Rescue) -> Result<Text, Memory>
    requires set { IsDamaged set.now end }
    ensures { IfOk result (λ text. text ≡ lost_text_of rescue.now set.now end) }
{
    let head = &set.geo.head;
    let sectors = volume_sectors(head, end);
    let damage = Damage { set, end, rescue };
    let mut runs = Runs::new(alloc);
    add_rows(&damage, 0, rows(head, end), &mut runs)?;
    runs.end_at(sectors)?;
    add_line(&mut runs.text, b"good ", runs.good, b" of ", sectors)?;
    Ok(runs.text)
}
