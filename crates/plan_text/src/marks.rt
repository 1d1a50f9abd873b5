//! Marks and their rules.
ghost use Rattle.std.specs.Prelude.{◌≡◌, ◌≢◌, ◌<◌, ◌^◌, ◌↔◌, ◌∷◌, ◌++◌, ◌*◌, ◌+◌, ℕ, List, IsTrue, decimal, MatchOption};
ghost use Rattle.landmark_rules.specs.declared.marks.Mark.{Mark as MarkOf};
ghost use Rattle.landmark_rules.specs.declared.marks.MarkBounds.{MarkBounds as BoundsOf};
ghost use Rattle.landmark_rules.specs.Groups.{AreMarkBounds};
ghost use Rattle.landmark_rules.specs.declared.marks.Rule.{Rule as RuleOf};
ghost use Rattle.landmark_rules.specs.declared.marks.Rule.TheVariants.{Either as EitherOf, Every as EveryOf};
ghost use Rattle.landmark_rules.specs.Rules.{IsRule};
ghost use Rattle.plan_text.specs.declared.entry.Entry.{Entry as EntryOf};
ghost use Rattle.plan_text.specs.Drafts.{IsEntry, IsSpelledMark, entry_line};
ghost use Rattle.plan_text.specs.PlanText.{bounds_text, mark_text, rule_text};

use crate::entry::Entry;
use landmark_rules::{Mark, MarkBounds, Rule};
use landmark_text::{kind_until, read_group};
use raid_params::SECTORS_END;
use value_text::{after, read_number, value_until};

/// The line of groups that a line is.
pub fn read_entry(line: &[u8]) -> Option<Entry>
    ensures { MatchOption result
        ((entry : EntryOf) → IsEntry entry → line.now ≢ entry_line entry)
        (λ entry. IsEntry entry × (line.now ≡ entry_line entry)) }
{
    if line == b"done".as_slice() {
        return Some(Entry::Done);
    }
    if let Some(name) = after(line, b"group ") {
        return Some(Entry::Group(read_group(name)?));
    }
    if let Some(text) = after(line, b"bounds ") {
        return Some(Entry::Bounds(read_bounds(text)?));
    }
    let text = after(line, b"mark ")?;
    Some(Entry::Mark(read_mark(text)?))
}

/// The bounds that a text spells.
fn read_bounds(text: &[u8]) -> Option<MarkBounds>
    ensures { MatchOption result
        ((bounds : BoundsOf) → AreMarkBounds bounds → text.now ≢ bounds_text bounds)
        (λ bounds. AreMarkBounds bounds × (text.now ≡ bounds_text bounds)) }
{
    let (misfits, after_misfits) = value_until::<u64>(text, b' ')?;
    let least = read_sectors(after_misfits)?;
    if misfits < SECTORS_END {
        Some(MarkBounds { misfits, least })
    } else {
        None
    }
}

/// The mark that a text spells.
fn read_mark(text: &[u8]) -> Option<Mark>
    ensures { MatchOption result
        ((mark : MarkOf) → IsSpelledMark mark → text.now ≢ mark_text mark)
        (λ mark. IsSpelledMark mark × (text.now ≡ mark_text mark)) }
{
    let (kind, after_kind) = kind_until(text, b' ')?;
    let (image, after_image) = value_until(after_kind, b' ')?;
    let (sector, after_sector) = value_until(after_image, b' ')?;
    let rule = read_rule(after_sector)?;
    Some(Mark {
        kind,
        image,
        sector,
        rule,
    })
}

/// The rule that a text spells.
fn read_rule(text: &[u8]) -> Option<Rule>
    ensures { MatchOption result
        ((rule : RuleOf) → IsRule rule → text.now ≢ rule_text rule)
        (λ rule. IsRule rule × (text.now ≡ rule_text rule)) }
{
    if let Some(distance) = after(text, b"at:") {
        return Some(Rule::At(read_sectors(distance)?));
    }
    if let Some(distances) = after(text, b"either:") {
        return read_either(distances);
    }
    read_every(after(text, b"every:")?)
}

/// The rule of two distances.
fn read_either(text: &[u8]) -> Option<Rule>
    ensures { MatchOption result
        ((first second : ℕ) → IsRule (EitherOf first second) → text.now ≢ decimal first ++ 58 ∷ decimal second)
        (λ rule. (first : ℕ) × (second : ℕ) × (rule ≡ EitherOf first second) × IsRule (EitherOf first second) × (text.now ≡ decimal first ++ 58 ∷ decimal second)) }
{
    let (first, after_first) = sectors_until(text)?;
    let second = read_sectors(after_first)?;
    Some(Rule::Either(first, second))
}

/// The rule of a step, a count and the first distance, whose greatest distance is that of a sector too.
fn read_every(text: &[u8]) -> Option<Rule>
    ensures { MatchOption result
        ((step count plus : ℕ) → IsRule (EveryOf step count plus) → text.now ≢ decimal step ++ 58 ∷ (decimal count ++ 58 ∷ decimal plus))
        (λ rule. (step : ℕ) × (count : ℕ) × (plus : ℕ) × (rule ≡ EveryOf step count plus) × IsRule (EveryOf step count plus) × (text.now ≡ decimal step ++ 58 ∷ (decimal count ++ 58 ∷ decimal plus))) }
{
    let (step, after_step) = sectors_until(text)?;
    let (count, after_count) = sectors_until(after_step)?;
    let plus = read_sectors(after_count)?;
    if is_near(step, count, plus) {
        Some(Rule::Every { step, count, plus })
    } else {
        None
    }
}

/// Whether `step * count + plus` is a number of sectors.
fn is_near(step: u64, count: u64, plus: u64) -> bool
    ensures { IsTrue result ↔ (step * count + plus < 2 ^ 55) }
{
    step.checked_mul(count)
        .and_then(|product| product.checked_add(plus))
        .is_some_and(|greatest| greatest < SECTORS_END)
}

/// The number of sectors before a colon, and what follows the colon.
fn sectors_until(text: &[u8]) -> Option<(u64, &[u8])>
    ensures { MatchOption result
        ((n : ℕ) (rest : List ℕ) → n < 2 ^ 55 → text.entry.now ≢ decimal n ++ 58 ∷ rest)
        (λ r. (r.0 < 2 ^ 55) × (text.entry.now ≡ decimal r.0 ++ 58 ∷ r.1.now)) }
{
    let (number, rest) = value_until::<u64>(text, b':')?;
    if number < SECTORS_END {
        Some((number, rest))
    } else {
        None
    }
}

/// The number of sectors that the whole text spells.
fn read_sectors(text: &[u8]) -> Option<u64>
    ensures { MatchOption result
        ((n : ℕ) → n < 2 ^ 55 → text.now ≢ decimal n)
        (λ n. (n < 2 ^ 55) × (text.now ≡ decimal n)) }
{
    let number = read_number(text)?;
    if number < SECTORS_END {
        Some(number)
    } else {
        None
    }
}
