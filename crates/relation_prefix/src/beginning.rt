//! Whether the slots of a set may begin so, by some rows.
ghost use Rattle.std.specs.Prelude.{ℕ, ◌≡◌, ◌/◌, ◌<◌, ◌≤◌, ◌||◌, All, IfSome, IsTrue, List, None, Some, false, length, true};
ghost use Rattle.std.specs.List.{list_any, range_with_len};
ghost use Rattle.std.specs.declared.option.Option.{Option as OptionOf};
ghost use Rattle.raid_params.specs.Slots.{empties};
ghost use Rattle.raid_params.specs.Validity.{is_valid_head};
ghost use Rattle.relation_prefix.specs.declared.sampled.SampledRow.{SampledRow as Row};
ghost use Rattle.relation_prefix.specs.Joint.{AreRefusals};
ghost use Rattle.relation_prefix.specs.Sampled.{few_refuse as few_rows_refuse, is_raid6 as level_is_raid6, is_untested as nothing_is_tested, may_be_lost as slot_may_be_lost, may_begin as set_may_begin, may_begin_with as set_may_begin_with, may_lose as set_may_lose, refuses as row_refuses, row_allows as equations_allowed, AreRowWeights, CanTest};
ghost use Rattle.relation_prefix.specs.Ties.{AreThere, FitTies};

use crate::pins::allows;
use crate::refusals::Refusals;
use crate::row_ties::RowTies;
use crate::sampled::{PrefixTest, SampledRow};
use crate::weights::RowWeights;
use raid_params::{Head, Level, count_empty};

/// Whether each equation of a row may be a relation of it, where the slots of a set with none lost begin so.
fn whole_allows(ties: &RowTies, weights: &RowWeights, head: &Head, slots: &[Option<u8>]) -> bool
    requires valid { IsTrue (is_valid_head head.now) }
    requires ties { FitTies ties.now }
    requires slots { AreThere ties.now.images slots.now }
    requires short { length slots.now ≤ head.now.members }
    ensures { (row : ℕ) → AreRowWeights head.now row weights.now → result ≡ equations_allowed ties.now head.now row slots.now None }
{
    let members = head.members as usize;
    match head.level {
        Level::Raid0 => true,
        Level::Raid5 => allows(ties, members, &weights.p, slots),
        Level::Raid6 => {
            allows(ties, members, &weights.p, slots) && allows(ties, members, &weights.q, slots)
        }
    }
}

/// Whether each equation of a row that needs no lost block may be a relation of it, where the slots of a set begin so of which
/// this slot alone is lost, or none.
fn row_allows(
    ties: &RowTies,
    weights: &RowWeights,
    head: &Head,
    slots: &[Option<u8>],
    lost: Option<u8>,
) -> bool
    requires valid { IsTrue (is_valid_head head.now) }
    requires ties { FitTies ties.now }
    requires slots { AreThere ties.now.images slots.now }
    requires short { length slots.now ≤ head.now.members }
    requires lost { IfSome lost (λ slot. slot < head.now.members) }
    ensures { (row : ℕ) → AreRowWeights head.now row weights.now → result ≡ equations_allowed ties.now head.now row slots.now lost }
{
    match lost {
        Some(slot) => {
            let left = weights.left_without(slot as usize, slots.len());
            allows(ties, head.members as usize, &left, slots)
        }
        None => whole_allows(ties, weights, head, slots),
    }
}

/// Whether a row is tested and refuses a prefix.
fn refuses(
    sampled: &SampledRow,
    weights: &RowWeights,
    test: &PrefixTest,
    slots: &[Option<u8>],
    lost: Option<u8>,
) -> bool
    requires valid { IsTrue (is_valid_head test.now.head) }
    requires ties { FitTies sampled.now.ties }
    requires slots { AreThere sampled.now.ties.images slots.now }
    requires short { length slots.now ≤ test.now.head.members }
    requires lost { IfSome lost (λ slot. slot < test.now.head.members) }
    requires weights { AreRowWeights test.now.head (sampled.now.row / test.now.head.chunk) weights.now }
    ensures { result ≡ row_refuses test.now slots.now lost sampled.now }
{
    sampled.row < test.tested && !row_allows(&sampled.ties, weights, &test.head, slots, lost)
}

/// Whether no more of the rows refuse a prefix than may be unsound.
fn few_refuse(
    rows: &[SampledRow],
    weights: &[RowWeights],
    test: &PrefixTest,
    slots: &[Option<u8>],
    lost: Option<u8>,
) -> bool
    requires can { CanTest test.now.head rows.now weights.now }
    requires slots { All (λ sampled. AreThere sampled.ties.images slots.now) rows.now }
    requires short { length slots.now ≤ test.now.head.members }
    requires lost { IfSome lost (λ slot. slot < test.now.head.members) }
    ensures { result ≡ few_rows_refuse rows.now test.now slots.now lost }
{
    let mut refused = 0u64;
    for number in 0..rows.len() {
        if refuses(&rows[number], &weights[number], test, slots, lost) {
            refused += 1;
            if refused > test.badrows {
                return false;
            }
        }
    }
    true
}

/// Whether this slot alone may be lost, or none, where the slots of a set begin so, of which so many are empty.
fn may_lose(test: &PrefixTest, slots: &[Option<u8>], empty: usize, lost: Option<u8>) -> bool
    requires { empty ≡ empties slots.now }
    ensures { result ≡ set_may_lose test.now slots.now lost }
{
    match lost {
        Some(slot) => is_raid6(test.head.level) && may_lose_slot(test, slots, empty, slot as usize),
        None => empty == 0,
    }
}

/// Whether the level is 6.
fn is_raid6(level: Level) -> bool
    ensures { result ≡ level_is_raid6 level }
{
    match level {
        Level::Raid0 | Level::Raid5 => false,
        Level::Raid6 => true,
    }
}

/// Whether this slot alone may be lost: it is empty, or it is still to come and none is.
fn may_lose_slot(test: &PrefixTest, slots: &[Option<u8>], empty: usize, slot: usize) -> bool
    requires { empty ≡ empties slots.now }
    ensures { result ≡ slot_may_be_lost test.now slots.now slot }
{
    if slot < slots.len() {
        empty == 1 && slots[slot].is_none()
    } else {
        empty == 0 && test.missing >= 1
    }
}

/// Whether some slot may be the only lost one: there is an empty one, or one still to come and none is.
fn may_lose_one(test: &PrefixTest, slots: &[Option<u8>], empty: usize) -> bool
    requires empty { empty ≡ empties slots.now }
    ensures { result ≡ false → (slot : ℕ) → slot < test.now.head.members → set_may_lose test.now slots.now (Some slot) ≡ false }
{
    let open = slots.len() < test.head.members as usize && test.missing >= 1;
    is_raid6(test.head.level) && (empty == 1 || (empty == 0 && open))
}

/// Whether as many slots as the level survives are lost, or may come to be.
fn is_untested(test: &PrefixTest, slots: &[Option<u8>], empty: usize) -> bool
    requires empty { empty ≡ empties slots.now }
    requires few { empty ≤ length slots.now }
    requires short { length slots.now ≤ test.now.head.members }
    ensures { result ≡ nothing_is_tested test.now slots.now }
{
    let open = empty + (test.head.members as usize - slots.len());
    test.head.level.redundancy() as usize <= open.min(test.missing as usize)
}

/// Whether all places of a lost slot are asked at once: one may still come, and there are two images to tell it.
fn asks_at_once(test: &PrefixTest, slots: &[Option<u8>], empty: usize) -> bool
    ensures { result ≡ true → level_is_raid6 test.now.head.level ≡ true }
{
    let open = slots.len() < test.head.members as usize && test.missing >= 1;
    is_raid6(test.head.level) && open && empty == 0 && slots.len() >= 2
}

/// Whether so much is known that more rows refuse a prefix than may be unsound, with this slot alone lost, or none.
fn is_refused(refusals: Option<&Refusals>, test: &PrefixTest, lost: Option<u8>) -> bool
    requires few { test.now.head.members ≤ 24 }
    requires lost { IfSome lost (λ slot. slot < test.now.head.members) }
    ensures { result ≡ true → (rows : List Row) (slots : List (OptionOf ℕ)) → IfSome refusals.entry (λ known. AreRefusals rows test.now slots known.now) →
        few_rows_refuse rows test.now slots lost ≡ false }
{
    match refusals {
        Some(refusals) => refusals.are_many(test, lost),
        None => false,
    }
}

/// Whether no more of the rows refuse a prefix than may be unsound: they are not asked where so much is known already.
fn few_refuse_beside(
    rows: &[SampledRow],
    weights: &[RowWeights],
    test: &PrefixTest,
    slots: &[Option<u8>],
    refusals: Option<&Refusals>,
    lost: Option<u8>,
) -> bool
    requires can { CanTest test.now.head rows.now weights.now }
    requires slots { All (λ sampled. AreThere sampled.ties.images slots.now) rows.now }
    requires short { length slots.now ≤ test.now.head.members }
    requires refusals { IfSome refusals (λ known. AreRefusals rows.now test.now slots.now known.now) }
    requires lost { IfSome lost (λ slot. slot < test.now.head.members) }
    ensures { result ≡ few_rows_refuse rows.now test.now slots.now lost }
{
    if is_refused(refusals, test, lost) {
        return false;
    }
    few_refuse(rows, weights, test, slots, lost)
}

/// Whether the slots of a set may begin so of which this slot alone is lost, or none.
fn may_begin_with(
    rows: &[SampledRow],
    weights: &[RowWeights],
    test: &PrefixTest,
    slots: &[Option<u8>],
    empty: usize,
    refusals: Option<&Refusals>,
    lost: Option<u8>,
) -> bool
    requires can { CanTest test.now.head rows.now weights.now }
    requires slots { All (λ sampled. AreThere sampled.ties.images slots.now) rows.now }
    requires short { length slots.now ≤ test.now.head.members }
    requires empty { empty ≡ empties slots.now }
    requires refusals { IfSome refusals (λ known. AreRefusals rows.now test.now slots.now known.now) }
    requires lost { IfSome lost (λ slot. slot < test.now.head.members) }
    ensures { result ≡ set_may_begin_with rows.now test.now slots.now lost }
{
    may_lose(test, slots, empty, lost)
        && few_refuse_beside(rows, weights, test, slots, refusals, lost)
}

/// Whether they may with some slot that alone is lost.
fn may_begin_with_one(
    rows: &[SampledRow],
    weights: &[RowWeights],
    test: &PrefixTest,
    slots: &[Option<u8>],
    empty: usize,
    refusals: Option<&Refusals>,
) -> bool
    requires can { CanTest test.now.head rows.now weights.now }
    requires slots { All (λ sampled. AreThere sampled.ties.images slots.now) rows.now }
    requires short { length slots.now ≤ test.now.head.members }
    requires empty { empty ≡ empties slots.now }
    requires refusals { IfSome refusals (λ known. AreRefusals rows.now test.now slots.now known.now) }
    ensures { result ≡ list_any (λ slot. set_may_begin_with rows.now test.now slots.now (Some slot)) (range_with_len 0 test.now.head.members) }
{
    if !may_lose_one(test, slots, empty) {
        return false;
    }
    for slot in 0..test.head.members {
        if may_begin_with(rows, weights, test, slots, empty, refusals, Some(slot)) {
            return true;
        }
    }
    false
}

/// Whether they may with none lost, or with some slot that alone is.
fn may_begin_with_any(
    rows: &[SampledRow],
    weights: &[RowWeights],
    test: &PrefixTest,
    slots: &[Option<u8>],
    empty: usize,
    refusals: Option<&Refusals>,
) -> bool
    requires can { CanTest test.now.head rows.now weights.now }
    requires slots { All (λ sampled. AreThere sampled.ties.images slots.now) rows.now }
    requires short { length slots.now ≤ test.now.head.members }
    requires empty { empty ≡ empties slots.now }
    requires refusals { IfSome refusals (λ known. AreRefusals rows.now test.now slots.now known.now) }
    ensures { result ≡ (set_may_begin_with rows.now test.now slots.now None
        || list_any (λ slot. set_may_begin_with rows.now test.now slots.now (Some slot)) (range_with_len 0 test.now.head.members)) }
{
    may_begin_with(rows, weights, test, slots, empty, refusals, None)
        || may_begin_with_one(rows, weights, test, slots, empty, refusals)
}

/// Whether they may, where all places of a lost slot are asked at once.
fn may_begin_at_once(
    rows: &[SampledRow],
    weights: &[RowWeights],
    test: &PrefixTest,
    slots: &[Option<u8>],
    empty: usize,
) -> bool
    requires can { CanTest test.now.head rows.now weights.now }
    requires slots { All (λ sampled. AreThere sampled.ties.images slots.now) rows.now }
    requires short { length slots.now ≤ test.now.head.members }
    requires empty { empty ≡ empties slots.now }
    requires level { level_is_raid6 test.now.head.level ≡ true }
    ensures { result ≡ (set_may_begin_with rows.now test.now slots.now None
        || list_any (λ slot. set_may_begin_with rows.now test.now slots.now (Some slot)) (range_with_len 0 test.now.head.members)) }
{
    let refusals = Refusals::of(rows, weights, test, slots);
    may_begin_with_any(rows, weights, test, slots, empty, Some(&refusals))
}

/// Whether the slots of a set may begin so, by some rows and the weights of the head's slots in each.
pub(crate) fn may_begin(
    rows: &[SampledRow],
    weights: &[RowWeights],
    test: &PrefixTest,
    slots: &[Option<u8>],
) -> bool
    requires can { CanTest test.now.head rows.now weights.now }
    requires slots { All (λ sampled. AreThere sampled.ties.images slots.now) rows.now }
    requires short { length slots.now ≤ test.now.head.members }
    ensures { result ≡ set_may_begin rows.now test.now slots.now }
{
    let empty = count_empty(slots);
    if is_untested(test, slots, empty) {
        return true;
    }
    if asks_at_once(test, slots, empty) {
        return may_begin_at_once(rows, weights, test, slots, empty);
    }
    may_begin_with_any(rows, weights, test, slots, empty, None)
}
