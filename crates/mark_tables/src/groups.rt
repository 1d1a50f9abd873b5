//! Whether the groups of marks may still hold.
ghost use Rattle.std.specs.Prelude.{◌≡◌, ◌*◌, ◌<◌, ◌≤◌, ℕ, IfSome, IsTrue, length, slice_index_or, false, if◌then◌else◌};
ghost use Rattle.std.specs.List.{range_with_len, sum_by};
ghost use Rattle.std.specs.Option.{option_map_or};
ghost use Rattle.raid_params.specs.Validity.{is_valid_head};
ghost use Rattle.raid_params.specs.declared.limits.TheConstants.{MOST};
ghost use Rattle.search_plan.specs.Plans.{IsPlan};
ghost use Rattle.slot_math.specs.Ways.{AllImages, IsPrefixOf};
ghost use Rattle.mark_tables.specs.Marks.{counted_in, groups_may_hold as all_may_hold, may_hold as group_may_hold, may_hold_at};
ghost use Rattle.mark_tables.specs.Tables.{count_at, image_count, nothing_counted, AreStanding, IsGroupTable, IsMarkTable, IsOriginTable};

use crate::counts::{ImageCounts, OriginTable, SlotCount};
use crate::mark_table::MarkTable;
use landmark_rules::{Group, MarkCount, bounds_for};
use raid_params::{Head, MOST};
use search_plan::Plan;

/// How slot lists of a head of a plan begin.
#[derive(Drop)]
struct Beginning<'a> {
    plan: &'a Plan,
    head: &'a Head,
    prefix: &'a [Option<u8>],
    /// Which images stand in the prefix.
    standing: [bool; MOST],
}

/// Whether each group may still hold at one of its origins, where the slots begin with a prefix.
pub fn groups_may_hold(table: &MarkTable, plan: &Plan, head: &Head, prefix: &[Option<u8>]) -> bool
    requires plan { IsPlan plan.now }
    requires head { IsTrue (is_valid_head head.now) }
    requires table { IsMarkTable plan.now head.now table.now }
    requires prefix { IsPrefixOf (length plan.now.lengths.items) head.now.members prefix.now }
    ensures { result ≡ all_may_hold plan.now head.now prefix.now }
{
    if plan.groups.as_slice().is_empty() {
        return true;
    }
    let standing = standing_images(prefix);
    let beginning = Beginning {
        plan,
        head,
        prefix,
        standing,
    };
    for (place, group) in plan.groups.as_slice().iter().enumerate() {
        let tables = &table.groups[place].origins;
        if !may_hold(&beginning, tables, group) {
            return false;
        }
    }
    true
}

/// Which images stand in the prefix.
fn standing_images(prefix: &[Option<u8>]) -> [bool; MOST]
    requires { AllImages MOST prefix.now }
    ensures { AreStanding prefix.now result }
{
    let mut standing = [false; MOST];
    for held in prefix {
        if let Some(image) = held {
            standing[*image as usize] = true;
        }
    }
    standing
}

/// Whether a group may still hold at one of its origins, each of which has its table.
fn may_hold(beginning: &Beginning, tables: &[OriginTable], group: &Group) -> bool
    requires plan { IsPlan beginning.now.plan.now }
    requires head { IsTrue (is_valid_head beginning.now.head.now) }
    requires tables { IsGroupTable beginning.now.head.now beginning.now.plan.now.end beginning.now.plan.now.tests group.now tables.now }
    requires prefix { IsPrefixOf (length beginning.now.plan.now.lengths.items) beginning.now.head.now.members beginning.now.prefix.now }
    requires standing { AreStanding beginning.now.prefix.now beginning.now.standing }
    ensures { result ≡ group_may_hold beginning.now.plan.now beginning.now.head.now beginning.now.prefix.now group.now }
{
    for table in tables {
        if may_hold_from(beginning, table, group) {
            return true;
        }
    }
    false
}

/// Whether a group may still hold at the origin whose table this is.
fn may_hold_from(beginning: &Beginning, table: &OriginTable, group: &Group) -> bool
    requires plan { IsPlan beginning.now.plan.now }
    requires head { IsTrue (is_valid_head beginning.now.head.now) }
    requires prefix { IsPrefixOf (length beginning.now.plan.now.lengths.items) beginning.now.head.now.members beginning.now.prefix.now }
    requires standing { AreStanding beginning.now.prefix.now beginning.now.standing }
    ensures { (origin : ℕ) → IsOriginTable beginning.now.head.now beginning.now.plan.now.end group.now.marks origin table.now →
        result ≡ may_hold_at beginning.now.plan.now beginning.now.head.now beginning.now.prefix.now group.now origin }
{
    let count = count_placed(table, beginning.prefix);
    let bounds = bounds_for(&beginning.plan.tests, group);
    let asked = bounds.least.min(group.marks.as_slice().len() as u64);
    let reserves = reserves(
        table,
        beginning.prefix.len(),
        beginning.head.members,
        beginning.plan.lengths.len(),
        &beginning.standing,
    );
    count.misfits <= bounds.misfits && asked <= count.fits + reserves
}

/// The marks that fit where the prefix puts their images, and those that misfit.
fn count_placed(table: &OriginTable, prefix: &[Option<u8>]) -> MarkCount
    requires short { length prefix.now ≤ MOST }
    requires images { AllImages MOST prefix.now }
    ensures fits { result.fits ≡ counted_in (λ slot image. (count_at table.now slot image).fits) prefix.now }
    ensures misfits { result.misfits ≡ counted_in (λ slot image. (count_at table.now slot image).misfits) prefix.now }
    ensures few { result.fits ≤ 65535 * length prefix.now }
{
    let mut fits = 0;
    let mut misfits = 0;
    for (slot, held) in prefix.iter().enumerate() {
        let here = count_held(&table[slot], *held);
        fits += u64::from(here.fits);
        misfits += u64::from(here.misfits);
    }
    MarkCount { fits, misfits }
}

/// What the image that a slot holds counts there: nothing where it is empty.
fn count_held(row: &ImageCounts, held: Option<u8>) -> SlotCount
    requires { IfSome held (λ image. image < MOST) }
    ensures { result ≡ option_map_or (image_count row.now) held nothing_counted }
{
    match held {
        Some(image) => row[image as usize],
        None => SlotCount::default(),
    }
}

/// The most that the images which do not stand in a prefix of `slot` places can add.
fn reserves(
    table: &OriginTable,
    slot: usize,
    members: u8,
    images: usize,
    standing: &[bool; MOST],
) -> u64
    requires members { members ≤ MOST }
    requires images { images ≤ MOST }
    ensures some { slot < members → result
        ≡ sum_by (λ image. if slice_index_or standing.now image false then 0 else (count_at table.now slot image).most) (range_with_len 0 images) }
    ensures none { members ≤ slot → result ≡ 0 }
    ensures few { result ≤ 65535 * images }
{
    if slot >= members as usize {
        return 0;
    }
    let row = &table[slot];
    let mut sum = 0;
    for image in 0..images {
        sum += reserve(&row[image], standing[image]);
    }
    sum
}

/// The most that an image can add, unless it stands in the prefix.
fn reserve(count: &SlotCount, stands: bool) -> u64
    ensures value { result ≡ if stands then 0 else count.now.most }
    ensures few { result ≤ 65535 }
{
    if stands { 0 } else { u64::from(count.most) }
}
