//! Small plans that the tests search.
ghost use Rattle.std.specs.Prelude.{◌≡◌, ◌<◌, ◌≤◌, ◌^◌, Contains, IfOk, length};
ghost use Rattle.raid_params.specs.declared.limits.TheConstants.{MOST};
ghost use Rattle.raid_params.specs.declared.types.Level.TheVariants.{Raid5, Raid6};
ghost use Rattle.search_plan.specs.Plans.{IsPlan};
ghost use Rattle.search_rows.specs.SmallPlans.{a_header, four_plan, headers as header_groups, small_plan};

use crate::objects::filled;
use landmark_rules::{Group, GroupKind, Groups, Kind, Mark, MarkTests, Marks, Rule};
use raid_params::{Bounds, Level, Pattern, Syndrome};
use search_plan::{Limits, Plan};
use std::alloc::Global;
use std::test::Fail;

// Three left-symmetric members of level 5 over images of these lengths: the rows before the sector `end` are tested, and none may
// be unsound. The other plans say what they have in the place of this.
fn small(alloc: Global, lengths: &[u64], end: u64) -> Plan
    requires { length lengths.now ≤ MOST }
    ensures { result ≡ small_plan lengths.now end }
{
    Plan {
        lengths: filled(lengths),
        end,
        bounds: Bounds {
            levels: filled(&[Level::Raid5]),
            members: filled(&[3]),
            patterns: filled(&[Pattern::Ls]),
            delays: filled(&[1]),
            syndromes: filled(&[Syndrome::NoQ]),
            chunks: filled(&[1]),
            offsets: filled(&[0]),
            missing: 0,
            foreign: 0,
        },
        limits: Limits {
            badrows: 0,
            window: end,
        },
        tests: MarkTests {
            origins: filled(&[0]),
            misfits: 0,
            least: 1,
        },
        groups: Groups::new(alloc),
        each: false,
    }
}

// Levels 0 and 5 over three images of two sectors, of which one may be foreign.
pub fn two_levels(alloc: Global) -> Plan
    ensures { IsPlan result }
{
    let mut plan = small(alloc, &[2, 2, 2], 2);
    plan.bounds.levels = filled(&[Level::Raid0, Level::Raid5]);
    plan.bounds.members = filled(&[2, 3]);
    plan.bounds.patterns = filled(&[Pattern::Plain, Pattern::Ls]);
    plan.bounds.foreign = 1;
    plan
}

// Parity that moves each row or each second row, or that lies last.
pub fn two_delays(alloc: Global) -> Plan
    ensures { IsPlan result }
{
    let mut plan = small(alloc, &[2, 2, 2], 2);
    plan.bounds.patterns = filled(&[Pattern::La, Pattern::ParityLast]);
    plan.bounds.delays = filled(&[1, 2]);
    plan
}

// Three members of level 5 over two images: one slot is empty.
pub fn one_missing(alloc: Global) -> Plan
    ensures { IsPlan result }
{
    let mut plan = small(alloc, &[2, 2], 2);
    plan.bounds.missing = 1;
    plan
}

// The largest plan with the delay 1: 24 images, all that level 6 has, and two missing or foreign.
pub fn largest(alloc: Global) -> Plan
    ensures { IsPlan result }
{
    let mut plan = small(alloc, &[64; 24], 64);
    plan.bounds.levels = filled(&[Level::Raid6]);
    plan.bounds.members = filled(&[24]);
    plan.bounds.patterns = filled(&[
        Pattern::La,
        Pattern::Ra,
        Pattern::Ls,
        Pattern::Rs,
        Pattern::ParityFirst,
        Pattern::ParityLast,
        Pattern::NRestart,
        Pattern::NContinue,
        Pattern::La6,
        Pattern::Ra6,
        Pattern::Ls6,
        Pattern::Rs6,
        Pattern::ParityFirst6,
    ]);
    plan.bounds.syndromes = filled(&[Syndrome::AfterQ, Syndrome::ByData, Syndrome::BySlot]);
    plan.bounds.chunks = filled(&[
        1, 2, 4, 8, 16, 32, 64, 128, 256, 512, 1024, 2048, 4096, 8192, 16384, 32768,
    ]);
    plan.bounds.offsets = filled(&[
        0, 1, 2, 3, 4, 5, 6, 7, 8, 9, 10, 11, 12, 13, 14, 15, 16, 17, 18, 19, 20, 21, 22, 23, 24,
        25, 26, 27, 28, 29, 30, 31, 32, 33, 34, 35, 36, 37, 38, 39, 40, 41, 42, 43, 44, 45, 46, 47,
        48, 49, 50, 51, 52, 53, 54, 55, 56, 57, 58, 59, 60, 61, 62, 63,
    ]);
    plan.bounds.missing = 2;
    plan.bounds.foreign = 2;
    plan
}

// Three members of level 5 over three images of two sectors.
pub fn three_of_two(alloc: Global) -> Plan
    ensures plan { IsPlan result }
    ensures levels { Contains result.bounds.levels.items Raid5 }
{
    small(alloc, &[2, 2, 2], 2)
}

// The plan, with this number of rows that may be unsound.
pub fn allowing(plan: Plan, badrows: u64) -> Plan
    requires plan { IsPlan plan }
    requires few { badrows < 2 ^ 55 }
    ensures plan { IsPlan result }
    ensures bounds { result.bounds ≡ plan.bounds }
{
    let mut more = plan;
    more.limits.badrows = badrows;
    more
}

// Four members of level 6, after Q, over images of these lengths.
fn four(alloc: Global, lengths: &[u64], end: u64) -> Plan
    requires { length lengths.now ≤ MOST }
    ensures { result ≡ four_plan lengths.now end }
{
    let mut plan = small(alloc, lengths, end);
    plan.bounds.levels = filled(&[Level::Raid6]);
    plan.bounds.members = filled(&[4]);
    plan.bounds.syndromes = filled(&[Syndrome::AfterQ]);
    plan
}

// Four members of level 6 over four images of one sector.
pub fn four_of_one(alloc: Global) -> Plan
    ensures plan { IsPlan result }
    ensures images { length result.lengths.items ≡ 4 }
    ensures levels { Contains result.bounds.levels.items Raid6 }
{
    four(alloc, &[1, 1, 1, 1], 1)
}

// Four members of level 6 over four images of one sector, with each order of Q.
pub fn four_with_each_order(alloc: Global) -> Plan
    ensures { IsPlan result }
{
    let mut plan = four(alloc, &[1, 1, 1, 1], 1);
    plan.bounds.syndromes = filled(&[Syndrome::AfterQ, Syndrome::ByData, Syndrome::BySlot]);
    plan
}

// Four members of level 6 over three images of three sectors: one slot is empty.
pub fn one_of_four_lost(alloc: Global) -> Plan
    ensures { IsPlan result }
{
    let mut plan = four(alloc, &[3, 3, 3], 3);
    plan.bounds.missing = 1;
    plan
}

// The plan, with this number of marks of a group that have to lie where they may.
pub fn asking(plan: Plan, least: u64) -> Plan
    requires plan { IsPlan plan }
    requires few { least < 2 ^ 55 }
    ensures plan { IsPlan result }
{
    let mut more = plan;
    more.tests.least = least;
    more
}

// A header of a partition table that says that it lies on volume sector 1.
fn header(image: u8) -> Mark
    ensures { result ≡ a_header image }
{
    Mark {
        kind: Kind::Gpt,
        image,
        sector: 0,
        rule: Rule::At(1),
    }
}

// Such headers on the second and the third image.
fn headers(alloc: Global) -> Result<Groups, Fail>
    ensures { IfOk result (λ groups. groups ≡ header_groups) }
{
    let mut marks = Marks::new(alloc);
    marks.push(header(1))?;
    marks.push(header(2))?;
    let mut groups = Groups::new(alloc);
    groups.push(Group {
        kind: GroupKind::Gpt,
        marks,
        bounds: None,
    })?;
    Ok(groups)
}

// Three members of level 5 over three images of one sector: the second and the third hold such a header.
pub fn two_headers(alloc: Global) -> Result<Plan, Fail>
    ensures { IfOk result (λ plan. IsPlan plan × (length plan.lengths.items ≡ 3) × Contains plan.bounds.levels.items Raid5) }
{
    let mut plan = small(alloc, &[1, 1, 1], 1);
    plan.limits.badrows = 1;
    plan.groups = headers(alloc)?;
    Ok(plan)
}

// Three members of level 5 over four images of one sector, of which one may be foreign: the second and the third hold such a header.
pub fn two_headers_of_four(alloc: Global) -> Result<Plan, Fail>
    ensures { IfOk result (λ plan. IsPlan plan × (length plan.lengths.items ≡ 4) × Contains plan.bounds.levels.items Raid5) }
{
    let mut plan = small(alloc, &[1, 1, 1, 1], 1);
    plan.bounds.foreign = 1;
    plan.limits.badrows = 1;
    plan.groups = headers(alloc)?;
    Ok(plan)
}

// A plan over three images of `end` sectors, of which the rows below `window` are tested and none may be unsound.
pub fn three_rows(alloc: Global, end: u64, window: u64) -> Plan
    ensures lengths { length result.lengths.items ≡ 3 }
    ensures end { result.end ≡ end }
{
    let mut plan = small(alloc, &[end, end, end], end);
    plan.limits.window = window;
    plan
}
