//! The table of the marks of a plan, for one head.
ghost use Rattle.std.specs.Prelude.{◌<◌, ◌^◌, IfOk, IsTrue, length, All};
ghost use Rattle.raid_params.specs.Validity.{is_valid_head};
ghost use Rattle.raid_params.specs.declared.limits.TheConstants.{MOST};
ghost use Rattle.search_plan.specs.Plans.{IsPlan};
ghost use Rattle.mark_tables.specs.Tables.{AreOriginTables, IsGroupTable, IsMarkTable};

use crate::counting::table_from;
use crate::counts::OriginTable;
use landmark_rules::{Group, Mark, origins_for};
use outside::Memory;
use raid_params::Head;
use search_plan::Plan;
use std::alloc::Global;
use std::marker::Model;

/// What the marks of each group count from each of its origins, by slot and image, under one head.
///
/// Contracts see it as the list of the groups, each a list over its origins.
#[derive(Drop)]
pub struct MarkTable {
    pub(crate) groups: Vec<GroupTable>,
}

/// What the marks of a group count from each of its origins.
#[derive(Drop)]
pub(crate) struct GroupTable {
    pub(crate) origins: Vec<OriginTable>,
}

impl Model for MarkTable {
    ghost use Rattle.std.specs.Prelude.{List, map};
    ghost use Rattle.mark_tables.specs.declared.counts.SlotCount.{SlotCount};

    ghost Value = { List (List (List (List SlotCount))) };

    ghost view = { λ table. map (λ group. group.origins.items) table.groups.items };
}

impl MarkTable {
    /// Counts the marks of a plan under a head: for each group, each of its origins, each slot and each image.
    pub fn build(alloc: Global, plan: &Plan, head: &Head) -> Result<MarkTable, Memory>
        requires plan { IsPlan plan.now }
        requires head { IsTrue (is_valid_head head.now) }
        ensures { IfOk result (λ table. IsMarkTable plan.now head.now table) }
    {
        let groups = plan.groups.as_slice();
        let mut tables = Vec::with_capacity(alloc, groups.len()).map_err(|_| Memory)?;
        for group in groups {
            let origins = group_tables(alloc, plan, head, group)?;
            tables.push(GroupTable { origins }).map_err(|_| Memory)?;
        }
        Ok(MarkTable { groups: tables })
    }
}

/// A table for each origin of a group.
fn group_tables(
    alloc: Global,
    plan: &Plan,
    head: &Head,
    group: &Group,
) -> Result<Vec<OriginTable>, Memory>
    requires plan { IsPlan plan.now }
    requires head { IsTrue (is_valid_head head.now) }
    requires few { length group.now.marks < 2 ^ 16 }
    requires images { All (λ mark. mark.image < MOST) group.now.marks }
    ensures { IfOk result (λ tables. IsGroupTable head.now plan.now.end plan.now.tests group.now tables.items) }
{
    let marks = group.marks.as_slice();
    origin_tables(
        alloc,
        head,
        plan.end,
        marks,
        origins_for(&plan.tests, group.kind),
    )
}

/// A table for each of these origins.
fn origin_tables(
    alloc: Global,
    head: &Head,
    end: u64,
    marks: &[Mark],
    origins: &[u64],
) -> Result<Vec<OriginTable>, Memory>
    requires head { IsTrue (is_valid_head head.now) }
    requires end { end < 2 ^ 55 }
    requires few { length marks.now < 2 ^ 16 }
    requires images { All (λ mark. mark.image < MOST) marks.now }
    ensures { IfOk result (λ tables. AreOriginTables head.now end marks.now origins.now tables.items) }
{
    let mut tables = Vec::with_capacity(alloc, origins.len()).map_err(|_| Memory)?;
    for origin in origins {
        let table = table_from(head, end, marks, *origin);
        tables.push(table).map_err(|_| Memory)?;
    }
    Ok(tables)
}
