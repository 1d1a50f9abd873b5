//! The slot lists of a head of which each prefix may still pass.
ghost use Rattle.std.specs.Prelude.{◌≡◌, ◌==◌, ◌<◌, ◌≤◌, ◌+◌, ◌-◌, ◌&&◌, [], All, IfOk, IfSome, IsSome, IsTrue, false, length, not, take, true};
ghost use Rattle.std.specs.Option.{option_map, option_map_or};
ghost use Rattle.raid_params.specs.Validity.{is_shaped, is_valid_head};
ghost use Rattle.search_plan.specs.Plans.{IsPlan, scope_of};
ghost use Rattle.prune_filters.specs.Rows.{needs_table as head_needs_table};
ghost use Rattle.relation_prefix.specs.Ties.{AreThere};
ghost use Rattle.head_walk.specs.Walk.{is_admitted, IsHeadOf};
ghost use Rattle.head_walk.specs.Relations.{asked_of, most_empty as most_empty_of, first_asked as first_to_ask, rows_asked as rows_to_ask, rows_allow, test_of};

use candidate_enum::Family;
use outside::Memory;
use prune_filters::{EarlyTable, HeadRows, MarkTable, early_may_pass};
use raid_params::{Head, Slots};
use relation_prefix::{HeadRelations, PrefixTest, SampledRows};
use search_plan::{Plan, tested_rows};
use set_product::HeadSets;
use slot_math::Space;
use std::alloc::Global;
use std::marker::Model;

/// The slot lists of a head. A prefix is admitted where each group of marks may still hold, and no more
/// rows are known to be unsound than may be; and where rows are kept, only what they let begin a set.
#[derive(Drop)]
pub(crate) struct Hopeful<'a> {
    space: Space,
    marks: MarkTable,
    rows: HeadRows<'a>,
    relations: Option<HeadRelations<'a>>,
}

impl<'a> Model for Hopeful<'a> {
    ghost use Rattle.std.specs.Prelude.{IfSome};
    ghost use Rattle.prune_filters.specs.Tables.{IsMarkTable};
    ghost use Rattle.head_walk.specs.Relations.{kept_rows, AreRelationsOf};
    ghost use Rattle.head_walk.specs.Walk.{IsAsked, Sifted};

    ghost Value = { Sifted };

    ghost view = { λ s. record { asked = record { plan = s.rows.plan; head = s.rows.head; space = s.space; xors = s.rows.xors }; rows = kept_rows s.relations } };

    ghost invariant = { λ s. IsAsked s.rows.plan s.rows.head s.space × IsMarkTable s.rows.plan s.rows.head s.marks
        × IfSome s.relations (AreRelationsOf s.rows.plan s.rows.head) };
}

impl<'a> Hopeful<'a> {
    /// Those of a head of the plan, with the table of rows of its chunk and offset where it needs one, and with rows of its offset where
    /// they are asked for it. Memory is taken for the table of the plan's marks, and for the weights of the head's slots in the rows.
    pub(crate) fn new(
        alloc: Global,
        plan: &'a Plan,
        sets: &HeadSets,
        xors: Option<&'a EarlyTable>,
        rows: Option<&'a SampledRows>,
    ) -> Result<Hopeful<'a>, Memory>
        requires plan { IsPlan plan.now }
        requires head { IsHeadOf plan.now sets.now }
        requires xors { head_needs_table plan.now sets.now.head ≡ true → IsSome xors }
        requires row_images { IfSome rows (λ r. r.now.images ≡ length plan.now.lengths.items) }
        ensures asked { IfOk result (λ family. family.asked ≡ record { plan = plan.now; head = sets.now.head; space = sets.now.space; xors = option_map (λ table. table.now) xors.entry }) }
        ensures rows { IfOk result (λ family. family.rows ≡ option_map (λ r. r.now.list) rows.entry) }
    {
        let marks = MarkTable::build(alloc, plan, &sets.head)?;
        let relations = relations_of(alloc, rows, plan, &sets.head)?;
        Ok(Hopeful {
            space: sets.space,
            marks,
            rows: HeadRows::new(plan, &sets.head, xors),
            relations,
        })
    }
}

/// The test of a head's prefixes by these rows, if there are some.
fn relations_of<'a>(
    alloc: Global,
    rows: Option<&'a SampledRows>,
    plan: &Plan,
    head: &Head,
) -> Result<Option<HeadRelations<'a>>, Memory>
    requires plan { IsPlan plan.now }
    requires valid { IsTrue (is_valid_head head.now) }
    ensures { IfOk result (λ relations. relations ≡ option_map (λ r. asked_of r.now plan.now head.now) rows.entry) }
{
    let Some(rows) = rows else {
        return Ok(None);
    };
    let test = prefix_test(plan, head);
    let relations = HeadRelations::new(alloc, rows, &test)?;
    Ok(Some(relations))
}

/// What is asked of rows for a head.
fn prefix_test(plan: &Plan, head: &Head) -> PrefixTest
    requires plan { IsPlan plan.now }
    requires valid { IsTrue (is_valid_head head.now) }
    ensures { result ≡ test_of plan.now head.now }
{
    PrefixTest {
        head: *head,
        tested: tested_rows(plan, head.chunk, head.offset),
        badrows: plan.limits.badrows,
        missing: most_empty(plan, head.members),
    }
}

/// The most empty slots of a set: as many as may be missing, and as the other images leave.
fn most_empty(plan: &Plan, members: u8) -> u8
    requires { IsPlan plan.now }
    ensures { result ≡ most_empty_of plan.now members }
{
    let places = members as usize + plan.bounds.foreign as usize;
    let open = places.saturating_sub(plan.lengths.len());
    (plan.bounds.missing as usize).min(open) as u8
}

/// How many of the rows are asked of a prefix of so many slots: few more than twice as many as may be unsound, so that one that they
/// allow costs little and one whose rows are mostly unsound is still refused; none where it is so long that its whole lists cost less, or
/// the rows tell little; and all of a whole list.
#[inline]
fn rows_asked(tell: bool, badrows: u64, rows: usize, members: usize, slots: usize) -> usize
    ensures asked { result ≡ rows_to_ask tell badrows rows members slots }
    ensures few { result ≤ rows }
{
    if slots >= members {
        rows
    } else if members - slots < 3 || !tell {
        0
    } else {
        rows.min(badrows.min(4096) as usize * 2 + 4)
    }
}

/// The first of the rows that are asked where there are `asked`: elsewhere among them for each of four numbers of slots that follow one
/// another, so that rows that tell little at one place cost one slot.
#[inline]
fn first_asked(rows: usize, asked: usize, slots: usize) -> usize
    requires { asked ≤ rows }
    ensures first { result ≡ first_to_ask rows asked slots }
    ensures within { result + asked ≤ rows }
{
    (rows / 4 * (slots % 4)).min(rows - asked)
}

/// Whether rows let the slots of a set begin so.
fn may_begin_by(relations: &Option<HeadRelations>, prefix: &[Option<u8>]) -> bool
    requires short { IfSome relations.now (λ r. length prefix.now ≤ r.test.head.members) }
    requires images { IfSome relations.now (λ r. AreThere r.rows.images prefix.now) }
    ensures { result ≡ rows_allow relations.now prefix.now }
{
    match relations {
        Some(relations) => {
            let test = relations.test();
            let rows = relations.count();
            let members = test.head.members as usize;
            let tell = relations.all_tell();
            let count = rows_asked(tell, test.badrows, rows, members, prefix.len());
            let first = first_asked(rows, count, prefix.len());
            relations.may_begin_by(first, count, prefix)
        }
        None => true,
    }
}

impl<'a> Family for Hopeful<'a> {
    type Kept = ();

    ghost space_of = { λ family. family.asked.space };

    ghost admits = { is_admitted };

    ghost keeps = { λ _ _ _. Unit };

    fn space(&self) -> Space {
        self.space
    }

    fn kept_first(&self) {}

    fn kept_next(&self, _kept: &(), _prefix: &Slots) {}

    fn may_pass(&self, prefix: &Slots, _kept: &()) -> bool {
        early_may_pass(&self.marks, &self.rows, prefix) && may_begin_by(&self.relations, prefix)
    }
}
