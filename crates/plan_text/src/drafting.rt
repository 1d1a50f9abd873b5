//! Which line may follow the groups that were read, and what it adds to them.
ghost use Rattle.std.specs.Prelude.{◌≡◌, ◌<◌, ◌≤◌, ◌-◌, ◌↔◌, ◌∷◌, ◌++◌, [], IsTrue, OnOk, IfOk, IfSome, IsSomeAnd, Some, length, slice_get, slice_index, slice_index_or, option_map, All, MatchOption};
ghost use Rattle.search_plan.specs.Plans.{AreLengths};
ghost use Rattle.landmark_rules.specs.Groups.{IsMark, group_place, kind_place};
ghost use Rattle.landmark_rules.specs.Rules.{IsRule};
ghost use Rattle.plan_text.specs.Drafts.{IsBefore, IsDraft, IsEntry, IsFresh, MayAdd, MayBegin, MayEnd, MayFollow, MayGoOn, drafted, empty_group, with_bounds, with_mark, with_open};
ghost use Rattle.plan_text.specs.PlanText.{some_bounds};

use crate::draft::Draft;
use crate::entry::Entry;
use landmark_rules::{Group, Groups, MOST_MARKS, Mark, MarkBounds, Marks};
use mark_kinds::{GROUP_COUNT, GROUPS, GroupKind, KIND_COUNT};
use outside::Memory;
use std::alloc::Global;

/// No groups.
pub fn no_groups(alloc: Global) -> Draft
    ensures draft { IsDraft result }
    ensures none { drafted result ≡ [] }
{
    Draft {
        closed: Groups::new(alloc),
        last: None,
        groups: [0; GROUP_COUNT],
        marks: [0; KIND_COUNT],
    }
}

/// Which groups of a plan have bounds of their own.
#[derive(Clone, Copy)]
pub struct Bounding {
    /// Whether the plan is of version 3; otherwise none may have them.
    pub third: bool,
    /// Whether the plan has other delays than one; otherwise some group of version 3 has to have them.
    pub delayed: bool,
    /// Whether one of those that were read has.
    pub some: bool,
}

/// Whether an entry may follow the groups of a draft.
pub fn may_follow(draft: &Draft, bounding: Bounding, lengths: &[u64], entry: &Entry) -> bool
    requires lengths { AreLengths lengths.now }
    requires draft { IsDraft draft.now }
    requires some { bounding.some ≡ some_bounds (drafted draft.now) }
    requires entry { IsEntry entry.now }
    ensures { IsTrue result ↔ MayFollow bounding.third bounding.delayed lengths.now draft.now entry.now }
{
    match entry {
        Entry::Done => (bounding.delayed || bounding.some) == bounding.third,
        Entry::Group(kind) => may_begin(draft, *kind),
        Entry::Bounds(_) => bounding.third && may_bound(&draft.last),
        Entry::Mark(mark) => may_add(draft, lengths, mark) && may_end(draft, bounding),
    }
}

/// Whether the groups of a draft may end as they have to: where some group has to have bounds, one has, or one may still
/// begin.
fn may_end(draft: &Draft, bounding: Bounding) -> bool
    requires draft { IsDraft draft.now }
    requires some { bounding.some ≡ some_bounds (drafted draft.now) }
    ensures { IsTrue result ↔ MayEnd bounding.third bounding.delayed draft.now }
{
    if bounding.third && !bounding.delayed && !bounding.some {
        may_go_on(draft)
    } else {
        true
    }
}

/// Whether a group of some kind may begin.
fn may_go_on(draft: &Draft) -> bool
    requires { IsDraft draft.now }
    ensures { IsTrue result ↔ MayGoOn draft.now }
{
    next_kind(draft, &GROUPS).is_some()
}

/// The first of these kinds of which a group may begin.
fn next_kind(draft: &Draft, kinds: &[GroupKind]) -> Option<GroupKind>
    requires { IsDraft draft.now }
    ensures { MatchOption result (All (λ kind. MayBegin draft.now kind → ⊥) kinds.now) (λ kind. MayBegin draft.now kind) }
{
    for kind in kinds {
        if may_begin(draft, *kind) {
            return Some(*kind);
        }
    }
    None
}

/// Whether bounds may be given to the open group: it has neither bounds nor marks yet.
fn may_bound(last: &Option<Group>) -> bool
    ensures { IsTrue result ↔ MatchOption last.now ⊥ IsFresh }
{
    match last {
        None => false,
        Some(group) => group.bounds.is_none() && group.marks.as_slice().is_empty(),
    }
}

/// Whether a group of this kind may begin: kinds come in order, and each has a limit.
fn may_begin(draft: &Draft, kind: GroupKind) -> bool
    requires { IsDraft draft.now }
    ensures { IsTrue result ↔ MayBegin draft.now kind }
{
    comes_after(&draft.last, kind) && draft.groups[kind.place()] < kind.most()
}

/// Whether a group of this kind may come after the open one.
fn comes_after(last: &Option<Group>, kind: GroupKind) -> bool
    ensures { IsTrue result ↔ IfSome last.now (λ group. group_place group.kind ≤ group_place kind) }
{
    match last {
        None => true,
        Some(group) => group.kind.place() <= kind.place(),
    }
}

/// Whether a mark may be added to the open group.
fn may_add(draft: &Draft, lengths: &[u64], mark: &Mark) -> bool
    requires lengths { AreLengths lengths.now }
    requires draft { IsDraft draft.now }
    requires rule { IsRule mark.now.rule }
    ensures { IsTrue result ↔ MayAdd lengths.now draft.now mark.now }
{
    match &draft.last {
        None => false,
        Some(group) => {
            is_mark(lengths, group.kind, mark)
                && rises(group.marks.as_slice(), mark)
                && has_room(draft.marks[mark.kind.place()])
        }
    }
}

/// Whether there may be one more mark of a kind that has `count`.
fn has_room(count: usize) -> bool
    ensures { IsTrue result ↔ (count < MOST_MARKS) }
{
    count < MOST_MARKS
}

/// Whether a mark is one of a group of this kind, and lies on its image.
fn is_mark(lengths: &[u64], kind: GroupKind, mark: &Mark) -> bool
    requires lengths { AreLengths lengths.now }
    requires rule { IsRule mark.now.rule }
    ensures { IsTrue result ↔ IsMark lengths.now kind mark.now }
{
    mark.kind.group().is_same(kind) && is_inside(lengths, mark)
}

/// Whether there is the image of a mark, and its sector.
fn is_inside(lengths: &[u64], mark: &Mark) -> bool
    ensures { IsTrue result ↔ IsSomeAnd (slice_get lengths.now mark.now.image) (λ n. mark.now.sector < n) }
{
    match lengths.get(usize::from(mark.image)) {
        None => false,
        Some(length) => mark.sector < *length,
    }
}

/// Whether a mark has a place after the last of others.
fn rises(marks: &[Mark], mark: &Mark) -> bool
    ensures { IsTrue result ↔ (0 < length marks.now → IsBefore (slice_index_or marks.now (length marks.now - 1) mark.now) mark.now) }
{
    match marks.last() {
        None => true,
        Some(last) => is_before(last, mark),
    }
}

/// Whether a mark comes before another: by sector, and on one sector by image.
fn is_before(mark: &Mark, other: &Mark) -> bool
    ensures { IsTrue result ↔ IsBefore mark.now other.now }
{
    mark.sector < other.sector || mark.sector == other.sector && mark.image < other.image
}

/// Begins a group, and closes the one that was open.
pub fn begin(draft: &mut Draft, alloc: Global, kind: GroupKind) -> Result<(), Memory>
    requires draft { IsDraft draft.old }
    requires may { MayBegin draft.old kind }
    ensures draft { OnOk result (IsDraft draft.new) }
    ensures closed { OnOk result (draft.new.closed ≡ drafted draft.old) }
    ensures last { OnOk result (draft.new.last ≡ Some (empty_group kind)) }
{
    let group = Group {
        kind,
        marks: Marks::new(alloc),
        bounds: None,
    };
    let last = draft.last.replace(group);
    close(&mut draft.closed, last)?;
    draft.groups[kind.place()] += 1;
    Ok(())
}

/// Appends a group, where there is one.
fn close(groups: &mut Groups, last: Option<Group>) -> Result<(), Memory>
    ensures { OnOk result (groups.new ≡ with_open groups.old last) }
{
    match last {
        None => Ok(()),
        Some(group) => groups.push(group),
    }
}

/// Gives the open group bounds of its own.
pub fn bound(draft: &mut Draft, bounds: MarkBounds)
    requires draft { IsDraft draft.old }
    ensures draft { IsDraft draft.new }
    ensures closed { draft.new.closed ≡ draft.old.closed }
    ensures groups { draft.new.groups ≡ draft.old.groups }
    ensures last { draft.new.last ≡ option_map (λ group. with_bounds group bounds) draft.old.last }
{
    if let Some(group) = &mut draft.last {
        group.bounds = Some(bounds);
    }
}

/// Adds a mark to the open group.
pub fn add(draft: &mut Draft, mark: Mark) -> Result<(), Memory>
    requires draft { IsDraft draft.old }
    requires room { slice_index draft.old.marks (kind_place mark.kind) < MOST_MARKS }
    ensures draft { OnOk result (IsDraft draft.new) }
    ensures closed { OnOk result (draft.new.closed ≡ draft.old.closed) }
    ensures groups { OnOk result (draft.new.groups ≡ draft.old.groups) }
    ensures last { OnOk result (draft.new.last ≡ option_map (λ group. with_mark group mark) draft.old.last) }
{
    if let Some(group) = &mut draft.last {
        group.marks.push(mark)?;
        draft.marks[mark.kind.place()] += 1;
    }
    Ok(())
}

/// The groups of a draft.
pub fn finish(draft: Draft) -> Result<Groups, Memory>
    ensures { IfOk result (λ groups. groups ≡ drafted draft) }
{
    let mut groups = draft.closed;
    close(&mut groups, draft.last)?;
    Ok(groups)
}
