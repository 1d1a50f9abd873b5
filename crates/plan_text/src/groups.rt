//! The groups of a plan, to its last line.
ghost use Rattle.std.specs.Prelude.{◌≡◌, ◌≢◌, ◌∷◌, [], false, MatchOption};
ghost use Rattle.search_plan.specs.Plans.{AreLengths};
ghost use Rattle.plan_text.specs.declared.entry.Entry.{Entry as EntryOf};
ghost use Rattle.plan_text.specs.Drafts.{AreGroupsWith, IsDraft, IsEntry, MayFollow, drafted, entry_line};
ghost use Rattle.plan_text.specs.PlanText.{groups_lines, some_bounds};
ghost use Rattle.plan_text.specs.Reading.{Reads};

use crate::draft::Draft;
use crate::drafting::{Bounding, add, begin, bound, finish, may_follow, no_groups};
use crate::entry::Entry;
use crate::fault::PlanFault;
use crate::marks::read_entry;
use crate::reader::PlanReader;
use landmark_rules::Groups;
use std::alloc::Global;

impl<'a> PlanReader<'a> {
    /// The groups of a plan over images of these lengths, to the line after them. In a plan of version 3 some of them may have
    /// bounds of their own, and some of them have, unless it is delayed; in others none has.
    pub fn groups(
        &mut self,
        alloc: Global,
        lengths: &[u64],
        third: bool,
        delayed: bool,
    ) -> Result<Groups, PlanFault>
        requires lengths { AreLengths lengths.now }
        requires delayed { third ≡ false → delayed ≡ false }
        ensures { Reads (AreGroupsWith third delayed lengths.entry.now) groups_lines self.old self.new result }
    {
        let mut draft = no_groups(alloc);
        let mut some = false;
        loop {
            let bounding = Bounding {
                third,
                delayed,
                some,
            };
            match self.entry(lengths, &draft, bounding)? {
                Entry::Done => return Ok(finish(draft)?),
                Entry::Group(kind) => begin(&mut draft, alloc, kind)?,
                Entry::Bounds(bounds) => {
                    bound(&mut draft, bounds);
                    some = true;
                }
                Entry::Mark(mark) => add(&mut draft, mark)?,
            }
        }
    }

    /// The next line of the groups.
    fn entry(
        &mut self,
        lengths: &[u64],
        draft: &Draft,
        bounding: Bounding,
    ) -> Result<Entry, PlanFault>
        requires lengths { AreLengths lengths.now }
        requires draft { IsDraft draft.now }
        requires some { bounding.some ≡ some_bounds (drafted draft.now) }
        requires one { (entry : EntryOf) × (IsEntry entry × MayFollow bounding.third bounding.delayed lengths.now draft.now entry) }
        ensures { Reads (λ entry. IsEntry entry × MayFollow bounding.third bounding.delayed lengths.now draft.now entry) (λ entry. entry_line entry ∷ []) self.old self.new result }
    {
        let line = self.next_line()?;
        entry_after(line, lengths, draft, bounding).ok_or(self.refusal())
    }
}

/// The entry that a line is, where it may follow the groups of a draft.
fn entry_after(line: &[u8], lengths: &[u64], draft: &Draft, bounding: Bounding) -> Option<Entry>
    requires lengths { AreLengths lengths.now }
    requires draft { IsDraft draft.now }
    requires some { bounding.some ≡ some_bounds (drafted draft.now) }
    ensures { MatchOption result
        ((entry : EntryOf) → IsEntry entry × MayFollow bounding.third bounding.delayed lengths.now draft.now entry → line.now ≢ entry_line entry)
        (λ entry. (IsEntry entry × MayFollow bounding.third bounding.delayed lengths.now draft.now entry) × (line.now ≡ entry_line entry)) }
{
    let entry = read_entry(line)?;
    if may_follow(draft, bounding, lengths, &entry) {
        Some(entry)
    } else {
        None
    }
}
