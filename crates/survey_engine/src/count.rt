//! The sightings that count.
ghost use Rattle.std.specs.Prelude.{◌≡◌, [], ◌∷◌, ◌++◌, OnErr, OnOk};
ghost use Rattle.survey_engine.specs.Kept.{kept_with};
ghost use Rattle.survey_engine.specs.Sightings.{is_early};

use crate::sighting::Sighting;
use landmark_rules::MOST_MARKS;
use mark_kinds::KIND_COUNT;
use outside::Memory;
use std::alloc::Global;
use std::marker::Model;

/// The sightings that count, with how many there are of each kind. Contracts see them as their list.
#[derive(Drop)]
pub struct Counter {
    found: Vec<Sighting>,
    /// How many there are of each kind, by the kind's place.
    counts: [usize; KIND_COUNT],
}

impl Model for Counter {
    ghost use Rattle.std.specs.Prelude.{◌≡◌, List, count_by, slice_index};
    ghost use Rattle.landmark_rules.specs.Groups.{kind_place};
    ghost use Rattle.mark_kinds.specs.declared.table.Kind.{Kind};
    ghost use Rattle.survey_engine.specs.Sightings.{is_same_kind};
    ghost use Rattle.survey_engine.specs.declared.sighting.Sighting.{Sighting};

    ghost Value = { List Sighting };

    ghost view = { λ c. c.found.items };

    ghost invariant = { λ c. (kind : Kind) → slice_index c.counts (kind_place kind) ≡ count_by (is_same_kind kind) c.found.items };
}

impl Counter {
    /// None yet. It takes no memory.
    pub fn new(alloc: Global) -> Counter
        ensures { result ≡ [] }
    {
        Counter {
            found: Vec::new(alloc),
            counts: [0; KIND_COUNT],
        }
    }

    /// Adds the next sighting where it counts, or leaves all as it was.
    pub fn add(&mut self, sighting: Sighting) -> Result<(), Memory>
        ensures ok { OnOk result (self.new ≡ kept_with is_early self.old sighting) }
        ensures err { OnErr result (self.new ≡ self.old) }
    {
        let kind = sighting.landmark.kind().place();
        if self.counts[kind] < MOST_MARKS {
            push(&mut self.found, sighting)?;
            self.counts[kind] += 1;
        }
        Ok(())
    }

    /// The sightings in their order.
    pub fn into_vec(self) -> Vec<Sighting>
        ensures { result.items ≡ self }
    {
        self.found
    }
}

/// Appends an item, or leaves the list as it was.
fn push<T: Drop>(items: &mut Vec<T>, item: T) -> Result<(), Memory>
    ensures ok { OnOk result (items.new.items ≡ items.old.items ++ item ∷ []) }
    ensures err { OnErr result (items.new.items ≡ items.old.items) }
{
    match items.push(item) {
        Ok(()) => Ok(()),
        Err(_) => Err(Memory),
    }
}
