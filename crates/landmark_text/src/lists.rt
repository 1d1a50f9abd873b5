//! Lists of kinds of groups, and of sectors that are passed over.
ghost use Rattle.std.specs.Prelude.{◌≡◌, ◌≢◌, ◌≤◌, List, All, length, map, MatchOption};
ghost use Rattle.mark_kinds.specs.Table.{group_place};
ghost use Rattle.mark_kinds.specs.declared.table.GroupKind.{GroupKind as GroupKindOf};
ghost use Rattle.mark_kinds.specs.declared.table.DropAt.{DropAt as DropAtOf};
ghost use Rattle.raid_params.specs.Places.{AreRising};
ghost use Rattle.value_text.specs.Spelling.{commas};
ghost use Rattle.landmark_text.specs.WordLaws.{drop_word_law, group_word_law};
ghost use Rattle.landmark_text.specs.Names.{IsDrop, drop_name, drop_place, group_name};

use crate::kinds::read_group;
use arrayvec::ArrayVec;
use mark_kinds::{DropAt, GROUP_COUNT, GroupKind, MOST_DROPS};
use raid_params::{MOST, SECTORS_END};
use value_text::{Listed, Spelled, cut, rising};

/// A kind of groups, as it stands in lists.
#[derive(Clone, Copy, Default)]
pub(crate) struct GroupWord {
    /// The kind.
    pub kind: GroupKind,
}

impl Spelled for GroupWord {
    ghost name = { λ word. group_name word.kind };

    ghost IsSpelled = { λ word. Unit {0} };

    fn read(text: &[u8]) -> Option<Self> {
        let kind = read_group(text)?;
        Some(GroupWord { kind })
    }

    ghost law = { group_word_law };
}

impl Listed for GroupWord {
    ghost place = { λ word. group_place word.kind };

    fn is_before(&self, next: &Self) -> bool {
        self.kind.place() < next.kind.place()
    }
}

/// The kinds of groups that a text spells with a comma between them, at least one, each with a place before the next one's.
pub fn read_groups(text: &[u8]) -> Option<ArrayVec<GroupKind, GROUP_COUNT>>
    ensures { MatchOption result
        ((kinds : List GroupKindOf) → AreRising (map group_place kinds) × (length kinds ≤ GROUP_COUNT) → text.now ≢ commas (map group_name kinds))
        (λ kinds. (AreRising (map group_place kinds.items) × (length kinds.items ≤ GROUP_COUNT)) × (text.now ≡ commas (map group_name kinds.items))) }
{
    let words = rising(text)?;
    Some(kinds_of(&words))
}

/// The kinds of words.
fn kinds_of(words: &ArrayVec<GroupWord, GROUP_COUNT>) -> ArrayVec<GroupKind, GROUP_COUNT>
    ensures { result.items ≡ map (λ word. word.kind) words.now.items }
{
    let mut kinds = ArrayVec::new();
    for word in words.as_slice() {
        kinds.push(word.kind);
    }
    kinds
}

/// A sector of an image, as `IMAGE:SECTOR`.
#[derive(Clone, Copy, Default)]
pub(crate) struct DropWord {
    /// The sector.
    pub at: DropAt,
}

impl Spelled for DropWord {
    ghost name = { λ word. drop_name word.at };

    ghost IsSpelled = { λ word. IsDrop word.at };

    fn read(text: &[u8]) -> Option<Self> {
        let at = read_drop(text)?;
        Some(DropWord { at })
    }

    ghost law = { drop_word_law };
}

/// Sectors go by image, then sector.
impl Listed for DropWord {
    ghost place = { λ word. drop_place word.at };

    fn is_before(&self, next: &Self) -> bool {
        let at = self.at;
        let after = next.at;
        at.image < after.image || (at.image == after.image && at.sector < after.sector)
    }
}

/// The sector of an image that the whole text spells.
fn read_drop(text: &[u8]) -> Option<DropAt>
    ensures { MatchOption result ((at : DropAtOf) → IsDrop at → text.now ≢ drop_name at) (λ at. IsDrop at × (text.now ≡ drop_name at)) }
{
    let (image_text, sector_text) = cut(text, b':')?;
    let image = u8::read(image_text)?;
    let sector = u64::read(sector_text)?;
    if usize::from(image) < MOST && sector < SECTORS_END {
        Some(DropAt { image, sector })
    } else {
        None
    }
}

/// The sectors of images that a text spells with a comma between them, at least one and at most `MOST_DROPS`, by image, then
/// sector, each once.
pub fn read_drops(text: &[u8]) -> Option<ArrayVec<DropAt, MOST_DROPS>>
    ensures { MatchOption result
        ((drops : List DropAtOf) → AreRising (map drop_place drops) × (length drops ≤ MOST_DROPS) × All IsDrop drops → text.now ≢ commas (map drop_name drops))
        (λ drops. (AreRising (map drop_place drops.items) × (length drops.items ≤ MOST_DROPS) × All IsDrop drops.items) × (text.now ≡ commas (map drop_name drops.items))) }
{
    let words = rising(text)?;
    Some(drops_of(&words))
}

/// The sectors of words.
fn drops_of(words: &ArrayVec<DropWord, MOST_DROPS>) -> ArrayVec<DropAt, MOST_DROPS>
    ensures { result.items ≡ map (λ word. word.at) words.now.items }
{
    let mut drops = ArrayVec::new();
    for word in words.as_slice() {
        drops.push(word.at);
    }
    drops
}
