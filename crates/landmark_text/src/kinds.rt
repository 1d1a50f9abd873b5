//! The names of the kinds of landmark sectors and of groups.
ghost use Rattle.std.specs.Prelude.{◌≡◌, ◌≢◌, ◌∷◌, ◌++◌, ℕ, List, All, IsTrue, MatchOption};
ghost use Rattle.mark_kinds.specs.declared.table.GroupKind.{GroupKind as GroupKindOf};
ghost use Rattle.mark_kinds.specs.declared.table.Kind.{Kind as KindOf};
ghost use Rattle.value_text.specs.Spelling.{is_separator};
ghost use Rattle.landmark_text.specs.Names.{group_name as group_spelling, kind_name};

use mark_kinds::{GROUPS, GroupKind, KINDS, Kind};
use value_text::cut;

/// The kind of landmark sectors whose name is the whole text.
#[tactic(auto, using(crate::proofs::AllKinds::any_kind))]
pub fn read_kind(text: &[u8]) -> Option<Kind>
    ensures { MatchOption result ((kind : KindOf) → text.now ≢ kind_name kind) (λ kind. text.now ≡ kind_name kind) }
{
    find_kind(&KINDS, text)
}

/// The first of these kinds whose name is the whole text.
fn find_kind(kinds: &[Kind], text: &[u8]) -> Option<Kind>
    ensures { MatchOption result (All (λ kind. text.now ≢ kind_name kind) kinds.now) (λ kind. text.now ≡ kind_name kind) }
{
    for kind in kinds {
        if kind.name().as_bytes() == text {
            return Some(*kind);
        }
    }
    None
}

/// The kind of landmark sectors before the first such separator, and what follows the separator.
pub fn kind_until(text: &[u8], separator: u8) -> Option<(Kind, &[u8])>
    requires { IsTrue (is_separator separator) }
    ensures { MatchOption result
        ((kind : KindOf) (rest : List ℕ) → text.entry.now ≢ kind_name kind ++ separator ∷ rest)
        (λ r. text.entry.now ≡ kind_name r.0 ++ separator ∷ r.1.now) }
{
    let (word, rest) = cut(text, separator)?;
    let kind = read_kind(word)?;
    Some((kind, rest))
}

/// The kind of groups whose name is the whole text.
#[tactic(auto, using(crate::proofs::AllKinds::any_group))]
pub fn read_group(text: &[u8]) -> Option<GroupKind>
    ensures { MatchOption result ((kind : GroupKindOf) → text.now ≢ group_spelling kind) (λ kind. text.now ≡ group_spelling kind) }
{
    find_group(&GROUPS, text)
}

/// The first of these kinds whose name is the whole text.
fn find_group(kinds: &[GroupKind], text: &[u8]) -> Option<GroupKind>
    ensures { MatchOption result (All (λ kind. text.now ≢ group_spelling kind) kinds.now) (λ kind. text.now ≡ group_spelling kind) }
{
    for kind in kinds {
        if kind.name().as_bytes() == text {
            return Some(*kind);
        }
    }
    None
}

/// The name of what the marks of a group belong to.
pub fn group_name(kind: GroupKind) -> &'static str
    ensures { result.now ≡ group_spelling kind }
{
    kind.name()
}
