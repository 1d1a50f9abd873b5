//! The groups of marks that sightings make.
ghost use Rattle.std.specs.Prelude.{◌≡◌, ◌++◌, ◌==◌, length, All, IfOk, IfSome, IsTrue, OnOk};
ghost use Rattle.std.specs.List.{flat_map, list_any};
ghost use Rattle.survey_engine.specs.Kept.{kept_with};
ghost use Rattle.survey_engine.specs.Landmarks.{IsSound};
ghost use Rattle.xfs5.specs.Places.{is_sound as is_sound_place};
ghost use Rattle.survey_engine.specs.Systems.{systems_of};
ghost use Rattle.survey_engine.specs.Owners.{group_for, groups_asked, groups_in, groups_of, is_new, is_same_owner, owner_among, owners_of, IsSoundOwner};

use crate::owner::Owner;
use crate::sighting::Sighting;
use crate::systems::systems_of;
use landmark_rules::{Group, Groups, Mark, Marks};
use mark_kinds::{GROUPS, GroupKind, Kinds};
use outside::{ListOf, Memory};
use std::alloc::Global;
use xfs5::XfsInodes;

/// The groups of the sightings that count, of the kinds that are looked for: kind after kind, each kind in the order of the first
/// sightings that name their owners.
pub fn groups(alloc: Global, asked: &Kinds, found: &[Sighting]) -> Result<Groups, Memory>
    requires { All (λ s. IsSound s.landmark) found.now }
    ensures { IfOk result (λ groups. groups ≡ groups_of asked.now found.now) }
{
    let systems = systems_of(alloc, found)?;
    let mut groups = Groups::new(alloc);
    add_kinds(
        alloc,
        asked,
        &GROUPS,
        systems.as_slice(),
        found,
        &mut groups,
    )?;
    Ok(groups)
}

/// Appends the groups of those of these kinds that are looked for, one kind after the other.
#[tactic(auto, using(crate::proofs::Groups::kinds_none, crate::proofs::Groups::kinds_more, crate::proofs::Groups::kinds_all))]
fn add_kinds(
    alloc: Global,
    asked: &Kinds,
    kinds: &[GroupKind],
    systems: &[XfsInodes],
    found: &[Sighting],
    groups: &mut Groups,
) -> Result<(), Memory>
    requires found { All (λ s. IsSound s.landmark) found.now }
    requires systems { systems.now ≡ systems_of found.now }
    ensures { OnOk result (groups.new ≡ groups.old ++ flat_map (groups_asked asked.now found.now) kinds.now) }
{
    for kind in kinds {
        add_asked(alloc, asked, *kind, systems, found, groups)?;
    }
    Ok(())
}

/// Appends the groups of a kind, if it is looked for.
#[tactic(auto, unfolding(crate::specs::Owners::groups_asked))]
fn add_asked(
    alloc: Global,
    asked: &Kinds,
    kind: GroupKind,
    systems: &[XfsInodes],
    found: &[Sighting],
    groups: &mut Groups,
) -> Result<(), Memory>
    requires found { All (λ s. IsSound s.landmark) found.now }
    requires systems { systems.now ≡ systems_of found.now }
    ensures { OnOk result (groups.new ≡ groups.old ++ groups_asked asked.now found.now kind) }
{
    if asked.has(kind) {
        add_groups(alloc, kind, systems, found, groups)?;
    }
    Ok(())
}

/// Appends the groups of a kind.
#[tactic(auto, using(crate::proofs::Groups::groups_none, crate::proofs::Groups::groups_more, crate::proofs::Groups::groups_all, crate::proofs::Groups::owner_at))]
fn add_groups(
    alloc: Global,
    kind: GroupKind,
    systems: &[XfsInodes],
    found: &[Sighting],
    groups: &mut Groups,
) -> Result<(), Memory>
    requires found { All (λ s. IsSound s.landmark) found.now }
    requires systems { systems.now ≡ systems_of found.now }
    ensures { OnOk result (groups.new ≡ groups.old ++ groups_in found.now kind) }
{
    let owners = owners_of(alloc, kind, systems, found)?;
    let alone = owners.as_slice().len() == 1;
    for owner in owners.as_slice() {
        let group = group_for(alloc, found, alone, owner)?;
        groups.push(group)?;
    }
    Ok(())
}

/// The first distinct owners of a kind.
#[tactic(auto, using(crate::proofs::Groups::owners_none, crate::proofs::Groups::owners_some, crate::proofs::Groups::owners_same, crate::proofs::Groups::owners_all, crate::proofs::Groups::sound_at, crate::proofs::Stated::sound_systems))]
fn owners_of(
    alloc: Global,
    kind: GroupKind,
    systems: &[XfsInodes],
    found: &[Sighting],
) -> Result<ListOf<Owner>, Memory>
    requires found { All (λ s. IsSound s.landmark) found.now }
    requires systems { systems.now ≡ systems_of found.now }
    ensures owners { IfOk result (λ owners. owners ≡ owners_of kind found.now) }
    ensures sound { IfOk result (All IsSoundOwner) }
{
    let mut owners = ListOf::new(alloc);
    for sighting in found {
        if let Some(owner) = owner_among(kind, systems, sighting) {
            add_owner(kind, &mut owners, owner)?;
        }
    }
    Ok(owners)
}

/// Appends an owner that is new, where there is room for one more of its kind.
fn add_owner(kind: GroupKind, owners: &mut ListOf<Owner>, owner: Owner) -> Result<(), Memory>
    requires owners { All IsSoundOwner owners.old }
    requires owner { IsSoundOwner owner }
    ensures added { OnOk result (owners.new ≡ kept_with (is_new kind) owners.old owner) }
    ensures sound { OnOk result (All IsSoundOwner owners.new) }
{
    if owners.as_slice().len() < kind.most() && !is_there(owners.as_slice(), &owner) {
        owners.push(owner)?;
    }
    Ok(())
}

/// The owner that a sighting names, where it is one of this kind.
fn owner_among(kind: GroupKind, systems: &[XfsInodes], sighting: &Sighting) -> Option<Owner>
    requires sighting { IsSound sighting.now.landmark }
    requires systems { All (λ x. IsTrue (is_sound_place x)) systems.now }
    ensures owner { result ≡ owner_among kind systems.now sighting.now }
    ensures sound { IfSome result IsSoundOwner }
{
    match Owner::named_by(systems, sighting) {
        Some(owner) if owner.group_kind().is_same(kind) => Some(owner),
        _ => None,
    }
}

/// Whether an owner is among these.
fn is_there(owners: &[Owner], owner: &Owner) -> bool
    ensures { result ≡ list_any (is_same_owner owner.now) owners.now }
{
    owners.iter().any(|other| owner.is_same(other))
}

/// The group of an owner: the marks of its sightings, in their order.
#[tactic(auto, using(crate::proofs::Groups::marks_none, crate::proofs::Groups::marks_some, crate::proofs::Groups::marks_same, crate::proofs::Groups::marks_all, crate::proofs::Groups::sound_at))]
fn group_for(alloc: Global, found: &[Sighting], alone: bool, owner: &Owner) -> Result<Group, Memory>
    requires found { All (λ s. IsSound s.landmark) found.now }
    requires owner { IsSoundOwner owner.now }
    ensures { IfOk result (λ group. group ≡ group_for found.now alone owner.now) }
{
    let mut marks = Marks::new(alloc);
    for sighting in found {
        if let Some(rule) = owner.rule(alone, sighting) {
            marks.push(Mark {
                kind: sighting.landmark.kind(),
                image: sighting.image,
                sector: sighting.sector,
                rule,
            })?;
        }
    }
    Ok(Group {
        kind: owner.group_kind(),
        marks,
        bounds: None,
    })
}
