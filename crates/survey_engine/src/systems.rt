//! The file systems of XFS whose inodes are looked for, by what their superblocks state.
ghost use Rattle.std.specs.Prelude.{◌≡◌, IfOk, OnOk};
ghost use Rattle.std.specs.List.{list_any};
ghost use Rattle.std.specs.Str.{bytes_eq};
ghost use Rattle.survey_engine.specs.Kept.{kept, kept_with};
ghost use Rattle.survey_engine.specs.Systems.{deciding, is_new_system, is_same_geometry, places_in, stated as stated_of, stronger, system_with, systems_of, votes};

use crate::landmark::Landmark;
use crate::owner::is_same_uuid;
use crate::sighting::Sighting;
use outside::{ListOf, Memory};
use std::alloc::Global;
use uuid::Uuid;
use xfs5::XfsInodes;

/// The file systems of XFS of version 5 of which there are superblocks among the sightings, in the order of their first ones. Where
/// superblocks of one differ, it is as most of them state, of equals as the first does.
#[tactic(auto, using(crate::proofs::Stated::systems_none, crate::proofs::Stated::systems_more, crate::proofs::Stated::systems_all))]
pub fn systems_of(alloc: Global, found: &[Sighting]) -> Result<ListOf<XfsInodes>, Memory>
    ensures { IfOk result (λ systems. systems ≡ systems_of found.now) }
{
    let stated = stated(alloc, found)?;
    let all = stated.as_slice();
    let firsts = firsts(alloc, all)?;
    let mut systems = ListOf::new(alloc);
    for first in firsts.as_slice() {
        systems.push(deciding(all, first))?;
    }
    Ok(systems)
}

/// The file system whose inodes have an identifier.
#[tactic(auto, using(crate::proofs::Stated::with_start, crate::proofs::Stated::with_found, crate::proofs::Stated::with_passed, crate::proofs::Stated::with_none))]
pub fn system_with(systems: &[XfsInodes], identifier: &Uuid) -> Option<XfsInodes>
    ensures { result ≡ system_with systems.now identifier.now }
{
    for one in systems {
        if is_same_uuid(&one.uuid, identifier) {
            return Some(*one);
        }
    }
    None
}

/// What the superblocks among the sightings state of where inodes lie, in their order.
#[tactic(auto, using(crate::proofs::Stated::stated_none, crate::proofs::Stated::stated_some, crate::proofs::Stated::stated_same, crate::proofs::Stated::stated_all))]
fn stated(alloc: Global, found: &[Sighting]) -> Result<ListOf<XfsInodes>, Memory>
    ensures { IfOk result (λ all. all ≡ stated_of found.now) }
{
    let mut all = ListOf::new(alloc);
    for sighting in found {
        if let Some(places) = places_in(&sighting.landmark) {
            all.push(places)?;
        }
    }
    Ok(all)
}

/// What a landmark states of where inodes lie.
fn places_in(landmark: &Landmark) -> Option<XfsInodes>
    ensures { result ≡ places_in landmark.now }
{
    match landmark {
        Landmark::Super5(_, places) => Some(*places),
        _ => None,
    }
}

/// Of each file system what is stated first.
#[tactic(auto, using(crate::proofs::Stated::firsts_none, crate::proofs::Stated::firsts_more, crate::proofs::Stated::firsts_all))]
fn firsts(alloc: Global, all: &[XfsInodes]) -> Result<ListOf<XfsInodes>, Memory>
    ensures { IfOk result (λ firsts. firsts ≡ kept is_new_system all.now) }
{
    let mut firsts = ListOf::new(alloc);
    for next in all {
        add_first(&mut firsts, next)?;
    }
    Ok(firsts)
}

/// Appends what is stated of a file system of which nothing was stated yet.
fn add_first(firsts: &mut ListOf<XfsInodes>, next: &XfsInodes) -> Result<(), Memory>
    ensures { OnOk result (firsts.new ≡ kept_with is_new_system firsts.old next.now) }
{
    if !is_known(firsts.as_slice(), next) {
        firsts.push(*next)?;
    }
    Ok(())
}

/// Whether one of these is of the same file system.
fn is_known(firsts: &[XfsInodes], next: &XfsInodes) -> bool
    ensures { result ≡ list_any (λ one. bytes_eq one.uuid next.now.uuid) firsts.now }
{
    firsts.iter().any(|one| is_same_uuid(&one.uuid, &next.uuid))
}

/// What decides of the file system of which this is stated first.
#[tactic(auto, using(crate::proofs::Stated::decided_none, crate::proofs::Stated::decided_more, crate::proofs::Stated::decided_all))]
fn deciding(all: &[XfsInodes], first: &XfsInodes) -> XfsInodes
    ensures { result ≡ deciding all.now first.now }
{
    let mut best = *first;
    for next in all {
        best = stronger(all, &best, next);
    }
    best
}

/// What decides once one more was looked at: that, if it is of the same file system and more superblocks state it.
fn stronger(all: &[XfsInodes], best: &XfsInodes, next: &XfsInodes) -> XfsInodes
    ensures { result ≡ stronger all.now best.now next.now }
{
    if is_same_uuid(&best.uuid, &next.uuid) && votes(all, best) < votes(all, next) {
        *next
    } else {
        *best
    }
}

/// How many of all state what one does.
fn votes(all: &[XfsInodes], one: &XfsInodes) -> usize
    ensures { result ≡ votes all.now one.now }
{
    all.iter()
        .filter(|other| is_same_geometry(one, other))
        .count()
}

/// Whether two state the same, field by field.
fn is_same_geometry(a: &XfsInodes, b: &XfsInodes) -> bool
    ensures { result ≡ is_same_geometry a.now b.now }
{
    (a.block == b.block && a.ag_blocks == b.ag_blocks && a.ag_count == b.ag_count)
        && (a.inode == b.inode && a.inode_bits == b.inode_bits && a.block_bits == b.block_bits)
        && is_same_uuid(&a.uuid, &b.uuid)
}
