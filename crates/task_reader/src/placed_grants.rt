//! The policy that a task's grants make.

ghost use Rattle.std.specs.Prelude.{◌≡◌, IfErr, IfOk, map, option_map};
ghost use Rattle.task_reader.specs.FaultViews.{Checks, ReadsTask};
ghost use Rattle.task_reader.specs.IndexViews.{IsIndex};
ghost use Rattle.task.specs.Limits.{all_apart};
ghost use Rattle.task_reader.specs.Reading.{Wrong_grant, are_separate, grant_placed, granted_place, grants_placed, or_mistake, policy_of};
ghost use Rattle.task.specs.Views.{grant_of, grants_of, nodes_of};
ghost use Rattle.task_reader.specs.WrittenViews.{grant_seen, grants_seen};
ghost use Rattle.task_reader.specs.ApartViews.{granted_places, none_begins_so};
ghost use Rattle.task_reader.specs.declared.faults.TaskFault.TheVariants as fault;

use crate::faults::TaskFault;
use crate::indexes::{IndexedNodes, number_at};
use crate::written::WrittenGrant;
use file_tree::{Kind, Place};
use std::alloc::{AllocError, Global};
use task::Grant;
use texts::Name;

/// The place of a path, if a directory stands there.
fn directory_at<'t>(tree: &'t IndexedNodes<'_>, path: &str) -> Option<&'t Place>
    requires { IsIndex tree.now.numbers (nodes_of tree.now.nodes.items) }
    ensures { option_map (λ p. p.now) result ≡ granted_place (nodes_of tree.now.nodes.items) path.now }
{
    let number = number_at(tree, path.as_bytes())?;
    let node = &tree.nodes[number];
    match node.kind {
        Kind::Dir => Some(&node.place),
        Kind::File | Kind::Link => None,
    }
}

/// The grant, if a directory stands at its path.
fn place_grant(
    alloc: Global,
    tree: &IndexedNodes<'_>,
    grant: &WrittenGrant<'_>,
) -> Result<Option<Grant>, AllocError>
    requires { IsIndex tree.now.numbers (nodes_of tree.now.nodes.items) }
    ensures { IfOk result (λ placed. option_map grant_of placed ≡ grant_placed (nodes_of tree.now.nodes.items) (grant_seen grant.now)) }
{
    let Some(place) = directory_at(tree, grant.path) else {
        return Ok(None);
    };
    Ok(Some(Grant {
        name: Name::new(grant.name.as_bytes()),
        path: place.copy(alloc)?,
        operations: Vec::from_slice(alloc, &grant.operations)?,
    }))
}

/// The places of the grants, if a directory stands at each.
fn grant_places<'t>(
    alloc: Global,
    tree: &'t IndexedNodes<'_>,
    written: &[WrittenGrant<'_>],
) -> Result<Option<Vec<&'t Place>>, AllocError>
    requires { IsIndex tree.now.numbers (nodes_of tree.now.nodes.items) }
    ensures { IfOk result (λ places. option_map (λ places. map (λ p. p.now) places.items) places
        ≡ granted_places (nodes_of tree.now.nodes.items) (grants_seen written.now)) }
{
    let mut places = Vec::with_capacity(alloc, written.len())?;
    for grant in written {
        match directory_at(tree, grant.path) {
            Some(place) => places.push(place)?,
            None => return Ok(None),
        }
    }
    Ok(Some(places))
}

/// Whether no place begins with the one before it.
fn none_begins_so(places: &[&Place]) -> bool
    ensures { result ≡ none_begins_so (map (λ p. p.now) places.now) }
{
    for at in 1..places.len() {
        if places[at].begins_with(places[at - 1]) {
            return false;
        }
    }
    true
}

/// Whether none of some places begins with another. In the order of places, what begins with a place stands right behind it.
fn are_apart(places: Vec<&Place>) -> Result<bool, TaskFault>
    ensures apart { IfOk result (λ apart. apart ≡ all_apart are_separate (map (λ p. p.now) places.entry.items)) }
    ensures memory { IfErr result (λ error. error ≡ fault.Memory) }
{
    let mut places = places;
    places.sort_by(|place, other| place.compare(other))?;
    Ok(none_begins_so(&places))
}

/// Checks the policy of some grants, and makes none of them yet, as there may be too many: each is of a directory, and no place is
/// in two. (own)
pub(crate) fn check_policy(
    alloc: Global,
    tree: &IndexedNodes<'_>,
    written: &[WrittenGrant<'_>],
) -> Result<(), TaskFault>
    requires { IsIndex tree.now.numbers (nodes_of tree.now.nodes.items) }
    ensures { Checks result (or_mistake Wrong_grant (policy_of (nodes_of tree.now.nodes.items) (grants_seen written.now))) }
{
    let Some(places) = grant_places(alloc, tree, written)? else {
        return Err(TaskFault::Grant);
    };
    if !are_apart(places)? {
        return Err(TaskFault::Grant);
    }
    Ok(())
}

/// The grants, each of a directory. (own)
pub(crate) fn make_grants(
    alloc: Global,
    tree: &IndexedNodes<'_>,
    written: &[WrittenGrant<'_>],
) -> Result<Vec<Grant>, TaskFault>
    requires { IsIndex tree.now.numbers (nodes_of tree.now.nodes.items) }
    ensures { ReadsTask (λ grants. grants_of grants.items) result
        (or_mistake Wrong_grant (grants_placed (nodes_of tree.now.nodes.items) (grants_seen written.now))) }
{
    let mut grants = Vec::with_capacity(alloc, written.len())?;
    for grant in written {
        match place_grant(alloc, tree, grant)? {
            Some(placed) => grants.push(placed)?,
            None => return Err(TaskFault::Grant),
        }
    }
    Ok(grants)
}
