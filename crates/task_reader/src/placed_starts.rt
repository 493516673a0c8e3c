//! The first processes, with their descriptors on the nodes of the tree and on the ends of socket pairs.

ghost use Rattle.std.specs.Prelude.{◌≡◌, ◌<◌, IfOk, IfSome, length, map, option_map};
ghost use Rattle.std.specs.List.{list_all};
ghost use Rattle.rights.specs.Views.{side_seen};
ghost use Rattle.fd_table.specs.Views.{access_seen};
ghost use Rattle.task_reader.specs.FaultViews.{ReadsTask};
ghost use Rattle.task_reader.specs.IndexViews.{IsIndex};
ghost use Rattle.task.specs.Limits.{all_apart, are_numbered_apart};
ghost use Rattle.task_reader.specs.PlacedViews.{placed_descriptor, placed_object, placed_start, placed_starts};
ghost use Rattle.task_reader.specs.Reading.{Wrong_descriptor, can_access, can_open, descriptor_placed, descriptors_placed, number_below, number_of_path, object_placed, or_mistake};
ghost use Rattle.task_reader.specs.Reading.{pair_placed, path_placed, start_placed, starts_placed, table_of};
ghost use Rattle.task.specs.Views.{node_of, nodes_of};
ghost use Rattle.task_reader.specs.WrittenViews.{descriptor_seen, object_seen, start_seen, starts_seen};

use crate::faults::TaskFault;
use crate::indexes::{IndexedNodes, number_at};
use crate::written::{WrittenDescriptor, WrittenObject, WrittenStart};
use fd_table::{Access, Side};
use file_tree::Kind;
use rights::limits::{MAX_DESCRIPTORS, MAX_PAIRS};
use rights::{Fcntls, Rights};
use std::alloc::{AllocError, Global};
use task::TaskNode;

/// The numbers that a descriptor may have are below this one.
const NUMBERS: u8 = MAX_DESCRIPTORS as u8;

/// What a first descriptor is of: a node of a tree of any size, or a side of a socket pair.
#[derive(Clone, Copy)]
pub(crate) enum PlacedObject {
    Node { node: usize, access: Access },
    End { pair: u8, side: Side },
}

/// A first descriptor on its node or its end.
#[derive(Clone, Copy)]
pub(crate) struct PlacedDescriptor {
    pub(crate) number: u8,
    pub(crate) object: PlacedObject,
    pub(crate) rights: Rights,
    pub(crate) fcntls: Fcntls,
}

/// A first process of a program among any number.
#[derive(Drop)]
pub(crate) struct PlacedStart {
    pub(crate) program: usize,
    pub(crate) mode: bool,
    pub(crate) descriptors: Vec<PlacedDescriptor>,
}

/// The number, if it is one from 0 to below the bound.
fn number_below(bound: u8, number: i64) -> Option<u8>
    ensures { result ≡ number_below bound number }
{
    match u8::try_from(number) {
        Ok(number) if number < bound => Some(number),
        _ => None,
    }
}

/// Whether a node can be opened so: no link, for reading or writing, and a directory not for writing. (open(2))
fn can_access(node: &TaskNode, access: Access) -> bool
    ensures { result ≡ can_access (node_of node.now) (access_seen access) }
{
    match node.kind {
        Kind::Link => false,
        Kind::Dir => access.readable && !access.writable,
        Kind::File => access.readable || access.writable,
    }
}

/// Whether the node of a number can be opened so.
fn can_open(nodes: &[TaskNode], number: usize, access: Access) -> bool
    requires { number < length nodes.now }
    ensures { result ≡ can_open (nodes_of nodes.now) number (access_seen access) }
{
    can_access(&nodes[number], access)
}

/// The node at a path, if it can be opened so.
fn place_node(tree: &IndexedNodes<'_>, path: &str, access: Access) -> Option<PlacedObject>
    requires { IsIndex tree.now.numbers (nodes_of tree.now.nodes.items) }
    ensures { option_map placed_object result
        ≡ path_placed (nodes_of tree.now.nodes.items) path.now (access_seen access) }
{
    match number_at(tree, path.as_bytes()) {
        Some(node) if can_open(&tree.nodes, node, access) => {
            Some(PlacedObject::Node { node, access })
        }
        _ => None,
    }
}

/// The end of a pair, if the pair is one that a task may start with. (socketpair(2))
fn place_end(pair: i64, side: Side) -> Option<PlacedObject>
    ensures { option_map placed_object result ≡ pair_placed pair (side_seen side) }
{
    match number_below(MAX_PAIRS, pair) {
        Some(pair) => Some(PlacedObject::End { pair, side }),
        None => None,
    }
}

/// The node or the end that a descriptor is of, if it can be.
fn place_object(tree: &IndexedNodes<'_>, object: &WrittenObject<'_>) -> Option<PlacedObject>
    requires { IsIndex tree.now.numbers (nodes_of tree.now.nodes.items) }
    ensures { option_map placed_object result
        ≡ object_placed (nodes_of tree.now.nodes.items) (object_seen object.now) }
{
    match object {
        WrittenObject::Path { path, access } => place_node(tree, path, *access),
        WrittenObject::Pair { pair, side } => place_end(*pair, *side),
    }
}

/// The descriptor on its node or end, if its number is one and it can be.
fn place_descriptor(
    tree: &IndexedNodes<'_>,
    descriptor: &WrittenDescriptor<'_>,
) -> Option<PlacedDescriptor>
    requires { IsIndex tree.now.numbers (nodes_of tree.now.nodes.items) }
    ensures { option_map placed_descriptor result
        ≡ descriptor_placed (nodes_of tree.now.nodes.items) (descriptor_seen descriptor.now) }
{
    let number = number_below(NUMBERS, descriptor.number);
    match (number, place_object(tree, &descriptor.object)) {
        (Some(number), Some(object)) => Some(PlacedDescriptor {
            number,
            object,
            rights: descriptor.rights,
            fcntls: descriptor.fcntls,
        }),
        _ => None,
    }
}

/// The descriptors on their nodes and ends, if each can be.
fn place_descriptors(
    alloc: Global,
    tree: &IndexedNodes<'_>,
    written: &[WrittenDescriptor<'_>],
) -> Result<Option<Vec<PlacedDescriptor>>, AllocError>
    requires { IsIndex tree.now.numbers (nodes_of tree.now.nodes.items) }
    ensures { IfOk result (λ placed. option_map (λ descriptors. map placed_descriptor descriptors.items) placed
        ≡ descriptors_placed (nodes_of tree.now.nodes.items) (map descriptor_seen written.now)) }
{
    let mut descriptors = Vec::with_capacity(alloc, written.len())?;
    for descriptor in written {
        match place_descriptor(tree, descriptor) {
            Some(placed) => descriptors.push(placed)?,
            None => return Ok(None),
        }
    }
    Ok(Some(descriptors))
}

/// Whether none of the others has the descriptor's number.
fn is_apart(descriptor: PlacedDescriptor, others: &[PlacedDescriptor]) -> bool
    ensures { result ≡ list_all (are_numbered_apart (placed_descriptor descriptor)) (map placed_descriptor others.now) }
{
    match others {
        [] => true,
        [other, rest @ ..] => descriptor.number != other.number && is_apart(descriptor, rest),
    }
}

/// Whether each descriptor has a number of its own.
fn are_apart(descriptors: &[PlacedDescriptor]) -> bool
    ensures { result ≡ all_apart are_numbered_apart (map placed_descriptor descriptors.now) }
{
    match descriptors {
        [] => true,
        [descriptor, rest @ ..] => is_apart(*descriptor, rest) && are_apart(rest),
    }
}

/// A process's descriptors, if each can be on its node or end and has a number of its own, and so no more of them than numbers.
fn make_table(
    alloc: Global,
    tree: &IndexedNodes<'_>,
    written: &[WrittenDescriptor<'_>],
) -> Result<Option<Vec<PlacedDescriptor>>, AllocError>
    requires { IsIndex tree.now.numbers (nodes_of tree.now.nodes.items) }
    ensures { IfOk result (λ placed. option_map (λ descriptors. map placed_descriptor descriptors.items) placed
        ≡ table_of (nodes_of tree.now.nodes.items) (map descriptor_seen written.now)) }
{
    let Some(descriptors) = place_descriptors(alloc, tree, written)? else {
        return Ok(None);
    };
    if descriptors.len() > MAX_DESCRIPTORS {
        return Ok(None);
    }
    if !are_apart(&descriptors) {
        return Ok(None);
    }
    Ok(Some(descriptors))
}

/// The process with its descriptors on their nodes and ends.
fn place_start(
    alloc: Global,
    tree: &IndexedNodes<'_>,
    start: &WrittenStart<'_>,
) -> Result<Option<PlacedStart>, AllocError>
    requires { IsIndex tree.now.numbers (nodes_of tree.now.nodes.items) }
    ensures { IfOk result (λ placed. option_map placed_start placed ≡ start_placed (nodes_of tree.now.nodes.items) (start_seen start.now)) }
{
    let Some(descriptors) = make_table(alloc, tree, &start.descriptors)? else {
        return Ok(None);
    };
    Ok(Some(PlacedStart {
        program: start.program,
        mode: start.mode,
        descriptors,
    }))
}

/// The first processes, with their descriptors on their nodes and ends. (own)
pub(crate) fn place_starts(
    alloc: Global,
    tree: &IndexedNodes<'_>,
    written: &[WrittenStart<'_>],
) -> Result<Vec<PlacedStart>, TaskFault>
    requires { IsIndex tree.now.numbers (nodes_of tree.now.nodes.items) }
    ensures { ReadsTask (λ starts. placed_starts starts.items) result
        (or_mistake Wrong_descriptor (starts_placed (nodes_of tree.now.nodes.items) (starts_seen written.now))) }
{
    let mut starts = Vec::with_capacity(alloc, written.len())?;
    for start in written {
        match place_start(alloc, tree, start)? {
            Some(placed) => starts.push(placed)?,
            None => return Err(TaskFault::Descriptor),
        }
    }
    Ok(starts)
}
