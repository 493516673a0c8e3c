//! The nodes of a tree that is made, numbered by their paths, so that a node is found in a time that doesn't grow with the tree.

ghost use Rattle.std.specs.Prelude.{◌≡◌, ◌<◌, ◌++◌, ◌∷◌, [], None, Some, IfErr, IfOk, IfSome, OnOk, length, option_map};
ghost use Rattle.file_tree.specs.Refusals.{new_tree};
ghost use Rattle.task.specs.Views.{node_of, nodes_of};
ghost use Rattle.task_reader.specs.IndexViews.{IsIndex, IsPath, is_directory};
ghost use Rattle.task_reader.specs.Reading.{can_stand, node_made, number_of_path};
ghost use Rattle.task_reader.specs.WrittenViews.{node_seen};
ghost use Rattle.task_reader.specs.declared.faults.TaskFault.TheVariants as fault;

use crate::faults::TaskFault;
use crate::written::WrittenNode;
use file_tree::{Kind, Place};
use indexmap::IndexMap;
use std::alloc::Global;
use task::TaskNode;

/// The nodes that are made, and the number of each by its path.
#[derive(Drop)]
pub(crate) struct IndexedNodes<'a> {
    pub(crate) nodes: Vec<TaskNode>,
    pub(crate) numbers: IndexMap<&'a [u8], usize>,
}

/// The root alone, with room for as many nodes.
pub(crate) fn root_alone<'a>(alloc: Global, room: usize) -> Result<IndexedNodes<'a>, TaskFault>
    ensures nodes { IfOk result (λ tree. nodes_of tree.nodes.items ≡ new_tree) }
    ensures index { IfOk result (λ tree. IsIndex tree.numbers (nodes_of tree.nodes.items)) }
    ensures memory { IfErr result (λ error. error ≡ fault.Memory) }
{
    let mut nodes = Vec::with_capacity(alloc, room)?;
    nodes.push(TaskNode {
        kind: Kind::Dir,
        place: Place::root(alloc),
        content: Vec::new(alloc),
    })?;
    let mut numbers = IndexMap::with_capacity(alloc, room)?;
    numbers.insert(b"/".as_slice(), 0)?;
    Ok(IndexedNodes { nodes, numbers })
}

/// Adds a node that was made behind the others.
pub(crate) fn add_node<'a>(
    tree: &mut IndexedNodes<'a>,
    written: &WrittenNode<'a>,
    made: TaskNode,
) -> Result<(), TaskFault>
    requires index { IsIndex tree.old.numbers (nodes_of tree.old.nodes.items) }
    requires made { node_made (nodes_of tree.old.nodes.items) (node_seen written.now) ≡ Some (node_of made) }
    ensures nodes { OnOk result (tree.new.nodes.items ≡ tree.old.nodes.items ++ made ∷ []) }
    ensures index { OnOk result (IsIndex tree.new.numbers (nodes_of tree.new.nodes.items)) }
    ensures memory { IfErr result (λ error. error ≡ fault.Memory) }
{
    tree.numbers
        .insert(written.path.as_bytes(), tree.nodes.len())?;
    tree.nodes.push(made)?;
    Ok(())
}

/// The number of the node at a path.
pub(crate) fn number_at(tree: &IndexedNodes<'_>, path: &[u8]) -> Option<usize>
    requires { IsIndex tree.now.numbers (nodes_of tree.now.nodes.items) }
    ensures value { result ≡ number_of_path (nodes_of tree.now.nodes.items) path.now }
    ensures within { IfSome result (λ number. number < length tree.now.nodes.items) }
{
    tree.numbers.get(&path).copied()
}

/// Whether the node at a path is a directory.
fn is_directory(tree: &IndexedNodes<'_>, path: &[u8]) -> bool
    requires { IsIndex tree.now.numbers (nodes_of tree.now.nodes.items) }
    ensures { result ≡ is_directory (nodes_of tree.now.nodes.items) (number_of_path (nodes_of tree.now.nodes.items) path.now) }
{
    match number_at(tree, path) {
        Some(number) => matches!(tree.nodes[number].kind, Kind::Dir),
        None => false,
    }
}

/// Whether a node can stand at a place, which is that of this path: in a directory that is there, and where nothing stands yet.
#[tactic(auto, unfolding(crate::specs::Reading::can_stand))]
pub(crate) fn can_stand(tree: &IndexedNodes<'_>, path: &[u8], place: &Place) -> bool
    requires index { IsIndex tree.now.numbers (nodes_of tree.now.nodes.items) }
    requires path { IsPath path.now place.now }
    ensures { result ≡ can_stand (nodes_of tree.now.nodes.items) place.now }
{
    let is_free = number_at(tree, path).is_none();
    is_directory(tree, place.text_above()) && is_free
}
