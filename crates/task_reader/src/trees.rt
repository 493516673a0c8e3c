//! The tree that a task's nodes make.

ghost use Rattle.std.specs.Prelude.{◌≡◌, IfOk, OnOk, option_map};
ghost use Rattle.task_reader.specs.FaultViews.{ReadsTask};
ghost use Rattle.task_reader.specs.IndexViews.{IsIndex};
ghost use Rattle.task_reader.specs.Reading.{Wrong_node, node_made, or_mistake, tree_from, tree_of};
ghost use Rattle.task.specs.Views.{node_of, nodes_of};
ghost use Rattle.task_reader.specs.WrittenViews.{node_seen, nodes_seen};

use crate::faults::TaskFault;
use crate::indexes::{IndexedNodes, add_node, can_stand, root_alone};
use crate::paths::read_place;
use crate::written::WrittenNode;
use std::alloc::{AllocError, Global};
use task::TaskNode;

/// The node behind those that are made, if it can stand there.
fn make_node(
    alloc: Global,
    tree: &IndexedNodes<'_>,
    node: &WrittenNode<'_>,
) -> Result<Option<TaskNode>, AllocError>
    requires { IsIndex tree.now.numbers (nodes_of tree.now.nodes.items) }
    ensures { IfOk result (λ made. option_map node_of made ≡ node_made (nodes_of tree.now.nodes.items) (node_seen node.now)) }
{
    let path = node.path.as_bytes();
    let Some(place) = read_place(alloc, path)? else {
        return Ok(None);
    };
    if !can_stand(tree, path, &place) {
        return Ok(None);
    }
    Ok(Some(TaskNode {
        kind: node.kind,
        place,
        content: Vec::from_slice(alloc, node.content.as_bytes())?,
    }))
}

/// Adds some nodes behind those that are made.
fn add_nodes<'a>(
    alloc: Global,
    tree: &mut IndexedNodes<'a>,
    written: &[WrittenNode<'a>],
) -> Result<(), TaskFault>
    requires { IsIndex tree.old.numbers (nodes_of tree.old.nodes.items) }
    ensures tree { ReadsTask (λ _. nodes_of tree.new.nodes.items) result
        (or_mistake Wrong_node (tree_from (nodes_of tree.old.nodes.items) (nodes_seen written.now))) }
    ensures index { OnOk result (IsIndex tree.new.numbers (nodes_of tree.new.nodes.items)) }
{
    for node in written {
        match make_node(alloc, tree, node)? {
            Some(made) => add_node(tree, node, made)?,
            None => return Err(TaskFault::Node),
        }
    }
    Ok(())
}

/// The tree of some nodes, the root first. (own)
pub(crate) fn make_tree<'a>(
    alloc: Global,
    written: &[WrittenNode<'a>],
) -> Result<IndexedNodes<'a>, TaskFault>
    ensures tree { ReadsTask (λ tree. nodes_of tree.nodes.items) result (or_mistake Wrong_node (tree_of (nodes_seen written.now))) }
    ensures index { IfOk result (λ tree. IsIndex tree.numbers (nodes_of tree.nodes.items)) }
{
    let mut tree = root_alone(alloc, written.len().saturating_add(1))?;
    add_nodes(alloc, &mut tree, written)?;
    Ok(tree)
}
