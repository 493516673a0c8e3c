//! The limits of a task.

ghost use Rattle.std.specs.Prelude.{◌≡◌, true};
ghost use Rattle.std.specs.List.{list_all};
ghost use Rattle.file_tree.specs.Places.{is_file_name};
ghost use Rattle.file_tree.specs.Views.{kind_of};
ghost use Rattle.file_tree.specs.WellFormed.{is_byte, is_content, is_within_limits};
ghost use Rattle.task_reader.specs.Reading.{is_short, keeps_limits};
ghost use Rattle.task.specs.Views.{node_of, nodes_of};
ghost use Rattle.task_reader.specs.WrittenViews.{node_seen, nodes_seen, task_seen};

use crate::written::{WrittenNode, WrittenTask};
use file_tree::{Kind, Place, is_valid_name, is_valid_target};
use rights::limits::{MAX_BYTES, MAX_GRANTS, MAX_NODES, MAX_PATH, MAX_PROCESSES, MAX_PROGRAMS};
use task::TaskNode;

/// Whether each name is one of a node's.
fn are_names(place: &Place) -> bool
    ensures { result ≡ list_all is_file_name place.now }
{
    place.names().all(is_valid_name)
}

/// Whether a content is one of a node of that kind.
fn is_content(kind: Kind, content: &[u8]) -> bool
    ensures value { result ≡ is_content (kind_of kind) content.now }
    ensures bytes { list_all is_byte content.now ≡ true }
{
    match kind {
        Kind::File => content.len() <= MAX_BYTES,
        Kind::Dir => content.is_empty(),
        Kind::Link => is_valid_target(content),
    }
}

/// Whether a node keeps the limits of its names and of what it holds.
fn is_within_limits(node: &TaskNode) -> bool
    ensures { result ≡ is_within_limits (node_of node.now) }
{
    let content = is_content(node.kind, &node.content);
    are_names(&node.place) && content
}

/// Whether each node does.
fn are_within_limits(nodes: &[TaskNode]) -> bool
    ensures { result ≡ list_all is_within_limits (nodes_of nodes.now) }
{
    for node in nodes {
        if !is_within_limits(node) {
            return false;
        }
    }
    true
}

/// Whether the path of each node is short enough.
fn are_short(nodes: &[WrittenNode<'_>]) -> bool
    ensures { result ≡ list_all is_short (nodes_seen nodes.now) }
{
    for node in nodes {
        if node.path.len() > MAX_PATH {
            return false;
        }
    }
    true
}

/// Whether a task and its tree keep the limits: of the length of a node's path, of its names, and of what it holds; and of
/// how many nodes, grants, programs and processes there are. (own)
pub(crate) fn keeps_limits(task: &WrittenTask<'_>, nodes: &[TaskNode]) -> bool
    ensures { result ≡ keeps_limits (task_seen task.now) (nodes_of nodes.now) }
{
    are_short(&task.nodes)
        && are_within_limits(nodes)
        && nodes.len() <= MAX_NODES
        && task.grants.len() <= MAX_GRANTS
        && task.programs.len() <= MAX_PROGRAMS
        && task.starts.len() <= MAX_PROCESSES
}
