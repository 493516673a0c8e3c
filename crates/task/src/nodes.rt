//! The nodes of a task's tree.

ghost use Rattle.std.specs.Prelude.{◌≡◌};
ghost use Rattle.file_tree.specs.Nodes.{node};
ghost use Rattle.file_tree.specs.Places.{begins, place_text};
ghost use Rattle.task.specs.Views.{nodes_of};

use file_tree::{Kind, Place};

/// A node of the tree that a task starts with. Its number is its place in the list of nodes.
#[derive(Drop)]
pub struct TaskNode {
    pub kind: Kind,
    pub place: Place,
    /// A file's bytes, or a link's target. A directory has none.
    pub content: Vec<u8>,
}

/// Whether the place of a node, by its number, begins with another. One that isn't there counts as the root.
pub fn node_begins(nodes: &[TaskNode], number: u16, front: &Place) -> bool
    ensures { result ≡ begins front.now (node (nodes_of nodes.now) number).place }
{
    match nodes.get(number as usize) {
        Some(node) => node.place.begins_with(front),
        None => front.is_root(),
    }
}

/// The place of a node, by its number, as it is printed. One that isn't there counts as the root.
pub fn node_text(nodes: &[TaskNode], number: u16) -> &[u8]
    ensures { result.now ≡ place_text (node (nodes_of nodes.now) number).place }
{
    match nodes.get(number as usize) {
        Some(node) => node.place.text(),
        None => b"/",
    }
}
