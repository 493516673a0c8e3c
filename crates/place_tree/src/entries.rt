//! The plain list of nodes: what is read of it.

ghost use Rattle.std.specs.Prelude.{◌≡◌, ◌<◌, Option, length, IfSome};
ghost use Rattle.std.specs.Option.{option_copied};
ghost use Rattle.file_tree.specs.Places.{above, at_name};
ghost use Rattle.file_tree.specs.Nodes.{child_of, has_below, node_at, parent_of, link_target};
ghost use Rattle.place_tree.specs.EntryViews.{nodes_of};

use file_tree::{Kind, Place};

/// A node of the plain list, with its whole place.
#[derive(Drop)]
pub(crate) struct Entry {
    pub(crate) kind: Kind,
    pub(crate) linked: bool,
    pub(crate) place: Place,
    pub(crate) content: Vec<u8>,
}

/// The number of the linked node that a place stands in, which for the root's is the root.
#[tactic(auto, unfolding(file_tree::specs::Nodes::node_at))]
fn find_above(entries: &[Entry], place: &Place) -> Option<usize>
    ensures found { result ≡ node_at (nodes_of entries.now) (above place.now) }
    ensures there { IfSome result (λ n. n < length entries.now) }
{
    for (i, entry) in entries.iter().enumerate() {
        if entry.linked {
            if place.stands_in(&entry.place) {
                return Some(i);
            }
        }
    }
    None
}

/// The number of the linked node of a name in the directory at a place.
#[tactic(auto, unfolding(file_tree::specs::Nodes::node_at))]
pub(crate) fn find_child(entries: &[Entry], dir: &Place, name: &[u8]) -> Option<usize>
    ensures found { result ≡ node_at (nodes_of entries.now) (at_name dir.now name.now) }
    ensures there { IfSome result (λ n. n < length entries.now) }
{
    for (i, entry) in entries.iter().enumerate() {
        if entry.linked {
            if entry.place.is_child(dir, name) {
                return Some(i);
            }
        }
    }
    None
}

/// Whether some linked node lies below a place.
pub(crate) fn holds_below(entries: &[Entry], place: &Place) -> bool
    ensures { result ≡ has_below (nodes_of entries.now) place.now }
{
    for entry in entries {
        if entry.linked {
            if entry.place.begins_with(place) {
                if !place.is_same(&entry.place) {
                    return true;
                }
            }
        }
    }
    false
}

/// The node of a name in a directory.
#[tactic(auto, unfolding(file_tree::specs::Nodes::child_of))]
pub(crate) fn child_in(entries: &[Entry], dir: usize, name: &[u8]) -> Option<usize>
    requires { dir < length entries.now }
    ensures found { result ≡ child_of (nodes_of entries.now) dir name.now }
    ensures there { IfSome result (λ n. n < length entries.now) }
{
    let holder = &entries[dir];
    if !holder.linked {
        return None;
    }
    find_child(entries, &holder.place, name)
}

/// The directory that holds a node.
#[tactic(auto, unfolding(file_tree::specs::Nodes::parent_of))]
pub(crate) fn parent_in(entries: &[Entry], n: usize) -> Option<usize>
    requires { n < length entries.now }
    ensures found { result ≡ parent_of (nodes_of entries.now) n }
    ensures there { IfSome result (λ d. d < length entries.now) }
{
    let entry = &entries[n];
    if !entry.linked {
        return None;
    }
    if entry.place.is_root() {
        return None;
    }
    find_above(entries, &entry.place)
}

/// What a link holds.
#[tactic(auto, unfolding(file_tree::specs::Nodes::link_target))]
pub(crate) fn target_in(entries: &[Entry], n: usize) -> Option<&[u8]>
    requires { n < length entries.now }
    ensures { option_copied result ≡ link_target (nodes_of entries.now) n }
{
    let entry = &entries[n];
    match entry.kind {
        Kind::Link => Some(entry.content.as_slice()),
        Kind::File => None,
        Kind::Dir => None,
    }
}
