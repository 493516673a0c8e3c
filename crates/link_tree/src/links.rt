//! The nodes of a tree by links: what is kept of each, and what is read of it.

ghost use Rattle.std.specs.Prelude.{◌≡◌, ◌<◌, Option, length, IfSome};
ghost use Rattle.std.specs.Option.{option_copied};
ghost use Rattle.file_tree.specs.Nodes.{child_of, node, parent_of, link_target};
ghost use Rattle.link_tree.specs.Links.{IsLinkedTree, linked_nodes};
ghost use Rattle.file_tree.specs.Views.{kind_of};
ghost use Rattle.link_tree.specs.LinkViews.{links_of};

use file_tree::{Kind, Place};
use std::collections::BTreeMap;

/// Where a node stands.
#[derive(Drop)]
pub(crate) enum Stand {
    /// It is the root.
    Root,
    /// It has a name in the directory of a number.
    In { parent: usize, name: Vec<u8> },
    /// It was removed, and keeps the place that it had then.
    Out { place: Place },
}

/// A node, with the numbers of a directory's children by their names.
#[derive(Drop)]
pub(crate) struct Entry {
    pub(crate) kind: Kind,
    pub(crate) stand: Stand,
    pub(crate) children: BTreeMap<Vec<u8>, usize>,
    pub(crate) content: Vec<u8>,
}

/// The node of a name in a directory.
pub(crate) fn child_in(entries: &[Entry], dir: usize, name: &[u8]) -> Option<usize>
    requires linked { IsLinkedTree (links_of entries.now) }
    requires there { dir < length entries.now }
    ensures found { result ≡ child_of (linked_nodes (links_of entries.now)) dir name.now }
    ensures there { IfSome result (λ n. n < length entries.now) }
{
    let holder = &entries[dir];
    holder.children.get(name).copied()
}

/// The directory that holds a node.
pub(crate) fn parent_in(entries: &[Entry], n: usize) -> Option<usize>
    requires linked { IsLinkedTree (links_of entries.now) }
    requires there { n < length entries.now }
    ensures found { result ≡ parent_of (linked_nodes (links_of entries.now)) n }
    ensures there { IfSome result (λ d. d < length entries.now) }
{
    let entry = &entries[n];
    match &entry.stand {
        Stand::Root => None,
        Stand::In { parent, .. } => Some(*parent),
        Stand::Out { .. } => None,
    }
}

/// Whether a node wasn't removed.
pub(crate) fn is_linked_in(entries: &[Entry], n: usize) -> bool
    requires linked { IsLinkedTree (links_of entries.now) }
    requires there { n < length entries.now }
    ensures { result ≡ (node (linked_nodes (links_of entries.now)) n).linked }
{
    match &entries[n].stand {
        Stand::Root => true,
        Stand::In { .. } => true,
        Stand::Out { .. } => false,
    }
}

/// What a node is.
pub(crate) fn kind_in(entries: &[Entry], n: usize) -> Kind
    requires linked { IsLinkedTree (links_of entries.now) }
    requires there { n < length entries.now }
    ensures { kind_of result ≡ (node (linked_nodes (links_of entries.now)) n).kind }
{
    entries[n].kind
}

/// What a link holds.
pub(crate) fn target_in(entries: &[Entry], n: usize) -> Option<&[u8]>
    requires linked { IsLinkedTree (links_of entries.now) }
    requires there { n < length entries.now }
    ensures { option_copied result ≡ link_target (linked_nodes (links_of entries.now)) n }
{
    let entry = &entries[n];
    match entry.kind {
        Kind::Link => Some(entry.content.as_slice()),
        Kind::File => None,
        Kind::Dir => None,
    }
}

/// The content of a node.
pub(crate) fn content_in(entries: &[Entry], n: usize) -> &[u8]
    requires linked { IsLinkedTree (links_of entries.now) }
    requires there { n < length entries.now }
    ensures { result.now ≡ (node (linked_nodes (links_of entries.now)) n).content }
{
    entries[n].content.as_slice()
}
