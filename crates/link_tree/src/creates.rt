//! Nodes made in a tree by links, and contents changed.

ghost use Rattle.std.specs.Prelude.{◌≡◌, ◌<◌, None, length, vec_len, true, IsTrue, IfOk, IfErr, OnOk, OnErr};
ghost use Rattle.file_tree.specs.Places.{is_file_name};
ghost use Rattle.file_tree.specs.Nodes.{Dir, File, node};
ghost use Rattle.file_tree.specs.Changes.{filled, resized, written};
ghost use Rattle.file_tree.specs.Refusals.{create_fault, created, put_byte_fault, truncate_fault};
ghost use Rattle.file_tree.specs.Views.{TellsTreeFault, is_new, new_content, new_kind};
ghost use Rattle.link_tree.specs.Links.{IsLinkedTree, IsNewLink, linked_nodes};
ghost use Rattle.file_tree.specs.WellFormed.{is_byte};
ghost use Rattle.std.specs.List.{list_all};
ghost use Rattle.link_tree.specs.LinkViews.{link_of, links_of};

use crate::changes::{push_under, put_at, resize_to};
use crate::links::{Entry, Stand, child_in, is_linked_in};
use file_tree::contents::{content_to_make, kind_to_make};
use file_tree::{New, NodeId, TreeFault};
use rights::limits::{MAX_BYTES, MAX_NODES};
use std::alloc::{AllocError, Global};
use std::collections::BTreeMap;

/// A node that has a name in a directory, and no children.
fn link_to_make(alloc: Global, dir: usize, name: &[u8], what: New<'_>) -> Result<Entry, AllocError>
    ensures made { IfOk result (λ made. IsNewLink (link_of made) dir name.now (new_kind what.entry) (new_content what.entry)) }
    ensures bytes { OnOk result (list_all is_byte (new_content what.entry) ≡ true) }
{
    let content = content_to_make(alloc, what)?;
    let name = Vec::from_slice(alloc, name)?;
    Ok(Entry {
        kind: kind_to_make(what),
        stand: Stand::In { parent: dir, name },
        children: BTreeMap::new(alloc),
        content,
    })
}

/// Makes a node of that name in a directory.
#[tactic(auto, unfolding(file_tree::specs::Refusals::create_fault, file_tree::specs::Nodes::child_of))]
pub(crate) fn create_in(
    alloc: Global,
    entries: &mut Vec<Entry>,
    dir: usize,
    name: &[u8],
    what: New<'_>,
) -> Result<NodeId, TreeFault>
    requires linked { IsLinkedTree (links_of entries.old.items) }
    requires there { dir < vec_len entries.old }
    requires directory { (node (linked_nodes (links_of entries.old.items)) dir).kind ≡ Dir }
    requires name { IsTrue (is_file_name name.now) }
    requires target { IsTrue (is_new what) }
    ensures ok { IfOk result (λ n. (n ≡ length (linked_nodes (links_of entries.old.items)))
        × (linked_nodes (links_of entries.new.items) ≡ created (linked_nodes (links_of entries.old.items)) dir name.now (new_kind what.entry) (new_content what.entry))) }
    ensures allowed { OnOk result (create_fault (linked_nodes (links_of entries.old.items)) dir name.now ≡ None) }
    ensures refused { IfErr result (TellsTreeFault (create_fault (linked_nodes (links_of entries.old.items)) dir name.now)) }
    ensures err { OnErr result (linked_nodes (links_of entries.new.items) ≡ linked_nodes (links_of entries.old.items)) }
    ensures linked { IsLinkedTree (links_of entries.new.items) }
{
    if !is_linked_in(entries, dir) {
        return Err(TreeFault::Gone);
    }
    if child_in(entries, dir, name).is_some() {
        return Err(TreeFault::Exists);
    }
    let number = entries.len();
    if number >= MAX_NODES {
        return Err(TreeFault::Full);
    }
    let made = link_to_make(alloc, dir, name, what)?;
    push_under(entries, dir, Vec::from_slice(alloc, name)?, made)?;
    Ok(NodeId::at(number))
}

/// Writes a byte into a file.
pub(crate) fn put_in(entries: &mut Vec<Entry>, n: usize, at: usize, b: u8) -> Result<(), TreeFault>
    requires linked { IsLinkedTree (links_of entries.old.items) }
    requires there { n < vec_len entries.old }
    requires file { (node (linked_nodes (links_of entries.old.items)) n).kind ≡ File }
    ensures ok { OnOk result (linked_nodes (links_of entries.new.items) ≡
        filled (linked_nodes (links_of entries.old.items)) n (written (node (linked_nodes (links_of entries.old.items)) n).content at b)) }
    ensures allowed { OnOk result (put_byte_fault at ≡ None) }
    ensures refused { IfErr result (TellsTreeFault (put_byte_fault at)) }
    ensures err { OnErr result (linked_nodes (links_of entries.new.items) ≡ linked_nodes (links_of entries.old.items)) }
    ensures linked { IsLinkedTree (links_of entries.new.items) }
{
    if at >= MAX_BYTES {
        return Err(TreeFault::Full);
    }
    put_at(entries, n, at, b)?;
    Ok(())
}

/// Cuts a file, or fills it up with zeros.
pub(crate) fn truncate_in(entries: &mut Vec<Entry>, n: usize, len: usize) -> Result<(), TreeFault>
    requires linked { IsLinkedTree (links_of entries.old.items) }
    requires there { n < vec_len entries.old }
    requires file { (node (linked_nodes (links_of entries.old.items)) n).kind ≡ File }
    ensures ok { OnOk result (linked_nodes (links_of entries.new.items) ≡
        filled (linked_nodes (links_of entries.old.items)) n (resized (node (linked_nodes (links_of entries.old.items)) n).content len)) }
    ensures allowed { OnOk result (truncate_fault len ≡ None) }
    ensures refused { IfErr result (TellsTreeFault (truncate_fault len)) }
    ensures err { OnErr result (linked_nodes (links_of entries.new.items) ≡ linked_nodes (links_of entries.old.items)) }
    ensures linked { IsLinkedTree (links_of entries.new.items) }
{
    if len > MAX_BYTES {
        return Err(TreeFault::Full);
    }
    resize_to(entries, n, len)?;
    Ok(())
}
