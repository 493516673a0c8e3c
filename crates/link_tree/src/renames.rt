//! Nodes renamed in a tree by links.

ghost use Rattle.std.specs.Prelude.{◌≡◌, ◌<◌, ℕ, List, true, None, length, vec_len, IsTrue, IfErr, OnOk, OnErr};
ghost use Rattle.file_tree.specs.Places.{at_name, is_file_name, same_place};
ghost use Rattle.file_tree.specs.Nodes.{Dir, child_of, has_below, node};
ghost use Rattle.file_tree.specs.Changes.{renamed};
ghost use Rattle.file_tree.specs.Refusals.{rename_fault};
ghost use Rattle.file_tree.specs.Views.{TellsTreeFault};
ghost use Rattle.link_tree.specs.Links.{In, IsLinkedTree, Relinked, tree_entry, linked_nodes, way_made};
ghost use Rattle.link_tree.specs.LinkViews.{links_of};

use crate::changes::{file_under, replace_stand, unfile};
use crate::climbs::{is_above, place_in};
use crate::links::{Entry, Stand, child_in, is_linked_in};
use crate::removes::has_children;
use file_tree::TreeFault;
use std::alloc::Global;

/// Whether a linked node has that name in a directory.
fn is_named(entries: &[Entry], n: usize, dir: usize, name: &[u8]) -> bool
    requires linked { IsLinkedTree (links_of entries.now) }
    requires there { n < length entries.now }
    requires n_linked { (node (linked_nodes (links_of entries.now)) n).linked ≡ true }
    requires dir_linked { (node (linked_nodes (links_of entries.now)) dir).linked ≡ true }
    ensures { result ≡ same_place (at_name (node (linked_nodes (links_of entries.now)) dir).place name.now) (node (linked_nodes (links_of entries.now)) n).place }
{
    let entry = &entries[n];
    match &entry.stand {
        Stand::Root => false,
        Stand::In { parent, name: own } => *parent == dir && own.as_slice() == name,
        Stand::Out { .. } => false,
    }
}

/// Whether something lies below the node of a name in a linked directory.
fn is_blocked(entries: &[Entry], dir: usize, name: &[u8]) -> bool
    requires linked { IsLinkedTree (links_of entries.now) }
    requires there { dir < length entries.now }
    requires dir_linked { (node (linked_nodes (links_of entries.now)) dir).linked ≡ true }
    ensures { result ≡ has_below (linked_nodes (links_of entries.now)) (at_name (node (linked_nodes (links_of entries.now)) dir).place name.now) }
{
    match child_in(entries, dir, name) {
        Some(n) => has_children(entries, n),
        None => false,
    }
}

/// Files a node under a name in a directory. What had the name keeps the place, which is spelt out before
/// anything is changed.
fn make_way(
    alloc: Global,
    entries: &mut Vec<Entry>,
    dir: usize,
    name: &[u8],
    n: usize,
) -> Result<(), TreeFault>
    requires linked { IsLinkedTree (links_of entries.old.items) }
    requires there { dir < vec_len entries.old }
    requires dir_linked { (node (linked_nodes (links_of entries.old.items)) dir).linked ≡ true }
    ensures ok { OnOk result (links_of entries.new.items ≡
        way_made (links_of entries.old.items) (child_of (linked_nodes (links_of entries.old.items)) dir name.now)
        (at_name (node (linked_nodes (links_of entries.old.items)) dir).place name.now) dir name.now n) }
    ensures only_memory { IfErr result (λ e. e ≡ TreeFault.Memory) }
    ensures err { OnErr result (links_of entries.new.items ≡ links_of entries.old.items) }
{
    let key = Vec::from_slice(alloc, name)?;
    match child_in(entries, dir, name) {
        None => {
            file_under(entries, dir, key, n)?;
            Ok(())
        }
        Some(old) => {
            let place = place_in(alloc, entries, old)?;
            file_under(entries, dir, key, n)?;
            replace_stand(entries, old, Stand::Out { place });
            Ok(())
        }
    }
}

/// Gives a node its name in a directory where it is filed already, and takes it out of the one where it was.
fn relink(entries: &mut Vec<Entry>, n: usize, dir: usize, name: Vec<u8>)
    requires there { n < vec_len entries.old }
    requires holder { (e : ℕ) → (old : List ℕ) → (tree_entry (links_of entries.old.items) n).stand ≡ In e old → e < vec_len entries.old }
    ensures { Relinked (links_of entries.old.items) (links_of entries.new.items) n dir name.items }
{
    let before = replace_stand(entries, n, Stand::In { parent: dir, name });
    match before {
        Stand::Root => {}
        Stand::In { parent, name: old } => unfile(entries, parent, old.as_slice()),
        Stand::Out { .. } => {}
    }
}

/// Gives a node that name in a directory.
#[tactic(auto, unfolding(file_tree::specs::Refusals::rename_fault))]
pub(crate) fn rename_in(
    alloc: Global,
    entries: &mut Vec<Entry>,
    n: usize,
    dir: usize,
    name: &[u8],
) -> Result<(), TreeFault>
    requires linked { IsLinkedTree (links_of entries.old.items) }
    requires there { n < vec_len entries.old }
    requires dir_there { dir < vec_len entries.old }
    requires directory { (node (linked_nodes (links_of entries.old.items)) dir).kind ≡ Dir }
    requires name { IsTrue (is_file_name name.now) }
    ensures ok { OnOk result (linked_nodes (links_of entries.new.items) ≡
        renamed (linked_nodes (links_of entries.old.items)) n (at_name (node (linked_nodes (links_of entries.old.items)) dir).place name.now)) }
    ensures allowed { OnOk result (rename_fault (linked_nodes (links_of entries.old.items)) n dir name.now ≡ None) }
    ensures refused { IfErr result (TellsTreeFault (rename_fault (linked_nodes (links_of entries.old.items)) n dir name.now)) }
    ensures err { OnErr result (linked_nodes (links_of entries.new.items) ≡ linked_nodes (links_of entries.old.items)) }
    ensures linked { IsLinkedTree (links_of entries.new.items) }
{
    if !is_linked_in(entries, n) {
        return Err(TreeFault::Gone);
    }
    if !is_linked_in(entries, dir) {
        return Err(TreeFault::Gone);
    }
    if is_named(entries, n, dir, name) {
        return Ok(());
    }
    if is_above(entries, n, dir) {
        return Err(TreeFault::IntoItself);
    }
    if is_blocked(entries, dir, name) {
        return Err(TreeFault::NotEmpty);
    }
    let own = Vec::from_slice(alloc, name)?;
    make_way(alloc, entries, dir, name, n)?;
    relink(entries, n, dir, own);
    Ok(())
}
