//! Nodes removed from a tree by links.

ghost use Rattle.std.specs.Prelude.{◌≡◌, ◌<◌, true, None, length, vec_len, IfErr, OnOk, OnErr};
ghost use Rattle.file_tree.specs.Nodes.{has_below, node};
ghost use Rattle.file_tree.specs.Changes.{removed};
ghost use Rattle.file_tree.specs.Refusals.{remove_fault};
ghost use Rattle.file_tree.specs.Views.{TellsTreeFault};
ghost use Rattle.link_tree.specs.Links.{IsLinkedTree, TakenOut, linked_nodes};
ghost use Rattle.link_tree.specs.LinkViews.{links_of};

use crate::changes::{replace_stand, unfile};
use crate::climbs::place_in;
use crate::links::{Entry, Stand, is_linked_in};
use file_tree::{Place, TreeFault};
use std::alloc::Global;

/// Whether something lies below a linked node.
pub(crate) fn has_children(entries: &[Entry], n: usize) -> bool
    requires linked { IsLinkedTree (links_of entries.now) }
    requires there { n < length entries.now }
    requires n_linked { (node (linked_nodes (links_of entries.now)) n).linked ≡ true }
    ensures { result ≡ has_below (linked_nodes (links_of entries.now)) (node (linked_nodes (links_of entries.now)) n).place }
{
    let entry = &entries[n];
    !entry.children.is_empty()
}

/// Takes a node out of its directory, and leaves it the place that it had.
fn take_out(entries: &mut Vec<Entry>, n: usize, place: Place)
    requires linked { IsLinkedTree (links_of entries.old.items) }
    requires there { n < vec_len entries.old }
    ensures { TakenOut (links_of entries.old.items) (links_of entries.new.items) n place }
{
    let before = replace_stand(entries, n, Stand::Out { place });
    match before {
        Stand::Root => {}
        Stand::In { parent, name } => unfile(entries, parent, name.as_slice()),
        Stand::Out { .. } => {}
    }
}

/// Removes a node, which from then on keeps its place. That is spelt out before anything is changed.
#[tactic(auto, unfolding(file_tree::specs::Refusals::remove_fault))]
pub(crate) fn remove_in(alloc: Global, entries: &mut Vec<Entry>, n: usize) -> Result<(), TreeFault>
    requires linked { IsLinkedTree (links_of entries.old.items) }
    requires there { n < vec_len entries.old }
    ensures ok { OnOk result (linked_nodes (links_of entries.new.items) ≡ removed (linked_nodes (links_of entries.old.items)) n) }
    ensures allowed { OnOk result (remove_fault (linked_nodes (links_of entries.old.items)) n ≡ None) }
    ensures refused { IfErr result (TellsTreeFault (remove_fault (linked_nodes (links_of entries.old.items)) n)) }
    ensures err { OnErr result (linked_nodes (links_of entries.new.items) ≡ linked_nodes (links_of entries.old.items)) }
    ensures linked { IsLinkedTree (links_of entries.new.items) }
{
    if !is_linked_in(entries, n) {
        return Err(TreeFault::Gone);
    }
    if n == 0 || has_children(entries, n) {
        return Err(TreeFault::NotEmpty);
    }
    let place = place_in(alloc, entries, n)?;
    take_out(entries, n, place);
    Ok(())
}
