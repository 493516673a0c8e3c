//! A tree as a plain list of nodes with their whole places: the way to keep one that a reader checks in a minute. The
//! program keeps its tree as `link_tree` does; the rows of trees and of lookups run on both.
#![tactic(auto)]

mod changes;
mod entries;

use crate::changes::{create_in, put_in, remove_in, rename_in, truncate_in};
use crate::entries::{Entry, child_in, parent_in, target_in};
use file_tree::{Kind, New, NodeId, Place, Tree, TreeFault};
use std::alloc::Global;
use std::marker::Model;

/// A tree as a plain list of nodes, each with its whole place. A search goes over all nodes, and a rename
/// makes the list anew. (own)
#[derive(Drop)]
pub struct PlaceTree {
    alloc: Global,
    entries: Vec<Entry>,
}

impl Model for PlaceTree {
    ghost use Rattle.std.specs.Prelude.{List};
    ghost use Rattle.file_tree.specs.Nodes.{Node};
    ghost use Rattle.file_tree.specs.WellFormed.{IsTree};
    ghost use Rattle.place_tree.specs.EntryViews.{nodes_of};

    ghost Value = { List Node };

    ghost view = { λ tree. nodes_of tree.entries.items };

    ghost invariant = { λ tree. IsTree (nodes_of tree.entries.items) };
}

impl Tree for PlaceTree {
    ghost nodes = { λ tree. tree };

    fn new(alloc: Global) -> Result<PlaceTree, TreeFault> {
        let mut entries = Vec::new(alloc);
        entries.push(Entry {
            kind: Kind::Dir,
            linked: true,
            place: Place::root(alloc),
            content: Vec::new(alloc),
        })?;
        Ok(PlaceTree { alloc, entries })
    }

    fn root(&self) -> NodeId {
        let _ = &self.entries;
        NodeId::at(0)
    }

    fn made(&self) -> usize {
        self.entries.len()
    }

    fn parent(&self, n: NodeId) -> Option<NodeId> {
        match parent_in(self.entries.as_slice(), n.number()) {
            Some(dir) => Some(NodeId::at(dir)),
            None => None,
        }
    }

    fn child(&self, dir: NodeId, name: &[u8]) -> Option<NodeId> {
        match child_in(self.entries.as_slice(), dir.number(), name) {
            Some(n) => Some(NodeId::at(n)),
            None => None,
        }
    }

    fn kind(&self, n: NodeId) -> Kind {
        self.entries[n.number()].kind
    }

    fn is_linked(&self, n: NodeId) -> bool {
        self.entries[n.number()].linked
    }

    fn target(&self, n: NodeId) -> Option<&[u8]> {
        target_in(self.entries.as_slice(), n.number())
    }

    fn place_begins(&self, n: NodeId, path: &[u8]) -> bool {
        self.entries[n.number()].place.begins_with_path(path)
    }

    fn place_text(&self, n: NodeId, out: &mut Vec<u8>) -> Result<(), TreeFault> {
        self.entries[n.number()].place.append_text(out)?;
        Ok(())
    }

    fn create(&mut self, dir: NodeId, name: &[u8], what: New<'_>) -> Result<NodeId, TreeFault> {
        create_in(self.alloc, &mut self.entries, dir.number(), name, what)
    }

    fn remove(&mut self, n: NodeId) -> Result<(), TreeFault> {
        remove_in(&mut self.entries, n.number())
    }

    fn rename(&mut self, n: NodeId, dir: NodeId, name: &[u8]) -> Result<(), TreeFault> {
        rename_in(
            self.alloc,
            &mut self.entries,
            n.number(),
            dir.number(),
            name,
        )
    }

    fn len(&self, n: NodeId) -> usize {
        self.entries[n.number()].content.len()
    }

    fn byte_at(&self, n: NodeId, at: usize) -> Option<u8> {
        self.entries[n.number()].content.get(at).copied()
    }

    fn put_byte(&mut self, n: NodeId, at: usize, b: u8) -> Result<(), TreeFault> {
        put_in(&mut self.entries, n.number(), at, b)
    }

    fn truncate(&mut self, n: NodeId, len: usize) -> Result<(), TreeFault> {
        truncate_in(&mut self.entries, n.number(), len)
    }
}
