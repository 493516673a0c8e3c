//! A tree as nodes that name what holds them, and directories that name their children.
#![tactic(auto)]

mod changes;
mod climbs;
mod copies;
mod creates;
mod links;
mod removes;
mod renames;

use crate::climbs::{append_place_in, begins_in};
use crate::copies::copy_entries;
use crate::creates::{create_in, put_in, truncate_in};
use crate::links::{
    Entry, Stand, child_in, content_in, is_linked_in, kind_in, parent_in, target_in,
};
use crate::removes::remove_in;
use crate::renames::rename_in;
use file_tree::{CopyTree, Kind, New, NodeId, Tree, TreeFault};
use rights::Memory;
use std::alloc::Global;
use std::collections::BTreeMap;
use std::marker::Model;

/// A tree as nodes that name what holds them and directories that name their children. A search goes by
/// names, and a rename moves one name. A removed node keeps its place as a list of names of its own. (own)
#[derive(Drop)]
pub struct LinkTree {
    alloc: Global,
    entries: Vec<Entry>,
}

impl Model for LinkTree {
    ghost use Rattle.std.specs.Prelude.{List};
    ghost use Rattle.file_tree.specs.Nodes.{Node};
    ghost use Rattle.link_tree.specs.Links.{IsLinkedTree, linked_nodes};
    ghost use Rattle.link_tree.specs.LinkViews.{links_of};

    ghost Value = { List Node };

    ghost view = { λ tree. linked_nodes (links_of tree.entries.items) };

    ghost invariant = { λ tree. IsLinkedTree (links_of tree.entries.items) };
}

impl LinkTree {
    ghost use Rattle.std.specs.Prelude.{◌≡◌, ◌<◌, length};
    ghost use Rattle.file_tree.specs.Nodes.{node};

    /// The bytes of a file, or of a link's target; a directory has none. (own)
    pub fn content(&self, n: NodeId) -> &[u8]
        requires { n < length self.now }
        ensures { result.now ≡ (node self.now n).content }
    {
        content_in(self.entries.as_slice(), n.number())
    }
}

impl Tree for LinkTree {
    ghost nodes = { λ tree. tree };

    fn new(alloc: Global) -> Result<LinkTree, TreeFault> {
        let mut entries = Vec::new(alloc);
        entries.push(Entry {
            kind: Kind::Dir,
            stand: Stand::Root,
            children: BTreeMap::new(alloc),
            content: Vec::new(alloc),
        })?;
        Ok(LinkTree { alloc, entries })
    }

    fn root(&self) -> NodeId {
        let _ = &self.entries;
        NodeId::at(0)
    }

    fn made(&self) -> usize {
        self.entries.len()
    }

    fn parent(&self, n: NodeId) -> Option<NodeId> {
        match parent_in(self.entries.as_slice(), n.number()) {
            Some(dir) => Some(NodeId::at(dir)),
            None => None,
        }
    }

    fn child(&self, dir: NodeId, name: &[u8]) -> Option<NodeId> {
        match child_in(self.entries.as_slice(), dir.number(), name) {
            Some(n) => Some(NodeId::at(n)),
            None => None,
        }
    }

    fn kind(&self, n: NodeId) -> Kind {
        kind_in(self.entries.as_slice(), n.number())
    }

    fn is_linked(&self, n: NodeId) -> bool {
        is_linked_in(self.entries.as_slice(), n.number())
    }

    fn target(&self, n: NodeId) -> Option<&[u8]> {
        target_in(self.entries.as_slice(), n.number())
    }

    fn place_begins(&self, n: NodeId, path: &[u8]) -> bool {
        begins_in(self.entries.as_slice(), n.number(), path)
    }

    fn place_text(&self, n: NodeId, out: &mut Vec<u8>) -> Result<(), TreeFault> {
        append_place_in(self.entries.as_slice(), n.number(), out)?;
        Ok(())
    }

    fn create(&mut self, dir: NodeId, name: &[u8], what: New<'_>) -> Result<NodeId, TreeFault> {
        create_in(self.alloc, &mut self.entries, dir.number(), name, what)
    }

    fn remove(&mut self, n: NodeId) -> Result<(), TreeFault> {
        remove_in(self.alloc, &mut self.entries, n.number())
    }

    fn rename(&mut self, n: NodeId, dir: NodeId, name: &[u8]) -> Result<(), TreeFault> {
        rename_in(
            self.alloc,
            &mut self.entries,
            n.number(),
            dir.number(),
            name,
        )
    }

    fn len(&self, n: NodeId) -> usize {
        content_in(self.entries.as_slice(), n.number()).len()
    }

    fn byte_at(&self, n: NodeId, at: usize) -> Option<u8> {
        content_in(self.entries.as_slice(), n.number())
            .get(at)
            .copied()
    }

    fn put_byte(&mut self, n: NodeId, at: usize, b: u8) -> Result<(), TreeFault> {
        put_in(&mut self.entries, n.number(), at, b)
    }

    fn truncate(&mut self, n: NodeId, len: usize) -> Result<(), TreeFault> {
        truncate_in(&mut self.entries, n.number(), len)
    }
}

impl CopyTree for LinkTree {
    fn copy(&self) -> Result<LinkTree, Memory> {
        let entries = copy_entries(self.alloc, &self.entries)?;
        Ok(LinkTree {
            alloc: self.alloc,
            entries,
        })
    }
}
