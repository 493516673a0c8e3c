//! Digests of a tree.

ghost use Rattle.std.specs.Prelude.{◌<◌, length};

use crate::digests::Digest;
use crate::policies::grant_holding;
use crate::readable::Readable;
use file_tree::{Kind, NodeId, Tree};
use rights::Memory;
use rights::limits::{MAX_NAME, MAX_NODES};
use shared_tree::SharedTree;
use std::alloc::Global;

/// Where the nodes of a tree stand, by number: the digest of each one's place, or of its number where it was removed, the grant in which it stands, by its
/// place in the policy, and whether a program can read what it contains.
#[derive(Drop)]
pub(crate) struct Places {
    nodes: Vec<Digest>,
    pub grants: Vec<Option<usize>>,
    are_read: Vec<bool>,
}

/// Adds what a node is, with its content where that counts.
fn add_content(digest: &mut Digest, tree: &SharedTree, node: NodeId, counts: bool)
    requires { node < length tree.now }
{
    digest.add(match tree.kind(node) {
        Kind::File => 1,
        Kind::Dir => 2,
        Kind::Link => 3,
    });
    if counts {
        digest.add_text(tree.content(node));
    }
}

impl Places {
    /// Nothing is known.
    pub(crate) fn new(alloc: Global) -> Places {
        Places {
            nodes: Vec::new(alloc),
            grants: Vec::new(alloc),
            are_read: Vec::new(alloc),
        }
    }

    /// Where the nodes of a tree stand.
    pub(crate) fn of(
        alloc: Global,
        tree: &SharedTree,
        readable: &Readable<'_>,
    ) -> Result<Places, Memory> {
        let mut places = Places::new(alloc);
        let mut text = Vec::with_capacity(alloc, MAX_NAME)?;
        for number in 0..tree.made() {
            if number >= MAX_NODES {
                break;
            }
            let node = NodeId::at(number);
            let mut place = Digest::new();
            let mut grant = None;
            text.clear();
            if tree.is_linked(node) {
                if tree.place_text(node, &mut text).is_err() {
                    return Err(Memory);
                }
                place.add_text(&text);
                grant = grant_holding(readable.policy, &text);
            } else {
                place.add(number as u64);
            }
            places.nodes.push(place)?;
            places.grants.push(grant)?;
            places.are_read.push(readable.holds(&text))?;
        }
        Ok(places)
    }

    /// The digest of the tree whose nodes stand so. The order in which they were made doesn't count, and neither do removed ones, and what no program can
    /// read.
    pub(crate) fn digest_of(&self, tree: &SharedTree) -> Digest {
        let mut whole = Digest::new();
        for (number, place) in self.nodes.iter().enumerate() {
            if number >= MAX_NODES || number >= tree.made() {
                break;
            }
            let node = NodeId::at(number);
            if tree.is_linked(node) {
                let mut all = *place;
                let is_read = self.are_read.get(number).copied().unwrap_or(true);
                add_content(&mut all, tree, node, is_read);
                whole = whole.beside(all);
            }
        }
        whole
    }

    /// Adds where a node stands; what a removed one contains, too.
    pub(crate) fn add_place(&self, digest: &mut Digest, tree: &SharedTree, node: NodeId) {
        if let Some(place) = self.nodes.get(node.number()) {
            digest.add_digest(*place);
        }
        if node.number() < tree.made() && !tree.is_linked(node) {
            add_content(digest, tree, node, true);
        }
    }
}
