//! A tree that is shared with its copies until one of them is changed: for searches, which keep a machine for each state and seldom change its tree.
#![tactic(auto)]

ghost use Rattle.std.specs.Prelude.{◌≡◌, IfErr, IfOk};
ghost use Rattle.file_tree.specs.declared.faults.TreeFault.TheVariants as fault;

use file_tree::{CopyTree, Kind, New, NodeId, Tree, TreeFault};
use link_tree::LinkTree;
use rights::Memory;
use std::alloc::Global;
use std::marker::Model;
use std::rc::Rc;

/// A tree that others may have too. A copy costs nothing, and a change makes a tree of its own first, where others have it. (own)
#[derive(Drop)]
pub struct SharedTree {
    alloc: Global,
    tree: Rc<LinkTree>,
}

impl Model for SharedTree {
    ghost use Rattle.std.specs.Prelude.{List};
    ghost use Rattle.file_tree.specs.Nodes.{Node};

    ghost Value = { List Node };

    ghost view = { λ shared. shared.tree.value };
}

/// A tree of its own for one that was changed.
fn shared(alloc: Global, tree: LinkTree) -> Result<Rc<LinkTree>, TreeFault>
    ensures ok { IfOk result (λ shared. shared.value ≡ tree) }
    ensures only_memory { IfErr result (λ e. e ≡ fault.Memory) }
{
    match Rc::new(alloc, tree) {
        Ok(shared) => Ok(shared),
        Err(_) => Err(TreeFault::Memory),
    }
}

impl SharedTree {
    ghost use Rattle.std.specs.Prelude.{◌<◌, length};
    ghost use Rattle.file_tree.specs.Nodes.{node};

    /// The bytes of a file, or of a link's target; a directory has none. (own)
    pub fn content(&self, n: NodeId) -> &[u8]
        requires { n < length self.now }
        ensures { result.now ≡ (node self.now n).content }
    {
        self.tree.content(n)
    }

    /// Sees to it that no other machine has its tree.
    fn make_own(&mut self) -> Result<(), TreeFault>
        ensures same { self.new ≡ self.old }
        ensures only_memory { IfErr result (λ e. e ≡ fault.Memory) }
    {
        if Rc::strong_count(&self.tree) == 1 {
            return Ok(());
        }
        match self.tree.copy() {
            Ok(tree) => {
                self.tree = shared(self.alloc, tree)?;
                Ok(())
            }
            Err(_) => Err(TreeFault::Memory),
        }
    }
}

impl Tree for SharedTree {
    ghost nodes = { λ shared. shared };

    fn new(alloc: Global) -> Result<SharedTree, TreeFault> {
        let tree = shared(alloc, LinkTree::new(alloc)?)?;
        Ok(SharedTree { alloc, tree })
    }

    fn root(&self) -> NodeId {
        self.tree.root()
    }

    fn made(&self) -> usize {
        self.tree.made()
    }

    fn parent(&self, n: NodeId) -> Option<NodeId> {
        self.tree.parent(n)
    }

    fn child(&self, dir: NodeId, name: &[u8]) -> Option<NodeId> {
        self.tree.child(dir, name)
    }

    fn kind(&self, n: NodeId) -> Kind {
        self.tree.kind(n)
    }

    fn is_linked(&self, n: NodeId) -> bool {
        self.tree.is_linked(n)
    }

    fn target(&self, n: NodeId) -> Option<&[u8]> {
        self.tree.target(n)
    }

    fn place_begins(&self, n: NodeId, path: &[u8]) -> bool {
        self.tree.place_begins(n, path)
    }

    fn place_text(&self, n: NodeId, out: &mut Vec<u8>) -> Result<(), TreeFault> {
        self.tree.place_text(n, out)
    }

    fn create(&mut self, dir: NodeId, name: &[u8], what: New<'_>) -> Result<NodeId, TreeFault> {
        self.make_own()?;
        match Rc::get_mut(&mut self.tree) {
            None => Err(TreeFault::Memory),
            Some(tree) => tree.create(dir, name, what),
        }
    }

    fn remove(&mut self, n: NodeId) -> Result<(), TreeFault> {
        self.make_own()?;
        match Rc::get_mut(&mut self.tree) {
            None => Err(TreeFault::Memory),
            Some(tree) => tree.remove(n),
        }
    }

    fn rename(&mut self, n: NodeId, dir: NodeId, name: &[u8]) -> Result<(), TreeFault> {
        self.make_own()?;
        match Rc::get_mut(&mut self.tree) {
            None => Err(TreeFault::Memory),
            Some(tree) => tree.rename(n, dir, name),
        }
    }

    fn len(&self, n: NodeId) -> usize {
        self.tree.len(n)
    }

    fn byte_at(&self, n: NodeId, at: usize) -> Option<u8> {
        self.tree.byte_at(n, at)
    }

    fn put_byte(&mut self, n: NodeId, at: usize, b: u8) -> Result<(), TreeFault> {
        self.make_own()?;
        match Rc::get_mut(&mut self.tree) {
            None => Err(TreeFault::Memory),
            Some(tree) => tree.put_byte(n, at, b),
        }
    }

    fn truncate(&mut self, n: NodeId, len: usize) -> Result<(), TreeFault> {
        self.make_own()?;
        match Rc::get_mut(&mut self.tree) {
            None => Err(TreeFault::Memory),
            Some(tree) => tree.truncate(n, len),
        }
    }
}

impl CopyTree for SharedTree {
    fn copy(&self) -> Result<SharedTree, Memory> {
        let tree = self.tree.clone()?;
        Ok(SharedTree {
            alloc: self.alloc,
            tree,
        })
    }
}
