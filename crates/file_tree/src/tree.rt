//! What every tree does, however it is kept.

ghost use Rattle.std.specs.Prelude.{◌≡◌, ◌<◌, ◌++◌, List, Option, None, length, IsTrue, IfOk, IfErr, OnOk, OnErr};
ghost use Rattle.std.specs.Option.{option_copied};
ghost use Rattle.file_tree.specs.Places.{at_name, begins, is_file_name, path_components, place_text};
ghost use Rattle.file_tree.specs.Nodes.{Dir, File, Node, byte_of, child_of, node, parent_of, link_target};
ghost use Rattle.file_tree.specs.Changes.{filled, removed, renamed, resized, written};
ghost use Rattle.file_tree.specs.Refusals.{create_fault, created, new_tree, put_byte_fault, remove_fault, rename_fault, truncate_fault};
ghost use Rattle.file_tree.specs.WellFormed.{IsTree};
ghost use Rattle.file_tree.specs.Views.{TellsTreeFault, is_new, kind_of, new_content, new_kind};

use crate::faults::TreeFault;
use crate::nodes::{Kind, New, NodeId};
use std::alloc::Global;

/// A file tree. It names its nodes by numbers, which stay good when a node is removed: a removed node
/// keeps its place and its content for good. A refused change leaves the tree as it was. `Memory` may
/// come in place of any other answer of a call that has it, and only where a growth was refused.
pub trait Tree: Sized + Drop {
    /// The nodes in the order in which they were made; a node's number is its place in this list.
    ghost nodes: { Self → List Node };

    /// A tree of the root alone. Its one refusal is `Memory`.
    fn new(alloc: Global) -> Result<Self, TreeFault>
        ensures ok { IfOk result (λ tree. nodes tree ≡ new_tree) }
        ensures only_memory { IfErr result (λ e. e ≡ TreeFault.Memory) };

    /// The root, which is there for good. Who asks for it learns that the nodes are a tree.
    fn root(&self) -> NodeId
        ensures first { result ≡ 0 }
        ensures tree { IsTree (nodes self.now) };

    /// How many nodes were made, the root and removed ones counted: from 1 to 1024. (own)
    fn made(&self) -> usize
        ensures { result ≡ length (nodes self.now) };

    /// The directory that holds a node, or nothing for the root and for removed nodes.
    fn parent(&self, n: NodeId) -> Option<NodeId>
        requires { n < length (nodes self.now) }
        ensures { result ≡ parent_of (nodes self.now) n };

    /// The node of a name in a directory, or nothing where none has it. A removed directory holds
    /// nothing, and no node has a name that isn't one, as `.` and `..`.
    fn child(&self, dir: NodeId, name: &[u8]) -> Option<NodeId>
        requires { dir < length (nodes self.now) }
        ensures { result ≡ child_of (nodes self.now) dir name.now };

    /// What the node is, also after it was removed.
    fn kind(&self, n: NodeId) -> Kind
        requires { n < length (nodes self.now) }
        ensures { kind_of result ≡ (node (nodes self.now) n).kind };

    /// Whether the node wasn't removed. Who asks for it learns that the nodes are a tree.
    fn is_linked(&self, n: NodeId) -> bool
        requires { n < length (nodes self.now) }
        ensures linked { result ≡ (node (nodes self.now) n).linked }
        ensures tree { IsTree (nodes self.now) };

    /// The target of a symbolic link, or nothing for other nodes. (readlink(2))
    fn target(&self, n: NodeId) -> Option<&[u8]>
        requires { n < length (nodes self.now) }
        ensures { option_copied result ≡ link_target (nodes self.now) n };

    /// Whether the node's place begins with the names of a path, which is cut at each `/`. It goes by
    /// names: `/workshop` doesn't begin with `/work`. (own)
    fn place_begins(&self, n: NodeId, path: &[u8]) -> bool
        requires { n < length (nodes self.now) }
        ensures { result ≡ begins (path_components path.now) (node (nodes self.now) n).place };

    /// Appends the node's place as text: `/` for the root, else each name after a `/`. Its one refusal
    /// is `Memory`, and `out` is then as it was. (own)
    fn place_text(&self, n: NodeId, out: &mut Vec<u8>) -> Result<(), TreeFault>
        requires { n < length (nodes self.now) }
        ensures ok { OnOk result (out.new.items ≡ out.old.items ++ place_text (node (nodes self.now) n).place) }
        ensures only_memory { IfErr result (λ e. e ≡ TreeFault.Memory) }
        ensures err { OnErr result (out.new.items ≡ out.old.items) };

    /// Makes a node of that name in a directory, and gives its number. Refused in a removed directory
    /// (`Gone`), under a name that is taken (`Exists`), and where 1024 nodes were made (`Full`), in this
    /// order. (open(2), mkdir(2), symlink(2))
    fn create(&mut self, dir: NodeId, name: &[u8], what: New<'_>) -> Result<NodeId, TreeFault>
        requires there { dir < length (nodes self.old) }
        requires directory { (node (nodes self.old) dir).kind ≡ Dir }
        requires name { IsTrue (is_file_name name.now) }
        requires target { IsTrue (is_new what) }
        ensures ok { IfOk result (λ n. (n ≡ length (nodes self.old))
            × (nodes self.new ≡ created (nodes self.old) dir name.now (new_kind what.entry) (new_content what.entry))) }
        ensures allowed { OnOk result (create_fault (nodes self.old) dir name.now ≡ None) }
        ensures refused { IfErr result (TellsTreeFault (create_fault (nodes self.old) dir name.now)) }
        ensures err { OnErr result (nodes self.new ≡ nodes self.old) };

    /// Removes a node. Refused of a removed one (`Gone`), and of the root and a directory that holds
    /// something (`NotEmpty`), in this order. (unlink(2), rmdir(2))
    fn remove(&mut self, n: NodeId) -> Result<(), TreeFault>
        requires { n < length (nodes self.old) }
        ensures ok { OnOk result (nodes self.new ≡ removed (nodes self.old) n) }
        ensures allowed { OnOk result (remove_fault (nodes self.old) n ≡ None) }
        ensures refused { IfErr result (TellsTreeFault (remove_fault (nodes self.old) n)) }
        ensures err { OnErr result (nodes self.new ≡ nodes self.old) };

    /// Gives a node that name in a directory. What is linked below it moves along, and nothing else; a
    /// node that stood there is removed. To its own place nothing changes. Refused of a removed node or
    /// into a removed directory (`Gone`); else, unless the place is its own, to a place below itself, as
    /// every place is below the root (`IntoItself`), and over a directory that holds something
    /// (`NotEmpty`), in this order. That the kinds fit is not asked here. (rename(2))
    fn rename(&mut self, n: NodeId, dir: NodeId, name: &[u8]) -> Result<(), TreeFault>
        requires there { n < length (nodes self.old) }
        requires dir_there { dir < length (nodes self.old) }
        requires directory { (node (nodes self.old) dir).kind ≡ Dir }
        requires name { IsTrue (is_file_name name.now) }
        ensures ok { OnOk result (nodes self.new ≡ renamed (nodes self.old) n (at_name (node (nodes self.old) dir).place name.now)) }
        ensures allowed { OnOk result (rename_fault (nodes self.old) n dir name.now ≡ None) }
        ensures refused { IfErr result (TellsTreeFault (rename_fault (nodes self.old) n dir name.now)) }
        ensures err { OnErr result (nodes self.new ≡ nodes self.old) };

    /// How many bytes a file has, or a link's target; a directory has none.
    fn len(&self, n: NodeId) -> usize
        requires { n < length (nodes self.now) }
        ensures { result ≡ length (node (nodes self.now) n).content };

    /// The byte of a file, or of a link's target, at an offset, or nothing at its end and past it.
    fn byte_at(&self, n: NodeId, at: usize) -> Option<u8>
        requires { n < length (nodes self.now) }
        ensures { result ≡ byte_of (nodes self.now) n at };

    /// Writes a byte into a file at an offset; a gap before it is filled with zeros. Refused from offset
    /// 4096 on (`Full`). (pwrite(2))
    fn put_byte(&mut self, n: NodeId, at: usize, b: u8) -> Result<(), TreeFault>
        requires there { n < length (nodes self.old) }
        requires file { (node (nodes self.old) n).kind ≡ File }
        ensures ok { OnOk result (nodes self.new ≡
            filled (nodes self.old) n (written (node (nodes self.old) n).content at b)) }
        ensures allowed { OnOk result (put_byte_fault at ≡ None) }
        ensures refused { IfErr result (TellsTreeFault (put_byte_fault at)) }
        ensures err { OnErr result (nodes self.new ≡ nodes self.old) };

    /// Cuts a file to that many bytes, or fills it up with zeros. Refused past 4096 bytes (`Full`).
    /// (ftruncate(2))
    fn truncate(&mut self, n: NodeId, len: usize) -> Result<(), TreeFault>
        requires there { n < length (nodes self.old) }
        requires file { (node (nodes self.old) n).kind ≡ File }
        ensures ok { OnOk result (nodes self.new ≡
            filled (nodes self.old) n (resized (node (nodes self.old) n).content len)) }
        ensures allowed { OnOk result (truncate_fault len ≡ None) }
        ensures refused { IfErr result (TellsTreeFault (truncate_fault len)) }
        ensures err { OnErr result (nodes self.new ≡ nodes self.old) };
}
