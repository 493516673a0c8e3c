//! The tree that a task starts with.

ghost use Rattle.std.specs.Prelude.{◌≡◌, ◌<◌, ◌≤◌, ◌+◌, ◌++◌, [], ◌∷◌, IfOk, None, OnOk, length, take, true};
ghost use Rattle.rights.specs.Limits.{most_bytes};
ghost use Rattle.file_tree.specs.Changes.{filled};
ghost use Rattle.file_tree.specs.Refusals.{create_fault, created};
ghost use Rattle.file_tree.specs.Nodes.{Dir, File, node};
ghost use Rattle.file_tree.specs.Places.{above, is_file_name};
ghost use Rattle.file_tree.specs.Views.{is_new, new_content, new_kind};
ghost use Rattle.file_tree.specs.WellFormed.{has_directory, is_directory_at};
ghost use Rattle.task.specs.Limits.{is_tree};
ghost use Rattle.task.specs.Views.{node_of, nodes_of};
ghost use Rattle.simulator.specs.Starts.{AreNumbers, IsMadeIn};

use file_tree::{Kind, New, NodeId, Place, Tree, TreeFault};
use rights::Memory;
use std::alloc::Global;
use task::TaskNode;

/// A tree, and the numbers of its nodes in the order of the task.
#[derive(Drop)]
pub(crate) struct Built<T: Tree> {
    pub tree: T,
    pub numbers: Vec<NodeId>,
}

/// A node that was made, and which node of the task its directory is.
#[derive(Clone, Copy)]
struct Made {
    number: NodeId,
    directory: usize,
}

/// Whether the node is the directory that this place stands in.
fn is_directory(node: &TaskNode, place: &Place) -> bool
    ensures { result ≡ is_directory_at (above place.now) (node_of node.now) }
{
    place.stands_in(&node.place) && matches!(node.kind, Kind::Dir)
}

/// The number of the first directory that this place stands in, which is among these nodes.
fn directory_at(nodes: &[TaskNode], place: &Place) -> usize
    requires { has_directory (nodes_of nodes.now) (above place.now) ≡ true }
    ensures below { result < length nodes.now }
    ensures directory { is_directory_at (above place.now) (node (nodes_of nodes.now) result) ≡ true }
{
    match nodes {
        [] => 0,
        [first, rest @ ..] => {
            if is_directory(first, place) {
                return 0;
            }
            directory_at(rest, place) + 1
        }
    }
}

/// Whether the node of this number is among these, and is the directory that this place stands in.
fn is_directory_there(nodes: &[TaskNode], number: usize, place: &Place) -> bool
    ensures below { result ≡ true → number < length nodes.now }
    ensures directory { result ≡ true → is_directory_at (above place.now) (node (nodes_of nodes.now) number) ≡ true }
{
    match nodes.get(number) {
        None => false,
        Some(node) => is_directory(node, place),
    }
}

/// The number of a directory that this place stands in, which is among these nodes: most often that of the node before, or that
/// node itself.
fn directory_near(nodes: &[TaskNode], place: &Place, before: usize) -> usize
    requires { has_directory (nodes_of nodes.now) (above place.now) ≡ true }
    ensures below { result < length nodes.now }
    ensures directory { is_directory_at (above place.now) (node (nodes_of nodes.now) result) ≡ true }
{
    if is_directory_there(nodes, before, place) {
        return before;
    }
    let last = nodes.len().saturating_sub(1);
    if is_directory_there(nodes, last, place) {
        return last;
    }
    directory_at(nodes, place)
}

/// What a change that the tree allows is refused for: want of memory alone.
fn want_of_memory(fault: TreeFault) -> Memory
    requires { fault ≡ TreeFault.Memory }
{
    match fault {
        TreeFault::Memory => Memory,
        _ => unreachable!(),
    }
}

/// Makes a node where nothing but want of memory keeps it from being made.
fn create_in<T: Tree>(
    tree: &mut T,
    directory: NodeId,
    name: &[u8],
    what: New<'_>,
) -> Result<NodeId, Memory>
    requires there { directory < length (T.nodes tree.old) }
    requires directory { (node (T.nodes tree.old) directory).kind ≡ Dir }
    requires name { is_file_name name.now ≡ true }
    requires target { is_new what ≡ true }
    requires allowed { create_fault (T.nodes tree.old) directory name.now ≡ None }
    ensures number { IfOk result (λ n. n ≡ length (T.nodes tree.old)) }
    ensures nodes { OnOk result (T.nodes tree.new ≡ created (T.nodes tree.old) directory name.now (new_kind what.entry) (new_content what.entry)) }
{
    match tree.create(directory, name, what) {
        Ok(number) => Ok(number),
        Err(fault) => Err(want_of_memory(fault)),
    }
}

/// Writes the content of a file that is empty.
fn write_content<T: Tree>(tree: &mut T, file: NodeId, content: &[u8]) -> Result<(), Memory>
    requires there { file < length (T.nodes tree.old) }
    requires file { (node (T.nodes tree.old) file).kind ≡ File }
    requires empty { (node (T.nodes tree.old) file).content ≡ [] }
    requires small { length content.now ≤ 4096 }
    ensures { OnOk result (T.nodes tree.new ≡ filled (T.nodes tree.old) file content.now) }
{
    for (at, byte) in content.iter().enumerate() {
        match tree.put_byte(file, at, *byte) {
            Ok(()) => (),
            Err(fault) => return Err(want_of_memory(fault)),
        }
    }
    Ok(())
}

/// Makes a node of the task in its directory, with its content.
fn build_node<T: Tree>(
    tree: &mut T,
    directory: NodeId,
    name: &[u8],
    node: &TaskNode,
) -> Result<NodeId, Memory>
    requires there { directory < length (T.nodes tree.old) }
    requires made { IsMadeIn (T.nodes tree.old) directory name.now (node_of node.now) }
    ensures number { IfOk result (λ n. n ≡ length (T.nodes tree.old)) }
    ensures nodes { OnOk result (T.nodes tree.new ≡ T.nodes tree.old ++ node_of node.now ∷ []) }
{
    match node.kind {
        Kind::Dir => create_in(tree, directory, name, New::Dir),
        Kind::Link => create_in(tree, directory, name, New::Link(&node.content)),
        Kind::File => {
            let number = create_in(tree, directory, name, New::File)?;
            write_content(tree, number, &node.content)?;
            Ok(number)
        }
    }
}

/// Makes the node of this number, where all before it are made, the last of them in the directory `before`.
fn build_next<T: Tree>(
    tree: &mut T,
    numbers: &[NodeId],
    nodes: &[TaskNode],
    made: usize,
    before: usize,
) -> Result<Made, Memory>
    requires valid { is_tree (nodes_of nodes.now) ≡ true }
    requires some { 1 ≤ made }
    requires within { made < length nodes.now }
    requires made { T.nodes tree.old ≡ take made (nodes_of nodes.now) }
    requires count { length numbers.now ≡ made }
    requires numbers { AreNumbers numbers.now }
    ensures number { IfOk result (λ m. m.number ≡ made) }
    ensures nodes { OnOk result (T.nodes tree.new ≡ take (made + 1) (nodes_of nodes.now)) }
{
    let node = &nodes[made];
    let Some(name) = node.place.name() else {
        // The root alone has no name, and it is made first.
        unreachable!()
    };
    let directory = directory_near(&nodes[..made], &node.place, before);
    let number = build_node(tree, numbers[directory], name, node)?;
    Ok(Made { number, directory })
}

/// The tree that a task starts with: its nodes are made one after another, each in its directory.
pub(crate) fn build_tree<T: Tree>(alloc: Global, nodes: &[TaskNode]) -> Result<Built<T>, Memory>
    requires { is_tree (nodes_of nodes.now) ≡ true }
    ensures nodes { IfOk result (λ built. T.nodes built.tree ≡ nodes_of nodes.now) }
    ensures count { IfOk result (λ built. length built.numbers.items ≡ length nodes.now) }
    ensures numbers { IfOk result (λ built. AreNumbers built.numbers.items) }
{
    let mut tree: T = match T::new(alloc) {
        Ok(tree) => tree,
        Err(fault) => return Err(want_of_memory(fault)),
    };
    let mut numbers = Vec::new(alloc);
    numbers.push(tree.root())?;
    let mut directory = 0;
    for made in 1..nodes.len() {
        let next = build_next(&mut tree, &numbers, nodes, made, directory)?;
        numbers.push(next.number)?;
        directory = next.directory;
    }
    Ok(Built { tree, numbers })
}
