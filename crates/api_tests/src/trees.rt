//! What calls on a tree answer, row by row, over any tree.

ghost use Rattle.std.specs.Prelude.{◌<◌, length};

use file_tree::{Kind, New, NodeId, Place, Tree, TreeFault, is_valid_name, is_valid_target};
use link_tree::LinkTree;
use place_tree::PlaceTree;
use rights::limits::MAX_BYTES;
use std::alloc::Global;
use std::process::Abort;
use std::test::Fail;

/// A call on a tree and what it answers. Nodes are counted in the order in which they were made, from the root, 0.
#[derive(Clone, Copy)]
pub(super) enum Row<'a> {
    Make(usize, &'a [u8], New<'a>, Result<(), TreeFault>),
    Remove(usize, Result<(), TreeFault>),
    Rename(usize, usize, &'a [u8], Result<(), TreeFault>),
    PutByte(usize, usize, u8, Result<(), TreeFault>),
    Truncate(usize, usize, Result<(), TreeFault>),
    Look(usize, Sight<'a>),
}

/// What is seen of a node.
#[derive(Clone, Copy)]
pub(super) enum Sight<'a> {
    Is(Kind),
    IsLinked(bool),
    IsIn(Option<usize>),
    Holds(&'a [u8], Option<usize>),
    LeadsTo(Option<&'a [u8]>),
    Begins(&'a [u8], bool),
    Stands(&'a [u8]),
    Len(usize),
    Byte(usize, Option<u8>),
}

/// A tree, and its nodes in the order in which they were made.
#[derive(Drop)]
pub(super) struct Grown<T: Tree> {
    pub(super) tree: T,
    nodes: Vec<NodeId>,
}

/// A node of the tree.
pub(super) fn node<T: Tree>(rt: &impl Abort, grown: &Grown<T>, n: usize) -> NodeId
    ensures { result < length (T.nodes grown.now.tree) }
{
    let node = *grown.nodes.get(n).expect(rt, "a node");
    assert!(rt; node.number() < grown.tree.made());
    node
}

/// Makes a node where the caller's conditions hold, which are asked first.
fn make<T: Tree>(
    rt: &impl Abort,
    grown: &mut Grown<T>,
    dir: usize,
    name: &[u8],
    what: New<'_>,
) -> Result<(), TreeFault> {
    let dir = node(rt, grown, dir);
    assert!(rt; grown.tree.kind(dir) == Kind::Dir);
    assert!(rt; is_valid_name(name));
    if let New::Link(target) = what {
        assert!(rt; is_valid_target(target));
    }
    let made = grown.tree.create(dir, name, what)?;
    grown.nodes.push(made)?;
    Ok(())
}

/// Renames a node, likewise.
fn rename<T: Tree>(
    rt: &impl Abort,
    grown: &mut Grown<T>,
    n: usize,
    dir: usize,
    name: &[u8],
) -> Result<(), TreeFault> {
    let n = node(rt, grown, n);
    let dir = node(rt, grown, dir);
    assert!(rt; grown.tree.kind(dir) == Kind::Dir);
    assert!(rt; is_valid_name(name));
    grown.tree.rename(n, dir, name)
}

/// Whether that is the answer. Want of memory is handed on.
fn is(answer: Result<(), TreeFault>, wanted: Result<(), TreeFault>) -> Result<bool, TreeFault> {
    if answer == Err(TreeFault::Memory) {
        return Err(TreeFault::Memory);
    }
    Ok(answer == wanted)
}

/// Whether the call answers so. Want of memory is handed on.
fn answers<T: Tree>(
    rt: &impl Abort,
    alloc: Global,
    grown: &mut Grown<T>,
    row: Row<'_>,
) -> Result<bool, TreeFault> {
    match row {
        Row::Make(dir, name, what, wanted) => is(make(rt, grown, dir, name, what), wanted),
        Row::Remove(n, wanted) => {
            let n = node(rt, grown, n);
            is(grown.tree.remove(n), wanted)
        }
        Row::Rename(n, dir, name, wanted) => is(rename(rt, grown, n, dir, name), wanted),
        Row::PutByte(n, at, byte, wanted) => {
            let n = node(rt, grown, n);
            assert!(rt; grown.tree.kind(n) == Kind::File);
            is(grown.tree.put_byte(n, at, byte), wanted)
        }
        Row::Truncate(n, len, wanted) => {
            let n = node(rt, grown, n);
            assert!(rt; grown.tree.kind(n) == Kind::File);
            is(grown.tree.truncate(n, len), wanted)
        }
        Row::Look(n, sight) => looks(rt, alloc, grown, n, sight),
    }
}

/// Whether this is seen of a node.
fn looks<T: Tree>(
    rt: &impl Abort,
    alloc: Global,
    grown: &Grown<T>,
    n: usize,
    sight: Sight<'_>,
) -> Result<bool, TreeFault> {
    let tree = &grown.tree;
    let n = node(rt, grown, n);
    Ok(match sight {
        Sight::Is(kind) => tree.kind(n) == kind,
        Sight::IsLinked(linked) => tree.is_linked(n) == linked,
        Sight::IsIn(dir) => tree.parent(n) == dir.map(|dir| node(rt, grown, dir)),
        Sight::Holds(name, inner) => {
            tree.child(n, name) == inner.map(|inner| node(rt, grown, inner))
        }
        Sight::LeadsTo(target) => tree.target(n) == target,
        Sight::Begins(path, begins) => tree.place_begins(n, path) == begins,
        Sight::Stands(place) => stands(rt, alloc, tree, n, place)?,
        Sight::Len(len) => tree.len(n) == len,
        Sight::Byte(at, byte) => tree.byte_at(n, at) == byte,
    })
}

/// Whether a node's place is that text. Without memory for it no text is given.
fn stands<T: Tree>(
    rt: &impl Abort,
    alloc: Global,
    tree: &T,
    n: NodeId,
    place: &[u8],
) -> Result<bool, TreeFault>
    requires { n < length (T.nodes tree.now) }
{
    let mut text = Vec::new(alloc);
    let told = tree.place_text(n, &mut text);
    assert!(rt; told.is_ok() || text.is_empty());
    told?;
    Ok(text.as_slice() == place)
}

/// Each row, in turn.
pub(super) fn plays<T: Tree>(
    rt: &impl Abort,
    alloc: Global,
    grown: &mut Grown<T>,
    rows: &[Row<'_>],
) -> Result<(), TreeFault> {
    for (number, row) in rows.iter().enumerate() {
        assert!(rt; answers(rt, alloc, grown, *row)?, "row {number}");
    }
    Ok(())
}

/// A tree of the root alone.
fn rooted<T: Tree>(alloc: Global) -> Result<Grown<T>, TreeFault> {
    let tree = T::new(alloc)?;
    let mut nodes = Vec::new(alloc);
    nodes.push(tree.root())?;
    Ok(Grown { tree, nodes })
}

/// The base tree: 1 is `/work` with 2, the file `in` of `AB`, 3, the directory `out`, and the links 4 to 6, `same`,
/// `up` and `abs`; 7 is `/workshop` with 8, the file `x` of `w`; 9 is `/log`; 10 is `/etc` with 11, the file
/// `passwd` of `x`.
pub(super) fn base<T: Tree>(rt: &impl Abort, alloc: Global) -> Result<Grown<T>, TreeFault> {
    let mut grown = rooted(alloc)?;
    let rows = [
        Row::Make(0, b"work", New::Dir, Ok(())),
        Row::Make(1, b"in", New::File, Ok(())),
        Row::Make(1, b"out", New::Dir, Ok(())),
        Row::Make(1, b"same", New::Link(b"out/../in"), Ok(())),
        Row::Make(1, b"up", New::Link(b"../etc/passwd"), Ok(())),
        Row::Make(1, b"abs", New::Link(b"/etc/passwd"), Ok(())),
        Row::Make(0, b"workshop", New::Dir, Ok(())),
        Row::Make(7, b"x", New::File, Ok(())),
        Row::Make(0, b"log", New::Dir, Ok(())),
        Row::Make(0, b"etc", New::Dir, Ok(())),
        Row::Make(10, b"passwd", New::File, Ok(())),
        Row::PutByte(2, 0, b'A', Ok(())),
        Row::PutByte(2, 1, b'B', Ok(())),
        Row::PutByte(8, 0, b'w', Ok(())),
        Row::PutByte(11, 0, b'x', Ok(())),
    ];
    plays(rt, alloc, &mut grown, &rows)?;
    Ok(grown)
}

/// What is seen of the base tree.
fn sights<T: Tree>(rt: &impl Abort, alloc: Global) -> Result<(), TreeFault> {
    let rows = [
        Row::Look(1, Sight::Is(Kind::Dir)),
        Row::Look(2, Sight::Is(Kind::File)),
        Row::Look(4, Sight::Is(Kind::Link)),
        Row::Look(2, Sight::LeadsTo(None)),
        Row::Look(4, Sight::LeadsTo(Some(b"out/../in"))),
        Row::Look(2, Sight::Len(2)),
        Row::Look(2, Sight::Byte(1, Some(b'B'))),
        Row::Look(2, Sight::Byte(2, None)),
        Row::Look(0, Sight::IsLinked(true)),
        Row::Look(0, Sight::IsIn(None)),
        Row::Look(0, Sight::Holds(b"work", Some(1))),
        Row::Look(2, Sight::IsIn(Some(1))),
        Row::Look(1, Sight::Holds(b"nope", None)),
        Row::Look(1, Sight::Holds(b"..", None)),
        Row::Look(0, Sight::Stands(b"/")),
        Row::Look(2, Sight::Stands(b"/work/in")),
        Row::Look(7, Sight::Begins(b"/work", false)),
        Row::Look(2, Sight::Begins(b"/work", true)),
        Row::Look(2, Sight::Begins(b"/", true)),
        Row::Look(1, Sight::Begins(b"/work/in", false)),
    ];
    plays(rt, alloc, &mut base::<T>(rt, alloc)?, &rows)
}

/// A removed node keeps its place, though its name is taken again.
fn made_again<T: Tree>(rt: &impl Abort, alloc: Global) -> Result<(), TreeFault> {
    let rows = [
        Row::Remove(3, Ok(())),
        Row::Look(1, Sight::Holds(b"out", None)),
        Row::Make(1, b"out", New::Dir, Ok(())),
        Row::Make(12, b"f", New::File, Ok(())),
        Row::Look(3, Sight::Stands(b"/work/out")),
        Row::Look(13, Sight::Stands(b"/work/out/f")),
        Row::Look(3, Sight::IsLinked(false)),
        Row::Look(3, Sight::IsIn(None)),
        Row::Look(3, Sight::Holds(b"f", None)),
        Row::Look(1, Sight::Holds(b"out", Some(12))),
    ];
    plays(rt, alloc, &mut base::<T>(rt, alloc)?, &rows)
}

/// Nothing is done in, to or into a removed directory.
fn gone<T: Tree>(rt: &impl Abort, alloc: Global) -> Result<(), TreeFault> {
    let rows = [
        Row::Remove(3, Ok(())),
        Row::Make(3, b"g", New::File, Err(TreeFault::Gone)),
        Row::Remove(3, Err(TreeFault::Gone)),
        Row::Rename(3, 0, b"g", Err(TreeFault::Gone)),
        Row::Rename(2, 3, b"g", Err(TreeFault::Gone)),
    ];
    plays(rt, alloc, &mut base::<T>(rt, alloc)?, &rows)
}

/// What is refused otherwise.
fn refusals<T: Tree>(rt: &impl Abort, alloc: Global) -> Result<(), TreeFault> {
    let rows = [
        Row::Make(1, b"in", New::Dir, Err(TreeFault::Exists)),
        Row::Rename(1, 3, b"new", Err(TreeFault::IntoItself)),
        Row::Rename(0, 9, b"root", Err(TreeFault::IntoItself)),
        Row::Rename(9, 0, b"work", Err(TreeFault::NotEmpty)),
        Row::Remove(1, Err(TreeFault::NotEmpty)),
        Row::Remove(0, Err(TreeFault::NotEmpty)),
    ];
    plays(rt, alloc, &mut base::<T>(rt, alloc)?, &rows)
}

/// A rename moves what is below, by names, and no removed node.
fn moves_below<T: Tree>(rt: &impl Abort, alloc: Global) -> Result<(), TreeFault> {
    let rows = [
        Row::Remove(3, Ok(())),
        Row::Rename(1, 0, b"w2", Ok(())),
        Row::Look(8, Sight::Stands(b"/workshop/x")),
        Row::Look(2, Sight::Stands(b"/w2/in")),
        Row::Look(3, Sight::Stands(b"/work/out")),
        Row::Look(2, Sight::Begins(b"/w2", true)),
        Row::Look(2, Sight::Begins(b"/work", false)),
    ];
    plays(rt, alloc, &mut base::<T>(rt, alloc)?, &rows)
}

/// A rename over an empty directory removes it, and one to its own place changes nothing.
fn moves_over<T: Tree>(rt: &impl Abort, alloc: Global) -> Result<(), TreeFault> {
    let rows = [
        Row::Rename(9, 1, b"out", Ok(())),
        Row::Rename(9, 1, b"out", Ok(())),
        Row::Look(9, Sight::Stands(b"/work/out")),
        Row::Look(3, Sight::IsLinked(false)),
        Row::Look(9, Sight::IsLinked(true)),
        Row::Look(1, Sight::Holds(b"out", Some(9))),
    ];
    plays(rt, alloc, &mut base::<T>(rt, alloc)?, &rows)
}

/// A gap before a byte, and what a file is filled up with, are zeros; and a file's last byte.
fn bytes<T: Tree>(rt: &impl Abort, alloc: Global) -> Result<(), TreeFault> {
    let rows = [
        Row::PutByte(2, 4, b'C', Ok(())),
        Row::Look(2, Sight::Len(5)),
        Row::Look(2, Sight::Byte(1, Some(b'B'))),
        Row::Look(2, Sight::Byte(3, Some(0))),
        Row::Look(2, Sight::Byte(4, Some(b'C'))),
        Row::Truncate(2, 1, Ok(())),
        Row::Truncate(2, 3, Ok(())),
        Row::Look(2, Sight::Len(3)),
        Row::Look(2, Sight::Byte(1, Some(0))),
        Row::PutByte(2, MAX_BYTES - 1, b'Z', Ok(())),
        Row::Look(2, Sight::Byte(MAX_BYTES - 1, Some(b'Z'))),
        Row::PutByte(2, MAX_BYTES, 0, Err(TreeFault::Full)),
        Row::Truncate(2, MAX_BYTES + 1, Err(TreeFault::Full)),
        Row::Look(2, Sight::Len(MAX_BYTES)),
    ];
    plays(rt, alloc, &mut base::<T>(rt, alloc)?, &rows)
}

/// Twelve nodes are in the base tree, and 1012 more may be made, removed ones counted.
fn full<T: Tree>(rt: &impl Abort, alloc: Global) -> Result<(), TreeFault> {
    let mut grown = base::<T>(rt, alloc)?;
    for i in 0u32..1012 {
        let name = format!(in alloc; "{i}")?;
        let row = Row::Make(9, name.as_bytes(), New::File, Ok(()));
        plays(rt, alloc, &mut grown, &[row])?;
        if i == 500 {
            plays(rt, alloc, &mut grown, &[Row::Remove(512, Ok(()))])?;
        }
    }
    let row = Row::Make(9, b"one", New::File, Err(TreeFault::Full));
    plays(rt, alloc, &mut grown, &[row])
}

/// All rows, on one way to keep a tree.
fn rows<T: Tree>(rt: &impl Abort, alloc: Global) -> Result<(), TreeFault> {
    sights::<T>(rt, alloc)?;
    made_again::<T>(rt, alloc)?;
    gone::<T>(rt, alloc)?;
    refusals::<T>(rt, alloc)?;
    moves_below::<T>(rt, alloc)?;
    moves_over::<T>(rt, alloc)?;
    bytes::<T>(rt, alloc)?;
    full::<T>(rt, alloc)
}

#[test]
fn place_tree_has_the_rows(rt: HostRuntime) -> Result<(), Fail> {
    Ok(rows::<PlaceTree>(&rt, rt.alloc())?)
}

#[test]
fn link_tree_has_the_rows(rt: HostRuntime) -> Result<(), Fail> {
    Ok(rows::<LinkTree>(&rt, rt.alloc())?)
}

/// Whether places lie as their names say.
fn lie_so(root: &Place, workshop: &Place, work: &Place, letters: &Place) -> bool {
    work.is_same(work)
        && !work.is_same(workshop)
        && !root.is_same(work)
        && letters.begins_with(work)
        && !workshop.begins_with(work)
        && letters.stands_in(work)
        && letters.is_child(work, b"letters")
        && letters.compare(workshop).is_lt()
}

/// Whether places have these texts.
fn read_so(root: &Place, work: &Place, letters: &Place) -> bool {
    letters.text() == b"/work/letters".as_slice()
        && root.text() == b"/".as_slice()
        && letters.text_above() == work.text()
        && root.is_root()
        && letters.name() == Some(b"letters".as_slice())
        && root.name().is_none()
        && root.names_text().is_empty()
}

#[test]
fn places_go_by_names(rt: HostRuntime) -> Result<(), Fail> {
    let alloc = rt.alloc();
    let root = Place::root(alloc);
    let workshop = Place::of_names(alloc, b"workshop")?;
    let mut work = root.copy(alloc)?;
    work.push(b"work")?;
    let letters = Place::of_names(alloc, b"work/letters")?;
    assert!(rt; lie_so(&root, &workshop, &work, &letters));
    assert!(rt; read_so(&root, &work, &letters));
    assert!(rt; letters.names().count() == 2);
    Ok(())
}
