//! What paths lead to, row by row, over any tree.

use crate::trees::{Grown, Row, base, node, plays};
use file_tree::{New, Tree, TreeFault};
use link_tree::LinkTree;
use lookup::{Found, Last, PathFault, Way, find, find_name, last_name};
use place_tree::PlaceTree;
use std::alloc::Global;
use std::process::Abort;
use std::test::Fail;

/// What a lookup comes to, its nodes counted as the rows of trees count them.
#[derive(Clone, Copy)]
enum Led {
    Node(usize),
    Free(usize),
    Fault(PathFault),
}

/// How a path is looked up: beneath its start, the last name followed or kept; or from the root, followed.
#[derive(Clone, Copy)]
enum How {
    Follows,
    Keeps,
    Leads,
}

/// What a path leads to from a node that is no link, which is asked first.
#[tactic(auto, using(lookup::proofs::NodeSteps::no_link))]
fn look<T: Tree>(
    rt: &impl Abort,
    alloc: Global,
    grown: &Grown<T>,
    start: usize,
    path: &[u8],
    way: Way,
    last: Last,
) -> Result<Found, PathFault> {
    let start = node(rt, grown, start);
    assert!(rt; grown.tree.target(start).is_none());
    find(alloc, &grown.tree, start, path, way, last)
}

/// Each path leads to that from the start.
fn lead<T: Tree>(
    rt: &impl Abort,
    alloc: Global,
    grown: &Grown<T>,
    start: usize,
    rows: &[(How, &[u8], Led)],
) {
    for (number, (how, path, led)) in rows.iter().enumerate() {
        let (way, last) = match *how {
            How::Follows => (Way::Beneath, Last::Follow),
            How::Keeps => (Way::Beneath, Last::Keep),
            How::Leads => (Way::Global, Last::Follow),
        };
        let wanted = match *led {
            Led::Node(n) => Ok(Found::Node(node(rt, grown, n))),
            Led::Free(dir) => Ok(Found::Free(node(rt, grown, dir))),
            Led::Fault(fault) => Err(fault),
        };
        assert!(rt;
            look(rt, alloc, grown, start, *path, way, last) == wanted,
            "row {number}"
        );
    }
}

/// From `/work` of the base tree.
fn from_work<T: Tree>(rt: &impl Abort, alloc: Global) -> Result<(), TreeFault> {
    let rows: [(How, &[u8], Led); 23] = [
        (How::Follows, b"same", Led::Node(2)),
        (How::Follows, b"out/..", Led::Node(1)),
        (How::Follows, b".", Led::Node(1)),
        (How::Follows, b"out/./../in//", Led::Node(2)),
        (How::Follows, b"..", Led::Fault(PathFault::Escape)),
        (How::Follows, b"out/../..", Led::Fault(PathFault::Escape)),
        (How::Follows, b"up", Led::Fault(PathFault::Escape)),
        (How::Follows, b"abs", Led::Fault(PathFault::Escape)),
        (How::Follows, b"/work/in", Led::Fault(PathFault::Escape)),
        (How::Follows, b"in/x", Led::Fault(PathFault::NotDir)),
        (How::Follows, b"in/..", Led::Fault(PathFault::NotDir)),
        (How::Follows, b"nope", Led::Fault(PathFault::NoEntry)),
        (How::Follows, b"nope/x", Led::Fault(PathFault::NoEntry)),
        (How::Follows, b"", Led::Fault(PathFault::NoEntry)),
        (How::Keeps, b"same/", Led::Node(4)),
        (How::Keeps, b"abs", Led::Node(6)),
        (How::Keeps, b"nope", Led::Free(1)),
        (How::Keeps, b"out/new", Led::Free(3)),
        (How::Keeps, b".", Led::Fault(PathFault::BadLast)),
        (How::Keeps, b"out/..", Led::Fault(PathFault::BadLast)),
        (How::Leads, b"/../work/up", Led::Node(11)),
        (How::Leads, b"work/abs", Led::Node(11)),
        (How::Leads, b"/", Led::Node(0)),
    ];
    lead(rt, alloc, &base::<T>(rt, alloc)?, 1, &rows);
    Ok(())
}

/// Names alone, from `/work` of the base tree: what they lead to at once, or nothing where that takes a walk.
fn at_once<T: Tree>(rt: &impl Abort, alloc: Global) -> Result<(), TreeFault> {
    let rows: [(&[u8], Last, Option<Led>); 6] = [
        (b"in", Last::Follow, Some(Led::Node(2))),
        (b"same", Last::Keep, Some(Led::Node(4))),
        (b"nope", Last::Keep, Some(Led::Free(1))),
        (b"same", Last::Follow, None),
        (b"nope", Last::Follow, None),
        (b"out/new", Last::Keep, None),
    ];
    let grown = base::<T>(rt, alloc)?;
    let start = node(rt, &grown, 1);
    for (number, (path, last, led)) in rows.iter().enumerate() {
        let wanted = match *led {
            Some(Led::Node(n)) => Some(Found::Node(node(rt, &grown, n))),
            Some(Led::Free(dir)) => Some(Found::Free(node(rt, &grown, dir))),
            Some(Led::Fault(_)) | None => None,
        };
        assert!(rt;
            find_name(&grown.tree, start, *path, *last) == wanted,
            "row {number}"
        );
    }
    Ok(())
}

/// Nothing is found beneath a removed directory, though its name is taken again.
fn removed<T: Tree>(rt: &impl Abort, alloc: Global) -> Result<(), TreeFault> {
    let mut grown = base::<T>(rt, alloc)?;
    let changes = [
        Row::Remove(3, Ok(())),
        Row::Make(1, b"out", New::Dir, Ok(())),
        Row::Make(12, b"f", New::File, Ok(())),
    ];
    plays(rt, alloc, &mut grown, &changes)?;
    let rows: [(How, &[u8], Led); 4] = [
        (How::Follows, b"f", Led::Fault(PathFault::NoEntry)),
        (How::Follows, b"/f", Led::Fault(PathFault::Escape)),
        (How::Keeps, b".", Led::Fault(PathFault::BadLast)),
        (How::Leads, b"work", Led::Node(1)),
    ];
    lead(rt, alloc, &grown, 3, &rows);
    Ok(())
}

/// A link in `/work`.
fn link<'a>(name: &'a [u8], target: &'a [u8]) -> Row<'a> {
    Row::Make(1, name, New::Link(target), Ok(()))
}

/// 32 links are followed, one after the other, and no more.
fn chain<T: Tree>(rt: &impl Abort, alloc: Global) -> Result<(), TreeFault> {
    let mut grown = base::<T>(rt, alloc)?;
    plays(
        rt,
        alloc,
        &mut grown,
        &[Row::Make(1, b"l0", New::Link(b"in"), Ok(()))],
    )?;
    for i in 0u32..32 {
        let target = format!(in alloc; "l{i}")?;
        let name = format!(in alloc; "l{}", i + 1)?;
        let row = link(name.as_bytes(), target.as_bytes());
        plays(rt, alloc, &mut grown, &[row])?;
    }
    let rows: [(How, &[u8], Led); 3] = [
        (How::Follows, b"l31", Led::Node(2)),
        (How::Follows, b"l32", Led::Fault(PathFault::Loop)),
        (How::Keeps, b"l32", Led::Node(44)),
    ];
    lead(rt, alloc, &grown, 1, &rows);
    Ok(())
}

/// The greatest lengths of names and paths.
fn lengths<T: Tree>(rt: &impl Abort, alloc: Global) -> Result<(), TreeFault> {
    let letters = [b'a'; 1024];
    let slashes = [b'/'; 1024];
    let rows: [(How, &[u8], Led); 5] = [
        (
            How::Follows,
            &letters[..256],
            Led::Fault(PathFault::TooLong),
        ),
        (
            How::Follows,
            &letters[..255],
            Led::Fault(PathFault::NoEntry),
        ),
        (How::Follows, &letters, Led::Fault(PathFault::TooLong)),
        (How::Leads, &slashes, Led::Fault(PathFault::TooLong)),
        (How::Leads, &slashes[..1023], Led::Node(0)),
    ];
    lead(rt, alloc, &base::<T>(rt, alloc)?, 1, &rows);
    Ok(())
}

/// All rows, on one way to keep a tree.
fn rows<T: Tree>(rt: &impl Abort, alloc: Global) -> Result<(), TreeFault> {
    from_work::<T>(rt, alloc)?;
    at_once::<T>(rt, alloc)?;
    removed::<T>(rt, alloc)?;
    chain::<T>(rt, alloc)?;
    lengths::<T>(rt, alloc)
}

#[test]
fn place_tree_has_the_rows(rt: HostRuntime) -> Result<(), Fail> {
    Ok(rows::<PlaceTree>(&rt, rt.alloc())?)
}

#[test]
fn link_tree_has_the_rows(rt: HostRuntime) -> Result<(), Fail> {
    Ok(rows::<LinkTree>(&rt, rt.alloc())?)
}

#[test]
fn last_names(rt: HostRuntime) {
    let rows: [(&[u8], &[u8]); 5] = [
        (b"/work//in/", b"in"),
        (b"in", b"in"),
        (b"out/..", b".."),
        (b"///", b""),
        (b"", b""),
    ];
    for (path, name) in rows {
        assert!(rt; last_name(path) == name);
    }
}

#[test]
fn fault_numbers(rt: HostRuntime) {
    assert!(rt; PathFault::Escape.number() == 1);
    assert!(rt; PathFault::Memory.number() == 7);
}
