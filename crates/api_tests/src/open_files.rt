//! What no trace shows of what is open: how many descriptions there are, and that an end is open as long as one holds it. All
//! calls succeed, since memory is there. The helpers ask first for what a call requires.

ghost use Rattle.std.specs.Prelude.{◌≡◌};
ghost use Rattle.fd_table.specs.Filled.{IsEndThere, IsNamed};
ghost use Rattle.fd_table.specs.Kept.{open_files};
ghost use Rattle.rights.specs.Views.{side_seen};
ghost use Rattle.fd_table.specs.Views.{descriptor_seen};

use fd_table::{
    Class, Description, Descriptor, End, Entry, Files, Object, SendFault, Side, Status,
};
use file_tree::{NodeId, Tree};
use place_tree::PlaceTree;
use rights::{Fcntls, Memory, OpenFlags, Rights};
use std::alloc::Global;
use std::process::Abort;
use std::test::Fail;

/// The descriptor of an entry that has to be there.
fn entry(rt: &impl Abort, files: &Files, p: u8, n: u8) -> Descriptor
    ensures { IsNamed (open_files files.now) result.description }
{
    files.get(p, n).expect(rt, "an entry")
}

/// The end that an entry has to be of.
fn end(rt: &impl Abort, files: &Files, p: u8, n: u8) -> End
    ensures { IsEndThere (open_files files.now) result.pair (side_seen result.side) }
{
    let descriptor = entry(rt, files, p, n);
    let object = files.what(descriptor.description).object;
    match object {
        Object::End { end, .. } => end,
        Object::Node { .. } => panic!(rt; "a node"),
    }
}

fn close(rt: &impl Abort, files: &mut Files, p: u8, n: u8) {
    assert!(rt; files.get(p, n).is_some());
    files.close(p, n);
}

fn open(
    rt: &impl Abort,
    files: &mut Files,
    p: u8,
    n: u8,
    node: NodeId,
    flags: OpenFlags,
) -> Result<(), Memory> {
    assert!(rt; p < 16);
    assert!(rt; n < 16);
    assert!(rt; files.get(p, n).is_none());
    files.open_node(p, n, node, flags, Rights::all(), Fcntls::all())
}

fn share(rt: &impl Abort, files: &mut Files, p: u8, n: u8, q: u8, m: u8) {
    assert!(rt; files.get(p, n).is_some());
    assert!(rt; q < 16);
    assert!(rt; m < 16);
    assert!(rt; files.get(q, m).is_none());
    files.share(p, n, q, m);
}

fn limit(rt: &impl Abort, files: &mut Files, p: u8, n: u8, rights: Rights, fcntls: Fcntls) {
    let descriptor = files.get(p, n).expect(rt, "an entry");
    assert!(rt; descriptor.rights.contains(rights));
    assert!(rt; descriptor.fcntls.contains(fcntls));
    files.limit(p, n, rights, fcntls);
}

fn pair(rt: &impl Abort, files: &mut Files, p: u8, n: u8, q: u8, m: u8) -> Result<(), Memory> {
    assert!(rt; p < 16);
    assert!(rt; n < 16);
    assert!(rt; q < 16);
    assert!(rt; m < 16);
    assert!(rt; p != q);
    assert!(rt; files.get(p, n).is_none());
    assert!(rt; files.get(q, m).is_none());
    let a = Entry {
        process: p,
        number: n,
    };
    let b = Entry {
        process: q,
        number: m,
    };
    files.open_pair(Class::Initial(2), Some(a), Some(b))
}

fn send(rt: &impl Abort, files: &mut Files, p: u8, n: u8, byte: u8) -> Result<(), SendFault> {
    let from = end(rt, files, p, n);
    files.send(from, byte, None)
}

fn pass(rt: &impl Abort, files: &mut Files, p: u8, n: u8, m: u8) -> Result<(), SendFault> {
    let from = end(rt, files, p, n);
    let passed = entry(rt, files, p, m);
    files.send(from, 0, Some(passed))
}

/// A file's node, and the flags to read, write and append.
fn root(alloc: Global) -> Result<NodeId, Fail> {
    let tree = PlaceTree::new(alloc)?;
    Ok(tree.root())
}

fn to_append(rt: &impl Abort) -> OpenFlags {
    OpenFlags::new(true, true, true, false, false).expect(rt, "valid flags")
}

/// What an entry is of.
fn what(rt: &impl Abort, files: &Files, p: u8, n: u8) -> Description {
    let descriptor = entry(rt, files, p, n);
    files.what(descriptor.description)
}

fn set_offset(rt: &impl Abort, files: &mut Files, p: u8, n: u8, offset: u16) {
    let descriptor = entry(rt, files, p, n);
    files.set_offset(descriptor.description, offset);
}

fn set_status(rt: &impl Abort, files: &mut Files, p: u8, n: u8, status: Status) {
    let descriptor = entry(rt, files, p, n);
    files.set_status(descriptor.description, status);
}

/// Whether one of two entries has rights and commands left, and the other one all rights.
fn are_limited(rt: &impl Abort, files: &Files) -> bool {
    let (first, second) = (entry(rt, files, 3, 0), entry(rt, files, 4, 5));
    second.rights == Rights::READ && second.fcntls == Fcntls::GETFL && first.rights == Rights::all()
}

#[test]
fn two_entries_share_a_description(rt: HostRuntime) -> Result<(), Fail> {
    let node = root(rt.alloc())?;
    let mut files = Files::new(rt.alloc())?;
    open(&rt, &mut files, 3, 0, node, to_append(&rt))?;
    share(&rt, &mut files, 3, 0, 4, 5);
    set_offset(&rt, &mut files, 3, 0, 7);
    assert!(rt; what(&rt, &files, 4, 5).offset == 7);
    let status = Status {
        append: false,
        nonblock: true,
    };
    set_status(&rt, &mut files, 4, 5, status);
    let first = what(&rt, &files, 3, 0);
    assert!(rt; first.status == status && first.offset == 7);
    limit(&rt, &mut files, 4, 5, Rights::READ, Fcntls::GETFL);
    assert!(rt; are_limited(&rt, &files));
    close(&rt, &mut files, 3, 0);
    assert!(rt; files.count() == 1);
    close(&rt, &mut files, 4, 5);
    assert!(rt; files.count() == 0);
    Ok(())
}

#[test]
fn an_end_stays_open_until_its_last_holder_closes_it(rt: HostRuntime) -> Result<(), Fail> {
    let mut files = Files::new(rt.alloc())?;
    pair(&rt, &mut files, 0, 2, 1, 3)?;
    for process in 1..16 {
        share(&rt, &mut files, 0, 2, process, 2);
    }
    let a = end(&rt, &files, 0, 2);
    for process in 0..16 {
        assert!(rt; files.is_open(a.pair, Side::A));
        assert!(rt; files.count() == 2);
        close(&rt, &mut files, process, 2);
    }
    assert!(rt; !files.is_open(a.pair, Side::A));
    assert!(rt; files.count() == 1);
    assert!(rt; send(&rt, &mut files, 1, 3, 0) == Err(SendFault::Closed));
    Ok(())
}

#[test]
fn a_message_stays_when_its_pair_has_no_end(rt: HostRuntime) -> Result<(), Fail> {
    let node = root(rt.alloc())?;
    let mut files = Files::new(rt.alloc())?;
    open(&rt, &mut files, 0, 0, node, to_append(&rt))?;
    pair(&rt, &mut files, 0, 2, 1, 3)?;
    pass(&rt, &mut files, 0, 2, 0)?;
    close(&rt, &mut files, 1, 3);
    close(&rt, &mut files, 0, 2);
    assert!(rt; files.count() == 1);
    files.close_all(0);
    assert!(rt; files.count() == 1);
    Ok(())
}

#[test]
fn faults_are_numbered(rt: HostRuntime) {
    assert!(rt; SendFault::Closed.number() == 1);
    assert!(rt; SendFault::Full.number() == 2);
    assert!(rt; SendFault::Memory.number() == 3);
    assert!(rt; Side::A.other() == Side::B);
}

#[test]
fn both_flags_are_3(rt: HostRuntime) {
    let both = Status {
        append: true,
        nonblock: true,
    };
    assert!(rt; both.number() == 3);
}
