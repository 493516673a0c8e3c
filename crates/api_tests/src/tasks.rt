//! Tasks as values, and how they are read: that documents are read where memory is there, and mean what the worked
//! examples say.

use crate::base::BASE;
use fd_table::{Access, Side};
use file_tree::{Kind, Place};
use instruction_set::Instruction;
use rights::{Fcntls, Op, Rights};
use std::alloc::Global;
use std::process::Abort;
use std::test::Fail;
use task::{FirstDescriptor, FirstObject, Task, TaskNode, grant_holds, grant_lists, grant_named};
use task_reader::{TaskFault, read_task};

/// A node that is open for reading.
fn to_read(node: u16) -> FirstObject {
    FirstObject::Node {
        node,
        access: Access {
            readable: true,
            writable: false,
        },
    }
}

/// Whether the first nodes of the base task are as it says.
fn has_base_nodes(task: &Task) -> bool {
    match task.nodes() {
        [root, work, file, _, link, ..] => {
            root.place.is_root()
                && matches!(root.kind, Kind::Dir)
                && matches!(work.kind, Kind::Dir)
                && work.place.text() == b"/work".as_slice()
                && matches!(file.kind, Kind::File)
                && file.content.as_slice() == b"AB".as_slice()
                && matches!(link.kind, Kind::Link)
                && link.content.as_slice() == b"out/../in".as_slice()
        }
        _ => false,
    }
}

/// Whether it has its two grants.
fn has_base_grants(task: &Task) -> bool {
    match task.grants() {
        [work, log] => {
            work.name.as_bytes() == b"work".as_slice()
                && log.name.as_bytes() == b"log".as_slice()
                && matches!(work.operations.as_slice(), [Op::Look, Op::Read])
                && log.operations.len() == 3
        }
        _ => false,
    }
}

/// Whether a task has one program, which ends at once.
fn only_ends(task: &Task) -> bool {
    match task.programs() {
        [main] => matches!(main.program.code(), [Instruction::Halt]),
        _ => false,
    }
}

/// Whether the base task has its one process outside the mode, with two descriptors.
fn has_base_start(task: &Task) -> bool {
    match task.starts() {
        [start] => start.program == 0 && !start.mode && are_base(&start.descriptors),
        _ => false,
    }
}

/// Whether these are its descriptors.
fn are_base(descriptors: &[FirstDescriptor]) -> bool {
    match descriptors {
        [zero, one] => {
            zero.number == 0
                && zero.object == to_read(1)
                && one.number == 1
                && one.object == to_read(9)
        }
        _ => false,
    }
}

#[test]
fn the_base_task_is_read(rt: HostRuntime) {
    let task = task(&rt, rt.alloc(), BASE);
    assert!(rt; task.nodes().len() == 12 && has_base_nodes(&task));
    assert!(rt; has_base_grants(&task));
    assert!(rt; only_ends(&task));
    assert!(rt; has_base_start(&task));
}

/// The fault that no line tells.
#[test]
fn want_of_memory_has_a_number(rt: HostRuntime) {
    assert!(rt; TaskFault::Memory.number() == 8);
    assert!(rt; TaskFault::Memory.name() == "Memory");
}

/// A task of two processes that share a pair: a parent has side a at two numbers, and a child in the mode has side b.
const FAMILY: &str = "node = []
grant = []
process = [
 {program=\"main\", fd=[{number=2, pair=31, side=\"a\"}, {number=3, pair=31, side=\"a\", rights=[]}]},
 {program=\"main\", mode=\"cap\", fd=[{number=2, pair=31, side=\"b\", rights=[\"RECV\"], fcntls=[]}]}]
[[program]]
name = \"main\"
code = '''
halt
'''
";

/// A side of the family's pair.
fn end(side: Side) -> FirstObject {
    FirstObject::End { pair: 31, side }
}

/// Whether these are the descriptors of the parent.
fn are_parents(descriptors: &[FirstDescriptor]) -> bool {
    match descriptors {
        [two, three] => {
            two.number == 2
                && two.object == end(Side::A)
                && two.rights == Rights::all()
                && two.fcntls == Fcntls::all()
                && three.number == 3
                && three.object == end(Side::A)
                && three.rights == Rights::empty()
        }
        _ => false,
    }
}

/// Whether these are those of the child.
fn are_childs(descriptors: &[FirstDescriptor]) -> bool {
    match descriptors {
        [two] => {
            two.number == 2
                && two.object == end(Side::B)
                && two.rights == Rights::READ
                && two.fcntls == Fcntls::empty()
        }
        _ => false,
    }
}

#[test]
fn ends_are_read(rt: HostRuntime) {
    let task = task(&rt, rt.alloc(), FAMILY);
    match task.starts() {
        [parent, child] => {
            assert!(rt; are_parents(&parent.descriptors));
            assert!(rt; are_childs(&child.descriptors));
        }
        _ => panic!(rt; "not two processes"),
    }
}

/// A task of the file `/work/in`, through which its one process starts in the mode.
const SMALL: &str = "node = [
 {path=\"/work\", kind=\"dir\"},
 {path=\"/work/in\", kind=\"file\", content=\"AB\"}]
grant = [{name=\"work\", path=\"/work\", ops=[\"look\",\"read\"]}]
process = [{program=\"main\", mode=\"cap\", fd=[{number=2, path=\"/work/in\"}]}]
[[program]]
name = \"main\"
code = '''
halt
'''
";

/// The task of a text that is one.
fn task(rt: &impl Abort, alloc: Global, text: &str) -> Task {
    match read_task(alloc, text.as_bytes()) {
        Ok(task) => task,
        Err(fault) => panic!(rt; "fault {}", fault.number()),
    }
}

/// Whether it starts so.
fn has_small_start(task: &Task) -> bool {
    match task.starts() {
        [start] => start.mode && start.program == 0 && is_small(&start.descriptors),
        _ => false,
    }
}

/// Whether this is its one descriptor.
fn is_small(descriptors: &[FirstDescriptor]) -> bool {
    match descriptors {
        [first] => first.number == 2 && first.object == to_read(2),
        _ => false,
    }
}

#[test]
fn a_task_has_its_parts(rt: HostRuntime) {
    let task = task(&rt, rt.alloc(), SMALL);
    assert!(rt; task.nodes().len() == 3 && task.grants().len() == 1);
    assert!(rt; has_small_start(&task));
    assert!(rt; only_ends(&task));
    assert!(rt; task.program_name(0) == b"main".as_slice());
    assert!(rt; task.program_name(1).is_empty());
}

#[test]
fn a_policy_goes_by_names(rt: HostRuntime) -> Result<(), Fail> {
    let alloc = rt.alloc();
    let task = task(&rt, rt.alloc(), SMALL);
    let grants = task.grants();
    assert!(rt; grant_named(grants, b"work").is_some());
    assert!(rt; grant_named(grants, b"wor").is_none());
    let nodes = task.nodes();
    assert!(rt; grant_holds(grants, b"work", nodes, 1));
    assert!(rt; grant_holds(grants, b"work", nodes, 2));
    assert!(rt; !grant_holds(grants, b"log", nodes, 2));
    let workshop = TaskNode {
        kind: Kind::Dir,
        place: Place::of_names(alloc, b"workshop")?,
        content: Vec::new(alloc),
    };
    assert!(rt; !grant_holds(grants, b"work", &[workshop], 0));
    assert!(rt; grant_lists(grants, b"work", Op::Read));
    assert!(rt; !grant_lists(grants, b"work", Op::Write));
    assert!(rt; !grant_lists(grants, b"log", Op::Read));
    Ok(())
}
