//! One process.

use process::Process;
use rights::limits::REGISTERS;

/// Whether a process is as it begins with program 3.
fn begins(process: &Process) -> bool {
    process.alive
        && !process.mode()
        && (process.program, process.point) == (3, 0)
        && process.registers == [0; REGISTERS]
}

/// Whether a child is where its parent is, in the mode and with its registers, but for the first.
fn is_forked(child: &Process) -> bool {
    child.mode()
        && child.alive
        && (child.program, child.point) == (3, 7)
        && child.registers == [0, 2, 3, 4, 5, 6, 7, 8]
}

/// Whether a process has nothing under way, goes on to a point and ends.
fn ends_at_9(process: &mut Process) -> bool {
    let has_walk = process.is_walking() || process.take_walk().is_some();
    process.move_to(9);
    let is_there = process.point == 9;
    process.end();
    !has_walk && is_there && !process.alive
}

#[test]
fn a_child_has_its_parents_mode(rt: HostRuntime) {
    let mut parent = Process::new(3, false);
    assert!(rt; begins(&parent));
    parent.registers = [1, 2, 3, 4, 5, 6, 7, 8];
    parent.move_to(7);
    assert!(rt; !parent.fork_of().mode());
    parent.enter();
    parent.enter();
    parent.move_to(7);
    assert!(rt; is_forked(&parent.fork_of()));
    assert!(rt; parent.registers[0] == 1);
    assert!(rt; ends_at_9(&mut parent));
}
