//! Steps in which a process of an untrusted program does anything, by what their lines show.

use crate::base::times;
use instruction_set::{Instruction, Program};
use link_tree::LinkTree;
use prog_asm::assemble_wide;
use rights::{Cause, Errno};
use simulator::{Line, LineResult, Machine};
use std::alloc::Global;
use std::process::Abort;
use std::test::Fail;
use syscalls::Event;
use task::Task;
use task_reader::read_task;

/// The tree's root alone. Process 0 is of `main`, with the root as descriptor 0, and side a of a pair as descriptor 1: it sends the root to
/// the other process, for reading beneath it. Process 1 is of `child`, which is untrusted, in capability mode, with side b as descriptor 0.
const FRONT: &str = "node = []
grant = []
process = [
 {program=\"main\", fd=[{number=0, path=\"/\"}, {number=1, pair=0, side=\"a\"}]},
 {program=\"child\", mode=\"cap\", fd=[{number=0, pair=0, side=\"b\"}]}]

[[program]]
name = \"main\"
code = '''
cap_rights_limit 0 READ,LOOKUP else e
sendfd 1 0 65 else e
e: halt
'''

[[program]]
name = \"child\"
untrusted = true
code = '''
";

/// What a process is made to do, as assembly has it, with label `e` for what follows an error; and what register 0 and the point are
/// afterwards. The other registers are 0.
type Does<'a> = (&'a str, u32, u8);

/// The process of a step, what it is made to do, if anything, and the point and the result that the line shows; nothing of a process
/// that was never made.
type Row<'a> = (u8, Option<Does<'a>>, Option<(u8, LineResult)>);

/// The first instruction of a program.
fn first<'a>(rt: &impl Abort, program: &'a Program) -> &'a Instruction {
    match program.code() {
        [first, ..] => first,
        [] => panic!(rt; "a program without instructions"),
    }
}

/// What a line shows besides its process.
fn shown(line: &Line) -> Option<(u8, LineResult)> {
    match &line.acted {
        None => None,
        Some(acted) => Some((acted.point, acted.outcome)),
    }
}

/// The program of an instruction, with an end for what follows an error.
fn program_of(alloc: Global, text: &str) -> Result<Program, Fail> {
    let text = format!(in alloc; "{text}\ne: halt\n")?;
    Ok(assemble_wide(alloc, text.as_str())?)
}

/// The line of a step in which the event's process is made to do something.
fn line_as(
    rt: &impl Abort,
    machine: &mut Machine<'_, LinkTree>,
    event: Event,
    program: &Program,
    (value, point): (u32, u8),
) -> Result<Line, Fail> {
    assert!(rt; machine.may_stand_at(event.process, point));
    Ok(machine.step_as(
        event,
        first(rt, program),
        [value, 0, 0, 0, 0, 0, 0, 0],
        point,
    )?)
}

/// The line of a step.
fn line_of(
    rt: &impl Abort,
    alloc: Global,
    machine: &mut Machine<'_, LinkTree>,
    event: Event,
    does: Option<Does<'_>>,
) -> Result<Line, Fail> {
    match does {
        None => Ok(machine.step(event)?),
        Some((text, value, point)) => {
            let program = program_of(alloc, text)?;
            line_as(rt, machine, event, &program, (value, point))
        }
    }
}

/// Plays a step, which shows what its row says.
fn plays_row(
    rt: &impl Abort,
    alloc: Global,
    machine: &mut Machine<'_, LinkTree>,
    number: usize,
    (process, does, shows): Row<'_>,
) -> Result<(), Fail> {
    let event = Event {
        process,
        input: 0,
        refuse: false,
    };
    let line = line_of(rt, alloc, machine, event, does)?;
    assert!(rt; shown(&line) == shows, "row {number}");
    Ok(())
}

/// The task of `main` and this `child`, which asks for further rights or not.
fn task_of(alloc: Global, wide: bool, child: &str) -> Result<Task, Fail> {
    let front = FRONT;
    let text = format!(in alloc; "further_rights = {wide}\n{front}{child}'''\n")?;
    Ok(read_task(alloc, text.as_str().as_bytes())?)
}

/// Plays steps, each of which shows what its row says.
fn plays_rows(
    rt: &impl Abort,
    alloc: Global,
    machine: &mut Machine<'_, LinkTree>,
    rows: &[Row<'_>],
) -> Result<(), Fail> {
    for (number, row) in rows.iter().enumerate() {
        plays_row(rt, alloc, machine, number, *row)?;
    }
    Ok(())
}

/// Plays steps of `main` and this `child`.
fn plays(
    rt: &impl Abort,
    alloc: Global,
    wide: bool,
    child: &str,
    rows: &[Row<'_>],
) -> Result<(), Fail> {
    let task = task_of(alloc, wide, child)?;
    let mut machine: Machine<'_, LinkTree> = Machine::start(alloc, &task)?;
    plays_rows(rt, alloc, &mut machine, rows)
}

/// What an error shows.
fn fails(point: u8, errno: Errno, cause: Cause) -> Option<(u8, LineResult)> {
    Some((point, LineResult::Failed(errno, cause)))
}

/// What a value shows.
fn gives(point: u8, value: u32) -> Option<(u8, LineResult)> {
    Some((point, LineResult::Value(value)))
}

/// The first steps of `main`.
const LIMITS: Row<'_> = (0, None, Some((0, LineResult::Value(0))));

const SENDS: Row<'_> = (0, None, Some((1, LineResult::Value(1))));

#[test]
fn a_marked_program_does_anything(rt: HostRuntime) -> Result<(), Fail> {
    let passwd = ("open \"/etc/passwd\" read else e", 5, 1);
    let writes = ("openat 1 \"in\" write else e", 0, 1);
    let rows: [Row<'_>; 17] = [
        (1, Some(passwd), fails(0, Errno::ECAPMODE, Cause::CapMode)),
        LIMITS,
        SENDS,
        (1, Some(("recvfd 0 else e", 0, 0)), gives(1, 1)),
        (
            1,
            Some(writes),
            fails(0, Errno::ENOTCAPABLE, Cause::MissingRight),
        ),
        (
            1,
            Some(("recvfd 0 else e", 0, 2)),
            Some((1, LineResult::Waiting)),
        ),
        (1, Some(("dup 1 else e", 9, 1)), gives(2, 2)),
        (1, Some(("fork else e", 5, 1)), gives(1, 2)),
        (2, None, Some((1, LineResult::Done))),
        (2, None, Some((3, LineResult::Halted))),
        (1, None, Some((1, LineResult::Done))),
        (2, Some(("halt", 0, 0)), Some((3, LineResult::Ended))),
        (1, Some(("halt", 0, 2)), Some((3, LineResult::Halted))),
        (1, None, Some((2, LineResult::Ended))),
        (1, Some(("halt", 0, 200)), Some((2, LineResult::Ended))),
        (0, Some(("set r0 1", 0, 200)), Some((2, LineResult::Halted))),
        (9, Some(("halt", 0, 200)), None),
    ];
    plays(
        &rt,
        rt.alloc(),
        false,
        "halt\njeq r0 5 h\nset r1 1\nh: halt\n",
        &rows,
    )
}

#[test]
fn a_walk_goes_on_as_what_began_it(rt: HostRuntime) -> Result<(), Fail> {
    let walks = ("openat 1 \"././.\" read else e", 7, 0);
    let rows: [Row<'_>; 9] = [
        LIMITS,
        SENDS,
        (1, Some(("recvfd 0 else e", 0, 0)), gives(0, 1)),
        (1, None, Some((0, LineResult::Walking))),
        (1, Some(("halt", 0, 0)), gives(0, 2)),
        (1, Some(walks), Some((1, LineResult::Walking))),
        (1, None, Some((1, LineResult::Walking))),
        (1, Some(("halt", 0, 1)), gives(1, 3)),
        (1, None, Some((0, LineResult::Walking))),
    ];
    plays(
        &rt,
        rt.alloc(),
        false,
        "openat 1 \"./.\" read else e\ne: halt\n",
        &rows,
    )
}

#[test]
fn the_last_point_will_do(rt: HostRuntime) -> Result<(), Fail> {
    let walks = ("openat 1 \"./.\" read else e", 7, 255);
    let child = times(rt.alloc(), "halt\n", 256)?;
    let rows: [Row<'_>; 8] = [
        LIMITS,
        SENDS,
        (1, Some(("recvfd 0 else e", 0, 255)), gives(0, 1)),
        (1, Some(("set r0 1", 0, 255)), Some((255, LineResult::Done))),
        (1, Some(walks), Some((255, LineResult::Walking))),
        (1, None, gives(255, 2)),
        (1, Some(("socketpair else e", 0, 255)), gives(255, 3)),
        (1, None, Some((255, LineResult::Halted))),
    ];
    plays(&rt, rt.alloc(), false, child.as_str(), &rows)
}

#[test]
fn a_further_right_is_asked_for(rt: HostRuntime) -> Result<(), Fail> {
    let lacks = fails(1, Errno::ENOTCAPABLE, Cause::MissingRight);
    let rows: [Row<'_>; 6] = [
        LIMITS,
        SENDS,
        (1, Some(("recvfd 0 else e", 0, 1)), gives(0, 1)),
        (1, Some(("use 1 FCHMOD else e", 0, 1)), lacks),
        (1, Some(("use 0 EVENT else e", 0, 1)), gives(1, 0)),
        (1, None, Some((1, LineResult::Halted))),
    ];
    plays(&rt, rt.alloc(), true, "halt\nhalt\n", &rows)
}
