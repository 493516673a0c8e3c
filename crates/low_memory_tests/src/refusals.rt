//! Growths that are refused, and calls that need none.

use crate::calls::{Call, Comparison, Outcome, outcome_of};
use crate::inputs::{
    ACTS, EVENTS, NO_BYTE, NO_LABEL, NO_LABEL_IN_A_TASK, NO_POINT, PARTS, READS, SIX_POINTS, TRACE,
    hundred_points,
};
use crate::memory::{ROOMS, STEP, Scarcity};
use certificate_text::{read_cert, write_cert};
use checker::{Verdict, check};
use link_tree::LinkTree;
use rights::Stop;
use simulator::{Machine, read_schedule};
use std::alloc::{AllocError, Global};
use std::test::Fail;
use syscalls::Event;
use task::Task;
use task_reader::read_task;

/// More bytes than a small task's run needs.
const AMPLE: usize = 65_520;

/// How often the call wants memory, with none left at first and then each time sixteen bytes more, until it comes to this; nothing
/// if it comes to something else.
fn refusals(alloc: Global, call: &Call<'_>, ample: Outcome) -> Result<Option<usize>, AllocError> {
    let mut memory = Scarcity::new(alloc)?;
    for count in 0..ROOMS {
        if !memory.leave(count * STEP) {
            return Ok(None);
        }
        let come_to = outcome_of(alloc, call);
        if come_to == ample {
            return Ok(Some(count));
        }
        if come_to != Outcome::Memory {
            return Ok(None);
        }
    }
    Ok(None)
}

/// Whether each call comes to this, and with less memory than that takes it wants memory.
fn are_refused(alloc: Global, calls: &[(Call<'_>, Outcome)]) -> Result<bool, AllocError> {
    for (call, ample) in calls {
        if outcome_of(alloc, call) != *ample {
            return Ok(false);
        }
        match refusals(alloc, call, *ample)? {
            None | Some(0) => return Ok(false),
            Some(_) => {}
        }
    }
    Ok(true)
}

#[test]
fn readers_want_memory_or_answer(rt: HostRuntime) -> Result<(), Fail> {
    let calls = [
        (
            Call::Assemble("l: read 2 else e\njmp l\ne: halt\n"),
            Outcome::Given,
        ),
        (Call::Assemble(NO_LABEL), Outcome::Denied(3)),
        (Call::ReadTask(READS.as_bytes()), Outcome::Given),
        (
            Call::ReadTask(NO_LABEL_IN_A_TASK.as_bytes()),
            Outcome::Denied(6),
        ),
        (Call::ReadCert(SIX_POINTS.as_bytes()), Outcome::Given),
        (
            Call::ReadCert(&SIX_POINTS.as_bytes()[..600]),
            Outcome::Denied(1),
        ),
        (Call::ReadSchedule(EVENTS), Outcome::Given),
        (Call::ReadSchedule(NO_BYTE), Outcome::Denied(1)),
    ];
    assert!(rt; are_refused(rt.alloc(), &calls)?);
    Ok(())
}

#[test]
fn verdicts_and_searches_want_memory_or_answer(rt: HostRuntime) -> Result<(), Fail> {
    let alloc = rt.alloc();
    let found = read_task(alloc, READS.as_bytes())?;
    let none = read_task(alloc, PARTS.as_bytes())?;
    let long = hundred_points(alloc)?;
    let calls = [
        (
            Call::CheckText(READS.as_bytes(), SIX_POINTS.as_bytes()),
            Outcome::Given,
        ),
        (
            Call::CheckText(READS.as_bytes(), long.as_bytes()),
            Outcome::Given,
        ),
        (
            Call::CheckText(READS.as_bytes(), NO_POINT.as_bytes()),
            Outcome::Denied(16),
        ),
        (Call::Search(&found), Outcome::Given),
        (Call::Search(&none), Outcome::Denied(0)),
    ];
    assert!(rt; are_refused(alloc, &calls)?);
    Ok(())
}

#[test]
fn runs_want_memory_or_go_on(rt: HostRuntime) -> Result<(), Fail> {
    let alloc = rt.alloc();
    let task = read_task(alloc, ACTS.as_bytes())?;
    let events = read_schedule(alloc, EVENTS)?;
    let calls = [
        (Call::Steps(&task, &events), Outcome::Given),
        (Call::Simulate(&task, &events, TRACE), Outcome::Given),
    ];
    assert!(rt; are_refused(alloc, &calls)?);
    Ok(())
}

/// A machine behind some steps, if all are taken.
fn machine_behind<'a>(
    alloc: Global,
    task: &'a Task,
    events: &[Event],
) -> Option<Machine<'a, LinkTree>> {
    let mut machine: Machine<'a, LinkTree> = Machine::start(alloc, task).ok()?;
    for event in events {
        let _line = machine.step(*event).ok()?;
    }
    Some(machine)
}

/// Whether a step wants memory, if it doesn't come to something else.
fn wants_memory(machine: &mut Machine<'_, LinkTree>, event: Event) -> Option<bool> {
    match machine.step(event) {
        Ok(_) => Some(false),
        Err(Stop::Memory) => Some(true),
        Err(_) => None,
    }
}

/// Whether a machine takes no step any more.
fn is_spent(machine: &mut Machine<'_, LinkTree>, events: &[Event]) -> bool {
    for event in events {
        if !matches!(machine.step(*event), Err(Stop::Spent)) {
            return false;
        }
    }
    true
}

/// Whether the step behind so many others wants memory where so much is left, and the machine takes none behind that; nothing if it comes to
/// something else.
fn is_refused_step(
    alloc: Global,
    memory: &mut Scarcity,
    task: &Task,
    events: &[Event],
    (before, left): (usize, usize),
) -> Option<bool> {
    let first = events.get(..before)?;
    let next = events.get(before)?;
    let mut machine = machine_behind(alloc, task, first)?;
    if !memory.leave(left) {
        return None;
    }
    let is_refused = wants_memory(&mut machine, *next)?;
    if is_refused && !is_spent(&mut machine, events) {
        return None;
    }
    Some(is_refused)
}

/// How often the step behind so many others wants memory, until it is taken; nothing if it comes to something else, or if a machine
/// takes a step behind one that wanted memory.
fn refused_steps(
    alloc: Global,
    memory: &mut Scarcity,
    task: &Task,
    events: &[Event],
    before: usize,
) -> Option<usize> {
    for count in 0..ROOMS {
        if !memory.leave(AMPLE) {
            return None;
        }
        if !is_refused_step(alloc, memory, task, events, (before, count * STEP))? {
            return Some(count);
        }
    }
    None
}

#[test]
fn each_step_wants_memory_or_is_taken(rt: HostRuntime) -> Result<(), Fail> {
    let alloc = rt.alloc();
    let task = read_task(alloc, ACTS.as_bytes())?;
    let events = read_schedule(alloc, EVENTS)?;
    assert!(rt; outcome_of(alloc, &Call::Steps(&task, &events)) == Outcome::Given);
    let mut memory = Scarcity::new(alloc)?;
    let mut refused = 0usize;
    let mut are_all_taken = true;
    for before in 0..events.len() {
        match refused_steps(alloc, &mut memory, &task, &events, before) {
            Some(0) => {}
            Some(_) => refused = refused.saturating_add(1),
            None => are_all_taken = false,
        }
    }
    drop(memory);
    assert!(rt; are_all_taken);
    assert!(rt; refused > 0);
    Ok(())
}

#[test]
fn checks_and_written_certificates_need_no_memory(rt: HostRuntime) -> Result<(), Fail> {
    let alloc = rt.alloc();
    let task = read_task(alloc, READS.as_bytes())?;
    let cert = read_cert(alloc, SIX_POINTS.as_bytes())?;
    assert!(rt; check(&task, &cert) == Verdict::Yes);
    let mut memory = Scarcity::new(alloc)?;
    let is_used_up = memory.leave(0);
    let verdict = check(&task, &cert);
    let mut out = Comparison::new(SIX_POINTS.as_bytes());
    let written = write_cert(&cert, &mut out);
    drop(memory);
    assert!(rt; is_used_up);
    assert!(rt; verdict == Verdict::Yes);
    assert!(rt; written.is_ok() && out.is_done());
    Ok(())
}
