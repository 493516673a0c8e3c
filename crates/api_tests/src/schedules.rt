//! Schedules, as texts.

use crate::base::{BASE, times};
use crate::serving::says;
use simulator::{ScheduleFault, read_schedule};
use std::alloc::Global;
use std::test::Fail;
use syscalls::Event;

/// Whether the program ends so for a schedule of the base task.
fn ends_so(alloc: Global, schedule: &str, status: u8, out: &str, err: &str) -> Result<bool, Fail> {
    let words = &["run", "task", "schedule"];
    let (task, schedule) = (BASE.as_bytes(), schedule.as_bytes());
    let said = says(alloc, words, Some(task), Some(schedule))?;
    Ok(said.is(status, out.as_bytes(), err.as_bytes()))
}

#[test]
fn runs_65536_events(rt: HostRuntime) -> Result<(), Fail> {
    let alloc = rt.alloc();
    let most = times(alloc, "5 0\n", 65_536)?;
    let trace = times(alloc, "5 - none\n", 65_536)?;
    assert!(rt; ends_so(alloc, most.as_str(), 0, trace.as_str(), "")?);
    Ok(())
}

/// Whether one event more is refused so, with something behind it.
fn refuses_more(alloc: Global, behind: &str, err: &str) -> Result<bool, Fail> {
    let mut many = times(alloc, "0 0\n", 65_537)?;
    many.push_str(behind)?;
    ends_so(alloc, many.as_str(), 2, "", err)
}

#[test]
fn runs_no_more_events(rt: HostRuntime) -> Result<(), Fail> {
    let alloc = rt.alloc();
    assert!(rt; refuses_more(alloc, "", "capcheck: schedule 2 Limit\n")?);
    assert!(rt; refuses_more(alloc, "x\n", "capcheck: schedule 1 Line 65538\n")?);
    assert!(rt; refuses_more(alloc, "x", "capcheck: schedule 1 Line 65538\n")?);
    Ok(())
}

#[test]
fn reads_events(rt: HostRuntime) -> Result<(), Fail> {
    let events = read_schedule(rt.alloc(), b"0 0\n15 255 refuse\n")?;
    let expected = [
        Event {
            process: 0,
            input: 0,
            refuse: false,
        },
        Event {
            process: 15,
            input: 255,
            refuse: true,
        },
    ];
    assert!(rt; events.as_slice() == expected.as_slice());
    assert!(rt; ScheduleFault::Line(7).number() == 1);
    assert!(rt; ScheduleFault::Limit.number() == 2);
    assert!(rt; ScheduleFault::Memory.number() == 3);
    Ok(())
}
