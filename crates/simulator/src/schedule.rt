//! Schedules: who runs, step by step.

ghost use Rattle.std.specs.Prelude.{◌≡◌, ◌<◌, IfSome, MatchOption, length, option_map};
ghost use Rattle.simulator.specs.FirstEvents.{BeginsWithEvent, BeginsWithFault, BeginsWithNumber};
ghost use Rattle.simulator.specs.Schedules.{event_of_line, schedule_of};
ghost use Rattle.simulator.specs.ScheduleViews.{ReadsSchedule, fault_number};
ghost use Rattle.syscalls.specs.Views.{event_of};
ghost use Rattle.simulator.specs.declared.schedule.ScheduleFault.TheVariants as fault;

use rights::limits::{MAX_EVENTS, MAX_PROCESSES};
use std::alloc::{AllocFailed, Global};
use syscalls::Event;
use texts::{begins_well, first_part, number_up_to};
use thiserror::Error;

/// The bytes of the shortest line of an event, with its line feed.
const SHORTEST_LINE: usize = 4;

/// Why a schedule isn't read.
#[derive(Clone, Copy, Debug, PartialEq, Eq, Error)]
pub enum ScheduleFault {
    /// The first faulty line, counted from 1.
    #[error("line {0} is no event")]
    Line(usize),
    /// There are more than 65536 events.
    #[error("too many events")]
    Limit,
    /// A growth was refused.
    #[error("no memory")]
    Memory,
}

impl ScheduleFault {
    /// The fault's number.
    pub fn number(self) -> u8
        ensures { result ≡ fault_number self }
    {
        match self {
            ScheduleFault::Line(_) => 1,
            ScheduleFault::Limit => 2,
            ScheduleFault::Memory => 3,
        }
    }
}

impl<T: Drop> From<AllocFailed<T>> for ScheduleFault {
    ghost from_gives = { λ _ given. given ≡ fault.Memory };

    fn from(_failed: AllocFailed<T>) -> ScheduleFault {
        ScheduleFault::Memory
    }
}

/// The event that a line stands for.
fn read_event(line: &[u8]) -> Option<Event>
    ensures { option_map event_of result ≡ event_of_line line.now }
{
    let (process, rest) = first_part(line, b' ');
    let (input, rest) = first_part(rest?, b' ');
    let refuse = match rest {
        None => false,
        Some(rest) => {
            let (word, rest) = first_part(rest, b' ');
            if rest.is_some() {
                return None;
            }
            if word != b"refuse".as_slice() {
                return None;
            }
            true
        }
    };
    let process = number_up_to(process, MAX_PROCESSES as u32 - 1).ok()?;
    let input = number_up_to(input, u32::from(u8::MAX)).ok()?;
    Some(Event {
        process: process as u8,
        input: input as u8,
        refuse,
    })
}

/// The number that the text begins with, if it is one digit and this byte ends it, and what is behind the byte.
fn first_digit(text: &[u8], end: u8) -> Option<(u32, &[u8])>
    ensures { IfSome result (λ found. BeginsWithNumber text.now end found.0 found.1.now) }
{
    match text {
        [digit, last, rest @ ..] if digit.is_ascii_digit() && *last == end => Some((
            u32::from(*digit - b'0'),
            rest,
        )),
        _ => None,
    }
}

/// The number below 1000 that the text begins with, if this byte ends it, and what is behind the byte.
fn first_number(text: &[u8], end: u8) -> Option<(u32, &[u8])>
    ensures { IfSome result (λ found. BeginsWithNumber text.now end found.0 found.1.now) }
{
    // Most numbers have one digit.
    let digit = first_digit(text, end);
    if digit.is_some() {
        return digit;
    }
    let mut number: u32 = 0;
    for (at, byte) in text.iter().enumerate() {
        if *byte == end {
            if !begins_well(&text[..at]) {
                return None;
            }
            return Some((number, &text[at + 1..]));
        }
        if !byte.is_ascii_digit() || number >= 100 {
            return None;
        }
        number = number * 10 + u32::from(*byte - b'0');
    }
    None
}

/// The event of the first line, if that is `PROCESS BYTE` as most are, in one pass over it, and what is behind the line.
fn plain_event(text: &[u8]) -> Option<(Event, &[u8])>
    ensures { IfSome result (λ found. BeginsWithEvent text.now (event_of found.0) found.1.now) }
{
    let (process, rest) = first_number(text, b' ')?;
    let (input, rest) = first_number(rest, b'\n')?;
    if process > MAX_PROCESSES as u32 - 1 || input > u32::from(u8::MAX) {
        return None;
    }
    let event = Event {
        process: process as u8,
        input: input as u8,
        refuse: false,
    };
    Some((event, rest))
}

/// The event of the first line, and what is behind the line, or nothing where the line is faulty or isn't ended.
fn first_event(text: &[u8]) -> Option<(Event, &[u8])>
    requires { 0 < length text.now }
    ensures { MatchOption result (BeginsWithFault text.now)
        (λ found. BeginsWithEvent text.now (event_of found.0) found.1.now) }
{
    let plain = plain_event(text);
    if plain.is_some() {
        return plain;
    }
    let (line, rest) = first_part(text, b'\n');
    let rest = rest?;
    let event = read_event(line)?;
    Some((event, rest))
}

/// Reads a schedule: the events that the text stands for, or its first faulty line, or, where no line is faulty, that there are
/// too many.
pub fn read_schedule(alloc: Global, bytes: &[u8]) -> Result<Vec<Event>, ScheduleFault>
    ensures { ReadsSchedule result (schedule_of bytes.now) }
{
    let room = (bytes.len() / SHORTEST_LINE + 1).min(MAX_EVENTS);
    let Ok(mut events) = Vec::with_capacity(alloc, room) else {
        return Err(ScheduleFault::Memory);
    };
    let mut count: usize = 0;
    let mut rest = bytes;
    while !rest.is_empty() {
        let Some((event, behind)) = first_event(rest) else {
            return Err(ScheduleFault::Line(count + 1));
        };
        if count < MAX_EVENTS {
            events.push(event)?;
        }
        count += 1;
        rest = behind;
    }
    if count > MAX_EVENTS {
        return Err(ScheduleFault::Limit);
    }
    Ok(events)
}
