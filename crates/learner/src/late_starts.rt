//! Records from the last program on that each of their processes went on as.

use crate::calls::answer_of;
use crate::remade::entry_copy;
use crate::room::Room;
use call_facts::forks;
use records::{Entry, Event, LeftOut, Reason};
use texts::{Page, Say, say};

/// A process, and the entry by which it went on as another program for the last time.
#[derive(Clone, Copy)]
struct LastProgram {
    process: u32,
    /// The last entry that asked for another program, while nothing tells yet what came of it.
    asked: Option<usize>,
    /// The last one that came to something.
    begun: Option<usize>,
}

/// Whether what is left out asks for another program.
fn asks_for_program(left_out: &LeftOut) -> bool {
    left_out.name.as_slice() == b"execve".as_slice()
        || left_out.name.as_slice() == b"execveat".as_slice()
}

impl LastProgram {
    /// Goes on by an entry of the process: where the loader comes behind the asking, another program has begun.
    fn take(&mut self, at: usize, event: &Event) {
        match event {
            Event::Omitted(left_out) if asks_for_program(left_out) => self.asked = Some(at),
            Event::Omitted(_) => {
                if event.is_left_out(Reason::Loader) && self.asked.is_some() {
                    self.begun = self.asked;
                    self.asked = None;
                }
            }
            Event::Called(_) | Event::Ended => self.asked = None,
        }
    }
}

/// Which of some processes this one is; one that isn't known yet is added.
fn position(room: &mut Room, programs: &mut Vec<LastProgram>, process: u32) -> usize {
    for (at, own) in programs.iter().enumerate() {
        if own.process == process {
            return at;
        }
    }
    room.push(
        programs,
        LastProgram {
            process,
            asked: None,
            begun: None,
        },
    );
    programs.len().saturating_sub(1)
}

/// The last program of each process.
fn last_programs(room: &mut Room, entries: &[Entry]) -> Vec<LastProgram> {
    let mut programs = room.list();
    for (at, entry) in entries.iter().enumerate() {
        let position = position(room, &mut programs, entry.process);
        if let Some(own) = programs.get_mut(position) {
            own.take(at, &entry.event);
        }
    }
    programs
}

/// The entry behind which a process is looked at, if it isn't from its first one on.
fn start_of(programs: &[LastProgram], process: u32) -> Option<usize> {
    for own in programs {
        if own.process == process {
            return own.begun;
        }
    }
    None
}

/// The process that an entry makes, if it makes one.
fn child_of(entry: &Entry) -> Option<u32> {
    let Event::Called(made) = &entry.event else {
        return None;
    };
    if forks(made.call) {
        answer_of(made)
    } else {
        None
    }
}

/// Whether an entry is left out: it lies in front of where its process is looked at from, or it makes a process that is looked at from later on.
fn is_left_out(programs: &[LastProgram], at: usize, entry: &Entry) -> bool {
    if let Some(begun) = start_of(programs, entry.process) {
        if at <= begun {
            return true;
        }
    }
    match child_of(entry) {
        Some(child) => start_of(programs, child).is_some(),
        None => false,
    }
}

/// Whether a call that is left out is of a process, or makes it.
fn is_about(entry: &Entry, process: u32) -> bool {
    match &entry.event {
        Event::Called(_) => entry.process == process || child_of(entry) == Some(process),
        Event::Ended | Event::Omitted(_) => false,
    }
}

/// Whether one of these entries, which are left out, is of a process.
fn loses_calls(entries: &[Entry], process: u32) -> bool {
    for entry in entries {
        if is_about(entry, process) {
            return true;
        }
    }
    false
}

/// Tells of each process whose first calls aren't there from which line on it is looked at.
fn add_starts(page: &mut Page, entries: &[Entry], programs: &[LastProgram]) {
    for own in programs {
        let Some(begun) = own.begun else {
            continue;
        };
        let Some(entry) = entries.get(begun) else {
            continue;
        };
        if loses_calls(&entries[..begun], own.process) {
            say!(page; "# Process ", own.process, " is here from line ", entry.span.last, " on, where it goes on as another program for the last time.\n");
        }
    }
}

/// The entries of records from the last program on that each process went on as; it is a first process then. What that leaves out is told on a
/// page, if it is anything.
pub(crate) fn begun_late(
    room: &mut Room,
    records: &[Vec<Entry>],
    told: &mut Page,
) -> Vec<Vec<Entry>> {
    let mut all = room.list();
    for entries in records {
        let programs = last_programs(room, entries);
        add_starts(told, entries, &programs);
        let mut late = room.list();
        for (at, entry) in entries.iter().enumerate() {
            if !is_left_out(&programs, at, entry) {
                let copy = entry_copy(room, entry);
                room.push(&mut late, copy);
            }
        }
        room.push(&mut all, late);
    }
    all
}
