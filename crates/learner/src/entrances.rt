//! Where the processes of records enter the mode, and which calls they make in it.

use crate::calls::answer_of;
use crate::room::Room;
use crate::running::{Learning, Visit};
use call_facts::forks;
use records::{Entry, Event, MadeCall};
use rights::Call;

/// A process, and the entry behind which it enters the mode.
#[derive(Clone, Copy)]
pub(crate) struct Entrance {
    pub process: u32,
    pub entry: usize,
}

/// Where the processes of a record enter the mode.
#[derive(Drop)]
pub(crate) struct Entrances {
    pub list: Vec<Entrance>,
    /// For each entry, whether its process is in the mode.
    modes: Vec<bool>,
}

/// The entry of a line: the last one that begins or ends there.
pub(crate) fn entry_of(entries: &[Entry], line: u32) -> Option<usize> {
    for (at, entry) in entries.iter().enumerate().rev() {
        if entry.span.first == line || entry.span.last == line {
            return Some(at);
        }
    }
    None
}

/// The process that made another one.
fn parent_of(entries: &[Entry], process: u32) -> Option<u32> {
    for entry in entries {
        if let Event::Called(made) = &entry.event {
            if made.call == Call::Fork && answer_of(made) == Some(process) {
                return Some(entry.process);
            }
        }
    }
    None
}

/// The place among a record's first processes of the one of which a process comes.
pub(crate) fn program_of(room: &mut Room, entries: &[Entry], process: u32) -> Option<usize> {
    let mut first = process;
    for _ in 0..entries.len() {
        match parent_of(entries, first) {
            Some(parent) => first = parent,
            None => break,
        }
    }
    for (at, own) in room.processes(entries).iter().enumerate() {
        if *own == first {
            return Some(at);
        }
    }
    None
}

/// The state in which a process of a record is behind an entry.
pub(crate) fn state_behind(
    learning: &Learning,
    record: usize,
    process: u32,
    entry: usize,
) -> Option<usize> {
    let mut state = None;
    for visit in &learning.visits {
        if visit.record == record && visit.process == process && visit.entry <= entry {
            state = Some(visit.state);
        }
    }
    state
}

impl Entrances {
    /// Whether a process enters the mode behind an entry.
    pub(crate) fn enters(&self, process: u32, entry: usize) -> bool {
        for own in &self.list {
            if own.process == process && own.entry == entry {
                return true;
            }
        }
        false
    }

    /// Whether an entry is of a process in the mode.
    pub(crate) fn is_in_mode(&self, entry: usize) -> bool {
        self.modes.get(entry).copied() == Some(true)
    }

    /// Whether none enters.
    pub(crate) fn is_empty(&self) -> bool {
        self.list.is_empty()
    }

    /// With nobody in the mode yet.
    pub(crate) fn new(room: &Room) -> Entrances {
        Entrances {
            list: room.list(),
            modes: room.list(),
        }
    }

    /// Adds that a process enters, if it wasn't told of another place.
    pub(crate) fn add(&mut self, room: &mut Room, process: u32, entry: usize) {
        for own in &self.list {
            if own.process == process {
                return;
            }
        }
        room.push(&mut self.list, Entrance { process, entry });
    }

    /// Adds those of a record that come to a state.
    pub(crate) fn add_visits(
        &mut self,
        room: &mut Room,
        visits: &[Visit],
        record: usize,
        state: usize,
    ) {
        for visit in visits {
            if visit.record == record && visit.state == state {
                self.add(room, visit.process, visit.entry);
            }
        }
    }

    /// Leaves out an entrance of a process that is in the mode already.
    fn leave_out(&mut self, process: u32) {
        for at in 0..self.list.len() {
            if self.list[at].process == process {
                self.list.remove(at);
                return;
            }
        }
    }

    /// Notes a call of a process: whether it brings a process into the mode.
    fn pass(
        &mut self,
        room: &mut Room,
        inside: &mut Vec<u32>,
        entry: &Entry,
        made: &MadeCall,
        is_inside: bool,
    ) {
        let Some(answer) = answer_of(made) else {
            return;
        };
        if is_inside && forks(made.call) {
            room.push(inside, answer);
            self.leave_out(answer);
        }
        if !is_inside && made.call == Call::CapEnter {
            room.push(inside, entry.process);
        }
    }

    /// Notes which entries are of processes in the mode.
    pub(crate) fn settle(&mut self, room: &mut Room, entries: &[Entry]) {
        let mut inside = room.list();
        for (at, entry) in entries.iter().enumerate() {
            let is_inside = inside.contains(&entry.process);
            room.push(&mut self.modes, is_inside);
            if let Event::Called(made) = &entry.event {
                self.pass(room, &mut inside, entry, made, is_inside);
            }
            if self.enters(entry.process, at) {
                if is_inside {
                    self.leave_out(entry.process);
                } else {
                    room.push(&mut inside, entry.process);
                }
            }
        }
    }
}
