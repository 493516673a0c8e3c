//! The processes of a record, run through the calls that they made, and the automaton that comes of it.

use crate::assembly::{assembly_of, subject_of};
use crate::automata::{Arrival, Automaton, Step};
use crate::calls::{
    answer_of, makes_descriptor, number_at, path_at, path_place, place_given, place_of, second_end,
};
use crate::evidence::place_in;
use crate::needs::{Ends, Need, add_connection, add_need};
use crate::room::Room;
use crate::tables::{Holding, Table};
use crate::trees::Tree;
use call_facts::{TableChange, table_change};
use records::{Entry, Event, MadeCall};
use rights::{Call, Side};
use texts::{Page, Say, parts_of, say};

/// What is remembered in a state.
#[derive(Clone, Copy, PartialEq, Eq)]
pub(crate) enum Level {
    /// What the process holds, its last call, and whether that succeeded.
    LastCall,
    /// What the process holds.
    Table,
    /// At which numbers it holds a node or an end.
    Numbers,
}

/// A process on its way.
#[derive(Drop)]
pub(crate) struct Running {
    /// Its number in the record.
    pub process: u32,
    pub table: Table,
    pub in_mode: bool,
    pub state: usize,
}

/// What the processes are run through.
#[derive(Clone, Copy)]
pub(crate) struct Course<'a> {
    pub entries: &'a [Entry],
    /// For each entry, how many messages it is.
    pub messages: &'a [u32],
    /// For each entry, the offset to which it goes.
    pub offsets: &'a [u32],
    pub tree: &'a Tree,
    pub level: Level,
    /// The program's place among the programs, and the record's among the records.
    pub program: usize,
    pub record: usize,
}

/// The state in which a process is behind an entry.
#[derive(Clone, Copy)]
pub(crate) struct Visit {
    pub record: usize,
    pub process: u32,
    pub entry: usize,
    pub state: usize,
}

/// A connection: its pair, and the number with which a process began that it came through.
#[derive(Clone, Copy)]
struct Accepted {
    record: usize,
    pair: u32,
    first: u8,
}

/// What is learnt of it.
#[derive(Drop)]
pub(crate) struct Learning {
    pub automaton: Automaton,
    pub needs: Vec<Need>,
    /// How many calls are left out since one of their descriptors stands for nothing, or their path can't be written.
    pub left_out: usize,
    /// How many of these are in the mode.
    pub left_in_mode: usize,
    /// A process held more descriptors than one may.
    pub is_over: bool,
    /// The connections that were accepted.
    accepted: Vec<Accepted>,
    /// Where the processes stood behind each of their calls.
    pub visits: Vec<Visit>,
    /// The processes that were forked and weren't run yet.
    forked: Vec<Running>,
}

/// What a new descriptor is of: as the record tells it, else where the call's path leads.
fn holding_of(room: &mut Room, tree: &Tree, made: &MadeCall, answer: u32) -> Holding {
    if let Some(place) = place_of(made, answer) {
        return Holding::Node(tree.resolve(room, b"/", place));
    }
    if let Some(end) = made.end_of(answer) {
        return if end.pair == 0 {
            Holding::World { first: 0 }
        } else {
            Holding::End {
                pair: end.pair,
                side: end.side,
                made: 0,
            }
        };
    }
    let place = match path_place(made.call) {
        Some(at) => place_in(room, tree, made, at),
        None => None,
    };
    match place {
        Some(place) => Holding::Node(place),
        None => Holding::World { first: 0 },
    }
}

/// The place of what a call opens, unless its path says that.
fn opened(room: &mut Room, made: &MadeCall) -> Vec<u8> {
    if !makes_descriptor(made.call) || made.call == Call::Dup {
        return room.list();
    }
    match place_given(made) {
        Some(place) if path_at(made, 0) != Some(place) => room.copy(place),
        _ => room.list(),
    }
}

/// The number with which a process began through which a pair of a record came as a connection, if it did.
fn first_of(accepted: &[Accepted], record: usize, pair: u32) -> Option<u8> {
    for own in accepted {
        if own.record == record && own.pair == pair {
            return Some(own.first);
        }
    }
    None
}

impl Running {
    /// The same, with what it holds at this call, as a new process in a state.
    fn forked(&self, room: &mut Room, process: u32, state: usize) -> Running {
        Running {
            process,
            table: self.table.copy(room),
            in_mode: self.in_mode,
            state,
        }
    }

    /// Takes a new descriptor. Whether there is a number for it is told.
    fn take(&mut self, room: &mut Room, real: u32, holding: Holding) -> bool {
        match self.table.lowest_free() {
            Some(number) => {
                self.table.put(room, number, real, holding);
                true
            }
            None => false,
        }
    }

    /// Takes both ends of a new pair. Whether there are numbers for them is told.
    fn take_pair(&mut self, room: &mut Room, made: &MadeCall, answer: u32) -> bool {
        let (second, pair) = second_end(made, answer).unwrap_or((answer, answer));
        let made = self.state;
        let first = Holding::End {
            pair,
            side: Side::A,
            made,
        };
        let other = Holding::End {
            pair,
            side: Side::B,
            made,
        };
        self.take(room, answer, first) && self.take(room, second, other)
    }

    /// What a descriptor is of that comes by a message: of a connection, if it is an end that comes from the world, or one that another process
    /// has accepted.
    fn received(
        &self,
        room: &mut Room,
        course: &Course<'_>,
        accepted: &[Accepted],
        made: &MadeCall,
        answer: u32,
    ) -> Holding {
        let Some(end) = made.end_of(answer) else {
            return holding_of(room, course.tree, made, answer);
        };
        let first = match self.table.through(made) {
            Some(Holding::World { first }) if end.pair > 0 => Some(*first),
            _ => first_of(accepted, course.record, end.pair),
        };
        match first {
            Some(first) => Holding::Connection {
                first,
                pair: end.pair,
            },
            None => holding_of(room, course.tree, made, answer),
        }
    }

    /// Takes a copy of a descriptor. Whether there is a number for it is told.
    fn take_copy(&mut self, room: &mut Room, real: u32, answer: u32) -> bool {
        match self.table.lowest_free() {
            Some(number) => {
                self.table.duplicate(room, real, number, answer);
                true
            }
            None => false,
        }
    }

    /// Goes on by a call that succeeded with this answer. Whether there are numbers for its descriptors is told.
    fn go_on(
        &mut self,
        room: &mut Room,
        course: &Course<'_>,
        accepted: &[Accepted],
        made: &MadeCall,
        text: &[u8],
        answer: u32,
    ) -> bool {
        let given = number_at(made, 0).unwrap_or(answer);
        match table_change(made.call) {
            TableChange::Opened | TableChange::Inherited => {
                let holding = holding_of(room, course.tree, made, answer);
                return self.take(room, answer, holding);
            }
            TableChange::Received => {
                let holding = self.received(room, course, accepted, made, answer);
                return self.take(room, answer, holding);
            }
            TableChange::Copied => return self.take_copy(room, given, answer),
            TableChange::Pair => return self.take_pair(room, made, answer),
            TableChange::Freed => self.table.close(given),
            TableChange::Limited => self.table.limit(room, given, text),
            TableChange::Child | TableChange::Unchanged => {}
        }
        self.in_mode = self.in_mode || made.call == Call::CapEnter;
        true
    }
}

impl<'a> Course<'a> {
    /// What tells the state from others in which a process stands behind a call.
    fn key(&self, room: &mut Room, running: &Running, last: &[u8], arrival: Arrival) -> Vec<u8> {
        let mut page = Page::new(room.alloc());
        if self.level == Level::Numbers {
            running.table.add_kinds(&mut page);
        } else {
            running.table.add_key(&mut page);
        }
        if running.in_mode {
            page.bytes(b"mode\n");
        }
        if self.level == Level::LastCall {
            let arrival = match arrival {
                Arrival::Success => "done ",
                Arrival::Failure => "failed ",
                Arrival::Child => "child ",
            };
            say!(&mut page; arrival, last);
        }
        room.bytes(page)
    }

    /// The offset to which an entry goes.
    fn offset_of(&self, at: usize) -> u32 {
        match self.offsets.get(at) {
            Some(offset) => *offset,
            None => 0,
        }
    }

    /// How many messages an entry is: one at least.
    fn messages_of(&self, at: usize) -> u32 {
        match self.messages.get(at) {
            Some(messages) => (*messages).max(1),
            None => 1,
        }
    }
}

impl Learning {
    /// Nothing yet.
    pub(crate) fn new(room: &Room) -> Learning {
        Learning {
            automaton: Automaton::new(room),
            needs: room.list(),
            left_out: 0,
            left_in_mode: 0,
            accepted: room.list(),
            is_over: false,
            visits: room.list(),
            forked: room.list(),
        }
    }

    /// The state behind a call.
    fn next(
        &mut self,
        room: &mut Room,
        course: &Course<'_>,
        running: &Running,
        text: &[u8],
        arrival: Arrival,
    ) -> usize {
        let key = course.key(room, running, text, arrival);
        self.automaton.at(room, key)
    }

    /// Notes that a call has come back so, and gives the state behind it.
    fn arrive(
        &mut self,
        room: &mut Room,
        course: &Course<'_>,
        running: &Running,
        from: &Step,
        arrival: Arrival,
    ) -> usize {
        let next = self.next(room, course, running, &from.text, arrival);
        let step = Step {
            text: room.copy(&from.text),
            call: from.call,
            about: room.copy(&from.about),
            line: from.line,
            place: room.copy(&from.place),
        };
        self.automaton.add(room, running.state, step, arrival, next);
        next
    }

    /// Notes that a process was made.
    fn fork(
        &mut self,
        room: &mut Room,
        course: &Course<'_>,
        running: &Running,
        step: &Step,
        child: u32,
    ) {
        let state = self.arrive(room, course, running, step, Arrival::Child);
        let forked = running.forked(room, child, state);
        room.push(&mut self.forked, forked);
    }

    /// Notes what a call asks of the world.
    fn note_need(&mut self, room: &mut Room, course: &Course<'_>, table: &Table, made: &MadeCall) {
        let program = course.program;
        let ends = match table.through(made) {
            Some(Holding::World { first }) => Ends::Own {
                program,
                first: *first,
            },
            Some(Holding::Connection { first, .. }) => Ends::Connections {
                program,
                first: *first,
            },
            _ => return,
        };
        add_need(room, &mut self.needs, ends, made);
    }

    /// Notes that a connection came, if a call gave one.
    fn note_connection(
        &mut self,
        room: &mut Room,
        course: &Course<'_>,
        table: &Table,
        made: &MadeCall,
        answer: u32,
    ) {
        if made.call != Call::Recvfd {
            return;
        }
        if let Some(Holding::Connection { first, pair }) = table.holding_of(answer) {
            let ends = Ends::Connections {
                program: course.program,
                first: *first,
            };
            add_connection(room, &mut self.needs, ends);
            let accepted = Accepted {
                record: course.record,
                pair: *pair,
                first: *first,
            };
            room.push(&mut self.accepted, accepted);
        }
    }

    /// Goes on by a call of a process.
    fn step(
        &mut self,
        room: &mut Room,
        course: &Course<'_>,
        running: &mut Running,
        made: &MadeCall,
        at: usize,
        line: u32,
    ) {
        let Some(text) = assembly_of(room, &running.table, made, course.offset_of(at)) else {
            self.left_out = self.left_out.saturating_add(1);
            if running.in_mode {
                self.left_in_mode = self.left_in_mode.saturating_add(1);
            }
            return;
        };
        let step = Step {
            about: subject_of(room, &running.table, made),
            call: made.call.name(),
            text,
            line,
            place: opened(room, made),
        };
        self.note_need(room, course, &running.table, made);
        let arrival = match answer_of(made) {
            Some(answer) => {
                if !running.go_on(room, course, &self.accepted, made, &step.text, answer) {
                    self.is_over = true;
                }
                self.note_connection(room, course, &running.table, made, answer);
                if made.call == Call::Fork {
                    self.fork(room, course, running, &step, answer);
                }
                Arrival::Success
            }
            None => Arrival::Failure,
        };
        running.state = self.arrive(room, course, running, &step, arrival);
    }

    /// Goes on by an entry of a process. Whether the process ends is told.
    fn take(
        &mut self,
        room: &mut Room,
        course: &Course<'_>,
        running: &mut Running,
        at: usize,
        entry: &Entry,
    ) -> bool {
        match &entry.event {
            Event::Omitted(_) => false,
            Event::Ended => {
                self.automaton.end(running.state);
                true
            }
            Event::Called(made) => {
                for _ in 0..course.messages_of(at) {
                    self.step(room, course, running, made, at, entry.span.first);
                }
                let visit = Visit {
                    record: course.record,
                    process: running.process,
                    entry: at,
                    state: running.state,
                };
                room.push(&mut self.visits, visit);
                false
            }
        }
    }

    /// Runs a process through its calls.
    fn run_one(&mut self, room: &mut Room, course: &Course<'_>, mut running: Running) {
        for (at, entry) in course.entries.iter().enumerate() {
            if entry.process == running.process
                && self.take(room, course, &mut running, at, entry)
            {
                break;
            }
        }
    }

    /// Runs a process that begins with this table, and those that it makes, through their calls.
    pub(crate) fn run(&mut self, room: &mut Room, course: &Course<'_>, process: u32, table: Table) {
        let mut running = Running {
            process,
            table,
            in_mode: false,
            state: 0,
        };
        running.state = self.next(room, course, &running, b"start", Arrival::Success);
        self.run_one(room, course, running);
        for _ in 0..course.entries.len() {
            let Some(forked) = self.forked.pop() else {
                break;
            };
            self.run_one(room, course, forked);
        }
    }
}
