//! The descriptors of a record's processes, each from the call that gives it to the one that closes it.

use crate::calls::{
    answer_of, end_through, number_at, place_of, second_end, second_place, sends_descriptor,
};
use crate::room::Room;
use crate::trees::Tree;
use call_facts::{TableChange, table_change};
use records::{Entry, Event, LeftOut, MadeCall, RecordedEnd};
use rights::Side;

/// How many numbers are input, output and errors.
const STANDARD: u32 = 3;

/// A descriptor of a process.
#[derive(Drop)]
pub(crate) struct Handle {
    pub process: u32,
    pub number: u32,
    /// The place of the node that it is of; none of an end of a pair.
    pub place: Option<Vec<u8>>,
    /// The descriptor whose rights it has: the one that it is a copy of, or the directory beneath which it was opened.
    pub source: Option<usize>,
    /// The entry that gave it; none where its process began with it.
    pub made: Option<usize>,
    /// The entry that closed it.
    pub closed: Option<usize>,
    /// It is the input, output or errors with which a first process began.
    pub is_standard: bool,
    /// It is an end of a connection, which was accepted through its source.
    pub is_connection: bool,
}

/// The descriptors that an entry names, and those that it makes, by their places in the list of them.
#[derive(Clone, Copy)]
pub(crate) struct CallHandles {
    pub first: Option<usize>,
    pub second: Option<usize>,
    /// The first that it makes, and how many.
    pub made: usize,
    pub count: usize,
}

/// A descriptor that was sent.
#[derive(Clone, Copy)]
struct Sent {
    pair: u32,
    from: Side,
    handle: usize,
    is_taken: bool,
}

/// The descriptors of a record, and for each entry which it names and makes.
#[derive(Drop)]
pub(crate) struct Handles {
    pub list: Vec<Handle>,
    pub namings: Vec<CallHandles>,
    /// Those that are open at the entry that is looked at.
    open: Vec<usize>,
    sent: Vec<Sent>,
}

/// Whether what comes through a descriptor is a connection: an end of a pair of its own, through one of the world.
fn comes_as_connection(made: &MadeCall, answer: u32) -> bool {
    match (end_through(made), made.end_of(answer)) {
        (Some(through), Some(own)) => through.pair == 0 && own.pair > 0,
        _ => false,
    }
}

impl Handle {
    /// Whether it is open behind an entry.
    pub(crate) fn is_open_after(&self, entry: usize) -> bool {
        let is_made = match self.made {
            Some(made) => made <= entry,
            None => true,
        };
        let is_closed = match self.closed {
            Some(closed) => closed <= entry,
            None => false,
        };
        is_made && !is_closed
    }
}

impl Handles {
    /// Which descriptor a number of a process is.
    fn position(&self, process: u32, number: u32) -> Option<usize> {
        for at in &self.open {
            if let Some(handle) = self.list.get(*at) {
                if handle.process == process && handle.number == number {
                    return Some(*at);
                }
            }
        }
        None
    }

    /// Notes that a number of a process is closed.
    fn close(&mut self, process: u32, number: u32, entry: usize) {
        let Some(position) = self.position(process, number) else {
            return;
        };
        if let Some(handle) = self.list.get_mut(position) {
            handle.closed = Some(entry);
        }
        for at in 0..self.open.len() {
            if self.open.get(at).copied() == Some(position) && at < self.open.len() {
                self.open.swap_remove(at);
                return;
            }
        }
    }

    /// Adds a descriptor.
    fn add(&mut self, room: &mut Room, handle: Handle) {
        if let Some(entry) = handle.made {
            self.close(handle.process, handle.number, entry);
        }
        let at = self.list.len();
        room.push(&mut self.open, at);
        room.push(&mut self.list, handle);
    }

    /// A descriptor, if it is known.
    pub(crate) fn at(&self, handle: Option<usize>) -> Option<&Handle> {
        match handle {
            Some(handle) => self.list.get(handle),
            None => None,
        }
    }

    /// The place of the node that a descriptor is of.
    pub(crate) fn place_at(&self, handle: Option<usize>) -> Option<&[u8]> {
        match self.at(handle) {
            Some(
                Handle {
                    place: Some(place),
                    ..
                },
            ) => Some(place.as_slice()),
            _ => None,
        }
    }

    /// Whether a descriptor is a process's.
    pub(crate) fn is_of(&self, handle: usize, process: u32) -> bool {
        match self.list.get(handle) {
            Some(own) => own.process == process,
            None => false,
        }
    }

    /// Whether connections come through a descriptor.
    pub(crate) fn is_listened_on(&self, handle: usize) -> bool {
        self.list
            .iter()
            .any(|own| own.is_connection && own.source == Some(handle))
    }

    /// Whether a descriptor is the input, output or errors of a first process.
    pub(crate) fn is_standard(&self, handle: Option<usize>) -> bool {
        match self.at(handle) {
            Some(handle) => handle.is_standard,
            None => false,
        }
    }

    /// What a descriptor comes of.
    pub(crate) fn source_of(&self, handle: usize) -> Option<usize> {
        match self.list.get(handle) {
            Some(own) => own.source,
            None => None,
        }
    }

    /// The place of a descriptor's node once more.
    fn place_of(&self, room: &mut Room, at: Option<usize>) -> Option<Vec<u8>> {
        match self.place_at(at) {
            Some(place) => Some(room.copy(place)),
            None => None,
        }
    }

    /// Whether a process had a descriptor of this number.
    fn had(&self, process: u32, number: u32) -> bool {
        for own in &self.list {
            if own.process == process && own.number == number {
                return true;
            }
        }
        false
    }

    /// The descriptor of a number that a call is given. One that isn't known yet is noted: the process began with it, or if it had another of
    /// that number, a call that is left out gave it.
    fn named(
        &mut self,
        room: &mut Room,
        tree: &Tree,
        entry: &Entry,
        made: &MadeCall,
        operand: usize,
        at: usize,
    ) -> Option<usize> {
        let number = number_at(made, operand)?;
        if let Some(position) = self.position(entry.process, number) {
            return Some(position);
        }
        let is_late = self.had(entry.process, number);
        let is_standard = number < STANDARD && !is_late;
        let place = match place_of(made, number) {
            Some(place) if !is_standard => Some(tree.resolve(room, b"/", place)),
            _ => None,
        };
        if place.is_none() && !is_standard && made.end_of(number).is_none() {
            return None;
        }
        let handle = Handle {
            process: entry.process,
            number,
            place,
            source: None,
            made: if is_late { Some(at) } else { None },
            closed: None,
            is_standard,
            is_connection: false,
        };
        self.add(room, handle);
        Some(self.list.len().saturating_sub(1))
    }

    /// Adds an input, an output or errors that a call wants a right of which is left out, if nothing is known of that number yet.
    fn add_wanted(&mut self, room: &mut Room, process: u32, number: u32) {
        if number >= STANDARD || self.had(process, number) {
            return;
        }
        let handle = Handle {
            process,
            number,
            place: None,
            source: None,
            made: None,
            closed: None,
            is_standard: true,
            is_connection: false,
        };
        self.add(room, handle);
    }

    /// Adds a descriptor that a call makes.
    fn make(
        &mut self,
        room: &mut Room,
        entry: &Entry,
        at: usize,
        number: u32,
        place: Option<Vec<u8>>,
        source: Option<usize>,
    ) {
        let handle = Handle {
            process: entry.process,
            number,
            place,
            source,
            made: Some(at),
            closed: None,
            is_standard: false,
            is_connection: false,
        };
        self.add(room, handle);
    }

    /// Adds a descriptor that comes through one: a connection, with the rights of the one that is listened on, or what was sent.
    fn take(
        &mut self,
        room: &mut Room,
        tree: &Tree,
        entry: &Entry,
        made: &MadeCall,
        at: usize,
        naming: &CallHandles,
        answer: u32,
    ) {
        let place = match place_of(made, answer) {
            Some(place) => Some(tree.resolve(room, b"/", place)),
            None => None,
        };
        let is_connection = comes_as_connection(made, answer);
        let source = if is_connection {
            naming.first
        } else {
            self.receive(made)
        };
        let handle = Handle {
            process: entry.process,
            number: answer,
            place,
            source,
            made: Some(at),
            closed: None,
            is_standard: false,
            is_connection,
        };
        self.add(room, handle);
    }

    /// Notes that a descriptor is sent.
    fn send(&mut self, room: &mut Room, made: &MadeCall, handle: Option<usize>) {
        if let (Some(RecordedEnd { pair, side }), Some(handle)) = (end_through(made), handle) {
            let sent = Sent {
                pair,
                from: side,
                handle,
                is_taken: false,
            };
            room.push(&mut self.sent, sent);
        }
    }

    /// The descriptor that comes by a call.
    fn receive(&mut self, made: &MadeCall) -> Option<usize> {
        let end = end_through(made)?;
        for sent in self.sent.iter_mut() {
            if !sent.is_taken && sent.pair == end.pair && sent.from != end.side {
                sent.is_taken = true;
                return Some(sent.handle);
            }
        }
        None
    }

    /// Adds what a new process has.
    fn fork(&mut self, room: &mut Room, entry: &Entry, at: usize, child: u32) {
        for position in 0..self.list.len() {
            let place = self.place_of(room, Some(position));
            let Some(handle) = self.list.get(position) else {
                break;
            };
            if handle.process == entry.process && handle.is_open_after(at) {
                let copy = Handle {
                    process: child,
                    number: handle.number,
                    place,
                    source: Some(position),
                    made: Some(at),
                    closed: None,
                    is_standard: handle.is_standard,
                    is_connection: false,
                };
                self.add(room, copy);
            }
        }
    }

    /// Notes what a call that succeeded made and closed.
    fn add_answer(
        &mut self,
        room: &mut Room,
        tree: &Tree,
        entry: &Entry,
        made: &MadeCall,
        at: usize,
        naming: &CallHandles,
        answer: u32,
    ) {
        match table_change(made.call) {
            TableChange::Opened | TableChange::Inherited => {
                let place = match place_of(made, answer) {
                    Some(place) => Some(tree.resolve(room, b"/", place)),
                    None => None,
                };
                self.make(room, entry, at, answer, place, naming.first);
            }
            TableChange::Received => self.take(room, tree, entry, made, at, naming, answer),
            TableChange::Copied => {
                let place = self.place_of(room, naming.first);
                self.make(room, entry, at, answer, place, naming.first);
            }
            TableChange::Pair => {
                let (second, _) = second_end(made, answer).unwrap_or((answer, answer));
                self.make(room, entry, at, answer, None, None);
                self.make(room, entry, at, second, None, None);
            }
            TableChange::Child => self.fork(room, entry, at, answer),
            TableChange::Freed => {
                self.close(entry.process, number_at(made, 0).unwrap_or(answer), at);
            }
            TableChange::Limited | TableChange::Unchanged => {}
        }
        if sends_descriptor(made.call) {
            self.send(room, made, naming.second);
        }
    }

    /// Notes what a call names and makes.
    fn add_call(
        &mut self,
        room: &mut Room,
        tree: &Tree,
        entry: &Entry,
        made: &MadeCall,
        at: usize,
    ) -> CallHandles {
        let first = self.named(room, tree, entry, made, 0, at);
        let second = match second_place(made.call) {
            Some(place) => self.named(room, tree, entry, made, place, at),
            None => None,
        };
        let mut naming = CallHandles {
            first,
            second,
            made: self.list.len(),
            count: 0,
        };
        if let Some(answer) = answer_of(made) {
            self.add_answer(room, tree, entry, made, at, &naming, answer);
        }
        naming.count = self.list.len().saturating_sub(naming.made);
        naming
    }

    /// The descriptors of a record.
    pub(crate) fn new(room: &mut Room, tree: &Tree, entries: &[Entry]) -> Handles {
        let mut handles = Handles {
            list: room.list(),
            namings: room.list(),
            open: room.list(),
            sent: room.list(),
        };
        for (at, entry) in entries.iter().enumerate() {
            let mut naming = CallHandles {
                first: None,
                second: None,
                made: handles.list.len(),
                count: 0,
            };
            match &entry.event {
                Event::Called(made) => naming = handles.add_call(room, tree, entry, made, at),
                Event::Omitted(
                    LeftOut {
                        wanted: Some(wanted),
                        ..
                    },
                ) => handles.add_wanted(room, entry.process, wanted.descriptor),
                Event::Omitted(_) | Event::Ended => {}
            }
            room.push(&mut handles.namings, naming);
        }
        handles
    }

    /// Which descriptor a number of a process is behind an entry, if it is known.
    pub(crate) fn position_at(&self, process: u32, number: u32, entry: usize) -> Option<usize> {
        for (at, handle) in self.list.iter().enumerate() {
            if handle.process == process && handle.number == number && handle.is_open_after(entry) {
                return Some(at);
            }
        }
        None
    }

    /// The descriptor that a number of a process is behind an entry, if it is known.
    pub(crate) fn held_at(&self, process: u32, number: u32, entry: usize) -> Option<&Handle> {
        self.list.get(self.position_at(process, number, entry)?)
    }

    /// What an entry names and makes.
    pub(crate) fn naming(&self, at: usize) -> CallHandles {
        match self.namings.get(at) {
            Some(naming) => *naming,
            None => CallHandles {
                first: None,
                second: None,
                made: 0,
                count: 0,
            },
        }
    }
}
