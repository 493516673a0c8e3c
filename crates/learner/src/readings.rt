//! How much of each file a record reads.

use crate::calls::{answer_of, number_at, place_of};
use crate::room::Room;
use crate::starts::first_table;
use crate::tables::{Holding, Table};
use crate::trees::Tree;
use call_facts::{Answer, Passed, TableChange, passed_by, table_change};
use records::{Entry, Event, MadeCall};

/// How far a file was read: in the record's bytes, and in reads, which are the task's bytes.
#[derive(Clone, Copy)]
struct Progress {
    position: u32,
    count: u32,
}

/// A file that was opened: how far it is read or written, and where its reads and writes have ended.
#[derive(Drop)]
struct Reading {
    place: Vec<u8>,
    now: Progress,
    ends: Vec<Progress>,
    /// Up to which offset in the task it was written.
    written: u32,
}

/// Before the first byte.
const BEGINNING: Progress = Progress {
    position: 0,
    count: 0,
};

impl Reading {
    /// Goes on by so many bytes, read or written at once.
    fn go_on(&mut self, room: &mut Room, bytes: u32) {
        if bytes > 0 {
            self.now.position = self.now.position.saturating_add(bytes);
            self.now.count = self.now.count.saturating_add(1);
            room.push(&mut self.ends, self.now);
        }
    }

    /// Goes to a position of the record's. The offset in the task is told: that of the last end which isn't behind the position, or the beginning.
    fn seek(&mut self, position: u32) -> u32 {
        if position == self.now.position {
            return self.now.count;
        }
        let mut last = BEGINNING;
        for end in &self.ends {
            if last.position <= end.position && end.position <= position {
                last = *end;
            }
        }
        self.now = Progress {
            position,
            count: last.count,
        };
        last.count
    }
}

/// A descriptor of a process, and which of the files that were opened it is of.
#[derive(Clone, Copy)]
struct Reader {
    process: u32,
    number: u32,
    reading: usize,
}

/// What was opened so far.
#[derive(Drop)]
struct Readings {
    readings: Vec<Reading>,
    readers: Vec<Reader>,
}

impl Readings {
    /// Which reader a descriptor is.
    fn position(&self, process: u32, number: u32) -> Option<usize> {
        for (at, reader) in self.readers.iter().enumerate() {
            if reader.process == process && reader.number == number {
                return Some(at);
            }
        }
        None
    }

    /// Which file a descriptor is of.
    fn reading_of(&self, process: u32, number: u32) -> Option<usize> {
        let at = self.position(process, number)?;
        Some(self.readers.get(at)?.reading)
    }

    /// Notes that a descriptor is closed.
    fn close(&mut self, process: u32, number: u32) {
        if let Some(at) = self.position(process, number) {
            if at < self.readers.len() {
                self.readers.swap_remove(at);
            }
        }
    }

    /// Notes which file a new descriptor is of.
    fn bind(&mut self, room: &mut Room, process: u32, number: u32, reading: usize) {
        self.close(process, number);
        room.push(
            &mut self.readers,
            Reader {
                process,
                number,
                reading,
            },
        );
    }

    /// Notes that a descriptor is of a file at its beginning.
    fn begin(&mut self, room: &mut Room, place: Vec<u8>, process: u32, number: u32) {
        let reading = self.readings.len();
        self.bind(room, process, number, reading);
        let ends = room.list();
        room.push(
            &mut self.readings,
            Reading {
                place,
                now: BEGINNING,
                ends,
                written: 0,
            },
        );
    }

    /// Notes the files that a process begins with, also one that later calls tell of alone.
    fn begin_all(&mut self, room: &mut Room, table: &Table, process: u32) {
        for held in &table.held {
            if let (Holding::Node(place), Some(number)) = (&held.holding, held.real) {
                let place = room.copy(place);
                self.begin(room, place, process, number);
            }
        }
    }

    /// Notes that a file was opened as a descriptor.
    fn open(&mut self, room: &mut Room, tree: &Tree, made: &MadeCall, process: u32, number: u32) {
        self.close(process, number);
        if let Some(place) = place_of(made, number) {
            let place = tree.resolve(room, b"/", place);
            self.begin(room, place, process, number);
        }
    }

    /// Notes that a new process has what another one has.
    fn fork(&mut self, room: &mut Room, process: u32, child: u32) {
        for at in 0..self.readers.len() {
            if let Some(reader) = self.readers.get(at) {
                let reader = *reader;
                if reader.process == process {
                    self.bind(room, child, reader.number, reader.reading);
                }
            }
        }
    }

    /// Notes how many bytes came. What was written isn't of the file's first bytes, but what stands behind it is.
    fn read(&mut self, room: &mut Room, tree: &mut Tree, reading: usize, bytes: u32) {
        if let Some(reading) = self.readings.get_mut(reading) {
            reading.go_on(room, bytes);
            if reading.now.count > reading.written {
                tree.read(&reading.place, reading.now.count as usize);
            }
        }
    }

    /// Notes how many bytes were written.
    fn write(&mut self, room: &mut Room, reading: usize, bytes: u32) {
        if let Some(reading) = self.readings.get_mut(reading) {
            reading.go_on(room, bytes);
            reading.written = reading.written.max(reading.now.count);
        }
    }

    /// Goes to a position. The offset in the task is told.
    fn seek(&mut self, reading: usize, position: u32) -> u32 {
        match self.readings.get_mut(reading) {
            Some(reading) => reading.seek(position),
            None => 0,
        }
    }

    /// The file that the descriptor of a call is of; one that the process had from the start is noted.
    fn own(
        &mut self,
        room: &mut Room,
        tree: &Tree,
        made: &MadeCall,
        process: u32,
    ) -> Option<usize> {
        let number = number_at(made, 0)?;
        if self.position(process, number).is_none() {
            self.open(room, tree, made, process, number);
        }
        self.reading_of(process, number)
    }

    /// Notes a call that succeeded with this answer. The offset to which it goes in the task is told, or 0.
    fn add(
        &mut self,
        room: &mut Room,
        tree: &mut Tree,
        made: &MadeCall,
        process: u32,
        answer: u32,
    ) -> u32 {
        match table_change(made.call) {
            TableChange::Opened | TableChange::Inherited | TableChange::Received => {
                self.open(room, tree, made, process, answer);
                0
            }
            TableChange::Copied => {
                if let Some(reading) = self.own(room, tree, made, process) {
                    self.bind(room, process, answer, reading);
                }
                0
            }
            TableChange::Freed => {
                self.close(process, number_at(made, 0).unwrap_or(answer));
                0
            }
            TableChange::Child => {
                self.fork(room, process, answer);
                0
            }
            TableChange::Pair | TableChange::Limited => 0,
            TableChange::Unchanged => self.go_on(room, tree, made, process, answer),
        }
    }

    /// Notes a call that reads, writes or seeks, if it is one, with this answer. The offset to which it goes in the task is told, or 0.
    fn go_on(
        &mut self,
        room: &mut Room,
        tree: &mut Tree,
        made: &MadeCall,
        process: u32,
        answer: u32,
    ) -> u32 {
        let (passed, gives) = (passed_by(made.call), call_facts::answer_of(made.call));
        if passed == Passed::Nothing && gives != Answer::Offset {
            return 0;
        }
        let Some(reading) = self.own(room, tree, made, process) else {
            return 0;
        };
        match passed {
            Passed::ByteIn => self.read(room, tree, reading, answer),
            Passed::ByteOut => self.write(room, reading, answer),
            Passed::Nothing => return self.seek(reading, answer),
            Passed::DescriptorIn | Passed::DescriptorOut => {}
        }
        0
    }
}

/// Notes in the tree how many reads of each file come one after another, and tells for each entry the offset to which it goes in the task,
/// where it goes to one, and else 0.
pub(crate) fn offsets_of(room: &mut Room, tree: &mut Tree, entries: &[Entry]) -> Vec<u32> {
    let mut readings = Readings {
        readings: room.list(),
        readers: room.list(),
    };
    for process in &room.processes(entries) {
        let table = first_table(room, tree, entries, *process);
        table.note_places(room, tree);
        readings.begin_all(room, &table, *process);
    }
    let mut offsets = room.list();
    for entry in entries {
        let mut offset = 0u32;
        if let Event::Called(made) = &entry.event {
            if let Some(answer) = answer_of(made) {
                offset = readings.add(room, tree, made, entry.process, answer);
            }
        }
        room.push(&mut offsets, offset);
    }
    offsets
}
