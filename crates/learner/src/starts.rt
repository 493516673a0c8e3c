//! What the first processes of a record begin with.

use crate::assembly::is_writable;
use crate::calls::{answer_of, makes_descriptor, number_at, place_of, wants_node};
use crate::room::Room;
use crate::tables::{Holding, Table};
use crate::trees::Tree;
use records::{Binding, Entry, Event, MadeCall};
use rights::Call;
use rights::limits::MAX_DESCRIPTORS;

/// How many numbers are of the world where nothing else is told: input, output, errors.
const STANDARD: u32 = 3;

/// A number at which a process has what the first one began with at another one, or the same.
#[derive(Clone, Copy)]
struct Inherited {
    process: u32,
    number: u32,
    first: u32,
}

/// What a process begins with, and the numbers that it makes later.
#[derive(Drop)]
struct Beginning {
    table: Table,
    made: Vec<u32>,
    /// Where it and those that it forks still have input, output and errors as it began with them.
    inherited: Vec<Inherited>,
}

/// The number of a descriptor that is told.
fn number_of(binding: &Binding) -> u32 {
    match binding {
        Binding::Place { descriptor, .. } | Binding::End { descriptor, .. } => *descriptor,
    }
}

/// Whether a call shows that its first descriptor is of a file.
fn is_of_file(made: &MadeCall) -> bool {
    wants_node(made.call) && answer_of(made).is_some()
}

/// What a descriptor is of that a call names.
fn first_holding(room: &mut Room, tree: &Tree, made: &MadeCall, number: u32, short: u8) -> Holding {
    if let Some(place) = place_of(made, number) {
        if is_writable(place) {
            return Holding::Node(tree.resolve(room, b"/", place));
        }
    }
    if is_of_file(made) {
        return Holding::Node(room.copy(b"/dev/null"));
    }
    match made.end_of(number) {
        Some(end) if end.pair > 0 => Holding::End {
            pair: end.pair,
            side: end.side,
            made: 0,
        },
        _ => Holding::World { first: short },
    }
}

impl Beginning {
    /// Whether a number is known: as one that the process begins with, or one that it makes.
    fn is_known(&self, number: u32) -> bool {
        self.table.of(number).is_some() || self.made.contains(&number)
    }

    /// Notes that the process begins with a descriptor that a call names.
    fn begin_with(&mut self, room: &mut Room, tree: &Tree, made: &MadeCall, number: u32) {
        let Ok(short) = u8::try_from(number) else {
            return;
        };
        if usize::from(short) < MAX_DESCRIPTORS && !self.is_known(number) {
            let holding = first_holding(room, tree, made, number, short);
            self.table.put(room, short, number, holding);
        }
    }

    /// Notes a number that the process makes.
    fn make(&mut self, room: &mut Room, number: u32) {
        if !self.is_known(number) {
            room.push(&mut self.made, number);
        }
    }

    /// Notes the descriptors of a call: what it makes, and what it names.
    fn add_call(&mut self, room: &mut Room, tree: &Tree, made: &MadeCall) {
        let answer = if makes_descriptor(made.call) {
            answer_of(made)
        } else {
            None
        };
        for binding in &made.bindings {
            let number = number_of(binding);
            if made.call == Call::Socketpair || Some(number) == answer {
                self.make(room, number);
            } else {
                self.begin_with(room, tree, made, number);
            }
        }
        if let Some(answer) = answer {
            self.make(room, answer);
        }
    }

    /// Notes that what the process begins with at a number is of a file.
    fn set_file(&mut self, room: &mut Room, tree: &Tree, made: &MadeCall, number: u32) {
        let short = number.min(STANDARD) as u8;
        let holding = first_holding(room, tree, made, number, short);
        if self.is_known(number) {
            self.table.set(number, holding);
        } else {
            self.table.put(room, short, number, holding);
        }
    }

    /// Notes what a new process inherits.
    fn fork(&mut self, room: &mut Room, process: u32, child: u32) {
        for at in 0..self.inherited.len() {
            match self.inherited.get(at).copied() {
                Some(own) if own.process == process => room.push(
                    &mut self.inherited,
                    Inherited {
                        process: child,
                        ..own
                    },
                ),
                _ => {}
            }
        }
    }

    /// Where a process has at a number what the first one began with, if it has it there.
    fn index_of(&self, process: u32, number: u32) -> Option<usize> {
        for (at, own) in self.inherited.iter().enumerate() {
            if own.process == process && own.number == number {
                return Some(at);
            }
        }
        None
    }

    /// Notes that a number that the process begins with is of a file, if a call of its own shows that, or one of a process that inherited it.
    fn add_file(&mut self, room: &mut Room, tree: &Tree, process: u32, made: &MadeCall) {
        let Some(answer) = answer_of(made) else {
            return;
        };
        if made.call == Call::Fork {
            return self.fork(room, process, answer);
        }
        let Some(number) = number_at(made, 0) else {
            return;
        };
        let Some(at) = self.index_of(process, number) else {
            return;
        };
        let Some(own) = self.inherited.get(at).copied() else {
            return;
        };
        if made.call == Call::Dup {
            let number = answer;
            room.push(&mut self.inherited, Inherited { number, ..own });
        }
        if is_of_file(made) {
            self.set_file(room, tree, made, own.first);
        }
        if made.call == Call::Close && at < self.inherited.len() {
            self.inherited.remove(at);
        }
    }
}

/// What a process of a record begins with: the descriptors that its calls name before they make one of that number, and input, output and
/// errors, which are of the world where no call of the process, or of one that inherits them, tells otherwise.
pub(crate) fn first_table(room: &mut Room, tree: &Tree, entries: &[Entry], process: u32) -> Table {
    let mut beginning = Beginning {
        table: Table::new(room),
        made: room.list(),
        inherited: room.list(),
    };
    for number in 0..STANDARD {
        room.push(
            &mut beginning.inherited,
            Inherited {
                process,
                number,
                first: number,
            },
        );
    }
    for entry in entries {
        if let Event::Called(made) = &entry.event {
            if entry.process == process {
                beginning.add_call(room, tree, made);
            }
            beginning.add_file(room, tree, entry.process, made);
        }
    }
    for number in 0..STANDARD {
        if !beginning.is_known(number) {
            let first = number as u8;
            beginning
                .table
                .put(room, first, number, Holding::World { first });
        }
    }
    beginning.table
}
