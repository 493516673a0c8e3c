//! What a process holds by the calls of a record, with the numbers that its descriptors have in the task.

use crate::calls::number_at;
use crate::room::Room;
use crate::trees::Tree;
use records::MadeCall;
use rights::Side;
use rights::limits::MAX_DESCRIPTORS;
use texts::{Page, Say, parts_of, say};

/// What a descriptor is of.
#[derive(Drop)]
pub(crate) enum Holding {
    /// A node, by its place.
    Node(Vec<u8>),
    /// An end of a pair whose other side the world has: one of those that the process begins with, by its number, or a copy of it.
    World { first: u8 },
    /// An end of a pair, and the state of the program in which that was made; 0 of one that was there before.
    End { pair: u32, side: Side, made: usize },
    /// An end of a connection, a pair whose other side the world has. It came through an end with which the process began, told by its number.
    Connection { first: u8, pair: u32 },
}

/// A descriptor of a process.
#[derive(Drop)]
pub(crate) struct Held {
    /// Its number in the task, and in the record where it has one.
    pub number: u8,
    pub real: Option<u32>,
    pub holding: Holding,
    /// The limits that were put on it.
    pub limits: Vec<u8>,
}

/// What a process holds, the least numbers first.
#[derive(Drop)]
pub(crate) struct Table {
    pub held: Vec<Held>,
}

impl Holding {
    /// The same once more.
    pub(crate) fn copy(&self, room: &mut Room) -> Holding {
        match self {
            Holding::Node(place) => Holding::Node(room.copy(place)),
            Holding::World { first } => Holding::World { first: *first },
            Holding::End { pair, side, made } => Holding::End {
                pair: *pair,
                side: *side,
                made: *made,
            },
            Holding::Connection { first, pair } => Holding::Connection {
                first: *first,
                pair: *pair,
            },
        }
    }

    /// The pair that it is an end of, if it is one of a pair that wasn't there at the start.
    fn pair(&self) -> Option<u32> {
        match self {
            Holding::End { pair, .. } | Holding::Connection { pair, .. } => Some(*pair),
            Holding::Node(_) | Holding::World { .. } => None,
        }
    }
}

impl Held {
    /// The same once more.
    fn copy(&self, room: &mut Room) -> Held {
        Held {
            number: self.number,
            real: self.real,
            holding: self.holding.copy(room),
            limits: room.copy(&self.limits),
        }
    }
}

impl Table {
    /// Nothing.
    pub(crate) fn new(room: &Room) -> Table {
        Table { held: room.list() }
    }

    /// The same once more.
    pub(crate) fn copy(&self, room: &mut Room) -> Table {
        let mut held = room.list();
        for one in &self.held {
            let copy = one.copy(room);
            room.push(&mut held, copy);
        }
        Table { held }
    }

    /// What stands at a number of the task.
    pub(crate) fn at(&self, number: u8) -> Option<&Held> {
        for held in &self.held {
            if held.number == number {
                return Some(held);
            }
        }
        None
    }

    /// What stands for a number of the record.
    pub(crate) fn of(&self, real: u32) -> Option<&Held> {
        for held in &self.held {
            if held.real == Some(real) {
                return Some(held);
            }
        }
        None
    }

    /// What stands for a number of the record is of this.
    pub(crate) fn holding_of(&self, real: u32) -> Option<&Holding> {
        match self.of(real) {
            Some(held) => Some(&held.holding),
            None => None,
        }
    }

    /// What a call goes through is of this.
    pub(crate) fn through(&self, made: &MadeCall) -> Option<&Holding> {
        match number_at(made, 0) {
            Some(number) => self.holding_of(number),
            None => None,
        }
    }

    /// The lowest number that is free.
    pub(crate) fn lowest_free(&self) -> Option<u8> {
        for number in 0..MAX_DESCRIPTORS as u8 {
            if self.at(number).is_none() {
                return Some(number);
            }
        }
        None
    }

    /// Notes that a number of the record stands for nothing any more.
    fn forget(&mut self, real: u32) {
        for held in self.held.iter_mut() {
            if held.real == Some(real) {
                held.real = None;
            }
        }
    }

    /// Adds a descriptor at a number that is free.
    pub(crate) fn put(&mut self, room: &mut Room, number: u8, real: u32, holding: Holding) {
        self.forget(real);
        let limits = room.list();
        room.push(
            &mut self.held,
            Held {
                number,
                real: Some(real),
                holding,
                limits,
            },
        );
    }

    /// Adds a copy of a descriptor at a number that is free.
    pub(crate) fn duplicate(&mut self, room: &mut Room, real: u32, number: u8, new: u32) {
        let Some(held) = self.of(real) else {
            return;
        };
        let mut copy = held.copy(room);
        copy.number = number;
        copy.real = Some(new);
        self.forget(new);
        room.push(&mut self.held, copy);
    }

    /// Removes a descriptor.
    pub(crate) fn close(&mut self, real: u32) {
        for at in 0..self.held.len() {
            let is_it = match self.held.get(at) {
                Some(held) => held.real == Some(real),
                None => false,
            };
            if is_it && at < self.held.len() {
                self.held.remove(at);
                return;
            }
        }
    }

    /// Notes what a descriptor is of.
    pub(crate) fn set(&mut self, real: u32, holding: Holding) {
        for at in 0..self.held.len() {
            if let Some(held) = self.held.get_mut(at) {
                if held.real == Some(real) {
                    held.holding = holding;
                    return;
                }
            }
        }
    }

    /// Notes a limit that is put on a descriptor.
    pub(crate) fn limit(&mut self, room: &mut Room, real: u32, limit: &[u8]) {
        for held in self.held.iter_mut() {
            if held.real == Some(real) {
                room.extend(&mut held.limits, limit);
            }
        }
    }

    /// Notes in a tree that the places are there that its descriptors are of.
    pub(crate) fn note_places(&self, room: &mut Room, tree: &mut Tree) {
        for held in &self.held {
            if let Holding::Node(place) = &held.holding {
                tree.begin_with(room, place);
            }
        }
    }

    /// The least number at which an end of a pair stands.
    fn first_of(&self, pair: u32) -> u8 {
        for number in 0..MAX_DESCRIPTORS as u8 {
            if let Some(held) = self.at(number) {
                if held.holding.pair() == Some(pair) {
                    return number;
                }
            }
        }
        0
    }

    /// Adds what a descriptor is of.
    fn add_holding(&self, page: &mut Page, holding: &Holding) {
        match holding {
            Holding::Node(place) => page.bytes(place),
            Holding::World { first } => say!(page; "world ", *first),
            Holding::End { pair, side, made } => {
                let side = match side {
                    Side::A => "a",
                    Side::B => "b",
                };
                say!(page; "pair ", self.first_of(*pair), " ", side, " of ", *made);
            }
            Holding::Connection { first, pair } => {
                say!(page; "connection ", self.first_of(*pair), " of ", *first);
            }
        }
    }

    /// Adds what tells it from other tables. Pairs are told by where they stand in it and where they were made.
    pub(crate) fn add_key(&self, page: &mut Page) {
        for number in 0..MAX_DESCRIPTORS as u8 {
            if let Some(held) = self.at(number) {
                say!(page; number, " ");
                self.add_holding(page, &held.holding);
                say!(page; " ", held.limits.as_slice(), "\n");
            }
        }
    }

    /// Adds the numbers at which descriptors stand, and of which kind they are.
    pub(crate) fn add_kinds(&self, page: &mut Page) {
        for number in 0..MAX_DESCRIPTORS as u8 {
            if let Some(held) = self.at(number) {
                let kind = match held.holding {
                    Holding::Node(_) => " node\n",
                    Holding::World { .. } | Holding::End { .. } | Holding::Connection { .. } =>
                        " end\n",
                };
                say!(page; number, kind);
            }
        }
    }
}
