//! What the numbers of a process stand for, as far as a record tells it.

use rights::Side;

/// How many numbers of a process are followed.
pub(crate) const MAX_FOLLOWED: u32 = 256;

/// What a descriptor is of.
#[derive(Clone, Copy, PartialEq, Eq)]
pub(crate) enum Referent {
    /// It isn't known.
    Unknown,
    /// The node at the place of this number.
    Place(usize),
    /// This end of this pair.
    End(u32, Side),
}

impl Referent {
    /// A number of an end that no other one has; all that is none has 0.
    pub(crate) fn end_number(self) -> u64 {
        match self {
            Referent::Unknown | Referent::Place(_) => 0,
            Referent::End(pair, side) => {
                u64::from(pair) << 2 | if matches!(side, Side::A) { 1 } else { 2 }
            }
        }
    }
}

/// An end of the world's pair.
pub(crate) const WORLD: Referent = Referent::End(0, Side::A);

/// A descriptor that a process holds.
#[derive(Clone, Copy)]
pub(crate) struct Held {
    pub kept: Referent,
    /// Whether it is closed where the process goes on as another program.
    pub closes_on_exec: bool,
    /// The number of the queue of events that watches it.
    pub watched_by: Option<u32>,
}

/// The descriptors of a process, by their numbers.
#[derive(Clone, Copy)]
pub(crate) struct Table {
    slots: [Option<Held>; MAX_FOLLOWED as usize],
}

/// No descriptor.
pub(crate) const NOTHING_HELD: Table = Table {
    slots: [None; MAX_FOLLOWED as usize],
};

impl Table {
    /// Those of a process that begins: 0, 1 and 2 are ends of the world's pair.
    pub(crate) fn first() -> Table {
        let world = Some(Held {
            kept: WORLD,
            closes_on_exec: false,
            watched_by: None,
        });
        let mut table = NOTHING_HELD;
        table.slots[0] = world;
        table.slots[1] = world;
        table.slots[2] = world;
        table
    }

    /// The descriptor of a number, if it is known.
    pub(crate) fn get(&self, number: u32) -> Option<Held> {
        let at = number as usize;
        if at < self.slots.len() {
            self.slots[at]
        } else {
            None
        }
    }

    /// What a number stands for.
    pub(crate) fn kept(&self, number: u32) -> Referent {
        match self.get(number) {
            Some(held) => held.kept,
            None => Referent::Unknown,
        }
    }

    /// Puts a descriptor at a number, or takes that away, if it is one of those that are followed.
    pub(crate) fn put(&mut self, number: u32, held: Option<Held>) {
        let at = number as usize;
        if at < self.slots.len() {
            self.slots[at] = held;
        }
    }

    /// Says whether a descriptor is closed where the process goes on as another program.
    pub(crate) fn set_closing(&mut self, number: u32, closes_on_exec: bool) {
        if let Some(held) = self.get(number) {
            self.put(
                number,
                Some(Held {
                    closes_on_exec,
                    ..held
                }),
            );
        }
    }

    /// Says which queue of events watches a descriptor.
    pub(crate) fn set_watched(&mut self, number: u32, watched_by: Option<u32>) {
        if let Some(held) = self.get(number) {
            self.put(number, Some(Held { watched_by, ..held }));
        }
    }

    /// Whether a queue of events watches a descriptor.
    pub(crate) fn is_watched_by(&self, number: u32, queue: u32) -> bool {
        match self.get(number) {
            Some(held) => held.watched_by == Some(queue),
            None => false,
        }
    }

    /// The first number that is an end of the world's pair, or 0.
    pub(crate) fn world_number(&self) -> u32 {
        for number in 0..MAX_FOLLOWED {
            if matches!(self.kept(number), Referent::End(0, _)) {
                return number;
            }
        }
        0
    }
}
