//! Digests of a machine's state. Numbers of descriptions and pairs, which nothing shows, count by their first appearance alone, and registers only
//! where a program may still look at them.

use crate::digests::Digest;
use crate::live_registers::LiveRegisters;
use crate::trees::Places;
use bitflags::Flags;
use fd_table::{Class, Description, DescriptionId, Descriptor, End, Files, Object, PairId, Side};
use file_tree::NodeId;
use lookup::Walk;
use process::{Process, Walking};
use rights::Memory;
use rights::limits::{MAX_DESCRIPTORS, MAX_LINKS, MAX_MESSAGES, MAX_PROCESSES};
use shared_tree::SharedTree;
use std::alloc::Global;
use std::mem;

/// How many pairs are open at most: each has two ends.
const MAX_MET: usize = 512;

/// How many names a lookup has left at most: those of its path and of each link's target that it followed.
const MAX_LEFT: usize = 512 * (MAX_LINKS as usize + 1);

/// The descriptor of a process at a number, and what it is of.
pub(crate) fn open_at(files: &Files, process: u8, number: u8) -> Option<(Descriptor, Description)> {
    match files.get(process, number) {
        None => None,
        Some(descriptor) => {
            let what = files.what(descriptor.description);
            Some((descriptor, what))
        }
    }
}

/// The byte of a message of an end, if there is one, and the descriptor that it carries, with what it is of.
fn message_in(
    files: &Files,
    end: &End,
    at: usize,
) -> Option<(u8, Option<(Descriptor, Description)>)> {
    match files.sent(*end).get(at) {
        None => None,
        Some(message) => match message.passed {
            None => Some((message.byte, None)),
            Some(descriptor) => {
                let what = files.what(descriptor.description);
                Some((message.byte, Some((descriptor, what))))
            }
        },
    }
}

/// Some flags as a number.
fn bits_of(flags: [bool; 4]) -> u64 {
    let mut bits = 0;
    for flag in flags {
        bits = (bits << 1) | u64::from(flag);
    }
    bits
}

/// A class as a number.
fn class_number(class: Class) -> u64 {
    match class {
        Class::Initial(number) => u64::from(number),
        Class::MadeAt { program, point } => 1 << 16 | u64::from(program) << 8 | u64::from(point),
        Class::MadeBy { program } => 2 << 16 | u64::from(program),
    }
}

/// The descriptions and pairs that were met, in the order in which they were: room that one digest after another uses.
#[derive(Drop)]
pub(crate) struct Order {
    descriptions: Vec<DescriptionId>,
    pairs: Vec<PairId>,
}

impl Order {
    /// Nothing was met.
    pub(crate) fn new(alloc: Global) -> Order {
        Order {
            descriptions: Vec::new(alloc),
            pairs: Vec::new(alloc),
        }
    }

    /// Lends its room to a digest that begins, or takes it back from one that is made.
    fn exchange(&mut self, met: &mut Met<'_>) {
        self.descriptions.clear();
        self.pairs.clear();
        mem::swap(&mut self.descriptions, &mut met.descriptions);
        mem::swap(&mut self.pairs, &mut met.pairs);
    }
}

/// A state's digest on its way, with what was met so far. Where memory is refused for that, it is noted.
#[derive(Drop)]
struct Met<'s> {
    files: &'s Files,
    tree: &'s SharedTree,
    places: &'s Places,
    registers: &'s LiveRegisters,
    digest: Digest,
    descriptions: Vec<DescriptionId>,
    pairs: Vec<PairId>,
    is_short: bool,
}

impl<'s> Met<'s> {
    /// Adds where a node stands.
    fn add_place(&mut self, node: NodeId) {
        self.places.add_place(&mut self.digest, self.tree, node);
    }

    /// Adds the place of a description among those that were met. Whether it is met for the first time is told.
    fn meets(&mut self, id: DescriptionId) -> bool {
        for (place, other) in self.descriptions.iter().enumerate() {
            if *other == id {
                self.digest.add(place as u64);
                return false;
            }
        }
        self.digest.add(self.descriptions.len() as u64);
        self.is_short = self.descriptions.push(id).is_err() || self.is_short;
        true
    }

    /// Adds the place of a pair.
    fn add_pair(&mut self, id: PairId) {
        for (place, other) in self.pairs.iter().enumerate() {
            if *other == id {
                return self.digest.add(place as u64);
            }
        }
        self.digest.add(self.pairs.len() as u64);
        self.is_short = self.pairs.push(id).is_err() || self.is_short;
    }

    /// Adds a descriptor, with what it is of where its description is met for the first time.
    fn add_descriptor(&mut self, descriptor: Descriptor, what: Description) {
        self.digest.add(
            (u64::from(descriptor.rights.bits()) << 8) | u64::from(descriptor.fcntls.bits()),
        );
        if !self.meets(descriptor.description) {
            return;
        }
        self.digest.add(u64::from(what.offset) << 8 | u64::from(what.status.number()));
        match &what.object {
            Object::Node { node, access } => {
                self.digest
                    .add(bits_of([false, false, access.readable, access.writable]));
                self.add_place(*node);
            }
            Object::End { end, class } => {
                self.digest
                    .add(bits_of([true, false, false, matches!(end.side, Side::B)]));
                self.digest.add(class_number(*class));
                self.add_pair(end.pair);
            }
        }
    }

    /// Adds a lookup under way.
    fn add_walk(&mut self, walk: &Walk) {
        let stand = walk.stand();
        self.digest.add((stand.before.len() as u64) << 8 | u64::from(stand.followed));
        for node in stand.before {
            self.add_place(*node);
        }
        self.add_place(stand.current);
        for at in 0..MAX_LEFT {
            let Some(name) = walk.name_left(at) else {
                break;
            };
            self.digest.add_text(name);
        }
    }

    /// Adds the registers that a process may look at.
    fn add_registers(&mut self, process: &Process) {
        // (an attacker does what it likes, whatever they hold)
        if process.is_hostile() {
            return;
        }
        let (program, point) = (process.program, process.point);
        for (register, value) in process.registers.iter().enumerate() {
            if self.registers.has(program, point, register as u8) {
                self.digest.add(u64::from(*value));
            }
        }
    }

    /// Adds a process, with what its call has under way, and its table.
    fn add_process(&mut self, number: u8, process: &Process) {
        // (of one that has ended nothing is left)
        if !process.alive {
            return self.digest.add(0);
        }
        let flags = bits_of([
            process.mode(),
            true,
            process.is_marked(),
            process.is_walking(),
        ]);
        self.digest.add(
            (u64::from(process.program) << 16) | (u64::from(process.point) << 8) | flags,
        );
        self.add_registers(process);
        match process.walking() {
            None => {}
            Some(Walking::One(walk)) => self.add_walk(walk),
            Some(Walking::Two(first, second)) => {
                self.add_walk(first);
                self.add_walk(second);
            }
        }
        for at in 0..MAX_DESCRIPTORS as u8 {
            if let Some((descriptor, what)) = open_at(self.files, number, at) {
                self.digest.add(u64::from(at));
                self.add_descriptor(descriptor, what);
            }
        }
    }

    /// Adds what is on its way from one end.
    fn add_queue(&mut self, end: End) {
        self.digest.add(u64::MAX);
        for at in 0..MAX_MESSAGES {
            let Some((byte, passed)) = message_in(self.files, &end, at) else {
                break;
            };
            self.digest.add(u64::from(byte));
            if let Some((descriptor, what)) = passed {
                self.add_descriptor(descriptor, what);
            }
        }
    }
}

/// The parts of a machine's state.
#[derive(Clone, Copy)]
pub(crate) struct Parts<'s> {
    pub processes: &'s [Process],
    pub files: &'s Files,
    pub tree: &'s SharedTree,
    /// Where its nodes stand, and its digest.
    pub places: &'s Places,
    pub tree_digest: Digest,
}

/// The digest of a state, in which registers count that programs may look at.
pub(crate) fn digest_of(
    alloc: Global,
    parts: &Parts<'_>,
    registers: &LiveRegisters,
    order: &mut Order,
) -> Result<Digest, Memory> {
    let mut met = Met {
        files: parts.files,
        tree: parts.tree,
        places: parts.places,
        registers,
        digest: parts.tree_digest,
        descriptions: Vec::new(alloc),
        pairs: Vec::new(alloc),
        is_short: false,
    };
    order.exchange(&mut met);
    for (number, process) in parts.processes.iter().enumerate() {
        if number < MAX_PROCESSES {
            met.add_process(number as u8, process);
        }
    }
    // (through what is on its way further pairs may be met)
    for place in 0..MAX_MET {
        let Some(pair) = met.pairs.get(place).copied() else {
            break;
        };
        met.add_queue(End {
            pair,
            side: Side::A,
        });
        met.add_queue(End {
            pair,
            side: Side::B,
        });
    }
    order.exchange(&mut met);
    if met.is_short {
        return Err(Memory);
    }
    Ok(met.digest)
}
