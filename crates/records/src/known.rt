//! What is known where a process makes a call: the process, and the places and the pairs of sockets that the record has told.

ghost use Rattle.std.specs.Prelude.{◌≡◌, IfOk, OnOk, map, true};
ghost use Rattle.std.specs.List.{list_all};
ghost use Rattle.records.specs.Calls.{is_binding};
ghost use Rattle.records.specs.EntryViews.{binding_seen};

use crate::argument_values::{Mention, behind, place_note, socket_inode};
use crate::entries::Binding;
use crate::held::{Held, Referent, WORLD};
use crate::processes::Process;
use crate::strace::System;
use crate::strings::add_unescaped;
use rights::Side;
use std::alloc::{AllocError, Global};
use std::collections::BTreeMap;
use texts::Page;

/// How long a place is that is kept, at most.
const MAX_PLACE: usize = 4096;

/// Up to two descriptors of which a call tells what they are.
pub(crate) type About<'t> = [Option<Mention<'t>>; 2];

/// A descriptor that was sent: from which side of which pair, and what it is of.
#[derive(Clone, Copy)]
struct Passed {
    pair: u32,
    from: Side,
    kept: Referent,
}

/// What is known where a process makes a call.
#[derive(Drop)]
pub(crate) struct Known {
    pub alloc: Global,
    /// The system whose call it is.
    pub system: System,
    /// The process that makes it.
    pub process: Process,
    places: Vec<Page>,
    /// How many pairs there are: 0 is the world's.
    pairs: u32,
    /// The ends of pairs by the numbers that the record notes.
    ends: BTreeMap<u32, Referent>,
    /// The descriptors that were sent and not received yet, in their order.
    passed: Vec<Passed>,
    /// The ends that don't wait, by their numbers.
    nonblocking: BTreeMap<u64, ()>,
    /// Whether memory was refused for something that should be known.
    pub is_short: bool,
}

impl Known {
    /// Nothing, and no process.
    pub(crate) fn new(alloc: Global) -> Known {
        Known {
            alloc,
            system: System::Linux,
            process: Process::new(0),
            places: Vec::new(alloc),
            pairs: 0,
            ends: BTreeMap::new(alloc),
            passed: Vec::new(alloc),
            nonblocking: BTreeMap::new(alloc),
            is_short: false,
        }
    }

    /// The place of a node, if it is one.
    pub(crate) fn place_of(&self, kept: Referent) -> Option<&Page> {
        match kept {
            Referent::Place(number) => self.places.get(number),
            Referent::Unknown | Referent::End(_, _) => None,
        }
    }

    /// Notes whether memory was refused for a text that should be known.
    pub(crate) fn note(&mut self, page: &Page) {
        if page.finish().is_err() {
            self.is_short = true;
        }
    }

    /// Keeps a place, if it isn't too long.
    pub(crate) fn keep(&mut self, place: Page) -> Referent {
        self.note(&place);
        if place.as_bytes().len() > MAX_PLACE {
            return Referent::Unknown;
        }
        let number = self.places.len();
        if self.places.push(place).is_err() {
            self.is_short = true;
        }
        Referent::Place(number)
    }

    /// The number of a new pair.
    pub(crate) fn new_pair(&mut self) -> u32 {
        self.pairs = self.pairs.saturating_add(1);
        self.pairs
    }

    /// Whether what a descriptor is of waits, as far as is known, as each node does.
    pub(crate) fn waits(&mut self, mention: Mention<'_>) -> bool {
        if self.is_node(mention) {
            return true;
        }
        let kept = self.kept_of(mention);
        self.nonblocking.get(&kept.end_number()).is_none()
    }

    /// Notes whether what a descriptor is of waits.
    pub(crate) fn set_waiting(&mut self, mention: Mention<'_>, waits: bool) {
        if self.is_node(mention) {
            return;
        }
        let number = self.kept_of(mention).end_number();
        if waits {
            self.nonblocking.remove(&number);
        } else if self.nonblocking.insert(number, ()).is_err() {
            self.is_short = true;
        }
    }

    /// Notes that a descriptor is sent through an end of a pair.
    pub(crate) fn pass(&mut self, socket: Mention<'_>, sent: Mention<'_>) {
        if let Referent::End(pair, from) = self.kept_of(socket) {
            let kept = self.kept_of(sent);
            if self.passed.push(Passed { pair, from, kept }).is_err() {
                self.is_short = true;
            }
        }
    }

    /// What a descriptor is of that is received through an end of a pair: what its note tells, or else what was sent first, of what wasn't received
    /// yet.
    pub(crate) fn received(&mut self, socket: Mention<'_>, received: Mention<'_>) -> Referent {
        let noted = self.kept_of_note(received.note);
        let Referent::End(pair, side) = self.kept_of(socket) else {
            return noted;
        };
        for at in 0..self.passed.len() {
            let own = self.passed[at];
            if own.pair == pair && !own.from.is(side) {
                self.passed.remove(at);
                return match (noted, own.kept) {
                    (Referent::End(0, _) | Referent::Unknown, kept) if kept != Referent::Unknown =>
                        kept,
                    _ => noted,
                };
            }
        }
        noted
    }

    /// Notes which end a socket is.
    pub(crate) fn note_end(&mut self, note: &[u8], end: Referent) {
        if let Some(inode) = socket_inode(note) {
            if self.ends.insert(inode, end).is_err() {
                self.is_short = true;
            }
        }
    }

    /// Which end a note tells: one of the world's pair where it tells none that is known.
    fn end_of_note(&self, note: &[u8]) -> Referent {
        match socket_inode(note) {
            Some(inode) => self.ends.get(&inode).copied().unwrap_or(WORLD),
            None => WORLD,
        }
    }

    /// What a note says of a descriptor that was not known before.
    pub(crate) fn kept_of_note(&mut self, note: &[u8]) -> Referent {
        let Some(noted) = place_note(note) else {
            return if note.is_empty() {
                Referent::Unknown
            } else {
                self.end_of_note(note)
            };
        };
        let mut place = Page::new(self.alloc);
        add_unescaped(&mut place, noted);
        self.keep(place)
    }

    /// What a descriptor is of, or else what its note tells.
    pub(crate) fn kept_of(&mut self, mention: Mention<'_>) -> Referent {
        match self.process.table.kept(mention.number) {
            Referent::Unknown => self.kept_of_note(mention.note),
            kept => kept,
        }
    }

    /// Whether a descriptor is an end of a pair.
    pub(crate) fn is_end(&self, mention: Mention<'_>) -> bool {
        match self.process.table.kept(mention.number) {
            Referent::End(_, _) => true,
            Referent::Place(_) => false,
            Referent::Unknown => is_end_note(mention.note),
        }
    }

    /// Whether a descriptor is of a node.
    pub(crate) fn is_node(&self, mention: Mention<'_>) -> bool {
        match self.process.table.kept(mention.number) {
            Referent::Place(_) => true,
            Referent::End(_, _) => false,
            Referent::Unknown => place_note(mention.note).is_some(),
        }
    }

    /// Puts a descriptor at a number of the process.
    pub(crate) fn hold(&mut self, number: u32, kept: Referent, closes_on_exec: bool) {
        self.process.table.put(
            number,
            Some(Held {
                kept,
                closes_on_exec,
                watched_by: None,
            }),
        );
    }

    /// Takes a number of the world's pair for the node that its note tells, since it has an offset.
    pub(crate) fn take_for_file(&mut self, mention: Mention<'_>) {
        let note = mention.note;
        let is_world = matches!(self.process.table.kept(mention.number), Referent::End(0, _));
        let is_device = behind(note, b"<char ").is_some()
            || behind(note, b"<block ").is_some()
            || note.starts_with(b"/memfd:");
        if is_world && !is_device && place_note(note).is_some() {
            let kept = self.kept_of_note(note);
            self.hold(mention.number, kept, false);
        }
    }

    /// What a descriptor is of: where it isn't known to be an end, its note counts.
    fn kept_or_noted(&self, mention: Mention<'_>) -> Referent {
        match self.process.table.kept(mention.number) {
            Referent::Unknown | Referent::Place(_) if is_end_note(mention.note) => {
                self.end_of_note(mention.note)
            }
            kept => kept,
        }
    }

    /// The place that a note tells, or else that which is known.
    fn noted_place(&self, note: &[u8], kept: Referent) -> Option<Page> {
        let mut place = Page::new(self.alloc);
        if let Some(noted) = place_note(note) {
            add_unescaped(&mut place, noted);
        } else if let Some(known) = self.place_of(kept) {
            place.page(known);
        } else {
            return None;
        }
        Some(place)
    }

    /// Adds what a descriptor is, if there is one and it is known.
    fn bind(
        &self,
        bindings: &mut Vec<Binding>,
        mention: Option<Mention<'_>>,
    ) -> Result<(), AllocError>
        requires { list_all is_binding (map binding_seen bindings.old.items) ≡ true }
        ensures { OnOk result (list_all is_binding (map binding_seen bindings.new.items) ≡ true) }
    {
        let Some(mention) = mention else {
            return Ok(());
        };
        let descriptor = mention.number;
        let kept = self.kept_or_noted(mention);
        if let Referent::End(pair, side) = kept {
            bindings.push(Binding::End {
                descriptor,
                pair,
                side,
            })?;
            return Ok(());
        }
        if let Some(place) = self.noted_place(mention.note, kept) {
            bindings.push(place_binding(descriptor, place.into_bytes()?))?;
        }
        Ok(())
    }

    /// What descriptors are, as far as it is known.
    pub(crate) fn bindings_of(&self, about: About<'_>) -> Result<Vec<Binding>, AllocError>
        ensures { IfOk result (λ bindings. list_all is_binding (map binding_seen bindings.items) ≡ true) }
    {
        let mut bindings = Vec::new(self.alloc);
        self.bind(&mut bindings, about[0])?;
        self.bind(&mut bindings, about[1])?;
        Ok(bindings)
    }
}

/// That a descriptor is of a place.
fn place_binding(descriptor: u32, place: Vec<u8>) -> Binding
    ensures { is_binding (binding_seen result) ≡ true }
{
    Binding::Place { descriptor, place }
}

/// Whether a note tells something that is no node.
fn is_end_note(note: &[u8]) -> bool {
    match note {
        [first, ..] => *first != b'/',
        [] => false,
    }
}
