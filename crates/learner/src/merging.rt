//! Names with which the same is done, as one name: those of one directory, and one that was looked for in several in vain.

use crate::assembly::is_writable;
use crate::calls::{flags_of, path_at, path_place, place_given, removes_directory};
use crate::learning::tree_of;
use crate::places::{above, ends_at_directory, last_name, lies_beneath};
use crate::remade::entry_copy;
use crate::room::Room;
use crate::trees::Tree;
use call_facts::sets::add_flags;
use call_facts::{Passed, TableChange, passed_by, table_change};
use records::{Binding, Entry, Event, MadeCall, Operand, Outcome};
use texts::{Page, Say, parts_of, say};

/// What lies at the place `real` of the records stands at the place `model` of what is learnt.
#[derive(Drop)]
pub struct Renaming {
    pub real: Vec<u8>,
    pub model: Vec<u8>,
}

/// A name, by its place.
#[derive(Drop)]
struct Name {
    place: Vec<u8>,
    /// What was done with it, each once: the call, what it was given beside, and what it came to.
    facts: Vec<Vec<u8>>,
    /// How many bytes it has, as far as is known.
    length: usize,
    /// The place among the names of the one that it led to, where it led elsewhere.
    leads_to: Option<usize>,
    /// The place among the names of the one that stands for it.
    stand_in: Option<usize>,
}

impl Name {
    /// Whether it was looked for, and never there.
    fn is_missing(&self) -> bool {
        self.facts.iter().all(|fact| fact.ends_with(b" ENOENT"))
    }

    /// Whether both are of one directory, or one name that was looked for in two and never there.
    fn is_beside(&self, other: &Name) -> bool {
        above(&self.place) == above(&other.place)
            || (self.is_missing() && last_name(&self.place) == last_name(&other.place))
    }
}

/// The names that records use by their places.
#[derive(Drop)]
struct Names {
    list: Vec<Name>,
}

/// What a call does with the name of a path: the call, which of its paths that is, what it is given beside, and what it came to.
fn fact_of(room: &mut Room, made: &MadeCall, at: usize) -> Vec<u8> {
    let mut page = Page::new(room.alloc());
    say!(&mut page; made.call.name(), " ", at, " ");
    add_flags(&mut page, flags_of(made));
    if removes_directory(made) {
        page.bytes(b" dir");
    }
    match made.outcome {
        Outcome::Success(_) => page.bytes(b" done"),
        Outcome::Failure(error) => say!(&mut page; " ", error.name()),
    }
    room.bytes(page)
}

/// Whether some facts are all among others.
fn are_among(facts: &[Vec<u8>], others: &[Vec<u8>]) -> bool {
    for fact in facts {
        if !others.contains(fact) {
            return false;
        }
    }
    true
}

impl Names {
    /// Which of the names stands at a place.
    fn position(&self, place: &[u8]) -> Option<usize> {
        for (at, name) in self.list.iter().enumerate() {
            if name.place.as_slice() == place {
                return Some(at);
            }
        }
        None
    }

    /// Which of the names stands at a place; one that isn't known yet is added.
    fn place(&mut self, room: &mut Room, place: &[u8]) -> usize {
        if let Some(at) = self.position(place) {
            return at;
        }
        let place = room.copy(place);
        let facts = room.list();
        room.push(
            &mut self.list,
            Name {
                place,
                facts,
                length: 0,
                leads_to: None,
                stand_in: None,
            },
        );
        self.list.len().saturating_sub(1)
    }

    /// Notes what is done with a name.
    fn add_fact(&mut self, room: &mut Room, place: &[u8], fact: Vec<u8>) {
        let at = self.place(room, place);
        if let Some(name) = self.list.get_mut(at) {
            if !name.facts.contains(&fact) {
                room.push(&mut name.facts, fact);
            }
        }
    }

    /// Notes what a call does with the names of its paths, and through descriptors of what stands at such a name.
    fn add_call(&mut self, room: &mut Room, made: &MadeCall) {
        for (at, operand) in made.operands.iter().enumerate() {
            if let Operand::Path(path) = operand {
                let fact = fact_of(room, made, at);
                self.add_fact(room, path, fact);
            }
        }
        match passed_by(made.call) {
            Passed::ByteIn | Passed::ByteOut => self.add_through(room, made),
            Passed::Nothing | Passed::DescriptorIn | Passed::DescriptorOut => {}
        }
        if table_change(made.call) == TableChange::Opened {
            self.add_end(room, made);
        }
    }

    /// Notes where an open led that led elsewhere than to the place of its path.
    fn add_end(&mut self, room: &mut Room, made: &MadeCall) {
        let (Some(path), Some(place)) = (path_at(made, 0), place_given(made)) else {
            return;
        };
        if path == place {
            return;
        }
        let fact = room.copy(b"led to");
        self.add_fact(room, place, fact);
        let to = self.position(place);
        if let Some(from) = self.position(path) {
            if let Some(name) = self.list.get_mut(from) {
                name.leads_to = name.leads_to.or(to);
            }
        }
    }

    /// Notes that bytes are read or written of what stands at a name.
    fn add_through(&mut self, room: &mut Room, made: &MadeCall) {
        for binding in &made.bindings {
            if let Binding::Place { place, .. } = binding {
                if self.position(place).is_some() {
                    let fact = room.copy(b"bytes");
                    self.add_fact(room, place, fact);
                }
            }
        }
    }

    /// Notes how many bytes they have.
    fn measure(&mut self, tree: &Tree) {
        for name in self.list.iter_mut() {
            name.length = tree.length_of(&name.place);
        }
    }

    /// Whether something is used that lies beneath a name, other than what never was there beneath one that never was.
    fn has_beneath(&self, name: &Name) -> bool {
        let is_missing = name.is_missing();
        self.list.iter().any(|other| {
            lies_beneath(&name.place, &other.place) && !(is_missing && other.is_missing())
        })
    }

    /// Whether a name may be one with others: it is a place that a task can have, with a name of its own, and nothing is used beneath it.
    fn may_be_merged(&self, name: &Name) -> bool {
        name.place.first() == Some(&b'/')
            && !ends_at_directory(&name.place)
            && is_writable(&name.place)
            && !self.has_beneath(name)
    }

    /// Which name stands for the one that a name led to, where it led elsewhere.
    fn end_of(&self, name: &Name) -> Option<usize> {
        let to = name.leads_to?;
        match self.list.get(to) {
            Some(end) if end.stand_in.is_some() => end.stand_in,
            _ => Some(to),
        }
    }

    /// The first name that can stand for the one of a place in the list: one beside it with which the same is done, of as many bytes, and which led
    /// to the same.
    fn stand_in_for(&self, at: usize) -> Option<usize> {
        let name = self.list.get(at)?;
        if !self.may_be_merged(name) {
            return None;
        }
        for (before, other) in self.list.iter().enumerate() {
            if before >= at {
                break;
            }
            if other.stand_in.is_none()
                && other.length == name.length
                && other.is_beside(name)
                && are_among(&name.facts, &other.facts)
                && are_among(&other.facts, &name.facts)
                && self.end_of(other) == self.end_of(name)
                && self.may_be_merged(other)
            {
                return Some(before);
            }
        }
        None
    }

    /// Settles which names stand for others, of those that led elsewhere, or of the rest.
    fn settle(&mut self, elsewhere: bool) {
        for at in 0..self.list.len() {
            let stand_in = self.stand_in_for(at);
            match self.list.get_mut(at) {
                Some(name) if name.leads_to.is_some() == elsewhere => name.stand_in = stand_in,
                _ => {}
            }
        }
    }

    /// The place of the name that stands for another one, if one does.
    fn stand_in_of(&self, name: &Name) -> Option<&[u8]> {
        Some(self.list.get(name.stand_in?)?.place.as_slice())
    }

    /// The place that stands for another one, if one does.
    fn merged(&self, place: &[u8]) -> Option<&[u8]> {
        self.stand_in_of(self.list.get(self.position(place)?)?)
    }

    /// Puts the names into a call that stand for those of its paths and descriptors.
    fn rewrite(&self, room: &mut Room, made: &mut MadeCall) {
        for operand in made.operands.iter_mut() {
            if let Operand::Path(path) = operand {
                if let Some(place) = self.merged(path) {
                    *path = room.copy(place);
                }
            }
        }
        for binding in made.bindings.iter_mut() {
            if let Binding::Place { place, .. } = binding {
                if let Some(merged) = self.merged(place) {
                    *place = room.copy(merged);
                }
            }
        }
    }

    /// Whether a name lies beneath one for which another one stands.
    fn is_beneath_merged(&self, name: &Name) -> bool {
        self.list.iter().any(|other| other.stand_in.is_some()
            && lies_beneath(&other.place, &name.place))
    }

    /// The place that the words of `follow` tell of a name: that of the one that stands for it, or its own, if else they would tell another one.
    fn told_place<'n>(&'n self, name: &'n Name) -> Option<&'n [u8]> {
        match self.stand_in_of(name) {
            Some(place) => Some(place),
            None if self.is_beneath_merged(name) => Some(name.place.as_slice()),
            None => None,
        }
    }

    /// Which names are one with others.
    fn renamings(&self, room: &mut Room) -> Vec<Renaming> {
        let mut renamings: Vec<Renaming> = room.list();
        for name in &self.list {
            if let Some(place) = self.told_place(name) {
                let real = room.copy(&name.place);
                let model = room.copy(place);
                // (the first word that fits a path counts, so one of what lies beneath comes first)
                let found = renamings
                    .iter()
                    .position(|above| lies_beneath(&above.real, &real));
                let at = found.unwrap_or(renamings.len());
                room.insert(&mut renamings, at, Renaming { real, model });
            }
        }
        renamings
    }
}

/// Tells which names are one with others, as words of `follow`.
fn add_words(page: &mut Page, renamings: &[Renaming]) {
    if renamings.is_empty() {
        return;
    }
    page.bytes(b"# Names that are one here, as words for `capwhy follow`:\n");
    for renaming in renamings {
        say!(page; "#  ", renaming.real.as_slice(), "=", renaming.model.as_slice(), "\n");
    }
}

/// Records in which some names are one, and which these are.
#[derive(Drop)]
pub(crate) struct Merged {
    pub records: Vec<Vec<Entry>>,
    pub renamings: Vec<Renaming>,
}

/// The entries of records with one name for those with which the same is done. Which those are is told on a page.
pub(crate) fn with_names_merged(
    room: &mut Room,
    records: &[Vec<Entry>],
    told: &mut Page,
) -> Merged {
    let mut names = Names { list: room.list() };
    for entries in records {
        for entry in entries {
            if let Event::Called(made) = &entry.event {
                names.add_call(room, made);
            }
        }
    }
    let tree = tree_of(room, records, None);
    names.measure(&tree);
    // (what was led to comes first: by that those are told apart that led there)
    names.settle(false);
    names.settle(true);
    let renamings = names.renamings(room);
    add_words(told, &renamings);
    let mut all = room.list();
    for entries in records {
        let mut merged = room.list();
        for entry in entries {
            let mut copy = entry_copy(room, entry);
            if let Event::Called(made) = &mut copy.event {
                names.rewrite(room, made);
            }
            room.push(&mut merged, copy);
        }
        room.push(&mut all, merged);
    }
    Merged {
        records: all,
        renamings,
    }
}
