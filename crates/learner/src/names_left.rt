//! Behind which lines of a record fewer names are left that the mode refuses.

use crate::calls::path_place;
use crate::demands::is_global;
use crate::evidence::place_in;
use crate::learning::tree_of;
use crate::libraries::{Library, library_of};
use crate::room::Room;
use crate::trees::Tree;
use records::{Entry, Event, Reason};
use rights::Memory;
use std::alloc::Global;
use texts::{Page, Say, parts_of, say};

/// The last use of a name, or of a call that goes by one.
#[derive(Drop)]
struct LastUse {
    line: u32,
    process: u32,
    name: Vec<u8>,
    library: Option<Library>,
}

/// The last uses, the last one first.
#[derive(Drop)]
struct LastUses {
    list: Vec<LastUse>,
}

impl LastUses {
    /// Whether there is a use of a name.
    fn has(&self, name: &[u8]) -> bool {
        for own in &self.list {
            if own.name.as_slice() == name {
                return true;
            }
        }
        false
    }

    /// Adds a use, if none behind it is of the same name.
    fn add(&mut self, room: &mut Room, entry: &Entry, name: Vec<u8>, library: Option<Library>) {
        if !self.has(&name) {
            let last = LastUse {
                line: entry.span.last,
                process: entry.process,
                name,
                library,
            };
            room.push(&mut self.list, last);
        }
    }

    /// Adds what an entry uses.
    fn add_entry(&mut self, room: &mut Room, tree: &Tree, entry: &Entry) {
        match &entry.event {
            Event::Called(made) if is_global(made) => {
                let at = path_place(made.call).unwrap_or(0);
                if let Some(place) = place_in(room, tree, made, at) {
                    let library = library_of(&place);
                    self.add(room, entry, place, library);
                }
            }
            Event::Omitted(left_out) if left_out.reason == Reason::Global => {
                let name = room.text(parts_of!(left_out.name.as_slice(), "(2)"));
                self.add(room, entry, name, None);
            }
            _ => {}
        }
    }
}

impl LastUses {
    /// Adds the uses of a record's entries.
    fn add_all(&mut self, room: &mut Room, tree: &Tree, entries: &[Entry]) {
        for at in (0..entries.len()).rev() {
            self.add_entry(room, tree, &entries[at]);
        }
    }

    /// Adds the lines of all, the first use first.
    fn add_lines(&self, page: &mut Page) {
        page.bytes(b"LINE PROCESS LEFT  used for the last time\n");
        for left in (0..self.list.len()).rev() {
            add_line(page, left, &self.list[left]);
        }
    }
}

/// Adds the line of a use, behind which so many names are left.
fn add_line(page: &mut Page, left: usize, last: &LastUse) {
    say!(page; last.line, " ", last.process, " ", left, "  ", last.name.as_slice());
    if let Some(library) = last.library {
        say!(page; " (", library.remedy(), ")");
    }
    page.bytes(b"\n");
}

/// Adds the lines of the first record behind which fewer global names are left, each with the name, or the call by one, that is used there
/// for the last time.
pub fn add_names_left(
    alloc: Global,
    records: &[Vec<Entry>],
    page: &mut Page,
) -> Result<(), Memory> {
    let mut room = Room::new(alloc);
    let tree = tree_of(&mut room, records, None);
    let mut uses = LastUses { list: room.list() };
    if let Some(first) = records.first() {
        uses.add_all(&mut room, &tree, first);
    }
    uses.add_lines(page);
    if room.is_short() {
        return Err(Memory);
    }
    Ok(())
}
