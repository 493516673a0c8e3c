//! What a plan's task hasn't of what the record does in the mode.

use crate::calls::path_place;
use crate::demands::Way;
use crate::evidence::place_in;
use crate::fates::{Fate, Told, fate_of};
use crate::libraries::library_of;
use crate::plan_words::Words;
use crate::room::Room;
use records::{Entry, Event, LeftOut, MadeCall};
use texts::{Page, Say, parts_of, say};

/// A call: the file, the process, and the line in which it begins.
#[derive(Clone, Copy, PartialEq, Eq)]
struct Mark {
    file: usize,
    process: u32,
    line: u32,
}

/// What is told of calls, the first and the last of them, and how many there are.
#[derive(Drop)]
struct Note {
    text: Vec<u8>,
    first: Mark,
    last: Mark,
    count: usize,
}

/// What is told of calls in the mode, and how many are left.
#[derive(Drop)]
pub(crate) struct Leftovers {
    notes: Vec<Note>,
    last_left: Option<Mark>,
    /// How many calls are refused, or may be for all that is known.
    pub left: usize,
}

impl Leftovers {
    /// Notes what is told of a call.
    fn note(&mut self, room: &mut Room, mark: Mark, text: Vec<u8>) {
        for own in self.notes.iter_mut() {
            if own.text == text {
                if own.last != mark {
                    own.last = mark;
                    own.count = own.count.saturating_add(1);
                }
                return;
            }
        }
        let told = Note {
            text,
            first: mark,
            last: mark,
            count: 1,
        };
        room.push(&mut self.notes, told);
    }

    /// Notes that a call is left. It may be told of by several entries.
    fn leave(&mut self, mark: Mark) {
        if self.last_left != Some(mark) {
            self.last_left = Some(mark);
            self.left = self.left.saturating_add(1);
        }
    }

    /// Notes a call that the task hasn't.
    fn note_left_out(&mut self, room: &mut Room, mark: Mark, left_out: &LeftOut, fate: Fate) {
        let name = left_out.name.as_slice();
        let text = match &left_out.wanted {
            Some(wanted) if fate != Fate::Refused => {
                let right = wanted.right.as_slice();
                room.text(parts_of!(name, ": CAP_", right, ", ", fate.words()))
            }
            _ => room.text(parts_of!(name, ": ", fate.words())),
        };
        self.note(room, mark, text);
        if fate.is_left() {
            self.leave(mark);
        }
    }

    /// Adds the lines of what is told.
    fn add(&self, page: &mut Page, has_files: bool) {
        if !self.notes.is_empty() {
            page.bytes(b"# Behind it, and not in this task:\n");
        }
        for note in &self.notes {
            add_note(page, note, has_files);
        }
    }
}

/// Adds a line of what isn't in the task.
fn add_note(page: &mut Page, note: &Note, has_files: bool) {
    page.bytes(b"#  ");
    if has_files {
        say!(page; "file ", note.first.file.saturating_add(1), ", ");
    }
    say!(page; "line ", note.first.line, ", process ", note.first.process);
    if note.count > 1 {
        say!(page; ", ", note.count, " times");
    }
    say!(page; ": ", note.text.as_slice(), "\n");
}

/// Notes that a library uses a file later than it can.
fn note_late(
    room: &mut Room,
    leftovers: &mut Leftovers,
    told: &Told<'_>,
    made: &MadeCall,
    at: usize,
    mark: Mark,
) {
    if told.account.way_of(room, told.tree, made, at) != Way::Late {
        return;
    }
    let place = place_in(room, told.tree, made, path_place(made.call).unwrap_or(0));
    if let Some(place) = place {
        if let Some(library) = library_of(&place) {
            let text = room.text(parts_of!(place.as_slice(), ": ", library.remedy()));
            leftovers.note(room, mark, text);
        }
    }
}

/// Notes what an entry of a file does in the mode that isn't in the task.
fn note_entry(room: &mut Room, leftovers: &mut Leftovers, told: &Told<'_>, file: usize, at: usize) {
    let Some(entry) = told.entries.get(at) else {
        return;
    };
    let mark = Mark {
        file,
        process: entry.process,
        line: entry.span.first,
    };
    match &entry.event {
        Event::Called(made) => note_late(room, leftovers, told, made, at, mark),
        Event::Omitted(left_out) => {
            if let Some(fate) = fate_of(room, told, left_out, at) {
                leftovers.note_left_out(room, mark, left_out, fate);
            }
        }
        Event::Ended => {}
    }
}

/// Notes what a file does in the mode that isn't in the task.
fn note_record(room: &mut Room, leftovers: &mut Leftovers, told: &Told<'_>, file: usize) {
    for at in 0..told.entries.len() {
        if told.account.entrances.is_in_mode(at) {
            note_entry(room, leftovers, told, file, at);
        }
    }
}

impl<'a> Words<'a> {
    /// Adds what is done in the mode that isn't in the task. How many calls of it are left is told.
    pub(crate) fn add_left(&self, room: &mut Room, page: &mut Page) -> usize {
        let mut leftovers = Leftovers {
            notes: room.list(),
            last_left: None,
            left: 0,
        };
        for (file, account) in self.accounts.iter().enumerate() {
            if let Some(entries) = self.records.get(file) {
                let told = Told {
                    tree: self.tree,
                    account,
                    entries,
                };
                note_record(room, &mut leftovers, &told, file);
            }
        }
        leftovers.add(page, self.records.len() > 1);
        leftovers.left
    }
}
