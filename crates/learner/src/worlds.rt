//! The program of whoever the record talks to.

use crate::needs::Need;
use crate::places::path_from;
use crate::room::Room;
use crate::trees::{Change, Tree, WorldAction};
use texts::{Page, Say, parts_of, say};

/// An end that the world has, by its number there, what is asked of it, and what of the connections that go through it.
#[derive(Clone, Copy)]
pub(crate) struct WorldEnd {
    pub number: usize,
    pub need: Option<Need>,
    pub connections: Option<Need>,
}

/// Adds an act, from its label on.
fn add_act<S: Say>(page: &mut Page, acts: &mut usize, said: S) {
    say!(page; "act", *acts, ":   ");
    said.say(page);
    page.bytes(b"        jmp next\n");
    *acts = acts.saturating_add(1);
}

/// Adds what is asked of an end.
fn add_need(page: &mut Page, acts: &mut usize, number: usize, need: &Need) {
    if need.gives {
        add_act(page, acts, parts_of!("write ", number, " 65 else next\n"));
    }
    if need.takes() {
        add_act(page, acts, parts_of!("read ", number, " else next\n"));
    }
    if need.closes {
        add_act(page, acts, parts_of!("close ", number, " else next\n"));
    }
}

/// Adds that a connection is made: one end of a new pair is sent, and a process of its own goes on with the other one, which has the lowest
/// free number.
fn add_connecting(page: &mut Page, acts: &mut usize, listener: usize, number: usize) {
    let other = number.saturating_add(1);
    add_act(
        page,
        acts,
        parts_of!(
            parts_of!(
                "socketpair else next\n        sendfd ",
                listener,
                " ",
                other,
                " 65 else end\n"
            ),
            parts_of!(
                "        close ",
                other,
                " else end\n        fork else end\n"
            ),
            parts_of!(
                "        jeq r0 0 talk",
                listener,
                "\n        close ",
                number,
                " else end\n"
            )
        ),
    );
}

/// Adds a call of a process that has a connection.
fn add_talking<S: Say>(page: &mut Page, name: &str, listener: usize, said: S) {
    say!(page; name, listener, ":  ");
    said.say(page);
    say!(page; " else talk", listener, "\n        jmp talk", listener, "\n");
}

/// Adds that a process which has a connection closes its copies of the ends that are to end.
fn add_closing(page: &mut Page, ends: &[WorldEnd], listener: usize) {
    for end in ends {
        if let Some(Need { closes: true, .. }) = &end.need {
            let number = end.number;
            say!(page; "close ", number, " else past", listener, "_", number, "\n");
            say!(page; "past", listener, "_", number, ": ");
        }
    }
}

/// Adds what a process does that has a connection, by what is asked of it: it closes its copies of the ends that are to end, and in the end
/// it halts.
fn add_talk(page: &mut Page, ends: &[WorldEnd], listener: usize, number: usize, need: &Need) {
    say!(page; "talk", listener, ":  ");
    add_closing(page, ends, listener);
    page.bytes(b"in r6\n");
    if need.gives {
        say!(page; "        jeq r6 0 give", listener, "\n");
    }
    if need.takes() {
        say!(page; "        jeq r6 1 take", listener, "\n");
    }
    page.bytes(b"        halt\n");
    if need.gives {
        add_talking(page, "give", listener, parts_of!("write ", number, " 65"));
    }
    if need.takes() {
        add_talking(page, "take", listener, parts_of!("read ", number));
    }
}

/// Adds what the processes do that have connections, which come through these ends and have this number.
fn add_talks(page: &mut Page, ends: &[WorldEnd], number: usize) {
    let mut is_any = false;
    for end in ends {
        if let Some(need) = &end.connections {
            add_talk(page, ends, end.number, number, need);
            is_any = true;
        }
    }
    if is_any {
        page.bytes(b"end:    halt\n");
    }
}

/// How many bytes the world writes into a file at most.
const MOST_WRITTEN: usize = 16;

/// The directories that the world has, the first of them at this number.
#[derive(Clone, Copy)]
pub(crate) struct Footing<'a> {
    pub directories: &'a [Vec<u8>],
    pub first: usize,
    /// It moves alone by them, and does all else by paths.
    pub moves_alone: bool,
}

impl<'a> Footing<'a> {
    /// Adds the number of the directory at or above a place, and the path from it. Whether there is one is told.
    fn add_path(&self, page: &mut Page, place: &[u8]) -> bool {
        for (at, directory) in self.directories.iter().enumerate() {
            if let Some(path) = path_from(directory, place) {
                let number = self.first.saturating_add(at);
                say!(page; " ", number, " \"", path, "\"");
                return true;
            }
        }
        false
    }

    /// A call of what stands at a place: by a directory, or by the path alone.
    fn call(&self, room: &mut Room, call: &str, place: &[u8]) -> Vec<u8> {
        let mut path = Page::new(room.alloc());
        if !self.moves_alone && self.add_path(&mut path, place) {
            room.text(parts_of!(call, "at", &path))
        } else {
            room.text(parts_of!(call, " \"", place, "\""))
        }
    }

    /// The call by which what stands at a place is moved to another one.
    fn moving(&self, room: &mut Room, from: &[u8], to: &[u8]) -> Vec<u8> {
        let mut path = Page::new(room.alloc());
        path.bytes(b"renameat");
        self.add_path(&mut path, from);
        self.add_path(&mut path, to);
        room.bytes(path)
    }
}

/// Adds that a file is made that so many bytes can be read of.
fn add_making(page: &mut Page, acts: &mut usize, call: &[u8], length: usize) {
    let mut writes = Page::new(page.alloc());
    for _ in 0..length.min(MOST_WRITTEN) {
        writes.bytes(b"        write r1 65 else next\n");
    }
    add_act(
        page,
        acts,
        parts_of!(
            call,
            " write,create else next\n        mov r1 r0\n",
            &writes,
            "        close r1 else next\n"
        ),
    );
}

/// Adds what is done with the tree.
fn add_change(
    room: &mut Room,
    page: &mut Page,
    acts: &mut usize,
    tree: &Tree,
    footing: Footing<'_>,
    change: &Change,
) {
    let place = change.place.as_slice();
    match change.deed {
        WorldAction::MakesFile => {
            let call = footing.call(room, "open", place);
            add_making(page, acts, &call, tree.length_of(place));
        }
        WorldAction::MakesDirectory => {
            let call = footing.call(room, "mkdir", place);
            add_act(page, acts, parts_of!(call.as_slice(), " else next\n"));
        }
        WorldAction::RemovesFile => {
            let call = footing.call(room, "unlink", place);
            add_act(page, acts, parts_of!(call.as_slice(), " else next\n"));
        }
        WorldAction::RemovesDirectory => {
            let call = footing.call(room, "unlink", place);
            add_act(page, acts, parts_of!(call.as_slice(), " dir else next\n"));
        }
        WorldAction::Moves => {
            let call = footing.moving(room, place, &change.target);
            add_act(page, acts, parts_of!(call.as_slice(), " else next\n"));
        }
    }
}

/// The program of the world: it does any of what is asked of it, any number of times.
pub(crate) fn world_code(
    room: &mut Room,
    ends: &[WorldEnd],
    tree: &Tree,
    footing: Footing<'_>,
) -> Vec<u8> {
    let mut acts = 0usize;
    let mut page = Page::new(room.alloc());
    for end in ends {
        if let Some(need) = &end.need {
            add_need(&mut page, &mut acts, end.number, need);
        }
    }
    let lowest_free = footing.first.saturating_add(footing.directories.len());
    for end in ends {
        if end.connections.is_some() {
            add_connecting(&mut page, &mut acts, end.number, lowest_free);
        }
    }
    for change in &tree.changes {
        add_change(room, &mut page, &mut acts, tree, footing, change);
    }
    let mut whole = Page::new(room.alloc());
    whole.bytes(b"next:   in r6\n");
    for act in 1..acts {
        say!(&mut whole; "        jeq r6 ", act, " act", act, "\n");
    }
    if acts == 0 {
        whole.bytes(b"        jmp next\n");
    }
    whole.page(&page);
    add_talks(&mut whole, ends, lowest_free);
    room.bytes(whole)
}
