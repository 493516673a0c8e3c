//! What the calls of a record tell of the tree.

use crate::calls::{
    ROOT, answer_of, creates, fails_with, makes_name, number_at, opens, path_at, path_of,
    path_place, place_given, place_of, removes_directory,
};
use crate::places::{above, ends_at_directory, last_name, place_at};
use crate::room::Room;
use crate::trees::{Presence, Tree};
use call_facts::{NameChange, frees, name_change};
use file_tree::rest_beneath;
use records::{Binding, Entry, Event, LeftOut, MadeCall};
use rights::{Call, Errno};

/// The place of the directory from which the path in a place goes on, if it is known.
fn directory_of(made: &MadeCall, at: usize) -> Option<&[u8]> {
    if at == 0 {
        return Some(b"/");
    }
    let number = number_at(made, at - 1)?;
    if number == ROOT {
        Some(b"/")
    } else {
        place_of(made, number)
    }
}

/// The place that a path of a call leads to, if that is known.
pub(crate) fn place_in(
    room: &mut Room,
    tree: &Tree,
    made: &MadeCall,
    at: usize,
) -> Option<Vec<u8>> {
    let path = path_at(made, at)?;
    if path.is_empty() {
        return None;
    }
    let directory = match directory_of(made, at) {
        Some(directory) => directory,
        None => {
            if path.first() != Some(&b'/') {
                return None;
            }
            b"/"
        }
    };
    Some(tree.resolve(room, directory, path))
}

/// Whether a call's descriptor is of what lies at a place or beneath it.
fn tells_of(made: &MadeCall, place: &[u8]) -> bool {
    for binding in &made.bindings {
        if let Binding::Place { place: own, .. } = binding {
            if rest_beneath(place, own).is_some() {
                return true;
            }
        }
    }
    false
}

/// Whether a descriptor of records is of what lies at a place or beneath it: then no link stands there.
fn is_told_of(records: &[Vec<Entry>], place: &[u8]) -> bool {
    for entries in records {
        for entry in entries {
            if let Event::Called(made) = &entry.event {
                if tells_of(made, place) {
                    return true;
                }
            }
        }
    }
    false
}

/// Notes the link by which a path led to another place: as far up as both have the same names behind it, and as a link may stand there.
fn add_link(room: &mut Room, tree: &mut Tree, records: &[Vec<Entry>], path: &[u8], place: &[u8]) {
    let mut from = path;
    let mut to = place;
    for _ in 0..path.len() {
        if last_name(from) != last_name(to)
            || above(from) == b"/".as_slice()
            || is_told_of(records, above(from))
        {
            break;
        }
        from = above(from);
        to = above(to);
    }
    if from != to && place.first() == Some(&b'/') {
        tree.linked(room, from, to);
    }
}

/// Notes the link by which an open led to another place.
fn add_link_of(room: &mut Room, tree: &mut Tree, records: &[Vec<Entry>], made: &MadeCall) {
    if !opens(made.call) {
        return;
    }
    let at = path_place(made.call).unwrap_or(0);
    let Some(path) = place_in(room, tree, made, at) else {
        return;
    };
    if let Some(place) = place_given(made) {
        let own = tree.resolve(room, b"/", place);
        if path.as_slice() != own.as_slice() {
            add_link(room, tree, records, &path, place);
        }
    }
}

/// Notes the links by which the opens of records led to other places.
pub(crate) fn add_links(room: &mut Room, tree: &mut Tree, records: &[Vec<Entry>]) {
    for entries in records {
        for entry in entries {
            if let Event::Called(made) = &entry.event {
                add_link_of(room, tree, records, made);
            }
        }
    }
}

/// What the path of a call leads to that succeeded.
fn kind_of(made: &MadeCall) -> Presence {
    match path_of(made) {
        Some(path) if ends_at_directory(path) => Presence::Directory,
        _ => Presence::File,
    }
}

/// What is told by a call that succeeded at a place.
fn add_success(room: &mut Room, tree: &mut Tree, made: &MadeCall, place: &[u8]) {
    match name_change(made.call) {
        NameChange::Created if creates(made) => tree.made(room, place, Presence::File, true),
        NameChange::Made => tree.made(room, place, Presence::Directory, false),
        NameChange::Removed => {
            let presence = if removes_directory(made) {
                Presence::Directory
            } else {
                Presence::File
            };
            tree.removed(room, place, presence);
        }
        NameChange::Created | NameChange::Moved | NameChange::Stays => {
            tree.there(room, place, kind_of(made))
        }
    }
}

/// Whether a call failed since what stands at its place is a directory.
fn is_of_directory(made: &MadeCall) -> bool {
    let is_removal = name_change(made.call) == NameChange::Removed;
    fails_with(made, Errno::EEXIST)
        || fails_with(made, Errno::EISDIR)
        || is_removal && fails_with(made, Errno::EPERM)
}

/// The place of the file for which a call failed that needs a directory: its own, where that was to be one, or else the one above it.
fn file_in_the_way<'p>(made: &MadeCall, place: &'p [u8]) -> &'p [u8] {
    let is_own = match path_of(made) {
        Some(path) => removes_directory(made) || ends_at_directory(path),
        None => false,
    };
    if is_own { place } else { above(place) }
}

/// Notes that something stands in a directory.
fn add_full(room: &mut Room, tree: &mut Tree, place: &[u8]) {
    tree.there(room, place, Presence::Directory);
    if !tree.holds_something(place) {
        let inside = place_at(room, place, b"other");
        tree.there(room, &inside, Presence::File);
    }
}

/// What is told by a call that failed at a place.
fn add_failure(room: &mut Room, tree: &mut Tree, made: &MadeCall, place: &[u8]) {
    if fails_with(made, Errno::ENOENT) {
        if makes_name(made) {
            tree.absent_above(room, place);
        } else {
            tree.absent(room, place);
        }
    }
    if is_of_directory(made) {
        tree.there(room, place, Presence::Directory);
    }
    if fails_with(made, Errno::ENOTDIR) && !tree.meets_file(place) {
        tree.there(room, file_in_the_way(made, place), Presence::File);
    }
    if fails_with(made, Errno::ELOOP) && !tree.is_known(place) {
        tree.linked(room, place, place);
    }
    if fails_with(made, Errno::ENOTEMPTY) {
        add_full(room, tree, place);
    }
}

/// What is told by a rename from one place to another.
fn add_move(room: &mut Room, tree: &mut Tree, made: &MadeCall, from: &[u8], to: &[u8]) {
    if fails_with(made, Errno::ENOENT) {
        tree.absent(room, from);
    }
    if fails_with(made, Errno::EISDIR) {
        tree.there(room, from, Presence::File);
        tree.there(room, to, Presence::Directory);
    }
    if fails_with(made, Errno::ENOTDIR) && !tree.meets_file(from) {
        tree.there(room, from, Presence::Directory);
        tree.there(room, to, Presence::File);
    }
    if fails_with(made, Errno::ENOTEMPTY) {
        tree.there(room, from, Presence::Directory);
        add_full(room, tree, to);
    }
    if answer_of(made).is_some() {
        if number_at(made, 0) == Some(ROOT) || number_at(made, 2) == Some(ROOT) {
            tree.moved_by_other(room, from, to);
        } else {
            tree.moved(room, from, to);
        }
    }
}

/// Notes that the directory is there from which a call goes on, unless it failed for want of one.
fn add_directory(room: &mut Room, tree: &mut Tree, made: &MadeCall) {
    if path_place(made.call) == Some(1) && !fails_with(made, Errno::ENOTDIR) {
        if let Some(directory) = directory_of(made, 1) {
            let place = tree.resolve(room, b"/", directory);
            tree.there(room, &place, Presence::Directory);
        }
    }
}

/// Notes the directories from which the path of a call that succeeded goes back up.
fn add_ways_back(room: &mut Room, tree: &mut Tree, made: &MadeCall, at: usize) {
    let (Some(path), Some(_)) = (path_at(made, at), answer_of(made)) else {
        return;
    };
    let Some(directory) = directory_of(made, at) else {
        return;
    };
    for end in 1..path.len() {
        let (way, rest) = path.split_at(end);
        if way.ends_with(b"/") && matches!(rest, [b'.', b'.'] | [b'.', b'.', b'/', ..]) {
            let place = tree.resolve(room, directory, way);
            tree.there(room, &place, Presence::Directory);
        }
    }
}

/// Notes that what a descriptor is of is a directory, where it couldn't be read for that.
fn add_unread(room: &mut Room, tree: &mut Tree, made: &MadeCall) {
    if made.call != Call::Read || !fails_with(made, Errno::EISDIR) {
        return;
    }
    let Some(number) = number_at(made, 0) else {
        return;
    };
    if let Some(place) = place_of(made, number) {
        let place = tree.resolve(room, b"/", place);
        tree.there(room, &place, Presence::Directory);
    }
}

/// What is told by a call.
fn add_call(room: &mut Room, tree: &mut Tree, made: &MadeCall) {
    let Some(at) = path_place(made.call) else {
        return add_unread(room, tree, made);
    };
    add_directory(room, tree, made);
    add_ways_back(room, tree, made, at);
    let Some(place) = place_in(room, tree, made, at) else {
        return;
    };
    if made.call == Call::Renameat {
        if let Some(target) = place_in(room, tree, made, 3) {
            add_move(room, tree, made, &place, &target);
        }
    } else if answer_of(made).is_some() {
        add_success(room, tree, made, &place);
    } else {
        add_failure(room, tree, made, &place);
    }
}

/// A descriptor that is open, by its process and number, of what stands at a place.
#[derive(Drop)]
struct Opened {
    process: u32,
    number: u32,
    place: Vec<u8>,
}

/// The calls that list a directory.
const LISTING: [&[u8]; 3] = [b"getdents", b"getdents64", b"getdirentries"];

/// Whether a call that is left out lists a directory.
pub(crate) fn lists_directory(left_out: &LeftOut) -> bool {
    LISTING.iter().any(|name| left_out.name.as_slice() == *name)
}

/// Which of these descriptors a number of a process is.
fn opened_at(opened: &[Opened], process: u32, number: u32) -> Option<usize> {
    opened
        .iter()
        .position(|own| own.process == process && own.number == number)
}

/// Notes which descriptors a call opens and closes.
fn note_opened(room: &mut Room, opened: &mut Vec<Opened>, process: u32, made: &MadeCall) {
    let number = if opens(made.call) {
        answer_of(made)
    } else if frees(made.call) {
        number_at(made, 0)
    } else {
        None
    };
    let Some(number) = number else {
        return;
    };
    if let Some(at) = opened_at(opened, process, number) {
        if at < opened.len() {
            opened.swap_remove(at);
        }
    }
    if let (Some(place), true) = (place_given(made), opens(made.call)) {
        let place = room.copy(place);
        room.push(
            opened,
            Opened {
                process,
                number,
                place,
            },
        );
    }
}

/// Notes that what a call lists is a directory.
fn add_listed(
    room: &mut Room,
    tree: &mut Tree,
    opened: &[Opened],
    process: u32,
    left_out: &LeftOut,
) {
    let Some(wanted) = &left_out.wanted else {
        return;
    };
    if let Some(at) = opened_at(opened, process, wanted.descriptor) {
        if let Some(own) = opened.get(at) {
            let place = tree.resolve(room, b"/", &own.place);
            tree.there(room, &place, Presence::Directory);
        }
    }
}

/// What is told by the calls of a record, one after another.
pub(crate) fn add_evidence(room: &mut Room, tree: &mut Tree, entries: &[Entry]) {
    tree.rewind();
    let mut opened = room.list();
    for entry in entries {
        match &entry.event {
            Event::Called(made) => {
                add_call(room, tree, made);
                note_opened(room, &mut opened, entry.process, made);
            }
            Event::Omitted(left_out) if lists_directory(left_out) => {
                add_listed(room, tree, &opened, entry.process, left_out);
            }
            Event::Omitted(_) | Event::Ended => {}
        }
    }
}
