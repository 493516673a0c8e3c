//! Places of a tree as texts: `/`, or names with a slash in front of each.

use crate::room::Room;
use file_tree::rest_beneath;
use texts::first_part;

/// The place above another one; of `/` it is `/`.
pub(crate) fn above(place: &[u8]) -> &[u8] {
    for at in (1..place.len()).rev() {
        if place[at] == b'/' {
            return &place[..at];
        }
    }
    b"/"
}

/// The last name of a place or a path.
pub(crate) fn last_name(place: &[u8]) -> &[u8] {
    for at in (0..place.len()).rev() {
        if place[at] == b'/' {
            return &place[at + 1..];
        }
    }
    place
}

/// Whether a path leads to a directory, if to anything: it ends in a slash, `.` or `..`.
pub(crate) fn ends_at_directory(path: &[u8]) -> bool {
    matches!(last_name(path), [] | [b'.'] | [b'.', b'.'])
}

/// Whether a place lies beneath the first one.
pub(crate) fn lies_beneath(place: &[u8], beneath: &[u8]) -> bool {
    match rest_beneath(place, beneath) {
        Some(rest) => !rest.is_empty(),
        None => false,
    }
}

/// The path from a directory to a place beneath it, or nothing where it is the directory itself.
pub(crate) fn path_from<'a>(directory: &[u8], place: &'a [u8]) -> Option<&'a [u8]> {
    let whole = if directory == b"/".as_slice() {
        b"".as_slice()
    } else {
        directory
    };
    let rest = rest_beneath(whole, place)?;
    Some(rest.strip_prefix(b"/".as_slice()).unwrap_or(rest))
}

/// Goes up by a name.
fn drop_name(place: &mut Vec<u8>) {
    let length = above(place).len();
    if length > 1 {
        place.truncate(length);
    } else {
        place.clear();
    }
}

/// Goes on by a name of a path.
fn add_name(room: &mut Room, place: &mut Vec<u8>, name: &[u8]) {
    match name {
        [] | [b'.'] => {}
        [b'.', b'.'] => drop_name(place),
        _ => {
            room.push(place, b'/');
            room.extend(place, name);
        }
    }
}

/// Goes on by the names of a path.
fn add_names(room: &mut Room, place: &mut Vec<u8>, path: &[u8]) {
    let mut rest = Some(path);
    for _ in 0..=path.len() {
        let Some(text) = rest else {
            break;
        };
        let (name, others) = first_part(text, b'/');
        add_name(room, place, name);
        rest = others;
    }
}

/// The place at which a path leads from a directory, links aside.
pub(crate) fn place_at(room: &mut Room, directory: &[u8], path: &[u8]) -> Vec<u8> {
    let mut place = room.list();
    if path.first() != Some(&b'/') {
        add_names(room, &mut place, directory);
    }
    add_names(room, &mut place, path);
    if place.is_empty() {
        room.push(&mut place, b'/');
    }
    place
}

/// A path behind a place.
pub(crate) fn joined(room: &mut Room, place: &[u8], rest: &[u8]) -> Vec<u8> {
    let mut whole = if place == b"/".as_slice() {
        room.list()
    } else {
        room.copy(place)
    };
    room.extend(&mut whole, rest);
    if whole.is_empty() {
        room.push(&mut whole, b'/');
    }
    whole
}
