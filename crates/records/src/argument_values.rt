//! What the arguments of calls say: descriptors, strings, and the words of flags.

ghost use Rattle.std.specs.Prelude.{◌≤◌, length};

use crate::strace_texts::{after, before, number, same_bytes, without_spaces};
use texts::first_part;

/// A descriptor as an argument tells it, with what is noted of it.
#[derive(Clone, Copy)]
pub(crate) struct Mention<'t> {
    pub number: u32,
    pub note: &'t [u8],
}

/// A descriptor that a text begins with, and what stands behind it.
#[derive(Clone, Copy)]
pub(crate) struct Listed<'t> {
    pub mention: Mention<'t>,
    pub behind: &'t [u8],
}

/// Where the digits end that a text begins with.
pub(crate) fn digits_end(text: &[u8]) -> usize
    ensures { result ≤ length text.now }
{
    for (at, byte) in text.iter().enumerate() {
        if !byte.is_ascii_digit() {
            return at;
        }
    }
    text.len()
}

/// Where a note ends that the text begins with, behind its last bracket.
fn note_end(text: &[u8]) -> usize
    ensures { result ≤ length text.now }
{
    let mut depth: usize = 0;
    let mut last = b' ';
    for (at, byte) in text.iter().enumerate() {
        if *byte == b'<' {
            depth = depth.saturating_add(1);
        } else if *byte == b'>' && last != b'-' {
            depth = depth.saturating_sub(1);
            if depth == 0 {
                return at + 1;
            }
        }
        last = *byte;
    }
    text.len()
}

/// Where the note ends that a text begins with: at its beginning, where there is none.
pub(crate) fn first_note_end(text: &[u8]) -> usize
    ensures { result ≤ length text.now }
{
    match text {
        [b'<', ..] => note_end(text),
        _ => 0,
    }
}

/// A note without its brackets.
pub(crate) fn inside(note: &[u8]) -> &[u8] {
    let rest = after(note, b"<").unwrap_or(note);
    before(rest, b">").unwrap_or(rest)
}

/// The descriptor that a text begins with, if it begins with one.
fn listed_of(text: &[u8]) -> Option<Listed<'_>> {
    match &text[digits_end(text)..] {
        [] | [b'<' | b']' | b'}' | b',' | b' ', ..] => counted_of(text),
        _ => None,
    }
}

/// The number that a text begins with, if it begins with one, and what is noted of it.
pub(crate) fn counted_of(text: &[u8]) -> Option<Listed<'_>> {
    let (digits, rest) = text.split_at(digits_end(text));
    let (note, behind) = rest.split_at(first_note_end(rest));
    let Some(number) = number(digits) else {
        return None;
    };
    let note = inside(note);
    let mention = Mention { number, note };
    Some(Listed { mention, behind })
}

/// The descriptor that a text begins with, if it begins with one, alone.
pub(crate) fn mention_of(text: &[u8]) -> Option<Mention<'_>> {
    match listed_of(text) {
        Some(listed) => Some(listed.mention),
        None => None,
    }
}

/// The first descriptor of those in brackets, such as `[3</a>, 4]` or `{3,4}`, that a text begins with.
pub(crate) fn first_listed(text: &[u8]) -> Option<Listed<'_>> {
    match text {
        [b'[' | b'{', rest @ ..] => listed_of(without_spaces(rest)),
        _ => None,
    }
}

/// The next descriptor of a list, of which this text stands behind the one before.
pub(crate) fn next_listed(behind: &[u8]) -> Option<Listed<'_>> {
    if let [b']' | b'}', ..] = behind {
        return None;
    }
    match first_part(behind, b',') {
        (_, Some(next)) => listed_of(without_spaces(next)),
        (_, None) => None,
    }
}

/// The note of `AT_FDCWD`, which may be empty, if the argument is that.
pub(crate) fn here_note(argument: &[u8]) -> Option<&[u8]> {
    let Some(behind) = after(argument, b"AT_FDCWD") else {
        return None;
    };
    let (note, _behind) = behind.split_at(first_note_end(behind));
    Some(inside(note))
}

/// What stands behind the first place at which a text has these bytes.
pub(crate) fn behind<'t>(text: &'t [u8], bytes: &[u8]) -> Option<&'t [u8]> {
    for at in 0..text.len() {
        if let Some(rest) = after(&text[at..], bytes) {
            return Some(rest);
        }
    }
    None
}

/// Whether a text has this word, with no letter, digit or `_` on either side.
pub(crate) fn has_word(text: &[u8], word: &[u8]) -> bool {
    let mut start = 0;
    for (at, byte) in text.iter().enumerate() {
        if !byte.is_ascii_alphanumeric() && *byte != b'_' {
            if same_bytes(&text[start..at], word) {
                return true;
            }
            start = at + 1;
        }
    }
    same_bytes(&text[start..], word)
}

/// The flags by which a descriptor is made that is closed where the process goes on as another program.
const CLOSES_ON_EXEC: [&[u8]; 8] = [
    b"O_CLOEXEC",
    b"SOCK_CLOEXEC",
    b"EPOLL_CLOEXEC",
    b"EFD_CLOEXEC",
    b"TFD_CLOEXEC",
    b"IN_CLOEXEC",
    b"SFD_CLOEXEC",
    b"MFD_CLOEXEC",
];

/// Whether arguments have a flag by which a descriptor is closed where the process goes on as another program.
pub(crate) fn closes_on_exec(arguments: &[u8]) -> bool {
    for flag in &CLOSES_ON_EXEC {
        if has_word(arguments, flag) {
            return true;
        }
    }
    false
}

/// The place that a note tells, still with its escapes, if it tells one.
pub(crate) fn place_note(note: &[u8]) -> Option<&[u8]> {
    match note {
        [b'/', ..] => {
            let (place, _device) = first_part(note, b'<');
            Some(before(place, b" (deleted)").unwrap_or(place))
        }
        _ => None,
    }
}

/// The number of a socket's end in a note such as `UNIX-STREAM:[42->43]`, if 32 bits hold it.
pub(crate) fn socket_inode(note: &[u8]) -> Option<u32> {
    let Some(kind) = after(note, b"UNIX") else {
        return None;
    };
    let Some(inode) = behind(kind, b":[") else {
        return None;
    };
    let (digits, _behind) = inode.split_at(digits_end(inode));
    number(digits)
}
