//! What a line that strace writes begins with: the process, the time, the time since the line before, where the program is.

use crate::strace_texts::{after, number, without_spaces};
use texts::first_part;

/// The number that a text begins with, the name of its process in brackets if that stands behind it, and what stands behind a byte behind
/// these.
fn numbered(text: &[u8], end: u8) -> Option<(u32, &[u8])> {
    let (word, behind) = first_part(text, end);
    if let (Some(process), Some(rest)) = (number(word), behind) {
        return Some((process, rest));
    }
    let (word, Some(note)) = first_part(text, b'<') else {
        return None;
    };
    let (_name, Some(rest)) = first_part(note, b'>') else {
        return None;
    };
    match (number(word), after(rest, &[end])) {
        (Some(process), Some(rest)) => Some((process, rest)),
        _ => None,
    }
}

/// The process that a line tells, if it tells one, as `[pid 540] `, `540 ` or `540<sh> `, and what stands behind that.
fn process_of(line: &[u8]) -> (Option<u32>, &[u8]) {
    let told = match after(line, b"[pid ") {
        Some(rest) => numbered(without_spaces(rest), b']'),
        None => numbered(line, b' '),
    };
    match told {
        Some((process, rest)) => (Some(process), rest),
        None => (None, line),
    }
}

/// Whether a word is a time: digits with colons or points between them.
fn is_time(word: &[u8]) -> bool {
    let mut is_parted = false;
    for byte in word {
        if *byte == b':' || *byte == b'.' {
            is_parted = true;
        } else if !byte.is_ascii_digit() {
            return false;
        }
    }
    is_parted
}

/// What stands behind such a beginning and its end, if the text has both.
fn behind_part<'t>(text: &'t [u8], beginning: &[u8], end: u8) -> &'t [u8] {
    let Some(rest) = after(text, beginning) else {
        return text;
    };
    let (_part, behind) = first_part(rest, end);
    match behind {
        Some(behind) => without_spaces(behind),
        None => text,
    }
}

/// The process that a line tells, if it tells one, and what stands behind all that.
pub(crate) fn header_of(line: &[u8]) -> (Option<u32>, &[u8]) {
    let (process, rest) = process_of(line);
    let rest = without_spaces(rest);
    let rest = match first_part(rest, b' ') {
        (word, Some(behind)) if is_time(word) => without_spaces(behind),
        _ => rest,
    };
    (
        process,
        behind_part(behind_part(rest, b"(+", b')'), b"[", b']'),
    )
}
