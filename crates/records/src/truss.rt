//! The lines that FreeBSD's `truss -f` writes: what each of them tells. (own: the forms are written down from memory of truss(1) and of its
//! sources; no record of a FreeBSD was tried)

ghost use Rattle.std.specs.Prelude.{◌≡◌, IfSome};

use crate::argument_parts::first_at_top;
use crate::names::error_of_number;
use crate::strace::{StraceLine, System, Told, call_of};
use crate::strace_results::{Answer, CallResult, UNTOLD, answer_of};
use crate::strace_texts::{after, is_name, number, number_after};
use texts::first_part;

/// The text without the blanks that it begins with.
fn without_blanks(text: &[u8]) -> &[u8] {
    for (at, byte) in text.iter().enumerate() {
        if *byte != b' ' && *byte != b'\t' {
            return &text[at..];
        }
    }
    &[]
}

/// Whether a word is a number of seconds: digits and points.
fn are_seconds(word: &[u8]) -> bool {
    for byte in word {
        if !byte.is_ascii_digit() && *byte != b'.' {
            return false;
        }
    }
    !word.is_empty()
}

/// What stands behind the seconds that a text may begin with.
fn behind_seconds(text: &[u8]) -> &[u8] {
    match first_part(text, b' ') {
        (word, Some(behind)) if are_seconds(word) => without_blanks(behind),
        _ => text,
    }
}

/// What a call came to: `= 3 (0x3)`, or `ERR#2 'No such file or directory'`; nothing stands behind one that doesn't return.
pub(crate) fn result_of(text: &[u8]) -> Option<CallResult<'_>> {
    let text = without_blanks(text);
    if text.is_empty() {
        return Some(UNTOLD);
    }
    if let Some(rest) = after(text, b"= ") {
        let (word, _behind) = first_part(rest, b' ');
        return match answer_of(word) {
            Some(answer) => Some(CallResult { answer, ..UNTOLD }),
            None => None,
        };
    }
    let Some(rest) = after(text, b"ERR#") else {
        return None;
    };
    let (digits, _behind) = first_part(rest, b' ');
    match number(digits) {
        Some(number) => Some(CallResult {
            answer: Answer::Failure,
            note: b"",
            error: error_of_number(number),
        }),
        None => None,
    }
}

/// What the text behind the process tells.
fn told_by(text: &[u8]) -> Told<'_> {
    if text.starts_with(b"<new process>")
        || text.starts_with(b"<thread ")
        || text.starts_with(b"SIGNAL ")
    {
        return Told::Nothing;
    }
    let has_ended = text.starts_with(b"process killed, signal = ")
        || number_after(text, b"process exit, rval = ").is_some();
    if has_ended {
        Told::Ended
    } else {
        call_of(text, true)
    }
}

/// What a line tells, if it begins as those of truss do: with blanks, the process and a colon.
pub(crate) fn read_truss_line(line: &[u8]) -> Option<StraceLine<'_>>
    ensures { IfSome result (λ told. told.text.now ≡ line.entry.now) }
{
    let (word, Some(behind)) = first_part(without_blanks(line), b':') else {
        return None;
    };
    let (Some(process), Some(text)) = (number(word), after(behind, b" ")) else {
        return None;
    };
    let text = behind_seconds(behind_seconds(without_blanks(text)));
    Some(StraceLine {
        text: line,
        system: System::FreeBsd,
        process: Some(process),
        told: told_by(text),
    })
}
