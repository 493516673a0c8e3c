//! The results of calls, as strace writes them.

ghost use Rattle.std.specs.Prelude.{◌≤◌, length};

use crate::argument_values::first_note_end;
use crate::strace_texts::{after, number, without_spaces};
use texts::{first_part, read_hex};

/// What a call came to.
#[derive(Clone, Copy)]
pub(crate) struct CallResult<'t> {
    pub answer: Answer,
    /// What is noted of the descriptor that it answers, or nothing.
    pub note: &'t [u8],
    /// The name of the error that it fails with, or another word, or nothing.
    pub error: &'t [u8],
}

/// What a call came to of which nothing is told.
pub(crate) const UNTOLD: CallResult<'static> = CallResult {
    answer: Answer::Untold,
    note: b"",
    error: b"",
};

/// What a call answers.
#[derive(Clone, Copy)]
pub(crate) enum Answer {
    /// It isn't told, or is no number that 32 bits hold.
    Untold,
    Number(u32),
    /// It fails.
    Failure,
}

/// Where a word of a result ends: at a space, at a note, or at the end.
fn word_end(text: &[u8]) -> usize
    ensures { result ≤ length text.now }
{
    for (at, byte) in text.iter().enumerate() {
        if *byte == b' ' || *byte == b'<' {
            return at;
        }
    }
    text.len()
}

/// The number that a word is, in decimal or at most eight hexadecimal digits, if 32 bits hold it.
fn number_of(word: &[u8]) -> Answer {
    let told = match word {
        [b'0', b'x', digits @ ..] if digits.len() <= 8 => read_hex(digits, digits.len()),
        _ => number(word),
    };
    match told {
        Some(number) => Answer::Number(number),
        None => Answer::Untold,
    }
}

/// The answer that a word tells, if it begins as a number, or is a question mark.
pub(crate) fn answer_of(word: &[u8]) -> Option<Answer> {
    match word {
        [b'?'] => Some(Answer::Untold),
        [b'-', b'1'] => Some(Answer::Failure),
        [b'-' | b'0'..=b'9', ..] => Some(number_of(word)),
        _ => None,
    }
}

/// The result that stands behind a call's arguments.
pub(crate) fn result_of(text: &[u8]) -> Option<CallResult<'_>> {
    let Some(text) = after(without_spaces(text), b"= ") else {
        return None;
    };
    let (word, rest) = text.split_at(word_end(text));
    let Some(answer) = answer_of(word) else {
        return None;
    };
    let (note, rest) = rest.split_at(first_note_end(rest));
    let (error, _behind) = first_part(without_spaces(rest), b' ');
    Some(CallResult {
        answer,
        note,
        error,
    })
}
