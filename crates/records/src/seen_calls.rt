//! A call as a record tells it: its name, its arguments and what it came to.

use crate::argument_values::{Mention, has_word, inside, mention_of};
use crate::entries::Outcome;
use crate::logs::{CallName, When};
use crate::names::find_error;
use crate::strace_results::{Answer, CallResult};
use crate::strace_texts::{same_bytes, without_spaces};
use rights::Errno;

/// A call that came back, or is given up.
#[derive(Clone, Copy)]
pub(crate) struct CameBack<'t> {
    /// The lines in which it begins and ends.
    pub first: u32,
    pub last: u32,
    pub thread: u32,
    pub name: CallName<'t>,
    /// Its arguments in one piece.
    pub text: &'t [u8],
    pub returned: CallResult<'t>,
}

/// A call of a process.
#[derive(Clone, Copy)]
pub(crate) struct SeenCall<'t> {
    pub when: When,
    /// The thread that makes it.
    pub thread: u32,
    pub name: CallName<'t>,
    /// Its arguments in one piece, and each of them, which may begin with spaces.
    pub text: &'t [u8],
    pub arguments: &'t [&'t [u8]],
    /// The descriptor that it answers, where it succeeds and 32 bits hold the number.
    pub made: Option<Mention<'t>>,
    /// The name of the error that it fails with, or another word, or nothing.
    pub error: &'t [u8],
    /// What it came to, if that has a counterpart here.
    pub outcome: Option<Outcome>,
}

/// A call through a descriptor.
#[derive(Clone, Copy)]
pub(crate) struct Through<'t> {
    pub seen: &'t SeenCall<'t>,
    pub mention: Mention<'t>,
}

/// What a call came to, if that has a counterpart here. Linux's EPERM has none: it is of owners.
fn outcome_of(answer: Answer, error: &[u8]) -> Option<Outcome> {
    match answer {
        Answer::Number(number) => Some(Outcome::Success(number)),
        Answer::Failure if same_bytes(error, b"EPERM") => None,
        Answer::Failure if same_bytes(error, b"ESPIPE") => Some(Outcome::Failure(Errno::EINVAL)),
        Answer::Failure => match find_error(error) {
            Ok(error) => Some(Outcome::Failure(error)),
            Err(_) => None,
        },
        Answer::Untold => None,
    }
}

impl<'t> SeenCall<'t> {
    /// A call that came back, with its arguments.
    pub(crate) fn new(when: When, came: &CameBack<'t>, arguments: &'t [&'t [u8]]) -> SeenCall<'t> {
        let returned = came.returned;
        let made = match returned.answer {
            Answer::Number(number) => Some(Mention {
                number,
                note: inside(returned.note),
            }),
            Answer::Untold | Answer::Failure => None,
        };
        SeenCall {
            when,
            thread: came.thread,
            name: came.name,
            text: came.text,
            arguments,
            made,
            error: returned.error,
            outcome: outcome_of(returned.answer, returned.error),
        }
    }

    /// The argument at this place, counted from 0: an empty one where there is none.
    pub(crate) fn argument(&self, at: usize) -> &'t [u8] {
        if at < self.arguments.len() {
            without_spaces(self.arguments[at])
        } else {
            b""
        }
    }

    /// The descriptor that an argument is.
    pub(crate) fn mention(&self, at: usize) -> Option<Mention<'t>> {
        mention_of(self.argument(at))
    }

    /// Whether an argument has this word.
    pub(crate) fn has(&self, at: usize, word: &[u8]) -> bool {
        has_word(self.argument(at), word)
    }

    /// Whether an argument has one of these words.
    pub(crate) fn has_any(&self, at: usize, words: &[&[u8]]) -> bool {
        for word in words {
            if self.has(at, word) {
                return true;
            }
        }
        false
    }

    /// Whether it succeeds.
    pub(crate) fn succeeds(&self) -> bool {
        self.made.is_some()
    }
}
