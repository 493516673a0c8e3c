//! What the world has to do with its ends of pairs, for a record to be followed.

use crate::calls::{answer_of, fails_with};
use crate::room::Room;
use call_facts::{Passed, passed_by};
use records::MadeCall;
use rights::Errno;
use rights::limits::MAX_MESSAGES;

/// Ends whose other side the world has.
#[derive(Clone, Copy, PartialEq, Eq)]
pub(crate) enum Ends {
    /// One that the processes of a program begin with, told by its number there, and its copies.
    Own { program: usize, first: u8 },
    /// Those of the connections that come through such a one.
    Connections { program: usize, first: u8 },
}

/// What is asked of the other side of ends.
#[derive(Clone, Copy)]
pub(crate) struct Need {
    pub ends: Ends,
    /// Bytes come from it.
    pub gives: bool,
    /// It is closed.
    pub closes: bool,
    /// How many bytes go to it.
    pub written: usize,
}

impl Need {
    /// Nothing is asked of it.
    pub(crate) fn nothing(ends: Ends) -> Need {
        Need {
            ends,
            gives: false,
            closes: false,
            written: 0,
        }
    }

    /// Whether bytes have to be taken from it, since no more would fit.
    pub(crate) fn takes(&self) -> bool {
        self.written > MAX_MESSAGES
    }

    /// Notes a call through the end.
    fn note(&mut self, made: &MadeCall) {
        match passed_by(made.call) {
            Passed::ByteIn => match answer_of(made) {
                Some(0) => self.closes = true,
                Some(_) => self.gives = true,
                None => {}
            },
            Passed::ByteOut | Passed::DescriptorOut => {
                if answer_of(made).is_some() {
                    self.written = self.written.saturating_add(1);
                } else if fails_with(made, Errno::EPIPE) {
                    self.closes = true;
                }
            }
            Passed::DescriptorIn | Passed::Nothing => {}
        }
    }
}

/// Which need is of ends.
fn position(needs: &[Need], ends: Ends) -> Option<usize> {
    for (at, need) in needs.iter().enumerate() {
        if need.ends == ends {
            return Some(at);
        }
    }
    None
}

/// What is asked of the other side of ends, if it is anything.
pub(crate) fn need_of(needs: &[Need], ends: Ends) -> Option<Need> {
    needs.get(position(needs, ends)?).copied()
}

/// Which need is of ends; one that isn't known yet is added.
fn place(room: &mut Room, needs: &mut Vec<Need>, ends: Ends) -> usize {
    match position(needs, ends) {
        Some(at) => at,
        None => {
            room.push(needs, Need::nothing(ends));
            needs.len().saturating_sub(1)
        }
    }
}

/// Notes a call through ends.
pub(crate) fn add_need(room: &mut Room, needs: &mut Vec<Need>, ends: Ends, made: &MadeCall) {
    let at = place(room, needs, ends);
    if let Some(need) = needs.get_mut(at) {
        need.note(made);
    }
}

/// Notes that connections come through an end.
pub(crate) fn add_connection(room: &mut Room, needs: &mut Vec<Need>, ends: Ends) {
    let _ = place(room, needs, ends);
}
