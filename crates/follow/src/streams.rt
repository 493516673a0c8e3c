//! What processes of a record send each other through the ends of pairs.

use call_facts::{Passed, passed_by};
use records::{Entry, Event, Operand, Outcome, RecordedEnd};

/// The end through which a process of the task has shown a write last.
#[derive(Clone, Copy)]
pub(crate) struct Sent {
    pub process: u8,
    pub end: RecordedEnd,
}

/// The end through which bytes went in an entry, if it passes this.
fn end_in(entry: &Entry, passed: Passed) -> Option<RecordedEnd> {
    let Event::Called(made) = &entry.event else {
        return None;
    };
    match (made.operands.first(), made.outcome) {
        (Some(Operand::Number(number)), Outcome::Success(bytes))
            if passed_by(made.call) == passed && bytes > 0 => { made.end_of(*number) }
        _ => None,
    }
}

/// The end through which the entry of a place writes, if it does.
pub(crate) fn end_written(left: &[&Entry], at: Option<usize>) -> Option<RecordedEnd> {
    match left.get(at?) {
        Some(entry) => end_in(entry, Passed::ByteOut),
        None => None,
    }
}

/// How many of these entries pass this through an end.
fn count(left: &[&Entry], passed: Passed, end: RecordedEnd) -> usize {
    let mut count: usize = 0;
    for entry in left {
        if end_in(entry, passed) == Some(end) {
            count = count.saturating_add(1);
        }
    }
    count
}

/// Whether more is taken in these entries of what an end sends than they send, and so many messages that are on their way.
pub(crate) fn are_awaited(left: &[&Entry], end: RecordedEnd, messages: usize) -> bool {
    let other = RecordedEnd {
        pair: end.pair,
        side: end.side.other(),
    };
    let sent = count(left, Passed::ByteOut, end);
    count(left, Passed::ByteIn, other) > sent.saturating_add(messages)
}
