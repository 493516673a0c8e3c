//! How many messages of the task a read or a write of the record is, of pairs between its own processes.

use crate::calls::end_through;
use crate::room::Room;
use call_facts::{Passed, passed_by};
use records::{Entry, Event, MadeCall, RecordedEnd};
use rights::Side;

/// Bytes that an entry sends or takes.
#[derive(Clone, Copy)]
struct Part {
    entry: usize,
    bytes: u32,
}

/// What goes from one side of a pair to the other.
#[derive(Drop)]
struct Stream {
    pair: u32,
    from: Side,
    sent: Vec<Part>,
    taken: Vec<Part>,
}

/// How far two lists of parts were compared: the part of each, and what of it is gone.
#[derive(Clone, Copy)]
struct Progress {
    sent: usize,
    taken: usize,
    left_of_sent: u32,
    left_of_taken: u32,
}

/// The stream from a side of a pair, by its number.
fn stream_from(room: &mut Room, streams: &mut Vec<Stream>, pair: u32, from: Side) -> usize {
    for (at, stream) in streams.iter().enumerate() {
        if stream.pair == pair && stream.from == from {
            return at;
        }
    }
    let at = streams.len();
    let stream = Stream {
        pair,
        from,
        sent: room.list(),
        taken: room.list(),
    };
    room.push(streams, stream);
    at
}

/// Notes what an entry sends or takes.
fn add_part(
    room: &mut Room,
    streams: &mut Vec<Stream>,
    end: RecordedEnd,
    is_sent: bool,
    part: Part,
) {
    let from = if is_sent { end.side } else { end.side.other() };
    let at = stream_from(room, streams, end.pair, from);
    if let Some(stream) = streams.get_mut(at) {
        if is_sent {
            room.push(&mut stream.sent, part);
        } else {
            room.push(&mut stream.taken, part);
        }
    }
}

/// Notes what a call sends or takes, if it does.
fn add_call(room: &mut Room, streams: &mut Vec<Stream>, made: &MadeCall, entry: usize) {
    let is_sent = match passed_by(made.call) {
        Passed::ByteOut => true,
        Passed::ByteIn => false,
        Passed::Nothing | Passed::DescriptorIn | Passed::DescriptorOut => return,
    };
    let bytes = made.bytes.unwrap_or(0);
    if let Some(end) = end_through(made) {
        if end.pair > 0 && bytes > 0 {
            add_part(room, streams, end, is_sent, Part { entry, bytes });
        }
    }
}

/// How many bytes a part has; none, where there is no more.
fn bytes_of(parts: &[Part], at: usize) -> u32 {
    match parts.get(at) {
        Some(part) => part.bytes,
        None => 0,
    }
}

/// One message more of an entry.
fn count(messages: &mut Vec<u32>, entry: usize) {
    if let Some(own) = messages.get_mut(entry) {
        *own = own.saturating_add(1);
    }
}

impl Progress {
    /// What is left of the parts at which it stands.
    fn begin(&mut self, stream: &Stream) {
        if self.left_of_sent == 0 {
            self.left_of_sent = bytes_of(&stream.sent, self.sent);
        }
        if self.left_of_taken == 0 {
            self.left_of_taken = bytes_of(&stream.taken, self.taken);
        }
    }

    /// Goes on by the bytes that are common to both parts.
    fn go_on(&mut self) {
        let common = self.left_of_sent.min(self.left_of_taken);
        self.left_of_sent = self.left_of_sent.saturating_sub(common);
        self.left_of_taken = self.left_of_taken.saturating_sub(common);
        if self.left_of_sent == 0 {
            self.sent = self.sent.saturating_add(1);
        }
        if self.left_of_taken == 0 {
            self.taken = self.taken.saturating_add(1);
        }
    }
}

/// Counts the messages of a stream.
fn count_stream(messages: &mut Vec<u32>, stream: &Stream) {
    let mut progress = Progress {
        sent: 0,
        taken: 0,
        left_of_sent: 0,
        left_of_taken: 0,
    };
    for _ in 0..stream.sent.len().saturating_add(stream.taken.len()) {
        progress.begin(stream);
        let (Some(sent), Some(taken)) = (
            stream.sent.get(progress.sent),
            stream.taken.get(progress.taken),
        ) else {
            break;
        };
        count(messages, sent.entry);
        count(messages, taken.entry);
        progress.go_on();
    }
}

/// For each entry how many messages it is: a read of what came in three parts is three, as is a write that is taken in three.
pub(crate) fn messages_of(room: &mut Room, entries: &[Entry]) -> Vec<u32> {
    let mut streams = room.list();
    let mut messages = room.list();
    for (at, entry) in entries.iter().enumerate() {
        room.push(&mut messages, 0);
        if let Event::Called(made) = &entry.event {
            add_call(room, &mut streams, made, at);
        }
    }
    for stream in &streams {
        count_stream(&mut messages, stream);
    }
    messages
}
