//! Reads, writes and messages, as calls.

use crate::argument_values::{Listed, Mention, behind, first_listed, next_listed};
use crate::descriptor_calls::{is_of_no_file, is_refused_by_node};
use crate::entries::{Outcome, Reason};
use crate::forms::Streaming;
use crate::other_rights::OtherRight;
use crate::real_calls::Given;
use crate::runs::Run;
use crate::seen_calls::{SeenCall, Through};
use crate::strace::System;
use crate::strace_results::{Answer, answer_of};
use crate::strace_texts::{after, number, same_bytes};
use crate::wants::sent_by;
use rights::{Call, Errno};
use texts::{first_part, read_hex};

/// How many descriptors a message carries at most.
const MOST_CARRIED: usize = 253;

/// A write to a descriptor. One of no bytes is left out: here each write brings a byte.
fn add_write(run: &mut Run, through: &Through<'_>) -> Option<Reason> {
    let outcome = through.seen.outcome;
    if matches!(outcome, Some(Outcome::Success(0))) {
        return Some(Reason::Unknown);
    }
    run.add_with(through, Call::Write, 1, outcome);
    None
}

/// A seek before a read or a write at an offset, which it answers: whether the call gets past it.
fn add_seek(run: &mut Run, through: &Through<'_>, offset: u32) -> bool {
    let outcome = through.seen.outcome;
    if let Some(Outcome::Failure(Errno::EBADF | Errno::EINVAL)) = outcome {
        run.add_with(through, Call::Lseek, 0, outcome);
        return false;
    }
    run.add_with(through, Call::Lseek, 0, Some(Outcome::Success(offset)));
    true
}

/// Whether a call came to nothing at once, though what its descriptor is of waits, as far as is told: it was asked not to, or the descriptor was made
/// so.
fn gives_up(run: &mut Run, seen: &SeenCall<'_>, mention: Mention<'_>) -> bool {
    matches!(seen.outcome, Some(Outcome::Failure(Errno::EAGAIN))) && run.known.waits(mention)
}

/// Whether a call failed as none by an end does here: its descriptor is of a pipe, which is no socket and goes one way.
fn is_refused_by_pipe(run: &Run, seen: &SeenCall<'_>, mention: Mention<'_>) -> bool {
    matches!(
        seen.outcome,
        Some(Outcome::Failure(Errno::ENOTSOCK | Errno::EBADF))
    ) && run.known.is_end(mention)
}

/// Whether a call looks at what comes and leaves it there, or asks for no bytes: then it tells nothing of the next read.
fn takes_nothing(seen: &SeenCall<'_>, streaming: Streaming) -> bool {
    let asks_nothing = matches!(streaming, Streaming::Read | Streaming::ReadAt)
        && same_bytes(seen.argument(2), b"0");
    asks_nothing || seen.has(2, b"MSG_PEEK") || seen.has(3, b"MSG_PEEK")
}

/// Bytes that go from one descriptor to another: a read, and a write where there were any.
fn add_copy(run: &mut Run, source: &Through<'_>, target: &Through<'_>) -> Option<Reason> {
    let Some(made) = source.seen.made else {
        return Some(Reason::Unknown);
    };
    run.add_lone(source, Call::Read);
    if made.number == 0 {
        return None;
    }
    add_write(run, target)
}

/// The offset at which a `sendfile` begins to read, if that is told.
fn offset_of(run: &Run, seen: &SeenCall<'_>) -> Option<u32> {
    let offset = seen.argument(2);
    match run.known.system {
        System::FreeBsd => match answer_of(offset) {
            Some(Answer::Number(offset)) => Some(offset),
            _ => None,
        },
        System::Linux => match after(offset, b"[") {
            Some(digits) => number(first_part(digits, b']').0),
            None => None,
        },
    }
}

/// What is sent of a file: a seek, since FreeBSD reads at an offset always, a read, and a write. Where it isn't told at which offset, the right to seek is.
fn add_sent_file(run: &mut Run, file: &Through<'_>, socket: &Through<'_>) -> Option<Reason> {
    if file.seen.made.is_none() {
        return Some(Reason::Unknown);
    }
    match offset_of(run, file.seen) {
        Some(offset) => {
            add_seek(run, file, offset);
        }
        None => run.want(file.seen, Reason::Right, OtherRight::Seek, file.mention),
    }
    add_copy(run, file, socket)
}

/// Takes a call that copies the bytes of one descriptor to another.
fn take_copy(run: &mut Run, seen: &SeenCall<'_>, streaming: Streaming) -> Option<Reason> {
    let is_sent = matches!(streaming, Streaming::SendFile);
    let (from, to) = if is_sent {
        sent_by(run.known.system)
    } else {
        (0, 2)
    };
    let (Some(from), Some(to)) = (seen.mention(from), seen.mention(to)) else {
        return Some(Reason::Unknown);
    };
    let source = Through {
        seen,
        mention: from,
    };
    let target = Through { seen, mention: to };
    if is_sent {
        add_sent_file(run, &source, &target)
    } else {
        add_copy(run, &source, &target)
    }
}

/// Whether bytes are sent to an address.
fn has_address(seen: &SeenCall<'_>) -> bool {
    let message = seen.argument(1);
    // (as strace writes a message, and as truss does)
    behind(message, b"msg_name={").is_some()
        || message.starts_with(b"{{ ")
        || seen.argument(4).starts_with(b"{")
}

/// The first descriptor that a message carries. As truss writes it, its first byte stands in hexadecimal digits before a comma, and it is the
/// only one that is told.
fn first_carried<'t>(seen: &SeenCall<'t>) -> Option<Listed<'t>> {
    let message = seen.argument(1);
    if let Some(list) = behind(message, b"cmsg_type=SCM_RIGHTS, cmsg_data=") {
        return first_listed(list);
    }
    let Some(bytes) = behind(message, b"type=SCM_RIGHTS,data={0x") else {
        return None;
    };
    let (digits, _others) = first_part(bytes, b',');
    match read_hex(digits, 2) {
        Some(number) => Some(Listed {
            mention: Mention { number, note: b"" },
            behind: b"]",
        }),
        None => None,
    }
}

/// A message that is sent.
fn add_sending(run: &mut Run, through: &Through<'_>) -> Option<Reason> {
    let (seen, socket) = (through.seen, through.mention);
    let mut next = first_carried(seen);
    if next.is_none() {
        return add_write(run, through);
    }
    for _ in 0..MOST_CARRIED {
        let Some(listed) = next else {
            break;
        };
        let sent = listed.mention;
        let given = [
            Given::Number(socket.number),
            Given::Number(sent.number),
            Given::Number(1),
        ];
        let about = [Some(socket), Some(sent)];
        if seen.succeeds() {
            run.known.pass(socket, sent);
        }
        run.add(seen, Call::Sendfd, &given, seen.outcome, about);
        next = next_listed(listed.behind);
    }
    None
}

/// A descriptor that is received.
fn add_received(run: &mut Run, through: &Through<'_>, received: Mention<'_>) {
    let kept = run.known.received(through.mention, received);
    let closes_on_exec = through.seen.has(2, b"MSG_CMSG_CLOEXEC");
    run.known.hold(received.number, kept, closes_on_exec);
    let outcome = Some(Outcome::Success(received.number));
    run.add_on(through, Call::Recvfd, Some(received), outcome);
}

/// A message that is received.
fn add_receipt(run: &mut Run, through: &Through<'_>) {
    let mut next = first_carried(through.seen);
    if next.is_none() || !through.seen.succeeds() {
        return run.add_lone(through, Call::Read);
    }
    for _ in 0..MOST_CARRIED {
        let Some(listed) = next else {
            break;
        };
        add_received(run, through, listed.mention);
        next = next_listed(listed.behind);
    }
}

/// Takes a read, a write or a message through a descriptor. Why it is left out is told, if it is.
fn take_through(run: &mut Run, through: &Through<'_>, streaming: Streaming) -> Option<Reason> {
    // (an offset of -1 is the current one)
    let is_at = matches!(streaming, Streaming::ReadAt | Streaming::WriteAt)
        && !same_bytes(through.seen.argument(3), b"-1");
    if is_refused_by_node(run, through) || is_at && is_of_no_file(run, through) {
        return Some(Reason::Unknown);
    }
    if is_at {
        let offset = number(through.seen.argument(3)).unwrap_or(0);
        if !add_seek(run, through, offset) {
            return None;
        }
    }
    if matches!(streaming, Streaming::Write | Streaming::SendMessage) && has_address(through.seen) {
        run.want(
            through.seen,
            Reason::Global,
            OtherRight::Connect,
            through.mention,
        );
    }
    match streaming {
        Streaming::Write | Streaming::WriteAt => return add_write(run, through),
        Streaming::SendMessage => return add_sending(run, through),
        Streaming::ReceiveMessage => add_receipt(run, through),
        _ => run.add_lone(through, Call::Read),
    }
    None
}

/// Takes a read, a write, a copy or a message. Why it is left out is told, if it is.
pub(crate) fn take(run: &mut Run, seen: &SeenCall<'_>, streaming: Streaming) -> Option<Reason> {
    match streaming {
        Streaming::SendFile | Streaming::Splice => return take_copy(run, seen, streaming),
        _ if takes_nothing(seen, streaming) => return Some(Reason::Unknown),
        _ => {}
    }
    match seen.mention(0) {
        Some(mention)
            if seen.outcome.is_some()
                && !gives_up(run, seen, mention)
                && !is_refused_by_pipe(run, seen, mention) => {
            take_through(run, &Through { seen, mention }, streaming)
        }
        _ => Some(Reason::Unknown),
    }
}
