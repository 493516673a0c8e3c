//! Calls that make descriptors which are of no node, as calls.

use crate::argument_values::{Mention, closes_on_exec, first_listed, next_listed};
use crate::entries::{Outcome, Reason};
use crate::held::{Referent, WORLD};
use crate::other_rights::OtherRight;
use crate::runs::Run;
use crate::seen_calls::{SeenCall, Through};
use crate::strace_texts::same_bytes;
use rights::{Call, Errno, Side};

/// Which argument has the flags of a pair, and which those of a connection.
const FLAGS: usize = 1;

const CONNECTION_FLAGS: usize = 3;

/// Makes an end of a pair known.
fn hold_end(run: &mut Run, end: Mention<'_>, kept: Referent, closes_on_exec: bool) {
    run.known.hold(end.number, kept, closes_on_exec);
    run.known.note_end(end.note, kept);
}

/// That an end doesn't wait.
fn add_nonblock(run: &mut Run, seen: &SeenCall<'_>, end: Mention<'_>) {
    let through = Through { seen, mention: end };
    run.known.set_waiting(end, false);
    run.add_with(&through, Call::FcntlSetfl, 2, Some(Outcome::Success(0)));
}

/// A pair with these ends.
fn add_pair(run: &mut Run, seen: &SeenCall<'_>, first: Mention<'_>, second: Mention<'_>) {
    let pair = run.known.new_pair();
    let closes_on_exec = seen.has_any(FLAGS, &[b"SOCK_CLOEXEC", b"O_CLOEXEC"]);
    hold_end(run, first, Referent::End(pair, Side::A), closes_on_exec);
    hold_end(run, second, Referent::End(pair, Side::B), closes_on_exec);
    let outcome = Some(Outcome::Success(first.number));
    let about = [Some(first), Some(second)];
    run.add(seen, Call::Socketpair, &[], outcome, about);
    if seen.has_any(FLAGS, &[b"SOCK_NONBLOCK", b"O_NONBLOCK"]) {
        add_nonblock(run, seen, first);
        add_nonblock(run, seen, second);
    }
}

/// Takes a call that makes a pair, whose ends are listed in this argument. Why it is left out is told, if it is.
pub(crate) fn take(run: &mut Run, seen: &SeenCall<'_>, ends: usize) -> Option<Reason> {
    if !seen.succeeds() {
        run.add_alone(seen, Call::Socketpair, seen.outcome);
        return None;
    }
    let Some(first) = first_listed(seen.argument(ends)) else {
        return Some(Reason::Unknown);
    };
    let Some(second) = next_listed(first.behind) else {
        return Some(Reason::Unknown);
    };
    add_pair(run, seen, first.mention, second.mention);
    None
}

/// Takes a call that makes a descriptor of the world: another number for an end of the world's pair that the process had before. Why it is
/// left out is told, if it is; other signals for a descriptor that is there make none.
pub(crate) fn take_world(run: &mut Run, seen: &SeenCall<'_>) -> Option<Reason> {
    let name = seen.name.bytes;
    let is_of_signals = same_bytes(name, b"signalfd") || same_bytes(name, b"signalfd4");
    if is_of_signals && seen.mention(0).is_some() {
        return Some(Reason::Quiet);
    }
    let world = Mention {
        number: run.known.process.table.world_number(),
        note: b"",
    };
    let made = match seen.outcome {
        Some(Outcome::Success(number)) => {
            run.known.hold(number, WORLD, closes_on_exec(seen.text));
            Some(Mention { number, ..world })
        }
        Some(Outcome::Failure(Errno::EMFILE | Errno::ENFILE)) => None,
        _ => return Some(Reason::Unknown),
    };
    let through = Through {
        seen,
        mention: world,
    };
    run.add_on(&through, Call::Dup, made, seen.outcome);
    None
}

/// Makes the descriptor known that is listened on: of the world, where nothing else is known.
fn listen_on(run: &mut Run, listener: Mention<'_>) {
    if matches!(run.known.kept_of(listener), Referent::Unknown) {
        run.known.hold(listener.number, WORLD, false);
    }
}

/// A connection through the descriptor that is listened on: an end of a new pair, whose other end the world has.
fn add_connection(run: &mut Run, through: &Through<'_>, made: Mention<'_>) {
    let seen = through.seen;
    let pair = run.known.new_pair();
    let closes_on_exec = closes_on_exec(seen.text);
    hold_end(run, made, Referent::End(pair, Side::A), closes_on_exec);
    run.add_on(through, Call::Recvfd, seen.made, seen.outcome);
    if seen.has(CONNECTION_FLAGS, b"SOCK_NONBLOCK") {
        add_nonblock(run, seen, made);
    }
    run.want(seen, Reason::Right, OtherRight::Accept, through.mention);
}

/// Takes a call that makes a connection, which comes through the descriptor that is listened on. Why it is left out is told, if it is.
pub(crate) fn take_connection(run: &mut Run, seen: &SeenCall<'_>) -> Option<Reason> {
    let Some(mention) = seen.mention(0) else {
        return Some(Reason::Unknown);
    };
    let through = Through { seen, mention };
    if let Some(made) = seen.made {
        listen_on(run, mention);
        add_connection(run, &through, made);
        return None;
    }
    if !matches!(seen.outcome, Some(Outcome::Failure(Errno::EMFILE))) {
        return Some(Reason::Unknown);
    }
    listen_on(run, mention);
    run.add_lone(&through, Call::Recvfd);
    None
}
