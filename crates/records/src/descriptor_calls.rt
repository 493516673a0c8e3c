//! Calls that work on a descriptor, as calls.

use crate::argument_values::{Mention, has_word};
use crate::entries::{Outcome, Reason};
use crate::forms::OnDescriptor;
use crate::held::MAX_FOLLOWED;
use crate::limiting;
use crate::other_rights::OtherRight;
use crate::runs::Run;
use crate::seen_calls::{SeenCall, Through};
use crate::strace::System;
use rights::{Call, Errno};

/// The bits of a description's flags, of Linux and of FreeBSD.
const APPEND: u32 = 0x400;

const NONBLOCK: u32 = 0x800;

const FREEBSD_APPEND: u32 = 0x8;

const FREEBSD_NONBLOCK: u32 = 0x4;

/// The flags of a description as the calls have them: 1 append, 2 nonblock.
fn description_flags(append: bool, nonblock: bool) -> u32 {
    u32::from(append) + 2 * u32::from(nonblock)
}

/// Another number for a descriptor. That it was asked for a number that there can't be has no counterpart here.
fn add_duplicate(run: &mut Run, through: &Through<'_>, closes_on_exec: bool) -> Option<Reason> {
    let seen = through.seen;
    if let Some(Outcome::Failure(Errno::EINVAL)) = seen.outcome {
        return Some(Reason::Unknown);
    }
    if let Some(made) = seen.made {
        let kept = run.known.kept_of(through.mention);
        run.known.hold(made.number, kept, closes_on_exec);
    }
    run.add_on(through, Call::Dup, seen.made, seen.outcome);
    None
}

/// A close, which takes the number away where it succeeds.
fn add_close(run: &mut Run, through: &Through<'_>, outcome: Option<Outcome>) {
    run.add_on(through, Call::Close, None, outcome);
    if matches!(outcome, Some(Outcome::Success(_))) {
        run.known.process.table.put(through.mention.number, None);
    }
}

/// A close that another call brings about.
pub(crate) fn add_silent_close(run: &mut Run, seen: &SeenCall<'_>, number: u32) {
    let mention = Mention { number, note: b"" };
    let through = Through { seen, mention };
    add_close(run, &through, Some(Outcome::Success(0)));
}

/// Whether a number is in use: it is known, or its note tells.
fn is_in_use(run: &Run, mention: Mention<'_>) -> bool {
    !mention.note.is_empty() || run.known.process.table.get(mention.number).is_some()
}

/// A descriptor put at a number, which is closed before if it is in use. That one in use couldn't be put there has no counterpart here.
fn add_duplicate_to(run: &mut Run, through: &Through<'_>) -> Option<Reason> {
    let seen = through.seen;
    let Some(mention) = seen.mention(1) else {
        return Some(Reason::Unknown);
    };
    if mention.number == through.mention.number {
        return Some(Reason::Quiet);
    }
    let is_past_limit = matches!(seen.outcome, Some(Outcome::Failure(Errno::EBADF)));
    if is_past_limit && is_in_use(run, through.mention) {
        return Some(Reason::Unknown);
    }
    if seen.succeeds() && is_in_use(run, mention) {
        let target = Through { seen, mention };
        add_close(run, &target, Some(Outcome::Success(0)));
    }
    add_duplicate(run, through, seen.has(2, b"O_CLOEXEC"))
}

/// The closing of all numbers from one to another that are known to be in use, now or where the process goes on as another program.
fn add_close_range(run: &mut Run, through: &Through<'_>) -> Option<Reason> {
    let seen = through.seen;
    if !seen.succeeds() {
        return Some(Reason::Unknown);
    }
    let last = match seen.mention(1) {
        Some(last) => last.number,
        None => u32::MAX,
    };
    let on_exec = seen.has(2, b"CLOSE_RANGE_CLOEXEC");
    let mut closes = false;
    for number in through.mention.number..MAX_FOLLOWED {
        if number <= last && run.known.process.table.get(number).is_some() {
            if on_exec {
                run.known.process.table.set_closing(number, true);
            } else {
                add_silent_close(run, seen, number);
                closes = true;
            }
        }
    }
    if closes { None } else { Some(Reason::Quiet) }
}

/// The flags of a description.
fn add_flags(run: &mut Run, through: &Through<'_>) {
    let (append, nonblock) = match run.known.system {
        System::Linux => (APPEND, NONBLOCK),
        System::FreeBsd => (FREEBSD_APPEND, FREEBSD_NONBLOCK),
    };
    let outcome = match through.seen.outcome {
        Some(Outcome::Success(bits)) => Some(Outcome::Success(description_flags(
            bits & append != 0,
            bits & nonblock != 0,
        ))),
        outcome => outcome,
    };
    run.add_on(through, Call::FcntlGetfl, None, outcome);
}

/// New flags of a description.
fn add_new_flags(run: &mut Run, through: &Through<'_>, append: bool, nonblock: bool) {
    let flags = description_flags(append, nonblock);
    if through.seen.succeeds() {
        run.known.set_waiting(through.mention, !nonblock);
    }
    run.add_with(through, Call::FcntlSetfl, flags, through.seen.outcome);
}

/// What an fcntl or an ioctl does.
#[derive(Clone, Copy)]
enum Command {
    Flags,
    NewFlags,
    Duplicate,
    DuplicateClosing,
    Closing,
    Nothing,
    Lock,
    /// It isn't known.
    Unknown,
}

/// The fcntl commands that are known.
const COMMANDS: [(&[&[u8]], Command); 7] = [
    (&[b"F_GETFL"], Command::Flags),
    (&[b"F_SETFL"], Command::NewFlags),
    (&[b"F_DUPFD"], Command::Duplicate),
    (&[b"F_DUPFD_CLOEXEC"], Command::DuplicateClosing),
    (&[b"F_SETFD"], Command::Closing),
    (&[b"F_GETFD"], Command::Nothing),
    (
        &[
            b"F_SETLK",
            b"F_SETLKW",
            b"F_GETLK",
            b"F_OFD_SETLK",
            b"F_OFD_SETLKW",
            b"F_OFD_GETLK",
            b"F_SETLK64",
            b"F_SETLKW64",
            b"F_GETLK64",
        ],
        Command::Lock,
    ),
];

/// What an fcntl is asked to do.
fn command_of(seen: &SeenCall<'_>) -> Command {
    for (names, command) in &COMMANDS {
        if seen.has_any(1, names) {
            return *command;
        }
    }
    Command::Unknown
}

/// An fcntl.
fn add_fcntl(run: &mut Run, through: &Through<'_>) -> Option<Reason> {
    let seen = through.seen;
    match command_of(seen) {
        Command::Flags => add_flags(run, through),
        Command::NewFlags => {
            let nonblock = seen.has_any(2, &[b"O_NONBLOCK", b"O_NDELAY"]);
            add_new_flags(run, through, seen.has(2, b"O_APPEND"), nonblock);
        }
        Command::Duplicate => return add_duplicate(run, through, false),
        Command::DuplicateClosing => return add_duplicate(run, through, true),
        Command::Closing => {
            let closes_on_exec = seen.has(2, b"FD_CLOEXEC");
            let table = &mut run.known.process.table;
            table.set_closing(through.mention.number, closes_on_exec);
            return Some(Reason::Quiet);
        }
        Command::Nothing => return Some(Reason::Quiet),
        Command::Lock => run.want(seen, Reason::Right, OtherRight::Flock, through.mention),
        Command::Unknown => return Some(Reason::Unknown),
    }
    None
}

/// An ioctl.
fn add_ioctl(run: &mut Run, through: &Through<'_>) -> Option<Reason> {
    let seen = through.seen;
    if !seen.has_any(1, &[b"FIOCLEX", b"FIONCLEX"]) {
        run.want(seen, Reason::Right, OtherRight::Ioctl, through.mention);
        return None;
    }
    let table = &mut run.known.process.table;
    table.set_closing(through.mention.number, seen.has(1, b"FIOCLEX"));
    Some(Reason::Quiet)
}

/// Takes the descriptor of a call that succeeds by files alone for the file that its note tells. Whether it still isn't one is told: then the
/// call is left out, as of a device.
pub(crate) fn is_of_no_file(run: &mut Run, through: &Through<'_>) -> bool {
    if !through.seen.succeeds() {
        return false;
    }
    run.known.take_for_file(through.mention);
    run.known.is_end(through.mention)
}

/// Whether a call fails as none by a node does here: what it is of has no offset or keeps nothing, as a terminal, or was asked for an offset that
/// there can't be.
pub(crate) fn is_refused_by_node(run: &Run, through: &Through<'_>) -> bool {
    matches!(through.seen.outcome, Some(Outcome::Failure(Errno::EINVAL)))
        && run.known.is_node(through.mention)
}

/// Takes a call through a descriptor. Why it is left out is told, if it is.
fn take_through(run: &mut Run, through: &Through<'_>, form: OnDescriptor) -> Option<Reason> {
    if matches!(form, OnDescriptor::Seek | OnDescriptor::Sync) && is_refused_by_node(run, through) {
        return Some(Reason::Unknown);
    }
    let wants_file = matches!(
        form,
        OnDescriptor::Seek | OnDescriptor::Truncate | OnDescriptor::Sync
    );
    if wants_file && is_of_no_file(run, through) {
        return Some(Reason::Unknown);
    }
    match form {
        OnDescriptor::Seek => run.add_with(through, Call::Lseek, 0, through.seen.outcome),
        OnDescriptor::Truncate => run.add_with(through, Call::Ftruncate, 0, through.seen.outcome),
        OnDescriptor::Sync => run.add_lone(through, Call::Fsync),
        OnDescriptor::Status => run.add_lone(through, Call::Fstat),
        OnDescriptor::Duplicate => return add_duplicate(run, through, false),
        OnDescriptor::DuplicateTo => return add_duplicate_to(run, through),
        OnDescriptor::Close => add_close(run, through, through.seen.outcome),
        OnDescriptor::CloseRange => return add_close_range(run, through),
        OnDescriptor::Fcntl => return add_fcntl(run, through),
        OnDescriptor::Ioctl => return add_ioctl(run, through),
        OnDescriptor::LimitRights => return limiting::take_rights(run, through),
        OnDescriptor::LimitCommands => return limiting::take_commands(run, through),
    }
    None
}

/// Takes a call that works on the descriptor of its first argument. Why it is left out is told, if it is.
pub(crate) fn take(run: &mut Run, seen: &SeenCall<'_>, form: OnDescriptor) -> Option<Reason> {
    match seen.mention(0) {
        Some(mention) => take_through(run, &Through { seen, mention }, form),
        None => Some(Reason::Unknown),
    }
}
