//! Calls that work on a process itself, as calls.

use crate::argument_values::has_word;
use crate::descriptor_calls::add_silent_close;
use crate::entries::{Outcome, Reason};
use crate::forms::OnProcess;
use crate::held::{MAX_FOLLOWED, Referent};
use crate::other_rights::OtherRight;
use crate::runs::Run;
use crate::seen_calls::SeenCall;
use crate::targets::HERE;
use rights::Call;

/// Whether what a clone makes is a thread of its process: it shares the descriptors.
pub(crate) fn is_thread(arguments: &[u8]) -> bool {
    has_word(arguments, b"CLONE_THREAD") || has_word(arguments, b"CLONE_FILES")
}

/// The going on as another program: what is close-on-exec is closed, and the loader begins.
fn add_execute(run: &mut Run, seen: &SeenCall<'_>) {
    if seen.succeeds() {
        for number in 0..MAX_FOLLOWED {
            let held = run.known.process.table.get(number);
            if matches!(held, Some(held) if held.closes_on_exec) {
                add_silent_close(run, seen, number);
            }
        }
        run.known.process.begin_program();
    }
}

/// What asking for the mode came to: it stands in brackets.
fn mode_outcome(seen: &SeenCall<'_>) -> Option<Outcome> {
    if !seen.succeeds() {
        None
    } else if seen.has(0, b"1") {
        Some(Outcome::Success(1))
    } else if seen.has(0, b"0") {
        Some(Outcome::Success(0))
    } else {
        None
    }
}

/// Takes a call that works on a process. Why it is left out is told, if it is.
pub(crate) fn take(run: &mut Run, seen: &SeenCall<'_>, form: OnProcess) -> Option<Reason> {
    let is_thread_end = matches!(form, OnProcess::EndThread);
    if is_thread_end && run.known.process.goes_on_without(seen.thread) {
        return Some(Reason::Quiet);
    }
    match form {
        OnProcess::Fork if is_thread(seen.text) => return Some(Reason::Quiet),
        OnProcess::Fork => run.add_alone(seen, Call::Fork, seen.outcome),
        OnProcess::Execute => {
            add_execute(run, seen);
            return Some(Reason::Global);
        }
        // A process ends once.
        OnProcess::End | OnProcess::EndThread => {
            if !run.end(seen.when) {
                return Some(Reason::Quiet);
            }
        }
        OnProcess::ChangeDirectory => {
            if seen.succeeds() {
                run.known.process.directory = run.known.kept_named(seen);
            }
            return Some(Reason::Global);
        }
        OnProcess::ChangeDirectoryTo => {
            let mention = seen.mention(0);
            if let (Some(mention), true) = (mention, seen.succeeds()) {
                run.known.process.directory = run.known.kept_of(mention);
            }
            let Some(directory) = mention else {
                return Some(Reason::Global);
            };
            run.want(seen, Reason::Global, OtherRight::Fchdir, directory);
        }
        OnProcess::ChangeRoot => {
            if seen.succeeds() {
                run.known.process.root = run.known.kept_named(seen);
            }
            return Some(Reason::Global);
        }
        OnProcess::EnterMode => run.add_alone(seen, Call::CapEnter, seen.outcome),
        OnProcess::GetMode => run.add_alone(seen, Call::CapGetmode, mode_outcome(seen)),
    }
    None
}
