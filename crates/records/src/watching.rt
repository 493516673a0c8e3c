//! The sets of descriptors that calls wait for, and what queues of events watch.

use crate::argument_values::{Listed, Mention, counted_of, has_word};
use crate::forms::Form;
use crate::runs::Run;
use crate::seen_calls::SeenCall;
use crate::strace_texts::without_spaces;
use texts::first_part;

/// The argument of `kevent` that has the changes.
pub(crate) const CHANGES: usize = 1;

/// The filters of events that are of descriptors.
const FILTERS: [&[u8]; 5] = [
    b"EVFILT_READ",
    b"EVFILT_WRITE",
    b"EVFILT_EMPTY",
    b"EVFILT_VNODE",
    b"EVFILT_PROCDESC",
];

/// A member of a set: a descriptor, the word that it begins, and what stands behind that.
#[derive(Clone, Copy)]
pub(crate) struct Member<'t> {
    pub mention: Mention<'t>,
    word: &'t [u8],
    pub behind: &'t [u8],
}

impl<'t> Member<'t> {
    /// Whether a change of a queue is of a descriptor: it has one of the filters that are.
    pub(crate) fn is_of_descriptor(self) -> bool {
        for filter in &FILTERS {
            if has_word(self.word, filter) {
                return true;
            }
        }
        false
    }
}

/// What stands in the brackets that a set begins with.
pub(crate) fn inside_set(text: &[u8]) -> &[u8] {
    match text {
        [b'[' | b'{', rest @ ..] => rest,
        _ => b"",
    }
}

/// The member of a set that a text begins with, if it begins with one.
pub(crate) fn member_of(text: &[u8]) -> Option<Member<'_>> {
    let Some(Listed { mention, behind }) = counted_of(without_spaces(text)) else {
        return None;
    };
    let (word, rest) = first_part(behind, b' ');
    Some(Member {
        mention,
        word,
        behind: rest.unwrap_or(b""),
    })
}

/// Notes that a queue of events watches a descriptor, or watches it no more.
fn set_watched(run: &mut Run, queue: Mention<'_>, watched: Mention<'_>, goes_on: bool) {
    let watched_by = if goes_on { Some(queue.number) } else { None };
    run.known
        .process
        .table
        .set_watched(watched.number, watched_by);
}

/// Notes what changes of a queue of events have it watch.
fn note_changes(run: &mut Run, seen: &SeenCall<'_>, queue: Mention<'_>) {
    let mut rest = inside_set(seen.argument(CHANGES));
    for _ in 0..rest.len() {
        let Some(change) = member_of(rest) else {
            return;
        };
        if change.is_of_descriptor() {
            let goes_on = !has_word(change.word, b"EV_DELETE");
            set_watched(run, queue, change.mention, goes_on);
        }
        rest = change.behind;
    }
}

/// Notes what a call that succeeds has a queue of events watch.
pub(crate) fn note_watched(run: &mut Run, seen: &SeenCall<'_>, form: Form) {
    let (Some(queue), true) = (seen.mention(0), seen.succeeds()) else {
        return;
    };
    match (form, seen.mention(2)) {
        (Form::Watches, Some(watched)) => {
            set_watched(run, queue, watched, !seen.has(1, b"EPOLL_CTL_DEL"));
        }
        (Form::ChangesQueue, _) => note_changes(run, seen, queue),
        _ => {}
    }
}
