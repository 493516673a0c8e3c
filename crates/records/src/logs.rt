//! The entries of a record as they are gathered: all of them within the limits of recorded calls.

ghost use Rattle.std.specs.Prelude.{◌≡◌, ◌≤◌, IfOk, true};
ghost use Rattle.records.specs.Calls.{are_calls, is_call_name, is_entry, is_event};
ghost use Rattle.records.specs.EntryViews.{calls_seen, event_seen, record_entry_seen};

use crate::entries::{Entry, Event, LeftOut, Reason, Span, WantedRight};
use crate::other_rights::OtherRight;
use crate::strace_texts::is_name;
use std::alloc::{AllocError, Global};

/// The name of a call.
#[derive(Clone, Copy)]
pub(crate) struct CallName<'t> {
    pub(crate) bytes: &'t [u8],
    pub ghost is_name: { is_call_name bytes.now ≡ true },
}

impl<'t> CallName<'t> {
    /// The name that a word is, if it is one.
    pub(crate) fn new(word: &'t [u8]) -> Option<CallName<'t>> {
        if is_name(word) {
            Some(CallName { bytes: word })
        } else {
            None
        }
    }
}

/// Which process makes a call, and the lines in which it begins and ends.
#[derive(Clone, Copy)]
pub(crate) struct When {
    first: u32,
    last: u32,
    process: u32,
    pub ghost ordered: { first ≤ last },
}

impl When {
    /// From this line to that one, or that of the first line alone where the other is before it.
    pub(crate) fn new(first: u32, last: u32, process: u32) -> When {
        When {
            first,
            last: last.max(first),
            process,
        }
    }
}

/// A call that is left out, and perhaps a right of a descriptor that is wanted for it.
pub(crate) fn left_out(
    alloc: Global,
    reason: Reason,
    name: CallName<'_>,
    wanted: Option<(OtherRight, u32)>,
) -> Result<Event, AllocError>
    ensures { IfOk result (λ event. is_event (event_seen event) ≡ true) }
{
    let name = Vec::from_slice(alloc, name.bytes)?;
    let wanted = match wanted {
        Some((right, descriptor)) => Some(WantedRight {
            right: Vec::from_slice(alloc, right.name().as_bytes())?,
            descriptor,
        }),
        None => None,
    };
    Ok(Event::Omitted(LeftOut {
        reason,
        name,
        wanted,
    }))
}

/// The entries so far. Where memory is refused it goes on without an entry, and the end says so.
#[derive(Drop)]
pub(crate) struct Log {
    entries: Vec<Entry>,
    is_short: bool,
    pub ghost within: { are_calls (calls_seen entries.items) ≡ true },
}

impl Log {
    ghost use Rattle.std.specs.Prelude.{◌≡◌, IfOk, true};
    ghost use Rattle.records.specs.Calls.{are_calls, is_entry, is_event};
    ghost use Rattle.records.specs.EntryViews.{calls_seen, event_seen, record_entry_seen};

    /// No entry.
    pub(crate) fn new(alloc: Global) -> Log {
        Log {
            entries: Vec::new(alloc),
            is_short: false,
        }
    }

    /// Adds what happened, if there was and is memory for it.
    pub(crate) fn add(&mut self, when: When, event: Result<Event, AllocError>)
        requires { IfOk event (λ event. is_event (event_seen event) ≡ true) }
    {
        let is_added = match event {
            Ok(event) => {
                let entry = Entry {
                    span: Span {
                        first: when.first,
                        last: when.last,
                    },
                    process: when.process,
                    event,
                };
                self.entries.push(entry).is_ok()
            }
            Err(_) => false,
        };
        self.is_short = self.is_short || !is_added;
    }

    /// The entries, if there was memory for all of them.
    pub(crate) fn into_entries(self) -> Result<Vec<Entry>, AllocError>
        ensures { IfOk result (λ entries. are_calls (calls_seen entries.items) ≡ true) }
    {
        if self.is_short {
            Err(AllocError)
        } else {
            Ok(self.entries)
        }
    }
}
