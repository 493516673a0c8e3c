//! Which rights FreeBSD wants of descriptors for the calls that are left out, as far as they are known. (own: by rights(4), cap_rights_limit(2), and
//! what is remembered of the kernel's sources)

use crate::argument_values::{Mention, behind, here_note, mention_of};
use crate::entries::Reason;
use crate::forms::{Form, OnDescriptor, Streaming, form_of};
use crate::held::MAX_FOLLOWED;
use crate::known::Known;
use crate::other_rights::OtherRight;
use crate::runs::Run;
use crate::seen_calls::SeenCall;
use crate::strace::System;
use crate::strace_texts::same_bytes;
use crate::watching::{CHANGES, inside_set, member_of};

/// A right that is wanted of the descriptor of a number.
#[derive(Clone, Copy, PartialEq, Eq)]
pub(crate) struct Want {
    right: OtherRight,
    number: u32,
}

/// The rights that a call wants, each of a descriptor once.
#[derive(Drop)]
pub(crate) struct Wants {
    list: Vec<Want>,
    /// Whether memory was refused for one of them.
    is_short: bool,
}

/// The arguments that have the sets of descriptors which a `select` waits for.
const FIRST_SET: usize = 1;

const BEHIND_SETS: usize = 4;

/// The arguments of `kevent` that tell how many changes and events there are.
const CHANGE_COUNT: usize = 2;

const EVENT_COUNT: usize = 4;

/// The right that a mapping wants, by what it is for. What is written into a mapping of one's own isn't written to the file.
fn mapping_right(seen: &SeenCall<'_>) -> OtherRight {
    let writes = seen.has(2, b"PROT_WRITE") && !seen.has(3, b"MAP_PRIVATE");
    match (seen.has(2, b"PROT_READ"), writes, seen.has(2, b"PROT_EXEC")) {
        (false, false, false) => OtherRight::Mmap,
        (true, false, false) => OtherRight::MmapRead,
        (false, true, false) => OtherRight::MmapWrite,
        (false, false, true) => OtherRight::MmapExecute,
        (true, true, false) => OtherRight::MmapReadWrite,
        (true, false, true) => OtherRight::MmapReadExecute,
        (false, true, true) => OtherRight::MmapWriteExecute,
        (true, true, true) => OtherRight::MmapAll,
    }
}

impl Wants {
    /// Adds a right that is wanted of a descriptor, if there is one and it isn't wanted already.
    fn add(&mut self, right: OtherRight, mention: Option<Mention<'_>>) {
        let Some(mention) = mention else {
            return;
        };
        let want = Want {
            right,
            number: mention.number,
        };
        if !self.list.contains(&want) && self.list.push(want).is_err() {
            self.is_short = true;
        }
    }

    /// Adds what a call wants that works on the bytes of descriptors.
    fn add_streaming(&mut self, known: &Known, seen: &SeenCall<'_>, streaming: Streaming) {
        let first = seen.mention(0);
        match streaming {
            Streaming::Read | Streaming::ReceiveMessage => self.add(OtherRight::Read, first),
            Streaming::Write | Streaming::SendMessage => self.add(OtherRight::Write, first),
            Streaming::ReadAt => {
                self.add(OtherRight::Read, first);
                self.add(OtherRight::Seek, first);
            }
            Streaming::WriteAt => {
                self.add(OtherRight::Write, first);
                self.add(OtherRight::Seek, first);
            }
            Streaming::SendFile => {
                let (file, socket) = sent_by(known.system);
                self.add(OtherRight::Read, seen.mention(file));
                self.add(OtherRight::Seek, seen.mention(file));
                self.add(OtherRight::Write, seen.mention(socket));
            }
            Streaming::Splice => {
                self.add(OtherRight::Read, first);
                self.add(OtherRight::Write, seen.mention(2));
            }
        }
    }

    /// Adds what a call wants that works on a descriptor.
    fn add_on(&mut self, seen: &SeenCall<'_>, form: OnDescriptor) {
        let right = match form {
            OnDescriptor::Seek => OtherRight::Seek,
            OnDescriptor::Truncate => OtherRight::Ftruncate,
            OnDescriptor::Sync => OtherRight::Fsync,
            OnDescriptor::Status => OtherRight::Fstat,
            OnDescriptor::Ioctl => OtherRight::Ioctl,
            OnDescriptor::Fcntl if seen.has_any(1, &[b"F_GETFL", b"F_SETFL"]) => OtherRight::Fcntl,
            _ => return,
        };
        self.add(right, seen.mention(0));
    }

    /// Adds the descriptors of the sets that a call waits for.
    fn add_sets(&mut self, seen: &SeenCall<'_>) {
        let polled = seen.argument(0);
        let mut rest = polled;
        for _ in 0..polled.len() {
            let Some(next) = behind(rest, b"{fd=") else {
                break;
            };
            rest = next;
            self.add(OtherRight::Event, mention_of(rest));
        }
        self.add_members(polled);
        for at in FIRST_SET..BEHIND_SETS {
            self.add_members(seen.argument(at));
        }
    }

    /// Adds that events are waited for of the descriptors with which the words of a set begin.
    fn add_members(&mut self, set: &[u8]) {
        let mut rest = inside_set(set);
        for _ in 0..set.len() {
            let Some(member) = member_of(rest) else {
                return;
            };
            self.add(OtherRight::Event, Some(member.mention));
            rest = member.behind;
        }
    }

    /// Adds those that a queue of events watches.
    fn add_watched(&mut self, known: &Known, queue: Mention<'_>) {
        for number in 0..MAX_FOLLOWED {
            if known.process.table.is_watched_by(number, queue.number) {
                let watched = Mention { number, note: b"" };
                self.add(OtherRight::Event, Some(watched));
            }
        }
    }

    /// Adds what waiting for a queue of events wants.
    fn add_queue(&mut self, known: &Known, queue: Option<Mention<'_>>) {
        self.add(OtherRight::KqueueEvent, queue);
        if let Some(queue) = queue {
            self.add_watched(known, queue);
        }
    }

    /// Adds what a change of what a queue watches wants.
    fn add_change(&mut self, queue: Option<Mention<'_>>, watched: Option<Mention<'_>>) {
        self.add(OtherRight::KqueueChange, queue);
        self.add(OtherRight::Event, watched);
    }

    /// Adds what the changes of a queue want.
    fn add_changes(&mut self, seen: &SeenCall<'_>) {
        let queue = seen.mention(0);
        self.add(OtherRight::KqueueChange, queue);
        let changes = seen.argument(CHANGES);
        let mut rest = inside_set(changes);
        for _ in 0..changes.len() {
            let Some(change) = member_of(rest) else {
                return;
            };
            if change.is_of_descriptor() {
                self.add(OtherRight::Event, Some(change.mention));
            }
            rest = change.behind;
        }
    }

    /// Adds what a call wants that changes a queue and waits for it.
    fn add_kevent(&mut self, known: &Known, seen: &SeenCall<'_>) {
        if !same_bytes(seen.argument(CHANGE_COUNT), b"0") {
            self.add_changes(seen);
        }
        if !same_bytes(seen.argument(EVENT_COUNT), b"0") {
            self.add_queue(known, seen.mention(0));
        }
    }
}

/// Which arguments of a `sendfile` are the file and the socket. (sendfile(2) of each system)
pub(crate) fn sent_by(system: System) -> (usize, usize) {
    match system {
        System::Linux => (1, 0),
        System::FreeBsd => (0, 1),
    }
}

/// The rights that a call of a form wants.
fn wants_of(known: &Known, seen: &SeenCall<'_>, form: Form) -> Wants {
    let mut wants = Wants {
        list: Vec::new(known.alloc),
        is_short: false,
    };
    match form {
        Form::Streams(streaming) => wants.add_streaming(known, seen, streaming),
        Form::Descriptor(form) => wants.add_on(seen, form),
        Form::Connection => wants.add(OtherRight::Accept, seen.mention(0)),
        Form::Map => wants.add(mapping_right(seen), seen.mention(4)),
        Form::Waits => wants.add_sets(seen),
        Form::WaitsForQueue => wants.add_queue(known, seen.mention(0)),
        Form::Watches => wants.add_change(seen.mention(0), seen.mention(2)),
        Form::ChangesQueue => wants.add_kevent(known, seen),
        Form::WantsAt(_) if here_note(seen.argument(0)).is_some() => {}
        Form::WantsAt(right) => wants.add(right, seen.mention(0)),
        Form::Wants(right, at) | Form::WantsGlobal(right, at) | Form::WantsUnknown(right, at) => {
            wants.add(right, seen.mention(at));
        }
        Form::Opens(_)
        | Form::Name(_)
        | Form::Pair(_)
        | Form::World
        | Form::Process(_)
        | Form::LeftOut(_) => {}
    }
    wants
}

/// Leaves a call out for a reason, once for each right that it wants. Whether there is one is told.
pub(crate) fn omit_wanting(run: &mut Run, seen: &SeenCall<'_>, form: Form, reason: Reason) -> bool {
    let wants = wants_of(&run.known, seen, form);
    if wants.is_short {
        run.known.is_short = true;
    }
    for want in &wants.list {
        run.omit_at(
            seen.when,
            reason,
            seen.name,
            Some((want.right, want.number)),
        );
    }
    !wants.list.is_empty()
}

/// Leaves a call out of which it isn't known what became, with the rights that it wants.
pub(crate) fn omit_unknown(run: &mut Run, seen: &SeenCall<'_>) {
    let form = form_of(seen.name.bytes);
    if !omit_wanting(run, seen, form, Reason::Unknown) {
        run.omit(seen, Reason::Unknown);
    }
}
