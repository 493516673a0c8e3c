//! A call of a record, taken for what it is.

use crate::argument_values::here_note;
use crate::entries::Reason;
use crate::forms::{Form, OnDescriptor, OnName, Opening, Streaming, form_of};
use crate::other_rights::OtherRight;
use crate::runs::Run;
use crate::seen_calls::SeenCall;
use crate::strace_texts::same_bytes;
use crate::wants::{omit_unknown, omit_wanting};
use crate::watching::note_watched;
use crate::{descriptor_calls, name_calls, opening, pairing, process_calls, streaming};

/// Whether a call is by an input or an output that its process has from the start, which loaders leave alone.
fn is_by_standard(run: &Run, seen: &SeenCall<'_>) -> bool {
    match seen.mention(0) {
        Some(mention) => mention.number < 3
            && run.known.process.table.get(mention.number).is_some(),
        None => false,
    }
}

/// Whether the loader makes such a call.
fn is_of_loader(run: &mut Run, seen: &SeenCall<'_>, form: Form) -> bool {
    match form {
        Form::Opens(Opening::Creat) => false,
        Form::Opens(opening) => opening::is_of_library(run, seen, opening),
        Form::Map | Form::Name(OnName::Status | OnName::StatusAt) => true,
        Form::Streams(Streaming::Read | Streaming::ReadAt)
        | Form::Descriptor(OnDescriptor::Close | OnDescriptor::Status | OnDescriptor::Seek) => {
            !is_by_standard(run, seen)
        }
        _ => false,
    }
}

/// Takes a call that wants rights and is none of the calls here. Why it is left out otherwise is told, if it is: where it wants nothing, it has
/// nothing to do with descriptors, or goes by a global name.
fn take_wanting(run: &mut Run, seen: &SeenCall<'_>, form: Form) -> Option<Reason> {
    let (reason, otherwise) = match form {
        Form::WantsAt(_) => (Reason::Right, Reason::Global),
        Form::WantsGlobal(_, _) => (Reason::Global, Reason::Global),
        Form::WantsUnknown(_, _) => return Some(Reason::Unknown),
        Form::Wants(_, _) => (Reason::Right, Reason::Unknown),
        _ => (Reason::Right, Reason::Quiet),
    };
    let form = match form {
        Form::WantsAt(OtherRight::Futimesat) if seen.has(1, b"NULL") => {
            Form::WantsAt(OtherRight::Futimes)
        }
        _ => form,
    };
    let wants_something = omit_wanting(run, seen, form, reason);
    note_watched(run, seen, form);
    if wants_something {
        None
    } else {
        Some(otherwise)
    }
}

/// Takes a call of this form. Why it is left out is told, if it is.
fn take_form(run: &mut Run, seen: &SeenCall<'_>, form: Form) -> Option<Reason> {
    match form {
        Form::Opens(opening) => opening::take(run, seen, opening),
        Form::Streams(streaming) => streaming::take(run, seen, streaming),
        Form::Descriptor(form) => descriptor_calls::take(run, seen, form),
        Form::Name(form) => name_calls::take(run, seen, form),
        Form::Pair(ends) => pairing::take(run, seen, ends),
        Form::World => pairing::take_world(run, seen),
        Form::Connection => pairing::take_connection(run, seen),
        Form::Process(form) => process_calls::take(run, seen, form),
        // A mapping of a file wants a right; one of memory, nothing.
        Form::Map if seen.mention(4).is_none() || seen.has(3, b"MAP_ANONYMOUS") => {
            Some(Reason::Quiet)
        }
        Form::LeftOut(reason) => Some(reason),
        _ => take_wanting(run, seen, form),
    }
}

/// Takes a call. It may tell which the current directory is.
pub(crate) fn take(run: &mut Run, seen: &SeenCall<'_>) {
    if let Some(note) = here_note(seen.argument(0)) {
        run.known.note_directory(note);
    }
    let form = form_of(seen.name.bytes);
    if run.known.process.is_loading {
        if is_of_loader(run, seen, form) {
            return run.omit(seen, Reason::Loader);
        }
        // A call that has nothing to do with files, or reads a link, or isn't known, says nothing of that.
        let says_nothing = matches!(
            form,
            Form::LeftOut(Reason::Quiet | Reason::Global | Reason::Name)
        );
        if !says_nothing || same_bytes(seen.name.bytes, b"set_tid_address") {
            run.known.process.is_loading = false;
        }
    }
    match take_form(run, seen, form) {
        Some(Reason::Unknown) => omit_unknown(run, seen),
        Some(reason) => run.omit(seen, reason),
        None => {}
    }
}
