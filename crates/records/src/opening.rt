//! Opens, as calls.

use crate::argument_values::{has_word, place_note};
use crate::entries::{Outcome, Reason};
use crate::forms::Opening;
use crate::other_rights::OtherRight;
use crate::pairing::take_world;
use crate::real_calls::Given;
use crate::runs::Run;
use crate::seen_calls::SeenCall;
use crate::strace_texts::{offset_of, same_bytes};
use crate::targets::{AT, HERE, PathArgument, Target};
use rights::{Call, OpenFlags};

/// How these flags open a file, if that has a counterpart.
fn flags_of(flags: &[u8]) -> Option<OpenFlags> {
    if has_word(flags, b"O_TMPFILE") {
        return None;
    }
    let both = has_word(flags, b"O_RDWR");
    let write = both || has_word(flags, b"O_WRONLY");
    let append = write && has_word(flags, b"O_APPEND");
    let create = has_word(flags, b"O_CREAT");
    let trunc = write && has_word(flags, b"O_TRUNC");
    OpenFlags::new(both || !write, write, append, create, trunc)
}

/// The flags of an open that the calls here don't have, each with the error that it brings about: that the file be new, or a directory, or no link, or
/// come to without one, or at once.
const ASKED_MORE: [(&[u8], &[u8]); 6] = [
    (b"O_EXCL", b"EEXIST"),
    (b"O_DIRECTORY", b"ENOTDIR"),
    (b"O_NOFOLLOW", b"ELOOP"),
    (b"RESOLVE_NO_SYMLINKS", b"ELOOP"),
    (b"RESOLVE_NO_MAGICLINKS", b"ELOOP"),
    (b"RESOLVE_CACHED", b"EAGAIN"),
];

/// Whether an error is one that such a flag brings about.
fn brings_about_more(error: &[u8], asked: &[u8]) -> bool {
    ASKED_MORE.iter().any(|(flag, brought)| same_bytes(error, brought) && has_word(asked, flag))
}

/// The flags of an open that want a right more of the directory, where what is opened by its path alone is to be opened beneath one. (open(2),
/// rights(4); remembered of the kernel's sources)
const WANTED_MORE: [(&[u8], OtherRight); 4] = [
    (b"O_SYNC", OtherRight::Fsync),
    (b"O_FSYNC", OtherRight::Fsync),
    (b"O_EXLOCK", OtherRight::Flock),
    (b"O_SHLOCK", OtherRight::Flock),
];

/// Tells the rights that the flags of an open want more: of its directory, or of what it makes, to which the directory hands them on.
fn add_wanted_more(run: &mut Run, seen: &SeenCall<'_>, target: &Target<'_>, asked: &[u8]) {
    let Some(holder) = target.base.or(seen.made) else {
        return;
    };
    for (flag, right) in &WANTED_MORE {
        if has_word(asked, flag) {
            run.want(seen, Reason::Right, *right, holder);
        }
    }
    // (FreeBSD removes the bytes of what is opened for reading, too)
    let writes = has_word(asked, b"O_RDWR") || has_word(asked, b"O_WRONLY");
    if has_word(asked, b"O_TRUNC") && !writes {
        run.want(seen, Reason::Right, OtherRight::Ftruncate, holder);
    }
}

/// Puts an opened descriptor into its process's table.
fn hold(run: &mut Run, seen: &SeenCall<'_>, target: &Target<'_>, closes_on_exec: bool) {
    let Some(made) = seen.made else {
        return;
    };
    let kept = if made.note.is_empty() {
        run.known.kept_at(target)
    } else {
        run.known.kept_of_note(made.note)
    };
    run.known.hold(made.number, kept, closes_on_exec);
}

/// An open of what stands at a name, with flags of which these are asked.
fn add_open(
    run: &mut Run,
    seen: &SeenCall<'_>,
    target: &Target<'_>,
    flags: Option<OpenFlags>,
    asked: &[u8],
) -> Option<Reason> {
    let (Some(flags), true) = (flags, target.is_known) else {
        return Some(Reason::Unknown);
    };
    let outcome = if brings_about_more(seen.error, asked) {
        None
    } else {
        seen.outcome
    };
    let path = Given::Path(target.path.as_bytes());
    let flags = Given::Flags(flags);
    let about = [target.base, seen.made];
    match target.base {
        None => run.add(seen, Call::Open, &[path, flags], outcome, about),
        Some(base) => {
            let given = [Given::Number(base.number), path, flags];
            run.add(seen, Call::Openat, &given, outcome, about);
        }
    }
    None
}

/// How the name is told of what is opened.
fn naming_of(opening: Opening) -> PathArgument {
    match opening {
        Opening::At => AT,
        Opening::Plain | Opening::Creat => HERE,
    }
}

/// Whether an open is one that a loader makes: of a library, or of a file that tells where libraries are.
pub(crate) fn is_of_library(run: &mut Run, seen: &SeenCall<'_>, opening: Opening) -> bool {
    let target = run.known.target(seen, naming_of(opening));
    let path = target.path.as_bytes();
    offset_of(path, b".so").is_some()
        || offset_of(path, b"/ld-musl").is_some()
        || offset_of(path, b"/libmap").is_some()
}

/// Whether what was opened is no node, as its note tells: a pipe or a socket, by a name of a descriptor that is there.
fn is_of_no_node(seen: &SeenCall<'_>) -> bool {
    match seen.made {
        Some(made) => !made.note.is_empty() && place_note(made.note).is_none(),
        None => false,
    }
}

/// Takes an open. Why it is left out is told, if it is.
pub(crate) fn take(run: &mut Run, seen: &SeenCall<'_>, opening: Opening) -> Option<Reason> {
    let at = match opening {
        Opening::At => 2,
        Opening::Plain | Opening::Creat => 1,
    };
    let asked = seen.argument(at);
    let flags = match opening {
        Opening::Creat => OpenFlags::new(false, true, false, true, true),
        Opening::Plain | Opening::At => flags_of(asked),
    };
    let target = run.known.target(seen, naming_of(opening));
    if is_of_no_node(seen) {
        return take_world(run, seen);
    }
    hold(run, seen, &target, has_word(asked, b"O_CLOEXEC"));
    // (a path from a root of its own has no counterpart here)
    if has_word(asked, b"RESOLVE_IN_ROOT") && target.base.is_none() {
        return Some(Reason::Unknown);
    }
    let left_out = add_open(run, seen, &target, flags, asked);
    if left_out.is_none() {
        add_wanted_more(run, seen, &target, asked);
    }
    left_out
}
