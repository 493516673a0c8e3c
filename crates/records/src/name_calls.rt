//! Calls that work by a name, as calls.

ghost use Rattle.std.specs.Prelude.{◌≡◌, [], ◌∷◌};
ghost use Rattle.rights.specs.Views.{call_of};
ghost use Rattle.records.specs.Calls.{A_number, A_path, operand_kinds};

use crate::argument_values::{Mention, has_word, here_note};
use crate::entries::{Outcome, Reason};
use crate::forms::OnName;
use crate::real_calls::Given;
use crate::runs::Run;
use crate::seen_calls::{SeenCall, Through};
use crate::strace_texts::same_bytes;
use crate::targets::{AT, HERE, NEW_AT, NEW_HERE, PathArgument, Target};
use rights::{Call, Errno};

/// The first directory, in a rename of global names: of a number that no process has.
const ROOT: Mention<'static> = Mention {
    number: u32::MAX,
    note: b"/",
};

/// Whether a status is asked of a descriptor itself: by an empty name.
fn is_of_itself(seen: &SeenCall<'_>) -> bool {
    let name = seen.argument(1);
    if !same_bytes(name, b"\"\"") && !has_word(name, b"NULL") {
        return false;
    }
    if !seen.has(2, b"AT_EMPTY_PATH") && !seen.has(3, b"AT_EMPTY_PATH") {
        return false;
    }
    here_note(seen.argument(0)).is_none()
}

/// A call that is given a path alone: this one by a place, and the other one beneath a directory's descriptor.
fn add_at(run: &mut Run, seen: &SeenCall<'_>, call: Call, beneath: Call, target: &Target<'_>)
    requires call { operand_kinds (call_of call) ≡ A_path ∷ [] }
    requires beneath { operand_kinds (call_of beneath) ≡ A_number ∷ A_path ∷ [] }
{
    let path = Given::Path(target.path.as_bytes());
    match target.base {
        None => run.add(seen, call, &[path], seen.outcome, [None, None]),
        Some(base) => {
            let given = [Given::Number(base.number), path];
            run.add(seen, beneath, &given, seen.outcome, [Some(base), None]);
        }
    }
}

/// What a removal by a path came to. Linux tells a directory that isn't to be removed as EISDIR, also where a `.` is its last name, and one that isn't
/// empty perhaps as EEXIST.
fn removal_outcome(seen: &SeenCall<'_>, path: &[u8], directory: bool) -> Option<Outcome> {
    match seen.outcome {
        Some(Outcome::Failure(Errno::EISDIR))
            if !directory && (path.ends_with(b"/.") || same_bytes(path, b".")) => {
            Some(Outcome::Failure(Errno::EINVAL))
        }
        Some(Outcome::Failure(Errno::EISDIR)) if !directory => Some(Outcome::Failure(Errno::EPERM)),
        Some(Outcome::Failure(Errno::EEXIST)) => Some(Outcome::Failure(Errno::ENOTEMPTY)),
        outcome => outcome,
    }
}

/// A removal.
fn add_removal(run: &mut Run, seen: &SeenCall<'_>, target: &Target<'_>, directory: bool) {
    let outcome = removal_outcome(seen, target.path.as_bytes(), directory);
    let path = Given::Path(target.path.as_bytes());
    let directory = Given::Directory(directory);
    let Some(base) = target.base else {
        return run.add(
            seen,
            Call::Unlink,
            &[path, directory],
            outcome,
            [None, None],
        );
    };
    let given = [Given::Number(base.number), path, directory];
    run.add(seen, Call::Unlinkat, &given, outcome, [Some(base), None]);
}

/// The path of a place from the first directory, which is `.` from itself.
fn from_root(place: &[u8]) -> &[u8] {
    match place {
        [b'/'] => b".",
        [b'/', path @ ..] => path,
        _ => place,
    }
}

/// One side of a rename: a directory, and a path from it.
fn from_directory<'p>(target: &'p Target<'_>) -> (Mention<'p>, &'p [u8]) {
    let path = target.path.as_bytes();
    match target.base {
        None => (ROOT, from_root(path)),
        Some(base) => (base, path),
    }
}

/// The flags by which a rename does more than replace.
const DOES_MORE: [&[u8]; 3] = [b"RENAME_NOREPLACE", b"RENAME_EXCHANGE", b"RENAME_WHITEOUT"];

/// A rename of what stands at one name to another name.
fn add_rename<'p>(
    run: &mut Run,
    seen: &SeenCall<'_>,
    source: &'p Target<'_>,
    target: &'p Target<'_>,
) -> Option<Reason> {
    if !source.is_known || !target.is_known {
        return Some(Reason::Unknown);
    }
    let (from, path) = from_directory(source);
    let (to, new_path) = from_directory(target);
    let given = [
        Given::Number(from.number),
        Given::Path(path),
        Given::Number(to.number),
        Given::Path(new_path),
    ];
    let other = if from.number == to.number {
        None
    } else {
        Some(to)
    };
    let outcome = removal_outcome(seen, b"", true);
    run.add(seen, Call::Renameat, &given, outcome, [Some(from), other]);
    None
}

/// Takes a rename of what one name stands at to another name.
fn take_names(
    run: &mut Run,
    seen: &SeenCall<'_>,
    source: PathArgument,
    target: PathArgument,
) -> Option<Reason> {
    let source = run.known.target(seen, source);
    let target = run.known.target(seen, target);
    add_rename(run, seen, &source, &target)
}

/// Takes a rename, with directories or without.
fn take_rename(run: &mut Run, seen: &SeenCall<'_>, has_directories: bool) -> Option<Reason> {
    if !has_directories {
        return take_names(run, seen, HERE, NEW_HERE);
    }
    if seen.has_any(4, &DOES_MORE) {
        return Some(Reason::Unknown);
    }
    take_names(run, seen, AT, NEW_AT)
}

/// Adds a call that works by one name, which stands at this.
fn add_named(
    run: &mut Run,
    seen: &SeenCall<'_>,
    form: OnName,
    target: &Target<'_>,
) -> Option<Reason> {
    if !target.is_known {
        return Some(Reason::Unknown);
    }
    match form {
        OnName::MakeDirectory | OnName::MakeDirectoryAt => {
            add_at(run, seen, Call::Mkdir, Call::Mkdirat, target)
        }
        OnName::Remove => add_removal(run, seen, target, false),
        OnName::RemoveDirectory => add_removal(run, seen, target, true),
        OnName::RemoveAt => add_removal(run, seen, target, seen.has(2, b"AT_REMOVEDIR")),
        _ => add_at(run, seen, Call::Stat, Call::Fstatat, target),
    }
    None
}

/// How the name of a call that works by one is told.
fn naming_of(form: OnName) -> PathArgument {
    match form {
        OnName::StatusAt | OnName::MakeDirectoryAt | OnName::RemoveAt => AT,
        _ => HERE,
    }
}

/// Takes a call that works by one name.
fn take_named(run: &mut Run, seen: &SeenCall<'_>, form: OnName) -> Option<Reason> {
    let target = run.known.target(seen, naming_of(form));
    add_named(run, seen, form, &target)
}

/// Takes a status that is asked of a descriptor itself.
fn take_itself(run: &mut Run, seen: &SeenCall<'_>) -> Option<Reason> {
    let Some(mention) = seen.mention(0) else {
        return Some(Reason::Unknown);
    };
    run.add_lone(&Through { seen, mention }, Call::Fstat);
    None
}

/// Takes a call that works by a name. Why it is left out is told, if it is.
pub(crate) fn take(run: &mut Run, seen: &SeenCall<'_>, form: OnName) -> Option<Reason> {
    match form {
        OnName::Rename => take_rename(run, seen, false),
        OnName::RenameAt => take_rename(run, seen, true),
        OnName::StatusAt if is_of_itself(seen) => take_itself(run, seen),
        _ => take_named(run, seen, form),
    }
}
