//! What words name.

ghost use Rattle.std.specs.Prelude.{◌≡◌, map};
ghost use Rattle.rights.specs.Calls.{call_name};
ghost use Rattle.rights.specs.Errors.{errno_name};
ghost use Rattle.rights.specs.Views.{call_of, errno_of};
ghost use Rattle.records.specs.EntryViews.{reason_seen};
ghost use Rattle.records.specs.Named.{all_calls, all_errors, all_reasons, call_of_word, error_of_word, named_by, reason_name, reason_of_word};
ghost use Rattle.records.specs.ReadingViews.{Reads};

use crate::entries::Reason;
use crate::faults::LineFault;
use crate::strace_texts::same_bytes;
use rights::{Call, Errno};

/// All calls.
const CALLS: [Call; 28] = [
    Call::Open,
    Call::Openat,
    Call::Read,
    Call::Write,
    Call::Sendfd,
    Call::Recvfd,
    Call::Lseek,
    Call::Ftruncate,
    Call::Fsync,
    Call::Fstat,
    Call::FcntlGetfl,
    Call::FcntlSetfl,
    Call::Fstatat,
    Call::Stat,
    Call::Mkdirat,
    Call::Mkdir,
    Call::Unlinkat,
    Call::Unlink,
    Call::Renameat,
    Call::Dup,
    Call::Close,
    Call::CapRightsLimit,
    Call::CapFcntlsLimit,
    Call::CapEnter,
    Call::CapGetmode,
    Call::Socketpair,
    Call::Fork,
    Call::Use,
];

/// All errors.
const ERRORS: [Errno; 19] = [
    Errno::EPERM,
    Errno::ENOENT,
    Errno::EBADF,
    Errno::EEXIST,
    Errno::ENOTDIR,
    Errno::EISDIR,
    Errno::EINVAL,
    Errno::ENFILE,
    Errno::EMFILE,
    Errno::EFBIG,
    Errno::ENOSPC,
    Errno::EPIPE,
    Errno::EAGAIN,
    Errno::ENOTSOCK,
    Errno::ELOOP,
    Errno::ENAMETOOLONG,
    Errno::ENOTEMPTY,
    Errno::ENOTCAPABLE,
    Errno::ECAPMODE,
];

/// The number of the error of a descriptor that can't seek.
const ESPIPE: u32 = 29;

/// All reasons.
pub(crate) const REASONS: [Reason; 6] = [
    Reason::Loader,
    Reason::Quiet,
    Reason::Global,
    Reason::Right,
    Reason::Unknown,
    Reason::Name,
];

/// The first of these calls that the word names.
fn call_among(calls: &[Call], word: &[u8]) -> Result<Call, LineFault>
    ensures { Reads call_of result (named_by call_name (map call_of calls.now) word.now) }
{
    for call in calls {
        if same_bytes(word, call.name().as_bytes()) {
            return Ok(*call);
        }
    }
    Err(LineFault::Form)
}

/// The call that the word names.
#[tactic(auto, unfolding(crate::specs::Named::call_of_word))]
pub(crate) fn find_call(word: &[u8]) -> Result<Call, LineFault>
    ensures { Reads call_of result (call_of_word word.now) }
{
    call_among(&CALLS, word)
}

/// The first of these errors that the word names.
fn error_among(errors: &[Errno], word: &[u8]) -> Result<Errno, LineFault>
    ensures { Reads errno_of result (named_by errno_name (map errno_of errors.now) word.now) }
{
    for error in errors {
        if same_bytes(word, error.name().as_bytes()) {
            return Ok(*error);
        }
    }
    Err(LineFault::Form)
}

/// The error that the word names.
#[tactic(auto, unfolding(crate::specs::Named::error_of_word))]
pub(crate) fn find_error(word: &[u8]) -> Result<Errno, LineFault>
    ensures { Reads errno_of result (error_of_word word.now) }
{
    error_among(&ERRORS, word)
}

/// The name of the error of this number, by FreeBSD's numbers (errno(2)), or nothing where it is none that is known.
pub(crate) fn error_of_number(number: u32) -> &'static [u8] {
    if number == ESPIPE {
        return b"ESPIPE";
    }
    for error in &ERRORS {
        if u32::from(error.number()) == number {
            return error.name().as_bytes();
        }
    }
    b""
}

/// The first of these reasons that the word names.
fn reason_among(reasons: &[Reason], word: &[u8]) -> Result<Reason, LineFault>
    ensures { Reads reason_seen result (named_by reason_name (map reason_seen reasons.now) word.now) }
{
    for reason in reasons {
        if same_bytes(word, reason.name().as_bytes()) {
            return Ok(*reason);
        }
    }
    Err(LineFault::Form)
}

/// The reason that the word names.
#[tactic(auto, unfolding(crate::specs::Named::reason_of_word))]
pub(crate) fn find_reason(word: &[u8]) -> Result<Reason, LineFault>
    ensures { Reads reason_seen result (reason_of_word word.now) }
{
    reason_among(&REASONS, word)
}
