//! The statuses that a program ends with.

ghost use Rattle.std.specs.Prelude.{◌≡◌};
ghost use Rattle.console.specs.Statuses.{verdict_status};
ghost use Rattle.checker.specs.Views.{verdict_of};

use checker::Verdict;

/// It did what its words say.
pub const DONE: u8 = 0;

/// It answers that something is not so, as `no` or `none`.
pub const BROKEN: u8 = 1;

/// A fault in words or files.
pub const REFUSED: u8 = 2;

/// Want of memory, or a failed output.
pub const STOPPED: u8 = 3;

/// The status of a verdict.
pub fn status_of_verdict(verdict: Verdict) -> u8
    ensures { result ≡ verdict_status (verdict_of verdict) }
{
    match verdict {
        Verdict::Yes => DONE,
        Verdict::No { .. } => BROKEN,
    }
}
