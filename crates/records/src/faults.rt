//! Why bytes are no text of recorded calls.

ghost use Rattle.std.specs.Prelude.{◌≡◌};
ghost use Rattle.records.specs.declared.faults.CallsFault.TheVariants as faults;
ghost use Rattle.records.specs.declared.faults.LineFault.TheVariants as line;
ghost use Rattle.records.specs.FaultViews.{fault_of_line};

use std::alloc::{AllocError, AllocFailed};

/// Why words are none of a line.
#[derive(Clone, Copy)]
pub(crate) enum LineFault {
    /// They have no form that a line has.
    Form,
    /// A growth was refused.
    Memory,
}

impl From<AllocError> for LineFault {
    ghost from_gives = { λ _ given. given ≡ line.Memory };

    fn from(_error: AllocError) -> LineFault {
        LineFault::Memory
    }
}

impl<T: Drop> From<AllocFailed<T>> for LineFault {
    ghost from_gives = { λ _ given. given ≡ line.Memory };

    fn from(_failed: AllocFailed<T>) -> LineFault {
        LineFault::Memory
    }
}

/// Why bytes are no text of recorded calls: the first faulty line counts. The number is that line's, counted from 1.
#[derive(Clone, Copy)]
pub enum CallsFault {
    /// A line has no form that a line has there, or no line feed ends it.
    Form(usize),
    /// The counts of the last line aren't those of the lines before it.
    Counts(usize),
    /// There is no last line, which begins with `end`.
    NoEnd(usize),
    /// Something stands behind the last line.
    Behind(usize),
    /// A growth was refused.
    Memory,
}

impl LineFault {
    /// The fault of a line of this number.
    pub(crate) fn at(self, number: usize) -> CallsFault
        ensures { result ≡ fault_of_line self number }
    {
        match self {
            LineFault::Form => CallsFault::Form(number),
            LineFault::Memory => CallsFault::Memory,
        }
    }
}

impl<T: Drop> From<AllocFailed<T>> for CallsFault {
    ghost from_gives = { λ _ given. given ≡ faults.Memory };

    fn from(_failed: AllocFailed<T>) -> CallsFault {
        CallsFault::Memory
    }
}
