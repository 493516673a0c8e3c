//! Why a path leads to nothing.

ghost use Rattle.std.specs.Prelude.{◌≡◌};
ghost use Rattle.lookup.specs.Views.{path_fault_number};
ghost use Rattle.lookup.specs.declared.faults.PathFault.TheVariants as fault;

use std::alloc::{AllocError, AllocFailed};
use std::fmt;
use thiserror::Error;

/// Why a path leads to nothing.
#[derive(Clone, Copy, Debug, PartialEq, Eq, Error)]
pub enum PathFault {
    /// The path, a link's target or a `..` leads out of what lies beneath the start. (open(2), ENOTCAPABLE)
    Escape = 1,
    /// A name is absent, the path is empty, or the start was removed. (open(2), ENOENT)
    NoEntry = 2,
    /// A name is looked up in what is no directory. (open(2), ENOTDIR)
    NotDir = 3,
    /// More than 32 links were met. (open(2), ELOOP; the number is own)
    Loop = 4,
    /// The path has more than 1023 bytes, or a name in it more than 255. (open(2), ENAMETOOLONG)
    TooLong = 5,
    /// The last name is to be kept, and there is none, or it is `.` or `..`. (own)
    BadLast = 6,
    /// A growth was refused.
    Memory = 7,
}

impl PathFault {
    /// The number of the fault, from 1 to 7. (own)
    pub fn number(self) -> u8
        ensures { result ≡ path_fault_number self }
    {
        self as u8
    }
}

impl fmt::Display for PathFault {
    fn fmt<W: fmt::Write>(&self, f: &mut fmt::Formatter<W>) -> fmt::Result {
        f.write_str(match self {
            PathFault::Escape => "the path escapes",
            PathFault::NoEntry => "no such entry",
            PathFault::NotDir => "not a directory",
            PathFault::Loop => "too many links",
            PathFault::TooLong => "the path is too long",
            PathFault::BadLast => "the last name can't be kept",
            PathFault::Memory => "no memory",
        })
    }
}

impl From<AllocError> for PathFault {
    ghost from_gives = { λ _ given. given ≡ fault.Memory };

    fn from(_error: AllocError) -> PathFault {
        PathFault::Memory
    }
}

impl<T: Drop> From<AllocFailed<T>> for PathFault {
    ghost from_gives = { λ _ given. given ≡ fault.Memory };

    fn from(_failed: AllocFailed<T>) -> PathFault {
        PathFault::Memory
    }
}
