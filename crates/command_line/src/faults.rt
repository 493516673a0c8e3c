//! Why some words are no order.

ghost use Rattle.std.specs.Prelude.{◌≡◌, ◌≢◌};
ghost use Rattle.clap.specs.Words.{kind_of};
ghost use Rattle.clap.specs.declared.error.kind.ErrorKind.TheVariants as kind;
ghost use Rattle.command_line.specs.declared.faults.WordsFault.TheVariants as fault;

use std::alloc::AllocError;
use thiserror::Error;

/// Why words aren't read as an order.
#[derive(Clone, Copy, Debug, PartialEq, Eq, Error)]
pub enum WordsFault {
    /// The words are no line of the program, or one of them begins with `-`.
    #[error("not a line of the program")]
    Words,
    /// A growth was refused.
    #[error("no memory")]
    Memory,
}

impl From<AllocError> for WordsFault {
    ghost from_gives = { λ _ given. given ≡ fault.Memory };

    fn from(_error: AllocError) -> WordsFault {
        WordsFault::Memory
    }
}

impl From<clap::Error> for WordsFault {
    ghost from_gives = { λ error given. (kind_of error ≡ kind.OutOfMemory → given ≡ fault.Memory)
        × (kind_of error ≢ kind.OutOfMemory → given ≡ fault.Words) };

    fn from(error: clap::Error) -> WordsFault {
        if error.kind() == clap::error::ErrorKind::OutOfMemory {
            return WordsFault::Memory;
        }
        WordsFault::Words
    }
}
