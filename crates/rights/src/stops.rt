//! Why a call that writes or that may take memory stops before its end.

ghost use Rattle.std.specs.Prelude.{◌≡◌};
ghost use Rattle.rights.specs.StopViews.{stop_number};
ghost use Rattle.rights.specs.declared.stops.Stop.TheVariants as stop;

use std::alloc::{AllocError, AllocFailed};
use thiserror::Error;

/// A growth was refused: there is no memory.
#[derive(Clone, Copy, Debug, PartialEq, Eq, Error)]
#[error("no memory")]
pub struct Memory;

impl From<AllocError> for Memory {
    fn from(_error: AllocError) -> Memory {
        Memory
    }
}

impl<T: Drop> From<AllocFailed<T>> for Memory {
    fn from(_failed: AllocFailed<T>) -> Memory {
        Memory
    }
}

/// Why a machine or a writer stops.
#[derive(Clone, Copy, Debug, PartialEq, Eq, Error)]
pub enum Stop {
    /// A growth was refused.
    #[error("no memory")]
    Memory = 1,
    /// The writer failed.
    #[error("the writer failed")]
    Device = 2,
    /// The machine stopped for want of memory before.
    #[error("the machine has stopped")]
    Spent = 3,
}

impl Stop {
    /// The number of the refusal.
    pub fn number(self) -> u8
        ensures { result ≡ stop_number self }
    {
        self as u8
    }
}

impl From<AllocError> for Stop {
    ghost from_gives = { λ _ given. given ≡ stop.Memory };

    fn from(_error: AllocError) -> Stop {
        Stop::Memory
    }
}

impl<T: Drop> From<AllocFailed<T>> for Stop {
    ghost from_gives = { λ _ given. given ≡ stop.Memory };

    fn from(_failed: AllocFailed<T>) -> Stop {
        Stop::Memory
    }
}

impl From<Memory> for Stop {
    ghost from_gives = { λ _ given. given ≡ stop.Memory };

    fn from(_memory: Memory) -> Stop {
        Stop::Memory
    }
}
