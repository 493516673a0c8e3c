//! Why a message is not sent.

ghost use Rattle.std.specs.Prelude.{◌≡◌};
ghost use Rattle.fd_table.specs.Views.{send_fault_number};
ghost use Rattle.fd_table.specs.declared.faults.SendFault.TheVariants as fault;

use std::alloc::{AllocError, AllocFailed};
use thiserror::Error;

/// Why a message is not sent. Nothing has changed then.
#[derive(Clone, Copy, Debug, PartialEq, Eq, Error)]
pub enum SendFault {
    /// The other end is not open. (send(2), EPIPE)
    #[error("the other end is closed")]
    Closed = 1,
    /// As many messages are on their way as may be. (send(2), EAGAIN; the number is own)
    #[error("the queue is full")]
    Full = 2,
    /// A growth was refused.
    #[error("no memory")]
    Memory = 3,
}

impl SendFault {
    /// The number of the fault, from 1 to 3. (own)
    pub fn number(self) -> u8
        ensures { result ≡ send_fault_number self }
    {
        self as u8
    }
}

impl From<AllocError> for SendFault {
    ghost from_gives = { λ _ given. given ≡ fault.Memory };

    fn from(_error: AllocError) -> SendFault {
        SendFault::Memory
    }
}

impl<T: Drop> From<AllocFailed<T>> for SendFault {
    ghost from_gives = { λ _ given. given ≡ fault.Memory };

    fn from(_failed: AllocFailed<T>) -> SendFault {
        SendFault::Memory
    }
}
