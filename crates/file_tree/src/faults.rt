//! Why a change of a tree is refused.

ghost use Rattle.std.specs.Prelude.{◌≡◌};
ghost use Rattle.file_tree.specs.Views.{tree_fault_number};
ghost use Rattle.file_tree.specs.declared.faults.TreeFault.TheVariants as fault;

use std::alloc::{AllocError, AllocFailed};
use thiserror::Error;

/// Why a change of a tree is refused. The tree is then as it was. (own)
#[derive(Clone, Copy, Debug, PartialEq, Eq, Error)]
pub enum TreeFault {
    /// The name is taken in the directory.
    #[error("the name is taken")]
    Exists = 1,
    /// The directory holds something, or is the root.
    #[error("the directory is not empty")]
    NotEmpty = 2,
    /// As many nodes were made, or as many bytes are in the file, as may be.
    #[error("no room is left")]
    Full = 3,
    /// The new place lies below the node itself.
    #[error("a directory can't be moved into itself")]
    IntoItself = 4,
    /// The node or the directory was removed.
    #[error("the node was removed")]
    Gone = 5,
    /// A growth was refused.
    #[error("no memory")]
    Memory = 6,
}

impl TreeFault {
    /// The number of the refusal, from 1 to 6. (own)
    pub fn number(self) -> u8
        ensures { result ≡ tree_fault_number self }
    {
        self as u8
    }
}

impl From<AllocError> for TreeFault {
    ghost from_gives = { λ _ given. given ≡ fault.Memory };

    fn from(_error: AllocError) -> TreeFault {
        TreeFault::Memory
    }
}

impl<T: Drop> From<AllocFailed<T>> for TreeFault {
    ghost from_gives = { λ _ given. given ≡ fault.Memory };

    fn from(_failed: AllocFailed<T>) -> TreeFault {
        TreeFault::Memory
    }
}
