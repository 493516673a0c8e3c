//! Why words aren't read.

ghost use Rattle.std.specs.Prelude.{◌≡◌};
ghost use Rattle.prog_asm.specs.declared.mistakes.Mistake.TheVariants as mistake;

use std::alloc::{AllocError, AllocFailed};

/// Why words aren't read. What is wrong with them is told by where they stand.
#[derive(Clone, Copy)]
pub(crate) enum Mistake {
    /// They stand for nothing.
    Wrong,
    /// A growth was refused.
    Memory,
}

impl From<AllocError> for Mistake {
    ghost from_gives = { λ _ given. given ≡ mistake.Memory };

    fn from(_error: AllocError) -> Mistake {
        Mistake::Memory
    }
}

impl<T: Drop> From<AllocFailed<T>> for Mistake {
    ghost from_gives = { λ _ given. given ≡ mistake.Memory };

    fn from(_failed: AllocFailed<T>) -> Mistake {
        Mistake::Memory
    }
}
