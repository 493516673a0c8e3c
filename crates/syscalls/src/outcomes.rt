//! What a call comes to.

ghost use Rattle.std.specs.Prelude.{◌≡◌};
ghost use Rattle.syscalls.specs.Views.{IsSuccess};
ghost use Rattle.syscalls.specs.declared.outcomes.Refusal.TheVariants as refusal;

use crate::effects::Effects;
use file_tree::TreeFault;
use process::Walking;
use rights::{Cause, Errno, Memory, Op};
use std::alloc::{AllocError, AllocFailed};

/// An operation at a place, written as a trace prints it: `/` for the root, else each name after a `/`.
#[derive(Drop, PartialEq, Eq)]
pub struct Effect {
    pub op: Op,
    pub place: Vec<u8>,
}

/// What a call comes to.
#[derive(Clone, Copy, PartialEq, Eq)]
pub enum Outcome {
    /// It succeeds with this value.
    Value(u32),
    /// It fails, for this cause.
    Error(Errno, Cause),
    /// It can't go on yet, and nothing changes.
    Wait,
    /// It has looked one name up, and has names left for later events. Nothing but what it has under way changes.
    Walk,
}

/// What a success makes of the process, besides giving it the value.
#[derive(Clone, Copy)]
pub(crate) enum Besides {
    Nothing,
    /// It is in capability mode.
    Mode,
    /// It has the second number of a pair.
    Second(u32),
    /// It has a child.
    Child,
}

/// What a call that succeeds gives, and what it did.
#[derive(Drop)]
pub(crate) struct Success {
    pub value: u32,
    pub besides: Besides,
    pub effects: Effects,
}

impl Success {
    /// It gives this value, and does nothing that is shown.
    pub fn value(value: u32) -> Success
        ensures { IsSuccess result value Besides.Nothing Effects.Nothing }
    {
        Success::besides(value, Besides::Nothing)
    }

    /// It gives this value, and makes this of the process besides.
    pub fn besides(value: u32, besides: Besides) -> Success
        ensures { IsSuccess result value besides Effects.Nothing }
    {
        Success {
            value,
            besides,
            effects: Effects::Nothing,
        }
    }

    /// It gives this value, and did this.
    pub fn with_effects(value: u32, effects: Effects) -> Success
        ensures { IsSuccess result value Besides.Nothing effects }
    {
        Success {
            value,
            besides: Besides::Nothing,
            effects,
        }
    }
}

/// Why a call doesn't succeed at this event. It has changed nothing then, unless a growth was refused.
#[derive(Drop)]
pub(crate) enum Refusal {
    Fails(Errno, Cause),
    Waits,
    /// It has names left for later events, and this under way.
    Walks(Walking),
    Memory,
}

impl From<Memory> for Refusal {
    ghost from_gives = { λ _ given. given ≡ refusal.Memory };

    fn from(_error: Memory) -> Refusal {
        Refusal::Memory
    }
}

impl From<AllocError> for Refusal {
    ghost from_gives = { λ _ given. given ≡ refusal.Memory };

    fn from(_error: AllocError) -> Refusal {
        Refusal::Memory
    }
}

impl<T: Drop> From<AllocFailed<T>> for Refusal {
    ghost from_gives = { λ _ given. given ≡ refusal.Memory };

    fn from(_failed: AllocFailed<T>) -> Refusal {
        Refusal::Memory
    }
}

/// What a change that the tree allows is refused for: want of memory alone.
pub(crate) fn want_of_memory(fault: TreeFault) -> Refusal
    requires { fault ≡ TreeFault.Memory }
    ensures { result ≡ Refusal.Memory }
{
    match fault {
        TreeFault::Memory => Refusal::Memory,
        _ => unreachable!(),
    }
}
