//! Copies of processes, with what they have under way.

ghost use Rattle.std.specs.Prelude.{◌≡◌, IfOk};
ghost use Rattle.process.specs.Views.{deed_in, deed_of, walking_in, walking_of};

use crate::Process;
use crate::deeds::Deed;
use crate::walking::Walking;
use rights::Memory;
use std::alloc::Global;

impl Walking {
    /// The same once more. Want of memory alone keeps it from being made. (own)
    pub fn copy(&self, alloc: Global) -> Result<Walking, Memory>
        ensures { IfOk result (λ copy. walking_of copy ≡ walking_of self.now) }
    {
        match self {
            Walking::One(walk) => {
                let walk = walk.copy(alloc)?;
                Ok(Walking::One(walk))
            }
            Walking::Two(first, second) => {
                let first = first.copy(alloc)?;
                let second = second.copy(alloc)?;
                Ok(Walking::Two(first, second))
            }
        }
    }
}

impl Deed {
    /// The same once more. Want of memory alone keeps it from being made. (own)
    pub fn copy(&self, alloc: Global) -> Result<Deed, Memory>
        ensures { IfOk result (λ copy. deed_of copy ≡ deed_of self.now) }
    {
        let instruction = self.instruction.copy(alloc)?;
        Ok(Deed {
            instruction,
            registers: self.registers,
            point: self.point,
        })
    }
}

/// The lookups under way once more, if there are any.
fn copy_walk(alloc: Global, walk: &Option<Walking>) -> Result<Option<Walking>, Memory>
    ensures { IfOk result (λ copy. walking_in copy ≡ walking_in walk.now) }
{
    match walk {
        None => Ok(None),
        Some(walking) => {
            let walking = walking.copy(alloc)?;
            Ok(Some(walking))
        }
    }
}

/// A deed once more, if there is one.
fn copy_deed(alloc: Global, kept: &Option<Deed>) -> Result<Option<Deed>, Memory>
    ensures { IfOk result (λ copy. deed_in copy ≡ deed_in kept.now) }
{
    match kept {
        None => Ok(None),
        Some(deed) => {
            let deed = deed.copy(alloc)?;
            Ok(Some(deed))
        }
    }
}

impl Process {
    /// The same process once more, with what it has under way. Want of memory alone keeps it from being made. (own)
    pub fn copy(&self, alloc: Global) -> Result<Process, Memory>
        ensures { IfOk result (λ copy. copy ≡ self.now) }
    {
        let walk = copy_walk(alloc, &self.walk)?;
        let kept = copy_deed(alloc, &self.kept)?;
        Ok(Process {
            program: self.program,
            point: self.point,
            registers: self.registers,
            mode: self.mode,
            alive: self.alive,
            walk,
            marked: self.marked,
            kept,
        })
    }
}
