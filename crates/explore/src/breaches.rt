//! What a step of a run breaks.

ghost use Rattle.std.specs.Prelude.{◌≡◌, IfOk, Option, option_map};
ghost use Rattle.process.specs.State.{ProcessState};
ghost use Rattle.syscalls.specs.Views.{effects_of};
ghost use Rattle.task.specs.Views.{grants_of};
ghost use Rattle.simulator.specs.Views.{acted_of, result_of};
ghost use Rattle.explore.specs.Breaches.{breach_by, breach_in, outside, refusal};
ghost use Rattle.explore.specs.BreachViews.{breach_of, status_of};

use crate::policies::is_allowed;
use process::Process;
use rights::{Cause, Memory, Op};
use simulator::{Acted, LineResult};
use std::alloc::Global;
use syscalls::Effect;
use task::Grant;

/// What a step breaks. (capsicum(4), rights(4))
#[derive(Drop)]
pub enum Breach {
    /// In capability mode, an effect that no grant allows: the operation, and the text of the place.
    Outside(Op, Vec<u8>),
    /// A call is refused for a right or an fcntl command that its descriptor lacks.
    MissingRight,
    /// A call is refused since it names what can't be named in capability mode.
    CapMode,
}

/// The first effect that no grant allows.
fn outside(alloc: Global, grants: &[Grant], effects: &[Effect]) -> Result<Option<Breach>, Memory>
    ensures { IfOk result (λ found. option_map breach_of found ≡ outside (grants_of grants.now) (effects_of effects.now)) }
{
    match effects {
        [] => Ok(None),
        [effect, effects @ ..] => {
            if is_allowed(grants, effect) {
                return outside(alloc, grants, effects);
            }
            let place = Vec::from_slice(alloc, &effect.place)?;
            Ok(Some(Breach::Outside(effect.op, place)))
        }
    }
}

/// Why a call is refused, where that counts.
fn refusal(outcome: LineResult) -> Option<Breach>
    ensures { option_map breach_of result ≡ refusal (result_of outcome) }
{
    match outcome {
        LineResult::Failed(_, Cause::CapMode) => Some(Breach::CapMode),
        LineResult::Failed(_, Cause::MissingRight) => Some(Breach::MissingRight),
        _ => None,
    }
}

/// What counts of a process before its step: whether it was in capability mode, and whether its program is untrusted.
#[derive(Clone, Copy)]
pub(crate) struct ActorStatus {
    pub in_mode: bool,
    pub is_marked: bool,
}

/// What the step of a process breaks, which stood so before it.
fn broken_by(
    alloc: Global,
    grants: &[Grant],
    status: ActorStatus,
    acted: &Acted,
) -> Result<Option<Breach>, Memory>
    ensures { IfOk result (λ found. (s : ProcessState) → status_of s ≡ status
        → option_map breach_of found ≡ breach_by (grants_of grants.now) s (acted_of acted.now)) }
{
    if status.in_mode {
        let found = outside(alloc, grants, &acted.effects)?;
        if found.is_some() {
            return Ok(found);
        }
    }
    if status.is_marked {
        return Ok(None);
    }
    Ok(refusal(acted.outcome))
}

/// What a step breaks, by its process before it, if that was made, and by what it did.
pub(crate) fn broken(
    alloc: Global,
    grants: &[Grant],
    status: Option<ActorStatus>,
    acted: Option<&Acted>,
) -> Result<Option<Breach>, Memory>
    ensures { IfOk result (λ found. (process : Option ProcessState) → option_map status_of process ≡ status
        → option_map breach_of found ≡ breach_in (grants_of grants.now) process (option_map (λ a. acted_of a.now) acted.entry)) }
{
    let Some(status) = status else {
        return Ok(None);
    };
    match acted {
        None => Ok(None),
        Some(acted) => broken_by(alloc, grants, status, acted),
    }
}
