//! Runs whose last step breaks something.

ghost use Rattle.std.specs.Prelude.{◌≡◌, ◌<◌, IfOk, IfSome, IsErrOf, OnErr, OnOk, Some, false, map, option_map, true};
ghost use Rattle.std.specs.List.{slice_get};
ghost use Rattle.kernel.specs.WellFormed.{IsWellFormed};
ghost use Rattle.process.specs.State.{ProcessState};
ghost use Rattle.syscalls.specs.Views.{event_of};
ghost use Rattle.task.specs.Plans.{programs_of_plan};
ghost use Rattle.simulator.specs.Machines.{machine_world};
ghost use Rattle.simulator.specs.Steps.{StepsMachineAs};
ghost use Rattle.simulator.specs.Views.{line_of};
ghost use Rattle.explore.specs.Breaches.{breach_in};
ghost use Rattle.explore.specs.Broken.{Breaks, IsRefuted, are_all_spoken, is_spoken_act};
ghost use Rattle.explore.specs.BreachViews.{breach_of, status_of};
ghost use Rattle.explore.specs.MoveViews.{act_of, are_paths_of, move_of};

use crate::attacks::Move;
use crate::breaches::{ActorStatus, Breach, broken};
use file_tree::Tree;
use instruction_set::is_spoken;
use link_tree::LinkTree;
use rights::Stop;
use rights::limits::REGISTERS;
use simulator::{Line, Machine};
use std::alloc::Global;
use task::Task;

/// A step's line, and what the step breaks.
#[derive(Drop)]
pub(crate) struct Watched {
    pub line: Line,
    pub breach: Option<Breach>,
}

/// What counts of the process of this number, if it was made.
fn status<T: Tree>(machine: &Machine<'_, T>, process: u8) -> Option<ActorStatus>
    ensures { result ≡ option_map status_of (slice_get machine.now.processes process) }
{
    match machine.processes().get(process as usize) {
        None => None,
        Some(process) => Some(ActorStatus {
            in_mode: process.mode(),
            is_marked: process.is_marked(),
        }),
    }
}

/// One step of a machine by a move. A deed of a process that may do none counts for nothing. After a refused growth it answers `Spent` for good. (own)
pub fn step_by<T: Tree>(machine: &mut Machine<'_, T>, next: &Move<'_>) -> Result<Line, Stop>
    ensures step { IfOk result (λ line. StepsMachineAs (programs_of_plan machine.old.plan) (machine_world machine.old) (event_of next.now.event)
        (act_of next.now) (line_of line) (machine_world machine.new)) }
    ensures paths { OnOk result (are_paths_of next.now ≡ true) }
    ensures well_formed { OnOk result (IsWellFormed (programs_of_plan machine.new.plan) (machine_world machine.new)) }
    ensures plan { machine.new.plan ≡ machine.old.plan }
    ensures runs_on { OnOk result (machine.new.spent ≡ false) }
    ensures byte { OnOk result (next.now.event.input < 256) }
    ensures memory { machine.old.spent ≡ false → IsWellFormed (programs_of_plan machine.old.plan) (machine_world machine.old)
        → OnErr result (IsErrOf result Stop.Memory) }
{
    let Some(deed) = next.deed else {
        return machine.step(next.event);
    };
    // (each program has a point 0, so where that can't be told the machine has stopped before)
    if !machine.may_stand_at(next.event.process, 0) {
        return Err(Stop::Spent);
    }
    machine.step_as(next.event, deed.instruction(), [0; REGISTERS], 0)
}

/// One step of the task's machine by a move, with what it breaks.
pub(crate) fn watched_step<T: Tree>(
    alloc: Global,
    task: &Task,
    machine: &mut Machine<'_, T>,
    next: &Move<'_>,
) -> Result<Watched, Stop>
    ensures step { IfOk result (λ watched. StepsMachineAs (programs_of_plan machine.old.plan) (machine_world machine.old) (event_of next.now.event)
        (act_of next.now) (line_of watched.line) (machine_world machine.new)) }
    ensures breach { IfOk result (λ watched. option_map breach_of watched.breach
        ≡ breach_in task.now.grants (slice_get machine.old.processes next.now.event.process) (line_of watched.line).acted) }
    ensures paths { OnOk result (are_paths_of next.now ≡ true) }
    ensures well_formed { OnOk result (IsWellFormed (programs_of_plan machine.new.plan) (machine_world machine.new)) }
    ensures plan { machine.new.plan ≡ machine.old.plan }
    ensures runs_on { OnOk result (machine.new.spent ≡ false) }
    ensures byte { OnOk result (next.now.event.input < 256) }
    ensures memory { machine.old.spent ≡ false → IsWellFormed (programs_of_plan machine.old.plan) (machine_world machine.old)
        → OnErr result (IsErrOf result Stop.Memory) }
{
    let status = status(machine, next.event.process);
    let line = step_by(machine, next)?;
    let breach = broken(alloc, task.grants(), status, line.acted.as_ref())?;
    Ok(Watched { line, breach })
}

/// Whether what is done at a move is of the task's language.
fn is_spoken_move(wide: bool, next: &Move<'_>) -> bool
    ensures { result ≡ is_spoken_act wide (act_of next.now) }
{
    match next.deed {
        None => true,
        Some(deed) => is_spoken(wide, deed.instruction()),
    }
}

/// Whether what is done at each is.
fn are_all_spoken(wide: bool, moves: &[Move<'_>]) -> bool
    ensures { result ≡ are_all_spoken wide (map move_of moves.now) }
{
    match moves {
        [] => true,
        [first, rest @ ..] => is_spoken_move(wide, first) && are_all_spoken(wide, rest),
    }
}

/// Runs the task by the moves, and answers what the last step breaks, if it breaks something: an effect outside the policy of a
/// process in capability mode, or the refusal of a call of a trusted program for a missing right or by capability mode. What the
/// steps before break doesn't count, and moves that aren't of the task's language break nothing. Want of memory is the only error.
///
/// Where something is broken, the task isn't confined; and where no move is an attacker's, it isn't sandboxed.
pub fn breaks(alloc: Global, task: &Task, moves: &[Move<'_>]) -> Result<Option<Breach>, Stop>
    ensures breach { IfOk result (λ found. Breaks task.now (map move_of moves.now) (option_map breach_of found)) }
    ensures refuted { IfOk result (λ found. IfSome found (λ breach. IsRefuted task.now (map move_of moves.now))) }
    ensures memory { OnErr result (IsErrOf result Stop.Memory) }
{
    let spoken = are_all_spoken(task.further_rights(), moves);
    if !spoken {
        return Ok(None);
    }
    let mut machine: Machine<'_, LinkTree> = Machine::start(alloc, task)?;
    let mut breach = None;
    for next in moves {
        let watched = watched_step(alloc, task, &mut machine, next)?;
        breach = watched.breach;
    }
    Ok(breach)
}
