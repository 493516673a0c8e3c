//! Whether a witness shows that a run of a task follows a record.

ghost use Rattle.std.specs.Prelude.{◌≡◌, ◌<◌, IfOk, IsErrOf, OnErr, OnOk, Some, false, map, option_map, true};
ghost use Rattle.std.specs.List.{slice_get};
ghost use Rattle.instruction_set.specs.Views.{code_of, instruction_of, syscall_of};
ghost use Rattle.kernel.specs.Walks.{call_in};
ghost use Rattle.kernel.specs.WellFormed.{IsWellFormed};
ghost use Rattle.records.specs.EntryViews.{calls_seen};
ghost use Rattle.syscalls.specs.Views.{event_of};
ghost use Rattle.kernel.specs.Renamings.{DiffersInNumbers};
ghost use Rattle.task.specs.Begins.{first_world};
ghost use Rattle.task.specs.Limits.{is_plan};
ghost use Rattle.task.specs.Plans.{code_in, programs_of_plan};
ghost use Rattle.task.specs.Views.{programs_of};
ghost use Rattle.simulator.specs.Machines.{machine_world};
ghost use Rattle.simulator.specs.Steps.{StepsMachine};
ghost use Rattle.simulator.specs.Views.{acted_of, line_of};
ghost use Rattle.follow.specs.Moves.{Moves};
ghost use Rattle.follow.specs.Outcomes.{before_at, second_in, seen_at, seen_by};
ghost use Rattle.follow.specs.Progress.{first_progress};
ghost use Rattle.follow.specs.Shows.{HasRun, Judged, Judges, events_of};
ghost use Rattle.follow.specs.Views.{before_of, if_stands, move_of, moves_of, pairs_of, placings_of, seen_of, setting_of, progress_of, witness_of};

use crate::outcomes::Seen;
use crate::places::Placing;
use crate::progress::{MatchProgress, Setting, after_skip, after_step, has_limiting};
use crate::witnesses::{Move, Witness};
use file_tree::Tree;
use instruction_set::{Instruction, Syscall};
use link_tree::LinkTree;
use process::Process;
use records::Entry;
use rights::Stop;
use rights::limits::REGISTERS;
use simulator::{Acted, Line, Machine};
use std::alloc::Global;
use syscalls::Event;
use task::{NamedProgram, Task};

/// A process of the task before a step: its registers, and the call at its point.
#[derive(Clone, Copy)]
pub(crate) struct Before<'t> {
    pub registers: [u32; REGISTERS],
    pub call: Option<&'t Syscall>,
}

/// A step's line, and what is seen of the step.
#[derive(Drop)]
pub(crate) struct Watched<'t> {
    pub line: Line,
    pub seen: Option<Seen<'t>>,
}

/// The call of an instruction, if it is one.
fn call_in(instruction: &Instruction) -> Option<&Syscall>
    ensures { option_map (λ c. syscall_of c.now) result ≡ call_in (Some (instruction_of instruction.now)) }
{
    match instruction {
        Instruction::Invoke { call, .. } => Some(call),
        _ => None,
    }
}

/// The instructions of a program: none where there is no such program.
pub(crate) fn code_of(programs: &[NamedProgram], program: u8) -> &[Instruction]
    ensures { code_of result.now ≡ code_in (slice_get (programs_of programs.now) program) }
{
    match programs.get(program as usize) {
        None => &[],
        Some(named) => named.program.code(),
    }
}

/// The call at a point of some instructions, if there is one.
fn call_at(code: &[Instruction], point: u8) -> Option<&Syscall>
    ensures { option_map (λ c. syscall_of c.now) result ≡ call_in (slice_get (code_of code.now) point) }
{
    match code.get(point as usize) {
        None => None,
        Some(instruction) => call_in(instruction),
    }
}

/// A process, if it was made.
pub(crate) fn process_at(processes: &[Process], number: usize) -> Option<&Process>
    ensures { option_map (λ process. process.now) result ≡ slice_get processes.now number }
{
    processes.get(number)
}

/// A process before a step, if it was made.
fn before_step<'t>(task: &'t Task, processes: &[Process], process: u8) -> Option<Before<'t>>
    ensures { option_map before_of result ≡ option_map (before_at (programs_of_plan task.now)) (slice_get processes.now process) }
{
    match process_at(processes, usize::from(process)) {
        None => None,
        Some(process) => Some(Before {
            registers: process.registers,
            call: call_at(code_of(task.programs(), process.program), process.point),
        }),
    }
}

/// What is in register 1 of a process, or 0 where it wasn't made.
fn second_in(processes: &[Process], process: u8) -> u32
    ensures { result ≡ second_in (slice_get processes.now process) }
{
    match process_at(processes, usize::from(process)) {
        None => 0,
        Some(process) => process.registers[1],
    }
}

/// What is seen of a step.
fn seen_by<'t>(before: Option<Before<'t>>, acted: Option<&Acted>, second: u32) -> Option<Seen<'t>>
    ensures { option_map seen_of result ≡ seen_by (option_map before_of before.entry) (option_map (λ a. acted_of a.now) acted.entry) second }
{
    let Some(before) = before else {
        return None;
    };
    match acted {
        None => None,
        Some(acted) => Some(Seen {
            registers: before.registers,
            call: before.call,
            outcome: acted.outcome,
            second,
        }),
    }
}

/// One step of the task's machine, with what is seen of it.
pub(crate) fn watched_step<'t, T: Tree>(
    task: &'t Task,
    machine: &mut Machine<'_, T>,
    event: Event,
) -> Result<Watched<'t>, Stop>
    ensures step { IfOk result (λ watched. StepsMachine (programs_of_plan machine.old.plan) (machine_world machine.old) (event_of event)
        (line_of watched.line) (machine_world machine.new)) }
    ensures seen { IfOk result (λ watched. option_map seen_of watched.seen ≡ seen_at (programs_of_plan task.now)
        (slice_get machine.old.processes event.process) (line_of watched.line).acted (slice_get machine.new.processes event.process)) }
    ensures well_formed { OnOk result (IsWellFormed (programs_of_plan machine.new.plan) (machine_world machine.new)) }
    ensures plan { machine.new.plan ≡ machine.old.plan }
    ensures runs_on { OnOk result (machine.new.spent ≡ false) }
    ensures byte { OnOk result (event.input < 256) }
    ensures memory { machine.old.spent ≡ false → OnErr result (IsErrOf result Stop.Memory) }
{
    let before = before_step(task, machine.processes(), event.process);
    let line = machine.step(event)?;
    let second = second_in(machine.processes(), event.process);
    let seen = seen_by(before, line.acted.as_ref(), second);
    Ok(Watched { line, seen })
}

/// Makes a move, and notes what it makes of where the run stands. Whether it may be is told.
fn make_move(
    alloc: Global,
    setting: &Setting<'_>,
    progress: &mut MatchProgress<'_>,
    machine: &mut Machine<'_, LinkTree>,
    step: Move,
) -> Result<bool, Stop>
    ensures moves { machine.old.plan ≡ setting.now.task.now → IfOk result (λ is. Moves (setting_of setting.now) (machine_world machine.old)
        (progress_of progress.old) (move_of step) (machine_world machine.new) (if_stands is progress.new)) }
    ensures well_formed { IsWellFormed (programs_of_plan machine.old.plan) (machine_world machine.old)
        → OnOk result (IsWellFormed (programs_of_plan machine.new.plan) (machine_world machine.new)) }
    ensures plan { machine.new.plan ≡ machine.old.plan }
    ensures runs_on { machine.old.spent ≡ false → OnOk result (machine.new.spent ≡ false) }
    ensures memory { machine.old.spent ≡ false → OnErr result (IsErrOf result Stop.Memory) }
{
    match step {
        Move::Step { event, shows } => {
            let watched = watched_step(setting.task, machine, event)?;
            let process = usize::from(event.process);
            let is = after_step(
                alloc,
                setting,
                progress,
                process,
                watched.seen.as_ref(),
                shows,
            )?;
            Ok(is)
        }
        Move::Skip { entry } => {
            let is = after_skip(alloc, setting, progress, machine.processes(), entry)?;
            Ok(is)
        }
    }
}

/// Makes moves one after another. Whether they may be, and all is shown then, is told.
fn make_moves(
    alloc: Global,
    setting: &Setting<'_>,
    progress: &mut MatchProgress<'_>,
    machine: &mut Machine<'_, LinkTree>,
    moves: &[Move],
) -> Result<bool, Stop>
    requires runs_on { machine.old.spent ≡ false }
    requires plan { machine.old.plan ≡ setting.now.task.now }
    requires valid { is_plan setting.now.task.now ≡ true }
    requires well_formed { IsWellFormed (programs_of_plan setting.now.task.now) (machine_world machine.old) }
    requires world { DiffersInNumbers (first_world setting.now.task.now) (machine_world machine.old) }
    ensures verdict { IfOk result (Judged (setting_of setting.now) (first_world setting.now.task.now) (Some (progress_of progress.old)) (moves_of moves.now)) }
    ensures run { IfOk result (λ is. is ≡ true → HasRun setting.now.task.now (events_of (moves_of moves.now))) }
    ensures memory { OnErr result (IsErrOf result Stop.Memory) }
{
    for step in moves {
        if !make_move(alloc, setting, progress, machine, *step)? {
            return Ok(false);
        }
    }
    Ok(progress.is_at_end())
}

/// Makes moves one after another from the beginning of the task. Whether they may be, and all is shown then, is told.
fn make_all(
    alloc: Global,
    setting: &Setting<'_>,
    progress: &mut MatchProgress<'_>,
    moves: &[Move],
) -> Result<bool, Stop>
    ensures verdict { IfOk result (Judged (setting_of setting.now) (first_world setting.now.task.now) (Some (progress_of progress.old)) (moves_of moves.now)) }
    ensures run { IfOk result (λ is. is ≡ true → HasRun setting.now.task.now (events_of (moves_of moves.now))) }
    ensures memory { OnErr result (IsErrOf result Stop.Memory) }
{
    let mut machine: Machine<'_, LinkTree> = Machine::start(alloc, setting.task)?;
    make_moves(alloc, setting, progress, &mut machine, moves)
}

/// Whether moves are a run of the task that shows the calls of a record.
fn shows_by(
    alloc: Global,
    setting: &Setting<'_>,
    entries: &[Entry],
    moves: &[Move],
) -> Result<bool, Stop>
    ensures verdict { IfOk result (Judged (setting_of setting.now) (first_world setting.now.task.now)
        (first_progress setting.now.task.now (pairs_of setting.now.pairs.now) (calls_seen entries.now)) (moves_of moves.now)) }
    ensures run { IfOk result (λ is. is ≡ true → HasRun setting.now.task.now (events_of (moves_of moves.now))) }
    ensures memory { OnErr result (IsErrOf result Stop.Memory) }
{
    let Some(mut progress) = MatchProgress::first(alloc, setting.task, setting.pairs, entries)?
    else {
        return Ok(false);
    };
    make_all(alloc, setting, &mut progress, moves)
}

/// Whether the moves of a witness are a run of the task that shows the calls of a record. Where they are, the task has a run of their
/// events. Want of memory is the only error.
pub fn shows(
    alloc: Global,
    task: &Task,
    placings: &[Placing],
    entries: &[Entry],
    witness: &Witness,
) -> Result<bool, Stop>
    ensures verdict { IfOk result (Judges task.now (placings_of placings.now) (calls_seen entries.now) (witness_of witness.now)) }
    ensures run { IfOk result (λ is. is ≡ true → HasRun task.now (events_of (witness_of witness.now).moves)) }
    ensures memory { OnErr result (IsErrOf result Stop.Memory) }
{
    let setting = Setting {
        task,
        placings,
        pairs: &witness.pairs,
        limited: has_limiting(entries),
    };
    shows_by(alloc, &setting, entries, &witness.moves)
}
