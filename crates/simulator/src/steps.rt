//! The step of an event.

ghost use Rattle.std.specs.Prelude.{◌≡◌, ◌<◌, IfOk, IfSome, OnOk, length, option_map, slice_get, None, Some, true};
ghost use Rattle.kernel.specs.Alike.{AlikeWorlds};
ghost use Rattle.kernel.specs.Steps.{Halted, halted, handed};
ghost use Rattle.kernel.specs.WellFormed.{IsWellFormed};
ghost use Rattle.process.specs.State.{ProcessState};
ghost use Rattle.instruction_set.specs.Views.{instruction_of};
ghost use Rattle.syscalls.specs.Views.{AreThere, effects_in, event_of, world_of};
ghost use Rattle.task.specs.Limits.{is_plan};
ghost use Rattle.task.specs.Plans.{code_in, programs_of_plan};
ghost use Rattle.task.specs.Views.{programs_of};
ghost use Rattle.simulator.specs.Deeds.{may_stand_at};
ghost use Rattle.simulator.specs.Steps.{DoesAs, Executes, MayExecute, StepsMachine};
ghost use Rattle.simulator.specs.Views.{stepped_line, line_of, result_of};

use crate::actions::{Action, act};
use crate::deeds::{finish_deed, hand};
use crate::lines::{Line, LineResult, Stepped, line_written, result_of_call};
use file_tree::Tree;
use instruction_set::Instruction;
use process::Process;
use rights::Memory;
use rights::limits::REGISTERS;
use std::alloc::Global;
use syscalls::{Effects, Event, World};
use task::{NamedProgram, Task};

/// What a step came to, with its effects.
#[derive(Drop)]
pub(crate) struct Executed {
    pub outcome: LineResult,
    pub effects: Effects,
}

/// A step without effects.
fn without_effects(outcome: LineResult) -> Executed
    ensures outcome { result_of result.outcome ≡ result_of outcome }
    ensures effects { result.effects ≡ Effects.Nothing }
{
    Executed {
        outcome,
        effects: Effects::Nothing,
    }
}

/// Ends the process, and closes its table.
fn halt<T: Tree>(world: &mut World<T>, number: u8) -> Executed
    requires made { number < length world.old.processes.items }
    requires few { number < 16 }
    ensures world { (s : ProcessState) → slice_get world.old.processes.items number ≡ Some s
        → AlikeWorlds (halted (world_of T.nodes world.old) number s) (world_of T.nodes world.new) }
    ensures outcome { result_of result.outcome ≡ Halted }
    ensures effects { result.effects ≡ Effects.Nothing }
{
    world.files.close_all(number);
    let process = &mut world.processes[number as usize];
    process.end();
    without_effects(LineResult::Halted)
}

/// Does an instruction of a process.
fn execute<T: Tree>(
    alloc: Global,
    world: &mut World<T>,
    event: Event,
    instruction: &Instruction,
) -> Result<Executed, Memory>
    requires may { MayExecute (world_of T.nodes world.old) event.process (instruction_of instruction.now) }
    ensures executes { IfOk result (λ done. Executes (world_of T.nodes world.old) (event_of event) (instruction_of instruction.now)
        (result_of done.outcome) (effects_in (T.nodes world.new.tree) done.effects) (world_of T.nodes world.new)) }
    ensures there { IfOk result (λ done. AreThere (T.nodes world.new.tree) done.effects) }
{
    let number = event.process as usize;
    match act(&mut world.processes[number], instruction, event.input) {
        Action::Moves => Ok(without_effects(LineResult::Done)),
        Action::Ends => Ok(halt(world, event.process)),
        Action::Calls => {
            let called = world.call(alloc, number, instruction, event)?;
            Ok(Executed {
                outcome: result_of_call(called.outcome),
                effects: called.effects,
            })
        }
    }
}

/// The instruction at a point of a program, if both are there.
fn instruction_at(programs: &[NamedProgram], program: u8, point: u8) -> Option<&Instruction>
    ensures { option_map (λ i. instruction_of i.now) result ≡ slice_get (code_in (slice_get (programs_of programs.now) program)) point }
{
    match programs.get(program as usize) {
        None => None,
        Some(named) => named.program.code().get(point as usize),
    }
}

/// Whether this is a point of a process's program, if the process may do anything.
pub(crate) fn may_stand_at(task: &Task, processes: &[Process], number: u8, point: u8) -> bool
    ensures { result ≡ may_stand_at (programs_of_plan task.now) (slice_get processes.now number) point }
{
    match processes.get(number as usize) {
        None => true,
        Some(process) => {
            !process.is_hostile()
                || instruction_at(task.programs(), process.program, point).is_some()
        }
    }
}

/// The step of a process that follows its program: the instruction at its point.
fn follow<T: Tree>(
    alloc: Global,
    task: &Task,
    world: &mut World<T>,
    event: Event,
) -> Result<Executed, Memory>
    requires good { IsWellFormed (programs_of_plan task.now) (world_of T.nodes world.old) }
    requires made { event.process < length world.old.processes.items }
    requires lives { (s : ProcessState) → slice_get world.old.processes.items event.process ≡ Some s → s.alive ≡ true }
    requires alone { (s : ProcessState) → slice_get world.old.processes.items event.process ≡ Some s → s.kept ≡ None }
    ensures does { IfOk result (λ done. DoesAs (programs_of_plan task.now) (world_of T.nodes world.old) (event_of event)
        (result_of done.outcome) (effects_in (T.nodes world.new.tree) done.effects) (world_of T.nodes world.new)) }
    ensures there { IfOk result (λ done. AreThere (T.nodes world.new.tree) done.effects) }
{
    let process = &world.processes[event.process as usize];
    match instruction_at(task.programs(), process.program, process.point) {
        None => Ok(without_effects(LineResult::Ended)),
        Some(instruction) => execute(alloc, world, event, instruction),
    }
}

/// The step of a process that was made, unless it has ended: what it is to do, or the instruction at its point.
///
/// What a process is to do needn't have a point behind it. It comes to the same at any point, so it is done at point 0.
fn step_process<T: Tree>(
    alloc: Global,
    task: &Task,
    world: &mut World<T>,
    event: Event,
) -> Result<Executed, Memory>
    requires good { IsWellFormed (programs_of_plan task.now) (world_of T.nodes world.old) }
    requires made { event.process < length world.old.processes.items }
    ensures does { IfOk result (λ done. DoesAs (programs_of_plan task.now) (world_of T.nodes world.old) (event_of event)
        (result_of done.outcome) (effects_in (T.nodes world.new.tree) done.effects) (world_of T.nodes world.new)) }
    ensures there { IfOk result (λ done. AreThere (T.nodes world.new.tree) done.effects) }
{
    let number = event.process as usize;
    let made = world.processes.len();
    let process = &mut world.processes[number];
    if !process.alive {
        return Ok(without_effects(LineResult::Ended));
    }
    if process.deed().is_none() {
        return follow(alloc, task, world, event);
    }
    let Some(deed) = process.take_deed() else {
        unreachable!()
    };
    let point = process.point;
    process.point = 0;
    let done = execute(alloc, world, event, &deed.instruction)?;
    finish_deed(world, number, made, point, deed, done.outcome);
    Ok(done)
}

/// The step of an event: what its process did, if it was made.
pub(crate) fn advance<T: Tree>(
    alloc: Global,
    task: &Task,
    world: &mut World<T>,
    event: Event,
) -> Result<Option<Stepped>, Memory>
    requires { IsWellFormed (programs_of_plan task.now) (world_of T.nodes world.old) }
    ensures step { IfOk result (λ stepped. StepsMachine (programs_of_plan task.now) (world_of T.nodes world.old) (event_of event)
        (stepped_line (T.nodes world.new.tree) event.process stepped) (world_of T.nodes world.new)) }
    ensures there { IfOk result (λ stepped. IfSome stepped (λ s. AreThere (T.nodes world.new.tree) s.effects)) }
    ensures byte { event.input < 256 }
{
    let Some(process) = world.processes.get(event.process as usize) else {
        return Ok(None);
    };
    let program = process.program;
    let point = process.point;
    let done = step_process(alloc, task, world, event)?;
    Ok(Some(Stepped {
        program,
        point,
        outcome: done.outcome,
        effects: done.effects,
    }))
}

/// The step of an event, and its line.
pub(crate) fn step_world<T: Tree>(
    alloc: Global,
    task: &Task,
    world: &mut World<T>,
    event: Event,
) -> Result<Line, Memory>
    requires { IsWellFormed (programs_of_plan task.now) (world_of T.nodes world.old) }
    ensures step { IfOk result (λ line. StepsMachine (programs_of_plan task.now)
        (world_of T.nodes world.old) (event_of event) (line_of line)
        (world_of T.nodes world.new)) }
    ensures byte { event.input < 256 }
{
    let stepped = advance(alloc, task, world, event)?;
    line_written(alloc, &world.tree, event.process, stepped)
}

/// The step of an event whose process does this, if it may do anything, and its line.
pub(crate) fn step_world_as<T: Tree>(
    alloc: Global,
    task: &Task,
    world: &mut World<T>,
    event: Event,
    instruction: &Instruction,
    registers: [u32; REGISTERS],
    point: u8,
) -> Result<Line, Memory>
    requires valid { is_plan task.now ≡ true }
    requires good { IsWellFormed (programs_of_plan task.now) (world_of T.nodes world.old) }
    requires placed { may_stand_at (programs_of_plan task.now) (slice_get world.old.processes.items event.process) point ≡ true }
    ensures step { IfOk result (λ line. StepsMachine (programs_of_plan task.now)
        (handed (world_of T.nodes world.old) event.process (record { instruction = instruction_of instruction.now; registers = registers; point = point }))
        (event_of event) (line_of line) (world_of T.nodes world.new)) }
    ensures good { OnOk result (IsWellFormed (programs_of_plan task.now) (world_of T.nodes world.new)) }
    ensures byte { event.input < 256 }
{
    hand(alloc, world, event.process, instruction, &registers, point)?;
    step_world(alloc, task, world, event)
}
