//! The state of a run, and a system call of one of its processes.

ghost use Rattle.std.specs.Prelude.{◌≡◌, ◌<◌, ◌+◌, IfOk, None, OnOk, Some, length, slice_set};
ghost use Rattle.std.specs.List.{slice_get};
ghost use Rattle.process.specs.State.{ProcessState};
ghost use Rattle.process.specs.Views.{walking_in, walking_of};
ghost use Rattle.instruction_set.specs.Programs as programs;
ghost use Rattle.instruction_set.specs.Views.{instruction_of, syscall_of};
ghost use Rattle.syscalls.specs.CallViews.{Settles, processes_as, result_of, succeeded_as};
ghost use Rattle.syscalls.specs.MayCall.{CallComes, MayCall, MayInvoke};
ghost use Rattle.syscalls.specs.Views.{AreThere, effects_in, effects_of, event_of, world_of};

use crate::effects::Effects;
use crate::events::Event;
use crate::kernels::{Caller, Kernel};
use crate::outcomes::{Besides, Effect, Outcome, Refusal, Success};
use fd_table::Files;
use file_tree::Tree;
use instruction_set::{Instruction, Syscall};
use process::{Process, Walking};
use rights::Memory;
use std::alloc::Global;

/// The file tree, what is open, and the processes in the order of making.
#[derive(Drop)]
pub struct World<T: Tree> {
    pub tree: T,
    pub files: Files,
    pub processes: Vec<Process>,
}

/// A call succeeds with this value, and makes this of its process besides.
fn succeed(process: &mut Process, value: u32, besides: Besides)
    requires { process.old.point + 1 < 256 }
    ensures { process.new ≡ succeeded_as process.old value besides }
{
    match besides {
        Besides::Nothing | Besides::Child => process.succeed(value),
        Besides::Second(second) => process.succeed_with_two(value, second),
        Besides::Mode => {
            process.succeed(value);
            process.enter();
        }
    }
}

/// What a success makes of the processes: of the one that calls, and a child.
fn go_on(
    processes: &mut Vec<Process>,
    number: u8,
    value: u32,
    besides: Besides,
) -> Result<(), Memory>
    requires made { number < length processes.old.items }
    requires next { (s : ProcessState) → slice_get processes.old.items number ≡ Some s → s.point + 1 < 256 }
    ensures { OnOk result ((s : ProcessState) → slice_get processes.old.items number ≡ Some s
        → processes.new.items ≡ processes_as processes.old.items number s value besides) }
{
    let process = &mut processes[number as usize];
    succeed(process, value, besides);
    if let Besides::Child = besides {
        let child = process.fork_of();
        processes.push(child)?;
    }
    Ok(())
}

/// What a call came to, with its effects.
#[derive(Drop)]
pub struct Called {
    pub outcome: Outcome,
    pub effects: Effects,
}

/// What a call came to that has no effect.
fn told(outcome: Outcome) -> Called
    ensures outcome { result.outcome ≡ outcome }
    ensures nothing { result.effects ≡ Effects.Nothing }
{
    Called {
        outcome,
        effects: Effects::Nothing,
    }
}

/// Takes what the call of a process has under way out of the process.
fn take_walk(processes: &mut Vec<Process>, number: u8) -> Option<Walking>
    requires { number < length processes.old.items }
    ensures taken { (s : ProcessState) → slice_get processes.old.items number ≡ Some s → walking_in result ≡ s.walk }
    ensures left { (s : ProcessState) → slice_get processes.old.items number ≡ Some s
        → processes.new.items ≡ slice_set processes.old.items number (record s { walk = None }) }
{
    let process = &mut processes[number as usize];
    process.take_walk()
}

/// Keeps what the call of a process has under way in the process.
fn walk_on(processes: &mut Vec<Process>, number: u8, walking: Walking)
    requires { number < length processes.old.items }
    ensures { (s : ProcessState) → slice_get processes.old.items number ≡ Some s
        → processes.new.items ≡ slice_set processes.old.items number (record s { walk = Some (walking_of walking) }) }
{
    let process = &mut processes[number as usize];
    process.walk_on(walking);
}

/// What becomes of the process, by what its call came to.
fn settle(
    processes: &mut Vec<Process>,
    number: u8,
    otherwise: u8,
    came: Result<Success, Refusal>,
) -> Result<Called, Memory>
    requires made { number < length processes.old.items }
    requires next { (s : ProcessState) → slice_get processes.old.items number ≡ Some s → s.point + 1 < 256 }
    ensures { IfOk result (λ called. (s : ProcessState) → slice_get processes.old.items number ≡ Some s
        → Settles processes.old.items number s otherwise came (result_of called.outcome) called.effects processes.new.items) }
{
    match came {
        Ok(success) => {
            go_on(processes, number, success.value, success.besides)?;
            Ok(Called {
                outcome: Outcome::Value(success.value),
                effects: success.effects,
            })
        }
        Err(refused) => match refused {
            Refusal::Fails(errno, cause) => {
                let process = &mut processes[number as usize];
                process.fail(u32::from(errno.number()), otherwise);
                Ok(told(Outcome::Error(errno, cause)))
            }
            Refusal::Waits => Ok(told(Outcome::Wait)),
            Refusal::Walks(walking) => {
                walk_on(processes, number, walking);
                Ok(told(Outcome::Walk))
            }
            Refusal::Memory => Err(Memory),
        },
    }
}

impl<T: Tree> World<T> {
    /// The call of a process, which gets its registers, its point and its mode, and what it has under way.
    fn invoke(
        &mut self,
        alloc: Global,
        number: u8,
        call: &Syscall,
        otherwise: u8,
        event: Event,
    ) -> Result<Called, Memory>
        requires { MayCall (world_of T.nodes self.old) number (syscall_of call.now) }
        ensures comes { IfOk result (λ called. CallComes (world_of T.nodes self.old) number (event_of event) (programs.Invoke (syscall_of call.now) otherwise)
            (result_of called.outcome) (effects_in (T.nodes self.new.tree) called.effects) (world_of T.nodes self.new)) }
        ensures there { IfOk result (λ called. AreThere (T.nodes self.new.tree) called.effects) }
    {
        let walk = take_walk(&mut self.processes, number);
        let kernel = Kernel {
            tree: &mut self.tree,
            files: &mut self.files,
            caller: Caller {
                number,
                process: &self.processes[number as usize],
                made: self.processes.len(),
                refuse: event.refuse,
            },
            alloc,
        };
        let came = kernel.perform(call, walk);
        settle(&mut self.processes, number, otherwise, came)
    }

    /// A system call of a process at an event, as `call`, whose effects have their places by nodes of the tree then.
    pub fn call(
        &mut self,
        alloc: Global,
        process: usize,
        instruction: &Instruction,
        event: Event,
    ) -> Result<Called, Memory>
        requires { MayInvoke (world_of T.nodes self.old) process (instruction_of instruction.now) }
        ensures comes { IfOk result (λ called. CallComes (world_of T.nodes self.old) process (event_of event) (instruction_of instruction.now)
            (result_of called.outcome) (effects_in (T.nodes self.new.tree) called.effects) (world_of T.nodes self.new)) }
        ensures there { IfOk result (λ called. AreThere (T.nodes self.new.tree) called.effects) }
    {
        let Instruction::Invoke { call, otherwise } = instruction else {
            unreachable!()
        };
        self.invoke(alloc, process as u8, call, *otherwise, event)
    }
}

/// A system call of a process at an event: what it comes to, and its effects in order.
///
/// A call with a path takes an event for each name of it: until the last one it tells `Walk`, and the process alone
/// changes, which keeps what it has under way. A call may fail, for the first cause in its order, or have to wait; then
/// nothing but the process's register 7 and point changes, or nothing at all. A refused growth is `Memory`, and then
/// nothing is said of the world but that it may be dropped.
///
/// Its caller knows that the world is well formed, what other processes have under way aside; that the process was made
/// and has a next point; that the instruction is a call; and that what the process has under way, if anything, is of
/// this call. Of the event it asks only whether the kernel refuses.
pub fn call<T: Tree>(
    alloc: Global,
    world: &mut World<T>,
    process: usize,
    instruction: &Instruction,
    event: Event,
) -> Result<(Outcome, Vec<Effect>), Memory>
    requires { MayInvoke (world_of T.nodes world.old) process (instruction_of instruction.now) }
    ensures { IfOk result (λ told. CallComes (world_of T.nodes world.old) process (event_of event) (instruction_of instruction.now)
        (result_of told.0) (effects_of told.1.items) (world_of T.nodes world.new)) }
{
    let called = world.call(alloc, process, instruction, event)?;
    let effects = called.effects.written(alloc, &world.tree)?;
    Ok((called.outcome, effects))
}
