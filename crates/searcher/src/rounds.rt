//! The search point by point: from the first states through the outcomes of each instruction, until nothing changes.

ghost use Rattle.std.specs.Prelude.{◌≡◌, length, map, true};
ghost use Rattle.std.specs.List.{list_all};
ghost use Rattle.instruction_set.specs.Views.{code_of, instruction_of};
ghost use Rattle.task.specs.Limits.{is_start};
ghost use Rattle.task.specs.Views.{start_of, starts_of};
ghost use Rattle.transfer.specs.Limits.{leaves_known};

use crate::channels::Channels;
use crate::flat::with_first;
use crate::point_states::ProgramPoints;
use crate::versions::flat_version;
use call_facts::{Passed, passed_by};
use certificate::{Bound, Interval, ModeBound, Refusal, Slot};
use instruction_set::Instruction;
use rights::limits::{MAX_DESCRIPTORS, MAX_INSTRUCTIONS, REGISTERS};
use std::alloc::{AllocError, Global};
use task::{Start, Task};
use texts::Name;
use transfer::{Change, Outcome, OutcomeVisitor, Site, failure, successes_pass};

/// How often all points are gone through at most.
const MOST_ROUNDS: usize = 16_384;

/// The bound of a first process: registers at 0, and its descriptors.
pub(crate) fn first_bound(task: &Task, start: &Start) -> Bound
    requires { is_start task.now.nodes (length task.now.programs) (start_of start.now) ≡ true }
{
    let mode = if start.mode {
        ModeBound::On
    } else {
        ModeBound::Off
    };
    let registers = [Interval::new(0, 0); REGISTERS];
    let bound = Bound::new(mode, registers, [Slot::Closed; MAX_DESCRIPTORS]);
    with_first(task, bound, &start.descriptors)
}

/// Whether a first process is bounded by the points of its program: one of a marked program that starts in the mode isn't.
fn is_bounded(task: &Task, start: &Start) -> bool {
    match task.programs().get(start.program as usize) {
        Some(program) => !(program.untrusted && start.mode),
        None => false,
    }
}

/// Has the first processes at their points.
fn begin(task: &Task, all_points: &mut Vec<ProgramPoints>, starts: &[Start])
    requires { list_all (is_start task.now.nodes (length task.now.programs)) (starts_of starts.now) ≡ true }
{
    match starts {
        [] => {}
        [first, rest @ ..] => {
            let bound = &first_bound(task, first);
            if let Some(points) = all_points.get_mut(first.program as usize) {
                if is_bounded(task, first) {
                    points.visit(&Outcome {
                        point: 0,
                        bound,
                        change: Change::Nothing,
                    });
                }
            }
            begin(task, all_points, rest);
        }
    }
}

/// The points of all programs, none of them reached.
pub(crate) fn all_program_points(
    alloc: Global,
    task: &Task,
) -> Result<Vec<ProgramPoints>, AllocError> {
    let version = flat_version(task);
    let mut all_points = Vec::new(alloc);
    for program in task.programs() {
        all_points.push(ProgramPoints::new(alloc, program.name, version, program.program.code())?)?;
    }
    Ok(all_points)
}

/// Whether an instruction receives descriptors.
fn receives(instruction: &Instruction) -> bool {
    match instruction {
        Instruction::Invoke { call, .. } => passed_by(call.call()) == Passed::DescriptorIn,
        _ => false,
    }
}

/// Takes the outcomes of an instruction from a point with a bound.
fn take_outcomes(
    task: &Task,
    channels: &Channels,
    points: &mut ProgramPoints,
    point: u8,
    bound: &Bound,
    instruction: &Instruction,
)
    requires { leaves_known (instruction_of instruction.now) ≡ true }
{
    let name = points.name;
    let site = Site {
        task,
        cert: &channels.cert,
        name: &name,
        point,
        bound,
    };
    successes_pass(&site, instruction, points);
    if let Some(outcome) = failure(bound, instruction) {
        points.visit(&outcome);
    }
}

/// Takes the outcomes of each point of a program that waits. Whether one did.
fn take_waiting(
    alloc: Global,
    task: &Task,
    channels: &mut Channels,
    points: &mut ProgramPoints,
    code: &[Instruction],
) -> Result<bool, Refusal>
    requires { list_all leaves_known (code_of code.now) ≡ true }
{
    let waiting = points.take_range();
    let mut any = false;
    for point in waiting.first..code.len() {
        if waiting.end <= point && points.waiting.end <= point {
            break;
        }
        if point < MAX_INSTRUCTIONS {
            if let Some(bound) = &points.next_at(point) {
                let instruction = &code[point];
                any = true;
                channels.learn(alloc, bound, instruction)?;
                take_outcomes(task, channels, points, point as u8, bound, instruction);
            }
        }
    }
    Ok(any)
}

/// Has each point wait again that receives.
pub(crate) fn wake_receivers(task: &Task, all_points: &mut Vec<ProgramPoints>) {
    for (number, program) in task.programs().iter().enumerate() {
        if let Some(points) = all_points.get_mut(number) {
            for (point, instruction) in program.program.code().iter().enumerate() {
                if receives(instruction) {
                    points.wake(point);
                }
            }
        }
    }
}

/// Goes through all points once. Whether one waited.
fn go_through(
    alloc: Global,
    task: &Task,
    channels: &mut Channels,
    all_points: &mut Vec<ProgramPoints>,
) -> Result<bool, Refusal> {
    let mut any = false;
    for (number, program) in task.programs().iter().enumerate() {
        if let Some(points) = all_points.get_mut(number) {
            if take_waiting(alloc, task, channels, points, program.program.code())? {
                any = true;
            }
        }
    }
    if channels.changed {
        channels.changed = false;
        wake_receivers(task, all_points);
    }
    Ok(any)
}

/// Goes through all points until none waits. Whether that came.
pub(crate) fn settle(
    alloc: Global,
    task: &Task,
    channels: &mut Channels,
    all_points: &mut Vec<ProgramPoints>,
) -> Result<bool, Refusal> {
    begin(task, all_points, task.starts());
    for _ in 0..MOST_ROUNDS {
        if !go_through(alloc, task, channels, all_points)? {
            return Ok(true);
        }
    }
    Ok(false)
}
