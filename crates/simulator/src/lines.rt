//! Lines of a trace.

ghost use Rattle.std.specs.Prelude.{◌≡◌, IfOk, IfSome};
ghost use Rattle.syscalls.specs.CallViews as called;
ghost use Rattle.syscalls.specs.Views.{AreThere};
ghost use Rattle.simulator.specs.Views.{stepped_line, line_of, result_of};

use file_tree::Tree;
use rights::{Cause, Errno, Memory};
use std::alloc::Global;
use syscalls::{Effect, Effects, Outcome};

/// What a step comes to.
#[derive(Clone, Copy, PartialEq, Eq)]
pub enum LineResult {
    /// An instruction that is no call was done.
    Done,
    Halted,
    /// The call's value, in the caller.
    Value(u32),
    Failed(Errno, Cause),
    Waiting,
    /// The call has looked one name of a path up, and has names left for later events.
    Walking,
    /// The process had ended before.
    Ended,
}

/// What a process that was made did.
#[derive(Drop)]
pub struct Acted {
    /// The program's place in the task.
    pub program: u8,
    /// The point before the step.
    pub point: u8,
    pub outcome: LineResult,
    pub effects: Vec<Effect>,
}

/// A line of a trace: the event's process, and what it did if it was made.
#[derive(Drop)]
pub struct Line {
    pub process: u8,
    pub acted: Option<Acted>,
}

/// What a process that was made did, in the world that it left: the places of the effects are those of nodes there.
#[derive(Drop)]
pub(crate) struct Stepped {
    pub program: u8,
    pub point: u8,
    pub outcome: LineResult,
    pub effects: Effects,
}

/// The line of a step, with the places of its effects written.
pub(crate) fn line_written<T: Tree>(
    alloc: Global,
    tree: &T,
    process: u8,
    stepped: Option<Stepped>,
) -> Result<Line, Memory>
    requires { IfSome stepped (λ s. AreThere (T.nodes tree.now) s.effects) }
    ensures { IfOk result (λ line. line_of line ≡ stepped_line (T.nodes tree.now) process stepped) }
{
    let acted = match stepped {
        None => None,
        Some(stepped) => Some(Acted {
            program: stepped.program,
            point: stepped.point,
            outcome: stepped.outcome,
            effects: stepped.effects.written(alloc, tree)?,
        }),
    };
    Ok(Line { process, acted })
}

/// What a call came to, as a line says it.
pub(crate) fn result_of_call(outcome: Outcome) -> LineResult
    ensures { result_of result ≡ called.result_of outcome }
{
    match outcome {
        Outcome::Value(value) => LineResult::Value(value),
        Outcome::Error(errno, cause) => LineResult::Failed(errno, cause),
        Outcome::Wait => LineResult::Waiting,
        Outcome::Walk => LineResult::Walking,
    }
}
