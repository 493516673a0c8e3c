//! What a recorded call and a call of a task come to.

ghost use Rattle.std.specs.Prelude.{◌≡◌, ◌++◌, ◌∷◌, [], OnOk, Some, map, option_map};
ghost use Rattle.rights.specs.Views.{call_of};
ghost use Rattle.instruction_set.specs.Views.{syscall_of};
ghost use Rattle.records.specs.EntryViews.{binding_seen, made_seen, outcome_seen};
ghost use Rattle.records.specs.OperandViews.{operand_seen};
ghost use Rattle.simulator.specs.Views.{result_of};
ghost use Rattle.follow.specs.Numbers.{mapping};
ghost use Rattle.call_facts.specs.FactViews.{answer_seen, table_seen};
ghost use Rattle.follow.specs.Outcomes.{any_unnamed, freed, if_there, is_call_of_mode, is_silent, is_silent_by, is_silent_call};
ghost use Rattle.follow.specs.Outcomes.{lost, lost_by, mappings_by, mappings_of, same_answer, same_outcome, second_end};
ghost use Rattle.follow.specs.Views.{history_of, mappings_seen, pairs_of, seen_of};

use crate::numbers::{FdMapping, ProcessPair, add_child, is_process, named};
use crate::transfers::{Past, is_repeat, transfer_in};
use call_facts::{Answer, TableChange, answer_of, is_of_mode, table_change};
use instruction_set::Syscall;
use records::{Binding, MadeCall, Operand, Outcome};
use rights::limits::REGISTERS;
use rights::{Call, Memory, Side};
use simulator::LineResult;
use std::alloc::Global;

/// What is seen of a step of a process of the task: its registers before, the call at its point, what the step comes to, and what is in
/// register 1 afterwards, which is the second number of a pair.
#[derive(Clone, Copy)]
pub(crate) struct Seen<'t> {
    pub registers: [u32; REGISTERS],
    pub call: Option<&'t Syscall>,
    pub outcome: LineResult,
    pub second: u32,
}

/// Whether a number in the record and one in the task are the same answer of a call.
fn same_answer(pairs: &[ProcessPair], answer: Answer, number: u32, own: u32) -> bool
    ensures { result ≡ same_answer (pairs_of pairs.now) (answer_seen answer) number own }
{
    match answer {
        Answer::Byte => (number == 0) == (own == 256),
        Answer::Process => is_process(pairs, number, own as usize),
        Answer::Zero | Answer::One | Answer::Offset | Answer::Kind => true,
        Answer::StatusFlags | Answer::ModeBit | Answer::Number => true,
    }
}

/// Whether a call came to the same in the record and in the task.
pub(crate) fn same_outcome(
    pairs: &[ProcessPair],
    call: Call,
    outcome: Outcome,
    own: LineResult,
) -> bool
    ensures { result ≡ same_outcome (pairs_of pairs.now) (call_of call) (outcome_seen outcome) (result_of own) }
{
    match outcome {
        Outcome::Success(number) => match own {
            LineResult::Value(value) => same_answer(pairs, answer_of(call), number, value),
            _ => false,
        },
        Outcome::Failure(errno) => match own {
            LineResult::Failed(error, _) => errno.number() == error.number(),
            _ => false,
        },
    }
}

/// The number of the end b of a pair.
pub(crate) fn second_end(bindings: &[Binding]) -> Option<u32>
    ensures { result ≡ second_end (map binding_seen bindings.now) }
{
    match bindings {
        [] => None,
        [Binding::Place { .. }, bindings @ ..] => second_end(bindings),
        [
            Binding::End {
                descriptor,
                side,
                ..
            },
            bindings @ ..,
        ] => match side {
            Side::A => second_end(bindings),
            Side::B => Some(*descriptor),
        },
    }
}

/// Adds what stands for a number from here on.
pub(crate) fn add(
    mappings: &mut Vec<FdMapping>,
    process: usize,
    real: u32,
    model: Option<u32>,
) -> Result<(), Memory>
    ensures { OnOk result (mappings_seen mappings.new.items ≡ mappings_seen mappings.old.items ++ mapping process real model ∷ []) }
{
    mappings.push(FdMapping {
        process,
        real,
        model,
    })?;
    Ok(())
}

/// Adds what stands for a number from here on, if there is one.
fn add_if_there(
    mappings: &mut Vec<FdMapping>,
    process: usize,
    real: Option<u32>,
    model: u32,
) -> Result<(), Memory>
    ensures { OnOk result (mappings_seen mappings.new.items ≡ mappings_seen mappings.old.items ++ if_there process real model) }
{
    match real {
        None => Ok(()),
        Some(real) => add(mappings, process, real, Some(model)),
    }
}

/// Adds that nothing stands for the first number that a call was given.
pub(crate) fn add_freed(
    mappings: &mut Vec<FdMapping>,
    process: usize,
    operands: &[Operand],
) -> Result<(), Memory>
    ensures { OnOk result (mappings_seen mappings.new.items ≡ mappings_seen mappings.old.items ++ freed process (map operand_seen operands.now)) }
{
    match operands {
        [Operand::Number(number), ..] => add(mappings, process, *number, None),
        _ => Ok(()),
    }
}

/// Adds what a success makes or frees, with these numbers in the record and in the task.
fn add_by(
    alloc: Global,
    mappings: &mut Vec<FdMapping>,
    process: usize,
    made: &MadeCall,
    change: TableChange,
    number: u32,
    own: u32,
    second: u32,
) -> Result<(), Memory>
    ensures { OnOk result (mappings_seen mappings.new.items ≡ mappings_seen mappings.old.items
        ++ mappings_by (mappings_seen mappings.old.items) process (made_seen made.now) (table_seen change) number own second) }
{
    match change {
        TableChange::Opened
        | TableChange::Inherited
        | TableChange::Copied
        | TableChange::Received => add(mappings, process, number, Some(own)),
        TableChange::Pair => {
            add(mappings, process, number, Some(own))?;
            add_if_there(mappings, process, second_end(&made.bindings), second)
        }
        TableChange::Freed => add_freed(mappings, process, &made.operands),
        TableChange::Child => add_child(alloc, mappings, process, own as usize),
        TableChange::Limited | TableChange::Unchanged => Ok(()),
    }
}

/// Adds what a call makes or frees that was shown by a step.
pub(crate) fn add_made(
    alloc: Global,
    mappings: &mut Vec<FdMapping>,
    process: usize,
    made: &MadeCall,
    seen: &Seen<'_>,
) -> Result<(), Memory>
    ensures { OnOk result (mappings_seen mappings.new.items ≡ mappings_seen mappings.old.items
        ++ mappings_of (mappings_seen mappings.old.items) process (made_seen made.now) (outcome_seen made.now.outcome) (result_of seen.now.outcome) seen.now.second) }
{
    match made.outcome {
        Outcome::Success(number) => match seen.outcome {
            LineResult::Value(own) => {
                let change = table_change(made.call);
                add_by(
                    alloc,
                    mappings,
                    process,
                    made,
                    change,
                    number,
                    own,
                    seen.second,
                )
            }
            _ => Ok(()),
        },
        Outcome::Failure(_) => Ok(()),
    }
}

/// Whether a call of the task, if there is one, is for capability mode.
fn is_call_of_mode(call: Option<&Syscall>) -> bool
    ensures { result ≡ is_call_of_mode (option_map (λ c. syscall_of c.now) call.entry) }
{
    match call {
        None => false,
        Some(call) => is_of_mode(call.call()),
    }
}

/// Whether a call that has come back shows nothing: it is one of capability mode, where the record has none, or a repeat.
fn is_silent_call(limited: bool, history: &[Past], process: usize, seen: &Seen<'_>) -> bool
    ensures { result ≡ is_silent_call limited (history_of history.now) process (seen_of seen.now) }
{
    if !limited && is_call_of_mode(seen.call) {
        return true;
    }
    is_repeat(
        history,
        process,
        transfer_in(&seen.registers, seen.call, seen.outcome),
    )
}

/// Whether a step shows nothing.
pub(crate) fn is_silent(limited: bool, history: &[Past], process: usize, seen: &Seen<'_>) -> bool
    ensures { result ≡ is_silent limited (history_of history.now) process (seen_of seen.now) }
{
    match seen.outcome {
        LineResult::Done | LineResult::Waiting | LineResult::Walking | LineResult::Ended => true,
        LineResult::Halted => false,
        LineResult::Value(_) | LineResult::Failed(_, _) => {
            is_silent_call(limited, history, process, seen)
        }
    }
}

/// Whether nothing stands for one of so many numbers.
pub(crate) fn any_unnamed(
    mappings: &[FdMapping],
    process: usize,
    count: usize,
    operands: &[Operand],
) -> bool
    ensures { result ≡ any_unnamed (mappings_seen mappings.now) process count (map operand_seen operands.now) }
{
    if count == 0 {
        return false;
    }
    match operands {
        [] => false,
        [Operand::Number(number), operands @ ..] => {
            named(mappings, process, *number).is_none()
                || any_unnamed(mappings, process, count - 1, operands)
        }
        [_, operands @ ..] => any_unnamed(mappings, process, count, operands),
    }
}

/// Adds that nothing stands for the number that such a change has made, if it has.
fn add_lost_by(
    mappings: &mut Vec<FdMapping>,
    process: usize,
    change: TableChange,
    number: u32,
) -> Result<(), Memory>
    ensures { OnOk result (mappings_seen mappings.new.items ≡ mappings_seen mappings.old.items ++ lost_by process (table_seen change) number) }
{
    match change {
        TableChange::Opened
        | TableChange::Inherited
        | TableChange::Copied
        | TableChange::Received => add(mappings, process, number, None),
        TableChange::Pair | TableChange::Freed | TableChange::Child => Ok(()),
        TableChange::Limited | TableChange::Unchanged => Ok(()),
    }
}

/// Adds that nothing stands for a number that a skipped call has made.
pub(crate) fn add_lost(
    mappings: &mut Vec<FdMapping>,
    process: usize,
    made: &MadeCall,
) -> Result<(), Memory>
    ensures { OnOk result (mappings_seen mappings.new.items ≡ mappings_seen mappings.old.items
        ++ lost process (made_seen made.now) (outcome_seen made.now.outcome)) }
{
    match made.outcome {
        Outcome::Success(number) => {
            add_lost_by(mappings, process, table_change(made.call), number)
        }
        Outcome::Failure(_) => Ok(()),
    }
}
