//! Where an instruction may lead.

ghost use Rattle.std.specs.Prelude.{◌≡◌, true, option_map};
ghost use Rattle.certificate.specs.Views.{bound_of, interval_of};
ghost use Rattle.instruction_set.specs.Views.{instruction_of};
ghost use Rattle.rules.specs.Outcomes.{equal_outcomes, error_outcomes, less_outcomes, outcomes_in};
ghost use Rattle.transfer.specs.CallViews.{plain_successes_at, successes_at};
ghost use Rattle.transfer.specs.Kept.{TestsEach};
ghost use Rattle.transfer.specs.Limits.{leaves_known};
ghost use Rattle.transfer.specs.OutcomeViews.{outcomes_of};

use crate::calls::call_passes;
use crate::demands::demanded;
use crate::intervals::{equal_part, lower_part, only, other_part, sums, upper_part};
use crate::outcomes::{Change, Outcome};
use crate::successes::{OutcomeVisitor, Site, next_passes};
use certificate::{Bound, Interval};
use instruction_set::{Instruction, Register, enters_mode};
use task::is_marked;

/// Whether a point passes with a register in an interval, if there is one.
fn part_passes<T: OutcomeVisitor>(
    site: &Site<'_>,
    point: usize,
    register: Register,
    part: Option<Interval>,
    visitor: &mut T,
) -> bool
    ensures { TestsEach T.passes T.joins T.kept visitor.old visitor.new result
        (outcomes_in point (bound_of site.now.bound.now) register (option_map interval_of part)) }
{
    match part {
        None => true,
        Some(interval) => visitor.visit(&Outcome {
            point,
            bound: site.bound,
            change: Change::Register {
                register: register.number(),
                interval,
            },
        }),
    }
}

/// Whether the outcomes of `jeq` pass: at its target where the register may be the value, and next where it may be another.
fn equal_pass<T: OutcomeVisitor>(
    site: &Site<'_>,
    register: Register,
    value: u32,
    target: u8,
    visitor: &mut T,
) -> bool
    ensures { TestsEach T.passes T.joins T.kept visitor.old visitor.new result
        (equal_outcomes site.now.point (bound_of site.now.bound.now) register value target) }
{
    let interval = site.bound.interval(register.number());
    let equal = equal_part(interval, value);
    let other = other_part(interval, value);
    let next = site.point as usize + 1;
    part_passes(site, target as usize, register, equal, visitor)
        && part_passes(site, next, register, other, visitor)
}

/// Whether the outcomes of `jlt` pass: at its target where the register may be less than the value, and next where it may not.
fn less_pass<T: OutcomeVisitor>(
    site: &Site<'_>,
    register: Register,
    value: u32,
    target: u8,
    visitor: &mut T,
) -> bool
    ensures { TestsEach T.passes T.joins T.kept visitor.old visitor.new result
        (less_outcomes site.now.point (bound_of site.now.bound.now) register value target) }
{
    let interval = site.bound.interval(register.number());
    let lower = lower_part(interval, value);
    let upper = upper_part(interval, value);
    let next = site.point as usize + 1;
    part_passes(site, target as usize, register, lower, visitor)
        && part_passes(site, next, register, upper, visitor)
}

/// Whether each outcome of an instruction passes that is no error's, in a program that isn't marked.
#[tactic(auto, unfolding(rules::specs::Outcomes::successes))]
fn plain_successes_pass<T: OutcomeVisitor>(
    site: &Site<'_>,
    instruction: &Instruction,
    visitor: &mut T,
) -> bool
    requires { leaves_known (instruction_of instruction.now) ≡ true }
    ensures { TestsEach T.passes T.joins T.kept visitor.old visitor.new result
        (plain_successes_at site.now (instruction_of instruction.now)) }
{
    let bound = site.bound;
    let (register, interval) = match instruction {
        Instruction::Set { register, value } => (register, only(*value)),
        Instruction::Mov { register, source } => (register, bound.interval(source.number())),
        Instruction::Add { register, addend } => {
            let interval = bound.interval(register.number());
            (register, sums(interval, bound.interval(addend.number())))
        }
        Instruction::In { register } => (register, Interval::new(0, 255)),
        Instruction::Jmp { target } => {
            let point = *target as usize;
            let change = Change::Nothing;
            return visitor.visit(&Outcome {
                point,
                bound,
                change,
            });
        }
        Instruction::Jeq {
            register,
            value,
            target,
        } => return equal_pass(site, *register, *value, *target, visitor),
        Instruction::Jlt {
            register,
            value,
            target,
        } => return less_pass(site, *register, *value, *target, visitor),
        Instruction::Halt => return true,
        Instruction::Invoke { call, .. } => {
            return call_passes(site, call, visitor);
        }
    };
    let change = Change::Register {
        register: register.number(),
        interval,
    };
    next_passes(site, bound, change, visitor)
}

/// Whether each outcome of an instruction passes that is no error's: it is asked about each until one doesn't, and about
/// those that are the same perhaps once. A marked program isn't followed into capability mode. Takes no memory. (own; after the
/// manual pages of the calls)
#[tactic(auto, unfolding(rules::specs::Outcomes::successes_in))]
pub fn successes_pass<T: OutcomeVisitor>(
    site: &Site<'_>,
    instruction: &Instruction,
    visitor: &mut T,
) -> bool
    requires { leaves_known (instruction_of instruction.now) ≡ true }
    ensures { TestsEach T.passes T.joins T.kept visitor.old visitor.new result
        (successes_at site.now (instruction_of instruction.now)) }
{
    if enters_mode(instruction) && is_marked(site.task.programs(), site.name.as_bytes()) {
        return true;
    }
    plain_successes_pass(site, instruction, visitor)
}

/// The outcome of an instruction that fails, if it may: register 7 has an error's number, and all else stays. (own)
#[tactic(auto, unfolding(rules::specs::Outcomes::error_outcomes))]
pub fn failure<'a>(bound: &'a Bound, instruction: &Instruction) -> Option<Outcome<'a>>
    ensures { outcomes_of result ≡ error_outcomes (bound_of bound.now) (instruction_of instruction.now) }
{
    match instruction {
        Instruction::Invoke { call, otherwise } => {
            if demanded(call).never_fails {
                return None;
            }
            Some(Outcome {
                point: *otherwise as usize,
                bound,
                change: Change::Register {
                    register: 7,
                    interval: Interval::new(1, 94),
                },
            })
        }
        Instruction::Set { .. }
        | Instruction::Mov { .. }
        | Instruction::Add { .. }
        | Instruction::In { .. }
        | Instruction::Jmp { .. }
        | Instruction::Jeq { .. }
        | Instruction::Jlt { .. }
        | Instruction::Halt => None,
    }
}
