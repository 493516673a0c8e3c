//! Whether a call of a task is given what a recorded call was given.

ghost use Rattle.std.specs.Prelude.{◌≡◌, List, map, true, ℕ, Bool};
ghost use Rattle.call_facts.specs.ArgumentViews.{argument_seen};
ghost use Rattle.call_facts.specs.Arguments.{arguments};
ghost use Rattle.instruction_set.specs.Views.{operand_of, syscall_of};
ghost use Rattle.kernel.specs.Answers.{operand_value};
ghost use Rattle.records.specs.Calls as calls;
ghost use Rattle.records.specs.OperandViews.{operand_seen};
ghost use Rattle.follow.specs.Given.{all_fit, fits};
ghost use Rattle.follow.specs.Numbers.{FdMapping as FdMappingSeen};
ghost use Rattle.follow.specs.Places.{Placing as PlacingSeen};
ghost use Rattle.follow.specs.Views.{mappings_seen, placings_of};

use crate::numbers::{FdMapping, is_number, named};
use crate::places::{Placing, in_task};
use call_facts::{Argument, Arguments, arguments_of};
use instruction_set::{Operand, Syscall};
use records::Operand as Real;
use rights::limits::REGISTERS;
use rights::{Fcntls, OpenFlags, Rights};

/// By what a process of the task is compared with one of the record.
#[derive(Clone, Copy)]
pub(crate) struct Names<'a> {
    /// Whether the task asks for further rights.
    pub wide: bool,
    pub placings: &'a [Placing],
    pub mappings: &'a [FdMapping],
    pub process: usize,
    pub registers: &'a [u32; REGISTERS],
}

/// The value of an operand.
pub(crate) fn value_of(registers: &[u32; REGISTERS], operand: Operand) -> u32
    ensures { result ≡ operand_value registers.now (operand_of operand) }
{
    match operand {
        Operand::Number(number) => number,
        Operand::Register(register) => registers[register.number() as usize],
    }
}

/// Whether a number that the recorded process was given is what the task's is given.
fn number_fits(names: &Names<'_>, number: u32, given: &Argument<'_>) -> bool
    ensures { result ≡ fits names.now.wide (placings_of names.now.placings.now) (mappings_seen names.now.mappings.now) names.now.process names.now.registers.now
        (operand_seen (Real.Number number)) (argument_seen given.now) }
{
    match given {
        Argument::Descriptor(own) => is_number(
            named(names.mappings, names.process, number),
            value_of(names.registers, *own),
        ),
        Argument::Amount(_) => true,
        Argument::Status(own) => number == value_of(names.registers, *own),
        Argument::Path(_) | Argument::Flags(_) | Argument::Rights(_) => false,
        Argument::Commands(_) | Argument::Choice(_) => false,
    }
}

/// Whether a path that the recorded process was given is what the task's is given.
fn path_fits(names: &Names<'_>, path: &[u8], given: &Argument<'_>) -> bool
    ensures { result ≡ fits names.now.wide (placings_of names.now.placings.now) (mappings_seen names.now.mappings.now) names.now.process names.now.registers.now
        (calls.Path path.now) (argument_seen given.now) }
{
    match given {
        Argument::Path(own) => in_task(names.placings, path).is(own),
        _ => false,
    }
}

/// Whether flags that a recorded process was given are what the task's is given, by any names.
fn flags_fit(flags: OpenFlags, given: &Argument<'_>) -> bool
    ensures { (wide : Bool) (placings : List PlacingSeen) (mappings : List FdMappingSeen) (process : ℕ) (registers : List ℕ)
        → result ≡ fits wide placings mappings process registers (calls.Flags flags) (argument_seen given.now) }
{
    match given {
        Argument::Flags(own) => flags == *own,
        _ => false,
    }
}

/// The same of rights.
fn rights_fit(wide: bool, rights: Rights, given: &Argument<'_>) -> bool
    ensures { (placings : List PlacingSeen) (mappings : List FdMappingSeen) (process : ℕ) (registers : List ℕ)
        → result ≡ fits wide placings mappings process registers (calls.Rights rights.0) (argument_seen given.now) }
{
    match given {
        Argument::Rights(own) => rights.asked(wide) == *own,
        _ => false,
    }
}

/// The same of fcntl commands.
fn commands_fit(commands: Fcntls, given: &Argument<'_>) -> bool
    ensures { (wide : Bool) (placings : List PlacingSeen) (mappings : List FdMappingSeen) (process : ℕ) (registers : List ℕ)
        → result ≡ fits wide placings mappings process registers (calls.Commands commands.0) (argument_seen given.now) }
{
    match given {
        Argument::Commands(own) => commands == *own,
        _ => false,
    }
}

/// The same of whether a directory is to be removed.
fn choice_fits(asked: bool, given: &Argument<'_>) -> bool
    ensures { (wide : Bool) (placings : List PlacingSeen) (mappings : List FdMappingSeen) (process : ℕ) (registers : List ℕ)
        → result ≡ fits wide placings mappings process registers (calls.Directory asked) (argument_seen given.now) }
{
    match given {
        Argument::Choice(own) => asked == *own,
        _ => false,
    }
}

/// Whether what the recorded process was given is what the task's is given.
fn fits(names: &Names<'_>, real: &Real, given: &Argument<'_>) -> bool
    ensures { result ≡ fits names.now.wide (placings_of names.now.placings.now) (mappings_seen names.now.mappings.now) names.now.process names.now.registers.now
        (operand_seen real.now) (argument_seen given.now) }
{
    match real {
        Real::Number(number) => number_fits(names, *number, given),
        Real::Path(path) => path_fits(names, path, given),
        Real::Flags(flags) => flags_fit(*flags, given),
        Real::Rights(rights) => rights_fit(names.wide, *rights, given),
        Real::Commands(commands) => commands_fit(*commands, given),
        Real::Directory(asked) => choice_fits(*asked, given),
    }
}

/// Whether all that the recorded process was given is what the task's is given.
fn all_fit(names: &Names<'_>, operands: &[Real], given: &[Argument<'_>]) -> bool
    ensures { result ≡ all_fit names.now.wide (placings_of names.now.placings.now) (mappings_seen names.now.mappings.now) names.now.process names.now.registers.now
        (map operand_seen operands.now) (map argument_seen given.now) }
{
    match operands {
        [] => given.is_empty(),
        [real, operands @ ..] => match given {
            [] => false,
            [first, given @ ..] => fits(names, real, first) && all_fit(names, operands, given),
        },
    }
}

/// Whether a call is given what the recorded process was given.
pub(crate) fn call_fits(names: &Names<'_>, call: &Syscall, operands: &[Real]) -> bool
    ensures { result ≡ all_fit names.now.wide (placings_of names.now.placings.now) (mappings_seen names.now.mappings.now) names.now.process names.now.registers.now
        (map operand_seen operands.now) (arguments (syscall_of call.now)) }
{
    match arguments_of(call) {
        Arguments::None => all_fit(names, operands, &[]),
        Arguments::One(first) => all_fit(names, operands, &[first]),
        Arguments::Two(first, second) => all_fit(names, operands, &[first, second]),
        Arguments::Three(first, second, third) => all_fit(names, operands, &[first, second, third]),
        Arguments::Four(first, second, third, fourth) => {
            all_fit(names, operands, &[first, second, third, fourth])
        }
    }
}
