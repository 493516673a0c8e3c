//! A call as a program has it, in front of `else`.

ghost use Rattle.std.specs.Prelude.{◌≡◌, map};
ghost use Rattle.std.specs.List.{flat_map};
ghost use Rattle.call_facts.specs.ArgumentViews.{argument_seen};
ghost use Rattle.call_facts.specs.Arguments.{arguments};
ghost use Rattle.call_facts.specs.Texts.{argument_text, call_text, choice_text, operand_text, path_text};
ghost use Rattle.instruction_set.specs.Views.{operand_of, syscall_of};
ghost use Rattle.texts.specs.PageViews.{Adds};

use crate::arguments::{Argument, Arguments, arguments_of};
use crate::sets::{add_commands, add_flags, add_rights};
use instruction_set::{Operand, Syscall};
use texts::{Page, Say, parts_of, say};

/// Adds an operand.
fn add_operand(page: &mut Page, operand: Operand)
    ensures { Adds page.old page.new (operand_text (operand_of operand)) }
{
    match operand {
        Operand::Number(number) => say!(page; " ", number),
        Operand::Register(register) => say!(page; " r", register.number()),
    }
}

/// Adds a path in quotes.
fn add_path(page: &mut Page, path: &[u8])
    ensures { Adds page.old page.new (path_text path.now) }
{
    say!(page; " \"", path, "\"")
}

/// Adds the word of what is removed.
fn add_choice(page: &mut Page, is_directory: bool)
    ensures { Adds page.old page.new (choice_text is_directory) }
{
    if is_directory {
        " dir".say(page)
    }
}

/// Adds an argument, behind a space.
pub fn add_argument(page: &mut Page, argument: &Argument<'_>)
    ensures { Adds page.old page.new (argument_text (argument_seen argument.now)) }
{
    match argument {
        Argument::Descriptor(operand) | Argument::Amount(operand) | Argument::Status(operand) =>
            add_operand(page, *operand),
        Argument::Path(path) => add_path(page, path),
        Argument::Flags(flags) => {
            " ".say(page);
            add_flags(page, *flags)
        }
        Argument::Rights(rights) => {
            " ".say(page);
            add_rights(page, *rights)
        }
        Argument::Commands(commands) => {
            " ".say(page);
            add_commands(page, *commands)
        }
        Argument::Choice(is_directory) => add_choice(page, *is_directory),
    }
}

/// Adds some arguments, each behind a space.
fn add_arguments(page: &mut Page, arguments: &[Argument<'_>])
    ensures { Adds page.old page.new (flat_map argument_text (map argument_seen arguments.now)) }
{
    match arguments {
        [] => {}
        [first, rest @ ..] => {
            add_argument(page, first);
            add_arguments(page, rest)
        }
    }
}

/// Adds the arguments of a call.
fn add_all(page: &mut Page, call: &Syscall)
    ensures { Adds page.old page.new (flat_map argument_text (arguments (syscall_of call.now))) }
{
    match arguments_of(call) {
        Arguments::None => {}
        Arguments::One(first) => add_arguments(page, &[first]),
        Arguments::Two(first, second) => add_arguments(page, &[first, second]),
        Arguments::Three(first, second, third) => add_arguments(page, &[first, second, third]),
        Arguments::Four(first, second, third, fourth) => {
            add_arguments(page, &[first, second, third, fourth])
        }
    }
}

/// Adds a call with its arguments, as a program has it in front of `else`.
pub fn add_call(page: &mut Page, call: &Syscall)
    ensures { Adds page.old page.new (call_text (syscall_of call.now)) }
{
    call.call().name().say(page);
    add_all(page, call)
}
