//! The program's commands, as `clap` reads them.

ghost use Rattle.std.specs.Prelude.{◌≡◌, IfOk, false};
ghost use Rattle.clap.specs.Words.{app_of, rule_of, with_subcommand};
ghost use Rattle.clap.specs.declared.builder.command.Command.TheViews.{out-Command};
ghost use Rattle.command_line.specs.Commands.{command_of_one, command_of_two, program, required_rule};

use clap::{Arg, Command};
use std::alloc::{AllocError, Global};

/// A word that has to be there.
fn required<'a>(alloc: Global, name: &'a str) -> Arg<'a>
    ensures rule { rule_of result ≡ required_rule name.entry.now }
    ensures local { result.global ≡ false }
{
    Arg::new(alloc, name).required(true)
}

/// A command of one word, which has to be there.
fn command_of_one<'a>(
    alloc: Global,
    name: &'a str,
    first: &'a str,
) -> Result<Command<'a>, AllocError>
    ensures shape { IfOk result (λ command. app_of command ≡ command_of_one name.entry.now first.entry.now) }
    ensures local { IfOk result (λ command. (out-Command command).has_globals ≡ false) }
{
    let bare = Command::new(alloc, name).disable_help_flag(true);
    bare.arg(required(alloc, first))
}

/// A command of two words, each of which has to be there.
fn command_of_two<'a>(
    alloc: Global,
    name: &'a str,
    first: &'a str,
    second: &'a str,
) -> Result<Command<'a>, AllocError>
    ensures shape { IfOk result (λ command. app_of command ≡ command_of_two name.entry.now first.entry.now second.entry.now) }
    ensures local { IfOk result (λ command. (out-Command command).has_globals ≡ false) }
{
    let with_first = command_of_one(alloc, name, first)?;
    with_first.arg(required(alloc, second))
}

/// The program with one more command of two words.
fn with_command<'a>(
    alloc: Global,
    program: Command<'a>,
    name: &'a str,
    first: &'a str,
    second: &'a str,
) -> Result<Command<'a>, AllocError>
    ensures { IfOk result (λ command. app_of command ≡ with_subcommand (app_of program.entry) (command_of_two name.entry.now first.entry.now second.entry.now).top) }
{
    let command = command_of_two(alloc, name, first, second)?;
    program.subcommand(command)
}

/// The program with one more command of one word.
fn with_short_command<'a>(
    alloc: Global,
    program: Command<'a>,
    name: &'a str,
    first: &'a str,
) -> Result<Command<'a>, AllocError>
    ensures { IfOk result (λ command. app_of command ≡ with_subcommand (app_of program.entry) (command_of_one name.entry.now first.entry.now).top) }
{
    let command = command_of_one(alloc, name, first)?;
    program.subcommand(command)
}

/// The program: with no command the example, and the commands `run`, `check`, `report`, `search` and `expand`. It has no help and no flags.
pub(crate) fn program<'a>(alloc: Global) -> Result<Command<'a>, AllocError>
    ensures { IfOk result (λ command. app_of command ≡ program) }
{
    let bare = Command::new(alloc, "capcheck")
        .no_binary_name(true)
        .disable_help_flag(true)
        .disable_version_flag(true)
        .disable_help_subcommand(true);
    let with_run = with_command(alloc, bare, "run", "TASK", "SCHEDULE")?;
    let with_check = with_command(alloc, with_run, "check", "TASK", "CERT")?;
    let with_report = with_command(alloc, with_check, "report", "TASK", "CERT")?;
    let with_search = with_short_command(alloc, with_report, "search", "TASK")?;
    with_command(alloc, with_search, "expand", "TASK", "CERT")
}
