//! The program's words, read as an order.

ghost use Rattle.std.specs.Prelude.{◌≡◌, map, option_map, string_bytes};
ghost use Rattle.std.specs.List.{list_any};
ghost use Rattle.clap.specs.Words.{first_of, found_of, rows_of, subcommand_rows_of};
ghost use Rattle.command_line.specs.Commands.{named_order, parsed_order};
ghost use Rattle.command_line.specs.Orders.{is_dashed};
ghost use Rattle.command_line.specs.OrderViews.{ReadsWords, order_of};

use crate::commands::program;
use crate::faults::WordsFault;
use crate::orders::{Order, is_line_of};
use clap::ArgMatches;
use std::alloc::Global;

/// Whether a word begins with `-`.
fn is_dashed(word: &str) -> bool
    ensures { result ≡ is_dashed word.now }
{
    word.as_bytes().first() == Some(&b'-')
}

/// Whether some word begins with `-`.
fn has_dashed(words: &[String]) -> bool
    ensures { result ≡ list_any is_dashed (map string_bytes words.now) }
{
    for word in words {
        if is_dashed(word.as_str()) {
            return true;
        }
    }
    false
}

/// The value of this name.
fn value_named<'a>(values: &ArgMatches<'a>, name: &str) -> Option<&'a str>
    ensures { option_map (λ value. value.now) result ≡ first_of name.now (rows_of (found_of values.now)) }
{
    values.get_str(name)
}

/// The order of a command of this name with these values.
fn named_order<'a>(command: &str, values: &ArgMatches<'a>) -> Option<Order<'a>>
    ensures { option_map order_of result ≡ named_order command.now (rows_of (found_of values.now)) }
{
    let task = value_named(values, "TASK");
    let schedule = value_named(values, "SCHEDULE");
    let cert = value_named(values, "CERT");
    match (command, task, schedule, cert) {
        ("run", Some(task), Some(schedule), _) => Some(Order::Run { task, schedule }),
        ("check", Some(task), _, Some(cert)) => Some(Order::Check { task, cert }),
        ("report", Some(task), _, Some(cert)) => Some(Order::Report { task, cert }),
        ("search", Some(task), _, _) => Some(Order::Search { task }),
        ("expand", Some(task), _, Some(cert)) => Some(Order::Expand { task, cert }),
        _ => None,
    }
}

/// The order that the words were parsed as.
fn parsed_order<'a>(matches: &ArgMatches<'a>) -> Option<Order<'a>>
    ensures { option_map order_of result ≡ parsed_order (subcommand_rows_of matches.now) }
{
    match matches.subcommand() {
        Some((command, values)) => named_order(command, values),
        None => Some(Order::Example),
    }
}

/// Reads the program's words: none at all is the example, `run TASK SCHEDULE`, `check TASK CERT`, `report TASK CERT`,
/// `search TASK` and `expand TASK CERT` are the commands. A name may be empty, and have any bytes but a leading `-`. (own)
///
/// # Errors
///
/// `Words`, where the words are none of these lines, or one of them begins with `-`, and nowhere else; `Memory`,
/// where a growth was refused, may come in place of any answer.
pub fn read_order<'a>(alloc: Global, words: &'a [String]) -> Result<Order<'a>, WordsFault>
    ensures { ReadsWords result (map string_bytes words.now) }
{
    if has_dashed(words) {
        return Err(WordsFault::Words);
    }
    let matches = match program(alloc)?.try_get_matches_from(words) {
        Ok(matches) => matches,
        Err(error) => return Err(WordsFault::from(error)),
    };
    let order = match parsed_order(&matches) {
        Some(order) => order,
        None => return Err(WordsFault::Words),
    };
    if !is_line_of(words, order) {
        return Err(WordsFault::Words);
    }
    Ok(order)
}
