//! What is missing where a call is refused, as a text.

use crate::attacks::Move;
use crate::breaches::Breach;
use crate::runners::Runner;
use bitflags::Flags;
use call_facts::{
    Argument, Arguments, TableChange, arguments_of, first_operand, second_operand, table_change,
};
use instruction_set::{Operand, Syscall};
use rights::{Call, Fcntls, Memory, OpenFlags, Position, Rights, needs};
use std::alloc::Global;
use task::Task;
use texts::{Page, Say, parts_of, say};

/// Adds the names of a set of rights or commands, with commas between them.
fn add_names<F: Flags>(page: &mut Page, set: &F) {
    let mut separator: &[u8] = b"";
    for (name, _) in set.iter_names() {
        say!(page; separator, name);
        separator = b",";
    }
}

/// Adds what the descriptor that an operand names lacks of what is needed of it, if it is open and lacks something: rights, or commands where it
/// has the rights. Whether it does is told.
fn add_lack(
    page: &mut Page,
    runner: &Runner<'_>,
    process: u8,
    operand: Operand,
    needed: (Rights, Fcntls),
) -> bool {
    let Some(number) = runner.number(process, operand) else {
        return false;
    };
    let Some(descriptor) = runner.machine.files().get(process, number) else {
        return false;
    };
    let rights = Flags::difference(needed.0, descriptor.rights);
    let commands = Flags::difference(needed.1, descriptor.fcntls);
    if Flags::is_empty(&rights) && Flags::is_empty(&commands) {
        return false;
    }
    ": ".say(page);
    if Flags::is_empty(&rights) {
        add_names(page, &commands);
    } else {
        add_names(page, &rights);
    }
    say!(page; " of descriptor ", number);
    true
}

/// Whether a call limits its descriptor.
pub(crate) fn is_limit(call: &Syscall) -> bool {
    table_change(call.call()) == TableChange::Limited
}

/// What a call needs of its first descriptor, or what a limit keeps of it.
fn first_need(call: &Syscall) -> (Rights, Fcntls) {
    match arguments_of(call) {
        Arguments::Two(_, Argument::Rights(kept)) if is_limit(call) => (kept, Fcntls::empty()),
        Arguments::Two(_, Argument::Commands(commands)) => (Rights::empty(), commands),
        _ => (call.first_rights().union(call.further()), call.command()),
    }
}

/// What a call needs of its second descriptor, where it replaces a node or not.
fn second_need(call: &Syscall, replaces: bool) -> (Rights, Fcntls) {
    let flags = OpenFlags::unused();
    let rights = needs(call.call(), flags, Position::Second, replaces);
    (rights, Fcntls::empty())
}

/// Adds what the second descriptor of a call lacks, where it replaces a node or not. Whether it lacks something is told.
fn add_second_lack(
    page: &mut Page,
    runner: &Runner<'_>,
    process: u8,
    call: &Syscall,
    replaces: bool,
) -> bool {
    match second_operand(call) {
        Some(second) => add_lack(page, runner, process, second, second_need(call, replaces)),
        None => false,
    }
}

/// Adds what is lacking for a call, as the kernel looks for it: first of the first descriptor, and last for a node that is replaced.
fn add_first_lack(page: &mut Page, runner: &Runner<'_>, process: u8, call: &Syscall) {
    let Some(first) = first_operand(call) else {
        return;
    };
    if add_lack(page, runner, process, first, first_need(call)) {
        return;
    }
    if !add_second_lack(page, runner, process, call, false) {
        add_second_lack(page, runner, process, call, true);
    }
}

/// Adds what the next step of a process breaks by its call.
fn add_detail(page: &mut Page, runner: &Runner<'_>, process: u8, breach: &Breach) {
    match (breach, runner.call(process)) {
        (Breach::CapMode, Some(call)) => say!(page; ": ", call.call().name()),
        (Breach::MissingRight, Some(call)) => add_first_lack(page, runner, process, call),
        _ => {}
    }
}

/// What stands behind the words of what the last of these moves breaks: `: FSTAT of descriptor 3` of a missing right, `: open` of a call
/// in capability mode, and nothing where that can't be told.
pub(crate) fn detail_of(
    alloc: Global,
    task: &Task,
    moves: &[Move<'_>],
    breach: &Breach,
) -> Result<Vec<u8>, Memory> {
    let mut page = Page::new(alloc);
    if let Some((last, before)) = moves.split_last() {
        let mut runner = Runner::start(alloc, task)?;
        for next in before {
            runner.step(next)?;
        }
        add_detail(&mut page, &runner, last.event.process, breach);
    }
    Ok(page.into_bytes()?)
}
