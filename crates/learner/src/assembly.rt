//! A call of a record as the assembly language has it.

use crate::calls::{is_descriptor, path_of, place_given};
use crate::places::last_name;
use crate::room::Room;
use crate::tables::{Holding, Table};
use call_facts::sets::{add_commands, add_flags, add_rights};
use records::{MadeCall, Operand};
use rights::Call;
use texts::{Page, Say, parts_of, say};

/// Whether a task and assembly can have a path.
pub(crate) fn is_writable(path: &[u8]) -> bool {
    for byte in path {
        if !matches!(*byte, 33..=126) || *byte == b'"' || *byte == b'\\' {
            return false;
        }
    }
    true
}

/// Adds a number that a call is given. Whether something stands for it is told.
fn add_number(page: &mut Page, table: &Table, call: Call, at: usize, number: u32) -> bool {
    if !is_descriptor(call, at) {
        say!(page; " ", number);
        return true;
    }
    match table.of(number) {
        Some(held) => {
            say!(page; " ", held.number);
            true
        }
        None => false,
    }
}

/// Adds a path that a call is given. Whether assembly can have it is told.
fn add_path(page: &mut Page, path: &[u8]) -> bool {
    say!(page; " \"", path, "\"");
    is_writable(path)
}

/// Adds what a call is given in a place. Whether the assembly of a task that asks for no further rights can have it is told.
fn add_operand(page: &mut Page, table: &Table, call: Call, at: usize, operand: &Operand) -> bool {
    match operand {
        Operand::Number(number) => return add_number(page, table, call, at, *number),
        Operand::Path(path) => return add_path(page, path),
        Operand::Flags(flags) => {
            page.bytes(b" ");
            add_flags(page, *flags);
        }
        Operand::Rights(_) if call == Call::Use => return false,
        Operand::Rights(rights) => {
            page.bytes(b" ");
            add_rights(page, rights.asked(false));
        }
        Operand::Commands(commands) => {
            page.bytes(b" ");
            add_commands(page, *commands);
        }
        Operand::Directory(true) => page.bytes(b" dir"),
        Operand::Directory(false) => {}
    }
    true
}

/// Adds what a call is given: for the offset of a seek, this one. Whether assembly can have it is told.
fn add_operands(page: &mut Page, table: &Table, made: &MadeCall, offset: u32) -> bool {
    for (at, operand) in made.operands.iter().enumerate() {
        if made.call == Call::Lseek && at == 1 {
            say!(page; " ", offset);
        } else if !add_operand(page, table, made.call, at, operand) {
            return false;
        }
    }
    true
}

/// Whether a call opens by its path, which a link may lead on, what a task can't have.
fn leads_to_unwritable(made: &MadeCall) -> bool {
    match (path_of(made), place_given(made)) {
        (Some(_), Some(place)) => !is_writable(place),
        _ => false,
    }
}

/// A call in assembly, with the numbers that its descriptors have in the task, and this offset, if it is a seek: none where a descriptor
/// stands for nothing, or where assembly can't have a path, or a task what it leads to.
pub(crate) fn assembly_of(
    room: &mut Room,
    table: &Table,
    made: &MadeCall,
    offset: u32,
) -> Option<Vec<u8>> {
    let mut page = Page::new(room.alloc());
    say!(&mut page; made.call.name());
    if leads_to_unwritable(made) || !add_operands(&mut page, table, made, offset) {
        return None;
    }
    Some(room.bytes(page))
}

/// The last name of what a call is of: its path's, or that of the node that its descriptor is of.
pub(crate) fn subject_of(room: &mut Room, table: &Table, made: &MadeCall) -> Vec<u8> {
    if let Some(path) = path_of(made) {
        return room.copy(last_name(path));
    }
    match table.through(made) {
        Some(Holding::Node(place)) => room.copy(last_name(place)),
        _ => room.list(),
    }
}
