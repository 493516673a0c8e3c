//! The words of a task: names, operations, flags, sides, rights and fcntl commands.

ghost use Rattle.std.specs.Prelude.{⊤, ◌≡◌, map, option_map};
ghost use Rattle.std.specs.List.{list_all};
ghost use Rattle.rights.specs.Sets.{command_names, right_names};
ghost use Rattle.rights.specs.Views.{operation_of, side_seen};
ghost use Rattle.fd_table.specs.Views.{access_seen};
ghost use Rattle.instruction_set.specs.Fields.{set_of_word};
ghost use Rattle.task_reader.specs.FaultViews.{ReadsTask};
ghost use Rattle.task_reader.specs.Reading.{Wrong_field, or_mistake};
ghost use Rattle.task_reader.specs.Written.{access_named, is_flag, mode_named, operation_named, operations_named, place_among, set_named, side_named};

use crate::documents::is_among;
use crate::faults::TaskFault;
use bitflags::{Flag, Flags};
use fd_table::{Access, Side};
use indexmap::IndexSet;
use rights::Op;
use std::alloc::Global;

/// The place of a name among these.
pub(crate) fn place_among(names: &IndexSet<&str>, word: &str) -> Option<usize>
    ensures { result ≡ place_among (map (λ n. n.now) names.now.keys) word.now }
{
    names.get_index_of(&word)
}

/// The operation of a name.
fn operation(word: &str) -> Option<Op>
    ensures { option_map operation_of result ≡ operation_named word.now }
{
    match word {
        "look" => Some(Op::Look),
        "read" => Some(Op::Read),
        "write" => Some(Op::Write),
        "create" => Some(Op::Create),
        "remove" => Some(Op::Remove),
        _ => None,
    }
}

/// The operations of these names.
pub(crate) fn read_operations(alloc: Global, words: &[&str]) -> Result<Vec<Op>, TaskFault>
    ensures { ReadsTask (λ operations. map operation_of operations.items) result
        (or_mistake Wrong_field (operations_named (map (λ w. w.now) words.now))) }
{
    let mut operations = Vec::new(alloc);
    for word in words {
        match operation(word) {
            Some(operation) => operations.push(operation)?,
            None => return Err(TaskFault::Field),
        }
    }
    Ok(operations)
}

/// Whether a word is a flag.
fn is_flag(word: &str) -> bool
    ensures { result ≡ is_flag word.now }
{
    word == "read" || word == "write"
}

/// Whether each word is a flag.
fn are_flags(words: &[&str]) -> bool
    ensures { result ≡ list_all is_flag (map (λ w. w.now) words.now) }
{
    for word in words {
        if !is_flag(word) {
            return false;
        }
    }
    true
}

/// What flags open a node for: there is one at least.
pub(crate) fn access(words: &[&str]) -> Option<Access>
    ensures { option_map access_seen result ≡ access_named (map (λ w. w.now) words.now) }
{
    if words.is_empty() || !are_flags(words) {
        return None;
    }
    Some(Access {
        readable: is_among("read", words),
        writable: is_among("write", words),
    })
}

/// The side of this name.
pub(crate) fn side(word: &str) -> Option<Side>
    ensures { option_map side_seen result ≡ side_named word.now }
{
    match word {
        "a" => Some(Side::A),
        "b" => Some(Side::B),
        _ => None,
    }
}

/// The member of this name.
fn named<F: Flags + Copy>(rows: &[Flag<F>], word: &str) -> Option<F>
    ensures { option_map F.set_of result
        ≡ set_of_word (map (λ row. (row.name.now, F.set_of row.value)) rows.now) word.now }
{
    for row in rows {
        if word == row.name {
            return Some(row.value);
        }
    }
    None
}

/// The set of the members of these names.
pub(crate) fn set<F: Flags + Copy>(words: &[&str]) -> Option<F>
    requires { F.exact }
    ensures { option_map F.set_of result ≡ set_named F.table (map (λ w. w.now) words.now) }
{
    let mut set = F::empty();
    for word in words {
        set = set.union(named(F::flags(), word)?);
    }
    Some(set)
}

/// Whether a process of this mode starts in capability mode. (cap_enter(2))
pub(crate) fn mode(word: &str) -> Option<bool>
    ensures { result ≡ mode_named word.now }
{
    match word {
        "free" => Some(false),
        "cap" => Some(true),
        _ => None,
    }
}
