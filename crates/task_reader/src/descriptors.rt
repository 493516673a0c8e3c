//! The descriptors of a task's document: each on the node at a path, or on a side of a socket pair.

ghost use Rattle.std.specs.Prelude.{◌≡◌, option_map};
ghost use Rattle.rights.specs.Sets.{all_commands, all_rights, command_names};
ghost use Rattle.rights.specs.Views.{side_seen};
ghost use Rattle.fd_table.specs.Views.{access_seen};
ghost use Rattle.toml.specs.View.{table_view, view};
ghost use Rattle.task_reader.specs.Documents.{read_or};
ghost use Rattle.task_reader.specs.FaultViews.{ReadsTask};
ghost use Rattle.task_reader.specs.Reading.{Wrong_field, or_mistake};
ghost use Rattle.task_reader.specs.Written.{access_in, descriptor_in, object_written, pair_in, path_written, reading, rights_listed, set_in, side_at, written_descriptor};
ghost use Rattle.task_reader.specs.WrittenViews.{descriptor_seen, object_seen};

use crate::documents::{has_only, integer_at, read_words, text_at, value_at};
use crate::faults::TaskFault;
use crate::words::{access, set, side};
use crate::written::{WrittenDescriptor, WrittenObject};
use bitflags::Flags;
use fd_table::{Access, Side};
use rights::{Fcntls, Rights};
use std::alloc::Global;
use toml::{Table, Value};

/// What a descriptor's node is opened for: reading, where no list of flags says it. (open(2))
fn read_access(alloc: Global, value: Option<&Value>) -> Result<Access, TaskFault>
    ensures { ReadsTask access_seen result
        (or_mistake Wrong_field (read_or reading access_in (option_map (λ v. view v.now) value.entry))) }
{
    let value = match value {
        Some(value) => value,
        None => {
            return Ok(Access {
                readable: true,
                writable: false,
            });
        }
    };
    let words = read_words(alloc, value)?;
    match access(&words) {
        Some(access) => Ok(access),
        None => Err(TaskFault::Field),
    }
}

/// The set that a list of names stands for.
fn read_set<F: Flags + Copy>(alloc: Global, value: &Value) -> Result<F, TaskFault>
    requires { F.exact }
    ensures { ReadsTask F.set_of result (or_mistake Wrong_field (set_in F.table (view value.now))) }
{
    let words = read_words(alloc, value)?;
    match set(&words) {
        Some(set) => Ok(set),
        None => Err(TaskFault::Field),
    }
}

/// The rights that a list names, further ones among them only where the task asks for them.
fn listed_rights(alloc: Global, further: bool, value: &Value) -> Result<Rights, TaskFault>
    ensures { ReadsTask (λ rights. rights.0) result (or_mistake Wrong_field (rights_listed further (view value.now))) }
{
    let rights = read_set::<Rights>(alloc, value)?;
    if further || Rights::plain().contains(rights) {
        Ok(rights)
    } else {
        Err(TaskFault::Field)
    }
}

/// A descriptor's rights: all, where no list says which. (rights(4))
fn read_rights(alloc: Global, further: bool, value: Option<&Value>) -> Result<Rights, TaskFault>
    ensures { ReadsTask (λ rights. rights.0) result
        (or_mistake Wrong_field (read_or all_rights (rights_listed further) (option_map (λ v. view v.now) value.entry))) }
{
    match value {
        Some(value) => listed_rights(alloc, further, value),
        None => Ok(Rights::all()),
    }
}

/// A descriptor's fcntl commands: all, where no list says which. (cap_fcntls_limit(2))
fn read_fcntls(alloc: Global, value: Option<&Value>) -> Result<Fcntls, TaskFault>
    ensures { ReadsTask (λ fcntls. fcntls.0) result
        (or_mistake Wrong_field (read_or all_commands (set_in command_names) (option_map (λ v. view v.now) value.entry))) }
{
    match value {
        Some(value) => read_set(alloc, value),
        None => Ok(Fcntls::all()),
    }
}

/// The side that a table names.
fn side_at(table: &Table) -> Option<Side>
    ensures { option_map side_seen result ≡ side_at (table_view table.now) }
{
    match text_at(table, "side") {
        Some(word) => side(word),
        None => None,
    }
}

/// An end of a socket pair, of any number yet. (socketpair(2))
fn pair(table: &Table) -> Option<WrittenObject<'_>>
    ensures { option_map object_seen result ≡ pair_in (table_view table.now) }
{
    if !has_only(table, &["number", "pair", "side", "rights", "fcntls"]) {
        return None;
    }
    match (integer_at(table, "pair"), side_at(table)) {
        (Some(pair), Some(side)) => Some(WrittenObject::Pair { pair, side }),
        _ => None,
    }
}

/// The node at a path, and what it is opened for.
fn path(alloc: Global, table: &Table) -> Result<WrittenObject<'_>, TaskFault>
    ensures { ReadsTask object_seen result (or_mistake Wrong_field (path_written (table_view table.now))) }
{
    if !has_only(table, &["number", "path", "flags", "rights", "fcntls"]) {
        return Err(TaskFault::Field);
    }
    match text_at(table, "path") {
        Some(path) => Ok(WrittenObject::Path {
            path,
            access: read_access(alloc, value_at(table, "flags"))?,
        }),
        None => Err(TaskFault::Field),
    }
}

/// What a descriptor is of: an end, if its table has a pair, and else a node.
fn object(alloc: Global, table: &Table) -> Result<WrittenObject<'_>, TaskFault>
    ensures { ReadsTask object_seen result (or_mistake Wrong_field (object_written (table_view table.now))) }
{
    match value_at(table, "pair") {
        Some(_) => pair(table).ok_or(TaskFault::Field),
        None => path(alloc, table),
    }
}

/// A first descriptor, with its object, rights and commands.
fn descriptor(
    alloc: Global,
    further: bool,
    table: &Table,
) -> Result<WrittenDescriptor<'_>, TaskFault>
    ensures { ReadsTask descriptor_seen result (or_mistake Wrong_field (descriptor_in further (table_view table.now))) }
{
    let Some(number) = integer_at(table, "number") else {
        return Err(TaskFault::Field);
    };
    Ok(WrittenDescriptor {
        number,
        object: object(alloc, table)?,
        rights: read_rights(alloc, further, value_at(table, "rights"))?,
        fcntls: read_fcntls(alloc, value_at(table, "fcntls"))?,
    })
}

/// The first descriptor that a value is, of a task that asks for further rights or doesn't.
pub(crate) fn written_descriptor<'a>(
    alloc: Global,
    further: bool,
    value: &'a Value,
) -> Result<WrittenDescriptor<'a>, TaskFault>
    ensures { ReadsTask descriptor_seen result (or_mistake Wrong_field (written_descriptor further (view value.now))) }
{
    match value.as_table() {
        Some(table) => descriptor(alloc, further, table),
        None => Err(TaskFault::Field),
    }
}
