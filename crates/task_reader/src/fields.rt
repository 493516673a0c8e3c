//! The tables of a task's document: nodes, grants and programs.

ghost use Rattle.std.specs.Prelude.{◌≡◌, IfSome, map, option_and_then, option_map, true};
ghost use Rattle.rights.specs.Views.{operation_of};
ghost use Rattle.toml.specs.Data.{as_table};
ghost use Rattle.toml.specs.View.{table_view, view};
ghost use Rattle.task_reader.specs.FaultViews.{ReadsTask};
ghost use Rattle.task_reader.specs.Reading.{Wrong_field, or_mistake};
ghost use Rattle.task_reader.specs.Written.{directory_in, file_in, grant_in, link_in, name_at, node_in, operations_in, program_in, written_grant, written_node, written_program};
ghost use Rattle.task_reader.specs.WrittenViews.{grant_seen, node_seen, program_seen};
ghost use Rattle.texts.specs.Names.{is_name};

use crate::documents::{has_only, read_words, text_at, truth_at, value_at};
use crate::faults::TaskFault;
use crate::words::read_operations;
use crate::written::{WrittenGrant, WrittenNode, WrittenProgram};
use file_tree::Kind;
use rights::Op;
use std::alloc::Global;
use texts::is_name;
use toml::{Table, Value};

/// A directory.
fn directory(table: &Table) -> Option<WrittenNode<'_>>
    ensures { option_map node_seen result ≡ directory_in (table_view table.now) }
{
    if !has_only(table, &["path", "kind"]) {
        return None;
    }
    match text_at(table, "path") {
        Some(path) => Some(WrittenNode {
            path,
            kind: Kind::Dir,
            content: "",
        }),
        None => None,
    }
}

/// A file, with its content.
fn file(table: &Table) -> Option<WrittenNode<'_>>
    ensures { option_map node_seen result ≡ file_in (table_view table.now) }
{
    if !has_only(table, &["path", "kind", "content"]) {
        return None;
    }
    match (text_at(table, "path"), text_at(table, "content")) {
        (Some(path), Some(content)) => Some(WrittenNode {
            path,
            kind: Kind::File,
            content,
        }),
        _ => None,
    }
}

/// A link, with its target.
fn link(table: &Table) -> Option<WrittenNode<'_>>
    ensures { option_map node_seen result ≡ link_in (table_view table.now) }
{
    if !has_only(table, &["path", "kind", "target"]) {
        return None;
    }
    match (text_at(table, "path"), text_at(table, "target")) {
        (Some(path), Some(content)) => Some(WrittenNode {
            path,
            kind: Kind::Link,
            content,
        }),
        _ => None,
    }
}

/// A node of the kind that its table says.
fn node(table: &Table) -> Option<WrittenNode<'_>>
    ensures { option_map node_seen result ≡ node_in (table_view table.now) }
{
    match text_at(table, "kind") {
        Some("dir") => directory(table),
        Some("file") => file(table),
        Some("link") => link(table),
        _ => None,
    }
}

/// The node that a value is, if it is one.
pub(crate) fn written_node(value: &Value) -> Option<WrittenNode<'_>>
    ensures { option_map node_seen result ≡ written_node (view value.now) }
{
    match value.as_table() {
        Some(table) => node(table),
        None => None,
    }
}

/// The name of a grant or a program.
fn name_at<'a>(table: &'a Table, key: &str) -> Option<&'a str>
    ensures name { option_map (λ name. name.now) result ≡ name_at key.now (table_view table.now) }
    ensures word { IfSome result (λ name. is_name name.now ≡ true) }
{
    match text_at(table, key) {
        Some(name) => {
            if is_name(name.as_bytes()) {
                Some(name)
            } else {
                None
            }
        }
        None => None,
    }
}

/// A program, with its text, and whether it is marked.
fn program(table: &Table) -> Option<WrittenProgram<'_>>
    ensures { option_map program_seen result ≡ program_in (table_view table.now) }
{
    if !has_only(table, &["name", "code", "untrusted"]) {
        return None;
    }
    let untrusted = truth_at(table, "untrusted");
    match (name_at(table, "name"), text_at(table, "code"), untrusted) {
        (Some(name), Some(text), Some(untrusted)) => Some(WrittenProgram {
            name,
            text,
            untrusted,
        }),
        _ => None,
    }
}

/// The program that a value is, if it is one.
pub(crate) fn written_program(value: &Value) -> Option<WrittenProgram<'_>>
    ensures { option_map program_seen result ≡ written_program (view value.now) }
{
    match value.as_table() {
        Some(table) => program(table),
        None => None,
    }
}

/// A list of operations.
fn operations(alloc: Global, value: Option<&Value>) -> Result<Vec<Op>, TaskFault>
    ensures { ReadsTask (λ operations. map operation_of operations.items) result
        (or_mistake Wrong_field (option_and_then operations_in (option_map (λ v. view v.now) value.entry))) }
{
    match value {
        Some(value) => {
            let words = read_words(alloc, value)?;
            read_operations(alloc, &words)
        }
        None => Err(TaskFault::Field),
    }
}

/// A grant, with its operations.
fn grant<'a>(alloc: Global, table: &'a Table) -> Result<WrittenGrant<'a>, TaskFault>
    ensures { ReadsTask grant_seen result (or_mistake Wrong_field (grant_in (table_view table.now))) }
{
    if !has_only(table, &["name", "path", "ops"]) {
        return Err(TaskFault::Field);
    }
    match (name_at(table, "name"), text_at(table, "path")) {
        (Some(name), Some(path)) => {
            let operations = operations(alloc, value_at(table, "ops"))?;
            Ok(WrittenGrant {
                name,
                path,
                operations,
            })
        }
        _ => Err(TaskFault::Field),
    }
}

/// The grant that a value is.
pub(crate) fn written_grant<'a>(
    alloc: Global,
    value: &'a Value,
) -> Result<WrittenGrant<'a>, TaskFault>
    ensures { ReadsTask grant_seen result (or_mistake Wrong_field (written_grant (view value.now))) }
{
    match value.as_table() {
        Some(table) => grant(alloc, table),
        None => Err(TaskFault::Field),
    }
}
