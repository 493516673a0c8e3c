//! The lists of a task's document, and the document as a whole.

ghost use Rattle.std.specs.Prelude.{◌≡◌, false, IfErr, IfOk, map, option_and_then, option_map};
ghost use Rattle.toml.specs.Data.{get_member};
ghost use Rattle.toml.specs.View.{items_view, table_view, view};
ghost use Rattle.task_reader.specs.Documents.{are_once, each_item, once, read_or};
ghost use Rattle.task_reader.specs.FaultViews.{ReadsTask};
ghost use Rattle.task_reader.specs.Reading.{Wrong_field, or_mistake};
ghost use Rattle.task_reader.specs.Written.{descriptors_in, listed_starts, mode_written, names_of_grants, names_of_programs, program_place, start_in, written_descriptor};
ghost use Rattle.task_reader.specs.Written.{written_grant, written_grants, written_node, written_nodes, written_program, written_programs, written_start, written_starts};
ghost use Rattle.task_reader.specs.Written.{written_task};
ghost use Rattle.task_reader.specs.WrittenViews.{descriptor_seen, grant_seen, grants_seen, node_seen, nodes_seen, program_seen, programs_seen, start_seen, starts_seen, task_seen};
ghost use Rattle.task_reader.specs.declared.faults.TaskFault.TheVariants as fault;

use crate::descriptors::written_descriptor;
use crate::documents::{are_once, has_only, items_at, text_at, truth_at, value_at, words_once};
use crate::faults::TaskFault;
use crate::fields::{written_grant, written_node, written_program};
use crate::words::{mode, place_among};
use crate::written::{
    WrittenDescriptor, WrittenGrant, WrittenNode, WrittenProgram, WrittenStart, WrittenTask,
};
use indexmap::IndexSet;
use std::alloc::{AllocFailed, Global};
use toml::{Table, Value};

/// The nodes of a list.
fn node_list<'a>(alloc: Global, values: &'a [Value]) -> Result<Vec<WrittenNode<'a>>, TaskFault>
    ensures { ReadsTask (λ nodes. nodes_seen nodes.items) result
        (or_mistake Wrong_field (each_item written_node (items_view values.now))) }
{
    let mut nodes = Vec::with_capacity(alloc, values.len())?;
    for value in values {
        match written_node(value) {
            Some(node) => nodes.push(node)?,
            None => return Err(TaskFault::Field),
        }
    }
    Ok(nodes)
}

/// A document's nodes.
fn read_nodes<'a>(alloc: Global, table: &'a Table) -> Result<Vec<WrittenNode<'a>>, TaskFault>
    ensures { ReadsTask (λ nodes. nodes_seen nodes.items) result
        (or_mistake Wrong_field (written_nodes (table_view table.now))) }
{
    match items_at(table, "node") {
        Some(values) => node_list(alloc, values),
        None => Err(TaskFault::Field),
    }
}

/// The grants of a list.
fn grant_list<'a>(alloc: Global, values: &'a [Value]) -> Result<Vec<WrittenGrant<'a>>, TaskFault>
    ensures { ReadsTask (λ grants. grants_seen grants.items) result
        (or_mistake Wrong_field (each_item written_grant (items_view values.now))) }
{
    let mut grants = Vec::with_capacity(alloc, values.len())?;
    for value in values {
        grants.push(written_grant(alloc, value)?)?;
    }
    Ok(grants)
}

/// The names of some grants.
fn grant_names<'a>(
    alloc: Global,
    grants: &[WrittenGrant<'a>],
) -> Result<Vec<&'a str>, AllocFailed<&'a str>>
    ensures { IfOk result (λ names. map (λ n. n.now) names.items ≡ names_of_grants (grants_seen grants.now)) }
{
    let mut names = Vec::new(alloc);
    for grant in grants {
        names.push(grant.name)?;
    }
    Ok(names)
}

/// Whether the name of each grant is given once.
fn are_grants_once(alloc: Global, grants: &[WrittenGrant<'_>]) -> Result<bool, TaskFault>
    ensures once { IfOk result (λ once. once ≡ are_once (names_of_grants (grants_seen grants.now))) }
    ensures memory { IfErr result (λ error. error ≡ fault.Memory) }
{
    let names = grant_names(alloc, grants)?;
    are_once(alloc, &names)
}

/// A document's grants: each name is given once.
fn read_grants<'a>(alloc: Global, table: &'a Table) -> Result<Vec<WrittenGrant<'a>>, TaskFault>
    ensures { ReadsTask (λ grants. grants_seen grants.items) result
        (or_mistake Wrong_field (written_grants (table_view table.now))) }
{
    let values = match items_at(table, "grant") {
        Some(values) => values,
        None => return Err(TaskFault::Field),
    };
    let grants = grant_list(alloc, values)?;
    if are_grants_once(alloc, &grants)? {
        Ok(grants)
    } else {
        Err(TaskFault::Field)
    }
}

/// Programs, and the set of their names in the same order.
#[derive(Drop)]
struct NamedPrograms<'a> {
    programs: Vec<WrittenProgram<'a>>,
    names: IndexSet<&'a str>,
}

/// The programs of a list.
fn program_list<'a>(
    alloc: Global,
    values: &'a [Value],
) -> Result<Vec<WrittenProgram<'a>>, TaskFault>
    ensures { ReadsTask (λ programs. programs_seen programs.items) result
        (or_mistake Wrong_field (each_item written_program (items_view values.now))) }
{
    let mut programs = Vec::with_capacity(alloc, values.len())?;
    for value in values {
        match written_program(value) {
            Some(program) => programs.push(program)?,
            None => return Err(TaskFault::Field),
        }
    }
    Ok(programs)
}

/// The names of some programs.
fn program_names<'a>(
    alloc: Global,
    programs: &[WrittenProgram<'a>],
) -> Result<Vec<&'a str>, AllocFailed<&'a str>>
    ensures { IfOk result (λ names. map (λ n. n.now) names.items ≡ names_of_programs (programs_seen programs.now)) }
{
    let mut names = Vec::new(alloc);
    for program in programs {
        names.push(program.name)?;
    }
    Ok(names)
}

/// The names of some programs as a set, or nothing where one is given twice.
fn program_set<'a>(
    alloc: Global,
    programs: &[WrittenProgram<'a>],
) -> Result<Option<IndexSet<&'a str>>, TaskFault>
    ensures once { IfOk result (λ set. option_map (λ s. map (λ n. n.now) s.keys) set ≡ once (names_of_programs (programs_seen programs.now))) }
    ensures memory { IfErr result (λ error. error ≡ fault.Memory) }
{
    let names = program_names(alloc, programs)?;
    words_once(alloc, &names)
}

/// A document's programs, with their names: each is given once.
fn read_programs<'a>(alloc: Global, table: &'a Table) -> Result<NamedPrograms<'a>, TaskFault>
    ensures programs { ReadsTask (λ read. programs_seen read.programs.items) result
        (or_mistake Wrong_field (written_programs (table_view table.now))) }
    ensures names { IfOk result (λ read. map (λ n. n.now) read.names.keys ≡ names_of_programs (programs_seen read.programs.items)) }
{
    let values = match items_at(table, "program") {
        Some(values) => values,
        None => return Err(TaskFault::Field),
    };
    let programs = program_list(alloc, values)?;
    match program_set(alloc, &programs)? {
        Some(names) => Ok(NamedPrograms { programs, names }),
        None => Err(TaskFault::Field),
    }
}

/// Whether a process starts in capability mode: not where nothing says it. (cap_enter(2))
fn read_mode(value: Option<&Value>) -> Option<bool>
    ensures { result ≡ read_or false mode_written (option_map (λ v. view v.now) value.entry) }
{
    match value {
        Some(value) => match value.as_str() {
            Some(word) => mode(word),
            None => None,
        },
        None => Some(false),
    }
}

/// The place of a process's program among the programs of these names.
fn program_at(names: &IndexSet<&str>, table: &Table) -> Option<usize>
    ensures { result ≡ program_place (map (λ n. n.now) names.now.keys) (table_view table.now) }
{
    match text_at(table, "program") {
        Some(name) => place_among(names, name),
        None => None,
    }
}

/// The descriptors of a list.
fn descriptor_list<'a>(
    alloc: Global,
    further: bool,
    values: &'a [Value],
) -> Result<Vec<WrittenDescriptor<'a>>, TaskFault>
    ensures { ReadsTask (λ descriptors. map descriptor_seen descriptors.items) result
        (or_mistake Wrong_field (each_item (written_descriptor further) (items_view values.now))) }
{
    let mut descriptors = Vec::with_capacity(alloc, values.len())?;
    for value in values {
        descriptors.push(written_descriptor(alloc, further, value)?)?;
    }
    Ok(descriptors)
}

/// A process's descriptors.
fn read_descriptors<'a>(
    alloc: Global,
    further: bool,
    table: &'a Table,
) -> Result<Vec<WrittenDescriptor<'a>>, TaskFault>
    ensures { ReadsTask (λ descriptors. map descriptor_seen descriptors.items) result
        (or_mistake Wrong_field (descriptors_in further (table_view table.now))) }
{
    match items_at(table, "fd") {
        Some(values) => descriptor_list(alloc, further, values),
        None => Err(TaskFault::Field),
    }
}

/// A first process of one of these programs.
fn start<'a>(
    alloc: Global,
    further: bool,
    names: &IndexSet<&str>,
    table: &'a Table,
) -> Result<WrittenStart<'a>, TaskFault>
    ensures { ReadsTask start_seen result
        (or_mistake Wrong_field (start_in further (map (λ n. n.now) names.now.keys) (table_view table.now))) }
{
    if !has_only(table, &["program", "mode", "fd"]) {
        return Err(TaskFault::Field);
    }
    match (program_at(names, table), read_mode(value_at(table, "mode"))) {
        (Some(program), Some(mode)) => {
            let descriptors = read_descriptors(alloc, further, table)?;
            Ok(WrittenStart {
                program,
                mode,
                descriptors,
            })
        }
        _ => Err(TaskFault::Field),
    }
}

/// The first process that a value is.
fn written_start<'a>(
    alloc: Global,
    further: bool,
    names: &IndexSet<&str>,
    value: &'a Value,
) -> Result<WrittenStart<'a>, TaskFault>
    ensures { ReadsTask start_seen result
        (or_mistake Wrong_field (written_start further (map (λ n. n.now) names.now.keys) (view value.now))) }
{
    match value.as_table() {
        Some(table) => start(alloc, further, names, table),
        None => Err(TaskFault::Field),
    }
}

/// The first processes of a list.
fn start_list<'a>(
    alloc: Global,
    further: bool,
    names: &IndexSet<&str>,
    values: &'a [Value],
) -> Result<Vec<WrittenStart<'a>>, TaskFault>
    ensures { ReadsTask (λ starts. starts_seen starts.items) result
        (or_mistake Wrong_field (each_item (written_start further (map (λ n. n.now) names.now.keys)) (items_view values.now))) }
{
    let mut starts = Vec::with_capacity(alloc, values.len())?;
    for value in values {
        starts.push(written_start(alloc, further, names, value)?)?;
    }
    Ok(starts)
}

/// A document's list of first processes, of programs of these names.
fn listed_starts<'a>(
    alloc: Global,
    further: bool,
    names: &IndexSet<&str>,
    table: &'a Table,
) -> Result<Vec<WrittenStart<'a>>, TaskFault>
    ensures { ReadsTask (λ starts. starts_seen starts.items) result
        (or_mistake Wrong_field (listed_starts further (map (λ n. n.now) names.now.keys) (table_view table.now))) }
{
    match items_at(table, "process") {
        Some(values) => start_list(alloc, further, names, values),
        None => Err(TaskFault::Field),
    }
}

/// A document's first processes: there is one at least. Their descriptors have further rights listed or not.
fn read_starts<'a>(
    alloc: Global,
    further: bool,
    table: &'a Table,
    read: &NamedPrograms<'_>,
) -> Result<Vec<WrittenStart<'a>>, TaskFault>
    requires { map (λ n. n.now) read.now.names.keys ≡ names_of_programs (programs_seen read.now.programs.items) }
    ensures { ReadsTask (λ starts. starts_seen starts.items) result
        (or_mistake Wrong_field (written_starts further (table_view table.now) (programs_seen read.now.programs.items))) }
{
    let starts = listed_starts(alloc, further, &read.names, table)?;
    if starts.is_empty() {
        return Err(TaskFault::Field);
    }
    Ok(starts)
}

/// The task that a document writes.
#[tactic(auto, unfolding(crate::specs::Written::written_task))]
pub(crate) fn read_written(alloc: Global, table: &Table) -> Result<WrittenTask<'_>, TaskFault>
    ensures { ReadsTask task_seen result (or_mistake Wrong_field (written_task (table_view table.now))) }
{
    if !has_only(
        table,
        &["node", "grant", "program", "process", "further_rights"],
    ) {
        return Err(TaskFault::Field);
    }
    let Some(further_rights) = truth_at(table, "further_rights") else {
        return Err(TaskFault::Field);
    };
    let nodes = read_nodes(alloc, table)?;
    let grants = read_grants(alloc, table)?;
    let read = read_programs(alloc, table)?;
    let starts = read_starts(alloc, further_rights, table, &read)?;
    Ok(WrittenTask {
        nodes,
        grants,
        programs: read.programs,
        starts,
        further_rights,
    })
}
