//! TOML documents to tasks.

ghost use Rattle.std.specs.Prelude.{◌≡◌, ◌^◌, ◌<◌, true, IfOk, Some, map};
ghost use Rattle.std.specs.List.{list_all};
ghost use Rattle.toml.specs.Data.{Members};
ghost use Rattle.toml.specs.View.{table_view};
ghost use Rattle.task_reader.specs.FaultViews.{ReadsTask};
ghost use Rattle.task_reader.specs.IndexViews.{IsIndex};
ghost use Rattle.task_reader.specs.PlacedViews.{has_near, is_near, is_small, placed_descriptor, placed_object, placed_start, placed_starts, plan_on};
ghost use Rattle.task_reader.specs.Reading.{plan_in, plan_of, task_of, tree_of};
ghost use Rattle.task.specs.Views.{first_descriptor_of, first_object_of, nodes_of, start_of, starts_of};
ghost use Rattle.task_reader.specs.Written.{written_task};
ghost use Rattle.task_reader.specs.WrittenViews.{task_seen};

use crate::assembling::assemble_all;
use crate::documents::read_document;
use crate::faults::TaskFault;
use crate::indexes::IndexedNodes;
use crate::limits::keeps_limits;
use crate::placed_grants::{check_policy, make_grants};
use crate::placed_starts::{PlacedDescriptor, PlacedObject, PlacedStart, place_starts};
use crate::readers::read_written;
use crate::trees::make_tree;
use crate::written::WrittenTask;
use std::alloc::{AllocError, Global};
use task::{FirstDescriptor, FirstObject, Grant, NamedProgram, Start, Task};
use toml::Table;

/// What a task's descriptor is of: the tree is so small that its node's number fits.
fn kept_object(placed: PlacedObject) -> FirstObject
    requires { is_near (placed_object placed) ≡ true }
    ensures { first_object_of result ≡ placed_object placed }
{
    match placed {
        PlacedObject::Node { node, access } => FirstObject::Node {
            node: node as u16,
            access,
        },
        PlacedObject::End { pair, side } => FirstObject::End { pair, side },
    }
}

/// A task's descriptors: the tree is so small that their nodes' numbers fit.
fn kept_descriptors(
    alloc: Global,
    placed: &[PlacedDescriptor],
) -> Result<Vec<FirstDescriptor>, AllocError>
    requires { list_all has_near (map placed_descriptor placed.now) ≡ true }
    ensures { IfOk result (λ kept. map first_descriptor_of kept.items ≡ map placed_descriptor placed.now) }
{
    let mut kept = Vec::new(alloc);
    for descriptor in placed {
        kept.push(FirstDescriptor {
            number: descriptor.number,
            object: kept_object(descriptor.object),
            rights: descriptor.rights,
            fcntls: descriptor.fcntls,
        })?;
    }
    Ok(kept)
}

/// A task's first process: there are so few programs that its program's place fits.
fn kept_start(alloc: Global, placed: &PlacedStart) -> Result<Start, AllocError>
    requires { is_small (placed_start placed.now) ≡ true }
    ensures { IfOk result (λ kept. start_of kept ≡ placed_start placed.now) }
{
    Ok(Start {
        program: placed.program as u8,
        mode: placed.mode,
        descriptors: kept_descriptors(alloc, &placed.descriptors)?,
    })
}

/// A task's first processes.
fn kept_starts(alloc: Global, placed: &[PlacedStart]) -> Result<Vec<Start>, AllocError>
    requires { list_all is_small (placed_starts placed.now) ≡ true }
    ensures { IfOk result (λ kept. starts_of kept.items ≡ placed_starts placed.now) }
{
    let mut kept = Vec::new(alloc);
    for start in placed {
        kept.push(kept_start(alloc, start)?)?;
    }
    Ok(kept)
}

/// What a task has beside its tree.
#[derive(Drop)]
pub(crate) struct Parts {
    pub(crate) grants: Vec<Grant>,
    pub(crate) programs: Vec<NamedProgram>,
    pub(crate) starts: Vec<Start>,
}

/// The grants, the programs and the first processes of a task, on its tree.
fn make_parts(
    alloc: Global,
    tree: &IndexedNodes<'_>,
    written: &WrittenTask<'_>,
) -> Result<Parts, TaskFault>
    requires document { (document : Members) × (written_task document ≡ Some (task_seen written.now)) }
    requires tree { tree_of (task_seen written.now).nodes ≡ Some (nodes_of tree.now.nodes.items) }
    requires index { IsIndex tree.now.numbers (nodes_of tree.now.nodes.items) }
    ensures { ReadsTask (plan_on written.now.further_rights (nodes_of tree.now.nodes.items)) result (plan_of (task_seen written.now)) }
{
    check_policy(alloc, tree, &written.grants)?;
    let placed = place_starts(alloc, tree, &written.starts)?;
    let programs = assemble_all(alloc, written.further_rights, &written.programs)?;
    if !keeps_limits(written, &tree.nodes) {
        return Err(TaskFault::Limit);
    }
    let grants = make_grants(alloc, tree, &written.grants)?;
    let starts = kept_starts(alloc, &placed)?;
    Ok(Parts {
        grants,
        programs,
        starts,
    })
}

/// The task that is written.
fn make_task(alloc: Global, written: &WrittenTask<'_>) -> Result<Task, TaskFault>
    requires { (document : Members) × (written_task document ≡ Some (task_seen written.now)) }
    ensures { ReadsTask (λ task. task) result (plan_of (task_seen written.now)) }
{
    let tree = make_tree(alloc, &written.nodes)?;
    let parts = make_parts(alloc, &tree, written)?;
    Ok(Task::new(
        tree.nodes,
        parts.grants,
        parts.programs,
        parts.starts,
        written.further_rights,
    ))
}

/// The task that is written in a document.
fn task_in(alloc: Global, document: &Table) -> Result<Task, TaskFault>
    ensures { ReadsTask (λ task. task) result (plan_in (table_view document.now)) }
{
    let written = read_written(alloc, document)?;
    make_task(alloc, &written)
}

/// Reads a task from a TOML document. (own; descriptors after open(2), socketpair(2), rights(4) and cap_fcntls_limit(2))
///
/// A document has the lists `node`, `grant`, `program` and `process`, and maybe `further_rights` (a truth value, false by default),
/// and no other key. A node has `path`, `kind` (`dir`, `file` or `link`), and a file its `content`, a link its `target`. A grant has
/// `name`, `path` and `ops` (`look`, `read`, `write`, `create`, `remove`), a program `name`, `code` and maybe `untrusted` (a truth
/// value, false by default). A process has `program`, the name of one, `fd`, and `mode` (`free`, which is the default, or `cap`). A
/// descriptor of `fd` has `number`, and maybe `rights` and `fcntls` (all by default). It is of a node, and has its `path` and maybe
/// `flags` (`read`, the default, and `write`); or of an end of a socket pair, and has the `pair` and the `side` (`a` or `b`). A path
/// is `/`, or each name after a `/`. The root is there and isn't listed.
///
/// Where `further_rights` is true, `rights` may name further rights too, and `code` is of the wide language, which has `use` and
/// limits that name further rights. Elsewhere both are unknown words.
///
/// # Errors
///
/// Where several apply, the first of these: `NotToml`; `Field`, for a key that is missing or unknown, a value of a wrong type,
/// a word that is unknown or twice in a list, a name that isn't a word or is given twice, an empty `flags`, a program that
/// isn't there, and where there is no process; `Node`, for a path that isn't one, is given twice, or comes before its
/// directory; `Grant`, for one that isn't of a directory, or is in another; `Descriptor`, for a number that isn't 0 to 15 or
/// that its process has twice, a pair that isn't 0 to 31, a path where no file or directory is, and a directory that is to be
/// written; `Asm`, for the first program whose text isn't one; `Limit`, for a path of more than 1023 bytes, a name of more
/// than 255, a target that is empty or of more than 1023 bytes or has a name of more than 255, a file of more than 4096, and
/// more than 1024 nodes, the root counted, 8 grants, 8 programs, and 16 processes. `Memory`, want of memory, may come in
/// place of any answer.
pub fn read_task(alloc: Global, bytes: &[u8]) -> Result<Task, TaskFault>
    ensures { ReadsTask (λ task. task) result (task_of bytes.now) }
{
    let document = read_document(alloc, bytes)?;
    task_in(alloc, &document)
}
