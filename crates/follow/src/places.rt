//! Places of a record, and those of a task that stand for them.

ghost use Rattle.std.specs.Prelude.{◌≡◌, ◌++◌, IfOk, not, option_map};
ghost use Rattle.std.specs.List.{list_any};
ghost use Rattle.std.specs.Str.{bytes_eq};
ghost use Rattle.file_tree.specs.Places.{ends_name, lies_at, names_text};
ghost use Rattle.call_facts.specs.Facts.{facts_of};
ghost use Rattle.instruction_set.specs.Programs.{called};
ghost use Rattle.instruction_set.specs.Views.{code_of, instruction_of, syscall_of};
ghost use Rattle.task.specs.Plans.{Grant as GrantSeen, NamedProgram as NamedProgramSeen};
ghost use Rattle.task.specs.Views.{grants_of, node_of, nodes_of, programs_of};
ghost use Rattle.follow.specs.Places.{begins_plainly, global_path, is_foreign, is_link_to, is_path_of, is_place, is_plain, names_path, path_from_root, placed};
ghost use Rattle.follow.specs.Views.{placings_of};

use call_facts::{Scope, first_path, scope_of};
use file_tree::{Kind, ends_name, lies_at, rest_beneath};
use instruction_set::{Instruction, Syscall};
use rights::Memory;
use std::alloc::Global;
use task::{Grant, NamedProgram, Task, TaskNode};

/// What lies at the place `real` of a record, or beneath it, lies at the place `model` of the task, or beneath it. A place is written
/// without a slash at its end, so that of the root is empty.
#[derive(Drop)]
pub struct Placing {
    pub real: Vec<u8>,
    pub model: Vec<u8>,
}

/// What a path of the record is in the task, in two parts.
#[derive(Clone, Copy)]
pub(crate) struct Placed<'a> {
    pub front: &'a [u8],
    pub back: &'a [u8],
}

/// What a path of the record is in the task.
pub(crate) fn in_task<'a>(placings: &'a [Placing], path: &'a [u8]) -> Placed<'a>
    ensures { result.front.now ++ result.back.now ≡ placed (placings_of placings.now) path.now }
{
    match placings {
        [] => Placed {
            front: &[],
            back: path,
        },
        [placing, placings @ ..] => {
            if let Some(back) = rest_beneath(&placing.real, path) {
                return Placed {
                    front: &placing.model,
                    back,
                };
            }
            in_task(placings, path)
        }
    }
}

impl<'a> Placed<'a> {
    /// Whether this is it.
    pub(crate) fn is(&self, path: &[u8]) -> bool
        ensures { result ≡ bytes_eq path.now (self.now.front.now ++ self.now.back.now) }
    {
        match path.strip_prefix(self.front) {
            None => false,
            Some(rest) => rest == self.back,
        }
    }

    /// It, in one piece.
    pub(crate) fn text(&self, alloc: Global) -> Result<Vec<u8>, Memory>
        ensures { IfOk result (λ text. text.items ≡ self.now.front.now ++ self.now.back.now) }
    {
        let mut text = Vec::from_slice(alloc, self.front)?;
        text.extend_from_slice(self.back)?;
        Ok(text)
    }
}

/// The path from the root that a call names.
fn path_from_root(call: &Syscall) -> Option<&[u8]>
    ensures { option_map (λ path. path.now) result ≡ path_from_root (facts_of (called (syscall_of call.now))).scope (syscall_of call.now) }
{
    match scope_of(call.call()) {
        Scope::Root => first_path(call),
        Scope::Mode | Scope::Table | Scope::Object | Scope::Node => None,
        Scope::Beneath | Scope::System => None,
    }
}

/// The path from the root that an instruction's call names.
fn global_path(instruction: &Instruction) -> Option<&[u8]>
    ensures { option_map (λ path. path.now) result ≡ global_path (instruction_of instruction.now) }
{
    match instruction {
        Instruction::Invoke { call, .. } => path_from_root(call),
        _ => None,
    }
}

/// Whether an instruction's call names this path from the root.
fn is_path_of(path: &[u8], instruction: &Instruction) -> bool
    ensures { result ≡ is_path_of path.now (global_path (instruction_of instruction.now)) }
{
    match global_path(instruction) {
        None => false,
        Some(named) => named == path,
    }
}

/// Whether some instruction's call names this path from the root.
fn names_path(path: &[u8], code: &[Instruction]) -> bool
    ensures { result ≡ names_path path.now (code_of code.now) }
{
    match code {
        [] => false,
        [first, rest @ ..] => is_path_of(path, first) || names_path(path, rest),
    }
}

/// Whether some program names this path from the root.
fn is_named(path: &[u8], programs: &[NamedProgram]) -> bool
    ensures { result ≡ list_any (λ (p : NamedProgramSeen). names_path path.now p.code) (programs_of programs.now) }
{
    match programs {
        [] => false,
        [first, rest @ ..] => names_path(path, first.program.code()) || is_named(path, rest),
    }
}

/// Whether this path lies in some grant.
fn is_granted(path: &[u8], grants: &[Grant]) -> bool
    ensures { result ≡ list_any (λ (g : GrantSeen). lies_at (names_text g.path) path.now) (grants_of grants.now) }
{
    match grants {
        [] => false,
        [first, rest @ ..] => lies_at(first.path.names_text(), path) || is_granted(path, rest),
    }
}

/// Whether a name that isn't empty, `.` or `..` begins a text.
fn begins_plainly(text: &[u8]) -> bool
    ensures { result ≡ begins_plainly text.now }
{
    !ends_name(text) && !lies_at(b".", text) && !lies_at(b"..", text)
}

/// Whether that is so behind each slash of a text.
fn is_plain(text: &[u8]) -> bool
    ensures { result ≡ is_plain text.now }
{
    for (at, byte) in text.iter().enumerate() {
        if *byte == b'/' && !begins_plainly(&text[at + 1..]) {
            return false;
        }
    }
    true
}

/// Whether a path is a place's text: `/`, or names with one slash before each.
fn is_place(path: &[u8]) -> bool
    ensures { result ≡ is_place path.now }
{
    match path {
        [b'/'] => true,
        [b'/', ..] => is_plain(path),
        _ => false,
    }
}

/// Whether a node is a link that stands at this path or on its way.
fn is_link_to(path: &[u8], node: &TaskNode) -> bool
    ensures { result ≡ is_link_to path.now (node_of node.now) }
{
    matches!(node.kind, Kind::Link) && lies_at(node.place.names_text(), path)
}

/// Whether some node is.
fn is_led_on(path: &[u8], nodes: &[TaskNode]) -> bool
    ensures { result ≡ list_any (is_link_to path.now) (nodes_of nodes.now) }
{
    for node in nodes {
        if is_link_to(path, node) {
            return true;
        }
    }
    false
}

/// Whether a path is a place's, no link of the task's tree stands there or on its way, it lies in no grant of the task, and no call of its
/// programs names it.
pub(crate) fn is_foreign(task: &Task, path: &[u8]) -> bool
    ensures { result ≡ is_foreign task.now path.now }
{
    is_place(path)
        && !is_led_on(path, task.nodes())
        && !is_granted(path, task.grants())
        && !is_named(path, task.programs())
}
