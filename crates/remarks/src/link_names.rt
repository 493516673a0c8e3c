//! Which names a link of a task may have: its own where the task starts, and what a rename may give it.

ghost use Rattle.std.specs.Prelude.{◌≡◌, option_map};
ghost use Rattle.std.specs.List.{list_any};
ghost use Rattle.file_tree.specs.Nodes.{is_link};
ghost use Rattle.instruction_set.specs.Views.{code_of, instruction_of};
ghost use Rattle.remarks.specs.LinkNames.{ends_as, frees_names, gives_all_names, gives_name, has_rename, is_link_in, is_link_of, is_rename, may_give, names_link};
ghost use Rattle.task.specs.Views.{grant_of, grants_of, node_of, nodes_of, programs_of};

use call_facts::{moves_name, second_path};
use file_tree::Kind;
use instruction_set::Instruction;
use lookup::last_name;
use rights::Op;
use task::{Grant, NamedProgram, Task, TaskNode, none_marked};

/// Whether a node is a link of a name.
fn is_link_of(name: &[u8], node: &TaskNode) -> bool
    ensures { result ≡ is_link_of name.now (node_of node.now) }
{
    matches!(node.kind, Kind::Link) && node.place.name() == Some(name)
}

/// Whether some link has a name where the task starts.
fn names_first_link(nodes: &[TaskNode], name: &[u8]) -> bool
    ensures { result ≡ list_any (is_link_of name.now) (nodes_of nodes.now) }
{
    match nodes {
        [] => false,
        [node, rest @ ..] => is_link_of(name, node) || names_first_link(rest, name),
    }
}

/// Whether there is a link.
fn has_link(nodes: &[TaskNode]) -> bool
    ensures { result ≡ list_any (λ n. is_link n.kind) (nodes_of nodes.now) }
{
    match nodes {
        [] => false,
        [node, rest @ ..] => matches!(node.kind, Kind::Link) || has_link(rest),
    }
}

/// Whether there is a path, and it ends with a name.
fn ends_as(name: &[u8], path: Option<&[u8]>) -> bool
    ensures { result ≡ ends_as name.now (option_map (λ p. p.now) path.entry) }
{
    match path {
        None => false,
        Some(path) => last_name(path) == name,
    }
}

/// Whether an instruction is a rename that gives a name.
fn gives_name(name: &[u8], instruction: &Instruction) -> bool
    ensures { result ≡ gives_name name.now (instruction_of instruction.now) }
{
    match instruction {
        Instruction::Invoke { call, .. } => {
            moves_name(call.call()) && ends_as(name, second_path(call))
        }
        _ => false,
    }
}

/// Whether one of some instructions is.
fn any_gives(name: &[u8], code: &[Instruction]) -> bool
    ensures { result ≡ list_any (gives_name name.now) (code_of code.now) }
{
    match code {
        [] => false,
        [instruction, rest @ ..] => gives_name(name, instruction) || any_gives(name, rest),
    }
}

/// Whether one of some programs may give a name.
fn any_may_give(name: &[u8], programs: &[NamedProgram]) -> bool
    ensures { result ≡ list_any (may_give name.now) (programs_of programs.now) }
{
    match programs {
        [] => false,
        [named, rest @ ..] => any_gives(name, named.program.code()) || any_may_give(name, rest),
    }
}

/// Whether some link lies in a grant where the task starts.
fn has_link_in(grant: &Grant, nodes: &[TaskNode]) -> bool
    ensures { result ≡ list_any (is_link_in (grant_of grant.now)) (nodes_of nodes.now) }
{
    match nodes {
        [] => false,
        [node, rest @ ..] => {
            matches!(node.kind, Kind::Link) && node.place.begins_with(&grant.path)
                || has_link_in(grant, rest)
        }
    }
}

/// Whether an instruction is a rename.
fn is_rename(instruction: &Instruction) -> bool
    ensures { result ≡ is_rename (instruction_of instruction.now) }
{
    match instruction {
        Instruction::Invoke { call, .. } => moves_name(call.call()),
        _ => false,
    }
}

/// Whether one of some instructions is a rename.
fn any_renames(code: &[Instruction]) -> bool
    ensures { result ≡ list_any is_rename (code_of code.now) }
{
    match code {
        [] => false,
        [first, rest @ ..] => { is_rename(first) || any_renames(rest) }
    }
}

/// Whether one of some programs has a rename.
fn any_has_rename(programs: &[NamedProgram]) -> bool
    ensures { result ≡ list_any has_rename (programs_of programs.now) }
{
    match programs {
        [] => false,
        [named, rest @ ..] => any_renames(named.program.code()) || any_has_rename(rest),
    }
}

/// Whether a link may get any name in one of some grants, from an untrusted program in the mode.
fn any_frees_names(task: &Task, grants: &[Grant]) -> bool
    ensures { result ≡ list_any (frees_names task.now) (grants_of grants.now) }
{
    match grants {
        [] => false,
        [grant, rest @ ..] => {
            Op::Remove.is_listed(&grant.operations)
                && (has_link_in(grant, task.nodes()) || any_has_rename(task.programs()))
                || any_frees_names(task, rest)
        }
    }
}

/// Whether an untrusted program may give any name to a link.
fn gives_all_names(task: &Task) -> bool
    ensures { result ≡ gives_all_names task.now }
{
    !none_marked(task.programs()) && any_frees_names(task, task.grants())
}

/// Whether a link may have a name: some link has it where the task starts, or there is one, and some program may give the name.
pub(crate) fn names_link(task: &Task, name: &[u8]) -> bool
    ensures { result ≡ names_link task.now name.now }
{
    names_first_link(task.nodes(), name)
        || has_link(task.nodes()) && (gives_all_names(task) || any_may_give(name, task.programs()))
}
