//! The flat certificate: each point of a program has the bound of its first process.

ghost use Rattle.std.specs.Prelude.{◌≡◌, ◌+◌, ◌≤◌, ◌<◌, length, map, true, false, option_map, not, ◌==◌, IfOk, IfSome};
ghost use Rattle.std.specs.List.{list_all, list_any};
ghost use Rattle.certificate.specs.Told.{told_bound};
ghost use Rattle.certificate.specs.Views.{bound_of, held_of, mode_of, target_of};
ghost use Rattle.texts.specs.Views.{name_of};
ghost use Rattle.file_tree.specs.Nodes.{node};
ghost use Rattle.instruction_set.specs.Views.{code_of, instruction_of, syscall_of};
ghost use Rattle.task.specs.Limits.{is_descriptor, is_object, is_start};
ghost use Rattle.task.specs.Plans.{programs_of_plan};
ghost use Rattle.task.specs.Views.{first_descriptor_of, first_object_of, grants_of, nodes_of, start_of, starts_of};
ghost use Rattle.certificate.specs.Growths.{grown_by};
ghost use Rattle.certificate.specs.GrowthViews.{Grows};
ghost use Rattle.instruction_set.specs.Successors.{enters_mode};
ghost use Rattle.searcher.specs.Flat.{first_held, first_target, flat, plain_flat, flat_bound, flat_points_of, grant_target, have_own, flat_mode, name_of_start};
ghost use Rattle.searcher.specs.Flat.{next_behind, points_behind, points_from, with_first};
ghost use Rattle.searcher.specs.Versions.{flat_version};

use crate::versions::flat_version;
use certificate::{
    Bound, Cert, Class, FcntlsRange, Held, ModeBound, Pair, Refusal, RightsRange, Slot, Target,
    push_block,
};
use instruction_set::{Instruction, enters_mode};
use std::alloc::{AllocError, Global};
use task::{FirstDescriptor, FirstObject, Grant, Start, Task, TaskNode, node_begins, none_marked};
use texts::Name;

/// The grant that holds a node, by its number, if one does.
#[tactic(auto, unfolding(crate::specs::Flat::grant_target))]
fn grant_target(grants: &[Grant], nodes: &[TaskNode], number: u16) -> Target
    ensures { target_of result ≡ grant_target (grants_of grants.now) (node (nodes_of nodes.now) number).place }
{
    match grants {
        [] => Target::AnyNode,
        [first, rest @ ..] => {
            if node_begins(nodes, number, &first.path) {
                return Target::InGrant(first.name);
            }
            grant_target(rest, nodes, number)
        }
    }
}

/// What a first descriptor is of.
fn first_target(task: &Task, object: FirstObject) -> Target
    requires { is_object task.now.nodes (first_object_of object) ≡ true }
    ensures { target_of result ≡ first_target task.now (first_object_of object) }
{
    match object {
        FirstObject::Node { node, .. } => grant_target(task.grants(), task.nodes(), node),
        FirstObject::End { pair, side } => Target::Socket(Class::Initial(Pair::new(pair)), side),
    }
}

/// The bound of a first descriptor, as the certificate tells it.
fn first_held(task: &Task, descriptor: FirstDescriptor) -> Held
    requires { is_descriptor task.now.nodes (first_descriptor_of descriptor) ≡ true }
    ensures { held_of result ≡ first_held task.now (first_descriptor_of descriptor) }
{
    Held::new(
        first_target(task, descriptor.object),
        RightsRange::new(descriptor.rights, descriptor.rights),
        FcntlsRange::new(descriptor.fcntls, descriptor.fcntls),
    )
    .told_in(flat_version(task))
}

/// The bound with these descriptors, open.
pub(crate) fn with_first(task: &Task, bound: Bound, descriptors: &[FirstDescriptor]) -> Bound
    requires { list_all (is_descriptor task.now.nodes) (map first_descriptor_of descriptors.now) ≡ true }
    ensures { bound_of result ≡ with_first task.now (bound_of bound) (map first_descriptor_of descriptors.now) }
{
    match descriptors {
        [] => bound,
        [first, rest @ ..] => {
            let held = first_held(task, *first);
            with_first(task, bound, rest).with_slot(first.number, Slot::Open(held))
        }
    }
}

/// Whether one of these instructions may enter the mode.
fn may_enter(code: &[Instruction]) -> bool
    ensures { result ≡ list_any enters_mode (code_of code.now) }
{
    match code {
        [] => false,
        [first, rest @ ..] => enters_mode(first) || may_enter(rest),
    }
}

/// The mode at each point.
fn mode_in(mode: bool, entered: bool) -> ModeBound
    ensures { mode_of result ≡ flat_mode mode entered }
{
    if mode {
        return ModeBound::On;
    }
    if entered {
        return ModeBound::Either;
    }
    ModeBound::Off
}

/// The code that a first process runs.
fn code_of_start<'a>(task: &'a Task, start: &Start) -> &'a [Instruction]
    ensures value { code_of result.now ≡ programs_of_plan task.now start.now.program }
    ensures few { length result.now ≤ 256 }
{
    match task.programs().get(start.program as usize) {
        None => &[],
        Some(program) => program.program.code(),
    }
}

/// The bound of a first process.
fn flat_bound(task: &Task, start: &Start) -> Bound
    requires { list_all (is_descriptor task.now.nodes) (map first_descriptor_of start.now.descriptors.items) ≡ true }
    ensures { bound_of result ≡ flat_bound task.now (start_of start.now) }
{
    let entered = may_enter(code_of_start(task, start));
    let bound = Bound::begins(mode_in(start.mode, entered));
    with_first(task, bound, &start.descriptors)
}

/// Adds a bound at each point from one on, as the certificate's version tells it.
#[tactic(auto, unfolding(certificate::specs::Growths::grown_by, crate::specs::Flat::points_from))]
fn push_points(
    cert: &mut Cert,
    name: &Name,
    bound: &Bound,
    point: usize,
    code: &[Instruction],
) -> Result<(), Refusal>
    requires { point + length code.now ≤ 256 }
    ensures { Grows result cert.new (grown_by (points_from (name_of name.now) (told_bound cert.old.version (bound_of bound.now)) point (code_of code.now)) cert.old) }
{
    match code {
        [] => Ok(()),
        [_, rest @ ..] => {
            push_block(cert, name, point as u8, bound)?;
            push_points(cert, name, bound, point + 1, rest)
        }
    }
}

/// The first process whose program has the next name behind one.
#[tactic(auto, unfolding(crate::specs::Flat::next_behind))]
fn next_behind<'a>(task: &Task, name: &[u8], starts: &'a [Start]) -> Option<&'a Start>
    requires { list_all (is_start task.now.nodes (length task.now.programs)) (starts_of starts.now) ≡ true }
    ensures value { option_map (λ s. start_of s.now) result ≡ next_behind task.now name.now (starts_of starts.now) }
    ensures valid { IfSome result (λ s. is_start task.now.nodes (length task.now.programs) (start_of s.now) ≡ true) }
{
    match starts {
        [] => None,
        [first, rest @ ..] => {
            let next = next_behind(task, name, rest);
            let own = task.program_name(first.program);
            let is_nearer = match next {
                None => true,
                Some(other) => own.cmp(task.program_name(other.program)).is_lt(),
            };
            if name.cmp(own).is_lt() && is_nearer {
                return Some(first);
            }
            next
        }
    }
}

/// Adds the points of a first process's program.
fn push_start(cert: &mut Cert, task: &Task, start: &Start) -> Result<(), Refusal>
    requires start { is_start task.now.nodes (length task.now.programs) (start_of start.now) ≡ true }
    requires version { cert.old.version ≡ flat_version task.now }
    ensures { Grows result cert.new (grown_by (flat_points_of task.now (start_of start.now)) cert.old) }
{
    let bound = flat_bound(task, start);
    match task.programs().get(start.program as usize) {
        None => Ok(()),
        Some(program) => push_points(cert, &program.name, &bound, 0, program.program.code()),
    }
}

/// Adds the points of the first processes behind a name, of as many as there are turns.
#[tactic(auto, using(certificate::proofs::Growths::by_append), unfolding(certificate::specs::Growths::grown_by, crate::specs::Flat::points_behind))]
fn push_behind(cert: &mut Cert, task: &Task, turns: &[Start], name: &[u8]) -> Result<(), Refusal>
    requires { cert.old.version ≡ flat_version task.now }
    ensures { Grows result cert.new (grown_by (points_behind task.now (starts_of turns.now) name.now) cert.old) }
{
    match turns {
        [] => Ok(()),
        [_, rest @ ..] => {
            match next_behind(task, name, task.starts()) {
                None => Ok(()),
                Some(start) => {
                    push_start(cert, task, start)?;
                    push_behind(cert, task, rest, task.program_name(start.program))
                }
            }
        }
    }
}

/// Whether no start is of a program.
fn has_own(program: u8, starts: &[Start]) -> bool
    ensures { result ≡ list_all (λ t. not (program == t.program)) (starts_of starts.now) }
{
    match starts {
        [] => true,
        [first, rest @ ..] => program != first.program && has_own(program, rest),
    }
}

/// Whether no two of the first processes have the same program.
fn have_own(starts: &[Start]) -> bool
    ensures { result ≡ have_own (starts_of starts.now) }
{
    match starts {
        [] => true,
        [first, rest @ ..] => has_own(first.program, rest) && have_own(rest),
    }
}

/// The flat certificate of a task, if it has one, whatever is marked: no line of it is ever refused.
#[tactic(auto, unfolding(crate::specs::Flat::plain_flat))]
fn plain_flat(alloc: Global, task: &Task) -> Result<Option<Cert>, AllocError>
    ensures { IfOk result (λ found. found ≡ plain_flat task.now) }
{
    if !have_own(task.starts()) {
        return Ok(None);
    }
    let mut cert = Cert::new(alloc, flat_version(task));
    match push_behind(&mut cert, task, task.starts(), b"") {
        Ok(()) => Ok(Some(cert)),
        Err(Refusal::Memory) => Err(AllocError),
        Err(Refusal::Limit) => unreachable!(),
        Err(Refusal::Order) => unreachable!(),
    }
}

/// The flat certificate of a task, if it has one: one with a marked program has none.
pub(crate) fn flat(alloc: Global, task: &Task) -> Result<Option<Cert>, AllocError>
    ensures { IfOk result (λ found. found ≡ flat task.now) }
{
    if !none_marked(task.programs()) {
        return Ok(None);
    }
    plain_flat(alloc, task)
}
