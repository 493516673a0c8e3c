//! Remarks on a task's first processes and its policy, as values.

ghost use Rattle.std.specs.Prelude.{◌≡◌, ◌&&◌, ◌++◌, IfOk, OnOk, length, map, not, option_map};
ghost use Rattle.std.specs.List.{list_any, slice_get};
ghost use Rattle.certificate.specs.Bounds.{bound_at};
ghost use Rattle.remarks.specs.Remarks.{holds_there};
ghost use Rattle.certificate.specs.Views.{bound_of, target_of};
ghost use Rattle.instruction_set.specs.Views.{instruction_of};
ghost use Rattle.remarks.specs.RemarkViews.{task_remark_of};
ghost use Rattle.remarks.specs.TaskRemarks.{Alone, boundless, call_does, is_alone, is_side, lone_ends, lone_sides, may_be_in, program_does, starts_with, task_remarks, use_does};
ghost use Rattle.rights.specs.OperationLists.{lists, same_operation};
ghost use Rattle.rights.specs.Operations.{Look};
ghost use Rattle.rights.specs.Sets.{is_within, lookup_right};
ghost use Rattle.rights.specs.Views.{operation_of, side_seen};
ghost use Rattle.task.specs.Views.{first_descriptor_of, first_object_of, program_of, grants_of, programs_of, start_of, starts_of};
ghost use Rattle.transfer.specs.Views.{operation_list};

use crate::ways::count;
use certificate::{Bound, Cert, Held, Target};
use instruction_set::Instruction;
use rights::limits::MAX_PAIRS;
use rights::{Op, Rights, Side};
use std::alloc::{AllocError, Global};
use task::{FirstDescriptor, FirstObject, Grant, NamedProgram, Start, Task};
use transfer::{Need, UseTest, all_uses_pass, may_be_on};

/// What is remarked of a task.
#[derive(Clone, Copy)]
pub enum TaskRemark<'a> {
    /// Some process has this side of an initial pair, and none the other.
    Alone { pair: u8, side: Side },
    /// A grant holds everything.
    Boundless { grant: &'a Grant },
}

/// Whether a first descriptor is of a side of a pair.
fn is_side(pair: u8, side: Side, object: FirstObject) -> bool
    ensures { result ≡ is_side pair (side_seen side) (first_object_of object) }
{
    match object {
        FirstObject::Node { .. } => false,
        FirstObject::End {
            pair: other,
            side: own,
        } => other == pair && own == side,
    }
}

/// Whether a process starts with a side of a pair.
fn starts_with(pair: u8, side: Side, start: &Start) -> bool
    ensures { result ≡ starts_with pair (side_seen side) (start_of start.now) }
{
    has_side(pair, side, &start.descriptors)
}

/// Whether one of some first descriptors is of a side of a pair.
fn has_side(pair: u8, side: Side, descriptors: &[FirstDescriptor]) -> bool
    ensures { result ≡ list_any (λ d. is_side pair (side_seen side) d.object) (map first_descriptor_of descriptors.now) }
{
    match descriptors {
        [] => false,
        [first, rest @ ..] => is_side(pair, side, first.object) || has_side(pair, side, rest),
    }
}

/// Whether one of some processes starts with a side of a pair.
fn any_starts_with(pair: u8, side: Side, starts: &[Start]) -> bool
    ensures { result ≡ list_any (starts_with pair (side_seen side)) (starts_of starts.now) }
{
    match starts {
        [] => false,
        [start, rest @ ..] => starts_with(pair, side, start) || any_starts_with(pair, side, rest),
    }
}

/// Whether some process has a side of a pair, and none the other.
fn is_alone(starts: &[Start], side: Side, pair: u8) -> bool
    ensures { result ≡ is_alone (starts_of starts.now) (side_seen side) pair }
{
    any_starts_with(pair, side, starts) && !any_starts_with(pair, side.other(), starts)
}

/// The initial pairs of which processes have this side alone.
fn lone_sides(alloc: Global, starts: &[Start], side: Side) -> Result<Vec<u8>, AllocError>
    ensures { IfOk result (λ found. found.items ≡ lone_sides (starts_of starts.now) (side_seen side)) }
{
    (0..MAX_PAIRS)
        .filter(|pair| is_alone(starts, side, *pair))
        .collect(alloc)
}

/// The test that a use doesn't do an operation in a grant.
#[derive(Clone, Copy)]
struct Leaves<'a> {
    grant: &'a [u8],
    operation: Op,
}

/// Whether what a target is of may lie in a grant.
fn may_be_in(grant: &[u8], target: &Target) -> bool
    ensures { result ≡ may_be_in grant.now (target_of target.now) }
{
    match target {
        Target::InGrant(name) => name.as_bytes() == grant,
        Target::AnyNode | Target::Unknown => true,
        Target::Socket(..) => false,
    }
}

impl<'a> UseTest for Leaves<'a> {
    ghost passes = { λ t u. not (use_does t.grant.now (operation_of t.operation) u) };

    #[tactic(auto, using(crate::proofs::Lists::lists_both))]
    fn asks(&self, _bound: &Bound, need: &Need, _number: u8, held: &Held) -> bool {
        !(may_be_in(self.grant, &held.target())
            && (is_operation(need.operation, self.operation)
                || is_operation(need.other_operation, self.operation)
                || looks_up(self.operation, need)))
    }
}

/// Whether the operation is to look, and a call needs to look names up.
fn looks_up(operation: Op, need: &Need) -> bool
    ensures { result ≡ same_operation (operation_of operation) Look && is_within lookup_right need.now.rights.0 }
{
    matches!(operation, Op::Look) && need.rights.contains(Rights::LOOKUP)
}

/// Whether this is the operation, if there is one.
fn is_operation(one: Option<Op>, operation: Op) -> bool
    ensures { result ≡ lists (operation_list one) (operation_of operation) }
{
    match one {
        None => false,
        Some(one) => operation.is_listed(&[one]),
    }
}

/// Whether a call in the mode may do an operation in a grant.
fn call_does(grant: &[u8], operation: Op, bound: &Option<Bound>, instruction: &Instruction) -> bool
    ensures { result ≡ call_does grant.now (operation_of operation) (option_map bound_of bound.now) (instruction_of instruction.now) }
{
    match (bound, instruction) {
        (Some(bound), Instruction::Invoke { call, .. }) => {
            may_be_on(bound.mode()) && !all_uses_pass(bound, call, &Leaves { grant, operation })
        }
        _ => false,
    }
}

/// Whether the instruction of a point of a program may.
fn does_at(cert: &Cert, grant: &[u8], operation: Op, named: &NamedProgram, point: usize) -> bool
    ensures { result ≡ holds_there (call_does grant.now (operation_of operation) (bound_at cert.now (program_of named.now).name point))
        (slice_get (program_of named.now).code point) }
{
    match named.program.code().get(point) {
        None => false,
        Some(instruction) => {
            let bound = cert.bound_at(named.name.as_bytes(), point);
            call_does(grant, operation, &bound, instruction)
        }
    }
}

/// Whether some call of a program may.
fn program_does(cert: &Cert, grant: &[u8], operation: Op, named: &NamedProgram) -> bool
    ensures { result ≡ program_does cert.now grant.now (operation_of operation) (program_of named.now) }
{
    (0..count(named.program.code())).any(|point| does_at(cert, grant, operation, named, point))
}

/// Whether some call of these programs may do an operation in a grant in the mode, by the bounds of a certificate in which all are written.
pub fn any_program_does(cert: &Cert, grant: &[u8], operation: Op, programs: &[NamedProgram]) -> bool
    ensures { result ≡ list_any (program_does cert.now grant.now (operation_of operation)) (programs_of programs.now) }
{
    match programs {
        [] => false,
        [first, rest @ ..] => {
            program_does(cert, grant, operation, first)
                || any_program_does(cert, grant, operation, rest)
        }
    }
}

/// Adds initial pairs of which processes have this side alone.
fn add_pairs(list: &mut Vec<TaskRemark<'_>>, pairs: &[u8], side: Side) -> Result<(), AllocError>
    ensures { OnOk result (map task_remark_of list.new.items ≡ map task_remark_of list.old.items ++ map (λ pair. Alone pair (side_seen side)) pairs.now) }
{
    for pair in pairs {
        list.push(TaskRemark::Alone { pair: *pair, side })?;
    }
    Ok(())
}

/// Adds all of them.
fn add_alone(
    alloc: Global,
    list: &mut Vec<TaskRemark<'_>>,
    starts: &[Start],
    side: Side,
) -> Result<(), AllocError>
    ensures { OnOk result (map task_remark_of list.new.items ≡ map task_remark_of list.old.items ++ lone_ends (starts_of starts.now) (side_seen side)) }
{
    let pairs = lone_sides(alloc, starts, side)?;
    add_pairs(list, &pairs, side)
}

/// Adds the grants that hold the whole tree.
fn add_boundless<'a>(list: &mut Vec<TaskRemark<'a>>, grants: &'a [Grant]) -> Result<(), AllocError>
    ensures { OnOk result (map task_remark_of list.new.items ≡ map task_remark_of list.old.items ++ boundless (grants_of grants.now)) }
{
    for grant in grants {
        if grant.path.is_root() {
            list.push(TaskRemark::Boundless { grant })?;
        }
    }
    Ok(())
}

/// The remarks on first processes and grants.
fn remarks_on_both<'a>(
    alloc: Global,
    starts: &[Start],
    grants: &'a [Grant],
) -> Result<Vec<TaskRemark<'a>>, AllocError>
    ensures { IfOk result (λ found. map task_remark_of found.items
        ≡ lone_ends (starts_of starts.now) 0 ++ (lone_ends (starts_of starts.now) 1 ++ boundless (grants_of grants.now))) }
{
    let mut list = Vec::new(alloc);
    add_alone(alloc, &mut list, starts, Side::A)?;
    add_alone(alloc, &mut list, starts, Side::B)?;
    add_boundless(&mut list, grants)?;
    Ok(list)
}

/// The remarks on a task: of which initial pairs processes have one side alone, and which grants hold the whole tree. (own)
pub fn remarks_on_task<'a>(alloc: Global, task: &'a Task) -> Result<Vec<TaskRemark<'a>>, AllocError>
    ensures { IfOk result (λ found. map task_remark_of found.items ≡ task_remarks task.now) }
{
    remarks_on_both(alloc, task.starts(), task.grants())
}
