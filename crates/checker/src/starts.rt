//! Whether a bound describes the first states of a program's processes.

ghost use Rattle.std.specs.Prelude.{◌≡◌, ◌==◌, ◌&&◌, ◌+◌, ◌≤◌, length, map, option_map, true};
ghost use Rattle.certificate.specs.Describes.{held_describes, interval_describes, mode_describes, registers_describe, slot_describes, slots_describe, target_describes};
ghost use Rattle.certificate.specs.Views.{bound_of, held_of, interval_of, mode_of, slot_of, target_of};
ghost use Rattle.rights.specs.Limits.{most_descriptors};
ghost use Rattle.rules.specs.Rules.{is_bounded_start, first_seen, first_subject, first_table, is_started, start_within, starts_within};
ghost use Rattle.task.specs.Begins.{with_number};
ghost use Rattle.task.specs.Policies.{grant_holds};
ghost use Rattle.task.specs.Views.{first_descriptor_of, first_object_of, grants_of, nodes_of, start_of};

use crate::allowances::is_initial;
use crate::asked::{AskedPoint, AskedProgram};
use certificate::{Bound, Held, Interval, ModeBound, Slot, Target};
use rights::Rights;
use rights::limits::{MAX_DESCRIPTORS, REGISTERS};
use task::{FirstDescriptor, FirstObject, Grant, Start, Task, TaskNode, grant_holds};

/// Whether a process may be in this mode. (own)
pub fn mode_describes(bound: ModeBound, mode: bool) -> bool
    ensures { result ≡ mode_describes (mode_of bound) mode }
{
    match bound {
        ModeBound::Off => !mode,
        ModeBound::On => mode,
        ModeBound::Either => true,
    }
}

/// Whether a register may have this value. (own)
pub fn interval_describes(interval: Interval, value: u32) -> bool
    ensures { result ≡ interval_describes (interval_of interval) value }
{
    interval.low() <= value && value <= interval.high()
}

/// Whether each value is in its interval.
fn registers_describe(intervals: &[Interval], values: &[u32]) -> bool
    ensures { result ≡ registers_describe (map interval_of intervals.now) values.now }
{
    match intervals {
        [] => values.is_empty(),
        [first, rest @ ..] => match values {
            [] => false,
            [value, others @ ..] => {
                interval_describes(*first, *value) && registers_describe(rest, others)
            }
        },
    }
}

/// Whether what a first descriptor is of may be of this target.
fn target_describes(
    grants: &[Grant],
    nodes: &[TaskNode],
    target: &Target,
    object: FirstObject,
) -> bool
    ensures { result ≡ target_describes (grant_holds (grants_of grants.now)) (target_of target.now)
        (first_subject (nodes_of nodes.now) (first_object_of object)) }
{
    match (target, object) {
        (Target::InGrant(name), FirstObject::Node { node, .. }) => {
            grant_holds(grants, name.as_bytes(), nodes, node)
        }
        (Target::Socket(class, side), FirstObject::End { pair, side: its }) => {
            is_initial(class, pair) && its.is(*side)
        }
        (Target::AnyNode, FirstObject::Node { .. }) | (Target::Unknown, _) => true,
        (Target::InGrant(_) | Target::AnyNode, FirstObject::End { .. })
        | (Target::Socket(..), FirstObject::Node { .. }) => false,
    }
}

/// Whether a first descriptor is one that the bound describes.
fn held_describes(
    grants: &[Grant],
    nodes: &[TaskNode],
    held: &Held,
    descriptor: FirstDescriptor,
) -> bool
    ensures { result ≡ held_describes (grant_holds (grants_of grants.now)) (held_of held.now)
        (first_seen (nodes_of nodes.now) (first_descriptor_of descriptor)) }
{
    target_describes(grants, nodes, &held.target(), descriptor.object)
        && descriptor.rights.contains(held.rights().least())
        && held.rights().greatest().contains(descriptor.rights)
        && descriptor.fcntls.contains(held.fcntls().least())
        && held.fcntls().greatest().contains(descriptor.fcntls)
}

/// The descriptor of this number, if there is one. (own)
pub fn with_number(descriptors: &[FirstDescriptor], number: usize) -> Option<FirstDescriptor>
    ensures { option_map first_descriptor_of result
        ≡ with_number number (map first_descriptor_of descriptors.now) }
{
    descriptors
        .iter()
        .copied()
        .find(|first| first.number as usize == number)
}

/// Whether a number of a table is as its slot says. (own)
pub fn slot_describes(
    grants: &[Grant],
    nodes: &[TaskNode],
    slot: &Slot,
    descriptor: Option<FirstDescriptor>,
) -> bool
    ensures { result ≡ slot_describes (grant_holds (grants_of grants.now)) (slot_of slot.now)
        (option_map (first_seen (nodes_of nodes.now)) (option_map first_descriptor_of descriptor)) }
{
    match slot {
        Slot::Closed => descriptor.is_none(),
        Slot::Open(held) => descriptor.is_some_and(|descriptor| held_describes(
            grants, nodes, held, descriptor,
        )),
        Slot::Maybe(held) => descriptor.is_none_or(|descriptor| held_describes(
            grants, nodes, held, descriptor,
        )),
    }
}

/// Whether each number of a table from this one on is as its slot says.
fn slots_describe(
    grants: &[Grant],
    nodes: &[TaskNode],
    number: usize,
    slots: &[Slot],
    start: &Start,
) -> bool
    requires { number + length slots.now ≤ most_descriptors }
    ensures { result ≡ slots_describe (grant_holds (grants_of grants.now)) number (map slot_of slots.now)
        (first_table (nodes_of nodes.now) (start_of start.now)) }
{
    match slots {
        [] => number == MAX_DESCRIPTORS,
        [first, rest @ ..] => {
            slot_describes(
                grants,
                nodes,
                first,
                with_number(&start.descriptors, number),
            ) && slots_describe(grants, nodes, number + 1, rest, start)
        }
    }
}

/// Whether the bound describes a process at its start.
fn start_within(task: &Task, bound: &Bound, start: &Start) -> bool
    ensures { result ≡ start_within task.now (bound_of bound.now) (start_of start.now) }
{
    mode_describes(bound.mode(), start.mode)
        && registers_describe(bound.registers(), &[0; REGISTERS])
        && slots_describe(task.grants(), task.nodes(), 0, bound.slots(), start)
}

/// Whether a process starts with the program and is bounded by its points: one of a marked program that starts in the mode isn't. (own)
pub fn is_bounded_start(marked: bool, program: u8, start: &Start) -> bool
    ensures { result ≡ is_bounded_start marked program (start_of start.now) }
{
    !(marked && start.mode) && start.program == program
}

/// At point 0, whether a bound describes each such process of the program at its start. (own)
pub(crate) fn starts_within(at: &AskedPoint<'_>, bound: &Bound) -> bool
    ensures { result ≡ starts_within at.now.of.now.task.now at.now.of.now.program at.now.point (bound_of bound.now) }
{
    let of = at.of;
    at.point != 0
        || of.task.starts().iter().all(|start| {
            !is_bounded_start(of.marked, of.program, start) || start_within(of.task, bound, start)
        })
}

/// Whether some process starts the program and is bounded by its points.
pub(crate) fn is_started(of: &AskedProgram<'_>) -> bool
    ensures { result ≡ is_started of.now.task.now of.now.program }
{
    of.task
        .starts()
        .iter()
        .any(|start| is_bounded_start(of.marked, of.program, start))
}
