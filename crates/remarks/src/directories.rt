//! Directories that are taken into the mode, where their grant doesn't list looking.

ghost use Rattle.std.specs.Prelude.{◌≡◌, IfOk, filter, map};
ghost use Rattle.std.specs.List.{list_any, range_with_len};
ghost use Rattle.certificate.specs.Views.{held_of};
ghost use Rattle.instruction_set.specs.Views.{code_of};
ghost use Rattle.remarks.specs.RemarkViews.{bounds_of};
ghost use Rattle.remarks.specs.Remarks.{held_here, holds_so};
ghost use Rattle.remarks.specs.Warnings.{begins_mode, can_list, is_closed_at, is_numbered_directory, is_directory_of, is_listable};
ghost use Rattle.remarks.specs.Warnings.{is_unlooked, starts_listable, starts_with_directory, takes_directory_at};
ghost use Rattle.remarks.specs.Ways.{points};
ghost use Rattle.rights.specs.Limits.{most_descriptors};
ghost use Rattle.task.specs.Views.{first_descriptor_of, first_object_of, grant_of, grants_of, nodes_of, start_of, starts_of};

use crate::bounded::Bounded;
use crate::looks::lets_look;
use crate::ways::count;
use certificate::Held;
use file_tree::Kind;
use rights::limits::MAX_DESCRIPTORS;
use rights::{Op, Rights};
use std::alloc::{AllocError, Global};
use task::{FirstDescriptor, FirstObject, Grant, Start, Task, TaskNode, node_begins};

/// Whether rights list a directory's names or read the texts of its links: READ does the one, LOOKUP the other.
fn can_list(rights: Rights) -> bool
    ensures { result ≡ can_list rights.0 }
{
    rights.contains(Rights::READ) || rights.contains(Rights::LOOKUP)
}

/// Whether a descriptor may do so in a grant that doesn't list looking.
fn is_listable(grants: &[Grant], held: &Held) -> bool
    ensures { result ≡ is_listable (grants_of grants.now) (held_of held.now) }
{
    can_list(held.rights().greatest()) && !lets_look(grants, &held.target())
}

/// Whether a first descriptor is of a directory.
fn is_directory(nodes: &[TaskNode], object: FirstObject) -> bool
    ensures { result ≡ is_directory_of (nodes_of nodes.now) (first_object_of object) }
{
    match object {
        FirstObject::Node { node, .. } => match nodes.get(node as usize) {
            None => false,
            Some(node) => matches!(node.kind, Kind::Dir),
        },
        FirstObject::End { .. } => false,
    }
}

/// Whether one of some first descriptors is of a directory, at a number.
fn has_directory(nodes: &[TaskNode], number: u32, descriptors: &[FirstDescriptor]) -> bool
    ensures { result ≡ list_any (is_numbered_directory (nodes_of nodes.now) number) (map first_descriptor_of descriptors.now) }
{
    match descriptors {
        [] => false,
        [first, rest @ ..] => {
            u32::from(first.number) == number && is_directory(nodes, first.object)
                || has_directory(nodes, number, rest)
        }
    }
}

/// Whether a process of a program starts with a directory at a number.
fn starts_with_directory(task: &Task, program: &[u8], number: u32, start: &Start) -> bool
    ensures { result ≡ starts_with_directory task.now program.now number (start_of start.now) }
{
    task.program_name(start.program) == program
        && has_directory(task.nodes(), number, &start.descriptors)
}

/// Whether one of some processes does.
fn any_with_directory(task: &Task, program: &[u8], number: u32, starts: &[Start]) -> bool
    ensures { result ≡ list_any (starts_with_directory task.now program.now number) (starts_of starts.now) }
{
    match starts {
        [] => false,
        [start, rest @ ..] => {
            starts_with_directory(task, program, number, start)
                || any_with_directory(task, program, number, rest)
        }
    }
}

/// Whether what a first descriptor is of lies in a grant that doesn't list looking.
fn is_unlooked(nodes: &[TaskNode], object: FirstObject, grant: &Grant) -> bool
    ensures { result ≡ is_unlooked (nodes_of nodes.now) (first_object_of object) (grant_of grant.now) }
{
    match object {
        FirstObject::Node { node, .. } => {
            node_begins(nodes, node, &grant.path) && !Op::Look.is_listed(&grant.operations)
        }
        FirstObject::End { .. } => false,
    }
}

/// Whether it lies in one of these.
fn is_unlooked_in(nodes: &[TaskNode], object: FirstObject, grants: &[Grant]) -> bool
    ensures { result ≡ list_any (is_unlooked (nodes_of nodes.now) (first_object_of object)) (grants_of grants.now) }
{
    match grants {
        [] => false,
        [grant, rest @ ..] => {
            is_unlooked(nodes, object, grant) || is_unlooked_in(nodes, object, rest)
        }
    }
}

/// Whether a first descriptor is of a directory in such a grant, with READ or LOOKUP.
fn starts_listable(task: &Task, first: FirstDescriptor) -> bool
    ensures { result ≡ starts_listable task.now (first_descriptor_of first) }
{
    can_list(first.rights)
        && is_directory(task.nodes(), first.object)
        && is_unlooked_in(task.nodes(), first.object, task.grants())
}

/// The descriptors with which a process starts that are of directories in grants that don't list looking, with READ or LOOKUP.
pub fn directories_at_start(
    alloc: Global,
    task: &Task,
    start: &Start,
) -> Result<Vec<FirstDescriptor>, AllocError>
    ensures { IfOk result (λ found. found.items ≡ filter (λ d. starts_listable task.now (first_descriptor_of d)) start.now.descriptors.items) }
{
    start
        .descriptors
        .iter()
        .copied()
        .filter(|first| starts_listable(task, *first))
        .collect(alloc)
}

impl<'a> Bounded<'a> {
    /// Whether the mode is entered at a point, or the program starts in it there.
    fn begins_mode(&self, point: usize) -> bool
        ensures { result ≡ begins_mode (code_of self.now.code.now) (bounds_of self.now.bounds.items) point }
    {
        self.enters_at(point) || point == 0 && self.is_on_at(point)
    }

    /// Whether a number may list names or read links there, of a grant that doesn't list looking.
    fn is_listable_at(&self, grants: &[Grant], number: u32, point: usize) -> bool
        ensures { result ≡ holds_so (is_listable (grants_of grants.now)) (held_here (bounds_of self.now.bounds.items) number point) }
    {
        match self.held_here(number, point) {
            None => false,
            Some(held) => is_listable(grants, &held),
        }
    }

    /// Whether some instruction may close a number.
    fn is_ever_closed(&self, number: u32) -> bool
        ensures { result ≡ list_any (is_closed_at (code_of self.now.code.now) (bounds_of self.now.bounds.items) number) (points (code_of self.now.code.now)) }
    {
        (0..count(self.code)).any(|point| self.closes_at(number, point))
    }

    /// Whether a directory is taken into the mode at a point, by a number that nothing closes.
    fn takes_directory_at(&self, task: &Task, number: u32, point: usize) -> bool
        ensures { result ≡ takes_directory_at task.now self.now.name.now (code_of self.now.code.now) (bounds_of self.now.bounds.items) number point }
    {
        self.begins_mode(point)
            && self.is_listable_at(task.grants(), number, point)
            && any_with_directory(task, self.name, number, task.starts())
            && !self.is_ever_closed(number)
    }

    /// The numbers of directories that are taken into the mode at a point, and whose grant doesn't list looking.
    pub(crate) fn directories_at(
        &self,
        alloc: Global,
        task: &Task,
        point: usize,
    ) -> Result<Vec<u32>, AllocError>
        ensures { IfOk result (λ found. found.items
            ≡ filter (λ n. takes_directory_at task.now self.now.name.now (code_of self.now.code.now) (bounds_of self.now.bounds.items) n point) (range_with_len 0 most_descriptors)) }
    {
        (0..MAX_DESCRIPTORS as u32)
            .filter(|number| self.takes_directory_at(task, *number, point))
            .collect(alloc)
    }
}
