//! The world in which a task starts.

ghost use Rattle.std.specs.Prelude.{◌≡◌, ◌||◌, ◌+◌, ◌<◌, ◌≤◌, [], IfOk, OnOk, drop, length, map, option_map, false, true};
ghost use Rattle.std.specs.List.{slice_get};
ghost use Rattle.fd_table.specs.Filled.{IsEmpty, IsFreeAt, Opens};
ghost use Rattle.fd_table.specs.Kept.{open_files};
ghost use Rattle.rights.specs.Views.{side_seen};
ghost use Rattle.fd_table.specs.Views.{access_seen};
ghost use Rattle.kernel.specs.Renamings.{DiffersInNumbers};
ghost use Rattle.kernel.specs.WellFormed.{IsWellFormed};
ghost use Rattle.syscalls.specs.Views.{world_of};
ghost use Rattle.task.specs.Begins.{first_process, first_world};
ghost use Rattle.task.specs.Limits.{is_plan};
ghost use Rattle.task.specs.Plans.{programs_of_plan};
ghost use Rattle.task.specs.Views.{programs_of, start_of, starts_of};
ghost use Rattle.simulator.specs.OwnedViews.{owned_descriptors_of};
ghost use Rattle.simulator.specs.Starts.{AreNumbers, Awaits, HasPairs, IsOwnedEnd, are_among, are_owned, owned_from};

use crate::building::build_tree;
use crate::owned::{OwnedDescriptor, last_of, list_owned};
use fd_table::{Access, Class, Files, Side};
use file_tree::{NodeId, Tree};
use process::Process;
use rights::limits::MAX_PAIRS;
use rights::{Memory, OpenFlags};
use std::alloc::Global;
use syscalls::World;
use task::{FirstObject, NamedProgram, Start, Task};

/// Opens an initial pair, if some descriptor is of it. Each of its sides goes to the last descriptor of that side, with all
/// rights, or nowhere.
fn open_initial(files: &mut Files, owned: &[OwnedDescriptor], pair: u8) -> Result<(), Memory>
    requires few { pair < 32 }
    requires owned { are_owned (owned_descriptors_of owned.now) ≡ true }
    requires begun { HasPairs (owned_descriptors_of owned.now) pair (open_files files.old) }
    ensures { OnOk result (HasPairs (owned_descriptors_of owned.now) (pair + 1) (open_files files.new)) }
{
    let a = last_of(owned, pair, Side::A);
    let b = last_of(owned, pair, Side::B);
    if a.is_none() && b.is_none() {
        return Ok(());
    }
    files.open_pair(Class::Initial(pair), a, b)
}

/// Opens the initial pairs that some descriptor is of.
fn open_initials(files: &mut Files, owned: &[OwnedDescriptor]) -> Result<(), Memory>
    requires owned { are_owned (owned_descriptors_of owned.now) ≡ true }
    requires empty { IsEmpty (open_files files.old) }
    ensures { OnOk result (Awaits (owned_descriptors_of owned.now) (owned_descriptors_of owned.now) (open_files files.new)) }
{
    for pair in 0..MAX_PAIRS {
        open_initial(files, owned, pair)?;
    }
    Ok(())
}

/// Opens a first descriptor of a side of an initial pair, where all before it are open: it shares the description of the last of
/// that side, if that is another, and is limited.
fn open_end(files: &mut Files, owned: &[OwnedDescriptor], at: usize, pair: u8, side: Side)
    requires there { at < length owned.now }
    requires owned { are_owned (owned_descriptors_of owned.now) ≡ true }
    requires end { IsOwnedEnd (slice_get (owned_descriptors_of owned.now) at) pair (side_seen side) }
    requires begun { Awaits (owned_descriptors_of owned.now) (drop at (owned_descriptors_of owned.now)) (open_files files.old) }
    ensures { Awaits (owned_descriptors_of owned.now) (drop (at + 1) (owned_descriptors_of owned.now)) (open_files files.new) }
{
    let own = owned[at];
    let given = own.given;
    if let Some(entry) = last_of(&owned[at + 1..], pair, side) {
        files.share(entry.process, entry.number, own.process, given.number);
    }
    files.limit(own.process, given.number, given.rights, given.fcntls);
}

/// Opens a node of the tree for a first descriptor.
fn open_node(
    files: &mut Files,
    numbers: &[NodeId],
    own: OwnedDescriptor,
    node: u16,
    access: Access,
) -> Result<(), Memory>
    requires numbers { AreNumbers numbers.now }
    requires there { node < length numbers.now }
    requires used { (access.readable || access.writable) ≡ true }
    requires free { IsFreeAt (open_files files.old) own.process own.given.number }
    ensures { OnOk result (Opens (open_files files.old) (open_files files.new) own.process own.given.number node (access_seen access) false
        own.given.rights.0 own.given.fcntls.0) }
{
    let given = own.given;
    match OpenFlags::new(access.readable, access.writable, false, false, false) {
        Some(flags) => files.open_node(
            own.process,
            given.number,
            numbers[node as usize],
            flags,
            given.rights,
            given.fcntls,
        ),
        // No first descriptor is for neither.
        None => unreachable!(),
    }
}

/// Opens a first descriptor, where all before it are open.
fn open_first(
    files: &mut Files,
    numbers: &[NodeId],
    owned: &[OwnedDescriptor],
    at: usize,
) -> Result<(), Memory>
    requires there { at < length owned.now }
    requires numbers { AreNumbers numbers.now }
    requires owned { are_owned (owned_descriptors_of owned.now) ≡ true }
    requires among { are_among (length numbers.now) (owned_descriptors_of owned.now) ≡ true }
    requires begun { Awaits (owned_descriptors_of owned.now) (drop at (owned_descriptors_of owned.now)) (open_files files.old) }
    ensures { OnOk result (Awaits (owned_descriptors_of owned.now) (drop (at + 1) (owned_descriptors_of owned.now)) (open_files files.new)) }
{
    let own = owned[at];
    match own.given.object {
        FirstObject::Node { node, access } => open_node(files, numbers, own, node, access),
        FirstObject::End { pair, side } => {
            open_end(files, owned, at, pair, side);
            Ok(())
        }
    }
}

/// Opens all first descriptors: the pairs first, and then one descriptor after another.
fn open_all(alloc: Global, numbers: &[NodeId], starts: &[Start]) -> Result<Files, Memory>
    requires few { length starts.now ≤ 16 }
    requires numbers { AreNumbers numbers.now }
    requires owned { are_owned (owned_from 0 (starts_of starts.now)) ≡ true }
    requires among { are_among (length numbers.now) (owned_from 0 (starts_of starts.now)) ≡ true }
    ensures { IfOk result (λ files. Awaits (owned_from 0 (starts_of starts.now)) [] (open_files files)) }
{
    let owned = list_owned(alloc, starts)?;
    let mut files = Files::new(alloc)?;
    open_initials(&mut files, &owned)?;
    for at in 0..owned.len() {
        open_first(&mut files, numbers, &owned, at)?;
    }
    Ok(files)
}

/// A first process, at point 0. It is marked if its program is.
fn first_process(programs: &[NamedProgram], start: &Start) -> Process
    ensures { result ≡ first_process (programs_of programs.now) (start_of start.now) }
{
    let mut process = Process::new(start.program, start.mode);
    if let Some(named) = programs.get(start.program as usize) {
        if named.untrusted {
            process.mark();
        }
    }
    process
}

/// The first processes.
fn first_processes(
    alloc: Global,
    programs: &[NamedProgram],
    starts: &[Start],
) -> Result<Vec<Process>, Memory>
    ensures { IfOk result (λ processes. processes.items ≡ map (first_process (programs_of programs.now)) (starts_of starts.now)) }
{
    let mut processes = Vec::new(alloc);
    for start in starts {
        processes.push(first_process(programs, start))?;
    }
    Ok(processes)
}

/// The world in which a task starts; the numbers of its descriptions may be others than the model's.
pub(crate) fn first_world<T: Tree>(alloc: Global, task: &Task) -> Result<World<T>, Memory>
    ensures same { IfOk result (λ w. DiffersInNumbers (first_world task.now)
        (world_of T.nodes w)) }
    ensures good { IfOk result (λ w. IsWellFormed (programs_of_plan task.now)
        (world_of T.nodes w)) }
    ensures valid { OnOk result (is_plan task.now ≡ true) }
{
    let built = build_tree(alloc, task.nodes())?;
    let files = open_all(alloc, &built.numbers, task.starts())?;
    let processes = first_processes(alloc, task.programs(), task.starts())?;
    Ok(World {
        tree: built.tree,
        files,
        processes,
    })
}
