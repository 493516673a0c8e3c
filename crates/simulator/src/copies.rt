//! Copies of the state of a run.

ghost use Rattle.std.specs.Prelude.{◌≡◌, IfOk, OnErr, OnOk};

use file_tree::CopyTree;
use process::Process;
use rights::Memory;
use std::alloc::Global;
use syscalls::World;

/// The same processes once more.
fn copy_processes(alloc: Global, processes: &[Process]) -> Result<Vec<Process>, Memory>
    ensures { IfOk result (λ copies. copies.items ≡ processes.now) }
{
    let mut copies = Vec::with_capacity(alloc, processes.len())?;
    for process in processes {
        let copy = process.copy(alloc)?;
        copies.push(copy)?;
    }
    Ok(copies)
}

/// The same world once more. Want of memory alone keeps it from being made.
pub(crate) fn copy_world<T: CopyTree>(alloc: Global, world: &World<T>) -> Result<World<T>, Memory>
    ensures tree { IfOk result (λ copy. T.nodes copy.tree ≡ T.nodes world.now.tree) }
    ensures files { IfOk result (λ copy. copy.files ≡ world.now.files) }
    ensures processes { IfOk result (λ copy. copy.processes.items ≡ world.now.processes.items) }
{
    let tree = world.tree.copy()?;
    let files = world.files.copy()?;
    let processes = copy_processes(alloc, &world.processes)?;
    Ok(World {
        tree,
        files,
        processes,
    })
}

/// Makes a world the same as another one. Want of memory alone keeps it from that, and then nothing changes.
pub(crate) fn copy_world_from<T: CopyTree>(
    alloc: Global,
    world: &mut World<T>,
    other: &World<T>,
) -> Result<(), Memory>
    ensures tree { OnOk result (T.nodes world.new.tree ≡ T.nodes other.now.tree) }
    ensures files { OnOk result (world.new.files ≡ other.now.files) }
    ensures processes { OnOk result (world.new.processes.items ≡ other.now.processes.items) }
    ensures err { OnErr result (world.new ≡ world.old) }
{
    let tree = other.tree.copy()?;
    let processes = copy_processes(alloc, &other.processes)?;
    world.files.copy_from(&other.files)?;
    world.tree = tree;
    world.processes = processes;
    Ok(())
}
