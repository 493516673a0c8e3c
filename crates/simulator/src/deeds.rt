//! What processes of untrusted programs are made to do.

ghost use Rattle.std.specs.Prelude.{◌≡◌, ◌<◌, OnOk, length, true};
ghost use Rattle.std.specs.List.{slice_get};
ghost use Rattle.kernel.specs.Hostile.{IsDeedOf};
ghost use Rattle.kernel.specs.Steps.{Programs, handed};
ghost use Rattle.instruction_set.specs.Views.{instruction_of};
ghost use Rattle.process.specs.Views.{deed_of};
ghost use Rattle.syscalls.specs.Views.{world_of};
ghost use Rattle.simulator.specs.Deeds.{finished, may_stand_at};
ghost use Rattle.simulator.specs.Views.{result_of};

use crate::lines::LineResult;
use file_tree::Tree;
use instruction_set::Instruction;
use process::Deed;
use rights::Memory;
use rights::limits::REGISTERS;
use std::alloc::Global;
use syscalls::World;

/// Has a process do this next, if it may do anything. What it is to do is copied.
pub(crate) fn hand<T: Tree>(
    alloc: Global,
    world: &mut World<T>,
    number: u8,
    instruction: &Instruction,
    registers: &[u32; REGISTERS],
    point: u8,
) -> Result<(), Memory>
    ensures handed { OnOk result (world_of T.nodes world.new ≡ handed (world_of T.nodes world.old) number
        (record { instruction = instruction_of instruction.now; registers = registers.now; point = point })) }
    ensures deed { (programs : Programs) → may_stand_at programs (slice_get world.old.processes.items number) point ≡ true
        → OnOk result (IsDeedOf programs (slice_get world.old.processes.items number)
        (record { instruction = instruction_of instruction.now; registers = registers.now; point = point })) }
{
    let at = number as usize;
    if at >= world.processes.len() {
        return Ok(());
    }
    let process = &mut world.processes[at];
    if process.is_hostile() {
        let instruction = instruction.copy(alloc)?;
        process.keep(Deed {
            instruction,
            registers: *registers,
            point,
        });
    }
    Ok(())
}

/// What comes after a deed, whose process stood at this point before, and before which so many processes were made: the process,
/// and a child that it has made, have its registers and its point. While names of a path are left, it goes on.
pub(crate) fn finish_deed<T: Tree>(
    world: &mut World<T>,
    number: usize,
    made: usize,
    point: u8,
    deed: Deed,
    outcome: LineResult,
)
    requires { number < length world.old.processes.items }
    ensures { world_of T.nodes world.new ≡ record (world_of T.nodes world.old) {
      processes = finished (deed_of deed) point number made (result_of outcome) world.old.processes.items;
    } }
{
    let process = &mut world.processes[number];
    match outcome {
        LineResult::Walking => {
            process.point = point;
            process.keep(deed);
        }
        _ => {
            process.leave(&deed);
            if made < world.processes.len() {
                world.processes[made].leave(&deed);
            }
        }
    }
}
