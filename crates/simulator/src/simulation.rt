//! Runs of a task, as text.

ghost use Rattle.std.specs.Prelude.{◌≡◌, ◌<◌, ◌-◌, ◌^◌, [], IsErrOf, OnErr, OnOk, map};
ghost use Rattle.rights.specs.Output.{Took, TookFront};
ghost use Rattle.kernel.specs.Gains.{NeverGains};
ghost use Rattle.syscalls.specs.Views.{event_of};
ghost use Rattle.task.specs.Begins.{first_world};
ghost use Rattle.task.specs.Plans.{programs_of_plan};
ghost use Rattle.simulator.specs.Pages.{MovesLines};
ghost use Rattle.simulator.specs.Simulations.{WritesFront, WritesTrace};

use crate::machine::Machine;
use crate::page::Page;
use crate::trace::push_line;
use link_tree::LinkTree;
use rights::{Out, Stop, write_all};
use std::alloc::Global;
use syscalls::Event;
use task::Task;

/// So many bytes of whole lines are written in one piece.
const PIECE: usize = 16384;

/// Writes the whole lines once they are a piece, and takes them off the page.
fn write_piece<W: Out>(page: &mut Page, out: &mut W) -> Result<(), Stop>
    requires begun { page.old.line ≡ [] }
    requires faults { W.faults out.old < 2 ^ 64 - 1 }
    ensures ok { OnOk result (MovesLines (W.taken out.old) (W.taken out.new) page.old.lines page.new.lines) }
    ensures begun { OnOk result (page.new.line ≡ []) }
    ensures err { OnErr result (TookFront (W.taken out.old) (W.taken out.new) page.old.lines) }
    ensures steady { OnOk result (W.faults out.new ≡ W.faults out.old) }
    ensures device { IsErrOf result Stop.Device → W.faults out.old < W.faults out.new }
    ensures not_spent { IsErrOf result Stop.Spent → ⊥ }
{
    let lines = page.lines();
    if lines.len() < PIECE {
        return Ok(());
    }
    write_all(out, lines)?;
    page.clear();
    Ok(())
}

/// Writes the lines that were gathered before a growth was refused, so that nothing before it is lost. The refusal is what is
/// answered, whatever the writer does.
fn write_left<W: Out>(lines: &[u8], out: &mut W) -> Stop
    requires { W.faults out.old < 2 ^ 64 - 1 }
    ensures memory { result ≡ Stop.Memory }
    ensures front { TookFront (W.taken out.old) (W.taken out.new) lines.now }
    ensures all { W.faults out.new ≡ W.faults out.old → Took (W.taken out.old) (W.taken out.new) lines.now }
{
    let _ = write_all(out, lines);
    Stop::Memory
}

/// Runs the task over the events, and writes a line for each. `Device` is answered only after a
/// failure of the writer, and `Memory` after a refused growth; what was written then is a beginning
/// of the trace.
pub fn simulate<W: Out>(
    alloc: Global,
    task: &Task,
    events: &[Event],
    out: &mut W,
) -> Result<(), Stop>
    requires { W.faults out.old < 2 ^ 64 - 1 }
    ensures ok { OnOk result
        (WritesTrace task.now (map event_of events.now) (W.taken out.old) (W.taken out.new)) }
    ensures err { OnErr result
        (WritesFront task.now (map event_of events.now) (W.taken out.old) (W.taken out.new)) }
    ensures steady { OnOk result (W.faults out.new ≡ W.faults out.old) }
    ensures device { IsErrOf result Stop.Device → W.faults out.old < W.faults out.new }
    ensures not_spent { IsErrOf result Stop.Spent → ⊥ }

    // In every run of these events no process leaves capability mode, and no descriptor gains a right.
    ensures gains { NeverGains (programs_of_plan task.now) (first_world task.now) (map event_of events.now) }
{
    let mut machine: Machine<'_, LinkTree> = Machine::start(alloc, task)?;
    let mut page = Page::new(alloc)?;
    for event in events {
        let Ok(stepped) = machine.advance(*event) else {
            return Err(write_left(page.lines(), out));
        };
        if push_line(&mut page, task, machine.tree(), event.process, &stepped).is_err() {
            return Err(write_left(page.lines(), out));
        }
        write_piece(&mut page, out)?;
    }
    write_all(out, page.lines())
}
