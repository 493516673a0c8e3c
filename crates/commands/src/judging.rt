//! How verdicts on tasks and certificates are told.

ghost use Rattle.std.specs.Prelude.{◌≡◌, ◌<◌, ◌-◌, ◌^◌, IsErrOf, OnOk};
ghost use Rattle.commands.specs.Judged.{verdict_text};
ghost use Rattle.rights.specs.Output.{Took, TookFront};
ghost use Rattle.checker.specs.Views.{verdict_of};

use checker::Verdict;
use rights::{Out, Stop, write_all};
use std::alloc::Global;
use task::Task;

/// Writes the line of a verdict on a task: `yes`, or `no` with the program's name, the point, and the rule that is broken. Its
/// errors are `Device`, after a failure of the writer, which then has taken a beginning of that, and `Memory`, before anything is
/// written. (own)
pub fn write_verdict<W: Out>(
    alloc: Global,
    task: &Task,
    verdict: Verdict,
    out: &mut W,
) -> Result<(), Stop>
    requires { W.faults out.old < 2 ^ 64 - 1 }
    ensures written { OnOk result (Took (W.taken out.old) (W.taken out.new) (verdict_text task.now (verdict_of verdict))) }
    ensures device { IsErrOf result Stop.Device → W.faults out.old < W.faults out.new }
    ensures begun { IsErrOf result Stop.Device → TookFront (W.taken out.old) (W.taken out.new) (verdict_text task.now (verdict_of verdict)) }
    ensures memory { IsErrOf result Stop.Memory → W.taken out.new ≡ W.taken out.old }
    ensures not_spent { IsErrOf result Stop.Spent → ⊥ }
{
    match verdict {
        Verdict::Yes => write_all(out, b"yes\n"),
        Verdict::No {
            program,
            point,
            rule,
        } => {
            let mut text = Vec::from_slice(alloc, b"no ")?;
            text.extend_from_slice(task.program_name(program))?;
            text.extend_from_slice(format!(in alloc; ":{point} K{rule}\n")?.as_bytes())?;
            write_all(out, &text)
        }
    }
}
