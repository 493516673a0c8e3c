//! Certificates that are proposed, and how they are told.

ghost use Rattle.std.specs.Prelude.{◌≡◌, ◌<◌, ◌-◌, ◌^◌, IfOk, IsErrOf};
ghost use Rattle.commands.specs.Begun.{HasBegun};
ghost use Rattle.commands.specs.Searched.{Searches};

use certificate_text::write_cert;
use console::statuses::{BROKEN, DONE};
use rights::{Out, Stop, write_all};
use searcher::search;
use std::alloc::Global;
use task::Task;

/// Searches for a certificate of a task, and writes it, with the status 0, or `none`, with the status 1, where the search finds
/// none. The certificate is one that `check` accepts. Its errors are `Device`, after a failure of the writer, which then has
/// taken a beginning of that, and `Memory`, before anything is written. (own)
pub fn propose<W: Out>(alloc: Global, task: &Task, out: &mut W) -> Result<u8, Stop>
    requires { W.faults out.old < 2 ^ 64 - 1 }
    ensures proposed { IfOk result (λ status. Searches task.now status (W.taken out.old) (W.taken out.new)) }
    ensures device { IsErrOf result Stop.Device → W.faults out.old < W.faults out.new }
    ensures begun { IsErrOf result Stop.Device → HasBegun (Searches task.now) (W.taken out.old) (W.taken out.new) }
    ensures memory { IsErrOf result Stop.Memory → W.taken out.new ≡ W.taken out.old }
    ensures not_spent { IsErrOf result Stop.Spent → ⊥ }
{
    match search(alloc, task)? {
        Some(cert) => {
            write_cert(&cert, out)?;
            Ok(DONE)
        }
        None => {
            write_all(out, b"none\n")?;
            Ok(BROKEN)
        }
    }
}
