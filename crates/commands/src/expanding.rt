//! Certificates that are written out.

ghost use Rattle.std.specs.Prelude.{◌≡◌, ◌<◌, ◌-◌, ◌^◌, IsErrOf, OnOk};
ghost use Rattle.commands.specs.Begun.{HasBegun};
ghost use Rattle.commands.specs.Expanded.{Expands};

use certificate::Cert;
use certificate_text::write_cert;
use checker::{expand, is_expanded};
use rights::{Out, Stop};
use std::alloc::Global;
use task::Task;

/// Writes the expansion of a certificate: the certificate of version 1, or of version 3 or 4 where it is of that, with all bounds that
/// it gives and all that it leaves to be carried, and with its channels and authorities. Its errors are `Device`, after a failure of the writer, which then has taken a beginning of
/// that, and `Memory`, before anything is written. (own)
pub fn write_expansion<W: Out>(
    alloc: Global,
    task: &Task,
    cert: &Cert,
    out: &mut W,
) -> Result<(), Stop>
    requires { W.faults out.old < 2 ^ 64 - 1 }
    ensures expanded { OnOk result (Expands task.now cert.now (W.taken out.old) (W.taken out.new)) }
    ensures device { IsErrOf result Stop.Device → W.faults out.old < W.faults out.new }
    ensures begun { IsErrOf result Stop.Device → HasBegun (λ status. Expands task.now cert.now) (W.taken out.old) (W.taken out.new) }
    ensures memory { IsErrOf result Stop.Memory → W.taken out.new ≡ W.taken out.old }
    ensures not_spent { IsErrOf result Stop.Spent → ⊥ }
{
    if is_expanded(task, cert) {
        return write_cert(cert, out);
    }
    let expanded = expand(alloc, task, cert)?;
    write_cert(&expanded, out)
}
