//! The writer that a trace or a certificate goes to.

ghost use Rattle.std.specs.Prelude.{◌≡◌, ◌<◌, ◌≤◌, ◌-◌, ◌^◌, ℕ, List, Ok, Option, length, take, IfOk, IsErrOf, OnErr, OnOk};
ghost use Rattle.rights.specs.Output.{Took, TookFront};
ghost use Rattle.rights.specs.declared.stops.Stop.TheVariants.{Device};

use crate::stops::Stop;
use thiserror::Error;

/// The writer failed.
#[derive(Clone, Copy, Debug, PartialEq, Eq, Error)]
#[error("the writer failed")]
pub struct OutFault;

/// A writer that counts its failures.
pub trait Out {
    /// The bytes taken so far, or nothing where they aren't told, as for standard output; then
    /// nothing is claimed of them.
    ghost taken: { Self → Option (List ℕ) };

    /// How many calls have failed so far.
    ghost faults: { Self → ℕ };

    /// Takes a beginning of the bytes, and says how many they are. To take none of some bytes counts
    /// as a failure.
    fn write_some(&mut self, bytes: &[u8]) -> Result<usize, OutFault>
        requires { faults self.old < 2 ^ 64 - 1 }
        ensures within { IfOk result (λ count. count ≤ length bytes.now) }
        ensures taken { IfOk result (λ count. Took (taken self.old) (taken self.new) (take count bytes.now)) }
        ensures steady { IfOk result (λ count. 0 < count → faults self.new ≡ faults self.old) }
        ensures nothing_to_take { length bytes.now ≡ 0 → OnOk result (faults self.new ≡ faults self.old) }
        ensures none_taken { result ≡ Ok 0 → 0 < length bytes.now → faults self.old < faults self.new }
        ensures err { OnErr result (faults self.old < faults self.new) }
        ensures err_taken { OnErr result (taken self.new ≡ taken self.old) };
}

/// Writes all the bytes, or answers `Device` after a failure of the writer; what was taken is then
/// a beginning of them. Takes no memory.
pub fn write_all<W: Out>(out: &mut W, bytes: &[u8]) -> Result<(), Stop>
    requires { W.faults out.old < 2 ^ 64 - 1 }
    ensures ok { OnOk result (Took (W.taken out.old) (W.taken out.new) bytes.now) }
    ensures steady { OnOk result (W.faults out.new ≡ W.faults out.old) }
    ensures only_device { OnErr result (IsErrOf result Device) }
    ensures err { OnErr result (TookFront (W.taken out.old) (W.taken out.new) bytes.now) }
    ensures failed { OnErr result (W.faults out.old < W.faults out.new) }
{
    let mut at = 0;
    while at < bytes.len() {
        match out.write_some(&bytes[at..]) {
            Ok(0) => return Err(Stop::Device),
            Ok(count) => at += count,
            Err(_) => return Err(Stop::Device),
        }
    }
    Ok(())
}
