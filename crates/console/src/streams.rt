//! Standard output and standard error, as writers that count their failures.

ghost use Rattle.std.specs.Prelude.{◌≡◌, ◌<◌, ◌≤◌, ◌-◌, ◌^◌, true, false, Ok, None, length, IfOk, OnErr, OnOk};
ghost use Rattle.std.specs.List.{flat_map};
ghost use Rattle.std.specs.Io.KnownBytes.{Keeps, WriteAppends};
ghost use Rattle.certificate_text.specs.WritingViews.{Writes};
ghost use Rattle.console.specs.Faults.{No_output, fault_status, fault_text};
ghost use Rattle.console.specs.Told.{TellsLine};

use crate::faults::write_line;
use crate::statuses::{REFUSED, STOPPED};
use rights::{Out, OutFault, Stop, write_all};
use std::io::{self, ErrorKind, Stdout, Write};

/// What a program does whose output is a pipe that nobody reads any more.
#[derive(Clone, Copy, PartialEq, Eq)]
pub enum ClosedPipe {
    /// Its output has failed.
    Fails,
    /// It drops what it would write.
    Drops,
}

/// Standard output, and what is done where it is a closed pipe.
#[derive(Drop)]
pub struct Pipe {
    stream: Stdout,
    closed: ClosedPipe,
}

impl Pipe {
    /// This stream.
    pub fn new(stream: Stdout, closed: ClosedPipe) -> Pipe
        ensures { result.closed ≡ closed }
    {
        Pipe { stream, closed }
    }

    /// Whether a failure is that of a closed pipe, and what is written there is dropped.
    fn drops(&self, error: &io::Error) -> bool {
        self.closed == ClosedPipe::Drops && error.kind() == ErrorKind::BrokenPipe
    }
}

impl Write for Pipe {
    fn write(&mut self, bytes: &[u8]) -> io::Result<usize> {
        match self.stream.write(bytes) {
            Err(error) if self.drops(&error) => Ok(bytes.len()),
            written => written,
        }
    }

    fn flush(&mut self) -> io::Result<()> {
        match self.stream.flush() {
            Err(error) if self.drops(&error) => Ok(()),
            flushed => flushed,
        }
    }
}

/// A stream of the process, as a writer that counts its failures. `taken` tells nothing of it; where the stream underneath
/// tells what it holds, the clause `appends` says that it gets what was taken and no more.
#[derive(Drop)]
pub struct Console<W: Write + Drop> {
    stream: W,
    failures: u64,
}

impl<W: Write + Drop> Console<W> {
    /// The stream, which has not failed yet.
    pub fn new(stream: W) -> Console<W>
        ensures { result.failures ≡ 0 }
    {
        Console {
            stream,
            failures: 0,
        }
    }

    /// Hands on what a buffer still holds, and says whether that went well. No clause can say when it does: the contract of
    /// std's `Write` promises nothing of what a stream's `flush` answers.
    pub fn flush(&mut self) -> bool
        ensures failures { self.new.failures ≡ self.old.failures }
        ensures kept { Keeps (W.contents self.old.stream) (W.contents self.new.stream) }
    {
        self.stream.flush().is_ok()
    }
}

impl<W: Write + Drop> Out for Console<W> {
    ghost taken = { λ _. None };

    ghost faults = { λ console. console.failures };

    fn write_some(&mut self, bytes: &[u8]) -> Result<usize, OutFault>
        requires { self.old.failures < 2 ^ 64 - 1 }
        ensures within { IfOk result (λ count. count ≤ length bytes.now) }
        ensures steady { IfOk result (λ count. 0 < count → self.new.failures ≡ self.old.failures) }
        ensures nothing_to_take { length bytes.now ≡ 0 → OnOk result (self.new.failures ≡ self.old.failures) }
        ensures none_taken { result ≡ Ok 0 → 0 < length bytes.now → self.old.failures < self.new.failures }
        ensures err { OnErr result (self.old.failures < self.new.failures) }
        ensures appends { WriteAppends (W.contents self.old.stream) (W.contents self.new.stream) result bytes.now }
    {
        match self.stream.write(bytes) {
            Ok(count) => {
                if count == 0 && !bytes.is_empty() {
                    self.failures += 1;
                }
                Ok(count)
            }
            Err(_) => {
                self.failures += 1;
                Err(OutFault)
            }
        }
    }
}

/// Writes some bytes, or a beginning of them where the writer fails. It takes no memory.
pub fn write_bytes<W: Out>(out: &mut W, bytes: &[u8]) -> Result<(), Stop>
    requires { W.faults out.old < 2 ^ 64 - 1 }
    ensures { Writes result (W.taken out.old) (W.taken out.new) (W.faults out.old) (W.faults out.new) bytes.now }
{
    write_all(out, bytes)
}

/// Writes some pieces, one after another.
pub fn write_pieces<W: Out>(out: &mut W, pieces: &[&[u8]]) -> Result<(), Stop>
    requires { W.faults out.old < 2 ^ 64 - 1 }
    ensures { Writes result (W.taken out.old) (W.taken out.new) (W.faults out.old) (W.faults out.new) (flat_map (λ piece. piece.now) pieces.now) }
{
    for piece in pieces {
        write_bytes(out, piece)?;
    }
    Ok(())
}

/// The status that a program of this name ends with once the output was flushed: the one that it had; or 3 where the flush failed,
/// and that is told unless a fault was told before.
pub fn closed<V: Out>(name: &str, status: u8, flushed: bool, err: &mut V) -> u8
    requires { V.faults err.old < 2 ^ 64 - 1 }
    ensures kept { flushed ≡ true → (result ≡ status) × (V.taken err.new ≡ V.taken err.old) }
    ensures failed { flushed ≡ false → result ≡ fault_status No_output }
    ensures told { flushed ≡ false → status < 2
        → TellsLine (V.taken err.old) (V.taken err.new) (V.faults err.old) (V.faults err.new) (fault_text name.now No_output) }
    ensures told_before { flushed ≡ false → 2 ≤ status → V.taken err.new ≡ V.taken err.old }
{
    if flushed {
        return status;
    }
    if status >= REFUSED {
        return STOPPED;
    }
    let _ = write_line(name, "output", err);
    STOPPED
}
