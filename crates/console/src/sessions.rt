//! How a program begins and ends: its words, its files and its two streams.

ghost use Rattle.std.specs.Prelude.{◌≡◌, ◌⊎◌, IfErr, IfOk, IsTrue};
ghost use Rattle.console.specs.Faults.{No_output, fault_status};
ghost use Rattle.console.specs.Statuses.{is_fault_status};

use crate::faults::{Fault, tell};
use crate::sources::Disk;
use crate::streams::{ClosedPipe, Console, Pipe, closed};
use std::env;
use std::io::{BufWriter, ErrorKind, Stderr};

/// A program that has begun.
#[derive(Drop)]
pub struct Session<'a> {
    rt: &'a HostRuntime,
    name: &'a str,

    /// Its words, without its own name.
    pub words: Vec<String>,
    pub files: Disk<'a>,
    pub out: Console<BufWriter<Pipe>>,
    pub err: Console<Stderr>,
}

impl<'a> Session<'a> {
    /// Opens what a program of this name has. The fault is `Words`, where the words can't be had as text, or `Memory`.
    fn open(rt: &'a HostRuntime, name: &'a str, pipe: ClosedPipe) -> Result<Session<'a>, Fault<'a>>
        ensures out { IfOk result (λ session. session.out.failures ≡ 0) }
        ensures err { IfOk result (λ session. session.err.failures ≡ 0) }
    {
        let args = env::args(rt).map_err(|error| match error.kind() {
            ErrorKind::OutOfMemory => Fault::Memory,
            _ => Fault::Words,
        })?;
        Ok(Session {
            rt,
            name,
            words: args.skip(1).collect(rt.alloc())?,
            files: Disk::new(rt),
            out: Console::new(BufWriter::new(rt.alloc(), Pipe::new(rt.stdout(), pipe)).map_err(
                |_| Fault::Memory,
            )?),
            err: Console::new(rt.stderr()),
        })
    }

    /// Begins a program of this name, which does this where its output is a closed pipe.
    ///
    /// # Errors
    ///
    /// The status of a fault, which was told: the words can't be had as text, or there is no memory.
    pub fn begin(rt: &'a HostRuntime, name: &'a str, pipe: ClosedPipe) -> Result<Session<'a>, u8>
        ensures out { IfOk result (λ session. session.out.failures ≡ 0) }
        ensures err { IfOk result (λ session. session.err.failures ≡ 0) }
        ensures refused { IfErr result (λ status. IsTrue (is_fault_status status)) }
    {
        match Session::open(rt, name, pipe) {
            Ok(session) => Ok(session),
            Err(fault) => Err(tell(rt.alloc(), name, &fault, &mut Console::new(rt.stderr()))),
        }
    }

    /// Hands on what the output still holds. The status that the program ends with: this one, or 3 where that failed,
    /// which is told unless a fault was told before.
    pub fn end(&mut self, status: u8) -> u8
        ensures { (result ≡ status) ⊎ (result ≡ fault_status No_output) }
    {
        closed(
            self.name,
            status,
            self.out.flush(),
            &mut Console::new(self.rt.stderr()),
        )
    }
}
