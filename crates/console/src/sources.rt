//! Where a program's files come from.

ghost use Rattle.std.specs.Prelude.{◌≡◌, ◌⊎◌, ℕ, List, Option, None, Ok, Err, IfErr, IfOk};
ghost use Rattle.std.specs.IoError.{error_kind};
ghost use Rattle.console.specs.Faults.{No_file, No_memory, Refused};
ghost use Rattle.console.specs.FaultViews.{fault_of};
ghost use Rattle.console.specs.Files.{IsFile, IsMissing};
ghost use Rattle.console.specs.declared.faults.Fault.TheVariants as fault;

use crate::faults::Fault;
use std::io::ErrorKind;
use std::{fs, io};

/// Where files come from.
pub trait Source {
    /// The files by name, or nothing where they aren't told, as for those of the system; then nothing is
    /// claimed of them.
    ghost files: { Self → Option (List ℕ → Option (List ℕ)) };

    /// The bytes of the file of this name. To fetch changes no file. (own)
    ///
    /// # Errors
    ///
    /// `File`, where there is no such file, or it can't be read, and `Memory`, which may come in place of any other answer.
    fn fetch<'a>(&mut self, name: &'a str) -> Result<Vec<u8>, Fault<'a>>
        ensures text { IfOk result (λ bytes. IsFile (files self.old) name.now bytes.items) }
        ensures missing { IfErr result (λ why. (fault_of why ≡ No_memory)
            ⊎ ((fault_of why ≡ Refused (No_file name.now)) × IsMissing (files self.old) name.now)) }
        ensures same { files self.new ≡ files self.old };
}

/// What a read of the file of this name comes to.
pub fn fetched<'a>(name: &'a str, read: io::Result<Vec<u8>>) -> Result<Vec<u8>, Fault<'a>>
    ensures text { IfOk read (λ bytes. result ≡ Ok bytes) }
    ensures memory { IfErr read (λ e. error_kind e ≡ ErrorKind.OutOfMemory → result ≡ Err fault.Memory) }
    ensures missing { IfErr read (λ e. (error_kind e ≡ ErrorKind.OutOfMemory → ⊥) → result ≡ Err (fault.File name.entry)) }
    ensures refused { IfErr result (λ why. (fault_of why ≡ No_memory) ⊎ (fault_of why ≡ Refused (No_file name.now))) }
{
    match read {
        Ok(bytes) => Ok(bytes),
        Err(error) if error.kind() == ErrorKind::OutOfMemory => Err(Fault::Memory),
        Err(_) => Err(Fault::File(name)),
    }
}

/// Files of the system, by path. Nothing is told of them.
#[derive(Drop)]
pub struct Disk<'a> {
    rt: &'a HostRuntime,
    why: Option<ErrorKind>,
}

impl<'a> Disk<'a> {
    /// The files that this system has.
    pub fn new(rt: &'a HostRuntime) -> Disk<'a>
        ensures { ⟦<Disk<'a> as Source>⟧.files result ≡ None }
    {
        Disk { rt, why: None }
    }

    /// Why the last file that was fetched couldn't be read, as the system says it; none where it was read.
    pub fn why(&self) -> Option<ErrorKind>
        ensures { result ≡ self.now.why }
    {
        self.why
    }
}

impl<'a> Source for Disk<'a> {
    ghost files = { λ _. None };

    fn fetch<'b>(&mut self, name: &'b str) -> Result<Vec<u8>, Fault<'b>> {
        let read = fs::read(self.rt, name);
        self.why = match &read {
            Ok(_) => None,
            Err(error) => Some(error.kind()),
        };
        fetched(name, read)
    }
}
