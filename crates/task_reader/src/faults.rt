//! Why some bytes are no task.

ghost use Rattle.std.specs.Prelude.{◌≡◌};
ghost use Rattle.task_reader.specs.FaultViews.{fault_name, fault_number};
ghost use Rattle.task_reader.specs.declared.faults.TaskFault.TheVariants as fault;

use prog_asm::AsmFault;
use std::alloc::{AllocError, AllocFailed};
use std::fmt;
use thiserror::Error;

/// Why some bytes aren't read as a task. Where more than one of the first seven applies, the first of them is told. (own)
#[derive(Debug, Drop, Error)]
pub enum TaskFault {
    /// The bytes are no TOML document.
    NotToml,
    /// A key is missing or is none of a task's, a value is of a wrong type, or a word or a name is wrong or is given twice.
    Field,
    /// A node's path isn't one, is given twice, or comes before its directory.
    Node,
    /// A grant isn't of a directory, or is in another.
    Grant,
    /// A descriptor's number isn't one or is given twice, its pair isn't one, its path isn't that of a file or directory, or
    /// it is to write a directory.
    Descriptor,
    /// The first program whose text isn't assembled, and why it isn't.
    Asm { program: String, fault: AsmFault },
    /// Something is too long, too many, or a link's target is empty.
    Limit,
    /// A growth was refused.
    Memory,
}

impl TaskFault {
    /// The fault's number, from 1 to 8.
    pub fn number(&self) -> u8
        ensures { result ≡ fault_number self.now }
    {
        match self {
            TaskFault::NotToml => 1,
            TaskFault::Field => 2,
            TaskFault::Node => 3,
            TaskFault::Grant => 4,
            TaskFault::Descriptor => 5,
            TaskFault::Asm { .. } => 6,
            TaskFault::Limit => 7,
            TaskFault::Memory => 8,
        }
    }

    /// The fault's name, as `NotToml`.
    pub fn name(&self) -> &'static str
        ensures { result.now ≡ fault_name self.now }
    {
        match self {
            TaskFault::NotToml => "NotToml",
            TaskFault::Field => "Field",
            TaskFault::Node => "Node",
            TaskFault::Grant => "Grant",
            TaskFault::Descriptor => "Descriptor",
            TaskFault::Asm { .. } => "Asm",
            TaskFault::Limit => "Limit",
            TaskFault::Memory => "Memory",
        }
    }

    /// What is wrong, in words.
    fn told(&self) -> &'static str {
        match self {
            TaskFault::NotToml => "not a TOML document",
            TaskFault::Field => "a field is wrong",
            TaskFault::Node => "a node is wrong",
            TaskFault::Grant => "a grant is wrong",
            TaskFault::Descriptor => "a descriptor is wrong",
            TaskFault::Asm { .. } => "a program is wrong",
            TaskFault::Limit => "past a limit",
            TaskFault::Memory => "no memory",
        }
    }
}

impl fmt::Display for TaskFault {
    fn fmt<W: fmt::Write>(&self, f: &mut fmt::Formatter<W>) -> fmt::Result {
        match self {
            TaskFault::Asm { program, fault } => write!(f, "program {program}: {fault}"),
            _ => f.write_str(self.told()),
        }
    }
}

impl From<AllocError> for TaskFault {
    ghost from_gives = { λ _ given. given ≡ fault.Memory };

    fn from(_error: AllocError) -> TaskFault {
        TaskFault::Memory
    }
}

impl<T: Drop> From<AllocFailed<T>> for TaskFault {
    ghost from_gives = { λ _ given. given ≡ fault.Memory };

    fn from(_failed: AllocFailed<T>) -> TaskFault {
        TaskFault::Memory
    }
}
