//! Why a program does not do what its words say, and how it tells that.

ghost use Rattle.std.specs.Prelude.{◌≡◌, ◌<◌, ◌-◌, ◌^◌, IfOk, string_bytes};
ghost use Rattle.task_reader.specs.FaultViews.{text_fault};
ghost use Rattle.console.specs.Faults.{told_line, fault_status, fault_words};
ghost use Rattle.console.specs.Told.{IsTold};
ghost use Rattle.certificate_text.specs.WritingViews.{Writes};
ghost use Rattle.console.specs.FaultViews.{fault_of, program_fault, stop_fault, task_fault, text_fault_code};
ghost use Rattle.console.specs.declared.faults.Fault.TheVariants as fault;

use crate::statuses::{REFUSED, STOPPED};
use crate::streams::write_pieces;
use certificate_text::CertFault;
use prog_asm::AsmFault;
use rights::{Memory, Out, Stop};
use simulator::ScheduleFault;
use std::alloc::{AllocError, Global};
use task_reader::TaskFault;

/// Why a program does not do what its words say.
#[derive(Drop)]
pub enum Fault<'a> {
    /// The words are none of its own.
    Words,
    /// The file of this name can't be read.
    File(&'a str),
    /// The text isn't a task's.
    Task(TaskFault),
    /// The text isn't a schedule's.
    Schedule(ScheduleFault),
    /// The text isn't a certificate's.
    Cert(CertFault),
    Memory,
    /// The output failed.
    Output,
}

impl<'a> From<AllocError> for Fault<'a> {
    ghost from_gives = { λ _ given. given ≡ fault.Memory };

    fn from(_error: AllocError) -> Fault<'a> {
        Fault::Memory
    }
}

impl<'a> From<Memory> for Fault<'a> {
    ghost from_gives = { λ _ given. given ≡ fault.Memory };

    fn from(_error: Memory) -> Fault<'a> {
        Fault::Memory
    }
}

impl<'a> From<Stop> for Fault<'a> {
    ghost from_gives = { λ stop given. given ≡ stop_fault stop };

    fn from(stop: Stop) -> Fault<'a> {
        match stop {
            Stop::Device => Fault::Output,
            Stop::Memory | Stop::Spent => Fault::Memory,
        }
    }
}

impl<'a> From<TaskFault> for Fault<'a> {
    ghost from_gives = { λ error given. given ≡ fault.Task error };

    fn from(fault: TaskFault) -> Fault<'a> {
        Fault::Task(fault)
    }
}

impl<'a> From<ScheduleFault> for Fault<'a> {
    ghost from_gives = { λ error given. given ≡ fault.Schedule error };

    fn from(fault: ScheduleFault) -> Fault<'a> {
        Fault::Schedule(fault)
    }
}

impl<'a> From<text_checker::Fault> for Fault<'a> {
    ghost from_gives = { λ error given. given ≡ text_fault_code error };

    fn from(fault: text_checker::Fault) -> Fault<'a> {
        match fault {
            text_checker::Fault::Task(fault) => Fault::Task(fault),
            text_checker::Fault::Cert(fault) => Fault::Cert(fault),
        }
    }
}

/// The status of a fault: 2 of one in words or files, 3 of want of memory and of a failed output. (own)
pub fn status_of(fault: &Fault<'_>) -> u8
    ensures { result ≡ fault_status (fault_of fault.now) }
{
    match fault {
        Fault::Memory
        | Fault::Output
        | Fault::Task(TaskFault::Memory)
        | Fault::Task(
            TaskFault::Asm {
                fault: AsmFault::Memory,
                ..
            },
        )
        | Fault::Schedule(ScheduleFault::Memory)
        | Fault::Cert(CertFault::Memory) => STOPPED,
        Fault::Words | Fault::File(_) | Fault::Task(_) | Fault::Schedule(_) | Fault::Cert(_) =>
            REFUSED,
    }
}

/// The words for the fault of a program's text.
fn words_of_program(alloc: Global, program: &str, fault: AsmFault) -> Result<String, AllocError>
    ensures { IfOk result (λ words. string_bytes words ≡ fault_words (program_fault program.now (text_fault fault))) }
{
    let Some(line) = fault.line() else {
        return String::from_str(alloc, "memory");
    };
    let (number, name) = (fault.number(), fault.name());
    format!(in alloc; "task 6 Asm {program}:{line} {number} {name}")
}

/// The words for the fault of a task.
fn words_of_task(alloc: Global, fault: &TaskFault) -> Result<String, AllocError>
    ensures { IfOk result (λ words. string_bytes words ≡ fault_words (task_fault fault.now)) }
{
    match fault {
        TaskFault::Memory => String::from_str(alloc, "memory"),
        TaskFault::Asm { program, fault } => words_of_program(alloc, program.as_str(), *fault),
        TaskFault::NotToml
        | TaskFault::Field
        | TaskFault::Node
        | TaskFault::Grant
        | TaskFault::Descriptor
        | TaskFault::Limit => {
            let (number, name) = (fault.number(), fault.name());
            format!(in alloc; "task {number} {name}")
        }
    }
}

/// The words for a fault.
pub fn words_of(alloc: Global, fault: &Fault<'_>) -> Result<String, AllocError>
    ensures { IfOk result (λ words. string_bytes words ≡ fault_words (fault_of fault.now)) }
{
    match fault {
        Fault::Words => String::from_str(alloc, "words"),
        Fault::File(name) => format!(in alloc; "file {name}"),
        Fault::Task(fault) => words_of_task(alloc, fault),
        Fault::Schedule(ScheduleFault::Line(line)) => format!(in alloc; "schedule 1 Line {line}"),
        Fault::Schedule(ScheduleFault::Limit) => String::from_str(alloc, "schedule 2 Limit"),
        Fault::Cert(CertFault::Syntax(offset)) => format!(in alloc; "cert 1 Syntax at {offset}"),
        Fault::Cert(CertFault::Limit(offset)) => format!(in alloc; "cert 2 Limit at {offset}"),
        Fault::Cert(CertFault::Order(offset)) => format!(in alloc; "cert 3 Order at {offset}"),
        Fault::Memory | Fault::Schedule(ScheduleFault::Memory) | Fault::Cert(CertFault::Memory) =>
            String::from_str(alloc, "memory"),
        Fault::Output => String::from_str(alloc, "output"),
    }
}

/// Writes the line by which a program of this name tells a fault in these words. It takes no memory.
pub(crate) fn write_line<V: Out>(name: &str, words: &str, err: &mut V) -> Result<(), Stop>
    requires { V.faults err.old < 2 ^ 64 - 1 }
    ensures { Writes result (V.taken err.old) (V.taken err.new) (V.faults err.old) (V.faults err.new) (told_line name.now words.now) }
{
    write_pieces(err, &[name.as_bytes(), b": ", words.as_bytes(), b"\n"])
}

/// Tells a fault as the program of this name, and gives its status, which a failure of this writer doesn't change. Where there is
/// no memory for the words of a fault, want of memory is told in its place, with the status of that.
pub fn tell<V: Out>(alloc: Global, name: &str, fault: &Fault<'_>, err: &mut V) -> u8
    requires { V.faults err.old < 2 ^ 64 - 1 }
    ensures { IsTold name.now (fault_of fault.now) result (V.taken err.old) (V.taken err.new) (V.faults err.old) (V.faults err.new) }
{
    match words_of(alloc, fault) {
        Ok(words) => {
            let _ = write_line(name, words.as_str(), err);
            status_of(fault)
        }
        Err(_) => {
            let _ = write_line(name, "memory", err);
            STOPPED
        }
    }
}
