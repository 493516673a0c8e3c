//! Why `capwhy` doesn't answer, and how it tells that.

ghost use Rattle.std.specs.Prelude.{◌≡◌, ◌<◌, ◌-◌, ◌^◌, IsTrue, false};
ghost use Rattle.console.specs.Statuses.{is_done_status, is_status};
ghost use Rattle.answers.specs.declared.refusals.Refusal.TheVariants as refusal;
ghost use Rattle.console.specs.declared.faults.Fault.TheVariants as fault;

use crate::usage::NAME;
use console::statuses::REFUSED;
use console::{Fault, tell, write_pieces};
use records::CallsFault;
use rights::{Memory, Out, Stop};
use std::alloc::{AllocError, Global};
use task_reader::TaskFault;
use texts::Decimal;

/// Why there is no answer.
#[derive(Drop)]
pub(crate) enum Refusal<'a> {
    /// A fault as `capcheck` has it.
    Common(Fault<'a>),
    /// A line of a text is none of recorded calls: its number, counted from 1, and what is wrong.
    Calls { line: usize, what: &'static str },
}

impl<'a> From<Fault<'a>> for Refusal<'a> {
    fn from(fault: Fault<'a>) -> Refusal<'a> {
        Refusal::Common(fault)
    }
}

impl<'a> From<Memory> for Refusal<'a> {
    fn from(_memory: Memory) -> Refusal<'a> {
        Refusal::Common(Fault::Memory)
    }
}

impl<'a> From<AllocError> for Refusal<'a> {
    fn from(_error: AllocError) -> Refusal<'a> {
        Refusal::Common(Fault::Memory)
    }
}

impl<'a> From<Stop> for Refusal<'a> {
    fn from(stop: Stop) -> Refusal<'a> {
        Refusal::Common(Fault::from(stop))
    }
}

impl<'a> From<text_checker::Fault> for Refusal<'a> {
    fn from(fault: text_checker::Fault) -> Refusal<'a> {
        Refusal::Common(Fault::from(fault))
    }
}

impl<'a> From<TaskFault> for Refusal<'a> {
    fn from(fault: TaskFault) -> Refusal<'a> {
        Refusal::Common(Fault::Task(fault))
    }
}

impl<'a> From<CallsFault> for Refusal<'a> {
    fn from(fault: CallsFault) -> Refusal<'a> {
        match fault {
            CallsFault::Form(line) => Refusal::Calls {
                line,
                what: "1 Form",
            },
            CallsFault::Counts(line) => Refusal::Calls {
                line,
                what: "2 Counts",
            },
            CallsFault::NoEnd(line) => Refusal::Calls {
                line,
                what: "3 NoEnd",
            },
            CallsFault::Behind(line) => Refusal::Calls {
                line,
                what: "4 Behind",
            },
            CallsFault::Memory => Refusal::Common(Fault::Memory),
        }
    }
}

/// Tells on the error stream why there is no answer, and gives the status: that of the fault; of recorded calls 2. A failure of this writer doesn't change it.
pub(crate) fn tell_refusal<V: Out>(alloc: Global, refusal: &Refusal<'_>, err: &mut V) -> u8
    requires { V.faults err.old < 2 ^ 64 - 1 }
    ensures undone { is_done_status result ≡ false }
    ensures known { IsTrue (is_status result) }
{
    match refusal {
        Refusal::Common(fault) => tell(alloc, NAME, fault, err),
        Refusal::Calls { line, what } => {
            let line = Decimal::new(u32::try_from(*line).unwrap_or(u32::MAX));
            let pieces = [
                NAME.as_bytes(),
                b": calls ",
                what.as_bytes(),
                b" ",
                line.as_bytes(),
                b"\n",
            ];
            let _ = write_pieces(err, &pieces);
            REFUSED
        }
    }
}
