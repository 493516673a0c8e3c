//! Reads and writes that were shown, and those that repeat them.

ghost use Rattle.std.specs.Prelude.{◌≡◌, option_map};
ghost use Rattle.call_facts.specs.FactViews.{passed_seen};
ghost use Rattle.instruction_set.specs.Views.{syscall_of};
ghost use Rattle.simulator.specs.Views.{result_of};
ghost use Rattle.follow.specs.Outcomes.{is_repeat, repeatable, repeats_from, same_transfer, transfer_by, transfer_in, transfer_through};
ghost use Rattle.follow.specs.Views.{history_of, past_of, transfer_of};

use crate::given::value_of;
use call_facts::{Passed, first_operand, passed_by};
use instruction_set::Syscall;
use rights::Call;
use rights::limits::REGISTERS;
use simulator::LineResult;

/// A read or a write through a descriptor of a task's process.
#[derive(Clone, Copy)]
pub(crate) enum Transfer {
    Read(u32),
    Write(u32),
}

/// A call of the record that was shown by a process of the task.
#[derive(Clone, Copy)]
pub(crate) struct Past {
    pub process: usize,
    pub transfer: Option<Transfer>,
}

impl Transfer {
    /// Whether it is the same.
    fn is(self, other: Transfer) -> bool
        ensures { result ≡ same_transfer (transfer_of self) (transfer_of other) }
    {
        match (self, other) {
            (Transfer::Read(descriptor), Transfer::Read(other))
            | (Transfer::Write(descriptor), Transfer::Write(other)) => descriptor == other,
            _ => false,
        }
    }
}

/// What is transferred through a descriptor by what is passed.
fn transfer_through(passed: Passed, descriptor: u32) -> Option<Transfer>
    ensures { option_map transfer_of result ≡ transfer_through (passed_seen passed) descriptor }
{
    match passed {
        Passed::ByteIn => Some(Transfer::Read(descriptor)),
        Passed::ByteOut => Some(Transfer::Write(descriptor)),
        Passed::DescriptorIn | Passed::DescriptorOut | Passed::Nothing => None,
    }
}

/// Whether a call passes a byte.
pub(crate) fn passes_byte(call: Call) -> bool {
    matches!(passed_by(call), Passed::ByteIn | Passed::ByteOut)
}

/// What a call transfers that succeeds.
fn transfer_by(registers: &[u32; REGISTERS], call: &Syscall) -> Option<Transfer>
    ensures { option_map transfer_of result ≡ transfer_by registers.now (syscall_of call.now) }
{
    match first_operand(call) {
        Some(descriptor) => {
            transfer_through(passed_by(call.call()), value_of(registers, descriptor))
        }
        None => None,
    }
}

/// What was transferred in a step, if it succeeded.
pub(crate) fn transfer_in(
    registers: &[u32; REGISTERS],
    call: Option<&Syscall>,
    outcome: LineResult,
) -> Option<Transfer>
    ensures { option_map transfer_of result ≡ transfer_in registers.now (option_map (λ c. syscall_of c.now) call.entry) (result_of outcome) }
{
    let Some(call) = call else {
        return None;
    };
    match outcome {
        LineResult::Value(_) => transfer_by(registers, call),
        _ => None,
    }
}

/// Whether a transfer may be repeated behind a call that was shown, if it could before.
fn is_repeatable(transfer: Transfer, before: bool, shown: Option<Transfer>) -> bool
    ensures { result ≡ repeatable (transfer_of transfer) before (option_map transfer_of shown) }
{
    match shown {
        None => false,
        Some(shown) => before || shown.is(transfer),
    }
}

/// Whether a transfer of a process was shown since its last call that is no transfer.
pub(crate) fn is_repeat(history: &[Past], process: usize, transfer: Option<Transfer>) -> bool
    ensures { result ≡ is_repeat (history_of history.now) process (option_map transfer_of transfer) }
{
    let Some(transfer) = transfer else {
        return false;
    };
    let mut repeats = false;
    for past in history {
        if past.process == process {
            repeats = is_repeatable(transfer, repeats, past.transfer);
        }
    }
    repeats
}
