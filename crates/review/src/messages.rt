//! Which step takes what an earlier one sent.

use crate::room::Room;
use call_facts::{Passed, first_operand, passed_by};
use fd_table::{End, Files, Object};
use instruction_set::{Instruction, Operand, Syscall};
use link_tree::LinkTree;
use page::Message;
use process::Process;
use simulator::Machine;
use task::Task;

/// What a call does with a queue.
#[derive(Clone, Copy)]
pub(crate) enum Traffic {
    Nothing,
    /// It sends from an end, a descriptor or a byte alone.
    Sends { end: End, carries: bool },
    /// It takes what was sent to an end.
    Takes { end: End, carries: bool },
}

/// What was sent from an end and isn't taken yet.
#[derive(Clone, Copy)]
struct Sent {
    end: End,
    message: Message,
}

/// What was sent and isn't taken yet.
#[derive(Drop)]
pub(crate) struct Queues {
    sent: Vec<Sent>,
}

impl Queues {
    /// Nothing was sent.
    pub(crate) fn new(room: &Room) -> Queues {
        Queues { sent: room.list() }
    }

    /// Notes what a step sends, or gives which message it takes.
    pub(crate) fn pass(
        &mut self,
        room: &mut Room,
        traffic: Traffic,
        step: usize,
    ) -> Option<Message> {
        match traffic {
            Traffic::Nothing => None,
            Traffic::Sends { end, carries } => {
                let message = Message {
                    sent_at: step,
                    is_descriptor: carries,
                };
                room.push(&mut self.sent, Sent { end, message });
                None
            }
            Traffic::Takes { end, .. } => self.take(end),
        }
    }

    /// Takes the first message that was sent from the other end of a pair.
    fn take(&mut self, end: End) -> Option<Message> {
        let other = End {
            pair: end.pair,
            side: end.side.other(),
        };
        for place in 0..self.sent.len() {
            if self.sent[place].end == other {
                let sent = self.sent.remove(place);
                return Some(sent.message);
            }
        }
        None
    }
}

/// The value of an operand.
fn value_of(process: &Process, operand: Operand) -> u32 {
    match operand {
        Operand::Number(number) => number,
        Operand::Register(register) => process.registers[register.number() as usize],
    }
}

/// What the descriptor of a process at a number is of, if there is one.
fn object_at(files: &Files, process: u8, number: u8) -> Option<Object> {
    match files.get(process, number) {
        None => None,
        Some(descriptor) => {
            let what = files.what(descriptor.description);
            Some(what.object)
        }
    }
}

/// The end that an operand of a process names, if it names one.
fn end_of(
    machine: &Machine<'_, LinkTree>,
    number: u8,
    process: &Process,
    operand: Operand,
) -> Option<End> {
    let Ok(at) = u8::try_from(value_of(process, operand)) else {
        return None;
    };
    match object_at(machine.files(), number, at) {
        Some(Object::End { end, .. }) => Some(end),
        _ => None,
    }
}

/// The call of an instruction, if it is one.
pub(crate) fn call_in(instruction: &Instruction) -> Option<&Syscall> {
    match instruction {
        Instruction::Invoke { call, .. } => Some(call),
        _ => None,
    }
}

/// The call at which a process stands, if it stands at one.
pub(crate) fn next_call<'t>(
    task: &'t Task,
    machine: &Machine<'_, LinkTree>,
    number: u8,
) -> Option<&'t Syscall> {
    let Some(process) = machine.processes().get(usize::from(number)) else {
        return None;
    };
    let Some(named) = task.programs().get(usize::from(process.program)) else {
        return None;
    };
    match named.program.code().get(usize::from(process.point)) {
        Some(instruction) => call_in(instruction),
        None => None,
    }
}

/// What a process does with a queue by a call that succeeds; nothing where that goes through no end.
pub(crate) fn traffic_of(machine: &Machine<'_, LinkTree>, number: u8, call: &Syscall) -> Traffic {
    let (sends, carries) = match passed_by(call.call()) {
        Passed::ByteOut => (true, false),
        Passed::DescriptorOut => (true, true),
        Passed::ByteIn => (false, false),
        Passed::DescriptorIn => (false, true),
        Passed::Nothing => return Traffic::Nothing,
    };
    let Some(operand) = first_operand(call) else {
        return Traffic::Nothing;
    };
    let Some(process) = machine.processes().get(usize::from(number)) else {
        return Traffic::Nothing;
    };
    match end_of(machine, number, process, operand) {
        None => Traffic::Nothing,
        Some(end) if sends => Traffic::Sends { end, carries },
        Some(end) => Traffic::Takes { end, carries },
    }
}
