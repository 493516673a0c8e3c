//! The bytes that are tried where a program reads one.

use crate::register_sets::{ANSWER, NONE, RegisterSet};
use call_facts::{Answer, answer_of, value_operand};
use instruction_set::{Instruction, Syscall};
use rights::Memory;
use rights::limits::{MAX_PROGRAMS, REGISTERS};
use std::alloc::Global;
use task::{Task, none_marked};

/// The registers that may hold a byte that was read, by program, and whether such a byte may be where others can ask for it.
#[derive(Drop)]
struct Readers {
    programs: Vec<RegisterSet>,
    is_passed_on: bool,
}

/// Whether the answer of a call may be what was given to another one.
fn gives_back(call: &Syscall) -> bool {
    match answer_of(call.call()) {
        Answer::Byte | Answer::Offset | Answer::StatusFlags => true,
        Answer::Zero | Answer::One | Answer::Kind => false,
        Answer::ModeBit | Answer::Number | Answer::Process => false,
    }
}

/// The registers that may hold a byte that was read behind an instruction, by those that may before it.
fn holding_behind(
    instruction: &Instruction,
    holding: RegisterSet,
    is_passed_on: bool,
) -> RegisterSet {
    match instruction {
        Instruction::In { register } => holding.with(RegisterSet::one(register.number())),
        Instruction::Mov {
            register,
            source: from,
        }
        | Instruction::Add {
            register,
            addend: from,
        } if holding.has(from.number()) => holding.with(RegisterSet::one(register.number())),
        Instruction::Invoke { call, .. } if is_passed_on && gives_back(call) => holding.with(
            ANSWER,
        ),
        _ => holding,
    }
}

/// Whether an instruction writes a byte that was read, or leaves it where another may ask for it.
fn passes_on(instruction: &Instruction, holding: RegisterSet) -> bool {
    match instruction {
        Instruction::Invoke { call, .. } => match value_operand(call) {
            None => false,
            Some(value) => holding.has_some(RegisterSet::of(value)),
        },
        _ => false,
    }
}

impl Readers {
    /// Those of a task.
    fn new(alloc: Global, task: &Task) -> Result<Readers, Memory> {
        let mut programs = Vec::new(alloc);
        for _ in task.programs() {
            programs.push(NONE)?;
        }
        let mut readers = Readers {
            programs,
            // (an attacker writes what it likes)
            is_passed_on: !none_marked(task.programs()),
        };
        for _ in 0..MAX_PROGRAMS * REGISTERS + 1 {
            if !readers.find_more(task) {
                break;
            }
        }
        Ok(readers)
    }

    /// Goes through all programs once. Whether something was found that wasn't known is told.
    fn find_more(&mut self, task: &Task) -> bool {
        let mut is_more = false;
        for (own, named) in self.programs.iter_mut().zip(task.programs()) {
            let mut holding = *own;
            for instruction in named.program.code() {
                holding = holding_behind(instruction, holding, self.is_passed_on);
                if !self.is_passed_on && passes_on(instruction, holding) {
                    self.is_passed_on = true;
                    is_more = true;
                }
            }
            if *own != holding {
                *own = holding;
                is_more = true;
            }
        }
        is_more
    }

    /// Whether a program tells this byte from others.
    fn compare(&self, task: &Task, byte: u8) -> bool {
        for (holding, named) in self.programs.iter().zip(task.programs()) {
            if is_compared(named.program.code(), *holding, byte) {
                return true;
            }
        }
        false
    }
}

/// Whether some comparison in a program of a register that may hold a byte tells this byte from others: it is with this byte, or with whether it is
/// less than the byte or the next one. Where such bytes are added up, those beside a value count too.
fn is_compared(code: &[Instruction], holding: RegisterSet, byte: u8) -> bool {
    let adds = code.iter().any(|instruction| match instruction {
        Instruction::Add { register, .. } => holding.has(register.number()),
        _ => false,
    });
    let byte = u64::from(byte);
    for instruction in code {
        let (register, value, before) = match instruction {
            Instruction::Jeq {
                register,
                value,
                ..
            } => (*register, *value, false),
            Instruction::Jlt {
                register,
                value,
                ..
            } => (*register, *value, true),
            _ => continue,
        };
        let value = u64::from(value);
        let is_told = byte == value
            || (before || adds) && byte + 1 == value
            || adds && byte == value + 1;
        if is_told && holding.has(register.number()) {
            return true;
        }
    }
    false
}

/// The bytes that are tried for `in`, and that attackers write: those that some program tells from others, and the first of the others.
pub(crate) fn bytes_to_try(alloc: Global, task: &Task) -> Result<Vec<u8>, Memory> {
    let readers = Readers::new(alloc, task)?;
    let mut bytes = Vec::new(alloc);
    let mut has_other = false;
    for byte in 0..=255 {
        let is_compared = readers.compare(task, byte);
        if is_compared || !has_other {
            bytes.push(byte)?;
        }
        has_other = has_other || !is_compared;
    }
    Ok(bytes)
}
