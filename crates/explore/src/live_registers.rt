//! Which registers a program may still look at.

use crate::register_sets::{ANSWER, ENDS, ERROR, NONE, RegisterSet};
use call_facts::{TableChange, looks_at, table_change};
use instruction_set::{Instruction, Register, Syscall, successors_at};
use rights::Memory;
use rights::limits::{MAX_INSTRUCTIONS, REGISTERS};
use std::alloc::Global;
use task::Task;

/// The registers that an instruction looks at.
fn looked_at(instruction: &Instruction) -> RegisterSet {
    let mut found = NONE;
    for number in 0..REGISTERS as u8 {
        if let Some(register) = Register::new(number) {
            if looks_at(instruction, register) {
                found = found.with(RegisterSet::one(number));
            }
        }
    }
    found
}

/// The registers that the success of a call sets.
fn answered(call: &Syscall) -> RegisterSet {
    match table_change(call.call()) {
        TableChange::Pair => ENDS,
        _ => ANSWER,
    }
}

/// The registers that may be looked at from an instruction on, by those that may be where it goes on to the next one, and where it jumps.
fn live_before(instruction: &Instruction, next: RegisterSet, other: RegisterSet) -> RegisterSet {
    let later = match instruction {
        Instruction::Set { register, .. }
        | Instruction::In { register }
        | Instruction::Mov { register, .. } => { next.without(RegisterSet::one(register.number())) }
        Instruction::Invoke { call, .. } => {
            next.without(answered(call)).with(other.without(ERROR))
        }
        _ => next.with(other),
    };
    later.with(looked_at(instruction))
}

/// The registers of a point, or none where there is no point.
fn live_at(points: &[RegisterSet], point: Option<usize>) -> RegisterSet {
    match point {
        None => NONE,
        Some(point) => points.get(point).copied().unwrap_or(NONE),
    }
}

/// Goes through a program once, from its end. Whether a register was found that wasn't known is told.
fn find_more(code: &[Instruction], points: &mut Vec<RegisterSet>) -> bool {
    let mut is_more = false;
    for point in (0..code.len()).rev() {
        let to = successors_at(code, point);
        let live = live_before(
            &code[point],
            live_at(points, to.next),
            live_at(points, to.other),
        );
        match points.get_mut(point) {
            Some(own) if *own != live => {
                *own = live;
                is_more = true;
            }
            _ => {}
        }
    }
    is_more
}

/// The registers that the programs of a task may look at before they set them, by program and point.
#[derive(Drop)]
pub(crate) struct LiveRegisters {
    programs: Vec<Vec<RegisterSet>>,
}

impl LiveRegisters {
    /// Those of a task.
    pub(crate) fn new(alloc: Global, task: &Task) -> Result<LiveRegisters, Memory> {
        let mut programs = Vec::new(alloc);
        for named in task.programs() {
            let code = named.program.code();
            let mut points = Vec::with_capacity(alloc, code.len())?;
            for _ in code {
                points.push(NONE)?;
            }
            for _ in 0..MAX_INSTRUCTIONS {
                if !find_more(code, &mut points) {
                    break;
                }
            }
            programs.push(points)?;
        }
        Ok(LiveRegisters { programs })
    }

    /// Whether a program may look at the register of a number from a point on.
    pub(crate) fn has(&self, program: u8, point: u8, register: u8) -> bool {
        match self.programs.get(usize::from(program)) {
            None => true,
            Some(points) => live_at(points, Some(usize::from(point))).has(register),
        }
    }
}
