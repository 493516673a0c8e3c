//! Which registers instructions look at.

ghost use Rattle.std.specs.Prelude.{◌≡◌};
ghost use Rattle.call_facts.specs.Looking.{looks_at};
ghost use Rattle.instruction_set.specs.Views.{instruction_of};

use crate::arguments::is_given;
use instruction_set::{Instruction, Register};

/// Whether an instruction looks at a register: what it does goes by what the register holds. (own)
pub fn looks_at(instruction: &Instruction, register: Register) -> bool
    ensures { result ≡ looks_at register (instruction_of instruction.now) }
{
    let number = register.number();
    match instruction {
        Instruction::Mov { source, .. } => source.number() == number,
        Instruction::Add {
            register: own,
            addend,
        } => own.number() == number || addend.number() == number,
        Instruction::Jeq { register: own, .. } | Instruction::Jlt { register: own, .. } => {
            own.number() == number
        }
        Instruction::Invoke { call, .. } => is_given(call, register),
        Instruction::Set { .. } | Instruction::In { .. } => false,
        Instruction::Jmp { .. } | Instruction::Halt => false,
    }
}
