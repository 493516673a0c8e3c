//! Programs as values.

ghost use Rattle.std.specs.Prelude.{◌≡◌, ◌<◌, ◌≤◌, true, length, slice_get, option_map};
ghost use Rattle.instruction_set.specs.Programs.{is_program};
ghost use Rattle.instruction_set.specs.Views.{code_of, instruction_of};

use crate::instructions::Instruction;
use std::marker::Model;

/// A program, valid by construction: at most 256 instructions, by point from 0 on; each target is a
/// point of the program; each point that needs a next one has it. A clause sees the list of its
/// instructions. (own)
#[derive(Drop)]
pub struct Program {
    code: Vec<Instruction>,
}

impl Model for Program {
    ghost use Rattle.std.specs.Prelude.{◌≡◌, List, true};
    ghost use Rattle.instruction_set.specs.Programs.{Instruction, is_program};

    ghost Value = { List Instruction };

    ghost use Rattle.instruction_set.specs.Views.{code_of};

    ghost view = { λ p. code_of p.code.items };

    ghost invariant = { λ p. is_program (code_of p.code.items) ≡ true };
}

impl Program {
    /// The program of these instructions, which its caller knows to be valid.
    pub fn new(code: Vec<Instruction>) -> Program
        requires { is_program (code_of code.items) ≡ true }
        ensures { result ≡ code_of code.items }
    {
        Program { code }
    }

    /// The instructions by point.
    pub fn code(&self) -> &[Instruction]
        ensures value { code_of result.now ≡ self.now }
        ensures valid { is_program self.now ≡ true }
    {
        &self.code
    }
}
