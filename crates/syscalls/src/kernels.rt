//! The kernel as a call finds it.

ghost use Rattle.std.specs.Prelude.{◌%◌, ◌≡◌};
ghost use Rattle.syscalls.specs.AnswerViews.{value_at};

use fd_table::Files;
use file_tree::Tree;
use instruction_set::Operand;
use process::Process;
use std::alloc::Global;

/// Who calls: the process, its number, how many processes were made, and whether the kernel refuses at this event.
#[derive(Clone, Copy)]
pub(crate) struct Caller<'a> {
    pub number: u8,
    pub process: &'a Process,
    pub made: usize,
    pub refuse: bool,
}

/// The kernel as a call finds it: the tree, what is open, and who calls. Each call is a method, which tests first and then
/// does what it does. No process is changed or made yet.
#[derive(Drop)]
pub(crate) struct Kernel<'w, T: Tree> {
    pub tree: &'w mut T,
    pub files: &'w mut Files,
    pub caller: Caller<'w>,
    pub alloc: Global,
}

impl<T: Tree> Kernel<'_, T> {
    /// What an operand stands for: what its register holds, or a number itself. (own)
    pub fn value_of(&self, operand: Operand) -> u32
        ensures { result ≡ value_at self.now operand }
    {
        let process = self.caller.process;
        match operand {
            Operand::Register(register) => process.registers[register.number() as usize],
            Operand::Number(number) => number,
        }
    }

    /// The low byte of what an operand stands for. (own)
    pub fn byte_of(&self, operand: Operand) -> u8
        ensures { result ≡ value_at self.now operand % 256 }
    {
        (self.value_of(operand) % 256) as u8
    }
}
