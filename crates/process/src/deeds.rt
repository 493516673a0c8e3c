//! What a process is made to do that doesn't follow its program.

use instruction_set::Instruction;
use rights::limits::REGISTERS;

/// An instruction, whatever the program has at the process's point, with the registers and the point that the process has
/// afterwards. (own)
#[derive(Drop)]
pub struct Deed {
    pub instruction: Instruction,
    pub registers: [u32; REGISTERS],
    pub point: u8,
}
