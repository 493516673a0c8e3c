//! Programs over the system calls of a Capsicum sandbox, and the language in which they are written.
#![tactic(auto)]

pub mod call_needs;
mod copies;
pub mod instructions;
pub mod languages;
pub mod operands;
pub mod programs;
pub mod successors;

pub use instructions::{Instruction, Syscall};
pub use languages::is_spoken;
pub use operands::{Operand, Path, Register, is_valid_path};
pub use programs::Program;
pub use successors::{Successors, enters_mode, successors_at};
