//! The assembler: the program that a text stands for, or its first fault.
#![tactic(auto)]

mod assembler;
mod call_forms;
mod drafts;
pub mod faults;
mod fields;
mod forms;
mod judging;
mod line_places;
mod lines;
mod lists;
mod mistakes;
mod mnemonics;
mod operand_forms;
mod statements;
mod wrongs;

pub use assembler::{assemble, assemble_wide};
pub use faults::{AsmFault, LineFault, LineMistake};
pub use instruction_set::{Instruction, Operand, Path, Program, Register, Syscall, is_valid_path};
pub use judging::line_faults;
pub use line_places::{LineParts, is_line_of, line_parts};
pub use lines::Span;
pub use mnemonics::{MNEMONICS, Mnemonic};
pub use operand_forms::Form;
