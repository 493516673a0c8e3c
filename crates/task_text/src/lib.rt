//! The text of a task as people write it: where each instruction of its programs stands, and where its faults are, each with its line and
//! column, and what was meant. Whether a text is a task's is judged by `task_reader` alone.
#![tactic(auto)]

mod code_faults;
mod code_forms;
mod decoded;
mod faults;
mod field_faults;
mod fields;
mod known_words;
mod near;
mod path_faults;
mod places;
mod program_texts;
mod source_lines;
mod table_faults;
mod tokens;

pub use faults::{TextFault, TextFaults, add_faults, faults_of};
pub use program_texts::{ProgramText, Written, texts_of_file};
pub use source_lines::SourceLine;
