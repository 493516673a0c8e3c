//! What a system call is, in one place: its arguments by what they are for, what it works on, what its success makes, changes, passes and answers, and
//! what it may do as a policy counts it. Whoever explains, searches or draws calls asks this crate.
#![tactic(auto)]

pub mod arguments;
pub mod facts;
pub mod looking;
pub mod operations;
pub mod sets;
pub mod words;

pub use arguments::{
    Argument, Arguments, arguments_of, first_operand, first_path, is_given, opening_flags,
    second_operand, second_path, value_operand,
};
pub use facts::{
    Answer, NameChange, Passed, Role, Scope, TableChange, answer_of, beneath, concerns_mode,
    descriptor_count, forks, frees, is_of_mode, may_be_refused, moves_name, name_change, passed_by,
    roles_of, scope_of, table_change,
};
pub use looking::looks_at;
pub use operations::first_operations;
pub use words::{add_argument, add_call};
