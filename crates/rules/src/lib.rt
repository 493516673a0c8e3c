//! The rules that a certificate meets at each point of a task's programs, from K1 to K22, as definitions in `specs/`, and laws
//! of them.
#![tactic(auto)]

pub mod laws;
