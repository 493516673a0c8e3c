//! The model of the kernel: what each system call answers and changes, as definitions in `specs/`, and laws of them
//! all.
#![tactic(auto)]

pub mod laws;
