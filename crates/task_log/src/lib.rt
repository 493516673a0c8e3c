//! What is found of a task as a log of `sarif`: the rules that a certificate breaks, remarks and warnings, each at its line; or why a text is no task's.
#![tactic(auto)]

pub mod faults;
pub mod findings;
pub mod gathering;
pub mod known_rules;

pub use faults::log_of_faults;
pub use gathering::{Found, log_of_task};
