//! The simulator: the machine that runs a task step by step, the text of a trace, schedules, and laws of every run.
//!
//! The kernel's model says what a step is; `Machine`, `simulate` and `read_schedule` are tied to it by their contracts.
#![tactic(auto)]

mod actions;
mod building;
mod copies;
mod deeds;
pub mod lines;
pub mod machine;
mod owned;
mod page;
pub mod schedule;
pub mod simulation;
mod starting;
mod steps;
mod trace;

pub use lines::{Acted, Line, LineResult};
pub use machine::Machine;
pub use schedule::{ScheduleFault, read_schedule};
pub use simulation::simulate;
