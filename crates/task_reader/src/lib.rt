//! How a task is read from a TOML document.
#![tactic(auto)]

mod assembling;
mod descriptors;
mod documents;
pub mod faults;
mod fields;
mod indexes;
pub mod laws;
mod limits;
mod paths;
mod placed_grants;
mod placed_starts;
mod readers;
pub mod reading;
mod trees;
mod words;
mod written;

pub use faults::TaskFault;
pub use reading::read_task;
