//! Path lookup: what a path leads to, beneath a directory or in all of the tree, through symbolic links.
//!
//! A `Walk` takes one name at an event, and reads the tree as it is then (`specs/Walks`, `specs/ByNodes`). `find` goes on to the
//! end on one tree. What it answers is told by definitions that know places alone (`specs/ByPlaces`), and is
//! exact both ways.
#![tactic(auto)]

pub mod at_once;
pub mod faults;
pub mod lookups;
mod names;
pub mod paths;
mod trail;
pub mod walk;
pub mod ways;

pub use at_once::find_name;
pub use faults::PathFault;
pub use lookups::find;
pub use paths::last_name;
pub use walk::Walk;
pub use ways::{Found, Last, Progress, Stand, Way};
