//! Tasks: a file tree, a policy, programs and first processes as one value, and the world that it starts in.
#![tactic(auto)]

pub mod grants;
pub mod laws;
pub mod nodes;
pub mod policies;
pub mod programs;
pub mod starts;
pub mod tasks;

pub use grants::Grant;
pub use nodes::{TaskNode, node_begins, node_text};
pub use policies::{grant_holds, grant_lists, grant_named};
pub use programs::{NamedProgram, is_marked, none_marked};
pub use starts::{FirstDescriptor, FirstObject, Start};
pub use tasks::Task;
