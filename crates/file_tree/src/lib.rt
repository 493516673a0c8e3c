//! The file tree: nodes with their places, as every layer above sees them.
//!
//! A `Tree` is a list of nodes in the order in which they were made. Each has the place that it has, or
//! had when it was removed. The contracts of `Tree` say of each call what becomes of that list, and
//! which changes are refused. The crates `link_tree` and `place_tree` are two ways to keep one; what both of them
//! use is in `contents` and `places`.
#![tactic(auto)]

pub mod contents;
pub mod copies;
pub mod faults;
pub mod names;
pub mod nodes;
pub mod places;
pub mod tree;

pub use copies::CopyTree;
pub use faults::TreeFault;
pub use names::{is_path_name, is_valid_name, is_valid_target};
pub use nodes::{Kind, New, NodeId};
pub use places::{Names, Place, ends_name, lies_at, rest_beneath};
pub use tree::Tree;
