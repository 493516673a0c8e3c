//! What is open: descriptors, the descriptions that they name, and what is on its way through socket pairs.
#![tactic(auto)]

mod copies;
mod descriptions;
pub mod descriptors;
pub mod ends;
mod entries;
pub mod faults;
mod file_tables;
pub mod files;
mod pairs;
pub mod status;

pub use descriptors::{Access, Class, Description, DescriptionId, Descriptor, Entry, Object};
pub use ends::{End, Front, Message, PairId};
pub use faults::SendFault;
pub use files::Files;
pub use rights::Side;
pub use status::Status;
