//! What the program is asked to do, by its words.
#![tactic(auto)]

mod commands;
pub mod faults;
pub mod orders;
pub mod reading;

pub use faults::WordsFault;
pub use orders::Order;
pub use reading::read_order;
