//! What `capwhy` answers to its words. Nothing of it is needed to believe a yes of `capcheck`.
#![tactic(auto)]

pub mod answering;
mod answers;
mod attacking;
mod breaching;
mod following;
mod known_bounds;
pub mod laws;
mod learning;
mod leaving;
mod paging;
mod parting;
mod placing_words;
mod planning;
pub mod questions;
mod recording;
mod refusals;
mod scanning;
mod showing;
pub mod usage;

pub use answering::serve;
pub use questions::{Question, read_question};
pub use usage::NAME;
