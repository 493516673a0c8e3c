//! The searcher: it proposes a certificate for a task. What it gives the checker accepts.
#![tactic(auto)]

mod authority;
mod channels;
mod drawing;
mod flat;
mod point_states;
mod proposing;
mod rounds;
mod searching;
mod shortening;
mod versions;

pub use proposing::{propose, reached};
pub use searching::search;
