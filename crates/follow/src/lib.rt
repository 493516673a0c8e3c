//! Whether a run of a task shows the calls of a record, and the search for one that does.
//!
//! That a run shows them is told by `shows` alone, whose contract ties it to the definition in `specs/Shows.antt`. How the run was found
//! needs no belief.
#![tactic(auto)]

mod branching;
pub mod checking;
mod digests;
pub mod excused;
pub mod following;
mod given;
pub mod laws;
mod leads;
pub mod numbers;
mod outcomes;
pub mod places;
pub mod progress;
mod prospects;
mod streams;
mod transfers;
pub mod witnesses;
mod worlds;

pub use checking::shows;
pub use excused::{Tally, tallied};
pub use following::{AtPoint, Followed, Parted, follow};
pub use numbers::ProcessPair;
pub use places::Placing;
pub use progress::counted;
pub use witnesses::{Move, Witness, events_of};
