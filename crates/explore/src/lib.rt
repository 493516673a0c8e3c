//! Runs that break a sandbox: what a step breaks, the search for a run that breaks something, and its text.
//!
//! That a run breaks something is told by `breaks` alone, whose contract ties it to what it is to be sandboxed and confined. How the
//! run was found needs no belief.
#![tactic(auto)]

mod aims;
pub mod attack_runs;
pub mod attacks;
pub mod breaches;
pub mod breaking;
pub mod deeds;
mod details;
mod digests;
pub mod distances;
mod explorer;
mod exploring;
pub mod laws;
mod live_registers;
mod machine_cache;
mod moves;
mod policies;
mod readable;
mod register_sets;
mod runners;
mod shrinking;
mod states;
mod trails;
mod trees;
mod tried_bytes;
pub mod writing;

pub use attack_runs::add_attack;
pub use attacks::{AttackAction, AttackActions, Move};
pub use breaches::Breach;
pub use breaking::{breaks, step_by};
pub use deeds::add_deed;
pub use distances::Goal;
pub use exploring::{Explored, FoundAttack, FoundRun, HowFar, Watcher, events_of, explore};
pub use writing::{add_breach, add_schedule, write_breach};
