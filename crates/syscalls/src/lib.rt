//! The system calls: what each answers, does and leaves, in code.
#![tactic(auto)]

mod bytes;
mod calls;
mod changes;
mod descriptors;
pub mod effects;
pub mod events;
mod kernels;
mod lookups;
mod names;
mod opening;
mod operands;
pub mod outcomes;
mod processes;
mod sockets;
mod uses;
pub mod world;

pub use effects::Effects;
pub use events::Event;
pub use outcomes::{Effect, Outcome};
pub use world::{Called, World, call};
