//! Certificates as values: a bound on the process at each point of a program that it may reach, and the
//! order of bounds.
#![tactic(auto)]

pub mod authorities;
pub mod blocks;
pub mod bounds;
pub mod certs;
pub mod classes;
pub mod domain;
mod growth;
pub mod laws;
pub mod lines;
pub mod order;
pub mod points;
mod program_names;
mod saying;
mod telling;

pub use authorities::{Authority, Ceiling, End};
pub use blocks::{push_authorities, push_block, push_channels};
pub use bounds::{Bound, FcntlsRange, Held, Interval, ModeBound, RightsRange, Slot, Target};
pub use certs::{Cert, Version};
pub use classes::{Class, Pair};
pub use domain::Domain;
pub use lines::{Channel, Line, Refusal};
pub use order::slots_within;
pub use points::Point;
pub use rights::Side;
pub use saying::{ToldHeld, ToldSlot};
