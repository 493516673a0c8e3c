//! What a call needs of the slots that it may go through, where an instruction may lead from a point with a bound, and what
//! it carries on to the next. Each loop over slots or outcomes takes a test as a parameter, and takes no memory.
#![tactic(auto)]

pub mod asks;
mod calls;
pub mod carrying;
pub mod channels;
pub mod demands;
pub mod failing;
mod given;
pub mod instructions;
pub mod intervals;
pub mod outcomes;
pub mod slots;
pub mod successes;
pub mod targets;
pub mod uses;

pub use asks::{SlotTest, UseTest, all_slots_pass, all_uses_pass};
pub use carrying::carried_on;
pub use channels::{HasChannel, all_have_channels, channel_at};
pub use demands::{Demands, demanded, keeps_beneath, keeps_numbers, keeps_single};
pub use failing::{OpenSlot, failing_slots, failing_through};
pub use instructions::{failure, successes_pass};
pub use outcomes::{Change, Outcome};
pub use slots::{FreeNumbers, Takes, free_numbers, is_single, may_be_on, operand_interval};
pub use successes::{OutcomeVisitor, Site};
pub use targets::{may_be_end, may_be_node, unknown_held};
pub use uses::{Need, Needs, Passed, Through, needed};
