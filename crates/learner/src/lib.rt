//! A task, of the calls of recorded runs. It is a proposal: nothing is claimed of it here.
#![tactic(auto)]

mod assembly;
mod automata;
mod calls;
mod codes;
mod demands;
mod drafts;
mod entrances;
mod evidence;
mod fates;
mod further;
mod handles;
mod labels;
mod late_starts;
mod learning;
mod libraries;
mod merging;
mod message_counts;
mod names_left;
mod needs;
mod places;
mod plan_left;
mod plan_words;
mod planning;
mod policies;
mod readings;
mod remade;
mod rewriting;
mod room;
mod running;
mod starts;
mod tables;
mod trees;
mod worlds;

pub use learning::{LearnFault, LearntTask, learn};
pub use merging::Renaming;
pub use names_left::add_names_left;
pub use planning::{Planned, plan};
