//! Why not, and where, in words: all rules that a certificate breaks with what each compares, what the search came to where it finds none, where the
//! faults of a task's text are, and the listing of a task's programs with remarks. Nothing of it is needed to believe a yes of `capcheck`.
#![tactic(auto)]

mod arriving;
mod authority_rules;
mod breaking;
mod call_rules;
mod covering;
pub mod failing;
mod folding;
pub mod listing;
pub mod observations;
mod older;
pub mod refusing;
pub mod remarking;
pub mod renewing;
pub mod rule_texts;
pub mod scenes;
pub mod sentences;
mod starting;
pub mod task_faults;
pub mod topics;
pub mod warning;

pub use failing::add_unfound;
pub use listing::add_listing;
pub use observations::{Observation, add_points, line_of};
pub use refusing::findings_text;
pub use remarking::{program_remarks, task_remarks};
pub use renewing::renewed;
pub use rule_texts::{rule_advice, rule_title};
pub use scenes::{Place, Scene};
pub use sentences::{finding_words, rule_words};
pub use task_faults::add_task_faults;
pub use topics::{REMARK_TOPICS, Topic};
pub use warning::program_warnings;
