//! The checker: whether a certificate meets the rules K1 to K22 at every point of a task's programs. `check` answers, and
//! names the first rule that is broken; `all_findings` lists all that are; `expand` writes out the bounds that a certificate of versions 2 to 4 leaves to be carried.
#![tactic(auto)]

pub mod allowances;
mod arrivals;
mod asked;
mod at_once;
mod carrying;
pub mod expanding;
pub mod findings;
mod keeping;
pub mod laws;
pub mod points;
pub mod rule;
pub mod starts;
pub mod uses;
pub mod verdicts;

pub use allowances::{Allowance, allowance_at, ceiling_at};
pub use expanding::{expand, is_expanded};
pub use findings::{BrokenRule, all_findings};
pub use points::{code_named, instruction_at, is_named};
pub use rule::{AuthorityRule, CallRule, Rule, SlotRule};
pub use uses::KeepsRule;
pub use verdicts::{Verdict, check};
