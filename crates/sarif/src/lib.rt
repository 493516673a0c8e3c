//! Findings as a log of SARIF 2.1.0 (OASIS), which code scanning and editors read.
#![tactic(auto)]

pub mod documents;
pub mod logs;
pub mod uris;

pub use documents::log_text;
pub use logs::{Finding, Level, Log, Place, Rule, RuleId};
