//! The verdict on a task and a certificate, from their texts.
#![tactic(auto)]

pub mod checking;

pub use checking::{Checked, Claim, Fault, check_text, check_texts, read_texts};
