//! The program but for its `main`: `serve` does what the words ask for with the files that they name, or tells why not.
//!
//! Without words it writes the trace of an example; for `run TASK SCHEDULE` the trace of a task over the events of a
//! schedule; for `check TASK CERT` the verdict on a task with a certificate; for `report TASK CERT` what an accepted certificate
//! says of the task's grants, or the verdict that it isn't accepted; for `search TASK` a certificate that is found for a task, or
//! `none`; for `expand TASK CERT` a certificate with all bounds that it leaves to be carried. TASK, SCHEDULE and CERT name files.
#![tactic(auto)]

pub mod example;
pub mod expanding;
pub mod judging;
pub mod laws;
pub mod proposing;
pub mod reporting;
pub mod serving;

pub use example::example_task;
pub use expanding::write_expansion;
pub use judging::write_verdict;
pub use proposing::propose;
pub use reporting::{report, write_answer};
pub use serving::{NAME, serve};
