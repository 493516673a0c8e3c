//! Recorded calls: what is kept of a recorded run of a program, and its text, one spelling for each. And what the lines that strace and
//! truss write tell, and what calls they are.
#![tactic(auto)]

mod argument_parts;
mod argument_values;
mod beginnings;
mod bindings;
mod descriptor_calls;
pub mod entries;
pub mod faults;
mod forms;
mod held;
mod joined_runs;
mod known;
mod limiting;
mod line_accounts;
pub mod line_texts;
mod logs;
mod name_calls;
mod names;
mod opening;
pub mod operands;
mod other_rights;
mod pairing;
mod process_calls;
mod processes;
mod quoting;
mod reader;
pub mod reading;
mod real_calls;
pub mod recorded;
mod runs;
mod seen_calls;
mod strace;
mod strace_headers;
mod strace_results;
mod strace_texts;
mod streaming;
mod strings;
mod taken_calls;
mod taking;
mod targets;
mod truss;
mod wants;
mod watching;
mod words;
pub mod writing;

pub use beginnings::first_processes;
pub use entries::{
    Binding, Entry, Event, LeftOut, MadeCall, Outcome, Reason, RecordedEnd, Span, WantedRight,
};
pub use faults::CallsFault;
pub use joined_runs::another_run;
pub use line_texts::add_event;
pub use operands::{Kind, Operand};
pub use reading::read_calls;
pub use recorded::{Recorded, recorded_calls};
pub use writing::write_calls;
