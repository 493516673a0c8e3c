//! What programs have in common that do what their words say: the words, the files of the system, the two streams, the statuses, and
//! the faults with the lines that tell them behind the program's name.
#![tactic(auto)]

pub mod faults;
pub mod sessions;
pub mod sources;
pub mod statuses;
pub mod streams;

pub use faults::{Fault, tell, words_of};
pub use sessions::Session;
pub use sources::{Disk, Source, fetched};
pub use statuses::status_of_verdict;
pub use streams::{ClosedPipe, Console, Pipe, closed, write_bytes, write_pieces};
