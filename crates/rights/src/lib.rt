//! What every layer of Capcheck speaks of: sets of rights and of fcntl commands, the system calls
//! by name, what each needs of a descriptor's rights, errors with their causes, the operations of a
//! policy, the sides of a socket pair, the limits, and the writer that a trace or a certificate goes to.
#![tactic(auto)]

pub mod calls;
pub mod errors;
pub mod limits;
mod named_rights;
pub mod need_table;
pub mod opens;
pub mod operations;
pub mod output;
pub mod sets;
pub mod sides;
pub mod stops;
pub mod uses;

pub use calls::Call;
pub use errors::{Cause, Errno};
pub use need_table::{Position, command_needed, needs};
pub use opens::OpenFlags;
pub use operations::{Op, RightOperation, operations_of_rights};
pub use output::{Out, OutFault, write_all};
pub use sets::{Fcntls, Rights};
pub use sides::Side;
pub use stops::{Memory, Stop};
pub use uses::{acts_beneath, companions_of, is_further_right, operation_of_use, reaches_globally};
