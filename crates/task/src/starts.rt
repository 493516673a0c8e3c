//! The first processes of a task.

use fd_table::{Access, Side};
use rights::{Fcntls, Rights};

/// What a first descriptor is of.
#[derive(Clone, Copy, PartialEq, Eq)]
pub enum FirstObject {
    /// A file or directory of the task, by its place in the list of nodes, for reading or writing. (open(2))
    Node { node: u16, access: Access },
    /// A side of a socket pair that the task starts with, 0 to 31. (socketpair(2))
    End { pair: u8, side: Side },
}

/// A descriptor that a process starts with. Those of one side of a pair share its description; each other has one of its
/// own. (rights(4), cap_fcntls_limit(2))
#[derive(Clone, Copy, PartialEq, Eq)]
pub struct FirstDescriptor {
    pub number: u8,
    pub object: FirstObject,
    pub rights: Rights,
    pub fcntls: Fcntls,
}

/// A first process.
#[derive(Drop)]
pub struct Start {
    /// The program's place in the task.
    pub program: u8,
    /// Whether it starts in capability mode.
    pub mode: bool,
    pub descriptors: Vec<FirstDescriptor>,
}
