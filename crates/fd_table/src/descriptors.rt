//! Descriptors, and the open descriptions that they name.

ghost use Rattle.std.specs.Prelude.{◌≡◌};

use crate::ends::End;
use crate::status::Status;
use file_tree::NodeId;
use rights::{Fcntls, Rights};
use std::marker::Model;

/// The number of an open description. It may name another one once no descriptor names it. (own)
#[derive(Clone, Copy, PartialEq, Eq)]
pub struct DescriptionId {
    number: usize,
}

impl Model for DescriptionId {
    ghost use Rattle.std.specs.Prelude.{ℕ};

    ghost Value = { ℕ };

    ghost view = { λ d. d.number };

    ghost inverse = { λ n. record { number = n } };
}

impl DescriptionId {
    /// The description of a number.
    pub(crate) fn at(number: usize) -> DescriptionId
        ensures { result ≡ number }
    {
        DescriptionId { number }
    }

    /// The description's number.
    pub(crate) fn number(self) -> usize
        ensures { result ≡ self }
    {
        self.number
    }
}

/// A descriptor: the description that it names, and what may be done through it. (rights(4),
/// cap_fcntls_limit(2))
#[derive(Clone, Copy, PartialEq, Eq)]
pub struct Descriptor {
    pub description: DescriptionId,
    pub rights: Rights,
    pub fcntls: Fcntls,
}

/// What a file or directory was opened for. (open(2))
#[derive(Clone, Copy, PartialEq, Eq)]
pub struct Access {
    pub readable: bool,
    pub writable: bool,
}

/// Where a socket pair was made. (own)
#[derive(Clone, Copy, PartialEq, Eq)]
pub enum Class {
    /// Before the start: an initial pair, by its number.
    Initial(u8),
    /// At a point of a program, by the program's place in the task.
    MadeAt { program: u8, point: u8 },
    /// In capability mode by a process of an untrusted program, which need not stand at any point when it makes one.
    MadeBy { program: u8 },
}

/// What a description is of, for as long as it is open.
#[derive(Clone, Copy, PartialEq, Eq)]
pub enum Object {
    /// A file or directory.
    Node { node: NodeId, access: Access },
    /// An end of a socket pair.
    End { end: End, class: Class },
}

/// An open description: all descriptors that name it share it. (open(2))
#[derive(Clone, Copy, PartialEq, Eq)]
pub struct Description {
    pub object: Object,
    /// The offset of the next byte. (lseek(2))
    pub offset: u16,
    pub status: Status,
}

/// An entry of a table: a process, and one of its descriptor numbers. There are sixteen of each. (own)
#[derive(Clone, Copy, PartialEq, Eq)]
pub struct Entry {
    pub process: u8,
    pub number: u8,
}
