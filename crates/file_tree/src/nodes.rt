//! What a node is, and how it is named.

ghost use Rattle.std.specs.Prelude.{◌≡◌, ◌<◌, ◌^◌};

use std::marker::Model;

/// The number of a node in its tree: how many were made before it. It never names another node. (own)
#[derive(Clone, Copy, PartialEq, Eq)]
pub struct NodeId {
    number: u16,
}

impl Model for NodeId {
    ghost use Rattle.std.specs.Prelude.{ℕ};

    ghost Value = { ℕ };

    ghost view = { λ n. n.number };

    ghost inverse = { λ n. record { number = n } };
}

impl NodeId {
    /// The node of a number, for those who keep a tree. (own)
    pub fn at(number: usize) -> NodeId
        requires { number < 2 ^ 16 }
        ensures { result ≡ number }
    {
        NodeId {
            number: number as u16,
        }
    }

    /// The node's number, from 0, the root's, up to 1023.
    pub fn number(self) -> usize
        ensures { result ≡ self }
    {
        self.number as usize
    }
}

/// What a node is. Other kinds aren't in this profile. (own)
#[derive(Clone, Copy, PartialEq, Eq)]
pub enum Kind {
    File,
    Dir,
    /// A symbolic link.
    Link,
}

/// A node that is to be made: an empty file, an empty directory, or a symbolic link with its target.
#[derive(Clone, Copy)]
pub enum New<'a> {
    File,
    Dir,
    Link(&'a [u8]),
}
