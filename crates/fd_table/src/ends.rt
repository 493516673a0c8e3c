//! Socket pairs and their ends.

ghost use Rattle.std.specs.Prelude.{◌≡◌};

use crate::descriptors::Descriptor;
use rights::Side;
use std::marker::Model;

/// The number of a socket pair. It may name another pair once no end is open and nothing is on its way. (own)
#[derive(Clone, Copy, PartialEq, Eq)]
pub struct PairId {
    number: usize,
}

impl Model for PairId {
    ghost use Rattle.std.specs.Prelude.{ℕ};

    ghost Value = { ℕ };

    ghost view = { λ p. p.number };

    ghost inverse = { λ n. record { number = n } };
}

impl PairId {
    /// The pair of a number.
    pub(crate) fn at(number: usize) -> PairId
        ensures { result ≡ number }
    {
        PairId { number }
    }

    /// The pair's number.
    pub(crate) fn number(self) -> usize
        ensures { result ≡ self }
    {
        self.number
    }
}

/// An end of a pair.
#[derive(Clone, Copy, PartialEq, Eq)]
pub struct End {
    pub pair: PairId,
    pub side: Side,
}

/// What stands first in a queue: its byte, and whether a descriptor comes with it. (own)
#[derive(Clone, Copy, PartialEq, Eq)]
pub struct Front {
    pub byte: u8,
    pub carries: bool,
}

/// A byte on its way through a pair, with or without a descriptor. (sendmsg(2))
#[derive(Clone, Copy, PartialEq, Eq)]
pub struct Message {
    pub byte: u8,
    pub passed: Option<Descriptor>,
}
