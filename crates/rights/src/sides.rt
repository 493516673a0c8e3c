//! The two sides of a socket pair.

ghost use Rattle.std.specs.Prelude.{◌≡◌, ◌==◌};
ghost use Rattle.std.specs.Ordering.{nat_cmp};
ghost use Rattle.rights.specs.Sides.{other_side};
ghost use Rattle.rights.specs.Views.{side_seen};

use std::cmp::Ordering;

/// One of the two sides of a socket pair. (socketpair(2); the names are own)
#[derive(Clone, Copy, PartialEq, Eq)]
pub enum Side {
    A,
    B,
}

impl Side {
    /// The other one.
    pub fn other(self) -> Side
        ensures { side_seen result ≡ other_side (side_seen self) }
    {
        match self {
            Side::A => Side::B,
            Side::B => Side::A,
        }
    }

    /// Whether it is the same side.
    pub fn is(self, other: Side) -> bool
        ensures { result ≡ (side_seen self == side_seen other) }
    {
        match (self, other) {
            (Side::A, Side::A) | (Side::B, Side::B) => true,
            (Side::A, Side::B) | (Side::B, Side::A) => false,
        }
    }

    /// How it stands to another: `A` is before `B`.
    pub fn compare(self, other: Side) -> Ordering
        ensures { result ≡ nat_cmp (side_seen self) (side_seen other) }
    {
        match (self, other) {
            (Side::A, Side::A) | (Side::B, Side::B) => Ordering::Equal,
            (Side::A, Side::B) => Ordering::Less,
            (Side::B, Side::A) => Ordering::Greater,
        }
    }
}
