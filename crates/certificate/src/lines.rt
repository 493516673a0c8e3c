//! The lines of a certificate's body, as values.

ghost use Rattle.std.specs.Prelude.{◌≡◌, ◌∷◌, ◌++◌, [], option_map, IfErr, OnErr, OnOk};
ghost use Rattle.certificate.specs.Growth.{channel_order};
ghost use Rattle.rights.specs.Views.{side_seen};
ghost use Rattle.certificate.specs.Views.{channel_of, class_of, held_end_of, held_of};
ghost use Rattle.certificate.specs.declared.lines.Refusal.TheVariants as refusal;

use crate::authorities::{Ceiling, End};
use crate::bounds::{Held, Interval, ModeBound, Slot};
use crate::classes::Class;
use rights::Side;
use std::alloc::AllocFailed;
use std::cmp::Ordering;
use std::fmt;
use texts::Name;
use thiserror::Error;

/// What one side of the socket pairs of a class sends, if it sends descriptors at all. (own)
#[derive(Clone, Copy)]
pub struct Channel {
    pub(crate) class: Class,
    pub(crate) side: Side,
    pub(crate) sends: Option<Held>,
}

impl Channel {
    /// The channel of this class and side.
    pub fn new(class: Class, side: Side, sends: Option<Held>) -> Channel
        ensures { channel_of result
            ≡ record { class = class_of class; side = side_seen side; sends = option_map held_of sends } }
    {
        Channel { class, side, sends }
    }

    /// The class of its pairs.
    pub fn class(&self) -> Class
        ensures { class_of result ≡ (channel_of self.now).class }
    {
        self.class
    }

    /// The side of them that sends.
    pub fn side(&self) -> Side
        ensures { side_seen result ≡ (channel_of self.now).side }
    {
        self.side
    }

    /// The end that sends.
    pub fn end(&self) -> End
        ensures { held_end_of result ≡ record { class = (channel_of self.now).class; side = (channel_of self.now).side } }
    {
        End::new(self.class, self.side)
    }

    /// What descriptors it sends, or that its messages have none.
    pub fn sends(&self) -> Option<Held>
        ensures { option_map held_of result ≡ (channel_of self.now).sends }
    {
        self.sends
    }

    /// How it stands to another: by class and then by side.
    pub(crate) fn compare(&self, other: &Channel) -> Ordering
        ensures { result ≡ channel_order (channel_of self.now) (channel_of other.now) }
    {
        self.class
            .compare(&other.class)
            .then(self.side.compare(other.side))
    }
}

/// A line of a certificate's body. (own)
#[derive(Clone, Copy)]
pub enum Line {
    /// The block of a point of the program of a name begins, with its mode.
    Block {
        program: Name,
        point: u8,
        mode: ModeBound,
    },
    /// A register of the last block isn't full.
    Register {
        register: u8,
        interval: Interval,
    },
    /// A slot of the last block isn't closed.
    Slot {
        number: u8,
        slot: Slot,
    },
    /// What one side of the pairs of a class sends.
    Channel(Channel),
    /// The authority of the program of a name begins.
    Authority(Name),
    /// The last authority has a ceiling in a grant.
    Ceiling(Ceiling),
    /// The last authority has an end.
    Hold(End),
}

/// Why a certificate doesn't take a line. Nothing has changed then. (own)
#[derive(Clone, Copy, Debug, PartialEq, Eq, Error)]
pub enum Refusal {
    /// It names a ninth program, or a 33rd class of channels and ends.
    Limit,
    /// It is out of its place, or not above the line before it.
    Order,
    /// A growth was refused.
    Memory,
}

impl fmt::Display for Refusal {
    fn fmt<W: fmt::Write>(&self, f: &mut fmt::Formatter<W>) -> fmt::Result {
        f.write_str(match self {
            Refusal::Limit => "too many programs or classes",
            Refusal::Order => "a line is out of order",
            Refusal::Memory => "no memory",
        })
    }
}

/// Adds one thing to others. A refused growth changes nothing.
pub(crate) fn add<T: Drop>(items: &mut Vec<T>, item: T) -> Result<(), Refusal>
    ensures ok { OnOk result (items.new.items ≡ items.old.items ++ item ∷ []) }
    ensures err { OnErr result (items.new.items ≡ items.old.items) }
    ensures memory { IfErr result (λ reason. reason ≡ refusal.Memory) }
{
    items.push(item)?;
    Ok(())
}

impl<T: Drop> From<AllocFailed<T>> for Refusal {
    ghost from_gives = { λ _ given. given ≡ refusal.Memory };

    fn from(_failed: AllocFailed<T>) -> Refusal {
        Refusal::Memory
    }
}
