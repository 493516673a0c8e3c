//! What a certificate of a version says of further rights. Before version 4 a descriptor may have any of them. (own)

ghost use Rattle.std.specs.Prelude.{◌≡◌, bit_and, bit_or, map};
ghost use Rattle.rights.specs.Sets.{further_rights, plain_rights};
ghost use Rattle.certificate.specs.Told.{told_bound, told_channel, told_held, told_slot, untold_held, untold_slot};
ghost use Rattle.certificate.specs.Views.{bound_of, channel_of, held_of, slot_of, version_of};

use crate::bounds::{Bound, Held, RightsRange, Slot};
use crate::certs::Version;
use crate::lines::Channel;
use rights::Rights;

impl RightsRange {
    /// The sets that have the same of the fourteen rights as one of this range, and any further ones.
    fn untold(self) -> RightsRange
        ensures least { result.least.0 ≡ bit_and self.least.0 plain_rights }
        ensures greatest { result.greatest.0 ≡ bit_or self.greatest.0 further_rights }
    {
        RightsRange {
            least: self.least.intersection(Rights::plain()),
            greatest: self.greatest.union(Rights::further()),
        }
    }
}

impl Held {
    /// The bound of which nothing is said of further rights.
    fn untold(self) -> Held
        ensures { held_of result ≡ untold_held (held_of self) }
    {
        Held {
            rights: self.rights.untold(),
            ..self
        }
    }

    /// The bound as a certificate of this version says it: before version 4 the descriptor may have any further rights.
    pub fn told_in(self, version: Version) -> Held
        ensures { held_of result ≡ told_held (version_of version) (held_of self) }
    {
        if version.tells_further() {
            self
        } else {
            self.untold()
        }
    }
}

impl Slot {
    /// The slot of which nothing is said of further rights.
    fn untold(self) -> Slot
        ensures { slot_of result ≡ untold_slot (slot_of self) }
    {
        match self {
            Slot::Closed => Slot::Closed,
            Slot::Open(held) => Slot::Open(held.untold()),
            Slot::Maybe(held) => Slot::Maybe(held.untold()),
        }
    }

    /// Has nothing be said of further rights.
    fn untell(&mut self)
        ensures { slot_of self.new ≡ untold_slot (slot_of self.old) }
    {
        if !self.is_closed() {
            *self = self.untold();
        }
    }

    /// The slot as a certificate of this version says it: before version 4 its descriptor may have any further rights.
    pub fn told_in(self, version: Version) -> Slot
        ensures { slot_of result ≡ told_slot (version_of version) (slot_of self) }
    {
        if version.tells_further() {
            self
        } else {
            self.untold()
        }
    }
}

/// Has nothing be said of the further rights of any of these.
fn untell(slots: &mut [Slot])
    ensures { map slot_of slots.new ≡ map untold_slot (map slot_of slots.old) }
{
    let mut at = 0;
    while at < slots.len() {
        slots[at].untell();
        at += 1;
    }
}

impl Bound {
    /// Has it be as a certificate of this version says it: before version 4 each descriptor may have any further rights.
    pub fn tell_in(&mut self, version: Version)
        ensures { bound_of self.new ≡ told_bound (version_of version) (bound_of self.old) }
    {
        if !version.tells_further() {
            untell(&mut self.slots);
        }
    }
}

impl Channel {
    /// The channel as a certificate of this version says it: before version 4 the descriptors that it sends may have any further
    /// rights.
    pub(crate) fn told_in(self, version: Version) -> Channel
        ensures { channel_of result ≡ told_channel (version_of version) (channel_of self) }
    {
        Channel {
            sends: match self.sends {
                None => None,
                Some(held) => Some(held.told_in(version)),
            },
            ..self
        }
    }
}
