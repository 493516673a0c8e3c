//! A point that an instruction leads to, and the bound there: told by what changes, so that no bound is copied.

ghost use Rattle.std.specs.Prelude.{◌≡◌, map, slice_set};
ghost use Rattle.certificate.specs.Order.{bound_within, each_within, slot_within};
ghost use Rattle.certificate.specs.Views.{bound_of, slot_of};
ghost use Rattle.transfer.specs.OutcomeViews.{outcome_of};

use certificate::{Bound, Domain, Interval, Slot, slots_within};

/// What changes of a bound.
#[derive(Clone, Copy)]
pub enum Change {
    Nothing,
    /// A register is in another interval.
    Register {
        register: u8,
        interval: Interval,
    },
    /// A slot is otherwise, and register 0 is in this interval.
    Slot {
        number: u8,
        slot: Slot,
        given: Interval,
    },
}

/// A point that an instruction leads to, and how the bound there comes from another. (own)
#[derive(Clone, Copy)]
pub struct Outcome<'a> {
    pub point: usize,
    pub bound: &'a Bound,
    pub change: Change,
}

/// Whether each slot is within the one at its place, one of them otherwise.
fn slots_within_with(slots: &[Slot], number: u8, slot: &Slot, there: &[Slot]) -> bool
    ensures { result ≡ each_within slot_within
        (slice_set (map slot_of slots.now) number (slot_of slot.now)) (map slot_of there.now) }
{
    match slots {
        [] => there.is_empty(),
        [first, rest @ ..] => match there {
            [] => false,
            [other, others @ ..] => {
                if number == 0 {
                    return slot.within(other) && slots_within(rest, others);
                }
                first.within(other) && slots_within_with(rest, number - 1, slot, others)
            }
        },
    }
}

impl<'a> Outcome<'a> {
    /// The bound there, as one of its own. (own)
    pub fn bound_there(&self) -> Bound
        ensures { bound_of result ≡ (outcome_of self.now).bound }
    {
        match &self.change {
            Change::Nothing => *self.bound,
            Change::Register { register, interval } => {
                self.bound.with_interval(*register, *interval)
            }
            Change::Slot {
                number,
                slot,
                given,
            } => {
                let bound = self.bound.with_slot(*number, *slot);
                bound.with_interval(0, *given)
            }
        }
    }

    /// Whether the bound there is within this one. Copies no slot. (own)
    pub fn is_within(&self, there: &Bound) -> bool
        ensures { result ≡ bound_within (outcome_of self.now).bound (bound_of there.now) }
    {
        match &self.change {
            Change::Nothing => self.bound.within(there),
            Change::Register { register, interval } => {
                self.bound.within_with_interval(*register, *interval, there)
            }
            Change::Slot {
                number,
                slot,
                given,
            } => {
                self.bound.mode().within(&there.mode())
                    && self.bound.registers_within(0, *given, there)
                    && slots_within_with(self.bound.slots(), *number, slot, there.slots())
            }
        }
    }
}
