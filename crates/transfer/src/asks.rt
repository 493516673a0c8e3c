//! Tests of the slots that a call may go through, asked one by one.

ghost use Rattle.std.specs.Prelude.{◌≡◌, ◌+◌, ◌≤◌, Bool, length, map, option_map};
ghost use Rattle.std.specs.List.{list_all};
ghost use Rattle.certificate.specs.Bounds.{Bound as BoundSeen, held_in};
ghost use Rattle.certificate.specs.Views.{bound_of, held_of, interval_of, slot_of};
ghost use Rattle.instruction_set.specs.Views.{operand_of, syscall_of};
ghost use Rattle.rules.specs.Slots.{OpenSlot, slots_from, slots_in};
ghost use Rattle.rules.specs.Uses.{Use, named_slots, use_of, uses, uses_of, uses_through};
ghost use Rattle.transfer.specs.Tested.{slot_at};
ghost use Rattle.transfer.specs.Views.{need_of, needs_in, through_of};

use crate::slots::{holds_number, operand_interval};
use crate::uses::{Need, Needs, Through, needed};
use certificate::{Bound, Held, Interval, Slot};
use instruction_set::{Operand, Syscall};

/// A test of a slot that may be open.
pub trait SlotTest {
    /// Which slots pass it.
    ghost passes: { Self → OpenSlot → Bool };

    /// Whether the slot of this number passes, which holds this where it is open.
    fn asks(&self, number: u8, held: &Held) -> bool
        ensures { result ≡ passes self.now (record { number = number; held = held_of held.now }) };
}

/// A test of a slot that a call may go through.
pub trait UseTest {
    /// Which uses pass it.
    ghost passes: { Self → Use → Bool };

    /// Whether the slot passes, of which the call needs this.
    fn asks(&self, bound: &Bound, need: &Need, number: u8, held: &Held) -> bool
        ensures { result ≡ passes self.now (use_of (bound_of bound.now) (need_of need.now)
            (record { number = number; held = held_of held.now })) };
}

/// Whether a slot passes, if it may be open and its number is in the interval.
fn one_passes<T: SlotTest>(slot: &Slot, number: u8, interval: Interval, test: &T) -> bool
    ensures { result ≡ list_all (T.passes test.now) (slot_at number (interval_of interval) (slot_of slot.now)) }
{
    match slot {
        Slot::Closed => true,
        Slot::Open(held) | Slot::Maybe(held) => {
            !holds_number(interval, number) || test.asks(number, held)
        }
    }
}

/// Whether each slot passes from this number on.
fn rest_pass<T: SlotTest>(slots: &[Slot], number: u8, interval: Interval, test: &T) -> bool
    requires { number + length slots.now ≤ 16 }
    ensures { result ≡ list_all (T.passes test.now)
        (slots_from number (interval_of interval) (map slot_of slots.now)) }
{
    let mut number = number;
    for slot in slots {
        if !one_passes(slot, number, interval, test) {
            return false;
        }
        number += 1;
    }
    true
}

/// Whether each slot passes that an operand may name.
#[tactic(auto, unfolding(rules::specs::Slots::slots_in))]
pub fn all_slots_pass<T: SlotTest>(bound: &Bound, operand: Operand, test: &T) -> bool
    ensures { result ≡ list_all (T.passes test.now) (slots_in (bound_of bound.now) (operand_of operand)) }
{
    let interval = operand_interval(bound, operand);
    rest_pass(bound.slots(), 0, interval, test)
}

/// A test of uses as one of slots, where the bound and the need are known.
#[derive(Drop)]
pub(crate) struct Asked<'a, T> {
    pub bound: &'a Bound,
    pub need: &'a Need,
    pub test: &'a T,
}

impl<'a, T: UseTest> SlotTest for Asked<'a, T> {
    ghost passes = { λ a slot. T.passes a.test.now (use_of (bound_of a.bound.now) (need_of a.need.now) slot) };

    fn asks(&self, number: u8, held: &Held) -> bool {
        self.test.asks(self.bound, self.need, number, held)
    }
}

/// Whether each slot passes of an operand that a call goes through, if it does.
pub(crate) fn through_passes<T: UseTest>(bound: &Bound, through: &Option<Through>, test: &T) -> bool
    ensures { result ≡ list_all (T.passes test.now)
        (uses_through (bound_of bound.now) (option_map through_of through.now)) }
{
    match through {
        None => true,
        Some(through) => {
            let asked = Asked {
                bound,
                need: &through.need,
                test,
            };
            all_slots_pass(bound, through.operand, &asked)
        }
    }
}

/// Whether each slot passes that a call may go through.
pub fn all_uses_pass<T: UseTest>(bound: &Bound, call: &Syscall, test: &T) -> bool
    ensures { result ≡ list_all (T.passes test.now) (uses (bound_of bound.now) (syscall_of call.now)) }
{
    let needs = needed(call);
    through_passes(bound, &needs.first, test) && through_passes(bound, &needs.second, test)
}
