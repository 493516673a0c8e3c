//! The slots that fail a test, gathered.

ghost use Rattle.std.specs.Prelude.{◌≡◌, ◌+◌, ◌++◌, ◌≤◌, IfOk, OnOk, Some, codes, length, map, option_map};
ghost use Rattle.std.specs.Fmt.{decimal};
ghost use Rattle.certificate.specs.Views.{bound_of, interval_of, slot_of};
ghost use Rattle.instruction_set.specs.Views.{operand_of};
ghost use Rattle.rules.specs.Slots.{slots_from, slots_in};
ghost use Rattle.transfer.specs.FailingViews.{open_slot_of};
ghost use Rattle.transfer.specs.Tested.{AreFailing, failing, slot_at};
ghost use Rattle.transfer.specs.Views.{through_of};

use crate::asks::{Asked, SlotTest, UseTest};
use crate::slots::{holds_number, operand_interval};
use crate::uses::Through;
use certificate::{Bound, Held, Interval, Slot};
use instruction_set::Operand;
use std::alloc::{AllocError, Global};
use texts::{Page, Say, say};

/// A slot that may be open, with what it holds then.
#[derive(Clone, Copy)]
pub struct OpenSlot {
    pub number: u8,
    pub held: Held,
}

/// Adds a slot that fails, if it may be open and its number is in the interval.
fn add_if_failing<T: SlotTest>(
    found: &mut Vec<OpenSlot>,
    slot: &Slot,
    number: u8,
    interval: Interval,
    test: &T,
) -> Result<(), AllocError>
    ensures { OnOk result (map open_slot_of found.new.items ≡ map open_slot_of found.old.items
        ++ failing (T.passes test.now) (slot_at number (interval_of interval) (slot_of slot.now))) }
{
    match slot {
        Slot::Closed => Ok(()),
        Slot::Open(held) | Slot::Maybe(held) => {
            if !holds_number(interval, number) || test.asks(number, held) {
                return Ok(());
            }
            found.push(OpenSlot {
                number,
                held: *held,
            })?;
            Ok(())
        }
    }
}

/// Adds those that fail from this number on.
fn add_failing<T: SlotTest>(
    found: &mut Vec<OpenSlot>,
    slots: &[Slot],
    number: u8,
    interval: Interval,
    test: &T,
) -> Result<(), AllocError>
    requires { number + length slots.now ≤ 16 }
    ensures { OnOk result (map open_slot_of found.new.items ≡ map open_slot_of found.old.items
        ++ failing (T.passes test.now) (slots_from number (interval_of interval) (map slot_of slots.now))) }
{
    match slots {
        [] => Ok(()),
        [slot, rest @ ..] => {
            add_if_failing(found, slot, number, interval, test)?;
            add_failing(found, rest, number + 1, interval, test)
        }
    }
}

/// The slots that an operand may name and that fail a test, by number.
#[tactic(auto, unfolding(rules::specs::Slots::slots_in))]
pub fn failing_slots<T: SlotTest>(
    alloc: Global,
    bound: &Bound,
    operand: Operand,
    test: &T,
) -> Result<Vec<OpenSlot>, AllocError>
    ensures { IfOk result (λ found. map open_slot_of found.items
        ≡ failing (T.passes test.now) (slots_in (bound_of bound.now) (operand_of operand))) }
{
    let interval = operand_interval(bound, operand);
    let mut found = Vec::new(alloc);
    add_failing(&mut found, bound.slots(), 0, interval, test)?;
    Ok(found)
}

/// The slots that fail a test of an operand that a call goes through, by number; none where it goes through none. Want of memory
/// aside, the call's two operands have none exactly where `all_uses_pass` is true.
pub fn failing_through<T: UseTest>(
    alloc: Global,
    bound: &Bound,
    through: &Option<Through>,
    test: &T,
) -> Result<Vec<OpenSlot>, AllocError>
    ensures { IfOk result (λ found. AreFailing (T.passes test.now) (bound_of bound.now) (option_map through_of through.now) (map open_slot_of found.items)) }
{
    match through {
        None => Ok(Vec::new(alloc)),
        Some(through) => {
            let asked = Asked {
                bound,
                need: &through.need,
                test,
            };
            failing_slots(alloc, bound, through.operand, &asked)
        }
    }
}

/// The number of a slot.
impl Say for OpenSlot {
    ghost said = { λ slot. Some (codes "descriptor " ++ decimal slot.number) };

    fn say(self, page: &mut Page) {
        say!(page; "descriptor ", self.number)
    }
}
