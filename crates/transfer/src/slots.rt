//! The slots of a bound that a call may go through, and those that it takes.

ghost use Rattle.std.specs.Prelude.{◌≡◌, ◌+◌, ◌≤◌, ◌∷◌, length, map, option_map, IfSome};
ghost use Rattle.certificate.specs.Views.{bound_of, interval_of, mode_of, slot_of};
ghost use Rattle.instruction_set.specs.Views.{operand_of};
ghost use Rattle.rules.specs.Slots.{free_from, free_numbers, holds_number, is_single, may_be_on, operand_interval};
ghost use Rattle.transfer.specs.Views.{count_of, free_of};

use crate::intervals::only;
use certificate::{Bound, Interval, ModeBound, Slot};
use instruction_set::Operand;

/// The lowest free numbers of a bound, at most two, and in order.
#[derive(Clone, Copy)]
pub enum FreeNumbers {
    None,
    One(u8),
    Two(u8, u8),
}

/// How many free numbers a call takes.
#[derive(Clone, Copy)]
pub enum Takes {
    Nothing,
    One,
    Two,
}

/// Whether a process may be in capability mode. (own)
pub fn may_be_on(mode: ModeBound) -> bool
    ensures { result ≡ may_be_on (mode_of mode) }
{
    match mode {
        ModeBound::Off => false,
        ModeBound::On | ModeBound::Either => true,
    }
}

/// The numbers that an operand may be: those of its register's interval, or its own. (own)
pub fn operand_interval(bound: &Bound, operand: Operand) -> Interval
    ensures { interval_of result ≡ operand_interval (bound_of bound.now) (operand_of operand) }
{
    match operand {
        Operand::Register(register) => bound.interval(register.number()),
        Operand::Number(number) => only(number),
    }
}

/// Whether the interval is of one number alone. (own)
pub fn is_single(interval: Interval) -> bool
    ensures { result ≡ is_single (interval_of interval) }
{
    interval.low() == interval.high()
}

/// Whether the interval has the number.
pub(crate) fn holds_number(interval: Interval, number: u8) -> bool
    ensures { result ≡ holds_number (interval_of interval) number }
{
    let number = number as u32;
    interval.low() <= number && number <= interval.high()
}

/// The lowest free number from this one on, if there is one; `None` where the slots leave it open.
fn one_from(slots: &[Slot], number: u8) -> Option<FreeNumbers>
    requires { number + length slots.now ≤ 16 }
    ensures numbers { option_map free_of result ≡ free_from 1 number (map slot_of slots.now) }
    ensures few { IfSome result (λ found. length (free_of found) ≤ 1) }
{
    let mut number = number;
    for slot in slots {
        match slot {
            Slot::Closed => return Some(FreeNumbers::One(number)),
            Slot::Open(_) => number += 1,
            Slot::Maybe(_) => return None,
        }
    }
    Some(FreeNumbers::None)
}

/// This number before the others, of which there is at most one.
fn with_first(number: u8, later: FreeNumbers) -> FreeNumbers
    requires { length (free_of later) ≤ 1 }
    ensures { free_of result ≡ number ∷ free_of later }
{
    match later {
        FreeNumbers::None => FreeNumbers::One(number),
        FreeNumbers::One(second) | FreeNumbers::Two(second, _) => FreeNumbers::Two(number, second),
    }
}

/// The two lowest free numbers from this one on, or all that there are; `None` where the slots leave it open.
fn two_from(slots: &[Slot], number: u8) -> Option<FreeNumbers>
    requires { number + length slots.now ≤ 16 }
    ensures { option_map free_of result ≡ free_from 2 number (map slot_of slots.now) }
{
    match slots {
        [] => Some(FreeNumbers::None),
        [slot, rest @ ..] => match slot {
            Slot::Closed => {
                let later = one_from(rest, number + 1)?;
                Some(with_first(number, later))
            }
            Slot::Open(_) => two_from(rest, number + 1),
            Slot::Maybe(_) => None,
        },
    }
}

/// The lowest free numbers of a bound, so many or all that there are; `None` where it doesn't determine them. (own; after
/// open(2), dup(2) and socketpair(2))
#[tactic(auto, unfolding(rules::specs::Slots::free_numbers))]
pub fn free_numbers(takes: Takes, bound: &Bound) -> Option<FreeNumbers>
    ensures { option_map free_of result ≡ free_numbers (count_of takes) (bound_of bound.now) }
{
    match takes {
        Takes::Nothing => Some(FreeNumbers::None),
        Takes::One => one_from(bound.slots(), 0),
        Takes::Two => two_from(bound.slots(), 0),
    }
}
