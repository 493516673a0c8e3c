//! Where calls lead that leave all slots as they are: the outcome is the same whatever slot they go through, so it is asked
//! about once.

ghost use Rattle.std.specs.Prelude.{◌≡◌, not, true};
ghost use Rattle.std.specs.List.{list_all};
ghost use Rattle.certificate.specs.Views.{bound_of, interval_of, target_of};
ghost use Rattle.instruction_set.specs.Views.{operand_of};
ghost use Rattle.rules.specs.Slots.{slots_in};
ghost use Rattle.transfer.specs.GivenViews.{both_given, given_at, may_be, stays};
ghost use Rattle.transfer.specs.Kept.{TestsEach};

use crate::asks::{SlotTest, all_slots_pass};
use crate::outcomes::Change;
use crate::successes::{OutcomeVisitor, Site, next_passes};
use crate::targets::{may_be_end, may_be_node};
use certificate::{Bound, Held, Interval, Target};
use instruction_set::Operand;

/// What a slot may have to be of.
#[derive(Clone, Copy)]
pub(crate) enum Kind {
    Any,
    Node,
    End,
}

/// Whether it may be of this kind.
fn may_be(kind: Kind, target: &Target) -> bool
    ensures { result ≡ may_be kind (target_of target.now) }
{
    match kind {
        Kind::Any => true,
        Kind::Node => may_be_node(target),
        Kind::End => may_be_end(target),
    }
}

/// The test that a slot is surely not of a kind.
#[derive(Clone, Copy)]
struct IsNot {
    kind: Kind,
}

impl SlotTest for IsNot {
    ghost passes = { λ t slot. not (may_be t.kind slot.held.target) };

    fn asks(&self, _number: u8, held: &Held) -> bool {
        !may_be(self.kind, &held.target())
    }
}

/// Whether no slot of an operand may be of the kind.
fn none_is(bound: &Bound, operand: Operand, kind: Kind) -> bool
    ensures { result ≡ list_all (λ slot. not (may_be kind slot.held.target))
        (slots_in (bound_of bound.now) (operand_of operand)) }
{
    all_slots_pass(bound, operand, &IsNot { kind })
}

/// Whether the next point passes with register 0 in an interval.
pub(crate) fn step_passes<T: OutcomeVisitor>(
    site: &Site<'_>,
    given: Interval,
    visitor: &mut T,
) -> bool
    ensures { TestsEach T.passes T.joins T.kept visitor.old visitor.new result
        (stays site.now (interval_of given)) }
{
    let change = Change::Register {
        register: 0,
        interval: given,
    };
    next_passes(site, site.bound, change, visitor)
}

/// Whether it does for each slot of an operand that may be of the kind.
pub(crate) fn given_passes<T: OutcomeVisitor>(
    site: &Site<'_>,
    operand: Operand,
    kind: Kind,
    given: Interval,
    visitor: &mut T,
) -> bool
    ensures { TestsEach T.passes T.joins T.kept visitor.old visitor.new result
        (given_at site.now (operand_of operand) kind (interval_of given)) }
{
    none_is(site.bound, operand, kind) || step_passes(site, given, visitor)
}

/// Whether it does for each slot of an operand and each of another.
pub(crate) fn both_given_pass<T: OutcomeVisitor>(
    site: &Site<'_>,
    first: (Operand, Kind),
    second: (Operand, Kind),
    given: Interval,
    visitor: &mut T,
) -> bool
    ensures { TestsEach T.passes T.joins T.kept visitor.old visitor.new result
        (both_given site.now (operand_of first.0) first.1 (operand_of second.0) second.1 (interval_of given)) }
{
    let (operand, kind) = first;
    let (other, its) = second;
    none_is(site.bound, operand, kind) || given_passes(site, other, its, given, visitor)
}
