//! Where an instruction may lead from a point with a bound, but for errors: each outcome is asked about, and none is kept.

ghost use Rattle.std.specs.Prelude.{◌≡◌, ◌+◌, ◌≤◌, ℕ, Bool, Option, true, length, map, option_map};
ghost use Rattle.std.specs.List.{flat_map};
ghost use Rattle.certificate.specs.Bounds.{Bound as BoundSeen, with_interval, with_slot};
ghost use Rattle.certificate.specs.Views.{bound_of, held_of, interval_of, slot_of, target_of};
ghost use Rattle.instruction_set.specs.Views.{operand_of};
ghost use Rattle.rules.specs.Outcomes.{Outcome as OutcomeSeen, outcome_to};
ghost use Rattle.rules.specs.Intervals.{only};
ghost use Rattle.rules.specs.Slots.{free_numbers, slots_from, slots_in};
ghost use Rattle.transfer.specs.Views.{free_of};
ghost use Rattle.transfer.specs.Kept.{TestsEach, kept_with};
ghost use Rattle.transfer.specs.OutcomeViews.{bound_changed, outcome_of};
ghost use Rattle.transfer.specs.SiteViews.{acted, left_by_limit, received_at, taken_at};
ghost use Rattle.transfer.specs.Tested.{slot_at};

use crate::channels::channel_at;
use crate::intervals::only;
use crate::outcomes::{Change, Outcome};
use crate::slots::{FreeNumbers, Takes, free_numbers, holds_number, operand_interval};
use crate::targets::{beneath_target, unknown_held, with_target};
use certificate::{Bound, Cert, FcntlsRange, Held, Interval, RightsRange, Slot, Target};
use instruction_set::Operand;
use task::Task;
use texts::Name;

/// A visitor of outcomes. It may keep what it learns of each, but what passes stays the same. It may join those that go to a
/// point of its own.
pub trait OutcomeVisitor {
    /// Which outcomes pass it.
    ghost passes: { Self → OutcomeSeen → Bool };

    /// The point whose outcomes it joins, if it does.
    ghost joins: { Self → Option ℕ };

    /// Their join so far, if there were any.
    ghost kept: { Self → Option BoundSeen };

    /// Whether the outcome passes.
    fn visit(&mut self, outcome: &Outcome<'_>) -> bool
        ensures value { result ≡ passes self.old (outcome_of outcome.now) }
        ensures same { passes self.new ≡ passes self.old }
        ensures same_point { joins self.new ≡ joins self.old }
        ensures kept { kept self.new ≡ kept_with (joins self.old) (kept self.old) (outcome_of outcome.now) };
}

/// A point of a program, and its bound in a certificate.
#[derive(Clone, Copy)]
pub struct Site<'a> {
    pub task: &'a Task,
    pub cert: &'a Cert,
    /// The program's name.
    pub name: &'a Name,
    pub point: u8,
    pub bound: &'a Bound,
}

/// What a limit leaves: rights, or commands.
#[derive(Clone, Copy)]
pub(crate) enum Limit {
    Rights(RightsRange),
    Commands(FcntlsRange),
}

/// What a call does with a slot that it goes through.
#[derive(Clone, Copy)]
pub(crate) enum Act {
    /// It opens a node beneath it.
    Opens,
    /// It closes it.
    Closes,
    /// It receives from it.
    Receives,
    /// It copies it.
    Copies,
    /// It limits it.
    Limits(Limit),
}

/// Whether the next point passes with a bound where this changes.
pub(crate) fn next_passes<T: OutcomeVisitor>(
    site: &Site<'_>,
    bound: &Bound,
    change: Change,
    visitor: &mut T,
) -> bool
    ensures { TestsEach T.passes T.joins T.kept visitor.old visitor.new result
        (outcome_to (site.now.point + 1) (bound_changed (bound_of bound.now) change)) }
{
    let point = site.point as usize + 1;
    visitor.visit(&Outcome {
        point,
        bound,
        change,
    })
}

/// What a call does with each slot that it goes through, and the lowest free number, which is looked for one time.
#[derive(Clone, Copy)]
struct Acting<'a> {
    site: &'a Site<'a>,
    act: Act,
    free: Option<FreeNumbers>,
    ghost lowest: { option_map free_of free ≡ free_numbers 1 (bound_of site.now.bound.now) },
}

/// Whether the outcome passes where the lowest free number is taken for what is held, if one is free.
pub(crate) fn taken_passes<T: OutcomeVisitor>(site: &Site<'_>, held: &Held, visitor: &mut T) -> bool
    ensures { TestsEach T.passes T.joins T.kept visitor.old visitor.new result
        (taken_at site.now (held_of held.now)) }
{
    let free = free_numbers(Takes::One, site.bound);
    free_passes(site, &free, held, visitor)
}

/// The same, where the lowest free number is this.
fn free_passes<T: OutcomeVisitor>(
    site: &Site<'_>,
    free: &Option<FreeNumbers>,
    held: &Held,
    visitor: &mut T,
) -> bool
    requires { option_map free_of free.now ≡ free_numbers 1 (bound_of site.now.bound.now) }
    ensures { TestsEach T.passes T.joins T.kept visitor.old visitor.new result
        (taken_at site.now (held_of held.now)) }
{
    match *free {
        None | Some(FreeNumbers::None) => true,
        Some(FreeNumbers::One(number) | FreeNumbers::Two(number, _)) => {
            let change = Change::Slot {
                number,
                slot: Slot::Open(*held),
                given: only(number as u32),
            };
            next_passes(site, site.bound, change, visitor)
        }
    }
}

/// Whether the outcome passes where a slot is otherwise and register 0 is 0.
fn slot_passes<T: OutcomeVisitor>(site: &Site<'_>, number: u8, slot: Slot, visitor: &mut T) -> bool
    ensures { TestsEach T.passes T.joins T.kept visitor.old visitor.new result
        (outcome_to (site.now.point + 1) (with_interval (with_slot (bound_of site.now.bound.now) number (slot_of slot)) 0 (only 0))) }
{
    let change = Change::Slot {
        number,
        slot,
        given: only(0),
    };
    next_passes(site, site.bound, change, visitor)
}

/// Whether the outcome passes of what comes from a channel, or from an end of unknown kind.
fn received_passes<T: OutcomeVisitor>(acting: &Acting<'_>, target: &Target, visitor: &mut T) -> bool
    ensures { TestsEach T.passes T.joins T.kept visitor.old visitor.new result
        (received_at acting.now.site.now (target_of target.now)) }
{
    let site = acting.site;
    match target {
        Target::InGrant(_) | Target::AnyNode => true,
        Target::Socket(class, side) => match channel_at(site.cert, class, side.other()) {
            None => true,
            Some(channel) => match channel.sends() {
                None => true,
                Some(held) => free_passes(site, &acting.free, &held, visitor),
            },
        },
        Target::Unknown => free_passes(site, &acting.free, &unknown_held(), visitor),
    }
}

/// The same held, with what a limit leaves.
fn limited(held: &Held, limit: Limit) -> Held
    ensures { held_of result ≡ left_by_limit (held_of held.now) limit }
{
    match limit {
        Limit::Rights(left) => Held::new(held.target(), left, held.fcntls()),
        Limit::Commands(left) => Held::new(held.target(), held.rights(), left),
    }
}

/// Whether the outcome passes of what a call does with this slot.
fn acted_passes<T: OutcomeVisitor>(
    acting: &Acting<'_>,
    number: u8,
    held: &Held,
    visitor: &mut T,
) -> bool
    ensures { TestsEach T.passes T.joins T.kept visitor.old visitor.new result
        (acted acting.now.site.now acting.now.act (record { number = number; held = held_of held.now })) }
{
    let site = acting.site;
    match acting.act {
        Act::Opens => match beneath_target(&held.target()) {
            None => true,
            Some(target) => free_passes(site, &acting.free, &with_target(held, target), visitor),
        },
        Act::Receives => received_passes(acting, &held.target(), visitor),
        Act::Copies => free_passes(site, &acting.free, held, visitor),
        Act::Closes => slot_passes(site, number, Slot::Closed, visitor),
        Act::Limits(limit) => {
            let slot = Slot::Open(limited(held, limit));
            slot_passes(site, number, slot, visitor)
        }
    }
}

/// Whether the outcome passes of what a call does with a slot, if it may be open and its number is in the interval.
fn one_passes<T: OutcomeVisitor>(
    acting: &Acting<'_>,
    slot: &Slot,
    number: u8,
    interval: Interval,
    visitor: &mut T,
) -> bool
    ensures { TestsEach T.passes T.joins T.kept visitor.old visitor.new result
        (flat_map (acted acting.now.site.now acting.now.act) (slot_at number (interval_of interval) (slot_of slot.now))) }
{
    match slot {
        Slot::Closed => true,
        Slot::Open(held) | Slot::Maybe(held) => {
            !holds_number(interval, number) || acted_passes(acting, number, held, visitor)
        }
    }
}

/// Whether the outcomes pass of what a call does with each slot from this number on.
fn rest_pass<T: OutcomeVisitor>(
    acting: &Acting<'_>,
    slots: &[Slot],
    number: u8,
    interval: Interval,
    visitor: &mut T,
) -> bool
    requires { number + length slots.now ≤ 16 }
    ensures { TestsEach T.passes T.joins T.kept visitor.old visitor.new result
        (flat_map (acted acting.now.site.now acting.now.act) (slots_from number (interval_of interval) (map slot_of slots.now))) }
{
    match slots {
        [] => true,
        [slot, rest @ ..] => {
            one_passes(acting, slot, number, interval, visitor)
                && rest_pass(acting, rest, number + 1, interval, visitor)
        }
    }
}

/// Whether the outcomes pass of what a call does with each slot that an operand may name.
#[tactic(auto, unfolding(rules::specs::Slots::slots_in))]
pub(crate) fn all_pass<T: OutcomeVisitor>(
    site: &Site<'_>,
    act: Act,
    operand: Operand,
    visitor: &mut T,
) -> bool
    ensures { TestsEach T.passes T.joins T.kept visitor.old visitor.new result
        (flat_map (acted site.now act) (slots_in (bound_of site.now.bound.now) (operand_of operand))) }
{
    let free = free_numbers(Takes::One, site.bound);
    let acting = &Acting {
        site: &*site,
        act,
        free,
    };
    let interval = operand_interval(site.bound, operand);
    rest_pass(acting, site.bound.slots(), 0, interval, visitor)
}
