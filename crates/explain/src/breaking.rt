//! At which registers, descriptors, points, ceilings and ends a rule's test fails, as values: what is told of a rule writes these.

ghost use Rattle.std.specs.Prelude.{◌≡◌, ◌||◌, ◌==◌, IfOk, None, filter, not, option_map, true};
ghost use Rattle.certificate.specs.Views.{bound_of, ceiling_of, held_end_of};
ghost use Rattle.checker.specs.AllowanceViews.{allowance_of};
ghost use Rattle.checker.specs.KeptUses.{arrives};
ghost use Rattle.explain.specs.Breaking.{passes_at};
ghost use Rattle.explain.specs.PartViews.{part_count, part_holds};
ghost use Rattle.rights.specs.Sides.{other_side};
ghost use Rattle.instruction_set.specs.Views.{instruction_of};
ghost use Rattle.rules.specs.Authority.{is_widest, keeps_ceiling, may_come, may_start_with, stays_in};
ghost use Rattle.rules.specs.Channels.{channel_at};
ghost use Rattle.rules.specs.Outcomes.{error_outcomes};
ghost use Rattle.std.specs.List.{range_with_len};
ghost use Rattle.task.specs.Views.{first_descriptor_of};
ghost use Rattle.transfer.specs.CallViews.{successes_at};
ghost use Rattle.transfer.specs.Limits.{leaves_known};

use certificate::{Bound, Ceiling, Cert, Domain, End};
use checker::Allowance;
use checker::allowances::{
    is_widest, keeps_ceiling, may_come, may_have_slot, may_start_with, stays_in,
};
use checker::starts::{interval_describes, slot_describes, with_number};
use instruction_set::Instruction;
use rights::limits::{MAX_DESCRIPTORS, REGISTERS};
use std::alloc::{AllocError, Global};
use task::{FirstDescriptor, Start, Task};
use transfer::{Outcome, OutcomeVisitor, Site, failure, successes_pass};

/// What is asked of each register, or of each descriptor, of a bound.
#[derive(Clone, Copy)]
pub(crate) enum PartTest<'a> {
    /// A register has the 0 that a process starts with.
    RegisterBegins {
        bound: &'a Bound,
    },
    /// A descriptor is as a process starts with it.
    SlotBegins {
        task: &'a Task,
        bound: &'a Bound,
        start: &'a Start,
    },
    /// A register that arrives is within the one of the bound there.
    RegisterWithin {
        arriving: &'a Bound,
        there: &'a Bound,
    },
    /// So is a descriptor.
    SlotWithin {
        arriving: &'a Bound,
        there: &'a Bound,
    },
    /// A descriptor that is taken into the mode is one that an authority has.
    SlotAllowed {
        allowed: &'a Allowance<'a>,
        bound: &'a Bound,
    },
}

impl<'a> PartTest<'a> {
    /// Whether the part of this number is as the rule asks.
    #[tactic(auto, unfolding(crate::specs::PartViews::part_holds))]
    fn holds(self, number: u8) -> bool
        ensures { result ≡ part_holds self.entry number }
    {
        let slot = u32::from(number);
        match self {
            PartTest::RegisterBegins { bound } => interval_describes(bound.interval(number), 0),
            PartTest::SlotBegins { task, bound, start } => {
                let first = with_number(&start.descriptors, usize::from(number));
                slot_describes(task.grants(), task.nodes(), &bound.slot(slot), first)
            }
            PartTest::RegisterWithin { arriving, there } => {
                arriving.interval(number).within(&there.interval(number))
            }
            PartTest::SlotWithin { arriving, there } => {
                arriving.slot(slot).within(&there.slot(slot))
            }
            PartTest::SlotAllowed { allowed, bound } => may_have_slot(allowed, &bound.slot(slot)),
        }
    }

    /// How many such parts a bound has.
    #[tactic(auto, unfolding(crate::specs::PartViews::part_count))]
    fn count(self) -> u8
        ensures { result ≡ part_count self.entry }
    {
        match self {
            PartTest::RegisterBegins { .. } | PartTest::RegisterWithin { .. } => { REGISTERS as u8 }
            PartTest::SlotBegins { .. }
            | PartTest::SlotWithin { .. }
            | PartTest::SlotAllowed { .. } => MAX_DESCRIPTORS as u8,
        }
    }

    /// The numbers of those that fail.
    pub(crate) fn failing(self, alloc: Global) -> Result<Vec<u8>, AllocError>
        ensures { IfOk result (λ found. found.items
            ≡ filter (λ n. not (part_holds self.entry n)) (range_with_len 0 (part_count self.entry))) }
    {
        (0..self.count())
            .filter(|number| !self.holds(*number))
            .collect(alloc)
    }
}

/// The test whether an outcome that goes to a point is within the bound there, which that has.
#[derive(Clone, Copy)]
struct Fits<'a> {
    point: usize,
    there: &'a Option<Bound>,
}

impl<'a> OutcomeVisitor for Fits<'a> {
    ghost passes = { λ t o. not (o.point == t.point) || arrives o.bound (option_map bound_of t.there.now) };

    ghost joins = { λ t. None };

    ghost kept = { λ t. None };

    fn visit(&mut self, outcome: &Outcome<'_>) -> bool {
        outcome.point != self.point
            || match self.there {
                None => false,
                Some(bound) => outcome.is_within(bound),
            }
    }
}

/// Whether each success that goes to a point is within the bound there, which that has.
pub(crate) fn successes_fit(
    site: &Site<'_>,
    instruction: &Instruction,
    point: usize,
    there: &Option<Bound>,
) -> bool
    requires { leaves_known (instruction_of instruction.now) ≡ true }
    ensures { result ≡ passes_at (λ o. arrives o.bound (option_map bound_of there.now)) point (successes_at site.now (instruction_of instruction.now)) }
{
    successes_pass(site, instruction, &mut Fits { point, there })
}

/// Whether the error's outcome is, if it goes there.
pub(crate) fn error_fits(
    bound: &Bound,
    instruction: &Instruction,
    point: usize,
    there: &Option<Bound>,
) -> bool
    ensures { result ≡ passes_at (λ o. arrives o.bound (option_map bound_of there.now)) point (error_outcomes (bound_of bound.now) (instruction_of instruction.now)) }
{
    match failure(bound, instruction) {
        None => true,
        Some(outcome) => Fits { point, there }.visit(&outcome),
    }
}

/// The first descriptors that aren't within an authority.
pub(crate) fn started_beyond(
    alloc: Global,
    task: &Task,
    allowed: &Allowance<'_>,
    start: &Start,
) -> Result<Vec<FirstDescriptor>, AllocError>
    ensures { IfOk result (λ found. found.items
        ≡ filter (λ d. not (may_start_with allowed.now.wide task.now (allowance_of allowed.now) (first_descriptor_of d))) start.now.descriptors.items) }
{
    start
        .descriptors
        .iter()
        .copied()
        .filter(|first| !may_start_with(task, allowed, *first))
        .collect(alloc)
}

/// The ceilings whose grant doesn't list all that their rights are for.
pub(crate) fn unlisted_ceilings(
    alloc: Global,
    task: &Task,
    allowed: &Allowance<'_>,
) -> Result<Vec<Ceiling>, AllocError>
    ensures { IfOk result (λ found. found.items ≡ filter (λ c. not (keeps_ceiling allowed.now.wide task.now.grants (ceiling_of c))) allowed.now.ceilings.now) }
{
    let (wide, grants) = (allowed.wide, task.grants());
    allowed
        .ceilings
        .iter()
        .copied()
        .filter(|ceiling| !keeps_ceiling(wide, grants, ceiling))
        .collect(alloc)
}

/// The ceilings into whose grant something can be moved from another's.
pub(crate) fn moved_into(
    alloc: Global,
    source: &Ceiling,
    allowed: &Allowance<'_>,
) -> Result<Vec<Ceiling>, AllocError>
    ensures { IfOk result (λ found. found.items ≡ filter (λ target. not (stays_in (ceiling_of source.now) (ceiling_of target))) allowed.now.ceilings.now) }
{
    allowed
        .ceilings
        .iter()
        .copied()
        .filter(|target| !stays_in(source, target))
        .collect(alloc)
}

/// The listed ends by which something may come that isn't within the authority.
pub(crate) fn received_beyond(
    alloc: Global,
    cert: &Cert,
    allowed: &Allowance<'_>,
) -> Result<Vec<End>, AllocError>
    ensures { IfOk result (λ found. found.items ≡ filter (λ e. not (may_come allowed.now.wide (allowance_of allowed.now)
        (channel_at cert.now (held_end_of e).class (other_side (held_end_of e).side)))) allowed.now.ends.now) }
{
    allowed
        .ends
        .iter()
        .copied()
        .filter(|end| !may_come(cert, allowed, &end.class(), end.side().other()))
        .collect(alloc)
}

/// The listed ends whose channel doesn't let everything through.
pub(crate) fn narrow_ends(
    alloc: Global,
    cert: &Cert,
    allowed: &Allowance<'_>,
) -> Result<Vec<End>, AllocError>
    ensures { IfOk result (λ found. found.items
        ≡ filter (λ e. not (is_widest (channel_at cert.now (held_end_of e).class (held_end_of e).side))) allowed.now.ends.now) }
{
    allowed
        .ends
        .iter()
        .copied()
        .filter(|end| !is_widest(cert, &end.class(), end.side()))
        .collect(alloc)
}
