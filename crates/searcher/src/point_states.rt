//! What is known of the points of a program: a bound at each that is reached, which grows as outcomes come to it.

ghost use Rattle.std.specs.Prelude.{◌≡◌, ◌≤◌, ◌⊎◌, None, true, IfSome, slice_get};
ghost use Rattle.certificate.specs.Order.{bound_within, interval_within};
ghost use Rattle.certificate.specs.Views.{bound_of, interval_of};
ghost use Rattle.rules.specs.Outcomes.{Outcome as OutcomeSeen};
ghost use Rattle.transfer.specs.OutcomeViews.{outcome_of};
ghost use Rattle.searcher.specs.PointStateViews.{lies_in};

use certificate::{Bound, Domain, Interval, Version};
use instruction_set::Instruction;
use rights::limits::REGISTERS;
use std::alloc::{AllocError, Global};
use texts::Name;
use transfer::{Outcome, OutcomeVisitor};

/// Changes of a point's bound after which intervals are widened to constants of the program.
const FEW_CHANGES: u32 = 3;

/// Changes after which they are widened to all values.
const MANY_CHANGES: u32 = 24;

/// A point: its bound, if it is reached, and whether its outcomes are still to be looked at.
#[derive(Clone, Copy)]
pub(crate) struct PointState {
    pub bound: Option<Bound>,
    changes: u32,
    pub waits: bool,
}

/// The points from one on and before another.
#[derive(Clone, Copy)]
pub(crate) struct PointRange {
    pub first: usize,
    pub end: usize,
}

impl PointRange {
    /// No points.
    const NONE: PointRange = PointRange {
        first: usize::MAX,
        end: 0,
    };

    /// Grows to hold a point.
    fn hold(&mut self, point: usize) {
        self.first = self.first.min(point);
        self.end = self.end.max(point.saturating_add(1));
    }
}

/// A program's points, with the constants at which its registers are compared or set. Their bounds are told as a certificate of
/// this version tells them. Those that came to wait are in a range, so that no other is looked at.
#[derive(Drop)]
pub(crate) struct ProgramPoints {
    pub name: Name,
    version: Version,
    constants: Vec<u32>,
    pub point_states: Vec<PointState>,
    pub waiting: PointRange,
}

/// The greatest constant that isn't above a value, or 0; the constants rise.
fn constant_below(constants: &[u32], value: u32) -> u32
    ensures { result ≤ value }
{
    match constants.binary_search(&value) {
        Ok(_) => value,
        Err(0) => 0,
        Err(above) => constants[above - 1].min(value),
    }
}

/// The least constant that isn't below a value, or the greatest value of a register; the constants rise.
fn constant_above(constants: &[u32], value: u32) -> u32
    ensures { value ≤ result }
{
    match constants.binary_search(&value) {
        Ok(_) => value,
        Err(above) => match constants.get(above) {
            None => u32::MAX,
            Some(constant) => (*constant).max(value),
        },
    }
}

/// An interval that grew, with the ends that moved taken further.
fn widened_interval(old: Interval, grown: Interval, constants: &[u32]) -> Interval
    ensures { interval_within (interval_of grown) (interval_of result) ≡ true }
{
    let low = if grown.low() < old.low() {
        constant_below(constants, grown.low())
    } else {
        grown.low()
    };
    let high = if old.high() < grown.high() {
        constant_above(constants, grown.high())
    } else {
        grown.high()
    };
    if low <= high {
        Interval::new(low, high)
    } else {
        Interval::FULL
    }
}

/// An interval that grew, taken further: to constants, or late to all values.
fn taken_further(old: Interval, grown: Interval, constants: &[u32], is_late: bool) -> Interval
    ensures { interval_within (interval_of grown) (interval_of result) ≡ true }
{
    if is_late {
        return Interval::FULL;
    }
    widened_interval(old, grown, constants)
}

/// A bound that grew, with the registers widened that did.
fn widened(old: &Bound, grown: &Bound, constants: &[u32], is_late: bool) -> Bound
    ensures { bound_within (bound_of grown.now) (bound_of result) ≡ true }
{
    let mut next = *grown;
    for register in 0..REGISTERS {
        let register = register as u8;
        let before = old.interval(register);
        let after = grown.interval(register);
        if !after.within(&before) {
            let interval = taken_further(before, after, constants, is_late);
            next = next.with_interval(register, interval);
        }
    }
    next
}

/// The join of a bound and an outcome; after a few changes with the registers widened that grew.
fn grown_to(there: &Bound, outcome: &Outcome<'_>, changes: u32, constants: &[u32]) -> Bound
    ensures outcome { bound_within (outcome_of outcome.now).bound (bound_of result) ≡ true }
    ensures grows { bound_within (bound_of there.now) (bound_of result) ≡ true }
{
    let joined = there.join(&outcome.bound_there());
    if changes <= FEW_CHANGES {
        return joined;
    }
    widened(there, &joined, constants, changes > MANY_CHANGES)
}

/// Has a bound grow to its join with an outcome; after a few changes with the registers widened that grew.
fn grow(there: &mut Bound, outcome: &Outcome<'_>, changes: u32, constants: &[u32])
    ensures outcome { bound_within (outcome_of outcome.now).bound (bound_of there.new) ≡ true }
    ensures grows { bound_within (bound_of there.old) (bound_of there.new) ≡ true }
{
    *there = grown_to(there, outcome, changes, constants);
}

/// Has a bound be as this version tells it, which is above what it was.
fn tell(bound: &mut Bound, version: Version)
    ensures { bound_within (bound_of bound.old) (bound_of bound.new) ≡ true }
{
    bound.tell_in(version);
}

impl PointState {
    /// A point that isn't reached.
    fn new() -> PointState {
        PointState {
            bound: None,
            changes: 0,
            waits: false,
        }
    }

    /// Takes an outcome: the bound grows to hold it, as this version tells it, and waits where it grew.
    fn take(&mut self, outcome: &Outcome<'_>, constants: &[u32], version: Version)
        ensures outcome { lies_in self.new.bound (outcome_of outcome.now) ≡ true }
        ensures grows { (o : OutcomeSeen) → lies_in self.old.bound o ≡ true → lies_in self.new.bound o ≡ true }
        ensures waits { (self.new.waits ≡ true) ⊎ (self.new.bound ≡ self.old.bound) }
    {
        let Some(there) = &mut self.bound else {
            let mut first = outcome.bound_there();
            tell(&mut first, version);
            self.bound = Some(first);
            self.waits = true;
            return;
        };
        if outcome.is_within(there) {
            return;
        }
        self.changes = self.changes.saturating_add(1);
        grow(there, outcome, self.changes, constants);
        tell(there, version);
        self.waits = true;
    }
}

/// The constant of an instruction.
fn constant_of(instruction: &Instruction) -> Option<u32> {
    match instruction {
        Instruction::Set { value, .. }
        | Instruction::Jeq { value, .. }
        | Instruction::Jlt { value, .. } => Some(*value),
        _ => None,
    }
}

/// The constants of a program, with the numbers beside them, rising, each once.
fn constants_of(alloc: Global, code: &[Instruction]) -> Result<Vec<u32>, AllocError> {
    let mut constants = Vec::new(alloc);
    for instruction in code {
        if let Some(value) = constant_of(instruction) {
            constants.push(value)?;
            constants.push(value.saturating_sub(1))?;
            constants.push(value.saturating_add(1))?;
        }
    }
    constants.sort_unstable();
    constants.dedup();
    Ok(constants)
}

impl ProgramPoints {
    /// The points of a program, none of them reached, whose bounds this version tells.
    pub(crate) fn new(
        alloc: Global,
        name: Name,
        version: Version,
        code: &[Instruction],
    ) -> Result<ProgramPoints, AllocError> {
        let constants = constants_of(alloc, code)?;
        let mut point_states = Vec::with_capacity(alloc, code.len())?;
        for _ in code {
            point_states.push(PointState::new())?;
        }
        Ok(ProgramPoints {
            name,
            version,
            constants,
            point_states,
            waiting: PointRange::NONE,
        })
    }

    /// The range of the points that wait. From then on that of those alone is told that come to wait.
    pub(crate) fn take_range(&mut self) -> PointRange {
        let waiting = self.waiting;
        self.waiting = PointRange::NONE;
        waiting
    }

    /// The bound of a point that waits, which waits no more.
    pub(crate) fn next_at(&mut self, point: usize) -> Option<Bound> {
        let point_state = self.point_states.get_mut(point)?;
        if !point_state.waits {
            return None;
        }
        point_state.waits = false;
        point_state.bound
    }

    /// Has a point wait again, if it is reached.
    pub(crate) fn wake(&mut self, point: usize) {
        if let Some(point_state) = self.point_states.get_mut(point) {
            point_state.waits = point_state.bound.is_some();
            self.waiting.hold(point);
        }
    }
}

impl OutcomeVisitor for ProgramPoints {
    ghost passes = { λ t o. true };

    ghost joins = { λ t. None };

    ghost kept = { λ t. None };

    /// Takes the outcome at its point, if the program has that, and goes on to the next.
    fn visit(&mut self, outcome: &Outcome<'_>) -> bool
        ensures value { result ≡ true }
        ensures taken { IfSome (slice_get self.new.point_states.items outcome.now.point) (λ point_state. lies_in point_state.bound (outcome_of outcome.now) ≡ true) }
    {
        if let Some(point_state) = self.point_states.get_mut(outcome.point) {
            point_state.take(outcome, &self.constants, self.version);
            if point_state.waits {
                self.waiting.hold(outcome.point);
            }
        }
        true
    }
}
