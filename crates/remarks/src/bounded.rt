//! A program whose points have bounds, and at which of them something holds.

ghost use Rattle.std.specs.Prelude.{◌≡◌, ◌&&◌, ◌||◌, ◌==◌, ◌<◌, IfOk, false, filter, map, not, option_map, true};
ghost use Rattle.std.specs.List.{list_any};
ghost use Rattle.std.specs.Option.{option_map_or};
ghost use Rattle.certificate.specs.Views.{bound_of, held_of, target_of};
ghost use Rattle.remarks.specs.PointViews.{holds};
ghost use Rattle.remarks.specs.RemarkViews.{bounds_of};
ghost use Rattle.remarks.specs.Remarks.{are_sides, begins_way, bound_here, doubled, has_both, held_here, idle, is_doubled};
ghost use Rattle.remarks.specs.Remarks.{is_either_at, is_fork, is_halt, stays_idle, is_led_by, is_off_at, is_on_at, is_skipping, is_stray, is_there, is_working};
ghost use Rattle.remarks.specs.Remarks.{may_be_number, parts_at, may_close, may_go_through, may_name_number};
ghost use Rattle.remarks.specs.Ways.{from_which, is_flagged, points};
ghost use Rattle.instruction_set.specs.Views.{code_of, instruction_of, operand_of, successors_of};
ghost use Rattle.instruction_set.specs.Successors.{enters_mode as enters_mode_seen};
ghost use Rattle.rules.specs.Slots.{may_be_on};
ghost use Rattle.transfer.specs.Views.{through_of};

use crate::point_test::PointTest;
use crate::ways::{count, from_which, is_flagged};
use call_facts::{first_operand, forks, frees};
use certificate::{Bound, Domain, Held, ModeBound, Target};
use instruction_set::{Instruction, Operand, Successors, enters_mode, successors_at};
use std::alloc::{AllocError, Global};
use transfer::{Passed, Through, may_be_on, needed, operand_interval};

/// A program, and the bounds of its points.
#[derive(Drop)]
pub(crate) struct Bounded<'a> {
    pub name: &'a [u8],
    pub code: &'a [Instruction],
    pub untrusted: bool,
    pub bounds: Vec<Option<Bound>>,
}

/// Whether it may be an end of each side of the same pair.
fn are_sides(target: &Target, other: &Target) -> bool
    ensures { result ≡ are_sides (target_of target.now) (target_of other.now) }
{
    match (target, other) {
        (Target::Socket(class, side), Target::Socket(same, across)) => {
            class.is(same) && *across == side.other()
        }
        _ => false,
    }
}

/// Whether an operand may be a number.
fn may_be_number(bound: &Bound, operand: Operand, number: u32) -> bool
    ensures { result ≡ may_be_number (bound_of bound.now) number (operand_of operand) }
{
    let interval = operand_interval(bound, operand);
    interval.low() <= number && number <= interval.high()
}

/// Whether a call may go through a number by one of its operands, or send it.
fn may_go_through(bound: &Bound, through: &Option<Through>, number: u32) -> bool
    ensures { result ≡ may_go_through (bound_of bound.now) number (option_map through_of through.now) }
{
    match through {
        None => false,
        Some(through) => {
            may_be_number(bound, through.operand, number)
                || match through.need.passed {
                    Passed::Sent(sent) => may_be_number(bound, sent, number),
                    Passed::Nothing | Passed::Received => false,
                }
        }
    }
}

/// Whether an instruction may name a number.
fn may_name_number(bound: Option<&Bound>, instruction: &Instruction, number: u32) -> bool
    ensures { result ≡ may_name_number number (option_map (λ b. bound_of b.now) bound.entry) (instruction_of instruction.now) }
{
    match (bound, instruction) {
        (Some(bound), Instruction::Invoke { call, .. }) => {
            let needs = needed(call);
            may_go_through(bound, &needs.first, number)
                || may_go_through(bound, &needs.second, number)
        }
        _ => false,
    }
}

/// Whether an instruction makes a process.
fn is_fork(instruction: &Instruction) -> bool
    ensures { result ≡ is_fork (instruction_of instruction.now) }
{
    match instruction {
        Instruction::Invoke { call, .. } => forks(call.call()),
        _ => false,
    }
}

/// Whether there is an operand, and it may be a number.
fn may_be_operand(bound: &Bound, operand: Option<Operand>, number: u32) -> bool
    ensures { result ≡ option_map_or (may_be_number (bound_of bound.now) number) (option_map operand_of operand) false }
{
    match operand {
        None => false,
        Some(operand) => may_be_number(bound, operand, number),
    }
}

/// Whether an instruction may close a number.
fn may_close(bound: Option<&Bound>, instruction: &Instruction, number: u32) -> bool
    ensures { result ≡ may_close number (option_map (λ b. bound_of b.now) bound.entry) (instruction_of instruction.now) }
{
    match (bound, instruction) {
        (Some(bound), Instruction::Invoke { call, .. }) => {
            frees(call.call()) && may_be_operand(bound, first_operand(call), number)
        }
        _ => false,
    }
}

/// Whether an instruction is a call that works on what a descriptor is of.
fn is_working(instruction: &Instruction) -> bool
    ensures { result ≡ is_working (instruction_of instruction.now) }
{
    match instruction {
        Instruction::Invoke { call, .. } => match needed(call).first {
            None => false,
            Some(through) => through.need.works,
        },
        _ => false,
    }
}

impl<'a> Bounded<'a> {
    /// The bound of a point, if it has one.
    pub(crate) fn bound_here(&self, point: usize) -> Option<&Bound>
        ensures { option_map (λ b. bound_of b.now) result ≡ bound_here (bounds_of self.now.bounds.items) point }
    {
        match self.bounds.get(point) {
            None | Some(None) => None,
            Some(Some(bound)) => Some(bound),
        }
    }

    /// Whether a process may be there in the mode.
    pub(crate) fn is_on_at(&self, point: usize) -> bool
        ensures { result ≡ is_on_at (bounds_of self.now.bounds.items) point }
    {
        match self.bound_here(point) {
            None => false,
            Some(bound) => may_be_on(bound.mode()),
        }
    }

    /// Whether a process may be there in the mode or outside it.
    fn is_either_at(&self, point: usize) -> bool
        ensures { result ≡ is_either_at (bounds_of self.now.bounds.items) point }
    {
        match self.bound_here(point) {
            None => false,
            Some(bound) => match bound.mode() {
                ModeBound::Either => true,
                ModeBound::Off | ModeBound::On => false,
            },
        }
    }

    /// Whether a process is there surely outside the mode.
    fn is_off_at(&self, point: usize) -> bool
        ensures { result ≡ is_off_at (bounds_of self.now.bounds.items) point }
    {
        match self.bound_here(point) {
            None => false,
            Some(bound) => !may_be_on(bound.mode()),
        }
    }

    /// What a number may hold there.
    pub(crate) fn held_here(&self, number: u32, point: usize) -> Option<Held>
        ensures { option_map held_of result ≡ held_here (bounds_of self.now.bounds.items) number point }
    {
        match self.bound_here(point) {
            None => None,
            Some(bound) => bound.slot(number).held(),
        }
    }

    /// Whether the instruction there only ends the process.
    pub(crate) fn is_halt_at(&self, point: usize) -> bool
        ensures { result ≡ is_there (code_of self.now.code.now) is_halt point }
    {
        match self.code.get(point) {
            None => false,
            Some(instruction) => matches!(instruction, Instruction::Halt),
        }
    }

    /// Whether the instruction there enters the mode.
    pub(crate) fn enters_at(&self, point: usize) -> bool
        ensures { result ≡ is_there (code_of self.now.code.now) enters_mode_seen point }
    {
        match self.code.get(point) {
            None => false,
            Some(instruction) => enters_mode(instruction),
        }
    }

    /// Whether, in the mode, a number may hold there what lies in no grant.
    fn is_stray(&self, number: u32, point: usize) -> bool
        ensures { result ≡ is_stray (code_of self.now.code.now) (bounds_of self.now.bounds.items) number point }
    {
        self.is_on_at(point)
            && !self.is_halt_at(point)
            && match self.held_here(number, point) {
                None => false,
                Some(held) => matches!(held.target(), Target::AnyNode | Target::Unknown),
            }
    }

    /// Whether one of these is a point where the mode may be either.
    fn leads_to_either(&self, successors: Successors) -> bool
        ensures { result ≡ list_any (is_either_at (bounds_of self.now.bounds.items)) (successors_of successors) }
    {
        let next = match successors.next {
            None => false,
            Some(point) => self.is_either_at(point),
        };
        let other = match successors.other {
            None => false,
            Some(point) => self.is_either_at(point),
        };
        next || other
    }

    /// Whether a process comes from there to such a point without entering the mode.
    fn is_skipping(&self, point: usize) -> bool
        ensures { result ≡ is_skipping (code_of self.now.code.now) (bounds_of self.now.bounds.items) point }
    {
        self.is_off_at(point)
            && !self.enters_at(point)
            && self.leads_to_either(successors_at(self.code, point))
    }

    /// Whether the instruction there may name a number.
    fn names_at(&self, number: u32, point: usize) -> bool
        ensures { result ≡ is_there (code_of self.now.code.now) (may_name_number number (bound_here (bounds_of self.now.bounds.items) point)) point }
    {
        match self.code.get(point) {
            None => false,
            Some(instruction) => may_name_number(self.bound_here(point), instruction, number),
        }
    }

    /// Whether the instruction there may close a number.
    pub(crate) fn closes_at(&self, number: u32, point: usize) -> bool
        ensures { result ≡ is_there (code_of self.now.code.now) (may_close number (bound_here (bounds_of self.now.bounds.items) point)) point }
    {
        match self.code.get(point) {
            None => false,
            Some(instruction) => may_close(self.bound_here(point), instruction, number),
        }
    }

    /// Whether the instruction there works on what a descriptor is of.
    fn works_at(&self, point: usize) -> bool
        ensures { result ≡ is_there (code_of self.now.code.now) is_working point }
    {
        match self.code.get(point) {
            None => false,
            Some(instruction) => is_working(instruction),
        }
    }

    /// Whether parent and child part there: a choice right behind a fork.
    fn parts_at(&self, point: usize) -> bool
        ensures { result ≡ parts_at (code_of self.now.code.now) point }
    {
        match self.code.get(point) {
            None => false,
            Some(instruction) => {
                matches!(
                    instruction,
                    Instruction::Jeq { .. } | Instruction::Jlt { .. }
                ) && self.is_behind_fork(point)
            }
        }
    }

    /// Whether a fork leads to a point.
    fn is_behind_fork(&self, point: usize) -> bool
        ensures { result ≡ is_led_by (code_of self.now.code.now) (is_there (code_of self.now.code.now) is_fork) point }
    {
        (0..count(self.code)).any(|before| self.forks_at(before)
            && successors_at(self.code, before).has(point))
    }

    /// Whether the instruction there is a fork.
    fn forks_at(&self, point: usize) -> bool
        ensures { result ≡ is_there (code_of self.now.code.now) is_fork point }
    {
        match self.code.get(point) {
            None => false,
            Some(instruction) => is_fork(instruction),
        }
    }

    /// Whether entering the mode leads to a point.
    fn is_behind_entering(&self, point: usize) -> bool
        ensures { result ≡ is_led_by (code_of self.now.code.now) (is_there (code_of self.now.code.now) enters_mode_seen) point }
    {
        (0..count(self.code)).any(|before| self.enters_at(before)
            && successors_at(self.code, before).has(point))
    }

    /// Whether a choice leads to a point at which parent and child part.
    fn is_behind_parting(&self, point: usize) -> bool
        ensures { result ≡ is_led_by (code_of self.now.code.now) (parts_at (code_of self.now.code.now)) point }
    {
        (0..count(self.code)).any(|before| self.parts_at(before)
            && successors_at(self.code, before).has(point))
    }

    /// Whether a way begins at a point: where the program starts, where the mode is entered, and where parent and child part.
    fn begins_way(&self, point: usize) -> bool
        ensures { result ≡ begins_way (code_of self.now.code.now) point }
    {
        point == 0 || self.is_behind_entering(point) || self.is_behind_parting(point)
    }
}

impl<'a> Bounded<'a> {
    /// Whether something holds at a point.
    fn holds(&self, test: PointTest<'_>, point: usize) -> bool
        ensures { result ≡ holds (code_of self.now.code.now) (bounds_of self.now.bounds.items) test.entry point }
    {
        match test {
            PointTest::Bounded => self.bound_here(point).is_some(),
            PointTest::Calls => self.calls_at(point),
            PointTest::Works => self.works_at(point),
            PointTest::Names(number) => self.names_at(number, point),
            PointTest::Closes(number) => self.closes_at(number, point),
            PointTest::Stray(number) => self.is_stray(number, point),
            PointTest::Unsettled => self.is_either_at(point) && !self.is_halt_at(point),
            PointTest::Skipping => self.is_skipping(point),
            PointTest::UnsettledMarked(mixed) => self.goes_on_mixed(mixed, point),
            PointTest::SkippingMarked(mixed) => self.is_skipping_marked(mixed, point),
            PointTest::MayEnter { is_untold } => self.may_enter_at(is_untold, point),
            PointTest::Idle {
                named,
                worked,
                number,
            } => self.stays_idle(named, worked, number, point),
            PointTest::Both(number, other) => self.has_both_at(number, other, point),
            PointTest::Doubled {
                closed,
                others,
                number,
                other,
            } => self.is_doubled(closed, others, number, other, point),
            PointTest::Unflagged(flags) => !is_flagged(flags, point),
        }
    }

    /// The points at which something holds.
    pub(crate) fn points_where(
        &self,
        alloc: Global,
        test: PointTest<'_>,
    ) -> Result<Vec<usize>, AllocError>
        ensures { IfOk result (λ found. found.items
            ≡ filter (holds (code_of self.now.code.now) (bounds_of self.now.bounds.items) test.entry) (points (code_of self.now.code.now))) }
    {
        (0..count(self.code))
            .filter(|point| self.holds(test, *point))
            .collect(alloc)
    }

    /// Whether something holds at each point.
    pub(crate) fn flags(&self, alloc: Global, test: PointTest<'_>) -> Result<Vec<bool>, AllocError>
        ensures { IfOk result (λ found. found.items
            ≡ map (holds (code_of self.now.code.now) (bounds_of self.now.bounds.items) test.entry) (points (code_of self.now.code.now))) }
    {
        (0..count(self.code))
            .map(|point| self.holds(test, point))
            .collect(alloc)
    }

    /// Whether something holds at some point.
    pub(crate) fn any_point(&self, test: PointTest<'_>) -> bool
        ensures { result ≡ list_any (holds (code_of self.now.code.now) (bounds_of self.now.bounds.items) test.entry) (points (code_of self.now.code.now)) }
    {
        (0..count(self.code)).any(|point| self.holds(test, point))
    }

    /// The points from which one comes at which something holds.
    pub(crate) fn ahead(&self, alloc: Global, test: PointTest<'_>) -> Result<Vec<bool>, AllocError>
        ensures { IfOk result (λ found. found.items ≡ from_which (code_of self.now.code.now)
            (map (holds (code_of self.now.code.now) (bounds_of self.now.bounds.items) test.entry) (points (code_of self.now.code.now)))) }
    {
        let here = self.flags(alloc, test)?;
        from_which(alloc, self.code, here)
    }

    /// Whether, in the mode, a way begins at a point with a number open that no instruction names from there on, where some work on others.
    fn stays_idle(&self, named: &[bool], worked: &[bool], number: u32, point: usize) -> bool
        ensures { result ≡ stays_idle (code_of self.now.code.now) (bounds_of self.now.bounds.items) named.now worked.now number point }
    {
        self.is_on_at(point)
            && self.held_here(number, point).is_some()
            && !is_flagged(named, point)
            && is_flagged(worked, point)
            && self.begins_way(point)
    }

    /// The points at which, in the mode, a way begins with a number open that no instruction names from there on, where some work on others.
    pub(crate) fn idle(&self, alloc: Global, number: u32) -> Result<Vec<usize>, AllocError>
        ensures { IfOk result (λ found. found.items ≡ idle (code_of self.now.code.now) (bounds_of self.now.bounds.items) number) }
    {
        let named = self.ahead(alloc, PointTest::Names(number))?;
        let worked = self.ahead(alloc, PointTest::Works)?;
        self.points_where(
            alloc,
            PointTest::Idle {
                named: &named,
                worked: &worked,
                number,
            },
        )
    }

    /// Whether two numbers may be both ends of a pair there.
    fn has_both_at(&self, number: u32, other: u32, point: usize) -> bool
        ensures { result ≡ has_both (bounds_of self.now.bounds.items) number other point }
    {
        match (self.held_here(number, point), self.held_here(other, point)) {
            (Some(held), Some(across)) => are_sides(&held.target(), &across.target()),
            _ => false,
        }
    }

    /// Whether two numbers may be both ends of a pair there and stay open from there on, at a point that goes on.
    fn is_doubled(
        &self,
        closed: &[bool],
        others: &[bool],
        number: u32,
        other: u32,
        point: usize,
    ) -> bool
        ensures { result ≡ is_doubled (code_of self.now.code.now) (bounds_of self.now.bounds.items) closed.now others.now number other point }
    {
        self.has_both_at(number, other, point)
            && !is_flagged(closed, point)
            && !is_flagged(others, point)
            && !self.is_halt_at(point)
    }

    /// The points at which two numbers may be both ends of a pair and stay open from there on.
    pub(crate) fn doubled(
        &self,
        alloc: Global,
        number: u32,
        other: u32,
    ) -> Result<Vec<usize>, AllocError>
        ensures { IfOk result (λ found. found.items ≡ doubled (code_of self.now.code.now) (bounds_of self.now.bounds.items) number other) }
    {
        if !self.any_point(PointTest::Both(number, other)) {
            return Ok(Vec::new(alloc));
        }
        let closed = self.ahead(alloc, PointTest::Closes(number))?;
        let others = self.ahead(alloc, PointTest::Closes(other))?;
        self.points_where(
            alloc,
            PointTest::Doubled {
                closed: &closed,
                others: &others,
                number,
                other,
            },
        )
    }
}
