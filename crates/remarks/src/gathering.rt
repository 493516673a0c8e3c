//! How the remarks on a program are gathered, in their order.

ghost use Rattle.std.specs.Prelude.{◌≡◌, ◌&&◌, ◌||◌, IfOk, OnOk, not, option_map};
ghost use Rattle.std.specs.List.{flat_map, list_any, slice_get};
ghost use Rattle.certificate.specs.Views.{bound_of};
ghost use Rattle.instruction_set.specs.Views.{code_of, instruction_of};
ghost use Rattle.remarks.specs.Listed.{arrived, closed_there, closed_through, may_enter_at, mixed_remarks, never_enters};
ghost use Rattle.remarks.specs.Listed.{never_open_at, numbers, on_bounds, on_code, on_ends, on_held, on_number, on_numbers, on_points, on_whole};
ghost use Rattle.remarks.specs.Listed.{starts_outside, unreached, unreached_remarks, where_so};
ghost use Rattle.remarks.specs.RemarkViews.{AddsRemarks, bounds_of, remark_of};
ghost use Rattle.remarks.specs.Ways.{points};
ghost use Rattle.task.specs.Views.{starts_of};
ghost use Rattle.transfer.specs.Views.{through_of};

use crate::bounded::Bounded;
use crate::point_test::PointTest;
use crate::remarks::{Remark, Remarked, add, add_at};
use crate::ways::{count, is_flagged, reached};
use certificate::Bound;
use instruction_set::{Instruction, Operand};
use rights::limits::MAX_DESCRIPTORS;
use std::alloc::{AllocError, Global};
use task::Start;
use transfer::{Through, needed};

/// Whether some process starts with the program outside the mode.
fn any_starts_outside(program: usize, starts: &[Start]) -> bool
    ensures { result ≡ list_any (starts_outside program) (starts_of starts.now) }
{
    match starts {
        [] => false,
        [first, rest @ ..] => {
            (usize::from(first.program) == program && !first.mode)
                || any_starts_outside(program, rest)
        }
    }
}

impl<'a> Bounded<'a> {
    /// The points of the program.
    fn points(&self, alloc: Global) -> Result<Vec<usize>, AllocError>
        ensures { IfOk result (λ found. found.items ≡ points (code_of self.now.code.now)) }
    {
        let mut points = Vec::new(alloc);
        for point in 0..count(self.code) {
            points.push(point)?;
        }
        Ok(points)
    }

    /// Adds a remark of all of the program, if it holds.
    fn add_of_all(
        &self,
        alloc: Global,
        list: &mut Vec<Remarked>,
        remark: Remark,
        holds: bool,
    ) -> Result<(), AllocError>
        ensures { OnOk result (AddsRemarks list.old.items list.new.items (where_so holds (remark_of remark) (points (code_of self.now.code.now)))) }
    {
        if !holds {
            return Ok(());
        }
        let points = self.points(alloc)?;
        add(list, remark, points)
    }

    /// Whether a process may be at a point in the mode or, where the bounds don't tell what comes behind it, enter it there.
    pub(crate) fn may_enter_at(&self, is_untold: bool, point: usize) -> bool
        ensures { result ≡ may_enter_at (code_of self.now.code.now) (bounds_of self.now.bounds.items) is_untold point }
    {
        self.is_on_at(point) || (is_untold && self.enters_at(point))
    }

    /// Whether no process of the program enters the mode, though some start outside it.
    fn never_enters(&self, starts: &[Start], program: usize, has_cert: bool) -> bool
        ensures { result ≡ never_enters (starts_of starts.now) program (code_of self.now.code.now) (bounds_of self.now.bounds.items)
            (not has_cert || self.now.untrusted) }
    {
        let is_untold = !has_cert || self.untrusted;
        any_starts_outside(program, starts) && !self.any_point(PointTest::MayEnter { is_untold })
    }

    /// Whether something arrives at each point: by its bound, or, where there is no certificate, by the text.
    fn arrives(&self, alloc: Global, has_cert: bool) -> Result<Vec<bool>, AllocError>
        ensures { IfOk result (λ found. found.items ≡ arrived (code_of self.now.code.now) (bounds_of self.now.bounds.items) has_cert) }
    {
        if has_cert {
            self.flags(alloc, PointTest::Bounded)
        } else {
            reached(alloc, self.code)
        }
    }

    /// The points at which nothing arrives.
    fn unreached(&self, alloc: Global, has_cert: bool) -> Result<Vec<usize>, AllocError>
        ensures { IfOk result (λ found. found.items ≡ unreached (code_of self.now.code.now) (bounds_of self.now.bounds.items) has_cert) }
    {
        let arrived = self.arrives(alloc, has_cert)?;
        self.points_where(alloc, PointTest::Unflagged(&arrived))
    }

    /// Remarks where a process may be in the mode or outside it. A marked program is bounded outside the mode alone.
    #[tactic(auto, unfolding(crate::specs::Listed::mixed_remarks))]
    fn add_mixed(&self, alloc: Global, list: &mut Vec<Remarked>) -> Result<(), AllocError>
        ensures { OnOk result (AddsRemarks list.old.items list.new.items
            (mixed_remarks (code_of self.now.code.now) (bounds_of self.now.bounds.items) self.now.untrusted)) }
    {
        if self.untrusted {
            let ways = self.mixed_ways(alloc)?;
            let from = ways.skipping;
            add(list, Remark::Unsettled { from }, ways.unsettled)
        } else {
            let from = self.points_where(alloc, PointTest::Skipping)?;
            let points = self.points_where(alloc, PointTest::Unsettled)?;
            add(list, Remark::Unsettled { from }, points)
        }
    }

    /// The remarks on a number.
    #[tactic(auto, unfolding(crate::specs::Listed::on_number))]
    fn add_of_number(
        &self,
        alloc: Global,
        list: &mut Vec<Remarked>,
        number: u32,
    ) -> Result<(), AllocError>
        ensures { OnOk result (AddsRemarks list.old.items list.new.items (on_number (code_of self.now.code.now) (bounds_of self.now.bounds.items) number)) }
    {
        let strays = self.points_where(alloc, PointTest::Stray(number))?;
        add(list, Remark::Stray { number }, strays)?;
        let idle = self.idle(alloc, number)?;
        self.add_limits(alloc, list, number, &idle)?;
        add(list, Remark::Idle { number }, idle)
    }

    /// The remarks on all numbers.
    #[tactic(auto, unfolding(crate::specs::Listed::numbers))]
    fn add_of_numbers(&self, alloc: Global, list: &mut Vec<Remarked>) -> Result<(), AllocError>
        ensures { OnOk result (AddsRemarks list.old.items list.new.items
            (flat_map (on_number (code_of self.now.code.now) (bounds_of self.now.bounds.items)) numbers)) }
    {
        for number in 0..MAX_DESCRIPTORS as u32 {
            self.add_of_number(alloc, list, number)?;
        }
        Ok(())
    }

    /// Remarks that two numbers may be both ends of a pair. Each two are asked once, the lower first.
    #[tactic(auto, unfolding(crate::specs::Listed::on_numbers))]
    fn add_both(
        &self,
        alloc: Global,
        list: &mut Vec<Remarked>,
        number: u32,
        other: u32,
    ) -> Result<(), AllocError>
        ensures { OnOk result (AddsRemarks list.old.items list.new.items (on_numbers (code_of self.now.code.now) (bounds_of self.now.bounds.items) number other)) }
    {
        if number < other {
            let points = self.doubled(alloc, number, other)?;
            add(list, Remark::BothEnds { number, other }, points)?;
        }
        Ok(())
    }

    /// Remarks that of a number and each other.
    #[tactic(auto, unfolding(crate::specs::Listed::numbers))]
    fn add_others(
        &self,
        alloc: Global,
        list: &mut Vec<Remarked>,
        number: u32,
    ) -> Result<(), AllocError>
        ensures { OnOk result (AddsRemarks list.old.items list.new.items
            (flat_map (on_numbers (code_of self.now.code.now) (bounds_of self.now.bounds.items) number) numbers)) }
    {
        for other in 0..MAX_DESCRIPTORS as u32 {
            self.add_both(alloc, list, number, other)?;
        }
        Ok(())
    }

    /// Remarks that of all numbers.
    #[tactic(auto, unfolding(crate::specs::Listed::numbers))]
    fn add_pairs(&self, alloc: Global, list: &mut Vec<Remarked>) -> Result<(), AllocError>
        ensures { OnOk result (AddsRemarks list.old.items list.new.items
            (flat_map (λ n. flat_map (on_numbers (code_of self.now.code.now) (bounds_of self.now.bounds.items) n) numbers) numbers)) }
    {
        for number in 0..MAX_DESCRIPTORS as u32 {
            self.add_others(alloc, list, number)?;
        }
        Ok(())
    }

    /// The instruction of a point, if it is there.
    fn instruction_at(&self, point: usize) -> Option<&Instruction>
        ensures { option_map (λ i. instruction_of i.now) result ≡ slice_get (code_of self.now.code.now) point }
    {
        self.code.get(point)
    }

    /// Remarks that the instruction of a point names numbers that are never open there.
    #[tactic(auto, unfolding(crate::specs::Listed::never_open_at))]
    fn add_closed(
        &self,
        alloc: Global,
        list: &mut Vec<Remarked>,
        point: usize,
    ) -> Result<(), AllocError>
        ensures { OnOk result (AddsRemarks list.old.items list.new.items (never_open_at (code_of self.now.code.now) (bounds_of self.now.bounds.items) point)) }
    {
        add_closed_by(
            alloc,
            list,
            point,
            self.bound_here(point),
            self.instruction_at(point),
        )
    }

    /// Remarks that of all instructions.
    fn add_all_closed(&self, alloc: Global, list: &mut Vec<Remarked>) -> Result<(), AllocError>
        ensures { OnOk result (AddsRemarks list.old.items list.new.items
            (flat_map (never_open_at (code_of self.now.code.now) (bounds_of self.now.bounds.items)) (points (code_of self.now.code.now)))) }
    {
        for point in 0..count(self.code) {
            self.add_closed(alloc, list, point)?;
        }
        Ok(())
    }

    /// Remarks on ends of pairs and on what is never open.
    #[tactic(auto, unfolding(crate::specs::Listed::on_ends))]
    fn add_ends(&self, alloc: Global, list: &mut Vec<Remarked>) -> Result<(), AllocError>
        ensures { OnOk result (AddsRemarks list.old.items list.new.items (on_ends (code_of self.now.code.now) (bounds_of self.now.bounds.items))) }
    {
        self.add_pairs(alloc, list)?;
        self.add_all_closed(alloc, list)
    }

    /// Remarks on what is held.
    #[tactic(auto, unfolding(crate::specs::Listed::on_held))]
    fn add_held(&self, alloc: Global, list: &mut Vec<Remarked>) -> Result<(), AllocError>
        ensures { OnOk result (AddsRemarks list.old.items list.new.items (on_held (code_of self.now.code.now) (bounds_of self.now.bounds.items))) }
    {
        self.add_of_numbers(alloc, list)?;
        self.add_ends(alloc, list)
    }

    /// The remarks that the bounds of a certificate give.
    #[tactic(auto, unfolding(crate::specs::Listed::on_bounds))]
    fn add_bounded(&self, alloc: Global, list: &mut Vec<Remarked>) -> Result<(), AllocError>
        ensures { OnOk result (AddsRemarks list.old.items list.new.items
            (on_bounds (code_of self.now.code.now) (bounds_of self.now.bounds.items) self.now.untrusted)) }
    {
        self.add_mixed(alloc, list)?;
        self.add_held(alloc, list)
    }

    /// Remarks where nothing arrives.
    #[tactic(auto, unfolding(crate::specs::Listed::unreached_remarks))]
    fn add_unreached(
        &self,
        alloc: Global,
        list: &mut Vec<Remarked>,
        has_cert: bool,
    ) -> Result<(), AllocError>
        ensures { OnOk result (AddsRemarks list.old.items list.new.items (unreached_remarks (code_of self.now.code.now) (bounds_of self.now.bounds.items)
            has_cert self.now.untrusted)) }
    {
        let points = self.unreached(alloc, has_cert)?;
        let outside_alone = has_cert && self.untrusted;
        add(list, Remark::Unreached { outside_alone }, points)
    }

    /// Remarks where nothing arrives, and those that the bounds of a certificate give, if there is one.
    #[tactic(auto, unfolding(crate::specs::Listed::on_points))]
    fn add_by_points(
        &self,
        alloc: Global,
        list: &mut Vec<Remarked>,
        has_cert: bool,
    ) -> Result<(), AllocError>
        ensures { OnOk result (AddsRemarks list.old.items list.new.items
            (on_points (code_of self.now.code.now) (bounds_of self.now.bounds.items) has_cert self.now.untrusted)) }
    {
        self.add_unreached(alloc, list, has_cert)?;
        if has_cert {
            self.add_bounded(alloc, list)
        } else {
            Ok(())
        }
    }

    /// Remarks that no process of the program, by its number, enters the mode, and that it isn't trusted.
    #[tactic(auto, unfolding(crate::specs::Listed::on_whole))]
    fn add_of_whole(
        &self,
        alloc: Global,
        list: &mut Vec<Remarked>,
        starts: &[Start],
        program: usize,
        has_cert: bool,
    ) -> Result<(), AllocError>
        ensures { OnOk result (AddsRemarks list.old.items list.new.items (on_whole (starts_of starts.now) program (code_of self.now.code.now)
            (bounds_of self.now.bounds.items) has_cert self.now.untrusted)) }
    {
        let outside = self.never_enters(starts, program, has_cert);
        self.add_of_all(alloc, list, Remark::NeverEnters, outside)?;
        self.add_of_all(alloc, list, Remark::Untrusted, self.untrusted)
    }

    /// All remarks on the program, by its number.
    #[tactic(auto, unfolding(crate::specs::Listed::on_code))]
    pub(crate) fn add_all(
        &self,
        alloc: Global,
        list: &mut Vec<Remarked>,
        starts: &[Start],
        program: usize,
        has_cert: bool,
    ) -> Result<(), AllocError>
        ensures { OnOk result (AddsRemarks list.old.items list.new.items (on_code (starts_of starts.now) program (code_of self.now.code.now)
            (bounds_of self.now.bounds.items) has_cert self.now.untrusted)) }
    {
        self.add_of_whole(alloc, list, starts, program, has_cert)?;
        self.add_by_points(alloc, list, has_cert)
    }
}

/// Remarks that the number by which a call goes is never open there.
fn add_closed_through(
    alloc: Global,
    list: &mut Vec<Remarked>,
    point: usize,
    bound: &Bound,
    through: Option<Through>,
) -> Result<(), AllocError>
    ensures { OnOk result (AddsRemarks list.old.items list.new.items (closed_through point (bound_of bound.now) (option_map through_of through))) }
{
    match through {
        Some(
            Through {
                operand: Operand::Number(number),
                ..
            },
        ) if bound.slot(number).held().is_none() => {
            add_at(alloc, list, Remark::NeverOpen { number }, point)
        }
        _ => Ok(()),
    }
}

/// Remarks that an instruction names numbers that are never open by its bound.
fn add_closed_by(
    alloc: Global,
    list: &mut Vec<Remarked>,
    point: usize,
    bound: Option<&Bound>,
    instruction: Option<&Instruction>,
) -> Result<(), AllocError>
    ensures { OnOk result (AddsRemarks list.old.items list.new.items
        (closed_there point (option_map (λ b. bound_of b.now) bound.entry) (option_map (λ i. instruction_of i.now) instruction.entry))) }
{
    match (bound, instruction) {
        (Some(bound), Some(Instruction::Invoke { call, .. })) => {
            let needs = needed(call);
            add_closed_through(alloc, list, point, bound, needs.first)?;
            add_closed_through(alloc, list, point, bound, needs.second)
        }
        _ => Ok(()),
    }
}
