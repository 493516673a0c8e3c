//! A marked program, whose points are bounded outside the mode alone, and where a way of it skips the entering.

ghost use Rattle.std.specs.Prelude.{◌≡◌, IfOk};
ghost use Rattle.instruction_set.specs.Views.{code_of};
ghost use Rattle.remarks.specs.Marked.{enters_and_leads, goes_on_mixed, is_entered_at, is_mixed_at, is_outside_at, is_skipping_marked};
ghost use Rattle.remarks.specs.Marked.{mixed_points, skipping_marked, unsettled_marked};
ghost use Rattle.remarks.specs.RemarkViews.{bounds_of};
ghost use Rattle.remarks.specs.Ways.{points};

use crate::bounded::Bounded;
use crate::looks::may_be_off;
use crate::point_test::PointTest;
use crate::ways::{count, from_which, is_flagged, leads_to_flagged, only};
use std::alloc::{AllocError, Global};

/// Where a process of a marked program may be in the mode or outside it.
#[derive(Drop)]
pub(crate) struct MixedWays {
    /// The points that go on, at which it may.
    pub unsettled: Vec<usize>,
    /// Those from which one comes to such a point without entering the mode.
    pub skipping: Vec<usize>,
}

impl<'a> Bounded<'a> {
    /// Whether a process may be there outside the mode.
    fn is_outside_at(&self, point: usize) -> bool
        ensures { result ≡ is_outside_at (bounds_of self.now.bounds.items) point }
    {
        match self.bound_here(point) {
            None => false,
            Some(bound) => may_be_off(bound.mode()),
        }
    }

    /// Whether a process enters the mode there and goes on to a flagged point.
    fn enters_and_leads(&self, flags: &[bool], point: usize) -> bool
        ensures { result ≡ enters_and_leads (code_of self.now.code.now) (bounds_of self.now.bounds.items) flags.now point }
    {
        self.is_outside_at(point)
            && self.enters_at(point)
            && leads_to_flagged(self.code, flags, point)
    }

    /// Whether a process comes to a point from where it enters the mode.
    fn is_entered_at(&self, alloc: Global, point: usize) -> Result<bool, AllocError>
        ensures { IfOk result (λ is_entered. is_entered ≡ is_entered_at (code_of self.now.code.now) (bounds_of self.now.bounds.items) point) }
    {
        let here = only(alloc, self.code, point)?;
        let ahead = from_which(alloc, self.code, here)?;
        Ok((0..count(self.code)).any(|before| self.enters_and_leads(&ahead, before)))
    }

    /// Whether a process may be there outside the mode, and another comes there in it.
    fn is_mixed_at(&self, alloc: Global, point: usize) -> Result<bool, AllocError>
        ensures { IfOk result (λ is_mixed. is_mixed ≡ is_mixed_at (code_of self.now.code.now) (bounds_of self.now.bounds.items) point) }
    {
        if self.is_outside_at(point) {
            self.is_entered_at(alloc, point)
        } else {
            Ok(false)
        }
    }

    /// Whether a process may be at each point outside the mode, and another comes there in it.
    fn mixed_points(&self, alloc: Global) -> Result<Vec<bool>, AllocError>
        ensures { IfOk result (λ found. found.items ≡ mixed_points (code_of self.now.code.now) (bounds_of self.now.bounds.items)) }
    {
        let mut mixed = Vec::new(alloc);
        for point in 0..count(self.code) {
            mixed.push(self.is_mixed_at(alloc, point)?)?;
        }
        Ok(mixed)
    }

    /// Whether a process that is there in the mode or outside it goes on.
    pub(crate) fn goes_on_mixed(&self, mixed: &[bool], point: usize) -> bool
        ensures { result ≡ goes_on_mixed (code_of self.now.code.now) mixed.now point }
    {
        is_flagged(mixed, point) && !self.is_halt_at(point)
    }

    /// Whether a process comes from there to a point where it may be in the mode or not, without entering it.
    pub(crate) fn is_skipping_marked(&self, mixed: &[bool], point: usize) -> bool
        ensures { result ≡ is_skipping_marked (code_of self.now.code.now) (bounds_of self.now.bounds.items) mixed.now point }
    {
        self.is_outside_at(point)
            && !is_flagged(mixed, point)
            && !self.enters_at(point)
            && leads_to_flagged(self.code, mixed, point)
    }

    /// Where a process of a marked program may be in the mode or outside it.
    pub(crate) fn mixed_ways(&self, alloc: Global) -> Result<MixedWays, AllocError>
        ensures goes_on { IfOk result (λ ways. ways.unsettled.items ≡ unsettled_marked (code_of self.now.code.now) (bounds_of self.now.bounds.items)) }
        ensures skips { IfOk result (λ ways. ways.skipping.items ≡ skipping_marked (code_of self.now.code.now) (bounds_of self.now.bounds.items)) }
    {
        let mixed = self.mixed_points(alloc)?;
        let unsettled = self.points_where(alloc, PointTest::UnsettledMarked(&mixed))?;
        let skipping = self.points_where(alloc, PointTest::SkippingMarked(&mixed))?;
        Ok(MixedWays {
            unsettled,
            skipping,
        })
    }
}
