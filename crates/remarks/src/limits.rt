//! To what the numbers of a program could be limited in the mode.

ghost use Rattle.std.specs.Prelude.{◌≡◌, ◌&&◌, ◌==◌, OnOk, bit_and, not, option_map};
ghost use Rattle.std.specs.List.{list_any};
ghost use Rattle.certificate.specs.Views.{bound_of, held_of};
ghost use Rattle.instruction_set.specs.Views.{code_of};
ghost use Rattle.remarks.specs.Listed.{command_limit, has_same, held_limits, is_new_there, limits, limits_at, new_in_mode, right_limit};
ghost use Rattle.remarks.specs.RemarkViews.{AddsRemarks, bounds_of};

use crate::bounded::Bounded;
use crate::reaching::{uses_ahead, uses_at};
use crate::remarks::{Remark, Remarked, add_at};
use crate::ways::count;
use certificate::{Bound, Domain, Held};
use rights::{Fcntls, Rights};
use std::alloc::{AllocError, Global};
use transfer::may_be_on;

/// Whether a number has the same slot at a bound as at another, which is in the mode.
fn has_same(number: u32, bound: Option<&Bound>, other: Option<&Bound>) -> bool
    ensures { result ≡ has_same number (option_map (λ b. bound_of b.now) bound.entry) (option_map (λ b. bound_of b.now) other.entry) }
{
    match (bound, other) {
        (Some(bound), Some(other)) => {
            let (slot, was) = (bound.slot(number), other.slot(number));
            may_be_on(other.mode()) && slot.within(&was) && was.within(&slot)
        }
        _ => false,
    }
}

/// Remarks to which rights a number could be limited, if that is less than it has, and something.
fn add_right_limit(
    alloc: Global,
    list: &mut Vec<Remarked>,
    number: u32,
    point: usize,
    has: Rights,
    used: Rights,
) -> Result<(), AllocError>
    ensures { OnOk result (AddsRemarks list.old.items list.new.items (right_limit number point has.0 used.0)) }
{
    if used != Rights::empty() && !used.contains(has.noted()) {
        let most = used.intersection(has);
        add_at(alloc, list, Remark::Rights { number, most }, point)?;
    }
    Ok(())
}

/// Remarks to which commands it could be.
fn add_command_limit(
    alloc: Global,
    list: &mut Vec<Remarked>,
    number: u32,
    point: usize,
    has: Fcntls,
    used: Fcntls,
) -> Result<(), AllocError>
    ensures { OnOk result (AddsRemarks list.old.items list.new.items (command_limit number point has.0 used.0)) }
{
    if used != Fcntls::empty() && !used.contains(has) {
        let most = used.intersection(has);
        add_at(alloc, list, Remark::Commands { number, most }, point)?;
    }
    Ok(())
}

impl<'a> Bounded<'a> {
    /// Whether a number isn't in the mode with the same slot at the point before.
    fn is_new(&self, number: u32, point: usize) -> bool
        ensures { result ≡ is_new_there (bounds_of self.now.bounds.items) number point }
    {
        point == 0 || !has_same(number, self.bound_here(point), self.bound_here(point - 1))
    }

    /// What a number may hold at a point in the mode, unless it is the same in the mode at the point before.
    fn new_in_mode(&self, number: u32, point: usize) -> Option<Held>
        ensures { option_map held_of result ≡ new_in_mode (bounds_of self.now.bounds.items) number point }
    {
        if self.is_on_at(point) && self.is_new(number, point) {
            self.held_here(number, point)
        } else {
            None
        }
    }

    /// Remarks to what a number could be limited at a point by what it holds newly.
    fn add_held_limits(
        &self,
        alloc: Global,
        list: &mut Vec<Remarked>,
        number: u32,
        point: usize,
        held: &Held,
    ) -> Result<(), AllocError>
        ensures { OnOk result (AddsRemarks list.old.items list.new.items
            (held_limits (code_of self.now.code.now) (bounds_of self.now.bounds.items) number point (held_of held.now))) }
    {
        let ahead = uses_ahead(alloc, self.code, &self.bounds, &held.target())?;
        let used = uses_at(&ahead, point);
        add_right_limit(
            alloc,
            list,
            number,
            point,
            held.rights().greatest(),
            used.rights,
        )?;
        add_command_limit(
            alloc,
            list,
            number,
            point,
            held.fcntls().greatest(),
            used.commands,
        )
    }

    /// Remarks the same, unless no instruction from there on names the number.
    fn add_limits_at(
        &self,
        alloc: Global,
        list: &mut Vec<Remarked>,
        number: u32,
        unnamed: &[usize],
        point: usize,
    ) -> Result<(), AllocError>
        ensures { OnOk result (AddsRemarks list.old.items list.new.items
            (limits_at (code_of self.now.code.now) (bounds_of self.now.bounds.items) number unnamed.now point)) }
    {
        if unnamed.contains(&point) {
            return Ok(());
        }
        match self.new_in_mode(number, point) {
            None => Ok(()),
            Some(held) => self.add_held_limits(alloc, list, number, point, &held),
        }
    }

    /// Remarks to what a number could be limited at the points in the mode that have it newly, if that is less than it has. Nothing is
    /// told where no call needs anything of it any more, or none names it.
    #[tactic(auto, unfolding(crate::specs::Listed::limits))]
    pub(crate) fn add_limits(
        &self,
        alloc: Global,
        list: &mut Vec<Remarked>,
        number: u32,
        unnamed: &[usize],
    ) -> Result<(), AllocError>
        ensures { OnOk result (AddsRemarks list.old.items list.new.items
            (limits (code_of self.now.code.now) (bounds_of self.now.bounds.items) number unnamed.now)) }
    {
        for point in 0..count(self.code) {
            self.add_limits_at(alloc, list, number, unnamed, point)?;
        }
        Ok(())
    }
}
