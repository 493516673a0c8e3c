//! What the calls need that come from a point on, by the text of a program alone.

ghost use Rattle.std.specs.Prelude.{◌≡◌, IfOk, map, not, option_map, true};
ghost use Rattle.certificate.specs.Views.{bound_of, target_of};
ghost use Rattle.instruction_set.specs.Views.{code_of, instruction_of, operand_of, successors_of};
ghost use Rattle.remarks.specs.RemarkViews.{bounds_of, uses_seen};
ghost use Rattle.remarks.specs.Uses.{all_uses, both_uses, is_related, names_target, no_uses, or_later, sends_target, uses_ahead, uses_at, uses_at_all, uses_by};
ghost use Rattle.remarks.specs.Uses.{uses_here, uses_later, uses_of, uses_on, uses_through};
ghost use Rattle.transfer.specs.Views.{passed_of, through_of};

use crate::ways::count;
use certificate::{Bound, Domain, Held, Target};
use instruction_set::{Instruction, Operand, Successors, successors_at};
use rights::{Fcntls, Rights};
use std::alloc::{AllocError, Global};
use transfer::{Passed, SlotTest, Through, all_slots_pass, needed};

/// What calls need of a descriptor, or keep by a limit.
#[derive(Clone, Copy)]
pub struct Uses {
    pub rights: Rights,
    pub commands: Fcntls,
}

impl Uses {
    /// Nothing.
    fn none() -> Uses
        ensures { uses_seen result ≡ no_uses }
    {
        Uses {
            rights: Rights::empty(),
            commands: Fcntls::empty(),
        }
    }

    /// All.
    fn all() -> Uses
        ensures { uses_seen result ≡ all_uses }
    {
        Uses {
            rights: Rights::all(),
            commands: Fcntls::all(),
        }
    }

    /// Whether these are the others.
    fn is(self, other: Uses) -> bool
        ensures { result ≡ true → uses_seen self ≡ uses_seen other }
    {
        self.rights == other.rights && self.commands == other.commands
    }

    /// Both together.
    pub fn with(self, other: Uses) -> Uses
        ensures { uses_seen result ≡ both_uses (uses_seen self) (uses_seen other) }
    {
        Uses {
            rights: self.rights.union(other.rights),
            commands: self.commands.union(other.commands),
        }
    }
}

/// The test that a slot isn't of what a target may be.
#[derive(Clone, Copy)]
struct IsUnrelated<'a> {
    target: &'a Target,
}

impl<'a> SlotTest for IsUnrelated<'a> {
    ghost passes = { λ t s. not (is_related (target_of t.target.now) s.held) };

    fn asks(&self, _number: u8, held: &Held) -> bool {
        let other = held.target();
        !(other.within(self.target) || self.target.within(&other))
    }
}

/// Whether an operand may name a slot of what a target may be.
fn names_target(bound: &Bound, operand: Operand, target: &Target) -> bool
    ensures { result ≡ names_target (bound_of bound.now) (operand_of operand) (target_of target.now) }
{
    !all_slots_pass(bound, operand, &IsUnrelated { target })
}

/// Whether a call sends such a slot away.
fn sends_target(bound: &Bound, target: &Target, passed: Passed) -> bool
    ensures { result ≡ sends_target (bound_of bound.now) (target_of target.now) (passed_of passed) }
{
    match passed {
        Passed::Nothing | Passed::Received => false,
        Passed::Sent(sent) => names_target(bound, sent, target),
    }
}

/// What a call needs of what a target may be by one of its operands, or keeps by a limit; all where it sends such a descriptor away.
fn uses_by(bound: &Bound, target: &Target, through: &Through) -> Uses
    ensures { uses_seen result ≡ uses_by (bound_of bound.now) (target_of target.now) (through_of through.now) }
{
    let need = &through.need;
    if sends_target(bound, target, need.passed) {
        Uses::all()
    } else if names_target(bound, through.operand, target) {
        Uses {
            rights: need.rights.union(need.further).union(need.kept_rights),
            commands: need.commands.union(need.kept_commands),
        }
    } else {
        Uses::none()
    }
}

/// The same, where the call has the operand.
fn uses_through(bound: &Bound, target: &Target, through: &Option<Through>) -> Uses
    ensures { uses_seen result ≡ uses_through (bound_of bound.now) (target_of target.now) (option_map through_of through.now) }
{
    match through {
        Some(through) => uses_by(bound, target, through),
        None => Uses::none(),
    }
}

/// What an instruction needs of what a target may be, under a bound. (own)
pub fn uses_of(instruction: &Instruction, bound: &Option<Bound>, target: &Target) -> Uses
    ensures { uses_seen result ≡ uses_of (instruction_of instruction.now) (option_map bound_of bound.now) (target_of target.now) }
{
    let (Instruction::Invoke { call, .. }, Some(bound)) = (instruction, bound) else {
        return Uses::none();
    };
    let needs = needed(call);
    uses_through(bound, target, &needs.first).with(uses_through(bound, target, &needs.second))
}

/// What the instruction of a point needs of what a target may be.
fn uses_on(code: &[Instruction], bounds: &[Option<Bound>], target: &Target, point: usize) -> Uses
    ensures { uses_seen result ≡ uses_on (code_of code.now) (bounds_of bounds.now) (target_of target.now) point }
{
    match (code.get(point), bounds.get(point)) {
        (None, _) => Uses::none(),
        (Some(instruction), None) => uses_of(instruction, &None, target),
        (Some(instruction), Some(bound)) => uses_of(instruction, bound, target),
    }
}

/// What the instruction of each point needs of what a target may be.
fn uses_here(
    alloc: Global,
    code: &[Instruction],
    bounds: &[Option<Bound>],
    target: &Target,
) -> Result<Vec<Uses>, AllocError>
    ensures { IfOk result (λ found. map uses_seen found.items ≡ uses_here (code_of code.now) (bounds_of bounds.now) (target_of target.now)) }
{
    let mut uses = Vec::new(alloc);
    for point in 0..count(code) {
        uses.push(uses_on(code, bounds, target, point))?;
    }
    Ok(uses)
}

/// What a point needs.
pub(crate) fn uses_at(uses: &[Uses], point: usize) -> Uses
    ensures { uses_seen result ≡ uses_at (map uses_seen uses.now) point }
{
    match uses.get(point) {
        None => Uses::none(),
        Some(here) => *here,
    }
}

/// What the points need that an instruction leads to.
fn uses_at_all(uses: &[Uses], successors: Successors) -> Uses
    ensures { uses_seen result ≡ uses_at_all (map uses_seen uses.now) (successors_of successors) }
{
    let other = match successors.other {
        None => Uses::none(),
        Some(point) => uses_at(uses, point).with(Uses::none()),
    };
    match successors.next {
        None => other,
        Some(point) => uses_at(uses, point).with(other),
    }
}

/// What a point needs, and those that it leads to.
fn uses_later(code: &[Instruction], uses: &[Uses], point: usize) -> Uses
    ensures { uses_seen result ≡ uses_later (code_of code.now) (map uses_seen uses.now) point }
{
    uses_at(uses, point).with(uses_at_all(uses, successors_at(code, point)))
}

/// The same of each point.
fn or_later(alloc: Global, code: &[Instruction], uses: &[Uses]) -> Result<Vec<Uses>, AllocError>
    ensures { IfOk result (λ found. map uses_seen found.items ≡ or_later (code_of code.now) (map uses_seen uses.now)) }
{
    let mut later = Vec::new(alloc);
    for point in 0..count(code) {
        later.push(uses_later(code, uses, point))?;
    }
    Ok(later)
}

/// Whether these are the same.
fn are_same(uses: &[Uses], others: &[Uses]) -> bool
    ensures { result ≡ true → map uses_seen uses.now ≡ map uses_seen others.now }
{
    match (uses, others) {
        ([], []) => true,
        ([first, rest @ ..], [other, behind @ ..]) => first.is(*other) && are_same(rest, behind),
        _ => false,
    }
}

/// For each point what the calls that may come from there on need of what a target may be. Once a round adds nothing, no further one does.
pub(crate) fn uses_ahead(
    alloc: Global,
    code: &[Instruction],
    bounds: &[Option<Bound>],
    target: &Target,
) -> Result<Vec<Uses>, AllocError>
    ensures { IfOk result (λ found. map uses_seen found.items ≡ uses_ahead (code_of code.now) (bounds_of bounds.now) (target_of target.now)) }
{
    let mut found = uses_here(alloc, code, bounds, target)?;
    for taken in 0..count(code) {
        let more = or_later(alloc, code, &found)?;
        if are_same(&more, &found) {
            return Ok(found);
        }
        found = more;
    }
    Ok(found)
}
