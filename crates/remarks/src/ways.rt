//! From which points of a program some come, by its text alone.

ghost use Rattle.std.specs.Prelude.{◌≡◌, ◌||◌, IfOk, length, true};
ghost use Rattle.std.specs.List.{list_any};
ghost use Rattle.remarks.specs.Ways.{comes_to, from_which, is_flagged, only, or_before, reached};
ghost use Rattle.instruction_set.specs.Successors.{successors_at};
ghost use Rattle.instruction_set.specs.Views.{code_of};

use instruction_set::{Instruction, successors_at};
use std::alloc::{AllocError, Global};

/// Whether a point is flagged.
pub(crate) fn is_flagged(flags: &[bool], point: usize) -> bool
    ensures { result ≡ is_flagged flags.now point }
{
    match flags.get(point) {
        None => false,
        Some(flag) => *flag,
    }
}

/// Whether one of the points that a point leads to is flagged.
pub(crate) fn leads_to_flagged(code: &[Instruction], flags: &[bool], point: usize) -> bool
    ensures { result ≡ list_any (is_flagged flags.now) (successors_at (code_of code.now) point) }
{
    let successors = successors_at(code, point);
    let next = match successors.next {
        None => false,
        Some(point) => is_flagged(flags, point),
    };
    let other = match successors.other {
        None => false,
        Some(point) => is_flagged(flags, point),
    };
    next || other
}

/// How many points a program has.
pub(crate) fn count(code: &[Instruction]) -> usize
    ensures { result ≡ length (code_of code.now) }
{
    code.len()
}

/// The flags of points of which one alone is set.
pub(crate) fn only(
    alloc: Global,
    code: &[Instruction],
    point: usize,
) -> Result<Vec<bool>, AllocError>
    ensures { IfOk result (λ found. found.items ≡ only (code_of code.now) point) }
{
    (0..count(code)).map(|other| other == point).collect(alloc)
}

/// The points that are flagged, or lead to one that is.
fn or_before(alloc: Global, code: &[Instruction], flags: &[bool]) -> Result<Vec<bool>, AllocError>
    ensures { IfOk result (λ found. found.items ≡ or_before (code_of code.now) flags.now) }
{
    (0..count(code))
        .map(|point| is_flagged(flags, point) || leads_to_flagged(code, flags, point))
        .collect(alloc)
}

/// Whether the same points are flagged.
fn are_same(flags: &[bool], others: &[bool]) -> bool
    ensures { result ≡ true → flags.now ≡ others.now }
{
    match (flags, others) {
        ([], []) => true,
        ([flag, rest @ ..], [other, behind @ ..]) => *flag == *other && are_same(rest, behind),
        _ => false,
    }
}

/// The points from which a flagged one comes, themselves or after some steps. Once a step adds none, no further one does.
pub(crate) fn from_which(
    alloc: Global,
    code: &[Instruction],
    flags: Vec<bool>,
) -> Result<Vec<bool>, AllocError>
    ensures { IfOk result (λ found. found.items ≡ from_which (code_of code.now) flags.items) }
{
    let mut found = flags;
    for steps in 0..count(code) {
        let more = or_before(alloc, code, &found)?;
        if are_same(&more, &found) {
            return Ok(found);
        }
        found = more;
    }
    Ok(found)
}

/// Whether instructions lead to a point from the first.
fn comes_to(alloc: Global, code: &[Instruction], point: usize) -> Result<bool, AllocError>
    ensures { IfOk result (λ comes. comes ≡ comes_to (code_of code.now) point) }
{
    let here = only(alloc, code, point)?;
    let before = from_which(alloc, code, here)?;
    Ok(is_flagged(&before, 0))
}

/// Whether instructions lead to each point from the first.
pub(crate) fn reached(alloc: Global, code: &[Instruction]) -> Result<Vec<bool>, AllocError>
    ensures { IfOk result (λ found. found.items ≡ reached (code_of code.now)) }
{
    let mut found = Vec::new(alloc);
    for point in 0..count(code) {
        found.push(comes_to(alloc, code, point)?)?;
    }
    Ok(found)
}
