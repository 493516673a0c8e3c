//! A shorter run that breaks something.

ghost use Rattle.std.specs.Prelude.{◌≡◌, ◌<◌, IfNone, IfOk, IfSome, IsTrue, None, false, length, map, vec_len};
ghost use Rattle.explore.specs.Broken.{Breaks, BreaksSomething, IsTight};
ghost use Rattle.explore.specs.MoveViews.{move_of};

use crate::attacks::Move;
use crate::breaking::breaks;
use rights::Memory;
use std::alloc::Global;
use task::Task;

/// Whether the last of the moves breaks something.
fn still_breaks(alloc: Global, task: &Task, moves: &[Move<'_>]) -> Result<bool, Memory>
    ensures yes { IfOk result (λ is. IsTrue is → BreaksSomething task.now (map move_of moves.now)) }
    ensures no { IfOk result (λ is. is ≡ false → Breaks task.now (map move_of moves.now) None) }
{
    match breaks(alloc, task, moves) {
        Ok(breach) => Ok(breach.is_some()),
        Err(_) => Err(Memory),
    }
}

/// The moves without some in the middle, from one place up to another.
fn without<'a>(
    alloc: Global,
    moves: &[Move<'a>],
    from: usize,
    to: usize,
) -> Result<Vec<Move<'a>>, Memory> {
    let mut left = Vec::new(alloc);
    if let Some(front) = moves.get(..from) {
        left.extend_from_slice(front)?;
    }
    if let Some(back) = moves.get(to..) {
        left.extend_from_slice(back)?;
    }
    Ok(left)
}

/// Leaves out parts of a length, from the end to the beginning, as long as something breaks without them.
fn shrink_by<'a>(
    alloc: Global,
    task: &Task,
    moves: Vec<Move<'a>>,
    length: usize,
) -> Result<Vec<Move<'a>>, Memory>
    ensures { IfOk result (λ left. BreaksSomething task.now (map move_of moves.entry.items) → BreaksSomething task.now (map move_of left.items)) }
{
    let mut kept = moves;
    let mut to = kept.len();
    for _ in 0..kept.len() {
        if to < length {
            break;
        }
        let fewer = without(alloc, &kept, to - length, to)?;
        if still_breaks(alloc, task, &fewer)? {
            kept = fewer;
        }
        to -= length;
    }
    Ok(kept)
}

/// The moves without one that can be left out, if there is one.
fn fewer<'a>(
    alloc: Global,
    task: &Task,
    moves: &[Move<'a>],
) -> Result<Option<Vec<Move<'a>>>, Memory>
    ensures shorter { IfOk result (λ found. IfSome found (λ left. vec_len left < length moves.now)) }
    ensures breaks { IfOk result (λ found. IfSome found (λ left. BreaksSomething task.now (map move_of left.items))) }
    ensures tight { IfOk result (λ found. IfNone found (IsTight task.now (map move_of moves.now))) }
{
    for at in 0..moves.len() {
        let mut left = Vec::from_slice(alloc, moves)?;
        left.remove(at);
        if still_breaks(alloc, task, &left)? {
            return Ok(Some(left));
        }
    }
    Ok(None)
}

/// Leaves out what isn't needed for a run to break something: first long parts, then single moves, until none can be left out.
pub(crate) fn shrink<'a>(
    alloc: Global,
    task: &Task,
    moves: Vec<Move<'a>>,
) -> Result<Vec<Move<'a>>, Memory>
    ensures breaks { IfOk result (λ left. BreaksSomething task.now (map move_of moves.entry.items) → BreaksSomething task.now (map move_of left.items)) }
    ensures tight { IfOk result (λ left. IsTight task.now (map move_of left.items)) }
{
    let mut kept = moves;
    let mut length = kept.len() / 2;
    while length > 0 {
        kept = shrink_by(alloc, task, kept, length)?;
        length = length / 2;
    }
    while let Some(left) = fewer(alloc, task, &kept)? {
        kept = left;
    }
    Ok(kept)
}
