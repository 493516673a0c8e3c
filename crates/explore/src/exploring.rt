//! The search for a run that breaks something, and what it comes to.

ghost use Rattle.std.specs.Prelude.{◌≡◌, IfOk, map};
ghost use Rattle.syscalls.specs.Views.{event_of};
ghost use Rattle.explore.specs.Broken.{are_own};
ghost use Rattle.explore.specs.FoundViews.{IsExplored};
ghost use Rattle.explore.specs.MoveViews.{event_at, move_of};

use crate::attacks::{AttackActions, Move};
use crate::breaches::Breach;
use crate::breaking::breaks;
use crate::details::detail_of;
use crate::distances::Goal;
use crate::explorer::Explorer;
use crate::shrinking::shrink;
use rights::Memory;
use std::alloc::Global;
use std::mem;
use syscalls::Event;
use task::Task;

/// How many states are gone on from before the watcher is told.
const SLICE: usize = 1000;

/// How far a search has come.
#[derive(Clone, Copy)]
pub struct HowFar {
    /// How many states were met.
    pub states: usize,
    /// How many may be, at most.
    pub bound: usize,
    /// How many events the longest way has by which one was met.
    pub deepest: usize,
}

/// Who is told how far a search has come.
pub trait Watcher {
    /// It has come so far.
    fn tell(&mut self, how_far: HowFar);
}

/// A run that breaks something at its last step.
#[derive(Drop)]
pub struct FoundRun {
    pub events: Vec<Event>,
    pub breach: Breach,
    /// What stands behind the words of the breach where a call is refused: `: FSTAT of descriptor 3`, or `: open`. It is empty of an
    /// effect, and where it can't be told.
    pub detail: Vec<u8>,
}

/// A run that breaks something at its last step, at which attackers do what they like.
#[derive(Drop)]
pub struct FoundAttack<'a> {
    pub moves: Vec<Move<'a>>,
    pub breach: Breach,
    /// As that of a `FoundRun`.
    pub detail: Vec<u8>,
}

/// What a search came to.
#[derive(Drop)]
pub enum Explored<'a> {
    /// A run breaks something.
    Breaks(FoundRun),
    /// A run breaks something in which attackers do what they like.
    Attacked(FoundAttack<'a>),
    /// All states that the tried bytes lead to were visited, so many. That claims nothing.
    Ended(usize),
    /// So many states were met, and the search stopped. That claims nothing.
    Bounded(usize),
}

/// Whether no move is an attacker's.
fn are_own(moves: &[Move<'_>]) -> bool
    ensures { result ≡ are_own (map move_of moves.now) }
{
    match moves {
        [] => true,
        [next, moves @ ..] => next.deed.is_none() && are_own(moves),
    }
}

/// The events of moves. Want of memory is the only error.
pub fn events_of(alloc: Global, moves: &[Move<'_>]) -> Result<Vec<Event>, Memory>
    ensures { IfOk result (λ events. map event_of events.items ≡ map event_at moves.now) }
{
    let mut events = Vec::new(alloc);
    for next in moves {
        events.push(next.event)?;
    }
    Ok(events)
}

/// Checks a run that was found, and shortens it.
fn check_found<'a>(
    alloc: Global,
    task: &Task,
    moves: Vec<Move<'a>>,
    states: usize,
) -> Result<Explored<'a>, Memory>
    ensures { IfOk result (IsExplored task.now) }
{
    let moves = shrink(alloc, task, moves)?;
    let Ok(breach) = breaks(alloc, task, &moves) else {
        return Err(Memory);
    };
    let Some(breach) = breach else {
        return Ok(Explored::Bounded(states));
    };
    let detail = detail_of(alloc, task, &moves, &breach)?;
    if are_own(&moves) {
        let events = events_of(alloc, &moves)?;
        return Ok(Explored::Breaks(FoundRun {
            events,
            breach,
            detail,
        }));
    }
    Ok(Explored::Attacked(FoundAttack {
        moves,
        breach,
        detail,
    }))
}

/// What a search comes to, over at most so many states.
fn searched<'a, W: Watcher>(
    alloc: Global,
    task: &Task,
    explorer: &mut Explorer<'a>,
    bound: usize,
    watcher: &mut W,
) -> Result<Explored<'a>, Memory>
    ensures { IfOk result (IsExplored task.now) }
{
    for turn in 0..=bound {
        if !explorer.go_on()? {
            break;
        }
        if turn % SLICE == SLICE - 1 {
            watcher.tell(explorer.how_far());
        }
    }
    let states = explorer.how_far().states;
    let found = mem::replace(&mut explorer.found, Vec::new(alloc));
    if !found.is_empty() {
        check_found(alloc, task, found, states)
    } else if states < bound {
        Ok(Explored::Ended(states))
    } else {
        Ok(Explored::Bounded(states))
    }
}

/// Searches a run that breaks something, over at most so many states, and tells the watcher now and then how many were met. Where
/// points are given, four orders take turns: by calls that were refused, by the steps that are left to these points, by how seldom processes
/// stood so, and by breadth; where none are, it goes by breadth alone. What is
/// found is checked by `breaks`, and no move of it can be left out. Processes of untrusted programs in capability mode do these deeds, and nothing
/// else; the others do what is written.
pub fn explore<'a, W: Watcher>(
    alloc: Global,
    task: &'a Task,
    deeds: &'a AttackActions,
    goals: &[Goal],
    bound: usize,
    watcher: &mut W,
) -> Result<Explored<'a>, Memory>
    ensures { IfOk result (IsExplored task.now) }
{
    let mut explorer = Explorer::new(alloc, task, deeds, goals, bound)?;
    searched(alloc, task, &mut explorer, bound, watcher)
}
