//! What shows that a run of a task follows a record.

ghost use Rattle.std.specs.Prelude.{◌≡◌, ◌++◌, IfOk, OnOk, map};
ghost use Rattle.syscalls.specs.Views.{event_of};
ghost use Rattle.follow.specs.Shows.{event_in, events_of};
ghost use Rattle.follow.specs.Views.{move_of, moves_of};

use crate::numbers::ProcessPair;
use rights::Memory;
use std::alloc::Global;
use syscalls::Event;

/// A step of the run, or a call of the record that is skipped. A call of the record, or an end, is told by how many that are left
/// stand before it.
#[derive(Clone, Copy)]
pub enum Move {
    /// A step, and the call that it shows, if it shows one.
    Step { event: Event, shows: Option<usize> },
    /// The call is skipped.
    Skip { entry: usize },
}

/// Which process stands for which, and the run.
#[derive(Drop)]
pub struct Witness {
    pub pairs: Vec<ProcessPair>,
    pub moves: Vec<Move>,
}

/// Adds the event of a move, if it is a step.
fn add_event(events: &mut Vec<Event>, step: Move) -> Result<(), Memory>
    ensures { OnOk result (map event_of events.new.items ≡ map event_of events.old.items ++ event_in (move_of step)) }
{
    if let Move::Step { event, .. } = step {
        events.push(event)?;
    }
    Ok(())
}

/// The events of the steps among some moves. Want of memory is the only error.
pub fn events_of(alloc: Global, moves: &[Move]) -> Result<Vec<Event>, Memory>
    ensures { IfOk result (λ events. map event_of events.items ≡ events_of (moves_of moves.now)) }
{
    let mut events = Vec::new(alloc);
    for step in moves {
        add_event(&mut events, *step)?;
    }
    Ok(events)
}
