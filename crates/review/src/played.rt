//! The moves of a run, as they are played again.

ghost use Rattle.std.specs.Prelude.{◌≡◌, IfOk, map};
ghost use Rattle.explore.specs.MoveViews.{move_of};
ghost use Rattle.review.specs.PlayedViews.{move_played};

use crate::room::Room;
use explore::{AttackAction, Move};
use rights::Memory;
use std::alloc::Global;
use syscalls::Event;

/// A move of a run: an event, and what its process does at it in place of what its program has, if it is an attacker's.
#[derive(Drop)]
pub struct Played {
    pub event: Event,
    pub deed: Option<AttackAction>,
}

impl Played {
    /// The move.
    pub(crate) fn as_move(&self) -> Move<'_>
        ensures { move_of result ≡ move_played self.now }
    {
        Move {
            event: self.event,
            deed: self.deed.as_ref(),
        }
    }
}

/// A move.
fn played_move(alloc: Global, next: &Move<'_>) -> Result<Played, Memory>
    ensures { IfOk result (λ played. move_played played ≡ move_of next.now) }
{
    let deed = match next.deed {
        Some(deed) => Some(AttackAction::new(alloc, deed.instruction())?),
        None => None,
    };
    Ok(Played {
        event: next.event,
        deed,
    })
}

/// Moves of a run that was found. Want of memory is the only error.
pub fn played_moves(alloc: Global, moves: &[Move<'_>]) -> Result<Vec<Played>, Memory>
    ensures { IfOk result (λ all. map move_played all.items ≡ map move_of moves.now) }
{
    let mut all = Vec::new(alloc);
    for next in moves {
        all.push(played_move(alloc, next)?)?;
    }
    Ok(all)
}

/// Events at which each process does what its program has.
pub(crate) fn played_events(room: &mut Room, events: &[Event]) -> Vec<Played> {
    let mut all = room.list();
    for event in events {
        let event = *event;
        room.push(&mut all, Played { event, deed: None });
    }
    all
}
