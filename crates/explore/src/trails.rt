//! The states that were met, and the moves that lead to them.

use crate::attacks::Move;
use crate::machine_cache::MachineCache;
use rights::Memory;
use std::alloc::Global;

/// A state that was met.
#[derive(Clone, Copy)]
pub(crate) struct Visit {
    /// The state before it, if it isn't the first.
    pub parent: Option<usize>,
    /// How many moves lead here from the first state.
    depth: usize,
    /// How many calls the kernel refused on its way.
    pub refusals: u32,
    /// From where to where the moves lie that lead here from the state before it.
    first: usize,
    end: usize,
    /// It was gone on from.
    is_done: bool,
}

/// What is before the first state.
const NOWHERE: Visit = Visit {
    parent: None,
    depth: 0,
    refusals: 0,
    first: 0,
    end: 0,
    is_done: true,
};

/// The states that were met, in the order in which they were.
#[derive(Drop)]
pub(crate) struct Trails<'a> {
    alloc: Global,
    visits: Vec<Visit>,
    /// The moves of all of them, one after another.
    moves: Vec<Move<'a>>,
    /// The greatest number of moves that lead to a state.
    pub deepest: usize,
}

impl<'a> Trails<'a> {
    /// No state yet.
    pub(crate) fn new(alloc: Global) -> Trails<'a> {
        Trails {
            alloc,
            visits: Vec::new(alloc),
            moves: Vec::new(alloc),
            deepest: 0,
        }
    }

    /// How many states were met.
    pub(crate) fn len(&self) -> usize {
        self.visits.len()
    }

    /// The state of a place.
    pub(crate) fn visit(&self, place: usize) -> Visit {
        self.visits.get(place).copied().unwrap_or(NOWHERE)
    }

    /// Adds a state to which these moves lead from the one before it, and gives its place.
    pub(crate) fn add(
        &mut self,
        parent: Option<usize>,
        moves: &[Move<'a>],
    ) -> Result<usize, Memory> {
        let place = self.visits.len();
        let before = match parent {
            None => NOWHERE,
            Some(parent) => self.visit(parent),
        };
        let refused = matches!(moves.first(), Some(next) if next.event.refuse);
        let depth = before.depth.saturating_add(moves.len());
        let first = self.moves.len();
        self.moves.extend_from_slice(moves)?;
        self.visits.push(Visit {
            parent,
            depth,
            refusals: before.refusals.saturating_add(u32::from(refused)),
            first,
            end: self.moves.len(),
            is_done: false,
        })?;
        self.deepest = self.deepest.max(depth);
        Ok(place)
    }

    /// Notes that the state of a place is gone on from. Whether it wasn't before is told.
    pub(crate) fn begin(&mut self, place: usize) -> bool {
        match self.visits.get_mut(place) {
            Some(visit) if !visit.is_done => {
                visit.is_done = true;
                true
            }
            _ => false,
        }
    }

    /// The moves that lead to the state of a place from the one before it.
    pub(crate) fn moves_to(&self, place: usize) -> &[Move<'a>] {
        let visit = self.visit(place);
        let end = visit.end.min(self.moves.len());
        &self.moves[visit.first.min(end)..end]
    }

    /// The states on the way to one, itself last, from one on whose machine is kept, or from the first state.
    pub(crate) fn way_to(
        &self,
        place: Option<usize>,
        kept: Option<&MachineCache<'_>>,
    ) -> Result<Vec<usize>, Memory> {
        let mut way = Vec::new(self.alloc);
        let mut next = place;
        for _ in 0..self.visits.len() {
            let Some(at) = next else {
                break;
            };
            way.push(at)?;
            next = match kept {
                Some(kept) if kept.has(at) => None,
                _ => self.visit(at).parent,
            };
        }
        way.reverse();
        Ok(way)
    }

    /// The run to the state of a place from the first one on, if there is one, and on by further moves.
    pub(crate) fn run_by(
        &self,
        place: Option<usize>,
        last: &[Move<'a>],
    ) -> Result<Vec<Move<'a>>, Memory> {
        let mut run = Vec::new(self.alloc);
        let way = self.way_to(place, None)?;
        for at in &way {
            run.extend_from_slice(self.moves_to(*at))?;
        }
        run.extend_from_slice(last)?;
        Ok(run)
    }
}
