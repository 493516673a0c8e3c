//! The search for a run that breaks something, over the states of a task.

use crate::aims::Aims;
use crate::attacks::{AttackActions, Move};
use crate::digests::Digest;
use crate::distances::Goal;
use crate::exploring::HowFar;
use crate::machine_cache::MachineCache;
use crate::moves::Tries;
use crate::readable::Readable;
use crate::runners::{Advance, Runner};
use crate::states::Order;
use crate::trails::Trails;
use crate::tried_bytes::bytes_to_try;
use indexmap::IndexSet;
use rights::Memory;
use std::alloc::Global;
use task::Task;

/// How many steps that are the only ones possible are run on before a state is kept.
const MAX_FORCED: usize = 256;

/// The search: the states that were met, and the machine that is run on.
#[derive(Drop)]
pub(crate) struct Explorer<'a> {
    alloc: Global,
    task: &'a Task,
    tries: Tries<'a>,
    readable: Readable<'a>,
    order: Order,
    seen: IndexSet<Digest>,
    trails: Trails<'a>,
    kept: MachineCache<'a>,
    /// What is looked for, if some points are.
    aims: Option<Aims>,
    /// How many states were gone on from, and those up to which place by breadth.
    turns: usize,
    next: usize,
    bound: usize,
    runner: Runner<'a>,
    /// The moves that were made since the last state, those that come next there, and those that may be tried from it.
    last: Vec<Move<'a>>,
    forced: Vec<Move<'a>>,
    moves: Vec<Move<'a>>,
    /// The run that breaks something, once there is one.
    pub found: Vec<Move<'a>>,
}

impl<'a> Explorer<'a> {
    /// A search that has met nothing yet, of at most so many states, for a run to some points.
    pub(crate) fn new(
        alloc: Global,
        task: &'a Task,
        deeds: &'a AttackActions,
        goals: &[Goal],
        bound: usize,
    ) -> Result<Explorer<'a>, Memory> {
        Ok(Explorer {
            alloc,
            task,
            tries: Tries {
                deeds,
                bytes: bytes_to_try(alloc, task)?,
                inputs_wait: !goals.is_empty(),
            },
            readable: Readable::new(alloc, task)?,
            order: Order::new(alloc),
            seen: IndexSet::new(alloc),
            trails: Trails::new(alloc),
            kept: MachineCache::new(alloc, task.nodes().len())?,
            aims: Aims::new(alloc, task, goals)?,
            turns: 0,
            next: 0,
            bound,
            runner: Runner::start(alloc, task)?,
            last: Vec::new(alloc),
            forced: Vec::new(alloc),
            moves: Vec::new(alloc),
            found: Vec::new(alloc),
        })
    }

    /// How far it has come.
    pub(crate) fn how_far(&self) -> HowFar {
        HowFar {
            states: self.trails.len(),
            bound: self.bound,
            deepest: self.trails.deepest,
        }
    }

    /// Runs the machine by one move, which is noted unless its process couldn't go on.
    fn step(&mut self, next: Move<'a>) -> Result<Advance, Memory> {
        let advance = self.runner.step(&next)?;
        if !matches!(advance, Advance::Stays) {
            self.last.push(next)?;
        }
        Ok(advance)
    }

    /// Runs the machine on as long as one move alone can come, and that is no attacker's.
    fn run_on(&mut self) -> Result<Advance, Memory> {
        for _ in 0..MAX_FORCED {
            self.forced.clear();
            let is_alone = self.tries.add_first(&self.runner, &mut self.forced)?;
            if !is_alone {
                self.tries.add_all(&self.runner, false, &mut self.forced)?;
            }
            let [next] = self.forced.as_slice() else {
                break;
            };
            let next = *next;
            match self.step(next)? {
                Advance::Stays => break,
                Advance::Goes => {}
                Advance::Breaks => return Ok(Advance::Breaks),
            }
        }
        Ok(Advance::Goes)
    }

    /// Sees to it that the machine at the state of a place is kept, and those on the way there from the nearest one that is.
    fn come_to(&mut self, place: usize) -> Result<(), Memory> {
        if self.kept.has(place) {
            return Ok(());
        }
        let way = self.trails.way_to(Some(place), Some(&self.kept))?;
        for at in &way {
            if !self.kept.has(*at) {
                if self.trails.visit(*at).parent.is_none() {
                    self.runner = Runner::start(self.alloc, self.task)?;
                }
                let moves = self.trails.moves_to(*at);
                for next in moves {
                    self.runner.step(next)?;
                }
                self.runner.look_through(&self.readable)?;
                self.kept.keep(*at, &mut self.runner)?;
                self.kept.repeat(moves.len())?;
            }
            if *at != place {
                self.kept.give(*at, true, &mut self.runner)?;
            }
        }
        Ok(())
    }

    /// Notes where the machine came to from the state of a place: a run that breaks something, or a state, which is kept unless it was met
    /// before. Whether it is new is told.
    fn arrive(&mut self, parent: Option<usize>, advance: Advance) -> Result<bool, Memory> {
        if matches!(advance, Advance::Breaks) {
            self.found = self.trails.run_by(parent, &self.last)?;
            return Ok(false);
        }
        let digest = self.runner.digest(&self.readable, &mut self.order)?;
        let (_, is_new) = self.seen.insert_full(digest)?;
        if !is_new {
            return Ok(false);
        }
        let place = self.trails.add(parent, &self.last)?;
        // By breadth a state's turn comes behind those of all that were met before.
        let mut is_near = place.saturating_sub(self.next) < self.kept.room();
        if let Some(aims) = &mut self.aims {
            aims.add(place, &self.runner, self.trails.visit(place).refusals)?;
            is_near = true;
        }
        if is_near {
            self.kept.keep(place, &mut self.runner)?;
        }
        Ok(true)
    }

    /// Tries the moves that may be, from the state of a place, up to one that breaks something. Whether only those of one process were, and lead to
    /// nothing new, is told.
    fn try_moves(&mut self, place: usize, all: bool) -> Result<bool, Memory> {
        let is_alone = self.ask(place, all)?;
        let mut any_new = false;
        let mut is_there = false;
        let count = self.moves.len();
        for at in 0..count {
            let Some(next) = self.moves.get(at).copied() else {
                break;
            };
            if !is_there {
                self.come_to(place)?;
                self.kept.give(place, at + 1 < count, &mut self.runner)?;
            }
            self.last.clear();
            let mut advance = self.step(next)?;
            if matches!(advance, Advance::Goes) {
                advance = self.run_on()?;
            }
            is_there = matches!(advance, Advance::Stays);
            if !is_there && self.arrive(Some(place), advance)? {
                any_new = true;
            }
            if !self.found.is_empty() {
                return Ok(false);
            }
        }
        Ok(is_alone && !any_new)
    }

    /// Notes all moves that may be tried from the state of a place, or those of a process that goes first alone. Whether there is one is told.
    fn ask(&mut self, place: usize, all: bool) -> Result<bool, Memory> {
        self.come_to(place)?;
        self.moves.clear();
        let Some(runner) = self.kept.get(place) else {
            return Ok(false);
        };
        let is_alone = !all && self.tries.add_first(runner, &mut self.moves)?;
        if !is_alone {
            self.tries.add_all(runner, true, &mut self.moves)?;
        }
        Ok(is_alone)
    }

    /// The next state to go on from: where points are looked for, in turn by each order and by breadth.
    fn next_place(&mut self) -> Option<usize> {
        self.turns = self.turns.wrapping_add(1);
        if let Some(aims) = &mut self.aims {
            for _ in 0..self.trails.len() {
                let Some(place) = aims.next(self.turns) else {
                    break;
                };
                if self.trails.begin(place) {
                    return Some(place);
                }
            }
        }
        for place in self.next..self.trails.len() {
            self.next = place + 1;
            if self.trails.begin(place) {
                return Some(place);
            }
        }
        None
    }

    /// Goes on from one state, by the moves of one process, if that can be, and by all if these lead to nothing new, or were too many already.
    /// Whether there may be more to come is told.
    pub(crate) fn go_on(&mut self) -> Result<bool, Memory> {
        if self.trails.len() == 0 {
            let advance = self.run_on()?;
            self.arrive(None, advance)?;
        } else if self.trails.len() >= self.bound {
            return Ok(false);
        } else {
            let Some(place) = self.next_place() else {
                return Ok(false);
            };
            let is_long = self.trails.moves_to(place).len() >= MAX_FORCED;
            if self.try_moves(place, is_long)? {
                self.try_moves(place, true)?;
            }
        }
        Ok(self.found.is_empty())
    }
}
