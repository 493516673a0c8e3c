//! Machines at states that were met.

use crate::runners::Runner;
use rights::Memory;
use rights::limits::MAX_NODES;
use std::alloc::Global;
use std::mem;

/// How many bytes the machines take that are kept, by a guess.
const MOST_BYTES: usize = 40_000_000;

/// What a machine takes by a guess, but for its nodes, and what a node takes.
const BYTES: usize = 12_000;

const NODE_BYTES: usize = 300;

/// How many machines there is room for at first: what is never touched costs no time.
const FIRST_ROOM: usize = 256;

/// How many moves are run again, for want of a machine that is gone, before there is room for twice as many.
const MOST_REPEATED: usize = 2000;

/// A machine, at the state of a place, unless it was taken away.
#[derive(Drop)]
struct At<'a> {
    place: Option<usize>,
    runner: Runner<'a>,
}

/// Room for so many machines.
fn empty_slots<'a>(alloc: Global, count: usize) -> Result<Vec<Option<At<'a>>>, Memory> {
    let mut slots = Vec::with_capacity(alloc, count)?;
    for _ in 0..count {
        slots.push(None)?;
    }
    Ok(slots)
}

/// The machines at the states that were met last, as many as there is room for. The one of a state may be gone.
#[derive(Drop)]
pub(crate) struct MachineCache<'a> {
    alloc: Global,
    slots: Vec<Option<At<'a>>>,
    /// How many there may be room for at most.
    most: usize,
    /// How many moves were run again since there has been room for so many.
    repeated: usize,
}

impl<'a> MachineCache<'a> {
    /// Room for machines with trees of so many nodes.
    pub(crate) fn new(alloc: Global, nodes: usize) -> Result<MachineCache<'a>, Memory> {
        let most = MOST_BYTES / (BYTES + nodes.min(MAX_NODES) * NODE_BYTES);
        let slots = empty_slots(alloc, most.min(FIRST_ROOM))?;
        Ok(MachineCache {
            alloc,
            slots,
            most,
            repeated: 0,
        })
    }

    /// Notes that so many moves were run again since a machine was gone. Where these come to too many, there is room for twice as many machines
    /// from now on, or for as many as there may be.
    pub(crate) fn repeat(&mut self, moves: usize) -> Result<(), Memory> {
        self.repeated = self.repeated.saturating_add(moves);
        let count = self.slots.len().saturating_mul(2).min(self.most);
        if self.repeated < MOST_REPEATED || count <= self.slots.len() {
            return Ok(());
        }
        self.repeated = 0;
        let wider = empty_slots(self.alloc, count)?;
        let before = mem::replace(&mut self.slots, wider);
        for slot in before {
            let Some(at) = slot else {
                continue;
            };
            if let Some(place) = at.place {
                if let Some(own) = self.slots.get_mut(place % count.max(1)) {
                    *own = Some(at);
                }
            }
        }
        Ok(())
    }

    /// How many there is room for.
    pub(crate) fn room(&self) -> usize {
        self.slots.len()
    }

    /// The machine at the state of a place, if it is there.
    pub(crate) fn get(&self, place: usize) -> Option<&Runner<'a>> {
        match self.slots.get(place % self.slots.len().max(1)) {
            Some(Some(at)) if at.place == Some(place) => Some(&at.runner),
            _ => None,
        }
    }

    /// Whether the machine at the state of a place is there.
    pub(crate) fn has(&self, place: usize) -> bool {
        self.get(place).is_some()
    }

    /// Keeps the machine at the state of a place, in the place of another one. What is given then is any machine.
    pub(crate) fn keep(&mut self, place: usize, runner: &mut Runner<'a>) -> Result<(), Memory> {
        let number = place % self.slots.len().max(1);
        match self.slots.get_mut(number) {
            None => {}
            Some(Some(at)) => {
                mem::swap(&mut at.runner, runner);
                at.place = Some(place);
            }
            Some(slot) => {
                let runner = runner.copy()?;
                *slot = Some(At {
                    place: Some(place),
                    runner,
                });
            }
        }
        Ok(())
    }

    /// Puts the machine at the state of a place in the place of another one, if it is there: a copy where it stays, and else itself.
    pub(crate) fn give(
        &mut self,
        place: usize,
        stays: bool,
        runner: &mut Runner<'a>,
    ) -> Result<(), Memory> {
        let number = place % self.slots.len().max(1);
        match self.slots.get_mut(number) {
            Some(Some(at)) if stays => runner.copy_from(&at.runner)?,
            Some(Some(at)) => {
                mem::swap(&mut at.runner, runner);
                at.place = None;
            }
            _ => {}
        }
        Ok(())
    }
}
