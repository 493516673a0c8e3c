//! The order in which a search goes on from states where it is told what to look for.

use crate::digests::Digest;
use crate::distances::{Distances, FAR, Goal};
use crate::runners::Runner;
use crate::states::open_at;
use fd_table::{Files, Object};
use rights::Memory;
use rights::limits::{MAX_DESCRIPTORS, MAX_PROCESSES};
use std::alloc::Global;
use std::collections::{BinaryHeap, HashMap};
use task::Task;

/// What a step costs that is left to a point that is looked for.
const STEP: u64 = 2;

/// What a message on its way costs: who may take it goes first.
const MESSAGE: u64 = 8;

/// What it costs that the kernel refused a call.
const REFUSAL: u64 = 8;

/// A state that costs more is taken as one that costs so much.
const MOST_COST: u64 = 0xFFFF_FFFF;

/// The states that were met, by what it costs to go on from them.
#[derive(Drop)]
pub(crate) struct Aims {
    to_goals: Distances,
    /// How often processes stood so.
    stood: HashMap<Digest, u64>,
    /// The states that wait for their turn, each as a number: the greatest is that of the one that costs least, and of these the last. They are
    /// compared by how many calls the kernel refused on their way; by that, the steps that are left, and the messages on their way; and by
    /// all this, and by how many were met before whose processes stood so.
    by_refusals: BinaryHeap<u64>,
    by_cost: BinaryHeap<u64>,
    by_novelty: BinaryHeap<u64>,
}

/// How many messages are on their way from the ends that a process has open.
fn sent_by(files: &Files, process: u8) -> u64 {
    let mut sent = 0u64;
    for number in 0..MAX_DESCRIPTORS as u8 {
        if let Some((_, description)) = open_at(files, process, number) {
            if let Object::End { end, .. } = description.object {
                sent = sent.saturating_add(files.sent(end).len() as u64);
            }
        }
    }
    sent
}

/// The number as which the state of a place waits for its turn.
fn waiting_number(place: usize, cost: u64) -> u64 {
    (MOST_COST - cost.min(MOST_COST)) << 32 | place as u64 & MOST_COST
}

impl Aims {
    /// No state yet, for a run to some points; nothing where there are none.
    pub(crate) fn new(alloc: Global, task: &Task, goals: &[Goal]) -> Result<Option<Aims>, Memory> {
        if goals.is_empty() {
            return Ok(None);
        }
        Ok(Some(Aims {
            to_goals: Distances::new(alloc, task, goals)?,
            stood: HashMap::new(alloc),
            by_refusals: BinaryHeap::new(alloc),
            by_cost: BinaryHeap::new(alloc),
            by_novelty: BinaryHeap::new(alloc),
        }))
    }

    /// Adds the state of a place, at which a machine stands, and on whose way the kernel refused so many calls.
    pub(crate) fn add(
        &mut self,
        place: usize,
        runner: &Runner<'_>,
        refusals: u32,
    ) -> Result<(), Memory> {
        let mut status = Digest::new();
        let mut messages = 0u64;
        let mut steps = FAR;
        for number in 0..MAX_PROCESSES as u8 {
            let Some(process) = runner.process(number) else {
                break;
            };
            let flags = u64::from(process.alive) << 1 | u64::from(process.mode());
            let sent = sent_by(runner.machine.files(), number);
            status.add(flags << 16 | u64::from(process.program) << 8 | u64::from(process.point));
            status.add(sent);
            messages = messages.saturating_add(sent);
            if process.alive {
                steps = steps.min(self.to_goals.from(process.program, process.point));
            }
        }
        let refusals = u64::from(refusals);
        let cost = refusals
            .saturating_mul(REFUSAL)
            .saturating_add(u64::from(steps).saturating_mul(STEP))
            .saturating_add(messages.saturating_mul(MESSAGE));
        let again = self.stood.get(&status).copied().unwrap_or(0);
        self.stood.insert(status, again.saturating_add(1))?;
        self.by_refusals.push(waiting_number(place, refusals))?;
        self.by_cost.push(waiting_number(place, cost))?;
        self.by_novelty
            .push(waiting_number(place, cost.saturating_add(again)))?;
        Ok(())
    }

    /// Takes one of the states that cost least, and of these the one that was met last, at each turn by another order; at each fourth none.
    pub(crate) fn next(&mut self, turn: usize) -> Option<usize> {
        let number = match turn % 4 {
            1 => self.by_refusals.pop(),
            2 => self.by_cost.pop(),
            3 => self.by_novelty.pop(),
            _ => None,
        };
        match number {
            None => None,
            Some(number) => Some((number & MOST_COST) as usize),
        }
    }
}
