//! How far the points of programs are from others.

use instruction_set::{Instruction, successors_at};
use rights::Memory;
use rights::limits::MAX_INSTRUCTIONS;
use std::alloc::Global;
use task::Task;

/// More steps than any point has to another one.
pub(crate) const FAR: u16 = 1000;

/// A point of a program.
#[derive(Clone, Copy, PartialEq, Eq)]
pub struct Goal {
    /// The program's place in the task.
    pub program: u8,
    pub point: u8,
}

/// How many steps each point of each program has at least to one of some points.
#[derive(Drop)]
pub(crate) struct Distances {
    programs: Vec<Vec<u16>>,
}

/// The steps of a point, if it is there.
fn steps_at(steps: &[u16], point: Option<usize>) -> u16 {
    match point {
        None => FAR,
        Some(point) => steps.get(point).copied().unwrap_or(FAR),
    }
}

/// Notes for each point of a program that it is a step more than the nearest one that it leads to. Whether one is nearer than before is told.
fn come_nearer(code: &[Instruction], steps: &mut Vec<u16>) -> bool {
    let mut is_nearer = false;
    for point in 0..code.len() {
        let to = successors_at(code, point);
        let behind = steps_at(steps, to.next)
            .min(steps_at(steps, to.other))
            .saturating_add(1);
        match steps.get_mut(point) {
            Some(own) if behind < *own => {
                *own = behind;
                is_nearer = true;
            }
            _ => {}
        }
    }
    is_nearer
}

impl Distances {
    /// How far all points of a task's programs are from these.
    pub(crate) fn new(alloc: Global, task: &Task, goals: &[Goal]) -> Result<Distances, Memory> {
        let mut programs = Vec::new(alloc);
        for (number, named) in task.programs().iter().enumerate() {
            let code = named.program.code();
            let mut steps = Vec::with_capacity(alloc, code.len())?;
            for _ in code {
                steps.push(FAR)?;
            }
            for goal in goals {
                match steps.get_mut(usize::from(goal.point)) {
                    Some(own) if usize::from(goal.program) == number => *own = 0,
                    _ => {}
                }
            }
            for _ in 0..MAX_INSTRUCTIONS {
                if !come_nearer(code, &mut steps) {
                    break;
                }
            }
            programs.push(steps)?;
        }
        Ok(Distances { programs })
    }

    /// How many steps a point of a program has at least, or `FAR`.
    pub(crate) fn from(&self, program: u8, point: u8) -> u16 {
        match self.programs.get(usize::from(program)) {
            None => FAR,
            Some(steps) => steps_at(steps, Some(usize::from(point))),
        }
    }
}
