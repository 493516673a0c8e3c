//! What a page is made of: a task with bounds of its points, and what there is to say of it.

use crate::played::Played;
use crate::room::{Room, short};
use certificate::{Bound, ModeBound};
use checker::BrokenRule;
use explain::{Observation, Scene};
use explore::{Breach, FoundRun};
use instruction_set::Instruction;
use task::NamedProgram;

/// What was answered.
#[derive(Clone, Copy)]
pub enum Outcome<'a> {
    /// A certificate is accepted.
    Accepted,
    /// The certificate breaks rules.
    Refused,
    /// No certificate is found, and no run that breaks anything.
    Undecided,
    /// A run breaks something.
    Broken(&'a FoundRun),
    /// A run breaks something in which untrusted programs do what they like.
    Attacked {
        breach: &'a Breach,
        /// What stands behind the words of the breach.
        detail: &'a [u8],
        played: &'a [Played],
    },
}

/// What a page is made of.
#[derive(Clone, Copy)]
pub struct Reviewed<'a> {
    /// The names of the files.
    pub task_file: &'a str,
    pub cert_file: Option<&'a str>,
    pub scene: Scene<'a>,
    /// Whether the scene's certificate has bounds: those that are accepted, those of the certificate that breaks rules, or those that the search reached.
    pub has_bounds: bool,
    /// The rules that it breaks.
    pub findings: &'a [BrokenRule],
    pub outcome: Outcome<'a>,
}

/// A half of a program: its points outside the mode, or those in it.
#[derive(Clone, Copy, PartialEq, Eq)]
pub(crate) enum Side {
    Outside,
    Inside,
}

/// A program as a page shows it.
#[derive(Drop)]
pub(crate) struct Viewed<'a> {
    /// Its place in the task.
    pub number: u8,
    pub named: &'a NamedProgram,
    /// The bounds of its points, by number.
    pub bounds: Vec<Option<Bound>>,
    pub remarks: Vec<Observation>,
    pub warnings: Vec<Observation>,
}

/// Whether a process may be in this half by a bound of its mode.
fn is_on_side(mode: ModeBound, side: Side) -> bool {
    match mode {
        ModeBound::Off => side == Side::Outside,
        ModeBound::On => side == Side::Inside,
        ModeBound::Either => true,
    }
}

impl<'a> Viewed<'a> {
    /// The bound of a point in a half, if it has one. A point that only ends counts for neither half: what meets there would spoil every picture.
    pub(crate) fn bound_in(&self, side: Side, point: usize) -> Option<&Bound> {
        let instruction = self.named.program.code().get(point)?;
        if matches!(instruction, Instruction::Halt) {
            return None;
        }
        match self.bounds.get(point) {
            Some(Some(bound)) => {
                if is_on_side(bound.mode(), side) {
                    Some(bound)
                } else {
                    None
                }
            }
            _ => None,
        }
    }

    /// The points of a half.
    pub(crate) fn points_in(&self, room: &mut Room, side: Side) -> Vec<usize> {
        let mut points = room.list();
        for point in 0..self.named.program.code().len() {
            if self.bound_in(side, point).is_some() {
                room.push(&mut points, point);
            }
        }
        points
    }

    /// Whether some process may be in the mode with it.
    pub(crate) fn is_ever_inside(&self) -> bool {
        if self.named.untrusted {
            return true;
        }
        for point in 0..self.bounds.len() {
            if self.bound_in(Side::Inside, point).is_some() {
                return true;
            }
        }
        false
    }
}

/// The programs of a task, as a page shows them.
pub(crate) fn views_of<'a>(room: &mut Room, reviewed: &Reviewed<'a>) -> Vec<Viewed<'a>> {
    let scene = &reviewed.scene;
    let mut list = room.list();
    for (number, named) in scene.task.programs().iter().enumerate() {
        let bounds = remarks::bounds_on(room.alloc(), scene.cert, named);
        let bounds = room.made(bounds);
        let remarks = explain::program_remarks(room.alloc(), scene, number, reviewed.has_bounds);
        let remarks = room.made(remarks);
        let warnings = explain::program_warnings(room.alloc(), scene.task, scene.cert, number);
        let warnings = room.made(warnings);
        let number = short(number);
        room.push(
            &mut list,
            Viewed {
                number,
                named,
                bounds,
                remarks,
                warnings,
            },
        );
    }
    list
}
