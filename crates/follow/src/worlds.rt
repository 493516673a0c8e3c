//! What the processes of the task do that the record doesn't have, and for which calls that can matter.

use crate::branching::add_reading;
use crate::digests::{digest_of, open_at};
use crate::given::value_of;
use crate::leads::{Lead, Leads, Trial, event_of};
use crate::numbers::is_recorded;
use call_facts::{Passed, first_operand, passed_by};
use fd_table::{End, Object};
use indexmap::IndexSet;
use instruction_set::{Instruction, Syscall};
use rights::limits::{MAX_DESCRIPTORS, MAX_PROCESSES};
use std::alloc::Global;

/// How many runs are tried at most.
const MOST_STEPS: usize = 600;

/// How many of those that help are taken.
const MOST_FOUND: usize = 4;

/// Whether a process was made, lives, and stands for none of the record.
fn is_of_world(lead: &Lead<'_>, number: u8) -> bool {
    match lead.process(number) {
        None => false,
        Some(process) => process.alive && !is_recorded(&lead.pairs, usize::from(number)),
    }
}

/// The end of a pair that a process has at a number.
fn end_at(lead: &Lead<'_>, process: u8, number: u8) -> Option<End> {
    match open_at(lead.machine.files(), process, number) {
        Some((_, what)) => match what.object {
            Object::End { end, .. } => Some(end),
            Object::Node { .. } => None,
        },
        None => None,
    }
}

/// The end through which a call of a process takes or gives a message, if it does.
pub(crate) fn end_of(lead: &Lead<'_>, process: u8, call: &Syscall) -> Option<End> {
    if passed_by(call.call()) == Passed::Nothing {
        return None;
    }
    let channel = first_operand(call)?;
    let Some(state) = lead.process(process) else {
        return None;
    };
    let number = value_of(&state.registers, channel);
    if number < MAX_DESCRIPTORS as u32 {
        end_at(lead, process, number as u8)
    } else {
        None
    }
}

/// Whether a process has the other end of a pair.
fn has_other(lead: &Lead<'_>, process: u8, end: &End) -> bool {
    for number in 0..MAX_DESCRIPTORS as u8 {
        if let Some(own) = end_at(lead, process, number) {
            if own.pair == end.pair && own.side != end.side {
                return true;
            }
        }
    }
    false
}

/// Whether there are processes that the record doesn't have which may make the call of a process come to something else: where it goes
/// through an end, only one that has the other end.
pub(crate) fn may_help(lead: &Lead<'_>, process: u8, call: &Syscall) -> bool {
    let end = end_of(lead, process, call);
    for number in 0..MAX_PROCESSES as u8 {
        if is_of_world(lead, number) {
            match &end {
                Some(end) if !has_other(lead, number, end) => {}
                _ => return true,
            }
        }
    }
    false
}

/// Adds the runs in which a process of the world moves once: one for each byte that is tried, if it reads one.
fn add_moved<'a>(run: &Lead<'a>, next: &mut Leads<'a>) {
    for process in 0..MAX_PROCESSES as u8 {
        if !is_of_world(run, process) {
            continue;
        }
        match run.instruction(process) {
            Some(Instruction::In { register }) => {
                add_reading(run, process, *register, true, next);
            }
            _ => {
                next.add_tried(run, Trial::World(event_of(process, 0)));
            }
        }
    }
}

/// The search for moves of the world that help.
#[derive(Drop)]
struct Moving<'a> {
    met: IndexSet<u128>,
    runs: Leads<'a>,
    /// The runs that come next, the last of them first.
    next: Leads<'a>,
    helped: usize,
}

impl<'a> Moving<'a> {
    /// Nothing yet.
    fn new(alloc: Global) -> Moving<'a> {
        Moving {
            met: IndexSet::new(alloc),
            runs: Leads::new(alloc),
            next: Leads::new(alloc),
            helped: 0,
        }
    }

    /// Adds the run in which something is tried in the last run, if it may be. If that run was met before, it is dropped.
    fn go_to_last(&mut self, trial: Trial, found: &mut Leads<'a>) {
        let Some(run) = self.runs.runs.last() else {
            return;
        };
        match self.met.insert_full(digest_of(run)) {
            Ok((_, true)) => {
                if found.add_tried(run, trial) {
                    self.helped = self.helped.wrapping_add(1);
                }
            }
            Ok(_) => self.runs.drop_last(),
            Err(_) => self.runs.is_short = true,
        }
    }

    /// Takes the runs that come next and weren't met before, and adds those in which something may be tried then.
    fn take_next(&mut self, trial: Trial, found: &mut Leads<'a>) {
        for _ in 0..self.next.runs.len() {
            if let Some(run) = self.next.runs.pop() {
                self.runs.push(run);
            }
            self.go_to_last(trial, found);
        }
    }

    /// Moves the world by breadth, until enough is found.
    fn search(&mut self, lead: &Lead<'a>, trial: Trial, found: &mut Leads<'a>) {
        add_moved(lead, &mut self.next);
        self.take_next(trial, found);
        for place in 0..MOST_STEPS - 1 {
            if self.helped >= MOST_FOUND {
                return;
            }
            let Some(run) = self.runs.runs.get(place) else {
                return;
            };
            add_moved(run, &mut self.next);
            self.take_next(trial, found);
        }
    }
}

/// Adds the runs in which the world moves first, by breadth, and then something may be tried, until enough are found.
pub(crate) fn add_by_world<'a>(lead: &Lead<'a>, trial: Trial, found: &mut Leads<'a>) {
    let mut moving = Moving::new(lead.search.alloc);
    moving.search(lead, trial, found);
    if moving.runs.is_short || moving.next.is_short {
        found.is_short = true;
    }
}
