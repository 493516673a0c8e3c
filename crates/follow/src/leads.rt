//! A run on its way, and how far it has come in showing a record.

use crate::checking::{code_of, process_at, watched_step};
use crate::digests::{KeptRegisters, names_changed};
use crate::numbers::{ProcessPair, model_of};
use crate::outcomes::Seen;
use crate::places::Placing;
use crate::progress::{MatchProgress, Setting, after_skip, after_step};
use crate::streams::{Sent, end_written};
use crate::witnesses::Move;
use call_facts::{TableChange, table_change};
use instruction_set::{Instruction, Syscall};
use process::Process;
use records::{Entry, Event as Recorded, Outcome};
use rights::Memory;
use rights::limits::MAX_PROCESSES;
use shared_tree::SharedTree;
use simulator::{LineResult, Machine};
use std::alloc::Global;
use std::marker::Model;
use syscalls::Event;
use task::Task;

/// How many steps a call takes at most: one for each name of its paths, and of the links that they lead through.
const MOST_LOOKUPS: usize = 32_768;

/// Behind how many runs those that come next aren't kept, but for the first of them.
const MOST_KEPT: usize = 512;

/// How many instructions that are no calls are run on at most.
const MOST_PLAIN: usize = 1024;

/// In what is searched, and what memory is taken from.
#[derive(Clone, Copy)]
pub(crate) struct Search<'a> {
    pub alloc: Global,
    pub task: &'a Task,
    pub placings: &'a [Placing],
    /// The record has calls of capability mode.
    pub limited: bool,
    /// The registers whose values tell two runs apart.
    pub registers: &'a KeptRegisters,
}

/// A run on its way: how far it has come, and how. Where memory was refused for a step of it, that is noted, and the step doesn't count.
#[derive(Drop)]
pub(crate) struct Lead<'a> {
    pub search: Search<'a>,
    pub machine: Machine<'a, SharedTree>,
    pub progress: MatchProgress<'a>,
    pub pairs: Vec<ProcessPair>,
    /// Through which ends of the record's its processes have written last.
    pub sent: Vec<Sent>,
    /// A number for the names that were made or removed.
    pub names: u64,
    /// The last moves. So many of the way stand before them.
    pub moves: Vec<Move>,
    pub base: usize,
    pub is_short: bool,
}

/// Nothing is claimed of one: what is found is judged by `shows`.
impl<'a> Model for Lead<'a> {
    ghost Value = { Unit {0} };

    ghost view = { λ _. tt };
}

/// Runs on their way. Where memory was refused for one, it isn't there, and that is noted.
#[derive(Drop)]
pub(crate) struct Leads<'a> {
    pub runs: Vec<Lead<'a>>,
    pub is_short: bool,
}

/// The event of a process that reads this byte, if it reads one.
pub(crate) fn event_of(process: u8, input: u8) -> Event {
    Event {
        process,
        input,
        refuse: false,
    }
}

impl<'a> Search<'a> {
    /// What is searched in, with these processes that stand for the record's.
    pub(crate) fn setting<'s>(&self, pairs: &'s [ProcessPair]) -> Setting<'s>
    where
        'a: 's,
    {
        Setting {
            task: self.task,
            placings: self.placings,
            pairs,
            limited: self.limited,
        }
    }
}

/// The process that the entry of a place has made in the record, if it is a fork that succeeded.
fn child_at(left: &[&Entry], at: Option<usize>) -> Option<u32> {
    let entry = left.get(at?)?;
    match &entry.event {
        Recorded::Called(made) => match (table_change(made.call), made.outcome) {
            (TableChange::Child, Outcome::Success(child)) => Some(child),
            _ => None,
        },
        _ => None,
    }
}

/// What is tried in a run.
#[derive(Clone, Copy)]
pub(crate) enum Trial {
    /// A step, or a call up to where it has come back, that shows the entry of a place, if it shows one.
    Step { event: Event, shows: Option<usize> },
    /// That the entry of a place is skipped.
    Skip(usize),
    /// A step of the world from which something comes, and what it does up to its next call.
    World(Event),
}

impl<'a> Leads<'a> {
    /// No run.
    pub(crate) fn new(alloc: Global) -> Leads<'a> {
        Leads {
            runs: Vec::new(alloc),
            is_short: false,
        }
    }

    /// Adds the run that has no moves, with where it stands and the processes that stand for the record's.
    pub(crate) fn begin(
        &mut self,
        search: &Search<'a>,
        progress: MatchProgress<'a>,
        pairs: Vec<ProcessPair>,
    ) {
        match Machine::<'_, SharedTree>::start(search.alloc, search.task) {
            Ok(machine) => self.push(Lead {
                search: *search,
                machine,
                progress,
                pairs,
                sent: Vec::new(search.alloc),
                names: 0,
                moves: Vec::new(search.alloc),
                base: 0,
                is_short: false,
            }),
            Err(_) => self.is_short = true,
        }
    }

    /// Adds a run.
    fn try_push(&mut self, lead: Lead<'a>) -> Result<(), Memory> {
        self.runs.push(lead)?;
        Ok(())
    }

    /// Adds a run, if there is memory for it.
    pub(crate) fn push(&mut self, lead: Lead<'a>) {
        if self.try_push(lead).is_err() {
            self.is_short = true;
        }
    }

    /// Adds a copy of a run, if there is memory for it. Whether there is is told.
    fn push_copy(&mut self, lead: &Lead<'a>) -> bool {
        match lead.copy() {
            Ok(run) => self.push(run),
            Err(Memory) => self.is_short = true,
        }
        !self.is_short
    }

    /// Turns the runs from a place on round, so that the first of them is the last one; it is the only one that stays where there are many
    /// before.
    pub(crate) fn turn(&mut self, first: usize) {
        if first >= MOST_KEPT {
            self.runs.truncate(first.saturating_add(1));
        }
        if first < self.runs.len() {
            self.runs[first..].reverse();
        }
    }

    /// Drops the last run.
    pub(crate) fn drop_last(&mut self) {
        self.runs.truncate(self.runs.len().saturating_sub(1));
    }

    /// Tries something in the last run. Whether it may be is told.
    fn try_in_last(&mut self, trial: Trial) -> bool {
        let Some(run) = self.runs.last_mut() else {
            return false;
        };
        let may = run.tries(trial);
        if run.is_short {
            self.is_short = true;
        }
        may
    }

    /// Adds the run in which something is tried, if it may be. Whether it may is told.
    pub(crate) fn add_tried(&mut self, lead: &Lead<'a>, trial: Trial) -> bool {
        if !self.push_copy(lead) {
            return false;
        }
        let may = self.try_in_last(trial);
        if !may {
            self.drop_last();
        }
        may
    }

    /// What a process does next in the last run, from its names to the end of its call.
    fn outcome_in_last(&mut self, process: u8) -> LineResult {
        let Some(run) = self.runs.last_mut() else {
            return LineResult::Ended;
        };
        let outcome = run.outcome(process);
        if run.is_short {
            self.is_short = true;
        }
        outcome
    }

    /// What a process does next in a run, from its names to the end of its call: it is tried in a copy.
    pub(crate) fn outcome_behind(&mut self, lead: &Lead<'a>, process: u8) -> LineResult {
        if !self.push_copy(lead) {
            return LineResult::Ended;
        }
        let outcome = self.outcome_in_last(process);
        self.drop_last();
        outcome
    }
}

/// A copy of what is in a list. Where memory is refused for it, it is empty, and that is noted.
fn copied<T: Copy>(alloc: Global, items: &[T], is_short: &mut bool) -> Vec<T> {
    match Vec::from_slice(alloc, items) {
        Ok(copy) => copy,
        Err(_) => {
            *is_short = true;
            Vec::new(alloc)
        }
    }
}

impl<'a> Lead<'a> {
    /// The same once more. Where memory was refused for a part of it, that is noted.
    pub(crate) fn copy(&self) -> Result<Lead<'a>, Memory> {
        let alloc = self.search.alloc;
        let machine = self.machine.copy()?;
        let mut is_short = false;
        let progress = MatchProgress {
            left: copied(alloc, &self.progress.left, &mut is_short),
            mappings: copied(alloc, &self.progress.mappings, &mut is_short),
            history: copied(alloc, &self.progress.history, &mut is_short),
        };
        Ok(Lead {
            search: self.search,
            machine,
            progress,
            pairs: copied(alloc, &self.pairs, &mut is_short),
            sent: copied(alloc, &self.sent, &mut is_short),
            names: self.names,
            moves: copied(alloc, &self.moves, &mut is_short),
            base: self.base,
            is_short,
        })
    }

    /// A process, if it was made.
    pub(crate) fn process(&self, number: u8) -> Option<&Process> {
        process_at(self.machine.processes(), usize::from(number))
    }

    /// The instruction at which a process stands, if it was made, lives, and there is one.
    pub(crate) fn instruction(&self, process: u8) -> Option<&'a Instruction> {
        let Some(process) = self.process(process) else {
            return None;
        };
        if process.alive {
            code_of(self.search.task.programs(), process.program).get(process.point as usize)
        } else {
            None
        }
    }

    /// The call at which a process stands, if it stands at one.
    pub(crate) fn call(&self, process: u8) -> Option<&'a Syscall> {
        match self.instruction(process) {
            Some(Instruction::Invoke { call, .. }) => Some(call),
            _ => None,
        }
    }

    /// Notes a move that may be made, if there was memory to tell. Whether it may be is told.
    fn note(&mut self, may: Result<bool, Memory>, step: Move) -> bool {
        match may {
            Ok(true) if self.moves.push(step).is_ok() => true,
            Ok(false) => false,
            _ => {
                self.is_short = true;
                false
            }
        }
    }

    /// What is seen of one step of the machine, if the process was made and there is memory for it.
    fn watch(&mut self, event: Event) -> Option<Seen<'a>> {
        match watched_step(self.search.task, &mut self.machine, event) {
            Ok(watched) => watched.seen,
            Err(_) => {
                self.is_short = true;
                None
            }
        }
    }

    /// What a process does next, from its names to the end of its call.
    fn outcome(&mut self, process: u8) -> LineResult {
        let mut outcome = LineResult::Ended;
        for _ in 0..MOST_LOOKUPS {
            let Some(seen) = self.watch(event_of(process, 0)) else {
                break;
            };
            outcome = seen.outcome;
            if !matches!(outcome, LineResult::Walking) {
                break;
            }
        }
        outcome
    }

    /// Notes through which end a process sends, if the entry of a place that it shows is a write through one.
    fn note_sent(&mut self, process: u8, shows: Option<usize>) {
        let Some(end) = end_written(&self.progress.left, shows) else {
            return;
        };
        for own in self.sent.iter_mut() {
            if own.process == process {
                own.end = end;
                return;
            }
        }
        if self.sent.push(Sent { process, end }).is_err() {
            self.is_short = true;
        }
    }

    /// One step. It is to show the entry of a place, if it is the last one of its call. What it came to is told, if it may be.
    fn step(&mut self, event: Event, shows: Option<usize>) -> Option<LineResult> {
        let Some(seen) = self.watch(event) else {
            return None;
        };
        let shows = match seen.outcome {
            LineResult::Walking | LineResult::Waiting => None,
            _ => shows,
        };
        self.note_sent(event.process, shows);
        let may = after_step(
            self.search.alloc,
            &self.search.setting(&self.pairs),
            &mut self.progress,
            usize::from(event.process),
            Some(&seen),
            shows,
        );
        if !self.note(may, Move::Step { event, shows }) {
            return None;
        }
        if let (Some(call), LineResult::Value(_)) = (seen.call, seen.outcome) {
            self.names = self.names ^ names_changed(call);
        }
        Some(seen.outcome)
    }

    /// Runs a process on until its call has come back, which is to show the entry of a place, if one. Whether it does is told.
    fn run_call(&mut self, event: Event, shows: Option<usize>) -> bool {
        for _ in 0..MOST_LOOKUPS {
            match self.step(event, shows) {
                Some(LineResult::Walking) => {}
                None | Some(LineResult::Waiting | LineResult::Ended) => return false,
                Some(_) => return true,
            }
        }
        false
    }

    /// Notes that the next process that is made stands for the one that the entry of a place has made, if it has made one and none does.
    fn pair_next(&mut self, shows: Option<usize>) {
        let Some(real) = child_at(&self.progress.left, shows) else {
            return;
        };
        // There are 16 processes at most.
        let model = self.machine.processes().len().min(MAX_PROCESSES) as u8;
        let is_new = model_of(&self.pairs, real).is_none();
        if is_new && self.pairs.push(ProcessPair { real, model }).is_err() {
            self.is_short = true;
        }
    }

    /// Skips the entry of a place. Whether it may be is told.
    fn skip(&mut self, entry: usize) -> bool {
        let may = after_skip(
            self.search.alloc,
            &self.search.setting(&self.pairs),
            &mut self.progress,
            self.machine.processes(),
            entry,
        );
        self.note(may, Move::Skip { entry })
    }

    /// Tries something. Whether it may be is told.
    fn tries(&mut self, trial: Trial) -> bool {
        match trial {
            Trial::Step { event, shows } => {
                self.pair_next(shows);
                self.run_call(event, shows)
            }
            Trial::Skip(entry) => self.skip(entry),
            Trial::World(event) => {
                let moves = self.run_call(event, None);
                if moves {
                    self.run_plain(event.process);
                }
                moves
            }
        }
    }

    /// Runs a process on as far as it can alone: up to its next call, byte or end.
    pub(crate) fn run_plain(&mut self, process: u8) {
        for _ in 0..MOST_PLAIN {
            match self.instruction(process) {
                None
                | Some(Instruction::In { .. } | Instruction::Halt | Instruction::Invoke { .. }) => {
                    break;
                }
                Some(_) => {}
            }
            self.step(event_of(process, 0), None);
        }
    }

    /// Runs all processes that stand for the record's on so.
    pub(crate) fn settle(&mut self) {
        for at in 0..self.pairs.len() {
            if at < self.pairs.len() {
                let process = self.pairs[at].model;
                self.run_plain(process);
            }
        }
    }
}
