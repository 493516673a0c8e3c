//! The search for a run of a task that shows the calls of a record.

ghost use Rattle.std.specs.Prelude.{IfOk, IfSome};
ghost use Rattle.records.specs.EntryViews.{calls_seen};
ghost use Rattle.follow.specs.FollowedViews.{IsFollowed};
ghost use Rattle.follow.specs.Shows.{IsShown};
ghost use Rattle.follow.specs.Views.{placings_of, witness_of};

use crate::branching::{add_branches, add_unshown};
use crate::checking::shows;
use crate::digests::{KeptRegisters, digest_of};
use crate::leads::{Lead, Leads, Search};
use crate::numbers::{ProcessPair, model_of};
use crate::places::Placing;
use crate::progress::{MatchProgress, has_limiting};
use crate::witnesses::Witness;
use indexmap::IndexSet;
use records::{Entry, first_processes};
use rights::Memory;
use simulator::LineResult;
use std::alloc::Global;
use std::mem;
use task::{Start, Task};

/// How many points are told at most.
const MOST_POINTS: usize = 16;

/// What a process of the task would do where a search has come furthest.
#[derive(Clone, Copy, PartialEq, Eq)]
pub struct AtPoint {
    /// The process, its program's place in the task, and its point.
    pub process: u8,
    pub program: u8,
    pub point: u8,
    /// Whether it is in capability mode.
    pub in_mode: bool,
    /// What its instruction comes to.
    pub outcome: LineResult,
}

/// How far a search has come that found nothing.
#[derive(Drop)]
pub struct Parted {
    /// The place of the first entry of the record that wasn't shown where most were.
    pub entry: usize,
    /// The points at which the process of that entry may stand then.
    pub points: Vec<AtPoint>,
    /// How many states were met, and whether the search stopped there for the bound.
    pub states: usize,
    pub is_bounded: bool,
}

/// What a search came to.
#[derive(Drop)]
pub enum Followed {
    /// A run of the task shows the calls.
    Follows(Witness),
    /// None was found. That claims nothing.
    Parts(Parted),
}

/// The search on its way.
#[derive(Drop)]
struct Trail<'a> {
    /// The runs that may be gone on with.
    leads: Leads<'a>,
    /// The moves of the way to the one that was last, and, where that shows all, the processes that stand for the record's.
    way: Witness,
    met: IndexSet<u128>,
    /// How many entries were left where most were shown, the first one of them, and the points there.
    fewest: usize,
    first_left: Option<&'a Entry>,
    points: Vec<AtPoint>,
}

/// Nothing that shows anything.
fn no_witness(alloc: Global) -> Witness {
    Witness {
        pairs: Vec::new(alloc),
        moves: Vec::new(alloc),
    }
}

/// Whether a first process plays the world: it is of a program `world`.
fn plays_world(task: &Task, start: &Start) -> bool {
    task.program_name(start.program) == b"world".as_slice()
}

/// Has the processes with which the task starts, but for those of a program `world`, stand for these of the record, in this order.
fn pairs_of(alloc: Global, task: &Task, first: &[u32]) -> Result<Vec<ProcessPair>, Memory> {
    let mut pairs = Vec::new(alloc);
    let mut model: u8 = 0;
    for start in task.starts() {
        let at = pairs.len();
        if at < first.len() && !plays_world(task, start) {
            let real = first[at];
            pairs.push(ProcessPair { real, model })?;
        }
        model = model.saturating_add(1);
    }
    Ok(pairs)
}

/// Has the processes with which the task starts stand so for those with which the record does.
fn first_pairs(alloc: Global, task: &Task, entries: &[Entry]) -> Result<Vec<ProcessPair>, Memory> {
    let first = first_processes(alloc, entries)?;
    pairs_of(alloc, task, &first)
}

impl<'a> Trail<'a> {
    /// Notes how far a run has come, if none has come further.
    fn reach(&mut self, lead: &Lead<'a>) {
        let left = &lead.progress.left;
        if left.len() < self.fewest || self.first_left.is_none() {
            self.points.clear();
            self.fewest = left.len();
            self.first_left = left.first().copied();
        }
    }

    /// Notes the point at which a process of a run stands, and what its instruction comes to.
    fn note(&mut self, lead: &Lead<'a>, process: u8) {
        let Some(state) = lead.process(process) else {
            return;
        };
        let point = AtPoint {
            process,
            program: state.program,
            point: state.point,
            in_mode: state.mode(),
            outcome: self.leads.outcome_behind(lead, process),
        };
        if !self.points.contains(&point) && self.points.push(point).is_err() {
            self.leads.is_short = true;
        }
    }

    /// Notes where the process of the next entry stands, if no run has come further.
    fn note_end(&mut self, lead: &Lead<'a>) {
        let left = &lead.progress.left;
        if left.len() > self.fewest || self.points.len() >= MOST_POINTS {
            return;
        }
        if let Some(entry) = left.first() {
            if let Some(process) = model_of(&lead.pairs, entry.process) {
                self.note(lead, process);
            }
        }
    }

    /// Keeps the runs that come next behind a run. Where the processes whose calls come next have none, it is noted where it stands, if none has
    /// come further, and others may move.
    fn branch(&mut self, lead: &Lead<'a>) {
        self.reach(lead);
        let first = self.leads.runs.len();
        add_branches(lead, &mut self.leads);
        if self.leads.runs.len() == first {
            self.note_end(lead);
            add_unshown(lead, &mut self.leads);
        }
        self.leads.turn(first);
    }

    /// Moves the last moves of a run to the way.
    fn take_moves(&mut self, lead: &mut Lead<'a>) {
        let way = &mut self.way.moves;
        way.truncate(lead.base);
        if way.extend_from_slice(&lead.moves).is_err() {
            self.leads.is_short = true;
        }
        lead.moves.clear();
        lead.base = way.len();
    }

    /// Whether a run wasn't met before.
    fn is_new(&mut self, lead: &Lead<'a>) -> bool {
        match self.met.insert_full(digest_of(lead)) {
            Ok((_, is_new)) => is_new,
            Err(_) => {
                self.leads.is_short = true;
                false
            }
        }
    }

    /// Goes on with a run, up to where each process makes its next call. Whether it shows all is told.
    fn go_on(&mut self, lead: &mut Lead<'a>) -> bool {
        lead.settle();
        self.take_moves(lead);
        if lead.is_short {
            self.leads.is_short = true;
        }
        if lead.progress.is_at_end() {
            mem::swap(&mut self.way.pairs, &mut lead.pairs);
            return true;
        }
        if self.is_new(lead) {
            self.branch(lead);
        }
        false
    }

    /// Goes on with the last run so, if there is one.
    fn go_on_with_last(&mut self) -> bool {
        match self.leads.runs.pop() {
            Some(mut lead) => self.go_on(&mut lead),
            None => false,
        }
    }

    /// Searches over at most so many states. Whether a run was found that shows all is told; where memory was refused, that is noted.
    fn search(&mut self, bound: usize) -> bool {
        for _ in 0..bound {
            if self.leads.is_short || self.leads.runs.is_empty() {
                break;
            }
            if self.go_on_with_last() {
                return true;
            }
        }
        false
    }

    /// Begins with the run that has no moves, unless some process of it stands for two, or two for one.
    fn begin(&mut self, search: &Search<'a>, entries: &'a [Entry]) -> Result<(), Memory> {
        let pairs = first_pairs(search.alloc, search.task, entries)?;
        if let Some(progress) = MatchProgress::first(search.alloc, search.task, &pairs, entries)? {
            self.leads.begin(search, progress, pairs);
        }
        Ok(())
    }
}

/// The place of an entry in a record.
fn index_of(entries: &[Entry], sought: Option<&Entry>) -> usize {
    let Some(sought) = sought else {
        return 0;
    };
    for (place, entry) in entries.iter().enumerate() {
        if entry.span.first == sought.span.first
            && entry.span.last == sought.span.last
            && entry.process == sought.process
        {
            return place;
        }
    }
    0
}

/// What was found, if it shows the calls.
fn judged(
    search: &Search<'_>,
    entries: &[Entry],
    witness: Witness,
) -> Result<Option<Witness>, Memory>
    ensures { IfOk result (λ judged. IfSome judged (λ found. IsShown search.now.task.now (placings_of search.now.placings.now) (calls_seen entries.now)
        (witness_of found))) }
{
    match shows(
        search.alloc,
        search.task,
        search.placings,
        entries,
        &witness,
    ) {
        Ok(true) => Ok(Some(witness)),
        Ok(false) => Ok(None),
        Err(_) => Err(Memory),
    }
}

/// How far a search has come that found nothing.
fn parted_of<'a>(trail: &mut Trail<'a>, search: &Search<'a>, entries: &'a [Entry]) -> Parted {
    Parted {
        entry: index_of(entries, trail.first_left),
        points: mem::replace(&mut trail.points, Vec::new(search.alloc)),
        states: trail.met.len(),
        is_bounded: !trail.leads.runs.is_empty(),
    }
}

/// What a search from the beginning comes to: what is found is checked by `shows`.
fn checked<'a>(
    trail: &mut Trail<'a>,
    search: &Search<'a>,
    entries: &'a [Entry],
    bound: usize,
) -> Result<Followed, Memory>
    ensures { IfOk result (IsFollowed search.now.task.now (placings_of search.now.placings.now) (calls_seen entries.now)) }
{
    trail.begin(search, entries)?;
    let is_found = trail.search(bound);
    if trail.leads.is_short {
        return Err(Memory);
    }
    if is_found {
        let found = mem::replace(&mut trail.way, no_witness(search.alloc));
        if let Some(witness) = judged(search, entries, found)? {
            return Ok(Followed::Follows(witness));
        }
    }
    Ok(Followed::Parts(parted_of(trail, search, entries)))
}

/// What a search comes to.
fn searched<'a>(search: &Search<'a>, entries: &'a [Entry], bound: usize) -> Result<Followed, Memory>
    ensures { IfOk result (IsFollowed search.now.task.now (placings_of search.now.placings.now) (calls_seen entries.now)) }
{
    let alloc = search.alloc;
    let mut trail = Trail {
        leads: Leads::new(alloc),
        way: no_witness(alloc),
        met: IndexSet::new(alloc),
        fewest: entries.len(),
        first_left: None,
        points: Vec::new(alloc),
    };
    checked(&mut trail, search, entries, bound)
}

/// Searches a run of the task that shows the calls of a record, over at most so many states. The processes of the record that none of its
/// calls makes are those with which the task starts, in this order, but for those of a program `world`. What is found is checked by
/// `shows`. Want of memory is the only error.
pub fn follow<'a>(
    alloc: Global,
    task: &'a Task,
    placings: &'a [Placing],
    entries: &'a [Entry],
    bound: usize,
) -> Result<Followed, Memory>
    ensures { IfOk result (IsFollowed task.now (placings_of placings.now) (calls_seen entries.now)) }
{
    let registers = KeptRegisters::new(alloc, task)?;
    let search = Search {
        alloc,
        task,
        placings,
        limited: has_limiting(entries),
        registers: &registers,
    };
    searched(&search, entries, bound)
}
