//! A task, of recorded runs.

use crate::codes::code_of;
use crate::drafts::{Draft, Program};
use crate::evidence::{add_evidence, add_links};
use crate::late_starts::begun_late;
use crate::merging::{Renaming, with_names_merged};
use crate::message_counts::messages_of;
use crate::needs::Need;
use crate::policies::Policy;
use crate::readings::offsets_of;
use crate::room::Room;
use crate::running::{Course, Learning, Level};
use crate::starts::first_table;
use crate::tables::Table;
use crate::trees::{Presence, Tree};
use records::{Entry, Reason};
use rights::limits::MAX_PROCESSES;
use std::alloc::Global;
use texts::{Page, Say, parts_of, say};

/// Why nothing is learnt.
#[derive(Clone, Copy, PartialEq, Eq)]
pub enum LearnFault {
    Memory,
    /// A program would have more than 256 instructions, however little is remembered.
    Points,
    /// A process holds more than 16 descriptors.
    Descriptors,
    /// No process makes a call.
    Nothing,
    /// The first record has no call in the line.
    Line,
}

impl LearnFault {
    /// This one, or that memory was refused, if it was.
    pub(crate) fn unless_short(self, room: &Room) -> LearnFault {
        if room.is_short() {
            LearnFault::Memory
        } else {
            self
        }
    }
}

/// Why calls are left out, in the order of the last line of recorded calls.
const REASONS: [Reason; 6] = [
    Reason::Loader,
    Reason::Quiet,
    Reason::Global,
    Reason::Right,
    Reason::Unknown,
    Reason::Name,
];

/// What is learnt of the programs.
#[derive(Drop)]
struct Lessons {
    programs: Vec<Program>,
    needs: Vec<Need>,
    left_out: usize,
    left_in_mode: usize,
    unseen: usize,
    fits: bool,
    is_over: bool,
}

/// What is learnt.
#[derive(Drop)]
pub(crate) struct Learnt {
    tree: Tree,
    lessons: Lessons,
    level: Level,
}

/// The tree that records tell of, with the directories of a plan's policy, if it is one's.
pub(crate) fn tree_of(room: &mut Room, records: &[Vec<Entry>], policy: Option<&Policy>) -> Tree {
    let mut tree = Tree::new(room);
    add_links(room, &mut tree, records);
    if let Some(policy) = policy {
        for ground in &policy.grounds {
            tree.there(room, &ground.place, Presence::Directory);
        }
    }
    for entries in records {
        add_evidence(room, &mut tree, entries);
    }
    for entries in records {
        offsets_of(room, &mut tree, entries);
    }
    tree
}

/// The name of a program by its place.
fn name_of(room: &mut Room, program: usize) -> Vec<u8> {
    if program == 0 {
        room.copy(b"main")
    } else {
        room.text(parts_of!("main", program.saturating_add(1)))
    }
}

/// The first process of a place in a record.
fn process_at(room: &mut Room, entries: &[Entry], program: usize) -> Option<u32> {
    let processes = room.processes(entries);
    processes.get(program).copied()
}

/// Learns the program of a record's first process, of the first processes that have this place in their records.
pub(crate) fn learn_program(
    room: &mut Room,
    tree: &mut Tree,
    records: &[Vec<Entry>],
    level: Level,
    program: usize,
) -> Option<(Learning, Table)> {
    let mut learning = Learning::new(room);
    let mut first = None;
    for (record, entries) in records.iter().enumerate() {
        if let Some(process) = process_at(room, entries, program) {
            let messages = messages_of(room, entries);
            let offsets = offsets_of(room, tree, entries);
            let table = first_table(room, tree, entries, process);
            if first.is_none() {
                first = Some(table.copy(room));
            }
            let course = Course {
                entries,
                messages: &messages,
                offsets: &offsets,
                tree,
                level,
                program,
                record,
            };
            learning.run(room, &course, process, table);
        }
    }
    match first {
        Some(table) => Some((learning, table)),
        None => None,
    }
}

impl Lessons {
    /// Adds a program.
    fn add(&mut self, room: &mut Room, learning: Learning, table: Table) {
        let code = code_of(room, &learning.automaton);
        self.fits = self.fits && code.fits() && !learning.automaton.is_full;
        self.is_over = self.is_over || learning.is_over;
        self.left_out = self.left_out.saturating_add(learning.left_out);
        self.left_in_mode = self.left_in_mode.saturating_add(learning.left_in_mode);
        self.unseen = self.unseen.saturating_add(code.unseen);
        let name = name_of(room, self.programs.len());
        for need in &learning.needs {
            room.push(&mut self.needs, *need);
        }
        room.push(&mut self.programs, Program { name, code, table });
    }
}

/// Learns all programs.
fn learn_programs(
    room: &mut Room,
    tree: &mut Tree,
    records: &[Vec<Entry>],
    level: Level,
) -> Lessons {
    let mut lessons = Lessons {
        programs: room.list(),
        needs: room.list(),
        left_out: 0,
        left_in_mode: 0,
        unseen: 0,
        fits: true,
        is_over: false,
    };
    for program in 0..MAX_PROCESSES {
        match learn_program(room, tree, records, level, program) {
            Some((learning, table)) => lessons.add(room, learning, table),
            None => break,
        }
    }
    lessons
}

/// How many entries of records are left out for a reason.
fn left_out(records: &[Vec<Entry>], reason: Reason) -> usize {
    let mut count = 0usize;
    for entries in records {
        for entry in entries {
            if entry.event.is_left_out(reason) {
                count = count.saturating_add(1);
            }
        }
    }
    count
}

/// How many entries of records are calls.
fn calls_in(records: &[Vec<Entry>]) -> usize {
    let mut count = 0usize;
    for entries in records {
        for entry in entries {
            if entry.event.is_call() {
                count = count.saturating_add(1);
            }
        }
    }
    count
}

/// Adds how many calls there were, and how many are left out.
pub(crate) fn add_counts(page: &mut Page, records: &[Vec<Entry>]) {
    say!(page; "# Learnt of ", calls_in(records), " calls. Left out:");
    for reason in REASONS {
        say!(page; " ", reason.name(), " ", left_out(records, reason));
    }
    page.bytes(b".\n");
}

/// Where a program stands at a level.
fn meaning_of(level: Level) -> &'static str {
    match level {
        Level::LastCall => "what its process holds and its last call",
        Level::Table =>
            "what its process holds; with its last call there would be too many instructions",
        Level::Numbers =>
            "at which numbers its process holds something; with what that is there would be too many instructions",
    }
}

impl Learnt {
    /// How many calls in the mode aren't there, by a descriptor of which nothing is known or a path that assembly can't have.
    pub(crate) fn left_in_mode(&self) -> usize {
        self.lessons.left_in_mode
    }

    /// Adds what is told of how it was learnt.
    pub(crate) fn add_head(&self, page: &mut Page) {
        let lessons = &self.lessons;
        say!(page; "# Where a program stands is ", meaning_of(self.level), ".\n");
        say!(page; "# Calls of which no failure was seen, those with `else fail`: ", lessons.unseen, ".\n");
        if lessons.left_out > 0 {
            say!(page; "# Calls that aren't here, by a descriptor of which nothing is known or a path that assembly can't have: ", lessons.left_out, ".\n");
        }
        page.bytes(
            b"# The process of `world` is whoever the record talks to: any of its acts comes at any time.\n",
        );
    }

    /// The task that is learnt, with the policy of a plan, if it is one's.
    pub(crate) fn draft<'a>(self, room: &mut Room, policy: Option<&'a Policy>) -> Draft<'a> {
        let Learnt { tree, lessons, .. } = self;
        Draft::new(room, lessons.programs, lessons.needs, tree, policy)
    }
}

/// What is learnt at a level, if it fits.
fn learn_at(
    room: &mut Room,
    records: &[Vec<Entry>],
    policy: Option<&Policy>,
    level: Level,
) -> Result<Learnt, LearnFault> {
    let mut tree = tree_of(room, records, policy);
    let lessons = learn_programs(room, &mut tree, records, level);
    if room.is_short() || lessons.programs.is_empty() {
        return Err(LearnFault::Nothing.unless_short(room));
    }
    if lessons.is_over {
        return Err(LearnFault::Descriptors);
    }
    if !lessons.fits {
        return Err(LearnFault::Points);
    }
    Ok(Learnt {
        tree,
        lessons,
        level,
    })
}

/// What is learnt at the first level at which it fits, with a plan's policy, if it is one's.
pub(crate) fn learnt_of(
    room: &mut Room,
    records: &[Vec<Entry>],
    policy: Option<&Policy>,
) -> Result<Learnt, LearnFault> {
    for level in [Level::LastCall, Level::Table] {
        match learn_at(room, records, policy, level) {
            Err(LearnFault::Points) => {}
            learnt => return learnt,
        }
    }
    learn_at(room, records, policy, Level::Numbers)
}

/// The text of a page, if there was memory for all that it tells of.
pub(crate) fn text_of(room: &mut Room, page: Page) -> Result<Vec<u8>, LearnFault> {
    let text = room.bytes(page);
    if room.is_short() {
        return Err(LearnFault::Memory);
    }
    Ok(text)
}

/// The text of a task of records that are changed as is told.
fn text_learnt(
    room: &mut Room,
    records: &[Vec<Entry>],
    told: &Page,
) -> Result<Vec<u8>, LearnFault> {
    let learnt = learnt_of(room, records, None)?;
    let mut page = Page::new(room.alloc());
    add_counts(&mut page, records);
    page.page(told);
    learnt.add_head(&mut page);
    let mut draft = learnt.draft(room, None);
    draft.add_front(room, &mut page, 0);
    if draft.is_crowded(room) {
        return Err(LearnFault::Descriptors.unless_short(room));
    }
    draft.add_name_of(&mut page, 0);
    draft.add_back(room, &mut page, 0);
    text_of(room, page)
}

/// A task that was learnt.
#[derive(Drop)]
pub struct LearntTask {
    pub text: Vec<u8>,
    /// The names of the records that others stand for in it.
    pub renamings: Vec<Renaming>,
}

/// What is learnt of records that are changed as is told, with names as one with which the same is done, where that is asked.
fn learnt_named(
    room: &mut Room,
    records: &[Vec<Entry>],
    mut told: Page,
    is_merged: bool,
) -> Result<LearntTask, LearnFault> {
    if is_merged {
        let merged = with_names_merged(room, records, &mut told);
        let text = text_learnt(room, &merged.records, &told)?;
        let renamings = merged.renamings;
        return Ok(LearntTask { text, renamings });
    }
    let text = text_learnt(room, records, &told)?;
    let renamings = room.list();
    Ok(LearntTask { text, renamings })
}

/// What is learnt of records, with names as one with which the same is done, and of processes that begin late, where that is asked.
fn learnt_by(
    room: &mut Room,
    records: &[Vec<Entry>],
    is_late: bool,
    is_merged: bool,
) -> Result<LearntTask, LearnFault> {
    let mut told = Page::new(room.alloc());
    if is_late {
        let late = begun_late(room, records, &mut told);
        return learnt_named(room, &late, told, is_merged);
    }
    learnt_named(room, records, told, is_merged)
}

/// A task, of the calls of runs of one program: the tree, the processes and the programs that they show. Where a program would
/// have more than 256 instructions, names with which the same is done are one, of one directory or looked for in vain; where that is still so, processes begin behind
/// the last program that they went on as, and at last both. Nothing is claimed of it: whether the records follow it is to be asked. (own)
pub fn learn(alloc: Global, records: &[Vec<Entry>]) -> Result<LearntTask, LearnFault> {
    let mut room = Room::new(alloc);
    for (is_late, is_merged) in [(false, false), (false, true), (true, false)] {
        match learnt_by(&mut room, records, is_late, is_merged) {
            Err(LearnFault::Points) => {}
            learnt => return learnt,
        }
    }
    learnt_by(&mut room, records, true, true)
}
