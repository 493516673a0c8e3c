//! A plan: the task of recorded runs with the mode put in, and what has to be done for that, in words.

use crate::demands::demands_of;
use crate::drafts::Draft;
use crate::entrances::{Entrances, entry_of, program_of, state_behind};
use crate::handles::Handles;
use crate::learning::{LearnFault, add_counts, learn_program, learnt_of, tree_of};
use crate::merging::with_names_merged;
use crate::plan_words::Words;
use crate::policies::{Account, Policy};
use crate::remade::in_order;
use crate::rewriting::remade_of;
use crate::room::Room;
use crate::running::{Learning, Level};
use crate::trees::Tree;
use records::Entry;
use std::alloc::Global;
use texts::Page;

/// A plan: in words, as comments, and as a task.
#[derive(Drop)]
pub struct Planned {
    /// The text up to the program that enters the mode.
    pub front: Vec<u8>,
    /// The name of that program.
    pub name: Vec<u8>,
    /// The text from behind its name on.
    pub back: Vec<u8>,
    /// How many calls in the mode are refused there, or may be for all that is known, and aren't in the task; the greatest number, where 32 bits don't hold it.
    pub left: u32,
}

/// Where the first record's process enters the mode, and which program it has.
#[derive(Clone, Copy)]
struct Start {
    process: u32,
    entry: usize,
    program: usize,
}

/// The call behind which the mode is to be entered.
fn start_of(room: &mut Room, records: &[Vec<Entry>], line: u32) -> Result<Start, LearnFault> {
    let Some(entries) = records.first() else {
        return Err(LearnFault::Nothing.unless_short(room));
    };
    let Some(at) = entry_of(entries, line) else {
        return Err(LearnFault::Line.unless_short(room));
    };
    let Some(entry) = entries.get(at) else {
        return Err(LearnFault::Line.unless_short(room));
    };
    match program_of(room, entries, entry.process) {
        Some(program) => Ok(Start {
            process: entry.process,
            entry: at,
            program,
        }),
        None => Err(LearnFault::Line.unless_short(room)),
    }
}

/// Where the processes of each record enter the mode: all that come to the state in which the first one does.
fn entrances_of(
    room: &mut Room,
    records: &[Vec<Entry>],
    learning: &Learning,
    start: Start,
) -> Vec<Entrances> {
    let state = if learning.automaton.is_full {
        None
    } else {
        state_behind(learning, 0, start.process, start.entry)
    };
    let mut all = room.list();
    for (record, entries) in records.iter().enumerate() {
        let mut entrances = Entrances::new(room);
        if record == 0 {
            entrances.add(room, start.process, start.entry);
        }
        if let Some(state) = state {
            entrances.add_visits(room, &learning.visits, record, state);
        }
        entrances.settle(room, entries);
        room.push(&mut all, entrances);
    }
    all
}

/// What is found out about each record.
fn accounts_of(
    room: &mut Room,
    tree: &Tree,
    records: &[Vec<Entry>],
    all: Vec<Entrances>,
) -> Vec<Account> {
    let mut accounts = room.list();
    for (entrances, entries) in all.into_iter().zip(records.iter()) {
        let handles = Handles::new(room, tree, entries);
        let demands = demands_of(room, tree, entries, &handles, &entrances);
        room.push(
            &mut accounts,
            Account {
                handles,
                entrances,
                demands,
            },
        );
    }
    accounts
}

/// The records as their programs would have made them by the plan.
fn all_remade(
    room: &mut Room,
    tree: &Tree,
    policy: &Policy,
    accounts: &[Account],
    records: &[Vec<Entry>],
) -> Vec<Vec<Entry>> {
    let mut all = room.list();
    for (at, account) in accounts.iter().enumerate() {
        if let Some(entries) = records.get(at) {
            let remade = remade_of(room, tree, policy, account, entries);
            room.push(&mut all, remade);
        }
    }
    all
}

/// The texts of a plan, whose words stand on a page already.
fn planned_of(
    room: &mut Room,
    page: Page,
    draft: Draft<'_>,
    program: usize,
    left: usize,
) -> Result<Planned, LearnFault> {
    let mut page = page;
    let mut draft = draft;
    draft.add_front(room, &mut page, program);
    if draft.is_crowded(room) {
        return Err(LearnFault::Descriptors.unless_short(room));
    }
    let mut rest = Page::new(room.alloc());
    draft.add_back(room, &mut rest, program);
    let name = match draft.programs.get(program) {
        Some(own) => room.copy(&own.name),
        None => room.list(),
    };
    let front = room.bytes(page);
    let back = room.bytes(rest);
    if room.is_short() {
        return Err(LearnFault::Memory);
    }
    Ok(Planned {
        front,
        name,
        back,
        left: u32::try_from(left).unwrap_or(u32::MAX),
    })
}

/// What a policy's remade records teach, behind what is told of it and its words.
fn plan_in_words(
    room: &mut Room,
    remade: &[Vec<Entry>],
    told: &Page,
    line: u32,
    program: usize,
    words: &Words<'_>,
) -> Result<Planned, LearnFault> {
    let learnt = learnt_of(room, remade, Some(words.policy))?;
    let mut page = Page::new(room.alloc());
    add_counts(&mut page, words.records);
    page.page(told);
    learnt.add_head(&mut page);
    let left = words
        .add(room, &mut page, line)
        .saturating_add(learnt.left_in_mode());
    let draft = learnt.draft(room, Some(words.policy));
    planned_of(room, page, draft, program, left)
}

/// The plan of records whose entries are in order, and are changed as is told.
fn plan_ordered(
    room: &mut Room,
    records: &[Vec<Entry>],
    line: u32,
    told: &Page,
) -> Result<Planned, LearnFault> {
    let start = start_of(room, records, line)?;
    let mut tree = tree_of(room, records, None);
    let learnt = learn_program(room, &mut tree, records, Level::LastCall, start.program);
    let Some((learning, _)) = learnt else {
        return Err(LearnFault::Nothing.unless_short(room));
    };
    let all = entrances_of(room, records, &learning, start);
    let accounts = accounts_of(room, &tree, records, all);
    let policy = Policy::new(room, &tree, records, &accounts);
    let remade = all_remade(room, &tree, &policy, &accounts, records);
    let words = Words {
        tree: &tree,
        policy: &policy,
        accounts: &accounts,
        records,
    };
    let program = start.program;
    plan_in_words(room, &remade, told, line, program, &words)
}

/// The task that recorded runs of a program show, with the mode behind a line of the first one, with the directories, limits and grants that
/// this takes; in front of it what that is, in words. Where a program would have more than 256 instructions, names with which the
/// same is done are one, of one directory or looked for in vain. Nothing is claimed of it: whether it is sandboxed is to be asked. (own)
pub fn plan(alloc: Global, records: &[Vec<Entry>], line: u32) -> Result<Planned, LearnFault> {
    let mut room = Room::new(alloc);
    let mut ordered = room.list();
    for entries in records {
        let copies = in_order(&mut room, entries);
        room.push(&mut ordered, copies);
    }
    let mut told = Page::new(alloc);
    match plan_ordered(&mut room, &ordered, line, &told) {
        Err(LearnFault::Points) => {}
        planned => return planned,
    }
    let merged = with_names_merged(&mut room, &ordered, &mut told);
    plan_ordered(&mut room, &merged.records, line, &told)
}
