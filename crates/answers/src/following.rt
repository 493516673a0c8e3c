//! Whether recorded calls follow a task.

ghost use Rattle.std.specs.Prelude.{◌≡◌, IfOk, map, string_bytes};
ghost use Rattle.answers.specs.Answered.{SaysFollowed, SaysScheduled, SaysWhetherFollowed};
ghost use Rattle.follow.specs.Shows.{events_of};
ghost use Rattle.follow.specs.Views.{moves_of, placings_of};
ghost use Rattle.records.specs.EntryViews.{calls_seen};

use crate::answers::Answer;
use crate::parting::{Held, add_parted};
use crate::placing_words::placings_in;
use crate::refusals::Refusal;
use explore::add_schedule;
use follow::{Followed, Move, Parted, counted, events_of, follow};
use records::{Binding, Entry, Event, MadeCall, Operand, read_calls};
use rights::Memory;
use rights::limits::MAX_EVENTS;
use std::alloc::Global;
use task_reader::read_task;
use task_text::texts_of_file;
use texts::{Page, Say, parts_of, say};

/// How many states are met at most, for each call and beside.
const STATES_A_CALL: usize = 10;

const MORE_STATES: usize = 6_000;

/// How many states are met at most for recorded calls: a run that shows them takes some two for each.
pub(crate) fn most_states(entries: &[Entry]) -> usize {
    entries
        .len()
        .saturating_mul(STATES_A_CALL)
        .saturating_add(MORE_STATES)
}

/// Calls that are skipped and that are told as one: what they are of, how many they are, and the line of the first.
#[derive(Drop)]
struct Skipped {
    what: Vec<u8>,
    count: usize,
    line: u32,
}

/// What a run shows of a record.
#[derive(Drop)]
struct Shown {
    calls: usize,
    skipped: Vec<Skipped>,
}

/// Adds what a descriptor is, if it is told.
fn add_bound(page: &mut Page, made: &MadeCall, number: u32) {
    for binding in &made.bindings {
        match binding {
            Binding::Place { descriptor, place } if *descriptor == number => {
                return say!(page; ", ", place.as_slice());
            }
            Binding::End {
                descriptor,
                pair,
                ..
            } if *descriptor == number => return say!(page; ", an end of pair ", *pair),
            _ => {}
        }
    }
}

/// Adds what a call that is skipped is of: its place, or its descriptor.
fn add_subject(page: &mut Page, made: &MadeCall) {
    match made.operands.first() {
        Some(Operand::Path(path)) => say!(page; "of ", path.as_slice()),
        Some(Operand::Number(number)) => {
            say!(page; "by descriptor ", *number);
            add_bound(page, made, *number);
        }
        _ => say!(page; made.call.name()),
    }
}

/// What a call that is skipped is of.
fn subject_of(alloc: Global, entry: &Entry) -> Result<Vec<u8>, Memory> {
    let mut page = Page::new(alloc);
    if let Event::Called(made) = &entry.event {
        add_subject(&mut page, made);
    }
    Ok(page.into_bytes()?)
}

/// Counts a call that is skipped.
fn count_skipped(alloc: Global, skipped: &mut Vec<Skipped>, entry: &Entry) -> Result<(), Memory> {
    let what = subject_of(alloc, entry)?;
    for known in skipped.iter_mut() {
        if known.what == what {
            known.count = known.count.saturating_add(1);
            return Ok(());
        }
    }
    let line = entry.span.first;
    skipped.push(Skipped {
        what,
        count: 1,
        line,
    })?;
    Ok(())
}

/// What a run shows of a record, by its moves.
fn shown_by(alloc: Global, entries: &[Entry], moves: &[Move]) -> Result<Shown, Memory> {
    let mut left = counted(alloc, entries)?;
    let mut shown = Shown {
        calls: 0,
        skipped: Vec::new(alloc),
    };
    for step in moves {
        match *step {
            Move::Step { shows: None, .. } => {}
            Move::Step {
                shows: Some(at),
                ..
            } => {
                if at < left.len() && left.remove(at).event.is_call() {
                    shown.calls = shown.calls.saturating_add(1);
                }
            }
            Move::Skip { entry } => {
                if entry < left.len() {
                    count_skipped(alloc, &mut shown.skipped, left.remove(entry))?;
                }
            }
        }
    }
    Ok(shown)
}

/// Adds what a run shows of a record.
fn add_tally(page: &mut Page, shown: &Shown) {
    let mut count = 0usize;
    for skipped in &shown.skipped {
        count = count.saturating_add(skipped.count);
    }
    say!(page; "follows: ", shown.calls, " calls are shown, ", count, " are skipped\n");
    for skipped in &shown.skipped {
        say!(page; "  skipped: ", skipped.count, " ", skipped.what.as_slice(), ", from line ", skipped.line, " on\n");
    }
}

/// The run of a task that shows recorded calls: its schedule, a blank line, and what it shows and skips. One with more events than a run may
/// have is none.
fn followed(alloc: Global, entries: &[Entry], moves: &[Move]) -> Result<Answer, Memory>
    ensures { IfOk result (λ answer. SaysScheduled (events_of (moves_of moves.now)) answer.status answer.text.items) }
{
    let events = events_of(alloc, moves)?;
    let mut page = Page::new(alloc);
    if events.len() > MAX_EVENTS {
        say!(&mut page; "parts: the run that was found has ", events.len(), " events, and a run has ", MAX_EVENTS, " at most\n");
        return Ok(Answer::broken(page)?);
    }
    let mut tally = Page::new(alloc);
    add_tally(&mut tally, &shown_by(alloc, entries, moves)?);
    add_schedule(&mut page, &events);
    say!(&mut page; "\n", &tally);
    Ok(Answer::done(page)?)
}

/// How far the search for a run came that shows recorded calls.
fn parted(alloc: Global, held: &Held<'_>, parted: &Parted) -> Result<Answer, Memory>
    ensures { IfOk result (λ answer. answer.status ≡ 1) }
{
    let mut page = Page::new(alloc);
    add_parted(&mut page, held, parted);
    Ok(Answer::broken(page)?)
}

/// A run of a task that shows recorded calls, or how far the search for one came.
#[tactic(auto, using(crate::proofs::Writes::run_followed))]
fn answer_held(alloc: Global, held: &Held<'_>) -> Result<Answer, Memory>
    ensures { IfOk result (λ answer. SaysFollowed held.now.task.now (placings_of held.now.placings.now) (calls_seen held.now.entries.now)
        answer.status answer.text.items) }
{
    match follow(
        alloc,
        held.task,
        held.placings,
        held.entries,
        most_states(held.entries),
    )? {
        Followed::Follows(witness) => followed(alloc, held.entries, &witness.moves),
        Followed::Parts(far) => parted(alloc, held, &far),
    }
}

/// A run of a task that shows recorded calls, or how far the search for one came; the status is 1 where none is found, which claims nothing.
/// The words are REAL=MODEL.
pub(crate) fn answer_follow<'a>(
    alloc: Global,
    file: &[u8],
    calls: &[u8],
    words: &[String],
) -> Result<Answer, Refusal<'a>>
    ensures { IfOk result (λ answer. SaysWhetherFollowed file.now calls.now (map string_bytes words.now) answer.status answer.text.items) }
{
    let task = read_task(alloc, file)?;
    let entries = read_calls(alloc, calls)?;
    let placings = placings_in(alloc, words)?;
    let texts = texts_of_file(alloc, file, &task)?;
    let held = Held {
        file,
        texts: &texts,
        task: &task,
        placings: &placings,
        entries: &entries,
    };
    Ok(answer_held(alloc, &held)?)
}
