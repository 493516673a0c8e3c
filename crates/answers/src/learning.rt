//! A task, of recorded calls.

ghost use Rattle.std.specs.Prelude.{◌≡◌, ◌⊎◌, ◌++◌, ◌∷◌, [], IfOk, IfSome, Ok, Some, map, string_bytes, true};
ghost use Rattle.std.specs.List.{flat_map, list_all};
ghost use Rattle.answers.specs.Learnt.{AreCalls, AreShown, SaysLearnt, StandsIn, WritesNothing, WritesTask, calls_in, has_excuses, placings_text, run_text};
ghost use Rattle.answers.specs.RunViews.{runs_of};
ghost use Rattle.follow.specs.Views.{placings_of};
ghost use Rattle.records.specs.EntryViews.{calls_seen};
ghost use Rattle.task_reader.specs.Reading.{task_of};

use crate::answers::Answer;
use crate::refusals::Refusal;
use crate::showing::{Found, Run, add_runs, are_excused, are_shown, runs_found, says_placings};
use crate::usage::NAME;
use console::Source;
use console::statuses::{BROKEN, DONE};
use follow::Placing;
use learner::{LearnFault, LearntTask, Renaming, learn};
use records::{Entry, read_calls};
use rights::Memory;
use std::alloc::Global;
use task::Task;
use task_reader::{TaskFault, read_task};
use texts::{Page, Say, parts_of, say};

/// Adds the calls of a file.
fn add_record(records: &mut Vec<Vec<Entry>>, entries: Vec<Entry>) -> Result<(), Memory>
    ensures { IfOk result (λ _. records.new.items ≡ records.old.items ++ entries ∷ []) }
{
    records.push(entries)?;
    Ok(())
}

/// The calls of files.
pub(crate) fn calls_of_files<'a, S: Source>(
    alloc: Global,
    files: &mut S,
    names: &'a [String],
) -> Result<Vec<Vec<Entry>>, Refusal<'a>>
    ensures { IfOk result (λ records. AreCalls (S.files files.old) (map string_bytes names.now) (map (λ entries. calls_seen entries.items) records.items)) }
{
    let mut records = Vec::new(alloc);
    for name in names {
        let text = files.fetch(name.as_str())?;
        add_record(&mut records, read_calls(alloc, &text)?)?;
    }
    Ok(records)
}

/// Where the records' places lie in a task that was learnt.
fn places_of(alloc: Global, renamings: &[Renaming]) -> Result<Vec<Placing>, Memory> {
    let mut placings = Vec::new(alloc);
    for renaming in renamings {
        let real = renaming.real.clone()?;
        let model = renaming.model.clone()?;
        placings.push(Placing { real, model })?;
    }
    Ok(placings)
}

/// That no run of a task was found that shows the calls of a file.
fn lost_words(alloc: Global, at: usize) -> Result<Vec<u8>, Memory> {
    let mut told = Page::new(alloc);
    say!(&mut told; NAME, ": no run was found that shows the calls of file ", at.saturating_add(1), "\n");
    Ok(told.into_bytes()?)
}

/// That calls are skipped which aren't excused.
fn skipped_words(alloc: Global) -> Result<Vec<u8>, Memory> {
    let mut told = Page::new(alloc);
    say!(&mut told; NAME, ": no run was found that skips only what a task can't have: see the last lines\n");
    Ok(told.into_bytes()?)
}

/// Why nothing is learnt.
pub(crate) fn why_nothing(fault: LearnFault) -> &'static str {
    match fault {
        LearnFault::Memory => "there is no memory",
        LearnFault::Points => "a program would have more than 256 instructions",
        LearnFault::Descriptors => "a process holds more than 16 descriptors",
        LearnFault::Nothing => "there is no call",
        LearnFault::Line => "the first file has no call in that line",
    }
}

/// Why what is learnt is no task.
fn why_refused(fault: &TaskFault) -> &'static str {
    match fault {
        TaskFault::Limit => "a task has at most 1024 nodes, 16 processes and 8 programs",
        _ => "what comes of it isn't a task",
    }
}

/// That nothing is learnt, and why.
pub(crate) fn nothing(alloc: Global, why: &str) -> Result<Answer, Memory>
    ensures { IfOk result (λ answer. WritesNothing answer.status answer.text.items) }
{
    let mut told = Page::new(alloc);
    say!(&mut told; NAME, ": nothing is learnt: ", why, "\n");
    Ok(Answer {
        text: Vec::new(alloc),
        told: told.into_bytes()?,
        status: BROKEN,
    })
}

/// A text with lines behind it.
fn with_lines(alloc: Global, text: &[u8], lines: &[u8]) -> Result<Vec<u8>, Memory>
    ensures { IfOk result (λ written. written.items ≡ text.now ++ lines.now) }
{
    let mut written = Vec::from_slice(alloc, text)?;
    written.extend_from_slice(lines)?;
    Ok(written)
}

/// Whether runs show their records, a text says where the records' places lie, and what they skip is excused.
fn is_all_shown(
    alloc: Global,
    task: &Task,
    text: &[u8],
    is_excused: bool,
    placings: &[Placing],
    runs: &[Run<'_>],
) -> Result<bool, Memory>
    ensures excused { IfOk result (λ is. is ≡ true → is_excused ≡ true) }
    ensures says { IfOk result (λ is. is ≡ true → StandsIn (placings_text (placings_of placings.now)) text.now) }
    ensures shown { IfOk result (λ is. is ≡ true → AreShown task.now (placings_of placings.now) (runs_of runs.now)) }
{
    if !is_excused {
        return Ok(false);
    }
    if !says_placings(alloc, placings, text)? {
        return Ok(false);
    }
    are_shown(alloc, task, placings, runs)
}

/// A task's text with lines behind it that say what its runs show and skip. What is answered is asked of the task that is written.
#[tactic(auto, using(crate::proofs::LearntLaws::all_shown, crate::proofs::LearntLaws::some_skipped))]
fn shown_answer(
    alloc: Global,
    text: &[u8],
    lines: &[u8],
    is_excused: bool,
    placings: &[Placing],
    runs: &[Run<'_>],
) -> Result<Option<Answer>, Memory>
    requires excused { is_excused ≡ true → list_all (has_excuses (placings_of placings.now)) (runs_of runs.now) ≡ true }
    requires lines { lines.now ≡ flat_map (run_text (placings_of placings.now)) (runs_of runs.now) }
    ensures { IfOk result (λ answer. IfSome answer (λ a. WritesTask (map calls_in (runs_of runs.now)) a.status a.text.items)) }
{
    let written = with_lines(alloc, text, lines)?;
    let task = match read_task(alloc, &written) {
        Ok(task) => task,
        Err(TaskFault::Memory) => return Err(Memory),
        Err(_) => return Ok(None),
    };
    if is_all_shown(alloc, &task, text, is_excused, placings, runs)? {
        return Ok(Some(Answer::new(alloc, written, DONE)));
    }
    Ok(Some(Answer {
        text: written,
        told: skipped_words(alloc)?,
        status: BROKEN,
    }))
}

/// A task's text with what these runs show and skip, if that is a task's text, too.
fn told_answer(
    alloc: Global,
    text: &[u8],
    placings: &[Placing],
    runs: &[Run<'_>],
) -> Result<Option<Answer>, Memory>
    ensures { IfOk result (λ answer. IfSome answer (λ a. WritesTask (map calls_in (runs_of runs.now)) a.status a.text.items)) }
{
    let mut page = Page::new(alloc);
    add_runs(alloc, &mut page, placings, runs)?;
    let lines = page.into_bytes()?;
    let is_excused = are_excused(alloc, placings, runs)?;
    shown_answer(alloc, text, &lines, is_excused, placings, runs)
}

/// The text of a task, with what is shown of the records behind it, or with the first one told for which no run of it is found.
#[tactic(auto, using(crate::proofs::LearntLaws::one_lost))]
fn learnt_answer(
    alloc: Global,
    learnt: LearntTask,
    task: &Task,
    records: &[Vec<Entry>],
) -> Result<Option<Answer>, Memory>
    requires { task_of learnt.text.items ≡ Ok task.now }
    ensures { IfOk result (λ answer. IfSome answer (λ a. WritesTask (map (λ entries. calls_seen entries.items) records.now) a.status a.text.items)) }
{
    let placings = places_of(alloc, &learnt.renamings)?;
    match runs_found(alloc, task, &placings, records)? {
        Found::Runs(runs) => told_answer(alloc, &learnt.text, &placings, &runs),
        Found::Lost(at) => Ok(Some(Answer {
            text: learnt.text,
            told: lost_words(alloc, at)?,
            status: BROKEN,
        })),
    }
}

/// What is answered of a task that was learnt, if it could be read again with what is told.
fn answer_or_nothing(alloc: Global, answer: Option<Answer>) -> Result<Answer, Memory>
    ensures { IfOk result (λ own. (answer ≡ Some own) ⊎ WritesNothing own.status own.text.items) }
{
    match answer {
        Some(answer) => Ok(answer),
        None => nothing(alloc, "what comes of it isn't a task"),
    }
}

/// A task that recorded calls show, with what is told: how many of them a run of it shows and skips, or for which file no run is found, or why
/// there is none. The status is 0 where a run shows each file and skips only what is excused.
#[tactic(auto, using(crate::proofs::LearntLaws::learnt, crate::proofs::LearntLaws::nothing_learnt))]
pub(crate) fn answer_learn<'a, S: Source>(
    alloc: Global,
    files: &mut S,
    names: &'a [String],
) -> Result<Answer, Refusal<'a>>
    ensures { IfOk result (λ answer. SaysLearnt (S.files files.old) (map string_bytes names.now) answer.status answer.text.items) }
{
    let records = calls_of_files(alloc, files, names)?;
    let learnt = match learn(alloc, &records) {
        Ok(learnt) => learnt,
        Err(LearnFault::Memory) => return Err(Refusal::from(Memory)),
        Err(fault) => return Ok(nothing(alloc, why_nothing(fault))?),
    };
    match read_task(alloc, &learnt.text) {
        Ok(task) => Ok(answer_or_nothing(alloc, learnt_answer(alloc, learnt, &task, &records)?)?),
        Err(TaskFault::Memory) => Err(Refusal::from(Memory)),
        Err(fault) => Ok(nothing(alloc, why_refused(&fault))?),
    }
}
