//! The calls of a record of strace or truss.

ghost use Rattle.std.specs.Prelude.{◌≡◌, [], IfOk, true};
ghost use Rattle.console.specs.Statuses.{is_done_status};
ghost use Rattle.answers.specs.Answered.{IsOfOneRun, SaysCalls, SaysWhether, has_calls};
ghost use Rattle.records.specs.EntryViews.{calls_seen};
ghost use Rattle.records.specs.Runs.{another_run};
ghost use Rattle.records.specs.Texts.{calls_text};

use crate::answers::Answer;
use crate::usage::NAME;
use console::statuses::{BROKEN, DONE};
use records::{Entry, Recorded, another_run, recorded_calls, write_calls};
use std::alloc::{AllocError, Global};
use texts::{Page, parts_of, say};

/// How many lines that aren't understood are told at most, each by its number.
const MOST_LINES: usize = 100;

/// How many lines of a record say nothing of a call; what stands behind its last line feed is a line only if it isn't empty.
fn silent_lines(text: &[u8], recorded: &Recorded) -> usize {
    let silent = recorded.silent.len();
    match text {
        [] | [.., b'\n'] => silent.saturating_sub(1),
        _ => silent,
    }
}

/// Adds the lines that tell which of a record's lines aren't understood, and how many say nothing of a call.
fn add_others(page: &mut Page, text: &[u8], recorded: &Recorded) {
    let misread = &recorded.misread;
    let told = misread.len().min(MOST_LINES);
    for line in &misread[..told] {
        say!(page; NAME, ": line ", *line, " isn't understood\n");
    }
    let others = misread.len() - told;
    if others > 0 {
        say!(page; NAME, ": lines that aren't understood, beside these: ", others, "\n");
    }
    let silent = silent_lines(text, recorded);
    if silent > 0 {
        say!(page; NAME, ": lines that say nothing of a call: ", silent, "\n");
    }
}

/// Adds what says that a record isn't one of one run: that it has no call, or where another run begins.
fn add_strangeness(page: &mut Page, entries: &[Entry], another: Option<u32>) {
    if entries.is_empty() {
        say!(page; NAME, ": the record has no call\n");
    }
    if let Some(line) = another {
        say!(page; NAME, ": line ", line, " begins another run\n");
    }
}

/// Whether something was recorded.
fn has_calls(entries: &[Entry]) -> bool
    ensures { result ≡ has_calls (calls_seen entries.now) }
{
    match entries {
        [] => false,
        [_first, _rest @ ..] => true,
    }
}

/// The status of a record with these entries, of which these lines aren't understood, and in which another run begins here.
#[tactic(auto, using(crate::proofs::Recorded::one_run, crate::proofs::Recorded::no_call, crate::proofs::Recorded::misread_line, crate::proofs::Recorded::joined))]
fn status_of(entries: &[Entry], misread: &[u32], another: Option<u32>) -> u8
    requires { another ≡ another_run (calls_seen entries.now) }
    ensures says { SaysWhether result (IsOfOneRun (calls_seen entries.now) misread.now) }
    ensures done { is_done_status result ≡ true }
{
    match misread {
        [_, ..] => BROKEN,
        [] => match another {
            Some(_) => BROKEN,
            None => { if has_calls(entries) { DONE } else { BROKEN } }
        },
    }
}

/// What is told beside the calls of a record.
fn told_of(
    alloc: Global,
    text: &[u8],
    recorded: &Recorded,
    another: Option<u32>,
) -> Result<Vec<u8>, AllocError> {
    let mut told = Page::new(alloc);
    add_strangeness(&mut told, &recorded.entries, another);
    add_others(&mut told, text, recorded);
    told.into_bytes()
}

/// The text of calls.
fn text_of(alloc: Global, entries: &[Entry]) -> Result<Vec<u8>, AllocError>
    ensures { IfOk result (λ text. text.items ≡ calls_text (calls_seen entries.now)) }
{
    let mut page = Page::new(alloc);
    write_calls(&mut page, entries);
    page.into_bytes()
}

/// The calls of a record that `strace -f` or `truss -f` has written, with its other lines told beside them; the status is 1 where lines aren't understood,
/// where there is no call, or where another run begins in it.
pub(crate) fn answer_calls(alloc: Global, text: &[u8]) -> Result<Answer, AllocError>
    ensures { IfOk result (λ answer. SaysCalls text.now answer.status answer.text.items) }
{
    let recorded = recorded_calls(alloc, text)?;
    let another = another_run(alloc, &recorded.entries)?;
    let told = told_of(alloc, text, &recorded, another)?;
    let calls = text_of(alloc, &recorded.entries)?;
    Ok(Answer {
        text: calls,
        told,
        status: status_of(&recorded.entries, &recorded.misread, another),
    })
}
