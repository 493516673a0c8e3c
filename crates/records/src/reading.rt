//! How the text of recorded calls is read.

ghost use Rattle.std.specs.Prelude.{◌≡◌, ◌+◌, ◌<◌, ◌^◌, [], IfOk, OnOk, false, if◌then◌else◌, length, true};
ghost use Rattle.std.specs.Str.{bytes_eq};
ghost use Rattle.records.specs.EntryViews.{calls_seen, record_entry_seen, event_seen};
ghost use Rattle.records.specs.Calls.{RecordedCalls, are_calls};
ghost use Rattle.records.specs.CallsViews.{FailsCalls, ReadsCalls};
ghost use Rattle.records.specs.ReadingViews.{Reads, Tests};
ghost use Rattle.records.specs.Readings.{Form, NoEnd, calls_after, calls_of_lines, calls_of_text, ends_after, entry_of_text, entry_of_words, faulty};
ghost use Rattle.records.specs.Readings.{is_counts_line, read_last, recorded_event_of};
ghost use Rattle.records.specs.Texts.{calls_text, counts_line, entry_text};

use crate::entries::{Entry, Event};
use crate::faults::{CallsFault, LineFault};
use crate::line_texts::add_entry;
use crate::names::find_call;
use crate::strace_texts::same_bytes;
use crate::taking::Rest;
use crate::words::{read_left_out, read_made, take_number, take_span};
use crate::writing::add_end;
use std::alloc::Global;
use texts::{Lines, Page};

/// The words behind the number of a process.
#[tactic(auto, unfolding(crate::specs::Readings::recorded_event_of))]
fn read_event(alloc: Global, mut words: Rest<'_>) -> Result<Event, LineFault>
    ensures { Reads event_seen result (recorded_event_of words.entry) }
{
    let Some(word) = words.take() else {
        return Err(LineFault::Form);
    };
    if same_bytes(word, b"-") {
        return read_left_out(alloc, words);
    }
    if same_bytes(word, b"exit") {
        return if words.is_done() {
            Ok(Event::Ended)
        } else {
            Err(LineFault::Form)
        };
    }
    read_made(alloc, find_call(word)?, words)
}

/// The words of a line.
#[tactic(auto, unfolding(crate::specs::Readings::entry_of_words))]
fn read_words(alloc: Global, mut words: Rest<'_>) -> Result<Entry, LineFault>
    ensures { Reads record_entry_seen result (entry_of_words words.entry) }
{
    let span = take_span(&mut words)?;
    let process = take_number(&mut words)?;
    let event = read_event(alloc, words)?;
    Ok(Entry {
        span,
        process,
        event,
    })
}

/// Whether a page has this text.
fn is_written(page: &Page, text: &[u8]) -> Result<bool, LineFault>
    ensures whole { OnOk result (page.now.is_short ≡ false) }
    ensures text { Tests result (bytes_eq page.now.bytes.items text.now) }
{
    Ok(same_bytes(page.finish()?, text))
}

/// Whether a text is that of an entry.
fn is_text_of(alloc: Global, entry: &Entry, text: &[u8]) -> Result<bool, LineFault>
    ensures { Tests result (bytes_eq (entry_text (record_entry_seen entry.now)) text.now) }
{
    let mut page = Page::new(alloc);
    add_entry(&mut page, entry);
    is_written(&page, text)
}

/// The entry of a line.
#[tactic(auto, unfolding(crate::specs::Readings::entry_of_text))]
fn read_entry(alloc: Global, text: &[u8]) -> Result<Entry, LineFault>
    ensures { Reads record_entry_seen result (entry_of_text text.now) }
{
    let entry = read_words(alloc, Rest::new(text))?;
    if !is_text_of(alloc, &entry, text)? {
        return Err(LineFault::Form);
    }
    Ok(entry)
}

/// Whether a text is the last line behind some entries.
fn is_end_of(alloc: Global, entries: &[Entry], text: &[u8]) -> Result<bool, LineFault>
    ensures { Tests result (bytes_eq (counts_line (calls_seen entries.now)) text.now) }
{
    let mut page = Page::new(alloc);
    add_end(&mut page, entries);
    is_written(&page, text)
}

/// Why a line that no line feed ends, of this number, is none.
fn unended(text: &[u8], number: usize) -> CallsFault
    ensures { FailsCalls result (if bytes_eq text.now [] then faulty NoEnd number else faulty Form number) }
{
    if text.is_empty() {
        CallsFault::NoEnd(number)
    } else {
        CallsFault::Form(number)
    }
}

/// Whether a line is the last one.
fn is_last(text: &[u8]) -> bool
    ensures { result ≡ is_counts_line text.now }
{
    match text {
        [first, ..] => *first == b'e',
        [] => false,
    }
}

/// Whether the text ends behind the last line, which has this number.
fn end(mut lines: Lines<'_>, number: usize) -> Result<(), CallsFault>
    requires { number + length lines < 2 ^ 64 }
    ensures { (calls : RecordedCalls) → ReadsCalls (λ done. calls) result (ends_after calls number lines.entry) }
{
    let Some(line) = lines.next() else {
        return Ok(());
    };
    if line.text.is_empty() && lines.next().is_none() {
        return Ok(());
    }
    Err(CallsFault::Behind(number + 1))
}

/// Whether the last line, which has this number, is that of some entries, and the text ends behind it.
#[tactic(auto, unfolding(crate::specs::Readings::read_last))]
fn read_last(
    alloc: Global,
    entries: &[Entry],
    number: usize,
    text: &[u8],
    lines: Lines<'_>,
) -> Result<(), CallsFault>
    requires { number + length lines < 2 ^ 64 }
    ensures { ReadsCalls (λ done. calls_seen entries.now) result (read_last (calls_seen entries.now) number text.now lines.entry) }
{
    match is_end_of(alloc, entries, text) {
        Ok(true) => end(lines, number),
        Ok(false) => Err(CallsFault::Counts(number)),
        Err(fault) => Err(fault.at(number)),
    }
}

/// The entries of the lines behind the first one.
#[tactic(auto, unfolding(crate::specs::Readings::calls_after))]
fn read_entries(alloc: Global, mut lines: Lines<'_>) -> Result<Vec<Entry>, CallsFault>
    requires { 1 + length lines < 2 ^ 64 }
    ensures { ReadsCalls (λ entries. calls_seen entries.items) result (calls_after lines.entry 1 []) }
{
    let mut entries = Vec::new(alloc);
    let mut number = 1;
    while let Some(line) = lines.next() {
        number += 1;
        if !line.is_ended {
            return Err(unended(line.text, number));
        }
        if is_last(line.text) {
            read_last(alloc, &entries, number, line.text, lines)?;
            return Ok(entries);
        }
        match read_entry(alloc, line.text) {
            Ok(entry) => entries.push(entry)?,
            Err(fault) => return Err(fault.at(number)),
        }
    }
    Err(CallsFault::NoEnd(number))
}

/// The entries of all lines.
fn read_lines(alloc: Global, mut lines: Lines<'_>) -> Result<Vec<Entry>, CallsFault>
    requires { length lines < 2 ^ 64 }
    ensures { ReadsCalls (λ entries. calls_seen entries.items) result (calls_of_lines lines.entry) }
{
    let Some(first) = lines.next() else {
        return Err(CallsFault::Form(1));
    };
    if !first.is_ended || !same_bytes(first.text, b"capcalls 1") {
        return Err(CallsFault::Form(1));
    }
    read_entries(alloc, lines)
}

/// Reads the text of recorded calls: the entries whose text the bytes are, or the fault of their first faulty line, with its number.
/// Only want of memory may come instead. No other bytes are read as those entries.
#[tactic(auto, unfolding(crate::specs::Readings::calls_of_text))]
pub fn read_calls(alloc: Global, bytes: &[u8]) -> Result<Vec<Entry>, CallsFault>
    ensures reads { ReadsCalls (λ entries. calls_seen entries.items) result (calls_of_text bytes.now) }
    ensures one_spelling { IfOk result (λ entries. calls_text (calls_seen entries.items) ≡ bytes.now) }
    ensures within_limits { IfOk result (λ entries. are_calls (calls_seen entries.items) ≡ true) }
{
    read_lines(alloc, Lines::new(bytes))
}
