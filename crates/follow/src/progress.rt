//! How far a run has come in showing a record, and what each move makes of that.

ghost use Rattle.std.specs.Prelude.{◌≡◌, ◌<◌, ◌++◌, ◌∷◌, [], IfOk, IfSome, OnOk, length, map, nat_eq, option_map, remove, true, List, Some};
ghost use Rattle.std.specs.List.{flat_map, list_all, list_any, slice_get};
ghost use Rattle.std.specs.Str.{bytes_eq};
ghost use Rattle.rights.specs.Calls.{call_name};
ghost use Rattle.rights.specs.Views.{call_of};
ghost use Rattle.process.specs.State.{ProcessState};
ghost use Rattle.simulator.specs.Views.{result_of};
ghost use Rattle.records.specs.Calls.{Called, RecordEntry};
ghost use Rattle.records.specs.EntryViews.{calls_seen, event_seen, made_seen, record_entry_seen};
ghost use Rattle.records.specs.OperandViews.{operand_seen};
ghost use Rattle.follow.specs.Progress.{after_shown, after_skip, after_step, first_progress, if_shown, if_skipped, is_halt, is_limiting, is_outside, kept, new_mappings, skipped};
ghost use Rattle.follow.specs.Progress.{may_overtake, may_skip, next_entry, shows_call, shows_event};
ghost use Rattle.follow.specs.Views.{entries_after, if_stands, mappings_seen, pairs_of, seen_of, setting_of, progress_of};

use crate::checking::process_at;
use crate::given::{Names, call_fits};
use crate::numbers::{
    FdMapping, ProcessPair, add_first, is_injection, is_process, is_recorded, model_of,
};
use crate::outcomes::{Seen, add_lost, add_made, any_unnamed, is_silent, same_outcome};
use crate::places::{Placing, in_task, is_foreign};
use crate::transfers::{Past, transfer_in};
use call_facts::{descriptor_count, is_of_mode};
use process::Process;
use records::{Entry, Event, MadeCall, Operand};
use rights::{Call, Memory};
use simulator::LineResult;
use std::alloc::Global;
use task::Task;

/// A task, the places of a record in it, the processes that stand for the record's, and whether the record has calls of capability
/// mode.
#[derive(Clone, Copy)]
pub(crate) struct Setting<'a> {
    pub task: &'a Task,
    pub placings: &'a [Placing],
    pub pairs: &'a [ProcessPair],
    pub limited: bool,
}

/// The calls and ends that are left, what the record's numbers stand for, and what was shown.
#[derive(Drop)]
pub(crate) struct MatchProgress<'c> {
    pub left: Vec<&'c Entry>,
    pub mappings: Vec<FdMapping>,
    pub history: Vec<Past>,
}

/// Whether an event is a call of capability mode.
fn is_limiting(event: &Event) -> bool
    ensures { result ≡ is_limiting (event_seen event.now) }
{
    match event {
        Event::Called(made) => is_of_mode(made.call),
        Event::Ended | Event::Omitted(_) => false,
    }
}

/// Whether a record has a call of capability mode.
pub(crate) fn has_limiting(entries: &[Entry]) -> bool
    ensures { result ≡ list_any (λ (entry : RecordEntry). is_limiting entry.event) (calls_seen entries.now) }
{
    for entry in entries {
        if is_limiting(&entry.event) {
            return true;
        }
    }
    false
}

/// Adds an entry, if it is a call or an end.
fn add_counted<'c>(left: &mut Vec<&'c Entry>, entry: &'c Entry) -> Result<(), Memory>
    ensures { OnOk result (entries_after left.new.items ≡ entries_after left.old.items ++ kept (record_entry_seen entry.now)) }
{
    if entry.event.is_counted() {
        left.push(entry)?;
    }
    Ok(())
}

/// The calls and ends of a record: what is left out has no place among them. Want of memory is the only error. (own)
pub fn counted<'c>(alloc: Global, entries: &'c [Entry]) -> Result<Vec<&'c Entry>, Memory>
    ensures { IfOk result (λ left. entries_after left.items ≡ flat_map kept (calls_seen entries.now)) }
{
    let mut left = Vec::new(alloc);
    for entry in entries {
        add_counted(&mut left, entry)?;
    }
    Ok(left)
}

/// Whether an entry may come before one that stands before it.
fn may_overtake(entry: &Entry, other: &Entry) -> bool
    ensures { result ≡ may_overtake (record_entry_seen entry.now) (record_entry_seen other.now) }
{
    !(other.process == entry.process) && entry.span.first <= other.span.last
}

/// Whether an entry may come before all of these.
fn may_come(entry: &Entry, others: &[&Entry]) -> bool
    ensures { result ≡ list_all (may_overtake (record_entry_seen entry.now)) (entries_after others.now) }
{
    for other in others {
        if !may_overtake(entry, other) {
            return false;
        }
    }
    true
}

/// The entry of this place among those that are left, if it may come next.
pub(crate) fn next_entry<'c>(left: &[&'c Entry], at: usize) -> Option<&'c Entry>
    ensures entry { option_map (λ entry. record_entry_seen entry.now) result ≡ next_entry (entries_after left.now) at }
    ensures there { IfSome result (λ entry. at < length left.now) }
{
    let entry = left.get(at)?;
    if may_come(entry, &left[..at]) {
        Some(*entry)
    } else {
        None
    }
}

/// Whether it is the same call.
pub(crate) fn same_call(call: Call, other: Call) -> bool
    ensures { result ≡ bytes_eq (call_name (call_of call)) (call_name (call_of other)) }
{
    call.name().as_bytes() == other.name().as_bytes()
}

/// Whether a step shows a call of the record: it is the same call, given the same, and comes to the same.
fn shows_call(
    setting: &Setting<'_>,
    mappings: &[FdMapping],
    process: usize,
    seen: &Seen<'_>,
    made: &MadeCall,
) -> bool
    ensures { result ≡ shows_call (setting_of setting.now) (mappings_seen mappings.now) process (seen_of seen.now) (made_seen made.now) (seen_of seen.now).call }
{
    let Some(call) = seen.call else {
        return false;
    };
    let names = Names {
        wide: setting.task.further_rights(),
        placings: setting.placings,
        mappings,
        process,
        registers: &seen.registers,
    };
    same_call(made.call, call.call())
        && call_fits(&names, call, &made.operands)
        && same_outcome(setting.pairs, made.call, made.outcome, seen.outcome)
}

/// Whether a step shows what happened in the record.
fn shows_event(
    setting: &Setting<'_>,
    mappings: &[FdMapping],
    process: usize,
    seen: &Seen<'_>,
    event: &Event,
) -> bool
    ensures { result ≡ shows_event (setting_of setting.now) (mappings_seen mappings.now) process (seen_of seen.now) (event_seen event.now) }
{
    match event {
        Event::Called(made) => shows_call(setting, mappings, process, seen, made),
        Event::Ended => matches!(seen.outcome, LineResult::Halted),
        Event::Omitted(_) => false,
    }
}

/// Whether a call may be skipped, as far as what it was given goes.
pub(crate) fn may_skip(
    alloc: Global,
    setting: &Setting<'_>,
    mappings: &[FdMapping],
    process: usize,
    made: &MadeCall,
) -> Result<bool, Memory>
    ensures { IfOk result (λ may. may ≡ may_skip (setting_of setting.now) (mappings_seen mappings.now) process (made_seen made.now) (map operand_seen made.now.operands.items)) }
{
    if let [Operand::Path(path), ..] = made.operands.as_slice() {
        let text = in_task(setting.placings, path).text(alloc)?;
        return Ok(is_foreign(setting.task, &text));
    }
    Ok(any_unnamed(
        mappings,
        process,
        descriptor_count(made.call),
        &made.operands,
    ))
}

/// Whether a process was made and isn't in capability mode.
fn is_outside(processes: &[Process], process: usize) -> bool
    ensures { result ≡ is_outside (slice_get processes.now process) }
{
    match process_at(processes, process) {
        None => false,
        Some(process) => !process.mode(),
    }
}

impl<'c> MatchProgress<'c> {
    /// All calls are left. Where some process stands for two, or two for one, there is none.
    pub(crate) fn first(
        alloc: Global,
        task: &Task,
        pairs: &[ProcessPair],
        entries: &'c [Entry],
    ) -> Result<Option<MatchProgress<'c>>, Memory>
        ensures { IfOk result (λ progress. option_map progress_of progress ≡ first_progress task.now (pairs_of pairs.now) (calls_seen entries.now)) }
    {
        if !is_injection(pairs) {
            return Ok(None);
        }
        let left = counted(alloc, entries)?;
        let mut mappings = Vec::new(alloc);
        add_first(&mut mappings, task.starts())?;
        Ok(Some(MatchProgress {
            left,
            mappings,
            history: Vec::new(alloc),
        }))
    }

    /// Whether all is shown.
    pub(crate) fn is_at_end(&self) -> bool
        ensures { result ≡ nat_eq (length (progress_of self.now).left) 0 }
    {
        self.left.is_empty()
    }
}

/// Takes out the entry of a place.
pub(crate) fn take_out(left: &mut Vec<&Entry>, at: usize)
    requires { at < length left.old.items }
    ensures { entries_after left.new.items ≡ remove (entries_after left.old.items) at }
{
    left.remove(at);
}

/// Adds what an event makes or frees that was shown by a step.
fn add_new(
    alloc: Global,
    mappings: &mut Vec<FdMapping>,
    process: usize,
    seen: &Seen<'_>,
    event: &Event,
) -> Result<(), Memory>
    ensures { OnOk result (mappings_seen mappings.new.items ≡ mappings_seen mappings.old.items
        ++ new_mappings (mappings_seen mappings.old.items) process (seen_of seen.now) (event_seen event.now)) }
{
    match event {
        Event::Called(made) => add_made(alloc, mappings, process, made, seen),
        Event::Ended | Event::Omitted(_) => Ok(()),
    }
}

/// Notes that a step shows the entry of this place.
fn show(
    alloc: Global,
    setting: &Setting<'_>,
    progress: &mut MatchProgress<'_>,
    process: usize,
    seen: &Seen<'_>,
    at: usize,
    event: &Event,
) -> Result<(), Memory>
    requires { at < length progress.old.left.items }
    ensures { OnOk result (progress_of progress.new ≡ after_shown (setting_of setting.now) (progress_of progress.old) process (seen_of seen.now) at (event_seen event.now)) }
{
    add_new(alloc, &mut progress.mappings, process, seen, event)?;
    progress.history.push(Past {
        process,
        transfer: transfer_in(&seen.registers, seen.call, seen.outcome),
    })?;
    take_out(&mut progress.left, at);
    Ok(())
}

/// What a step makes of where a run stands that is to show the entry of a place: nothing is told where it doesn't.
fn after_shown(
    alloc: Global,
    setting: &Setting<'_>,
    progress: &mut MatchProgress<'_>,
    process: usize,
    seen: &Seen<'_>,
    at: usize,
) -> Result<bool, Memory>
    ensures { IfOk result (λ is. if_stands is progress.new
        ≡ after_step (setting_of setting.now) (progress_of progress.old) process (Some (seen_of seen.now)) (Some at)) }
{
    let Some(entry) = next_entry(&progress.left, at) else {
        return Ok(false);
    };
    if is_process(setting.pairs, entry.process, process)
        && shows_event(setting, &progress.mappings, process, seen, &entry.event)
    {
        show(alloc, setting, progress, process, seen, at, &entry.event)?;
        return Ok(true);
    }
    Ok(false)
}

/// What a step makes of where a run stands. Whether the step may be is told.
pub(crate) fn after_step(
    alloc: Global,
    setting: &Setting<'_>,
    progress: &mut MatchProgress<'_>,
    process: usize,
    seen: Option<&Seen<'_>>,
    shows: Option<usize>,
) -> Result<bool, Memory>
    ensures { IfOk result (λ is. if_stands is progress.new
        ≡ after_step (setting_of setting.now) (progress_of progress.old) process (option_map (λ s. seen_of s.now) seen.entry) shows) }
{
    let Some(seen) = seen else {
        return Ok(shows.is_none());
    };
    match shows {
        Some(at) => after_shown(alloc, setting, progress, process, seen, at),
        None => Ok(
            !is_recorded(setting.pairs, process)
                || is_silent(setting.limited, &progress.history, process, seen),
        ),
    }
}

/// Notes that the call of this place is skipped, if it may be.
fn skip(
    alloc: Global,
    setting: &Setting<'_>,
    progress: &mut MatchProgress<'_>,
    process: usize,
    at: usize,
    made: &MadeCall,
) -> Result<bool, Memory>
    requires { at < length progress.old.left.items }
    ensures { IfOk result (λ is. if_stands is progress.new ≡ skipped (setting_of setting.now) (progress_of progress.old) at process (made_seen made.now)) }
{
    if !may_skip(alloc, setting, &progress.mappings, process, made)? {
        return Ok(false);
    }
    add_lost(&mut progress.mappings, process, made)?;
    take_out(&mut progress.left, at);
    Ok(true)
}

/// What a skip makes of where a run stands, with these processes. Whether it may be is told.
pub(crate) fn after_skip(
    alloc: Global,
    setting: &Setting<'_>,
    progress: &mut MatchProgress<'_>,
    processes: &[Process],
    at: usize,
) -> Result<bool, Memory>
    ensures { IfOk result (λ is. if_stands is progress.new ≡ after_skip (setting_of setting.now) (progress_of progress.old) processes.now at) }
{
    let Some(entry) = next_entry(&progress.left, at) else {
        return Ok(false);
    };
    let Event::Called(made) = &entry.event else {
        return Ok(false);
    };
    let Some(process) = model_of(setting.pairs, entry.process) else {
        return Ok(false);
    };
    let process = usize::from(process);
    if !is_outside(processes, process) {
        return Ok(false);
    }
    skip(alloc, setting, progress, process, at, made)
}
