//! The processes with which a record begins.

ghost use Rattle.std.specs.Prelude.{◌≡◌, ◌++◌, IfOk, OnOk};
ghost use Rattle.std.specs.List.{flat_map};
ghost use Rattle.records.specs.Beginnings.{children_of, first_processes, is_of_new};
ghost use Rattle.records.specs.Calls.{RecordEntry};
ghost use Rattle.records.specs.EntryViews.{calls_seen, event_seen, record_entry_seen};
ghost use Rattle.records.specs.Runs.{option_list};

use crate::entries::{Entry, Event, Outcome};
use call_facts::forks;
use rights::Memory;
use std::alloc::Global;

/// The process that an event has made, if it is a fork that succeeded.
pub(crate) fn child_of(event: &Event) -> Option<u32>
    ensures { option_list result ≡ children_of (event_seen event.now) }
{
    match event {
        Event::Called(made) if forks(made.call) => match made.outcome {
            Outcome::Success(child) => Some(child),
            Outcome::Failure(_) => None,
        },
        _ => None,
    }
}

/// Adds the process that an event has made, if it has made one.
fn add_child(made: &mut Vec<u32>, event: &Event) -> Result<(), Memory>
    ensures { OnOk result (made.new.items ≡ made.old.items ++ children_of (event_seen event.now)) }
{
    if let Some(child) = child_of(event) {
        made.push(child)?;
    }
    Ok(())
}

/// The processes that calls of a record have made.
fn children_of(alloc: Global, entries: &[Entry]) -> Result<Vec<u32>, Memory>
    ensures { IfOk result (λ made. made.items ≡ flat_map (λ (entry : RecordEntry). children_of entry.event) (calls_seen entries.now)) }
{
    let mut made = Vec::new(alloc);
    for entry in entries {
        add_child(&mut made, &entry.event)?;
    }
    Ok(made)
}

/// Whether an entry is a call or an end, and of a process that no call has made and that isn't known so far.
fn is_of_new(made: &[u32], known: &[u32], entry: &Entry) -> bool
    ensures { result ≡ is_of_new made.now known.now (record_entry_seen entry.now) }
{
    entry.event.is_counted() && !made.contains(&entry.process) && !known.contains(&entry.process)
}

/// The processes of a record that none of its calls makes, in the order in which they come. One of which each entry is left out isn't
/// counted. Want of memory is the only error. (own)
pub fn first_processes(alloc: Global, entries: &[Entry]) -> Result<Vec<u32>, Memory>
    ensures { IfOk result (λ first. first.items ≡ first_processes (calls_seen entries.now)) }
{
    let made = children_of(alloc, entries)?;
    let mut first = Vec::new(alloc);
    for entry in entries {
        if is_of_new(&made, &first, entry) {
            first.push(entry.process)?;
        }
    }
    Ok(first)
}
