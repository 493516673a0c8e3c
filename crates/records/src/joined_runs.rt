//! Where another run begins than the one that a record begins with.

ghost use Rattle.std.specs.Prelude.{◌≡◌, IfOk, OnOk};
ghost use Rattle.records.specs.LineAccounts.{is_listed};
ghost use Rattle.records.specs.EntryViews.{calls_seen, event_seen, record_entry_seen};
ghost use Rattle.records.specs.Runs.{another_run, begins_run, forked_by, is_end, is_execute, seen_with};
ghost use Rattle.records.specs.SeenViews.{seen_of};

use crate::beginnings::child_of;
use crate::entries::{Entry, Event};
use crate::strace_texts::same_bytes;
use std::alloc::{AllocError, Global};

/// Which processes have made calls, and which have ended.
#[derive(Drop)]
struct Seen {
    known: Vec<u32>,
    ended: Vec<u32>,
}

/// Whether a number is among others.
fn is_listed(number: u32, numbers: &[u32]) -> bool
    ensures { result ≡ is_listed number numbers.now }
{
    numbers.iter().any(|own| *own == number)
}

/// The processes that forks have made.
fn forked_by(alloc: Global, entries: &[Entry]) -> Result<Vec<u32>, AllocError>
    ensures { IfOk result (λ forked. forked.items ≡ forked_by (calls_seen entries.now)) }
{
    let mut forked = Vec::new(alloc);
    for entry in entries {
        if let Some(child) = child_of(&entry.event) {
            forked.push(child)?;
        }
    }
    Ok(forked)
}

/// Whether a process goes on as another program.
fn is_execute(event: &Event) -> bool
    ensures { result ≡ is_execute (event_seen event.now) }
{
    match event {
        Event::Omitted(left_out) => same_bytes(&left_out.name, b"execve"),
        Event::Called(_) | Event::Ended => false,
    }
}

/// Whether a process ends.
fn is_end(event: &Event) -> bool
    ensures { result ≡ is_end (event_seen event.now) }
{
    match event {
        Event::Ended => true,
        Event::Called(_) | Event::Omitted(_) => false,
    }
}

impl Seen {
    ghost use Rattle.std.specs.Prelude.{◌≡◌, OnOk};
    ghost use Rattle.records.specs.EntryViews.{record_entry_seen};
    ghost use Rattle.records.specs.Runs.{begins_run, seen_with};
    ghost use Rattle.records.specs.SeenViews.{seen_of};

    /// Notes an entry.
    fn note(&mut self, entry: &Entry) -> Result<(), AllocError>
        ensures { OnOk result (seen_of self.new ≡ seen_with (seen_of self.old) (record_entry_seen entry.now)) }
    {
        if !is_listed(entry.process, &self.known) {
            self.known.push(entry.process)?;
        }
        if is_end(&entry.event) {
            self.ended.push(entry.process)?;
        }
        Ok(())
    }

    /// Whether another run begins at an entry.
    fn begins_run(&self, forked: &[u32], entry: &Entry) -> bool
        ensures { result ≡ begins_run forked.now (seen_of self.now) (record_entry_seen entry.now) }
    {
        let is_forked = is_listed(entry.process, forked);
        let is_known = is_listed(entry.process, &self.known);
        let has_ended = is_listed(entry.process, &self.ended);
        let begins = is_execute(&entry.event) && !self.known.is_empty() && !is_known;
        !is_forked && (has_ended || begins)
    }
}

/// The line in which another run begins first, if one does: a process goes on behind its end, and no fork has made it; or it begins as another
/// program, behind calls of others. Only want of memory may come instead. (own)
pub fn another_run(alloc: Global, entries: &[Entry]) -> Result<Option<u32>, AllocError>
    ensures { IfOk result (λ line. line ≡ another_run (calls_seen entries.now)) }
{
    let forked = forked_by(alloc, entries)?;
    let mut seen = Seen {
        known: Vec::new(alloc),
        ended: Vec::new(alloc),
    };
    for entry in entries {
        if seen.begins_run(&forked, entry) {
            return Ok(Some(entry.span.first));
        }
        seen.note(entry)?;
    }
    Ok(None)
}
