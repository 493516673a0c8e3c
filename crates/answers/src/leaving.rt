//! The calls that a plan surely leaves.

ghost use Rattle.std.specs.Prelude.{◌≡◌, ◌-◌, ◌^◌, None, count_by, map, min, option_map};
ghost use Rattle.records.specs.EntryViews.{calls_seen, event_seen, record_entry_seen};
ghost use Rattle.answers.specs.Planned.{is_in_line, is_left_after, is_surely_left, last_process, left_after, left_by};

use records::{Entry, Event, Reason};

/// Whether a call is refused in the mode, or nobody knows what it wants.
fn is_surely_left(event: &Event) -> bool
    ensures { result ≡ is_surely_left (event_seen event.now) }
{
    match event {
        Event::Omitted(left_out) => match left_out.reason {
            Reason::Global => true,
            Reason::Unknown | Reason::Name => left_out.wanted.is_none(),
            Reason::Loader | Reason::Quiet | Reason::Right => false,
        },
        Event::Called(_) | Event::Ended => false,
    }
}

/// Whether a call begins or ends in a line.
fn is_in_line(line: u32, entry: &Entry) -> bool
    ensures { result ≡ is_in_line line (record_entry_seen entry.now) }
{
    entry.span.first == line || entry.span.last == line
}

/// Whether a process makes such a call behind a line.
fn is_left_after(line: u32, process: u32, entry: &Entry) -> bool
    ensures { result ≡ is_left_after line process (record_entry_seen entry.now) }
{
    let is_left = is_surely_left(&entry.event);
    line < entry.span.first && entry.process == process && is_left
}

/// The process of the last call that begins or ends in a line.
fn process_in(line: u32, entries: &[Entry]) -> Option<u32>
    ensures { result ≡ last_process line None (calls_seen entries.now) }
{
    let mut process = None;
    for entry in entries {
        if is_in_line(line, entry) {
            process = Some(entry.process);
        }
    }
    process
}

/// How many such calls a process makes behind a line.
fn left_by(line: u32, process: u32, entries: &[Entry]) -> usize
    ensures { result ≡ count_by (is_left_after line process) (calls_seen entries.now) }
{
    let mut count = 0;
    for entry in entries {
        if is_left_after(line, process, entry) {
            count += 1;
        }
    }
    count
}

/// How many such calls the process of a line makes behind it, or the greatest number that 32 bits hold.
pub(crate) fn left_after(line: u32, entries: &[Entry]) -> u32
    ensures { result ≡ min (left_by line (last_process line None (calls_seen entries.now)) (calls_seen entries.now)) (2 ^ 32 - 1) }
{
    let count = match process_in(line, entries) {
        Some(process) => left_by(line, process, entries),
        None => 0,
    };
    u32::try_from(count).unwrap_or(u32::MAX)
}
