//! How the text of recorded calls is written.

ghost use Rattle.std.specs.Prelude.{◌≡◌, Ok, count_by, map, true};
ghost use Rattle.std.specs.List.{flat_map};
ghost use Rattle.texts.specs.PageViews.{Adds};
ghost use Rattle.records.specs.CountViews.{is_of_count};
ghost use Rattle.records.specs.EntryViews.{calls_seen, event_seen, reason_seen};
ghost use Rattle.records.specs.Texts.{calls_text, count, counted_text, counts_line, line_with_feed, entry_text, is_left_out};
ghost use Rattle.records.specs.Calls.{are_calls};
ghost use Rattle.records.specs.Readings.{calls_of_text};
ghost use Rattle.records.specs.Named.{all_reasons, reason_name};

use crate::entries::{Entry, Event, Reason};
use crate::line_texts::add_line;
use crate::names::REASONS;
use texts::{Page, Say, parts_of, say};

/// What the last line counts.
#[derive(Clone, Copy)]
enum Counted {
    /// The calls.
    Calls,
    /// What is left out for this reason.
    LeftOut(Reason),
    /// That for which a right is wanted.
    Rights,
}

/// Whether an event is counted.
fn is_of_count(counted: Counted, event: &Event) -> bool
    ensures { result ≡ is_of_count counted (event_seen event.now) }
{
    match counted {
        Counted::Calls => event.is_call(),
        Counted::LeftOut(reason) => event.is_left_out(reason),
        Counted::Rights => event.wants_right(),
    }
}

/// How many entries are counted.
fn count_in(entries: &[Entry], counted: Counted) -> usize
    ensures { result ≡ count_by (λ entry. is_of_count counted entry.event) (calls_seen entries.now) }
{
    let mut count = 0;
    for entry in entries {
        if is_of_count(counted, &entry.event) {
            count += 1;
        }
    }
    count
}

/// Adds how many entries are left out for each of these reasons.
fn add_reasons(page: &mut Page, entries: &[Entry], reasons: &[Reason])
    ensures { Adds page.old page.new (flat_map (λ reason. counted_text (reason_name reason) (count (is_left_out reason) (calls_seen entries.now)))
        (map reason_seen reasons.now)) }
{
    for reason in reasons {
        say!(page; " ", reason.name(), " ", count_in(entries, Counted::LeftOut(*reason)));
    }
}

/// Adds the last line, without its line feed.
#[tactic(auto, unfolding(crate::specs::Texts::counts_line))]
pub(crate) fn add_end(page: &mut Page, entries: &[Entry])
    ensures { Adds page.old page.new (counts_line (calls_seen entries.now)) }
{
    say!(page; "end calls ", count_in(entries, Counted::Calls));
    add_reasons(page, entries, &REASONS);
    say!(page; " rights ", count_in(entries, Counted::Rights));
}

/// Adds the lines of entries.
fn add_entries(page: &mut Page, entries: &[Entry])
    ensures { Adds page.old page.new (flat_map (λ entry. line_with_feed (entry_text entry)) (calls_seen entries.now)) }
{
    for entry in entries {
        add_line(page, entry);
    }
}

/// Adds the text of recorded calls to a page. Where they are within the limits (`is_entry` of each), reading it back gives them again.
pub fn write_calls(page: &mut Page, entries: &[Entry])
    ensures text { Adds page.old page.new (calls_text (calls_seen entries.now)) }
    ensures reads_back { are_calls (calls_seen entries.now) ≡ true → calls_of_text (calls_text (calls_seen entries.now)) ≡ Ok (calls_seen entries.now) }
{
    page.bytes(b"capcalls 1\n");
    add_entries(page, entries);
    add_end(page, entries);
    page.bytes(b"\n");
}
