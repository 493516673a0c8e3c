//! The text of an entry's line.

ghost use Rattle.std.specs.Prelude.{◌≡◌, map, option_map};
ghost use Rattle.std.specs.List.{flat_map};
ghost use Rattle.texts.specs.PageViews.{Adds};
ghost use Rattle.rights.specs.Views.{side_seen};
ghost use Rattle.records.specs.EntryViews.{binding_seen, record_entry_seen, event_seen, left_out_seen, made_seen, outcome_seen, wanted_seen};
ghost use Rattle.records.specs.OperandViews.{operand_seen};
ghost use Rattle.records.specs.Texts.{amount_words, binding_words, line_with_feed, entry_text, event_words, left_out_words};
ghost use Rattle.records.specs.Texts.{made_words, operand_words, outcome_words, end_side_word, after_spaces, wanted_words};

use crate::entries::{Binding, Entry, Event, LeftOut, MadeCall, Outcome, WantedRight};
use crate::operands::Operand;
use crate::quoting::add_quoted;
use call_facts::sets::{add_commands, add_flags, add_rights};
use rights::Side;
use texts::{Page, Say, parts_of, say};

/// Adds an operand, behind a space.
fn add_operand(page: &mut Page, operand: &Operand)
    ensures { Adds page.old page.new (after_spaces (operand_words (operand_seen operand.now))) }
{
    match operand {
        Operand::Number(number) => say!(page; " ", *number),
        Operand::Path(path) => {
            page.bytes(b" ");
            add_quoted(page, path);
        }
        Operand::Flags(flags) => {
            page.bytes(b" ");
            add_flags(page, *flags);
        }
        Operand::Rights(rights) => {
            page.bytes(b" ");
            add_rights(page, *rights);
        }
        Operand::Commands(commands) => {
            page.bytes(b" ");
            add_commands(page, *commands);
        }
        Operand::Directory(true) => page.bytes(b" dir"),
        Operand::Directory(false) => {}
    }
}

/// Adds operands, each behind a space.
fn add_operands(page: &mut Page, operands: &[Operand])
    ensures { Adds page.old page.new (after_spaces (flat_map operand_words (map operand_seen operands.now))) }
{
    for operand in operands {
        add_operand(page, operand);
    }
}

/// Adds an outcome, each word behind a space.
fn add_outcome(page: &mut Page, outcome: Outcome)
    ensures { Adds page.old page.new (after_spaces (outcome_words (outcome_seen outcome))) }
{
    match outcome {
        Outcome::Success(answer) => say!(page; " = ", answer),
        Outcome::Failure(error) => say!(page; " ! ", error.name()),
    }
}

/// The letter of a side.
fn side_name(side: Side) -> &'static str
    ensures { result.now ≡ end_side_word (side_seen side) }
{
    match side {
        Side::A => "a",
        Side::B => "b",
    }
}

/// Adds what a descriptor is, each word behind a space.
fn add_binding(page: &mut Page, binding: &Binding)
    ensures { Adds page.old page.new (after_spaces (binding_words (binding_seen binding.now))) }
{
    match binding {
        Binding::Place { descriptor, place } => {
            say!(page; " @", *descriptor, " ");
            add_quoted(page, place);
        }
        Binding::End {
            descriptor,
            pair,
            side,
        } => say!(page; " @", *descriptor, " sock ", *pair, " ", side_name(*side)),
    }
}

/// Adds what descriptors are, each word behind a space.
fn add_bindings(page: &mut Page, bindings: &[Binding])
    ensures { Adds page.old page.new (after_spaces (flat_map binding_words (map binding_seen bindings.now))) }
{
    for binding in bindings {
        add_binding(page, binding);
    }
}

/// Adds the amount of bytes, each word behind a space.
fn add_amount(page: &mut Page, bytes: Option<u32>)
    ensures { Adds page.old page.new (after_spaces (amount_words bytes)) }
{
    match bytes {
        Some(bytes) => say!(page; " bytes ", bytes),
        None => {}
    }
}

/// Adds a call, each word behind a space.
fn add_made(page: &mut Page, made: &MadeCall)
    ensures { Adds page.old page.new (after_spaces (made_words (made_seen made.now))) }
{
    say!(page; " ", made.call.name());
    add_operands(page, &made.operands);
    add_outcome(page, made.outcome);
    add_bindings(page, &made.bindings);
    add_amount(page, made.bytes);
}

/// Adds a right that is wanted, each word behind a space.
fn add_wanted(page: &mut Page, wanted: &Option<WantedRight>)
    ensures { Adds page.old page.new (after_spaces (wanted_words (option_map wanted_seen wanted.now))) }
{
    match wanted {
        Some(wanted) => say!(page; " ", wanted.right.as_slice(), " ", wanted.descriptor),
        None => {}
    }
}

/// Adds what is left out, each word behind a space.
fn add_left_out(page: &mut Page, left_out: &LeftOut)
    ensures { Adds page.old page.new (after_spaces (left_out_words (left_out_seen left_out.now))) }
{
    say!(page; " - ", left_out.reason.name(), " ", left_out.name.as_slice());
    add_wanted(page, &left_out.wanted);
}

/// Adds an event as its line tells it, each word behind a space.
pub fn add_event(page: &mut Page, event: &Event)
    ensures { Adds page.old page.new (after_spaces (event_words (event_seen event.now))) }
{
    match event {
        Event::Called(made) => add_made(page, made),
        Event::Ended => page.bytes(b" exit"),
        Event::Omitted(left_out) => add_left_out(page, left_out),
    }
}

/// Adds the line of an entry, without its line feed.
#[tactic(auto, unfolding(crate::specs::Texts::entry_text))]
pub(crate) fn add_entry(page: &mut Page, entry: &Entry)
    ensures { Adds page.old page.new (entry_text (record_entry_seen entry.now)) }
{
    say!(page; entry.span.first, " ", entry.span.last, " ", entry.process);
    add_event(page, &entry.event);
}

/// Adds the line of an entry.
pub(crate) fn add_line(page: &mut Page, entry: &Entry)
    ensures { Adds page.old page.new (line_with_feed (entry_text (record_entry_seen entry.now))) }
{
    add_entry(page, entry);
    page.bytes(b"\n");
}
