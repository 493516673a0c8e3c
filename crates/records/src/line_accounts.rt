//! Which lines of a record its entries account for.

ghost use Rattle.std.specs.Prelude.{◌≡◌, ◌+◌, ◌<◌, ◌^◌, ◌&&◌, ◌||◌, ◌==◌, ◌++◌, ◌∷◌, [], ℕ, IfOk, OnOk, false, length, nat_lt, slice_index_or, true};
ghost use Rattle.std.proofs.Math.Bool.{not};
ghost use Rattle.records.specs.LineAccounts.{are_quiet, is_end_of, is_in_lists, is_line_of};
ghost use Rattle.records.specs.LineViews.{texts_told};
ghost use Rattle.records.specs.EntryViews.{calls_seen};

use crate::entries::Entry;
use crate::strace::StraceLine;
use std::alloc::{AllocError, Global};

/// The lines in which no call begins or ends, by their numbers.
#[derive(Drop)]
pub(crate) struct LineAccounts {
    /// Those that aren't understood.
    pub misread: Vec<u32>,
    /// Those that say nothing of a call.
    pub silent: Vec<u32>,
}

/// The number of the line at an index, or the greatest one.
pub(crate) fn line_number(index: usize) -> u32
    ensures { index + 1 < 2 ^ 32 → result ≡ index + 1 }
{
    match u32::try_from(index) {
        Ok(index) => index.saturating_add(1),
        Err(_) => u32::MAX,
    }
}

/// Marks a line, by its number, if there is a mark for it.
fn mark(marks: &mut [bool], line: u32)
    ensures { (k : ℕ) → slice_index_or marks.new k false ≡ (slice_index_or marks.old k false || ((line == k) && nat_lt k (length marks.old))) }
{
    let at = line as usize;
    if at < marks.len() {
        marks[at] = true;
    }
}

/// Marks the lines in which calls begin or end, by their numbers.
fn mark_ends(marks: &mut [bool], entries: &[Entry])
    ensures { (k : ℕ) → slice_index_or marks.new k false ≡ (slice_index_or marks.old k false || (is_end_of k (calls_seen entries.now) && nat_lt k (length marks.old))) }
{
    for entry in entries {
        mark(marks, entry.span.first);
        mark(marks, entry.span.last);
    }
}

/// So many marks, of which those are set in whose lines calls begin or end.
pub(crate) fn marked(
    alloc: Global,
    count: usize,
    entries: &[Entry],
) -> Result<Vec<bool>, AllocError>
    ensures { IfOk result (λ marks. (k : ℕ) → slice_index_or marks.items k false ≡ (is_end_of k (calls_seen entries.now) && nat_lt k count)) }
{
    let mut marks = vec![in alloc; false; count]?;
    mark_ends(&mut marks, entries);
    Ok(marks)
}

/// Whether a line is marked.
fn is_marked(marks: &[bool], line: u32) -> bool
    ensures { result ≡ slice_index_or marks.now line false }
{
    let at = line as usize;
    at < marks.len() && marks[at]
}

impl LineAccounts {
    /// Lists a line of this number.
    fn list(&mut self, number: u32, is_silent: bool) -> Result<(), AllocError>
        ensures lists { OnOk result ((line : ℕ) → is_in_lists line self.new.misread.items self.new.silent.items
            ≡ (is_in_lists line self.old.misread.items self.old.silent.items || (number == line))) }
        ensures silent { OnOk result ((is_silent ≡ false → self.new.silent.items ≡ self.old.silent.items)
            × (is_silent ≡ true → self.new.silent.items ≡ self.old.silent.items ++ number ∷ [])) }
    {
        if is_silent {
            self.silent.push(number)?;
            Ok(())
        } else {
            self.misread.push(number)?;
            Ok(())
        }
    }
}

/// The lines that aren't marked.
pub(crate) fn accounts_of(
    alloc: Global,
    lines: &[StraceLine<'_>],
    marks: &[bool],
) -> Result<LineAccounts, AllocError>
    ensures lists { length lines.now < 2 ^ 32 → IfOk result (λ accounts. (line : ℕ) → is_in_lists line accounts.misread.items accounts.silent.items
        ≡ (is_line_of (length lines.now) line && not (slice_index_or marks.now line false))) }
    ensures quiet { length lines.now < 2 ^ 32 → IfOk result (λ accounts. are_quiet (texts_told lines.now) accounts.silent.items ≡ true) }
{
    let mut accounts = LineAccounts {
        misread: Vec::new(alloc),
        silent: Vec::new(alloc),
    };
    for (index, line) in lines.iter().enumerate() {
        let number = line_number(index);
        if !is_marked(marks, number) {
            accounts.list(number, line.is_silent())?;
        }
    }
    Ok(accounts)
}
