//! What a record of `strace -f` or `truss -f` is as calls.

ghost use Rattle.std.specs.Prelude.{◌≡◌, IfOk, length, true};
ghost use Rattle.texts.specs.Lines.{lines_of};
ghost use Rattle.records.specs.LineAccounts.{AreQuiet, ListTheOthers};
ghost use Rattle.records.specs.Calls.{are_calls};
ghost use Rattle.records.specs.EntryViews.{calls_seen};

use crate::entries::Entry;
use crate::line_accounts::{accounts_of, line_number, marked};
use crate::reader::Reader;
use crate::strace::{StraceLine, read_strace};
use std::alloc::{AllocError, Global};

/// What a record is as calls. Lines are named by their numbers, counted from 1 and in their order.
#[derive(Drop)]
pub struct Recorded {
    /// The entries, in the order in which the calls end.
    pub entries: Vec<Entry>,
    /// The lines that aren't understood.
    pub misread: Vec<u32>,
    /// The lines that say nothing of a call: signals, ends of processes, remarks of strace's own, lines of stacks, and empty ones.
    pub silent: Vec<u32>,
}

/// The entries of the lines of a record, in the order in which the calls end.
fn entries_of(alloc: Global, lines: &[StraceLine<'_>]) -> Result<Vec<Entry>, AllocError>
    ensures { IfOk result (λ entries. are_calls (calls_seen entries.items) ≡ true) }
{
    let mut reader = Reader::new(alloc);
    for (index, line) in lines.iter().enumerate() {
        reader.take(line_number(index), line);
    }
    reader.finish()
}

/// What a record that `strace -f` or `truss -f` has written is as calls: an entry for each, in the order in which they end. The entries are within the
/// limits of recorded calls, and no line is passed over: the lists have just the lines in which no call of an entry begins or ends. A line
/// is silent only where no bracket stands in it, or a mark of lines that say nothing of a call. Only want of memory may come instead. A line past 4294967295 is told by that number.
pub fn recorded_calls(alloc: Global, text: &[u8]) -> Result<Recorded, AllocError>
    ensures within { IfOk result (λ recorded. are_calls (calls_seen recorded.entries.items) ≡ true) }
    ensures others { IfOk result (λ recorded. ListTheOthers (length (lines_of text.now)) (calls_seen recorded.entries.items) recorded.misread.items recorded.silent.items) }
    ensures quiet { IfOk result (λ recorded. AreQuiet (lines_of text.now) recorded.silent.items) }
{
    let lines = read_strace(alloc, text)?;
    let entries = entries_of(alloc, &lines)?;
    let marks = marked(alloc, lines.len() + 1, &entries)?;
    let accounts = accounts_of(alloc, &lines, &marks)?;
    Ok(Recorded {
        entries,
        misread: accounts.misread,
        silent: accounts.silent,
    })
}
