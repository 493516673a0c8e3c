//! The lines that `strace -f` writes: what each of them tells. Those of `truss -f` are told apart by their beginning.

ghost use Rattle.std.specs.Prelude.{◌≡◌, IfOk, length, map, true};
ghost use Rattle.std.specs.List.{list_any};
ghost use Rattle.records.specs.LineAccounts.{has_bracket, is_of_stack, may_be_quiet, quiet_marks, stands_in};
ghost use Rattle.records.specs.LineViews.{texts_told};
ghost use Rattle.texts.specs.Lines.{lines_of};

use crate::argument_parts::first_at_top;
use crate::argument_values::digits_end;
use crate::forms::{Form, form_of};
use crate::logs::CallName;
use crate::strace_headers::header_of;
use crate::strace_results::{CallResult, result_of};
use crate::strace_texts::{
    after, before, between, number_after, offset_of, same_bytes, without_spaces,
};
use crate::truss::{self, read_truss_line};
use std::alloc::{AllocError, Global};
use texts::{Lines, first_part};

/// The system whose calls a line tells.
#[derive(Clone, Copy, PartialEq, Eq)]
pub(crate) enum System {
    /// As strace writes them.
    Linux,
    /// As truss writes them.
    FreeBsd,
}

/// A line of a record.
#[derive(Clone, Copy)]
pub(crate) struct StraceLine<'t> {
    /// Its bytes, without the line feed.
    pub text: &'t [u8],
    pub system: System,
    /// The process that it tells, if it tells one.
    pub process: Option<u32>,
    pub told: Told<'t>,
}

/// What a line tells.
#[derive(Clone, Copy)]
pub(crate) enum Told<'t> {
    /// Nothing of a call: it is empty, of a signal, of a stack, or a remark of strace's own.
    Nothing,
    /// A call with its arguments and its result.
    Finished {
        name: CallName<'t>,
        arguments: &'t [u8],
        returned: CallResult<'t>,
    },
    /// The beginning of a call, which others come between.
    Unfinished {
        name: CallName<'t>,
        arguments: &'t [u8],
    },
    /// The end of such a call: the arguments that were not told yet, and its result.
    Resumed {
        name: CallName<'t>,
        arguments: &'t [u8],
        returned: CallResult<'t>,
    },
    /// The process ended.
    Ended,
    /// The process went on as this one.
    Superseded(u32),
    /// It isn't understood.
    Other,
}

impl<'t> Told<'t> {
    /// Whether it is understood, and says nothing of a call.
    fn is_silent(self) -> bool {
        matches!(self, Told::Nothing | Told::Ended | Told::Superseded(_))
    }
}

/// Whether a mark stands somewhere in a line.
fn stands_in(line: &[u8], mark: &[u8]) -> bool
    ensures { result ≡ stands_in line.now mark.now }
{
    let mut rest = line;
    while let [_, more @ ..] = rest {
        if rest.starts_with(mark) {
            return true;
        }
        rest = more;
    }
    rest.starts_with(mark)
}

/// What stands in a line of a signal, of the end of a process, of a call that is cut off, and in a remark. (strace(1), truss(1))
const QUIET_MARKS: [&[u8]; 7] = [
    b"--- ",
    b"+++ ",
    b"<unfinished ...>",
    b"strace: ",
    b"SIGNAL ",
    b"process exit",
    b"process killed",
];

/// Whether one of these marks stands in a line.
fn has_mark(line: &[u8], marks: &[&[u8]]) -> bool
    ensures { result ≡ list_any (stands_in line.now) (map (λ mark. mark.now) marks.now) }
{
    match marks {
        [] => false,
        [mark, rest @ ..] => stands_in(line, mark) || has_mark(line, rest),
    }
}

/// Whether a bracket opens in a line, as behind the name of a call.
fn has_bracket(line: &[u8]) -> bool
    ensures { result ≡ has_bracket line.now }
{
    line.contains(&b'(')
}

/// Whether a line is of a stack: it begins with an arrow.
fn is_of_stack(line: &[u8]) -> bool
    ensures { result ≡ is_of_stack line.now }
{
    line.starts_with(b" > ")
}

/// Whether a mark of lines that say nothing of a call stands in a line.
fn has_quiet_mark(line: &[u8]) -> bool
    ensures { result ≡ list_any (stands_in line.now) quiet_marks }
{
    has_mark(line, &QUIET_MARKS)
}

/// Whether a line may say nothing of a call, by its bytes alone.
fn may_be_quiet(line: &[u8]) -> bool
    ensures { result ≡ may_be_quiet line.now }
{
    !has_bracket(line) || is_of_stack(line) || has_quiet_mark(line)
}

impl<'t> StraceLine<'t> {
    /// Whether it is understood, and says nothing of a call.
    pub(crate) fn is_silent(self) -> bool
        ensures { result ≡ true → may_be_quiet self.entry.text.now ≡ true }
    {
        self.told.is_silent() && may_be_quiet(self.text)
    }
}

/// What a line between `+++ ` and ` +++` tells: how a process ended.
fn end_of(text: &[u8]) -> Told<'_> {
    let Some(text) = between(text, b"+++ ", b" +++") else {
        return Told::Other;
    };
    if let Some(process) = number_after(text, b"superseded by execve in pid ") {
        return Told::Superseded(process);
    }
    if text.starts_with(b"killed by ") || number_after(text, b"exited with ").is_some() {
        Told::Ended
    } else {
        Told::Other
    }
}

/// The arguments up to the bracket that closes them, and the result behind it, as truss or strace writes it.
fn ended(text: &[u8], is_truss: bool) -> Option<(&[u8], CallResult<'_>)> {
    let Some(at) = first_at_top(text, b')') else {
        return None;
    };
    let behind = &text[at + 1..];
    let returned = if is_truss {
        truss::result_of(behind)
    } else {
        result_of(behind)
    };
    match returned {
        Some(returned) => Some((&text[..at], returned)),
        None => None,
    }
}

/// What stands behind `<... `: the end of a call.
fn resumed_of(text: &[u8]) -> Told<'_> {
    let (name, Some(rest)) = first_part(text, b' ') else {
        return Told::Other;
    };
    let Some(name) = CallName::new(name) else {
        return Told::Other;
    };
    let Some(rest) = after(rest, b"resumed>") else {
        return Told::Other;
    };
    match ended(rest, false) {
        Some((arguments, returned)) => Told::Resumed {
            name,
            arguments,
            returned,
        },
        None => Told::Other,
    }
}

/// The arguments of a call that goes on in another line. A remark that a process was attached may come into it: it goes on behind the remark.
fn unfinished(text: &[u8]) -> Option<&[u8]> {
    if let Some(arguments) = before(text, b" <unfinished ...>") {
        return Some(arguments);
    }
    let Some(rest) = before(text, b" attached") else {
        return None;
    };
    match offset_of(rest, b"strace: Process ") {
        Some(at) => Some(&rest[..at]),
        None => None,
    }
}

/// Whether a call's first argument stands as a number or in digits alone, where strace writes a descriptor or a path: with `raw`, where it
/// stands for an address that can't be read, or with `-xx`.
fn is_raw(name: CallName<'_>, arguments: &[u8]) -> bool {
    let (_digits, note) = arguments.split_at(digits_end(arguments));
    if note.starts_with(b"<\\x") || arguments.starts_with(b"AT_FDCWD<\\x") {
        return true;
    }
    arguments.starts_with(b"0x")
        && matches!(
            form_of(name.bytes),
            Form::Opens(_)
                | Form::Streams(_)
                | Form::Descriptor(_)
                | Form::Name(_)
                | Form::Connection
                | Form::Wants(_, _)
        )
}

/// A call that begins on the line, as truss or strace writes it.
pub(crate) fn call_of(text: &[u8], is_truss: bool) -> Told<'_> {
    let (name, Some(rest)) = first_part(text, b'(') else {
        return Told::Other;
    };
    let Some(name) = CallName::new(name) else {
        return Told::Other;
    };
    let is_raw = !is_truss && is_raw(name, rest);
    match unfinished(rest) {
        Some(_) if is_raw => return Told::Other,
        Some(arguments) if !is_truss => return Told::Unfinished { name, arguments },
        _ => {}
    }
    match ended(rest, is_truss) {
        Some((_, returned)) if is_raw && !same_bytes(returned.error, b"EFAULT") => Told::Other,
        Some((arguments, returned)) => Told::Finished {
            name,
            arguments,
            returned,
        },
        None => Told::Other,
    }
}

/// What the text behind a header tells.
fn told_by(text: &[u8]) -> Told<'_> {
    match text {
        [] => Told::Nothing,
        [b'+', ..] => end_of(text),
        [b'-', ..] if between(text, b"--- ", b" ---").is_some() => Told::Nothing,
        // The end of a call, or a remark that the end of a line before was cut off.
        [b'<', ..] => match after(text, b"<... ") {
            Some(rest) => resumed_of(rest),
            None if same_bytes(text, b"<unfinished ...>") => Told::Nothing,
            None => Told::Other,
        },
        _ if text.starts_with(b"strace: ") => Told::Nothing,
        _ => call_of(text, false),
    }
}

/// What a line tells. One of a stack begins with an arrow.
fn read_line(line: &[u8]) -> StraceLine<'_>
    ensures { result.text.now ≡ line.entry.now }
{
    if is_of_stack(line) {
        return StraceLine {
            text: line,
            system: System::Linux,
            process: None,
            told: Told::Nothing,
        };
    }
    if let Some(told) = read_truss_line(line) {
        return told;
    }
    let (process, rest) = header_of(line);
    StraceLine {
        text: line,
        system: System::Linux,
        process,
        told: told_by(without_spaces(rest)),
    }
}

/// What each line of a record tells, in their order: no line is left out. A line that isn't understood is `Other`. What stands behind the
/// last line feed is a line too, mostly an empty one.
pub(crate) fn read_strace<'t>(
    alloc: Global,
    text: &'t [u8],
) -> Result<Vec<StraceLine<'t>>, AllocError>
    ensures length { IfOk result (λ lines. length lines.items ≡ length (lines_of text.entry.now)) }
    ensures texts { IfOk result (λ lines. texts_told lines.items ≡ map (λ line. line.text) (lines_of text.entry.now)) }
{
    let mut told = Vec::new(alloc);
    for line in Lines::new(text) {
        told.push(read_line(line.text))?;
    }
    Ok(told)
}
