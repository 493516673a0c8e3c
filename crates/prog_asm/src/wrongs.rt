//! What is wrong with a line by itself, and what the line counts as beside others.

ghost use Rattle.std.specs.Prelude.{◌≡◌, IfOk, Some, map, option_map};
ghost use Rattle.instruction_set.specs.Assembly.{line_with};
ghost use Rattle.instruction_set.specs.Forms.{Alone};
ghost use Rattle.instruction_set.specs.Programs as programs;
ghost use Rattle.prog_asm.specs.FaultPlaceViews.{fault_seen, list_of};
ghost use Rattle.prog_asm.specs.LineFaults as model;
ghost use Rattle.prog_asm.specs.LineFaults.{counted, own_fault, wrong_instruction};
ghost use Rattle.prog_asm.specs.LineViews.{line_from, span_seen, word_of};
ghost use Rattle.prog_asm.specs.WordPlaces.{words_on};

use crate::faults::{LineFault, LineMistake};
use crate::forms::Written;
use crate::lines::{Span, Word, before_comment, stray_in, words};
use crate::mistakes::Mistake;
use crate::mnemonics::mnemonic_of;
use crate::operand_forms::first_unfit;
use crate::statements::{Line, behind_label, label_in, read_line};
use std::alloc::{AllocError, Global};
use texts::is_name;

const NO_PLACE: Span = Span { start: 0, end: 0 };

/// Where the operand of this number stands; behind the last word, where it is missing.
fn operand_place(word: &Word<'_>, operands: &[Word<'_>], number: usize) -> Span
    ensures { span_seen result ≡ model.operand_place (word_of word.now) (map word_of operands.now) number }
{
    match operands {
        [] => Span {
            start: word.span.end,
            end: word.span.end,
        },
        [operand, rest @ ..] => {
            if number == 0 {
                operand.span
            } else {
                operand_place(operand, rest, number - 1)
            }
        }
    }
}

/// What is wrong with the instruction that words of this line are.
fn wrong_instruction(line: usize, wide: bool, words: &[Word<'_>]) -> Option<LineFault>
    ensures { list_of (option_map fault_seen result) ≡ own_fault line (wrong_instruction wide (map word_of words.now)) }
{
    let [word, operands @ ..] = words else {
        return None;
    };
    let Some(mnemonic) = mnemonic_of(wide, word.text) else {
        return Some(LineFault::at(LineMistake::Word, line, word.span));
    };
    let found = first_unfit(mnemonic.forms(wide), operands)?;
    Some(LineFault {
        mistake: LineMistake::Operand,
        line,
        span: operand_place(word, operands, found.fit),
        wants: found.wants,
    })
}

/// What is wrong with a line by itself, with a byte that no word has, if there is one, a label and the words behind it.
fn wrong_in(
    line: usize,
    wide: bool,
    stray: Option<Span>,
    label: Option<Word<'_>>,
    words: &[Word<'_>],
) -> Option<LineFault>
    ensures { list_of (option_map fault_seen result) ≡ own_fault line (model.wrong_in wide (model.bad_label (option_map word_of label.entry))
        (option_map span_seen stray) (map word_of words.now)) }
{
    let bad_label = match label {
        Some(label) if !is_name(label.text) => Some(label.span),
        _ => None,
    };
    match bad_label.or(stray) {
        Some(span) => Some(LineFault::at(LineMistake::Word, line, span)),
        None => wrong_instruction(line, wide, words),
    }
}

/// `halt` behind the label, if that is a good one: what a line counts as that is wrong by itself.
#[tactic(auto, unfolding(crate::specs::FormViews::written_from))]
fn halt_behind<'t>(label: Option<Word<'t>>) -> Line<'t>
    ensures { line_from result ≡ line_with (model.name_if_good (option_map word_of label.entry)) (Some (Alone programs.Halt)) }
{
    let instruction = Some(Written::Halt);
    match label {
        Some(label) if is_name(label.text) => Line {
            label: Some(label.text),
            instruction,
        },
        _ => Line {
            label: None,
            instruction,
        },
    }
}

/// Where the first of these words stands.
pub(crate) fn first_place(words: &[Word<'_>]) -> Span
    ensures { span_seen result ≡ model.first_place (map word_of words.now) }
{
    match words.first() {
        Some(word) => word.span,
        None => NO_PLACE,
    }
}

/// Where the last of these words stands.
pub(crate) fn last_place(words: &[Word<'_>]) -> Span
    ensures { span_seen result ≡ model.last_place (map word_of words.now) }
{
    match words {
        [] => NO_PLACE,
        [.., last] => last.span,
    }
}

/// Where the label stands.
fn label_place(label: Option<Word<'_>>) -> Span
    ensures { span_seen result ≡ model.label_place (option_map word_of label.entry) }
{
    match label {
        Some(label) => label.span,
        None => NO_PLACE,
    }
}

/// A line, as it counts beside others; what is wrong with it by itself, and where its label and its instruction stand.
#[derive(Drop)]
pub(crate) struct Seen<'t> {
    pub line: Line<'t>,
    pub wrong: Option<LineFault>,
    pub label: Span,
    pub instruction: Span,
}

/// Looks at the line of this number by itself, in the wide language or the other. What is wrong is sought where the line isn't read.
pub(crate) fn look<'t>(
    alloc: Global,
    wide: bool,
    number: usize,
    text: &'t [u8],
) -> Result<Seen<'t>, AllocError>
    ensures line { IfOk result (λ seen. line_from seen.line ≡ counted wide text.entry.now) }
    ensures wrong { IfOk result (λ seen. list_of (option_map fault_seen seen.wrong) ≡ own_fault number (model.wrong_on wide text.entry.now)) }
    ensures label { IfOk result (λ seen. span_seen seen.label ≡ model.label_place (model.label_in (words_on text.entry.now))) }
    ensures instruction { IfOk result (λ seen. span_seen seen.instruction ≡ model.instruction_place text.entry.now) }
{
    let code = before_comment(text);
    let words = words(alloc, code)?;
    let stray = stray_in(code);
    let label = label_in(&words);
    let behind = behind_label(&words);
    let (line, wrong) = match read_line(alloc, wide, stray, label, behind) {
        Ok(line) => (line, None),
        Err(Mistake::Wrong) => (
            halt_behind(label),
            wrong_in(number, wide, stray, label, behind),
        ),
        Err(Mistake::Memory) => return Err(AllocError),
    };
    Ok(Seen {
        line,
        wrong,
        label: label_place(label),
        instruction: first_place(behind),
    })
}
