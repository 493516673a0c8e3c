//! All that is wrong with a text, and where.

ghost use Rattle.std.specs.Prelude.{◌≡◌, IfOk, List, map, option_map};
ghost use Rattle.instruction_set.specs.Assembly.{Line as LineRead, assembly_in};
ghost use Rattle.prog_asm.specs.DraftViews.{Drafts, ReadsAll, draft_point, step_from};
ghost use Rattle.prog_asm.specs.FaultPlaceViews.{fault_seen, faults_seen, list_of};
ghost use Rattle.prog_asm.specs.FormViews.{written_from};
ghost use Rattle.prog_asm.specs.LineFaults as model;
ghost use Rattle.prog_asm.specs.LineFaults.{falls_off, fault_in, faults_of, faults_together, first_fault, is_ending, missing_label};
ghost use Rattle.prog_asm.specs.LineViews.{span_seen};
ghost use Rattle.prog_asm.specs.WordPlaces.{words_on};
ghost use Rattle.texts.specs.Lines.{lines_of};

use crate::drafts::{Draft, Step};
use crate::faults::{LineFault, LineMistake};
use crate::forms::{Jump, Written};
use crate::lines::{Span, before_comment, words};
use crate::statements::behind_label;
use crate::wrongs::{first_place, last_place};
use std::alloc::{AllocError, Global};
use std::collections::VecDeque;
use texts::Lines;

/// The place of the last of a line's words.
fn last_word(alloc: Global, line: &[u8]) -> Result<Span, AllocError>
    ensures { IfOk result (λ span. span_seen span ≡ model.last_place (words_on line.now)) }
{
    let words = words(alloc, before_comment(line))?;
    Ok(last_place(&words))
}

/// The place of the word of a line's instruction.
fn instruction_place(alloc: Global, line: &[u8]) -> Result<Span, AllocError>
    ensures { IfOk result (λ span. span_seen span ≡ model.instruction_place line.now) }
{
    let words = words(alloc, before_comment(line))?;
    Ok(first_place(behind_label(&words)))
}

/// The line of this number, counted from 1.
fn line_numbered<'t>(lines: &[&'t [u8]], number: usize) -> &'t [u8]
    ensures { result.now ≡ model.line_numbered (map (λ line. line.now) lines.now) number }
{
    match lines.get(number.saturating_sub(1)) {
        Some(line) => line,
        None => &[],
    }
}

/// Whether nothing goes on past the instruction.
#[tactic(auto, unfolding(crate::specs::FormViews::written_from))]
fn is_ending(written: &Written<'_>) -> bool
    ensures { result ≡ is_ending (written_from written.now) }
{
    match written {
        Written::Halt => true,
        Written::Leading { jump, .. } => matches!(jump, Jump::Always),
        Written::Set { .. } | Written::Mov { .. } | Written::Add { .. } | Written::In { .. } =>
            false,
    }
}

/// That a step names a label that no line has, or that no instruction follows.
#[tactic(auto, unfolding(crate::specs::FormViews::written_from))]
fn missing_label(
    alloc: Global,
    draft: &Draft<'_>,
    step: &Step<'_>,
    lines: &[&[u8]],
) -> Result<Option<LineFault>, AllocError>
    ensures { IfOk result (λ fault. list_of (option_map fault_seen fault)
        ≡ missing_label (map (λ line. line.now) lines.now) (draft_point draft.now) (step_from step.now)) }
{
    let Written::Leading { label, .. } = &step.written else {
        return Ok(None);
    };
    if draft.point_of(label).is_some() {
        return Ok(None);
    }
    let span = last_word(alloc, line_numbered(lines, step.line))?;
    Ok(Some(LineFault::at(LineMistake::NoLabel, step.line, span)))
}

/// That something goes on past the last instruction, or that there is none.
fn falls_off(
    alloc: Global,
    steps: &VecDeque<Step<'_>>,
    lines: &[&[u8]],
) -> Result<Option<LineFault>, AllocError>
    ensures { IfOk result (λ fault. list_of (option_map fault_seen fault)
        ≡ falls_off (map (λ line. line.now) lines.now) (map step_from steps.now.items)) }
{
    let number = match steps.back() {
        None => 1,
        Some(step) if is_ending(&step.written) => return Ok(None),
        Some(step) => step.line,
    };
    let span = instruction_place(alloc, line_numbered(lines, number))?;
    Ok(Some(LineFault::at(LineMistake::FallsOff, number, span)))
}

/// What is wrong with all lines together: the labels that no line has, and that something goes on past the end.
fn faults_together(
    alloc: Global,
    draft: &Draft<'_>,
    lines: &[&[u8]],
) -> Result<Vec<LineFault>, AllocError>
    ensures { (read : List LineRead) → Drafts read draft.now
        → IfOk result (λ faults. faults_seen faults.items ≡ faults_together (map (λ line. line.now) lines.now) read) }
{
    let mut faults = Vec::new(alloc);
    for step in &draft.steps {
        if let Some(fault) = missing_label(alloc, draft, step, lines)? {
            faults.push(fault)?;
        }
    }
    if let Some(fault) = falls_off(alloc, &draft.steps, lines)? {
        faults.push(fault)?;
    }
    Ok(faults)
}

/// The lines of a text.
fn lines_in(alloc: Global, text: &[u8]) -> Result<Vec<&[u8]>, AllocError>
    ensures { IfOk result (λ lines. map (λ line. line.now) lines.items ≡ map (λ line. line.text) (lines_of text.now)) }
{
    let mut lines = Vec::new(alloc);
    for line in Lines::new(text) {
        lines.push(line.text)?;
    }
    Ok(lines)
}

/// Judges the lines of a text of the wide language or the other, one after another and then all together.
pub(crate) fn judge<'t>(alloc: Global, wide: bool, text: &'t [u8]) -> Result<Draft<'t>, AllocError>
    ensures faults { IfOk result (λ draft. faults_seen draft.faults.items ≡ faults_of wide text.entry.now) }
    ensures read { IfOk result (ReadsAll wide text.entry.now) }
{
    let lines = lines_in(alloc, text)?;
    let mut draft = Draft::new(alloc);
    for (at, line) in lines.iter().enumerate() {
        if !draft.add_line(alloc, wide, at + 1, line)? {
            return Ok(draft);
        }
    }
    let mut together = faults_together(alloc, &draft, &lines)?;
    draft.faults.append(&mut together)?;
    Ok(draft)
}

/// All that is wrong with a text of the wide language or of the other, and where; nothing where it is a program's. (own)
///
/// What is wrong with a line by itself is told of each, and where the text lies that is meant; then that it has a label of a line before, and
/// that it has the 257th instruction, behind which nothing is looked at. Then come missing labels and an end that the program runs past. A line
/// that is wrong by itself counts as one instruction, and its label, if it is good, as a label. The first of these is what `assemble_wide` or `assemble` answers.
pub fn line_faults(alloc: Global, wide: bool, text: &[u8]) -> Result<Vec<LineFault>, AllocError>
    ensures faults { IfOk result (λ faults. faults_seen faults.items ≡ faults_of wide text.now) }
    ensures first { IfOk result (λ faults. first_fault (faults_seen faults.items) ≡ fault_in (assembly_in wide text.now)) }
{
    Ok(judge(alloc, wide, text)?.faults)
}
