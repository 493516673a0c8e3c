//! A line by itself: a label, an instruction, both or neither.

ghost use Rattle.std.specs.Prelude.{◌≡◌, map, option_map};
ghost use Rattle.instruction_set.specs.Assembly.{instruction_in, with_label};
ghost use Rattle.prog_asm.specs.FormViews.{written_from};
ghost use Rattle.prog_asm.specs.LineFaults as model;
ghost use Rattle.prog_asm.specs.LineViews.{line_from, span_seen, texts_of, word_of};
ghost use Rattle.prog_asm.specs.ReadingViews.{ReadsAssembly, line_of_parts};

use crate::fields::before_last;
use crate::forms::{Written, read_written};
use crate::lines::{Span, Word};
use crate::mistakes::Mistake;
use crate::mnemonics::mnemonic_of;
use std::alloc::Global;
use texts::is_name;

/// What stands on a line.
#[derive(Drop)]
pub(crate) struct Line<'t> {
    pub(crate) label: Option<&'t [u8]>,
    pub(crate) instruction: Option<Written<'t>>,
}

/// The label, good or not, that words begin with, without its colon.
pub(crate) fn label_in<'t>(words: &[Word<'t>]) -> Option<Word<'t>>
    ensures { option_map word_of result ≡ model.label_in (map word_of words.now) }
{
    let word = words.first()?;
    let text = before_last(word.text, b':')?;
    let span = Span {
        start: word.span.start,
        end: word.span.end.saturating_sub(1),
    };
    Some(Word { text, span })
}

/// The words behind the label.
pub(crate) fn behind_label<'w, 't>(words: &'w [Word<'t>]) -> &'w [Word<'t>]
    ensures { map word_of result.now ≡ model.behind_label (map word_of words.now) }
{
    match words {
        [word, rest @ ..] if before_last(word.text, b':').is_some() => rest,
        _ => words,
    }
}

/// The instruction that words stand for in the wide language or the other, if there are any.
fn instruction_in<'t>(
    alloc: Global,
    wide: bool,
    words: &[Word<'t>],
) -> Result<Option<Written<'t>>, Mistake>
    ensures { ReadsAssembly (λ instruction. option_map written_from instruction) result
        (instruction_in wide (texts_of words.now)) }
{
    match words {
        [] => Ok(None),
        [word, operands @ ..] => {
            let Some(mnemonic) = mnemonic_of(wide, word.text) else {
                return Err(Mistake::Wrong);
            };
            Ok(Some(read_written(alloc, wide, mnemonic, operands)?))
        }
    }
}

/// The line with this label, and with the instruction that words stand for.
#[tactic(auto, using(crate::proofs::LinesRead::labels_keep))]
fn with_label<'t>(
    alloc: Global,
    wide: bool,
    label: Option<&'t [u8]>,
    words: &[Word<'t>],
) -> Result<Line<'t>, Mistake>
    ensures { ReadsAssembly line_from result (with_label (option_map (λ name. name.now) label.entry)
        (instruction_in wide (texts_of words.now))) }
{
    let instruction = instruction_in(alloc, wide, words)?;
    Ok(Line { label, instruction })
}

/// The line with this label and these words behind it, in which a byte stands that no word has, or none, in the wide
/// language or the other.
pub(crate) fn read_line<'t>(
    alloc: Global,
    wide: bool,
    stray: Option<Span>,
    label: Option<Word<'t>>,
    words: &[Word<'t>],
) -> Result<Line<'t>, Mistake>
    ensures { ReadsAssembly line_from result
        (line_of_parts wide (option_map span_seen stray) (option_map word_of label.entry) (texts_of words.now)) }
{
    if stray.is_some() {
        return Err(Mistake::Wrong);
    }
    match label {
        None => with_label(alloc, wide, None, words),
        Some(label) if is_name(label.text) => with_label(alloc, wide, Some(label.text), words),
        Some(_) => Err(Mistake::Wrong),
    }
}
