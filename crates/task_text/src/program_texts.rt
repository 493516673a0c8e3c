//! The texts of a task's programs as they stand in its file, and where each instruction does.

ghost use Rattle.std.specs.Prelude.{◌≡◌, IfOk, length};
ghost use Rattle.instruction_set.specs.Views.{code_of};
ghost use Rattle.task_text.specs.Instructions.{AreLinesOf, line_there, offset_of, text_there};
ghost use Rattle.task_text.specs.ProgramViews.{AreTextsOf, codes_in, span_at, texts_at};

use crate::decoded::{Decoded, decode};
use crate::fields::{Fields, TableKind, fields_of};
use crate::places::{part, place_at};
use instruction_set::Instruction;
use prog_asm::{Span, is_line_of, line_parts};
use std::alloc::{AllocError, Global};
use std::collections::VecDeque;
use task::Task;
use texts::Lines;

/// The text of a program, and where in it the instructions of its points stand, if these are the lines of them.
#[derive(Drop)]
pub struct ProgramText {
    code: Decoded,
    instructions: Vec<Span>,
}

/// An instruction as it is written, and the line of the file that it stands in.
#[derive(Clone, Copy)]
pub struct Written<'a> {
    pub text: &'a [u8],
    pub line: u32,
}

impl ProgramText {
    /// The bytes of the text.
    pub(crate) fn bytes(&self) -> &[u8]
        ensures { result.now ≡ self.now.code.bytes.items }
    {
        &self.code.bytes
    }

    /// The offset in the file that a byte of the text comes from; behind the last one, that behind the text.
    pub(crate) fn offset(&self, at: usize) -> usize
        ensures { result ≡ offset_of self.now.code.offsets.items self.now.code.end at }
    {
        self.code.offset(at)
    }

    /// Where in the text the instructions of the points stand.
    pub(crate) fn instructions(&self) -> &[Span]
        ensures { result.now ≡ self.now.instructions.items }
    {
        &self.instructions
    }

    /// The instruction of a point, counted from 0, and its line in the file, counted from 1; nothing and 0 where that isn't known.
    pub fn written_at(&self, file: &[u8], point: usize) -> Written<'_>
        ensures text { result.text.now ≡ text_there self.now.code.bytes.items (span_at self.now point) }
        ensures line { result.line ≡ line_there file.now self.now.code.offsets.items self.now.code.end (span_at self.now point) }
    {
        match self.instructions.get(point) {
            Some(span) => Written {
                text: part(&self.code.bytes, span.start, span.end),
                line: place_at(file, self.code.offset(span.start)).line,
            },
            None => Written { text: &[], line: 0 },
        }
    }
}

/// Where in a text the lines of these instructions stand, in the wide language or the other; nowhere, where it has others.
fn instructions_in(
    alloc: Global,
    wide: bool,
    text: &[u8],
    code: &[Instruction],
) -> Result<Vec<Span>, AllocError>
    ensures { IfOk result (λ spans. AreLinesOf wide (texts_at text.now spans.items) (code_of code.now)) }
{
    let mut spans = Vec::new(alloc);
    for line in Lines::new(text) {
        let Some(within) = line_parts(alloc, line.text)?.instruction else {
            continue;
        };
        let span = Span {
            start: line.offset.saturating_add(within.start),
            end: line.offset.saturating_add(within.end),
        };
        let Some(instruction) = code.get(spans.len()) else {
            return Ok(Vec::new(alloc));
        };
        if !is_line_of(alloc, wide, part(text, span.start, span.end), instruction)? {
            return Ok(Vec::new(alloc));
        }
        spans.push(span)?;
    }
    Ok(spans)
}

/// The texts of the programs of a file, in its order.
pub(crate) fn codes_of(
    alloc: Global,
    file: &[u8],
    fields: &Fields,
) -> Result<VecDeque<Decoded>, AllocError> {
    let mut codes = VecDeque::new(alloc);
    for (number, table) in fields.tables.iter().enumerate() {
        if table.kind == TableKind::Program {
            if let Some(token) = fields.value_at(file, number, b"code") {
                codes.push_back(decode(alloc, file, token)?)?;
            }
        }
    }
    Ok(codes)
}

/// The texts of a task's programs, in its order, as they stand in its file. What isn't the line of its instruction isn't shown.
pub fn texts_of_file(
    alloc: Global,
    file: &[u8],
    task: &Task,
) -> Result<Vec<ProgramText>, AllocError>
    ensures each { IfOk result (λ texts. length texts.items ≡ length task.now.programs) }
    ensures lines { IfOk result (λ texts. AreTextsOf task.now.wide texts.items (codes_in task.now.programs)) }
{
    let mut codes = codes_of(alloc, file, &fields_of(alloc, file)?)?;
    let mut texts = Vec::new(alloc);
    for program in task.programs() {
        let code = codes.pop_front().unwrap_or(Decoded {
            bytes: Vec::new(alloc),
            offsets: Vec::new(alloc),
            end: 0,
        });
        let instructions = instructions_in(
            alloc,
            task.further_rights(),
            &code.bytes,
            program.program.code(),
        )?;
        texts.push(ProgramText { code, instructions })?;
    }
    Ok(texts)
}
