//! The lines of a program's text, as they stand in the task's file.

ghost use Rattle.std.specs.Prelude.{◌≡◌, IfOk, map};
ghost use Rattle.texts.specs.Lines.{lines_of};
ghost use Rattle.task_text.specs.SourceViews.{line_shown, texts_in};

use crate::places::Cursor;
use crate::program_texts::ProgramText;
use prog_asm::Span;
use std::alloc::{AllocError, Global};
use texts::{Line, Lines};

/// A line of a program's text.
#[derive(Clone, Copy)]
pub struct SourceLine<'a> {
    /// Its number in the file, counted from 1.
    pub number: u32,
    /// What stands before the instruction: blanks and a label; or the whole line, where there is no instruction in it.
    pub before: &'a [u8],
    /// The point whose instruction stands in it, if one does, counted from 0.
    pub point: Option<usize>,
    pub instruction: &'a [u8],
    /// What stands behind the instruction.
    pub behind: &'a [u8],
}

/// A line of this number, in which the instruction of a point stands between these offsets of the line.
fn parted(number: u32, text: &[u8], within: Span, point: Option<usize>) -> SourceLine<'_>
    ensures { line_shown result ≡ text.entry.now }
{
    let start = within.start.min(text.len());
    let (before, rest) = text.split_at(start);
    let length = within.end.saturating_sub(start).min(rest.len());
    let (instruction, behind) = rest.split_at(length);
    SourceLine {
        number,
        before,
        point,
        instruction,
        behind,
    }
}

impl ProgramText {
    /// Where in a line the instruction of a point stands, if it begins in it.
    fn span_in(&self, line: &Line<'_>, point: usize) -> Option<Span> {
        let span = self.instructions().get(point)?;
        let start = span.start.saturating_sub(line.offset);
        let end = span.end.saturating_sub(line.offset);
        if start < line.text.len() {
            Some(Span { start, end })
        } else {
            None
        }
    }

    /// The lines of the program's text, in their order: the parts of each are the whole line. Where it isn't the text of its instructions, no line
    /// has a point. (own)
    pub fn source_lines(
        &self,
        alloc: Global,
        file: &[u8],
    ) -> Result<Vec<SourceLine<'_>>, AllocError>
        ensures { IfOk result (λ list. map line_shown list.items ≡ texts_in (lines_of self.now.code.bytes.items)) }
    {
        let mut list = Vec::new(alloc);
        let mut cursor = Cursor::FIRST;
        let mut points: usize = 0;
        for line in Lines::new(self.bytes()) {
            let number = cursor.go_to(file, self.offset(line.offset)).line;
            let source = match self.span_in(&line, points) {
                Some(within) => {
                    let point = Some(points);
                    points = points.saturating_add(1);
                    parted(number, line.text, within, point)
                }
                None => {
                    let end = line.text.len();
                    parted(number, line.text, Span { start: end, end }, None)
                }
            };
            list.push(source)?;
        }
        Ok(list)
    }
}
