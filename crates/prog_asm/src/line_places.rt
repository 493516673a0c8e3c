//! What stands where on a line, and whether a text is the line of an instruction.

ghost use Rattle.std.specs.Prelude.{◌≡◌, IfOk, option_map, true};
ghost use Rattle.instruction_set.specs.Views.{instruction_of};
ghost use Rattle.prog_asm.specs.FormViews.{written_from};
ghost use Rattle.prog_asm.specs.LineParts as model;
ghost use Rattle.prog_asm.specs.LineParts.{IsLineOf, IsWritten, instruction_span, label_span};
ghost use Rattle.prog_asm.specs.LineViews.{span_seen};

use crate::forms::Written;
use crate::lines::{Span, before_comment, words};
use crate::statements::{behind_label, label_in};
use crate::wrongs::{first_place, last_place, look};
use instruction_set::Instruction;
use std::alloc::{AllocError, Global};

/// Where on a line its label stands, without the colon, and its instruction, from its first word to its last. (own)
#[derive(Clone, Copy, PartialEq, Eq)]
pub struct LineParts {
    pub label: Option<Span>,
    pub instruction: Option<Span>,
}

/// What stands where on a line.
pub fn line_parts(alloc: Global, line: &[u8]) -> Result<LineParts, AllocError>
    ensures label { IfOk result (λ parts. option_map span_seen parts.label ≡ label_span line.now) }
    ensures instruction { IfOk result (λ parts. option_map span_seen parts.instruction ≡ instruction_span line.now) }
{
    let words = words(alloc, before_comment(line))?;
    let label = match label_in(&words) {
        Some(label) => Some(label.span),
        None => None,
    };
    let instruction = match behind_label(&words) {
        [] => None,
        behind => Some(Span {
            start: first_place(behind).start,
            end: last_place(behind).end,
        }),
    };
    Ok(LineParts { label, instruction })
}

/// The point that an instruction leads to; 0 where it leads to none.
fn led_point(instruction: &Instruction) -> u8
    ensures { result ≡ model.led_point (instruction_of instruction.now) }
{
    match instruction {
        Instruction::Jmp { target }
        | Instruction::Jeq { target, .. }
        | Instruction::Jlt { target, .. }
        | Instruction::Invoke {
            otherwise: target,
            ..
        } => *target,
        Instruction::Set { .. }
        | Instruction::Mov { .. }
        | Instruction::Add { .. }
        | Instruction::In { .. }
        | Instruction::Halt => 0,
    }
}

/// Whether what stands on a line is an instruction, wherever the label leads that it names.
fn is_written(written: Option<Written<'_>>, instruction: &Instruction) -> bool
    ensures { result ≡ true → IsWritten (option_map written_from written.entry) (instruction_of instruction.now) }
{
    let Some(written) = written else {
        return false;
    };
    let target = led_point(instruction);
    written.led(target) == *instruction
}

/// Whether a text by itself is the line of an instruction in the wide language or the other, without a label, wherever the
/// label leads that it names. (own)
pub fn is_line_of(
    alloc: Global,
    wide: bool,
    text: &[u8],
    instruction: &Instruction,
) -> Result<bool, AllocError>
    ensures { IfOk result (λ is. is ≡ true → IsLineOf wide text.now (instruction_of instruction.now)) }
{
    let seen = look(alloc, wide, 1, text)?;
    if seen.wrong.is_some() || seen.line.label.is_some() {
        return Ok(false);
    }
    Ok(is_written(seen.line.instruction, instruction))
}
