//! Texts to programs.

ghost use Rattle.std.specs.Prelude.{◌≡◌, ◌≤◌, true, IfOk, length, map, option_map};
ghost use Rattle.std.specs.List.{filter_map};
ghost use Rattle.instruction_set.specs.Assembly.{assembly_in, assembly_of, placed};
ghost use Rattle.instruction_set.specs.Views.{code_of, instruction_of};
ghost use Rattle.prog_asm.specs.DraftViews.{below, draft_point, step_from};
ghost use Rattle.prog_asm.specs.FaultViews.{Gives};
ghost use Rattle.prog_asm.specs.FormViews.{written_from};
ghost use Rattle.prog_asm.specs.LineViews.{point_in};

use crate::drafts::{Draft, Step, point_of};
use crate::faults::AsmFault;
use crate::forms::Written;
use crate::judging::judge;
use indexmap::IndexMap;
use instruction_set::{Instruction, Program};
use std::alloc::{AllocError, Global};

/// The instruction with a point in the place of its label, if that is one of this many points.
#[tactic(auto, unfolding(crate::specs::FormViews::written_from))]
fn place(
    labels: &IndexMap<&[u8], usize>,
    points: usize,
    written: Written<'_>,
) -> Option<Instruction>
    requires { points ≤ 256 }
    ensures { option_map instruction_of result
        ≡ placed (λ name. below points (point_in labels.now name)) (written_from written.entry) }
{
    let target = match &written {
        Written::Leading { label, .. } => point_of(labels, points, label)?,
        _ => 0,
    };
    Some(written.led(target as u8))
}

/// The instructions of a draft with points in the place of labels, those left out that name a missing one.
fn place_all(alloc: Global, draft: Draft<'_>) -> Result<Vec<Instruction>, AllocError>
    requires { length draft.steps.items ≤ 256 }
    ensures { IfOk result (λ code. code_of code.items
        ≡ filter_map (λ step. placed (draft_point draft.entry) step.written) (map step_from draft.entry.steps.items)) }
{
    let Draft {
        labels,
        mut steps,
        ..
    } = draft;
    let points = steps.len();
    let mut code = Vec::new(alloc);
    while let Some(Step { written, .. }) = steps.pop_front() {
        if let Some(instruction) = place(&labels, points, written) {
            code.push(instruction)?;
        }
    }
    Ok(code)
}

/// Assembles a text: the program that it stands for, or its first fault. (own)
///
/// The first line with a fault decides, and on it the least number; where no line has one, the first
/// that names a missing label; then an end that the program runs past. `Memory`, want of memory, may
/// come in place of any answer.
pub fn assemble(alloc: Global, text: &str) -> Result<Program, AsmFault>
    ensures { Gives (λ program. program) result (assembly_of text.now) }
{
    assemble_in(alloc, false, text)
}

/// Assembles a text of the wide language, which has `use` and in which a limit may name further rights. (own)
///
/// It answers as `assemble` does.
pub fn assemble_wide(alloc: Global, text: &str) -> Result<Program, AsmFault>
    ensures { Gives (λ program. program) result (assembly_in true text.now) }
{
    assemble_in(alloc, true, text)
}

/// Assembles a text of the wide language or of the other.
fn assemble_in(alloc: Global, wide: bool, text: &str) -> Result<Program, AsmFault>
    ensures { Gives (λ program. program) result (assembly_in wide text.now) }
{
    let draft = judge(alloc, wide, text.as_bytes())?;
    if let Some(fault) = draft.faults.first() {
        return Err(fault.first());
    }
    let code = place_all(alloc, draft)?;
    Ok(Program::new(code))
}
