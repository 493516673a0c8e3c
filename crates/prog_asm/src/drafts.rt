//! What lines are read as, before labels are points.

ghost use Rattle.std.specs.Prelude.{◌≡◌, ◌+◌, ◌<◌, [], IfOk, IfSome, List, OnOk, length, option_map};
ghost use Rattle.instruction_set.specs.Assembly.{Line as LineRead};
ghost use Rattle.prog_asm.specs.DraftViews.{Drafts, JudgesLine, LabelAdded, OwnAdded, StepAdded, below, draft_point};
ghost use Rattle.prog_asm.specs.FaultPlaceViews.{fault_seen, list_of};
ghost use Rattle.prog_asm.specs.FormViews.{written_from};
ghost use Rattle.prog_asm.specs.LineViews.{point_in, span_seen};

use crate::faults::{LineFault, LineMistake};
use crate::forms::Written;
use crate::lines::Span;
use crate::wrongs::look;
use indexmap::IndexMap;
use rights::limits::MAX_INSTRUCTIONS;
use std::alloc::{AllocError, Global};
use std::collections::VecDeque;

/// An instruction as it is written, with its line.
#[derive(Drop)]
pub(crate) struct Step<'t> {
    pub(crate) line: usize,
    pub(crate) written: Written<'t>,
}

/// The instructions of the lines so far, for each label how many stand before it, and what is wrong with the lines.
#[derive(Drop)]
pub(crate) struct Draft<'t> {
    pub(crate) labels: IndexMap<&'t [u8], usize>,
    pub(crate) steps: VecDeque<Step<'t>>,
    pub(crate) faults: Vec<LineFault>,
}

/// The point that a label leads to, if it is one of this many points.
pub(crate) fn point_of(labels: &IndexMap<&[u8], usize>, points: usize, name: &[u8]) -> Option<usize>
    ensures point { result ≡ below points (point_in labels.now name.now) }
    ensures below { IfSome result (λ point. point < points) }
{
    match labels.get(&name) {
        Some(point) if *point < points => Some(*point),
        _ => None,
    }
}

impl<'t> Draft<'t> {
    /// The draft of no line.
    pub(crate) fn new(alloc: Global) -> Draft<'t>
        ensures lines { Drafts [] result }
        ensures faults { result.faults.items ≡ [] }
    {
        Draft {
            labels: IndexMap::new(alloc),
            steps: VecDeque::new(alloc),
            faults: Vec::new(alloc),
        }
    }

    /// Notes what is wrong with a line by itself.
    fn add_own(&mut self, wrong: Option<LineFault>) -> Result<(), AllocError>
        ensures { OnOk result (OwnAdded self.old self.new (list_of (option_map fault_seen wrong))) }
    {
        if let Some(wrong) = wrong {
            self.faults.push(wrong)?;
        }
        Ok(())
    }

    /// Notes where a line's label stands, or that a line before has it.
    fn add_label(
        &mut self,
        number: usize,
        label: Option<&'t [u8]>,
        span: Span,
    ) -> Result<(), AllocError>
        ensures { OnOk result (LabelAdded self.old self.new number (option_map (λ name. name.now) label.entry) (span_seen span)) }
    {
        let Some(name) = label else { return Ok(()) };
        if self.labels.contains_key(&name) {
            self.faults
                .push(LineFault::at(LineMistake::TwiceLabel, number, span))?;
            return Ok(());
        }
        let point = self.steps.len();
        self.labels.insert(name, point)?;
        Ok(())
    }

    /// Adds a line's instruction, or notes that it is one too many. Whether lines behind it are looked at.
    fn add_step(
        &mut self,
        number: usize,
        instruction: Option<Written<'t>>,
        span: Span,
    ) -> Result<bool, AllocError>
        ensures { IfOk result (λ more. StepAdded self.old self.new number (option_map written_from instruction.entry) (span_seen span) more) }
    {
        let Some(written) = instruction else {
            return Ok(true);
        };
        if self.steps.len() >= MAX_INSTRUCTIONS {
            self.faults
                .push(LineFault::at(LineMistake::TooMany, number, span))?;
            return Ok(false);
        }
        self.steps.push_back(Step {
            line: number,
            written,
        })?;
        Ok(true)
    }

    /// Adds the line of this number, in the wide language or the other. Whether lines behind it are looked at.
    pub(crate) fn add_line(
        &mut self,
        alloc: Global,
        wide: bool,
        number: usize,
        text: &'t [u8],
    ) -> Result<bool, AllocError>
        ensures { (before : List LineRead) → Drafts before self.old → number ≡ length before + 1
            → IfOk result (JudgesLine wide before text.entry.now self.old self.new) }
    {
        let seen = look(alloc, wide, number, text)?;
        self.add_own(seen.wrong)?;
        self.add_label(number, seen.line.label, seen.label)?;
        self.add_step(number, seen.line.instruction, seen.instruction)
    }

    /// The point that a label leads to, if an instruction follows it.
    pub(crate) fn point_of(&self, name: &[u8]) -> Option<usize>
        ensures { result ≡ draft_point self.now name.now }
    {
        point_of(&self.labels, self.steps.len(), name)
    }
}
