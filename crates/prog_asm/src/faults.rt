//! Why a text is no program: its first fault, and all that is wrong with it.

ghost use Rattle.std.specs.Prelude.{◌≡◌};
ghost use Rattle.prog_asm.specs.FaultPlaceViews.{fault_seen, mistake_of};
ghost use Rattle.prog_asm.specs.FaultViews.{fault_at, fault_line, fault_name, fault_number};
ghost use Rattle.prog_asm.specs.LineFaults.{placed_fault};
ghost use Rattle.prog_asm.specs.LineViews.{span_seen};
ghost use Rattle.prog_asm.specs.declared.faults.AsmFault.TheVariants as asm;

use crate::lines::Span;
use crate::operand_forms::Form;
use std::alloc::AllocError;
use std::fmt;
use thiserror::Error;

/// Why a text isn't assembled: the first faulty line, counted from 1, and on it the first of these
/// that applies; where no line is faulty, a missing label, and then falling off the end. (own)
#[derive(Clone, Copy, Debug, PartialEq, Eq, Error)]
pub enum AsmFault {
    /// A byte that no word has, a bad name before a colon, or an unknown instruction.
    Word(usize),
    /// A wrong operand, a wrong word in a list, or too few or too many operands.
    Operand(usize),
    /// A label that no line has, or that no instruction follows.
    NoLabel(usize),
    /// A label that a line before has already.
    TwiceLabel(usize),
    /// An instruction behind 256.
    TooMany(usize),
    /// The last instruction goes on, or there is none (line 1).
    FallsOff(usize),
    /// A growth was refused.
    Memory,
}

impl AsmFault {
    /// The fault's number, from 1 to 7.
    pub fn number(self) -> u8
        ensures { result ≡ fault_number self }
    {
        match self {
            AsmFault::Word(_) => 1,
            AsmFault::Operand(_) => 2,
            AsmFault::NoLabel(_) => 3,
            AsmFault::TwiceLabel(_) => 4,
            AsmFault::TooMany(_) => 5,
            AsmFault::FallsOff(_) => 6,
            AsmFault::Memory => 7,
        }
    }

    /// The fault's name, as `NoLabel`.
    pub fn name(self) -> &'static str
        ensures { result.now ≡ fault_name self }
    {
        match self {
            AsmFault::Word(_) => "Word",
            AsmFault::Operand(_) => "Operand",
            AsmFault::NoLabel(_) => "NoLabel",
            AsmFault::TwiceLabel(_) => "TwiceLabel",
            AsmFault::TooMany(_) => "TooMany",
            AsmFault::FallsOff(_) => "FallsOff",
            AsmFault::Memory => "Memory",
        }
    }

    /// The line, counted from 1. Want of memory has none.
    pub fn line(self) -> Option<usize>
        ensures { result ≡ fault_line self }
    {
        match self {
            AsmFault::Word(line)
            | AsmFault::Operand(line)
            | AsmFault::NoLabel(line)
            | AsmFault::TwiceLabel(line)
            | AsmFault::TooMany(line)
            | AsmFault::FallsOff(line) => Some(line),
            AsmFault::Memory => None,
        }
    }

    /// What is wrong, in words.
    fn told(self) -> &'static str {
        match self {
            AsmFault::Word(_) => "no such word",
            AsmFault::Operand(_) => "a wrong operand",
            AsmFault::NoLabel(_) => "a missing label",
            AsmFault::TwiceLabel(_) => "a label for the second time",
            AsmFault::TooMany(_) => "too many instructions",
            AsmFault::FallsOff(_) => "the program has no end",
            AsmFault::Memory => "no memory",
        }
    }
}

impl fmt::Display for AsmFault {
    fn fmt<W: fmt::Write>(&self, f: &mut fmt::Formatter<W>) -> fmt::Result {
        match self.line() {
            Some(line) => write!(f, "line {line}: {}", self.told()),
            None => f.write_str(self.told()),
        }
    }
}

/// What can be wrong with a text at a line, in the order in which it is told of one. (own)
#[derive(Clone, Copy, PartialEq, Eq)]
pub enum LineMistake {
    /// A byte that no word has, a bad name before a colon, or an unknown instruction.
    Word,
    /// A wrong operand, a wrong word in a list, or too few or too many operands.
    Operand,
    /// A label that no line has, or that no instruction follows.
    NoLabel,
    /// A label that a line before has already.
    TwiceLabel,
    /// An instruction behind 256.
    TooMany,
    /// The last instruction goes on, or there is none (line 1).
    FallsOff,
}

/// What is wrong with a text at a line. (own)
#[derive(Clone, Copy, PartialEq, Eq)]
pub struct LineFault {
    pub mistake: LineMistake,
    /// The line, counted from 1.
    pub line: usize,
    /// Where in the line, counted from its first byte.
    pub span: Span,
    /// What is wanted there, of a wrong operand; nothing of one too many.
    pub wants: Option<Form>,
}

impl LineFault {
    /// A fault at a line of which no form is wanted.
    pub(crate) fn at(mistake: LineMistake, line: usize, span: Span) -> LineFault
        ensures { fault_seen result ≡ placed_fault (mistake_of mistake) line (span_seen span) }
    {
        LineFault {
            mistake,
            line,
            span,
            wants: None,
        }
    }

    /// The fault of a text of which this is the first.
    pub(crate) fn first(self) -> AsmFault
        ensures { result ≡ fault_at self.mistake self.line }
    {
        match self.mistake {
            LineMistake::Word => AsmFault::Word(self.line),
            LineMistake::Operand => AsmFault::Operand(self.line),
            LineMistake::NoLabel => AsmFault::NoLabel(self.line),
            LineMistake::TwiceLabel => AsmFault::TwiceLabel(self.line),
            LineMistake::TooMany => AsmFault::TooMany(self.line),
            LineMistake::FallsOff => AsmFault::FallsOff(self.line),
        }
    }
}

impl From<AllocError> for AsmFault {
    ghost from_gives = { λ _ given. given ≡ asm.Memory };

    fn from(_error: AllocError) -> AsmFault {
        AsmFault::Memory
    }
}
