//! What is explained: a task with its file, and a certificate in which all bounds are written.

ghost use Rattle.std.specs.Prelude.{◌≡◌, ◌≤◌, Some, length, true};
ghost use Rattle.std.specs.List.{slice_get};
ghost use Rattle.explain.specs.SceneViews.{shown_line, shown_text};
ghost use Rattle.explain.specs.Telling.{point_with_line};
ghost use Rattle.instruction_set.specs.Views.{code_of, instruction_of};
ghost use Rattle.task.specs.Plans.{program_name, programs_of_plan};
ghost use Rattle.transfer.specs.Limits.{leaves_known};

use certificate::{Bound, Cert};
use instruction_set::Instruction;
use task::Task;
use task_text::{ProgramText, Written};
use texts::{Page, Say, say};
use transfer::Site;

/// A task with its file, and a certificate in which all bounds are written.
#[derive(Clone, Copy)]
pub struct Scene<'a> {
    pub file: &'a [u8],
    pub texts: &'a [ProgramText],
    pub task: &'a Task,
    pub cert: &'a Cert,
}

/// A point of a program that has a bound.
#[derive(Clone, Copy)]
pub(crate) struct BoundedPoint<'a> {
    pub site: Site<'a>,
    /// The program's place in the task.
    pub program: u8,
    pub instruction: &'a Instruction,
    pub ghost known: { leaves_known (instruction_of instruction.now) ≡ true },
}

/// A point with its line.
#[derive(Clone, Copy)]
pub struct Place<'a> {
    program: &'a [u8],
    point: u32,
    line: u32,
}

/// It is told as `main:2 (line 31)`.
impl<'a> Say for Place<'a> {
    ghost said = { λ place. Some (point_with_line place.program.now place.point place.line) };

    fn say(self, page: &mut Page) {
        say!(page; self.program, ":", self.point, " (line ", self.line, ")")
    }
}

impl<'a> Scene<'a> {
    /// A task with its file and the texts of its programs, and a certificate.
    pub fn new(
        file: &'a [u8],
        texts: &'a [ProgramText],
        task: &'a Task,
        cert: &'a Cert,
    ) -> Scene<'a>
        ensures task { result.task.now ≡ task.now }
        ensures cert { result.cert.now ≡ cert.now }
    {
        Scene {
            file,
            texts,
            task,
            cert,
        }
    }

    /// The instruction of a point as it is written, and its line in the file; nothing and 0 where that isn't known. (own)
    pub fn written(&self, program: u8, point: u8) -> Written<'a>
        ensures text { result.text.now ≡ shown_text (slice_get self.now.texts.now program) point }
        ensures line { result.line ≡ shown_line self.now.file.now (slice_get self.now.texts.now program) point }
    {
        match self.texts.get(usize::from(program)) {
            Some(text) => text.written_at(self.file, usize::from(point)),
            None => Written { text: &[], line: 0 },
        }
    }

    /// A point of a program, with its line.
    pub fn place(&self, program: u8, point: u8) -> Place<'a>
        ensures program { result.program.now ≡ program_name self.now.task.now program }
        ensures point { result.point ≡ point }
    {
        Place {
            program: self.task.program_name(program),
            point: u32::from(point),
            line: self.written(program, point).line,
        }
    }

    /// The code of a program.
    pub(crate) fn code(&self, program: u8) -> &'a [Instruction]
        ensures code { code_of result.now ≡ programs_of_plan self.now.task.now program }
        ensures few { length result.now ≤ 256 }
    {
        match self.task.programs().get(usize::from(program)) {
            Some(program) => program.program.code(),
            None => &[],
        }
    }
}
