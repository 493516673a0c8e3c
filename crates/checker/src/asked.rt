//! Programs and their points, as the rules are asked of them.

ghost use Rattle.std.specs.Prelude.{◌≡◌, ◌+◌, ◌≤◌, Some, length, option_map, true};
ghost use Rattle.std.specs.List.{list_all, slice_get};
ghost use Rattle.certificate.specs.Growth.{IsCertificate};
ghost use Rattle.certificate.specs.Views.{bound_of};
ghost use Rattle.texts.specs.Views.{name_of};
ghost use Rattle.checker.specs.AllowanceViews.{allowance_of};
ghost use Rattle.instruction_set.specs.Views.{code_of, instruction_of};
ghost use Rattle.rights.specs.Limits.{most_instructions};
ghost use Rattle.rules.specs.Authority.{authority_at};
ghost use Rattle.rules.specs.Expansions.{bound_there, code_named};
ghost use Rattle.rules.specs.Rules.{marked_at};
ghost use Rattle.task.specs.Limits.{is_plan};
ghost use Rattle.task.specs.Plans.{program_name, programs_of_plan};
ghost use Rattle.transfer.specs.Limits.{leaves_known};

use crate::allowances::{Allowance, allowance_at};
use crate::carrying::{bound_with, carried_past};
use crate::points::code_at;
use certificate::{Bound, Cert};
use instruction_set::Instruction;
use task::{Task, is_marked};
use texts::Name;

/// A program of a task, and a certificate that is to bound it.
#[derive(Clone, Copy)]
pub(crate) struct AskedProgram<'a> {
    pub task: &'a Task,
    pub cert: &'a Cert,
    /// Its place in the task.
    pub program: u8,
    pub name: Name,
    pub code: &'a [Instruction],
    /// It is marked as untrusted.
    pub marked: bool,
    /// What it may hold.
    pub allowance: Allowance<'a>,
    pub ghost valid: { is_plan task.now ≡ true },
    pub ghost made: { ∥ IsCertificate cert.now ∥₁ },
    pub ghost named: { name_of name ≡ program_name task.now program },
    pub ghost coded: { code_of code.now ≡ programs_of_plan task.now program },
    pub ghost stands: { code_of code.now ≡ code_named task.now.programs (name_of name) },
    pub ghost few: { length code.now ≤ most_instructions },
    pub ghost known: { list_all leaves_known (code_of code.now) ≡ true },
    pub ghost marks: { marked ≡ marked_at task.now program },
    pub ghost asks: { allowance.wide ≡ task.now.wide },
    pub ghost holds: { allowance_of allowance ≡ authority_at cert.now (program_name task.now program) },
}

/// A point of it that has an instruction.
#[derive(Clone, Copy)]
pub(crate) struct AskedPoint<'a> {
    pub of: &'a AskedProgram<'a>,
    pub point: u8,
    pub instruction: &'a Instruction,
    /// Its bound, if it has one.
    pub bound: Option<Bound>,
    /// That of the point behind it.
    pub there: Option<Bound>,
    pub ghost stands: { slice_get (code_named of.now.task.now.programs (name_of of.now.name)) point ≡ Some (instruction_of instruction.now) },
    pub ghost leads: { option_map bound_of there ≡ bound_there of.now.task.now of.now.cert.now (name_of of.now.name) (point + 1) },
    pub ghost known: { leaves_known (instruction_of instruction.now) ≡ true },
}

impl<'a> AskedProgram<'a> {
    ghost use Rattle.std.specs.Prelude.{◌<◌, ℕ, IfSome, None};
    ghost use Rattle.checker.specs.Findings.{tests_there};
    ghost use Rattle.checker.specs.PointViews.{expansion_of, tests_of};
    ghost use Rattle.rules.specs.Points.{instruction_at};

    /// The program at a place of the task; where there is none, it has no instructions.
    pub(crate) fn new(task: &'a Task, cert: &'a Cert, program: u8) -> Option<AskedProgram<'a>>
        ensures task { IfSome result (λ of. of.task.now ≡ task.now) }
        ensures cert { IfSome result (λ of. of.cert.now ≡ cert.now) }
        ensures program { IfSome result (λ of. of.program ≡ program) }
        ensures none { result ≡ None → (point : ℕ) → instruction_at task.now program point ≡ None }
    {
        let programs = task.programs();
        let name = Name::read(task.program_name(program))?;
        let code = code_at(task, program);
        let marked = is_marked(programs, name.as_bytes());
        let allowance = allowance_at(cert, &name, task.further_rights());
        Some(AskedProgram {
            task,
            cert,
            program,
            name,
            code,
            marked,
            allowance,
        })
    }

    /// The bound of its first point, to which nothing is carried.
    pub(crate) fn first_bound(&self) -> Option<Bound>
        ensures { option_map bound_of result ≡ bound_there self.now.task.now self.now.cert.now (name_of self.now.name) 0 }
    {
        self.cert.bound_at(self.name.as_bytes(), 0)
    }

    /// A point of it, which has this bound.
    pub(crate) fn at(&'a self, point: usize, bound: &Option<Bound>) -> AskedPoint<'a>
        requires point { point < length self.now.code.now }
        requires bound { option_map bound_of bound.now ≡ bound_there self.now.task.now self.now.cert.now (name_of self.now.name) point }
        ensures program { result.of.now ≡ self.now }
        ensures point { result.point ≡ point }
        ensures tests { tests_of result ≡ tests_there self.now.task.now (expansion_of self.now) self.now.program point }
    {
        let instruction = &self.code[point];
        let next = point + 1;
        let point = point as u8;
        let carried = carried_past(self.task, self.cert, &self.name, self.code, point, bound);
        let there = bound_with(self.cert, &self.name, next, &carried);
        AskedPoint {
            of: self,
            point,
            instruction,
            bound: *bound,
            there,
        }
    }
}
