//! The points of a task's programs.

ghost use Rattle.std.specs.Prelude.{◌≡◌, ◌≤◌, IfSome, length, option_map, true};
ghost use Rattle.std.specs.List.{list_all, slice_get};
ghost use Rattle.certificate.specs.Views.{version_of};
ghost use Rattle.rights.specs.Limits.{most_instructions};
ghost use Rattle.rules.specs.Expansions.{code_named, is_named, may_carry, names_point};
ghost use Rattle.rules.specs.Points.{instruction_at};
ghost use Rattle.instruction_set.specs.Views.{code_of, instruction_of};
ghost use Rattle.task.specs.Plans.{programs_of_plan};
ghost use Rattle.transfer.specs.Limits.{leaves_known};

use certificate::Version;
use instruction_set::Instruction;
use task::Task;

/// The instruction at a point of this code, if it is there.
pub(crate) fn instruction_in(code: &[Instruction], point: u8) -> Option<&Instruction>
    ensures { option_map (λ i. instruction_of i.now) result ≡ slice_get (code_of code.now) point }
{
    code.get(point as usize)
}

/// The code of a program, by its place in the task; where there is none, there is no code.
pub(crate) fn code_at(task: &Task, program: u8) -> &[Instruction]
    ensures code { code_of result.now ≡ programs_of_plan task.now program }
    ensures few { length result.now ≤ most_instructions }
    ensures known { list_all leaves_known (code_of result.now) ≡ true }
{
    match task.programs().get(program as usize) {
        None => &[],
        Some(named) => named.program.code(),
    }
}

/// The instruction at a point of a program, by its place in the task, if both are there.
pub fn instruction_at(task: &Task, program: u8, point: u8) -> Option<&Instruction>
    ensures there { option_map (λ i. instruction_of i.now) result ≡ instruction_at task.now program point }
    ensures known { IfSome result (λ i. leaves_known (instruction_of i.now) ≡ true) }
{
    instruction_in(code_at(task, program), point)
}

/// The code of the task's program of this name; where it has none, there is no code.
pub fn code_named<'a>(task: &'a Task, name: &[u8]) -> &'a [Instruction]
    ensures code { code_of result.now ≡ code_named task.now.programs name.now }
    ensures known { list_all leaves_known (code_of result.now) ≡ true }
{
    match task
        .programs()
        .iter()
        .find(|named| named.name.as_bytes() == name)
    {
        None => &[],
        Some(named) => named.program.code(),
    }
}

/// Whether an instruction names the point as one to go to, by a jump or an `else`.
fn names_point(instruction: &Instruction, point: usize) -> bool
    ensures { result ≡ names_point point (instruction_of instruction.now) }
{
    match instruction {
        Instruction::Jmp { target }
        | Instruction::Jeq { target, .. }
        | Instruction::Jlt { target, .. }
        | Instruction::Invoke {
            otherwise: target,
            ..
        } => *target as usize == point,
        Instruction::Set { .. }
        | Instruction::Mov { .. }
        | Instruction::Add { .. }
        | Instruction::In { .. }
        | Instruction::Halt => false,
    }
}

/// Whether a point of this code is named: point 0, or one that a jump or an `else` goes to, whether or not it ever does. A
/// certificate of versions 2 to 4 bounds these, and the others get the bounds that are carried to them.
pub fn is_named(code: &[Instruction], point: usize) -> bool
    ensures { result ≡ is_named (code_of code.now) point }
{
    point == 0
        || code
            .iter()
            .any(|instruction| names_point(instruction, point))
}

/// Whether a bound may be carried to a point of this program.
pub(crate) fn may_carry(version: Version, code: &[Instruction], point: usize) -> bool
    ensures { result ≡ may_carry (version_of version) (code_of code.now) point }
{
    match version {
        Version::One => false,
        Version::Two | Version::Three | Version::Four => point < code.len()
            && !is_named(code, point),
    }
}
