//! The programs of a task, assembled.

ghost use Rattle.std.specs.Prelude.{◌≡◌};
ghost use Rattle.instruction_set.specs.Assembly.{assembly_in};
ghost use Rattle.prog_asm.specs.FaultViews.{Gives};
ghost use Rattle.task_reader.specs.ApartViews.{first_assembled};
ghost use Rattle.task_reader.specs.FaultViews.{ReadsTask};
ghost use Rattle.task_reader.specs.Reading.{assembled};
ghost use Rattle.task.specs.Views.{program_of, programs_of};
ghost use Rattle.task_reader.specs.WrittenViews.{program_seen, programs_seen};

use crate::faults::TaskFault;
use crate::written::WrittenProgram;
use prog_asm::{AsmFault, Program, assemble, assemble_wide};
use rights::limits::MAX_PROGRAMS;
use std::alloc::Global;
use task::NamedProgram;
use texts::Name;

/// The program that a text of the wide language or of the other is.
fn assemble_in(alloc: Global, wide: bool, text: &str) -> Result<Program, AsmFault>
    ensures { Gives (λ program. program) result (assembly_in wide text.now) }
{
    if wide {
        assemble_wide(alloc, text)
    } else {
        assemble(alloc, text)
    }
}

/// The program that a text stands for, with its name.
fn assemble_one(
    alloc: Global,
    wide: bool,
    written: &WrittenProgram<'_>,
) -> Result<NamedProgram, TaskFault>
    ensures { ReadsTask program_of result (assembled wide (program_seen written.now)) }
{
    match assemble_in(alloc, wide, written.text) {
        Ok(program) => Ok(NamedProgram {
            name: Name::new(written.name.as_bytes()),
            program,
            untrusted: written.untrusted,
        }),
        Err(AsmFault::Memory) => Err(TaskFault::Memory),
        Err(fault) => Err(TaskFault::Asm {
            program: String::from_str(alloc, written.name)?,
            fault,
        }),
    }
}

/// The programs of a task, in the wide language or the other, in their order, or the first that isn't assembled, and why. Each is assembled, and as many are kept as
/// a task may have. (own)
pub(crate) fn assemble_all(
    alloc: Global,
    wide: bool,
    written: &[WrittenProgram<'_>],
) -> Result<Vec<NamedProgram>, TaskFault>
    ensures { ReadsTask (λ programs. programs_of programs.items) result (first_assembled wide (programs_seen written.now)) }
{
    let mut programs = Vec::new(alloc);
    for program in written {
        let assembled = assemble_one(alloc, wide, program)?;
        if programs.len() < MAX_PROGRAMS {
            programs.push(assembled)?;
        }
    }
    Ok(programs)
}
