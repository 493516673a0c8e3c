//! The task that runs without words. Its one process `main` begins outside capability mode, with `/work/in` open for reading as
//! descriptor 2; it enters the mode and reads a byte. Its one grant, `work`, is to look and read beneath `/work`.

ghost use Rattle.std.specs.Prelude.{◌≡◌, ◌∷◌, [], codes, IfOk};
ghost use Rattle.commands.specs.Examples.{enter_and_read, first_plan, small_start, work_grant};
ghost use Rattle.task.specs.Breaches.{small_tree};
ghost use Rattle.rights.specs.Sets.{all_rights};
ghost use Rattle.task.specs.Views.{grants_of, nodes_of, starts_of};

use fd_table::Access;
use file_tree::{Kind, Place};
use instruction_set::{Instruction, Operand, Program, Syscall};
use rights::{Fcntls, Op, Rights};
use std::alloc::{AllocError, Global};
use task::{FirstDescriptor, FirstObject, Grant, NamedProgram, Start, Task, TaskNode};
use texts::Name;

/// `/work`.
fn work(alloc: Global) -> Result<Place, AllocError>
    ensures { IfOk result (λ place. place ≡ codes "work" ∷ []) }
{
    Place::of_names(alloc, b"work")
}

/// `/work/in`.
fn work_in(alloc: Global) -> Result<Place, AllocError>
    ensures { IfOk result (λ place. place ≡ codes "work" ∷ codes "in" ∷ []) }
{
    Place::of_names(alloc, b"work/in")
}

/// The root, `/work`, and the file `/work/in` with two bytes.
fn nodes(alloc: Global) -> Result<Vec<TaskNode>, AllocError>
    ensures { IfOk result (λ nodes. nodes_of nodes.items ≡ small_tree) }
{
    let root = TaskNode {
        kind: Kind::Dir,
        place: Place::root(alloc),
        content: Vec::new(alloc),
    };
    let directory = TaskNode {
        kind: Kind::Dir,
        place: work(alloc)?,
        content: Vec::new(alloc),
    };
    let file = TaskNode {
        kind: Kind::File,
        place: work_in(alloc)?,
        content: Vec::from_slice(alloc, b"AB")?,
    };
    Ok(vec![in alloc; root, directory, file]?)
}

fn grants(alloc: Global) -> Result<Vec<Grant>, AllocError>
    ensures { IfOk result (λ grants. grants_of grants.items ≡ work_grant ∷ []) }
{
    let grant = Grant {
        name: Name::new(b"work"),
        path: work(alloc)?,
        operations: Vec::from_slice(alloc, &[Op::Look, Op::Read])?,
    };
    Ok(vec![in alloc; grant]?)
}

fn starts(alloc: Global) -> Result<Vec<Start>, AllocError>
    ensures { IfOk result (λ starts. starts_of starts.items ≡ small_start all_rights ∷ []) }
{
    let access = Access {
        readable: true,
        writable: false,
    };
    let file = FirstDescriptor {
        number: 2,
        object: FirstObject::Node { node: 2, access },
        rights: Rights::all(),
        fcntls: Fcntls::all(),
    };
    let start = Start {
        program: 0,
        mode: false,
        descriptors: vec![in alloc; file]?,
    };
    Ok(vec![in alloc; start]?)
}

/// Enters the mode and reads a byte.
fn enter_and_read(alloc: Global) -> Result<Program, AllocError>
    ensures { IfOk result (λ program. program ≡ enter_and_read) }
{
    let enter = Instruction::Invoke {
        call: Syscall::CapEnter,
        otherwise: 2,
    };
    let read = Instruction::Invoke {
        call: Syscall::Read {
            descriptor: Operand::Number(2),
        },
        otherwise: 2,
    };
    Ok(Program::new(vec![in alloc; enter, read, Instruction::Halt]?))
}

/// The example's task.
#[tactic(auto, unfolding(file_tree::specs::WellFormed::is_within_limits, file_tree::specs::Places::is_file_name))]
pub fn example_task(alloc: Global) -> Result<Task, AllocError>
    ensures { IfOk result (λ task. task ≡ first_plan) }
{
    let main = NamedProgram {
        name: Name::new(b"main"),
        program: enter_and_read(alloc)?,
        untrusted: false,
    };
    let programs = vec![in alloc; main]?;
    Ok(Task::new(
        nodes(alloc)?,
        grants(alloc)?,
        programs,
        starts(alloc)?,
        false,
    ))
}
