//! Where the points of a program lead, by its text alone.

ghost use Rattle.std.specs.Prelude.{◌≡◌, ◌-◌, ◌^◌, ◌<◌, ◌==◌};
ghost use Rattle.std.specs.List.{list_any};
ghost use Rattle.instruction_set.specs.Successors.{always_succeeds, enters_mode, successors, successors_at};
ghost use Rattle.instruction_set.specs.Views.{code_of, instruction_of, successors_of, syscall_of};

use crate::instructions::{Instruction, Syscall};

/// The points that a point leads to, one or two of them or none.
#[derive(Clone, Copy)]
pub struct Successors {
    /// The next one.
    pub next: Option<usize>,
    /// That of its jump or its `else`.
    pub other: Option<usize>,
}

/// Whether a call never fails: entering the mode, and asking for it. (cap_enter(2), cap_getmode(2))
fn always_succeeds(call: &Syscall) -> bool
    ensures { result ≡ always_succeeds (syscall_of call.now) }
{
    match call {
        Syscall::CapEnter | Syscall::CapGetmode => true,
        Syscall::Open { .. } | Syscall::Openat { .. } | Syscall::Stat { .. } => false,
        Syscall::Read { .. } | Syscall::Write { .. } | Syscall::Lseek { .. } => false,
        Syscall::Sendfd { .. } | Syscall::Recvfd { .. } => false,
        Syscall::Ftruncate { .. } | Syscall::Fsync { .. } => false,
        Syscall::Fstat { .. } | Syscall::Fstatat { .. } => false,
        Syscall::FcntlGetfl { .. } | Syscall::FcntlSetfl { .. } => false,
        Syscall::Mkdirat { .. } | Syscall::Mkdir { .. } => false,
        Syscall::Unlinkat { .. } | Syscall::Unlink { .. } => false,
        Syscall::Renameat { .. } | Syscall::Dup { .. } | Syscall::Close { .. } => false,
        Syscall::CapRightsLimit { .. } | Syscall::CapFcntlsLimit { .. } => false,
        Syscall::Socketpair | Syscall::Fork | Syscall::Use { .. } => false,
    }
}

/// Whether an instruction enters capability mode. (cap_enter(2))
pub fn enters_mode(instruction: &Instruction) -> bool
    ensures { result ≡ enters_mode (instruction_of instruction.now) }
{
    matches!(
        instruction,
        Instruction::Invoke {
            call: Syscall::CapEnter,
            ..
        }
    )
}

/// Where an instruction at a point leads.
fn of_instruction(instruction: &Instruction, point: usize) -> Successors
    requires { point < 2 ^ 64 - 1 }
    ensures { successors_of result ≡ successors (instruction_of instruction.now) point }
{
    let next = Some(point + 1);
    match instruction {
        Instruction::Jmp { target } => Successors {
            next: None,
            other: Some(usize::from(*target)),
        },
        Instruction::Jeq { target, .. } | Instruction::Jlt { target, .. } => Successors {
            next,
            other: Some(usize::from(*target)),
        },
        Instruction::Halt => Successors {
            next: None,
            other: None,
        },
        Instruction::Invoke { call, otherwise } => {
            let other = if always_succeeds(call) {
                None
            } else {
                Some(usize::from(*otherwise))
            };
            Successors { next, other }
        }
        Instruction::Set { .. }
        | Instruction::Mov { .. }
        | Instruction::Add { .. }
        | Instruction::In { .. } => Successors { next, other: None },
    }
}

/// The points that a point of a program leads to, by its text alone: the next, and that of its jump or of its call's `else`. A halt leads
/// nowhere, and so does a point that the program hasn't; a call that never fails leads to its next point alone. (own)
pub fn successors_at(code: &[Instruction], point: usize) -> Successors
    ensures { successors_of result ≡ successors_at (code_of code.now) point }
{
    match code.get(point) {
        None => Successors {
            next: None,
            other: None,
        },
        Some(instruction) => of_instruction(instruction, point),
    }
}

impl Successors {
    /// Whether a point is one of them.
    pub fn has(&self, point: usize) -> bool
        ensures { result ≡ list_any (λ to. to == point) (successors_of self.now) }
    {
        self.next == Some(point) || self.other == Some(point)
    }
}
