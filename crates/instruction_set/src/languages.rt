//! The two languages of programs: the wide one has the call `use`, and limits that leave further rights too.

ghost use Rattle.std.specs.Prelude.{◌≡◌};
ghost use Rattle.instruction_set.specs.Languages.{is_spoken, speaks};
ghost use Rattle.instruction_set.specs.Views.{instruction_of, syscall_of};

use crate::instructions::{Instruction, Syscall};
use rights::Rights;

/// Whether a call is of the language, the wide one or the other.
fn speaks(wide: bool, call: &Syscall) -> bool
    ensures { result ≡ speaks wide (syscall_of call.now) }
{
    match call {
        Syscall::CapRightsLimit { rights, .. } => wide || Rights::plain().contains(*rights),
        Syscall::Use { .. } => wide,
        Syscall::Open { .. } | Syscall::Openat { .. } => true,
        Syscall::Read { .. } | Syscall::Write { .. } => true,
        Syscall::Sendfd { .. } | Syscall::Recvfd { .. } => true,
        Syscall::Lseek { .. } | Syscall::Ftruncate { .. } | Syscall::Fsync { .. } => true,
        Syscall::Fstat { .. } | Syscall::Fstatat { .. } | Syscall::Stat { .. } => true,
        Syscall::FcntlGetfl { .. } | Syscall::FcntlSetfl { .. } => true,
        Syscall::Mkdirat { .. } | Syscall::Mkdir { .. } => true,
        Syscall::Unlinkat { .. } | Syscall::Unlink { .. } | Syscall::Renameat { .. } => true,
        Syscall::Dup { .. } | Syscall::Close { .. } | Syscall::CapFcntlsLimit { .. } => true,
        Syscall::CapEnter | Syscall::CapGetmode | Syscall::Socketpair | Syscall::Fork => true,
    }
}

/// Whether an instruction is of the language, the wide one or the other. (own)
pub fn is_spoken(wide: bool, instruction: &Instruction) -> bool
    ensures { result ≡ is_spoken wide (instruction_of instruction.now) }
{
    match instruction {
        Instruction::Invoke { call, .. } => speaks(wide, call),
        Instruction::Set { .. } | Instruction::Mov { .. } | Instruction::Add { .. } => true,
        Instruction::In { .. } | Instruction::Jmp { .. } => true,
        Instruction::Jeq { .. } | Instruction::Jlt { .. } | Instruction::Halt => true,
    }
}
