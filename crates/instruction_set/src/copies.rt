//! Copies of instructions, for who has to keep one.

ghost use Rattle.std.specs.Prelude.{◌≡◌, IfOk, OnOk, false, true};
ghost use Rattle.instruction_set.specs.Paths.{calls_with_valid_paths, has_path, has_valid_paths};
ghost use Rattle.instruction_set.specs.Programs.{is_path};
ghost use Rattle.instruction_set.specs.Views.{instruction_of, syscall_of};

use crate::instructions::{Instruction, Syscall};
use crate::operands::Path;
use rights::Memory;
use std::alloc::Global;

impl Path {
    /// A copy. Want of memory alone keeps it from being made. (own)
    pub(crate) fn copy(&self, alloc: Global) -> Result<Path, Memory>
        ensures copy { IfOk result (λ copied. copied ≡ self.now) }
        ensures valid { OnOk result (is_path self.now ≡ true) }
    {
        let bytes = Vec::from_slice(alloc, self.bytes())?;
        Ok(Path::new(bytes))
    }
}

impl Syscall {
    /// A copy of a call that has no path.
    fn copy_plain(&self) -> Syscall
        requires { has_path (syscall_of self.now) ≡ false }
        ensures { syscall_of result ≡ syscall_of self.now }
    {
        match *self {
            Syscall::Read { descriptor } => Syscall::Read { descriptor },
            Syscall::Write { descriptor, value } => Syscall::Write { descriptor, value },
            Syscall::Sendfd {
                descriptor,
                sent,
                value,
            } => Syscall::Sendfd {
                descriptor,
                sent,
                value,
            },
            Syscall::Recvfd { descriptor } => Syscall::Recvfd { descriptor },
            Syscall::Lseek { descriptor, offset } => Syscall::Lseek { descriptor, offset },
            Syscall::Ftruncate { descriptor, len } => Syscall::Ftruncate { descriptor, len },
            Syscall::Fsync { descriptor } => Syscall::Fsync { descriptor },
            Syscall::Fstat { descriptor } => Syscall::Fstat { descriptor },
            Syscall::FcntlGetfl { descriptor } => Syscall::FcntlGetfl { descriptor },
            Syscall::FcntlSetfl { descriptor, flags } => Syscall::FcntlSetfl { descriptor, flags },
            Syscall::Dup { descriptor } => Syscall::Dup { descriptor },
            Syscall::Close { descriptor } => Syscall::Close { descriptor },
            Syscall::CapRightsLimit { descriptor, rights } => {
                Syscall::CapRightsLimit { descriptor, rights }
            }
            Syscall::CapFcntlsLimit {
                descriptor,
                commands,
            } => {
                Syscall::CapFcntlsLimit {
                    descriptor,
                    commands,
                }
            }
            Syscall::CapEnter => Syscall::CapEnter,
            Syscall::CapGetmode => Syscall::CapGetmode,
            Syscall::Socketpair => Syscall::Socketpair,
            Syscall::Fork => Syscall::Fork,
            Syscall::Use { descriptor, right } => Syscall::Use { descriptor, right },
            Syscall::Open { .. } | Syscall::Stat { .. } | Syscall::Mkdir { .. } => unreachable!(),
            Syscall::Openat { .. } | Syscall::Fstatat { .. } => unreachable!(),
            Syscall::Mkdirat { .. } | Syscall::Unlinkat { .. } => unreachable!(),
            Syscall::Unlink { .. } | Syscall::Renameat { .. } => unreachable!(),
        }
    }

    /// A copy. Want of memory alone keeps it from being made. (own)
    pub(crate) fn copy(&self, alloc: Global) -> Result<Syscall, Memory>
        ensures copy { IfOk result (λ copied. syscall_of copied ≡ syscall_of self.now) }
        ensures valid { OnOk result (has_valid_paths (syscall_of self.now) ≡ true) }
    {
        match self {
            Syscall::Open { path, flags } => {
                let path = path.copy(alloc)?;
                Ok(Syscall::Open {
                    path,
                    flags: *flags,
                })
            }
            Syscall::Openat {
                descriptor,
                path,
                flags,
            } => {
                let path = path.copy(alloc)?;
                Ok(Syscall::Openat {
                    descriptor: *descriptor,
                    path,
                    flags: *flags,
                })
            }
            Syscall::Fstatat { descriptor, path } => {
                let path = path.copy(alloc)?;
                Ok(Syscall::Fstatat {
                    descriptor: *descriptor,
                    path,
                })
            }
            Syscall::Stat { path } => {
                let path = path.copy(alloc)?;
                Ok(Syscall::Stat { path })
            }
            Syscall::Mkdirat { descriptor, path } => {
                let path = path.copy(alloc)?;
                Ok(Syscall::Mkdirat {
                    descriptor: *descriptor,
                    path,
                })
            }
            Syscall::Mkdir { path } => {
                let path = path.copy(alloc)?;
                Ok(Syscall::Mkdir { path })
            }
            Syscall::Unlinkat {
                descriptor,
                path,
                directory,
            } => {
                let path = path.copy(alloc)?;
                Ok(Syscall::Unlinkat {
                    descriptor: *descriptor,
                    path,
                    directory: *directory,
                })
            }
            Syscall::Unlink { path, directory } => {
                let path = path.copy(alloc)?;
                Ok(Syscall::Unlink {
                    path,
                    directory: *directory,
                })
            }
            Syscall::Renameat {
                descriptor,
                path,
                target,
                new_path,
            } => {
                let path = path.copy(alloc)?;
                let new_path = new_path.copy(alloc)?;
                Ok(Syscall::Renameat {
                    descriptor: *descriptor,
                    path,
                    target: *target,
                    new_path,
                })
            }
            Syscall::Read { .. }
            | Syscall::Write { .. }
            | Syscall::Sendfd { .. }
            | Syscall::Recvfd { .. }
            | Syscall::Lseek { .. }
            | Syscall::Ftruncate { .. }
            | Syscall::Fsync { .. }
            | Syscall::Fstat { .. }
            | Syscall::FcntlGetfl { .. }
            | Syscall::FcntlSetfl { .. }
            | Syscall::Dup { .. }
            | Syscall::Close { .. }
            | Syscall::CapRightsLimit { .. }
            | Syscall::CapFcntlsLimit { .. }
            | Syscall::CapEnter
            | Syscall::CapGetmode
            | Syscall::Socketpair
            | Syscall::Fork
            | Syscall::Use { .. } => Ok(self.copy_plain()),
        }
    }
}

impl Instruction {
    /// A copy. Want of memory alone keeps it from being made. (own)
    pub fn copy(&self, alloc: Global) -> Result<Instruction, Memory>
        ensures copy { IfOk result (λ copied. instruction_of copied ≡ instruction_of self.now) }
        ensures valid { OnOk result (calls_with_valid_paths (instruction_of self.now) ≡ true) }
    {
        match self {
            Instruction::Set { register, value } => Ok(Instruction::Set {
                register: *register,
                value: *value,
            }),
            Instruction::Mov { register, source } => Ok(Instruction::Mov {
                register: *register,
                source: *source,
            }),
            Instruction::Add { register, addend } => Ok(Instruction::Add {
                register: *register,
                addend: *addend,
            }),
            Instruction::In { register } => Ok(Instruction::In {
                register: *register,
            }),
            Instruction::Jmp { target } => Ok(Instruction::Jmp { target: *target }),
            Instruction::Jeq {
                register,
                value,
                target,
            } => Ok(Instruction::Jeq {
                register: *register,
                value: *value,
                target: *target,
            }),
            Instruction::Jlt {
                register,
                value,
                target,
            } => Ok(Instruction::Jlt {
                register: *register,
                value: *value,
                target: *target,
            }),
            Instruction::Halt => Ok(Instruction::Halt),
            Instruction::Invoke { call, otherwise } => {
                let call = call.copy(alloc)?;
                Ok(Instruction::Invoke {
                    call,
                    otherwise: *otherwise,
                })
            }
        }
    }
}
