//! What each call wants behind its word.

ghost use Rattle.rights.specs.Views.{call_of};
ghost use Rattle.prog_asm.specs.FormParts.{at_call_at, descriptor_call_at, operand_call_at, path_call_at};
ghost use Rattle.prog_asm.specs.FormViews.{TakesField};
ghost use Rattle.instruction_set.specs.Forms.{syscall_at};
ghost use Rattle.instruction_set.specs.Views.{operand_of, syscall_of};

use crate::forms::Words;
use crate::mistakes::Mistake;
use instruction_set::{Operand, Path, Syscall};
use rights::Call;

impl<'w, 't> Words<'w, 't> {
    /// The operands of a call behind its descriptor and its path. A call without these is refused.
    #[tactic(auto, unfolding(crate::specs::FormParts::at_call_at))]
    fn at_call(&mut self, call: Call, descriptor: Operand, path: Path) -> Result<Syscall, Mistake>
        ensures { TakesField syscall_of result self.new
            (at_call_at (call_of call) (operand_of descriptor) path self.old) }
    {
        Ok(match call {
            Call::Openat => Syscall::Openat {
                descriptor,
                path,
                flags: self.flags()?,
            },
            Call::Fstatat => Syscall::Fstatat { descriptor, path },
            Call::Mkdirat => Syscall::Mkdirat { descriptor, path },
            Call::Unlinkat => Syscall::Unlinkat {
                descriptor,
                path,
                directory: self.directory(),
            },
            Call::Renameat => Syscall::Renameat {
                descriptor,
                path,
                target: self.operand()?,
                new_path: self.path()?,
            },
            Call::Open
            | Call::Read
            | Call::Write
            | Call::Sendfd
            | Call::Recvfd
            | Call::Lseek
            | Call::Ftruncate
            | Call::Fsync
            | Call::Fstat
            | Call::FcntlGetfl
            | Call::FcntlSetfl
            | Call::Stat
            | Call::Mkdir
            | Call::Unlink
            | Call::Dup
            | Call::Close
            | Call::CapRightsLimit
            | Call::CapFcntlsLimit
            | Call::CapEnter
            | Call::CapGetmode
            | Call::Socketpair
            | Call::Fork
            | Call::Use => return Err(Mistake::Wrong),
        })
    }

    /// The operands of a call behind its descriptor and an operand more. A call without these is refused.
    #[tactic(auto, unfolding(crate::specs::FormParts::operand_call_at))]
    fn operand_call(
        &mut self,
        call: Call,
        descriptor: Operand,
        operand: Operand,
    ) -> Result<Syscall, Mistake>
        ensures { TakesField syscall_of result self.new
            (operand_call_at (call_of call) (operand_of descriptor) (operand_of operand) self.old) }
    {
        Ok(match call {
            Call::Write => Syscall::Write {
                descriptor,
                value: operand,
            },
            Call::Sendfd => Syscall::Sendfd {
                descriptor,
                sent: operand,
                value: self.operand()?,
            },
            Call::Lseek => Syscall::Lseek {
                descriptor,
                offset: operand,
            },
            Call::Ftruncate => Syscall::Ftruncate {
                descriptor,
                len: operand,
            },
            Call::FcntlSetfl => Syscall::FcntlSetfl {
                descriptor,
                flags: operand,
            },
            Call::Open
            | Call::Openat
            | Call::Read
            | Call::Recvfd
            | Call::Fsync
            | Call::Fstat
            | Call::FcntlGetfl
            | Call::Fstatat
            | Call::Stat
            | Call::Mkdirat
            | Call::Mkdir
            | Call::Unlinkat
            | Call::Unlink
            | Call::Renameat
            | Call::Dup
            | Call::Close
            | Call::CapRightsLimit
            | Call::CapFcntlsLimit
            | Call::CapEnter
            | Call::CapGetmode
            | Call::Socketpair
            | Call::Fork
            | Call::Use => return Err(Mistake::Wrong),
        })
    }

    /// The operands of a call behind its descriptor. A call that has no descriptor is refused.
    #[tactic(auto, unfolding(crate::specs::FormParts::descriptor_call_at, crate::specs::FormParts::operand_call_at))]
    fn descriptor_call(
        &mut self,
        wide: bool,
        call: Call,
        descriptor: Operand,
    ) -> Result<Syscall, Mistake>
        ensures { TakesField syscall_of result self.new
            (descriptor_call_at wide (call_of call) (operand_of descriptor) self.old) }
    {
        Ok(match call {
            Call::Read => Syscall::Read { descriptor },
            Call::Recvfd => Syscall::Recvfd { descriptor },
            Call::Fsync => Syscall::Fsync { descriptor },
            Call::Fstat => Syscall::Fstat { descriptor },
            Call::FcntlGetfl => Syscall::FcntlGetfl { descriptor },
            Call::Dup => Syscall::Dup { descriptor },
            Call::Close => Syscall::Close { descriptor },
            Call::CapRightsLimit => Syscall::CapRightsLimit {
                descriptor,
                rights: self.rights(wide)?,
            },
            Call::CapFcntlsLimit => Syscall::CapFcntlsLimit {
                descriptor,
                commands: self.commands()?,
            },
            Call::Use => Syscall::Use {
                descriptor,
                right: self.further_right()?,
            },
            Call::Write | Call::Sendfd | Call::Lseek | Call::Ftruncate | Call::FcntlSetfl => {
                let operand = self.operand()?;
                return self.operand_call(call, descriptor, operand);
            }
            Call::Open
            | Call::Openat
            | Call::Fstatat
            | Call::Stat
            | Call::Mkdirat
            | Call::Mkdir
            | Call::Unlinkat
            | Call::Unlink
            | Call::Renameat
            | Call::CapEnter
            | Call::CapGetmode
            | Call::Socketpair
            | Call::Fork => {
                let path = self.path()?;
                return self.at_call(call, descriptor, path);
            }
        })
    }

    /// The operands of a call behind its path. A call that does not begin with one is refused.
    fn path_call(&mut self, call: Call, path: Path) -> Result<Syscall, Mistake>
        ensures { TakesField syscall_of result self.new (path_call_at (call_of call) path self.old) }
    {
        Ok(match call {
            Call::Open => Syscall::Open {
                path,
                flags: self.flags()?,
            },
            Call::Stat => Syscall::Stat { path },
            Call::Mkdir => Syscall::Mkdir { path },
            Call::Unlink => Syscall::Unlink {
                path,
                directory: self.directory(),
            },
            Call::Openat
            | Call::Read
            | Call::Write
            | Call::Sendfd
            | Call::Recvfd
            | Call::Lseek
            | Call::Ftruncate
            | Call::Fsync
            | Call::Fstat
            | Call::FcntlGetfl
            | Call::FcntlSetfl
            | Call::Fstatat
            | Call::Mkdirat
            | Call::Unlinkat
            | Call::Renameat
            | Call::Dup
            | Call::Close
            | Call::CapRightsLimit
            | Call::CapFcntlsLimit
            | Call::CapEnter
            | Call::CapGetmode
            | Call::Socketpair
            | Call::Fork
            | Call::Use => return Err(Mistake::Wrong),
        })
    }

    /// The operands of a call, in the wide language or the other.
    #[tactic(auto, unfolding(instruction_set::specs::Forms::syscall_at, crate::specs::FormParts::descriptor_call_at, crate::specs::FormParts::operand_call_at, crate::specs::FormParts::at_call_at))]
    pub(crate) fn syscall(&mut self, wide: bool, call: Call) -> Result<Syscall, Mistake>
        ensures { TakesField syscall_of result self.new (syscall_at wide (call_of call) self.old) }
    {
        match call {
            Call::CapEnter => Ok(Syscall::CapEnter),
            Call::CapGetmode => Ok(Syscall::CapGetmode),
            Call::Socketpair => Ok(Syscall::Socketpair),
            Call::Fork => Ok(Syscall::Fork),
            Call::Open | Call::Stat | Call::Mkdir | Call::Unlink => {
                let path = self.path()?;
                self.path_call(call, path)
            }
            Call::Openat
            | Call::Read
            | Call::Write
            | Call::Sendfd
            | Call::Recvfd
            | Call::Lseek
            | Call::Ftruncate
            | Call::Fsync
            | Call::Fstat
            | Call::FcntlGetfl
            | Call::FcntlSetfl
            | Call::Fstatat
            | Call::Mkdirat
            | Call::Unlinkat
            | Call::Renameat
            | Call::Dup
            | Call::Close
            | Call::CapRightsLimit
            | Call::CapFcntlsLimit
            | Call::Use => {
                let descriptor = self.operand()?;
                self.descriptor_call(wide, call, descriptor)
            }
        }
    }
}
