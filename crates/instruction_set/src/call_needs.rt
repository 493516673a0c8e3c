//! What a system call needs of its first descriptor, whatever its process has open.

ghost use Rattle.std.specs.Prelude.{◌≡◌};
ghost use Rattle.instruction_set.specs.CallNeeds.{command_of, first_rights, flags_in, further_of};
ghost use Rattle.instruction_set.specs.Views.{syscall_of};

use crate::instructions::Syscall;
use rights::{Fcntls, OpenFlags, Position, Rights, command_needed, companions_of, needs};

impl Syscall {
    /// The flags that its needs go by.
    fn flags(&self) -> OpenFlags
        ensures { result ≡ flags_in (syscall_of self.now) }
    {
        match self {
            Syscall::Openat { flags, .. } => *flags,
            Syscall::Open { .. } | Syscall::Stat { .. } => OpenFlags::unused(),
            Syscall::Read { .. } | Syscall::Write { .. } | Syscall::Lseek { .. } => {
                OpenFlags::unused()
            }
            Syscall::Sendfd { .. } | Syscall::Recvfd { .. } => OpenFlags::unused(),
            Syscall::Ftruncate { .. } | Syscall::Fsync { .. } => OpenFlags::unused(),
            Syscall::Fstat { .. } | Syscall::Fstatat { .. } => OpenFlags::unused(),
            Syscall::FcntlGetfl { .. } | Syscall::FcntlSetfl { .. } => OpenFlags::unused(),
            Syscall::Mkdirat { .. } | Syscall::Mkdir { .. } => OpenFlags::unused(),
            Syscall::Unlinkat { .. } | Syscall::Unlink { .. } => OpenFlags::unused(),
            Syscall::Renameat { .. } | Syscall::Dup { .. } | Syscall::Close { .. } => {
                OpenFlags::unused()
            }
            Syscall::CapRightsLimit { .. } | Syscall::CapFcntlsLimit { .. } => OpenFlags::unused(),
            Syscall::CapEnter | Syscall::CapGetmode => OpenFlags::unused(),
            Syscall::Socketpair | Syscall::Fork | Syscall::Use { .. } => OpenFlags::unused(),
        }
    }

    /// The rights that it needs of its only descriptor, or of the first of two; none where it has no descriptor. (rights(4))
    pub fn first_rights(&self) -> Rights
        ensures { result.0 ≡ first_rights (syscall_of self.now) }
    {
        let right = self.further();
        if right == Rights::empty() {
            needs(self.call(), self.flags(), Position::First, false)
        } else {
            companions_of(right)
        }
    }

    /// The further right that it goes by; none where it goes by none. (rights(4))
    pub fn further(&self) -> Rights
        ensures { result.0 ≡ further_of (syscall_of self.now) }
    {
        match self {
            Syscall::Use { right, .. } => *right,
            Syscall::Open { .. } | Syscall::Openat { .. } | Syscall::Stat { .. } => Rights::empty(),
            Syscall::Read { .. } | Syscall::Write { .. } | Syscall::Lseek { .. } => Rights::empty(),
            Syscall::Sendfd { .. } | Syscall::Recvfd { .. } => Rights::empty(),
            Syscall::Ftruncate { .. } | Syscall::Fsync { .. } => Rights::empty(),
            Syscall::Fstat { .. } | Syscall::Fstatat { .. } => Rights::empty(),
            Syscall::FcntlGetfl { .. } | Syscall::FcntlSetfl { .. } => Rights::empty(),
            Syscall::Mkdirat { .. } | Syscall::Mkdir { .. } => Rights::empty(),
            Syscall::Unlinkat { .. } | Syscall::Unlink { .. } => Rights::empty(),
            Syscall::Renameat { .. } | Syscall::Dup { .. } | Syscall::Close { .. } => {
                Rights::empty()
            }
            Syscall::CapRightsLimit { .. } | Syscall::CapFcntlsLimit { .. } => Rights::empty(),
            Syscall::CapEnter | Syscall::CapGetmode => Rights::empty(),
            Syscall::Socketpair | Syscall::Fork => Rights::empty(),
        }
    }

    /// The fcntl command that it goes by; none where it goes by none. (cap_fcntls_limit(2))
    pub fn command(&self) -> Fcntls
        ensures { result.0 ≡ command_of (syscall_of self.now) }
    {
        command_needed(self.call())
    }
}
