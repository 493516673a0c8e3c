//! The calls, each with its method: what it answers, and what it does to the tree and to what is open.

ghost use Rattle.std.specs.Prelude.{◌≡◌, ℕ, None, Some, false};
ghost use Rattle.process.specs.Views.{walking_in};
ghost use Rattle.fd_table.specs.Kept.{open_files};
ghost use Rattle.instruction_set.specs.Paths.{has_path};
ghost use Rattle.instruction_set.specs.Views.{syscall_of};
ghost use Rattle.kernel.specs.Walks.{FitsIfWalking};
ghost use Rattle.syscalls.specs.AnswerViews.{IsReadyAt, Performs, state_with};

use crate::kernels::Kernel;
use crate::outcomes::{Refusal, Success};
use file_tree::Tree;
use instruction_set::Syscall;
use process::Walking;

impl<T: Tree> Kernel<'_, T> {
    /// What a call answers that has no path, and does.
    fn perform_pathless(self, call: &Syscall) -> Result<Success, Refusal>
        requires pathless { has_path (syscall_of call.now) ≡ false }
        requires ready { IsReadyAt T.nodes self }
        requires unmade { (n : ℕ) → (open_files self.files.now).table self.caller.made n ≡ None }
        ensures { Performs T.nodes self.entry self.entry.caller.process.now self.exit.0.now self.exit.1.0.now result (syscall_of call.now) }
    {
        match call {
            Syscall::Read { descriptor } => self.read(*descriptor),
            Syscall::Write { descriptor, value } => self.write(*descriptor, *value),
            Syscall::Lseek { descriptor, offset } => self.seek(*descriptor, *offset),
            Syscall::Ftruncate { descriptor, len } => self.truncate(*descriptor, *len),
            Syscall::Fsync { descriptor } => self.sync(*descriptor),
            Syscall::Fstat { descriptor } => self.stat_descriptor(*descriptor),
            Syscall::Sendfd {
                descriptor,
                sent,
                value,
            } => self.send_descriptor(*descriptor, *sent, *value),
            Syscall::Recvfd { descriptor } => self.receive_descriptor(*descriptor),
            Syscall::FcntlGetfl { descriptor } => self.get_flags(*descriptor),
            Syscall::FcntlSetfl { descriptor, flags } => self.set_status(*descriptor, *flags),
            Syscall::Dup { descriptor } => self.duplicate(*descriptor),
            Syscall::Close { descriptor } => self.close(*descriptor),
            Syscall::CapRightsLimit { descriptor, rights } => {
                self.limit_rights(*descriptor, *rights)
            }
            Syscall::CapFcntlsLimit {
                descriptor,
                commands,
            } => self.limit_fcntls(*descriptor, *commands),
            Syscall::CapEnter => Ok(self.enter_mode()),
            Syscall::CapGetmode => Ok(self.get_mode()),
            Syscall::Socketpair => self.make_pair(),
            Syscall::Fork => self.fork(),
            Syscall::Use { descriptor, right } => self.use_right(*descriptor, *right),
            Syscall::Open { .. } | Syscall::Stat { .. } | Syscall::Mkdir { .. } => unreachable!(),
            Syscall::Openat { .. } | Syscall::Fstatat { .. } => unreachable!(),
            Syscall::Mkdirat { .. } | Syscall::Unlinkat { .. } => unreachable!(),
            Syscall::Unlink { .. } | Syscall::Renameat { .. } => unreachable!(),
        }
    }

    /// What the call answers at this event, and does. What it has under way was taken out of its process.
    pub fn perform(self, call: &Syscall, walk: Option<Walking>) -> Result<Success, Refusal>
        requires ready { IsReadyAt T.nodes self }
        requires unmade { (n : ℕ) → (open_files self.files.now).table self.caller.made n ≡ None }
        requires rests { self.caller.process.now.walk ≡ None }
        requires fits { FitsIfWalking (T.nodes self.tree.now) (open_files self.files.now).objects ((open_files self.files.now).table self.caller.number) self.caller.process.now
            (Some (syscall_of call.now)) (walking_in walk) }
        ensures { Performs T.nodes self.entry (state_with self.entry.caller walk) self.exit.0.now self.exit.1.0.now result (syscall_of call.now) }
    {
        match call {
            Syscall::Open { path, flags } => self.open_path(path.bytes(), *flags, walk),
            Syscall::Openat {
                descriptor,
                path,
                flags,
            } => self.open_beneath(*descriptor, path.bytes(), *flags, walk),
            Syscall::Fstatat { descriptor, path } => {
                self.stat_beneath(*descriptor, path.bytes(), walk)
            }
            Syscall::Stat { path } => self.stat_path(path.bytes(), walk),
            Syscall::Mkdirat { descriptor, path } => {
                self.make_beneath(*descriptor, path.bytes(), walk)
            }
            Syscall::Mkdir { path } => self.make_path(path.bytes(), walk),
            Syscall::Unlinkat {
                descriptor,
                path,
                directory,
            } => self.remove_beneath(*descriptor, path.bytes(), *directory, walk),
            Syscall::Unlink { path, directory } => {
                self.remove_path(path.bytes(), *directory, walk)
            }
            Syscall::Renameat {
                descriptor,
                path,
                target,
                new_path,
            } => self.rename_beneath(*descriptor, path.bytes(), *target, new_path.bytes(), walk),
            _ => self.perform_pathless(call),
        }
    }
}
