//! Processes and their mode: fork, cap_enter and cap_getmode.

ghost use Rattle.std.specs.Prelude.{◌≡◌, None, Ok, ℕ};
ghost use Rattle.fd_table.specs.Descriptions.{bit_of};
ghost use Rattle.fd_table.specs.Kept.{open_files};
ghost use Rattle.instruction_set.specs.Programs as programs;
ghost use Rattle.syscalls.specs.AnswerViews.{Calls, IsReadyAt, Performs};

use crate::kernels::Kernel;
use crate::outcomes::{Besides, Refusal, Success};
use file_tree::Tree;
use rights::limits::MAX_PROCESSES;
use rights::{Cause, Errno};

/// What `cap_getmode` gives. (cap_getmode(2))
fn mode_number(mode: bool) -> u32
    ensures { result ≡ bit_of mode 1 }
{
    if mode { 1 } else { 0 }
}

impl<T: Tree> Kernel<'_, T> {
    /// Asks whether the process is in capability mode: 1 for yes. (cap_getmode(2))
    pub fn get_mode(self) -> Success
        requires { IsReadyAt T.nodes self }
        ensures { Calls T.nodes self.entry self.exit.0.now self.exit.1.0.now (Ok result) programs.Cap_getmode }
    {
        Success::value(mode_number(self.caller.process.mode()))
    }

    /// Enters capability mode, for good. (cap_enter(2))
    pub fn enter_mode(self) -> Success
        requires { IsReadyAt T.nodes self }
        ensures { Calls T.nodes self.entry self.exit.0.now self.exit.1.0.now (Ok result) programs.Cap_enter }
    {
        Success::besides(0, Besides::Mode)
    }

    /// Makes a child: a copy of its parent, the mode too, in which the call gives 0, with a copy of the parent's table.
    /// (fork(2), capsicum(4))
    pub fn fork(self) -> Result<Success, Refusal>
        requires ready { IsReadyAt T.nodes self }
        requires unmade { (n : ℕ) → (open_files self.files.now).table self.caller.made n ≡ None }
        ensures { Performs T.nodes self.entry self.entry.caller.process.now self.exit.0.now self.exit.1.0.now result programs.Fork }
    {
        let made = self.caller.made;
        if made >= MAX_PROCESSES {
            return Err(Refusal::Fails(Errno::EAGAIN, Cause::Full));
        }
        if self.caller.refuse {
            return Err(Refusal::Fails(Errno::EAGAIN, Cause::Refused));
        }
        let parent = self.caller.number;
        self.files.copy_table(parent, made as u8);
        Ok(Success::besides(made as u32, Besides::Child))
    }
}
