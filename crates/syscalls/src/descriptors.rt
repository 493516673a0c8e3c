//! Descriptors: dup, close, the two limits, fcntl, fsync and fstat.

ghost use Rattle.std.specs.Prelude.{◌<◌, IfOk};
ghost use Rattle.fd_table.specs.Filled.{IsFreeAt, IsNamed};
ghost use Rattle.fd_table.specs.Kept.{open_files};
ghost use Rattle.fd_table.specs.OpenFiles as open_state;
ghost use Rattle.instruction_set.specs.Programs as programs;
ghost use Rattle.instruction_set.specs.Views.{operand_of};
ghost use Rattle.kernel.specs.Answers as answers;
ghost use Rattle.kernel.specs.Calls as model;
ghost use Rattle.syscalls.specs.AnswerViews.{Calls, DoesFor, IsReadyAt, Passes, held_at, need, number_seen, value_at};

use crate::kernels::Kernel;
use crate::operands::Target;
use crate::outcomes::{Refusal, Success};
use fd_table::{DescriptionId, Status};
use file_tree::Tree;
use instruction_set::Operand;
use rights::{Call, Cause, Errno, Fcntls, Rights};

/// What fstat tells of a socket. (own)
const SOCKET: u32 = 3;

impl<T: Tree> Kernel<'_, T> {
    /// The lowest number that is free. (open(2), EMFILE)
    #[tactic(auto, unfolding(kernel::specs::Answers::at_number))]
    pub fn free_number(&self) -> Result<u8, Refusal>
        requires { self.now.caller.number < 16 }
        ensures passes { Passes number_seen (answers.at_number (open_state.lowest_free ((open_files self.now.files.now).table self.now.caller.number))) result }
        ensures free { IfOk result (λ n. IsFreeAt (open_files self.now.files.now) self.now.caller.number n) }
    {
        match self.files.lowest_free(self.caller.number) {
            None => Err(Refusal::Fails(Errno::EMFILE, Cause::Full)),
            Some(number) => Ok(number),
        }
    }

    /// Copies a descriptor to the lowest free number. (dup(2))
    pub fn duplicate(self, operand: Operand) -> Result<Success, Refusal>
        requires { IsReadyAt T.nodes self }
        ensures { Calls T.nodes self.entry self.exit.0.now self.exit.1.0.now result (programs.Dup (operand_of operand)) }
    {
        let held = self.held(operand)?;
        let number = self.free_number()?;
        let process = self.caller.number;
        self.files.share(process, held.number, process, number);
        Ok(Success::value(number as u32))
    }

    /// Frees a number. (close(2))
    pub fn close(self, operand: Operand) -> Result<Success, Refusal>
        requires { IsReadyAt T.nodes self }
        ensures { Calls T.nodes self.entry self.exit.0.now self.exit.1.0.now result (programs.Close (operand_of operand)) }
    {
        let held = self.held(operand)?;
        let process = self.caller.number;
        self.files.close(process, held.number);
        Ok(Success::value(0))
    }

    /// Leaves a descriptor these rights, which it has to have. (cap_rights_limit(2))
    pub fn limit_rights(self, operand: Operand, rights: Rights) -> Result<Success, Refusal>
        requires { IsReadyAt T.nodes self }
        ensures { Calls T.nodes self.entry self.exit.0.now self.exit.1.0.now result (programs.Cap_rights_limit (operand_of operand) rights.0) }
    {
        let held = self.held(operand)?;
        if !held.rights.contains(rights) {
            return Err(Refusal::Fails(Errno::ENOTCAPABLE, Cause::MissingRight));
        }
        let process = self.caller.number;
        self.files.limit(process, held.number, rights, held.fcntls);
        Ok(Success::value(0))
    }

    /// Leaves a descriptor these fcntl commands, which it has to have. (cap_fcntls_limit(2))
    pub fn limit_fcntls(self, operand: Operand, commands: Fcntls) -> Result<Success, Refusal>
        requires { IsReadyAt T.nodes self }
        ensures { Calls T.nodes self.entry self.exit.0.now self.exit.1.0.now result (programs.Cap_fcntls_limit (operand_of operand) commands.0) }
    {
        let held = self.held(operand)?;
        if !held.fcntls.contains(commands) {
            return Err(Refusal::Fails(Errno::ENOTCAPABLE, Cause::MissingRight));
        }
        let process = self.caller.number;
        self.files
            .limit(process, held.number, held.rights, commands);
        Ok(Success::value(0))
    }

    /// Has what was written stored, which it is at once. (fsync(2); that a directory may be asked too is own)
    pub fn sync(self, operand: Operand) -> Result<Success, Refusal>
        requires { IsReadyAt T.nodes self }
        ensures { Calls T.nodes self.entry self.exit.0.now self.exit.1.0.now result (programs.Fsync (operand_of operand)) }
    {
        let reached = self.reach(operand, Call::Fsync)?;
        match reached.target {
            Target::End(_) => Err(Refusal::Fails(Errno::EINVAL, Cause::Kind)),
            Target::Node(_) => Ok(Success::value(0)),
        }
    }

    /// Asks what the object is. (fstat(2))
    pub fn stat_descriptor(self, operand: Operand) -> Result<Success, Refusal>
        requires { IsReadyAt T.nodes self }
        ensures { Calls T.nodes self.entry self.exit.0.now self.exit.1.0.now result (programs.Fstat (operand_of operand)) }
    {
        let reached = self.reach(operand, Call::Fstat)?;
        let target = reached.target;
        match target {
            Target::Node(found) => self.stat(found.node),
            Target::End(_) => Ok(Success::value(SOCKET)),
        }
    }

    /// The descriptor of an operand, if `fcntl` may do this through it. (fcntl(2), cap_fcntls_limit(2))
    #[tactic(auto, unfolding(kernel::specs::Answers::held, kernel::specs::Answers::unless))]
    fn commanded(
        &self,
        operand: Operand,
        call: Call,
        command: Fcntls,
    ) -> Result<DescriptionId, Refusal>
        requires { IsReadyAt T.nodes self.now }
        ensures passes { Passes number_seen (λ rest. answers.through (need call) (held_at self.now operand) (λ d. answers.commanded command.0 d (rest d.description))) result }
        ensures named { IfOk result (IsNamed (open_files self.now.files.now)) }
    {
        let held = self.through(operand, call)?;
        if !held.fcntls.contains(command) {
            return Err(Refusal::Fails(Errno::ENOTCAPABLE, Cause::MissingRight));
        }
        Ok(held.description)
    }

    /// Asks for the status flags. (fcntl(2), F_GETFL)
    pub fn get_flags(self, operand: Operand) -> Result<Success, Refusal>
        requires { IsReadyAt T.nodes self }
        ensures { Calls T.nodes self.entry self.exit.0.now self.exit.1.0.now result (programs.Fcntl_getfl (operand_of operand)) }
    {
        let description = self.commanded(operand, Call::FcntlGetfl, Fcntls::GETFL)?;
        let status = self.files.what(description).status;
        Ok(Success::value(status.number() as u32))
    }

    /// Sets the status flags of a description.
    #[tactic(auto, unfolding(kernel::specs::Answers::unless), using(crate::proofs::Tests::at_most, crate::proofs::Tests::above))]
    fn change_flags(self, description: DescriptionId, flags: Operand) -> Result<Success, Refusal>
        requires { IsNamed (open_files self.files.now) description }
        ensures { DoesFor T.nodes self.entry self.exit.0.now self.exit.1.0.now result (λ w p s e. model.sets_flags w p s e description (value_at self.entry flags)) }
    {
        let flags = self.value_of(flags);
        if flags > 3 {
            return Err(Refusal::Fails(Errno::EINVAL, Cause::Refused));
        }
        self.files.set_status(
            description,
            Status {
                append: flags % 2 == 1,
                nonblock: flags >= 2,
            },
        );
        Ok(Success::value(0))
    }

    /// Sets the status flags. (fcntl(2), F_SETFL)
    pub fn set_status(self, operand: Operand, flags: Operand) -> Result<Success, Refusal>
        requires { IsReadyAt T.nodes self }
        ensures { Calls T.nodes self.entry self.exit.0.now self.exit.1.0.now result (programs.Fcntl_setfl (operand_of operand) (operand_of flags)) }
    {
        let description = self.commanded(operand, Call::FcntlSetfl, Fcntls::SETFL)?;
        self.change_flags(description, flags)
    }
}
