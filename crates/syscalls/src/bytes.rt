//! Bytes and offsets: read, write, lseek and ftruncate.

ghost use Rattle.std.specs.Prelude.{◌%◌, ◌<◌, ◌≡◌, None, false, length, not};
ghost use Rattle.rights.specs.Errors.{ENOSPC, Refused};
ghost use Rattle.file_tree.specs.Nodes.{File, is_link, node};
ghost use Rattle.fd_table.specs.Descriptions.{message_of};
ghost use Rattle.fd_table.specs.Filled.{IsEndThere, IsNamed};
ghost use Rattle.fd_table.specs.Kept.{open_files};
ghost use Rattle.rights.specs.Views.{side_seen};
ghost use Rattle.fd_table.specs.Views.{access_seen};
ghost use Rattle.instruction_set.specs.Programs as programs;
ghost use Rattle.instruction_set.specs.Views.{operand_of};
ghost use Rattle.kernel.specs.Answers as answers;
ghost use Rattle.kernel.specs.Calls as model;
ghost use Rattle.syscalls.specs.AnswerViews.{Calls, Does, DoesFor, IsIdle, IsReadyAt, IsReadyDescription, value_at};

use crate::effects::Effects;
use crate::kernels::Kernel;
use crate::operands::{OpenNode, Target};
use crate::outcomes::{Refusal, Success, want_of_memory};
use fd_table::{DescriptionId, End};
use file_tree::{NodeId, Tree};
use instruction_set::Operand;
use rights::limits::MAX_BYTES;
use rights::{Call, Cause, Errno, Op};

/// What `read` tells at the end of a file, in place of a byte. (own)
pub(crate) const END: u32 = 256;

impl<T: Tree> Kernel<'_, T> {
    /// The offset of the description.
    fn offset_of(&self, description: DescriptionId) -> u16
        requires { IsNamed (open_files self.now.files.now) description }
        ensures { result ≡ ((open_files self.now.files.now).states description).offset }
    {
        self.files.what(description).offset
    }

    /// Reads a byte of a file. (read(2))
    #[tactic(auto, unfolding(kernel::specs::Answers::unless))]
    fn read_node(self, description: DescriptionId, found: OpenNode) -> Result<Success, Refusal>
        requires named { IsNamed (open_files self.files.now) description }
        requires ready { IsReadyDescription (T.nodes self.tree.now) (open_files self.files.now) description }
        requires there { found.node < length (T.nodes self.tree.now) }
        requires idle { IsIdle (open_files self.files.now) }
        ensures { DoesFor T.nodes self.entry self.exit.0.now self.exit.1.0.now result (λ w p s e. model.read_node w p s e description found.node (access_seen found.access)) }
    {
        if self.is_directory(found.node) {
            return Err(Refusal::Fails(Errno::EISDIR, Cause::Kind));
        }
        if !found.access.readable {
            return Err(Refusal::Fails(Errno::EBADF, Cause::Access));
        }
        let offset = self.offset_of(description);
        let effects = Effects::One(Op::Read, found.node);
        match self.tree.byte_at(found.node, offset as usize) {
            None => Ok(Success::with_effects(END, effects)),
            Some(byte) => {
                self.files.set_offset(description, offset + 1);
                Ok(Success::with_effects(byte as u32, effects))
            }
        }
    }

    /// Sets the offset of a description, at most to the greatest length of a file.
    #[tactic(auto, unfolding(kernel::specs::Answers::unless), using(crate::proofs::Tests::at_most, crate::proofs::Tests::above))]
    fn move_to(self, description: DescriptionId, to: Operand) -> Result<Success, Refusal>
        requires { IsNamed (open_files self.files.now) description }
        ensures { DoesFor T.nodes self.entry self.exit.0.now self.exit.1.0.now result (λ w p s e. model.seeks w p s e description (value_at self.entry to)) }
    {
        let offset = self.value_of(to);
        if offset as usize > MAX_BYTES {
            return Err(Refusal::Fails(Errno::EINVAL, Cause::Refused));
        }
        self.files.set_offset(description, offset as u16);
        Ok(Success::value(offset))
    }

    /// Sets the offset of a file, at most to the greatest length. (lseek(2))
    pub fn seek(self, operand: Operand, to: Operand) -> Result<Success, Refusal>
        requires { IsReadyAt T.nodes self }
        ensures { Calls T.nodes self.entry self.exit.0.now self.exit.1.0.now result (programs.Lseek (operand_of operand) (operand_of to)) }
    {
        let found = self.file_through(operand, Call::Lseek)?;
        self.move_to(found.held.description, to)
    }

    /// Reads a byte of a file, or takes a message. (read(2), recv(2))
    pub fn read(self, operand: Operand) -> Result<Success, Refusal>
        requires { IsReadyAt T.nodes self }
        ensures { Calls T.nodes self.entry self.exit.0.now self.exit.1.0.now result (programs.Read (operand_of operand)) }
    {
        let reached = self.reach(operand, Call::Read)?;
        let description = reached.held.description;
        let target = reached.target;
        match target {
            Target::Node(found) => self.read_node(description, found),
            Target::End(end) => self.read_end(description, &end),
        }
    }

    /// Where a write goes: to the end with append, else to the offset. (open(2), O_APPEND)
    fn write_offset(&self, description: DescriptionId, n: NodeId) -> usize
        requires named { IsNamed (open_files self.now.files.now) description }
        requires there { n < length (T.nodes self.now.tree.now) }
        ensures { result ≡ model.write_offset ((open_files self.now.files.now).states description) (node (T.nodes self.now.tree.now) n).content }
    {
        let description = self.files.what(description);
        if description.status.append {
            self.tree.len(n)
        } else {
            description.offset as usize
        }
    }

    /// Writes a byte into a file. (write(2))
    #[tactic(auto, unfolding(kernel::specs::Answers::unless), using(crate::proofs::Tests::below, crate::proofs::Tests::not_below))]
    fn write_node(
        self,
        description: DescriptionId,
        found: OpenNode,
        value: Operand,
    ) -> Result<Success, Refusal>
        requires named { IsNamed (open_files self.files.now) description }
        requires there { found.node < length (T.nodes self.tree.now) }
        requires opened { is_link (node (T.nodes self.tree.now) found.node).kind ≡ false }
        ensures { DoesFor T.nodes self.entry self.exit.0.now self.exit.1.0.now result
            (λ w p s e. model.write_node w p s e description found.node (access_seen found.access) (value_at self.entry value % 256)) }
    {
        if self.is_directory(found.node) {
            return Err(Refusal::Fails(Errno::EISDIR, Cause::Kind));
        }
        if !found.access.writable {
            return Err(Refusal::Fails(Errno::EBADF, Cause::Access));
        }
        let offset = self.write_offset(description, found.node);
        if offset >= MAX_BYTES {
            return Err(Refusal::Fails(Errno::EFBIG, Cause::Full));
        }
        if self.caller.refuse {
            return Err(Refusal::Fails(Errno::ENOSPC, Cause::Refused));
        }
        let byte = self.byte_of(value);
        self.tree
            .put_byte(found.node, offset, byte)
            .map_err(want_of_memory)?;
        self.files.set_offset(description, offset as u16 + 1);
        let effects = Effects::One(Op::Write, found.node);
        Ok(Success::with_effects(1, effects))
    }

    /// Cuts a file, or fills it up with zeros.
    #[tactic(auto, unfolding(kernel::specs::Answers::unless), using(crate::proofs::Tests::at_most, crate::proofs::Tests::above))]
    fn cut(self, file: OpenNode, to: Operand) -> Result<Success, Refusal>
        requires there { file.node < length (T.nodes self.tree.now) }
        requires file { (node (T.nodes self.tree.now) file.node).kind ≡ File }
        requires idle { IsIdle (open_files self.files.now) }
        ensures { DoesFor T.nodes self.entry self.exit.0.now self.exit.1.0.now result (λ w p s e. model.resizes w p s e file.node (access_seen file.access) (value_at self.entry to)) }
    {
        if !file.access.writable {
            return Err(Refusal::Fails(Errno::EINVAL, Cause::Access));
        }
        let len = self.value_of(to) as usize;
        if len > MAX_BYTES {
            return Err(Refusal::Fails(Errno::EFBIG, Cause::Full));
        }
        self.tree.truncate(file.node, len).map_err(want_of_memory)?;
        let effects = Effects::One(Op::Write, file.node);
        Ok(Success::with_effects(0, effects))
    }

    /// Sets a file's length. (ftruncate(2))
    pub fn truncate(self, operand: Operand, to: Operand) -> Result<Success, Refusal>
        requires { IsReadyAt T.nodes self }
        ensures { Calls T.nodes self.entry self.exit.0.now self.exit.1.0.now result (programs.Ftruncate (operand_of operand) (operand_of to)) }
    {
        let found = self.file_through(operand, Call::Ftruncate)?;
        self.cut(found.file, to)
    }

    /// Puts a byte into a socket, unless the kernel refuses. (send(2); that the kernel is asked before the other end is own)
    #[tactic(auto, unfolding(kernel::specs::Answers::unless))]
    fn write_socket(
        self,
        description: DescriptionId,
        end: &End,
        value: Operand,
    ) -> Result<Success, Refusal>
        requires named { IsNamed (open_files self.files.now) description }
        requires there { IsEndThere (open_files self.files.now) end.now.pair (side_seen end.now.side) }
        ensures { DoesFor T.nodes self.entry self.exit.0.now self.exit.1.0.now result (λ w p s e. answers.unless (not e.refuse) ENOSPC Refused
            (model.sent_end w p s e description end.now.pair (side_seen end.now.side) (message_of (value_at self.entry value % 256) None))) }
    {
        if self.caller.refuse {
            return Err(Refusal::Fails(Errno::ENOSPC, Cause::Refused));
        }
        let byte = self.byte_of(value);
        self.write_end(description, end, byte, None)
    }

    /// Writes a byte. (write(2), send(2))
    pub fn write(self, operand: Operand, value: Operand) -> Result<Success, Refusal>
        requires { IsReadyAt T.nodes self }
        ensures { Calls T.nodes self.entry self.exit.0.now self.exit.1.0.now result (programs.Write (operand_of operand) (operand_of value)) }
    {
        let reached = self.reach(operand, Call::Write)?;
        let description = reached.held.description;
        let target = reached.target;
        match target {
            Target::Node(found) => self.write_node(description, found, value),
            Target::End(end) => self.write_socket(description, &end, value),
        }
    }
}
