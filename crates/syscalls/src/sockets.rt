//! Sockets: socketpair, what is sent and received, and descriptors that are passed (sendfd, recvfd).

ghost use Rattle.std.specs.Prelude.{◌<◌, ◌≡◌, if◌then◌else◌, option_map};
ghost use Rattle.rights.specs.Errors.{EAGAIN, Refused};
ghost use Rattle.rights.specs.Sides.{other_side};
ghost use Rattle.fd_table.specs.Filled.{IsEndThere, IsFreeAt, IsNamed, MayPass};
ghost use Rattle.fd_table.specs.Kept.{open_files};
ghost use Rattle.rights.specs.Views.{side_seen};
ghost use Rattle.fd_table.specs.Views.{class_seen, descriptor_seen};
ghost use Rattle.instruction_set.specs.Programs as programs;
ghost use Rattle.instruction_set.specs.Views.{operand_of};
ghost use Rattle.kernel.specs.Answers as answers;
ghost use Rattle.kernel.specs.Calls as model;
ghost use Rattle.syscalls.specs.AnswerViews.{Calls, DoesFor, IsIdle, IsReadyAt, Refuses};

use crate::bytes::END;
use crate::kernels::Kernel;
use crate::operands::{Target, need_of};
use crate::outcomes::{Besides, Refusal, Success};
use fd_table::{Class, DescriptionId, Descriptor, End, Entry, SendFault};
use file_tree::Tree;
use instruction_set::Operand;
use process::Process;
use rights::{Call, Cause, Errno};

/// Where the pair is made. Of a process of an untrusted program in capability mode its point says nothing. (own)
fn class_of(process: &Process) -> Class
    ensures { class_seen result ≡ model.own_class process.now }
{
    let program = process.program;
    if process.is_marked() && process.mode() {
        Class::MadeBy { program }
    } else {
        Class::MadeAt {
            program,
            point: process.point,
        }
    }
}

/// A call that can't go on waits, or fails if its socket is told not to block. (fcntl(2), O_NONBLOCK)
fn blocked(nonblock: bool) -> Refusal
    ensures { Refuses result (if nonblock then answers.Fails EAGAIN Refused else answers.Waits) }
{
    if nonblock {
        Refusal::Fails(Errno::EAGAIN, Cause::Refused)
    } else {
        Refusal::Waits
    }
}

impl<T: Tree> Kernel<'_, T> {
    /// Makes a pair of connected sockets with all rights, its ends under the two lowest free numbers. Register 1 has the
    /// second. (socketpair(2))
    #[tactic(auto, unfolding(kernel::specs::Calls::answer, kernel::specs::Answers::unless))]
    pub fn make_pair(self) -> Result<Success, Refusal>
        requires { self.caller.number < 16 }
        ensures { Calls T.nodes self.entry self.exit.0.now self.exit.1.0.now result programs.Socketpair }
    {
        let process = self.caller.number;
        let Some(first) = self.files.lowest_free(process) else {
            return Err(Refusal::Fails(Errno::EMFILE, Cause::Full));
        };
        let Some(second) = self.files.next_free(process, first) else {
            return Err(Refusal::Fails(Errno::EMFILE, Cause::Full));
        };
        if self.caller.refuse {
            return Err(Refusal::Fails(Errno::ENFILE, Cause::Refused));
        }
        let a = Entry {
            process,
            number: first,
        };
        let b = Entry {
            process,
            number: second,
        };
        let class = class_of(self.caller.process);
        self.files.open_pair(class, Some(a), Some(b))?;
        let besides = Besides::Second(second as u32);
        Ok(Success::besides(first as u32, besides))
    }

    /// Whether the description is told not to block.
    fn is_nonblocking(&self, description: DescriptionId) -> bool
        requires { IsNamed (open_files self.now.files.now) description }
        ensures { result ≡ ((open_files self.now.files.now).states description).nonblock }
    {
        self.files.what(description).status.nonblock
    }

    /// Takes the front message, whose descriptor is dropped. (recv(2); that the end of a pair reads as that of a file is own)
    pub fn read_end(self, description: DescriptionId, end: &End) -> Result<Success, Refusal>
        requires named { IsNamed (open_files self.files.now) description }
        requires there { IsEndThere (open_files self.files.now) end.now.pair (side_seen end.now.side) }
        requires idle { IsIdle (open_files self.files.now) }
        ensures { DoesFor T.nodes self.entry self.exit.0.now self.exit.1.0.now result
            (λ w p s e. model.read_end w p s e description end.now.pair (side_seen end.now.side) (w.files.queue end.now.pair (other_side (side_seen end.now.side)))) }
    {
        match self.files.front(*end) {
            None => {
                if self.files.is_open(end.pair, end.side.other()) {
                    return Err(blocked(self.is_nonblocking(description)));
                }
                Ok(Success::value(END))
            }
            Some(front) => {
                self.files.receive(*end);
                Ok(Success::value(front.byte as u32))
            }
        }
    }

    /// Puts a message behind what the end has sent. (send(2), EPIPE)
    pub fn write_end(
        self,
        description: DescriptionId,
        end: &End,
        byte: u8,
        passed: Option<Descriptor>,
    ) -> Result<Success, Refusal>
        requires named { IsNamed (open_files self.files.now) description }
        requires there { IsEndThere (open_files self.files.now) end.now.pair (side_seen end.now.side) }
        requires passed { MayPass (open_files self.files.now) (option_map descriptor_seen passed) }
        ensures { DoesFor T.nodes self.entry self.exit.0.now self.exit.1.0.now result (λ w p s e. model.sent_end w p s e description end.now.pair (side_seen end.now.side)
            (record { byte = byte; passed = option_map descriptor_seen passed })) }
    {
        let nonblock = self.is_nonblocking(description);
        match self.files.send(*end, byte, passed) {
            Ok(()) => Ok(Success::value(1)),
            Err(SendFault::Closed) => Err(Refusal::Fails(Errno::EPIPE, Cause::Refused)),
            Err(SendFault::Full) => Err(blocked(nonblock)),
            Err(SendFault::Memory) => Err(Refusal::Memory),
        }
    }

    /// Sends a byte with a copy of a descriptor, which keeps its rights. (sendmsg(2), SCM_RIGHTS; capsicum(4))
    #[tactic(auto, unfolding(kernel::specs::Calls::answer, kernel::specs::Answers::unless))]
    pub fn send_descriptor(
        self,
        operand: Operand,
        sent: Operand,
        value: Operand,
    ) -> Result<Success, Refusal>
        requires { IsReadyAt T.nodes self }
        ensures { Calls T.nodes self.entry self.exit.0.now self.exit.1.0.now result (programs.Sendfd (operand_of operand) (operand_of sent) (operand_of value)) }
    {
        let socket = self.held(operand)?;
        let passed = self.held(sent)?;
        if !socket.rights.contains(need_of(Call::Sendfd)) {
            return Err(Refusal::Fails(Errno::ENOTCAPABLE, Cause::MissingRight));
        }
        match self.target_of(socket.description) {
            Target::Node(_) => Err(Refusal::Fails(Errno::ENOTSOCK, Cause::Kind)),
            Target::End(end) => {
                let descriptor = Descriptor {
                    description: passed.description,
                    rights: passed.rights,
                    fcntls: passed.fcntls,
                };
                let byte = self.byte_of(value);
                self.write_end(socket.description, &end, byte, Some(descriptor))
            }
        }
    }

    /// Takes the descriptor of the front message to a free number. A message without one stays. (recvmsg(2), SCM_RIGHTS;
    /// that it stays is own)
    #[tactic(auto, unfolding(kernel::specs::Answers::unless))]
    fn receive_end(
        self,
        description: DescriptionId,
        end: &End,
        number: u8,
    ) -> Result<Success, Refusal>
        requires named { IsNamed (open_files self.files.now) description }
        requires there { IsEndThere (open_files self.files.now) end.now.pair (side_seen end.now.side) }
        requires free { IsFreeAt (open_files self.files.now) self.caller.number number }
        ensures { DoesFor T.nodes self.entry self.exit.0.now self.exit.1.0.now result (λ w p s e. model.receive_end w p s e description
            end.now.pair (side_seen end.now.side) number (w.files.queue end.now.pair (other_side (side_seen end.now.side)))) }
    {
        let front = match self.files.front(*end) {
            None => {
                if !self.files.is_open(end.pair, end.side.other()) {
                    return Err(Refusal::Fails(Errno::EINVAL, Cause::Refused));
                }
                return Err(blocked(self.is_nonblocking(description)));
            }
            Some(front) => front,
        };
        if !front.carries {
            return Err(Refusal::Fails(Errno::EINVAL, Cause::Refused));
        }
        let process = self.caller.number;
        self.files.receive_to(*end, process, number);
        Ok(Success::value(number as u32))
    }

    /// Receives a descriptor under the lowest free number. (recvmsg(2), SCM_RIGHTS)
    #[tactic(auto, unfolding(kernel::specs::Calls::answer))]
    pub fn receive_descriptor(self, operand: Operand) -> Result<Success, Refusal>
        requires { IsReadyAt T.nodes self }
        ensures { Calls T.nodes self.entry self.exit.0.now self.exit.1.0.now result (programs.Recvfd (operand_of operand)) }
    {
        let socket = self.through(operand, Call::Recvfd)?;
        match self.target_of(socket.description) {
            Target::Node(_) => Err(Refusal::Fails(Errno::ENOTSOCK, Cause::Kind)),
            Target::End(end) => {
                let number = self.free_number()?;
                self.receive_end(socket.description, &end, number)
            }
        }
    }
}
