//! Instructions, with the system calls among them.

ghost use Rattle.std.specs.Prelude.{◌≡◌};
ghost use Rattle.rights.specs.Views.{call_of};
ghost use Rattle.instruction_set.specs.Programs.{called};
ghost use Rattle.instruction_set.specs.Views.{syscall_of};

use crate::operands::{Operand, Path, Register};
use rights::{Call, Fcntls, OpenFlags, Rights};

/// A system call with its operands.
#[derive(Drop, PartialEq, Eq)]
pub enum Syscall {
    /// Opens the path from the root. (open(2))
    Open {
        path: Path,
        flags: OpenFlags,
    },
    /// Opens the path beneath the directory. (openat(2))
    Openat {
        descriptor: Operand,
        path: Path,
        flags: OpenFlags,
    },
    /// Reads a byte. (read(2))
    Read {
        descriptor: Operand,
    },
    /// Writes the value's low byte. (write(2))
    Write {
        descriptor: Operand,
        value: Operand,
    },
    /// Sends the value's low byte and a copy of the descriptor `sent`. (sendmsg(2))
    Sendfd {
        descriptor: Operand,
        sent: Operand,
        value: Operand,
    },
    /// Takes a message's descriptor. (recvmsg(2))
    Recvfd {
        descriptor: Operand,
    },
    /// Sets the offset. (lseek(2))
    Lseek {
        descriptor: Operand,
        offset: Operand,
    },
    /// Sets the file's length. (ftruncate(2))
    Ftruncate {
        descriptor: Operand,
        len: Operand,
    },
    /// Has what was written stored. (fsync(2))
    Fsync {
        descriptor: Operand,
    },
    /// Asks what the object is. (fstat(2))
    Fstat {
        descriptor: Operand,
    },
    /// Asks for the status flags. (fcntl(2), F_GETFL)
    FcntlGetfl {
        descriptor: Operand,
    },
    /// Sets the status flags. (fcntl(2), F_SETFL)
    FcntlSetfl {
        descriptor: Operand,
        flags: Operand,
    },
    /// Asks what the node beneath the directory is. (fstatat(2))
    Fstatat {
        descriptor: Operand,
        path: Path,
    },
    /// Asks what the node is. (stat(2))
    Stat {
        path: Path,
    },
    /// Makes a directory beneath the directory. (mkdirat(2))
    Mkdirat {
        descriptor: Operand,
        path: Path,
    },
    /// Makes a directory. (mkdir(2))
    Mkdir {
        path: Path,
    },
    /// Removes the node beneath the directory; with `directory` a directory, else another. (unlinkat(2))
    Unlinkat {
        descriptor: Operand,
        path: Path,
        directory: bool,
    },
    /// Removes the node; with `directory` a directory, else another. (unlink(2), rmdir(2))
    Unlink {
        path: Path,
        directory: bool,
    },
    /// Renames the node beneath the directory to a place beneath the directory `target`. (renameat(2))
    Renameat {
        descriptor: Operand,
        path: Path,
        target: Operand,
        new_path: Path,
    },
    /// Copies the descriptor to the lowest free number. (dup(2))
    Dup {
        descriptor: Operand,
    },
    /// Frees the number. (close(2))
    Close {
        descriptor: Operand,
    },
    /// Leaves these rights alone. (cap_rights_limit(2))
    CapRightsLimit {
        descriptor: Operand,
        rights: Rights,
    },
    /// Leaves these fcntl commands alone. (cap_fcntls_limit(2))
    CapFcntlsLimit {
        descriptor: Operand,
        commands: Fcntls,
    },
    /// Enters capability mode. (cap_enter(2))
    CapEnter,
    /// Asks whether the process is in capability mode. (cap_getmode(2))
    CapGetmode,
    /// Makes a pair of sockets. (socketpair(2))
    Socketpair,
    /// Makes a child. (fork(2))
    Fork,
    /// Makes a call that needs the further right. (rights(4))
    Use {
        descriptor: Operand,
        right: Rights,
    },
}

impl Syscall {
    /// The call without its operands.
    pub fn call(&self) -> Call
        ensures { call_of result ≡ called (syscall_of self.now) }
    {
        match self {
            Syscall::Open { .. } => Call::Open,
            Syscall::Openat { .. } => Call::Openat,
            Syscall::Read { .. } => Call::Read,
            Syscall::Write { .. } => Call::Write,
            Syscall::Sendfd { .. } => Call::Sendfd,
            Syscall::Recvfd { .. } => Call::Recvfd,
            Syscall::Lseek { .. } => Call::Lseek,
            Syscall::Ftruncate { .. } => Call::Ftruncate,
            Syscall::Fsync { .. } => Call::Fsync,
            Syscall::Fstat { .. } => Call::Fstat,
            Syscall::FcntlGetfl { .. } => Call::FcntlGetfl,
            Syscall::FcntlSetfl { .. } => Call::FcntlSetfl,
            Syscall::Fstatat { .. } => Call::Fstatat,
            Syscall::Stat { .. } => Call::Stat,
            Syscall::Mkdirat { .. } => Call::Mkdirat,
            Syscall::Mkdir { .. } => Call::Mkdir,
            Syscall::Unlinkat { .. } => Call::Unlinkat,
            Syscall::Unlink { .. } => Call::Unlink,
            Syscall::Renameat { .. } => Call::Renameat,
            Syscall::Dup { .. } => Call::Dup,
            Syscall::Close { .. } => Call::Close,
            Syscall::CapRightsLimit { .. } => Call::CapRightsLimit,
            Syscall::CapFcntlsLimit { .. } => Call::CapFcntlsLimit,
            Syscall::CapEnter => Call::CapEnter,
            Syscall::CapGetmode => Call::CapGetmode,
            Syscall::Socketpair => Call::Socketpair,
            Syscall::Fork => Call::Fork,
            Syscall::Use { .. } => Call::Use,
        }
    }
}

/// An instruction. A target is a point of its program. (own)
#[derive(Drop, PartialEq, Eq)]
pub enum Instruction {
    /// Sets the register to the value.
    Set {
        register: Register,
        value: u32,
    },
    /// Sets the register to what the other holds.
    Mov {
        register: Register,
        source: Register,
    },
    /// Adds what the other register holds to the register, modulo 2^32.
    Add {
        register: Register,
        addend: Register,
    },
    /// Sets the register to the event's byte.
    In {
        register: Register,
    },
    /// Goes to the target.
    Jmp {
        target: u8,
    },
    /// Goes to the target if the register holds the value.
    Jeq {
        register: Register,
        value: u32,
        target: u8,
    },
    /// Goes to the target if the register holds less than the value.
    Jlt {
        register: Register,
        value: u32,
        target: u8,
    },
    /// Ends the process and closes its table.
    Halt,
    /// Makes the call, and goes to `otherwise` after an error.
    Invoke {
        call: Syscall,
        otherwise: u8,
    },
}
