//! Sets of rights and of fcntl commands.

ghost use Rattle.std.specs.Prelude.{⊤, ◌≡◌, ◌↔◌, IsTrue, bit_and, bit_or};
ghost use Rattle.rights.specs.Sets.{IsWithin, all_commands, all_rights, both_parts, command_names, further_part, further_rights, is_within, plain_part, plain_rights, right_names};
ghost use Rattle.rights.specs.Uses.{asked_rights, noted_rights};

use crate::named_rights::NAMED_RIGHTS;
use bitflags::{Flag, Flags};

/// A set of rights on a descriptor. A clause sees the number that has bit k where right k is held: the
/// fourteen that every task may name come first, and then thirty-two further ones. (rights(4))
#[derive(Clone, Copy, PartialEq, Eq)]
pub struct Rights(pub(crate) u64);

impl Rights {
    /// To read, and to receive from a socket.
    pub const READ: Rights = Rights(0x0001);

    /// To write, and to send on a socket.
    pub const WRITE: Rights = Rights(0x0002);

    /// To set the offset, and to open a file that is written anywhere.
    pub const SEEK: Rights = Rights(0x0004);

    /// To set a file's length.
    pub const FTRUNCATE: Rights = Rights(0x0008);

    /// To have what was written stored.
    pub const FSYNC: Rights = Rights(0x0010);

    /// To ask what the object is.
    pub const FSTAT: Rights = Rights(0x0020);

    /// To ask for the status flags and to set them, as far as the fcntl commands allow.
    pub const FCNTL: Rights = Rights(0x0040);

    /// To start a path at the directory.
    pub const LOOKUP: Rights = Rights(0x0080);

    /// To create files beneath the directory by an open.
    pub const CREATE: Rights = Rights(0x0100);

    /// To ask what a node beneath the directory is.
    pub const FSTATAT: Rights = Rights(0x0200);

    /// To make directories beneath the directory.
    pub const MKDIRAT: Rights = Rights(0x0400);

    /// To remove nodes beneath the directory.
    pub const UNLINKAT: Rights = Rights(0x0800);

    /// To rename nodes that are beneath the directory.
    pub const RENAMEAT_SOURCE: Rights = Rights(0x1000);

    /// To rename nodes to places beneath the directory.
    pub const RENAMEAT_TARGET: Rights = Rights(0x2000);

    /// To take a connection that comes to the socket.
    pub const ACCEPT: Rights = Rights(0x4000);

    /// To give the socket a name.
    pub const BIND: Rights = Rights(0x8000);

    /// To connect the socket to an address.
    pub const CONNECT: Rights = Rights(0x10000);

    /// To connect to a socket that has a name beneath the directory.
    pub const CONNECTAT: Rights = Rights(0x20000);

    /// To be waited for by poll, select and kevent.
    pub const EVENT: Rights = Rights(0x40000);

    /// To become the working directory.
    pub const FCHDIR: Rights = Rights(0x80000);

    /// To set the flags of the file.
    pub const FCHFLAGS: Rights = Rights(0x100000);

    /// To set the mode of the file.
    pub const FCHMOD: Rights = Rights(0x200000);

    /// To set the mode of a file beneath the directory.
    pub const FCHMODAT: Rights = Rights(0x400000);

    /// To set the owner of the file.
    pub const FCHOWN: Rights = Rights(0x800000);

    /// To set the owner of a file beneath the directory.
    pub const FCHOWNAT: Rights = Rights(0x1000000);

    /// To be executed.
    pub const FEXECVE: Rights = Rights(0x2000000);

    /// To be locked.
    pub const FLOCK: Rights = Rights(0x4000000);

    /// To ask for the limits that hold for the file.
    pub const FPATHCONF: Rights = Rights(0x8000000);

    /// To ask for the file system that the file is on.
    pub const FSTATFS: Rights = Rights(0x10000000);

    /// To set the times of the file.
    pub const FUTIMES: Rights = Rights(0x20000000);

    /// To set the times of a file beneath the directory.
    pub const FUTIMESAT: Rights = Rights(0x40000000);

    /// To ask for the address at the other end.
    pub const GETPEERNAME: Rights = Rights(0x80000000);

    /// To ask for the socket's own address.
    pub const GETSOCKNAME: Rights = Rights(0x100000000);

    /// To ask for options of the socket.
    pub const GETSOCKOPT: Rights = Rights(0x200000000);

    /// To be asked and set by ioctl.
    pub const IOCTL: Rights = Rights(0x400000000);

    /// To change what the queue waits for.
    pub const KQUEUE_CHANGE: Rights = Rights(0x800000000);

    /// To take events from the queue.
    pub const KQUEUE_EVENT: Rights = Rights(0x1000000000);

    /// To have connections come to the socket.
    pub const LISTEN: Rights = Rights(0x2000000000);

    /// To be mapped for reading.
    pub const MMAP_R: Rights = Rights(0x4000000000);

    /// To be mapped for writing.
    pub const MMAP_W: Rights = Rights(0x8000000000);

    /// To be mapped for execution.
    pub const MMAP_X: Rights = Rights(0x10000000000);

    /// To ask for the number of the process.
    pub const PDGETPID: Rights = Rights(0x20000000000);

    /// To send the process a signal.
    pub const PDKILL: Rights = Rights(0x40000000000);

    /// To set options of the socket.
    pub const SETSOCKOPT: Rights = Rights(0x80000000000);

    /// To shut the connection down.
    pub const SHUTDOWN: Rights = Rights(0x100000000000);

    /// To have a terminal hooked.
    pub const TTYHOOK: Rights = Rights(0x200000000000);

    /// Another name of `READ`.
    pub const RECV: Rights = Rights::READ;
    /// Another name of `WRITE`.
    pub const SEND: Rights = Rights::WRITE;

    /// The set of no right.
    pub fn empty() -> Rights
        ensures { result.0 ≡ 0 }
    {
        <Rights as Flags>::empty()
    }

    /// The set of all.
    pub fn all() -> Rights
        ensures { result.0 ≡ all_rights }
    {
        Rights(0x3fff_ffff_ffff)
    }

    /// The set of the fourteen that every task may name.
    pub fn plain() -> Rights
        ensures { result.0 ≡ plain_rights }
    {
        Rights(0x3fff)
    }

    /// The set of the further rights, which a task may name that asks for them.
    pub fn further() -> Rights
        ensures { result.0 ≡ further_rights }
    {
        Rights(0x3fff_ffff_c000)
    }

    /// Which of the fourteen are in the set, by bit.
    pub fn plain_part(self) -> u16
        ensures { result ≡ plain_part self.0 }
    {
        (self.0 % 0x4000) as u16
    }

    /// Which of the further rights are in the set, by bit from 0.
    pub fn further_part(self) -> u32
        ensures { result ≡ further_part self.0 }
    {
        (self.0 / 0x4000 % 0x1_0000_0000) as u32
    }

    /// The set without the further rights, where all of these are in it: of a task that asks for none each set has all of them or
    /// none, and nothing is to be said of them. (own)
    pub fn noted(self) -> Rights
        ensures { result.0 ≡ noted_rights self.0 }
    {
        if self.contains(Rights::further()) {
            self.intersection(Rights::plain())
        } else {
            self
        }
    }

    /// Those of the set that a task asks about: all where it asks for further rights, and else those that every task may name. (own)
    pub fn asked(self, wide: bool) -> Rights
        ensures { result.0 ≡ asked_rights wide self.0 }
    {
        if wide {
            self
        } else {
            self.intersection(Rights::plain())
        }
    }

    /// The set with these of the fourteen, whose bits are below 14, and these of the further rights.
    pub fn of_parts(plain: u16, further: u32) -> Rights
        ensures { result.0 ≡ both_parts plain further }
    {
        Rights(u64::from(plain) + 0x4000 * u64::from(further))
    }

    /// Whether each right of `other` is in this set.
    pub fn contains(self, other: Rights) -> bool
        ensures computes { result ≡ is_within other.0 self.0 }
        ensures members { IsTrue result ↔ IsWithin other.0 self.0 }
    {
        <Rights as Flags>::contains(&self, other)
    }

    /// The rights that are in either set.
    pub fn union(self, other: Rights) -> Rights
        ensures { result.0 ≡ bit_or self.0 other.0 }
    {
        <Rights as Flags>::union(self, other)
    }

    /// The rights that are in both sets.
    pub fn intersection(self, other: Rights) -> Rights
        ensures { result.0 ≡ bit_and self.0 other.0 }
    {
        <Rights as Flags>::intersection(self, other)
    }
}

impl Flags for Rights {
    type Bits = u64;

    ghost exact = { ⊤ };

    ghost table = { right_names };

    ghost set_of = { λ rights. rights.0 };

    fn flags<'a>() -> &'a [Flag<Rights>] {
        &NAMED_RIGHTS
    }

    fn bits(&self) -> u64 {
        self.0
    }

    fn from_bits_retain(bits: u64) -> Rights {
        Rights(bits)
    }
}

/// A set of fcntl commands, which bounds what `fcntl` may do through a descriptor. A clause sees the
/// number that has bit k where command k is allowed. (cap_fcntls_limit(2), without the commands on
/// owners)
#[derive(Clone, Copy, PartialEq, Eq)]
pub struct Fcntls(u8);

const COMMANDS: [Flag<Fcntls>; 2] = [
    Flag {
        name: "GETFL",
        value: Fcntls(0x1),
    },
    Flag {
        name: "SETFL",
        value: Fcntls(0x2),
    },
];

impl Fcntls {
    /// To ask for the status flags, `F_GETFL`.
    pub const GETFL: Fcntls = Fcntls(0x1);

    /// To set the status flags, `F_SETFL`.
    pub const SETFL: Fcntls = Fcntls(0x2);

    /// The set of no command.
    pub fn empty() -> Fcntls
        ensures { result.0 ≡ 0 }
    {
        <Fcntls as Flags>::empty()
    }

    /// The set of both.
    pub fn all() -> Fcntls
        ensures { result.0 ≡ all_commands }
    {
        <Fcntls as Flags>::all()
    }

    /// Whether each command of `other` is in this set.
    pub fn contains(self, other: Fcntls) -> bool
        ensures computes { result ≡ is_within other.0 self.0 }
        ensures members { IsTrue result ↔ IsWithin other.0 self.0 }
    {
        <Fcntls as Flags>::contains(&self, other)
    }

    /// The commands that are in either set.
    pub fn union(self, other: Fcntls) -> Fcntls
        ensures { result.0 ≡ bit_or self.0 other.0 }
    {
        <Fcntls as Flags>::union(self, other)
    }

    /// The commands that are in both sets.
    pub fn intersection(self, other: Fcntls) -> Fcntls
        ensures { result.0 ≡ bit_and self.0 other.0 }
    {
        <Fcntls as Flags>::intersection(self, other)
    }
}

impl Flags for Fcntls {
    type Bits = u8;

    ghost exact = { ⊤ };

    ghost table = { command_names };

    ghost set_of = { λ commands. commands.0 };

    fn flags<'a>() -> &'a [Flag<Fcntls>] {
        &COMMANDS
    }

    fn bits(&self) -> u8 {
        self.0
    }

    fn from_bits_retain(bits: u8) -> Fcntls {
        Fcntls(bits)
    }
}
