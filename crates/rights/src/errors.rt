//! Errors, and why they come.

ghost use Rattle.std.specs.Prelude.{◌≡◌};
ghost use Rattle.rights.specs.Errors.{cause_name, errno_name, errno_number};
ghost use Rattle.rights.specs.Views.{cause_of, errno_of};

/// An error of a system call. `ENOTCAPABLE` and `ECAPMODE` are Capsicum's (rights(4)); where systems
/// number the others differently, this table decides.
#[derive(Clone, Copy, PartialEq, Eq)]
pub enum Errno {
    EPERM = 1,
    ENOENT = 2,
    EBADF = 9,
    EEXIST = 17,
    ENOTDIR = 20,
    EISDIR = 21,
    EINVAL = 22,
    ENFILE = 23,
    EMFILE = 24,
    EFBIG = 27,
    ENOSPC = 28,
    EPIPE = 32,
    EAGAIN = 35,
    ENOTSOCK = 38,
    ELOOP = 62,
    ENAMETOOLONG = 63,
    ENOTEMPTY = 66,
    ENOTCAPABLE = 93,
    ECAPMODE = 94,
}

impl Errno {
    /// The error's number, from 1 to 94: what register 7 gets.
    pub fn number(self) -> u8
        ensures { result ≡ errno_number (errno_of self) }
    {
        self as u8
    }

    /// The error's name as a trace prints it, as `ENOENT`.
    pub fn name(self) -> &'static str
        ensures { result.now ≡ errno_name (errno_of self) }
    {
        match self {
            Errno::EPERM => "EPERM",
            Errno::ENOENT => "ENOENT",
            Errno::EBADF => "EBADF",
            Errno::EEXIST => "EEXIST",
            Errno::ENOTDIR => "ENOTDIR",
            Errno::EISDIR => "EISDIR",
            Errno::EINVAL => "EINVAL",
            Errno::ENFILE => "ENFILE",
            Errno::EMFILE => "EMFILE",
            Errno::EFBIG => "EFBIG",
            Errno::ENOSPC => "ENOSPC",
            Errno::EPIPE => "EPIPE",
            Errno::EAGAIN => "EAGAIN",
            Errno::ENOTSOCK => "ENOTSOCK",
            Errno::ELOOP => "ELOOP",
            Errno::ENAMETOOLONG => "ENAMETOOLONG",
            Errno::ENOTEMPTY => "ENOTEMPTY",
            Errno::ENOTCAPABLE => "ENOTCAPABLE",
            Errno::ECAPMODE => "ECAPMODE",
        }
    }
}

/// Why a call fails. In a call the first cause that applies is the answer, in this order, where
/// `Escape` and `Path` have one place.
#[derive(Clone, Copy, PartialEq, Eq)]
pub enum Cause {
    /// A global name space in capability mode.
    CapMode,
    /// The descriptor is not open.
    BadDescriptor,
    /// A right or a command is not held.
    MissingRight,
    /// The descriptor's object is of the wrong kind.
    Kind,
    /// The path leads out of the descriptor's directory.
    Escape,
    /// The path leads to no fitting node.
    Path,
    /// The file was not opened for this access.
    Access,
    /// No number, node, byte or process is left.
    Full,
    /// The kernel refuses, as it may.
    Refused,
}

impl Cause {
    /// The cause's name as a trace prints it, as `MissingRight`.
    pub fn name(self) -> &'static str
        ensures { result.now ≡ cause_name (cause_of self) }
    {
        match self {
            Cause::CapMode => "CapMode",
            Cause::BadDescriptor => "BadDescriptor",
            Cause::MissingRight => "MissingRight",
            Cause::Kind => "Kind",
            Cause::Escape => "Escape",
            Cause::Path => "Path",
            Cause::Access => "Access",
            Cause::Full => "Full",
            Cause::Refused => "Refused",
        }
    }
}
