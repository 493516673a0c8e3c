//! The system calls of the profile, by name.

ghost use Rattle.std.specs.Prelude.{◌≡◌};
ghost use Rattle.rights.specs.Calls.{call_name};
ghost use Rattle.rights.specs.Views.{call_of};

/// A system call, without its operands.
#[derive(Clone, Copy, PartialEq, Eq)]
pub enum Call {
    Open,
    Openat,
    Read,
    Write,
    Sendfd,
    Recvfd,
    Lseek,
    Ftruncate,
    Fsync,
    Fstat,
    FcntlGetfl,
    FcntlSetfl,
    Fstatat,
    Stat,
    Mkdirat,
    Mkdir,
    Unlinkat,
    Unlink,
    Renameat,
    Dup,
    Close,
    CapRightsLimit,
    CapFcntlsLimit,
    CapEnter,
    CapGetmode,
    Socketpair,
    Fork,
    Use,
}

impl Call {
    /// The call's word in a program, as `openat`.
    pub fn name(self) -> &'static str
        ensures { result.now ≡ call_name (call_of self) }
    {
        match self {
            Call::Open => "open",
            Call::Openat => "openat",
            Call::Read => "read",
            Call::Write => "write",
            Call::Sendfd => "sendfd",
            Call::Recvfd => "recvfd",
            Call::Lseek => "lseek",
            Call::Ftruncate => "ftruncate",
            Call::Fsync => "fsync",
            Call::Fstat => "fstat",
            Call::FcntlGetfl => "fcntl_getfl",
            Call::FcntlSetfl => "fcntl_setfl",
            Call::Fstatat => "fstatat",
            Call::Stat => "stat",
            Call::Mkdirat => "mkdirat",
            Call::Mkdir => "mkdir",
            Call::Unlinkat => "unlinkat",
            Call::Unlink => "unlink",
            Call::Renameat => "renameat",
            Call::Dup => "dup",
            Call::Close => "close",
            Call::CapRightsLimit => "cap_rights_limit",
            Call::CapFcntlsLimit => "cap_fcntls_limit",
            Call::CapEnter => "cap_enter",
            Call::CapGetmode => "cap_getmode",
            Call::Socketpair => "socketpair",
            Call::Fork => "fork",
            Call::Use => "use",
        }
    }
}
