//! Rights of FreeBSD that a call which is left out wants.

ghost use Rattle.std.specs.Prelude.{◌≡◌, true};
ghost use Rattle.records.specs.Calls.{is_call_name};

use crate::strace_texts::is_name;
use bitflags::Flags;
use rights::Rights;

/// A right that a call wants of a descriptor. (rights(4))
#[derive(Clone, Copy, PartialEq, Eq)]
pub(crate) enum OtherRight {
    Accept,
    Bind,
    Bindat,
    Chflagsat,
    Connect,
    Connectat,
    Event,
    ExtattrGet,
    ExtattrSet,
    Fchdir,
    Fchflags,
    Fchmod,
    Fchmodat,
    Fchown,
    Fchownat,
    Fcntl,
    Fexecve,
    Flock,
    Fpathconf,
    Fstat,
    Fstatfs,
    Fsync,
    Ftruncate,
    Futimes,
    Futimesat,
    Getpeername,
    Getsockname,
    Getsockopt,
    Ioctl,
    KqueueChange,
    KqueueEvent,
    Linkat,
    Listen,
    Lookup,
    Mkfifoat,
    Mknodat,
    Mmap,
    MmapRead,
    MmapReadWrite,
    MmapAll,
    MmapReadExecute,
    MmapWrite,
    MmapWriteExecute,
    MmapExecute,
    Pdgetpid,
    Pdkill,
    Read,
    Seek,
    Setsockopt,
    Shutdown,
    Write,
}

/// The name of a right that a task may name.
fn name_of(right: Rights) -> &'static str
    ensures { is_call_name result.now ≡ true }
{
    match Flags::iter_names(&right).next() {
        Some((name, _)) if is_name(name.as_bytes()) => name,
        _ => "unknown",
    }
}

impl OtherRight {
    /// The name of the right, without `CAP_`.
    pub(crate) fn name(self) -> &'static str
        ensures { is_call_name result.now ≡ true }
    {
        match self {
            OtherRight::Accept => name_of(Rights::ACCEPT),
            OtherRight::Bind => name_of(Rights::BIND),
            OtherRight::Bindat => "BINDAT",
            OtherRight::Chflagsat => "CHFLAGSAT",
            OtherRight::Connect => name_of(Rights::CONNECT),
            OtherRight::Connectat => name_of(Rights::CONNECTAT),
            OtherRight::Event => name_of(Rights::EVENT),
            OtherRight::ExtattrGet => "EXTATTR_GET",
            OtherRight::ExtattrSet => "EXTATTR_SET",
            OtherRight::Fchdir => name_of(Rights::FCHDIR),
            OtherRight::Fchflags => name_of(Rights::FCHFLAGS),
            OtherRight::Fchmod => name_of(Rights::FCHMOD),
            OtherRight::Fchmodat => name_of(Rights::FCHMODAT),
            OtherRight::Fchown => name_of(Rights::FCHOWN),
            OtherRight::Fchownat => name_of(Rights::FCHOWNAT),
            OtherRight::Fcntl => name_of(Rights::FCNTL),
            OtherRight::Fexecve => name_of(Rights::FEXECVE),
            OtherRight::Flock => name_of(Rights::FLOCK),
            OtherRight::Fpathconf => name_of(Rights::FPATHCONF),
            OtherRight::Fstat => name_of(Rights::FSTAT),
            OtherRight::Fstatfs => name_of(Rights::FSTATFS),
            OtherRight::Fsync => name_of(Rights::FSYNC),
            OtherRight::Ftruncate => name_of(Rights::FTRUNCATE),
            OtherRight::Futimes => name_of(Rights::FUTIMES),
            OtherRight::Futimesat => name_of(Rights::FUTIMESAT),
            OtherRight::Getpeername => name_of(Rights::GETPEERNAME),
            OtherRight::Getsockname => name_of(Rights::GETSOCKNAME),
            OtherRight::Getsockopt => name_of(Rights::GETSOCKOPT),
            OtherRight::Ioctl => name_of(Rights::IOCTL),
            OtherRight::KqueueChange => name_of(Rights::KQUEUE_CHANGE),
            OtherRight::KqueueEvent => name_of(Rights::KQUEUE_EVENT),
            OtherRight::Linkat => "LINKAT_SOURCE",
            OtherRight::Listen => name_of(Rights::LISTEN),
            OtherRight::Lookup => name_of(Rights::LOOKUP),
            OtherRight::Mkfifoat => "MKFIFOAT",
            OtherRight::Mknodat => "MKNODAT",
            OtherRight::Mmap => "MMAP",
            OtherRight::MmapRead => name_of(Rights::MMAP_R),
            OtherRight::MmapReadWrite => "MMAP_RW",
            OtherRight::MmapAll => "MMAP_RWX",
            OtherRight::MmapReadExecute => "MMAP_RX",
            OtherRight::MmapWrite => name_of(Rights::MMAP_W),
            OtherRight::MmapWriteExecute => "MMAP_WX",
            OtherRight::MmapExecute => name_of(Rights::MMAP_X),
            OtherRight::Pdgetpid => name_of(Rights::PDGETPID),
            OtherRight::Pdkill => name_of(Rights::PDKILL),
            OtherRight::Read => name_of(Rights::READ),
            OtherRight::Seek => name_of(Rights::SEEK),
            OtherRight::Setsockopt => name_of(Rights::SETSOCKOPT),
            OtherRight::Shutdown => name_of(Rights::SHUTDOWN),
            OtherRight::Write => name_of(Rights::WRITE),
        }
    }
}
