//! Each right by its name. (rights(4))

use crate::sets::Rights;
use bitflags::Flag;

/// Each right beside its name, by bit, and then the other names of the first two.
pub(crate) const NAMED_RIGHTS: [Flag<Rights>; 48] = [
    Flag {
        name: "READ",
        value: Rights(0x0001),
    },
    Flag {
        name: "WRITE",
        value: Rights(0x0002),
    },
    Flag {
        name: "SEEK",
        value: Rights(0x0004),
    },
    Flag {
        name: "FTRUNCATE",
        value: Rights(0x0008),
    },
    Flag {
        name: "FSYNC",
        value: Rights(0x0010),
    },
    Flag {
        name: "FSTAT",
        value: Rights(0x0020),
    },
    Flag {
        name: "FCNTL",
        value: Rights(0x0040),
    },
    Flag {
        name: "LOOKUP",
        value: Rights(0x0080),
    },
    Flag {
        name: "CREATE",
        value: Rights(0x0100),
    },
    Flag {
        name: "FSTATAT",
        value: Rights(0x0200),
    },
    Flag {
        name: "MKDIRAT",
        value: Rights(0x0400),
    },
    Flag {
        name: "UNLINKAT",
        value: Rights(0x0800),
    },
    Flag {
        name: "RENAMEAT_SOURCE",
        value: Rights(0x1000),
    },
    Flag {
        name: "RENAMEAT_TARGET",
        value: Rights(0x2000),
    },
    Flag {
        name: "ACCEPT",
        value: Rights(0x4000),
    },
    Flag {
        name: "BIND",
        value: Rights(0x8000),
    },
    Flag {
        name: "CONNECT",
        value: Rights(0x10000),
    },
    Flag {
        name: "CONNECTAT",
        value: Rights(0x20000),
    },
    Flag {
        name: "EVENT",
        value: Rights(0x40000),
    },
    Flag {
        name: "FCHDIR",
        value: Rights(0x80000),
    },
    Flag {
        name: "FCHFLAGS",
        value: Rights(0x100000),
    },
    Flag {
        name: "FCHMOD",
        value: Rights(0x200000),
    },
    Flag {
        name: "FCHMODAT",
        value: Rights(0x400000),
    },
    Flag {
        name: "FCHOWN",
        value: Rights(0x800000),
    },
    Flag {
        name: "FCHOWNAT",
        value: Rights(0x1000000),
    },
    Flag {
        name: "FEXECVE",
        value: Rights(0x2000000),
    },
    Flag {
        name: "FLOCK",
        value: Rights(0x4000000),
    },
    Flag {
        name: "FPATHCONF",
        value: Rights(0x8000000),
    },
    Flag {
        name: "FSTATFS",
        value: Rights(0x10000000),
    },
    Flag {
        name: "FUTIMES",
        value: Rights(0x20000000),
    },
    Flag {
        name: "FUTIMESAT",
        value: Rights(0x40000000),
    },
    Flag {
        name: "GETPEERNAME",
        value: Rights(0x80000000),
    },
    Flag {
        name: "GETSOCKNAME",
        value: Rights(0x100000000),
    },
    Flag {
        name: "GETSOCKOPT",
        value: Rights(0x200000000),
    },
    Flag {
        name: "IOCTL",
        value: Rights(0x400000000),
    },
    Flag {
        name: "KQUEUE_CHANGE",
        value: Rights(0x800000000),
    },
    Flag {
        name: "KQUEUE_EVENT",
        value: Rights(0x1000000000),
    },
    Flag {
        name: "LISTEN",
        value: Rights(0x2000000000),
    },
    Flag {
        name: "MMAP_R",
        value: Rights(0x4000000000),
    },
    Flag {
        name: "MMAP_W",
        value: Rights(0x8000000000),
    },
    Flag {
        name: "MMAP_X",
        value: Rights(0x10000000000),
    },
    Flag {
        name: "PDGETPID",
        value: Rights(0x20000000000),
    },
    Flag {
        name: "PDKILL",
        value: Rights(0x40000000000),
    },
    Flag {
        name: "SETSOCKOPT",
        value: Rights(0x80000000000),
    },
    Flag {
        name: "SHUTDOWN",
        value: Rights(0x100000000000),
    },
    Flag {
        name: "TTYHOOK",
        value: Rights(0x200000000000),
    },
    Flag {
        name: "RECV",
        value: Rights(0x0001),
    },
    Flag {
        name: "SEND",
        value: Rights(0x0002),
    },
];
