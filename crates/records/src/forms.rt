//! What the calls of Linux and of FreeBSD, by their names, are.

use crate::entries::Reason;
use crate::other_rights::OtherRight;
use crate::strace_texts::same_bytes;
use texts::Words;

/// How a call opens a file.
#[derive(Clone, Copy)]
pub(crate) enum Opening {
    /// A path, and flags.
    Plain,
    /// A directory, a path, and flags.
    At,
    /// A path: the file is made, and loses its bytes.
    Creat,
}

/// What a call does with the bytes of a descriptor.
#[derive(Clone, Copy)]
pub(crate) enum Streaming {
    Read,
    ReadAt,
    Write,
    WriteAt,
    SendMessage,
    ReceiveMessage,
    /// From a file to a socket: the second descriptor to the first, or in FreeBSD the first to the second.
    SendFile,
    /// From the first descriptor to the third argument's.
    Splice,
}

/// What a call does with a descriptor.
#[derive(Clone, Copy)]
pub(crate) enum OnDescriptor {
    Seek,
    Truncate,
    Sync,
    Status,
    Duplicate,
    DuplicateTo,
    Close,
    CloseRange,
    Fcntl,
    Ioctl,
    LimitRights,
    LimitCommands,
}

/// What a call does by a name.
#[derive(Clone, Copy)]
pub(crate) enum OnName {
    Status,
    StatusAt,
    MakeDirectory,
    MakeDirectoryAt,
    Remove,
    RemoveDirectory,
    RemoveAt,
    Rename,
    RenameAt,
}

/// What a call does with a process.
#[derive(Clone, Copy)]
pub(crate) enum OnProcess {
    Fork,
    Execute,
    End,
    EndThread,
    ChangeDirectory,
    ChangeDirectoryTo,
    ChangeRoot,
    EnterMode,
    GetMode,
}

/// What a call is.
#[derive(Clone, Copy)]
pub(crate) enum Form {
    Opens(Opening),
    Streams(Streaming),
    Descriptor(OnDescriptor),
    Name(OnName),
    /// It makes a pair, whose ends this argument tells.
    Pair(usize),
    /// It makes a descriptor of the world.
    World,
    /// It makes an end of a connection, which comes through the descriptor that is listened on.
    Connection,
    Process(OnProcess),
    /// It maps a file, or memory.
    Map,
    /// It waits for the descriptors of sets.
    Waits,
    /// It waits for those that a queue of events watches.
    WaitsForQueue,
    /// It has a queue of events watch a descriptor, or watch it no more.
    Watches,
    /// Both: it changes what a queue watches, and waits for it.
    ChangesQueue,
    /// It wants this right of the descriptor that this argument is.
    Wants(OtherRight, usize),
    /// It wants this right of the directory that is its first argument, or works on a global name.
    WantsAt(OtherRight),
    /// It works on a global name space, and wants this right of the descriptor that this argument is.
    WantsGlobal(OtherRight, usize),
    /// It has no counterpart, and wants this right of the descriptor that this argument is.
    WantsUnknown(OtherRight, usize),
    /// It is left out for this reason.
    LeftOut(Reason),
}

/// The calls of memory and of waiting for it, which have nothing to do with files or descriptors.
const QUIET_MEMORY: &[u8] =
    b"brk mprotect munmap mremap madvise mincore msync mlock mlock2 munlock mlockall munlockall membarrier pkey_mprotect pkey_alloc pkey_free \
    arch_prctl set_thread_area get_thread_area set_tid_address set_robust_list get_robust_list rseq futex futex_waitv";

/// The calls of signals, likewise.
const QUIET_SIGNALS: &[u8] =
    b"rt_sigaction rt_sigprocmask rt_sigreturn rt_sigpending rt_sigsuspend rt_sigtimedwait rt_sigqueueinfo rt_tgsigqueueinfo sigaltstack sigreturn \
    sigaction sigprocmask signal sigpending sigsuspend sigwait sigwaitinfo sigtimedwait sigqueue pause restart_syscall";

/// Those of time.
const QUIET_TIME: &[u8] =
    b"alarm setitimer getitimer timer_create timer_settime timer_gettime timer_delete timer_getoverrun nanosleep clock_nanosleep clock_gettime \
    clock_getres clock_settime clock_adjtime adjtimex gettimeofday settimeofday time times ktimer_create ktimer_settime ktimer_gettime \
    ktimer_delete ktimer_getoverrun adjtime";

/// Those of who a process is.
const QUIET_IDENTITY: &[u8] =
    b"getpid getppid gettid getpgrp getpgid setpgid getsid setsid getuid geteuid getgid getegid getresuid getresgid setuid setgid setreuid \
    setregid setresuid setresgid setfsuid setfsgid getgroups setgroups capget capset prctl procctl \
    getlogin setlogin setegid seteuid";

/// Those of limits and of when a process runs.
const QUIET_SCHEDULING: &[u8] =
    b"prlimit64 getrlimit setrlimit ugetrlimit getrusage getpriority setpriority nice ioprio_get ioprio_set sched_yield sched_getaffinity \
    sched_setaffinity sched_getparam sched_setparam sched_getscheduler sched_setscheduler sched_get_priority_max sched_get_priority_min \
    sched_getattr sched_setattr sched_rr_get_interval cpuset cpuset_getaffinity cpuset_setaffinity cpuset_getid cpuset_setid rtprio";

/// The others that have nothing to do with files or descriptors.
const QUIET_OTHERS: &[u8] =
    b"getrandom getcpu uname sysinfo umask personality getcwd tgkill tkill set_mempolicy get_mempolicy mbind seccomp timerfd_settime \
    timerfd_gettime landlock_create_ruleset landlock_add_rule landlock_restrict_self fadvise64 posix_fadvise readahead __sysctl __sysctlbyname sysarch issetugid \
    sigfastblock thr_self thr_exit thr_kill thr_set_name thr_wake thr_suspend rtprio_thread minherit _umtx_op __getcwd utrace getcontext setcontext";

/// The calls that work on a name from the root, and are none of the calls here.
const GLOBAL_NAMES: &[u8] =
    b"chmod lchmod chown lchown chown32 lchown32 chflags lchflags symlink symlinkat link readlink mknod mkfifo truncate truncate64 utime utimes \
    lutimes statfs statfs64 pathconf lpathconf eaccess shm_unlink";

/// Those of the attributes of what stands at such a name.
const GLOBAL_ATTRIBUTES: &[u8] =
    b"setxattr lsetxattr getxattr lgetxattr listxattr llistxattr removexattr lremovexattr";

/// The calls that work on the numbers of processes, and are none of the calls here.
const GLOBAL_PROCESSES: &[u8] =
    b"wait4 wait6 waitid waitpid kill pidfd_send_signal ptrace process_vm_readv process_vm_writev";

/// Those that work on the whole system.
const GLOBAL_SYSTEM: &[u8] =
    b"mount nmount unmount umount umount2 pivot_root unshare setns sethostname setdomainname reboot sync swapon swapoff syslog quotactl init_module finit_module \
    delete_module acct kldload kldunload kldfind kldnext kldstat jail jail_attach jail_get jail_set getfsstat ktrace";

/// Those that work on other global name spaces.
const GLOBAL_OTHERS: &[u8] =
    b"shmget shmat shmdt shmctl semget semop semtimedop semctl msgget msgsnd msgrcv msgctl inotify_add_watch inotify_rm_watch mq_unlink add_key \
    request_key keyctl name_to_handle_at vhangup";

/// The calls that are known, and have no counterpart.
const UNKNOWN: &[u8] =
    b"tee vmsplice io_setup io_submit io_getevents io_destroy io_cancel io_uring_enter io_uring_register \
    mq_timedsend mq_timedreceive fanotify_mark bpf pidfd_getfd process_mrelease __cap_rights_get cap_rights_get \
    cap_fcntls_get cap_ioctls_limit cap_ioctls_get";

/// The calls that work on files, descriptors and processes.
const CALLS: [(&[u8], Form); 50] = [
    (b"open", Form::Opens(Opening::Plain)),
    (b"openat openat2", Form::Opens(Opening::At)),
    (b"creat", Form::Opens(Opening::Creat)),
    (b"read readv recv recvfrom", Form::Streams(Streaming::Read)),
    (
        b"pread pread64 preadv preadv2",
        Form::Streams(Streaming::ReadAt),
    ),
    (b"write writev send sendto", Form::Streams(Streaming::Write)),
    (
        b"pwrite pwrite64 pwritev pwritev2",
        Form::Streams(Streaming::WriteAt),
    ),
    (b"sendmsg", Form::Streams(Streaming::SendMessage)),
    (b"recvmsg", Form::Streams(Streaming::ReceiveMessage)),
    (b"sendfile sendfile64", Form::Streams(Streaming::SendFile)),
    (b"splice copy_file_range", Form::Streams(Streaming::Splice)),
    (b"lseek _llseek", Form::Descriptor(OnDescriptor::Seek)),
    (
        b"ftruncate ftruncate64",
        Form::Descriptor(OnDescriptor::Truncate),
    ),
    (b"fsync fdatasync", Form::Descriptor(OnDescriptor::Sync)),
    (b"fstat fstat64", Form::Descriptor(OnDescriptor::Status)),
    (b"dup", Form::Descriptor(OnDescriptor::Duplicate)),
    (b"dup2 dup3", Form::Descriptor(OnDescriptor::DuplicateTo)),
    (b"close", Form::Descriptor(OnDescriptor::Close)),
    (
        b"close_range closefrom",
        Form::Descriptor(OnDescriptor::CloseRange),
    ),
    (b"fcntl fcntl64", Form::Descriptor(OnDescriptor::Fcntl)),
    (b"ioctl", Form::Descriptor(OnDescriptor::Ioctl)),
    (
        b"cap_rights_limit",
        Form::Descriptor(OnDescriptor::LimitRights),
    ),
    (
        b"cap_fcntls_limit",
        Form::Descriptor(OnDescriptor::LimitCommands),
    ),
    (
        b"stat stat64 lstat lstat64 access",
        Form::Name(OnName::Status),
    ),
    (
        b"newfstatat fstatat64 fstatat statx faccessat faccessat2",
        Form::Name(OnName::StatusAt),
    ),
    (b"mkdir", Form::Name(OnName::MakeDirectory)),
    (b"mkdirat", Form::Name(OnName::MakeDirectoryAt)),
    (b"unlink", Form::Name(OnName::Remove)),
    (b"rmdir", Form::Name(OnName::RemoveDirectory)),
    (b"unlinkat", Form::Name(OnName::RemoveAt)),
    (b"rename", Form::Name(OnName::Rename)),
    (b"renameat renameat2", Form::Name(OnName::RenameAt)),
    (b"socketpair", Form::Pair(3)),
    (b"pipe pipe2", Form::Pair(0)),
    (
        b"socket epoll_create epoll_create1 eventfd eventfd2 timerfd_create inotify_init inotify_init1 memfd_create signalfd signalfd4 kqueue pidfd_open userfaultfd \
            mq_open perf_event_open io_uring_setup fanotify_init memfd_secret kqueue1 shm_open shm_open2",
        Form::World,
    ),
    (b"accept accept4", Form::Connection),
    (
        b"fork vfork clone clone3 pdfork",
        Form::Process(OnProcess::Fork),
    ),
    (b"execve execveat", Form::Process(OnProcess::Execute)),
    (b"exit_group", Form::Process(OnProcess::End)),
    (b"exit", Form::Process(OnProcess::EndThread)),
    (b"chdir", Form::Process(OnProcess::ChangeDirectory)),
    (b"fchdir", Form::Process(OnProcess::ChangeDirectoryTo)),
    (b"chroot", Form::Process(OnProcess::ChangeRoot)),
    (b"cap_enter", Form::Process(OnProcess::EnterMode)),
    (b"cap_getmode", Form::Process(OnProcess::GetMode)),
    (b"mmap mmap2", Form::Map),
    (
        b"poll ppoll select _newselect pselect6 pselect",
        Form::Waits,
    ),
    (b"epoll_wait epoll_pwait epoll_pwait2", Form::WaitsForQueue),
    (b"epoll_ctl", Form::Watches),
    (b"kevent", Form::ChangesQueue),
];

/// Those that want a right which is none of the fourteen, or are left out.
const OTHERS: [(&[u8], Form); 48] = [
    (
        b"getdents getdents64 getdirentries",
        Form::Wants(OtherRight::Read, 0),
    ),
    (b"fchmod", Form::Wants(OtherRight::Fchmod, 0)),
    (b"fchflags", Form::Wants(OtherRight::Fchflags, 0)),
    (b"fpathconf", Form::Wants(OtherRight::Fpathconf, 0)),
    (b"fexecve", Form::Wants(OtherRight::Fexecve, 0)),
    (b"pdgetpid", Form::Wants(OtherRight::Pdgetpid, 0)),
    (b"pdkill", Form::Wants(OtherRight::Pdkill, 0)),
    (b"fchown", Form::Wants(OtherRight::Fchown, 0)),
    (b"flock", Form::Wants(OtherRight::Flock, 0)),
    (b"fstatfs", Form::Wants(OtherRight::Fstatfs, 0)),
    (b"futimes futimens", Form::Wants(OtherRight::Futimes, 0)),
    (b"listen", Form::Wants(OtherRight::Listen, 0)),
    (b"shutdown", Form::Wants(OtherRight::Shutdown, 0)),
    (b"setsockopt", Form::Wants(OtherRight::Setsockopt, 0)),
    (b"getsockopt", Form::Wants(OtherRight::Getsockopt, 0)),
    (b"getsockname", Form::Wants(OtherRight::Getsockname, 0)),
    (b"getpeername", Form::Wants(OtherRight::Getpeername, 0)),
    (b"sync_file_range", Form::Wants(OtherRight::Fsync, 0)),
    (
        b"fsetxattr fremovexattr",
        Form::Wants(OtherRight::ExtattrSet, 0),
    ),
    (
        b"fgetxattr flistxattr",
        Form::Wants(OtherRight::ExtattrGet, 0),
    ),
    (b"fchmodat fchmodat2", Form::WantsAt(OtherRight::Fchmodat)),
    (b"fchownat", Form::WantsAt(OtherRight::Fchownat)),
    (b"chflagsat", Form::WantsAt(OtherRight::Chflagsat)),
    (b"mkfifoat", Form::WantsAt(OtherRight::Mkfifoat)),
    (b"bindat", Form::WantsAt(OtherRight::Bindat)),
    (b"connectat", Form::WantsAt(OtherRight::Connectat)),
    (b"__realpathat", Form::WantsAt(OtherRight::Fstat)),
    (b"utimensat futimesat", Form::WantsAt(OtherRight::Futimesat)),
    (b"mknodat", Form::WantsAt(OtherRight::Mknodat)),
    (b"linkat", Form::WantsAt(OtherRight::Linkat)),
    (b"readlinkat", Form::WantsAt(OtherRight::Lookup)),
    (b"connect", Form::WantsGlobal(OtherRight::Connect, 0)),
    (b"bind", Form::WantsGlobal(OtherRight::Bind, 0)),
    (
        b"sendmmsg fallocate posix_fallocate",
        Form::WantsUnknown(OtherRight::Write, 0),
    ),
    (b"recvmmsg", Form::WantsUnknown(OtherRight::Read, 0)),
    (b"syncfs", Form::WantsUnknown(OtherRight::Fsync, 0)),
    (QUIET_MEMORY, Form::LeftOut(Reason::Quiet)),
    (QUIET_SIGNALS, Form::LeftOut(Reason::Quiet)),
    (QUIET_TIME, Form::LeftOut(Reason::Quiet)),
    (QUIET_IDENTITY, Form::LeftOut(Reason::Quiet)),
    (QUIET_SCHEDULING, Form::LeftOut(Reason::Quiet)),
    (QUIET_OTHERS, Form::LeftOut(Reason::Quiet)),
    (GLOBAL_NAMES, Form::LeftOut(Reason::Global)),
    (GLOBAL_ATTRIBUTES, Form::LeftOut(Reason::Global)),
    (GLOBAL_PROCESSES, Form::LeftOut(Reason::Global)),
    (GLOBAL_SYSTEM, Form::LeftOut(Reason::Global)),
    (GLOBAL_OTHERS, Form::LeftOut(Reason::Global)),
    (UNKNOWN, Form::LeftOut(Reason::Unknown)),
];

/// The first table.
fn calls() -> &'static [(&'static [u8], Form)] {
    &CALLS
}

/// The second table.
fn others() -> &'static [(&'static [u8], Form)] {
    &OTHERS
}

/// Whether a name is among these.
fn is_among(names: &[u8], name: &[u8]) -> bool {
    let mut words = Words::new(names);
    while let Some(word) = words.take() {
        if same_bytes(word, name) {
            return true;
        }
    }
    false
}

/// What a call is by these forms, if it is one of them.
fn form_among(forms: &[(&[u8], Form)], name: &[u8]) -> Option<Form> {
    for (names, form) in forms {
        if is_among(names, name) {
            return Some(*form);
        }
    }
    None
}

/// What a call is, by its name.
pub(crate) fn form_of(name: &[u8]) -> Form {
    if let Some(form) = form_among(calls(), name) {
        return form;
    }
    form_among(others(), name).unwrap_or(Form::LeftOut(Reason::Name))
}
