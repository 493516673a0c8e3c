//! Words and numbers of the tables, and what they need of descriptors.

use rights::{Call, Cause, Errno, Memory, Op, OpenFlags, Position, Rights, Stop, needs};

#[test]
fn words_of_calls(rt: HostRuntime) {
    for (call, word) in [
        (Call::Open, "open"),
        (Call::Openat, "openat"),
        (Call::Read, "read"),
        (Call::Write, "write"),
        (Call::Sendfd, "sendfd"),
        (Call::Recvfd, "recvfd"),
        (Call::Lseek, "lseek"),
        (Call::Ftruncate, "ftruncate"),
        (Call::Fsync, "fsync"),
        (Call::Fstat, "fstat"),
        (Call::FcntlGetfl, "fcntl_getfl"),
        (Call::FcntlSetfl, "fcntl_setfl"),
        (Call::Fstatat, "fstatat"),
        (Call::Stat, "stat"),
        (Call::Mkdirat, "mkdirat"),
        (Call::Mkdir, "mkdir"),
        (Call::Unlinkat, "unlinkat"),
        (Call::Unlink, "unlink"),
        (Call::Renameat, "renameat"),
        (Call::Dup, "dup"),
        (Call::Close, "close"),
        (Call::CapRightsLimit, "cap_rights_limit"),
        (Call::CapFcntlsLimit, "cap_fcntls_limit"),
        (Call::CapEnter, "cap_enter"),
        (Call::CapGetmode, "cap_getmode"),
        (Call::Socketpair, "socketpair"),
        (Call::Fork, "fork"),
        (Call::Use, "use"),
    ] {
        assert!(rt; call.name() == word);
    }
}

#[test]
fn errors_by_number_and_name(rt: HostRuntime) {
    for (error, number, name) in [
        (Errno::EPERM, 1, "EPERM"),
        (Errno::ENOENT, 2, "ENOENT"),
        (Errno::EBADF, 9, "EBADF"),
        (Errno::EEXIST, 17, "EEXIST"),
        (Errno::ENOTDIR, 20, "ENOTDIR"),
        (Errno::EISDIR, 21, "EISDIR"),
        (Errno::EINVAL, 22, "EINVAL"),
        (Errno::ENFILE, 23, "ENFILE"),
        (Errno::EMFILE, 24, "EMFILE"),
        (Errno::EFBIG, 27, "EFBIG"),
        (Errno::ENOSPC, 28, "ENOSPC"),
        (Errno::EPIPE, 32, "EPIPE"),
        (Errno::EAGAIN, 35, "EAGAIN"),
        (Errno::ENOTSOCK, 38, "ENOTSOCK"),
        (Errno::ELOOP, 62, "ELOOP"),
        (Errno::ENAMETOOLONG, 63, "ENAMETOOLONG"),
        (Errno::ENOTEMPTY, 66, "ENOTEMPTY"),
        (Errno::ENOTCAPABLE, 93, "ENOTCAPABLE"),
        (Errno::ECAPMODE, 94, "ECAPMODE"),
    ] {
        assert!(rt; error.number() == number, "{name}");
        assert!(rt; error.name() == name);
    }
}

#[test]
fn names_of_causes(rt: HostRuntime) {
    for (cause, name) in [
        (Cause::CapMode, "CapMode"),
        (Cause::BadDescriptor, "BadDescriptor"),
        (Cause::MissingRight, "MissingRight"),
        (Cause::Kind, "Kind"),
        (Cause::Escape, "Escape"),
        (Cause::Path, "Path"),
        (Cause::Access, "Access"),
        (Cause::Full, "Full"),
        (Cause::Refused, "Refused"),
    ] {
        assert!(rt; cause.name() == name);
    }
}

#[test]
fn names_of_operations(rt: HostRuntime) {
    for (operation, name) in [
        (Op::Look, "look"),
        (Op::Read, "read"),
        (Op::Write, "write"),
        (Op::Create, "create"),
        (Op::Remove, "remove"),
    ] {
        assert!(rt; operation.name() == name);
    }
}

#[test]
fn a_list_of_operations(rt: HostRuntime) {
    let operations = [Op::Look, Op::Remove];
    assert!(rt; Op::Remove.is_listed(&operations));
    assert!(rt; !Op::Create.is_listed(&operations));
}

#[test]
fn needs_of_a_first_descriptor(rt: HostRuntime) {
    let flags = OpenFlags::new(true, true, false, true, true).expect(&rt, "valid flags");
    for (call, expected) in [
        (Call::Open, Rights::empty()),
        (Call::Read, Rights::READ),
        (Call::Write, Rights::WRITE),
        (Call::Sendfd, Rights::SEND),
        (Call::Recvfd, Rights::RECV),
        (Call::Lseek, Rights::SEEK),
        (Call::Ftruncate, Rights::FTRUNCATE),
        (Call::Fsync, Rights::FSYNC),
        (Call::Fstat, Rights::FSTAT),
        (Call::FcntlGetfl, Rights::FCNTL),
        (Call::FcntlSetfl, Rights::FCNTL),
        (Call::Fstatat, Rights::LOOKUP.union(Rights::FSTATAT)),
        (Call::Stat, Rights::empty()),
        (Call::Mkdirat, Rights::LOOKUP.union(Rights::MKDIRAT)),
        (Call::Mkdir, Rights::empty()),
        (Call::Unlinkat, Rights::LOOKUP.union(Rights::UNLINKAT)),
        (Call::Unlink, Rights::empty()),
        (
            Call::Renameat,
            Rights::LOOKUP.union(Rights::RENAMEAT_SOURCE),
        ),
        (Call::Dup, Rights::empty()),
        (Call::Close, Rights::empty()),
        (Call::CapRightsLimit, Rights::empty()),
        (Call::CapFcntlsLimit, Rights::empty()),
        (Call::CapEnter, Rights::empty()),
        (Call::CapGetmode, Rights::empty()),
        (Call::Socketpair, Rights::empty()),
        (Call::Fork, Rights::empty()),
    ] {
        assert!(rt; needs(call, flags, Position::First, true) == expected);
    }
}

#[test]
fn needs_of_a_second_descriptor(rt: HostRuntime) {
    let flags = OpenFlags::new(true, false, false, false, false).expect(&rt, "valid flags");
    let target = Rights::LOOKUP.union(Rights::RENAMEAT_TARGET);
    let replaced = target.union(Rights::UNLINKAT);
    assert!(rt; needs(Call::Renameat, flags, Position::Second, false) == target);
    assert!(rt; needs(Call::Renameat, flags, Position::Second, true) == replaced);
    assert!(rt; needs(Call::Sendfd, flags, Position::Second, false) == Rights::empty());
}

#[test]
fn needs_of_openat(rt: HostRuntime) {
    let look = Rights::LOOKUP;
    let write = look.union(Rights::WRITE);
    for (read, write, append, create, trunc, expected) in [
        (true, false, false, false, false, look.union(Rights::READ)),
        (false, true, false, false, false, write.union(Rights::SEEK)),
        (false, true, true, false, false, write),
        (
            false,
            true,
            false,
            false,
            true,
            write.union(Rights::FTRUNCATE),
        ),
        (
            false,
            true,
            true,
            false,
            true,
            write.union(Rights::FTRUNCATE),
        ),
        (
            true,
            false,
            false,
            true,
            false,
            look.union(Rights::READ).union(Rights::CREATE),
        ),
    ] {
        let flags = OpenFlags::new(read, write, append, create, trunc).expect(&rt, "valid flags");
        assert!(rt; needs(Call::Openat, flags, Position::First, false) == expected);
    }
}

#[test]
fn valid_flags(rt: HostRuntime) {
    for (read, write, append, create, trunc, valid) in [
        (true, false, false, false, false, true),
        (true, false, false, true, false, true),
        (false, true, true, true, true, true),
        (false, false, false, true, false, false),
        (true, false, true, false, false, false),
        (true, false, false, false, true, false),
    ] {
        let made = OpenFlags::new(read, write, append, create, trunc);
        assert!(rt; made.is_some() == valid);
        let Some(flags) = made else { continue };
        assert!(rt; (flags.read(), flags.write()) == (read, write));
        assert!(rt; (flags.append(), flags.create(), flags.trunc()) == (append, create, trunc));
    }
}

#[test]
fn numbers_of_stops(rt: HostRuntime) {
    for (stop, number) in [(Stop::Memory, 1), (Stop::Device, 2), (Stop::Spent, 3)] {
        assert!(rt; stop.number() == number);
    }
    assert!(rt; Stop::from(Memory) == Stop::Memory);
}
