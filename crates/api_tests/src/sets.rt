//! Rights and commands, as sets and by name.

use bitflags::Flags;
use rights::{Fcntls, Rights};

#[test]
fn rights_as_sets(rt: HostRuntime) {
    let read_write = Rights::READ.union(Rights::WRITE);
    assert!(rt; read_write.bits() == 0x0003);
    assert!(rt; read_write.contains(Rights::WRITE));
    assert!(rt; !read_write.contains(Rights::SEEK.union(Rights::READ)));
    assert!(rt; read_write.intersection(Rights::WRITE.union(Rights::LOOKUP)) == Rights::WRITE);
    assert!(rt; Rights::plain().bits() == 0x3fff);
    assert!(rt; Rights::further().bits() == 0x3fff_ffff_c000);
    assert!(rt; Rights::all().bits() == 0x3fff_ffff_ffff);
    assert!(rt; Rights::empty().bits() == 0);
}

#[test]
fn rights_by_name(rt: HostRuntime) {
    for (name, bits) in [
        ("READ", 0x0001),
        ("RECV", 0x0001),
        ("WRITE", 0x0002),
        ("SEND", 0x0002),
        ("SEEK", 0x0004),
        ("FTRUNCATE", 0x0008),
        ("FSYNC", 0x0010),
        ("FSTAT", 0x0020),
        ("FCNTL", 0x0040),
        ("LOOKUP", 0x0080),
        ("CREATE", 0x0100),
        ("FSTATAT", 0x0200),
        ("MKDIRAT", 0x0400),
        ("UNLINKAT", 0x0800),
        ("RENAMEAT_SOURCE", 0x1000),
        ("RENAMEAT_TARGET", 0x2000),
    ] {
        assert!(rt;
            Rights::from_name(name).map(|right| right.bits()) == Some(bits),
            "{name}"
        );
    }
    assert!(rt; Rights::from_name("CAP_READ") == None);
}

#[test]
fn commands_as_sets(rt: HostRuntime) {
    let both = Fcntls::GETFL.union(Fcntls::SETFL);
    assert!(rt; both.bits() == 3);
    assert!(rt; both == Fcntls::all());
    assert!(rt; both.contains(Fcntls::SETFL));
    assert!(rt; !Fcntls::GETFL.contains(Fcntls::SETFL));
    assert!(rt; both.intersection(Fcntls::SETFL) == Fcntls::SETFL);
    assert!(rt; Fcntls::empty().bits() == 0);
    assert!(rt; Fcntls::from_name("GETFL") == Some(Fcntls::GETFL));
    assert!(rt; Fcntls::from_name("SETFL") == Some(Fcntls::SETFL));
}
