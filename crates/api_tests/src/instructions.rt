//! What no clause says: that texts are assembled where memory is there, each instruction once, and what faults are called.
//! What other texts come to is rows over the definitions, by computation.

use instruction_set::{Instruction, Path, Register, is_valid_path};
use prog_asm::{AsmFault, assemble};
use std::test::Fail;

#[test]
fn faults_have_numbers(rt: HostRuntime) {
    assert!(rt; AsmFault::TooMany(257).number() == 5);
    assert!(rt; AsmFault::Memory.number() == 7);
    assert!(rt; AsmFault::Memory.name() == "Memory");
    assert!(rt; AsmFault::Memory.line() == None);
}

/// One of each instruction.
const ALL: &str = "; one of each\n\
    start: set r0 4294967295\n\
    mov r1 r0\n\
    add r1 r7\n\
    in r2\n\
    jmp next\n\
    next: jeq r2 10 start\n\
    jlt r2 3 last\n\
    open \"/etc/passwd\" read else last\n\
    openat r0 \"a;b\" create,write,trunc else last\n\
    read r0 else last\n\
    write 1 r2 else last\n\
    sendfd 2 r0 65 else last\n\
    recvfd r3 else last\n\
    lseek r0 0 else last\n\
    ftruncate r0 4096 else last\n\
    fsync 3 else last\n\
    fstat 99 else last\n\
    fcntl_getfl 0 else last\n\
    fcntl_setfl 0 3 else last\n\
    fstatat 0 \"x\" else last\n\
    stat \"\" else last\n\
    mkdirat 0 \"d\" else last\n\
    mkdir \"/d\" else last\n\
    unlinkat 0 \"d\" dir else last\n\
    unlink \"/f\" else last\n\
    renameat 0 \"in\" r1 \"out\" else last\n\
    dup 0 else last\n\
    close r3 else last\n\
    cap_rights_limit 0 LOOKUP,READ else last\n\
    cap_fcntls_limit 0 GETFL else last\n\
    cap_enter else last\n\
    cap_getmode else last\n\
    socketpair else last\n\
    fork else last\n\
    last: halt";

#[test]
fn reads_each_instruction(rt: HostRuntime) -> Result<(), Fail> {
    let program = assemble(rt.alloc(), ALL)?;
    let code = program.code();
    assert!(rt; code.len() == 35);
    for (point, instruction) in code.iter().enumerate() {
        match instruction {
            Instruction::Set { register, value } => {
                assert!(rt; (point, register.number(), *value) == (0, 0, u32::MAX));
            }
            Instruction::Mov { register, source } => {
                assert!(rt; (point, register.number(), source.number()) == (1, 1, 0));
            }
            Instruction::Add { register, addend } => {
                assert!(rt; (point, register.number(), addend.number()) == (2, 1, 7));
            }
            Instruction::In { register } => assert!(rt; (point, register.number()) == (3, 2)),
            Instruction::Jmp { target } => assert!(rt; (point, *target) == (4, 5)),
            Instruction::Jeq {
                register,
                value,
                target,
            } => {
                assert!(rt; (point, register.number(), *value, *target) == (5, 2, 10, 0));
            }
            Instruction::Jlt {
                register,
                value,
                target,
            } => {
                assert!(rt; (point, register.number(), *value, *target) == (6, 2, 3, 34));
            }
            Instruction::Halt => assert!(rt; point == 34),
            Instruction::Invoke { call, otherwise } => {
                assert!(rt; *otherwise == 34);
                assert!(rt; CALLS.get(point).copied() == Some(call.call().name()));
            }
        }
    }
    Ok(())
}

/// The calls of `ALL` by point.
const CALLS: [&str; 34] = [
    "",
    "",
    "",
    "",
    "",
    "",
    "",
    "open",
    "openat",
    "read",
    "write",
    "sendfd",
    "recvfd",
    "lseek",
    "ftruncate",
    "fsync",
    "fstat",
    "fcntl_getfl",
    "fcntl_setfl",
    "fstatat",
    "stat",
    "mkdirat",
    "mkdir",
    "unlinkat",
    "unlink",
    "renameat",
    "dup",
    "close",
    "cap_rights_limit",
    "cap_fcntls_limit",
    "cap_enter",
    "cap_getmode",
    "socketpair",
    "fork",
];

#[test]
fn copies_each_instruction(rt: HostRuntime) -> Result<(), Fail> {
    let program = assemble(rt.alloc(), ALL)?;
    for instruction in program.code() {
        assert!(rt; instruction.copy(rt.alloc()).is_ok());
    }
    Ok(())
}

#[test]
fn makes_registers_and_paths(rt: HostRuntime) -> Result<(), Fail> {
    assert!(rt; Register::new(7).map(|register| register.number()) == Some(7));
    assert!(rt; Register::new(8) == None);
    assert!(rt; is_valid_path(b"/a~"));
    assert!(rt; !is_valid_path(b"a b") && !is_valid_path(b"\"") && !is_valid_path(b"\\"));
    assert!(rt; is_valid_path(b"../x"));
    let path = Path::new(Vec::from_slice(rt.alloc(), b"../x")?);
    assert!(rt; path.bytes() == b"../x".as_slice());
    Ok(())
}
