//! What each call needs of a descriptor's rights.

ghost use Rattle.std.specs.Prelude.{◌≡◌};
ghost use Rattle.rights.specs.Needs.{command_needed, first_needs, needs_of, openat_needs, second_needs, when};
ghost use Rattle.rights.specs.Views.{call_of, position_of};

use crate::calls::Call;
use crate::opens::OpenFlags;
use crate::sets::{Fcntls, Rights};

/// Which of a call's descriptors is asked: its only one or the first of two, or the second.
#[derive(Clone, Copy, PartialEq, Eq)]
pub enum Position {
    First,
    Second,
}

/// The rights that the descriptor at this position must have for the call; none where the call has
/// no such descriptor. `flags` are those of `openat`, and `replaces` says of the second descriptor of
/// `renameat` that a node is replaced in it; where they say nothing they are ignored. What
/// `use` needs goes by its operand. (rights(4))
pub fn needs(call: Call, flags: OpenFlags, position: Position, replaces: bool) -> Rights
    ensures { result.0 ≡ needs_of (call_of call) flags (position_of position) replaces }
{
    match position {
        Position::First => of_first(call, flags),
        Position::Second => of_second(call, replaces),
    }
}

/// The needs of the only descriptor, or of the first of two.
fn of_first(call: Call, flags: OpenFlags) -> Rights
    ensures { result.0 ≡ first_needs (call_of call) flags }
{
    match call {
        Call::Openat => of_openat(flags),
        Call::Read | Call::Recvfd => Rights::READ,
        Call::Write | Call::Sendfd => Rights::WRITE,
        Call::Lseek => Rights::SEEK,
        Call::Ftruncate => Rights::FTRUNCATE,
        Call::Fsync => Rights::FSYNC,
        Call::Fstat => Rights::FSTAT,
        Call::FcntlGetfl | Call::FcntlSetfl => Rights::FCNTL,
        Call::Fstatat => Rights::LOOKUP.union(Rights::FSTATAT),
        Call::Mkdirat => Rights::LOOKUP.union(Rights::MKDIRAT),
        Call::Unlinkat => Rights::LOOKUP.union(Rights::UNLINKAT),
        Call::Renameat => Rights::LOOKUP.union(Rights::RENAMEAT_SOURCE),
        Call::Open | Call::Stat | Call::Mkdir | Call::Unlink => Rights::empty(),
        Call::Dup | Call::Close | Call::CapRightsLimit | Call::CapFcntlsLimit => Rights::empty(),
        Call::CapEnter | Call::CapGetmode | Call::Socketpair | Call::Fork => Rights::empty(),
        Call::Use => Rights::empty(),
    }
}

/// The needs of the second descriptor.
fn of_second(call: Call, replaces: bool) -> Rights
    ensures { result.0 ≡ second_needs (call_of call) replaces }
{
    match call {
        Call::Renameat => Rights::LOOKUP
            .union(Rights::RENAMEAT_TARGET)
            .union(when(replaces, Rights::UNLINKAT)),
        Call::Open | Call::Openat | Call::Read | Call::Write => Rights::empty(),
        Call::Sendfd | Call::Recvfd | Call::Lseek | Call::Ftruncate => Rights::empty(),
        Call::Fsync | Call::Fstat | Call::FcntlGetfl | Call::FcntlSetfl => Rights::empty(),
        Call::Fstatat | Call::Stat | Call::Mkdirat | Call::Mkdir => Rights::empty(),
        Call::Unlinkat | Call::Unlink | Call::Dup | Call::Close => Rights::empty(),
        Call::CapRightsLimit | Call::CapFcntlsLimit | Call::CapEnter => Rights::empty(),
        Call::CapGetmode | Call::Socketpair | Call::Fork | Call::Use => Rights::empty(),
    }
}

/// The needs of the directory of `openat`.
fn of_openat(flags: OpenFlags) -> Rights
    ensures { result.0 ≡ openat_needs flags }
{
    let seeks = flags.write() && !(flags.append() || flags.trunc());
    Rights::LOOKUP
        .union(when(flags.read(), Rights::READ))
        .union(when(flags.write(), Rights::WRITE))
        .union(when(seeks, Rights::SEEK))
        .union(when(flags.create(), Rights::CREATE))
        .union(when(flags.trunc(), Rights::FTRUNCATE))
}

/// The right where it is asked for, and else none.
fn when(asked: bool, right: Rights) -> Rights
    ensures { result.0 ≡ when asked right.0 }
{
    if asked { right } else { Rights::empty() }
}

/// The fcntl command that a call goes by; none where it goes by none. (cap_fcntls_limit(2))
pub fn command_needed(call: Call) -> Fcntls
    ensures { result.0 ≡ command_needed (call_of call) }
{
    match call {
        Call::FcntlGetfl => Fcntls::GETFL,
        Call::FcntlSetfl => Fcntls::SETFL,
        Call::Open | Call::Openat | Call::Read | Call::Write => Fcntls::empty(),
        Call::Sendfd | Call::Recvfd | Call::Lseek | Call::Ftruncate => Fcntls::empty(),
        Call::Fsync | Call::Fstat | Call::Fstatat | Call::Stat => Fcntls::empty(),
        Call::Mkdirat | Call::Mkdir | Call::Unlinkat | Call::Unlink => Fcntls::empty(),
        Call::Renameat | Call::Dup | Call::Close | Call::CapRightsLimit => Fcntls::empty(),
        Call::CapFcntlsLimit | Call::CapEnter | Call::CapGetmode | Call::Socketpair =>
            Fcntls::empty(),
        Call::Fork | Call::Use => Fcntls::empty(),
    }
}
