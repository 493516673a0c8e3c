//! What a call may do, as a policy counts it.

ghost use Rattle.std.specs.Prelude.{◌≡◌, map, option_map};
ghost use Rattle.rights.specs.Views.{call_of, operation_of};
ghost use Rattle.call_facts.specs.Operations.{first_operations, opening, operation_alone};

use rights::{Call, Op, OpenFlags, Rights, operation_of_use};

/// What opening itself does.
fn opening(flags: OpenFlags) -> &'static [Op]
    ensures { map operation_of result.now ≡ opening flags }
{
    match (flags.create(), flags.trunc()) {
        (false, false) => &[],
        (true, false) => &[Op::Create],
        (false, true) => &[Op::Write],
        (true, true) => &[Op::Create, Op::Write],
    }
}

/// An operation, if there is one.
fn alone(operation: Option<Op>) -> &'static [Op]
    ensures { map operation_of result.now ≡ operation_alone (option_map operation_of operation) }
{
    match operation {
        None => &[],
        Some(Op::Look) => &[Op::Look],
        Some(Op::Read) => &[Op::Read],
        Some(Op::Write) => &[Op::Write],
        Some(Op::Create) => &[Op::Create],
        Some(Op::Remove) => &[Op::Remove],
    }
}

/// What a call may do to what its first descriptor is of, or beneath it, or from the root. `flags` are those of an open, and `right`
/// is the further right of a use; of other calls they are ignored.
pub fn first_operations(call: Call, flags: OpenFlags, right: Rights) -> &'static [Op]
    ensures { map operation_of result.now ≡ first_operations (call_of call) flags right.0 }
{
    match call {
        Call::Open | Call::Openat => opening(flags),
        Call::Read => &[Op::Read],
        Call::Write | Call::Ftruncate => &[Op::Write],
        Call::Fstat | Call::Fstatat | Call::Stat => &[Op::Look],
        Call::Mkdirat | Call::Mkdir => &[Op::Create],
        Call::Unlinkat | Call::Unlink | Call::Renameat => &[Op::Remove],
        Call::Sendfd | Call::Recvfd | Call::Lseek | Call::Fsync => &[],
        Call::FcntlGetfl | Call::FcntlSetfl | Call::Dup | Call::Close => &[],
        Call::CapRightsLimit | Call::CapFcntlsLimit | Call::CapEnter => &[],
        Call::CapGetmode | Call::Socketpair | Call::Fork => &[],
        Call::Use => alone(operation_of_use(right)),
    }
}
