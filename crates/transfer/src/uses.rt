//! Which slots a call goes through, and what it needs of each.

ghost use Rattle.std.specs.Prelude.{◌≡◌, ◌∷◌, [], Some, false, is_some, option_map, true};
ghost use Rattle.rights.specs.Uses.{operation_of_use};
ghost use Rattle.rights.specs.Operations.{Remove};
ghost use Rattle.rights.specs.Views.{operation_of};
ghost use Rattle.instruction_set.specs.Views.{operand_of, syscall_of};
ghost use Rattle.rules.specs.Needs.{Received, Sent, listed_operation, moving_to, needs, through_none, no_need, through_one, open_operations, operation_if};
ghost use Rattle.transfer.specs.Views.{need_of, needs_in, operation_list, through_of};

use instruction_set::{Operand, Syscall};
use rights::{Call, Fcntls, Op, OpenFlags, Position, Rights, operation_of_use};

/// What a call does with descriptors and the channel of a socket.
#[derive(Clone, Copy)]
pub enum Passed {
    Nothing,
    /// It sends a slot of this operand.
    Sent(Operand),
    /// It receives.
    Received,
}

/// What a call needs of each slot that an operand may name. (own)
#[derive(Clone, Copy)]
pub struct Need {
    /// The rights that it needs.
    pub rights: Rights,
    /// The fcntl commands that it needs.
    pub commands: Fcntls,
    /// The further right that it needs.
    pub further: Rights,
    /// What a limit keeps, which has to be there.
    pub kept_rights: Rights,
    pub kept_commands: Fcntls,
    /// It works on what the slot is of, so in capability mode that has to be known.
    pub works: bool,
    /// What it may do to the slot's node, or beneath it.
    pub operation: Option<Op>,
    pub other_operation: Option<Op>,
    /// It may make, remove or rename names beneath the slot.
    pub changes_names: bool,
    /// Where it may move such a name to.
    pub targets: Option<Operand>,
    pub passed: Passed,
}

/// An operand that a call goes through, and what it needs of each slot that the operand may name.
#[derive(Clone, Copy)]
pub struct Through {
    pub operand: Operand,
    pub need: Need,
}

/// The operands that a call goes through.
#[derive(Clone, Copy)]
pub struct Needs {
    pub first: Option<Through>,
    pub second: Option<Through>,
}

impl Need {
    /// The slot is named, and nothing else is asked of it.
    fn nothing() -> Need
        ensures { need_of result ≡ no_need }
    {
        Need {
            rights: Rights::empty(),
            commands: Fcntls::empty(),
            further: Rights::empty(),
            kept_rights: Rights::empty(),
            kept_commands: Fcntls::empty(),
            works: false,
            operation: None,
            other_operation: None,
            changes_names: false,
            targets: None,
            passed: Passed::Nothing,
        }
    }
}

/// A call through one operand.
fn one(operand: Operand, need: Need) -> Needs
    ensures { needs_in result ≡ through_one (operand_of operand) (need_of need) }
{
    Needs {
        first: Some(Through { operand, need }),
        second: None,
    }
}

/// A call through none.
fn none() -> Needs
    ensures { needs_in result ≡ through_none }
{
    Needs {
        first: None,
        second: None,
    }
}

/// The operation, if it is asked for.
fn operation_if(asked: bool, operation: Op) -> Option<Op>
    ensures { operation_list result ≡ operation_if asked (operation_of operation) }
{
    if asked { Some(operation) } else { None }
}

/// A need of these rights.
fn needing(rights: Rights) -> Need
    ensures { need_of result ≡ record no_need { rights = rights.0 } }
{
    Need {
        rights,
        ..Need::nothing()
    }
}

/// A need of a call that works on what the descriptor is of, by an operation if it is one of the policy's.
fn working(rights: Rights, operation: Option<Op>) -> Need
    ensures { need_of result ≡ record no_need { rights = rights.0; works = true; operations = operation_list operation } }
{
    Need {
        works: true,
        operation,
        ..needing(rights)
    }
}

/// A need of a call that makes or removes a name there.
fn naming(rights: Rights, operation: Op) -> Need
    ensures { need_of result ≡ record no_need {
      rights = rights.0;
      works = true;
      operations = operation_of operation ∷ [];
      changes_names = true;
    } }
{
    Need {
        changes_names: true,
        ..working(rights, Some(operation))
    }
}

/// The need of an open through a directory.
fn opening(rights: Rights, flags: OpenFlags) -> Need
    ensures { need_of result ≡ record no_need {
      rights = rights.0;
      works = true;
      operations = open_operations flags;
      changes_names = flags.create;
    } }
{
    Need {
        works: true,
        operation: operation_if(flags.create(), Op::Create),
        other_operation: operation_if(flags.trunc(), Op::Write),
        changes_names: flags.create(),
        ..needing(rights)
    }
}

/// The need of a move of its second descriptor, whose node it may replace.
fn moving_to() -> Need
    ensures { need_of result ≡ moving_to }
{
    let rights = rights::needs(Call::Renameat, OpenFlags::unused(), Position::Second, true);
    Need {
        works: true,
        operation: Some(Op::Create),
        other_operation: Some(Op::Remove),
        changes_names: true,
        ..needing(rights)
    }
}

/// The need of a send of a slot of this operand.
fn sending(rights: Rights, sent: Operand) -> Need
    ensures { need_of result ≡ record no_need { rights = rights.0; works = true; passed = Sent (operand_of sent) } }
{
    Need {
        passed: Passed::Sent(sent),
        ..working(rights, None)
    }
}

/// The need of a receive.
fn receiving(rights: Rights) -> Need
    ensures { need_of result ≡ record no_need { rights = rights.0; works = true; passed = Received } }
{
    Need {
        passed: Passed::Received,
        ..working(rights, None)
    }
}

/// The need of a call that goes by an fcntl command. (cap_fcntls_limit(2))
fn commanding(rights: Rights, commands: Fcntls) -> Need
    ensures { need_of result ≡ record no_need { rights = rights.0; commands = commands.0 } }
{
    Need {
        commands,
        ..needing(rights)
    }
}

/// The need of a call that goes by a further right. (rights(4))
fn using(rights: Rights, right: Rights) -> Need
    ensures { need_of result ≡ record no_need {
      rights = rights.0;
      further = right.0;
      works = is_some (operation_of_use right.0);
      operations = listed_operation (operation_of_use right.0);
    } }
{
    let operation = operation_of_use(right);
    Need {
        further: right,
        works: operation.is_some(),
        operation,
        ..needing(rights)
    }
}

/// The need of a limit that keeps these. (cap_rights_limit(2), cap_fcntls_limit(2))
fn keeping(kept_rights: Rights, kept_commands: Fcntls) -> Need
    ensures { need_of result ≡ record no_need { kept_rights = kept_rights.0; kept_commands = kept_commands.0 } }
{
    Need {
        kept_rights,
        kept_commands,
        ..Need::nothing()
    }
}

/// The need of a move of its first descriptor: names go to slots of the second.
fn moving_from(rights: Rights, target: Operand) -> Need
    ensures { need_of result ≡ record no_need {
      rights = rights.0;
      works = true;
      operations = Remove ∷ [];
      changes_names = true;
      targets = Some (operand_of target);
    } }
{
    Need {
        targets: Some(target),
        ..naming(rights, Op::Remove)
    }
}

/// A move, from slots of one operand to slots of another.
fn moving(rights: Rights, descriptor: &Operand, target: &Operand) -> Needs
    ensures first { option_map through_of result.first
        ≡ Some (record {
          operand = operand_of descriptor.now;
          need = record no_need {
            rights = rights.0;
            works = true;
            operations = Remove ∷ [];
            changes_names = true;
            targets = Some (operand_of target.now);
          };
        }) }
    ensures second { option_map through_of result.second
        ≡ Some (record { operand = operand_of target.now; need = moving_to }) }
{
    Needs {
        first: Some(Through {
            operand: *descriptor,
            need: moving_from(rights, *target),
        }),
        second: Some(Through {
            operand: *target,
            need: moving_to(),
        }),
    }
}

/// What a call needs of the slots that it may go through; a descriptor that is sent isn't gone through. (own; after
/// capsicum(4), rights(4), cap_rights_limit(2) and cap_fcntls_limit(2))
pub fn needed(call: &Syscall) -> Needs
    ensures { needs_in result ≡ needs (syscall_of call.now) }
{
    let rights = call.first_rights();
    match call {
        Syscall::Openat {
            descriptor,
            flags,
            ..
        } => one(*descriptor, opening(rights, *flags)),
        Syscall::Read { descriptor } => one(*descriptor, working(rights, Some(Op::Read))),
        Syscall::Write { descriptor, .. } | Syscall::Ftruncate { descriptor, .. } => {
            one(*descriptor, working(rights, Some(Op::Write)))
        }
        Syscall::Sendfd {
            descriptor,
            sent,
            ..
        } => one(*descriptor, sending(rights, *sent)),
        Syscall::Recvfd { descriptor } => one(*descriptor, receiving(rights)),
        Syscall::Lseek { descriptor, .. } | Syscall::Fsync { descriptor } => {
            one(*descriptor, needing(rights))
        }
        Syscall::Fstat { descriptor } | Syscall::Fstatat { descriptor, .. } => {
            one(*descriptor, working(rights, Some(Op::Look)))
        }
        Syscall::FcntlGetfl { descriptor } => one(*descriptor, commanding(rights, call.command())),
        Syscall::FcntlSetfl { descriptor, .. } => {
            one(*descriptor, commanding(rights, call.command()))
        }
        Syscall::Mkdirat { descriptor, .. } => one(*descriptor, naming(rights, Op::Create)),
        Syscall::Unlinkat { descriptor, .. } => one(*descriptor, naming(rights, Op::Remove)),
        Syscall::Renameat {
            descriptor,
            target,
            ..
        } => moving(rights, descriptor, target),
        Syscall::Dup { descriptor } | Syscall::Close { descriptor } => {
            one(*descriptor, Need::nothing())
        }
        Syscall::CapRightsLimit { descriptor, rights } => {
            one(*descriptor, keeping(*rights, Fcntls::empty()))
        }
        Syscall::CapFcntlsLimit {
            descriptor,
            commands,
        } => one(*descriptor, keeping(Rights::empty(), *commands)),
        Syscall::Open { .. }
        | Syscall::Stat { .. }
        | Syscall::Mkdir { .. }
        | Syscall::Unlink { .. }
        | Syscall::CapEnter
        | Syscall::CapGetmode
        | Syscall::Socketpair
        | Syscall::Fork => none(),
        Syscall::Use { descriptor, right } => one(*descriptor, using(rights, *right)),
    }
}
