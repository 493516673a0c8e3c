//! What the rules ask of a call as a whole, whatever slots it goes through.

ghost use Rattle.std.specs.Prelude.{◌≡◌, option_map};
ghost use Rattle.certificate.specs.Views.{bound_of};
ghost use Rattle.instruction_set.specs.Views.{operand_of, syscall_of};
ghost use Rattle.rules.specs.Demands.{demands, keeps_beneath, keeps_numbers, keeps_single, single_operand};
ghost use Rattle.transfer.specs.Views.{demands_of};

use crate::slots::{Takes, free_numbers, is_single, may_be_on, operand_interval};
use certificate::Bound;
use instruction_set::{Operand, Syscall};
use rights::reaches_globally;

/// What a call asks as a whole. (own)
#[derive(Clone, Copy)]
pub struct Demands {
    /// An operand that has to be a single number, since the call changes that slot.
    pub single: Option<Operand>,
    /// The free numbers that it takes.
    pub takes: Takes,
    /// It reaches a global name space.
    pub is_global: bool,
    /// And it may make or remove a name there.
    pub changes_global_names: bool,
    pub never_fails: bool,
}

impl Demands {
    /// What most calls ask.
    const NOTHING: Demands = Demands {
        single: None,
        takes: Takes::Nothing,
        is_global: false,
        changes_global_names: false,
        never_fails: false,
    };
}

/// What a call asks as a whole. (own; that global name spaces can't be reached in capability mode is of capsicum(4) and
/// cap_enter(2))
pub fn demanded(call: &Syscall) -> Demands
    ensures { demands_of result ≡ demands (syscall_of call.now) }
{
    match call {
        Syscall::Open { flags, .. } => Demands {
            takes: Takes::One,
            is_global: true,
            changes_global_names: flags.create(),
            ..Demands::NOTHING
        },
        Syscall::Openat { .. } | Syscall::Recvfd { .. } | Syscall::Dup { .. } => Demands {
            takes: Takes::One,
            ..Demands::NOTHING
        },
        Syscall::Socketpair => Demands {
            takes: Takes::Two,
            ..Demands::NOTHING
        },
        Syscall::Stat { .. } => Demands {
            is_global: true,
            ..Demands::NOTHING
        },
        Syscall::Mkdir { .. } | Syscall::Unlink { .. } => Demands {
            is_global: true,
            changes_global_names: true,
            ..Demands::NOTHING
        },
        Syscall::Close { descriptor }
        | Syscall::CapRightsLimit { descriptor, .. }
        | Syscall::CapFcntlsLimit { descriptor, .. } => Demands {
            single: Some(*descriptor),
            ..Demands::NOTHING
        },
        Syscall::CapEnter | Syscall::CapGetmode => Demands {
            never_fails: true,
            ..Demands::NOTHING
        },
        Syscall::Read { .. }
        | Syscall::Write { .. }
        | Syscall::Sendfd { .. }
        | Syscall::Lseek { .. }
        | Syscall::Ftruncate { .. }
        | Syscall::Fsync { .. }
        | Syscall::Fstat { .. }
        | Syscall::FcntlGetfl { .. }
        | Syscall::FcntlSetfl { .. }
        | Syscall::Fstatat { .. }
        | Syscall::Mkdirat { .. }
        | Syscall::Unlinkat { .. }
        | Syscall::Renameat { .. }
        | Syscall::Fork => Demands::NOTHING,
        Syscall::Use { right, .. } => Demands {
            is_global: reaches_globally(*right),
            ..Demands::NOTHING
        },
    }
}

/// Whether an operand, if there is one, is a single number.
fn single_operand(bound: &Bound, operand: Option<Operand>) -> bool
    ensures { result ≡ single_operand (bound_of bound.now) (option_map operand_of operand) }
{
    match operand {
        None => true,
        Some(operand) => is_single(operand_interval(bound, operand)),
    }
}

/// Whether the operand of a call that changes its slot is a single number. (own)
pub fn keeps_single(bound: &Bound, call: &Syscall) -> bool
    ensures { result ≡ keeps_single (bound_of bound.now) (syscall_of call.now) }
{
    single_operand(bound, demanded(call).single)
}

/// Whether the free numbers that a call takes are determined. (own)
pub fn keeps_numbers(bound: &Bound, call: &Syscall) -> bool
    ensures { result ≡ keeps_numbers (bound_of bound.now) (syscall_of call.now) }
{
    free_numbers(demanded(call).takes, bound).is_some()
}

/// Whether the call keeps from global name spaces where the mode may be on. (capsicum(4))
pub fn keeps_beneath(bound: &Bound, call: &Syscall) -> bool
    ensures { result ≡ keeps_beneath (bound_of bound.now) (syscall_of call.now) }
{
    !(may_be_on(bound.mode()) && demanded(call).is_global)
}
