//! The arguments of a call, by what they are for.

ghost use Rattle.std.specs.Prelude.{◌≡◌, map, option_map};
ghost use Rattle.call_facts.specs.ArgumentViews.{argument_seen, arguments_seen};
ghost use Rattle.call_facts.specs.Arguments.{arguments, descriptor_at, first_operand, first_path, flags_in, has_register, is_given, is_register, opening_flags};
ghost use Rattle.call_facts.specs.Arguments.{operand_in, path_at, second_operand, second_path, value_in, value_operand};
ghost use Rattle.instruction_set.specs.Views.{operand_of, syscall_of};

use instruction_set::{Operand, Register, Syscall};
use rights::{Fcntls, OpenFlags, Rights};

/// An argument of a call.
#[derive(Clone, Copy)]
pub enum Argument<'a> {
    Descriptor(Operand),
    Path(&'a [u8]),
    /// How a file is opened.
    Flags(OpenFlags),
    /// The rights that a limit leaves, or the one that a use needs.
    Rights(Rights),
    /// The fcntl commands that a limit leaves.
    Commands(Fcntls),
    /// A byte, an offset or a length.
    Amount(Operand),
    /// Status flags.
    Status(Operand),
    /// Whether a directory is what is removed.
    Choice(bool),
}

/// The arguments of a call, in their order.
#[derive(Clone, Copy)]
pub enum Arguments<'a> {
    None,
    One(Argument<'a>),
    Two(Argument<'a>, Argument<'a>),
    Three(Argument<'a>, Argument<'a>, Argument<'a>),
    Four(Argument<'a>, Argument<'a>, Argument<'a>, Argument<'a>),
}

/// The arguments of a call, in their order.
pub fn arguments_of(call: &Syscall) -> Arguments<'_>
    ensures { arguments_seen result ≡ arguments (syscall_of call.now) }
{
    match call {
        Syscall::CapEnter | Syscall::CapGetmode | Syscall::Socketpair | Syscall::Fork => {
            Arguments::None
        }
        Syscall::Read { descriptor }
        | Syscall::Recvfd { descriptor }
        | Syscall::Fsync { descriptor }
        | Syscall::Fstat { descriptor }
        | Syscall::FcntlGetfl { descriptor }
        | Syscall::Dup { descriptor }
        | Syscall::Close { descriptor } => Arguments::One(Argument::Descriptor(*descriptor)),
        Syscall::Write {
            descriptor,
            value: amount,
        }
        | Syscall::Lseek {
            descriptor,
            offset: amount,
        }
        | Syscall::Ftruncate {
            descriptor,
            len: amount,
        } => Arguments::Two(Argument::Descriptor(*descriptor), Argument::Amount(*amount)),
        Syscall::FcntlSetfl { descriptor, flags } => {
            Arguments::Two(Argument::Descriptor(*descriptor), Argument::Status(*flags))
        }
        Syscall::CapRightsLimit { descriptor, rights }
        | Syscall::Use {
            descriptor,
            right: rights,
        } => { Arguments::Two(Argument::Descriptor(*descriptor), Argument::Rights(*rights)) }
        Syscall::CapFcntlsLimit {
            descriptor,
            commands,
        } => Arguments::Two(
            Argument::Descriptor(*descriptor),
            Argument::Commands(*commands),
        ),
        Syscall::Sendfd {
            descriptor,
            sent,
            value,
        } => Arguments::Three(
            Argument::Descriptor(*descriptor),
            Argument::Descriptor(*sent),
            Argument::Amount(*value),
        ),
        Syscall::Open { path, flags } => {
            Arguments::Two(Argument::Path(path.bytes()), Argument::Flags(*flags))
        }
        Syscall::Openat {
            descriptor,
            path,
            flags,
        } => Arguments::Three(
            Argument::Descriptor(*descriptor),
            Argument::Path(path.bytes()),
            Argument::Flags(*flags),
        ),
        Syscall::Stat { path } | Syscall::Mkdir { path } => {
            Arguments::One(Argument::Path(path.bytes()))
        }
        Syscall::Fstatat { descriptor, path } | Syscall::Mkdirat { descriptor, path } => {
            Arguments::Two(
                Argument::Descriptor(*descriptor),
                Argument::Path(path.bytes()),
            )
        }
        Syscall::Unlink { path, directory } => {
            Arguments::Two(Argument::Path(path.bytes()), Argument::Choice(*directory))
        }
        Syscall::Unlinkat {
            descriptor,
            path,
            directory,
        } => Arguments::Three(
            Argument::Descriptor(*descriptor),
            Argument::Path(path.bytes()),
            Argument::Choice(*directory),
        ),
        Syscall::Renameat {
            descriptor,
            path,
            target,
            new_path,
        } => Arguments::Four(
            Argument::Descriptor(*descriptor),
            Argument::Path(path.bytes()),
            Argument::Descriptor(*target),
            Argument::Path(new_path.bytes()),
        ),
    }
}

impl<'a> Argument<'a> {
    /// Its operand, if it is a number.
    pub fn operand(&self) -> Option<Operand>
        ensures { option_map operand_of result ≡ operand_in (argument_seen self.now) }
    {
        match self {
            Argument::Descriptor(operand) | Argument::Amount(operand) | Argument::Status(operand) =>
                Some(*operand),
            Argument::Path(_) | Argument::Flags(_) | Argument::Rights(_) => None,
            Argument::Commands(_) | Argument::Choice(_) => None,
        }
    }
}

/// The operand of the descriptor among some arguments that stands behind so many others.
fn descriptor_at(arguments: &[Argument<'_>], at: usize) -> Option<Operand>
    ensures { option_map operand_of result ≡ descriptor_at at (map argument_seen arguments.now) }
{
    match arguments {
        [] => None,
        [first, rest @ ..] => match first {
            Argument::Descriptor(operand) => {
                if at == 0 {
                    Some(*operand)
                } else {
                    descriptor_at(rest, at - 1)
                }
            }
            Argument::Path(_) | Argument::Flags(_) | Argument::Rights(_) => descriptor_at(rest, at),
            Argument::Commands(_) | Argument::Amount(_) => descriptor_at(rest, at),
            Argument::Status(_) | Argument::Choice(_) => descriptor_at(rest, at),
        },
    }
}

/// The operand of the descriptor of a call that stands behind so many others.
fn descriptor_of(call: &Syscall, at: usize) -> Option<Operand>
    ensures { option_map operand_of result ≡ descriptor_at at (arguments (syscall_of call.now)) }
{
    match arguments_of(call) {
        Arguments::None => None,
        Arguments::One(first) => descriptor_at(&[first], at),
        Arguments::Two(first, second) => descriptor_at(&[first, second], at),
        Arguments::Three(first, second, third) => descriptor_at(&[first, second, third], at),
        Arguments::Four(first, second, third, fourth) => {
            descriptor_at(&[first, second, third, fourth], at)
        }
    }
}

/// The operand of a call's only descriptor, or of the first of two; `None` where it has no descriptor.
pub fn first_operand(call: &Syscall) -> Option<Operand>
    ensures { option_map operand_of result ≡ first_operand (syscall_of call.now) }
{
    descriptor_of(call, 0)
}

/// The operand of the second of its two descriptors; `None` where it hasn't two.
pub fn second_operand(call: &Syscall) -> Option<Operand>
    ensures { option_map operand_of result ≡ second_operand (syscall_of call.now) }
{
    descriptor_of(call, 1)
}

/// The path among some arguments that stands behind so many others.
fn path_at<'a>(arguments: &[Argument<'a>], at: usize) -> Option<&'a [u8]>
    ensures { option_map (λ path. path.now) result ≡ path_at at (map argument_seen arguments.now) }
{
    match arguments {
        [] => None,
        [first, rest @ ..] => match first {
            Argument::Path(path) => {
                if at == 0 {
                    Some(path)
                } else {
                    path_at(rest, at - 1)
                }
            }
            Argument::Descriptor(_) | Argument::Flags(_) | Argument::Rights(_) => path_at(rest, at),
            Argument::Commands(_) | Argument::Amount(_) => path_at(rest, at),
            Argument::Status(_) | Argument::Choice(_) => path_at(rest, at),
        },
    }
}

/// The path of a call that stands behind so many others.
fn path_of(call: &Syscall, at: usize) -> Option<&[u8]>
    ensures { option_map (λ path. path.now) result ≡ path_at at (arguments (syscall_of call.now)) }
{
    match arguments_of(call) {
        Arguments::None => None,
        Arguments::One(first) => path_at(&[first], at),
        Arguments::Two(first, second) => path_at(&[first, second], at),
        Arguments::Three(first, second, third) => path_at(&[first, second, third], at),
        Arguments::Four(first, second, third, fourth) => {
            path_at(&[first, second, third, fourth], at)
        }
    }
}

/// The first path that a call is given; `None` where it has none.
pub fn first_path(call: &Syscall) -> Option<&[u8]>
    ensures { option_map (λ path. path.now) result ≡ first_path (syscall_of call.now) }
{
    path_of(call, 0)
}

/// The second path that it is given; `None` where it hasn't two.
pub fn second_path(call: &Syscall) -> Option<&[u8]>
    ensures { option_map (λ path. path.now) result ≡ second_path (syscall_of call.now) }
{
    path_of(call, 1)
}

/// The flags of an open among some arguments.
fn flags_in(arguments: &[Argument<'_>]) -> Option<OpenFlags>
    ensures { result ≡ flags_in (map argument_seen arguments.now) }
{
    match arguments {
        [] => None,
        [first, rest @ ..] => match first {
            Argument::Flags(flags) => Some(*flags),
            Argument::Descriptor(_) | Argument::Path(_) | Argument::Rights(_) => flags_in(rest),
            Argument::Commands(_) | Argument::Amount(_) => flags_in(rest),
            Argument::Status(_) | Argument::Choice(_) => flags_in(rest),
        },
    }
}

/// How a call opens a file; `None` where it opens none.
pub fn opening_flags(call: &Syscall) -> Option<OpenFlags>
    ensures { result ≡ opening_flags (syscall_of call.now) }
{
    match arguments_of(call) {
        Arguments::None => None,
        Arguments::One(first) => flags_in(&[first]),
        Arguments::Two(first, second) => flags_in(&[first, second]),
        Arguments::Three(first, second, third) => flags_in(&[first, second, third]),
        Arguments::Four(first, second, third, fourth) => flags_in(&[first, second, third, fourth]),
    }
}

/// The operand among some arguments that is no descriptor.
fn value_in(arguments: &[Argument<'_>]) -> Option<Operand>
    ensures { option_map operand_of result ≡ value_in (map argument_seen arguments.now) }
{
    match arguments {
        [] => None,
        [first, rest @ ..] => match first {
            Argument::Amount(operand) | Argument::Status(operand) => Some(*operand),
            Argument::Descriptor(_) | Argument::Path(_) | Argument::Flags(_) => value_in(rest),
            Argument::Rights(_) | Argument::Commands(_) | Argument::Choice(_) => value_in(rest),
        },
    }
}

/// The operand of a call that is no descriptor: a byte, an offset, a length or status flags; `None` where it has none.
pub fn value_operand(call: &Syscall) -> Option<Operand>
    ensures { option_map operand_of result ≡ value_operand (syscall_of call.now) }
{
    match arguments_of(call) {
        Arguments::None => None,
        Arguments::One(first) => value_in(&[first]),
        Arguments::Two(first, second) => value_in(&[first, second]),
        Arguments::Three(first, second, third) => value_in(&[first, second, third]),
        Arguments::Four(first, second, third, fourth) => value_in(&[first, second, third, fourth]),
    }
}

/// Whether an argument is a register.
fn is_register(argument: &Argument<'_>, register: Register) -> bool
    ensures { result ≡ is_register register (operand_in (argument_seen argument.now)) }
{
    argument.operand() == Some(Operand::Register(register))
}

/// Whether one of some arguments is a register.
fn any_register(arguments: &[Argument<'_>], register: Register) -> bool
    ensures { result ≡ has_register register (map argument_seen arguments.now) }
{
    match arguments {
        [] => false,
        [first, rest @ ..] => is_register(first, register) || any_register(rest, register),
    }
}

/// Whether what a register holds is an argument of a call. (own)
pub fn is_given(call: &Syscall, register: Register) -> bool
    ensures { result ≡ is_given register (syscall_of call.now) }
{
    match arguments_of(call) {
        Arguments::None => false,
        Arguments::One(first) => any_register(&[first], register),
        Arguments::Two(first, second) => any_register(&[first, second], register),
        Arguments::Three(first, second, third) => any_register(&[first, second, third], register),
        Arguments::Four(first, second, third, fourth) => {
            any_register(&[first, second, third, fourth], register)
        }
    }
}
