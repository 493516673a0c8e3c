//! Calls with real operands, of the kinds that each call is given.

ghost use Rattle.std.specs.Prelude.{◌≡◌, IfOk, map, true};
ghost use Rattle.records.specs.GivenViews.{given_kind};
ghost use Rattle.records.specs.OperandViews.{operand_seen};
ghost use Rattle.records.specs.Calls.{A_command_set, A_path, A_right_set, Open_flags, are_of_kinds, is_of_kind, is_real_operand};

use crate::operands::Operand;
use call_facts::sets::{read_commands, read_plain_rights};
use rights::OpenFlags;
use std::alloc::{AllocError, Global};

/// What a call is given.
#[derive(Clone, Copy)]
pub(crate) enum Given<'g> {
    Number(u32),
    Path(&'g [u8]),
    Flags(OpenFlags),
    /// Whether a directory is what is removed.
    Directory(bool),
    /// The rights that a limit leaves, by their names.
    Rights(&'g [u8]),
    /// The fcntl commands, likewise.
    Commands(&'g [u8]),
}

/// The operand that is a path.
fn path_operand(path: Vec<u8>) -> Operand
    ensures kind { is_of_kind A_path (operand_seen result) ≡ true }
    ensures within { is_real_operand (operand_seen result) ≡ true }
{
    Operand::Path(path)
}

/// The operand that is how a file is opened.
fn flags_operand(flags: OpenFlags) -> Operand
    ensures kind { is_of_kind Open_flags (operand_seen result) ≡ true }
    ensures within { is_real_operand (operand_seen result) ≡ true }
{
    Operand::Flags(flags)
}

/// The operand that is those of the fourteen rights that have these names.
#[tactic(auto, using(crate::proofs::Limits::plain_fit))]
fn rights_operand(names: &[u8]) -> Operand
    ensures kind { is_of_kind A_right_set (operand_seen result) ≡ true }
    ensures within { is_real_operand (operand_seen result) ≡ true }
{
    Operand::Rights(read_plain_rights(names))
}

/// The operand that is the fcntl commands of these names.
#[tactic(auto, using(crate::proofs::Limits::commands_fit))]
fn commands_operand(names: &[u8]) -> Operand
    ensures kind { is_of_kind A_command_set (operand_seen result) ≡ true }
    ensures within { is_real_operand (operand_seen result) ≡ true }
{
    Operand::Commands(read_commands(names))
}

/// The operand that a call is given.
fn operand_of(alloc: Global, given: &Given<'_>) -> Result<Operand, AllocError>
    ensures kind { IfOk result (λ operand. is_of_kind (given_kind given.now) (operand_seen operand) ≡ true) }
    ensures within { IfOk result (λ operand. is_real_operand (operand_seen operand) ≡ true) }
{
    match given {
        Given::Number(number) => Ok(Operand::Number(*number)),
        Given::Path(path) => Ok(path_operand(Vec::from_slice(alloc, path)?)),
        Given::Flags(flags) => Ok(flags_operand(*flags)),
        Given::Directory(asked) => Ok(Operand::Directory(*asked)),
        Given::Rights(names) => Ok(rights_operand(names)),
        Given::Commands(names) => Ok(commands_operand(names)),
    }
}

/// The operands that a call is given.
pub(crate) fn operands_of(alloc: Global, given: &[Given<'_>]) -> Result<Vec<Operand>, AllocError>
    ensures { IfOk result (λ operands. are_of_kinds (map given_kind given.now) (map operand_seen operands.items) ≡ true) }
{
    let mut operands = Vec::new(alloc);
    for one in given {
        operands.push(operand_of(alloc, one)?)?;
    }
    Ok(operands)
}
