//! What calls are given.

ghost use Rattle.std.specs.Prelude.{◌≡◌};
ghost use Rattle.call_facts.specs.FactViews.{role_seen};
ghost use Rattle.records.specs.Calls.{kind_of};
ghost use Rattle.records.specs.OperandViews.{kind_seen};

use call_facts::Role;
use rights::{Fcntls, OpenFlags, Rights};

/// The kind of an operand.
#[derive(Clone, Copy)]
pub enum Kind {
    Number,
    Path,
    Flags,
    Rights,
    Commands,
    Directory,
}

/// What a call was given.
#[derive(Drop)]
pub enum Operand {
    /// A descriptor, a byte, an offset, a length or status flags.
    Number(u32),
    /// A path of any bytes.
    Path(Vec<u8>),
    /// How a file is opened.
    Flags(OpenFlags),
    /// The rights that a limit leaves.
    Rights(Rights),
    /// The fcntl commands that a limit leaves.
    Commands(Fcntls),
    /// Whether a directory is what is removed.
    Directory(bool),
}

/// Of which kind an operand is that is for this.
pub(crate) fn kind_of(role: Role) -> Kind
    ensures { kind_seen result ≡ kind_of (role_seen role) }
{
    match role {
        Role::Descriptor | Role::Amount | Role::Status => Kind::Number,
        Role::Path => Kind::Path,
        Role::Flags => Kind::Flags,
        Role::Rights => Kind::Rights,
        Role::Commands => Kind::Commands,
        Role::Choice => Kind::Directory,
    }
}
