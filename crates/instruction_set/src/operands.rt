//! What instructions work on: registers, numbers and paths.

ghost use Rattle.std.specs.Prelude.{◌≡◌, ◌<◌, ◌↔◌, true, IsSome, IfSome, IsTrue, nat_lt};
ghost use Rattle.std.proofs.Common.{rules};
ghost use Rattle.std.specs.Cmp.Rules.{comparing};
ghost use Rattle.std.specs.List.{list_all};
ghost use Rattle.instruction_set.specs.Programs.{is_path, is_path_byte};

use rights::limits::REGISTERS;
use std::marker::Model;

/// A register, by its number from 0 to 7. (own)
#[derive(Clone, Copy, PartialEq, Eq)]
pub struct Register(u8);

impl Model for Register {
    ghost use Rattle.std.specs.Prelude.{ℕ, ◌<◌};

    ghost Value = { ℕ };

    ghost view = { λ r. r.0 };

    ghost invariant = { λ r. r.0 < 8 };

    ghost inverse = { λ n. record { 0 = n } };
}

impl Register {
    /// The register of this number, or `None` where there is none: from 8 on.
    pub fn new(number: u8) -> Option<Register>
        ensures there { IsSome result ↔ (number < 8) }
        ensures value { IfSome result (λ register. register ≡ number) }
    {
        if usize::from(number) < REGISTERS {
            Some(Register(number))
        } else {
            None
        }
    }

    /// The register's number, 0 to 7.
    pub fn number(self) -> u8
        ensures value { result ≡ self }
        ensures below { result < 8 }
    {
        self.0
    }
}

/// A register, which stands for what it holds, or a number itself. (own)
#[derive(Clone, Copy, PartialEq, Eq)]
pub enum Operand {
    /// What the register holds.
    Register(Register),
    /// This number.
    Number(u32),
}

/// Whether a path may have the byte: 33 to 126, and neither `"` nor `\`. (own)
fn may_stand_in_path(byte: u8) -> bool
    ensures { result ≡ is_path_byte byte }
{
    byte >= 33 && byte <= 126 && byte != b'"' && byte != b'\\'
}

/// Whether the bytes are a path's: each from 33 to 126, and none `"` or `\`. (own)
pub fn is_valid_path(bytes: &[u8]) -> bool
    ensures { result ≡ is_path bytes.now }
{
    for byte in bytes {
        if !may_stand_in_path(*byte) {
            return false;
        }
    }
    true
}

/// A path as it stands in a program: bytes from 33 to 126 without `"` and `\`. It may be empty, and
/// as long as it likes: whether it leads anywhere is asked when it is walked. (own)
#[derive(Drop)]
pub struct Path {
    bytes: Vec<u8>,
}

impl Model for Path {
    ghost use Rattle.std.specs.Prelude.{◌≡◌, ℕ, List, true};
    ghost use Rattle.instruction_set.specs.Programs.{is_path};

    ghost Value = { List ℕ };

    ghost view = { λ p. p.bytes.items };

    ghost invariant = { λ p. is_path p.bytes.items ≡ true };
}

impl PartialEq for Path {
    ghost use Rattle.std.specs.Prelude.{bytes_eq};

    ghost eq = { bytes_eq };

    ghost laws = { Prim.search (comparing, rules) };

    fn eq(&self, other: &Path) -> bool {
        self.bytes() == other.bytes()
    }
}

impl Eq for Path {
    ghost laws = { Prim.search (comparing, rules) };
}

impl Path {
    /// The path of these bytes, which its caller knows to be a path's (`is_valid_path`).
    pub fn new(bytes: Vec<u8>) -> Path
        requires { is_path bytes.items ≡ true }
        ensures { result ≡ bytes.items }
    {
        Path { bytes }
    }

    /// The bytes of the path.
    pub fn bytes(&self) -> &[u8]
        ensures value { result.now ≡ self.now }
        ensures valid { is_path self.now ≡ true }
    {
        &self.bytes
    }
}
