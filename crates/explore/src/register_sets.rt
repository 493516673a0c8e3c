//! Sets of registers.

use instruction_set::Operand;

/// Some registers, a bit each.
#[derive(Clone, Copy, PartialEq, Eq)]
pub(crate) struct RegisterSet(u8);

/// None of them.
pub(crate) const NONE: RegisterSet = RegisterSet(0);

/// The one that an answer is put into.
pub(crate) const ANSWER: RegisterSet = RegisterSet(1);

/// Those that the numbers of a pair's ends are put into.
pub(crate) const ENDS: RegisterSet = RegisterSet(0b11);

/// The one that an error's number is put into.
pub(crate) const ERROR: RegisterSet = RegisterSet(0b1000_0000);

impl RegisterSet {
    /// The register of a number.
    pub(crate) fn one(number: u8) -> RegisterSet {
        RegisterSet(1u8.checked_shl(u32::from(number)).unwrap_or(0))
    }

    /// The register that an operand is, if it is one.
    pub(crate) fn of(operand: Operand) -> RegisterSet {
        match operand {
            Operand::Register(register) => RegisterSet::one(register.number()),
            Operand::Number(_) => NONE,
        }
    }

    /// These and those.
    pub(crate) fn with(self, others: RegisterSet) -> RegisterSet {
        RegisterSet(self.0 | others.0)
    }

    /// These but for those.
    pub(crate) fn without(self, others: RegisterSet) -> RegisterSet {
        RegisterSet(self.0 & !others.0)
    }

    /// Whether the register of a number is one of them.
    pub(crate) fn has(self, number: u8) -> bool {
        self.0 & RegisterSet::one(number).0 != 0
    }

    /// Whether one of those is one of these.
    pub(crate) fn has_some(self, others: RegisterSet) -> bool {
        self.0 & others.0 != 0
    }
}
