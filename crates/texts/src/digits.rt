//! The text of a number in decimal digits, without memory.

ghost use Rattle.std.specs.Prelude.{◌≡◌};
ghost use Rattle.std.specs.Fmt.{decimal};

use std::marker::Model;

/// The most digits of a `u32`.
const MAX_DIGITS: usize = 10;

/// A number in decimal digits, without leading zeros. (own)
#[derive(Drop)]
pub struct Decimal {
    digits: [u8; MAX_DIGITS],
    start: usize,
}

impl Model for Decimal {
    ghost use Rattle.std.specs.Prelude.{◌≤◌, List, ℕ, drop};

    ghost Value = { List ℕ };

    ghost view = { λ d. drop d.start d.digits };

    ghost invariant = { λ d. d.start ≤ 10 };
}

impl Decimal {
    /// The text of this number.
    pub fn new(number: u32) -> Decimal
        ensures { result ≡ decimal number }
    {
        let mut digits = [b'0'; MAX_DIGITS];
        let mut start = MAX_DIGITS;
        let mut rest = number;
        while rest >= 10 {
            start -= 1;
            digits[start] = b'0' + (rest % 10) as u8;
            rest /= 10;
        }
        start -= 1;
        digits[start] = b'0' + rest as u8;
        Decimal { digits, start }
    }

    /// Its digits, the highest first.
    pub fn as_bytes(&self) -> &[u8]
        ensures { result.now ≡ self.now }
    {
        &self.digits[self.start..]
    }
}
