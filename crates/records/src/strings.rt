//! The strings of a record: bytes with C's escapes.

use texts::Page;

/// How far an escape has come.
#[derive(Clone, Copy)]
enum Escape {
    /// There is none.
    Not,
    /// Behind the backslash.
    Begun,
    /// Behind octal digits, so many, which come to this byte.
    Octal(u8, u8),
    /// Behind an `x`.
    Lettered,
    /// Behind an `x` and a digit that comes to this.
    Halfway(u8),
}

/// What a letter behind a backslash stands for.
fn letter(byte: u8) -> u8 {
    match byte {
        b'n' => b'\n',
        b't' => b'\t',
        b'r' => b'\r',
        b'v' => 11,
        b'f' => 12,
        b'a' => 7,
        b'b' => 8,
        _ => byte,
    }
}

/// Whether a byte is an octal digit.
fn is_octal(byte: u8) -> bool {
    byte >= b'0' && byte <= b'7'
}

/// What an octal digit adds to a byte.
fn octal(value: u8, digit: u8) -> u8 {
    value.wrapping_mul(8).wrapping_add(digit.wrapping_sub(b'0'))
}

/// What a hexadecimal digit comes to.
fn hexadecimal(digit: u8) -> u8 {
    match digit {
        b'a'..=b'f' => digit - b'a' + 10,
        b'A'..=b'F' => digit - b'A' + 10,
        _ => digit.wrapping_sub(b'0') & 15,
    }
}

/// Adds what a byte gives, which stands in no octal number, behind an escape: how far the next one has come.
fn add_byte(page: &mut Page, escape: Escape, byte: u8) -> Escape {
    let given = match escape {
        Escape::Begun if is_octal(byte) => return Escape::Octal(octal(0, byte), 1),
        Escape::Begun if byte == b'x' => return Escape::Lettered,
        Escape::Begun => letter(byte),
        Escape::Lettered => return Escape::Halfway(hexadecimal(byte)),
        Escape::Halfway(value) => value.wrapping_mul(16).wrapping_add(hexadecimal(byte)),
        _ if byte == b'\\' => return Escape::Begun,
        _ => byte,
    };
    page.bytes(&[given]);
    Escape::Not
}

/// Adds the bytes of a text with C's escapes. A backslash that begins no escape stands for the byte behind it.
pub(crate) fn add_unescaped(page: &mut Page, text: &[u8]) {
    let mut escape = Escape::Not;
    for byte in text {
        escape = match escape {
            Escape::Octal(value, count) if count < 3 && is_octal(*byte) => {
                Escape::Octal(octal(value, *byte), count + 1)
            }
            Escape::Octal(value, _) => {
                page.bytes(&[value]);
                add_byte(page, Escape::Not, *byte)
            }
            _ => add_byte(page, escape, *byte),
        };
    }
    if let Escape::Octal(value, _) = escape {
        page.bytes(&[value]);
    }
}
