//! Numbers in a fixed count of hexadecimal digits, 0 to 9 and a to f.

ghost use Rattle.std.specs.Prelude.{◌≡◌, ◌<◌, ◌≤◌, true};
ghost use Rattle.std.specs.List.{list_all};
ghost use Rattle.texts.specs.Hex.{hex_digit, hex_of, hex_text, hex_value, is_hex_digit};

/// The digit of a number below 16.
pub fn one_digit(number: u8) -> u8
    requires { number < 16 }
    ensures { result ≡ hex_digit number }
{
    if number < 10 {
        b'0' + number
    } else {
        b'a' + (number - 10)
    }
}

/// The four digits of a number, the highest first.
pub fn four_digits(number: u16) -> [u8; 4]
    ensures { result ≡ hex_text 4 number }
{
    [
        one_digit((number / 0x1000) as u8),
        one_digit((number / 0x100 % 16) as u8),
        one_digit((number / 16 % 16) as u8),
        one_digit((number % 16) as u8),
    ]
}

/// The eight digits of a number, the highest first.
pub fn eight_digits(number: u32) -> [u8; 8]
    ensures { result ≡ hex_text 8 number }
{
    [
        one_digit((number / 0x1000_0000) as u8),
        one_digit((number / 0x100_0000 % 16) as u8),
        one_digit((number / 0x10_0000 % 16) as u8),
        one_digit((number / 0x1_0000 % 16) as u8),
        one_digit((number / 0x1000 % 16) as u8),
        one_digit((number / 0x100 % 16) as u8),
        one_digit((number / 16 % 16) as u8),
        one_digit((number % 16) as u8),
    ]
}

/// Whether the byte is a hexadecimal digit in lower case.
fn is_digit(byte: u8) -> bool
    ensures { result ≡ is_hex_digit byte }
{
    byte.is_ascii_digit() || (b'a' <= byte && byte <= b'f')
}

/// Whether each byte is a hexadecimal digit in lower case.
fn has_hex_digits_only(word: &[u8]) -> bool
    ensures { result ≡ list_all is_hex_digit word.now }
{
    for byte in word {
        if !is_digit(*byte) {
            return false;
        }
    }
    true
}

/// What a digit stands for.
fn digit_value(byte: u8) -> u8
    requires { is_hex_digit byte ≡ true }
    ensures value { result ≡ hex_value byte }
    ensures small { result < 16 }
{
    if byte.is_ascii_digit() {
        byte - b'0'
    } else {
        byte - b'a' + 10
    }
}

/// The number of a word of just so many digits, at most 8; `None` for any other word, also one in upper case.
pub fn read_hex(word: &[u8], count: usize) -> Option<u32>
    requires { count ≤ 8 }
    ensures { result ≡ hex_of count word.now }
{
    let has_hex_digits_only = has_hex_digits_only(word);
    if word.len() != count || !has_hex_digits_only {
        return None;
    }
    let mut number: u32 = 0;
    for byte in word {
        number = number * 16 + u32::from(digit_value(*byte));
    }
    Some(number)
}
