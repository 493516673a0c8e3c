//! Numbers in decimal digits, of any length, without leading zeros.

ghost use Rattle.std.specs.Prelude.{◌≡◌, ◌≤◌, ◌↔◌, Err, IfOk, None};
ghost use Rattle.std.specs.List.{list_all};
ghost use Rattle.std.specs.Result.{result_ok};
ghost use Rattle.texts.specs.Bytes.{is_digit};
ghost use Rattle.texts.specs.Numbers.{at_most, begins_well, compared, is_number, number_of};

use std::cmp::Ordering;

/// Why a word isn't read as a number.
#[derive(Clone, Copy, Debug, PartialEq, Eq)]
pub enum NumberFault {
    /// It isn't a number in decimal digits without leading zeros.
    Form,
    /// It is a number past the limit.
    Limit,
}

/// Whether a number may begin so: it isn't empty, and a zero is not followed by more.
pub fn begins_well(word: &[u8]) -> bool
    ensures { result ≡ begins_well word.now }
{
    match word {
        [] => false,
        [b'0', _, ..] => false,
        [_, ..] => true,
    }
}

/// Whether each byte is a digit.
fn has_digits_only(word: &[u8]) -> bool
    ensures { result ≡ list_all is_digit word.now }
{
    for byte in word {
        if !byte.is_ascii_digit() {
            return false;
        }
    }
    true
}

/// Whether the word is a number in decimal digits, of any length, without leading zeros. (own)
pub fn is_number(word: &[u8]) -> bool
    ensures { result ≡ is_number word.now }
{
    let has_digits_only = has_digits_only(word);
    begins_well(word) && has_digits_only
}

/// The number in decimal digits, without leading zeros, if it is at most the limit.
pub fn number_up_to(word: &[u8], limit: u32) -> Result<u32, NumberFault>
    ensures value { result_ok result ≡ at_most limit (number_of word.now) }
    ensures within { IfOk result (λ number. number ≤ limit) }
    ensures form { (result ≡ Err NumberFault.Form) ↔ (number_of word.now ≡ None) }
{
    if !is_number(word) {
        return Err(NumberFault::Form);
    }
    let mut number: u64 = 0;
    for byte in word {
        number = number * 10 + u64::from(*byte - b'0');
        if number > u64::from(limit) {
            return Err(NumberFault::Limit);
        }
    }
    Ok(number as u32)
}

/// How two numbers of any length compare, or `None` where a word is no number.
pub fn compare_numbers(left: &[u8], right: &[u8]) -> Option<Ordering>
    ensures { result ≡ compared (number_of left.now) (number_of right.now) }
{
    if !is_number(left) || !is_number(right) {
        return None;
    }
    Some(left.len().cmp(&right.len()).then(left.cmp(&right)))
}
