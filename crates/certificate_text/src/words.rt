//! The words of a line.

ghost use Rattle.std.specs.Prelude.{◌≡◌, ◌≤◌, IfOk, option_map, true};
ghost use Rattle.std.specs.Result.{result_map_both};
ghost use Rattle.texts.specs.Hex.{hex_of};
ghost use Rattle.texts.specs.Numbers.{number_of};
ghost use Rattle.certificate.specs.Lines.{is_ceiling};
ghost use Rattle.rights.specs.Views.{side_seen};
ghost use Rattle.certificate.specs.Views.{class_of, interval_of, mode_of, version_of};
ghost use Rattle.texts.specs.Views.{name_of};
ghost use Rattle.certificate_text.specs.TakingViews.{rise_or_equal, unless_full};
ghost use Rattle.certificate_text.specs.Views.{fault_of, fcntls_in, rights_in};
ghost use Rattle.certificate_text.specs.Words.{class_of_word, fcntls_of_words, further_above, further_of_words, interval_from, mode_of_word, name_of_word, point_of_program};
ghost use Rattle.certificate_text.specs.Words.{rights_above, rights_from, rights_of_words, side_of_word, up_to};
ghost use Rattle.texts.specs.Parts.{parts};

use crate::faults::LineFault;
use crate::keywords::Keyword;
use crate::taking::{both, is_word, one_word, two_words};
use bitflags::Flags;
use certificate::{Class, FcntlsRange, Interval, ModeBound, Pair, RightsRange, Side, Version};
use rights::limits::{MAX_INSTRUCTIONS, MAX_PAIRS};
use rights::{Fcntls, Rights};
use std::cmp::Ordering;
use texts::{Name, NumberFault, Words, compare_numbers, first_part, number_up_to, read_hex};

/// The number of the last instruction that a program may have.
pub(crate) const LAST_INSTRUCTION: u8 = (MAX_INSTRUCTIONS - 1) as u8;

/// A number up to a limit.
pub(crate) fn read_number(word: &[u8], limit: u32) -> Result<u32, LineFault>
    ensures value { result_map_both (λ n. n) fault_of result ≡ up_to limit (number_of word.now) }
    ensures within { IfOk result (λ n. n ≤ limit) }
{
    match number_up_to(word, limit) {
        Ok(number) => Ok(number),
        Err(NumberFault::Form) => Err(LineFault::Syntax),
        Err(NumberFault::Limit) => Err(LineFault::Limit),
    }
}

/// A number of one byte up to a limit.
pub(crate) fn read_byte(word: &[u8], limit: u8) -> Result<u8, LineFault>
    ensures value { result_map_both (λ n. n) fault_of result ≡ up_to limit (number_of word.now) }
    ensures within { IfOk result (λ n. n ≤ limit) }
{
    match read_number(word, u32::from(limit)) {
        Ok(number) => Ok(number as u8),
        Err(fault) => Err(fault),
    }
}

/// The name of a program or a grant.
pub(crate) fn read_name(word: &[u8]) -> Result<Name, LineFault>
    ensures { result_map_both name_of fault_of result ≡ name_of_word word.now }
{
    match Name::read(word) {
        Some(name) => Ok(name),
        None => Err(LineFault::Syntax),
    }
}

/// A mode: `off`, `on`, or `maybe`.
pub(crate) fn read_mode(word: &[u8]) -> Option<ModeBound>
    ensures { option_map mode_of result ≡ mode_of_word word.now }
{
    if is_word(word, Keyword::Off) {
        Some(ModeBound::Off)
    } else if is_word(word, Keyword::On) {
        Some(ModeBound::On)
    } else if is_word(word, Keyword::Maybe) {
        Some(ModeBound::Either)
    } else {
        None
    }
}

/// A side: `a` or `b`.
pub(crate) fn read_side(word: &[u8]) -> Option<Side>
    ensures { option_map side_seen result ≡ side_of_word word.now }
{
    if is_word(word, Keyword::A) {
        Some(Side::A)
    } else if is_word(word, Keyword::B) {
        Some(Side::B)
    } else {
        None
    }
}

/// A point of a program: `program:point`.
fn read_point(word: &[u8]) -> Result<Class, LineFault>
    ensures { result_map_both class_of fault_of result ≡ point_of_program (parts 58 word.now) }
{
    let (program, rest) = first_part(word, b':');
    let Some(rest) = rest else {
        return Err(LineFault::Syntax);
    };
    let (point, more) = first_part(rest, b':');
    if more.is_some() {
        return Err(LineFault::Syntax);
    }
    match both(read_name(program), read_byte(point, LAST_INSTRUCTION)) {
        Ok(parts) => Ok(Class::MadeAt(parts.0, parts.1)),
        Err(fault) => Err(fault),
    }
}

/// A class of socket pairs: `@N`, or `program:point`.
pub(crate) fn read_class(word: &[u8]) -> Result<Class, LineFault>
    ensures { result_map_both class_of fault_of result ≡ class_of_word word.now }
{
    match word {
        [] => Err(LineFault::Syntax),
        [first, digits @ ..] => {
            if *first != b'@' {
                return read_point(word);
            }
            match read_byte(digits, MAX_PAIRS - 1) {
                Ok(number) => Ok(Class::Initial(Pair::new(number))),
                Err(fault) => Err(fault),
            }
        }
    }
}

/// Whether these are two numbers, the first not above the second, of whatever length they are.
fn are_ends(low: &[u8], high: &[u8]) -> bool
    ensures { result ≡ rise_or_equal (number_of low.now) (number_of high.now) }
{
    match compare_numbers(low, high) {
        None | Some(Ordering::Greater) => false,
        Some(Ordering::Less | Ordering::Equal) => true,
    }
}

/// The interval between two numbers, if it isn't full.
fn interval_between(low: u32, high: u32) -> Result<Interval, LineFault>
    requires { low ≤ high }
    ensures { result_map_both interval_of fault_of result ≡ unless_full (record { low = low; high = high }) }
{
    if low == 0 && high == u32::MAX {
        return Err(LineFault::Syntax);
    }
    Ok(Interval::new(low, high))
}

/// An interval that isn't full, of its two ends. They are compared first.
pub(crate) fn read_interval(low: &[u8], high: &[u8]) -> Result<Interval, LineFault>
    ensures { result_map_both interval_of fault_of result ≡ interval_from (number_of low.now) (number_of high.now) }
{
    if !are_ends(low, high) {
        return Err(LineFault::Syntax);
    }
    match both(read_number(low, u32::MAX), read_number(high, u32::MAX)) {
        Ok(ends) => interval_between(ends.0, ends.1),
        Err(fault) => Err(fault),
    }
}

/// A set of rights: those of the fourteen that a word names in four digits, and further ones.
fn read_set(word: &[u8], further: u32) -> Option<Rights>
    ensures { option_map (λ rights. rights.0) result ≡ rights_from (hex_of 4 word.now) further }
{
    let plain = read_hex(word, 4)?;
    if !Rights::plain().contains(Rights::from_bits_retain(u64::from(plain))) {
        return None;
    }
    Some(Rights::of_parts(plain as u16, further))
}

/// The further rights of the least and of the greatest set, by bit from 0, in eight digits each. Before version 4 there is no word
/// of them: the least set has none, and the greatest has all.
pub(crate) fn read_further(version: Version, words: Words<'_>) -> Option<(u32, u32)>
    ensures { result ≡ further_of_words (version_of version) words.entry }
{
    if version.tells_further() {
        let (least, greatest) = two_words(words)?;
        Some((read_hex(least, 8)?, read_hex(greatest, 8)?))
    } else if words.is_done() {
        Some((0, u32::MAX))
    } else {
        None
    }
}

/// The least and the greatest set of rights: the fourteen in four digits each, and further ones.
pub(crate) fn read_rights(
    least: &[u8],
    greatest: &[u8],
    further: Option<(u32, u32)>,
) -> Result<RightsRange, LineFault>
    ensures { result_map_both rights_in fault_of result ≡ rights_of_words least.now greatest.now further }
{
    let Some(further) = further else {
        return Err(LineFault::Syntax);
    };
    let (Some(least), Some(greatest)) = (read_set(least, further.0), read_set(greatest, further.1))
    else {
        return Err(LineFault::Syntax);
    };
    if !greatest.contains(least) || !Rights::all().contains(greatest) {
        return Err(LineFault::Syntax);
    }
    Ok(RightsRange::new(least, greatest))
}

/// The least and the greatest set of fcntl commands, in one digit each.
pub(crate) fn read_fcntls(least: &[u8], greatest: &[u8]) -> Result<FcntlsRange, LineFault>
    ensures { result_map_both fcntls_in fault_of result ≡ fcntls_of_words least.now greatest.now }
{
    let (Some(least), Some(greatest)) = (read_hex(least, 1), read_hex(greatest, 1)) else {
        return Err(LineFault::Syntax);
    };
    let least = Fcntls::from_bits_retain(least as u8);
    let greatest = Fcntls::from_bits_retain(greatest as u8);
    if !greatest.contains(least) || !Fcntls::all().contains(greatest) {
        return Err(LineFault::Syntax);
    }
    Ok(FcntlsRange::new(least, greatest))
}

/// The further rights of a ceiling, by bit from 0, in eight digits. Before version 4 there is no word of them, and it has none.
pub(crate) fn read_further_above(version: Version, words: Words<'_>) -> Option<u32>
    ensures { result ≡ further_above (version_of version) words.entry }
{
    if version.tells_further() {
        read_hex(one_word(words)?, 8)
    } else if words.is_done() {
        Some(0)
    } else {
        None
    }
}

/// The rights of a ceiling: the fourteen in four digits, and further ones; there are some.
pub(crate) fn read_ceiling_rights(word: &[u8], further: Option<u32>) -> Result<Rights, LineFault>
    ensures value { result_map_both (λ rights. rights.0) fault_of result ≡ rights_above word.now further }
    ensures some { IfOk result (λ rights. is_ceiling rights.0 ≡ true) }
{
    let Some(further) = further else {
        return Err(LineFault::Syntax);
    };
    let Some(rights) = read_set(word, further) else {
        return Err(LineFault::Syntax);
    };
    if !Rights::all().contains(rights) || rights.bits() == 0 {
        return Err(LineFault::Syntax);
    }
    Ok(rights)
}
