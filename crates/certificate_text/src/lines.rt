//! The lines of a certificate's text.

ghost use Rattle.std.specs.Prelude.{◌≡◌, ◌∷◌, IfOk, true};
ghost use Rattle.std.specs.Result.{result_map_both};
ghost use Rattle.certificate.specs.Lines.{is_line, is_of_version};
ghost use Rattle.certificate.specs.Views.{line_of, version_of};
ghost use Rattle.certificate_text.specs.Readings.{line_of_text};
ghost use Rattle.certificate_text.specs.Views.{fault_of};
ghost use Rattle.certificate_text.specs.Words.{authority_of_words, block_of_words, ceiling_of_words, channel_of_words, descriptor_of_words, end_of_words, later_line, line_of_words};
ghost use Rattle.certificate_text.specs.Words.{other_line, register_of_words};

use crate::descriptors::{read_sends, read_slot};
use crate::faults::LineFault;
use crate::keywords::Keyword;
use crate::taking::{both, is_word, next_two, next_word, one_word, three_words, two_words};
use crate::words::{
    LAST_INSTRUCTION, read_byte, read_ceiling_rights, read_class, read_further_above,
    read_interval, read_mode, read_name, read_side,
};
use certificate::{Ceiling, Channel, End, Line, Version};
use rights::limits::{MAX_DESCRIPTORS, REGISTERS};
use texts::Words;

/// The numbers of the last register and of the last descriptor.
const LAST_REGISTER: u8 = (REGISTERS - 1) as u8;

const LAST_DESCRIPTOR: u8 = (MAX_DESCRIPTORS - 1) as u8;

/// The words behind `at`: a program's name, a point of it, and its mode.
fn read_block(words: Words<'_>) -> Result<Line, LineFault>
    ensures { result_map_both line_of fault_of result ≡ block_of_words words.entry }
{
    let Some((start, mode)) = three_words(words) else {
        return Err(LineFault::Syntax);
    };
    let Some(mode) = read_mode(mode) else {
        return Err(LineFault::Syntax);
    };
    match both(read_name(start.0), read_byte(start.1, LAST_INSTRUCTION)) {
        Ok(parts) => Ok(Line::Block {
            program: parts.0,
            point: parts.1,
            mode,
        }),
        Err(fault) => Err(fault),
    }
}

/// The digits behind `r`, and the ends of an interval.
fn read_register(digits: &[u8], words: Words<'_>) -> Result<Line, LineFault>
    ensures { result_map_both line_of fault_of result ≡ register_of_words digits.now words.entry }
{
    let Some((low, high)) = two_words(words) else {
        return Err(LineFault::Syntax);
    };
    match both(read_byte(digits, LAST_REGISTER), read_interval(low, high)) {
        Ok(parts) => Ok(Line::Register {
            register: parts.0,
            interval: parts.1,
        }),
        Err(fault) => Err(fault),
    }
}

/// The words behind `fd`: a number of the table, and what it may be.
fn read_descriptor(version: Version, mut words: Words<'_>) -> Result<Line, LineFault>
    ensures { result_map_both line_of fault_of result ≡ descriptor_of_words (version_of version) words.entry }
{
    let number = next_word(&mut words)?;
    match both(
        read_byte(number, LAST_DESCRIPTOR),
        read_slot(version, words),
    ) {
        Ok(parts) => Ok(Line::Slot {
            number: parts.0,
            slot: parts.1,
        }),
        Err(fault) => Err(fault),
    }
}

/// The words behind `chan`: a class, a side, and what it sends.
fn read_channel(version: Version, mut words: Words<'_>) -> Result<Line, LineFault>
    ensures { result_map_both line_of fault_of result ≡ channel_of_words (version_of version) words.entry }
{
    let Some((class, side)) = next_two(&mut words) else {
        return Err(LineFault::Syntax);
    };
    let Some(side) = read_side(side) else {
        return Err(LineFault::Syntax);
    };
    match both(read_class(class), read_sends(version, words)) {
        Ok(parts) => Ok(Line::Channel(Channel::new(parts.0, side, parts.1))),
        Err(fault) => Err(fault),
    }
}

/// A line that begins with none of the other words: one of a register, `r` and its number without a space between.
fn read_other(first: &[u8], words: Words<'_>) -> Result<Line, LineFault>
    ensures { result_map_both line_of fault_of result ≡ other_line first.now words.entry }
{
    match first {
        [] => Err(LineFault::Syntax),
        [letter, digits @ ..] => {
            if *letter == b'r' {
                read_register(digits, words)
            } else {
                Err(LineFault::Syntax)
            }
        }
    }
}

/// The word behind `auth`: a program's name.
fn read_authority(words: Words<'_>) -> Result<Line, LineFault>
    ensures { result_map_both line_of fault_of result ≡ authority_of_words words.entry }
{
    let Some(program) = one_word(words) else {
        return Err(LineFault::Syntax);
    };
    match read_name(program) {
        Ok(program) => Ok(Line::Authority(program)),
        Err(fault) => Err(fault),
    }
}

/// The words behind `ceil`: a grant's name, and some rights.
fn read_ceiling(version: Version, mut words: Words<'_>) -> Result<Line, LineFault>
    ensures { result_map_both line_of fault_of result ≡ ceiling_of_words (version_of version) words.entry }
{
    let Some((grant, plain)) = next_two(&mut words) else {
        return Err(LineFault::Syntax);
    };
    let rights = read_ceiling_rights(plain, read_further_above(version, words));
    match both(read_name(grant), rights) {
        Ok(parts) => Ok(Line::Ceiling(Ceiling::new(parts.0, parts.1))),
        Err(fault) => Err(fault),
    }
}

/// The words behind `hold`: a class and a side.
fn read_end(words: Words<'_>) -> Result<Line, LineFault>
    ensures { result_map_both line_of fault_of result ≡ end_of_words words.entry }
{
    let Some((class, side)) = two_words(words) else {
        return Err(LineFault::Syntax);
    };
    let Some(side) = read_side(side) else {
        return Err(LineFault::Syntax);
    };
    match read_class(class) {
        Ok(class) => Ok(Line::Hold(End::new(class, side))),
        Err(fault) => Err(fault),
    }
}

/// A line of a version with authorities that begins with none of the words that lines of all versions begin with.
fn read_later(version: Version, first: &[u8], words: Words<'_>) -> Result<Line, LineFault>
    ensures { result_map_both line_of fault_of result ≡ later_line (version_of version) first.now words.entry }
{
    if is_word(first, Keyword::Auth) {
        read_authority(words)
    } else if is_word(first, Keyword::Ceil) {
        read_ceiling(version, words)
    } else if is_word(first, Keyword::Hold) {
        read_end(words)
    } else {
        read_other(first, words)
    }
}

/// The line that words stand for in a certificate of a version.
fn read_words(version: Version, mut words: Words<'_>) -> Result<Line, LineFault>
    ensures { result_map_both line_of fault_of result ≡ line_of_words (version_of version) words.entry }
{
    let first = next_word(&mut words)?;
    if is_word(first, Keyword::At) {
        read_block(words)
    } else if is_word(first, Keyword::Fd) {
        read_descriptor(version, words)
    } else if is_word(first, Keyword::Chan) {
        read_channel(version, words)
    } else if version.has_authorities() {
        read_later(version, first, words)
    } else {
        read_other(first, words)
    }
}

/// The line that a text without its line feed stands for in a certificate of a version.
#[tactic(auto, unfolding(crate::specs::Readings::line_of_text))]
pub(crate) fn read_line(version: Version, text: &[u8]) -> Result<Line, LineFault>
    ensures value { result_map_both line_of fault_of result ≡ line_of_text (version_of version) text.now }
    ensures valid { IfOk result (λ line. is_line (line_of line) ≡ true) }
    ensures version { IfOk result (λ line. is_of_version (version_of version) (line_of line) ≡ true) }
{
    read_words(version, Words::new(text))
}
