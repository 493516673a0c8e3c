//! What is wanted behind the word of an instruction, in words.

use crate::known_words::{command_words, flag_words, further_words, is_of_freebsd, right_words};
use crate::near::{is_known, meant};
use prog_asm::Form;
use texts::{Page, say};

/// What is wanted at a place of this form.
pub(crate) fn wanted(form: Form) -> &'static str {
    match form {
        Form::Register => "a register r0 to r7",
        Form::Number => "a number from 0 to 4294967295",
        Form::Operand => "a register r0 to r7 or a number",
        Form::Path => "a path in double quotes",
        Form::Flags => "a list of read, write, append, create, trunc, joined by commas",
        Form::Rights | Form::AllRights => "a list of rights, joined by commas, or none",
        Form::FurtherRight => "a further right",
        Form::Commands => "GETFL, SETFL, both joined by a comma, or none",
        Form::Label => "a label",
        Form::Directory => "dir",
        Form::Else => "else and a label",
    }
}

/// The words that a list of this form is made of, or that its one word is one of.
pub(crate) fn words_of(form: Form) -> &'static [&'static str] {
    match form {
        Form::Flags => flag_words(),
        Form::Rights => right_words(false),
        Form::AllRights => right_words(true),
        Form::FurtherRight => further_words(),
        Form::Commands => command_words(),
        Form::Register | Form::Number | Form::Operand | Form::Path => &[],
        Form::Label | Form::Directory | Form::Else => &[],
    }
}

/// What a word of a list of this form is.
pub(crate) fn kind_of_word(form: Form) -> &'static str {
    match form {
        Form::Flags => "flag",
        Form::Rights | Form::AllRights | Form::FurtherRight => "right",
        Form::Commands => "command",
        Form::Register | Form::Number | Form::Operand | Form::Path => "word",
        Form::Label | Form::Directory | Form::Else => "word",
    }
}

/// The word of a list of this form that is meant by another. Beside further rights, what FreeBSD has more of is meant as it is.
fn meant_in(form: Form, word: &[u8]) -> Option<&'static str> {
    let is_wide = matches!(form, Form::AllRights | Form::FurtherRight);
    if is_wide && is_of_freebsd(true, word) {
        return None;
    }
    meant(word, words_of(form))
}

/// Adds a list of this form with its words as they were meant, parted by commas. Whether all its words are known then.
pub(crate) fn add_meant(page: &mut Page, list: &[u8], form: Form) -> bool {
    let mut separator = b"".as_slice();
    for word in list.split(|byte| *byte == b',' || *byte == b'|') {
        let Some(one) = meant_in(form, word) else {
            return false;
        };
        say!(page; separator, one);
        separator = b",";
    }
    true
}

/// Whether all words of a list are known.
pub(crate) fn has_known_words(list: &[u8], known: &[&str]) -> bool {
    list.split(|byte| *byte == b',')
        .all(|word| is_known(word, known))
}
