//! What a text in quotes stands for, with the offset that each of its bytes comes from.

ghost use Rattle.std.specs.Prelude.{◌≡◌};
ghost use Rattle.task_text.specs.Instructions.{offset_of};

use crate::places::part;
use crate::tokens::{Token, TokenKind};
use std::alloc::{AllocError, Global};

/// A text, and for each of its bytes the offset in the file that it comes from.
#[derive(Drop)]
pub(crate) struct Decoded {
    pub bytes: Vec<u8>,
    pub offsets: Vec<usize>,
    /// The offset behind the text.
    pub end: usize,
}

impl Decoded {
    /// The offset in the file that a byte comes from; behind the last byte, that behind the text.
    pub(crate) fn offset(&self, at: usize) -> usize
        ensures { result ≡ offset_of self.now.offsets.items self.now.end at }
    {
        match self.offsets.get(at) {
            Some(offset) => *offset,
            None => self.end,
        }
    }
}

/// What an escape of one byte stands for; `?` where it is none.
fn escape(byte: u8) -> u8 {
    match byte {
        b'n' => b'\n',
        b't' => b'\t',
        b'r' => b'\r',
        b'"' | b'\\' => byte,
        _ => b'?',
    }
}

/// How many bytes a line's end at the beginning has, which a text in three quotes leaves out.
fn first_end(written: &[u8]) -> usize {
    match written {
        [b'\n', ..] => 1,
        [b'\r', b'\n', ..] => 2,
        _ => 0,
    }
}

/// Where a reader of escapes stands.
#[derive(Clone, Copy)]
enum Reading {
    Plain,
    /// Behind a backslash.
    Begun,
    /// Within a code of so many digits more.
    Code(u8),
    /// Behind a backslash at a line's end, where blanks are left out.
    Blanks,
}

/// What a byte of a text with escapes adds, and where that leads.
fn read(state: Reading, byte: u8) -> (Option<u8>, Reading) {
    match (state, byte) {
        (Reading::Begun, b'u') => (None, Reading::Code(4)),
        (Reading::Begun, b'U') => (None, Reading::Code(8)),
        (Reading::Begun, b'\n' | b'\r' | b' ') | (Reading::Blanks, b'\n' | b'\r' | b' ' | b'\t') =>
            (None, Reading::Blanks),
        (Reading::Begun, _) => (Some(escape(byte)), Reading::Plain),
        (Reading::Code(0 | 1), _) => (Some(b'?'), Reading::Plain),
        (Reading::Code(left), _) => (None, Reading::Code(left - 1)),
        (_, b'\\') => (None, Reading::Begun),
        _ => (Some(byte), Reading::Plain),
    }
}

/// What a token stands for; a character that is written by its code is `?`.
pub(crate) fn decode(alloc: Global, file: &[u8], token: Token) -> Result<Decoded, AllocError> {
    let mut text = Decoded {
        bytes: Vec::new(alloc),
        offsets: Vec::new(alloc),
        end: token.end,
    };
    let (is_long, has_escapes) = match token.kind {
        TokenKind::Text(quoting) => (quoting.is_long, quoting.has_escapes()),
        _ => (false, false),
    };
    let left_out = if is_long {
        first_end(token.written(file))
    } else {
        0
    };
    let start = token.start.saturating_add(left_out);
    let mut state = Reading::Plain;
    for (at, byte) in part(file, start, token.end).iter().enumerate() {
        let (added, next) = if has_escapes {
            read(state, *byte)
        } else {
            (Some(*byte), state)
        };
        state = next;
        if let Some(byte) = added {
            text.bytes.push(byte)?;
            text.offsets.push(start.saturating_add(at))?;
        }
    }
    Ok(text)
}
