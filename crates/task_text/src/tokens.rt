//! The tokens of a TOML text, with their offsets. What is no TOML is cut into tokens too.

use crate::places::part;
use std::alloc::{AllocError, Global};

/// How a text in quotes is written: in which, and whether in three of them. In double ones a backslash escapes.
#[derive(Clone, Copy)]
pub(crate) struct Quoting {
    quote: u8,
    pub is_long: bool,
}

impl Quoting {
    /// Whether a backslash escapes what follows.
    pub(crate) fn has_escapes(self) -> bool {
        self.quote == b'"'
    }

    /// How many quotes it begins and ends with.
    fn width(self) -> usize {
        if self.is_long { 3 } else { 1 }
    }

    /// Whether a quote at an offset ends the text; of three, the last that may.
    fn ends_at(self, file: &[u8], offset: usize) -> bool {
        !self.is_long
            || has_three(file, offset, self.quote)
                && !has_three(file, offset.saturating_add(1), self.quote)
    }
}

/// What a token is.
#[derive(Clone, Copy)]
pub(crate) enum TokenKind {
    /// A bare key, a number, a date or a truth value.
    Word,
    Text(Quoting),
    OpenBrace,
    CloseBrace,
    OpenBracket,
    CloseBracket,
    Comma,
    Equals,
    NewLine,
    /// A text whose quotes are not closed.
    Unclosed,
}

/// A token, by the offsets of its first byte and of the one behind it; those of a text are within its quotes.
#[derive(Clone, Copy)]
pub(crate) struct Token {
    pub kind: TokenKind,
    pub start: usize,
    pub end: usize,
}

impl Token {
    /// Its bytes, as they are written.
    pub(crate) fn written<'a>(&self, file: &'a [u8]) -> &'a [u8] {
        part(file, self.start, self.end)
    }

    /// The offset behind it and its quotes.
    fn behind(&self) -> usize {
        match self.kind {
            TokenKind::Text(quoting) => self.end.saturating_add(quoting.width()),
            _ => self.end,
        }
    }
}

/// Whether a byte may stand in a word.
fn is_word_byte(byte: u8) -> bool {
    byte.is_ascii_alphanumeric() || b"_-+.:".contains(&byte)
}

/// What a byte between words is a token of by itself.
fn single(byte: u8) -> Option<TokenKind> {
    match byte {
        b'{' => Some(TokenKind::OpenBrace),
        b'}' => Some(TokenKind::CloseBrace),
        b'[' => Some(TokenKind::OpenBracket),
        b']' => Some(TokenKind::CloseBracket),
        b',' => Some(TokenKind::Comma),
        b'=' => Some(TokenKind::Equals),
        b'\n' => Some(TokenKind::NewLine),
        _ => None,
    }
}

/// Whether three quotes of this kind stand at an offset.
fn has_three(file: &[u8], offset: usize, quote: u8) -> bool {
    part(file, offset, offset.saturating_add(3)) == [quote, quote, quote].as_slice()
}

/// The text in quotes that begins at an offset.
fn text_at(file: &[u8], offset: usize, quote: u8) -> Token {
    let is_long = has_three(file, offset, quote);
    let quoting = Quoting { quote, is_long };
    let start = offset.saturating_add(quoting.width());
    let mut is_escaped = false;
    for (at, byte) in part(file, start, file.len()).iter().enumerate() {
        let end = start.saturating_add(at);
        if *byte == quote && !is_escaped && quoting.ends_at(file, end) {
            let kind = TokenKind::Text(quoting);
            return Token { kind, start, end };
        }
        if *byte == b'\n' && !is_long {
            let kind = TokenKind::Unclosed;
            return Token { kind, start, end };
        }
        is_escaped = quoting.has_escapes() && *byte == b'\\' && !is_escaped;
    }
    Token {
        kind: TokenKind::Unclosed,
        start,
        end: file.len(),
    }
}

/// The offset of the first byte from one on at which a word or a comment ends.
fn end_of_run(file: &[u8], start: usize, is_comment: bool) -> usize {
    let rest = part(file, start, file.len());
    let end = rest.iter().position(|byte| {
        *byte == b'\n' || !is_comment && !is_word_byte(*byte)
    });
    start.saturating_add(end.unwrap_or(rest.len()))
}

/// The token that begins with a byte at an offset, if one does: a word where nothing else does.
fn token_at(file: &[u8], start: usize, byte: u8) -> Option<Token> {
    let behind = start.saturating_add(1);
    match byte {
        b' ' | b'\t' | b'\r' | b'#' => None,
        b'"' | b'\'' => Some(text_at(file, start, byte)),
        _ => {
            let (kind, end) = match single(byte) {
                Some(kind) => (kind, behind),
                None => (TokenKind::Word, end_of_run(file, behind, false)),
            };
            Some(Token { kind, start, end })
        }
    }
}

/// The tokens of a text, without its comments.
pub(crate) fn tokens_of(alloc: Global, file: &[u8]) -> Result<Vec<Token>, AllocError> {
    let mut tokens = Vec::new(alloc);
    let mut next = 0;
    for (offset, byte) in file.iter().enumerate() {
        if offset < next {
            continue;
        }
        if let Some(token) = token_at(file, offset, *byte) {
            next = token.behind();
            tokens.push(token)?;
        } else if *byte == b'#' {
            next = end_of_run(file, offset, true);
        }
    }
    Ok(tokens)
}
