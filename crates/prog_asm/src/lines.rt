//! A line's comment and words.

ghost use Rattle.std.specs.Prelude.{◌≡◌, map, option_map, IfOk};
ghost use Rattle.instruction_set.specs.Lines.{is_blank, is_word_byte, quoted_behind, uncommented};
ghost use Rattle.prog_asm.specs.LineFaults.{stray_in};
ghost use Rattle.prog_asm.specs.LineViews.{span_seen, word_of};
ghost use Rattle.prog_asm.specs.WordPlaces.{placed_words};

use std::alloc::{AllocFailed, Global};

/// Whether the bytes behind this one are quoted, if it is itself.
fn is_quoted_behind(quoted: bool, byte: u8) -> bool
    ensures { result ≡ quoted_behind quoted byte }
{
    if byte == b'"' { !quoted } else { quoted }
}

/// The line before its comment, which a `;` outside quotes begins.
pub(crate) fn before_comment(line: &[u8]) -> &[u8]
    ensures { result.now ≡ uncommented line.now }
{
    let mut quoted = false;
    for (at, byte) in line.iter().enumerate() {
        if !quoted && *byte == b';' {
            return &line[..at];
        }
        quoted = is_quoted_behind(quoted, *byte);
    }
    line
}

/// Whether the byte parts words.
fn is_blank(byte: u8) -> bool
    ensures { result ≡ is_blank byte }
{
    byte == b' ' || byte == b'\t'
}

/// Whether words have the byte outside quotes.
fn may_stand_in_word(byte: u8) -> bool
    ensures { result ≡ is_word_byte byte }
{
    byte.is_ascii_alphanumeric() || byte == b'_' || byte == b':' || byte == b',' || byte == b'"'
}

/// A part of a line, from one byte to before another, counted from 0. (own)
#[derive(Clone, Copy, PartialEq, Eq)]
pub struct Span {
    pub start: usize,
    pub end: usize,
}

/// A word of a line, and where it stands.
#[derive(Clone, Copy)]
pub(crate) struct Word<'t> {
    pub text: &'t [u8],
    pub span: Span,
}

/// The words of a line: what stands between blanks outside quotes.
pub(crate) fn words(alloc: Global, line: &[u8]) -> Result<Vec<Word<'_>>, AllocFailed<Word<'_>>>
    ensures { IfOk result (λ words. map word_of words.items ≡ placed_words line.now) }
{
    let mut words = Vec::new(alloc);
    let mut quoted = false;
    let mut start = 0;
    for (at, byte) in line.iter().enumerate() {
        if !quoted && is_blank(*byte) {
            if start < at {
                let text = &line[start..at];
                let span = Span { start, end: at };
                words.push(Word { text, span })?;
            }
            start = at + 1;
        } else {
            quoted = is_quoted_behind(quoted, *byte);
        }
    }
    let end = line.len();
    if start < end {
        let text = &line[start..];
        let span = Span { start, end };
        words.push(Word { text, span })?;
    }
    Ok(words)
}

/// The first byte outside quotes that is neither a blank nor one that words have.
pub(crate) fn stray_in(line: &[u8]) -> Option<Span>
    ensures { option_map span_seen result ≡ stray_in line.now }
{
    let mut quoted = false;
    for (at, byte) in line.iter().enumerate() {
        if !quoted && !is_blank(*byte) && !may_stand_in_word(*byte) {
            return Some(Span {
                start: at,
                end: at + 1,
            });
        }
        quoted = is_quoted_behind(quoted, *byte);
    }
    None
}
