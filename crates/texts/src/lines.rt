//! The lines of a text, with where each begins.

ghost use Rattle.std.specs.Prelude.{◌≡◌, ◌<◌, ◌^◌, length};
ghost use Rattle.std.specs.Iterator.{YieldsFirstBy, item_count};
ghost use Rattle.texts.specs.Lines.{lines_of};
ghost use Rattle.texts.specs.LineViews.{line_of};

use crate::parts::first_part;
use std::marker::Model;

/// A line of a text. (own)
#[derive(Clone, Copy)]
pub struct Line<'t> {
    /// Its bytes, without the line feed.
    pub text: &'t [u8],
    /// Where it begins in the text.
    pub offset: usize,
    /// Whether a line feed ends it: none ends the last line.
    pub is_ended: bool,
}

/// The lines of a text, one after another. (own)
#[derive(Drop)]
pub struct Lines<'t> {
    rest: Option<&'t [u8]>,
    offset: usize,
}

impl<'t> Model for Lines<'t> {
    ghost use Rattle.std.specs.Prelude.{◌+◌, ◌<◌, ◌^◌, IfSome, List, length, option_map};
    ghost use Rattle.texts.specs.Lines.{Line};
    ghost use Rattle.texts.specs.LineViews.{lines_left};

    ghost Value = { List Line };

    ghost view = { λ l. lines_left l.offset (option_map (λ rest. rest.now) l.rest) };

    ghost invariant = { λ l. IfSome l.rest (λ rest. l.offset + length rest.now < 2 ^ 64) };
}

impl<'t> Lines<'t> {
    /// The lines of this text. Their number fits a `usize`.
    pub fn new(text: &'t [u8]) -> Lines<'t>
        ensures lines { result ≡ lines_of text.entry.now }
        ensures few { length result < 2 ^ 64 }
    {
        Lines {
            rest: Some(text),
            offset: 0,
        }
    }
}

impl<'t> Iterator for Lines<'t> {
    type Item = Line<'t>;

    ghost next_gives = { YieldsFirstBy line_of (λ lines. lines) };

    ghost remaining = { item_count (λ lines. lines) };

    /// The next line: what stands before the next line feed, or all that is left.
    fn next(&mut self) -> Option<Line<'t>> {
        let rest = self.rest?;
        let (text, behind) = first_part(rest, b'\n');
        let offset = self.offset;
        if behind.is_some() {
            self.offset += text.len() + 1;
        }
        self.rest = behind;
        Some(Line {
            text,
            offset,
            is_ended: behind.is_some(),
        })
    }
}
