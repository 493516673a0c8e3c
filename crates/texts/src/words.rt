//! The words of a line, between its spaces.

ghost use Rattle.std.specs.Prelude.{◌≡◌, option_map};
ghost use Rattle.texts.specs.Bytes.{space};
ghost use Rattle.texts.specs.Parts.{parts};
ghost use Rattle.texts.specs.Words.{IsNext, is_used_up};

use crate::parts::first_part;
use std::marker::Model;

/// The words of a line, one after another: its parts between spaces. (own)
#[derive(Drop)]
pub struct Words<'t> {
    rest: Option<&'t [u8]>,
}

impl<'t> Model for Words<'t> {
    ghost use Rattle.std.specs.Prelude.{List, ℕ, option_map};
    ghost use Rattle.texts.specs.Words.{words_left};

    ghost Value = { List (List ℕ) };

    ghost view = { λ w. words_left (option_map (λ rest. rest.now) w.rest) };
}

impl<'t> Words<'t> {
    /// The words of this line. A line has one at least, and two spaces side by side have an empty one between them.
    pub fn new(line: &'t [u8]) -> Words<'t>
        ensures { result ≡ parts space line.entry.now }
    {
        Words { rest: Some(line) }
    }

    /// The next word, or `None` where none is left.
    pub fn take(&mut self) -> Option<&'t [u8]>
        ensures { IsNext (option_map (λ word. word.now) result) self.old self.new }
    {
        let rest = self.rest?;
        let (word, behind) = first_part(rest, b' ');
        self.rest = behind;
        Some(word)
    }

    /// Whether no word is left.
    pub fn is_done(&self) -> bool
        ensures { result ≡ is_used_up self.now }
    {
        self.rest.is_none()
    }
}
