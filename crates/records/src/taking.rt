//! The words of a line, taken one after another.

ghost use Rattle.std.specs.Prelude.{◌≡◌, option_map};
ghost use Rattle.texts.specs.Bytes.{space};
ghost use Rattle.texts.specs.Parts.{parts};
ghost use Rattle.texts.specs.Words.{IsNext, is_used_up};
ghost use Rattle.records.specs.RestViews.{TakesIf};

use crate::strace_texts::same_bytes;
use std::marker::Model;
use texts::Words;

/// The words of a line that are left. The next one can be looked at before it is taken.
#[derive(Drop)]
pub(crate) struct Rest<'t> {
    next: Option<&'t [u8]>,
    words: Words<'t>,
}

impl<'t> Model for Rest<'t> {
    ghost use Rattle.std.specs.Prelude.{List, ℕ, option_map};
    ghost use Rattle.records.specs.RestViews.{left};

    ghost Value = { List (List ℕ) };

    ghost view = { λ r. left (option_map (λ word. word.now) r.next) r.words };
}

impl<'t> Rest<'t> {
    /// The words of this line.
    pub(crate) fn new(line: &'t [u8]) -> Rest<'t>
        ensures { result ≡ parts space line.entry.now }
    {
        let mut words = Words::new(line);
        let next = words.take();
        Rest { next, words }
    }

    /// The next word, or `None` where none is left.
    pub(crate) fn take(&mut self) -> Option<&'t [u8]>
        ensures { IsNext (option_map (λ word. word.now) result) self.old self.new }
    {
        let Some(word) = self.next else {
            return None;
        };
        self.next = self.words.take();
        Some(word)
    }

    /// Takes the next word if it is this one.
    pub(crate) fn take_if(&mut self, keyword: &[u8]) -> bool
        ensures { TakesIf result keyword.now self.old self.new }
    {
        let Some(next) = self.next else {
            return false;
        };
        if !same_bytes(next, keyword) {
            return false;
        }
        self.next = self.words.take();
        true
    }

    /// Whether no word is left.
    pub(crate) fn is_done(&self) -> bool
        ensures { result ≡ is_used_up self.now }
    {
        self.next.is_none()
    }
}
