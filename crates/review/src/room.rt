//! Where the parts of a page are made.

use page::{Item, Piece, Place};
use std::alloc::{AllocError, Global};
use texts::{Page, Say};

/// Where the parts of a page are made. Where memory is refused, it goes on without the part, and notes that.
#[derive(Drop)]
pub(crate) struct Room {
    alloc: Global,
    is_short: bool,
}

impl Room {
    /// With nothing refused yet.
    pub(crate) fn new(alloc: Global) -> Room {
        Room {
            alloc,
            is_short: false,
        }
    }

    /// Where memory comes from.
    pub(crate) fn alloc(&self) -> Global {
        self.alloc
    }

    /// Notes that memory was refused for some part.
    pub(crate) fn fail(&mut self) {
        self.is_short = true;
    }

    /// Whether memory was refused for some part.
    pub(crate) fn is_short(&self) -> bool {
        self.is_short
    }

    /// An empty list.
    pub(crate) fn list<T>(&self) -> Vec<T> {
        Vec::new(self.alloc)
    }

    /// Adds an item to a list.
    pub(crate) fn push<T: Drop>(&mut self, list: &mut Vec<T>, item: T) {
        if list.push(item).is_err() {
            self.is_short = true;
        }
    }

    /// What was made, or an empty list where it couldn't be.
    pub(crate) fn made<T>(&mut self, made: Result<Vec<T>, AllocError>) -> Vec<T> {
        match made {
            Ok(list) => list,
            Err(_) => {
                self.is_short = true;
                Vec::new(self.alloc)
            }
        }
    }

    /// The bytes of a page.
    pub(crate) fn bytes(&mut self, page: Page) -> Vec<u8> {
        let bytes = page.into_bytes();
        self.made(bytes)
    }

    /// A text.
    pub(crate) fn text<S: Say>(&mut self, said: S) -> Vec<u8> {
        let mut page = Page::new(self.alloc);
        said.say(&mut page);
        self.bytes(page)
    }

    /// Adds words to a sentence.
    pub(crate) fn plain<S: Say>(&mut self, sentence: &mut Vec<Piece>, said: S) {
        let words = self.text(said);
        self.push(sentence, Piece::Plain(words));
    }

    /// Adds a link to a point.
    pub(crate) fn link<S: Say>(&mut self, sentence: &mut Vec<Piece>, place: Place, said: S) {
        let words = self.text(said);
        self.push(sentence, Piece::Link(place, words));
    }

    /// Adds an item with nothing below it.
    pub(crate) fn item(&mut self, items: &mut Vec<Item>, words: Vec<Piece>) {
        let below = self.list();
        self.push(items, Item { words, below });
    }

    /// A sentence of words alone.
    pub(crate) fn sentence<S: Say>(&mut self, said: S) -> Vec<Piece> {
        let mut sentence = self.list();
        self.plain(&mut sentence, said);
        sentence
    }
}

/// A number of a point, a process or a program, which a task has at most 256 of.
pub(crate) fn short(number: usize) -> u8 {
    u8::try_from(number).unwrap_or(u8::MAX)
}
