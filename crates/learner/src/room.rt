//! Where the parts of a task are made.

use records::{Entry, first_processes};
use std::alloc::{AllocError, Global};
use texts::{Page, Say};

/// Where the parts of a task are made. Where memory is refused, it goes on without the part, and notes that.
#[derive(Drop)]
pub(crate) struct Room {
    alloc: Global,
    is_short: bool,
}

impl Room {
    /// With nothing refused yet.
    pub(crate) fn new(alloc: Global) -> Room {
        Room {
            alloc,
            is_short: false,
        }
    }

    /// Where memory comes from.
    pub(crate) fn alloc(&self) -> Global {
        self.alloc
    }

    /// Whether memory was refused for some part.
    pub(crate) fn is_short(&self) -> bool {
        self.is_short
    }

    /// An empty list.
    pub(crate) fn list<T>(&self) -> Vec<T> {
        Vec::new(self.alloc)
    }

    /// Adds an item to a list.
    pub(crate) fn push<T: Drop>(&mut self, list: &mut Vec<T>, item: T) {
        if list.push(item).is_err() {
            self.is_short = true;
        }
    }

    /// Adds an item to others at a place, or behind them.
    pub(crate) fn insert<T: Drop>(&mut self, list: &mut Vec<T>, place: usize, item: T) {
        self.push(list, item);
        for at in (place..list.len().saturating_sub(1)).rev() {
            if at + 1 < list.len() {
                list.swap(at, at + 1);
            }
        }
    }

    /// Adds bytes to others.
    pub(crate) fn extend(&mut self, list: &mut Vec<u8>, bytes: &[u8]) {
        if list.extend_from_slice(bytes).is_err() {
            self.is_short = true;
        }
    }

    /// What was made, or an empty list where it couldn't be.
    fn made<T>(&mut self, made: Result<Vec<T>, AllocError>) -> Vec<T> {
        match made {
            Ok(list) => list,
            Err(_) => {
                self.is_short = true;
                Vec::new(self.alloc)
            }
        }
    }

    /// The first processes of a record.
    pub(crate) fn processes(&mut self, entries: &[Entry]) -> Vec<u32> {
        match first_processes(self.alloc, entries) {
            Ok(processes) => processes,
            Err(_) => {
                self.is_short = true;
                Vec::new(self.alloc)
            }
        }
    }

    /// The bytes of a page.
    pub(crate) fn bytes(&mut self, page: Page) -> Vec<u8> {
        let bytes = page.into_bytes();
        self.made(bytes)
    }

    /// The same bytes once more.
    pub(crate) fn copy(&mut self, bytes: &[u8]) -> Vec<u8> {
        let copy = Vec::from_slice(self.alloc, bytes);
        self.made(copy)
    }

    /// A text.
    pub(crate) fn text<S: Say>(&mut self, said: S) -> Vec<u8> {
        let mut page = Page::new(self.alloc);
        said.say(&mut page);
        self.bytes(page)
    }
}
