//! A text that grows, and what can be added to it.

ghost use Rattle.std.specs.Prelude.{◌≡◌, ◌-◌, ◌^◌, [], false, length, min, nat_eq, true, IfOk, IfSome, List, OnErr, OnOk, Option, None, Some, ℕ};
ghost use Rattle.std.specs.Fmt.{decimal};
ghost use Rattle.rights.specs.OperationLists.{operation_name};
ghost use Rattle.rights.specs.Views.{operation_of};
ghost use Rattle.texts.specs.PageViews.{Adds, both_said};

use crate::digits::Decimal;
use bitflags::Flags;
use rights::{Fcntls, Op, Rights, Side};
use std::alloc::{AllocError, Global};

/// A text that grows. Where memory is refused it goes on without what is added, and `finish` says so.
#[derive(Drop)]
pub struct Page {
    bytes: Vec<u8>,
    is_short: bool,
}

impl Page {
    /// An empty page.
    pub fn new(alloc: Global) -> Page
        ensures text { result.bytes.items ≡ [] }
        ensures whole { result.is_short ≡ false }
    {
        Page {
            bytes: Vec::new(alloc),
            is_short: false,
        }
    }

    /// What stands on it, as far as there was memory.
    pub fn as_bytes(&self) -> &[u8]
        ensures { result.now ≡ self.now.bytes.items }
    {
        &self.bytes
    }

    /// Whether nothing does.
    pub fn is_empty(&self) -> bool
        ensures { result ≡ nat_eq (length self.now.bytes.items) 0 }
    {
        self.bytes.is_empty()
    }

    /// What stands on it, if there was memory for all of it.
    pub fn finish(&self) -> Result<&[u8], AllocError>
        ensures whole { IfOk result (λ text. text.now ≡ self.now.bytes.items) }
        ensures ok { OnOk result (self.now.is_short ≡ false) }
        ensures err { OnErr result (self.now.is_short ≡ true) }
    {
        if self.is_short {
            return Err(AllocError);
        }
        Ok(&self.bytes)
    }

    /// The same, as a text of its own.
    pub fn into_bytes(self) -> Result<Vec<u8>, AllocError>
        ensures whole { IfOk result (λ text. text.items ≡ self.bytes.items) }
        ensures ok { OnOk result (self.is_short ≡ false) }
        ensures err { OnErr result (self.is_short ≡ true) }
    {
        if self.is_short {
            return Err(AllocError);
        }
        Ok(self.bytes)
    }

    /// Notes that memory was refused for something that should stand on it.
    pub fn fail(&mut self)
        ensures short { self.new.is_short ≡ true }
        ensures same { self.new.bytes ≡ self.old.bytes }
    {
        self.is_short = true;
    }

    /// Where its memory comes from.
    pub fn alloc(&self) -> Global {
        *self.bytes.allocator()
    }

    /// A list that was gathered for the page. Where memory was refused for that it is empty, and `finish` says so.
    pub fn gathered<T: Drop>(&mut self, list: Result<Vec<T>, AllocError>) -> Vec<T>
        ensures list { IfOk list (λ items. result ≡ items) }
        ensures whole { OnOk list (self.new ≡ self.old) }
        ensures short { OnErr list (self.new.is_short ≡ true) }
    {
        match list {
            Ok(items) => items,
            Err(AllocError) => {
                self.fail();
                Vec::new(self.alloc())
            }
        }
    }

    /// Adds bytes.
    pub fn bytes(&mut self, bytes: &[u8])
        ensures { Adds self.old self.new bytes.now }
    {
        if self.bytes.extend_from_slice(bytes).is_err() {
            self.is_short = true;
        }
    }

    /// Adds what another page has.
    pub fn page(&mut self, other: &Page)
        ensures text { Adds self.old self.new other.now.bytes.items }
        ensures whole { self.new.is_short ≡ false → other.now.is_short ≡ false }
    {
        self.bytes(&other.bytes);
        if other.is_short {
            self.is_short = true;
        }
    }
}

/// What can be added to a page.
pub trait Say {
    /// The text that it adds, where that is told.
    ghost said: { Self → Option (List ℕ) };

    /// Adds it.
    fn say(self, page: &mut Page)
        ensures { IfSome (said self) (λ text. Adds page.old page.new text) };
}

/// Adds what stands behind a page to it, one after another.
#[macro_export]
macro_rules! say {
    ($page:expr; $($part:expr),+ $(,)?) => {
        $crate::Say::say($crate::parts_of!($($part),+), $page)
    };
}

/// Parts as pairs: a part, and those behind it.
#[macro_export]
macro_rules! parts_of {
    ($last:expr) => { $last };
    ($first:expr, $($rest:expr),+) => { ($first, $crate::parts_of!($($rest),+)) };
}

/// Two parts, one behind the other.
impl<A: Say, B: Say> Say for (A, B) {
    ghost said = { λ parts. both_said (A.said parts.0) (B.said parts.1) };

    fn say(self, page: &mut Page) {
        let (first, second) = self;
        first.say(page);
        second.say(page);
    }
}

impl<'a> Say for &'a str {
    ghost said = { λ text. Some text.now };

    fn say(self, page: &mut Page) {
        page.bytes(self.as_bytes());
    }
}

impl<'a> Say for &'a [u8] {
    ghost said = { λ text. Some text.now };

    fn say(self, page: &mut Page) {
        page.bytes(self);
    }
}

/// What another page has. If memory was refused for some of that, it is so of this one too.
impl<'a> Say for &'a Page {
    ghost said = { λ page. Some page.now.bytes.items };

    fn say(self, page: &mut Page) {
        page.page(self);
    }
}

/// A number in decimal digits.
impl Say for u32 {
    ghost said = { λ number. Some (decimal number) };

    fn say(self, page: &mut Page) {
        page.bytes(Decimal::new(self).as_bytes());
    }
}

impl Say for u8 {
    ghost said = { λ number. Some (decimal number) };

    fn say(self, page: &mut Page) {
        u32::from(self).say(page);
    }
}

/// A number in decimal digits, up to the greatest of 32 bits.
impl Say for usize {
    ghost said = { λ number. Some (decimal (min number (2 ^ 32 - 1))) };

    fn say(self, page: &mut Page) {
        u32::try_from(self).unwrap_or(u32::MAX).say(page);
    }
}

/// The name of an operation.
impl Say for Op {
    ghost said = { λ op. Some (operation_name (operation_of op)) };

    fn say(self, page: &mut Page) {
        self.name().say(page);
    }
}

/// Adds the names of the flags of a set, each bit once, by its first name, with commas between them; `none` of an empty set.
fn say_names<F: Flags>(set: &F, page: &mut Page) {
    let mut separator: &[u8] = b"";
    for (name, _flag) in set.iter_names() {
        say!(page; separator, name);
        separator = b",";
    }
    if set.is_empty() {
        "none".say(page)
    }
}

/// The names of the rights of a set, or that it is all of those that every task may name. Where all further rights are in it nothing is
/// said of them.
impl Say for Rights {
    ghost said = { λ rights. None };

    fn say(self, page: &mut Page) {
        let noted = self.noted();
        if noted == Rights::plain() {
            return "all rights".say(page);
        }
        say_names(&noted, page)
    }
}

/// Rights, as they are told of a task that asks for further rights or of another.
#[derive(Clone, Copy)]
pub struct ToldRights {
    pub wide: bool,
    pub rights: Rights,
}

/// The names of the rights, or that it is all of those that the task may name.
impl Say for ToldRights {
    ghost said = { λ told. None };

    fn say(self, page: &mut Page) {
        let (rights, further) = (self.rights, Rights::further());
        if !self.wide {
            rights.say(page)
        } else if rights == Rights::all() {
            "all rights".say(page)
        } else if rights.contains(further) {
            let plain = rights.intersection(Rights::plain());
            say_names(&plain, page);
            " and all further rights".say(page)
        } else {
            say_names(&rights, page)
        }
    }
}

/// The names of the commands of a set.
impl Say for Fcntls {
    ghost said = { λ commands. None };

    fn say(self, page: &mut Page) {
        say_names(&self, page)
    }
}

/// The letter of a side.
impl Say for Side {
    ghost said = { λ side. None };

    fn say(self, page: &mut Page) {
        match self {
            Side::A => "a",
            Side::B => "b",
        }
        .say(page)
    }
}
