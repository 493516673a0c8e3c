//! HTML that grows. Nothing gets into it but constants of this crate, numbers, and texts that are escaped.

ghost use Rattle.std.specs.Prelude.{◌≡◌, [], false, length, true};

use crate::escaping::add_shown;
use std::alloc::Global;
use texts::{Page, Say, first_part};

/// What can stand in a template.
#[derive(Clone, Copy)]
pub(crate) enum Part<'p> {
    /// Markup and words of this crate.
    Markup(&'static str),
    /// A number in decimal digits.
    Number(u32),
    /// A text that isn't the page's own, escaped.
    Shown(&'p [u8]),
}

/// HTML that grows. Where memory is refused it goes on without what is added, and its page says so.
#[derive(Drop)]
pub struct Html {
    page: Page,
}

impl Html {
    /// Nothing yet.
    pub fn new(alloc: Global) -> Html
        ensures text { result.page.bytes.items ≡ [] }
        ensures whole { result.page.is_short ≡ false }
    {
        Html {
            page: Page::new(alloc),
        }
    }

    /// The page that it is.
    pub fn as_page(&self) -> &Page
        ensures { result.now ≡ self.now.page }
    {
        &self.page
    }

    /// How many bytes it has.
    pub(crate) fn len(&self) -> usize
        ensures { result ≡ length self.now.page.bytes.items }
    {
        self.page.as_bytes().len()
    }

    /// Where its memory comes from.
    pub(crate) fn alloc(&self) -> Global {
        self.page.alloc()
    }

    /// Notes that memory was refused for something that should stand in it.
    pub(crate) fn fail(&mut self)
        ensures short { self.new.page.is_short ≡ true }
        ensures same { self.new.page.bytes ≡ self.old.page.bytes }
    {
        self.page.fail()
    }

    /// Adds markup and words of this crate.
    pub(crate) fn markup(&mut self, text: &'static str) {
        self.page.bytes(text.as_bytes())
    }

    /// Adds a template, with the next part in place of each `@` of it.
    pub(crate) fn fill(&mut self, template: &'static str, parts: &[Part<'_>]) {
        let mut rest = template.as_bytes();
        for part in parts {
            let (front, back) = first_part(rest, b'@');
            self.page.bytes(front);
            self.put(*part);
            rest = back.unwrap_or(b"");
        }
        self.page.bytes(rest)
    }

    /// Adds what can stand in a template.
    fn put(&mut self, part: Part<'_>) {
        match part {
            Part::Markup(text) => self.markup(text),
            Part::Number(number) => number.say(&mut self.page),
            Part::Shown(text) => add_shown(&mut self.page, text),
        }
    }

    /// Adds a template with a text that isn't the page's own in it.
    pub(crate) fn show(&mut self, template: &'static str, text: &[u8]) {
        self.fill(template, &[Part::Shown(text)])
    }

    /// The same, unless the text is empty.
    pub(crate) fn show_some(&mut self, template: &'static str, text: &[u8]) {
        if !text.is_empty() {
            self.show(template, text)
        }
    }
}
