//! What the names of calls stand at.

use crate::argument_values::{Mention, here_note, place_note};
use crate::held::Referent;
use crate::known::Known;
use crate::seen_calls::SeenCall;
use crate::strace_texts::between;
use crate::strings::add_unescaped;
use texts::{Page, first_part};

/// Which arguments of a call a name is: a path, counted from a directory if there is one, else from the current one.
#[derive(Clone, Copy)]
pub(crate) struct PathArgument {
    pub base: Option<usize>,
    pub path: usize,
}

/// The first argument, from the current directory.
pub(crate) const HERE: PathArgument = PathArgument {
    base: None,
    path: 0,
};

/// The second argument, from the directory that the first one is.
pub(crate) const AT: PathArgument = PathArgument {
    base: Some(0),
    path: 1,
};

/// The same of the new name of a rename.
pub(crate) const NEW_HERE: PathArgument = PathArgument {
    base: None,
    path: 1,
};

pub(crate) const NEW_AT: PathArgument = PathArgument {
    base: Some(2),
    path: 3,
};

/// What a name of a call stands at, if that is known: a path beneath a directory's descriptor, or a place.
#[derive(Drop)]
pub(crate) struct Target<'t> {
    pub is_known: bool,
    pub base: Option<Mention<'t>>,
    pub path: Page,
}

/// Adds a path to a place that it is beneath.
fn add_beneath(place: &mut Page, path: &Page) {
    if !path.is_empty() {
        if !place.as_bytes().ends_with(b"/") {
            place.bytes(b"/");
        }
        place.page(path);
    }
}

impl Known {
    /// Adds the place that a path has which is counted from the root of the process, or from the current directory, if that is known: by its
    /// note, or else as it was followed. Whether it is known is told.
    fn add_from_here(&self, place: &mut Page, note: &[u8], path: &Page) -> bool {
        if path.as_bytes().starts_with(b"/") {
            if let Some(root) = self.place_of(self.process.root) {
                place.page(root);
            }
            place.page(path);
            return true;
        }
        if let Some(directory) = place_note(note) {
            add_unescaped(place, directory);
        } else if let Some(directory) = self.place_of(self.process.directory) {
            place.page(directory);
        } else {
            return false;
        }
        add_beneath(place, path);
        true
    }

    /// Finds what a path stands at.
    fn find<'t>(
        &self,
        target: &mut Target<'t>,
        seen: &SeenCall<'t>,
        naming: PathArgument,
        path: &Page,
    ) {
        let mut note: &[u8] = b"";
        if let (Some(base), false) = (naming.base, path.as_bytes().starts_with(b"/")) {
            match here_note(seen.argument(base)) {
                Some(directory) => note = directory,
                None => {
                    target.base = seen.mention(base);
                    target.is_known = target.base.is_some();
                    return target.path.page(path);
                }
            }
        }
        target.is_known = self.add_from_here(&mut target.path, note, path);
    }

    /// What a name of a call stands at, which is known where the string was written whole and isn't empty.
    pub(crate) fn target<'t>(&mut self, seen: &SeenCall<'t>, naming: PathArgument) -> Target<'t> {
        let mut target = Target {
            is_known: false,
            base: None,
            path: Page::new(self.alloc),
        };
        if let Some(text) = between(seen.argument(naming.path), b"\"", b"\"") {
            let mut path = Page::new(self.alloc);
            add_unescaped(&mut path, text);
            self.note(&path);
            if !path.is_empty() {
                self.find(&mut target, seen, naming, &path);
            }
            self.note(&target.path);
        }
        target
    }

    /// A place without empty names, `.` and `..`.
    fn tidied(&mut self, place: &Page) -> Page {
        let mut names: Vec<&[u8]> = Vec::new(self.alloc);
        let mut rest = Some(place.as_bytes());
        for _ in 0..=place.as_bytes().len() {
            let Some(text) = rest else {
                break;
            };
            let (name, behind) = first_part(text, b'/');
            rest = behind;
            match name {
                [] | [b'.'] => {}
                [b'.', b'.'] => {
                    names.pop();
                }
                _ if names.push(name).is_ok() => {}
                _ => self.is_short = true,
            }
        }
        let mut tidy = Page::new(self.alloc);
        for name in &names {
            tidy.bytes(b"/");
            tidy.bytes(name);
        }
        if tidy.is_empty() {
            tidy.bytes(b"/");
        }
        tidy
    }

    /// Notes that a process is in the directory that a note tells, if it tells one.
    pub(crate) fn note_directory(&mut self, note: &[u8]) {
        let Some(noted) = place_note(note) else {
            return;
        };
        let mut place = Page::new(self.alloc);
        add_unescaped(&mut place, noted);
        self.note(&place);
        let is_known = match self.place_of(self.process.directory) {
            Some(known) => known.as_bytes() == place.as_bytes(),
            None => false,
        };
        if !is_known {
            self.process.directory = self.keep(place);
        }
    }

    /// What a name stands at, as it is kept.
    pub(crate) fn kept_at(&mut self, target: &Target<'_>) -> Referent {
        let mut place = Page::new(self.alloc);
        if let Some(base) = target.base {
            let Some(directory) = self.place_of(self.process.table.kept(base.number)) else {
                return Referent::Unknown;
            };
            place.page(directory);
            add_beneath(&mut place, &target.path);
        } else if target.is_known {
            place.page(&target.path);
        } else {
            return Referent::Unknown;
        }
        self.note(&place);
        let tidy = self.tidied(&place);
        self.keep(tidy)
    }

    /// What the first argument of a call names, as it is kept.
    pub(crate) fn kept_named(&mut self, seen: &SeenCall<'_>) -> Referent {
        let target = self.target(seen, HERE);
        self.kept_at(&target)
    }
}
