//! Places: the names from the root down, compared, printed and made.

ghost use Rattle.std.specs.Prelude.{◌≡◌, ◌≤◌, ◌++◌, ◌-◌, ◌&&◌, [], ℕ, List, true, false, drop, is_some, length, take, slice_get, IfOk, IfSome, OnOk, OnErr, MatchOption};
ghost use Rattle.std.specs.Option.{option_copied};
ghost use Rattle.std.specs.Iterator.{YieldsFirstBy, item_count};
ghost use Rattle.std.specs.Cmp.Lexicographic.{slice_cmp};
ghost use Rattle.std.specs.Ordering.{nat_cmp};
ghost use Rattle.texts.specs.Parts.{parts};
ghost use Rattle.file_tree.specs.Places.{above, at_name, begins, ends_name, lies_at, names_text, path_components, place_text, same_place, slash, with_name};
ghost use Rattle.file_tree.specs.PlaceViews.{LastName, is_one_name, is_place_text, names_of};

use std::alloc::{AllocError, Global};
use std::cmp::Ordering;
use std::marker::Model;
use texts::first_part;

/// A place as one text: a `/` and then the name, for each name from the root down. (own)
#[derive(Drop)]
pub struct Place {
    text: Vec<u8>,
}

impl Model for Place {
    ghost use Rattle.std.specs.Prelude.{◌≡◌, ℕ, List, true};
    ghost use Rattle.file_tree.specs.PlaceViews.{is_place_text, names_of};

    ghost Value = { List (List ℕ) };

    ghost view = { λ p. names_of p.text.items };

    ghost invariant = { λ p. is_place_text p.text.items ≡ true };
}

/// The names of a place, one after another. (own)
#[derive(Drop)]
pub struct Names<'t> {
    rest: Option<&'t [u8]>,
}

impl<'t> Model for Names<'t> {
    ghost use Rattle.std.specs.Prelude.{ℕ, List, option_map};
    ghost use Rattle.file_tree.specs.PlaceViews.{names_left};

    ghost Value = { List (List ℕ) };

    ghost view = { λ n. names_left (option_map (λ rest. rest.now) n.rest) };
}

impl<'t> Iterator for Names<'t> {
    type Item = &'t [u8];

    ghost next_gives = { YieldsFirstBy (λ name. name.now) (λ names. names) };

    ghost remaining = { item_count (λ names. names) };

    /// The next name: what stands before the next `/`, or all that is left.
    fn next(&mut self) -> Option<&'t [u8]> {
        let rest = self.rest?;
        let (name, behind) = first_part(rest, b'/');
        self.rest = behind;
        Some(name)
    }
}

/// The text of the place above, and the last name behind it, of a place's text.
fn last_name(text: &[u8]) -> Option<(&[u8], &[u8])>
    requires { is_place_text text.now ≡ true }
    ensures { MatchOption result (text.now ≡ []) (λ last. LastName text.now last.0.now last.1.now) }
{
    for at in (0..text.len()).rev() {
        if text[at] == b'/' {
            return Some((&text[..at], &text[at + 1..]));
        }
    }
    None
}

/// The text of the place above a place's text.
fn text_above(text: &[u8]) -> &[u8]
    requires { is_place_text text.now ≡ true }
    ensures names { names_of result.now ≡ above (names_of text.now) }
    ensures text { is_place_text result.now ≡ true }
{
    match last_name(text) {
        None => text,
        Some((above, _name)) => above,
    }
}

/// A text with what is behind a front of another.
fn moved_text(alloc: Global, from: &[u8], to: &[u8], text: &[u8]) -> Result<Vec<u8>, AllocError>
    requires { length from.now ≤ length text.now }
    ensures { IfOk result (λ moved. moved.items ≡ to.now ++ drop (length from.now) text.now) }
{
    let mut moved = Vec::from_slice(alloc, to)?;
    moved.extend_from_slice(&text[from.len()..])?;
    Ok(moved)
}

/// Whether a name of a place ends before a text.
pub fn ends_name(text: &[u8]) -> bool
    ensures { result ≡ ends_name text.now }
{
    matches!(text, [] | [b'/', ..])
}

/// Whether a path is that of a place, or leads beneath it. The place is written without a slash at its end, so that of the root is empty. (own)
#[tactic(auto, unfolding(crate::specs::Places::lies_at))]
pub fn lies_at(place: &[u8], path: &[u8]) -> bool
    ensures { result ≡ lies_at place.now path.now }
{
    match path.strip_prefix(place) {
        None => false,
        Some(rest) => ends_name(rest),
    }
}

/// What stands behind a place in a path that is its own, with which nothing does, or that leads beneath it.
#[tactic(auto, unfolding(crate::specs::Places::lies_at))]
pub fn rest_beneath<'p>(place: &[u8], path: &'p [u8]) -> Option<&'p [u8]>
    ensures beneath { is_some result ≡ lies_at place.now path.entry.now }
    ensures rest { IfSome result (λ rest. rest.now ≡ drop (length place.now) path.entry.now) }
{
    match path.strip_prefix(place) {
        None => None,
        Some(rest) => { if ends_name(rest) { Some(rest) } else { None } }
    }
}

impl Place {
    /// The root's place.
    pub fn root(alloc: Global) -> Place
        ensures { result ≡ [] }
    {
        Place {
            text: Vec::new(alloc),
        }
    }

    /// The place of the names that a text has between each `/`. A refused growth is its only error.
    pub fn of_names(alloc: Global, names: &[u8]) -> Result<Place, AllocError>
        ensures { IfOk result (λ place. place ≡ parts slash names.now) }
    {
        let mut text = Vec::with_capacity(alloc, names.len() + 1)?;
        text.push(b'/')?;
        text.extend_from_slice(names)?;
        Ok(Place { text })
    }

    /// Whether it is the root's.
    pub fn is_root(&self) -> bool
        ensures { result ≡ same_place self.now [] }
    {
        self.text.is_empty()
    }

    /// The same place once more. A refused growth is its only error.
    pub fn copy(&self, alloc: Global) -> Result<Place, AllocError>
        ensures { IfOk result (λ place. place ≡ self.now) }
    {
        let text = Vec::from_slice(alloc, &self.text)?;
        Ok(Place { text })
    }

    /// The place that it has once the one that it begins with is another. A refused growth is its only error.
    pub fn moved(&self, alloc: Global, from: &Place, to: &Place) -> Result<Place, AllocError>
        requires { begins from.now self.now ≡ true }
        ensures { IfOk result (λ place. place ≡ to.now ++ drop (length from.now) self.now) }
    {
        let text = moved_text(alloc, &from.text, &to.text, &self.text)?;
        Ok(Place { text })
    }

    /// Adds a name, which holds no `/`, behind the others. A refused growth is its only error, and leaves the place as it was.
    pub fn push(&mut self, name: &[u8]) -> Result<(), AllocError>
        requires { is_one_name name.now ≡ true }
        ensures ok { OnOk result (self.new ≡ at_name self.old name.now) }
        ensures err { OnErr result (self.new ≡ self.old) }
    {
        self.text.reserve(1 + name.len())?;
        self.text.push_reserved(b'/');
        self.text.extend_from_slice(name)?;
        Ok(())
    }

    /// The names, from the root down.
    pub fn names(&self) -> Names<'_>
        ensures { result ≡ self.now }
    {
        match self.text.as_slice() {
            [] => Names { rest: None },
            [_, rest @ ..] => Names { rest: Some(rest) },
        }
    }

    /// The place as it is printed: each name behind a `/`, and the root as `/` alone.
    pub fn text(&self) -> &[u8]
        ensures { result.now ≡ place_text self.now }
    {
        printed(&self.text)
    }

    /// Each name behind a `/`, which for the root is nothing.
    pub fn names_text(&self) -> &[u8]
        ensures { result.now ≡ names_text self.now }
    {
        &self.text
    }

    /// The last name, which the root hasn't.
    pub fn name(&self) -> Option<&[u8]>
        ensures { option_copied result ≡ slice_get self.now (length self.now - 1) }
    {
        match last_name(&self.text) {
            None => None,
            Some((_above, name)) => Some(name),
        }
    }

    /// The place above as it is printed, which for the root is the root.
    pub fn text_above(&self) -> &[u8]
        ensures { result.now ≡ place_text (above self.now) }
    {
        printed(text_above(&self.text))
    }

    /// Whether another place is the one above, which for the root is the root.
    pub fn stands_in(&self, directory: &Place) -> bool
        ensures { result ≡ same_place (above self.now) directory.now }
    {
        text_above(&self.text) == directory.text.as_slice()
    }

    /// Whether it is the place of a name in the directory at another place.
    pub fn is_child(&self, directory: &Place, name: &[u8]) -> bool
        ensures { result ≡ same_place (at_name directory.now name.now) self.now }
    {
        match last_name(&self.text) {
            None => false,
            Some((above, last)) => directory.text.as_slice() == above && name == last,
        }
    }

    /// Whether the two are the same.
    pub fn is_same(&self, other: &Place) -> bool
        ensures { result ≡ same_place self.now other.now }
    {
        self.text.as_slice() == other.text.as_slice()
    }

    /// The order of places: by the first name that differs, and of two names by the first byte.
    pub fn compare(&self, other: &Place) -> Ordering
        ensures { result ≡ slice_cmp (slice_cmp nat_cmp) self.now other.now }
    {
        self.names().cmp(other.names())
    }

    /// Whether it begins with another place, name by name.
    pub fn begins_with(&self, front: &Place) -> bool
        ensures { result ≡ begins front.now self.now }
    {
        lies_at(&front.text, &self.text)
    }

    /// Whether it begins with the names of a path, of which empty ones count for nothing.
    #[tactic(auto, unfolding(crate::specs::Places::path_components))]
    pub fn begins_with_path(&self, path: &[u8]) -> bool
        ensures { result ≡ begins (path_components path.now) self.now }
    {
        let mut names = self.names();
        let mut from = 0;
        for (i, byte) in path.iter().enumerate() {
            if *byte == b'/' {
                if !takes_name(&path[from..i], &mut names) {
                    return false;
                }
                from = i + 1;
            }
        }
        takes_name(&path[from..], &mut names)
    }

    /// Appends it as it is printed. A refused growth is its only error, and leaves what is there as it was.
    pub fn append_text(&self, out: &mut Vec<u8>) -> Result<(), AllocError>
        ensures ok { OnOk result (out.new.items ≡ out.old.items ++ place_text self.now) }
        ensures err { OnErr result (out.new.items ≡ out.old.items) }
    {
        out.extend_from_slice(self.text())
    }
}

/// A place's text as it is printed.
fn printed(text: &[u8]) -> &[u8]
    requires { is_place_text text.now ≡ true }
    ensures { result.now ≡ place_text (names_of text.now) }
{
    match text {
        [] => b"/",
        [..] => text,
    }
}

/// Whether the next of some names is this one; an empty name leaves all of them.
fn takes_name(name: &[u8], names: &mut Names<'_>) -> bool
    ensures { (rest : List (List ℕ)) → begins (with_name name.now rest) names.old ≡ (result && begins rest names.new) }
{
    if name.is_empty() {
        return true;
    }
    match names.next() {
        None => false,
        Some(next) => next == name,
    }
}
