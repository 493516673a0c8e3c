//! The names that a lookup has left, in one text.

ghost use Rattle.std.specs.Prelude.{◌≡◌, ◌<◌, ◌≤◌, ◌-◌, ◌^◌, ◌++◌, ℕ, List, [], ◌∷◌, drop, take, length, nat_eq, slice_get, IfOk, MatchOption, OnOk};
ghost use Rattle.std.specs.Option.{option_copied};
ghost use Rattle.file_tree.specs.Places.{path_components, with_name};
ghost use Rattle.lookup.specs.NameViews.{AreSpansOf, IsSpanOf, spanned, all_spanned};

use std::alloc::{AllocError, Global};
use std::marker::Model;

/// Where a name lies in a text: it begins at a byte, and ends before another one.
#[derive(Clone, Copy)]
struct Span {
    start: usize,
    end: usize,
}

/// Names, the next one first. They lie in one text, to which what comes before them is appended; a name that was
/// passed stays in it. The next one is that of the last span.
#[derive(Drop)]
pub(crate) struct Names {
    text: Vec<u8>,
    spans: Vec<Span>,
}

impl Model for Names {
    ghost use Rattle.std.specs.Prelude.{ℕ, List};
    ghost use Rattle.lookup.specs.NameViews.{AreSpansOf, all_spanned};

    ghost Value = { List (List ℕ) };

    ghost view = { λ n. all_spanned n.text.items n.spans.items };

    ghost invariant = { λ n. AreSpansOf n.text.items n.spans.items };
}

/// The name that lies at a span.
fn name_in(text: &[u8], span: Span) -> &[u8]
    requires { IsSpanOf text.now span }
    ensures { result.now ≡ spanned text.now span }
{
    &text[span.start..span.end]
}

/// Puts a name of a text before others, unless it is empty.
fn put_name(spans: &mut Vec<Span>, start: usize, end: usize) -> Result<(), AllocError>
    requires { start ≤ end }
    ensures names { (text : List ℕ) → end ≤ length text → OnOk result
        (all_spanned text spans.new.items ≡ with_name (take (end - start) (drop start text)) (all_spanned text spans.old.items)) }
    ensures within { (text : List ℕ) → end ≤ length text → AreSpansOf text spans.old.items → AreSpansOf text spans.new.items }
{
    if start == end {
        return Ok(());
    }
    spans.push(Span { start, end })?;
    Ok(())
}

/// Puts the names of a path before others. The path is the end of a text, and is read from its end.
fn put_names(spans: &mut Vec<Span>, text: &[u8], from: usize) -> Result<(), AllocError>
    requires { from ≤ length text.now }
    ensures names { OnOk result (all_spanned text.now spans.new.items ≡ path_components (drop from text.now) ++ all_spanned text.now spans.old.items) }
    ensures within { AreSpansOf text.now spans.old.items → AreSpansOf text.now spans.new.items }
{
    let mut start = text.len();
    let mut end = start;
    while start > from {
        start -= 1;
        if text[start] == b'/' {
            put_name(spans, start + 1, end)?;
            end = start;
        }
    }
    put_name(spans, start, end)
}

impl Names {
    /// The names of a path.
    pub(crate) fn new(alloc: Global, path: &[u8]) -> Result<Names, AllocError>
        ensures { IfOk result (λ names. names ≡ path_components path.now) }
    {
        let text = Vec::from_slice(alloc, path)?;
        let mut spans = Vec::new(alloc);
        put_names(&mut spans, path, 0)?;
        Ok(Names { text, spans })
    }

    /// The same names once more. A refused growth is its only error.
    pub(crate) fn copy(&self, alloc: Global) -> Result<Names, AllocError>
        ensures { IfOk result (λ names. names ≡ self.now) }
    {
        let text = Vec::from_slice(alloc, &self.text)?;
        let spans = Vec::from_slice(alloc, &self.spans)?;
        Ok(Names { text, spans })
    }

    /// How many they are.
    pub(crate) fn len(&self) -> usize
        ensures { result ≡ length self.now }
    {
        self.spans.len()
    }

    /// Whether there is none.
    pub(crate) fn is_empty(&self) -> bool
        ensures empty { result ≡ nat_eq (length self.now) 0 }
        ensures short { length self.now < 2 ^ 64 }
    {
        self.spans.is_empty()
    }

    /// The next one, or nothing where there is none.
    pub(crate) fn next(&self) -> Option<&[u8]>
        ensures { MatchOption result (self.now ≡ []) (λ name. self.now ≡ name.now ∷ drop 1 self.now) }
    {
        match self.spans.last() {
            None => None,
            Some(span) => Some(name_in(&self.text, *span)),
        }
    }

    /// The one behind so many others, or nothing where there are no more.
    pub(crate) fn get(&self, at: usize) -> Option<&[u8]>
        ensures { option_copied result ≡ slice_get self.now at }
    {
        if at >= self.spans.len() {
            return None;
        }
        match self.spans.get(self.spans.len() - 1 - at) {
            None => None,
            Some(span) => Some(name_in(&self.text, *span)),
        }
    }

    /// Passes the next one, if there is one.
    pub(crate) fn pass(&mut self)
        ensures { self.new ≡ drop 1 self.old }
    {
        self.spans.pop();
    }

    /// Puts the names of a path before the others.
    pub(crate) fn put_before(&mut self, path: &[u8]) -> Result<(), AllocError>
        ensures { OnOk result (self.new ≡ path_components path.now ++ self.old) }
    {
        let from = self.text.len();
        self.text.extend_from_slice(path)?;
        put_names(&mut self.spans, &self.text, from)
    }
}
