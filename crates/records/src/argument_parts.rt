//! The arguments of a call, as strace writes them.

ghost use Rattle.std.specs.Prelude.{◌≡◌, ◌<◌, IfOk, IfSome, length, map, slice_index};
ghost use Rattle.texts.specs.Bytes.{comma};
ghost use Rattle.texts.specs.Parts.{joined};

use std::alloc::{AllocError, Global};

/// Where a byte stands, of text and strings.
#[derive(Clone, Copy)]
enum Place {
    Plain,
    /// In a string in quotes.
    Quoted,
    /// Behind a backslash in one.
    Escaped,
}

/// How deep a byte stands.
#[derive(Clone, Copy)]
struct Depth {
    /// So many brackets are open.
    brackets: usize,
    /// So many `<` of a descriptor's note are.
    notes: usize,
    place: Place,
    /// The byte before.
    last: u8,
}

/// That of the first byte.
const TOP: Depth = Depth {
    brackets: 0,
    notes: 0,
    place: Place::Plain,
    last: b' ',
};

impl Depth {
    /// So many notes, behind a plain byte. A note begins behind a number or `AT_FDCWD`, but `<<` begins none, and `->` ends none.
    fn notes_behind(self, byte: u8) -> usize {
        let may_begin = self.notes > 0 || self.last.is_ascii_digit() || self.last == b'D';
        match byte {
            b'<' if self.last == b'<' => self.notes.saturating_sub(1),
            b'<' if may_begin => self.notes.saturating_add(1),
            b'>' if self.last != b'-' => self.notes.saturating_sub(1),
            _ => self.notes,
        }
    }

    /// That of the byte behind this one.
    fn behind(self, byte: u8) -> Depth {
        let mut next = self;
        next.last = byte;
        match self.place {
            Place::Escaped => next.place = Place::Quoted,
            Place::Quoted if byte == b'"' => next.place = Place::Plain,
            Place::Quoted if byte == b'\\' => next.place = Place::Escaped,
            Place::Quoted => {}
            Place::Plain if byte == b'"' && self.notes == 0 => next.place = Place::Quoted,
            Place::Plain => {
                next.notes = self.notes_behind(byte);
                if self.notes == 0 {
                    next.brackets = match byte {
                        b'(' | b'[' | b'{' => self.brackets.saturating_add(1),
                        b')' | b']' | b'}' => self.brackets.saturating_sub(1),
                        _ => self.brackets,
                    };
                }
            }
        }
        next
    }
}

/// Where a byte first stands that belongs to no string, bracket or note: a comma behind an argument, or the bracket that closes all.
pub(crate) fn first_at_top(text: &[u8], sought: u8) -> Option<usize>
    ensures within { IfSome result (λ at. at < length text.now) }
    ensures there { IfSome result (λ at. slice_index text.now at ≡ sought) }
{
    let mut depth = TOP;
    for (at, byte) in text.iter().enumerate() {
        let is_plain = matches!(depth.place, Place::Plain);
        if *byte == sought && depth.brackets == 0 && depth.notes == 0 && is_plain {
            return Some(at);
        }
        depth = depth.behind(*byte);
    }
    None
}

/// The arguments of a call: the parts between the commas that stand in no string, bracket or note. With the commas they are the text.
pub(crate) fn arguments<'t>(alloc: Global, text: &'t [u8]) -> Result<Vec<&'t [u8]>, AllocError>
    ensures { IfOk result (λ parts. joined comma (map (λ part. part.now) parts.items) ≡ text.entry.now) }
{
    let mut parts = Vec::new(alloc);
    let mut rest = text;
    while let Some(at) = first_at_top(rest, b',') {
        parts.push(&rest[..at])?;
        rest = &rest[at + 1..];
    }
    parts.push(rest)?;
    Ok(parts)
}
