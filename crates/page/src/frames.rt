//! Frames of the picture: lines of letters below each other, none of them longer than there is room.

ghost use Rattle.std.specs.Prelude.{◌≡◌, ◌+◌, ◌<◌, ◌≤◌, ◌⊎◌, ◌∷◌, ◌++◌, All, IfOk, false, length};
ghost use Rattle.texts.specs.Bytes.{space};

use crate::sentences::Tone;
use crate::stops::Stops;
use std::alloc::{AllocError, Global};
use texts::{Page, say};

/// The height of a line.
const LINE: u32 = 18;

/// Where the letters of a line stand, below its top.
const BASELINE: u32 = 13;

/// Where a wire leaves a row, below the row's top: the middle of its first line.
const PORT: u32 = 9;

/// The height past which a frame takes no more lines.
const MAX_HEIGHT: u32 = 1_000_000;

/// A text with how it is meant.
#[derive(Clone, Copy)]
pub struct Words<'t> {
    pub text: &'t [u8],
    pub tone: Tone,
}

/// No text.
pub const NO_WORDS: Words<'static> = Words {
    text: b"",
    tone: Tone::Plain,
};

/// A text that is beside the point.
pub fn faint(text: &[u8]) -> Words<'_>
    ensures { result.text.now ≡ text.now }
{
    let tone = Tone::Faint;
    Words { text, tone }
}

/// A line of letters. Each is printable ASCII.
#[derive(Drop)]
pub struct TextLine {
    pub letters: Vec<u8>,
    /// How many of them are the head, which stands out; more than there are if it fills the line.
    pub head: usize,
    pub head_tone: Tone,
    pub tail_tone: Tone,
    /// Where they stand, below the top of the frame.
    pub baseline: u32,
}

/// Lines below each other. Where memory is refused it goes on without what is added, and is short.
#[derive(Drop)]
pub struct Block {
    pub lines: Vec<TextLine>,
    /// How many letters a line takes.
    pub room: usize,
    pub height: u32,
    /// The heights of its rows' wires.
    pub ports: Stops,
    /// Whether memory was refused for some of it.
    pub is_short: bool,
    pub ghost fits: { All (λ line. length line.letters.items ≤ room) lines.items },
    pub ghost inside: { All (λ line. (13 ≤ line.baseline) × (line.baseline + 5 ≤ height)) lines.items },
    pub ghost low: { height ≤ 1_000_255 },
    pub ghost port: { ports.next ≤ height },
}

/// The letter of a line at a place: of its head, a blank, or from `begin` on of its tail. In the picture each letter is one byte.
fn letter_at(head: &[u8], begin: usize, tail: &[u8], at: usize) -> u8 {
    let byte = if at < head.len() {
        head[at]
    } else if begin <= at && at - begin < tail.len() {
        tail[at - begin]
    } else {
        b' '
    };
    if 32 <= byte && byte <= 126 {
        byte
    } else {
        b'?'
    }
}

/// The letters of a line: a head, blanks, and from `begin` on a tail, as far as there is room.
fn letters_of(
    alloc: Global,
    head: &[u8],
    begin: usize,
    tail: &[u8],
    room: usize,
) -> Result<Vec<u8>, AllocError>
    ensures { IfOk result (λ letters. length letters.items ≤ room) }
{
    let mut letters = Vec::new(alloc);
    for at in 0..begin.saturating_add(tail.len()).min(room) {
        letters.push(letter_at(head, begin, tail, at))?;
    }
    Ok(letters)
}

impl Block {
    /// No lines yet.
    pub fn new(alloc: Global, room: usize) -> Block
        ensures { result.room ≡ room }
    {
        Block {
            lines: Vec::new(alloc),
            room,
            height: 0,
            ports: Stops::new(alloc, 0),
            is_short: false,
        }
    }

    /// Leaves a space below the lines.
    pub fn space(&mut self, height: u8)
        ensures { self.new.room ≡ self.old.room }
    {
        if self.height <= MAX_HEIGHT {
            self.height += u32::from(height);
        }
    }

    /// Notes that a wire leaves the row that began at a height, if the row has a line. A full block has none of it.
    pub fn add_port(&mut self, top: u32)
        ensures { self.new.room ≡ self.old.room }
    {
        if self.ports.next <= top && top.saturating_add(LINE) <= self.height {
            self.is_short |= self.ports.push(top + PORT).is_err();
        }
    }

    /// Adds a line: a head, and behind it, from a column on, a tail. What there is no room for is left out.
    pub fn add(&mut self, head: Words<'_>, column: usize, tail: Words<'_>)
        ensures room { self.new.room ≡ self.old.room }
        ensures line { self.old.height ≤ 1_000_000 → self.old.height + 18 ≤ self.new.height }
        ensures grows { self.old.height ≤ self.new.height }
    {
        if self.height > MAX_HEIGHT {
            return;
        }
        let begin = if tail.text.is_empty() {
            head.text.len()
        } else {
            head.text.len().max(column)
        };
        let alloc = *self.lines.allocator();
        match letters_of(alloc, head.text, begin, tail.text, self.room) {
            Ok(letters) => {
                let line = TextLine {
                    letters,
                    head: begin,
                    head_tone: head.tone,
                    tail_tone: tail.tone,
                    baseline: self.height + BASELINE,
                };
                self.is_short |= self.lines.push(line).is_err();
            }
            Err(AllocError) => self.is_short = true,
        }
        self.height += LINE;
    }

    /// Adds a line with a tail that was put together.
    pub fn add_page(&mut self, head: Words<'_>, column: usize, tail: &Page, tone: Tone)
        ensures { self.new.room ≡ self.old.room }
    {
        self.is_short |= tail.finish().is_err();
        let text = tail.as_bytes();
        self.add(head, column, Words { text, tone })
    }

    /// Adds a text from a column on, broken between words, with a head before its first line.
    pub fn add_broken(&mut self, head: Words<'_>, column: usize, tail: Words<'_>)
        ensures { self.new.room ≡ self.old.room }
    {
        let (room, tone) = (self.room.saturating_sub(column).max(1), tail.tone);
        let (text, mut rest) = split_line(tail.text, room);
        self.add(head, column, Words { text, tone });
        while !rest.is_empty() {
            let (text, back) = split_line(rest, room);
            self.add(NO_WORDS, column, Words { text, tone });
            rest = back;
        }
    }
}

/// Where a line of a text ends: before the last blank that leaves at most so many letters, else after so many.
fn line_end(text: &[u8], room: usize) -> usize
    requires { 0 < room }
    ensures within { result ≤ length text.now }
    ensures fits { result ≤ room }
    ensures some { 0 < length text.now → 0 < result }
{
    if text.len() <= room {
        return text.len();
    }
    for end in (1..=room).rev() {
        if text[end] == b' ' {
            return end;
        }
    }
    room
}

/// The first line of a text, and what is left behind it, without the blank between them.
pub fn split_line(text: &[u8], room: usize) -> (&[u8], &[u8])
    requires { 0 < room }
    ensures fits { length result.0.now ≤ room }
    ensures whole { (text.now ≡ result.0.now ++ result.1.now) ⊎ (text.now ≡ result.0.now ++ space ∷ result.1.now) }
    ensures shorter { 0 < length text.now → length result.1.now < length text.now }
{
    let (front, back) = text.split_at(line_end(text, room));
    match back {
        [b' ', rest @ ..] => (front, rest),
        _ => (front, back),
    }
}

/// How many words are in a text with blanks between them.
pub(crate) fn count_words(text: &[u8]) -> u32 {
    let mut count: u32 = 0;
    let mut is_between = true;
    for byte in text {
        if is_between && *byte != b' ' {
            count = count.saturating_add(1);
        }
        is_between = *byte == b' ';
    }
    count
}

/// A path of at most so many letters: of a longer one the middle is left out.
pub fn shortened(alloc: Global, path: &[u8], room: usize) -> Page
    ensures { result.is_short ≡ false → length result.bytes.items ≤ room }
{
    let mut short = Page::new(alloc);
    if path.len() <= room || room < 3 {
        short.bytes(&path[..path.len().min(room)]);
        return short;
    }
    let front = (room - 3) / 2;
    let back = room - 3 - front;
    say!(&mut short; &path[..front], "...", &path[path.len() - back..]);
    short
}
