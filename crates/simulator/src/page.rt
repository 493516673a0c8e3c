//! The page on which the lines of a trace are gathered.

ghost use Rattle.file_tree.specs.Nodes.{node};
ghost use Rattle.file_tree.specs.Places.{place_text};
ghost use Rattle.std.specs.Prelude.{◌≡◌, ◌+◌, ◌++◌, ◌∷◌, ◌<◌, ◌≤◌, [], IfOk, OnErr, OnOk, length, replicate, take, vec_len};

use file_tree::{NodeId, Tree};
use std::alloc::{AllocError, Global};
use std::marker::Model;

/// The room of a page at first: for a piece of 16 KiB, and for the line that makes it one.
const ROOM: usize = 20480;

/// Whole lines, and a line that has begun, in a room that is made once and grows where a line is longer. What stands in the room
/// behind the line may be any bytes.
#[derive(Drop)]
pub(crate) struct Page {
    room: Vec<u8>,
    /// Where the line begins: what stands before it are the whole lines.
    start: usize,
    /// Where the line ends so far.
    end: usize,
    /// Room for a place, which is taken again and again.
    place: Vec<u8>,
}

impl Model for Page {
    ghost use Rattle.std.specs.Prelude.{◌≤◌, drop, length, take};
    ghost use Rattle.simulator.specs.Pages.{PageText};

    ghost Value = { PageText };

    ghost view = { λ p. record { lines = take p.start p.room.items; line = drop p.start (take p.end p.room.items) } };

    ghost invariant = { λ p. record { begun : p.start ≤ p.end; within : p.end ≤ length p.room.items } };
}

/// Makes so many bytes more of room.
#[cold]
#[inline(never)]
fn make_room(room: &mut Vec<u8>, additional: usize) -> Result<(), AllocError>
    ensures ok { OnOk result (room.new.items ≡ room.old.items ++ replicate additional 0) }
    ensures err { OnErr result (room.new.items ≡ room.old.items) }
{
    let Some(wanted) = room.len().checked_add(additional) else {
        return Err(AllocError);
    };
    room.resize(wanted, 0)
}

/// Puts the bytes here in the room.
fn put_bytes(room: &mut Vec<u8>, at: usize, bytes: &[u8])
    requires { at + length bytes.now ≤ vec_len room.old }
    ensures put { take (at + length bytes.now) room.new.items ≡ take at room.old.items ++ bytes.now }
    ensures len { vec_len room.new ≡ vec_len room.old }
{
    room[at..at + bytes.len()].copy_from_slice(bytes);
}

/// Puts the bytes here in the room, of which it makes more where they need that, and tells where they end. What stands before
/// them stays.
#[inline(always)]
fn append_at(room: &mut Vec<u8>, at: usize, bytes: &[u8]) -> Result<usize, AllocError>
    requires { at ≤ vec_len room.old }
    ensures put { IfOk result (λ end. take end room.new.items ≡ take at room.old.items ++ bytes.now) }
    ensures end { IfOk result (λ end. (at ≤ end) × (end ≤ vec_len room.new)) }
    ensures before { take at room.new.items ≡ take at room.old.items }
    ensures len { vec_len room.old ≤ vec_len room.new }
{
    if bytes.len() > room.len() - at {
        make_room(room, bytes.len())?;
    }
    put_bytes(room, at, bytes);
    Ok(at + bytes.len())
}

/// Writes the place of a node over what was written before.
fn write_place<T: Tree>(place: &mut Vec<u8>, tree: &T, n: NodeId) -> Result<(), AllocError>
    requires { n < length (T.nodes tree.now) }
    ensures { OnOk result (place.new.items ≡ place_text (node (T.nodes tree.now) n).place) }
{
    place.clear();
    if tree.place_text(n, place).is_err() {
        return Err(AllocError);
    }
    Ok(())
}

/// Puts the word here in the room.
fn put_word<const N: usize>(room: &mut Vec<u8>, at: usize, word: &[u8; N])
    requires { at + N ≤ vec_len room.old }
    ensures put { take (at + N) room.new.items ≡ take at room.old.items ++ word.now }
    ensures len { vec_len room.new ≡ vec_len room.old }
{
    for (i, byte) in word.iter().enumerate() {
        room[at + i] = *byte;
    }
}

impl Page {
    /// An empty page.
    pub(crate) fn new(alloc: Global) -> Result<Page, AllocError>
        ensures lines { IfOk result (λ page. page.lines ≡ []) }
        ensures line { IfOk result (λ page. page.line ≡ []) }
    {
        Ok(Page {
            room: Vec::from_slice(alloc, &[0; ROOM])?,
            start: 0,
            end: 0,
            place: Vec::new(alloc),
        })
    }

    /// Appends a byte to the line.
    #[inline(always)]
    pub(crate) fn push(&mut self, byte: u8) -> Result<(), AllocError>
        ensures lines { self.new.lines ≡ self.old.lines }
        ensures line { OnOk result (self.new.line ≡ self.old.line ++ byte ∷ []) }
    {
        if self.end == self.room.len() {
            make_room(&mut self.room, 1)?;
        }
        self.room[self.end] = byte;
        self.end += 1;
        Ok(())
    }

    /// Appends bytes to the line.
    #[inline(always)]
    pub(crate) fn append(&mut self, bytes: &[u8]) -> Result<(), AllocError>
        ensures lines { self.new.lines ≡ self.old.lines }
        ensures line { OnOk result (self.new.line ≡ self.old.line ++ bytes.now) }
    {
        self.end = append_at(&mut self.room, self.end, bytes)?;
        Ok(())
    }

    /// Appends the place of a node to the line.
    pub(crate) fn append_place<T: Tree>(&mut self, tree: &T, n: NodeId) -> Result<(), AllocError>
        requires { n < length (T.nodes tree.now) }
        ensures lines { self.new.lines ≡ self.old.lines }
        ensures line { OnOk result (self.new.line ≡ self.old.line ++ place_text (node (T.nodes tree.now) n).place) }
    {
        write_place(&mut self.place, tree, n)?;
        self.end = append_at(&mut self.room, self.end, &self.place)?;
        Ok(())
    }

    /// Appends a word to the line.
    #[inline(always)]
    pub(crate) fn append_word<const N: usize>(&mut self, word: &[u8; N]) -> Result<(), AllocError>
        ensures lines { self.new.lines ≡ self.old.lines }
        ensures line { OnOk result (self.new.line ≡ self.old.line ++ word.now) }
    {
        if N > self.room.len() - self.end {
            make_room(&mut self.room, N)?;
        }
        put_word(&mut self.room, self.end, word);
        self.end += N;
        Ok(())
    }

    /// Ends the line: it is one of the whole lines then.
    pub(crate) fn end_line(&mut self)
        ensures lines { self.new.lines ≡ self.old.lines ++ self.old.line }
        ensures line { self.new.line ≡ [] }
    {
        self.start = self.end;
    }

    /// The whole lines.
    pub(crate) fn lines(&self) -> &[u8]
        ensures { result.now ≡ self.now.lines }
    {
        &self.room[..self.start]
    }

    /// Takes everything off the page.
    pub(crate) fn clear(&mut self)
        ensures lines { self.new.lines ≡ [] }
        ensures line { self.new.line ≡ [] }
    {
        self.start = 0;
        self.end = 0;
    }
}
