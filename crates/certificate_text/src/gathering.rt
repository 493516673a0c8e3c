//! Text that is gathered before a writer is given it.

ghost use Rattle.std.specs.Prelude.{◌≡◌, ◌+◌, ◌<◌, ◌≤◌, ◌-◌, ◌^◌, ◌++◌, ◌∷◌, ◌↔◌, [], length, IsTrue, OnOk};
ghost use Rattle.certificate_text.specs.WritingViews.{Gathers, Writes};

use rights::{Out, Stop, write_all};
use std::marker::Model;

/// How many bytes are gathered at most: more than a buffer of a writer mostly has, so that it hands them on as they are.
const MAX_BYTES: usize = 16384;

/// As many bytes as a line has at most, and a few more: it has at most ten words of at most 27 bytes, each with a byte behind it.
const MAX_LINE: usize = 288;

/// The text that is gathered. It takes no memory. (own)
#[derive(Drop)]
pub(crate) struct Room {
    bytes: [u8; MAX_BYTES],
    count: usize,
}

impl Model for Room {
    ghost use Rattle.std.specs.Prelude.{◌≤◌, ℕ, List, take};

    ghost Value = { List ℕ };

    ghost view = { λ r. take r.count r.bytes };

    ghost invariant = { λ r. r.count ≤ 16384 };
}

impl Room {
    /// Nothing is gathered.
    pub(crate) fn new() -> Room
        ensures { result ≡ [] }
    {
        Room {
            bytes: [0; MAX_BYTES],
            count: 0,
        }
    }

    /// Adds some bytes.
    pub(crate) fn push(&mut self, bytes: &[u8])
        requires { length self.old + length bytes.now ≤ 16384 }
        ensures { self.new ≡ self.old ++ bytes.now }
    {
        let end = self.count + bytes.len();
        self.bytes[self.count..end].copy_from_slice(bytes);
        self.count = end;
    }

    /// Adds a byte.
    pub(crate) fn push_byte(&mut self, byte: u8)
        requires { length self.old < 16384 }
        ensures { self.new ≡ self.old ++ byte ∷ [] }
    {
        self.bytes[self.count] = byte;
        self.count += 1;
    }

    /// Whether there is room for any line.
    fn has_room(&self) -> bool
        ensures { IsTrue result ↔ (length self.now + 288 ≤ 16384) }
    {
        self.count <= MAX_BYTES - MAX_LINE
    }

    /// Nothing is gathered any more.
    fn clear(&mut self)
        ensures { self.new ≡ [] }
    {
        self.count = 0;
    }

    /// What is gathered.
    fn as_slice(&self) -> &[u8]
        ensures { result.now ≡ self.now }
    {
        &self.bytes[..self.count]
    }
}

/// Hands on all that is gathered.
pub(crate) fn hand_on<W: Out>(out: &mut W, room: &Room) -> Result<(), Stop>
    requires { W.faults out.old < 2 ^ 64 - 1 }
    ensures { Writes result (W.taken out.old) (W.taken out.new) (W.faults out.old) (W.faults out.new) room.now }
{
    write_all(out, room.as_slice())
}

/// Sees to it that there is room for any line: hands on what is gathered if there isn't.
pub(crate) fn make_room<W: Out>(out: &mut W, room: &mut Room) -> Result<(), Stop>
    requires { W.faults out.old < 2 ^ 64 - 1 }
    ensures gathers { Gathers result (W.taken out.old) (W.taken out.new) (W.faults out.old) (W.faults out.new) room.old room.new [] }
    ensures room { OnOk result (length room.new + 288 ≤ 16384) }
{
    if room.has_room() {
        return Ok(());
    }
    hand_on(out, room)?;
    room.clear();
    Ok(())
}
