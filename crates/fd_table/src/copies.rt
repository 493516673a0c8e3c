//! Copies of what is open, and the queues of socket pairs as a whole.

ghost use Rattle.std.specs.Prelude.{◌≡◌, IfOk, OnErr, OnOk, map};
ghost use Rattle.fd_table.specs.Kept.{half_in, queue};
ghost use Rattle.rights.specs.Views.{side_seen};
ghost use Rattle.fd_table.specs.StoredViews.{half_kept, message_kept, pair_kept, pairs_kept, tables_kept};

use crate::ends::{End, Message};
use crate::file_tables::FileTables;
use crate::pairs::{Half, Pair};
use rights::Memory;
use slab::Slab;
use std::alloc::AllocError;

impl Clone for Half {
    ghost is_clone = { λ half copy. half_kept copy ≡ half_kept half };

    fn clone(&self) -> Result<Half, AllocError> {
        let sent = self.sent.clone()?;
        Ok(Half {
            description: self.description,
            sent,
        })
    }
}

impl Clone for Pair {
    ghost is_clone = { λ pair copy. pair_kept copy ≡ pair_kept pair };

    fn clone(&self) -> Result<Pair, AllocError> {
        let a = self.a.clone()?;
        let b = self.b.clone()?;
        Ok(Pair { a, b })
    }
}

impl FileTables {
    /// The same once more. Want of memory alone keeps it from being made.
    pub(crate) fn copy(&self) -> Result<FileTables, Memory>
        ensures { IfOk result (λ tables. tables_kept tables ≡ tables_kept self.now) }
    {
        let entries = self.entries.copy(self.alloc)?;
        let descriptions = self.descriptions.clone()?;
        let pairs = self.pairs.clone()?;
        Ok(FileTables {
            alloc: self.alloc,
            entries,
            descriptions,
            pairs,
        })
    }

    /// Makes it the same as another one. Want of memory alone keeps it from that, and then nothing changes.
    pub(crate) fn copy_from(&mut self, other: &FileTables) -> Result<(), Memory>
        ensures ok { OnOk result (tables_kept self.new ≡ tables_kept other.now) }
        ensures err { OnErr result (tables_kept self.new ≡ tables_kept self.old) }
    {
        let descriptions = other.descriptions.clone()?;
        let pairs = other.pairs.clone()?;
        self.entries.copy_from(&other.entries);
        self.descriptions = descriptions;
        self.pairs = pairs;
        Ok(())
    }
}

/// What an end has sent that is on its way, the next to be received first.
pub(crate) fn sent_by(pairs: &Slab<Pair>, end: End) -> &[Message]
    ensures { map message_kept result.now ≡ queue (pairs_kept pairs.now.slots) end.pair (side_seen end.side) }
{
    match pairs.get(end.pair.number()) {
        Some(pair) => pair.half(end.side).sent.as_slice(),
        None => &[],
    }
}
