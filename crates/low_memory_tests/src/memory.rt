//! Memory that is used up.

use std::alloc::{AllocError, Global};

/// The bytes of a room: fewer than malloc(3) maps on their own (128 KiB), so that rooms stand in the heap.
const ROOM: usize = 65_528;

/// malloc(3) gives blocks whose sizes differ by this many bytes, with eight more for each.
pub(super) const STEP: usize = 16;

/// How many rooms there are: one for each size that may be left.
pub(super) const ROOMS: usize = ROOM / STEP;

/// The most bytes of a block that free(3) may keep for one of the same size.
const KEPT_FOR_ITS_SIZE: usize = 1032;

/// The most blocks that are taken.
const MOST_BLOCKS: usize = 1_000_000;

/// All memory that the system gives, taken. As much of it as is wanted may be left again, in one piece.
#[derive(Drop)]
pub(super) struct Scarcity {
    alloc: Global,
    rooms: Vec<Vec<u8>>,
    taken: Vec<Vec<u8>>,
}

impl Scarcity {
    /// Takes the rooms, and then all other memory.
    pub(super) fn new(alloc: Global) -> Result<Scarcity, AllocError> {
        let mut scarcity = Scarcity {
            alloc,
            rooms: Vec::with_capacity(alloc, ROOMS)?,
            taken: Vec::with_capacity(alloc, MOST_BLOCKS)?,
        };
        for _room in 0..ROOMS {
            scarcity.rooms.push(Vec::with_capacity(alloc, ROOM)?)?;
        }
        let mut size: usize = 1 << 46;
        for _halving in 0..40 {
            scarcity.take(size);
            size /= 2;
        }
        Ok(scarcity)
    }

    /// Takes blocks of a size until one is refused.
    fn take(&mut self, size: usize) {
        for _block in 0..MOST_BLOCKS {
            match Vec::with_capacity(self.alloc, size) {
                Ok(block) => {
                    if self.taken.push(block).is_err() {
                        return;
                    }
                }
                Err(_) => return,
            }
        }
    }

    /// Takes all that has come back, and then leaves so many bytes of a room, in one piece, malloc's own eight for each block among
    /// them. Whether there is nothing else. Each room is used once.
    pub(super) fn leave(&mut self, bytes: usize) -> bool {
        for smaller in 0..KEPT_FOR_ITS_SIZE / STEP {
            self.take(KEPT_FOR_ITS_SIZE - smaller * STEP);
        }
        if Vec::<u8>::with_capacity(self.alloc, 1).is_ok() {
            return false;
        }
        if bytes == 0 {
            return true;
        }
        if bytes >= ROOM || self.rooms.pop().is_none() {
            return false;
        }
        match Vec::with_capacity(self.alloc, ROOM - bytes) {
            Ok(block) => self.taken.push(block).is_ok(),
            Err(_) => false,
        }
    }
}
