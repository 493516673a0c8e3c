//! The tables of all processes as one list of entries: sixteen for each of sixteen processes.

ghost use Rattle.std.specs.Prelude.{◌≡◌, ◌+◌, ◌*◌, ◌-◌, ◌≤◌, ◌<◌, None, length, replicate, slice_set, IfOk};
ghost use Rattle.std.specs.Prelude.{vec_capacity};
ghost use Rattle.fd_table.specs.Kept.{entry_at};
ghost use Rattle.fd_table.specs.OpenFiles.{lowest_from};
ghost use Rattle.fd_table.specs.EntryViews.{entries_kept, entry_kept};

use crate::descriptors::Descriptor;
use rights::limits::{MAX_DESCRIPTORS, MAX_PROCESSES};
use std::alloc::{AllocError, Global};
use std::marker::Model;

/// How many descriptor numbers a process has.
pub(crate) const NUMBERS: u8 = MAX_DESCRIPTORS as u8;

/// How many entries all tables have.
const ENTRIES: usize = MAX_PROCESSES * MAX_DESCRIPTORS;

/// The entries of all tables. What stands behind the last one that was put isn't kept: no descriptor is there. There is room for all.
#[derive(Drop)]
pub(crate) struct Entries {
    kept: Vec<Option<Descriptor>>,
}

impl Model for Entries {
    ghost use Rattle.std.specs.Prelude.{List, Option, length, vec_capacity, ◌≤◌};
    ghost use Rattle.fd_table.specs.Descriptions.{Descriptor};
    ghost use Rattle.fd_table.specs.EntryViews.{entries_kept};

    ghost Value = { List (Option Descriptor) };

    ghost view = { λ e. entries_kept e.kept.items };

    ghost invariant = { λ e. (length e.kept.items ≤ 256) × (256 ≤ vec_capacity e.kept) };
}

/// Sees to it that so many entries are kept.
fn keep(kept: &mut Vec<Option<Descriptor>>, count: usize)
    requires few { count ≤ 256 }
    requires within { length kept.old.items ≤ 256 }
    requires room { 256 ≤ vec_capacity kept.old }
    ensures same { entries_kept kept.new.items ≡ entries_kept kept.old.items }
    ensures enough { count ≤ length kept.new.items }
    ensures within { length kept.new.items ≤ 256 }
    ensures room { 256 ≤ vec_capacity kept.new }
{
    if kept.len() >= count {
        return;
    }
    for _at in kept.len()..count {
        kept.push_reserved(None);
    }
}

impl Entries {
    /// None in any table.
    pub(crate) fn new(alloc: Global) -> Result<Entries, AllocError>
        ensures { IfOk result (λ entries. entries ≡ replicate 256 None) }
    {
        let kept = Vec::with_capacity(alloc, ENTRIES)?;
        Ok(Entries { kept })
    }

    /// The same once more.
    pub(crate) fn copy(&self, alloc: Global) -> Result<Entries, AllocError>
        ensures { IfOk result (λ entries. entries ≡ self.now) }
    {
        let mut kept = Vec::with_capacity(alloc, ENTRIES)?;
        kept.extend_from_slice(&self.kept)?;
        Ok(Entries { kept })
    }

    /// Makes them those of another one, in the room that is there.
    pub(crate) fn copy_from(&mut self, other: &Entries)
        ensures { self.new ≡ other.now }
    {
        self.kept.clear();
        match self.kept.extend_from_slice(&other.kept) {
            Ok(()) => {}
            Err(_) => unreachable!(),
        }
    }

    /// The entry of a process at a number.
    pub(crate) fn at(&self, p: u8, n: u8) -> Option<Descriptor>
        ensures { entry_kept result ≡ entry_at self.now p n }
    {
        let at = p as usize * MAX_DESCRIPTORS + n as usize;
        if n >= NUMBERS || at >= self.kept.len() {
            return None;
        }
        self.kept[at]
    }

    /// The lowest number of a process, from this one on, that has no entry.
    pub(crate) fn lowest(&self, p: u8, from: u8) -> Option<u8>
        requires { from ≤ 16 }
        ensures { result ≡ lowest_from (16 - from) from (entry_at self.now p) }
    {
        for n in from..NUMBERS {
            if self.at(p, n).is_none() {
                return Some(n);
            }
        }
        None
    }

    /// Changes an entry.
    pub(crate) fn set(&mut self, p: u8, n: u8, descriptor: Option<Descriptor>)
        requires process { p < 16 }
        requires number { n < 16 }
        ensures { self.new ≡ slice_set self.old (p * 16 + n) (entry_kept descriptor) }
    {
        let at = p as usize * MAX_DESCRIPTORS + n as usize;
        keep(&mut self.kept, at + 1);
        self.kept[at] = descriptor;
    }
}
