//! A lookup under way, which takes an event for each name: the tree may change between two events.

ghost use Rattle.std.specs.Prelude.{◌≡◌, ◌<◌, ◌∷◌, None, length, nat_eq, slice_get, IfOk, IfErr, OnOk};
ghost use Rattle.std.specs.Option.{option_copied};
ghost use Rattle.file_tree.specs.WellFormed.{IsTree};
ghost use Rattle.lookup.specs.Answers.{Beneath};
ghost use Rattle.lookup.specs.Looks.{lookup_fault};
ghost use Rattle.lookup.specs.Walks.{IsInTree, begun, handled, work_left};
ghost use Rattle.lookup.specs.Views.{IsHandled, IsStand, StaysNear, Told, last_of, way_of};

use crate::faults::PathFault;
use crate::trail::Trail;
use crate::ways::{Last, Progress, Stand, Way};
use file_tree::{NodeId, Tree};
use std::alloc::{AllocError, Global};
use std::marker::Model;

/// A lookup under way. It has the names that it has left, the directories that it walked, and how many links
/// it followed; it owns them, so the tree may change as it likes. They stay where they are when it is moved.
#[derive(Drop)]
pub struct Walk {
    trail: Box<Trail>,
}

impl Model for Walk {
    ghost use Rattle.lookup.specs.Walks.{WalkState};
    ghost use Rattle.lookup.specs.Views.{walk_state};

    ghost Value = { WalkState };

    ghost view = { λ walk. walk_state walk.trail.value };
}

impl Walk {
    /// A lookup before its first name. What is wrong with the path's text or the start is told first, as by
    /// `find`. `Memory` may come in place of any other answer, and only where a growth was refused.
    pub fn begin<T: Tree>(
        alloc: Global,
        tree: &T,
        start: NodeId,
        path: &[u8],
        way: Way,
        last: Last,
    ) -> Result<Walk, PathFault>
        requires { start < length (T.nodes tree.now) }
        ensures tree { IsTree (T.nodes tree.now) }
        ensures allowed { OnOk result (lookup_fault (T.nodes tree.now) start path.now (way_of way) (last_of last) ≡ None) }
        ensures begun { IfOk result (λ walk. walk ≡ begun start path.now (way_of way) (last_of last)) }
        ensures in_tree { IfOk result (IsInTree (T.nodes tree.now)) }
        ensures refused { IfErr result (Told (lookup_fault (T.nodes tree.now) start path.now (way_of way) (last_of last))) }
    {
        let trail = Trail::begin(alloc, tree, start, path, way, last)?;
        Ok(Walk {
            trail: Box::new(alloc, trail)?,
        })
    }

    /// The same lookup once more. A refused growth is its only error.
    pub fn copy(&self, alloc: Global) -> Result<Walk, AllocError>
        ensures { IfOk result (λ walk. walk ≡ self.now) }
    {
        let trail = self.trail.copy(alloc)?;
        Ok(Walk {
            trail: Box::new(alloc, trail)?,
        })
    }

    /// Where it stands, and how it goes on, but for the names that it has left.
    pub fn stand(&self) -> Stand<'_>
        ensures { IsStand result self.now }
    {
        self.trail.stand()
    }

    /// The name behind so many others of those left, or nothing where there are no more.
    pub fn name_left(&self, at: usize) -> Option<&[u8]>
        ensures { option_copied result ≡ slice_get self.now.stand.left at }
    {
        self.trail.name_left(at)
    }

    /// Whether one name is left, the last one.
    pub fn one_left(&self) -> bool
        ensures { result ≡ nat_eq (length self.now.stand.left) 1 }
    {
        self.trail.one_left()
    }

    /// One event: looks the next name up in the tree as it is now, and ends where no name is left then.
    ///
    /// A name in what is no directory is `NotDir`, and in a directory that was removed `NoEntry`. `..` goes back to
    /// the directory walked before if that is the parent now, and else is `Escape` beneath, and `NoEntry` from the
    /// root; at the start it stays what it is for `find`. All else is as for `find`. After an error the walk
    /// is good for nothing. `Memory` may come in place of any other answer, and only where a growth was refused.
    pub fn step<T: Tree>(&mut self, tree: &T) -> Result<Progress, PathFault>
        requires { IsInTree (T.nodes tree.now) self.old }
        ensures event { IsHandled result (handled (T.nodes tree.now) self.old) self.new }

        // Its nodes are of the tree, and it comes to an end where it finds the tree as it was.
        ensures in_tree { result ≡ Ok Progress.More → IsInTree (T.nodes tree.now) self.new }
        ensures work { result ≡ Ok Progress.More → work_left self.new < work_left self.old }

        // Beneath its start it goes on to what the directory holds now, or back to what holds that now.
        ensures places { self.old.way ≡ Beneath → StaysNear (T.nodes tree.now) self.old.stand.cursor result self.new }
    {
        match self.trail.step(tree)? {
            Progress::More => Ok(self.trail.settle()),
            Progress::Done(found) => Ok(Progress::Done(found)),
        }
    }
}
