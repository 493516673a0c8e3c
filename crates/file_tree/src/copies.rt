//! Trees that can be copied.

ghost use Rattle.std.specs.Prelude.{◌≡◌, IfOk};

use crate::tree::Tree;
use rights::Memory;

/// A tree that can be copied.
pub trait CopyTree: Tree {
    /// The same tree once more: its nodes have the same numbers. Want of memory alone keeps it from being made. (own)
    fn copy(&self) -> Result<Self, Memory>
        ensures { IfOk result (λ tree. Self.nodes tree ≡ Self.nodes self.now) };
}
