//! A whole lookup on an unchanged tree.

ghost use Rattle.std.specs.Prelude.{◌≡◌, ◌<◌, ℕ, None, false, length, IfOk, IfSome};
ghost use Rattle.file_tree.specs.Nodes.{is_link, node};
ghost use Rattle.file_tree.specs.WellFormed.{IsTree};
ghost use Rattle.lookup.specs.Answers.{Finding, Found_node};
ghost use Rattle.lookup.specs.Looks.{Looks, find_of, lookup_fault, start_place, walk_of};
ghost use Rattle.lookup.specs.Promises.{IsBelow, IsBeneath, IsFollowed, IsFreeName, IsFindingThere, IsUnderName, MayBeMade, Spells};
ghost use Rattle.lookup.specs.Views.{answer_of, found_of, last_of, way_of};

use crate::faults::PathFault;
use crate::walk::Walk;
use crate::ways::{Found, Last, Progress, Way};
use file_tree::{NodeId, Tree};
use std::alloc::Global;

/// What a walk from the start comes to.
fn walked<T: Tree>(
    alloc: Global,
    tree: &T,
    start: NodeId,
    path: &[u8],
    way: Way,
    last: Last,
) -> Result<Found, PathFault>
    requires { start < length (T.nodes tree.now) }
    ensures tree { IsTree (T.nodes tree.now) }
    ensures exact { IfSome (answer_of result) (λ answer. answer ≡ walk_of (T.nodes tree.now) start path.now (way_of way) (last_of last)) }
{
    let mut walk = Walk::begin(alloc, tree, start, path, way, last)?;
    loop {
        match walk.step(tree)? {
            Progress::More => {}
            Progress::Done(found) => return Ok(found),
        }
    }
}

/// What a path leads to from a start that is a file or a directory of the tree. The tree is left as it is.
///
/// First the path's text is asked, in this order: it has more than 1023 bytes, or a name in it more than
/// 255 (`TooLong`); it is empty (`NoEntry`); it begins with `/`, though it is to stay beneath the start
/// (`Escape`); its last name can't be kept (`BadLast`). Then, beneath, whether the start was removed
/// (`NoEntry`); else the lookup starts at the root.
///
/// Then it goes name by name. A name in what is no directory is `NotDir`. `.` stays. `..` goes back to the
/// directory walked before; at the start it is `Escape` beneath, and else stays. An absent name is
/// `NoEntry`, or free if it is the last one and kept. A link that isn't kept as the last name is followed:
/// its target's names come before those left. A 33rd one is `Loop`; an absolute target is `Escape` beneath,
/// and else starts again at the root.
///
/// `Memory` may come in place of any other answer, and only where a growth was refused. (open(2),
/// capsicum(4); the definitions mark what is own)
pub fn find<T: Tree>(
    alloc: Global,
    tree: &T,
    start: NodeId,
    path: &[u8],
    way: Way,
    last: Last,
) -> Result<Found, PathFault>
    requires there { start < length (T.nodes tree.now) }
    requires opened { is_link (node (T.nodes tree.now) start).kind ≡ false }

    // What it answers, the path leads to; and what the path leads to, it answers.
    ensures exact { IfSome (answer_of result) (λ answer. answer ≡ find_of (T.nodes tree.now) start path.now (way_of way) (last_of last)) }
    ensures related { IfSome (answer_of result) (Looks (T.nodes tree.now) start path.now (way_of way) (last_of last)) }
    ensures only { (answer : Finding) → Looks (T.nodes tree.now) start path.now (way_of way) (last_of last) answer → IfSome (answer_of result) (λ given. given ≡ answer) }

    // What is found wasn't removed. Beneath, its place begins with the start's; a kept one's is longer.
    ensures there { IfOk result (λ found. IsFindingThere (T.nodes tree.now) (found_of found)) }
    ensures beneath { IfOk result (λ found. IsBeneath (T.nodes tree.now) (start_place (T.nodes tree.now) start (way_of way)) (found_of found)) }
    ensures below { last ≡ Last.Keep → IfOk result (λ found. IsBelow (T.nodes tree.now) (start_place (T.nodes tree.now) start (way_of way)) path.now (found_of found)) }

    // A kept name is that of the node in its parent, or is free in a directory and may be that of a node.
    ensures named { last ≡ Last.Keep → IfOk result (λ found. IsUnderName (T.nodes tree.now) path.now (found_of found)) }
    ensures free { last ≡ Last.Keep → IfOk result (λ found. IsFreeName (T.nodes tree.now) path.now (found_of found)) }
    ensures may_be_made { last ≡ Last.Keep → IfOk result (λ found. MayBeMade path.now (found_of found)) }

    // A followed name is no link's.
    ensures followed { last ≡ Last.Follow → IfOk result (λ found. IsFollowed (T.nodes tree.now) (found_of found)) }

    // A path along directories leads to the node that it spells.
    ensures along { (n : ℕ) → lookup_fault (T.nodes tree.now) start path.now (way_of way) (last_of last) ≡ None →
        Spells (T.nodes tree.now) (start_place (T.nodes tree.now) start (way_of way)) path.now n →
        IfSome (answer_of result) (λ answer. answer ≡ Found_node n) }
{
    walked(alloc, tree, start, path, way, last)
}
