//! A name alone, which leads somewhere at once.

ghost use Rattle.std.specs.Prelude.{◌≡◌, ◌<◌, ◌∷◌, [], length, option_map, IfSome};
ghost use Rattle.file_tree.specs.Nodes.{child_of};
ghost use Rattle.file_tree.specs.Places.{path_components};
ghost use Rattle.file_tree.specs.WellFormed.{IsTree};
ghost use Rattle.lookup.specs.Answers.{Beneath};
ghost use Rattle.lookup.specs.AtOnce.{at_once, may_name, named_at_once};
ghost use Rattle.lookup.specs.Views.{found_of, last_of};
ghost use Rattle.lookup.specs.Walks.{Done, first_handled};

use crate::ways::{Found, Last};
use file_tree::{Kind, NodeId, Tree, is_valid_name};

/// Whether the path is one name that may be a node's, and the start a directory that wasn't removed.
fn may_name<T: Tree>(tree: &T, start: NodeId, path: &[u8]) -> bool
    requires { start < length (T.nodes tree.now) }
    ensures tree { IsTree (T.nodes tree.now) }
    ensures may { result ≡ may_name (T.nodes tree.now) start path.now }
{
    let is_name = is_valid_name(path);
    let is_directory = tree.kind(start) == Kind::Dir;
    let is_linked = tree.is_linked(start);
    is_name && is_directory && is_linked
}

/// What the name of a path leads to.
#[tactic(auto, using(file_tree::proofs::TreeLaws::child_there))]
fn named<T: Tree>(tree: &T, start: NodeId, name: &[u8], last: Last) -> Option<Found>
    requires tree { IsTree (T.nodes tree.now) }
    requires there { start < length (T.nodes tree.now) }
    ensures { option_map found_of result ≡ named_at_once (T.nodes tree.now) start (last_of last) (child_of (T.nodes tree.now) start name.now) }
{
    let is_kept = last == Last::Keep;
    match tree.child(start, name) {
        None if is_kept => Some(Found::Free(start)),
        None => None,
        Some(next) => {
            if !is_kept && tree.kind(next) == Kind::Link {
                return None;
            }
            Some(Found::Node(next))
        }
    }
}

/// What a path that is one name leads to beneath a directory, if it leads there at once: what has the name, but a link that is to be
/// followed; or, if the name is kept, that it is free. It is what a walk gives at its first event, and needs no memory. Nothing is
/// said of any other path: that takes a walk. (own)
#[tactic(auto, unfolding(crate::specs::AtOnce::at_once), using(crate::proofs::AtOnce::at_once_named))]
pub fn find_name<T: Tree>(tree: &T, start: NodeId, path: &[u8], last: Last) -> Option<Found>
    requires { start < length (T.nodes tree.now) }
    ensures tree { IsTree (T.nodes tree.now) }
    ensures exact { option_map found_of result ≡ at_once (T.nodes tree.now) start path.now (last_of last) }
    ensures first { IfSome result (λ found. first_handled (T.nodes tree.now) start path.now Beneath (last_of last) ≡ Done (found_of found)) }
    ensures alone { IfSome result (λ _. path_components path.now ≡ path.now ∷ []) }
{
    if !may_name(tree, start, path) {
        return None;
    }
    named(tree, start, path, last)
}
