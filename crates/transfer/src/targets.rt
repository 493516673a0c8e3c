//! What a new descriptor is bound by.

ghost use Rattle.std.specs.Prelude.{◌≡◌, option_map};
ghost use Rattle.certificate.specs.Views.{held_of, target_of};
ghost use Rattle.rules.specs.Outcomes.{all_held, beneath_target, may_be_end, may_be_node, target_of_path, unknown_held};
ghost use Rattle.task.specs.Views.{grants_of};

use certificate::{FcntlsRange, Held, RightsRange, Target};
use rights::{Fcntls, Rights};
use task::{Grant, Task};
use texts::Name;

/// What an open leads to, among these grants.
fn target_among(grants: &[Grant], path: &[u8]) -> Target
    ensures { target_of result ≡ target_of_path (grants_of grants.now) path.now }
{
    match grants {
        [] => Target::AnyNode,
        [first, rest @ ..] => {
            if first.path.text() == path {
                return Target::InGrant(first.name);
            }
            target_among(rest, path)
        }
    }
}

/// What an open of a path leads to: it lies in a grant where the path is the grant's, and else it is any node.
pub(crate) fn target_of_path(task: &Task, path: &[u8]) -> Target
    ensures { target_of result ≡ target_of_path task.now.grants path.now }
{
    target_among(task.grants(), path)
}

/// What is opened beneath a slot of this target, if anything can be.
pub(crate) fn beneath_target(target: &Target) -> Option<Target>
    ensures { option_map target_of result ≡ beneath_target (target_of target.now) }
{
    match target {
        Target::InGrant(_) | Target::AnyNode => Some(*target),
        Target::Socket(..) => None,
        Target::Unknown => Some(Target::AnyNode),
    }
}

/// All rights and commands on this target.
pub(crate) fn all_held(target: Target) -> Held
    ensures { held_of result ≡ all_held (target_of target) }
{
    Held::new(
        target,
        RightsRange::new(Rights::all(), Rights::all()),
        FcntlsRange::new(Fcntls::all(), Fcntls::all()),
    )
}

/// Any rights and commands on anything. (own)
pub fn unknown_held() -> Held
    ensures { held_of result ≡ unknown_held }
{
    Held::new(
        Target::Unknown,
        RightsRange::new(Rights::empty(), Rights::all()),
        FcntlsRange::new(Fcntls::empty(), Fcntls::all()),
    )
}

/// The same rights and commands on another target.
pub(crate) fn with_target(held: &Held, target: Target) -> Held
    ensures { held_of result ≡ record (held_of held.now) { target = target_of target } }
{
    Held::new(target, held.rights(), held.fcntls())
}

/// Whether it may be of an end of a socket pair. (own)
pub fn may_be_end(target: &Target) -> bool
    ensures { result ≡ may_be_end (target_of target.now) }
{
    match target {
        Target::InGrant(_) | Target::AnyNode => false,
        Target::Socket(..) | Target::Unknown => true,
    }
}

/// Whether it may be of a node. (own)
pub fn may_be_node(target: &Target) -> bool
    ensures { result ≡ may_be_node (target_of target.now) }
{
    match target {
        Target::InGrant(_) | Target::AnyNode | Target::Unknown => true,
        Target::Socket(..) => false,
    }
}
