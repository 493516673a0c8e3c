//! What a policy holds and lists.

ghost use Rattle.std.specs.Prelude.{◌≡◌, option_map};
ghost use Rattle.rights.specs.Views.{operation_of};
ghost use Rattle.file_tree.specs.Nodes.{node};
ghost use Rattle.task.specs.Policies.{grant_holds, grant_lists, grant_named};
ghost use Rattle.task.specs.Views.{grant_of, grants_of, nodes_of};

use crate::grants::Grant;
use crate::nodes::{TaskNode, node_begins};
use rights::Op;

/// The first grant of this name, if there is one.
#[tactic(auto, unfolding(crate::specs::Policies::grant_named))]
pub fn grant_named<'a>(grants: &'a [Grant], name: &[u8]) -> Option<&'a Grant>
    ensures { option_map (λ g. grant_of g.now) result ≡ grant_named (grants_of grants.now) name.now }
{
    match grants {
        [] => None,
        [first, rest @ ..] => {
            if first.name.as_bytes() == name {
                return Some(first);
            }
            grant_named(rest, name)
        }
    }
}

/// Whether a node, by its number, is that of the grant of this name, or beneath it, name by name. A grant that isn't there holds
/// none, and a node that isn't there counts as the root.
pub fn grant_holds(grants: &[Grant], name: &[u8], nodes: &[TaskNode], number: u16) -> bool
    ensures { result ≡ grant_holds (grants_of grants.now) name.now (node (nodes_of nodes.now) number).place }
{
    match grant_named(grants, name) {
        None => false,
        Some(grant) => node_begins(nodes, number, &grant.path),
    }
}

/// Whether the grant of this name lists the operation. A grant that isn't there lists none.
pub fn grant_lists(grants: &[Grant], name: &[u8], operation: Op) -> bool
    ensures { result ≡ grant_lists (grants_of grants.now) name.now (operation_of operation) }
{
    match grant_named(grants, name) {
        None => false,
        Some(grant) => operation.is_listed(&grant.operations),
    }
}
