//! Nodes that are made.

ghost use Rattle.std.specs.Prelude.{◌≡◌, ◌<◌, [], None, IfErr, IfOk, IsTrue, length};
ghost use Rattle.file_tree.specs.Places.{at_name, is_file_name};
ghost use Rattle.file_tree.specs.Nodes.{Dir, node};
ghost use Rattle.file_tree.specs.Refusals.{create_fault};
ghost use Rattle.file_tree.specs.Views.{is_new, new_content, new_kind};
ghost use Rattle.kernel.specs.Answers as answers;
ghost use Rattle.kernel.specs.Changes.{tree_after};

use crate::outcomes::{Refusal, want_of_memory};
use file_tree::{New, NodeId, Tree};

/// Makes an empty file or directory where nothing but want of memory can refuse it.
pub(crate) fn create_node<T: Tree>(
    tree: &mut T,
    dir: NodeId,
    name: &[u8],
    what: New<'_>,
) -> Result<NodeId, Refusal>
    requires there { dir < length (T.nodes tree.old) }
    requires directory { (node (T.nodes tree.old) dir).kind ≡ Dir }
    requires name { IsTrue (is_file_name name.now) }
    requires what { IsTrue (is_new what) }
    requires empty { new_content what ≡ [] }
    requires allowed { create_fault (T.nodes tree.old) dir name.now ≡ None }
    ensures number { IfOk result (λ n. n ≡ length (T.nodes tree.old)) }
    ensures there { IfOk result (λ n. n < length (T.nodes tree.new)) }
    ensures place { IfOk result (λ n. (node (T.nodes tree.new) n).place ≡ at_name (node (T.nodes tree.old) dir).place name.now) }
    ensures tree { IfOk result (λ n. T.nodes tree.new ≡ tree_after (T.nodes tree.old) (answers.Make (at_name (node (T.nodes tree.old) dir).place name.now) (new_kind what.entry))) }
    ensures only_memory { IfErr result (λ e. e ≡ Refusal.Memory) }
{
    let n = tree.create(dir, name, what).map_err(want_of_memory)?;
    Ok(n)
}
