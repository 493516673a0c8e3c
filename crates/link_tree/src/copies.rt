//! Copies of a tree by links.

ghost use Rattle.std.specs.Prelude.{◌≡◌, IfOk};
ghost use Rattle.link_tree.specs.LinkViews.{link_of, links_of, stand_of};

use crate::links::{Entry, Stand};
use rights::Memory;
use std::alloc::Global;

/// The same stand once more.
fn copy_stand(alloc: Global, stand: &Stand) -> Result<Stand, Memory>
    ensures { IfOk result (λ copy. stand_of copy ≡ stand_of stand.now) }
{
    match stand {
        Stand::Root => Ok(Stand::Root),
        Stand::In { parent, name } => {
            let name = Vec::from_slice(alloc, name)?;
            Ok(Stand::In {
                parent: *parent,
                name,
            })
        }
        Stand::Out { place } => {
            let place = place.copy(alloc)?;
            Ok(Stand::Out { place })
        }
    }
}

/// The same node once more.
fn copy_entry(alloc: Global, entry: &Entry) -> Result<Entry, Memory>
    ensures { IfOk result (λ copy. link_of copy ≡ link_of entry.now) }
{
    let stand = copy_stand(alloc, &entry.stand)?;
    let children = entry.children.clone()?;
    let content = Vec::from_slice(alloc, &entry.content)?;
    Ok(Entry {
        kind: entry.kind,
        stand,
        children,
        content,
    })
}

/// The same nodes once more. Want of memory alone keeps them from being made.
pub(crate) fn copy_entries(alloc: Global, entries: &[Entry]) -> Result<Vec<Entry>, Memory>
    ensures { IfOk result (λ copies. links_of copies.items ≡ links_of entries.now) }
{
    let mut copies = Vec::with_capacity(alloc, entries.len())?;
    for entry in entries {
        let copy = copy_entry(alloc, entry)?;
        copies.push(copy)?;
    }
    Ok(copies)
}
