//! One link changed: its stand, a child under a name, and its content.

ghost use Rattle.std.specs.Prelude.{◌≡◌, ◌<◌, ◌++◌, ◌∷◌, [], Some, None, length, vec_len, IfErr, OnOk, OnErr};
ghost use Rattle.file_tree.specs.Changes.{resized, written};
ghost use Rattle.link_tree.specs.Links.{filed, tree_entry, refilled, stood};
ghost use Rattle.link_tree.specs.LinkViews.{link_of, links_of, stand_of};

use crate::links::{Entry, Stand};
use file_tree::TreeFault;
use file_tree::contents::put;
use rights::limits::MAX_BYTES;
use std::alloc::AllocError;
use std::mem;

/// Files a child under a name in a directory.
pub(crate) fn file_under(
    entries: &mut Vec<Entry>,
    dir: usize,
    name: Vec<u8>,
    n: usize,
) -> Result<(), TreeFault>
    requires { dir < vec_len entries.old }
    ensures ok { OnOk result (links_of entries.new.items ≡ filed (links_of entries.old.items) dir name.items (Some n)) }
    ensures only_memory { IfErr result (λ e. e ≡ TreeFault.Memory) }
    ensures err { OnErr result (links_of entries.new.items ≡ links_of entries.old.items) }
{
    entries[dir].children.insert(name, n)?;
    Ok(())
}

/// Takes a name out of a directory.
pub(crate) fn unfile(entries: &mut Vec<Entry>, dir: usize, name: &[u8])
    requires { dir < vec_len entries.old }
    ensures { links_of entries.new.items ≡ filed (links_of entries.old.items) dir name.now None }
{
    entries[dir].children.remove(name);
}

/// Gives a node another stand, and takes the one that it had.
pub(crate) fn replace_stand(entries: &mut Vec<Entry>, n: usize, stand: Stand) -> Stand
    requires { n < vec_len entries.old }
    ensures changed { links_of entries.new.items ≡ stood (links_of entries.old.items) n (stand_of stand) }
    ensures before { stand_of result ≡ (tree_entry (links_of entries.old.items) n).stand }
{
    mem::replace(&mut entries[n].stand, stand)
}

/// Puts a node behind the others, and files it under a name in a directory.
pub(crate) fn push_under(
    entries: &mut Vec<Entry>,
    dir: usize,
    name: Vec<u8>,
    made: Entry,
) -> Result<(), TreeFault>
    requires { dir < vec_len entries.old }
    ensures ok { OnOk result (links_of entries.new.items ≡
        filed (links_of entries.old.items ++ link_of made ∷ []) dir name.items (Some (length (links_of entries.old.items)))) }
    ensures only_memory { IfErr result (λ e. e ≡ TreeFault.Memory) }
    ensures err { OnErr result (links_of entries.new.items ≡ links_of entries.old.items) }
{
    let number = entries.len();
    entries.push(made)?;
    match file_under(entries, dir, name, number) {
        Ok(()) => Ok(()),
        Err(fault) => {
            entries.pop();
            Err(fault)
        }
    }
}

/// Writes a byte into a node's content, the gap before it filled with zeros.
pub(crate) fn put_at(entries: &mut Vec<Entry>, n: usize, at: usize, b: u8) -> Result<(), AllocError>
    requires there { n < vec_len entries.old }
    requires at { at < MAX_BYTES }
    ensures ok { OnOk result (links_of entries.new.items ≡
        refilled (links_of entries.old.items) n (written (tree_entry (links_of entries.old.items) n).content at b)) }
    ensures err { OnErr result (links_of entries.new.items ≡ links_of entries.old.items) }
{
    put(&mut entries[n].content, at, b)?;
    Ok(())
}

/// Cuts a node's content, or fills it up with zeros.
pub(crate) fn resize_to(entries: &mut Vec<Entry>, n: usize, len: usize) -> Result<(), AllocError>
    requires { n < vec_len entries.old }
    ensures ok { OnOk result (links_of entries.new.items ≡
        refilled (links_of entries.old.items) n (resized (tree_entry (links_of entries.old.items) n).content len)) }
    ensures err { OnErr result (links_of entries.new.items ≡ links_of entries.old.items) }
{
    entries[n].content.resize(len, 0)?;
    Ok(())
}
