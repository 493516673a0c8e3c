//! The plain list of nodes: how it is changed.

ghost use Rattle.std.specs.Prelude.{◌≡◌, ◌<◌, ◌++◌, None, true, length, map, vec_len, IfOk, IfErr, OnOk, OnErr};
ghost use Rattle.std.specs.List.{list_all};
ghost use Rattle.file_tree.specs.PlaceViews.{is_one_name};
ghost use Rattle.file_tree.specs.Places.{at_name};
ghost use Rattle.file_tree.specs.Nodes.{node};
ghost use Rattle.file_tree.specs.Changes.{filled, moved, removed, renamed, replaced_at, resized, written};
ghost use Rattle.file_tree.specs.Refusals.{create_fault, created, put_byte_fault, remove_fault, rename_fault, truncate_fault};
ghost use Rattle.file_tree.specs.WellFormed.{is_byte};
ghost use Rattle.file_tree.specs.Views.{TellsTreeFault, kind_of, new_content, new_kind};
ghost use Rattle.place_tree.specs.EntryViews.{node_of, nodes_of};

use crate::entries::{Entry, child_in, holds_below};
use file_tree::contents::{content_to_make, kind_to_make, put};
use file_tree::{Kind, New, NodeId, Place, TreeFault};
use rights::limits::{MAX_BYTES, MAX_NODES};
use std::alloc::{AllocError, Global};

/// The place of a name in the directory at a place.
fn child_place(alloc: Global, dir: &Place, name: &[u8]) -> Result<Place, AllocError>
    requires { is_one_name name.now ≡ true }
    ensures { IfOk result (λ place. place ≡ at_name dir.now name.now) }
{
    let mut place = dir.copy(alloc)?;
    place.push(name)?;
    Ok(place)
}

/// Makes a node of that name in a directory.
#[tactic(auto, unfolding(file_tree::specs::Refusals::created, file_tree::specs::Refusals::create_fault, file_tree::specs::Nodes::child_of))]
pub(crate) fn create_in(
    alloc: Global,
    entries: &mut Vec<Entry>,
    dir: usize,
    name: &[u8],
    what: New<'_>,
) -> Result<NodeId, TreeFault>
    requires there { dir < vec_len entries.old }
    requires name { is_one_name name.now ≡ true }
    ensures ok { IfOk result (λ n. (n ≡ length (nodes_of entries.old.items))
        × (nodes_of entries.new.items ≡ created (nodes_of entries.old.items) dir name.now (new_kind what.entry) (new_content what.entry))) }
    ensures allowed { OnOk result (create_fault (nodes_of entries.old.items) dir name.now ≡ None) }
    ensures refused { IfErr result (TellsTreeFault (create_fault (nodes_of entries.old.items) dir name.now)) }
    ensures bytes { OnOk result (list_all is_byte (new_content what.entry) ≡ true) }
    ensures err { OnErr result (nodes_of entries.new.items ≡ nodes_of entries.old.items) }
{
    let holder = &entries[dir];
    if !holder.linked {
        return Err(TreeFault::Gone);
    }
    if child_in(entries, dir, name).is_some() {
        return Err(TreeFault::Exists);
    }
    let number = entries.len();
    if number >= MAX_NODES {
        return Err(TreeFault::Full);
    }
    let place = child_place(alloc, &holder.place, name)?;
    let content = content_to_make(alloc, what)?;
    entries.push(Entry {
        kind: kind_to_make(what),
        linked: true,
        place,
        content,
    })?;
    Ok(NodeId::at(number))
}

/// Removes a node.
#[tactic(auto, unfolding(file_tree::specs::Changes::removed, file_tree::specs::Refusals::remove_fault))]
pub(crate) fn remove_in(entries: &mut Vec<Entry>, n: usize) -> Result<(), TreeFault>
    requires { n < vec_len entries.old }
    ensures ok { OnOk result (nodes_of entries.new.items ≡ removed (nodes_of entries.old.items) n) }
    ensures allowed { OnOk result (remove_fault (nodes_of entries.old.items) n ≡ None) }
    ensures refused { IfErr result (TellsTreeFault (remove_fault (nodes_of entries.old.items) n)) }
    ensures err { OnErr result (nodes_of entries.new.items ≡ nodes_of entries.old.items) }
{
    let entry = &entries[n];
    if !entry.linked {
        return Err(TreeFault::Gone);
    }
    if entry.place.is_root() {
        return Err(TreeFault::NotEmpty);
    }
    if holds_below(entries, &entry.place) {
        return Err(TreeFault::NotEmpty);
    }
    entries[n].linked = false;
    Ok(())
}

/// What a rename from one place to another makes of an entry.
fn moved_entry(alloc: Global, from: &Place, to: &Place, entry: &Entry) -> Result<Entry, AllocError>
    ensures { IfOk result (λ made. node_of made ≡ moved from.now to.now (replaced_at to.now (node_of entry.now))) }
{
    let content = Vec::from_slice(alloc, entry.content.as_slice())?;
    if entry.linked {
        if to.is_same(&entry.place) {
            return Ok(Entry {
                kind: entry.kind,
                linked: false,
                place: entry.place.copy(alloc)?,
                content,
            });
        }
        if entry.place.begins_with(from) {
            return Ok(Entry {
                kind: entry.kind,
                linked: entry.linked,
                place: entry.place.moved(alloc, from, to)?,
                content,
            });
        }
    }
    Ok(Entry {
        kind: entry.kind,
        linked: entry.linked,
        place: entry.place.copy(alloc)?,
        content,
    })
}

/// What a rename from one place to another makes of all entries.
fn moved_entries(
    alloc: Global,
    from: &Place,
    to: &Place,
    entries: &[Entry],
) -> Result<Vec<Entry>, AllocError>
    ensures { IfOk result (λ made. nodes_of made.items ≡ map (λ m. moved from.now to.now (replaced_at to.now m)) (nodes_of entries.now)) }
{
    let mut made = Vec::new(alloc);
    for entry in entries {
        made.push(moved_entry(alloc, from, to, entry)?)?;
    }
    Ok(made)
}

/// Gives a node that name in a directory. The new list is made first, and then it takes the old one's place.
#[tactic(auto, unfolding(file_tree::specs::Refusals::rename_fault))]
pub(crate) fn rename_in(
    alloc: Global,
    entries: &mut Vec<Entry>,
    n: usize,
    dir: usize,
    name: &[u8],
) -> Result<(), TreeFault>
    requires there { n < vec_len entries.old }
    requires dir_there { dir < vec_len entries.old }
    requires name { is_one_name name.now ≡ true }
    ensures ok { OnOk result (nodes_of entries.new.items ≡ renamed (nodes_of entries.old.items) n (at_name (node (nodes_of entries.old.items) dir).place name.now)) }
    ensures allowed { OnOk result (rename_fault (nodes_of entries.old.items) n dir name.now ≡ None) }
    ensures refused { IfErr result (TellsTreeFault (rename_fault (nodes_of entries.old.items) n dir name.now)) }
    ensures err { OnErr result (nodes_of entries.new.items ≡ nodes_of entries.old.items) }
{
    let entry = &entries[n];
    let holder = &entries[dir];
    if !entry.linked {
        return Err(TreeFault::Gone);
    }
    if !holder.linked {
        return Err(TreeFault::Gone);
    }
    let from = &entry.place;
    if from.is_child(&holder.place, name) {
        return Ok(());
    }
    let to = child_place(alloc, &holder.place, name)?;
    if to.begins_with(from) {
        return Err(TreeFault::IntoItself);
    }
    if holds_below(entries, &to) {
        return Err(TreeFault::NotEmpty);
    }
    let made = moved_entries(alloc, from, &to, entries)?;
    *entries = made;
    Ok(())
}

/// Writes a byte into a file.
#[tactic(auto, unfolding(file_tree::specs::Changes::filled))]
pub(crate) fn put_in(entries: &mut Vec<Entry>, n: usize, at: usize, b: u8) -> Result<(), TreeFault>
    requires { n < vec_len entries.old }
    ensures ok { OnOk result (nodes_of entries.new.items ≡
        filled (nodes_of entries.old.items) n (written (node (nodes_of entries.old.items) n).content at b)) }
    ensures allowed { OnOk result (put_byte_fault at ≡ None) }
    ensures refused { IfErr result (TellsTreeFault (put_byte_fault at)) }
    ensures err { OnErr result (nodes_of entries.new.items ≡ nodes_of entries.old.items) }
{
    if at >= MAX_BYTES {
        return Err(TreeFault::Full);
    }
    put(&mut entries[n].content, at, b)?;
    Ok(())
}

/// Cuts a file, or fills it up with zeros.
#[tactic(auto, unfolding(file_tree::specs::Changes::filled))]
pub(crate) fn truncate_in(entries: &mut Vec<Entry>, n: usize, len: usize) -> Result<(), TreeFault>
    requires { n < vec_len entries.old }
    ensures ok { OnOk result (nodes_of entries.new.items ≡
        filled (nodes_of entries.old.items) n (resized (node (nodes_of entries.old.items) n).content len)) }
    ensures allowed { OnOk result (truncate_fault len ≡ None) }
    ensures refused { IfErr result (TellsTreeFault (truncate_fault len)) }
    ensures err { OnErr result (nodes_of entries.new.items ≡ nodes_of entries.old.items) }
{
    if len > MAX_BYTES {
        return Err(TreeFault::Full);
    }
    entries[n].content.resize(len, 0)?;
    Ok(())
}
