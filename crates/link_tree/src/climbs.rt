//! Places in a tree by links, found by going up from a node to the root.

ghost use Rattle.std.specs.Prelude.{◌≡◌, ◌<◌, ◌++◌, true, ◌∷◌, [], length, take, IfOk, OnOk, OnErr, MatchOption};
ghost use Rattle.file_tree.specs.Nodes.{node};
ghost use Rattle.file_tree.specs.Places.{begins, names_text, path_components, place_text, slash};
ghost use Rattle.link_tree.specs.Links.{IsLinkedTree, linked_nodes};
ghost use Rattle.link_tree.specs.LinkViews.{links_of};
ghost use Rattle.link_tree.specs.MatchViews.{Matches};

use crate::links::{Entry, Stand};
use file_tree::Place;
use std::alloc::{AllocError, Global};

/// The place of a node.
pub(crate) fn place_in(alloc: Global, entries: &[Entry], n: usize) -> Result<Place, AllocError>
    requires linked { IsLinkedTree (links_of entries.now) }
    requires there { n < length entries.now }
    ensures { IfOk result (λ place. place ≡ (node (linked_nodes (links_of entries.now)) n).place) }
{
    let entry = &entries[n];
    match &entry.stand {
        Stand::Root => Ok(Place::root(alloc)),
        Stand::In { parent, name } => {
            let mut place = place_in(alloc, entries, *parent)?;
            place.push(name)?;
            Ok(place)
        }
        Stand::Out { place } => place.copy(alloc),
    }
}

/// Appends a name after a `/`, or leaves what is there as it was. It takes one growth at most.
fn append_name(name: &[u8], out: &mut Vec<u8>) -> Result<(), AllocError>
    ensures ok { OnOk result (out.new.items ≡ out.old.items ++ (slash ∷ name.now)) }
    ensures err { OnErr result (out.new.items ≡ out.old.items) }
{
    out.reserve(1 + name.len())?;
    out.push_reserved(b'/');
    out.extend_from_slice(name)?;
    Ok(())
}

/// Appends each name of a linked node's place after a `/`, or a beginning of that.
fn append_linked_names(entries: &[Entry], n: usize, out: &mut Vec<u8>) -> Result<(), AllocError>
    requires linked { IsLinkedTree (links_of entries.now) }
    requires there { n < length entries.now }
    requires n_linked { (node (linked_nodes (links_of entries.now)) n).linked ≡ true }
    ensures ok { OnOk result (out.new.items ≡ out.old.items ++ names_text (node (linked_nodes (links_of entries.now)) n).place) }
    ensures front { take (length out.old.items) out.new.items ≡ out.old.items }
{
    let entry = &entries[n];
    match &entry.stand {
        Stand::Root => Ok(()),
        Stand::In { parent, name } => {
            append_linked_names(entries, *parent, out)?;
            append_name(name.as_slice(), out)
        }
        Stand::Out { .. } => Ok(()),
    }
}

/// Appends the place of a node as text, or leaves what is there as it was.
pub(crate) fn append_place_in(
    entries: &[Entry],
    n: usize,
    out: &mut Vec<u8>,
) -> Result<(), AllocError>
    requires linked { IsLinkedTree (links_of entries.now) }
    requires there { n < length entries.now }
    ensures ok { OnOk result (out.new.items ≡ out.old.items ++ place_text (node (linked_nodes (links_of entries.now)) n).place) }
    ensures err { OnErr result (out.new.items ≡ out.old.items) }
{
    let entry = &entries[n];
    match &entry.stand {
        Stand::Root => append_name(&[], out),
        Stand::In { .. } => {
            let before = out.len();
            match append_linked_names(entries, n, out) {
                Ok(()) => Ok(()),
                Err(error) => {
                    out.truncate(before);
                    Err(error)
                }
            }
        }
        Stand::Out { place } => place.append_text(out),
    }
}

/// Whether a directory is a node or lies below it.
pub(crate) fn is_above(entries: &[Entry], n: usize, dir: usize) -> bool
    requires linked { IsLinkedTree (links_of entries.now) }
    requires there { n < length entries.now }
    requires dir_there { dir < length entries.now }
    requires n_linked { (node (linked_nodes (links_of entries.now)) n).linked ≡ true }
    requires dir_linked { (node (linked_nodes (links_of entries.now)) dir).linked ≡ true }
    ensures { result ≡ begins (node (linked_nodes (links_of entries.now)) n).place (node (linked_nodes (links_of entries.now)) dir).place }
{
    if n == dir {
        return true;
    }
    let entry = &entries[dir];
    match &entry.stand {
        Stand::Root => false,
        Stand::In { parent, .. } => is_above(entries, n, *parent),
        Stand::Out { .. } => false,
    }
}

/// What a place leaves of a path.
enum Match<'a> {
    /// The names of the place are the first of the path, and these are left.
    Left(&'a [u8]),
    /// Whether the place, and all below it, begins with the names of the path.
    Decided(bool),
}

/// The first name of a path, and what is behind it.
fn first_name(path: &[u8]) -> Option<(&[u8], &[u8])>
    ensures { MatchOption result (path_components path.now ≡ []) (λ p. path_components path.now ≡ p.0.now ∷ path_components p.1.now) }
{
    let mut from = 0;
    for (i, b) in path.iter().enumerate() {
        if *b == b'/' {
            if from < i {
                return Some((&path[from..i], &path[i + 1..]));
            }
            from = i + 1;
        }
    }
    if from < path.len() {
        return Some((&path[from..], &path[path.len()..]));
    }
    None
}

/// What the place of a linked node leaves of a path. The names that hold it are taken off first.
fn match_place<'a>(entries: &[Entry], n: usize, path: &'a [u8]) -> Match<'a>
    requires linked { IsLinkedTree (links_of entries.now) }
    requires there { n < length entries.now }
    requires n_linked { (node (linked_nodes (links_of entries.now)) n).linked ≡ true }
    ensures { Matches result (path_components path.now) (node (linked_nodes (links_of entries.now)) n).place }
{
    let entry = &entries[n];
    match &entry.stand {
        Stand::Root => Match::Left(path),
        Stand::In { parent, name } => match match_place(entries, *parent, path) {
            Match::Decided(begins) => Match::Decided(begins),
            Match::Left(rest) => match first_name(rest) {
                None => Match::Decided(true),
                Some((first, left)) => {
                    if first != name.as_slice() {
                        return Match::Decided(false);
                    }
                    Match::Left(left)
                }
            },
        },
        Stand::Out { .. } => Match::Decided(false),
    }
}

/// Whether the place of a linked node begins with the names of a path.
fn linked_begins(entries: &[Entry], n: usize, path: &[u8]) -> bool
    requires linked { IsLinkedTree (links_of entries.now) }
    requires there { n < length entries.now }
    requires n_linked { (node (linked_nodes (links_of entries.now)) n).linked ≡ true }
    ensures { result ≡ begins (path_components path.now) (node (linked_nodes (links_of entries.now)) n).place }
{
    match match_place(entries, n, path) {
        Match::Decided(begins) => begins,
        Match::Left(rest) => first_name(rest).is_none(),
    }
}

/// Whether the place of a node begins with the names of a path.
pub(crate) fn begins_in(entries: &[Entry], n: usize, path: &[u8]) -> bool
    requires linked { IsLinkedTree (links_of entries.now) }
    requires there { n < length entries.now }
    ensures { result ≡ begins (path_components path.now) (node (linked_nodes (links_of entries.now)) n).place }
{
    let entry = &entries[n];
    match &entry.stand {
        Stand::Root => linked_begins(entries, n, path),
        Stand::In { .. } => linked_begins(entries, n, path),
        Stand::Out { place } => place.begins_with_path(path),
    }
}
