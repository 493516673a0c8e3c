//! Paths as texts: their names, and what is wrong with them before anything is looked up.

ghost use Rattle.std.specs.Prelude.{◌≡◌, ◌≢◌, ℕ, List, None, OnOk, IfErr};
ghost use Rattle.file_tree.specs.Places.{with_name};
ghost use Rattle.lookup.specs.Paths as texts;
ghost use Rattle.lookup.specs.Paths.{last_component, last_or, path_fault};
ghost use Rattle.lookup.specs.Views.{Told, last_of, way_of};

use crate::faults::PathFault;
use crate::ways::{Last, Way};
use file_tree::is_valid_target;

/// The later one of two names, of which an empty one is none.
fn later<'a>(last: &'a [u8], name: &'a [u8]) -> &'a [u8]
    ensures { (names : List (List ℕ)) → last_or last.now (with_name name.now names) ≡ last_or result.now names }
{
    if name.is_empty() { last } else { name }
}

/// The last name of a path, or nothing where the path has none: a path is cut at each `/`, and empty names
/// are skipped, at the end too. (open(2))
#[tactic(auto, unfolding(crate::specs::Paths::last_component, file_tree::specs::Places::path_components))]
pub fn last_name(path: &[u8]) -> &[u8]
    ensures { result.now ≡ last_component path.now }
{
    let mut last = &path[..0];
    let mut from = 0;
    for (i, b) in path.iter().enumerate() {
        if *b == b'/' {
            last = later(last, &path[from..i]);
            from = i + 1;
        }
    }
    later(last, &path[from..])
}

/// Whether a path begins with `/`.
pub(crate) fn is_absolute(path: &[u8]) -> bool
    ensures { result ≡ texts.is_absolute path.now }
{
    match path {
        [] => false,
        [first, ..] => *first == b'/',
    }
}

/// Whether a name is that of the directory itself.
pub(crate) fn is_dot(name: &[u8]) -> bool
    ensures { result ≡ texts.is_dot name.now }
{
    match name {
        [first] => *first == b'.',
        _ => false,
    }
}

/// Whether a name is that of the directory above.
pub(crate) fn is_dot_dot(name: &[u8]) -> bool
    ensures { result ≡ texts.is_dot_dot name.now }
{
    match name {
        [first, second] => *first == b'.' && *second == b'.',
        _ => false,
    }
}

/// Whether the last name of a path can't be kept.
fn is_bad_last(path: &[u8]) -> bool
    ensures { result ≡ texts.is_bad_last (last_component path.now) }
{
    let name = last_name(path);
    name.is_empty() || is_dot(name) || is_dot_dot(name)
}

/// What is wrong with the text of a path.
#[tactic(auto, unfolding(crate::specs::Paths::path_fault, file_tree::specs::Places::is_target))]
pub(crate) fn check_text(path: &[u8], way: Way, last: Last) -> Result<(), PathFault>
    ensures ok { OnOk result (path_fault path.now (way_of way) (last_of last) ≡ None) }
    ensures fault { IfErr result (Told (path_fault path.now (way_of way) (last_of last))) }
    ensures not_memory { IfErr result (λ e. e ≢ PathFault.Memory) }
{
    if path.is_empty() {
        return Err(PathFault::NoEntry);
    }
    // The limits of a path are those of a link's target.
    if !is_valid_target(path) {
        return Err(PathFault::TooLong);
    }
    if way == Way::Beneath {
        if is_absolute(path) {
            return Err(PathFault::Escape);
        }
    }
    if last == Last::Keep {
        if is_bad_last(path) {
            return Err(PathFault::BadLast);
        }
    }
    Ok(())
}
