//! The places that a task's paths are.

ghost use Rattle.std.specs.Prelude.{◌≡◌, IfOk};
ghost use Rattle.std.specs.List.{list_all};
ghost use Rattle.texts.specs.Parts.{parts};
ghost use Rattle.file_tree.specs.Places.{is_path_name};
ghost use Rattle.task_reader.specs.Paths.{names_behind, path_names, place_of};

use file_tree::{Place, is_path_name};
use std::alloc::{AllocError, Global};

/// Whether each name is one of a path.
fn are_path_names(place: &Place) -> bool
    ensures { result ≡ list_all is_path_name place.now }
{
    place.names().all(is_path_name)
}

/// The names that a `/` parts, if each is one.
fn read_names(alloc: Global, text: &[u8]) -> Result<Option<Place>, AllocError>
    ensures { IfOk result (λ place. place ≡ path_names (parts 47 text.now)) }
{
    let place = Place::of_names(alloc, text)?;
    if !are_path_names(&place) {
        return Ok(None);
    }
    Ok(Some(place))
}

/// The place that a path is: `/`, or each name after a `/`. (own)
#[tactic(auto, unfolding(crate::specs::Paths::place_of))]
pub(crate) fn read_place(alloc: Global, path: &[u8]) -> Result<Option<Place>, AllocError>
    ensures { IfOk result (λ place. place ≡ place_of path.now) }
{
    match path {
        [b'/'] => Ok(Some(Place::root(alloc))),
        [b'/', names @ ..] => read_names(alloc, names),
        _ => Ok(None),
    }
}
