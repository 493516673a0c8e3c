//! Grants, of which a policy is a list.

use file_tree::Place;
use rights::Op;
use texts::Name;

/// A grant: the operations that are allowed on a directory and on everything beneath it. (own)
#[derive(Drop)]
pub struct Grant {
    pub name: Name,
    /// The directory's place.
    pub path: Place,
    pub operations: Vec<Op>,
}
