//! The lookups that a call has under way.

use lookup::Walk;

/// What a call has under way between its events.
#[derive(Drop)]
pub enum Walking {
    /// The lookup of its path.
    One(Walk),
    /// The lookups of the two paths of a rename, the old name's first. (own)
    Two(Walk, Walk),
}
