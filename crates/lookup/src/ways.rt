//! What a lookup is asked for, and what it finds.

use file_tree::NodeId;

/// Where a path may lead.
#[derive(Clone, Copy, PartialEq, Eq)]
pub enum Way {
    /// Beneath the start alone: neither an absolute path or target nor a `..` leads out of it.
    /// (capsicum(4); open(2), O_RESOLVE_BENEATH)
    Beneath,
    /// From the root, whether or not the path begins with `/`. (open(2); own for a path without `/`)
    Global,
}

/// What becomes of the last name of a path.
#[derive(Clone, Copy, PartialEq, Eq)]
pub enum Last {
    /// It has to be there, and a link is followed.
    Follow,
    /// It may be free, and a link is found itself. `.`, `..` and no name at all can't be kept.
    /// (open(2), O_NOFOLLOW; own)
    Keep,
}

/// What a path leads to.
#[derive(Clone, Copy, PartialEq, Eq)]
pub enum Found {
    /// A node.
    Node(NodeId),
    /// The directory in which only the last name is absent; with `Last::Keep` alone.
    Free(NodeId),
}

/// What one event of a lookup under way comes to.
#[derive(Clone, Copy, PartialEq, Eq)]
pub enum Progress {
    /// Names are left for later events.
    More,
    /// The lookup has ended.
    Done(Found),
}

/// Where a lookup under way stands, and how it goes on.
#[derive(Clone, Copy, PartialEq, Eq)]
pub struct Stand<'w> {
    pub way: Way,
    pub last: Last,
    /// The node.
    pub current: NodeId,
    /// The directories that it walked before, the latest last.
    pub before: &'w [NodeId],
    /// How many links it followed.
    pub followed: u8,
}
