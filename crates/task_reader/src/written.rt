//! A task as a document writes it: its words are read, and its paths and programs are texts still.

ghost use Rattle.std.specs.Prelude.{◌≡◌, true};
ghost use Rattle.texts.specs.Names.{is_name};

use fd_table::{Access, Side};
use file_tree::Kind;
use rights::{Fcntls, Op, Rights};

/// A node. A directory's content is empty.
#[derive(Clone, Copy)]
pub(crate) struct WrittenNode<'a> {
    pub(crate) path: &'a str,
    pub(crate) kind: Kind,
    pub(crate) content: &'a str,
}

/// A grant.
#[derive(Drop)]
pub(crate) struct WrittenGrant<'a> {
    pub(crate) name: &'a str,
    pub(crate) path: &'a str,
    pub(crate) operations: Vec<Op>,
    pub(crate) ghost word: { is_name name.now ≡ true },
}

/// A program.
#[derive(Clone, Copy)]
pub(crate) struct WrittenProgram<'a> {
    pub(crate) name: &'a str,
    pub(crate) text: &'a str,
    pub(crate) untrusted: bool,
    pub(crate) ghost word: { is_name name.now ≡ true },
}

/// What a first descriptor is of.
#[derive(Clone, Copy)]
pub(crate) enum WrittenObject<'a> {
    /// The node at a path, opened so. (open(2))
    Path { path: &'a str, access: Access },
    /// A side of a socket pair of any number. (socketpair(2))
    Pair { pair: i64, side: Side },
}

/// A first descriptor, of any number.
#[derive(Clone, Copy)]
pub(crate) struct WrittenDescriptor<'a> {
    pub(crate) number: i64,
    pub(crate) object: WrittenObject<'a>,
    pub(crate) rights: Rights,
    pub(crate) fcntls: Fcntls,
}

/// A first process, with its program's place among the programs.
#[derive(Drop)]
pub(crate) struct WrittenStart<'a> {
    pub(crate) program: usize,
    pub(crate) mode: bool,
    pub(crate) descriptors: Vec<WrittenDescriptor<'a>>,
}

/// A task.
#[derive(Drop)]
pub(crate) struct WrittenTask<'a> {
    pub(crate) nodes: Vec<WrittenNode<'a>>,
    pub(crate) grants: Vec<WrittenGrant<'a>>,
    pub(crate) programs: Vec<WrittenProgram<'a>>,
    pub(crate) starts: Vec<WrittenStart<'a>>,
    /// Whether it asks for further rights.
    pub(crate) further_rights: bool,
}
