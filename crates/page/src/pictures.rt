//! Who reaches what, as values: the boxes of the programs, the panels of the file tree, and what leads from one to another.

use crate::sentences::{Piece, Tone};
use texts::Name;

/// Where a row's wire leads.
#[derive(Clone, Copy)]
pub enum Target {
    /// To a panel, counted from 0.
    Panel(usize),
    /// To the other ends of a class of pairs.
    Pair(usize),
    /// Nowhere.
    Nowhere,
}

/// A line below what a row holds.
#[derive(Drop)]
pub struct Note {
    pub tone: Tone,
    pub text: Vec<u8>,
}

/// What a box holds of one grant, or one end of a pair.
#[derive(Drop)]
pub struct Row {
    pub name: Vec<u8>,
    /// The rights, with blanks between them.
    pub held: Vec<u8>,
    pub notes: Vec<Note>,
    pub target: Target,
    /// The tone of its words.
    pub tone: Tone,
    /// The tone of its wire.
    pub wire: Tone,
    /// Whether descriptors come to it.
    pub takes: bool,
}

/// Which half of a program a box is.
#[derive(Clone, Copy)]
pub enum HalfKind {
    Outside,
    Inside,
    /// The mode of an untrusted program.
    Authority,
    /// A program that is never reached.
    Unreached,
}

impl HalfKind {
    /// Whether it is in the mode.
    pub(crate) fn is_inside(self) -> bool {
        match self {
            HalfKind::Inside | HalfKind::Authority => true,
            HalfKind::Outside | HalfKind::Unreached => false,
        }
    }
}

/// A box: a program outside the mode or in it.
#[derive(Drop)]
pub struct Half {
    pub kind: HalfKind,
    /// What it is.
    pub title: Vec<u8>,
    /// Its points.
    pub points: Vec<u8>,
    /// How many rules it breaks, in words, if it breaks any.
    pub breaks: Option<Vec<u8>>,
    pub rows: Vec<Row>,
}

/// A program with its boxes.
#[derive(Drop)]
pub struct Program {
    pub name: Name,
    pub is_untrusted: bool,
    /// Its processes.
    pub processes: Vec<u8>,
    pub halves: Vec<Half>,
    /// How it enters the mode, between two boxes.
    pub enters: Vec<u8>,
}

/// A part of the file tree.
#[derive(Drop)]
pub struct Panel {
    /// Whether it is a grant.
    pub is_grant: bool,
    pub name: Vec<u8>,
    pub path: Vec<u8>,
    /// What the policy allows there.
    pub allows: Vec<u8>,
    /// The nodes that lie there, with blanks between them.
    pub nodes: Vec<u8>,
}

/// Who reaches what.
#[derive(Drop)]
pub struct Picture {
    pub programs: Vec<Program>,
    pub panels: Vec<Panel>,
    /// The same in words.
    pub words: Vec<Vec<Piece>>,
}
