//! The HTML page of an answer: one file, without scripts or anything from elsewhere. It knows nothing of tasks, rules or certificates: what a page says
//! comes as a `Sheet`, and only where it stands is decided here.
#![tactic(auto)]

pub mod board;
pub mod drawing;
pub mod escaping;
pub mod frames;
pub mod headers;
pub mod html;
pub mod lanes;
pub mod laws;
pub mod layouts;
pub mod listings;
pub mod matrices;
pub mod panels;
pub mod pictures;
pub mod runs;
pub mod sentences;
pub mod sheets;
pub mod stops;
pub mod styles;
pub mod whole;
pub mod wires;
pub mod wiring;

pub use html::Html;
pub use matrices::{Cell, Mark, Matrix, MatrixGroup, MatrixRow, RIGHTS};
pub use pictures::{Half, HalfKind, Note, Panel, Picture, Program, Row, Target};
pub use sentences::{Piece, Place, Tone};
pub use sheets::{
    Change, Column, Header, Item, Lane, Line, Listing, Message, Mode, OpenKind, OpenState,
    PointGroup, Remark, RemarkKind, RuleText, Run, Sheet, Step, Verdict,
};
pub use whole::add_sheet;
