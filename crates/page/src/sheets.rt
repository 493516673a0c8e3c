//! What a page says, as values.

use crate::matrices::Matrix;
use crate::pictures::Picture;
use crate::sentences::{Piece, Place, Tone};
use texts::Name;

/// How an answer is coloured.
#[derive(Clone, Copy)]
pub enum Verdict {
    /// A yes.
    Yes,
    /// A yes that says little, or no verdict.
    Open,
    /// A no, or a breach.
    No,
}

/// The head of a page: the files, the verdict, and what to do with it.
#[derive(Drop)]
pub struct Header {
    /// The name of the task's file.
    pub task: Vec<u8>,
    /// The name of the certificate's file, if there is one.
    pub certificate: Option<Vec<u8>>,
    /// The answer in a word, for the page's title.
    pub title: Vec<u8>,
    pub verdict: Verdict,
    /// The coloured word or words at the head.
    pub word: Vec<u8>,
    /// The sentence behind it.
    pub heading: Vec<u8>,
    /// What is proved, or the first finding.
    pub lead: Vec<Piece>,
    /// What to look at, or what to do.
    pub left: Column,
    /// What the answer doesn't say.
    pub right: Column,
}

/// A heading with items below it.
#[derive(Drop)]
pub struct Column {
    pub heading: Vec<u8>,
    pub items: Vec<Item>,
}

/// A sentence, and places below it.
#[derive(Drop)]
pub struct Item {
    pub words: Vec<Piece>,
    pub below: Vec<Vec<Piece>>,
}

/// A run, step by step.
#[derive(Drop)]
pub struct Run {
    /// The processes that act.
    pub lanes: Vec<Lane>,
    pub steps: Vec<Step>,
    /// How many steps came before the first of these.
    pub left_out: u32,
    /// What the last step breaks.
    pub end: Vec<Piece>,
}

/// A process that acts in a run.
#[derive(Clone, Copy)]
pub struct Lane {
    /// The step that forks it, counted from 0 among those that are shown; none of one that is there from the start.
    pub forked_at: Option<usize>,
    /// The step by which it enters the mode, counted the same; none of one that doesn't.
    pub enters_at: Option<usize>,
    /// Whether it is in the mode before the first step that is shown.
    pub is_inside: bool,
}

/// What a step takes that an earlier one sent.
#[derive(Clone, Copy)]
pub struct Message {
    /// The step that sent it, counted from 0 among those that are shown.
    pub sent_at: usize,
    /// Whether it carries a descriptor.
    pub is_descriptor: bool,
}

/// A step of a run.
#[derive(Drop)]
pub struct Step {
    /// Whose step it is: a lane, counted from 0.
    pub lane: usize,
    /// The process and its program.
    pub who: Vec<u8>,
    /// The point's line in the task.
    pub line: u32,
    /// The point's row.
    pub place: Place,
    pub text: Vec<u8>,
    /// Where an error leads, which is fainter.
    pub tail: Vec<u8>,
    /// What it answers.
    pub result: Vec<u8>,
    /// What it does to a node, or what it sends or takes.
    pub deed: Vec<u8>,
    pub is_inside: bool,
    /// The lane of the process that it makes.
    pub forks: Option<usize>,
    pub takes: Option<Message>,
}

/// Where a point stands to the mode.
#[derive(Clone, Copy, PartialEq, Eq)]
pub enum Mode {
    /// Nothing is known of it, or it is outside.
    Outside,
    Inside,
    /// It may be outside or inside.
    Either,
    /// It isn't reached.
    Unreached,
}

/// What a number is at a point.
#[derive(Clone, Copy)]
pub struct OpenState {
    pub kind: OpenKind,
    /// Whether it may be closed too.
    pub maybe: bool,
}

/// What a number is open on.
#[derive(Clone, Copy)]
pub enum OpenKind {
    Closed,
    /// On what lies in a grant.
    Granted,
    /// On what lies in a grant, with rights beyond it.
    Beyond,
    /// On an end of a pair.
    End,
    /// On what lies in no grant, in the mode.
    Nowhere,
}

/// What has changed of a number before a point.
#[derive(Drop)]
pub struct Change {
    pub tone: Tone,
    pub text: Vec<u8>,
}

/// What kind of thing is told below a line.
#[derive(Clone, Copy)]
pub enum RemarkKind {
    /// A rule is broken.
    Finding,
    /// Something to look at.
    Warning,
    /// What an untrusted program may hold.
    Authority,
}

/// What is told below a line.
#[derive(Drop)]
pub struct Remark {
    pub kind: RemarkKind,
    pub paragraphs: Vec<Vec<Piece>>,
}

/// A line of a program's source.
#[derive(Drop)]
pub struct Line {
    /// Its number in the task.
    pub number: u32,
    /// The point that stands in it.
    pub point: Option<u8>,
    pub mode: Mode,
    /// The mode in a word, where it changes.
    pub mode_word: &'static str,
    pub states: Vec<OpenState>,
    /// The blanks and the label before the instruction.
    pub indent: Vec<u8>,
    /// The instruction, or what stands there else.
    pub text: Vec<u8>,
    /// Where an error leads, which is fainter.
    pub tail: Vec<u8>,
    /// The comment, with the blanks before it.
    pub comment: Vec<u8>,
    /// Whether the instruction is underlined: it breaks a rule.
    pub is_broken: bool,
    pub changes: Vec<Change>,
    pub remarks: Vec<Remark>,
}

/// A program's source, line by line.
#[derive(Drop)]
pub struct Listing {
    pub program: Name,
    pub is_untrusted: bool,
    /// The numbers that are ever open, a column each.
    pub numbers: Vec<u8>,
    pub lines: Vec<Line>,
}

/// A rule that is broken.
#[derive(Drop)]
pub struct RuleText {
    pub number: u8,
    pub name: Vec<u8>,
    pub text: Vec<u8>,
}

/// What some points of a program hold.
#[derive(Drop)]
pub struct PointGroup {
    pub program: Name,
    pub items: Vec<Vec<Piece>>,
}

/// All that a page says.
#[derive(Drop)]
pub struct Sheet {
    pub header: Header,
    /// The run of a breach.
    pub run: Option<Run>,
    pub picture: Picture,
    /// The rights in the mode, if some process is in it.
    pub rights: Option<Matrix>,
    pub programs: Vec<Listing>,
    pub rules: Vec<RuleText>,
    /// The command that answers the same.
    pub command: Vec<u8>,
}
