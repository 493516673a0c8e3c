//! Where the boxes and panels stand, in whole units.

ghost use Rattle.std.specs.Prelude.{◌≡◌, ◌+◌, ◌*◌, ◌≤◌, All};
ghost use Rattle.std.specs.List.{AllPairs};

use crate::frames::{Block, NO_WORDS, Words, faint};
use crate::pictures::{Half, HalfKind, Program, Row};
use crate::sentences::Tone;
use crate::stops::Stops;
use std::alloc::Global;

/// The height past which nothing more is drawn.
const MAX_BELOW: u32 = 1_000_000_000;

/// How wide a picture's boxes and panels are, and how many letters a line of them takes.
#[derive(Clone, Copy)]
pub struct Size {
    pub is_wide: bool,
    pub box_width: u32,
    pub panel_width: u32,
    pub title_letters: usize,
    pub box_letters: usize,
    pub gate_letters: usize,
    pub panel_letters: usize,
    pub ghost small: { (box_width ≤ 1000) × (panel_width ≤ 1000) },
    pub ghost titles: { 15 * title_letters + 40 ≤ 2 * box_width },
    pub ghost boxes: { 15 * box_letters + 24 ≤ 2 * box_width },
    pub ghost gates: { 15 * gate_letters + 60 ≤ 2 * box_width },
    pub ghost panels: { 15 * panel_letters + 24 ≤ 2 * panel_width },
}

/// The picture on a wide screen: panels stand at the right.
pub const WIDE: Size = Size {
    is_wide: true,
    box_width: 430,
    panel_width: 330,
    title_letters: 54,
    box_letters: 54,
    gate_letters: 53,
    panel_letters: 40,
};

/// The picture on a narrow one: panels stand below.
pub const NARROW: Size = Size {
    is_wide: false,
    box_width: 286,
    panel_width: 286,
    title_letters: 35,
    box_letters: 34,
    gate_letters: 34,
    panel_letters: 34,
};

/// What a frame is of.
#[derive(Clone, Copy)]
pub enum FrameKind {
    /// The name of a program.
    Title,
    /// A box.
    Half(HalfKind),
    /// The way into the mode, between two boxes.
    Gate,
    /// A panel of a grant.
    Grant,
    /// The panel of what is in no grant.
    NoGrant,
}

/// A part of the picture with lines of letters.
#[derive(Drop)]
pub struct Frame {
    pub kind: FrameKind,
    pub left: u32,
    pub top: u32,
    pub width: u32,
    /// Where its letters begin, from its left edge.
    pub indent: u32,
    /// How much more its larger letters take.
    pub more: u32,
    pub block: Block,
    pub ghost fits: { 2 * (indent + more) + 15 * block.room ≤ 2 * width },
}

/// An upright strip of the picture, in which frames stand below each other.
#[derive(Clone, Copy)]
pub struct Strip {
    pub left: u32,
    pub width: u32,
    /// Where it begins.
    pub start: u32,
}

/// Frames below each other in a strip, and the heights at which wires leave them. Where memory is refused it goes on without what is added, and is short.
#[derive(Drop)]
pub struct Board {
    pub strip: Strip,
    pub frames: Vec<Frame>,
    /// Where it ends.
    pub below: u32,
    pub ports: Stops,
    /// Whether memory was refused for some of it.
    pub is_short: bool,
    pub ghost column: { All (λ f. (f.left ≡ strip.left) × (f.width ≡ strip.width)) frames.items },
    pub ghost within: { All (λ f. (strip.start ≤ f.top) × (f.top + f.block.height ≤ below)) frames.items },
    pub ghost stacked: { AllPairs (λ f g. f.top + f.block.height ≤ g.top) frames.items },
    pub ghost begun: { strip.start ≤ below },
    pub ghost low: { below ≤ strip.start + 1_001_000_300 },
    pub ghost start_low: { strip.start ≤ 1_500_000_000 },
    pub ghost port: { ports.next ≤ below },
}

/// The letters of a frame: where they begin, and how much more larger ones take.
#[derive(Clone, Copy)]
pub struct Inset {
    pub indent: u32,
    pub more: u32,
}

/// The letters of a title: up to 16 of them, the program's name, are 14 high, which takes 1.25 more each.
const TITLE_INSET: Inset = Inset {
    indent: 0,
    more: 20,
};

/// The letters of a box or a panel.
pub const BOX_INSET: Inset = Inset {
    indent: 12,
    more: 0,
};

/// The letters beside the arrow between two boxes.
const GATE_INSET: Inset = Inset {
    indent: 30,
    more: 0,
};

impl Board {
    /// Nothing yet in a strip.
    pub fn new(alloc: Global, strip: Strip) -> Board
        requires { strip.start ≤ 1_500_000_000 }
        ensures { result.strip ≡ strip }
    {
        Board {
            strip,
            frames: Vec::new(alloc),
            below: strip.start,
            ports: Stops::new(alloc, strip.start),
            is_short: false,
        }
    }

    /// Adds a frame below the others. A board that is too high already takes none.
    pub fn add(&mut self, kind: FrameKind, inset: Inset, block: Block)
        requires fits { 2 * (inset.indent + inset.more) + 15 * block.room ≤ 2 * self.old.strip.width }
        ensures strip { self.new.strip ≡ self.old.strip }
        ensures grows { self.old.below ≤ self.new.below }
    {
        if self.below > MAX_BELOW {
            return;
        }
        let (top, height) = (self.below, block.height);
        self.below = top + height;
        self.is_short |= block.is_short;
        self.is_short |= self.ports.push_all(&block.ports, top, height).is_err();
        let frame = Frame {
            kind,
            left: self.strip.left,
            top,
            width: self.strip.width,
            indent: inset.indent,
            more: inset.more,
            block,
        };
        self.is_short |= self.frames.push(frame).is_err();
    }

    /// Leaves a space below the frames.
    pub fn space(&mut self, height: u8)
        ensures strip { self.new.strip ≡ self.old.strip }
        ensures more { self.old.below ≤ MAX_BELOW → self.new.below ≡ self.old.below + height }
        ensures grows { self.old.below ≤ self.new.below }
    {
        if self.below <= MAX_BELOW {
            self.below += u32::from(height);
        }
    }

    /// Goes on at a height, if it isn't there yet.
    pub fn move_to(&mut self, below: u32)
        ensures strip { self.new.strip ≡ self.old.strip }
        ensures grows { self.old.below ≤ self.new.below }
        ensures below { below ≤ MAX_BELOW → below ≤ self.new.below }
    {
        if self.below < below && below <= MAX_BELOW {
            self.below = below;
        }
    }
}

/// Adds a row of a box: its name and what it holds beside that, or below it if the name is long, and then its notes.
fn add_row(block: &mut Block, row: &Row, column: usize)
    ensures { block.new.room ≡ block.old.room }
{
    let (top, behind) = (block.height, column.saturating_add(2));
    let name = Words {
        text: &row.name,
        tone: row.tone,
    };
    let held = Words {
        text: &row.held,
        tone: row.tone,
    };
    if row.name.len() > column {
        block.add_broken(NO_WORDS, 0, name);
        block.add_broken(NO_WORDS, behind, held)
    } else {
        block.add_broken(name, behind, held)
    }
    block.add_port(top);
    for note in &row.notes {
        let words = Words {
            text: &note.text,
            tone: note.tone,
        };
        block.add_broken(NO_WORDS, behind, words);
    }
    block.space(6)
}

/// A box: what it is, how many rules it breaks, and its rows, or of a box in the mode without rows that it holds nothing.
fn box_block(alloc: Global, half: &Half, size: &Size, column: usize) -> Block
    ensures { result.room ≡ size.now.box_letters }
{
    let is_inside = half.kind.is_inside();
    let title = Words {
        text: &half.title,
        tone: if is_inside { Tone::InMode } else { Tone::Faint },
    };
    let mut block = Block::new(alloc, size.box_letters);
    block.space(7);
    block.add(title, 0, faint(&half.points));
    if let Some(text) = &half.breaks {
        let tone = Tone::Broken;
        block.add(Words { text, tone }, 0, NO_WORDS);
    }
    block.space(5);
    for row in &half.rows {
        add_row(&mut block, row, column);
    }
    if !half.rows.is_empty() {
        block.space(6);
    } else if is_inside {
        block.add(NO_WORDS, 0, faint(b"holds nothing"));
        block.space(12);
    }
    block
}

/// Adds a program: its title, and its boxes with the way into the mode between them.
fn add_program(board: &mut Board, program: &Program, size: &Size, column: usize)
    requires { board.old.strip.width ≡ size.now.box_width }
    ensures { board.new.strip ≡ board.old.strip }
{
    let alloc = *board.frames.allocator();
    let name = Words {
        text: program.name.as_bytes(),
        tone: Tone::Plain,
    };
    let mut title = Block::new(alloc, size.title_letters);
    title.space(7);
    title.add(
        name,
        name.text.len().saturating_add(2),
        faint(&program.processes),
    );
    title.space(5);
    board.add(FrameKind::Title, TITLE_INSET, title);
    for (at, half) in program.halves.iter().enumerate() {
        if at > 0 {
            let words = Words {
                text: &program.enters,
                tone: Tone::InMode,
            };
            let mut gate = Block::new(alloc, size.gate_letters);
            gate.space(6);
            gate.add(NO_WORDS, 0, words);
            gate.space(6);
            board.add(FrameKind::Gate, GATE_INSET, gate);
        }
        let block = box_block(alloc, half, size, column);
        board.add(FrameKind::Half(half.kind), BOX_INSET, block);
    }
}

/// Adds the programs; names stand in a column.
pub fn add_programs(board: &mut Board, programs: &[Program], size: &Size, column: usize)
    requires { board.old.strip.width ≡ size.now.box_width }
    ensures { board.new.strip ≡ board.old.strip }
{
    for (at, program) in programs.iter().enumerate() {
        if at > 0 {
            board.space(30);
        }
        add_program(board, program, size, column);
    }
}
