//! The text of a program, of its automaton: a block of instructions for each state.

use crate::automata::{Automaton, Choice, State};
use crate::labels::{label_of, remark_of};
use crate::room::Room;
use rights::limits::MAX_INSTRUCTIONS;
use texts::{Page, Say, parts_of, say};

/// In which column instructions begin, and what is told of them.
const INSTRUCTIONS: usize = 16;

const REMARKS: usize = 56;

/// What a jump leads to: states of which any may come next, or one of the calls of a state.
#[derive(Drop)]
struct Block {
    states: Vec<usize>,
    choice: Option<usize>,
    label: Vec<u8>,
    is_placed: bool,
}

/// Where an instruction leads on failure, or jumps to.
#[derive(Clone, Copy)]
enum Target {
    Nowhere,
    /// The end of the program, which is a `halt`.
    End,
    Block(usize),
}

/// A line: the blocks that begin there, or an instruction.
#[derive(Drop)]
struct Line {
    block: Option<usize>,
    text: Vec<u8>,
    target: Target,
    /// What is told of it: the line of the record, and a place.
    remark: Vec<u8>,
}

/// A program's text on its way.
#[derive(Drop)]
struct Writer {
    blocks: Vec<Block>,
    lines: Vec<Line>,
    points: usize,
    /// Calls of which a failure was never seen.
    unseen: usize,
}

/// A program's text.
#[derive(Drop)]
pub(crate) struct Code {
    pub text: Vec<u8>,
    pub points: usize,
    pub unseen: usize,
}

/// Adds blanks up to a column, one at least.
fn pad(page: &mut Page, begin: usize, column: usize) {
    let length = page.as_bytes().len().saturating_sub(begin);
    page.bytes(b" ");
    for _ in length.saturating_add(1)..column {
        page.bytes(b" ");
    }
}

/// The call of the first of some states that is its choice, or its first one.
fn first_choice<'a>(
    automaton: &'a Automaton,
    states: &[usize],
    choice: Option<usize>,
) -> Option<&'a Choice> {
    let [first, ..] = states else {
        return None;
    };
    match automaton.states.get(*first) {
        Some(state) => state.choices.get(choice.unwrap_or(0)),
        None => None,
    }
}

impl Writer {
    /// The block that a label is of, if there is one.
    fn labelled(&self, label: Option<usize>) -> Option<&Block> {
        match label {
            Some(block) => self.blocks.get(block),
            None => None,
        }
    }

    /// Whether a block has this label.
    fn is_taken(&self, label: &[u8]) -> bool {
        if label == b"fail".as_slice() {
            return true;
        }
        for block in &self.blocks {
            if block.label.as_slice() == label {
                return true;
            }
        }
        false
    }

    /// A label that no block has, of this one.
    fn free_label(&self, room: &mut Room, label: Vec<u8>) -> Vec<u8> {
        if !self.is_taken(&label) {
            return label;
        }
        for number in 2..=self.blocks.len().saturating_add(2) {
            let numbered = room.text(parts_of!(label.as_slice(), number));
            if !self.is_taken(&numbered) {
                return numbered;
            }
        }
        label
    }

    /// What a label for a block is made of.
    fn label(
        &self,
        room: &mut Room,
        automaton: &Automaton,
        states: &[usize],
        choice: Option<usize>,
    ) -> Vec<u8> {
        let label = match first_choice(automaton, states, choice) {
            Some(choice) => label_of(room, choice),
            None => room.copy(b"end"),
        };
        self.free_label(room, label)
    }

    /// The block of these states, or of a call of the first of them; one that isn't known yet is added.
    fn block(
        &mut self,
        room: &mut Room,
        automaton: &Automaton,
        states: &[usize],
        choice: Option<usize>,
    ) -> usize {
        for (at, block) in self.blocks.iter().enumerate() {
            if block.states.as_slice() == states && block.choice == choice {
                return at;
            }
        }
        let label = self.label(room, automaton, states, choice);
        let mut own = room.list();
        for state in states {
            room.push(&mut own, *state);
        }
        room.push(
            &mut self.blocks,
            Block {
                states: own,
                choice,
                label,
                is_placed: false,
            },
        );
        self.blocks.len().saturating_sub(1)
    }

    /// Adds an instruction.
    fn add(&mut self, room: &mut Room, text: Vec<u8>, target: Target, remark: Vec<u8>) {
        self.points = self.points.saturating_add(1);
        room.push(
            &mut self.lines,
            Line {
                block: None,
                text,
                target,
                remark,
            },
        );
    }

    /// Adds an instruction of which nothing is told.
    fn add_plain(&mut self, room: &mut Room, text: Vec<u8>, target: Target) {
        let remark = room.list();
        self.add(room, text, target, remark);
    }

    /// Adds that a byte decides what comes next.
    fn add_question(&mut self, room: &mut Room) {
        let text = room.copy(b"in r6");
        self.add_plain(room, text, Target::Nowhere);
    }

    /// Adds where the program goes on with this byte.
    fn add_answer(&mut self, room: &mut Room, byte: usize, target: Target) {
        let text = room.text(parts_of!("jeq r6 ", byte));
        self.add_plain(room, text, target);
    }

    /// Adds a jump.
    fn add_jump(&mut self, room: &mut Room, target: Target) {
        let text = room.copy(b"jmp");
        self.add_plain(room, text, target);
    }

    /// Adds the end of the process.
    fn add_halt(&mut self, room: &mut Room) {
        let text = room.copy(b"halt");
        self.add_plain(room, text, Target::Nowhere);
    }

    /// Adds that any of some states comes next, and gives the block of the first.
    fn add_states(&mut self, room: &mut Room, automaton: &Automaton, states: &[usize]) -> usize {
        self.add_question(room);
        for (at, state) in states.iter().enumerate().skip(1) {
            let block = self.block(room, automaton, &[*state], None);
            self.add_answer(room, at, Target::Block(block));
        }
        match states.first() {
            Some(first) => self.block(room, automaton, &[*first], None),
            None => 0,
        }
    }

    /// Adds that any of a state's calls comes next, or its end.
    fn add_choices(
        &mut self,
        room: &mut Room,
        automaton: &Automaton,
        number: usize,
        state: &State,
    ) {
        let count = state.choices.len();
        if count < 2 && !(state.ends && count == 1) {
            return;
        }
        self.add_question(room);
        for at in 1..count {
            let block = self.block(room, automaton, &[number], Some(at));
            self.add_answer(room, at, Target::Block(block));
        }
        if state.ends {
            self.add_answer(room, count, Target::End);
        }
    }

    /// Where a program goes on to states of which any may come next.
    fn target(&mut self, room: &mut Room, automaton: &Automaton, states: &[usize]) -> Target {
        if states.is_empty() {
            Target::End
        } else {
            Target::Block(self.block(room, automaton, states, None))
        }
    }

    /// Adds a call of a state, and gives the block that comes behind it, if one does.
    fn add_call(
        &mut self,
        room: &mut Room,
        automaton: &Automaton,
        choice: &Choice,
    ) -> Option<usize> {
        if choice.failure.is_empty() {
            self.unseen = self.unseen.saturating_add(1);
        }
        let failure = self.target(room, automaton, &choice.failure);
        let text = room.text(parts_of!(choice.step.text.as_slice(), " else"));
        let remark = remark_of(room, choice);
        self.add(room, text, failure, remark);
        if !choice.child.is_empty() {
            let child = self.target(room, automaton, &choice.child);
            let text = room.copy(b"jeq r0 0");
            self.add_plain(room, text, child);
        }
        match self.target(room, automaton, &choice.success) {
            Target::Block(block) => Some(block),
            Target::End | Target::Nowhere => {
                self.add_jump(room, Target::End);
                None
            }
        }
    }

    /// Adds the instructions of one state, from one of its calls on or from its beginning, and gives the block that comes behind them, if one does.
    fn add_state(
        &mut self,
        room: &mut Room,
        automaton: &Automaton,
        number: usize,
        choice: Option<usize>,
    ) -> Option<usize> {
        let state = automaton.states.get(number)?;
        if choice.is_none() {
            self.add_choices(room, automaton, number, state);
        }
        match state.choices.get(choice.unwrap_or(0)) {
            Some(choice) => self.add_call(room, automaton, choice),
            None => {
                self.add_halt(room);
                None
            }
        }
    }

    /// Notes that a block is placed. Whether it wasn't yet is told.
    fn begin(&mut self, room: &mut Room, block: usize) -> bool {
        match self.blocks.get_mut(block) {
            Some(own) if !own.is_placed => own.is_placed = true,
            _ => return false,
        }
        let text = room.list();
        let remark = room.list();
        room.push(
            &mut self.lines,
            Line {
                block: Some(block),
                text,
                target: Target::Nowhere,
                remark,
            },
        );
        true
    }

    /// Adds a block, or a jump to it where it was placed before, and gives the block that comes behind it, if one does.
    fn place(&mut self, room: &mut Room, automaton: &Automaton, block: usize) -> Option<usize> {
        if !self.begin(room, block) {
            self.add_jump(room, Target::Block(block));
            return None;
        }
        let own = self.blocks.get(block)?;
        let choice = own.choice;
        let mut states = room.list();
        for state in &own.states {
            room.push(&mut states, *state);
        }
        match states.as_slice() {
            [state] => self.add_state(room, automaton, *state, choice),
            _ => Some(self.add_states(room, automaton, &states)),
        }
    }

    /// Adds a block, and those that come behind it.
    fn place_on(&mut self, room: &mut Room, automaton: &Automaton, block: usize) {
        let mut next = Some(block);
        for _ in 0..=MAX_INSTRUCTIONS {
            let Some(block) = next else {
                break;
            };
            next = self.place(room, automaton, block);
        }
    }

    /// A block that isn't placed yet.
    fn unplaced(&self) -> Option<usize> {
        for (at, block) in self.blocks.iter().enumerate() {
            if !block.is_placed {
                return Some(at);
            }
        }
        None
    }

    /// Adds all blocks, the first state's first.
    fn place_all(&mut self, room: &mut Room, automaton: &Automaton) {
        let first = self.block(room, automaton, &[0], None);
        self.place_on(room, automaton, first);
        for _ in 0..=MAX_INSTRUCTIONS {
            match self.unplaced() {
                Some(block) if self.points <= MAX_INSTRUCTIONS => {
                    self.place_on(room, automaton, block);
                }
                _ => break,
            }
        }
    }

    /// Whether an instruction leads to a block.
    fn is_used(&self, block: usize) -> bool {
        for line in &self.lines {
            if let Target::Block(own) = line.target {
                if own == block {
                    return true;
                }
            }
        }
        false
    }

    /// Adds where an instruction leads.
    fn add_target(&self, page: &mut Page, target: Target) {
        match target {
            Target::Nowhere => {}
            Target::End => page.bytes(b" fail"),
            Target::Block(block) => {
                if let Some(block) = self.blocks.get(block) {
                    say!(page; " ", block.label.as_slice());
                }
            }
        }
    }

    /// Adds an instruction's line, with the label that stands in front of it.
    fn add_line(&self, page: &mut Page, label: Option<usize>, line: &Line) {
        let begin = page.as_bytes().len();
        if let Some(block) = self.labelled(label) {
            say!(page; block.label.as_slice(), ":");
        }
        pad(page, begin, INSTRUCTIONS);
        page.bytes(&line.text);
        self.add_target(page, line.target);
        if !line.remark.is_empty() {
            pad(page, begin, REMARKS);
            say!(page; "; ", line.remark.as_slice());
        }
        page.bytes(b"\n");
    }

    /// Adds a label that another one stands behind.
    fn add_label(&self, page: &mut Page, label: Option<usize>) {
        if let Some(block) = self.labelled(label) {
            say!(page; block.label.as_slice(), ":\n");
        }
    }

    /// Adds all lines, and the end that failures lead to.
    fn add_lines(&self, page: &mut Page) {
        let mut label = None;
        for line in &self.lines {
            match line.block {
                Some(block) if self.is_used(block) => {
                    self.add_label(page, label);
                    label = Some(block);
                }
                Some(_) => {}
                None => {
                    self.add_line(page, label, line);
                    label = None;
                }
            }
        }
        self.add_label(page, label);
        let begin = page.as_bytes().len();
        page.bytes(b"fail:");
        pad(page, begin, INSTRUCTIONS);
        page.bytes(b"halt\n");
    }
}

/// The text of a program, of its automaton.
pub(crate) fn code_of(room: &mut Room, automaton: &Automaton) -> Code {
    let mut writer = Writer {
        blocks: room.list(),
        lines: room.list(),
        points: 1,
        unseen: 0,
    };
    writer.place_all(room, automaton);
    let mut page = Page::new(room.alloc());
    writer.add_lines(&mut page);
    Code {
        text: room.bytes(page),
        points: writer.points,
        unseen: writer.unseen,
    }
}

impl Code {
    /// Whether it is within the limits of a program.
    pub(crate) fn fits(&self) -> bool {
        self.points <= MAX_INSTRUCTIONS
    }
}
