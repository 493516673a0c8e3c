//! The automaton of a program: what is called from which state, and what comes next.

use crate::room::Room;
use rights::limits::MAX_INSTRUCTIONS;

/// How a call comes back.
#[derive(Clone, Copy, PartialEq, Eq)]
pub(crate) enum Arrival {
    Success,
    Failure,
    /// As the new process of a fork.
    Child,
}

/// A call as it is in the task.
#[derive(Drop)]
pub(crate) struct Step {
    /// The call in assembly, without its `else`.
    pub text: Vec<u8>,
    /// What a label for it is made of: the call, and the last name of what it is of.
    pub call: &'static str,
    pub about: Vec<u8>,
    /// The line of the record, and the place where what it opens is, unless its path says that.
    pub line: u32,
    pub place: Vec<u8>,
}

/// A call that was made from a state, and the states behind it.
#[derive(Drop)]
pub(crate) struct Choice {
    pub step: Step,
    pub success: Vec<usize>,
    pub failure: Vec<usize>,
    pub child: Vec<usize>,
}

/// A state: what tells it from others, what was called from it, and whether a process ended there.
#[derive(Drop)]
pub(crate) struct State {
    key: Vec<u8>,
    pub choices: Vec<Choice>,
    pub ends: bool,
}

/// The states of a program, the first of them where it begins.
#[derive(Drop)]
pub(crate) struct Automaton {
    pub states: Vec<State>,
    /// There were more states than a program may have instructions.
    pub is_full: bool,
}

/// Adds a state to those after a call.
fn add_state(room: &mut Room, states: &mut Vec<usize>, state: usize) {
    if !states.contains(&state) {
        room.push(states, state);
    }
}

impl Choice {
    /// The states after it, by how it comes back.
    fn successors(&mut self, arrival: Arrival) -> &mut Vec<usize> {
        match arrival {
            Arrival::Success => &mut self.success,
            Arrival::Failure => &mut self.failure,
            Arrival::Child => &mut self.child,
        }
    }
}

impl State {
    /// Which of its calls a text is.
    fn position(&self, text: &[u8]) -> Option<usize> {
        for (at, choice) in self.choices.iter().enumerate() {
            if choice.step.text.as_slice() == text {
                return Some(at);
            }
        }
        None
    }

    /// Which of its calls a step is; one that wasn't made yet is added.
    fn choice(&mut self, room: &mut Room, step: Step) -> usize {
        if let Some(at) = self.position(&step.text) {
            return at;
        }
        let choice = Choice {
            step,
            success: room.list(),
            failure: room.list(),
            child: room.list(),
        };
        room.push(&mut self.choices, choice);
        self.choices.len().saturating_sub(1)
    }
}

impl Automaton {
    /// No state.
    pub(crate) fn new(room: &Room) -> Automaton {
        Automaton {
            states: room.list(),
            is_full: false,
        }
    }

    /// The state of a key; one that wasn't met yet is added.
    pub(crate) fn at(&mut self, room: &mut Room, key: Vec<u8>) -> usize {
        for (at, state) in self.states.iter().enumerate() {
            if state.key == key {
                return at;
            }
        }
        if self.states.len() >= MAX_INSTRUCTIONS {
            self.is_full = true;
            return 0;
        }
        let choices = room.list();
        room.push(
            &mut self.states,
            State {
                key,
                choices,
                ends: false,
            },
        );
        self.states.len().saturating_sub(1)
    }

    /// Notes that a process ends in a state.
    pub(crate) fn end(&mut self, state: usize) {
        if let Some(state) = self.states.get_mut(state) {
            state.ends = true;
        }
    }

    /// Notes a call from a state, and the state behind it.
    pub(crate) fn add(
        &mut self,
        room: &mut Room,
        state: usize,
        step: Step,
        arrival: Arrival,
        next: usize,
    ) {
        if let Some(state) = self.states.get_mut(state) {
            let at = state.choice(room, step);
            if let Some(choice) = state.choices.get_mut(at) {
                add_state(room, choice.successors(arrival), next);
            }
        }
    }
}
