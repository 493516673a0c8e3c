//! Where recorded calls part from a task, in words.

use file_tree::lies_at;
use follow::{AtPoint, Parted, Placing};
use records::{Binding, Entry, Event, MadeCall, Operand, Outcome, add_event};
use simulator::LineResult;
use task::Task;
use task_text::{ProgramText, Written};
use texts::{Page, Say, parts_of, say};

/// How many places are told at most that REAL=MODEL may name.
const MOST_PLACES: usize = 4;

/// A task with its file, and recorded calls that are held against it.
#[derive(Clone, Copy)]
pub(crate) struct Held<'a> {
    pub file: &'a [u8],
    pub texts: &'a [ProgramText],
    pub task: &'a Task,
    pub placings: &'a [Placing],
    pub entries: &'a [Entry],
}

/// A place of a record, and the place of the task whose name it has: both as far as they are told.
#[derive(Clone, Copy, PartialEq, Eq)]
struct Namesake<'a> {
    real: &'a [u8],
    model: &'a [u8],
}

impl<'a> Held<'a> {
    /// The instruction of a point as it is written, and its line in the file.
    fn written(&self, at: &AtPoint) -> Written<'a> {
        match self.texts.get(usize::from(at.program)) {
            Some(text) => text.written_at(self.file, usize::from(at.point)),
            None => Written { text: &[], line: 0 },
        }
    }

    /// Whether a place of the task's tree is this one.
    fn has_place(&self, place: &[u8]) -> bool {
        for node in self.task.nodes() {
            if node.place.names_text() == place {
                return true;
            }
        }
        false
    }

    /// Whether a place of the record is said to lie elsewhere in the task.
    fn is_placed(&self, place: &[u8]) -> bool {
        for placing in self.placings {
            if lies_at(&placing.real, place) {
                return true;
            }
        }
        false
    }
}

/// Adds what an instruction comes to, beside what was recorded.
fn add_outcome(page: &mut Page, outcome: LineResult) {
    let words = match outcome {
        LineResult::Value(value) => return say!(page; "would answer ", value),
        LineResult::Failed(error, cause) => {
            return say!(page; "would answer ", error.name(), " (", cause.name(), ")");
        }
        LineResult::Waiting => "would wait",
        LineResult::Halted => "would end",
        LineResult::Ended => "has ended",
        LineResult::Done | LineResult::Walking => "would go on",
    };
    words.say(page);
}

/// Whether an instruction that comes to this is the recorded call as far as its name and its outcome tell.
fn is_alike(event: &Event, written: &[u8], outcome: LineResult) -> bool {
    let Event::Called(made) = event else {
        return false;
    };
    let same_outcome = match (outcome, made.outcome) {
        (LineResult::Value(_), Outcome::Success(_)) => true,
        (LineResult::Failed(error, _), Outcome::Failure(recorded)) => error == recorded,
        _ => false,
    };
    same_outcome
        && matches!(
            written.strip_prefix(made.call.name().as_bytes()),
            Some([] | [b' ', ..])
        )
}

/// Adds the point at which a process stands, and what it would do there.
fn add_point(page: &mut Page, held: &Held<'_>, event: &Event, at: &AtPoint) {
    let written = held.written(at);
    let name = held.task.program_name(at.program);
    let mode = if at.in_mode { ", in the mode: " } else { ": " };
    say!(page; "  ", name, ":", at.point, " (line ", written.line, ")", mode, written.text, ": ");
    add_outcome(page, at.outcome);
    let end = if is_alike(event, written.text, at.outcome) {
        ", of something else\n"
    } else {
        "\n"
    };
    end.say(page);
}

/// Adds the call at which a record parts from the task.
fn add_entry(page: &mut Page, entry: &Entry) {
    say!(page; "parts at line ", entry.span.first, ", process ", entry.process, ":");
    add_event(page, &entry.event);
    "\n".say(page);
}

/// A place up to the end of a name, behind this slash, if it isn't the first one and the task has a place of that name at its root.
fn namesake_at<'a>(
    held: &Held<'_>,
    place: &'a [u8],
    slash: usize,
    end: usize,
) -> Option<Namesake<'a>> {
    let (Some(real), Some(model)) = (place.get(..end), place.get(slash..end)) else {
        return None;
    };
    if slash > 0 && model.len() > 1 && held.has_place(model) {
        Some(Namesake { real, model })
    } else {
        None
    }
}

/// The name of the tree that a place of the record ends with or goes through, if the task has one there at its root.
fn namesake_of<'a>(held: &Held<'_>, place: &'a [u8]) -> Option<Namesake<'a>> {
    let mut slash = 0;
    for (at, byte) in place.iter().enumerate() {
        if *byte == b'/' {
            let found = namesake_at(held, place, slash, at);
            if found.is_some() {
                return found;
            }
            slash = at;
        }
    }
    namesake_at(held, place, slash, place.len())
}

/// The first place that a call names from the root, or that its descriptor has.
fn path_of(made: &MadeCall) -> Option<&[u8]> {
    if let Some(Operand::Path(path)) = made.operands.first() {
        return Some(path);
    }
    match made.bindings.first() {
        Some(Binding::Place { place, .. }) => Some(place),
        _ => None,
    }
}

/// What words could bind of an entry's place: the task doesn't have it, but has its name at its root.
fn namesake_in<'a>(held: &Held<'_>, entry: &'a Entry) -> Option<Namesake<'a>> {
    let Event::Called(made) = &entry.event else {
        return None;
    };
    match path_of(made) {
        Some(place) if !held.is_placed(place) => namesake_of(held, place),
        _ => None,
    }
}

/// Adds places of the record that words could bind, each once.
fn add_places(page: &mut Page, held: &Held<'_>, parted: &Parted) {
    let mut told = Vec::new(page.alloc());
    let count = parted.entry.saturating_add(1).min(held.entries.len());
    for entry in &held.entries[..count] {
        if told.len() >= MOST_PLACES {
            return;
        }
        if let Some(namesake) = namesake_in(held, entry) {
            if !told.contains(&namesake) {
                say!(page; "  perhaps ", namesake.real, "=", namesake.model, "\n");
                if told.push(namesake).is_err() {
                    page.fail();
                }
            }
        }
    }
}

/// Adds where recorded calls part from a task: the call, what the task would do there at each point at which its process may stand, and which places
/// words could bind.
pub(crate) fn add_parted(page: &mut Page, held: &Held<'_>, parted: &Parted) {
    match held.entries.get(parted.entry) {
        Some(entry) => {
            add_entry(page, entry);
            for at in &parted.points {
                add_point(page, held, &entry.event, at);
            }
        }
        None => "parts: the record has nothing to show\n".say(page),
    }
    add_places(page, held, parted);
    let end = if parted.is_bounded {
        ", and there are others\n"
    } else {
        "\n"
    };
    say!(page; "  states met: ", parted.states, end);
}
