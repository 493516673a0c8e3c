//! The run that breaks something, step by step.

use crate::listings::tail_begin;
use crate::messages::{Queues, Traffic, call_in, next_call, traffic_of};
use crate::played::Played;
use crate::room::{Room, short};
use crate::views::Reviewed;
use explore::{AttackAction, Breach, add_deed, step_by};
use instruction_set::Syscall;
use link_tree::LinkTree;
use page::{Lane, Message, Piece, Place, Run, Step};
use rights::Stop;
use simulator::{Acted, LineResult, Machine};
use task::Task;
use texts::{Page, Say, parts_of, say};

/// How many steps are shown at most: the last ones.
const MAX_STEPS: usize = 256;

/// A step, as the machine did it.
#[derive(Drop)]
struct Acting {
    process: u8,
    acted: Acted,
    /// What an attacker does in it.
    deed: Option<Vec<u8>>,
    /// Whether it was in the mode before.
    is_inside: bool,
    /// Whether it is in the mode behind it.
    stays_inside: bool,
    /// The process that it made.
    made: Option<u8>,
    /// What it sent or took.
    traffic: Traffic,
    takes: Option<Message>,
}

/// Whether a step is shown: an event by which a process waits, or looks up one of several names, isn't.
fn is_shown(outcome: LineResult) -> bool {
    match outcome {
        LineResult::Done | LineResult::Halted | LineResult::Value(_) | LineResult::Failed(..) =>
            true,
        LineResult::Waiting | LineResult::Walking | LineResult::Ended => false,
    }
}

/// What is known before a step.
#[derive(Clone, Copy)]
struct Before {
    process: u8,
    /// Whether it is in the mode.
    is_inside: bool,
    /// How many processes there are.
    processes: usize,
    /// What it sends or takes, if its call succeeds.
    traffic: Traffic,
}

/// What an attacker's process is at, in the words of a program, until its call is done.
#[derive(Drop)]
struct Doing {
    process: u8,
    words: Vec<u8>,
}

/// A machine that shows what it does.
#[derive(Drop)]
struct Player<'a> {
    task: &'a Task,
    machine: Machine<'a, LinkTree>,
    queues: Queues,
    doings: Vec<Doing>,
    steps: Vec<Acting>,
}

/// A deed in the words of a program.
fn deed_words(room: &mut Room, deed: &AttackAction) -> Vec<u8> {
    let mut page = Page::new(room.alloc());
    add_deed(&mut page, deed);
    room.bytes(page)
}

impl<'a> Player<'a> {
    /// Whether a process is in the mode.
    fn is_inside(&self, process: u8) -> bool {
        match self.machine.processes().get(usize::from(process)) {
            Some(process) => process.mode(),
            None => false,
        }
    }

    /// Takes what an attacker's process is at, if it is at something.
    fn take_doing(&mut self, process: u8) -> Option<Vec<u8>> {
        for place in 0..self.doings.len() {
            if self.doings[place].process == process {
                let doing = self.doings.remove(place);
                return Some(doing.words);
            }
        }
        None
    }

    /// Whether an attacker's process is at something.
    fn is_doing(&self, process: u8) -> bool {
        for doing in &self.doings {
            if doing.process == process {
                return true;
            }
        }
        false
    }

    /// What a process does with a queue, if the call of its move succeeds.
    fn traffic(&self, played: &Played) -> Traffic {
        let process = played.event.process;
        let call: Option<&Syscall> = match &played.deed {
            Some(deed) => call_in(deed.instruction()),
            None if self.is_doing(process) => None,
            None => next_call(self.task, &self.machine, process),
        };
        match call {
            Some(call) => traffic_of(&self.machine, process, call),
            None => Traffic::Nothing,
        }
    }

    /// Does a move, and keeps its step if it is shown.
    fn play(&mut self, room: &mut Room, played: &Played) -> Result<(), Stop> {
        let process = played.event.process;
        let before = Before {
            process,
            is_inside: self.is_inside(process),
            processes: self.machine.processes().len(),
            traffic: self.traffic(played),
        };
        if let Some(deed) = &played.deed {
            let words = deed_words(room, deed);
            room.push(&mut self.doings, Doing { process, words });
        }
        let line = step_by(&mut self.machine, &played.as_move())?;
        match line.acted {
            None => {}
            Some(acted) => self.keep(room, before, acted),
        }
        Ok(())
    }

    /// Does all moves, up to one for which memory is refused.
    fn play_all(&mut self, room: &mut Room, moves: &[Played]) {
        for played in moves {
            if self.play(room, played).is_err() {
                return room.fail();
            }
        }
    }

    /// Keeps what a process did, if it is shown.
    fn keep(&mut self, room: &mut Room, before: Before, acted: Acted) {
        let outcome = acted.outcome;
        if outcome == LineResult::Walking {
            return;
        }
        let deed = self.take_doing(before.process);
        if !is_shown(outcome) {
            return;
        }
        let has_worked = matches!(outcome, LineResult::Value(_));
        let traffic = if has_worked {
            before.traffic
        } else {
            Traffic::Nothing
        };
        let takes = self.queues.pass(room, traffic, self.steps.len());
        let has_made = self.machine.processes().len() > before.processes;
        let step = Acting {
            process: before.process,
            acted,
            deed,
            is_inside: before.is_inside,
            stays_inside: self.is_inside(before.process),
            made: if has_made {
                Some(short(before.processes))
            } else {
                None
            },
            traffic,
            takes,
        };
        room.push(&mut self.steps, step);
    }
}

/// The steps of a run, as far as they could be played.
fn steps_of(room: &mut Room, task: &Task, moves: &[Played]) -> Vec<Acting> {
    let Ok(machine) = Machine::start(room.alloc(), task) else {
        room.fail();
        return room.list();
    };
    let mut player = Player {
        task,
        machine,
        queues: Queues::new(room),
        doings: room.list(),
        steps: room.list(),
    };
    player.play_all(room, moves);
    player.steps
}

/// The processes that act in some steps, as they come first.
fn acting_processes(room: &mut Room, steps: &[Acting]) -> Vec<u8> {
    let mut processes = room.list();
    for step in steps {
        if !processes.contains(&step.process) {
            room.push(&mut processes, step.process);
        }
    }
    processes
}

/// The lane of a process.
fn lane_of(steps: &[Acting], process: u8) -> Lane {
    let mut lane = Lane {
        forked_at: None,
        enters_at: None,
        is_inside: false,
    };
    let mut is_first = true;
    for (at, step) in steps.iter().enumerate() {
        if step.process == process {
            if is_first {
                lane.is_inside = step.is_inside;
                is_first = false;
            }
            if lane.enters_at.is_none() && !step.is_inside && step.stays_inside {
                lane.enters_at = Some(at);
            }
        }
        if lane.forked_at.is_none() && step.made == Some(process) {
            lane.forked_at = Some(at);
        }
    }
    lane
}

/// Which lane is that of a process, counted from 0.
fn lane_number(processes: &[u8], process: u8) -> Option<usize> {
    for (lane, found) in processes.iter().enumerate() {
        if *found == process {
            return Some(lane);
        }
    }
    None
}

/// What a step answers.
fn result_text(room: &mut Room, outcome: LineResult) -> Vec<u8> {
    match outcome {
        LineResult::Value(value) => room.text(parts_of!("= ", value)),
        LineResult::Failed(errno, cause) => {
            room.text(parts_of!("! ", errno.name(), " ", cause.name()))
        }
        LineResult::Halted => room.text("halt"),
        LineResult::Done | LineResult::Waiting | LineResult::Walking | LineResult::Ended => {
            room.text("ok")
        }
    }
}

/// What a step does to nodes, or what it sends or takes.
fn deed_text(room: &mut Room, step: &Acting) -> Vec<u8> {
    let mut page = Page::new(room.alloc());
    let mut separator = "";
    for effect in &step.acted.effects {
        say!(&mut page; separator, effect.op, " ", effect.place.as_slice());
        separator = ", ";
    }
    say!(&mut page; match step.traffic {
        Traffic::Nothing => "",
        Traffic::Sends { carries: true, .. } => "sends a descriptor",
        Traffic::Sends { carries: false, .. } => "sends a byte",
        Traffic::Takes { carries: true, .. } => "takes a descriptor",
        Traffic::Takes { carries: false, .. } => "takes a byte",
    });
    room.bytes(page)
}

/// The instruction of a step, as it is written or as an attacker does it, and what stands behind it.
fn instruction_texts<'s>(step: &'s Acting, written: &'s [u8]) -> (&'s [u8], &'s [u8]) {
    match &step.deed {
        Some(words) => (words.as_slice(), b" by an attacker".as_slice()),
        None => written.split_at(tail_begin(written)),
    }
}

/// A message whose step is shown, among those from one on.
fn shown_message(message: Message, first: usize) -> Option<Message> {
    match message.sent_at.checked_sub(first) {
        None => None,
        Some(sent_at) => Some(Message {
            sent_at,
            is_descriptor: message.is_descriptor,
        }),
    }
}

/// The step as a page shows it, among those from one on.
fn shown_step(
    room: &mut Room,
    reviewed: &Reviewed<'_>,
    processes: &[u8],
    first: usize,
    step: &Acting,
) -> Option<Step> {
    let programs = reviewed.scene.task.programs();
    let (Some(named), Some(lane)) = (
        programs.get(usize::from(step.acted.program)),
        lane_number(processes, step.process),
    ) else {
        return None;
    };
    let written = reviewed.scene.written(step.acted.program, step.acted.point);
    let (text, tail) = instruction_texts(step, written.text);
    Some(Step {
        lane,
        who: room.text(parts_of!(step.process, " ", named.name.as_bytes())),
        line: written.line,
        place: Place {
            program: named.name,
            point: step.acted.point,
        },
        text: room.text(text),
        tail: room.text(tail),
        result: result_text(room, step.acted.outcome),
        deed: deed_text(room, step),
        is_inside: step.is_inside,
        forks: match step.made {
            None => None,
            Some(made) => lane_number(processes, made),
        },
        takes: match step.takes {
            None => None,
            Some(message) => shown_message(message, first),
        },
    })
}

/// What a run breaks at its last step, behind some words.
pub(crate) fn end_of(
    room: &mut Room,
    words: &'static str,
    breach: &Breach,
    detail: &[u8],
) -> Vec<Piece> {
    let mut page = Page::new(room.alloc());
    words.say(&mut page);
    explore::add_breach(&mut page, breach, detail);
    let end = room.bytes(page);
    room.sentence(end.strip_suffix(b"\n".as_slice()).unwrap_or(&end))
}

/// The lanes of these processes.
fn lanes_of(room: &mut Room, steps: &[Acting], processes: &[u8]) -> Vec<Lane> {
    let mut lanes = room.list();
    for process in processes {
        room.push(&mut lanes, lane_of(steps, *process));
    }
    lanes
}

/// The run that breaks something, as a page shows it, with what it breaks.
pub(crate) fn run_of(
    room: &mut Room,
    reviewed: &Reviewed<'_>,
    moves: &[Played],
    end: Vec<Piece>,
) -> Run {
    let all = steps_of(room, reviewed.scene.task, moves);
    let first = all.len().saturating_sub(MAX_STEPS);
    let last = all.get(first..).unwrap_or(&[]);
    let processes = acting_processes(room, last);
    let mut steps = room.list();
    for step in last {
        if let Some(step) = shown_step(room, reviewed, &processes, first, step) {
            room.push(&mut steps, step);
        }
    }
    Run {
        lanes: lanes_of(room, last, &processes),
        steps,
        left_out: u32::try_from(first).unwrap_or(u32::MAX),
        end,
    }
}
