//! What may come next in a run on its way.

use crate::checking::code_of;
use crate::given::{Names, call_fits};
use crate::leads::{Lead, Leads, Search, Trial, event_of};
use crate::numbers::model_of;
use crate::progress::{next_entry, same_call};
use crate::transfers::passes_byte;
use crate::worlds::{add_by_world, may_help};
use call_facts::{Passed, first_operand, is_of_mode, passed_by, second_operand, value_operand};
use instruction_set::{Instruction, Operand, Register, Syscall};
use process::Process;
use records::{Entry, Event as Recorded, MadeCall, Outcome};
use rights::Errno;
use rights::limits::MAX_DESCRIPTORS;
use syscalls::Event;
use texts::Page;

/// Whether the call at which a process stands is that of the record, given the same.
pub(crate) fn may_show(lead: &Lead<'_>, process: u8, call: &Syscall, made: &MadeCall) -> bool {
    let Some(state) = lead.process(process) else {
        return false;
    };
    let names = Names {
        wide: lead.search.task.further_rights(),
        placings: lead.search.placings,
        mappings: &lead.progress.mappings,
        process: usize::from(process),
        registers: &state.registers,
    };
    same_call(made.call, call.call()) && call_fits(&names, call, &made.operands)
}

/// Adds the run in which the call of a process shows this call, the entry of a place, also where the kernel refuses it, and where it
/// doesn't, those in which the world moves first.
fn add_call<'a>(
    lead: &Lead<'a>,
    process: u8,
    call: &Syscall,
    made: &MadeCall,
    at: usize,
    found: &mut Leads<'a>,
) {
    let event = event_of(process, 0);
    let shows = Some(at);
    if let Outcome::Failure(Errno::ENFILE | Errno::ENOSPC | Errno::EAGAIN) = made.outcome {
        let event = Event {
            refuse: true,
            ..event
        };
        found.add_tried(lead, Trial::Step { event, shows });
    }
    let trial = Trial::Step { event, shows };
    if !found.add_tried(lead, trial) && may_help(lead, process, call) {
        add_by_world(lead, trial, found);
    }
}

/// Adds the runs in which a process shows the entry of a place.
fn add_shown<'a>(lead: &Lead<'a>, process: u8, entry: &Entry, at: usize, found: &mut Leads<'a>) {
    match (&entry.event, lead.instruction(process)) {
        (Recorded::Called(made), Some(Instruction::Invoke { call, .. })) => {
            if may_show(lead, process, call, made) {
                add_call(lead, process, call, made, at, found);
            }
        }
        (Recorded::Ended, Some(Instruction::Halt)) => {
            let event = event_of(process, 0);
            let shows = Some(at);
            found.add_tried(lead, Trial::Step { event, shows });
        }
        _ => {}
    }
}

/// Adds a byte, if it is one and isn't there.
fn add_byte(bytes: &mut Page, value: u32) {
    if let Ok(byte) = u8::try_from(value) {
        if !bytes.as_bytes().contains(&byte) {
            bytes.bytes(&[byte]);
        }
    }
}

/// Adds the bytes with which the comparisons of a register are that stand first in some instructions.
fn add_first(bytes: &mut Page, code: &[Instruction], register: Register) {
    for instruction in code {
        match instruction {
            Instruction::Jeq {
                register: own,
                value,
                ..
            }
            | Instruction::Jlt {
                register: own,
                value,
                ..
            } if *own == register => {
                add_byte(bytes, *value);
                add_byte(bytes, value.wrapping_sub(1));
            }
            _ => break,
        }
    }
}

/// Adds the bytes with which all comparisons of a program are.
fn add_all(bytes: &mut Page, code: &[Instruction]) {
    for instruction in code {
        if let Instruction::Jeq { value, .. } | Instruction::Jlt { value, .. } = instruction {
            add_byte(bytes, *value);
        }
    }
}

/// Whether an instruction hands on what a register holds: to another one, or to who has the other end of a pair.
fn hands_on(instruction: &Instruction, register: Register) -> bool {
    match instruction {
        Instruction::Mov { source, .. } => *source == register,
        Instruction::Add { addend, .. } => *addend == register,
        Instruction::Invoke { call, .. } => match passed_by(call.call()) {
            Passed::ByteOut | Passed::DescriptorOut => {
                value_operand(call) == Some(Operand::Register(register))
            }
            Passed::Nothing | Passed::ByteIn | Passed::DescriptorIn => false,
        },
        _ => false,
    }
}

/// Whether some instruction of a program hands on what a register holds.
fn is_handed_on(code: &[Instruction], register: Register) -> bool {
    code.iter()
        .any(|instruction| hands_on(instruction, register))
}

/// Whether a call names a descriptor by what a register holds.
fn names_descriptor(call: &Syscall, register: Register) -> bool {
    let own = Some(Operand::Register(register));
    first_operand(call) == own || second_operand(call) == own
}

/// Adds the numbers that a descriptor may have, where some call of a program names one by what a register holds.
fn add_numbers(bytes: &mut Page, code: &[Instruction], register: Register) {
    for instruction in code {
        match instruction {
            Instruction::Invoke { call, .. } if names_descriptor(call, register) => {
                for number in 0..MAX_DESCRIPTORS as u32 {
                    add_byte(bytes, number);
                }
                break;
            }
            _ => {}
        }
    }
}

/// The first byte that isn't among these, or the last one.
fn other_byte(bytes: &[u8]) -> u8 {
    let mut other: u8 = 0;
    for _ in 0..u8::MAX {
        if !bytes.contains(&other) {
            break;
        }
        other = other.saturating_add(1);
    }
    other
}

/// The bytes that are tried where a process reads one into this register: those with which the comparisons right behind it are, and
/// another one; where the register is handed on, those of all comparisons of the task, too, and where it names a descriptor, all numbers.
fn inputs(search: &Search<'_>, state: &Process, register: Register) -> Page {
    let mut bytes = Page::new(search.alloc);
    let code = code_of(search.task.programs(), state.program);
    let behind = usize::from(state.point) + 1;
    if behind <= code.len() {
        add_first(&mut bytes, &code[behind..], register);
    }
    if is_handed_on(code, register) {
        for named in search.task.programs() {
            add_all(&mut bytes, named.program.code());
        }
    }
    add_numbers(&mut bytes, code, register);
    let other = other_byte(bytes.as_bytes());
    add_byte(&mut bytes, u32::from(other));
    bytes
}

/// Adds the runs in which a process reads a byte into this register: one for each that is tried.
pub(crate) fn add_reading<'a>(
    lead: &Lead<'a>,
    process: u8,
    register: Register,
    is_of_world: bool,
    found: &mut Leads<'a>,
) {
    let Some(state) = lead.process(process) else {
        return;
    };
    let bytes = inputs(&lead.search, state, register);
    found.is_short = found.is_short || bytes.finish().is_err();
    for input in bytes.as_bytes() {
        let event = event_of(process, *input);
        let trial = if is_of_world {
            Trial::World(event)
        } else {
            Trial::Step { event, shows: None }
        };
        found.add_tried(lead, trial);
    }
}

/// Adds the runs in which a process reads a byte, if it stands there: those first in which it may show its next call then, and none in
/// which it is stuck, if it isn't in all.
fn add_inputs<'a>(lead: &Lead<'a>, process: u8, found: &mut Leads<'a>) {
    if let Some(Instruction::In { register }) = lead.instruction(process) {
        let first = found.runs.len();
        add_reading(lead, process, *register, false, found);
        found.prefer_showing(process, first);
    }
}

/// Adds the run in which a process makes a call that shows nothing, if it may be one.
fn add_repeated<'a>(lead: &Lead<'a>, process: u8, found: &mut Leads<'a>) {
    if let Some(call) = lead.call(process) {
        let call = call.call();
        if is_of_mode(call) || passes_byte(call) {
            let event = event_of(process, 0);
            found.add_tried(lead, Trial::Step { event, shows: None });
        }
    }
}

/// In which turn runs are added that may come next: those that show a call come before those that don't.
#[derive(Clone, Copy)]
enum Turn {
    Shown,
    Bytes,
    Skipped,
    Repeated,
}

/// Adds the runs of this turn that may come next at the entry of a place.
fn add_at<'a>(lead: &Lead<'a>, turn: Turn, at: usize, found: &mut Leads<'a>) {
    let Some(entry) = next_entry(&lead.progress.left, at) else {
        return;
    };
    let Some(process) = model_of(&lead.pairs, entry.process) else {
        return;
    };
    match turn {
        Turn::Shown => add_shown(lead, process, entry, at, found),
        Turn::Bytes => add_inputs(lead, process, found),
        Turn::Skipped => {
            found.add_tried(lead, Trial::Skip(at));
        }
        Turn::Repeated => add_repeated(lead, process, found),
    }
}

/// The place from which on no entry that is left begins before the first one ends, so that none of these may come next.
fn end_of_next(left: &[&Entry]) -> usize {
    let Some(first) = left.first() else {
        return 0;
    };
    let mut end = 0;
    for (at, entry) in left.iter().enumerate() {
        if entry.span.first <= first.span.last {
            end = at + 1;
        }
    }
    end
}

/// Adds the runs of this turn that may come next, by the entries in front of a place.
fn add_turn<'a>(lead: &Lead<'a>, turn: Turn, end: usize, found: &mut Leads<'a>) {
    for at in 0..end {
        add_at(lead, turn, at, found);
    }
}

/// Adds the runs in which some process of the record goes on without showing a call, also one whose next call can't come yet: another one may
/// wait for what it gives before.
pub(crate) fn add_unshown<'a>(lead: &Lead<'a>, found: &mut Leads<'a>) {
    for pair in &lead.pairs {
        add_inputs(lead, pair.model, found);
        add_repeated(lead, pair.model, found);
    }
}

/// Adds the runs that may come next, those that show a call first.
pub(crate) fn add_branches<'a>(lead: &Lead<'a>, found: &mut Leads<'a>) {
    let end = end_of_next(&lead.progress.left);
    add_turn(lead, Turn::Shown, end, found);
    add_turn(lead, Turn::Bytes, end, found);
    add_turn(lead, Turn::Skipped, end, found);
    add_turn(lead, Turn::Repeated, end, found);
}
