//! Short digests of runs on their way, by which those that were met are known again. Two of one digest are taken for one.

use crate::leads::Lead;
use bitflags::Flags;
use call_facts::{NameChange, first_path, looks_at, name_change, opening_flags, second_path};
use fd_table::{Description, Descriptor, End, Files, Message, Object};
use instruction_set::{Instruction, Register, Syscall};
use process::Process;
use records::Entry;
use rights::Memory;
use rights::limits::{MAX_DESCRIPTORS, MAX_PROCESSES, REGISTERS};
use std::alloc::Global;
use task::Task;

/// How many of the entries that are left are looked at.
const MOST_ENTRIES: usize = 32;

/// Whether some instruction looks at a register, but for comparisons right behind the step by which a byte came in.
fn is_kept(code: &[Instruction], register: Register) -> bool {
    let mut is_new = false;
    for instruction in code {
        match instruction {
            Instruction::In { register: own } => is_new = *own == register,
            Instruction::Jeq { register: own, .. } | Instruction::Jlt { register: own, .. }
                if *own == register => {
                if !is_new {
                    return true;
                }
            }
            _ => {
                if looks_at(instruction, register) {
                    return true;
                }
                is_new = false;
            }
        }
    }
    false
}

/// The registers whose values tell two runs apart, by program.
#[derive(Drop)]
pub(crate) struct KeptRegisters {
    programs: Vec<[bool; REGISTERS]>,
}

impl KeptRegisters {
    /// Those of a task. A byte that decides nothing but where its process goes on needn't be known then.
    pub(crate) fn new(alloc: Global, task: &Task) -> Result<KeptRegisters, Memory> {
        let mut programs = Vec::new(alloc);
        for named in task.programs() {
            let mut kept = [false; REGISTERS];
            for (number, is) in kept.iter_mut().enumerate() {
                if let Some(register) = Register::new(number as u8) {
                    *is = is_kept(named.program.code(), register);
                }
            }
            programs.push(kept)?;
        }
        Ok(KeptRegisters { programs })
    }

    /// Whether the register of a number is one of them.
    fn has(&self, program: u8, number: usize) -> bool {
        match self.programs.get(usize::from(program)) {
            None => true,
            Some(kept) => kept.get(number).copied().unwrap_or(true),
        }
    }
}

/// A number for a name, by a path to it; for none, nothing.
fn mark_of(path: Option<&[u8]>) -> u64 {
    let Some(path) = path else {
        return 0;
    };
    let mut mark: u64 = 0xCBF2_9CE4_8422_2325;
    for byte in path {
        mark = (mark ^ u64::from(*byte)).wrapping_mul(0x0000_0100_0000_01B3);
    }
    mark
}

/// Whether a call may make, move or remove names.
fn changes_names(call: &Syscall) -> bool {
    match name_change(call.call()) {
        NameChange::Stays => false,
        NameChange::Created => opening_flags(call).is_some_and(|flags| flags.create()),
        NameChange::Made | NameChange::Removed | NameChange::Moved => true,
    }
}

/// A number for the names that a call makes or removes where it succeeds, by its paths. Of two such calls for one name it comes to nothing.
pub(crate) fn names_changed(call: &Syscall) -> u64 {
    if changes_names(call) {
        mark_of(first_path(call)) ^ mark_of(second_path(call))
    } else {
        0
    }
}

/// A number for what a run has come to, as it is made.
#[derive(Clone, Copy)]
struct Digest {
    first: u64,
    second: u64,
}

impl Digest {
    /// Adds a number behind what is there.
    fn add(&mut self, number: u64) {
        let first = (self.first ^ number).wrapping_mul(0x9E37_79B9_7F4A_7C15);
        let second = (self.second ^ number).wrapping_mul(0xC2B2_AE3D_27D4_EB4F);
        self.first = first ^ (first >> 29);
        self.second = second ^ (second >> 31);
    }

    /// Adds where a process stands.
    fn add_process(&mut self, process: &Process, registers: &KeptRegisters) {
        self.add(u64::from(process.program) << 8 | u64::from(process.point));
        self.add(u64::from(process.alive) << 1 | u64::from(process.mode()));
        for (number, value) in process.registers.iter().enumerate() {
            if registers.has(process.program, number) {
                self.add(u64::from(*value));
            }
        }
    }

    /// Adds what is on its way.
    fn add_sent(&mut self, sent: &[Message]) {
        self.add(sent.len() as u64);
        for message in sent {
            self.add(u64::from(message.byte) << 1 | u64::from(message.passed.is_some()));
        }
    }

    /// Adds what is on its way between the ends of a pair, also where nobody has the other end any more.
    fn add_end(&mut self, files: &Files, end: End) {
        let pair = end.pair;
        let side = end.side.other();
        self.add_sent(files.sent(end));
        self.add_sent(files.sent(End { pair, side }));
    }

    /// Adds a descriptor, and how far what it is of has come.
    fn add_descriptor(&mut self, files: &Files, descriptor: Descriptor, what: Description) {
        self.add(u64::from(descriptor.rights.bits()) << 8 | u64::from(descriptor.fcntls.bits()));
        self.add(u64::from(what.offset) << 8 | u64::from(what.status.number()));
        match &what.object {
            Object::Node { node, .. } => self.add(node.number() as u64),
            Object::End { end, .. } => self.add_end(files, *end),
        }
    }

    /// Adds the table of a process.
    fn add_table(&mut self, files: &Files, process: u8) {
        for number in 0..MAX_DESCRIPTORS as u8 {
            if let Some((descriptor, what)) = open_at(files, process, number) {
                self.add(u64::from(number));
                self.add_descriptor(files, descriptor, what);
            }
        }
    }

    /// Adds the entries that are left.
    fn add_left(&mut self, left: &[&Entry]) {
        self.add(left.len() as u64);
        for entry in &left[..left.len().min(MOST_ENTRIES)] {
            self.add(u64::from(entry.span.first));
            self.add(u64::from(entry.process));
        }
    }
}

/// The descriptor of a process at a number, and what it is of.
pub(crate) fn open_at(files: &Files, process: u8, number: u8) -> Option<(Descriptor, Description)> {
    match files.get(process, number) {
        None => None,
        Some(descriptor) => {
            let what = files.what(descriptor.description);
            Some((descriptor, what))
        }
    }
}

/// The digest of a run on its way.
pub(crate) fn digest_of(lead: &Lead<'_>) -> u128 {
    let mut digest = Digest {
        first: 0x243F_6A88_85A3_08D3,
        second: 0x1319_8A2E_0370_7344,
    };
    digest.add_left(&lead.progress.left);
    digest.add(lead.names);
    for (number, process) in lead.machine.processes().iter().enumerate() {
        if number >= MAX_PROCESSES {
            break;
        }
        digest.add_process(process, lead.search.registers);
        digest.add_table(lead.machine.files(), number as u8);
    }
    u128::from(digest.first) << 64 | u128::from(digest.second)
}
