//! Calls that may want memory, and what they come to.

ghost use Rattle.std.specs.Prelude.{◌≡◌, None};

use certificate_text::{CertFault, read_cert};
use checker::Verdict;
use place_tree::PlaceTree;
use prog_asm::{AsmFault, assemble};
use rights::{Out, OutFault, Stop};
use searcher::search;
use simulator::{Machine, ScheduleFault, read_schedule, simulate};
use std::alloc::Global;
use syscalls::Event;
use task::Task;
use task_reader::{TaskFault, read_task};
use text_checker::{Fault, check_text};

/// Takes the bytes that are left of a text, and no others. It needs no memory.
#[derive(Drop)]
pub(super) struct Comparison<'a> {
    left: &'a [u8],
    failures: u64,
}

impl<'a> Comparison<'a> {
    /// The whole text is left.
    pub(super) fn new(text: &'a [u8]) -> Comparison<'a>
        ensures { result.failures ≡ 0 }
    {
        Comparison {
            left: text,
            failures: 0,
        }
    }

    /// Whether nothing is left.
    pub(super) fn is_done(&self) -> bool {
        self.left.is_empty()
    }
}

impl<'a> Out for Comparison<'a> {
    ghost taken = { λ _. None };

    ghost faults = { λ comparison. comparison.failures };

    fn write_some(&mut self, bytes: &[u8]) -> Result<usize, OutFault> {
        let count = bytes.len();
        if count <= self.left.len() && &self.left[..count] == bytes {
            self.left = &self.left[count..];
            return Ok(count);
        }
        self.failures += 1;
        Err(OutFault)
    }
}

/// What a call came to.
#[derive(Clone, Copy, PartialEq, Eq, Debug)]
pub(super) enum Outcome {
    /// A value, a yes, or a certificate: the one that the call's contract says.
    Given,
    /// A fault by its number, a no by the number of the rule that is broken, or 0 for no certificate.
    Denied(u8),
    /// Want of memory.
    Memory,
    /// What it may not come to.
    Wrong,
}

/// A call with what it is given.
#[derive(Drop)]
pub(super) enum Call<'a> {
    Assemble(&'a str),
    ReadTask(&'a [u8]),
    ReadCert(&'a [u8]),
    ReadSchedule(&'a [u8]),
    CheckText(&'a [u8], &'a [u8]),
    Search(&'a Task),
    Steps(&'a Task, &'a [Event]),
    Simulate(&'a Task, &'a [Event], &'a [u8]),
}

/// Starts a machine and has it take steps. Behind a step that wants memory it takes none any more.
fn steps(alloc: Global, task: &Task, events: &[Event]) -> Outcome {
    let mut machine: Machine<'_, PlaceTree> = match Machine::start(alloc, task) {
        Ok(machine) => machine,
        Err(Stop::Memory) => return Outcome::Memory,
        Err(_) => return Outcome::Wrong,
    };
    let mut wanted = false;
    for event in events {
        match machine.step(*event) {
            Ok(_) if !wanted => {}
            Err(Stop::Memory) if !wanted => wanted = true,
            Err(Stop::Spent) if wanted => {}
            _ => return Outcome::Wrong,
        }
    }
    if wanted {
        return Outcome::Memory;
    }
    Outcome::Given
}

/// Simulates, to a writer that takes the trace and nothing else.
fn simulates(alloc: Global, task: &Task, events: &[Event], trace: &[u8]) -> Outcome {
    let mut out = Comparison::new(trace);
    match simulate(alloc, task, events, &mut out) {
        Ok(()) if out.is_done() => Outcome::Given,
        Err(Stop::Memory) => Outcome::Memory,
        _ => Outcome::Wrong,
    }
}

/// What the call comes to.
pub(super) fn outcome_of(alloc: Global, call: &Call<'_>) -> Outcome {
    match call {
        Call::Assemble(text) => match assemble(alloc, *text) {
            Ok(_) => Outcome::Given,
            Err(AsmFault::Memory) => Outcome::Memory,
            Err(fault) => Outcome::Denied(fault.number()),
        },
        Call::ReadTask(text) => match read_task(alloc, *text) {
            Ok(_) => Outcome::Given,
            Err(TaskFault::Memory) => Outcome::Memory,
            Err(fault) => Outcome::Denied(fault.number()),
        },
        Call::ReadCert(text) => match read_cert(alloc, *text) {
            Ok(_) => Outcome::Given,
            Err(CertFault::Memory) => Outcome::Memory,
            Err(fault) => Outcome::Denied(fault.number()),
        },
        Call::ReadSchedule(text) => match read_schedule(alloc, *text) {
            Ok(_) => Outcome::Given,
            Err(ScheduleFault::Memory) => Outcome::Memory,
            Err(fault) => Outcome::Denied(fault.number()),
        },
        Call::CheckText(task, cert) => match check_text(alloc, *task, *cert) {
            Ok(Verdict::Yes) => Outcome::Given,
            Err(Fault::Task(TaskFault::Memory) | Fault::Cert(CertFault::Memory)) => Outcome::Memory,
            Ok(Verdict::No { rule, .. }) => Outcome::Denied(rule),
            Err(_) => Outcome::Wrong,
        },
        Call::Search(task) => match search(alloc, *task) {
            Ok(Some(_)) => Outcome::Given,
            Ok(None) => Outcome::Denied(0),
            Err(_) => Outcome::Memory,
        },
        Call::Steps(task, events) => steps(alloc, *task, *events),
        Call::Simulate(task, events, trace) => simulates(alloc, *task, *events, *trace),
    }
}
