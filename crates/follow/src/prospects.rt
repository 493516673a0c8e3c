//! Whether a process of a run stands where it may show its next call.

use crate::branching::may_show;
use crate::leads::{Lead, Leads};
use crate::numbers::is_process;
use crate::progress::may_skip;
use crate::streams::are_awaited;
use crate::transfers::{is_repeat, transfer_in};
use crate::worlds::end_of;
use call_facts::{Passed, is_of_mode, passed_by};
use instruction_set::{Instruction, Syscall};
use records::Event;
use simulator::LineResult;

/// Whether a process stands where it may show what happened in the record, or where it makes no call.
fn may_show_event(lead: &Lead<'_>, process: u8, event: &Event) -> bool {
    match lead.instruction(process) {
        Some(Instruction::Invoke { call, .. }) => match event {
            Event::Called(made) => may_show(lead, process, call, made),
            _ => false,
        },
        Some(Instruction::Halt) => !event.is_call(),
        _ => true,
    }
}

/// Whether a process may make the call at which it stands without showing one, if it stands at one.
fn may_pass(lead: &Lead<'_>, process: u8) -> bool {
    let Some(state) = lead.process(process) else {
        return false;
    };
    let Some(call) = lead.call(process) else {
        return false;
    };
    let transfer = transfer_in(&state.registers, Some(call), LineResult::Value(0));
    let history = &lead.progress.history;
    !lead.search.limited && is_of_mode(call.call())
        || is_repeat(history, usize::from(process), transfer)
}

/// Whether what happened in the record is a call that may be skipped, as far as what it was given goes.
fn may_be_skipped(lead: &Lead<'_>, process: u8, event: &Event) -> bool {
    let Event::Called(made) = event else {
        return false;
    };
    let setting = lead.search.setting(&lead.pairs);
    let mappings = &lead.progress.mappings;
    may_skip(
        lead.search.alloc,
        &setting,
        mappings,
        usize::from(process),
        made,
    )
    .unwrap_or(true)
}

/// What may come of the instruction at which a process stands.
#[derive(Clone, Copy, PartialEq, Eq)]
enum Prospect {
    /// It writes once more what others of the record await.
    Owes,
    /// It may show the next call of the process.
    Shows,
    /// It may be passed.
    Passes,
    /// The call may be skipped, whatever the process does.
    Skips,
    Stuck,
}

/// Whether a process stands at a write through an end, of which other entries take more than it has written: one write of the record is several
/// then.
fn owes(lead: &Lead<'_>, process: u8) -> bool {
    let Some(call) = lead.call(process) else {
        return false;
    };
    let Some(end) = end_of(lead, process, call) else {
        return false;
    };
    let messages = lead.machine.files().sent(end).len();
    for sent in &lead.sent {
        if sent.process == process && passed_by(call.call()) == Passed::ByteOut {
            return are_awaited(&lead.progress.left, sent.end, messages);
        }
    }
    false
}

/// What may come of the instruction at which a process stands, before this is shown.
fn prospect_before(lead: &Lead<'_>, process: u8, event: &Event) -> Prospect {
    if may_pass(lead, process) && owes(lead, process) {
        return Prospect::Owes;
    }
    if may_show_event(lead, process, event) {
        return Prospect::Shows;
    }
    if may_pass(lead, process) {
        Prospect::Passes
    } else if may_be_skipped(lead, process, event) {
        Prospect::Skips
    } else {
        Prospect::Stuck
    }
}

/// What may come of the instruction at which a process stands.
fn prospect_of(lead: &Lead<'_>, process: u8) -> Prospect {
    for entry in &lead.progress.left {
        if is_process(&lead.pairs, entry.process, usize::from(process)) {
            return prospect_before(lead, process, &entry.event);
        }
    }
    Prospect::Shows
}

impl<'a> Leads<'a> {
    /// Runs a process on to where it is no longer alone, in the run of a place, and tells what may come of that.
    fn prospect_at(&mut self, process: u8, at: usize) -> Prospect {
        match self.runs.get_mut(at) {
            Some(lead) => {
                lead.run_plain(process);
                prospect_of(lead, process)
            }
            None => Prospect::Stuck,
        }
    }

    /// The best of what may come of the instructions at which a process stands in the runs from a place on.
    fn best_prospect(&mut self, process: u8, first: usize) -> Prospect {
        let mut best = Prospect::Stuck;
        for at in first..self.runs.len() {
            match (self.prospect_at(process, at), best) {
                (Prospect::Owes, _) => return Prospect::Owes,
                (Prospect::Stuck, _) | (_, Prospect::Shows) => {}
                (Prospect::Skips, Prospect::Passes) => {}
                (prospect, _) => best = prospect,
            }
        }
        best
    }

    /// Puts the run of a place behind all others.
    fn put_last(&mut self, at: usize) {
        if at < self.runs.len() {
            let run = self.runs.remove(at);
            self.push(run);
        }
    }

    /// Has those runs from a place on come first in which a process owes something, or else may show its next call, and drops those in which it
    /// is stuck, unless it is in all of them. Where nothing else may be than that its next call is skipped, all are dropped: what it reads is told
    /// by the call behind that.
    pub(crate) fn prefer_showing(&mut self, process: u8, first: usize) {
        let best = self.best_prospect(process, first);
        if best == Prospect::Stuck {
            return;
        }
        if best == Prospect::Skips {
            return self.runs.truncate(first);
        }
        let mut at = first;
        for _ in first..self.runs.len() {
            let prospect = self.prospect_at(process, at);
            if prospect == best {
                at = at.saturating_add(1);
            } else {
                self.put_last(at);
                if prospect == Prospect::Stuck {
                    self.drop_last();
                }
            }
        }
    }
}
