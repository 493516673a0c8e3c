//! How the lines of a record are gone through, one after another.

ghost use Rattle.std.specs.Prelude.{◌≡◌, IfOk, true};
ghost use Rattle.records.specs.Calls.{are_calls};
ghost use Rattle.records.specs.EntryViews.{calls_seen};

use crate::argument_parts::arguments;
use crate::entries::{Entry, Event};
use crate::forms::{Form, OnProcess, form_of};
use crate::known::Known;
use crate::logs::{CallName, Log, When};
use crate::process_calls::is_thread;
use crate::processes::{Process, Processes};
use crate::runs::Run;
use crate::seen_calls::{CameBack, SeenCall};
use crate::strace::{StraceLine, Told};
use crate::strace_results::{Answer, UNTOLD};
use crate::strace_texts::same_bytes;
use crate::taken_calls;
use crate::wants::omit_unknown;
use std::alloc::{AllocError, Global};
use std::collections::BTreeMap;
use texts::Page;

/// A call that has begun, in a line.
#[derive(Clone, Copy)]
struct Begun<'t> {
    line: u32,
    name: CallName<'t>,
    arguments: &'t [u8],
}

/// A fork that has begun: its thread and its line, the process that makes it, and whether it makes a thread.
#[derive(Clone, Copy)]
struct BegunFork {
    thread: u32,
    line: u32,
    parent: usize,
    is_thread: bool,
}

/// A record as its lines are gone through.
#[derive(Drop)]
pub(crate) struct Reader<'t> {
    alloc: Global,
    run: Run,
    processes: Processes,
    /// The calls that have begun, by their threads.
    begun: BTreeMap<u32, Begun<'t>>,
    /// The forks that have begun and of which no child is known yet, or which have ended.
    forks: Vec<BegunFork>,
    /// The thread of lines that tell none: 0 as long as it isn't known.
    unnamed: u32,
}

impl<'t> Reader<'t> {
    /// Before the first line.
    pub(crate) fn new(alloc: Global) -> Reader<'t> {
        Reader {
            alloc,
            run: Run {
                log: Log::new(alloc),
                known: Known::new(alloc),
            },
            processes: Processes::new(alloc),
            begun: BTreeMap::new(alloc),
            forks: Vec::new(alloc),
            unnamed: 0,
        }
    }

    /// Whether a fork hasn't come back.
    fn is_under_way(&self, fork: BegunFork) -> bool {
        match self.begun.get(&fork.thread) {
            Some(begun) => begun.line == fork.line,
            None => false,
        }
    }

    /// The fork that began last, of those that haven't come back and of which no child is known. Those behind it are forgotten.
    fn last_fork(&mut self) -> Option<BegunFork> {
        for _ in 0..self.forks.len() {
            let Some(fork) = self.forks.last().copied() else {
                return None;
            };
            if self.is_under_way(fork) {
                return Some(fork);
            }
            self.forks.pop();
        }
        None
    }

    /// The process of a thread: of one that isn't known, the child of the fork that began last, or else that of the lines before which told
    /// none, or a new one.
    fn process_of(&mut self, thread: u32) -> usize {
        if let Some(process) = self.known_process(thread) {
            return process;
        }
        if let Some(fork) = self.last_fork() {
            self.forks.pop();
            self.processes
                .begin_child(fork.parent, thread, fork.is_thread, fork.line);
        }
        if let Some(process) = self.processes.find(thread) {
            return process;
        }
        match self.processes.find(0) {
            Some(process) if self.unnamed == 0 => {
                self.name(process, thread);
                process
            }
            _ => self.processes.add(Process::new(thread)),
        }
    }

    /// Takes a thread for that of the lines before which told none: it goes on with the call that began in them.
    fn name(&mut self, process: usize, thread: u32) {
        self.processes.take_for_leader(process, thread);
        self.unnamed = thread;
        if let Some(begun) = self.begun.remove(&0) {
            self.set_begun(thread, begun);
        }
    }

    /// Notes at which call a thread is: the one at which it was before.
    fn set_begun(&mut self, thread: u32, begun: Begun<'t>) -> Option<Begun<'t>> {
        match self.begun.insert(thread, begun) {
            Ok(earlier) => earlier,
            Err(_) => {
                self.processes.is_short = true;
                None
            }
        }
    }

    /// The process of a thread, if it is known: not of one that is the first of a process which has ended, while a fork may make another of its number.
    fn known_process(&mut self, thread: u32) -> Option<usize> {
        let Some(process) = self.processes.find(thread) else {
            return None;
        };
        if self.processes.is_leader(process, thread) && self.last_fork().is_some() {
            return self.processes.find_going_on(thread);
        }
        Some(process)
    }

    /// Takes a call with its arguments, of a process.
    fn take_parts(&mut self, process: usize, came: &CameBack<'_>, parts: &[&[u8]]) {
        self.processes
            .exchange(process, &mut self.run.known.process);
        let when = When::new(came.first, came.last, self.run.known.process.number);
        taken_calls::take(&mut self.run, &SeenCall::new(when, came, parts));
        self.processes
            .exchange(process, &mut self.run.known.process);
    }

    /// Takes a call that came back, or is given up.
    fn take_call(&mut self, came: &CameBack<'_>) {
        let process = self.process_of(came.thread);
        match arguments(self.alloc, came.text) {
            Ok(parts) => self.take_parts(process, came, &parts),
            Err(_) => self.processes.is_short = true,
        }
        if let Answer::Number(child) = came.returned.answer {
            if is_fork(came.name.bytes) {
                self.processes
                    .begin_child(process, child, is_thread(came.text), came.first);
            }
        }
    }

    /// Takes the beginning of a call.
    fn begin(&mut self, thread: u32, line: u32, name: CallName<'t>, arguments: &'t [u8]) {
        let parent = self.process_of(thread);
        if is_fork(name.bytes) {
            let fork = BegunFork {
                thread,
                line,
                parent,
                is_thread: is_thread(arguments),
            };
            if self.forks.push(fork).is_err() {
                self.processes.is_short = true;
            }
        }
        let begun = Begun {
            line,
            name,
            arguments,
        };
        self.go_on_with(thread, begun);
    }

    /// Notes that a thread is at a call that has begun: another one at which it was before never came back.
    fn go_on_with(&mut self, thread: u32, begun: Begun<'t>) {
        if let Some(earlier) = self.set_begun(thread, begun) {
            self.give_up(thread, earlier);
        }
    }

    /// Takes the end of a call, which tells the rest of its arguments.
    fn resume(&mut self, end: &CameBack<'_>) {
        self.process_of(end.thread);
        let begun = match self.begun.get(&end.thread) {
            Some(begun) if same_bytes(begun.name.bytes, end.name.bytes) => *begun,
            _ => return,
        };
        self.begun.remove(&end.thread);
        let mut text = Page::new(self.alloc);
        text.bytes(begun.arguments);
        text.bytes(end.text);
        match text.finish() {
            Ok(text) => self.take_call(&CameBack {
                first: begun.line,
                text,
                ..*end
            }),
            Err(_) => self.processes.is_short = true,
        }
    }

    /// Takes a call that never came back: it is left out, but for the end of a process.
    fn give_up(&mut self, thread: u32, begun: Begun<'t>) {
        let came = CameBack {
            first: begun.line,
            last: begun.line,
            thread,
            name: begun.name,
            text: begun.arguments,
            returned: UNTOLD,
        };
        if is_end(begun.name.bytes) {
            return self.take_call(&came);
        }
        let process = self.process_of(thread);
        match arguments(self.alloc, came.text) {
            Ok(parts) => self.leave_out(process, &came, &parts),
            Err(_) => self.processes.is_short = true,
        }
    }

    /// Leaves a call of a process out that never came back.
    fn leave_out(&mut self, process: usize, came: &CameBack<'_>, parts: &[&[u8]]) {
        self.processes
            .exchange(process, &mut self.run.known.process);
        let when = When::new(came.first, came.last, self.run.known.process.number);
        omit_unknown(&mut self.run, &SeenCall::new(when, came, parts));
        self.processes
            .exchange(process, &mut self.run.known.process);
    }

    /// Takes the end of a thread: of its process, where it is the first one and goes on.
    fn end(&mut self, line: u32, thread: u32) {
        if let Some(begun) = self.begun.remove(&thread) {
            self.give_up(thread, begun);
        }
        if let Some(process) = self.processes.end(thread) {
            let when = When::new(line, line, process);
            self.run.log.add(when, Ok(Event::Ended));
        }
    }

    /// Takes a line. One that fits no call that has begun, or isn't understood, gives nothing.
    pub(crate) fn take(&mut self, number: u32, line: &StraceLine<'t>) {
        let thread = line.process.unwrap_or(self.unnamed);
        self.run.known.system = line.system;
        match line.told {
            Told::Finished {
                name,
                arguments,
                returned,
            } => self.take_call(&CameBack {
                first: number,
                last: number,
                thread,
                name,
                text: arguments,
                returned,
            }),
            Told::Unfinished { name, arguments } => self.begin(thread, number, name, arguments),
            Told::Resumed {
                name,
                arguments,
                returned,
            } => self.resume(&CameBack {
                first: number,
                last: number,
                thread,
                name,
                text: arguments,
                returned,
            }),
            Told::Ended => self.end(number, thread),
            // The thread goes on with the call that another one began.
            Told::Superseded(other) => {
                if let Some(begun) = self.begun.remove(&other) {
                    self.go_on_with(thread, begun);
                }
            }
            Told::Nothing | Told::Other => {}
        }
    }

    /// The entries, behind the last line, if there was memory for all that should be known. Calls that haven't ended are given up.
    pub(crate) fn finish(mut self) -> Result<Vec<Entry>, AllocError>
        ensures { IfOk result (λ entries. are_calls (calls_seen entries.items) ≡ true) }
    {
        // No process comes from a fork any more.
        self.forks.clear();
        for _ in 0..self.begun.len() {
            if let Some((thread, begun)) = self.begun.pop_first() {
                self.give_up(thread, begun);
            }
        }
        if self.processes.is_short || self.run.known.is_short {
            return Err(AllocError);
        }
        self.run.log.into_entries()
    }
}

/// Whether a call makes processes.
fn is_fork(name: &[u8]) -> bool {
    matches!(form_of(name), Form::Process(OnProcess::Fork))
}

/// Whether a call ends a process.
fn is_end(name: &[u8]) -> bool {
    matches!(
        form_of(name),
        Form::Process(OnProcess::End | OnProcess::EndThread)
    )
}
