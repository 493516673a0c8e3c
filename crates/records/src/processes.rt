//! The processes of a record, with what is known of each.

ghost use Rattle.std.specs.Prelude.{◌≡◌, ◌<◌, length, true};

use crate::held::{NOTHING_HELD, Referent, Table};
use std::alloc::Global;
use std::collections::BTreeMap;
use std::mem;

/// A process.
#[derive(Clone, Copy)]
pub(crate) struct Process {
    /// Its number in the record: 0 where the record had none when it began.
    pub number: u32,
    /// Its first thread.
    pub leader: u32,
    /// The line in which the fork began that has made it, or 0.
    pub forked: u32,
    /// Its current directory.
    pub directory: Referent,
    /// Its root directory, if that isn't the first one.
    pub root: Referent,
    pub table: Table,
    /// Whether its first thread goes on, and how many others do.
    has_leader: bool,
    others: u32,
    /// Whether the loader is at work.
    pub is_loading: bool,
    pub has_ended: bool,
}

impl Process {
    /// A process of which nothing is known but its number.
    pub(crate) fn new(number: u32) -> Process {
        Process {
            number,
            leader: number,
            forked: 0,
            directory: Referent::Unknown,
            root: Referent::Unknown,
            table: Table::first(),
            has_leader: true,
            others: 0,
            is_loading: false,
            has_ended: false,
        }
    }

    /// Notes that it goes on as another program, which has one thread.
    pub(crate) fn begin_program(&mut self) {
        self.has_leader = true;
        self.others = 0;
        self.is_loading = true;
    }

    /// Notes that a thread of it ends. Whether it goes on by another one is told.
    pub(crate) fn goes_on_without(&mut self, thread: u32) -> bool {
        if thread == self.leader {
            self.has_leader = false;
        } else {
            self.others = self.others.saturating_sub(1);
        }
        self.has_leader || self.others > 0
    }

    /// Ends the process: whether it went on before.
    pub(crate) fn end(&mut self) -> bool {
        if self.has_ended {
            return false;
        }
        self.has_ended = true;
        self.table = NOTHING_HELD;
        true
    }
}

/// The processes, in the order in which they began.
#[derive(Drop)]
pub(crate) struct Processes {
    processes: Vec<Process>,
    /// Which process a thread is of.
    threads: BTreeMap<u32, usize>,
    /// Whether memory was refused for something that should be known.
    pub is_short: bool,
}

impl Processes {
    /// No process.
    pub(crate) fn new(alloc: Global) -> Processes {
        Processes {
            processes: Vec::new(alloc),
            threads: BTreeMap::new(alloc),
            is_short: false,
        }
    }

    /// The process of this thread, if it is known.
    pub(crate) fn find(&self, thread: u32) -> Option<usize> {
        self.threads.get(&thread).copied()
    }

    /// The process of this thread, if it is known and goes on.
    pub(crate) fn find_going_on(&self, thread: u32) -> Option<usize> {
        match self.find(thread) {
            Some(index) if index < self.processes.len() && !self.processes[index].has_ended => {
                Some(index)
            }
            _ => None,
        }
    }

    /// Whether a thread is the first one of a process.
    pub(crate) fn is_leader(&self, index: usize, thread: u32) -> bool
        ensures { result ≡ true → index < length self.now.processes.items }
    {
        index < self.processes.len() && self.processes[index].leader == thread
    }

    /// Takes a thread for the first one of a process that the record gave no number yet.
    pub(crate) fn take_for_leader(&mut self, index: usize, thread: u32) {
        if index < self.processes.len() {
            self.processes[index].leader = thread;
        }
        self.add_thread(index, thread);
    }

    /// Adds a process: the index that it has, if there was memory for it.
    pub(crate) fn add(&mut self, process: Process) -> usize {
        let index = self.processes.len();
        self.add_thread(index, process.number);
        if self.processes.push(process).is_err() {
            self.is_short = true;
        }
        index
    }

    /// Says that a thread is of a process.
    fn add_thread(&mut self, index: usize, thread: u32) {
        if self.threads.insert(thread, index).is_err() {
            self.is_short = true;
        }
    }

    /// Whether a thread is of a process that goes on, or that the fork of a line has made: it may have ended before the fork comes back.
    fn is_begun(&self, thread: u32, line: u32) -> bool {
        match self.find(thread) {
            Some(index) if index < self.processes.len() => {
                let process = &self.processes[index];
                !process.has_ended || process.forked == line
            }
            _ => false,
        }
    }

    /// Makes known what a fork that began in a line has made: a thread, or a child with a copy of what the process has, if it isn't known already.
    pub(crate) fn begin_child(&mut self, parent: usize, child: u32, is_thread: bool, line: u32) {
        if parent >= self.processes.len() || self.is_begun(child, line) {
            return;
        }
        if is_thread {
            let others = &mut self.processes[parent].others;
            *others = others.saturating_add(1);
            return self.add_thread(parent, child);
        }
        let process = Process {
            number: child,
            leader: child,
            forked: line,
            has_leader: true,
            others: 0,
            is_loading: false,
            has_ended: false,
            ..self.processes[parent]
        };
        self.add(process);
    }

    /// The number of a process.
    pub(crate) fn number(&self, index: usize) -> u32 {
        if index < self.processes.len() {
            self.processes[index].number
        } else {
            0
        }
    }

    /// Ends the process of which a thread is the first one, if it goes on, and not by others behind that: its number.
    pub(crate) fn end(&mut self, thread: u32) -> Option<u32> {
        let Some(index) = self.find(thread) else {
            return None;
        };
        if !self.is_leader(index, thread) {
            return None;
        }
        let process = &mut self.processes[index];
        if (process.has_leader || process.others == 0) && process.end() {
            Some(process.number)
        } else {
            None
        }
    }

    /// Exchanges a process of this index and another one.
    pub(crate) fn exchange(&mut self, index: usize, other: &mut Process) {
        if index < self.processes.len() {
            mem::swap(&mut self.processes[index], other);
        }
    }
}
