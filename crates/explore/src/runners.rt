//! A machine on its way.

use crate::attacks::Move;
use crate::breaking::watched_step;
use crate::digests::Digest;
use crate::readable::Readable;
use crate::states::{Order, Parts, digest_of, open_at};
use crate::trees::Places;
use fd_table::{Description, Descriptor};
use file_tree::NodeId;
use instruction_set::{Instruction, Operand, Syscall};
use process::Process;
use rights::{Memory, Op};
use shared_tree::SharedTree;
use simulator::{LineResult, Machine};
use std::alloc::Global;
use std::rc::Rc;
use syscalls::Effect;
use task::Task;

/// A machine that has run so far, and the digest of its tree.
#[derive(Drop)]
pub(crate) struct Runner<'a> {
    alloc: Global,
    task: &'a Task,
    pub machine: Machine<'a, SharedTree>,
    /// Where its tree's nodes stand, and the tree's digest, made only where they are asked for.
    places: Rc<Places>,
    tree: Digest,
    /// What was changed since.
    changed: Changed,
}

/// What was changed of a tree.
#[derive(Clone, Copy)]
enum Changed {
    Nothing,
    /// What files contain.
    Contents,
    /// Names, too.
    Names,
}

/// What a step came to, for the exploration.
#[derive(Clone, Copy)]
pub(crate) enum Advance {
    /// It breaks something.
    Breaks,
    /// The process went on.
    Goes,
    /// It couldn't go on, and nothing changed.
    Stays,
}

impl Changed {
    /// What was changed, also by these effects.
    fn by(self, effects: &[Effect]) -> Changed {
        let mut changed = self;
        for effect in effects {
            changed = match (effect.op, changed) {
                (Op::Create | Op::Remove, _) => Changed::Names,
                (Op::Write, Changed::Nothing) => Changed::Contents,
                _ => changed,
            };
        }
        changed
    }
}

impl<'a> Runner<'a> {
    /// The machine at the start of the task.
    pub(crate) fn start(alloc: Global, task: &'a Task) -> Result<Runner<'a>, Memory> {
        let Ok(machine) = Machine::start(alloc, task) else {
            return Err(Memory);
        };
        let places = Rc::new(alloc, Places::new(alloc))?;
        Ok(Runner {
            alloc,
            task,
            machine,
            places,
            tree: Digest::new(),
            changed: Changed::Names,
        })
    }

    /// The same once more.
    pub(crate) fn copy(&self) -> Result<Runner<'a>, Memory> {
        let machine = self.machine.copy()?;
        let places = self.places.clone()?;
        Ok(Runner {
            alloc: self.alloc,
            task: self.task,
            machine,
            places,
            tree: self.tree,
            changed: self.changed,
        })
    }

    /// Makes it the same as another one of its task, in the room that it has.
    pub(crate) fn copy_from(&mut self, other: &Runner<'a>) -> Result<(), Memory> {
        self.machine.copy_from(&other.machine)?;
        self.places = other.places.clone()?;
        self.tree = other.tree;
        self.changed = other.changed;
        Ok(())
    }

    /// The process of a number, if it was made.
    pub(crate) fn process(&self, number: u8) -> Option<&Process> {
        self.machine.processes().get(number as usize)
    }

    /// Whether a process may do anything.
    pub(crate) fn is_hostile(&self, number: u8) -> bool {
        match self.process(number) {
            None => false,
            Some(process) => process.is_hostile(),
        }
    }

    /// The instruction at which a process stands, if it lives and there is one.
    pub(crate) fn instruction(&self, number: u8) -> Option<&'a Instruction> {
        match self.process(number) {
            Some(process) if process.alive => {
                match self.task.programs().get(process.program as usize) {
                    None => None,
                    Some(named) => named.program.code().get(process.point as usize),
                }
            }
            _ => None,
        }
    }

    /// The call at which a process stands, if it does.
    pub(crate) fn call(&self, number: u8) -> Option<&'a Syscall> {
        match self.instruction(number) {
            Some(Instruction::Invoke { call, .. }) => Some(call),
            _ => None,
        }
    }

    /// The number that an operand of a process stands for, if a descriptor may have it.
    pub(crate) fn number(&self, process: u8, operand: Operand) -> Option<u8> {
        let value = match operand {
            Operand::Number(number) => number,
            Operand::Register(register) => match self.process(process) {
                None => return None,
                Some(state) => state.registers[register.number() as usize],
            },
        };
        u8::try_from(value).ok()
    }

    /// The descriptor that an operand of a process names, and what it is of.
    pub(crate) fn descriptor(
        &self,
        process: u8,
        operand: Operand,
    ) -> Option<(Descriptor, Description)> {
        match self.number(process, operand) {
            None => None,
            Some(number) => open_at(self.machine.files(), process, number),
        }
    }

    /// Whether the grant in which a node stood when the tree was looked through lists an operation.
    pub(crate) fn lists(&self, node: NodeId, op: Op) -> bool {
        let Some(Some(at)) = self.places.grants.get(node.number()) else {
            return false;
        };
        match self.task.grants().get(*at) {
            None => false,
            Some(grant) => op.is_listed(&grant.operations),
        }
    }

    /// One step.
    pub(crate) fn step(&mut self, next: &Move<'_>) -> Result<Advance, Memory> {
        let Ok(watched) = watched_step(self.alloc, self.task, &mut self.machine, next) else {
            return Err(Memory);
        };
        let Some(acted) = &watched.line.acted else {
            return Ok(Advance::Stays);
        };
        self.changed = self.changed.by(&acted.effects);
        Ok(match acted.outcome {
            LineResult::Waiting | LineResult::Ended => Advance::Stays,
            _ if watched.breach.is_some() => Advance::Breaks,
            _ => Advance::Goes,
        })
    }

    /// Looks through the tree, where something was changed since it was looked through.
    pub(crate) fn look_through(&mut self, readable: &Readable<'_>) -> Result<(), Memory> {
        let tree = self.machine.tree();
        if let Changed::Names = self.changed {
            let places = Places::of(self.alloc, tree, readable)?;
            self.places = Rc::new(self.alloc, places)?;
        }
        if !matches!(self.changed, Changed::Nothing) {
            self.tree = self.places.digest_of(tree);
            self.changed = Changed::Nothing;
        }
        Ok(())
    }

    /// The digest of the state.
    pub(crate) fn digest(
        &mut self,
        readable: &Readable<'_>,
        order: &mut Order,
    ) -> Result<Digest, Memory> {
        self.look_through(readable)?;
        let machine = &self.machine;
        let parts = Parts {
            processes: machine.processes(),
            files: machine.files(),
            tree: machine.tree(),
            places: &self.places,
            tree_digest: self.tree,
        };
        digest_of(self.alloc, &parts, &readable.registers, order)
    }
}
