//! A machine that runs a task step by step.

ghost use Rattle.std.specs.Prelude.{◌≡◌, ◌<◌, ◌↔◌, IfOk, IfSome, IsErrOf, OnErr, OnOk, slice_get, true, false};
ghost use Rattle.kernel.specs.Renamings.{DiffersInNumbers};
ghost use Rattle.kernel.specs.Hostile.{Does};
ghost use Rattle.kernel.specs.WellFormed.{IsWellFormed};
ghost use Rattle.instruction_set.specs.Views.{instruction_of};
ghost use Rattle.syscalls.specs.Views.{AreThere, event_of};
ghost use Rattle.task.specs.Begins.{first_world};
ghost use Rattle.task.specs.Limits.{is_plan};
ghost use Rattle.task.specs.Plans.{programs_of_plan};
ghost use Rattle.simulator.specs.Deeds.{may_stand_at};
ghost use Rattle.simulator.specs.Machines.{machine_world};
ghost use Rattle.simulator.specs.Steps.{StepsMachine, StepsMachineAs};
ghost use Rattle.simulator.specs.Views.{stepped_line, line_of};

use crate::copies::{copy_world, copy_world_from};
use crate::lines::{Line, Stepped};
use crate::starting::first_world;
use crate::steps::{advance, may_stand_at, step_world, step_world_as};
use fd_table::Files;
use file_tree::{CopyTree, Tree};
use instruction_set::Instruction;
use process::Process;
use rights::limits::REGISTERS;
use rights::{Memory, Stop};
use std::alloc::Global;
use std::marker::Model;
use syscalls::{Event, World};
use task::Task;

/// A machine: a task, and the state of a run of it. After a refused growth it answers `Spent` for good.
#[derive(Drop)]
pub struct Machine<'a, T: Tree> {
    alloc: Global,
    task: &'a Task,
    world: World<T>,
    spent: bool,
}

impl<'a, T: Tree> Model for Machine<'a, T> {
    ghost use Rattle.fd_table.specs.Kept.{open_files};
    ghost use Rattle.simulator.specs.Machines.{MachineState, IsRunning};

    ghost Value = { MachineState };

    ghost view = { λ m. record { plan = m.task.now; tree = T.nodes m.world.tree; files = m.world.files; processes = m.world.processes.items; spent = m.spent } };

    ghost invariant = { λ m. IsRunning (record { plan = m.task.now; tree = T.nodes m.world.tree; files = m.world.files; processes = m.world.processes.items; spent = m.spent }) };
}

impl<'a, T: Tree> Machine<'a, T> {
    /// The machine at the start of a task: its first processes stand at point 0 with all registers 0, each first
    /// descriptor of a file or directory has a description of its own, those of one side of an initial socket pair share its
    /// description, and nothing is queued. The numbers of descriptions and pairs, which nothing shows, may be others than the
    /// model's. Want of memory alone keeps it from starting.
    pub fn start(alloc: Global, task: &'a Task) -> Result<Machine<'a, T>, Stop>
        ensures plan { IfOk result (λ machine. machine.plan ≡ task.now) }
        ensures valid { IfOk result (λ machine. is_plan machine.plan ≡ true) }
        ensures world { IfOk result (λ machine. DiffersInNumbers (first_world task.now) (machine_world machine)) }
        ensures runs_on { IfOk result (λ machine. machine.spent ≡ false) }
        ensures well_formed { IfOk result (λ machine. IsWellFormed (programs_of_plan machine.plan) (machine_world machine)) }
        ensures memory { OnErr result (IsErrOf result Stop.Memory) }
    {
        let world = first_world(alloc, task)?;
        Ok(Machine {
            alloc,
            task,
            world,
            spent: false,
        })
    }

    /// The processes, by number.
    pub fn processes(&self) -> &[Process]
        ensures { result.now ≡ self.now.processes }
    {
        &self.world.processes
    }

    /// What the processes have open.
    pub fn files(&self) -> &Files
        ensures { result.now ≡ self.now.files }
    {
        &self.world.files
    }

    /// The tree.
    pub fn tree(&self) -> &T
        ensures { T.nodes result.now ≡ self.now.tree }
    {
        &self.world.tree
    }

    /// One step, and its line. A refused growth is `Memory`, and from then on each step is `Spent`.
    pub fn step(&mut self, event: Event) -> Result<Line, Stop>
        ensures step { IfOk result (λ line.
            StepsMachine (programs_of_plan self.old.plan) (machine_world self.old) (event_of event) (line_of line) (machine_world self.new)) }
        ensures well_formed { OnOk result (IsWellFormed (programs_of_plan self.new.plan) (machine_world self.new)) }
        ensures plan { self.new.plan ≡ self.old.plan }
        ensures spent { IsErrOf result Stop.Spent ↔ (self.old.spent ≡ true) }
        ensures runs_on { OnOk result (self.new.spent ≡ false) }
        ensures stops { OnErr result (self.new.spent ≡ true) }
        ensures no_device { IsErrOf result Stop.Device → ⊥ }
        ensures byte { OnOk result (event.input < 256) }
    {
        if self.spent {
            return Err(Stop::Spent);
        }
        match step_world(self.alloc, self.task, &mut self.world, event) {
            Ok(line) => Ok(line),
            Err(_) => {
                self.spent = true;
                Err(Stop::Memory)
            }
        }
    }

    /// The same, with what the process did, if it was made, in place of its line.
    pub(crate) fn advance(&mut self, event: Event) -> Result<Option<Stepped>, Stop>
        ensures step { IfOk result (λ stepped. StepsMachine (programs_of_plan self.old.plan) (machine_world self.old) (event_of event)
            (stepped_line self.new.tree event.process stepped) (machine_world self.new)) }
        ensures there { IfOk result (λ stepped. IfSome stepped (λ s. AreThere self.new.tree s.effects)) }
        ensures well_formed { OnOk result (IsWellFormed (programs_of_plan self.new.plan) (machine_world self.new)) }
        ensures plan { self.new.plan ≡ self.old.plan }
        ensures spent { IsErrOf result Stop.Spent ↔ (self.old.spent ≡ true) }
        ensures runs_on { OnOk result (self.new.spent ≡ false) }
        ensures stops { OnErr result (self.new.spent ≡ true) }
        ensures no_device { IsErrOf result Stop.Device → ⊥ }
        ensures byte { OnOk result (event.input < 256) }
    {
        if self.spent {
            return Err(Stop::Spent);
        }
        match advance(self.alloc, self.task, &mut self.world, event) {
            Ok(stepped) => Ok(stepped),
            Err(_) => {
                self.spent = true;
                Err(Stop::Memory)
            }
        }
    }

    /// Whether the process may be left at this point by `step_as`: it is a point of its program, if the process may do anything. (own)
    pub fn may_stand_at(&self, process: u8, point: u8) -> bool
        ensures { result ≡ may_stand_at (programs_of_plan self.now.plan) (slice_get self.now.processes process) point }
    {
        may_stand_at(self.task, &self.world.processes, process, point)
    }

    /// One step in which the event's process does this instruction, if it may do anything: if its program is untrusted, and it is in
    /// capability mode, lives and has no call under way. Whatever comes of it, an error or that it waits too, it has these registers
    /// and this point afterwards, and so has a child that it has made; while names of a path are left, later steps go on with it.
    /// Where the process may not do anything, it is `step`. (own)
    ///
    /// Its caller knows that the point is one of the process's program, where it may do anything (`may_stand_at`). The instruction
    /// may be any; it is copied. A refused growth is `Memory`, and from then on each step is `Spent`.
    pub fn step_as(
        &mut self,
        event: Event,
        instruction: &Instruction,
        registers: [u32; REGISTERS],
        point: u8,
    ) -> Result<Line, Stop>
        requires { may_stand_at (programs_of_plan self.old.plan) (slice_get self.old.processes event.process) point ≡ true }
        ensures step { IfOk result (λ line. StepsMachineAs (programs_of_plan self.old.plan) (machine_world self.old) (event_of event)
            (Does (record { instruction = instruction_of instruction.now; registers = registers; point = point })) (line_of line) (machine_world self.new)) }
        ensures well_formed { OnOk result (IsWellFormed (programs_of_plan self.new.plan) (machine_world self.new)) }
        ensures plan { self.new.plan ≡ self.old.plan }
        ensures spent { IsErrOf result Stop.Spent ↔ (self.old.spent ≡ true) }
        ensures runs_on { OnOk result (self.new.spent ≡ false) }
        ensures stops { OnErr result (self.new.spent ≡ true) }
        ensures no_device { IsErrOf result Stop.Device → ⊥ }
        ensures byte { OnOk result (event.input < 256) }
    {
        if self.spent {
            return Err(Stop::Spent);
        }
        match step_world_as(
            self.alloc,
            self.task,
            &mut self.world,
            event,
            instruction,
            registers,
            point,
        ) {
            Ok(line) => Ok(line),
            Err(_) => {
                self.spent = true;
                Err(Stop::Memory)
            }
        }
    }
}

impl<'a, T: CopyTree> Machine<'a, T> {
    /// The same machine once more: what it would do, the copy does. Want of memory alone keeps it from being made. (own)
    pub fn copy(&self) -> Result<Machine<'a, T>, Memory>
        ensures { IfOk result (λ machine. machine ≡ self.now) }
    {
        let world = copy_world(self.alloc, &self.world)?;
        Ok(Machine {
            alloc: self.alloc,
            task: self.task,
            world,
            spent: self.spent,
        })
    }

    /// Makes it the same as another machine, in the room that it has. Want of memory alone keeps it from that, and then nothing changes. (own)
    pub fn copy_from(&mut self, other: &Machine<'a, T>) -> Result<(), Memory>
        ensures ok { OnOk result (self.new ≡ other.now) }
        ensures err { OnErr result (self.new ≡ self.old) }
    {
        copy_world_from(self.alloc, &mut self.world, &other.world)?;
        self.task = other.task;
        self.spent = other.spent;
        Ok(())
    }
}
