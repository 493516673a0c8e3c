//! What attackers do: processes of untrusted programs in capability mode, which may do anything.

ghost use Rattle.std.specs.Prelude.{◌≡◌, IfOk, Some, length, map, true};
ghost use Rattle.rights.specs.Limits.{most_descriptors};
ghost use Rattle.call_facts.specs.Arguments.{first_operand};
ghost use Rattle.instruction_set.specs.Paths.{calls_with_valid_paths};
ghost use Rattle.instruction_set.specs.Programs.{Number};
ghost use Rattle.instruction_set.specs.Views.{instruction_of, syscall_of};
ghost use Rattle.kernel.specs.Hostile.{Own};
ghost use Rattle.syscalls.specs.Views.{event_of};
ghost use Rattle.explore.specs.Attacks.{AreTried, AreTriedByEach, GoBy, GoesBy, IsTriedBy, limit_by, limits_by};
ghost use Rattle.explore.specs.DeedViews.{deeds_in};
ghost use Rattle.explore.specs.MoveViews.{move_of};

use crate::tried_bytes::bytes_to_try;
use instruction_set::{Instruction, Operand, Path, Syscall, is_valid_path};
use rights::limits::MAX_DESCRIPTORS;
use rights::{Memory, OpenFlags, Rights, is_further_right, operations_of_rights};
use std::alloc::Global;
use std::marker::Model;
use std::mem;
use syscalls::Event;
use task::{Task, none_marked};

/// How many names of the tree are tried.
const MAX_NAMES: usize = 24;

/// The name that is made where a new one is tried.
const NEW_NAME: &[u8] = b"x";

/// An instruction that an attacker's process does in the place of its program's, behind which it stands at the start of its program with
/// registers of 0. (own)
#[derive(Drop)]
pub struct AttackAction {
    instruction: Instruction,
}

impl Model for AttackAction {
    ghost use Rattle.std.specs.Prelude.{◌≡◌, true};
    ghost use Rattle.instruction_set.specs.Paths.{calls_with_valid_paths};
    ghost use Rattle.instruction_set.specs.Programs.{Instruction};
    ghost use Rattle.instruction_set.specs.Views.{instruction_of};

    ghost Value = { Instruction };

    ghost view = { λ d. instruction_of d.instruction };

    ghost invariant = { λ d. calls_with_valid_paths (instruction_of d.instruction) ≡ true };
}

impl AttackAction {
    /// The deed of an instruction, which is copied. Want of memory is the only error.
    pub fn new(alloc: Global, instruction: &Instruction) -> Result<AttackAction, Memory>
        ensures { IfOk result (λ deed. deed ≡ instruction_of instruction.now) }
    {
        let instruction = instruction.copy(alloc)?;
        Ok(AttackAction { instruction })
    }

    /// The instruction.
    pub fn instruction(&self) -> &Instruction
        ensures is { instruction_of result.now ≡ self.now }
        ensures valid { calls_with_valid_paths self.now ≡ true }
    {
        &self.instruction
    }
}

/// A move of a run: an event, and the deed that its process does at it, if its process is an attacker's; without one it goes on with what its
/// program has.
#[derive(Clone, Copy)]
pub struct Move<'a> {
    pub event: Event,
    pub deed: Option<&'a AttackAction>,
}

impl<'a> Move<'a> {
    /// An event at which the process goes on with what its program has.
    pub fn own(event: Event) -> Move<'a>
        ensures { move_of result ≡ (event_of event, Own) }
    {
        Move { event, deed: None }
    }
}

/// The deeds that are tried by a descriptor: those of any, those on names beneath a directory, and what limits it.
#[derive(Drop)]
pub(crate) struct ByNumber {
    pub plain: Vec<AttackAction>,
    pub named: Vec<AttackAction>,
    pub limits: Vec<AttackAction>,
}

/// The deeds that are tried, by the number of the descriptor by which they go. A clause sees the list of their instructions of each number.
#[derive(Drop)]
pub struct AttackActions {
    by_number: Vec<ByNumber>,
}

impl Model for AttackActions {
    ghost use Rattle.std.specs.Prelude.{List, map};
    ghost use Rattle.instruction_set.specs.Programs.{Instruction};
    ghost use Rattle.explore.specs.DeedViews.{deeds_in};

    ghost Value = { List (List Instruction) };

    ghost view = { λ d. map deeds_in d.by_number.items };
}

/// What is tried of a name beneath a directory.
#[derive(Clone, Copy)]
enum OnName {
    Open(OpenFlags),
    Look,
    Make,
    Remove { directory: bool },
}

/// The deeds by the descriptor of a number, as they grow. Where memory is refused, one is left out, and that is noted. A clause sees the number.
#[derive(Drop)]
struct Growing {
    alloc: Global,
    number: u32,
    deeds: Vec<AttackAction>,
    is_short: bool,
}

impl Model for Growing {
    ghost use Rattle.std.specs.Prelude.{ℕ};
    ghost use Rattle.explore.specs.Attacks.{GoBy};

    ghost Value = { ℕ };

    ghost view = { λ g. g.number };

    ghost invariant = { λ g. GoBy g.number g.deeds.items };
}

impl Growing {
    /// Adds a deed that goes by the descriptor, if there is memory for it.
    fn push(&mut self, deed: AttackAction) -> Result<(), Memory>
        requires { GoesBy self.old deed }
        ensures { self.new ≡ self.old }
    {
        self.deeds.push(deed)?;
        Ok(())
    }

    /// Adds a call that goes by the descriptor, if there is memory for it.
    fn add_deed(&mut self, call: Syscall) -> Result<(), Memory>
        requires { first_operand (syscall_of call) ≡ Some (Number self.old) }
        ensures { self.new ≡ self.old }
    {
        let instruction = Instruction::Invoke { call, otherwise: 0 };
        let deed = AttackAction::new(self.alloc, &instruction)?;
        self.push(deed)
    }

    /// Adds a call that goes by the descriptor.
    fn add(&mut self, call: Syscall)
        requires { first_operand (syscall_of call) ≡ Some (Number self.old) }
        ensures { self.new ≡ self.old }
    {
        if self.add_deed(call).is_err() {
            self.is_short = true;
        }
    }

    /// Those that were added since the last time.
    fn take(&mut self) -> Vec<AttackAction>
        ensures same { self.new ≡ self.old }
        ensures taken { GoBy self.old result.items }
    {
        mem::replace(&mut self.deeds, Vec::new(self.alloc))
    }

    /// The path of a name, if it is one that a program may have, and there is memory for it.
    fn path(&mut self, name: &[u8]) -> Option<Path>
        ensures { self.new ≡ self.old }
    {
        let Ok(bytes) = Vec::from_slice(self.alloc, name) else {
            self.is_short = true;
            return None;
        };
        if is_valid_path(&bytes) {
            return Some(Path::new(bytes));
        }
        None
    }

    /// Adds a call on a name beneath a directory.
    fn add_on(&mut self, name: &[u8], what: OnName)
        ensures { self.new ≡ self.old }
    {
        let Some(path) = self.path(name) else {
            return;
        };
        let descriptor = Operand::Number(self.number);
        match what {
            OnName::Open(flags) => self.add(Syscall::Openat {
                descriptor,
                path,
                flags,
            }),
            OnName::Look => self.add(Syscall::Fstatat { descriptor, path }),
            OnName::Make => self.add(Syscall::Mkdirat { descriptor, path }),
            OnName::Remove { directory } => self.add(Syscall::Unlinkat {
                descriptor,
                path,
                directory,
            }),
        }
    }

    /// Adds an open of a name.
    fn add_open(&mut self, name: &[u8], flags: Option<OpenFlags>)
        ensures { self.new ≡ self.old }
    {
        if let Some(flags) = flags {
            self.add_on(name, OnName::Open(flags));
        }
    }

    /// Adds the move of a name to a new one, beneath the directory of another number.
    fn add_move(&mut self, name: &[u8], target: u32)
        ensures { self.new ≡ self.old }
    {
        if let (Some(path), Some(new_path)) = (self.path(name), self.path(NEW_NAME)) {
            self.add(Syscall::Renameat {
                descriptor: Operand::Number(self.number),
                path,
                target: Operand::Number(target),
                new_path,
            });
        }
    }

    /// Adds what may be tried of a name that is there.
    fn add_name(&mut self, name: &[u8])
        ensures { self.new ≡ self.old }
    {
        self.add_open(name, OpenFlags::new(true, false, false, false, false));
        self.add_open(name, OpenFlags::new(false, true, true, false, false));
        self.add_open(name, OpenFlags::new(false, true, false, false, true));
        self.add_on(name, OnName::Look);
        self.add_on(name, OnName::Remove { directory: false });
        self.add_on(name, OnName::Remove { directory: true });
        for target in 0..MAX_DESCRIPTORS as u32 {
            self.add_move(name, target);
        }
    }

    /// Adds what may be tried of a file or directory, of an end of a socket pair, or of both.
    fn add_plain(&mut self, bytes: &[u8])
        ensures { self.new ≡ self.old }
    {
        let number = self.number;
        self.add(Syscall::Read {
            descriptor: Operand::Number(number),
        });
        self.add(Syscall::Recvfd {
            descriptor: Operand::Number(number),
        });
        self.add(Syscall::Fstat {
            descriptor: Operand::Number(number),
        });
        for byte in bytes {
            self.add(Syscall::Write {
                descriptor: Operand::Number(number),
                value: Operand::Number(u32::from(*byte)),
            });
        }
        for sent in 0..MAX_DESCRIPTORS as u32 {
            self.add(Syscall::Sendfd {
                descriptor: Operand::Number(number),
                sent: Operand::Number(sent),
                value: Operand::Number(0),
            });
        }
        self.add(Syscall::Ftruncate {
            descriptor: Operand::Number(number),
            len: Operand::Number(0),
        });
    }

    /// Adds the uses of the further rights that do something, where there are such rights.
    fn add_uses(&mut self, wide: bool)
        ensures { self.new ≡ self.old }
    {
        let number = self.number;
        for row in operations_of_rights() {
            if wide && is_further_right(row.right) {
                self.add(Syscall::Use {
                    descriptor: Operand::Number(number),
                    right: row.right,
                });
            }
        }
    }
}

/// The last names of some nodes of a task's tree, each once.
fn names_to_try(alloc: Global, task: &Task) -> Result<Vec<&[u8]>, Memory> {
    let mut names = Vec::new(alloc);
    for node in task.nodes() {
        if names.len() >= MAX_NAMES {
            break;
        }
        if let Some(name) = node.place.name() {
            if !names.contains(&name) {
                names.push(name)?;
            }
        }
    }
    Ok(names)
}

/// The deed that limits the descriptor of a number to some rights.
fn limit_by(alloc: Global, number: u32, rights: Rights) -> Result<AttackAction, Memory>
    ensures { IfOk result (λ deed. deed ≡ limit_by number rights.0) }
{
    let call = Syscall::CapRightsLimit {
        descriptor: Operand::Number(number),
        rights,
    };
    AttackAction::new(alloc, &Instruction::Invoke { call, otherwise: 0 })
}

/// What may be tried of limits by the descriptor of a number: that it leaves nothing, or writing alone.
fn limits_by(alloc: Global, number: u32) -> Result<Vec<AttackAction>, Memory>
    ensures { IfOk result (λ limits. limits.items ≡ limits_by number) }
{
    let mut limits = Vec::new(alloc);
    limits.push(limit_by(alloc, number, Rights::empty())?)?;
    limits.push(limit_by(alloc, number, Rights::WRITE)?)?;
    Ok(limits)
}

/// What may be tried by the descriptor of a number, whatever it is of: further rights where the task asks for them.
fn deeds_by(
    alloc: Global,
    wide: bool,
    number: u32,
    names: &[&[u8]],
    bytes: &[u8],
) -> Result<ByNumber, Memory>
    ensures { IfOk result (λ deeds. IsTriedBy number (deeds_in deeds)) }
{
    let mut growing = Growing {
        alloc,
        number,
        deeds: Vec::new(alloc),
        is_short: false,
    };
    growing.add_plain(bytes);
    growing.add_uses(wide);
    let plain = growing.take();
    growing.add_open(NEW_NAME, OpenFlags::new(false, true, true, true, false));
    growing.add_on(NEW_NAME, OnName::Make);
    for name in names {
        growing.add_name(name);
    }
    if growing.is_short {
        return Err(Memory);
    }
    let limits = limits_by(alloc, number)?;
    Ok(ByNumber {
        plain,
        named: growing.deeds,
        limits,
    })
}

/// What may be tried by the descriptor of each number.
fn deeds_by_each(alloc: Global, task: &Task) -> Result<Vec<ByNumber>, Memory>
    ensures numbers { IfOk result (λ found. length found.items ≡ most_descriptors) }
    ensures calls { IfOk result (λ found. AreTriedByEach (map deeds_in found.items)) }
{
    let wide = task.further_rights();
    let names = names_to_try(alloc, task)?;
    let bytes = bytes_to_try(alloc, task)?;
    let mut by_number = Vec::new(alloc);
    for number in 0..MAX_DESCRIPTORS as u32 {
        by_number.push(deeds_by(alloc, wide, number, &names, &bytes)?)?;
    }
    Ok(by_number)
}

impl AttackActions {
    /// What attackers of a task may try: nothing where no program is untrusted, and else calls by each number that a descriptor may have. Want of
    /// memory is the only error.
    pub fn new(alloc: Global, task: &Task) -> Result<AttackActions, Memory>
        ensures { IfOk result (λ deeds. AreTried task.now deeds) }
    {
        if none_marked(task.programs()) {
            return Ok(AttackActions {
                by_number: Vec::new(alloc),
            });
        }
        let by_number = deeds_by_each(alloc, task)?;
        Ok(AttackActions { by_number })
    }

    /// Those by the descriptor of a number, if some are tried.
    pub(crate) fn by(&self, number: u8) -> Option<&ByNumber> {
        self.by_number.get(number as usize)
    }
}
