//! The events that may come next.

ghost use Rattle.std.specs.Prelude.{◌≡◌, ◌++◌, OnOk, map};
ghost use Rattle.instruction_set.specs.Views.{instruction_of};
ghost use Rattle.explore.specs.Broken.{own_moves};
ghost use Rattle.explore.specs.Moves.{tried};
ghost use Rattle.explore.specs.MoveViews.{move_of};

use crate::attacks::{AttackAction, AttackActions, Move};
use crate::details::is_limit;
use crate::runners::Runner;
use crate::states::open_at;
use call_facts::{
    Argument, Arguments, NameChange, Passed, Scope, TableChange, arguments_of, first_operand,
    first_operations, may_be_refused, name_change, opening_flags, passed_by, scope_of,
    second_operand, table_change, value_operand,
};
use fd_table::{Description, Descriptor, End, Object};
use file_tree::NodeId;
use instruction_set::{Instruction, Operand, Syscall};
use rights::limits::{MAX_DESCRIPTORS, MAX_PROCESSES};
use rights::{Memory, Op, OpenFlags};
use syscalls::Event;

/// How many messages of an attacker are on their way at most: more can be sent when they were taken.
const MAX_SENT: usize = 2;

/// Whether a descriptor is of an end of a socket pair.
fn is_end(open: Option<(Descriptor, Description)>) -> bool {
    match open {
        None => false,
        Some((_, description)) => matches!(description.object, Object::End { .. }),
    }
}

/// Whether a process has an end of a socket pair open.
fn has_end(runner: &Runner<'_>, process: u8) -> bool {
    for number in 0..MAX_DESCRIPTORS as u8 {
        if is_end(open_at(runner.machine.files(), process, number)) {
            return true;
        }
    }
    false
}

/// Whether a call of a process frees the number of an end of a socket pair.
fn frees_end(runner: &Runner<'_>, process: u8, call: &Syscall) -> bool {
    match (table_change(call.call()), first_operand(call)) {
        (TableChange::Freed, Some(descriptor)) => is_end(runner.descriptor(process, descriptor)),
        _ => false,
    }
}

/// Whether an instruction of a process changes nothing that another process sees, and sees nothing that another changes.
fn is_own(runner: &Runner<'_>, process: u8, instruction: &Instruction) -> bool {
    match instruction {
        Instruction::Halt => !has_end(runner, process),
        Instruction::Invoke { call, .. } => match scope_of(call.call()) {
            Scope::Mode => true,
            Scope::Table => !frees_end(runner, process, call),
            Scope::Object | Scope::Node | Scope::Root | Scope::Beneath | Scope::System => false,
        },
        _ => true,
    }
}

/// Adds the events of a process that stands at an instruction: a step for each byte where it reads one, and that its call is refused where it may be.
fn add_events(
    moves: &mut Vec<Move<'_>>,
    bytes: &[u8],
    process: u8,
    instruction: &Instruction,
) -> Result<(), Memory>
    ensures { OnOk result (map move_of moves.new.items
        ≡ map move_of moves.old.items ++ own_moves (tried bytes.now process (instruction_of instruction.now))) }
{
    let step = Event {
        process,
        input: 0,
        refuse: false,
    };
    match instruction {
        Instruction::In { .. } => {
            for input in bytes {
                moves.push(Move::own(Event {
                    input: *input,
                    ..step
                }))?;
            }
            Ok(())
        }
        Instruction::Invoke { call, .. } if may_be_refused(call.call()) => {
            moves.push(Move::own(step))?;
            moves.push(Move::own(Event {
                refuse: true,
                ..step
            }))?;
            Ok(())
        }
        _ => {
            moves.push(Move::own(step))?;
            Ok(())
        }
    }
}

/// What a call by a descriptor of a node does there, or what an open lets its process do there.
fn aimed_at(call: &Syscall) -> Option<Op> {
    match opening_flags(call) {
        Some(flags) if flags.create() => Some(Op::Create),
        Some(flags) if flags.write() => Some(Op::Write),
        Some(_) => Some(Op::Read),
        None => first_operations(call.call(), OpenFlags::unused(), call.further())
            .first()
            .copied(),
    }
}

/// An attacker's process, and a descriptor of it.
#[derive(Clone, Copy)]
struct Attack<'r, 'a> {
    runner: &'r Runner<'a>,
    process: u8,
    descriptor: Descriptor,
    object: Object,
}

impl<'r, 'a> Attack<'r, 'a> {
    /// Whether the directory that a move leads to is in a grant that doesn't list creating.
    fn leads_beyond(&self, target: Operand) -> bool {
        match self.runner.descriptor(self.process, target) {
            None => false,
            Some((_, description)) => match &description.object {
                Object::Node { node, .. } => !self.runner.lists(*node, Op::Create),
                Object::End { .. } => false,
            },
        }
    }

    /// Whether a call by a descriptor of a node does there, or lets its process do there afterwards, what the node's grant doesn't list. One byte
    /// that is written stands for all.
    fn goes_beyond(&self, node: NodeId, call: &Syscall) -> bool {
        if name_change(call.call()) == NameChange::Moved
            && second_operand(call).is_some_and(|target| self.leads_beyond(target))
        {
            return true;
        }
        if passed_by(call.call()) == Passed::ByteOut
            && value_operand(call) != Some(Operand::Number(0))
        {
            return false;
        }
        match aimed_at(call) {
            Some(op) => !self.runner.lists(node, op),
            None => false,
        }
    }

    /// Whether the second descriptor of a call is open.
    fn has_second(&self, call: &Syscall) -> bool {
        match second_operand(call) {
            Some(second) => self.runner.descriptor(self.process, second).is_some(),
            None => false,
        }
    }

    /// Whether a call by an end of a socket pair tells something to whoever has the other, or takes what that sends.
    fn is_heard(&self, end: End, call: &Syscall) -> bool {
        let has_room = self.runner.machine.files().sent(end).len() < MAX_SENT;
        match passed_by(call.call()) {
            Passed::DescriptorOut => has_room && self.has_second(call),
            Passed::ByteOut => has_room,
            Passed::ByteIn | Passed::DescriptorIn => true,
            Passed::Nothing => false,
        }
    }

    /// Whether a call should be tried. A limit that leaves less should where the descriptor can be sent.
    fn should(&self, call: &Syscall) -> bool {
        let rights = self.descriptor.rights;
        match arguments_of(call) {
            Arguments::Two(_, Argument::Rights(left)) if is_limit(call) => {
                let shrinks = rights.contains(left) && left != rights;
                return shrinks && has_end(self.runner, self.process);
            }
            _ => {}
        }
        if !rights.contains(call.first_rights().union(call.further())) {
            return false;
        }
        match &self.object {
            Object::Node { node, .. } => self.goes_beyond(*node, call),
            Object::End { end, .. } => self.is_heard(*end, call),
        }
    }

    /// Adds those of some deeds that should be tried.
    fn add_those<'d>(
        &self,
        deeds: &'d [AttackAction],
        moves: &mut Vec<Move<'d>>,
    ) -> Result<(), Memory> {
        let event = Event {
            process: self.process,
            input: 0,
            refuse: false,
        };
        for deed in deeds {
            if let Instruction::Invoke { call, .. } = deed.instruction() {
                if self.should(call) {
                    moves.push(Move {
                        event,
                        deed: Some(deed),
                    })?;
                }
            }
        }
        Ok(())
    }
}

/// What is tried from a state: the bytes for `in`, and what attackers do.
#[derive(Drop)]
pub(crate) struct Tries<'a> {
    pub deeds: &'a AttackActions,
    pub bytes: Vec<u8>,
    /// A step that reads a byte doesn't go first: it needn't be chosen before it is needed.
    pub inputs_wait: bool,
}

impl<'a> Tries<'a> {
    /// Adds the moves of a process that goes first alone, since it stands at a step that touches nothing shared, so that those of others can come
    /// later. Whether there is one is told.
    pub(crate) fn add_first(
        &self,
        runner: &Runner<'_>,
        moves: &mut Vec<Move<'a>>,
    ) -> Result<bool, Memory> {
        for number in 0..MAX_PROCESSES as u8 {
            if runner.process(number).is_none() {
                break;
            }
            let Some(instruction) = runner.instruction(number) else {
                continue;
            };
            let waits = self.inputs_wait && matches!(instruction, Instruction::In { .. });
            if !waits && !runner.is_hostile(number) && is_own(runner, number, instruction) {
                add_events(moves, &self.bytes, number, instruction)?;
                return Ok(true);
            }
        }
        Ok(false)
    }

    /// Adds the deeds that a process should try which may do anything.
    fn add_deeds(
        &self,
        runner: &Runner<'_>,
        process: u8,
        moves: &mut Vec<Move<'a>>,
    ) -> Result<(), Memory> {
        for number in 0..MAX_DESCRIPTORS as u8 {
            let open = open_at(runner.machine.files(), process, number);
            let (Some((descriptor, description)), Some(deeds)) = (open, self.deeds.by(number))
            else {
                continue;
            };
            let attack = Attack {
                runner,
                process,
                descriptor,
                object: description.object,
            };
            attack.add_those(&deeds.plain, moves)?;
            if matches!(description.object, Object::Node { .. }) {
                attack.add_those(&deeds.named, moves)?;
            }
            attack.add_those(&deeds.limits, moves)?;
        }
        Ok(())
    }

    /// Adds the moves of all processes: the deeds of those that may do anything, and the steps of the others. No move is left where there is one that
    /// may do anything and shouldn't.
    pub(crate) fn add_all(
        &self,
        runner: &Runner<'_>,
        with_deeds: bool,
        moves: &mut Vec<Move<'a>>,
    ) -> Result<(), Memory> {
        for number in 0..MAX_PROCESSES as u8 {
            if runner.process(number).is_none() {
                break;
            }
            if runner.is_hostile(number) {
                if !with_deeds {
                    moves.clear();
                    break;
                }
                self.add_deeds(runner, number, moves)?;
            } else if let Some(instruction) = runner.instruction(number) {
                add_events(moves, &self.bytes, number, instruction)?;
            }
        }
        Ok(())
    }
}
