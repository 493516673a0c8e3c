//! What an instruction does to its process.

ghost use Rattle.std.specs.Prelude.{◌≡◌, ◌<◌, ◌+◌, ◌==◌, slice_set, true, false};
ghost use Rattle.instruction_set.specs.Views.{instruction_of};
ghost use Rattle.kernel.specs.Steps as steps;
ghost use Rattle.simulator.specs.Steps.{NeedsNext, acted_on, action};
ghost use Rattle.simulator.specs.Views.{action_of};

use instruction_set::{Instruction, Register};
use process::Process;

/// What an instruction does.
#[derive(Clone, Copy)]
pub(crate) enum Action {
    /// It changes its process, and nothing else.
    Moves,
    /// It ends its process.
    Ends,
    /// It is a system call.
    Calls,
}

/// What a register holds.
fn value_in(process: &Process, register: Register) -> u32
    ensures { result ≡ steps.register process.now register }
{
    process.registers[register.number() as usize]
}

/// Sets a register, and the process goes on.
fn set_register(process: &mut Process, register: Register, value: u32)
    requires { process.old.point + 1 < 256 }
    ensures { process.new ≡ steps.goes_on (steps.with_register process.old register value) }
{
    process.set(register, value);
    process.go_on();
}

/// The process goes to the target, or on to the next point.
#[tactic(auto, unfolding(kernel::specs::Steps::jumped))]
fn jump(process: &mut Process, jumps: bool, target: u8)
    requires { process.old.point + 1 < 256 }
    ensures { process.new ≡ steps.jumped process.old jumps target }
{
    if jumps {
        process.move_to(target);
    } else {
        process.go_on();
    }
}

/// What the instruction does to a process at this byte of an event. A process that it ends, or that calls, stays as it
/// is.
pub(crate) fn act(process: &mut Process, instruction: &Instruction, input: u8) -> Action
    requires { NeedsNext (instruction_of instruction.now) (process.old.point + 1 < 256) }
    ensures action { action_of result ≡ action (instruction_of instruction.now) }
    ensures process { process.new ≡ acted_on process.old input (instruction_of instruction.now) }
{
    match instruction {
        Instruction::Set { register, value } => set_register(process, *register, *value),
        Instruction::Mov { register, source } => {
            let value = value_in(process, *source);
            set_register(process, *register, value);
        }
        Instruction::Add { register, addend } => {
            let sum = value_in(process, *register).wrapping_add(value_in(process, *addend));
            set_register(process, *register, sum);
        }
        Instruction::In { register } => set_register(process, *register, u32::from(input)),
        Instruction::Jmp { target } => process.move_to(*target),
        Instruction::Jeq {
            register,
            value,
            target,
        } => {
            let jumps = value_in(process, *register) == *value;
            jump(process, jumps, *target);
        }
        Instruction::Jlt {
            register,
            value,
            target,
        } => {
            let jumps = value_in(process, *register) < *value;
            jump(process, jumps, *target);
        }
        Instruction::Halt => return Action::Ends,
        Instruction::Invoke { .. } => return Action::Calls,
    }
    Action::Moves
}
