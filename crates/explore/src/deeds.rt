//! What attackers do, in the words of a program.

ghost use Rattle.instruction_set.specs.Views.{instruction_of};
ghost use Rattle.texts.specs.PageViews.{Adds};
ghost use Rattle.explore.specs.DeedTexts.{deed_text};

use crate::attacks::AttackAction;
use call_facts::add_call;
use instruction_set::Instruction;
use texts::Page;

/// Adds the call of an instruction with its arguments; nothing of one that is no call.
fn add_instruction(page: &mut Page, instruction: &Instruction)
    ensures { Adds page.old page.new (deed_text (instruction_of instruction.now)) }
{
    match instruction {
        Instruction::Invoke { call, .. } => add_call(page, call),
        _ => {}
    }
}

/// Adds the call of a deed with its arguments, as a program has it in front of `else`; nothing of a deed that is no call. (own)
pub fn add_deed(page: &mut Page, deed: &AttackAction)
    ensures { Adds page.old page.new (deed_text deed.now) }
{
    add_instruction(page, deed.instruction())
}
