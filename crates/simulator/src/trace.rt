//! The text of a trace.

ghost use Rattle.std.specs.Prelude.{◌≡◌, ◌<◌, ◌++◌, [], IfSome, OnErr, OnOk, Some, codes, length};
ghost use Rattle.std.specs.Fmt.{decimal};
ghost use Rattle.std.specs.List.{flat_map};
ghost use Rattle.rights.specs.OperationLists.{operation_name};
ghost use Rattle.rights.specs.Views.{cause_of, errno_of, operation_of};
ghost use Rattle.file_tree.specs.Nodes.{node};
ghost use Rattle.kernel.specs.Steps.{Failed};
ghost use Rattle.syscalls.specs.Shows.{shown_at};
ghost use Rattle.syscalls.specs.Views.{AreThere, effects_in};
ghost use Rattle.task.specs.Views.{programs_of};
ghost use Rattle.simulator.specs.Traces.{acted_text, effect_text, line_text, result_text};
ghost use Rattle.simulator.specs.Views.{stepped_line, result_of, stepped_in};

use crate::lines::{LineResult, Stepped};
use crate::page::Page;
use file_tree::{NodeId, Tree};
use rights::{Cause, Errno, Op};
use std::alloc::AllocError;
use syscalls::Effects;
use task::Task;

/// Appends a number in decimal, three digits at once.
fn push_digits(page: &mut Page, number: u32) -> Result<(), AllocError>
    ensures lines { page.new.lines ≡ page.old.lines }
    ensures line { OnOk result (page.new.line ≡ page.old.line ++ decimal number) }
{
    if number < 10 {
        return page.push(b'0' + number as u8);
    }
    let tens = number / 10;
    let last = b'0' + (number - tens * 10) as u8;
    if number < 100 {
        return page.append_word(&[b'0' + tens as u8, last]);
    }
    let hundreds = tens / 10;
    let middle = b'0' + (tens - hundreds * 10) as u8;
    if number < 1000 {
        return page.append_word(&[b'0' + hundreds as u8, middle, last]);
    }
    push_digits(page, hundreds)?;
    page.append_word(&[middle, last])
}

/// Appends a number in decimal. Most have one digit, and need no call.
#[inline(always)]
fn push_number(page: &mut Page, number: u32) -> Result<(), AllocError>
    ensures lines { page.new.lines ≡ page.old.lines }
    ensures line { OnOk result (page.new.line ≡ page.old.line ++ decimal number) }
{
    if number < 10 {
        return page.push(b'0' + number as u8);
    }
    push_digits(page, number)
}

/// Appends why a call failed, as ` ! EBADF BadDescriptor`.
fn push_failure(page: &mut Page, errno: Errno, cause: Cause) -> Result<(), AllocError>
    ensures lines { page.new.lines ≡ page.old.lines }
    ensures line { OnOk result (page.new.line
        ≡ page.old.line ++ codes " " ++ result_text (Failed (errno_of errno) (cause_of cause))) }
{
    page.append_word(b" ! ")?;
    page.append(errno.name().as_bytes())?;
    page.push(b' ')?;
    page.append(cause.name().as_bytes())
}

/// Appends a blank, and what a step came to.
fn push_result(page: &mut Page, outcome: LineResult) -> Result<(), AllocError>
    ensures lines { page.new.lines ≡ page.old.lines }
    ensures line { OnOk result (page.new.line ≡ page.old.line ++ codes " " ++ result_text (result_of outcome)) }
{
    match outcome {
        LineResult::Done => page.append_word(b" ok"),
        LineResult::Halted => page.append_word(b" halt"),
        LineResult::Value(value) => {
            page.append_word(b" = ")?;
            push_number(page, value)
        }
        LineResult::Failed(errno, cause) => push_failure(page, errno, cause),
        LineResult::Waiting => page.append_word(b" wait"),
        LineResult::Walking => page.append_word(b" walk"),
        LineResult::Ended => page.append_word(b" ended"),
    }
}

/// Appends the word of an operation, with a blank before it and one behind it.
fn push_operation(page: &mut Page, op: Op) -> Result<(), AllocError>
    ensures lines { page.new.lines ≡ page.old.lines }
    ensures line { OnOk result (page.new.line
        ≡ page.old.line ++ codes " " ++ operation_name (operation_of op) ++ codes " ") }
{
    match op {
        Op::Look => page.append_word(b" look "),
        Op::Read => page.append_word(b" read "),
        Op::Write => page.append_word(b" write "),
        Op::Create => page.append_word(b" create "),
        Op::Remove => page.append_word(b" remove "),
    }
}

/// Appends an operation on a node, as ` read /work/in`.
#[inline(never)]
fn push_done<T: Tree>(page: &mut Page, tree: &T, op: Op, n: NodeId) -> Result<(), AllocError>
    requires { n < length (T.nodes tree.now) }
    ensures lines { page.new.lines ≡ page.old.lines }
    ensures line { OnOk result (page.new.line ≡ page.old.line ++ effect_text (shown_at (operation_of op) (node (T.nodes tree.now) n).place)) }
{
    push_operation(page, op)?;
    page.append_place(tree, n)
}

/// Appends the effects, one after another.
#[inline(always)]
fn push_effects<T: Tree>(page: &mut Page, tree: &T, effects: &Effects) -> Result<(), AllocError>
    requires { AreThere (T.nodes tree.now) effects.now }
    ensures lines { page.new.lines ≡ page.old.lines }
    ensures line { OnOk result (page.new.line ≡ page.old.line ++ flat_map effect_text (effects_in (T.nodes tree.now) effects.now)) }
{
    match effects {
        Effects::Nothing => Ok(()),
        Effects::One(op, n) => push_done(page, tree, *op, *n),
        Effects::Renamed(n, from) => {
            push_operation(page, Op::Remove)?;
            page.append(from)?;
            push_done(page, tree, Op::Create, *n)
        }
        Effects::Replaced(n, from) => {
            push_done(page, tree, Op::Remove, *n)?;
            push_operation(page, Op::Remove)?;
            page.append(from)?;
            push_done(page, tree, Op::Create, *n)
        }
    }
}

/// Appends what a process that was made did.
fn push_stepped<T: Tree>(
    page: &mut Page,
    task: &Task,
    tree: &T,
    stepped: &Stepped,
) -> Result<(), AllocError>
    requires { AreThere (T.nodes tree.now) stepped.now.effects }
    ensures lines { page.new.lines ≡ page.old.lines }
    ensures line { OnOk result (page.new.line ≡ page.old.line ++ acted_text task.now (Some (stepped_in (T.nodes tree.now) stepped.now))) }
{
    page.push(b' ')?;
    page.append(task.program_name(stepped.program))?;
    page.push(b':')?;
    push_number(page, u32::from(stepped.point))?;
    push_result(page, stepped.outcome)?;
    push_effects(page, tree, &stepped.effects)
}

/// Adds the text of a step's line, with its line feed, to the whole lines. After a refused growth these are as they were.
pub(crate) fn push_line<T: Tree>(
    page: &mut Page,
    task: &Task,
    tree: &T,
    process: u8,
    stepped: &Option<Stepped>,
) -> Result<(), AllocError>
    requires begun { page.old.line ≡ [] }
    requires there { IfSome stepped.now (λ s. AreThere (T.nodes tree.now) s.effects) }
    ensures ok { OnOk result (page.new.lines ≡ page.old.lines ++ line_text task.now (stepped_line (T.nodes tree.now) process stepped.now)) }
    ensures begun { OnOk result (page.new.line ≡ []) }
    ensures err { OnErr result (page.new.lines ≡ page.old.lines) }
{
    push_number(page, u32::from(process))?;
    match stepped {
        None => page.append_word(b" - none")?,
        Some(stepped) => push_stepped(page, task, tree, stepped)?,
    }
    page.push(b'\n')?;
    page.end_line();
    Ok(())
}
