//! Where the faults of a task's text are.

ghost use Rattle.std.specs.Prelude.{◌≡◌, IfOk, false, true};
ghost use Rattle.explain.specs.TaskTexts.{IsTaskText};

use console::{Fault, words_of};
use std::alloc::Global;
use task_reader::{TaskFault, read_task};
use task_text::add_faults;
use texts::{Page, say};

/// Adds the faults of a text that is no task's, and by which it is refused.
fn add_refusal(
    alloc: Global,
    page: &mut Page,
    file: &[u8],
    fault: TaskFault,
) -> Result<(), TaskFault> {
    add_faults(alloc, page, file)?;
    let words = words_of(alloc, &Fault::Task(fault))?;
    say!(page; "the task is refused: ", words.as_str(), "\n");
    Ok(())
}

/// Adds the faults of a task's text. Whether it is good: that is judged as every command judges it.
#[tactic(auto, using(crate::proofs::Refused::refused_text))]
pub fn add_task_faults(alloc: Global, page: &mut Page, file: &[u8]) -> Result<bool, TaskFault>
    ensures good { IfOk result (λ is_good. is_good ≡ true → IsTaskText file.now) }
    ensures bad { IfOk result (λ is_good. is_good ≡ false → IsTaskText file.now → ⊥) }
{
    match read_task(alloc, file) {
        Ok(_) => {
            say!(page; "the text is a task's\n");
            Ok(true)
        }
        Err(TaskFault::Memory) => Err(TaskFault::Memory),
        Err(fault) => {
            add_refusal(alloc, page, file, fault)?;
            Ok(false)
        }
    }
}
