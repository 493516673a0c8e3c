//! The run in which attackers break a task's sandbox.

ghost use Rattle.std.specs.Prelude.{◌≡◌, IfOk, List, map, ℕ};
ghost use Rattle.explore.specs.BreachViews.{breach_of};
ghost use Rattle.explore.specs.DeedTexts.{attack_run_text};
ghost use Rattle.explore.specs.MoveViews.{event_at};

use explore::{FoundAttack, add_attack};
use rights::Memory;
use std::alloc::Global;
use task::Task;
use texts::Page;

/// A run in which attackers break a task's sandbox: its schedule, its trace, and what is broken.
pub(crate) fn attack_run_text(
    alloc: Global,
    task: &Task,
    found: &FoundAttack<'_>,
) -> Result<Vec<u8>, Memory>
    ensures { IfOk result (λ text. (trace : List ℕ) × (text.items
        ≡ attack_run_text (map event_at found.now.moves.items) trace (breach_of found.now.breach) found.now.detail.items)) }
{
    let mut page = Page::new(alloc);
    add_attack(alloc, &mut page, task, found)?;
    Ok(page.into_bytes()?)
}
