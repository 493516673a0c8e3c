//! The run that breaks a task's sandbox.

ghost use Rattle.std.specs.Prelude.{◌≡◌, [], IfOk, Ok, Some, map};
ghost use Rattle.explore.specs.BreachViews.{breach_of};
ghost use Rattle.explore.specs.FoundViews.{IsExplored};
ghost use Rattle.explore.specs.Texts.{WritesDetailed};
ghost use Rattle.syscalls.specs.Views.{event_of};
ghost use Rattle.task.specs.Plans.{Plan};
ghost use Rattle.task_reader.specs.Reading.{task_of};
ghost use Rattle.answers.specs.Answered.{SaysRefuted};

use crate::answers::{Answer, Gathered};
use crate::attacking::attack_run_text;
use crate::refusals::Refusal;
use checker::{BrokenRule, all_findings};
use console::statuses::BROKEN;
use explore::{AttackActions, Breach, Explored, Goal, Watcher, explore, write_breach};
use rights::Memory;
use searcher::reached;
use std::alloc::{AllocError, Global};
use syscalls::Event;
use task::Task;
use task_reader::read_task;
use texts::{Page, say};

/// How many states are met at most, where the words don't say.
pub(crate) const MOST_STATES: u32 = 200_000;

/// The points at which rules are broken.
pub(crate) fn goals_in(alloc: Global, findings: &[BrokenRule]) -> Result<Vec<Goal>, AllocError> {
    findings
        .iter()
        .map(|finding| Goal {
            program: finding.program,
            point: finding.point,
        })
        .collect(alloc)
}

/// The points of a task at which the bounds that the search for a certificate reached break a rule; none where it reached none.
fn goals_of(alloc: Global, task: &Task) -> Result<Vec<Goal>, Memory> {
    match reached(alloc, task)? {
        None => Ok(Vec::new(alloc)),
        Some(cert) => Ok(goals_in(alloc, &all_findings(alloc, task, &cert)?)?),
    }
}

/// The text of a run that breaks something, as `write_breach` writes it.
pub(crate) fn breach_text(
    alloc: Global,
    task: &Task,
    events: &[Event],
    breach: &Breach,
    detail: &[u8],
) -> Result<Vec<u8>, Memory>
    ensures { IfOk result (λ text. WritesDetailed task.now (map event_of events.now) (breach_of breach.now) detail.now (Some []) (Some text.items)) }
{
    let mut out = Gathered::new(alloc);
    match write_breach(alloc, task, events, breach, detail, &mut out) {
        Ok(()) => Ok(out.bytes),
        Err(_) => Err(Memory),
    }
}

/// That no run was found, and how far the search came. It claims nothing.
fn unbroken(alloc: Global, states: usize, how_far: &str) -> Result<Answer, Memory>
    ensures { IfOk result (λ answer. answer.status ≡ 0) }
{
    let mut page = Page::new(alloc);
    say!(&mut page; "no run was found that breaks anything; states met: ", states, how_far, "\n");
    Ok(Answer::done(page)?)
}

/// The answer to what a search came to.
#[tactic(auto, using(crate::proofs::Writes::run_refutes, crate::proofs::Writes::attack_refutes))]
fn explored_answer(alloc: Global, task: &Task, explored: &Explored<'_>) -> Result<Answer, Memory>
    requires { IsExplored task.now explored.now }
    ensures { IfOk result (λ answer. SaysRefuted task.now answer.status answer.text.items) }
{
    match explored {
        Explored::Breaks(found) => {
            let text = breach_text(alloc, task, &found.events, &found.breach, &found.detail)?;
            Ok(Answer::new(alloc, text, BROKEN))
        }
        Explored::Attacked(found) => {
            let text = attack_run_text(alloc, task, found)?;
            Ok(Answer::new(alloc, text, BROKEN))
        }
        Explored::Ended(states) => {
            let how_far = ", and there are no others with the bytes that were tried";
            unbroken(alloc, *states, how_far)
        }
        Explored::Bounded(states) => {
            let how_far = ", and there are others: give a greater number to go on";
            unbroken(alloc, *states, how_far)
        }
    }
}

/// The run of a task that is found to break something, or that none is.
pub(crate) fn answer_breach<'a, P: Watcher>(
    alloc: Global,
    file: &[u8],
    states: Option<u32>,
    watcher: &mut P,
) -> Result<Answer, Refusal<'a>>
    ensures { IfOk result (λ answer. (plan : Plan) × (task_of file.now ≡ Ok plan) × SaysRefuted plan answer.status answer.text.items) }
{
    let task = read_task(alloc, file)?;
    let bound = states.unwrap_or(MOST_STATES) as usize;
    let goals = goals_of(alloc, &task)?;
    let deeds = AttackActions::new(alloc, &task)?;
    let explored = explore(alloc, &task, &deeds, &goals, bound, watcher)?;
    Ok(explored_answer(alloc, &task, &explored)?)
}
