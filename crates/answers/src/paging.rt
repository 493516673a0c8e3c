//! The page of a task.

ghost use Rattle.std.specs.Prelude.{◌≡◌, IfOk};
ghost use Rattle.answers.specs.Answered.{SaysFound, SaysOfChecked, SaysOfSearch};

use crate::answers::Answer;
use crate::breaching::{MOST_STATES, goals_in};
use crate::known_bounds::{KnownBounds, judge_texts, known_bounds};
use crate::refusals::Refusal;
use console::Source;
use console::statuses::{BROKEN, DONE};
use explain::Scene;
use explore::{AttackActions, Explored, FoundAttack, Watcher, explore};
use page::{Html, add_sheet};
use review::{Outcome, Reviewed, played_moves, sheet_of};
use rights::Memory;
use std::alloc::Global;
use task::Task;
use task_reader::read_task;
use task_text::texts_of_file;

/// The page of what was reviewed.
fn page_of(alloc: Global, reviewed: &Reviewed<'_>) -> Result<Vec<u8>, Memory> {
    let sheet = sheet_of(alloc, reviewed)?;
    let mut html = Html::new(alloc);
    add_sheet(&mut html, &sheet);
    Ok(Vec::from_slice(alloc, html.as_page().finish()?)?)
}

/// A task with its file, and the bounds that are known of it.
#[derive(Clone, Copy)]
struct Shown<'n> {
    name: &'n str,
    file: &'n [u8],
    task: &'n Task,
    known: &'n KnownBounds,
}

impl<'n> Shown<'n> {
    /// The page with a certificate that is given, if one is, and with an outcome.
    fn page_with(
        self,
        alloc: Global,
        cert: Option<&'n str>,
        outcome: Outcome<'n>,
    ) -> Result<Vec<u8>, Memory> {
        let texts = texts_of_file(alloc, self.file, self.task)?;
        let reviewed = Reviewed {
            task_file: self.name,
            cert_file: cert,
            scene: Scene::new(self.file, &texts, self.task, &self.known.expanded),
            has_bounds: self.known.has_bounds,
            findings: &self.known.findings,
            outcome,
        };
        page_of(alloc, &reviewed)
    }

    /// The page with a run in which attackers break something.
    fn page_with_attack(self, alloc: Global, found: &FoundAttack<'_>) -> Result<Vec<u8>, Memory> {
        let played = played_moves(alloc, &found.moves)?;
        self.page_with(
            alloc,
            None,
            Outcome::Attacked {
                breach: &found.breach,
                detail: &found.detail,
                played: &played,
            },
        )
    }

    /// The page with what a search for a run came to: the run that breaks something, if one was found.
    fn page_with_explored(self, alloc: Global, explored: &Explored<'_>) -> Result<Vec<u8>, Memory> {
        match explored {
            Explored::Breaks(found) => self.page_with(alloc, None, Outcome::Broken(found)),
            Explored::Attacked(found) => self.page_with_attack(alloc, found),
            Explored::Ended(_) | Explored::Bounded(_) => self.page_with(
                alloc,
                None,
                Outcome::Undecided,
            ),
        }
    }

    /// The page of a task for which no certificate is found: with the run that breaks something, if one is found.
    fn page_unfound<P: Watcher>(self, alloc: Global, watcher: &mut P) -> Result<Vec<u8>, Memory> {
        let goals = goals_in(alloc, &self.known.findings)?;
        let deeds = AttackActions::new(alloc, self.task)?;
        let bound = MOST_STATES as usize;
        let explored = explore(alloc, self.task, &deeds, &goals, bound, watcher)?;
        self.page_with_explored(alloc, &explored)
    }
}

/// The page of a task's text alone.
fn searched_page<'a, 'n, P: Watcher>(
    alloc: Global,
    name: &'n str,
    file: &'n [u8],
    watcher: &mut P,
) -> Result<Answer, Refusal<'a>>
    ensures { IfOk result (λ answer. SaysFound answer.status file.now) }
{
    let task = read_task(alloc, file)?;
    let known = known_bounds(alloc, &task)?;
    let shown = Shown {
        name,
        file,
        task: &task,
        known: &known,
    };
    if known.is_accepted {
        let text = shown.page_with(alloc, None, Outcome::Accepted)?;
        Ok(Answer::new(alloc, text, DONE))
    } else {
        let text = shown.page_unfound(alloc, watcher)?;
        Ok(Answer::new(alloc, text, BROKEN))
    }
}

/// The page of a task with a certificate.
pub(crate) fn answer_checked_page<'a, S: Source>(
    alloc: Global,
    files: &mut S,
    task: &'a str,
    cert: &'a str,
) -> Result<Answer, Refusal<'a>>
    ensures { IfOk result (λ answer. SaysOfChecked (S.files files.old) task.now cert.now answer.status) }
{
    let task_text = files.fetch(task)?;
    let cert_text = files.fetch(cert)?;
    let judged = judge_texts(alloc, &task_text, &cert_text)?;
    let shown = Shown {
        name: task,
        file: &task_text,
        task: &judged.checked.claim.task,
        known: &judged.known,
    };
    let outcome = if judged.known.is_accepted {
        Outcome::Accepted
    } else {
        Outcome::Refused
    };
    let text = shown.page_with(alloc, Some(cert), outcome)?;
    Ok(Answer::new(alloc, text, judged.status))
}

/// The page of a task alone.
pub(crate) fn answer_page<'a, S: Source, P: Watcher>(
    alloc: Global,
    files: &mut S,
    task: &'a str,
    watcher: &mut P,
) -> Result<Answer, Refusal<'a>>
    ensures { IfOk result (λ answer. SaysOfSearch (S.files files.old) task.now answer.status) }
{
    let task_text = files.fetch(task)?;
    searched_page(alloc, task, &task_text, watcher)
}
