//! The log of a task, for code scanning and editors.

ghost use Rattle.std.specs.Prelude.{◌≡◌, ◌⊎◌, IfOk, Ok};
ghost use Rattle.task_reader.specs.Reading.{task_of};
ghost use Rattle.answers.specs.Answered.{SaysChecked, SaysFound, SaysNoTask, SaysOfChecked, SaysOfSearch};

use crate::answers::Answer;
use crate::known_bounds::{KnownBounds, judge_texts, known_bounds};
use crate::refusals::Refusal;
use console::statuses::{BROKEN, DONE};
use console::{Fault, Source, words_of};
use explain::Scene;
use rights::Memory;
use sarif::{Log, log_text};
use std::alloc::Global;
use task::Task;
use task_log::{Found, log_of_faults, log_of_task};
use task_reader::{TaskFault, read_task};
use task_text::texts_of_file;

/// The text of a log, and a line's end.
fn text_of(alloc: Global, log: &Log<'_>) -> Result<Vec<u8>, Memory> {
    let mut text = log_text(alloc, log)?;
    text.push('\n')?;
    Ok(text.into_bytes())
}

/// The log of a task by bounds that are known.
fn found_log<'n>(
    alloc: Global,
    name: &'n str,
    file: &'n [u8],
    task: &'n Task,
    known: &'n KnownBounds,
) -> Result<Vec<u8>, Memory> {
    let texts = texts_of_file(alloc, file, task)?;
    let found = Found {
        file: name.as_bytes(),
        scene: Scene::new(file, &texts, task, &known.expanded),
        has_cert: known.has_bounds,
        bounds: &known.expanded,
        broken: &known.findings,
    };
    text_of(alloc, &log_of_task(alloc, &found)?)
}

/// The log of a task with a certificate.
fn checked_log<'a>(
    alloc: Global,
    name: &str,
    file: &[u8],
    cert: &[u8],
) -> Result<Answer, Refusal<'a>>
    ensures { IfOk result (λ answer. SaysChecked answer.status file.now cert.now) }
{
    let judged = judge_texts(alloc, file, cert)?;
    let text = found_log(alloc, name, file, &judged.checked.claim.task, &judged.known)?;
    Ok(Answer::new(alloc, text, judged.status))
}

/// The log of a text that is no task's: its faults.
fn faults_log<'a>(
    alloc: Global,
    name: &str,
    file: &[u8],
    fault: TaskFault,
) -> Result<Answer, Refusal<'a>>
    ensures { IfOk result (λ answer. answer.status ≡ 1) }
{
    let refusal = words_of(alloc, &Fault::Task(fault))?;
    let log = log_of_faults(alloc, name.as_bytes(), file, refusal.as_str())?;
    let text = text_of(alloc, &log)?;
    Ok(Answer::new(alloc, text, BROKEN))
}

/// The log of a task alone: of the certificate that is found, or of the bounds that the search reached.
fn task_log<'a>(alloc: Global, name: &str, file: &[u8], task: &Task) -> Result<Answer, Refusal<'a>>
    requires { task_of file.now ≡ Ok task.now }
    ensures { IfOk result (λ answer. SaysFound answer.status file.now) }
{
    let known = known_bounds(alloc, task)?;
    let text = found_log(alloc, name, file, task, &known)?;
    if known.is_accepted {
        Ok(Answer::new(alloc, text, DONE))
    } else {
        Ok(Answer::new(alloc, text, BROKEN))
    }
}

/// The log of a task's text alone; of one that is no task's its faults.
#[tactic(auto, using(explain::proofs::Refused::refused_text))]
pub(crate) fn answer_log<'a, S: Source>(
    alloc: Global,
    files: &mut S,
    task: &'a str,
) -> Result<Answer, Refusal<'a>>
    ensures { IfOk result (λ answer. SaysOfSearch (S.files files.old) task.now answer.status ⊎ SaysNoTask (S.files files.old) task.now answer.status) }
{
    let text = files.fetch(task)?;
    match read_task(alloc, &text) {
        Ok(read) => task_log(alloc, task, &text, &read),
        Err(TaskFault::Memory) => Err(Refusal::from(Memory)),
        Err(fault) => faults_log(alloc, task, &text, fault),
    }
}

/// The log of a task with a certificate; of a text that is no task's its faults, whatever the certificate.
#[tactic(auto, using(explain::proofs::Refused::refused_text))]
pub(crate) fn answer_checked_log<'a, S: Source>(
    alloc: Global,
    files: &mut S,
    task: &'a str,
    cert: &'a str,
) -> Result<Answer, Refusal<'a>>
    ensures { IfOk result (λ answer. SaysOfChecked (S.files files.old) task.now cert.now answer.status ⊎ SaysNoTask (S.files files.old) task.now answer.status) }
{
    let text = files.fetch(task)?;
    let cert_text = files.fetch(cert)?;
    match read_task(alloc, &text) {
        Ok(_) => checked_log(alloc, task, &text, &cert_text),
        Err(TaskFault::Memory) => Err(Refusal::from(Memory)),
        Err(fault) => faults_log(alloc, task, &text, fault),
    }
}
