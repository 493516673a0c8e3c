//! The verdict on two texts.

ghost use Rattle.std.specs.Prelude.{◌≡◌, true, Ok};
ghost use Rattle.certificate_text.specs.Readings.{certificate_of_text};
ghost use Rattle.checker.specs.Verdicts.{Yes};
ghost use Rattle.task.specs.Confined.{IsConfined};
ghost use Rattle.task.specs.Plans.{Plan, none_marked};
ghost use Rattle.task.specs.Sandboxed.{IsSandboxed};
ghost use Rattle.task_reader.specs.Reading.{task_of};
ghost use Rattle.text_checker.specs.CheckViews.{ChecksClaim, ChecksTexts, ReadsTexts, SaysYes, verdict_in};

use certificate::Cert;
use certificate_text::{CertFault, read_cert};
use checker::{Verdict, check};
use std::alloc::Global;
use task::Task;
use task_reader::{TaskFault, read_task};
use thiserror::Error;

/// Why two texts have no verdict: the task's text is none, or, where it is one, the certificate's.
#[derive(Debug, Drop, Error)]
pub enum Fault {
    #[error("the task: {0}")]
    Task(TaskFault),
    #[error("the certificate: {0}")]
    Cert(CertFault),
}

/// A task, and a certificate that is to bound it.
#[derive(Drop)]
pub struct Claim {
    pub task: Task,
    pub cert: Cert,
}

/// A claim, and the verdict on it.
#[derive(Drop)]
pub struct Checked {
    pub claim: Claim,
    pub verdict: Verdict,
}

/// The task and the certificate that two texts stand for. (own)
///
/// # Errors
///
/// The task's fault, or, where the first text stands for a task, the certificate's. Want of memory may come in place of any
/// answer.
pub fn read_texts(alloc: Global, task: &[u8], cert: &[u8]) -> Result<Claim, Fault>
    ensures { ReadsTexts result (task_of task.now) (certificate_of_text cert.now) }
{
    let task = match read_task(alloc, task) {
        Ok(task) => task,
        Err(fault) => return Err(Fault::Task(fault)),
    };
    match read_cert(alloc, cert) {
        Ok(cert) => Ok(Claim { task, cert }),
        Err(fault) => Err(Fault::Cert(fault)),
    }
}

/// The task and the certificate that two texts stand for, with the verdict of `check` on them.
///
/// A yes means that the first text stands for a task, every run of which is confined: whatever list of events, inputs, schedules
/// and refusals, and whatever processes of the programs that it says to be untrusted do in capability mode, no process in the mode
/// does to the tree what the policy doesn't allow, no descriptor has more rights or commands than its source, and no call of a
/// process of another program is refused for a missing right or by capability mode. Where the text says of no program that it is
/// untrusted, every run is sandboxed: so is no call of any process. (own)
///
/// # Errors
///
/// Those of [`read_texts`].
pub fn check_texts(alloc: Global, task: &[u8], cert: &[u8]) -> Result<Checked, Fault>
    ensures exact { ChecksClaim result (task_of task.now) (certificate_of_text cert.now) }
    ensures sound { SaysYes (verdict_in result) → (plan : Plan) × (task_of task.now ≡ Ok plan) × (none_marked plan ≡ true → IsSandboxed plan) }
    ensures confined { SaysYes (verdict_in result) → (plan : Plan) × (task_of task.now ≡ Ok plan) × IsConfined plan }
{
    let claim = read_texts(alloc, task, cert)?;
    let verdict = check(&claim.task, &claim.cert);
    Ok(Checked { claim, verdict })
}

/// The verdict of [`check_texts`], with what a yes means.
///
/// # Errors
///
/// Those of [`read_texts`].
pub fn check_text(alloc: Global, task: &[u8], cert: &[u8]) -> Result<Verdict, Fault>
    ensures exact { ChecksTexts result (task_of task.now) (certificate_of_text cert.now) }
    ensures sound { SaysYes result → (plan : Plan) × (task_of task.now ≡ Ok plan) × (none_marked plan ≡ true → IsSandboxed plan) }
    ensures confined { SaysYes result → (plan : Plan) × (task_of task.now ≡ Ok plan) × IsConfined plan }
{
    Ok(check_texts(alloc, task, cert)?.verdict)
}
