//! The bounds by which a task is shown: those of a certificate that is given, or else those that are found.

ghost use Rattle.std.specs.Prelude.{◌≡◌, IfOk, Some, false, true};
ghost use Rattle.answers.specs.Answered.{SaysChecked};
ghost use Rattle.certificate.specs.Bounds.{Certificate};
ghost use Rattle.checker.specs.Verdicts.{IsAccepted};
ghost use Rattle.console.specs.Statuses.{is_done_status};
ghost use Rattle.searcher.specs.Flat.{flat};

use crate::refusals::Refusal;
use certificate::{Cert, Version};
use checker::{BrokenRule, all_findings, expand};
use console::status_of_verdict;
use rights::Memory;
use searcher::{propose, reached, search};
use std::alloc::Global;
use task::{Task, none_marked};
use text_checker::{Checked, check_texts};

/// Bounds by which a task is shown: those of a certificate that is given or found, or else those that the search reached.
#[derive(Drop)]
pub(crate) struct KnownBounds {
    /// With all bounds written.
    pub expanded: Cert,
    /// Whether there are any.
    pub has_bounds: bool,
    /// Whether they are those of a certificate that breaks no rule.
    pub is_accepted: bool,
    /// The rules that they break.
    pub findings: Vec<BrokenRule>,
}

/// The bounds of a certificate that is found.
fn found_bounds(alloc: Global, task: &Task, cert: &Cert) -> Result<KnownBounds, Memory>
    ensures { IfOk result (λ known. known.is_accepted ≡ true) }
{
    Ok(KnownBounds {
        expanded: expand(alloc, task, cert)?,
        has_bounds: true,
        is_accepted: true,
        findings: Vec::new(alloc),
    })
}

/// What the search reaches.
fn reached_bounds(alloc: Global, task: &Task) -> Result<KnownBounds, Memory>
    ensures { IfOk result (λ known. known.is_accepted ≡ false) }
{
    match reached(alloc, task)? {
        None => Ok(KnownBounds {
            expanded: Cert::new(alloc, Version::One),
            has_bounds: false,
            is_accepted: false,
            findings: Vec::new(alloc),
        }),
        Some(cert) => Ok(KnownBounds {
            expanded: expand(alloc, task, &cert)?,
            has_bounds: true,
            is_accepted: false,
            findings: all_findings(alloc, task, &cert)?,
        }),
    }
}

/// The bounds by which a task is shown. A certificate is searched, and of a task with untrusted programs one is proposed.
pub(crate) fn known_bounds(alloc: Global, task: &Task) -> Result<KnownBounds, Memory>
    ensures found { IfOk result (λ known. known.is_accepted ≡ true → (found : Certificate) × IsAccepted task.now found) }
    ensures unfound { IfOk result (λ known. known.is_accepted ≡ false → (bounds : Certificate) → flat task.now ≡ Some bounds → IsAccepted task.now bounds → ⊥) }
{
    if let Some(cert) = search(alloc, task)? {
        return found_bounds(alloc, task, &cert);
    }
    if !none_marked(task.programs()) {
        if let Some(cert) = propose(alloc, task)? {
            return found_bounds(alloc, task, &cert);
        }
    }
    reached_bounds(alloc, task)
}

/// The texts of a task and a certificate, judged.
#[derive(Drop)]
pub(crate) struct Judged {
    pub checked: Checked,
    pub known: KnownBounds,
    pub status: u8,
}

/// The bounds of a certificate that is given, with the rules that it breaks.
fn given_bounds(alloc: Global, task: &Task, cert: &Cert) -> Result<KnownBounds, Memory> {
    let findings = all_findings(alloc, task, cert)?;
    Ok(KnownBounds {
        expanded: expand(alloc, task, cert)?,
        has_bounds: true,
        is_accepted: findings.is_empty(),
        findings,
    })
}

/// Judges the texts of a task and a certificate.
#[tactic(auto, using(crate::proofs::Refused::says_verdict, crate::proofs::Refused::verdict_done))]
pub(crate) fn judge_texts<'a>(
    alloc: Global,
    file: &[u8],
    cert: &[u8],
) -> Result<Judged, Refusal<'a>>
    ensures says { IfOk result (λ judged. SaysChecked judged.status file.now cert.now) }
    ensures done { IfOk result (λ judged. is_done_status judged.status ≡ true) }
{
    let checked = check_texts(alloc, file, cert)?;
    let known = given_bounds(alloc, &checked.claim.task, &checked.claim.cert)?;
    let status = status_of_verdict(checked.verdict);
    Ok(Judged {
        checked,
        known,
        status,
    })
}
