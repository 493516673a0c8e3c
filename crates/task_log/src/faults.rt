//! The log of a text that is no task's.

ghost use Rattle.std.specs.Prelude.{◌≡◌, ◌++◌, [], IfOk, codes, map};
ghost use Rattle.sarif.specs.LogViews.{finding_seen, log_seen};
ghost use Rattle.task_log.specs.FaultResults.{fault_result, fault_results, left_out_text, refusal_result};
ghost use Rattle.task_text.specs.declared.faults.TextFaults.{TextFaults};
ghost use Rattle.task_text.specs.FaultViews.{AreFaultsOf, fault_seen};
ghost use Rattle.texts.specs.PageViews.{Adds};

use crate::known_rules::TASK_TEXT;
use sarif::{Finding, Level, Log, Place, RuleId};
use std::alloc::{AllocError, Global};
use task_text::{TextFault, faults_of};
use texts::{Page, say};

/// A fault of a text at its place.
fn placed(alloc: Global, found: &TextFault) -> Result<Finding<'static>, AllocError>
    ensures { IfOk result (λ finding. finding_seen finding ≡ fault_result (fault_seen found.now)) }
{
    Ok(Finding {
        rule: RuleId::Named("task-text"),
        level: Level::Error,
        message: found.words.to_vec(alloc)?,
        place: Some(Place {
            line: found.line,
            column: Some(found.column),
        }),
        related: Vec::new(alloc),
    })
}

/// Adds how many faults are left out, where some are.
fn add_left_out(page: &mut Page, left_out: usize)
    ensures { Adds page.old page.new (left_out_text left_out) }
{
    if left_out > 0 {
        say!(page; "; faults that are left out: ", left_out);
    }
}

/// By what a text is refused, and how many of its faults are left out.
fn refused(alloc: Global, refusal: &str, left_out: usize) -> Result<Finding<'static>, AllocError>
    ensures { IfOk result (λ finding. finding_seen finding ≡ refusal_result refusal.now left_out) }
{
    let mut words = Page::new(alloc);
    say!(&mut words; "the task is refused: ", refusal);
    add_left_out(&mut words, left_out);
    Ok(Finding {
        rule: RuleId::Named("task-text"),
        level: Level::Error,
        message: words.into_bytes()?,
        place: None,
        related: Vec::new(alloc),
    })
}

/// The faults that are told, each at its place.
fn all_placed(alloc: Global, told: &[TextFault]) -> Result<Vec<Finding<'static>>, AllocError>
    ensures { IfOk result (λ findings. map finding_seen findings.items ≡ map fault_result (map fault_seen told.now)) }
{
    let mut findings = Vec::new(alloc);
    for found in told {
        findings.push(placed(alloc, found)?)?;
    }
    Ok(findings)
}

/// The log of a text that is refused as a task: its faults where they are, and last by what it is refused. Want of memory is the only error.
pub fn log_of_faults<'a>(
    alloc: Global,
    name: &'a [u8],
    text: &[u8],
    refusal: &str,
) -> Result<Log<'a>, AllocError>
    ensures { IfOk result (λ log. (faults : TextFaults) × AreFaultsOf text.now faults
        × ((log_seen log).findings ≡ fault_results (map fault_seen faults.told.items) refusal.now faults.left_out)) }
{
    let faults = faults_of(alloc, text)?;
    let mut findings = all_placed(alloc, &faults.told)?;
    findings.push(refused(alloc, refusal, faults.left_out)?)?;
    Ok(Log {
        file: name,
        rules: vec![in alloc; TASK_TEXT]?,
        findings,
    })
}
