//! The log of a task.

ghost use Rattle.std.specs.Prelude.{◌≡◌, ◌++◌, IfOk, OnOk, map};
ghost use Rattle.checker.specs.FindingViews.{broken_rule_of};
ghost use Rattle.sarif.specs.LogViews.{finding_seen, log_seen};
ghost use Rattle.task_log.specs.Errors.{errors_of, ids_of};

use crate::findings::{broken, observed, observed_of_task};
use crate::known_rules::{add_topic, known_rules};
use certificate::Cert;
use checker::BrokenRule;
use explain::{Observation, Scene, program_remarks, program_warnings, task_remarks};
use sarif::{Finding, Log, Rule};
use std::alloc::{AllocError, Global};

/// What is known of a task.
#[derive(Clone, Copy)]
pub struct Found<'a> {
    /// The name of the task's file, as it was given.
    pub file: &'a [u8],
    /// The task, with the certificate's bounds, all written, if there is one.
    pub scene: Scene<'a>,
    pub has_cert: bool,
    /// The bounds by which is warned, all written.
    pub bounds: &'a Cert,
    /// The rules that are broken.
    pub broken: &'a [BrokenRule],
}

/// Rules and results, as they are gathered.
#[derive(Drop)]
struct Gathered {
    alloc: Global,
    rules: Vec<Rule<'static>>,
    findings: Vec<Finding<'static>>,
}

impl Gathered {
    /// Adds the rules that are broken.
    fn add_broken(&mut self, scene: &Scene<'_>, found: &[BrokenRule]) -> Result<(), AllocError>
        ensures { OnOk result (errors_of (map finding_seen self.new.findings.items)
            ≡ errors_of (map finding_seen self.old.findings.items) ++ ids_of (map broken_rule_of found.now)) }
    {
        for one in found {
            self.findings.push(broken(self.alloc, scene, *one)?)?;
        }
        Ok(())
    }

    /// Adds what is observed on a program.
    fn add_observed(
        &mut self,
        scene: &Scene<'_>,
        program: u8,
        list: &[Observation],
    ) -> Result<(), AllocError>
        ensures { OnOk result (errors_of (map finding_seen self.new.findings.items) ≡ errors_of (map finding_seen self.old.findings.items)) }
    {
        for one in list {
            add_topic(&mut self.rules, one.topic)?;
            self.findings
                .push(observed(self.alloc, scene, program, one)?)?;
        }
        Ok(())
    }

    /// Adds what is observed on the task as a whole.
    fn add_of_task(&mut self, list: &[Observation]) -> Result<(), AllocError>
        ensures { OnOk result (errors_of (map finding_seen self.new.findings.items) ≡ errors_of (map finding_seen self.old.findings.items)) }
    {
        for one in list {
            add_topic(&mut self.rules, one.topic)?;
            self.findings.push(observed_of_task(self.alloc, one)?)?;
        }
        Ok(())
    }

    /// Adds remarks and warnings on each program, as they are listed.
    fn add_programs(&mut self, found: &Found<'_>) -> Result<(), AllocError>
        ensures { OnOk result (errors_of (map finding_seen self.new.findings.items) ≡ errors_of (map finding_seen self.old.findings.items)) }
    {
        let scene = &found.scene;
        for (number, _program) in scene.task.programs().iter().enumerate() {
            let program = number as u8;
            let remarks = program_remarks(self.alloc, scene, number, found.has_cert)?;
            self.add_observed(scene, program, &remarks)?;
            let warnings = program_warnings(self.alloc, scene.task, found.bounds, number)?;
            self.add_observed(scene, program, &warnings)?;
        }
        Ok(())
    }
}

/// The log of a task: the rules that are broken, then remarks and warnings as `capwhy list` tells them. Want of memory is the only error.
pub fn log_of_task<'a>(alloc: Global, found: &Found<'a>) -> Result<Log<'a>, AllocError>
    ensures { IfOk result (λ log. errors_of (log_seen log).findings ≡ ids_of (map broken_rule_of found.now.broken.now)) }
{
    let mut gathered = Gathered {
        alloc,
        rules: known_rules(alloc, found.scene.task.further_rights())?,
        findings: Vec::new(alloc),
    };
    gathered.add_broken(&found.scene, found.broken)?;
    gathered.add_programs(found)?;
    let remarks = task_remarks(alloc, &found.scene, found.has_cert)?;
    gathered.add_of_task(&remarks)?;
    Ok(Log {
        file: found.file,
        rules: gathered.rules,
        findings: gathered.findings,
    })
}
