//! All rules that are broken, at all points of a task's programs.

ghost use Rattle.std.specs.Prelude.{◌≡◌, ◌+◌, ◌++◌, IfOk, OnOk, length, map};
ghost use Rattle.checker.specs.Asked.{unkept_at};
ghost use Rattle.checker.specs.FindingViews.{broken_rule_of};
ghost use Rattle.checker.specs.Findings.{findings, findings_before};
ghost use Rattle.checker.specs.PointViews.{expansion_of, tests_of};
ghost use Rattle.checker.specs.RuleViews.{rule_number};
ghost use Rattle.rules.specs.Expansions.{expansion};
ghost use Rattle.task.specs.Plans.{programs_of_plan};

use crate::asked::{AskedPoint, AskedProgram};
use crate::keeping::keeps;
use crate::rule::{RULES, Rule};
use certificate::Cert;
use std::alloc::{AllocError, Global};
use task::Task;

/// A rule that is broken at a point.
#[derive(Clone, Copy, PartialEq, Eq)]
pub struct BrokenRule {
    /// The program's place in the task.
    pub program: u8,
    pub point: u8,
    pub rule: Rule,
}

/// Adds those of these rules that a point doesn't keep.
fn add_unkept(
    found: &mut Vec<BrokenRule>,
    rules: &[Rule],
    at: &AskedPoint<'_>,
) -> Result<(), AllocError>
    ensures { OnOk result (map broken_rule_of found.new.items ≡ map broken_rule_of found.old.items
        ++ unkept_at at.now.of.now.program at.now.point (tests_of at.now) (map rule_number rules.now)) }
{
    match rules {
        [] => Ok(()),
        [rule, rest @ ..] => {
            if !keeps(*rule, at) {
                found.push(BrokenRule {
                    program: at.of.program,
                    point: at.point,
                    rule: *rule,
                })?;
            }
            add_unkept(found, rest, at)
        }
    }
}

/// Adds the rules that are broken at the points of a program. One bound is kept, that of the point that is asked.
fn add_points<'a>(found: &mut Vec<BrokenRule>, of: &'a AskedProgram<'a>) -> Result<(), AllocError>
    ensures { OnOk result (map broken_rule_of found.new.items ≡ map broken_rule_of found.old.items
        ++ findings_before of.now.task.now (expansion_of of.now) of.now.program (length (programs_of_plan of.now.task.now of.now.program))) }
{
    let mut bound = of.first_bound();
    for point in 0..of.code.len() {
        let at = of.at(point, &bound);
        add_unkept(found, &RULES, &at)?;
        bound = at.there;
    }
    Ok(())
}

/// Adds those that are broken at the points of a program, by its place in the task.
fn add_program(
    found: &mut Vec<BrokenRule>,
    task: &Task,
    cert: &Cert,
    program: u8,
) -> Result<(), AllocError>
    ensures { OnOk result (map broken_rule_of found.new.items ≡ map broken_rule_of found.old.items
        ++ findings_before task.now (expansion task.now cert.now) program (length (programs_of_plan task.now program))) }
{
    match &AskedProgram::new(task, cert, program) {
        None => Ok(()),
        Some(of) => add_points(found, of),
    }
}

/// All rules that are broken, by the task's order of programs, then by point, then by rule: none where `check` says yes, and else the
/// one that it names comes first. A certificate of version 2 or 3 is judged as its expansion, as by `check`. (own)
pub fn all_findings(alloc: Global, task: &Task, cert: &Cert) -> Result<Vec<BrokenRule>, AllocError>
    ensures { IfOk result (λ found. map broken_rule_of found.items ≡ findings task.now (expansion task.now cert.now)) }
{
    let mut found = Vec::new(alloc);
    for program in 0..task.programs().len() {
        add_program(&mut found, task, cert, program as u8)?;
    }
    Ok(found)
}
