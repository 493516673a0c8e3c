//! The verdict.

ghost use Rattle.std.specs.Prelude.{◌≡◌, ◌<◌, ℕ, None, Some, MatchOption, true};
ghost use Rattle.rules.specs.Expansions.{expansion};
ghost use Rattle.rules.specs.Verdicts.{found_at};
ghost use Rattle.checker.specs.PointViews.{expansion_of};
ghost use Rattle.checker.specs.RuleViews.{rule_number};
ghost use Rattle.checker.specs.Verdicts.{IsVerdict, Yes};
ghost use Rattle.checker.specs.Views.{verdict_of};
ghost use Rattle.task.specs.Plans.{none_marked};
ghost use Rattle.task.specs.Confined.{IsConfined};
ghost use Rattle.task.specs.Sandboxed.{IsSandboxed};

use crate::asked::AskedProgram;
use crate::at_once::first_broken;
use crate::rule::Rule;
use certificate::Cert;
use task::Task;

/// What the checker answers.
#[derive(Clone, Copy, PartialEq, Eq)]
pub enum Verdict {
    /// The certificate meets the rules: every run of the task is confined, and sandboxed if no program is marked.
    Yes,
    /// The least rule that is broken at the first point of the first program where one is.
    No {
        /// The program's place in the task.
        program: u8,
        point: u8,
        /// The rule's number, from 1 on.
        rule: u8,
    },
}

/// A rule that is broken, and its point.
#[derive(Clone, Copy)]
struct Found {
    point: u8,
    rule: Rule,
}

/// The first point of a program where a rule is broken. One bound is kept, that of the point that is asked.
fn first_in<'a>(of: &'a AskedProgram<'a>) -> Option<Found>
    ensures { MatchOption result
        ((point : ℕ) → found_at of.now.task.now (expansion_of of.now) of.now.program point ≡ None)
        (λ found. (found_at of.now.task.now (expansion_of of.now) of.now.program found.point ≡ Some (rule_number found.rule))
        × ((point : ℕ) → point < found.point → found_at of.now.task.now (expansion_of of.now) of.now.program point ≡ None)) }
{
    let mut bound = of.first_bound();
    for point in 0..of.code.len() {
        let at = of.at(point, &bound);
        if let Some(rule) = first_broken(&at) {
            return Some(Found {
                point: at.point,
                rule,
            });
        }
        bound = at.there;
    }
    None
}

/// The first point of a program, by its place in the task, where a rule is broken.
fn first_found(task: &Task, cert: &Cert, program: u8) -> Option<Found>
    ensures { MatchOption result
        ((point : ℕ) → found_at task.now (expansion task.now cert.now) program point ≡ None)
        (λ found. (found_at task.now (expansion task.now cert.now) program found.point ≡ Some (rule_number found.rule))
        × ((point : ℕ) → point < found.point → found_at task.now (expansion task.now cert.now) program point ≡ None)) }
{
    first_in(&AskedProgram::new(task, cert, program)?)
}

/// Whether the certificate meets the rules at every point of every program of the task; else the first program, by
/// its place in the task, and the first point there where it doesn't, with the least rule that is broken there. A certificate of
/// version 2 or 3 is judged as its expansion: bounds are carried along each program, one at a time.
///
/// A yes means that every run of the task is confined: whatever list of events, inputs, schedules and refusals, and whatever
/// processes of marked programs do in capability mode, no process in the mode does to the tree what the policy doesn't allow, no
/// descriptor has more rights or commands than its source, and no call of an unmarked program's process is refused for a missing
/// right or by the mode. A task without marked programs is sandboxed then: so is no call of any process. It takes no memory and
/// always answers. (own)
pub fn check(task: &Task, cert: &Cert) -> Verdict
    ensures exact { IsVerdict task.now cert.now (verdict_of result) }
    ensures sound { verdict_of result ≡ Yes → none_marked task.now ≡ true → IsSandboxed task.now }
    ensures confined { verdict_of result ≡ Yes → IsConfined task.now }
{
    for number in 0..task.programs().len() {
        let program = number as u8;
        if let Some(found) = first_found(task, cert, program) {
            return Verdict::No {
                program,
                point: found.point,
                rule: found.rule.number(),
            };
        }
    }
    Verdict::Yes
}
