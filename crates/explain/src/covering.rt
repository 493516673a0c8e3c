//! Which findings are counted under one that stands before them: calls with one `else`, whose point has no bound, break one rule each.

ghost use Rattle.std.specs.Prelude.{◌≡◌, map};
ghost use Rattle.std.specs.List.{list_all, list_any};
ghost use Rattle.checker.specs.FindingViews.{broken_rule_of};
ghost use Rattle.explain.specs.Covering.{count_under, covers, is_counted, is_met, is_of_reach, leads_alike};
ghost use Rattle.instruction_set.specs.Views.{successors_of};

use crate::scenes::Scene;
use certificate::Cert;
use checker::{BrokenRule, Rule};
use instruction_set::{Successors, successors_at};

/// Whether a point has a bound, or is one of these.
fn is_met(cert: &Cert, name: &[u8], leads: &Successors, point: usize) -> bool
    ensures { result ≡ is_met cert.now name.now (successors_of leads.now) point }
{
    leads.has(point) || cert.has_bound(name, point)
}

/// Whether all that some lead to has a bound, or the others lead there too.
fn all_met(cert: &Cert, name: &[u8], leads: &Successors, later: &Successors) -> bool
    ensures { result ≡ list_all (is_met cert.now name.now (successors_of leads.now)) (successors_of later.now) }
{
    let next = match later.next {
        None => true,
        Some(point) => is_met(cert, name, leads, point),
    };
    let other = match later.other {
        None => true,
        Some(point) => is_met(cert, name, leads, point),
    };
    next && other
}

/// Whether a finding is of the rule that what is reached has a bound.
fn is_of_reach(found: BrokenRule) -> bool
    ensures { result ≡ is_of_reach (broken_rule_of found) }
{
    found.rule.number() == Rule::LeadsToBounds.number()
}

/// Whether all that a point leads to has a bound, or an earlier point of its program leads there too.
fn leads_alike(scene: &Scene<'_>, program: u8, earlier: u8, point: u8) -> bool
    ensures { result ≡ leads_alike scene.now.task.now scene.now.cert.now program earlier point }
{
    let code = scene.code(program);
    let name = scene.task.program_name(program);
    let leads = successors_at(code, usize::from(earlier));
    let later = successors_at(code, usize::from(point));
    all_met(scene.cert, name, &leads, &later)
}

/// Whether a finding is one that a later one is counted under.
fn covers(scene: &Scene<'_>, earlier: BrokenRule, later: BrokenRule) -> bool
    ensures { result ≡ covers scene.now.task.now scene.now.cert.now (broken_rule_of earlier) (broken_rule_of later) }
{
    let name = scene.task.program_name(earlier.program);
    is_of_reach(earlier)
        && is_of_reach(later)
        && earlier.program == later.program
        && earlier.point < later.point
        && scene.cert.has_bound(name, usize::from(earlier.point))
        && leads_alike(scene, earlier.program, earlier.point, later.point)
}

/// Whether one of these findings is one that another is counted under.
fn any_covers(scene: &Scene<'_>, all: &[BrokenRule], found: BrokenRule) -> bool
    ensures { result ≡ list_any (λ g. covers scene.now.task.now scene.now.cert.now g (broken_rule_of found)) (map broken_rule_of all.now) }
{
    for earlier in all {
        if covers(scene, *earlier, found) {
            return true;
        }
    }
    false
}

/// Whether a finding is counted under another of these.
pub(crate) fn is_counted(scene: &Scene<'_>, all: &[BrokenRule], found: BrokenRule) -> bool
    ensures { result ≡ is_counted scene.now.task.now scene.now.cert.now (map broken_rule_of all.now) (broken_rule_of found) }
{
    is_of_reach(found) && any_covers(scene, all, found)
}

/// How many of these findings are counted under one.
pub(crate) fn count_under(scene: &Scene<'_>, all: &[BrokenRule], found: BrokenRule) -> usize
    ensures { result ≡ count_under scene.now.task.now scene.now.cert.now (map broken_rule_of all.now) (broken_rule_of found) }
{
    let mut count = 0;
    if is_of_reach(found) {
        for later in all {
            if covers(scene, found, *later) {
                count += 1;
            }
        }
    }
    count
}
