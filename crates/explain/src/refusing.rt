//! All rules that a certificate breaks, with where and why.

ghost use Rattle.std.specs.Prelude.{◌≡◌, ◌++◌, ◌∷◌, [], ℕ, IfOk, List, Option, map, option_map};
ghost use Rattle.checker.specs.FindingViews.{broken_rule_of};
ghost use Rattle.explain.specs.Telling.{HasHead, Tells, TellsEach, finding_text, is_same_point, others_text};
ghost use Rattle.checker.specs.Findings.{BrokenRule as BrokenRuleSeen};
ghost use Rattle.texts.specs.PageViews.{Adds};

use crate::covering::{count_under, is_counted};
use crate::older::add_older;
use crate::scenes::Scene;
use crate::sentences::sentence;
use certificate::Cert;
use checker::BrokenRule;
use std::alloc::{AllocError, Global};
use texts::{Page, say};

/// Whether a finding is of the same point as the one before it.
fn is_same_point(before: Option<BrokenRule>, found: BrokenRule) -> bool
    ensures { result ≡ is_same_point (option_map broken_rule_of before) (broken_rule_of found) }
{
    match before {
        Some(before) => before.program == found.program && before.point == found.point,
        None => false,
    }
}

/// Adds the line of a point, its instruction as it is written, if the finding before was of another.
fn add_head(page: &mut Page, scene: &Scene<'_>, before: Option<BrokenRule>, found: BrokenRule)
    ensures { (head : List ℕ)
        × HasHead scene.now.task.now (broken_rule_of found) (is_same_point (option_map broken_rule_of before) (broken_rule_of found)) head
        × Adds page.old page.new head }
{
    if !is_same_point(before, found) {
        let written = scene.written(found.program, found.point);
        let place = scene.place(found.program, found.point);
        say!(page; place, ": ", written.text, "\n")
    }
}

/// Adds the line of a rule that is broken at a point: what it asks, and what it compares there.
fn add_rule(page: &mut Page, scene: &Scene<'_>, found: BrokenRule)
    ensures { (sentence : List ℕ) × Adds page.old page.new (finding_text (broken_rule_of found) sentence) }
{
    let sentence = sentence(page.alloc(), scene, found);
    say!(page; "  K", found.rule.number(), " ", &sentence, "\n")
}

/// Adds how many findings are counted under one.
fn add_others(page: &mut Page, count: usize)
    ensures { Adds page.old page.new (others_text count) }
{
    if count != 0 {
        say!(page; "    later points that lead to no other without a bound, not told: ", count, "\n")
    }
}

/// Adds a finding of these behind others, unless it is counted under another. Which one was told last is given.
fn add_next(
    page: &mut Page,
    scene: &Scene<'_>,
    all: &[BrokenRule],
    last: Option<BrokenRule>,
    found: BrokenRule,
) -> Option<BrokenRule>
    ensures { (fs : List BrokenRuleSeen) (before : List ℕ)
        → TellsEach scene.now.task.now scene.now.cert.now (map broken_rule_of all.now) (option_map broken_rule_of last) fs before
        → (told : List ℕ) × Adds page.old page.new told
        × TellsEach scene.now.task.now scene.now.cert.now (map broken_rule_of all.now) (option_map broken_rule_of result)
        (fs ++ (broken_rule_of found ∷ [])) (before ++ told) }
{
    if is_counted(scene, all, found) {
        return last;
    }
    add_head(page, scene, last, found);
    add_rule(page, scene, found);
    add_others(page, count_under(scene, all, found));
    Some(found)
}

/// Adds the rules that are broken, point by point. Those that are counted under others aren't told one by one.
pub(crate) fn add_findings(page: &mut Page, scene: &Scene<'_>, found: &[BrokenRule])
    ensures { (last : Option BrokenRuleSeen) × (told : List ℕ)
        × TellsEach scene.now.task.now scene.now.cert.now (map broken_rule_of found.now) last (map broken_rule_of found.now) told
        × Adds page.old page.new told }
{
    let mut last = None;
    for finding in found {
        last = add_next(page, scene, found, last, *finding);
    }
}

/// What is told of the rules that a certificate breaks: each in its order, below the point where it is broken, but those that are counted under
/// another; or that none is. Want of memory is the only error.
pub fn findings_text(
    alloc: Global,
    scene: &Scene<'_>,
    cert: &Cert,
    found: &[BrokenRule],
) -> Result<Vec<u8>, AllocError>
    ensures { IfOk result (λ text. Tells scene.now.task.now scene.now.cert.now (map broken_rule_of found.now) text.items) }
{
    let mut page = Page::new(alloc);
    if found.is_empty() {
        say!(&mut page; "no rule is broken: the certificate is accepted\n");
        return page.into_bytes();
    }
    add_older(&mut page, scene.task, cert);
    add_findings(&mut page, scene, found);
    page.into_bytes()
}
