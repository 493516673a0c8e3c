//! What the search for a certificate came to.

ghost use Rattle.std.specs.Prelude.{◌≡◌, ◌==◌, ◌||◌, IfOk, Some, false, true};
ghost use Rattle.std.specs.List.{list_any};
ghost use Rattle.certificate.specs.Bounds.{Certificate};
ghost use Rattle.checker.specs.RuleViews.{rule_number};
ghost use Rattle.checker.specs.Verdicts.{IsAccepted};
ghost use Rattle.searcher.specs.Flat.{flat};

use crate::listing::add_listing;
use crate::refusing::add_findings;
use crate::scenes::{Place, Scene};
use crate::starting::Object;
use checker::{BrokenRule, all_findings, expand};
use file_tree::Kind;
use instruction_set::{Instruction, Syscall};
use rights::Memory;
use searcher::{propose, reached, search};
use std::alloc::Global;
use task::{FirstObject, Grant, Task, TaskNode, none_marked};
use task_text::ProgramText;
use texts::{Page, say};

/// The node of a task that stands at a path, if one does.
fn node_at<'a>(task: &'a Task, path: &[u8]) -> Option<&'a TaskNode> {
    for node in task.nodes() {
        if node.place.text() == path {
            return Some(node);
        }
    }
    None
}

/// The first grant that a place lies in, if it lies in one.
fn grant_over<'a>(task: &'a Task, place: &file_tree::Place) -> Option<&'a Grant> {
    for grant in task.grants() {
        if place.begins_with(&grant.path) {
            return Some(grant);
        }
    }
    None
}

/// Adds that a file is opened by its own path: it counts as a grant's only where it is opened beneath one.
fn add_file(page: &mut Page, scene: &Scene<'_>, file: &TaskNode, place: Place<'_>) {
    say!(page; place, " opens ", file.place.text(), " by its path, so it counts as no grant's: ");
    match grant_over(scene.task, &file.place) {
        Some(grant) => {
            say!(page; "open ", grant.path.text(), ", which is the grant ", grant.name.as_bytes())
        }
        None =>
            say!(page; "a grant of ", file.place.text_above(), " would be needed, opened by its path"),
    }
    say!(page; ", and openat beneath it\n")
}

/// Adds what an instruction opens by a path that is no grant's, and which grant would be needed.
fn add_open(page: &mut Page, scene: &Scene<'_>, instruction: &Instruction, place: Place<'_>) {
    let Instruction::Invoke {
        call: Syscall::Open { path, .. },
        ..
    } = instruction
    else {
        return;
    };
    let path = path.bytes();
    for grant in scene.task.grants() {
        if grant.path.text() == path {
            return;
        }
    }
    match node_at(scene.task, path) {
        Some(node) => match node.kind {
            Kind::Dir => {
                say!(page; "a grant of ", path, " would be needed: ", place, " opens it by its path\n")
            }
            Kind::File => add_file(page, scene, node, place),
            Kind::Link =>
                say!(page; place, " opens ", path, " by its path, and that is a link: a grant is of a directory\n"),
        },
        None =>
            say!(page; place, " opens ", path, " by its path, where the task has nothing: it counts as no grant's\n"),
    }
}

/// Adds each path that is opened and is no grant's: what comes of it lies in no grant.
fn add_opens(page: &mut Page, scene: &Scene<'_>) {
    for (program, named) in scene.task.programs().iter().enumerate() {
        for (point, instruction) in named.program.code().iter().enumerate() {
            let place = scene.place(program as u8, point as u8);
            add_open(page, scene, instruction, place);
        }
    }
}

/// Whether what a first descriptor is of lies in a grant, if it is a node.
fn is_granted(task: &Task, object: FirstObject) -> bool {
    let FirstObject::Node { node, .. } = object else {
        return true;
    };
    match task.nodes().get(usize::from(node)) {
        None => true,
        Some(node) => grant_over(task, &node.place).is_some(),
    }
}

/// Adds each first descriptor of a node that lies in no grant.
fn add_first(page: &mut Page, scene: &Scene<'_>) {
    for (number, start) in scene.task.starts().iter().enumerate() {
        for first in &start.descriptors {
            let of = first.object;
            if !is_granted(scene.task, of) {
                say!(page; "a grant over ", Object { scene: &*scene, of }, " would be needed: process ");
                say!(page; number, " starts with descriptor ", first.number, " of it\n");
            }
        }
    }
}

/// Whether a rule is broken by what lies in no grant.
fn wants_grant(found: &[BrokenRule]) -> bool
    ensures { result ≡ list_any (λ finding. (rule_number finding.rule == 10) || (rule_number finding.rule == 12)
        || (rule_number finding.rule == 18)) found.now }
{
    found
        .iter()
        .any(|finding| matches!(finding.rule.number(), 10 | 12 | 18))
}

/// Adds what the search came to. Whether it finds a certificate.
pub fn add_unfound(
    alloc: Global,
    page: &mut Page,
    file: &[u8],
    texts: &[ProgramText],
    task: &Task,
) -> Result<bool, Memory>
    ensures found { IfOk result (λ is_found. is_found ≡ true → (found : Certificate) × IsAccepted task.now found) }
    ensures unfound { IfOk result (λ is_found. is_found ≡ false → (bounds : Certificate) → flat task.now ≡ Some bounds → IsAccepted task.now bounds → ⊥) }
{
    if let Some(_found) = search(alloc, task)? {
        say!(page; "a certificate is found: `capcheck search` prints it\n");
        return Ok(true);
    }
    if !none_marked(task.programs()) {
        if let Some(_found) = propose(alloc, task)? {
            say!(page; "a certificate is found: `capwhy propose` prints it\n");
            return Ok(true);
        }
    }
    let Some(cert) = reached(alloc, task)? else {
        say!(page; "the search gave up: the bounds don't settle, or are too many\n");
        return Ok(false);
    };
    let expanded = expand(alloc, task, &cert)?;
    let scene = Scene::new(file, texts, task, &expanded);
    let found = all_findings(alloc, task, &cert)?;
    add_findings(page, &scene, &found);
    if wants_grant(&found) {
        add_opens(page, &scene);
        add_first(page, &scene);
    }
    say!(page; "\nThe bounds that the search reached:\n");
    add_listing(page, &scene, scene.cert, true);
    Ok(false)
}
