//! The rules, each in a sentence with what it compares at a point that breaks it.

ghost use Rattle.std.specs.Prelude.{◌≡◌, false};
ghost use Rattle.explain.specs.RuleTexts.{BeginsWithRule, rule_words, slot_rule_words};

use crate::arriving::{Leads, add_narrow, add_unbound};
use crate::authority_rules::{add_authority, add_started, add_taken};
use crate::call_rules::{Told, add_call_rule};
use crate::folding::folded;
use crate::scenes::{BoundedPoint, Scene};
use crate::starting::add_start;
use checker::starts::is_bounded_start;
use checker::{AuthorityRule, BrokenRule, CallRule, Rule, SlotRule, instruction_at};
use instruction_set::{Instruction, enters_mode};
use std::alloc::Global;
use task::is_marked;
use texts::{Name, Page, say};
use transfer::Site;

/// What a rule asks, in a sentence, of a task that asks for further rights or of another. (own)
pub fn rule_words(wide: bool, rule: Rule) -> &'static str
    ensures { result.now ≡ rule_words wide rule }
{
    match rule {
        Rule::StartsWithin => "the bound of point 0 is too narrow for how a process starts",
        Rule::SuccessesWithin => "a success leads to a point whose bound is too narrow for it",
        Rule::ErrorsWithin => "an error leads to a point whose bound is too narrow for it",
        Rule::OfCall(rule) => match rule {
            CallRule::OneNumber => "a call that changes a slot names it by one number",
            CallRule::FreeNumbers => "the free numbers that a call takes are determined",
            CallRule::NoGlobalPath => "in the mode no call reaches a global path",
            CallRule::OfSlot(rule) => general_of_slot(wide, rule),
        },
        Rule::LeadsToBounds => "a point that is reached has a bound",
        Rule::BoundsOutside => {
            "the points of an untrusted program bound it outside the mode alone"
        }
        Rule::TakesWithin => "what an untrusted program holds in the mode is within its authority",
        Rule::OfAuthority(rule) => match rule {
            AuthorityRule::Ceilings => "a ceiling's grant lists what the ceiling's rights are for",
            AuthorityRule::Moves => {
                "by no two ceilings can a name be moved from one grant into another"
            }
            AuthorityRule::Received => "what may come by a listed end is within the authority",
            AuthorityRule::Sent => "whoever receives from a listed end expects anything",
        },
    }
}

/// What a rule on each slot that a call goes through asks.
fn general_of_slot(wide: bool, rule: SlotRule) -> &'static str
    ensures { result.now ≡ slot_rule_words wide rule }
{
    match rule {
        SlotRule::Rights => "each right that a call needs is surely held",
        SlotRule::Commands if wide =>
            "each command or further right that a call needs is surely held",
        SlotRule::Commands => "each command that a call needs is surely held",
        SlotRule::Limit => "a limit keeps what is surely held",
        SlotRule::KnownObject => "in the mode a call works on what is in a grant or a socket",
        SlotRule::Policy => "in the mode a call does what the grant lists",
        SlotRule::KnownNames =>
            "in either mode names are made, removed and moved beneath grants alone",
        SlotRule::Moves => "in either mode nothing is moved from one grant into another",
        SlotRule::Sent => "what is sent lies within its channel's line",
        SlotRule::Channel => "a channel that is used has a line",
    }
}

/// Adds which processes start otherwise than the bound of point 0 says.
fn add_starts(page: &mut Page, scene: &Scene<'_>, at: &BoundedPoint<'_>) {
    let marked = is_marked(scene.task.programs(), at.site.name.as_bytes());
    for start in scene.task.starts() {
        if is_bounded_start(marked, at.program, start) {
            add_start(page, scene, at.site.bound, start);
        }
    }
}

/// Adds what a rule compares at a point with a bound.
fn add_compared(page: &mut Page, scene: &Scene<'_>, at: &BoundedPoint<'_>, rule: Rule) {
    let (name, bound) = (at.site.name, at.site.bound);
    match rule {
        Rule::StartsWithin => add_starts(page, scene, at),
        Rule::SuccessesWithin => add_narrow(page, scene, at, Leads::BySuccess),
        Rule::ErrorsWithin => add_narrow(page, scene, at, Leads::ByError),
        Rule::OfCall(rule) => {
            if let Instruction::Invoke { call, .. } = at.instruction {
                add_call_rule(page, &Told { scene, bound, call }, rule)
            }
        }
        Rule::LeadsToBounds => add_unbound(page, scene, at),
        Rule::BoundsOutside => say!(page; "; the bound has the mode ", bound.mode()),
        Rule::TakesWithin => {
            if enters_mode(at.instruction) {
                add_taken(page, scene, name, bound);
            }
            if at.site.point == 0 {
                add_started(page, scene, name, at.program)
            }
        }
        Rule::OfAuthority(rule) => add_authority(page, scene, name, rule),
    }
}

/// Adds what it compares at one without, which is asked few rules.
fn add_without(page: &mut Page, scene: &Scene<'_>, name: &Name, program: u8, rule: Rule) {
    match rule {
        Rule::TakesWithin => add_started(page, scene, name, program),
        Rule::OfAuthority(rule) => add_authority(page, scene, name, rule),
        Rule::StartsWithin
        | Rule::SuccessesWithin
        | Rule::ErrorsWithin
        | Rule::OfCall(_)
        | Rule::LeadsToBounds
        | Rule::BoundsOutside => say!(page; "; it has none, and a process starts here"),
    }
}

/// Adds what a rule compares at its point.
fn add_detail(page: &mut Page, scene: &Scene<'_>, found: BrokenRule) {
    let (program, point) = (found.program, found.point);
    let (task, cert) = (scene.task, scene.cert);
    let (Some(named), Some(instruction)) = (
        task.programs().get(usize::from(program)),
        instruction_at(task, program, point),
    ) else {
        return;
    };
    let name = &named.name;
    let Some(bound) = &cert.bound_at(name.as_bytes(), usize::from(point)) else {
        return add_without(page, scene, name, program, found.rule);
    };
    let at = BoundedPoint {
        site: Site {
            task,
            cert,
            name,
            point,
            bound,
        },
        program,
        instruction,
    };
    add_compared(page, scene, &at, found.rule)
}

/// What a rule that is broken at a point asks, and what it compares there, in one line. (own)
pub fn finding_words(alloc: Global, scene: &Scene<'_>, found: BrokenRule) -> Page
    ensures { result.is_short ≡ false → BeginsWithRule scene.now.task.now.wide found.rule result.bytes.items }
{
    let mut detail = Page::new(alloc);
    add_detail(&mut detail, scene, found);
    let mut sentence = Page::new(alloc);
    say!(&mut sentence; rule_words(scene.task.further_rights(), found.rule));
    if let Some(compared) = detail.as_bytes().strip_prefix(b"; ".as_slice()) {
        say!(&mut sentence; ": ", compared);
    }
    if detail.finish().is_err() {
        sentence.fail();
    }
    sentence
}

/// The same as it stands behind the rule's number, in lines of their own.
pub(crate) fn sentence(alloc: Global, scene: &Scene<'_>, found: BrokenRule) -> Page {
    let column = if found.rule.number() < 10 { 5 } else { 6 };
    folded(&finding_words(alloc, scene, found), column)
}
