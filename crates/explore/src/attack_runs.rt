//! The text of a run in which attackers do what they like.

ghost use Rattle.std.specs.Prelude.{◌≡◌, List, OnOk, map, option_map, ℕ};
ghost use Rattle.std.specs.List.{flat_map};
ghost use Rattle.simulator.specs.Traces.{effect_text, result_text};
ghost use Rattle.simulator.specs.Views.{acted_of, line_of, result_of};
ghost use Rattle.syscalls.specs.Views.{effect_of, effects_of, event_of};
ghost use Rattle.texts.specs.PageViews.{Adds};
ghost use Rattle.explore.specs.BreachViews.{breach_of};
ghost use Rattle.explore.specs.DeedTexts.{attacked_step_text, attack_line, attack_run_text, attacker_text, doer_text};
ghost use Rattle.explore.specs.MoveViews.{event_at};

use crate::attacks::{AttackAction, Move};
use crate::breaking::step_by;
use crate::deeds::add_deed;
use crate::exploring::{FoundAttack, events_of};
use crate::writing::{add_breach, add_schedule};
use link_tree::LinkTree;
use rights::Memory;
use rights::limits::MAX_PROCESSES;
use simulator::{Acted, Line, LineResult, Machine};
use std::alloc::Global;
use syscalls::{Effect, Event};
use task::Task;
use texts::{Page, Say, parts_of, say};

/// What is said of a schedule with attackers' steps.
const UNPLAYED: &str =
    "capcheck run doesn't play this schedule: the task has no attacker's steps\n";

/// Adds what a step came to.
fn add_result(page: &mut Page, outcome: LineResult)
    ensures { Adds page.old page.new (result_text (result_of outcome)) }
{
    match outcome {
        LineResult::Done => "ok".say(page),
        LineResult::Halted => "halt".say(page),
        LineResult::Value(value) => say!(page; "= ", value),
        LineResult::Failed(errno, cause) => say!(page; "! ", errno.name(), " ", cause.name()),
        LineResult::Waiting => "wait".say(page),
        LineResult::Walking => "walk".say(page),
        LineResult::Ended => "ended".say(page),
    }
}

/// Adds an operation at a place.
fn add_effect(page: &mut Page, effect: &Effect)
    ensures { Adds page.old page.new (effect_text (effect_of effect.now)) }
{
    say!(page; " ", effect.op, " ", effect.place.as_slice())
}

/// Adds each of them.
fn add_effects(page: &mut Page, effects: &[Effect])
    ensures { Adds page.old page.new (flat_map effect_text (effects_of effects.now)) }
{
    for effect in effects {
        add_effect(page, effect);
    }
}

/// Adds an attacker's deed, behind its program.
fn add_attacker(page: &mut Page, program: &[u8], deed: &AttackAction)
    ensures { Adds page.old page.new (attacker_text program.now deed.now) }
{
    say!(page; " ", program, " by an attacker: ");
    add_deed(page, deed)
}

/// Adds who does a step: a process at a point of its program, or an attacker in its place.
fn add_doer(page: &mut Page, task: &Task, acted: &Acted, deed: Option<&AttackAction>)
    ensures { Adds page.old page.new (doer_text task.now (option_map (λ d. d.now) deed.entry) (acted_of acted.now)) }
{
    let program = task.program_name(acted.program);
    match deed {
        None => say!(page; " ", program, ":", acted.point),
        Some(deed) => add_attacker(page, program, deed),
    }
}

/// Adds what a process did that was made.
fn add_acted(page: &mut Page, task: &Task, acted: &Acted, deed: Option<&AttackAction>)
    ensures { Adds page.old page.new (attacked_step_text task.now (option_map (λ d. d.now) deed.entry) (acted_of acted.now)) }
{
    add_doer(page, task, acted, deed);
    " ".say(page);
    add_result(page, acted.outcome);
    add_effects(page, &acted.effects)
}

/// Adds a line of a trace, with the deed of an attacker, if it does the step.
fn add_line(page: &mut Page, task: &Task, line: &Line, deed: Option<&AttackAction>)
    ensures { Adds page.old page.new (attack_line task.now (option_map (λ d. d.now) deed.entry) (line_of line.now)) }
{
    line.process.say(page);
    match &line.acted {
        None => " - none".say(page),
        Some(acted) => add_acted(page, task, acted, deed),
    }
    "\n".say(page)
}

/// What attackers' processes are at, by number, until their calls are done.
#[derive(Drop)]
struct Doings<'a> {
    deeds: [Option<&'a AttackAction>; MAX_PROCESSES],
}

impl<'a> Doings<'a> {
    /// What a process is at behind a move.
    fn at(&mut self, next: &Move<'a>) -> Option<&'a AttackAction> {
        let Some(doing) = self.deeds.get_mut(usize::from(next.event.process)) else {
            return next.deed;
        };
        if next.deed.is_some() {
            *doing = next.deed;
        }
        *doing
    }

    /// Notes what the step of a process came to.
    fn note(&mut self, line: &Line) {
        let goes_on = match &line.acted {
            Some(acted) => acted.outcome == LineResult::Walking,
            None => false,
        };
        if let Some(doing) = self.deeds.get_mut(usize::from(line.process)) {
            if !goes_on {
                *doing = None;
            }
        }
    }
}

/// The trace of a run by moves.
fn trace_of(alloc: Global, task: &Task, moves: &[Move<'_>]) -> Result<Page, Memory> {
    let Ok(mut machine) = Machine::<LinkTree>::start(alloc, task) else {
        return Err(Memory);
    };
    let mut page = Page::new(alloc);
    let mut doings = Doings {
        deeds: [None; MAX_PROCESSES],
    };
    for next in moves {
        let deed = doings.at(next);
        let Ok(line) = step_by(&mut machine, next) else {
            return Err(Memory);
        };
        add_line(&mut page, task, &line, deed);
        doings.note(&line);
    }
    Ok(page)
}

/// Adds the parts of an attack's text: the events, the trace, what is broken, and that `run` doesn't play them.
#[tactic(auto, using(crate::proofs::AttackLaws::run_added))]
fn add_parts(page: &mut Page, events: &[Event], trace: &Page, found: &FoundAttack<'_>)
    ensures { Adds page.old page.new (attack_run_text (map event_of events.now) trace.now.bytes.items (breach_of found.now.breach) found.now.detail.items) }
{
    add_schedule(page, events);
    say!(page; "\n", trace);
    add_breach(page, &found.breach, &found.detail);
    UNPLAYED.say(page)
}

/// Adds a run in which attackers break something: its schedule, a blank line, its trace, in which an attacker's deed stands in place of a
/// point, what is broken, and that `run` doesn't play the schedule. Which lines the trace has no clause says. Want of memory is the only error. (own)
pub fn add_attack(
    alloc: Global,
    page: &mut Page,
    task: &Task,
    found: &FoundAttack<'_>,
) -> Result<(), Memory>
    ensures { OnOk result ((trace : List ℕ) × Adds page.old page.new
        (attack_run_text (map event_at found.now.moves.items) trace (breach_of found.now.breach) found.now.detail.items)) }
{
    let events = events_of(alloc, &found.moves)?;
    let trace = trace_of(alloc, task, &found.moves)?;
    add_parts(page, &events, &trace, found);
    Ok(())
}
