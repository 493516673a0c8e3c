//! The sheet of a page.

use crate::heads::header_of;
use crate::listings::listings_of;
use crate::matrices::matrix_of;
use crate::pictures::picture_of;
use crate::played::played_events;
use crate::room::Room;
use crate::runs::{end_of, run_of};
use crate::views::{Outcome, Reviewed, views_of};
use checker::Rule;
use checker::rule::RULES;
use explain::{rule_advice, rule_title, rule_words};
use page::{RuleText, Run, Sheet};
use rights::Memory;
use std::alloc::Global;
use texts::parts_of;

/// Whether a rule is broken.
fn is_broken(reviewed: &Reviewed<'_>, rule: Rule) -> bool {
    for found in reviewed.findings {
        if found.rule == rule {
            return true;
        }
    }
    false
}

/// The rules that are broken, each once, in words.
fn broken_rules(room: &mut Room, reviewed: &Reviewed<'_>) -> Vec<RuleText> {
    let wide = reviewed.scene.task.further_rights();
    let mut rules = room.list();
    for rule in &RULES {
        if is_broken(reviewed, *rule) {
            let text = RuleText {
                number: rule.number(),
                name: room.text(rule_title(*rule)),
                text: room.text(parts_of!(rule_words(wide, *rule), ". ", rule_advice(*rule))),
            };
            room.push(&mut rules, text);
        }
    }
    rules
}

/// The run that breaks something, if one is found.
fn found_run(room: &mut Room, reviewed: &Reviewed<'_>) -> Option<Run> {
    match reviewed.outcome {
        Outcome::Broken(found) => {
            let played = played_events(room, &found.events);
            let end = end_of(room, "", &found.breach, &found.detail);
            Some(run_of(room, reviewed, &played, end))
        }
        Outcome::Attacked {
            breach,
            detail,
            played,
        } => {
            let end = end_of(room, "", breach, detail);
            Some(run_of(room, reviewed, played, end))
        }
        Outcome::Accepted | Outcome::Refused | Outcome::Undecided => None,
    }
}

/// The command that answers the same.
fn command_of(room: &mut Room, reviewed: &Reviewed<'_>) -> Vec<u8> {
    let task = reviewed.task_file;
    if let Some(cert) = reviewed.cert_file {
        let command = match reviewed.outcome {
            Outcome::Accepted => "capwhy list ",
            _ => "capwhy no ",
        };
        return room.text(parts_of!(command, task, " ", cert));
    }
    let command = match reviewed.outcome {
        Outcome::Broken(_) | Outcome::Attacked { .. } => "capwhy breach ",
        _ => "capwhy none ",
    };
    room.text(parts_of!(command, task))
}

/// The sheet of a page, as far as there is room for it.
fn made(room: &mut Room, reviewed: &Reviewed<'_>) -> Sheet {
    let views = views_of(room, reviewed);
    Sheet {
        header: header_of(room, reviewed, &views),
        run: found_run(room, reviewed),
        picture: picture_of(room, reviewed, &views),
        rights: matrix_of(room, reviewed, &views),
        programs: listings_of(room, reviewed, &views),
        rules: broken_rules(room, reviewed),
        command: command_of(room, reviewed),
    }
}

/// The sheet of a page. Want of memory is the only error.
pub fn sheet_of(alloc: Global, reviewed: &Reviewed<'_>) -> Result<Sheet, Memory> {
    let mut room = Room::new(alloc);
    let sheet = made(&mut room, reviewed);
    if room.is_short() {
        return Err(Memory);
    }
    Ok(sheet)
}
