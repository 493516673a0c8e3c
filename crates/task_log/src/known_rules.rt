//! What results may be of.

ghost use Rattle.std.specs.Prelude.{◌≡◌, false};
ghost use Rattle.sarif.specs.LogViews.{level_seen};
ghost use Rattle.task_log.specs.Errors.{is_error};

use checker::rule::RULES;
use explain::{REMARK_TOPICS, Topic, rule_advice, rule_title, rule_words};
use sarif::{Level, Rule, RuleId};
use std::alloc::{AllocError, Global};

/// What the faults of a text are of.
pub const TASK_TEXT: Rule<'static> = Rule {
    id: RuleId::Named("task-text"),
    level: Level::Error,
    title: "The text of a task",
    says: "A task's text is TOML with the tables, the names and the programs that a task has, within its limits.",
    help: "Mend the text at this place: docs/TASKS.md says what stands in a task.",
};

/// A rule of the checker.
fn rule_of(wide: bool, rule: checker::Rule) -> Rule<'static> {
    Rule {
        id: RuleId::Numbered(rule.number()),
        level: Level::Error,
        title: rule_title(rule),
        says: rule_words(wide, rule),
        help: rule_advice(rule),
    }
}

/// How much an observation weighs: a remark is a note, and where FreeBSD does otherwise it is a warning.
pub(crate) fn level_of(topic: Topic) -> Level
    ensures { is_error (level_seen result) ≡ false }
{
    match topic {
        Topic::FreeBsd(_) => Level::Warning,
        _ => Level::Note,
    }
}

/// What an observation is about.
pub(crate) fn rule_of_topic(topic: Topic) -> Rule<'static> {
    Rule {
        id: RuleId::Named(topic.name()),
        level: level_of(topic),
        title: topic.heading(),
        says: topic.meaning(),
        help: match topic {
            Topic::FreeBsd(_) =>
                "The part of docs/FREEBSD.md that has this name says what FreeBSD does, and what to write.",
            _ => topic.meaning(),
        },
    }
}

/// The rules of the checker, as they are said of a task that asks for further rights or of another, and all that is remarked.
pub(crate) fn known_rules(alloc: Global, wide: bool) -> Result<Vec<Rule<'static>>, AllocError> {
    let mut rules = Vec::new(alloc);
    for rule in &RULES {
        rules.push(rule_of(wide, *rule))?;
    }
    for topic in &REMARK_TOPICS {
        rules.push(rule_of_topic(*topic))?;
    }
    Ok(rules)
}

/// Adds what an observation is about, if it isn't there.
pub(crate) fn add_topic(rules: &mut Vec<Rule<'static>>, topic: Topic) -> Result<(), AllocError> {
    let rule = rule_of_topic(topic);
    for known in &*rules {
        if known.id.is(&rule.id) {
            return Ok(());
        }
    }
    rules.push(rule)?;
    Ok(())
}
