//! What to look at, or what to do: the items at the head of a page.

use crate::room::{Room, short};
use crate::views::{Outcome, Reviewed, Viewed};
use checker::Rule;
use checker::rule::RULES;
use explain::{Observation, REMARK_TOPICS, Topic, add_points, line_of, rule_advice, task_remarks};
use explore::Breach;
use page::{Column, Item, Piece, Place};
use texts::{Name, Page, parts_of, say};

/// So many places of a kind are told.
const MOST_PLACES: usize = 6;

/// Whether an observation is of a topic; where FreeBSD does otherwise is one.
fn is_of(observation: &Observation, topic: Topic) -> bool {
    match topic {
        Topic::FreeBsd(_) => matches!(observation.topic, Topic::FreeBsd(_)),
        _ => observation.topic == topic,
    }
}

/// The points of an observation, with its program.
fn points_of(room: &Room, program: &Name, observation: &Observation) -> Page {
    let mut points = Page::new(room.alloc());
    say!(&mut points; program.as_bytes(), ":");
    add_points(&mut points, &observation.points);
    points
}

/// An observation in a sentence, with a link to its first point.
fn sentence_of(room: &mut Room, program: &Name, observation: &Observation) -> Vec<Piece> {
    let mut sentence = room.list();
    match observation.points.first() {
        None => room.plain(&mut sentence, &line_of(observation)),
        Some(first) => {
            let place = Place {
                program: *program,
                point: short(*first),
            };
            let points = points_of(room, program, observation);
            room.link(&mut sentence, place, &points);
            let (words, more) = (&observation.words, &observation.more);
            room.plain(&mut sentence, parts_of!(" ", words, more));
        }
    }
    sentence
}

/// The places of a topic, as they are gathered: some are told, and of the others how many there are.
#[derive(Drop)]
struct Places {
    told: Vec<Vec<Piece>>,
    more: u32,
}

impl Places {
    /// Adds those of some observations.
    fn add(&mut self, room: &mut Room, program: &Name, observations: &[Observation], topic: Topic) {
        for observation in observations {
            if is_of(observation, topic) {
                if self.told.len() < MOST_PLACES {
                    let sentence = sentence_of(room, program, observation);
                    room.push(&mut self.told, sentence);
                } else {
                    self.more = self.more.saturating_add(1);
                }
            }
        }
    }

    /// The item of a topic, if it has places.
    fn item(mut self, room: &mut Room, topic: Topic) -> Option<Item> {
        if self.told.is_empty() {
            return None;
        }
        if self.more > 0 {
            let sentence = room.sentence(parts_of!("and ", self.more, " more"));
            room.push(&mut self.told, sentence);
        }
        let mut words = room.list();
        let heading = room.text(parts_of!(topic.heading(), "."));
        room.push(&mut words, Piece::Tag(heading));
        room.plain(&mut words, parts_of!(" ", topic.meaning()));
        Some(Item {
            words,
            below: self.told,
        })
    }
}

/// Adds the item of a topic, if something is observed of it.
fn add_topic(
    room: &mut Room,
    items: &mut Vec<Item>,
    views: &[Viewed<'_>],
    of_task: &[Observation],
    topic: Topic,
) {
    let mut places = Places {
        told: room.list(),
        more: 0,
    };
    for viewed in views {
        places.add(room, &viewed.named.name, &viewed.remarks, topic);
        places.add(room, &viewed.named.name, &viewed.warnings, topic);
    }
    if let Some(viewed) = views.first() {
        places.add(room, &viewed.named.name, of_task, topic);
    }
    if let Some(item) = places.item(room, topic) {
        room.push(items, item);
    }
}

/// What to look at of a yes: the remarks and warnings by their topics.
fn items_to_look_at(room: &mut Room, reviewed: &Reviewed<'_>, views: &[Viewed<'_>]) -> Vec<Item> {
    let of_task = task_remarks(room.alloc(), &reviewed.scene, reviewed.has_bounds);
    let of_task = room.made(of_task);
    let mut items = room.list();
    for topic in &REMARK_TOPICS {
        add_topic(room, &mut items, views, &of_task, *topic);
    }
    add_topic(room, &mut items, views, &of_task, Topic::FreeBsd(""));
    if items.is_empty() {
        let words = room.sentence("Nothing: there is no remark and no warning.");
        room.item(&mut items, words);
    }
    items
}

/// Adds the points at which a rule is broken. Whether there are any.
fn add_broken(
    room: &mut Room,
    words: &mut Vec<Piece>,
    reviewed: &Reviewed<'_>,
    rule: Rule,
) -> bool {
    let mut count: u32 = 0;
    for found in reviewed.findings {
        if found.rule != rule {
            continue;
        }
        let Some(named) = reviewed
            .scene
            .task
            .programs()
            .get(usize::from(found.program))
        else {
            continue;
        };
        if count < MOST_PLACES as u32 {
            room.plain(words, if count == 0 { " at " } else { ", " });
            let (program, point) = (named.name, found.point);
            let place = Place { program, point };
            room.link(words, place, parts_of!(program.as_bytes(), ":", point));
        }
        count = count.saturating_add(1);
    }
    if count > MOST_PLACES as u32 {
        room.plain(
            words,
            parts_of!(" and ", count.saturating_sub(MOST_PLACES as u32), " more"),
        );
    }
    count > 0
}

/// What to do about the rules that are broken: each once, with its points.
fn items_to_do(room: &mut Room, reviewed: &Reviewed<'_>) -> Vec<Item> {
    let mut items = room.list();
    for rule in &RULES {
        let mut words = room.list();
        room.push(&mut words, Piece::RuleTag(rule.number()));
        if add_broken(room, &mut words, reviewed, *rule) {
            room.plain(&mut words, parts_of!(". ", rule_advice(*rule)));
            room.item(&mut items, words);
        }
    }
    items
}

/// What to do about a breach.
fn breach_advice(breach: &Breach) -> &'static str {
    match breach {
        Breach::Outside(..) =>
            "Leave the call out, or let the policy list the operation. No certificate mends that.",
        Breach::MissingRight => "Keep the right in the limits before it, or leave the call out.",
        Breach::CapMode =>
            "Open it before cap_enter, or by a call beneath a directory that is held.",
    }
}

/// The breach that was found, if one was.
pub(crate) fn breach_of<'a>(outcome: &Outcome<'a>) -> Option<&'a Breach> {
    match outcome {
        Outcome::Broken(found) => Some(&found.breach),
        Outcome::Attacked { breach, .. } => Some(*breach),
        Outcome::Accepted | Outcome::Refused | Outcome::Undecided => None,
    }
}

/// What to look at, or what to do.
pub(crate) fn left_column(
    room: &mut Room,
    reviewed: &Reviewed<'_>,
    views: &[Viewed<'_>],
) -> Column {
    if let Outcome::Accepted = reviewed.outcome {
        return Column {
            heading: room.text("To look at"),
            items: items_to_look_at(room, reviewed, views),
        };
    }
    let mut items = items_to_do(room, reviewed);
    if items.is_empty() {
        if let Some(breach) = breach_of(&reviewed.outcome) {
            let words = room.sentence(breach_advice(breach));
            room.item(&mut items, words);
        }
    }
    Column {
        heading: room.text("What to do"),
        items,
    }
}
