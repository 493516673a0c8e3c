//! What is found, each as a result at its line.

ghost use Rattle.std.specs.Prelude.{◌≡◌, IfOk, false};
ghost use Rattle.checker.specs.FindingViews.{broken_rule_of};
ghost use Rattle.sarif.specs.Logs.{error, numbered};
ghost use Rattle.sarif.specs.LogViews.{finding_seen};
ghost use Rattle.task_log.specs.Errors.{is_error};

use crate::known_rules::level_of;
use checker::BrokenRule;
use explain::{Observation, Scene, Topic, finding_words, line_of};
use sarif::{Finding, Level, Place, RuleId};
use std::alloc::{AllocError, Global};
use texts::{Page, say};

/// The line of a point, where that is known.
fn location_of(scene: &Scene<'_>, program: u8, point: usize) -> Option<Place> {
    let Ok(point) = u8::try_from(point) else {
        return None;
    };
    let line = scene.written(program, point).line;
    if line == 0 {
        return None;
    }
    Some(Place { line, column: None })
}

/// A rule that is broken at a point.
pub(crate) fn broken(
    alloc: Global,
    scene: &Scene<'_>,
    found: BrokenRule,
) -> Result<Finding<'static>, AllocError>
    ensures level { IfOk result (λ finding. (finding_seen finding).level ≡ error) }
    ensures rule { IfOk result (λ finding. (finding_seen finding).rule ≡ numbered (broken_rule_of found).rule) }
{
    Ok(Finding {
        rule: RuleId::Numbered(found.rule.number()),
        level: Level::Error,
        message: finding_words(alloc, scene, found).into_bytes()?,
        place: location_of(scene, found.program, usize::from(found.point)),
        related: Vec::new(alloc),
    })
}

/// The lines of further points, each once, behind that of the first.
fn related(
    alloc: Global,
    scene: &Scene<'_>,
    program: u8,
    points: &[usize],
) -> Result<Vec<Place>, AllocError> {
    let mut places = Vec::new(alloc);
    let mut before = 0;
    for point in points {
        if let Some(place) = location_of(scene, program, *point) {
            if before != 0 && before != place.line {
                places.push(place)?;
            }
            before = place.line;
        }
    }
    Ok(places)
}

/// What is said of an observation: of a warning without its point, and with the part of docs/FREEBSD.md that says more.
fn words_of(observation: &Observation) -> Page {
    match observation.topic {
        Topic::FreeBsd(part) => {
            let mut words = Page::new(observation.words.alloc());
            say!(&mut words; &observation.words, " (FREEBSD.md#", part, ")");
            words
        }
        _ => line_of(observation),
    }
}

/// A remark or a warning on a program: at its first point, or at point 0 where it is of the program as a whole.
pub(crate) fn observed(
    alloc: Global,
    scene: &Scene<'_>,
    program: u8,
    observation: &Observation,
) -> Result<Finding<'static>, AllocError>
    ensures { IfOk result (λ finding. is_error (finding_seen finding).level ≡ false) }
{
    let first = match observation.points.first() {
        Some(first) => *first,
        None => 0,
    };
    Ok(Finding {
        rule: RuleId::Named(observation.topic.name()),
        level: level_of(observation.topic),
        message: words_of(observation).into_bytes()?,
        place: location_of(scene, program, first),
        related: related(alloc, scene, program, &observation.points)?,
    })
}

/// A remark on the task as a whole.
pub(crate) fn observed_of_task(
    alloc: Global,
    observation: &Observation,
) -> Result<Finding<'static>, AllocError>
    ensures { IfOk result (λ finding. is_error (finding_seen finding).level ≡ false) }
{
    Ok(Finding {
        rule: RuleId::Named(observation.topic.name()),
        level: level_of(observation.topic),
        message: words_of(observation).into_bytes()?,
        place: None,
        related: Vec::new(alloc),
    })
}
