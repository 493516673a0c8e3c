//! What is observed on a program or a task, as values in words: remarks, and warnings where FreeBSD does otherwise.

ghost use Rattle.std.specs.Prelude.{◌≡◌, ◌∷◌, [], OnOk, false, map, option_map};
ghost use Rattle.std.specs.List.{slice_get};
ghost use Rattle.task.specs.Plans.{program_name};
ghost use Rattle.task.specs.Views.{program_of};
ghost use Rattle.texts.specs.PageViews.{Adds};
ghost use Rattle.explain.specs.Listing.{InOrder, TellsRemark, TellsWarning, first_point};
ghost use Rattle.explain.specs.ListingViews.{AddsSome};
ghost use Rattle.explain.specs.ObservedViews.{AddsObserved, headed};
ghost use Rattle.explain.specs.TopicViews.{joint, observation_text, topic_name};
ghost use Rattle.explain.specs.Wording.{is_next, joined_points, points_text, ranges_text};

use crate::folding::folded;
use crate::scenes::Scene;
use crate::topics::Topic;
use std::alloc::AllocError;
use task::{NamedProgram, Task};
use texts::{Page, say};

/// What is observed.
#[derive(Drop)]
pub struct Observation {
    pub topic: Topic,
    /// What is said of it, in one line.
    pub words: Page,
    /// The points of the program that it is said of; none, where it is of the program or the task as a whole.
    pub points: Vec<usize>,
    /// What is said behind the points.
    pub more: Page,
}

/// Adds an observation in these words, at these points, if there are such, behind the others.
pub(crate) fn add_observation(
    list: &mut Vec<Observation>,
    topic: Topic,
    words: Page,
    points: Vec<usize>,
) -> Result<(), AllocError>
    ensures { OnOk result (AddsObserved list.old.items list.new.items ((topic_name topic, points.items) ∷ [])) }
{
    let more = Page::new(words.alloc());
    list.push(Observation {
        topic,
        words,
        points,
        more,
    })?;
    Ok(())
}

/// A program of a task, by its number.
pub(crate) fn program_at(task: &Task, program: usize) -> Option<&NamedProgram>
    ensures { option_map (λ named. program_of named.now) result ≡ slice_get task.now.programs program }
{
    task.programs().get(program)
}

/// Whether the first of some points is the next number behind a point.
fn is_next(point: usize, points: &[usize]) -> bool
    ensures { result ≡ is_next point points.now }
{
    match points {
        [] => false,
        [next, ..] => *next > 0 && *next - 1 == point,
    }
}

/// Adds points as ranges, the first of them behind a separator; or behind a point whose range goes on.
fn add_ranges(page: &mut Page, separator: &'static str, goes: bool, points: &[usize])
    ensures { Adds page.old page.new (ranges_text separator.now goes points.now) }
{
    match points {
        [] => {}
        [point, points @ ..] => {
            let goes_on = is_next(*point, points);
            if !goes {
                say!(page; separator, *point);
                return add_ranges(page, ", ", goes_on, points);
            }
            if goes_on {
                return add_ranges(page, separator, true, points);
            }
            say!(page; " to ", *point);
            add_ranges(page, separator, false, points)
        }
    }
}

/// Adds points as ranges: `3, 5 to 9`. (own)
pub fn add_points(page: &mut Page, points: &[usize])
    ensures { Adds page.old page.new (points_text points.now) }
{
    add_ranges(page, "", false, points)
}

/// Adds what joins points to what is said of them, and the points, if there are any.
fn add_joined(page: &mut Page, topic: Topic, points: &[usize])
    ensures { Adds page.old page.new (joined_points (joint topic) points.now) }
{
    match points {
        [] => {}
        [_, ..] => {
            say!(page; topic.joint());
            add_points(page, points)
        }
    }
}

/// What is said of an observation in one line, with its points. (own)
pub fn line_of(observation: &Observation) -> Page
    ensures { result.is_short ≡ false → result.bytes.items ≡ observation_text observation.now }
{
    let mut line = Page::new(observation.words.alloc());
    say!(&mut line; &observation.words);
    add_joined(&mut line, observation.topic, &observation.points);
    say!(&mut line; &observation.more);
    line
}

/// Adds a remark, as it stands in a listing.
fn add_remark(page: &mut Page, indent: &'static str, observation: &Observation)
    ensures { AddsSome (TellsRemark indent.now (headed observation.now)) page.old page.new }
{
    let line = &mut Page::new(page.alloc());
    say!(line; indent, "remark: ");
    line.page(&line_of(observation));
    page.page(&folded(line, 0));
    say!(page; "\n")
}

/// Adds remarks, one behind another.
pub(crate) fn add_remarks(page: &mut Page, indent: &'static str, remarks: &[Observation])
    ensures { AddsSome (InOrder (TellsRemark indent.now) (map headed remarks.now)) page.old page.new }
{
    match remarks {
        [] => {}
        [first, rest @ ..] => {
            add_remark(page, indent, first);
            add_remarks(page, indent, rest)
        }
    }
}

/// The first of some points, as a number of 8 bits; 0 where there is none.
fn first_point(points: &[usize]) -> u8
    ensures { result ≡ first_point points.now }
{
    match points {
        [] => 0,
        [point, ..] => u8::try_from(*point).unwrap_or(u8::MAX),
    }
}

/// Adds a warning, as it stands in a listing.
fn add_warning(page: &mut Page, scene: &Scene<'_>, program: u8, warning: &Observation)
    ensures { AddsSome (TellsWarning (program_name scene.now.task.now program) (headed warning.now)) page.old page.new }
{
    let place = scene.place(program, first_point(&warning.points));
    say!(page; "  FreeBSD: ", place, ": ", &warning.words, " (FREEBSD.md#", warning.topic.name(), ")\n")
}

/// Adds warnings, one behind another.
pub(crate) fn add_warnings(
    page: &mut Page,
    scene: &Scene<'_>,
    program: u8,
    warnings: &[Observation],
)
    ensures { AddsSome (InOrder (TellsWarning (program_name scene.now.task.now program)) (map headed warnings.now)) page.old page.new }
{
    match warnings {
        [] => {}
        [first, rest @ ..] => {
            add_warning(page, scene, program, first);
            add_warnings(page, scene, program, rest)
        }
    }
}
