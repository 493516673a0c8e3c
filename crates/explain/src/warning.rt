//! How warnings are told: where FreeBSD does otherwise, at a point, and what to write.

ghost use Rattle.std.specs.Prelude.{◌≡◌, ◌∷◌, [], IfOk, OnOk, Some, map};
ghost use Rattle.std.specs.List.{flat_map, slice_get};
ghost use Rattle.certificate.specs.Views.{ceiling_of};
ghost use Rattle.explain.specs.Observed.{headed_at, difference_part, each_at, headed_if, program_warned};
ghost use Rattle.explain.specs.Observed.{warned_at_start, warned_from, warned_if_marked, warned_of_whole, warned_there};
ghost use Rattle.explain.specs.ObservedViews.{AddsObserved, headed, part_of};
ghost use Rattle.remarks.specs.RemarkViews.{difference_of, warned_of};
ghost use Rattle.task.specs.Views.{first_descriptor_of, program_of, start_of, starts_of};

use crate::observations::{Observation, add_observation, program_at};
use crate::topics::Topic;
use certificate::{Ceiling, Cert};
use remarks::{
    Difference, Warnings, directories_at_start, more_at_start, prying_ceilings, warnings_on,
    widest_ceilings,
};
use std::alloc::{AllocError, Global};
use task::{FirstDescriptor, NamedProgram, Start, Task};
use texts::{Name, Page, say};

/// What is warned of.
#[derive(Clone, Copy)]
enum Matter {
    Differs(Difference),
    FailedClose,
    NoSandbox,
    TakesMore,
    StartsWithMore,
    Directory,
    WidestCeiling,
    PryingCeiling,
}

/// What it is warned of.
#[derive(Clone, Copy)]
enum Subject {
    Call,
    Descriptor(u32),
    Ceiling(Name),
}

/// What FreeBSD does there, and what to write.
fn text_of(matter: Matter) -> &'static str {
    match matter {
        Matter::Differs(Difference::AbsolutePath) =>
            "outside the mode an absolute path is looked up from the root, with all rights; write open",
        Matter::Differs(Difference::WayOut) =>
            "outside the mode `..` and links lead out of a directory that isn't limited; write a limit before it",
        Matter::Differs(Difference::LastLink) =>
            "outside the mode a file is made where a last link leads, beneath a directory that isn't limited; write a limit before it",
        Matter::Differs(Difference::CommandsGone) =>
            "a descriptor without FCNTL has no command to keep; write this limit before that of rights, or none",
        Matter::Differs(Difference::NoNumberLeft) =>
            "all sixteen numbers may be open, and a process may have more; write a close before it",
        Matter::Differs(Difference::OneNumberLeft) =>
            "fifteen of the sixteen numbers may be open, and a process may have more; write a close before it",
        Matter::Differs(Difference::UnlistedLook) =>
            "LOOKUP reads the texts of links, and READ lists a directory; write look into the grant's ops",
        Matter::FailedClose =>
            "a close that fails may free the number; write an else that leads to a halt",
        Matter::NoSandbox =>
            "a kernel may have no capability mode; write an else that leads to a halt",
        Matter::TakesMore =>
            "has more rights or commands than a task can name; write a limit of both before it",
        Matter::StartsWithMore =>
            "starts with more rights or commands than a task can name; write rights and fcntls",
        Matter::Directory =>
            "is a directory: READ lists its names, and LOOKUP reads the texts of its links; write look into the grant's ops, or a limit before it",
        Matter::WidestCeiling =>
            "has all rights, more than a task can name; write limits before the mode is entered",
        Matter::PryingCeiling =>
            "has LOOKUP, which reads the texts of links; write look into the grant's ops",
    }
}

/// The part of docs/FREEBSD.md that says more.
#[tactic(auto, unfolding(crate::specs::Observed::difference_part, crate::specs::Observed::more_rights, crate::specs::Observed::beyond_its_calls))]
fn part_of(matter: Matter) -> &'static str
    ensures { result.now ≡ part_of matter }
{
    match matter {
        Matter::Differs(Difference::AbsolutePath) => "absolute-paths",
        Matter::Differs(Difference::WayOut) => "ways-out-of-a-directory",
        Matter::Differs(Difference::LastLink) => "a-last-link-that-is-created",
        Matter::Differs(Difference::CommandsGone) => "commands-without-fcntl",
        Matter::Differs(Difference::NoNumberLeft | Difference::OneNumberLeft) => "sixteen-numbers",
        Matter::Differs(Difference::UnlistedLook) | Matter::Directory | Matter::PryingCeiling =>
            "what-a-right-does-beyond-its-calls",
        Matter::FailedClose => "a-close-that-fails",
        Matter::NoSandbox => "no-sandbox-at-all",
        Matter::TakesMore | Matter::StartsWithMore | Matter::WidestCeiling =>
            "more-calls-and-rights",
    }
}

/// A warning in words.
fn words_of(alloc: Global, subject: Subject, matter: Matter) -> Page {
    let mut words = Page::new(alloc);
    match subject {
        Subject::Call => {}
        Subject::Descriptor(number) => say!(&mut words; "descriptor ", number, " "),
        Subject::Ceiling(grant) => say!(&mut words; "a ceiling on ", grant.as_bytes(), " "),
    }
    say!(&mut words; text_of(matter));
    words
}

/// Adds a warning at a point.
fn add(
    alloc: Global,
    list: &mut Vec<Observation>,
    point: usize,
    subject: Subject,
    matter: Matter,
) -> Result<(), AllocError>
    ensures { OnOk result (AddsObserved list.old.items list.new.items (headed_at point (part_of matter) ∷ [])) }
{
    let words = words_of(alloc, subject, matter);
    let points = vec![in alloc; point]?;
    add_observation(list, Topic::FreeBsd(part_of(matter)), words, points)
}

/// Adds a warning of a call, if it is so.
fn add_if(
    alloc: Global,
    list: &mut Vec<Observation>,
    point: usize,
    is_so: bool,
    matter: Matter,
) -> Result<(), AllocError>
    ensures { OnOk result (AddsObserved list.old.items list.new.items (headed_if is_so point (part_of matter))) }
{
    if !is_so {
        return Ok(());
    }
    add(alloc, list, point, Subject::Call, matter)
}

/// Adds by what a call is otherwise.
fn add_differences(
    alloc: Global,
    list: &mut Vec<Observation>,
    point: usize,
    differences: &[Difference],
) -> Result<(), AllocError>
    ensures { OnOk result (AddsObserved list.old.items list.new.items
        (map (λ d. headed_at point (difference_part d)) (map difference_of differences.now))) }
{
    match differences {
        [] => Ok(()),
        [first, rest @ ..] => {
            add(alloc, list, point, Subject::Call, Matter::Differs(*first))?;
            add_differences(alloc, list, point, rest)
        }
    }
}

/// Adds a warning of each of some numbers.
fn add_numbers(
    alloc: Global,
    list: &mut Vec<Observation>,
    point: usize,
    numbers: &[u32],
    matter: Matter,
) -> Result<(), AllocError>
    ensures { OnOk result (AddsObserved list.old.items list.new.items (each_at point (part_of matter) numbers.now)) }
{
    match numbers {
        [] => Ok(()),
        [first, rest @ ..] => {
            add(alloc, list, point, Subject::Descriptor(*first), matter)?;
            add_numbers(alloc, list, point, rest, matter)
        }
    }
}

/// Adds what is warned of at a point.
#[tactic(auto, unfolding(crate::specs::Observed::warned_there))]
fn add_point(
    alloc: Global,
    list: &mut Vec<Observation>,
    point: usize,
    warnings: &Warnings,
) -> Result<(), AllocError>
    ensures { OnOk result (AddsObserved list.old.items list.new.items (warned_there point (warned_of warnings.now))) }
{
    add_differences(alloc, list, point, &warnings.differences)?;
    add_if(
        alloc,
        list,
        point,
        warnings.failed_close,
        Matter::FailedClose,
    )?;
    add_if(alloc, list, point, warnings.no_sandbox, Matter::NoSandbox)?;
    add_numbers(alloc, list, point, &warnings.numbers, Matter::TakesMore)?;
    add_numbers(alloc, list, point, &warnings.directories, Matter::Directory)
}

/// Adds what is warned of at the points of a program.
fn add_points(
    alloc: Global,
    list: &mut Vec<Observation>,
    of_points: &[Warnings],
) -> Result<(), AllocError>
    ensures { OnOk result (AddsObserved list.old.items list.new.items (warned_from 0 (map warned_of of_points.now))) }
{
    for (point, warnings) in of_points.iter().enumerate() {
        add_point(alloc, list, point, warnings)?;
    }
    Ok(())
}

/// Adds a warning of each of some ceilings.
fn add_ceilings(
    alloc: Global,
    list: &mut Vec<Observation>,
    ceilings: &[Ceiling],
    matter: Matter,
) -> Result<(), AllocError>
    ensures { OnOk result (AddsObserved list.old.items list.new.items (each_at 0 (part_of matter) (map ceiling_of ceilings.now))) }
{
    match ceilings {
        [] => Ok(()),
        [first, rest @ ..] => {
            add(alloc, list, 0, Subject::Ceiling(*first.grant()), matter)?;
            add_ceilings(alloc, list, rest, matter)
        }
    }
}

/// Adds a warning of each of some first descriptors.
fn add_first(
    alloc: Global,
    list: &mut Vec<Observation>,
    descriptors: &[FirstDescriptor],
    matter: Matter,
) -> Result<(), AllocError>
    ensures { OnOk result (AddsObserved list.old.items list.new.items (each_at 0 (part_of matter) (map first_descriptor_of descriptors.now))) }
{
    match descriptors {
        [] => Ok(()),
        [first, rest @ ..] => {
            let number = u32::from(first.number);
            add(alloc, list, 0, Subject::Descriptor(number), matter)?;
            add_first(alloc, list, rest, matter)
        }
    }
}

/// Adds what is warned of a process that starts in the mode.
fn add_start(
    alloc: Global,
    list: &mut Vec<Observation>,
    task: &Task,
    start: &Start,
) -> Result<(), AllocError>
    ensures { OnOk result (AddsObserved list.old.items list.new.items (warned_at_start task.now (start_of start.now))) }
{
    let more = more_at_start(alloc, start)?;
    add_first(alloc, list, &more, Matter::StartsWithMore)?;
    let directories = directories_at_start(alloc, task, start)?;
    add_first(alloc, list, &directories, Matter::Directory)
}

/// Adds that of those of these processes that start in the mode with a program, by its number, if it is untrusted.
fn add_starts(
    alloc: Global,
    list: &mut Vec<Observation>,
    task: &Task,
    program: usize,
    untrusted: bool,
    starts: &[Start],
) -> Result<(), AllocError>
    ensures { OnOk result (AddsObserved list.old.items list.new.items
        (flat_map (warned_if_marked task.now program untrusted) (starts_of starts.now))) }
{
    match starts {
        [] => Ok(()),
        [first, rest @ ..] if untrusted && first.mode && usize::from(first.program) == program => {
            add_start(alloc, list, task, first)?;
            add_starts(alloc, list, task, program, untrusted, rest)
        }
        [_, rest @ ..] => add_starts(alloc, list, task, program, untrusted, rest),
    }
}

/// Adds what is warned of a program, by its number: its ceilings, and what its processes start with in the mode, if it is untrusted.
#[tactic(auto, unfolding(crate::specs::Observed::warned_of_whole))]
fn add_whole(
    alloc: Global,
    list: &mut Vec<Observation>,
    task: &Task,
    bounds: &Cert,
    program: usize,
    named: &NamedProgram,
) -> Result<(), AllocError>
    ensures { OnOk result (AddsObserved list.old.items list.new.items
        (warned_of_whole task.now bounds.now program (Some (program_of named.now)))) }
{
    let widest = widest_ceilings(alloc, bounds, &named.name)?;
    add_ceilings(alloc, list, &widest, Matter::WidestCeiling)?;
    let prying = prying_ceilings(alloc, task.grants(), bounds, &named.name)?;
    add_ceilings(alloc, list, &prying, Matter::PryingCeiling)?;
    add_starts(alloc, list, task, program, named.untrusted, task.starts())
}

/// Adds that of a program of a task, by its number alone.
#[tactic(auto, unfolding(crate::specs::Observed::warned_of_whole))]
fn add_whole_on(
    alloc: Global,
    list: &mut Vec<Observation>,
    task: &Task,
    bounds: &Cert,
    program: usize,
) -> Result<(), AllocError>
    ensures { OnOk result (AddsObserved list.old.items list.new.items
        (warned_of_whole task.now bounds.now program (slice_get task.now.programs program))) }
{
    match program_at(task, program) {
        None => Ok(()),
        Some(named) => add_whole(alloc, list, task, bounds, program, named),
    }
}

/// The warnings on a program of a task, by its number and by the bounds of a certificate in which all are written: at its points, of
/// its ceilings, and of what its processes start with in the mode, if it is untrusted. (own)
pub fn program_warnings(
    alloc: Global,
    task: &Task,
    bounds: &Cert,
    program: usize,
) -> Result<Vec<Observation>, AllocError>
    ensures { IfOk result (λ list. map headed list.items ≡ program_warned task.now bounds.now program) }
{
    let mut list = Vec::new(alloc);
    let of_points = warnings_on(alloc, task, bounds, program)?;
    add_points(alloc, &mut list, &of_points)?;
    add_whole_on(alloc, &mut list, task, bounds, program)?;
    Ok(list)
}
