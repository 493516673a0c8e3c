//! How remarks are told.

ghost use Rattle.std.specs.Prelude.{◌≡◌, [], if◌then◌else◌, IfOk, OnOk, Some, codes, map};
ghost use Rattle.std.specs.List.{flat_map, slice_get};
ghost use Rattle.explain.specs.Observed.{beyond_by, beyond_on, headed_remark, headed_task_remark, program_observed, remark_name, remark_points};
ghost use Rattle.explain.specs.Observed.{task_observed, task_remark_name, unused_on, headed_where_any};
ghost use Rattle.explain.specs.ObservedViews.{AddsObserved, headed};
ghost use Rattle.explain.specs.TopicViews.{topic_name};
ghost use Rattle.instruction_set.specs.Views.{code_of};
ghost use Rattle.remarks.specs.Listed.{numbers};
ghost use Rattle.remarks.specs.RemarkViews.{bounds_of, remark_of, remarked_of, task_remark_of};
ghost use Rattle.rights.specs.Views.{operation_of};
ghost use Rattle.task.specs.Views.{grants_of, program_of};

use crate::observations::{Observation, add_observation, add_points, program_at};
use crate::scenes::Scene;
use crate::topics::Topic;
use certificate::{Bound, Cert};
use instruction_set::Instruction;
use remarks::unneeded::unneeded;
use remarks::{
    Remark, Remarked, TaskRemark, beyond_at_all, bounds_on, points_beyond, remarks_on,
    remarks_on_task,
};
use rights::Op;
use rights::limits::MAX_DESCRIPTORS;
use std::alloc::{AllocError, Global};
use task::{Grant, NamedProgram, Task};
use texts::{Page, ToldRights, say};

/// What a remark is about.
fn topic_of(remark: &Remark) -> Topic
    ensures { topic_name result ≡ remark_name (remark_of remark.now) }
{
    match remark {
        Remark::NeverEnters => Topic::NeverEnters,
        Remark::Untrusted => Topic::Untrusted,
        Remark::Unreached { .. } => Topic::Unreached,
        Remark::Unsettled { .. } => Topic::ModeSkipped,
        Remark::Stray { .. } => Topic::InNoGrant,
        Remark::Idle { .. } => Topic::NeverNamed,
        Remark::Rights { .. } => Topic::RightsUnused,
        Remark::Commands { .. } => Topic::CommandsUnused,
        Remark::BothEnds { .. } => Topic::BothEnds,
        Remark::NeverOpen { .. } => Topic::NeverOpen,
    }
}

/// Adds what is remarked on a program of this name.
fn add_text(page: &mut Page, wide: bool, name: &[u8], remark: &Remark) {
    match remark {
        Remark::NeverEnters => {
            say!(page; name, " never enters the mode, and a yes does not bound what it does to the tree")
        }
        Remark::Untrusted => {
            say!(page; "in the mode ", name, " may do anything with what its authority has, and its points bound it outside the mode alone")
        }
        Remark::Unreached { outside_alone } => {
            say!(page; "nothing arrives", if *outside_alone { " outside the mode" } else { "" })
        }
        Remark::Unsettled { .. } => say!(page; "a process may be in the mode or outside it"),
        Remark::Stray { number } => {
            say!(page; "descriptor ", *number, " may hold what lies in no grant, and the report has no line of it, in the mode")
        }
        Remark::Idle { number } => {
            say!(page; "descriptor ", *number, " is held in the mode and never named from there on, so it can be closed")
        }
        Remark::Rights { number, most } => {
            let told = ToldRights {
                wide,
                rights: *most,
            };
            say!(page; "descriptor ", *number, " could be limited to ", told, ", since no call from there on can use its other rights, in the mode")
        }
        Remark::Commands { number, most } => {
            say!(page; "descriptor ", *number, " could be limited to the commands ", *most, ", since no call from there on can use its others, in the mode")
        }
        Remark::BothEnds { number, other } => {
            say!(page; "one process holds both ends of a pair, descriptors ", *number, " and ", *other, ", from there on")
        }
        Remark::NeverOpen { number } => {
            say!(page; "descriptor ", *number, " is never open where the instruction names it")
        }
    }
}

/// The points at which a remark is told. That a program is untrusted is said of it as a whole.
fn points_told(alloc: Global, remarked: &Remarked) -> Result<Vec<usize>, AllocError>
    ensures { IfOk result (λ points. points.items ≡ remark_points (remark_of remarked.now.remark) remarked.now.points.items) }
{
    match &remarked.remark {
        Remark::Untrusted => Ok(Vec::new(alloc)),
        _ => remarked.points.clone(),
    }
}

/// Adds what is said of a remark behind its points: from where cap_enter is skipped.
fn add_more(page: &mut Page, remark: &Remark) {
    match remark {
        Remark::Unsettled { from } if !from.is_empty() => {
            say!(page; ": cap_enter is skipped from ");
            add_points(page, from)
        }
        _ => {}
    }
}

/// A remark in words.
fn told(
    alloc: Global,
    wide: bool,
    name: &[u8],
    remarked: &Remarked,
) -> Result<Observation, AllocError>
    ensures { IfOk result (λ told. headed told ≡ headed_remark (remarked_of remarked.now)) }
{
    let (mut words, mut more) = (Page::new(alloc), Page::new(alloc));
    add_text(&mut words, wide, name, &remarked.remark);
    add_more(&mut more, &remarked.remark);
    Ok(Observation {
        topic: topic_of(&remarked.remark),
        words,
        points: points_told(alloc, remarked)?,
        more,
    })
}

/// Adds remarks on a program of this name.
fn add_told(
    alloc: Global,
    list: &mut Vec<Observation>,
    wide: bool,
    name: &[u8],
    remarks: &[Remarked],
) -> Result<(), AllocError>
    ensures { OnOk result (AddsObserved list.old.items list.new.items (map headed_remark (map remarked_of remarks.now))) }
{
    match remarks {
        [] => Ok(()),
        [first, rest @ ..] => {
            list.push(told(alloc, wide, name, first)?)?;
            add_told(alloc, list, wide, name, rest)
        }
    }
}

/// Which rights a number has beyond the policy, in words.
fn beyond_words(alloc: Global, number: u32, rights: ToldRights) -> Page {
    let mut words = Page::new(alloc);
    say!(&mut words; "descriptor ", number, " has rights beyond what its grant lists, ", rights, ", in the mode");
    words
}

/// Adds that a number has these rights beyond the policy, if there are points where it has.
fn add_rights(
    alloc: Global,
    list: &mut Vec<Observation>,
    number: u32,
    rights: ToldRights,
    points: Vec<usize>,
) -> Result<(), AllocError>
    ensures { OnOk result (AddsObserved list.old.items list.new.items (headed_where_any (codes "beyond-the-policy") points.items)) }
{
    if points.is_empty() {
        return Ok(());
    }
    let words = beyond_words(alloc, number, rights);
    add_observation(list, Topic::BeyondPolicy, words, points)
}

/// Adds which rights a number has beyond the policy at points in the mode.
#[tactic(auto, unfolding(crate::specs::Observed::beyond_by))]
fn add_beyond(
    alloc: Global,
    list: &mut Vec<Observation>,
    wide: bool,
    grants: &[Grant],
    code: &[Instruction],
    bounds: &[Option<Bound>],
    number: u32,
) -> Result<(), AllocError>
    ensures { OnOk result (AddsObserved list.old.items list.new.items
        (beyond_by wide (grants_of grants.now) (code_of code.now) (bounds_of bounds.now) number)) }
{
    let points = points_beyond(alloc, wide, grants, code, bounds, number)?;
    let rights = beyond_at_all(wide, grants, code, bounds, number, &points);
    add_rights(alloc, list, number, ToldRights { wide, rights }, points)
}

/// Adds that of all numbers.
fn add_all_beyond(
    alloc: Global,
    list: &mut Vec<Observation>,
    wide: bool,
    grants: &[Grant],
    code: &[Instruction],
    bounds: &[Option<Bound>],
) -> Result<(), AllocError>
    ensures { OnOk result (AddsObserved list.old.items list.new.items
        (flat_map (beyond_by wide (grants_of grants.now) (code_of code.now) (bounds_of bounds.now)) numbers)) }
{
    for number in 0..MAX_DESCRIPTORS as u32 {
        add_beyond(alloc, list, wide, grants, code, bounds, number)?;
    }
    Ok(())
}

/// Adds that of a program.
#[tactic(auto, unfolding(crate::specs::Observed::beyond_on))]
fn add_beyond_of(
    alloc: Global,
    list: &mut Vec<Observation>,
    scene: &Scene<'_>,
    named: &NamedProgram,
) -> Result<(), AllocError>
    ensures { OnOk result (AddsObserved list.old.items list.new.items
        (beyond_on scene.now.task.now scene.now.cert.now (Some (program_of named.now)))) }
{
    let bounds = bounds_on(alloc, scene.cert, named)?;
    let (wide, grants) = (scene.task.further_rights(), scene.task.grants());
    add_all_beyond(alloc, list, wide, grants, named.program.code(), &bounds)
}

/// Adds that of a program of the task, by its number, if there is a certificate.
#[tactic(auto, unfolding(crate::specs::Observed::beyond_on))]
fn add_beyond_on(
    alloc: Global,
    list: &mut Vec<Observation>,
    scene: &Scene<'_>,
    program: usize,
    has_cert: bool,
) -> Result<(), AllocError>
    ensures { OnOk result (AddsObserved list.old.items list.new.items
        (if has_cert then beyond_on scene.now.task.now scene.now.cert.now (slice_get scene.now.task.now.programs program) else [])) }
{
    match program_at(scene.task, program) {
        Some(named) if has_cert => add_beyond_of(alloc, list, scene, named),
        _ => Ok(()),
    }
}

/// The name of a program of a task, by its number.
fn name_of(task: &Task, program: usize) -> &[u8] {
    match program_at(task, program) {
        None => b"",
        Some(named) => named.name.as_bytes(),
    }
}

/// The remarks on a program of a task, by its number: with the bounds of the certificate, if there is one. (own)
pub fn program_remarks(
    alloc: Global,
    scene: &Scene<'_>,
    program: usize,
    has_cert: bool,
) -> Result<Vec<Observation>, AllocError>
    ensures { IfOk result (λ list. map headed list.items ≡ program_observed scene.now.task.now scene.now.cert.now program has_cert) }
{
    let mut list = Vec::new(alloc);
    let remarks = remarks_on(alloc, scene.task, scene.cert, program, has_cert)?;
    let (wide, name) = (scene.task.further_rights(), name_of(scene.task, program));
    add_told(alloc, &mut list, wide, name, &remarks)?;
    add_beyond_on(alloc, &mut list, scene, program, has_cert)?;
    Ok(list)
}

/// Whether some untrusted program may hold what lies in a grant.
fn has_ceiling(cert: &Cert, grant: &Grant) -> bool {
    for authority in cert.authorities() {
        for ceiling in authority.ceilings() {
            if ceiling.grant().as_bytes() == grant.name.as_bytes() {
                return true;
            }
        }
    }
    false
}

/// That nothing needs an operation that a grant lists, in words.
fn unused_words(alloc: Global, cert: &Cert, grant: &Grant, operation: Op) -> Page {
    let mut words = Page::new(alloc);
    say!(&mut words; "the grant ", grant.name.as_bytes(), " lists ", operation);
    say!(&mut words; ", which no call does there in the mode");
    if has_ceiling(cert, grant) {
        say!(&mut words; ", and for which no ceiling has a right");
    }
    words
}

/// Adds that nothing needs these operations, which a grant lists.
fn add_operations(
    alloc: Global,
    list: &mut Vec<Observation>,
    cert: &Cert,
    grant: &Grant,
    operations: &[Op],
) -> Result<(), AllocError>
    ensures { OnOk result (AddsObserved list.old.items list.new.items
        (map (λ operation. (codes "operation-unused", [])) (map operation_of operations.now))) }
{
    match operations {
        [] => Ok(()),
        [first, rest @ ..] => {
            let (words, points) = (unused_words(alloc, cert, grant, *first), Vec::new(alloc));
            add_observation(list, Topic::OperationUnused, words, points)?;
            add_operations(alloc, list, cert, grant, rest)
        }
    }
}

/// Adds which operations these grants list that nothing needs.
#[tactic(auto, unfolding(crate::specs::Observed::unused_on))]
fn add_unneeded(
    alloc: Global,
    list: &mut Vec<Observation>,
    scene: &Scene<'_>,
    grants: &[Grant],
) -> Result<(), AllocError>
    ensures { OnOk result (AddsObserved list.old.items list.new.items
        (flat_map (unused_on scene.now.task.now scene.now.cert.now) (grants_of grants.now))) }
{
    match grants {
        [] => Ok(()),
        [first, rest @ ..] => {
            let operations = unneeded(alloc, scene.task, scene.cert, first)?;
            add_operations(alloc, list, scene.cert, first, &operations)?;
            add_unneeded(alloc, list, scene, rest)
        }
    }
}

/// Adds that of all grants, if there is a certificate.
fn add_by_bounds(
    alloc: Global,
    list: &mut Vec<Observation>,
    scene: &Scene<'_>,
    has_cert: bool,
) -> Result<(), AllocError>
    ensures { OnOk result (AddsObserved list.old.items list.new.items
        (if has_cert then flat_map (unused_on scene.now.task.now scene.now.cert.now) scene.now.task.now.grants else [])) }
{
    if !has_cert {
        return Ok(());
    }
    add_unneeded(alloc, list, scene, scene.task.grants())
}

/// What a remark on a task is about.
fn topic_of_task(remark: TaskRemark<'_>) -> Topic
    ensures { topic_name result ≡ task_remark_name (task_remark_of remark.entry) }
{
    match remark {
        TaskRemark::Alone { .. } => Topic::LoneEnd,
        TaskRemark::Boundless { .. } => Topic::WholeTree,
    }
}

/// A remark on a task in words.
fn task_words(alloc: Global, remark: TaskRemark<'_>) -> Page {
    let mut words = Page::new(alloc);
    let page = &mut words;
    match remark {
        TaskRemark::Alone { pair, side } => {
            say!(page; "no process has side ", side.other(), " of pair ", pair, ", so it is closed: a read of side ", side);
            say!(page; " meets its end, and a write fails")
        }
        TaskRemark::Boundless { grant } => {
            say!(page; "the grant ", grant.name.as_bytes(), " holds the whole tree")
        }
    }
    words
}

/// Adds remarks on a task.
fn add_told_of_task(
    alloc: Global,
    list: &mut Vec<Observation>,
    remarks: &[TaskRemark<'_>],
) -> Result<(), AllocError>
    ensures { OnOk result (AddsObserved list.old.items list.new.items (map headed_task_remark (map task_remark_of remarks.now))) }
{
    match remarks {
        [] => Ok(()),
        [first, rest @ ..] => {
            let (words, points) = (task_words(alloc, *first), Vec::new(alloc));
            add_observation(list, topic_of_task(*first), words, points)?;
            add_told_of_task(alloc, list, rest)
        }
    }
}

/// The remarks on a task as a whole: with the bounds of the certificate, if there is one. (own)
pub fn task_remarks(
    alloc: Global,
    scene: &Scene<'_>,
    has_cert: bool,
) -> Result<Vec<Observation>, AllocError>
    ensures { IfOk result (λ list. map headed list.items ≡ task_observed scene.now.task.now scene.now.cert.now has_cert) }
{
    let mut list = Vec::new(alloc);
    let remarks = remarks_on_task(alloc, scene.task)?;
    add_told_of_task(alloc, &mut list, &remarks)?;
    add_by_bounds(alloc, &mut list, scene, has_cert)?;
    Ok(list)
}
