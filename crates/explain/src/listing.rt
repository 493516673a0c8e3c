//! The listing of a task's programs: each point with its line, its instruction and its bound.

ghost use Rattle.std.specs.Prelude.{[], codes};
ghost use Rattle.explain.specs.Listing.{InOrder, Lists, TellsPoint, TellsProgram, TellsRemark, TellsWarning};
ghost use Rattle.explain.specs.ListingViews.{AddsSome};
ghost use Rattle.explain.specs.Observed.{program_observed, program_warned, task_observed};
ghost use Rattle.remarks.specs.Ways.{points};
ghost use Rattle.task.specs.Plans.{program_name, programs_of_plan};

use crate::observations::{add_remarks, add_warnings};
use crate::remarking::{program_remarks, task_remarks};
use crate::scenes::Scene;
use crate::warning::program_warnings;
use bitflags::Flags;
use certificate::{Bound, Cert, Slot, slots_within};
use checker::allowance_at;
use rights::Fcntls;
use task::NamedProgram;
use task_text::Written;
use texts::{Name, Page, ToldRights, say};

/// Whether the numbers of a bound may be the same as those of the one before, if there is one.
fn has_same_slots(bound: &Bound, before: &Option<Bound>) -> bool {
    match before {
        Some(before) => {
            slots_within(bound.slots(), before.slots())
                && slots_within(before.slots(), bound.slots())
        }
        None => false,
    }
}

/// Adds the numbers that may be open under a bound, each with what it is of and its greatest rights.
fn add_slots(page: &mut Page, wide: bool, bound: &Bound) {
    for (number, slot) in bound.slots().iter().enumerate() {
        let (held, state) = match slot {
            Slot::Closed => continue,
            Slot::Open(held) => (held, " "),
            Slot::Maybe(held) => (held, " maybe "),
        };
        let (greatest, commands) = (held.rights().greatest(), held.fcntls().greatest());
        let told = ToldRights {
            wide,
            rights: greatest,
        };
        say!(page; "    ", number, state, held.target(), " ", told);
        if !Flags::is_empty(&commands) && commands != Fcntls::all() {
            say!(page; ", commands ", commands)
        }
        say!(page; "\n")
    }
}

/// Adds what an untrusted program may hold in the mode: its authority.
fn add_authority(page: &mut Page, scene: &Scene<'_>, name: &Name) {
    let allowed = allowance_at(scene.cert, name, scene.task.further_rights());
    for ceiling in allowed.ceilings {
        let told = ToldRights {
            wide: allowed.wide,
            rights: ceiling.rights(),
        };
        say!(page; "  in the mode: grant ", ceiling.grant().as_bytes(), " ", told, "\n")
    }
    for end in allowed.ends {
        say!(page; "  in the mode: sock ", end.class(), " ", end.side(), "\n")
    }
}

/// Adds the mode of a point, or what is said where it has no bound.
fn add_mode(page: &mut Page, bound: &Option<Bound>, without_bound: &'static str) {
    match bound {
        Some(bound) => say!(page; " mode ", bound.mode()),
        None => say!(page; without_bound),
    }
}

/// Adds the numbers that may be open at a point, where they aren't those of the bound before.
fn add_new_slots(page: &mut Page, wide: bool, bound: &Option<Bound>, before: &Option<Bound>) {
    if let Some(bound) = bound {
        if !has_same_slots(bound, before) {
            add_slots(page, wide, bound)
        }
    }
}

/// Adds a point of a program with its bound, if it has one, and the lines of the numbers that may be open there.
fn add_point(
    page: &mut Page,
    written: Written<'_>,
    point: u8,
    bound: &Option<Bound>,
    without_bound: &'static str,
    numbers: &Page,
)
    ensures { AddsSome (TellsPoint point) page.old page.new }
{
    let mut mode = Page::new(page.alloc());
    add_mode(&mut mode, bound, without_bound);
    say!(page; "  ", point, " line ", written.line, &mode, ": ", written.text, "\n", numbers)
}

/// Adds the points of a program. The numbers of a table are told where they aren't those of the point before.
fn add_points(page: &mut Page, scene: &Scene<'_>, program: u8, without_bound: &'static str)
    ensures { AddsSome (InOrder TellsPoint (points (programs_of_plan scene.now.task.now program))) page.old page.new }
{
    let name = scene.task.program_name(program);
    let mut before: Option<Bound> = None;
    for (point, _instruction) in scene.code(program).iter().enumerate() {
        let bound = scene.cert.bound_at(name, point);
        let point = point as u8;
        let written = scene.written(program, point);
        let mut numbers = Page::new(page.alloc());
        add_new_slots(&mut numbers, scene.task.further_rights(), &bound, &before);
        add_point(page, written, point, &bound, without_bound, &numbers);
        if bound.is_some() {
            before = bound;
        }
    }
}

/// Adds the remarks on a program.
fn add_program_remarks(page: &mut Page, scene: &Scene<'_>, program: u8, has_cert: bool)
    ensures { AddsSome (InOrder (TellsRemark (codes "  ")) (program_observed scene.now.task.now scene.now.cert.now program has_cert)) page.old page.new }
{
    let remarks = program_remarks(page.alloc(), scene, usize::from(program), has_cert);
    let remarks = page.gathered(remarks);
    add_remarks(page, "  ", &remarks)
}

/// Adds the warnings on a program.
fn add_program_warnings(page: &mut Page, scene: &Scene<'_>, bounds: &Cert, program: u8)
    ensures { AddsSome (InOrder (TellsWarning (program_name scene.now.task.now program)) (program_warned scene.now.task.now bounds.now program)) page.old page.new }
{
    let warnings = program_warnings(page.alloc(), scene.task, bounds, usize::from(program));
    let warnings = page.gathered(warnings);
    add_warnings(page, scene, program, &warnings)
}

/// Adds the remarks on the task.
fn add_task_remarks(page: &mut Page, scene: &Scene<'_>, has_cert: bool)
    ensures { AddsSome (InOrder (TellsRemark []) (task_observed scene.now.task.now scene.now.cert.now has_cert)) page.old page.new }
{
    let remarks = task_remarks(page.alloc(), scene, has_cert);
    let remarks = page.gathered(remarks);
    add_remarks(page, "", &remarks)
}

/// What is said of a point without a bound.
fn said_without_bound(untrusted: bool, has_cert: bool) -> &'static str {
    match (has_cert, untrusted) {
        (false, _) => "",
        (true, false) => " not reached",
        (true, true) => " not reached outside the mode",
    }
}

/// Adds a program, by its number, with what is observed on it.
fn add_program(
    page: &mut Page,
    scene: &Scene<'_>,
    bounds: &Cert,
    number: u8,
    named: &NamedProgram,
    has_cert: bool,
)
    ensures { AddsSome (TellsProgram scene.now.task.now scene.now.cert.now bounds.now has_cert number) page.old page.new }
{
    let mut authority = Page::new(page.alloc());
    if named.untrusted && has_cert {
        add_authority(&mut authority, scene, &named.name)
    }
    say!(page; scene.task.program_name(number), "\n", &authority);
    add_points(
        page,
        scene,
        number,
        said_without_bound(named.untrusted, has_cert),
    );
    add_program_remarks(page, scene, number, has_cert);
    add_program_warnings(page, scene, bounds, number)
}

/// Adds each program with its remarks; the bounds are those of the certificate, if there is one. Warnings go by the bounds of another
/// certificate.
pub fn add_listing(page: &mut Page, scene: &Scene<'_>, bounds: &Cert, has_cert: bool)
    ensures { AddsSome (Lists scene.now.task.now scene.now.cert.now bounds.now has_cert) page.old page.new }
{
    for (number, named) in scene.task.programs().iter().enumerate() {
        add_program(page, scene, bounds, number as u8, named, has_cert);
    }
    add_task_remarks(page, scene, has_cert)
}
