//! What an accepted certificate says of the task's grants.

ghost use Rattle.std.specs.Prelude.{◌≡◌, ◌++◌, ◌<◌, ◌-◌, ◌^◌, IsErrOf, OnOk, codes, map, option_map};
ghost use Rattle.certificate.specs.Bounds.{bound_at, held_in};
ghost use Rattle.certificate.specs.Views.{bound_of, slot_of};
ghost use Rattle.certificate_text.specs.Pieces.{in_order};
ghost use Rattle.certificate_text.specs.WritingViews.{Writes};
ghost use Rattle.checker.specs.Views.{verdict_of};
ghost use Rattle.rights.specs.Output.{Took, TookFront};
ghost use Rattle.commands.specs.ReportViews.{row_seen};
ghost use Rattle.commands.specs.Reports.{answer_text, ceiling_lines, either_set, grant_line, greatest_in, own_names, point_text, point_lines, program_lines, report_text, rights_there, rights_text};
ghost use Rattle.rules.specs.Expansions.{expansion};
ghost use Rattle.task.specs.Views.{grants_of, program_of};

use crate::judging::write_verdict;
use bitflags::{Flag, Flags};
use certificate::{Bound, Cert, Slot, Target};
use checker::{Verdict, ceiling_at, expand, is_expanded};
use console::{write_bytes, write_pieces};
use rights::limits::RIGHTS;
use rights::{Out, Rights, Stop};
use std::alloc::Global;
use task::{Grant, NamedProgram, Task};
use text_checker::Checked;
use texts::Decimal;

/// The greatest rights of a slot that may be open in the grant of this name.
fn greatest_in(slot: &Slot, grant: &[u8]) -> Option<Rights>
    ensures { option_map (λ rights. rights.0) result ≡ greatest_in grant.now (held_in (slot_of slot.now)) }
{
    let held = slot.held()?;
    match held.target() {
        Target::InGrant(name) => {
            if name.as_bytes() == grant {
                return Some(held.rights().greatest());
            }
            None
        }
        Target::AnyNode | Target::Socket(..) | Target::Unknown => None,
    }
}

/// The rights in either of two sets, of which either may be missing.
fn either_set(first: Option<Rights>, second: Option<Rights>) -> Option<Rights>
    ensures { option_map (λ rights. rights.0) result
        ≡ either_set (option_map (λ rights. rights.0) first) (option_map (λ rights. rights.0) second) }
{
    match (first, second) {
        (None, second) => second,
        (Some(first), None) => Some(first),
        (Some(first), Some(second)) => Some(first.union(second)),
    }
}

/// The greatest rights of all slots that may be open in the grant of this name.
fn rights_in(slots: &[Slot], grant: &[u8]) -> Option<Rights>
    ensures { option_map (λ rights. rights.0) result ≡ rights_there grant.now (map slot_of slots.now) }
{
    match slots {
        [] => None,
        [slot, rest @ ..] => either_set(greatest_in(slot, grant), rights_in(rest, grant)),
    }
}

/// The rights, without their other names.
fn named_rights() -> &'static [Flag<Rights>]
    ensures { map row_seen result.now ≡ own_names }
{
    &Rights::flags()[..RIGHTS]
}

/// Writes a set of rights.
fn write_rights<W: Out>(out: &mut W, set: Rights) -> Result<(), Stop>
    requires { W.faults out.old < 2 ^ 64 - 1 }
    ensures { Writes result (W.taken out.old) (W.taken out.new) (W.faults out.old) (W.faults out.new)
        (rights_text set.0) }
{
    if set.bits() == 0 {
        return write_bytes(out, b"none");
    }
    let mut separator: &[u8] = b"";
    for right in named_rights() {
        if set.contains(right.value) {
            write_pieces(out, &[separator, right.name.as_bytes()])?;
            separator = b",";
        }
    }
    Ok(())
}

/// Writes a line: a program, a point or a sign for all that it does, a grant, and the rights there.
fn write_line<W: Out>(
    out: &mut W,
    program: &[u8],
    point: &[u8],
    grant: &[u8],
    set: Rights,
) -> Result<(), Stop>
    requires { W.faults out.old < 2 ^ 64 - 1 }
    ensures { Writes result (W.taken out.old) (W.taken out.new) (W.faults out.old) (W.faults out.new)
        (point_text program.now point.now grant.now ++ rights_text set.0 ++ codes "\n") }
{
    write_pieces(out, &[program, b":", point, b" ", grant, b" "])?;
    write_rights(out, set)?;
    write_bytes(out, b"\n")
}

/// Writes the lines of a point with a bound: one for each grant in which a slot may be open there.
fn write_bound<W: Out>(
    out: &mut W,
    wide: bool,
    grants: &[Grant],
    program: &[u8],
    point: u32,
    bound: &Bound,
) -> Result<(), Stop>
    requires { W.faults out.old < 2 ^ 64 - 1 }
    ensures { Writes result (W.taken out.old) (W.taken out.new) (W.faults out.old) (W.faults out.new)
        (in_order (λ n g. grant_line wide program.now point g.name (rights_there g.name (bound_of bound.now).slots)) 0 (grants_of grants.now)) }
{
    for grant in grants {
        let name = grant.name.as_bytes();
        if let Some(set) = rights_in(bound.slots(), name) {
            let shown = set.asked(wide);
            write_line(out, program, Decimal::new(point).as_bytes(), name, shown)?;
        }
    }
    Ok(())
}

/// Writes the lines of the points of a program that have a bound.
fn write_points<W: Out>(
    out: &mut W,
    wide: bool,
    grants: &[Grant],
    cert: &Cert,
    program: &NamedProgram,
) -> Result<(), Stop>
    requires { W.faults out.old < 2 ^ 64 - 1 }
    ensures { Writes result (W.taken out.old) (W.taken out.new) (W.faults out.old) (W.faults out.new)
        (in_order (λ point i. point_lines wide (grants_of grants.now) (program_of program.now).name point (bound_at cert.now (program_of program.now).name point)) 0 (program_of program.now).code) }
{
    let name = program.name.as_bytes();
    for (point, _) in program.program.code().iter().enumerate() {
        if let Some(bound) = cert.bound_at(name, point) {
            write_bound(out, wide, grants, name, point as u32, &bound)?;
        }
    }
    Ok(())
}

/// Writes the lines of a marked program's authority: one for each grant where it may have anything.
fn write_ceilings<W: Out>(
    out: &mut W,
    wide: bool,
    grants: &[Grant],
    cert: &Cert,
    program: &[u8],
) -> Result<(), Stop>
    requires { W.faults out.old < 2 ^ 64 - 1 }
    ensures { Writes result (W.taken out.old) (W.taken out.new) (W.faults out.old) (W.faults out.new)
        (ceiling_lines wide (grants_of grants.now) cert.now program.now) }
{
    for grant in grants {
        let name = grant.name.as_bytes();
        let set = ceiling_at(cert, program, name);
        if set.bits() != 0 {
            let shown = set.asked(wide);
            write_line(out, program, b"*", name, shown)?;
        }
    }
    Ok(())
}

/// Writes the lines of a program.
fn write_program<W: Out>(
    out: &mut W,
    wide: bool,
    grants: &[Grant],
    cert: &Cert,
    program: &NamedProgram,
) -> Result<(), Stop>
    requires { W.faults out.old < 2 ^ 64 - 1 }
    ensures { Writes result (W.taken out.old) (W.taken out.new) (W.faults out.old) (W.faults out.new)
        (program_lines wide (grants_of grants.now) cert.now (program_of program.now)) }
{
    write_points(out, wide, grants, cert, program)?;
    if !program.untrusted {
        return Ok(());
    }
    write_ceilings(out, wide, grants, cert, program.name.as_bytes())
}

/// Writes the report of a task and a certificate in which all bounds are written.
fn write_report<W: Out>(task: &Task, cert: &Cert, out: &mut W) -> Result<(), Stop>
    requires { W.faults out.old < 2 ^ 64 - 1 }
    ensures { Writes result (W.taken out.old) (W.taken out.new) (W.faults out.old) (W.faults out.new)
        (report_text task.now cert.now) }
{
    let wide = task.further_rights();
    let grants = task.grants();
    for program in task.programs() {
        write_program(out, wide, grants, cert, program)?;
    }
    Ok(())
}

/// Writes the report of a task and a certificate: for each point of the task's programs that has a bound, given or carried, by
/// the place of the program in the task, and for each grant of the task in which some slot may be open, the greatest rights of
/// those slots; and behind the points of a marked program the rights that it may have in each grant whatever it does. Its errors are
/// `Device`, after a failure of the writer, which then has taken a beginning of that, and `Memory`, before anything is written. (own)
pub fn report<W: Out>(alloc: Global, task: &Task, cert: &Cert, out: &mut W) -> Result<(), Stop>
    requires { W.faults out.old < 2 ^ 64 - 1 }
    ensures written { OnOk result (Took (W.taken out.old) (W.taken out.new) (report_text task.now (expansion task.now cert.now))) }
    ensures device { IsErrOf result Stop.Device → W.faults out.old < W.faults out.new }
    ensures begun { IsErrOf result Stop.Device → TookFront (W.taken out.old) (W.taken out.new) (report_text task.now (expansion task.now cert.now)) }
    ensures memory { IsErrOf result Stop.Memory → W.taken out.new ≡ W.taken out.old }
    ensures not_spent { IsErrOf result Stop.Spent → ⊥ }
{
    if is_expanded(task, cert) {
        return write_report(task, cert, out);
    }
    let expanded = expand(alloc, task, cert)?;
    write_report(task, &expanded, out)
}

/// Writes the report of what was checked, where it is accepted, or else the line of the verdict. Its errors are `Device`, after a
/// failure of the writer, which then has taken a beginning of that, and `Memory`, before anything is written. (own)
pub fn write_answer<W: Out>(alloc: Global, checked: &Checked, out: &mut W) -> Result<(), Stop>
    requires { W.faults out.old < 2 ^ 64 - 1 }
    ensures written { OnOk result (Took (W.taken out.old) (W.taken out.new)
        (answer_text checked.now.claim.task checked.now.claim.cert (verdict_of checked.now.verdict))) }
    ensures device { IsErrOf result Stop.Device → W.faults out.old < W.faults out.new }
    ensures begun { IsErrOf result Stop.Device → TookFront (W.taken out.old) (W.taken out.new)
        (answer_text checked.now.claim.task checked.now.claim.cert (verdict_of checked.now.verdict)) }
    ensures memory { IsErrOf result Stop.Memory → W.taken out.new ≡ W.taken out.old }
    ensures not_spent { IsErrOf result Stop.Spent → ⊥ }
{
    let claim = &checked.claim;
    match checked.verdict {
        Verdict::Yes => report(alloc, &claim.task, &claim.cert, out),
        Verdict::No { .. } => write_verdict(alloc, &claim.task, checked.verdict, out),
    }
}
