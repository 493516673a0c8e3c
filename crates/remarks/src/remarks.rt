//! Remarks on a program: what a yes doesn't say of it, and what could be narrower, as values.

ghost use Rattle.std.specs.Prelude.{◌≡◌, IfOk, OnOk, map, option_map};
ghost use Rattle.certificate.specs.Bounds.{bound_at};
ghost use Rattle.instruction_set.specs.Views.{code_of};
ghost use Rattle.remarks.specs.Listed.{at_point, on_code, remarks_on, where_any};
ghost use Rattle.remarks.specs.RemarkViews.{AddsRemarks, bounds_of, remark_of, remarked_of};
ghost use Rattle.remarks.specs.Warnings.{bounds_in};
ghost use Rattle.remarks.specs.Ways.{points};
ghost use Rattle.task.specs.Views.{program_of, starts_of};

use crate::bounded::Bounded;
use crate::ways::count;
use certificate::{Bound, Cert};
use instruction_set::Instruction;
use rights::{Fcntls, Rights};
use std::alloc::{AllocError, Global};
use task::{NamedProgram, Start, Task};

/// What is remarked.
#[derive(Drop)]
pub enum Remark {
    /// No process of the program enters the mode.
    NeverEnters,
    /// In the mode it may do anything with what its authority has.
    Untrusted,
    /// Nothing arrives there, or nothing outside the mode.
    Unreached { outside_alone: bool },
    /// A process may be there in the mode or outside it: from these points a way skips the entering.
    Unsettled { from: Vec<usize> },
    /// In the mode the number may hold what lies in no grant.
    Stray { number: u32 },
    /// In the mode a way begins there with the number open, and no instruction from there on names it.
    Idle { number: u32 },
    /// The number has rights there that no call from there on can use.
    Rights { number: u32, most: Rights },
    /// It has fcntl commands there that none can use.
    Commands { number: u32, most: Fcntls },
    /// Both numbers may be ends of one pair there, and stay open.
    BothEnds { number: u32, other: u32 },
    /// The number is never open where the instruction names it.
    NeverOpen { number: u32 },
}

/// A remark, and the points at which it holds.
#[derive(Drop)]
pub struct Remarked {
    pub remark: Remark,
    pub points: Vec<usize>,
}

/// A program, with the bounds that a certificate gives its points.
pub(crate) fn with_bounds<'a>(
    alloc: Global,
    cert: &Cert,
    program: &'a NamedProgram,
) -> Result<Bounded<'a>, AllocError>
    ensures code { IfOk result (λ bounded. code_of bounded.code.now ≡ (program_of program.now).code) }
    ensures bounds { IfOk result (λ bounded. bounds_of bounded.bounds.items ≡ bounds_in cert.now (program_of program.now)) }
    ensures marked { IfOk result (λ bounded. bounded.untrusted ≡ (program_of program.now).marked) }
    ensures name { IfOk result (λ bounded. bounded.name.now ≡ (program_of program.now).name) }
{
    let (name, code) = (program.name.as_bytes(), program.program.code());
    Ok(Bounded {
        name,
        code,
        untrusted: program.untrusted,
        bounds: bounds_of(alloc, cert, name, code)?,
    })
}

/// The bounds that a certificate, in which all are written, gives the points of a program, if they have any.
pub fn bounds_on(
    alloc: Global,
    cert: &Cert,
    named: &NamedProgram,
) -> Result<Vec<Option<Bound>>, AllocError>
    ensures { IfOk result (λ found. bounds_of found.items ≡ bounds_in cert.now (program_of named.now)) }
{
    bounds_of(alloc, cert, named.name.as_bytes(), named.program.code())
}

/// The bounds that a certificate gives the points of the program of a name, if they have any.
fn bounds_of(
    alloc: Global,
    cert: &Cert,
    name: &[u8],
    code: &[Instruction],
) -> Result<Vec<Option<Bound>>, AllocError>
    ensures { IfOk result (λ found. bounds_of found.items ≡ map (bound_at cert.now name.now) (points (code_of code.now))) }
{
    let mut bounds = Vec::new(alloc);
    for point in 0..count(code) {
        bounds.push(cert.bound_at(name, point))?;
    }
    Ok(bounds)
}

/// Adds a remark, if there are points at which it holds.
pub(crate) fn add(
    list: &mut Vec<Remarked>,
    remark: Remark,
    points: Vec<usize>,
) -> Result<(), AllocError>
    ensures { OnOk result (AddsRemarks list.old.items list.new.items (where_any (remark_of remark) points.items)) }
{
    if !points.is_empty() {
        list.push(Remarked { remark, points })?;
    }
    Ok(())
}

/// Adds a remark that holds at one point.
pub(crate) fn add_at(
    alloc: Global,
    list: &mut Vec<Remarked>,
    remark: Remark,
    point: usize,
) -> Result<(), AllocError>
    ensures { OnOk result (AddsRemarks list.old.items list.new.items (at_point (remark_of remark) point)) }
{
    let points = vec![in alloc; point]?;
    list.push(Remarked { remark, points })?;
    Ok(())
}

/// The remarks on a program, which has this number.
fn remarks_of(
    alloc: Global,
    cert: &Cert,
    named: &NamedProgram,
    starts: &[Start],
    program: usize,
    has_cert: bool,
) -> Result<Vec<Remarked>, AllocError>
    ensures { IfOk result (λ found. map remarked_of found.items
        ≡ on_code (starts_of starts.now) program (program_of named.now).code (bounds_in cert.now (program_of named.now)) has_cert (program_of named.now).marked) }
{
    let bounded = with_bounds(alloc, cert, named)?;
    let mut list = Vec::new(alloc);
    bounded.add_all(alloc, &mut list, starts, program, has_cert)?;
    Ok(list)
}

/// The remarks on a program of a task, by its number: with the bounds of a certificate in which all are written, if there is one. (own)
#[tactic(auto, unfolding(crate::specs::Listed::on_program))]
pub fn remarks_on(
    alloc: Global,
    task: &Task,
    cert: &Cert,
    program: usize,
    has_cert: bool,
) -> Result<Vec<Remarked>, AllocError>
    ensures { IfOk result (λ found. map remarked_of found.items ≡ remarks_on task.now cert.now program has_cert) }
{
    match task.programs().get(program) {
        None => Ok(Vec::new(alloc)),
        Some(named) => remarks_of(alloc, cert, named, task.starts(), program, has_cert),
    }
}
