//! Where FreeBSD does otherwise than the model, at the points of a program that it matters to. (docs/FREEBSD.md)

ghost use Rattle.std.specs.Prelude.{◌≡◌, ◌&&◌, ◌||◌, ◌==◌, IfOk, Some, filter, map};
ghost use Rattle.std.specs.List.{range_with_len, slice_get};
ghost use Rattle.certificate.specs.Views.{authorities_of, bound_of, ceiling_of, held_of};
ghost use Rattle.instruction_set.specs.Views.{code_of, instruction_of, syscall_of};
ghost use Rattle.remarks.specs.RemarkViews.{bounds_of, difference_of, warned_of};
ghost use Rattle.remarks.specs.Remarks.{is_there};
ghost use Rattle.remarks.specs.Warnings.{calls_ahead, differences, differs, differs_at, goes_on_closing, goes_on_entering, has_more, is_call};
ghost use Rattle.remarks.specs.Warnings.{looks_beyond, prying, starts_with_more, takes_more_at, warned_at, warned_in, widest};
ghost use Rattle.remarks.specs.Ways.{points};
ghost use Rattle.rights.specs.Limits.{most_descriptors};
ghost use Rattle.rules.specs.Authority.{authority_in};
ghost use Rattle.task.specs.Views.{first_descriptor_of, grants_of, program_of};
ghost use Rattle.texts.specs.Views.{name_of};

use crate::bounded::Bounded;
use crate::looks::{
    goes_out, limits_nothing, looks_unlisted, makes_beyond, passes_by, takes_beyond,
    takes_one_beyond,
};
use crate::point_test::PointTest;
use crate::remarks::with_bounds;
use crate::ways::{count, from_which, is_flagged};
use call_facts::{concerns_mode, frees};
use certificate::{Authority, Bound, Ceiling, Cert, Held};
use instruction_set::{Instruction, Syscall};
use rights::limits::MAX_DESCRIPTORS;
use rights::{Fcntls, Op, Rights};
use std::alloc::{AllocError, Global};
use task::{FirstDescriptor, Grant, NamedProgram, Start, Task, grant_lists};
use texts::Name;

/// By what a call may be otherwise there.
#[derive(Clone, Copy)]
pub enum Difference {
    /// Outside the mode the descriptor of an absolute path counts for nothing.
    AbsolutePath,
    /// Outside the mode `..` and links lead out of a directory that isn't limited.
    WayOut,
    /// Outside the mode a file is made where a last link leads, beneath such a directory.
    LastLink,
    /// A limit of commands is refused once FCNTL is gone.
    CommandsGone,
    /// A process may have more than sixteen numbers.
    NoNumberLeft,
    /// The same where a call takes two, and one may be left.
    OneNumberLeft,
    /// In the mode something is looked up in a grant that doesn't list looking: READ lists names, and LOOKUP reads links.
    UnlistedLook,
}

/// What is warned of at a point.
#[derive(Drop)]
pub struct Warnings {
    /// By what its call is otherwise.
    pub differences: Vec<Difference>,
    /// The error of a close leads on, and the number may be free.
    pub failed_close: bool,
    /// The error of cap_enter or cap_getmode leads on, without a sandbox.
    pub no_sandbox: bool,
    /// The numbers that an untrusted program takes into the mode with rights or commands of which FreeBSD has more.
    pub numbers: Vec<u32>,
    /// Those of directories that are taken into it with READ or LOOKUP, and whose grant doesn't list looking.
    pub directories: Vec<u32>,
}

/// By what calls may be otherwise, in the order in which it is told.
const DIFFERENCES: [Difference; 7] = [
    Difference::AbsolutePath,
    Difference::WayOut,
    Difference::LastLink,
    Difference::CommandsGone,
    Difference::NoNumberLeft,
    Difference::OneNumberLeft,
    Difference::UnlistedLook,
];

/// Whether a call is otherwise by this.
fn differs(task: &Task, difference: Difference, bound: &Bound, call: &Syscall) -> bool
    ensures { result ≡ differs task.now (difference_of difference) (bound_of bound.now) (syscall_of call.now) }
{
    match difference {
        Difference::AbsolutePath => passes_by(bound, call),
        Difference::WayOut => goes_out(task, bound, call),
        Difference::LastLink => makes_beyond(bound, call),
        Difference::CommandsGone => limits_nothing(bound, call),
        Difference::NoNumberLeft => takes_beyond(bound, call),
        Difference::OneNumberLeft => takes_one_beyond(bound, call),
        Difference::UnlistedLook => looks_unlisted(task.grants(), bound, call),
    }
}

/// Whether the error of a close leads to where a call comes.
fn goes_on_closing(calls: &[bool], instruction: &Instruction) -> bool
    ensures { result ≡ goes_on_closing calls.now (instruction_of instruction.now) }
{
    match instruction {
        Instruction::Invoke { call, otherwise } => {
            frees(call.call()) && is_flagged(calls, usize::from(*otherwise))
        }
        _ => false,
    }
}

/// Whether the error of entering the mode, or of asking for it, does.
fn goes_on_entering(calls: &[bool], instruction: &Instruction) -> bool
    ensures { result ≡ goes_on_entering calls.now (instruction_of instruction.now) }
{
    match instruction {
        Instruction::Invoke { call, otherwise } => {
            concerns_mode(call.call()) && is_flagged(calls, usize::from(*otherwise))
        }
        _ => false,
    }
}

/// Whether it is all rights, or FCNTL with both commands.
fn has_more(held: &Held) -> bool
    ensures { result ≡ has_more (held_of held.now) }
{
    let (rights, commands) = (held.rights().greatest(), held.fcntls().greatest());
    rights.contains(Rights::plain()) || rights.contains(Rights::FCNTL) && commands == Fcntls::all()
}

impl<'a> Bounded<'a> {
    /// Whether a call at a point is otherwise by this.
    fn differs_at(&self, task: &Task, difference: Difference, point: usize) -> bool
        ensures { result ≡ differs_at task.now (code_of self.now.code.now) (bounds_of self.now.bounds.items) (difference_of difference) point }
    {
        match (self.bound_here(point), self.code.get(point)) {
            (Some(bound), Some(Instruction::Invoke { call, .. })) => {
                differs(task, difference, bound, call)
            }
            _ => false,
        }
    }

    /// Whether the instruction at a point is a call.
    pub(crate) fn calls_at(&self, point: usize) -> bool
        ensures { result ≡ is_there (code_of self.now.code.now) is_call point }
    {
        match self.code.get(point) {
            None => false,
            Some(instruction) => matches!(instruction, Instruction::Invoke { .. }),
        }
    }

    /// Whether the mode is entered at a point with a number that has more there.
    fn takes_more_at(&self, number: u32, point: usize) -> bool
        ensures { result ≡ takes_more_at (code_of self.now.code.now) (bounds_of self.now.bounds.items) number point }
    {
        self.enters_at(point)
            && match self.held_here(number, point) {
                None => false,
                Some(held) => has_more(&held),
            }
    }

    /// By what of these the call at a point is otherwise.
    fn differing(
        &self,
        alloc: Global,
        task: &Task,
        among: &[Difference],
        point: usize,
    ) -> Result<Vec<Difference>, AllocError>
        ensures { IfOk result (λ found. found.items
            ≡ filter (λ d. differs_at task.now (code_of self.now.code.now) (bounds_of self.now.bounds.items) (difference_of d) point) among.now) }
    {
        among
            .iter()
            .copied()
            .filter(|difference| self.differs_at(task, *difference, point))
            .collect(alloc)
    }

    /// By what the call at a point is otherwise.
    fn differences_at(
        &self,
        alloc: Global,
        task: &Task,
        point: usize,
    ) -> Result<Vec<Difference>, AllocError>
        ensures { IfOk result (λ found. map difference_of found.items
            ≡ filter (λ d. differs_at task.now (code_of self.now.code.now) (bounds_of self.now.bounds.items) d point) differences) }
    {
        let found = self.differing(alloc, task, &DIFFERENCES, point)?;
        Ok(found)
    }

    /// The numbers of which an untrusted program takes more into the mode at a point than a task can name.
    fn numbers_at(&self, alloc: Global, point: usize) -> Result<Vec<u32>, AllocError>
        ensures { IfOk result (λ found. found.items
            ≡ filter (λ n. self.now.untrusted && takes_more_at (code_of self.now.code.now) (bounds_of self.now.bounds.items) n point) (range_with_len 0 most_descriptors)) }
    {
        (0..MAX_DESCRIPTORS as u32)
            .filter(|number| self.untrusted && self.takes_more_at(*number, point))
            .collect(alloc)
    }

    /// Whether the error of a close at a point leads to where a call comes.
    fn fails_closing(&self, calls: &[bool], point: usize) -> bool
        ensures { result ≡ is_there (code_of self.now.code.now) (goes_on_closing calls.now) point }
    {
        match self.code.get(point) {
            None => false,
            Some(instruction) => goes_on_closing(calls, instruction),
        }
    }

    /// Whether the error of entering the mode at a point, or of asking for it, does.
    fn fails_entering(&self, calls: &[bool], point: usize) -> bool
        ensures { result ≡ is_there (code_of self.now.code.now) (goes_on_entering calls.now) point }
    {
        match self.code.get(point) {
            None => false,
            Some(instruction) => goes_on_entering(calls, instruction),
        }
    }

    /// What is warned of at a point.
    #[tactic(auto, unfolding(crate::specs::Warnings::warned_at))]
    fn warnings_at(
        &self,
        alloc: Global,
        task: &Task,
        calls: &[bool],
        point: usize,
    ) -> Result<Warnings, AllocError>
        requires { calls.now ≡ calls_ahead (code_of self.now.code.now) }
        ensures { IfOk result (λ found. warned_of found
            ≡ warned_at task.now self.now.name.now (code_of self.now.code.now) (bounds_of self.now.bounds.items) self.now.untrusted point) }
    {
        Ok(Warnings {
            differences: self.differences_at(alloc, task, point)?,
            failed_close: self.fails_closing(calls, point),
            no_sandbox: self.fails_entering(calls, point),
            numbers: self.numbers_at(alloc, point)?,
            directories: self.directories_at(alloc, task, point)?,
        })
    }

    /// What is warned of at each point.
    fn all_warnings(&self, alloc: Global, task: &Task) -> Result<Vec<Warnings>, AllocError>
        ensures { IfOk result (λ found. map warned_of found.items
            ≡ map (warned_at task.now self.now.name.now (code_of self.now.code.now) (bounds_of self.now.bounds.items) self.now.untrusted) (points (code_of self.now.code.now))) }
    {
        let calls = self.ahead(alloc, PointTest::Calls)?;
        let mut list = Vec::new(alloc);
        for point in 0..count(self.code) {
            list.push(self.warnings_at(alloc, task, &calls, point)?)?;
        }
        Ok(list)
    }
}

/// What is warned of at each point of a program.
fn warnings_of(
    alloc: Global,
    task: &Task,
    cert: &Cert,
    named: &NamedProgram,
) -> Result<Vec<Warnings>, AllocError>
    ensures { IfOk result (λ found. map warned_of found.items ≡ warned_in task.now cert.now (Some (program_of named.now))) }
{
    let bounded = with_bounds(alloc, cert, named)?;
    let found = bounded.all_warnings(alloc, task)?;
    Ok(found)
}

/// Where FreeBSD does otherwise than the model: what is warned of at each point of a program, by its number, with the bounds of a certificate
/// in which all are written.
pub fn warnings_on(
    alloc: Global,
    task: &Task,
    cert: &Cert,
    program: usize,
) -> Result<Vec<Warnings>, AllocError>
    ensures { IfOk result (λ found. map warned_of found.items ≡ warned_in task.now cert.now (slice_get task.now.programs program)) }
{
    match task.programs().get(program) {
        None => Ok(Vec::new(alloc)),
        Some(named) => warnings_of(alloc, task, cert, named),
    }
}

/// The ceilings of the authority of the program of this name, the first of these.
#[tactic(auto, unfolding(rules::specs::Authority::authority_in))]
fn ceilings_among<'a>(authorities: &'a [Authority], program: &[u8]) -> &'a [Ceiling]
    ensures { map ceiling_of result.now ≡ (authority_in (authorities_of authorities.now) program.now).ceilings }
{
    match authorities {
        [] => &[],
        [first, rest @ ..] => {
            if first.program().as_bytes() == program {
                return first.ceilings();
            }
            ceilings_among(rest, program)
        }
    }
}

/// The ceilings of the program of this name that have all rights, of which FreeBSD has more.
#[tactic(auto, using(crate::proofs::Lists::filtered_map))]
pub fn widest_ceilings(
    alloc: Global,
    cert: &Cert,
    program: &Name,
) -> Result<Vec<Ceiling>, AllocError>
    ensures { IfOk result (λ found. map ceiling_of found.items ≡ widest cert.now (name_of program.now)) }
{
    ceilings_among(cert.authorities(), program.as_bytes())
        .iter()
        .copied()
        .filter(|ceiling| ceiling.rights().contains(Rights::plain()))
        .collect(alloc)
}

/// Whether a ceiling lets names be looked up in a grant that doesn't list looking.
fn looks_beyond(grants: &[Grant], ceiling: &Ceiling) -> bool
    ensures { result ≡ looks_beyond (grants_of grants.now) (ceiling_of ceiling.now) }
{
    ceiling.rights().contains(Rights::LOOKUP)
        && !grant_lists(grants, ceiling.grant().as_bytes(), Op::Look)
}

/// The ceilings of the program of this name that let names be looked up in a grant that doesn't list looking.
#[tactic(auto, using(crate::proofs::Lists::filtered_map))]
pub fn prying_ceilings(
    alloc: Global,
    grants: &[Grant],
    cert: &Cert,
    program: &Name,
) -> Result<Vec<Ceiling>, AllocError>
    ensures { IfOk result (λ found. map ceiling_of found.items ≡ prying (grants_of grants.now) cert.now (name_of program.now)) }
{
    ceilings_among(cert.authorities(), program.as_bytes())
        .iter()
        .copied()
        .filter(|ceiling| looks_beyond(grants, ceiling))
        .collect(alloc)
}

/// Whether a first descriptor has all rights, or FCNTL with both commands.
fn starts_with_more(first: FirstDescriptor) -> bool
    ensures { result ≡ starts_with_more (first_descriptor_of first) }
{
    first.rights.contains(Rights::plain())
        || first.rights.contains(Rights::FCNTL) && first.fcntls == Fcntls::all()
}

/// The descriptors with which a process starts that have all rights, or FCNTL with both commands: FreeBSD has more of each.
pub fn more_at_start(alloc: Global, start: &Start) -> Result<Vec<FirstDescriptor>, AllocError>
    ensures { IfOk result (λ found. found.items ≡ filter (λ d. starts_with_more (first_descriptor_of d)) start.now.descriptors.items) }
{
    start
        .descriptors
        .iter()
        .copied()
        .filter(|first| starts_with_more(*first))
        .collect(alloc)
}
