//! What an untrusted program needs in the mode: its authority, which grows by what it may take there.

ghost use Rattle.std.specs.Prelude.{◌≡◌, ◌≤◌, IfSome, OnOk, length, true};
ghost use Rattle.std.specs.List.{list_all};
ghost use Rattle.certificate.specs.Bounds.{has_authorities};
ghost use Rattle.certificate.specs.Told.{is_told_ceiling};
ghost use Rattle.certificate.specs.Views.{ceiling_of, version_of};
ghost use Rattle.task.specs.Limits.{is_start};
ghost use Rattle.task.specs.Views.{starts_of};

use crate::channels::Channels;
use crate::point_states::{PointState, ProgramPoints};
use crate::rounds::first_bound;
use crate::versions::marked_version;
use certificate::{Bound, Ceiling, Cert, Domain, End, Held, Line, Refusal, Target, Version};
use instruction_set::{Instruction, enters_mode};
use rights::Rights;
use std::alloc::{AllocError, Global};
use task::{Start, Task};
use texts::Name;

/// What a program needs in the mode: rights in grants, by their names, as a certificate of this version says them, and ends in the
/// order of channels.
#[derive(Drop)]
pub(crate) struct Need {
    program: Name,
    version: Version,
    ceilings: Vec<Ceiling>,
    ends: Vec<End>,
    changed: bool,
}

/// Where the ceiling of a grant stands among these, or would.
fn place_of_grant(ceilings: &[Ceiling], grant: &Name) -> usize
    ensures { result ≤ length ceilings.now }
{
    for (place, ceiling) in ceilings.iter().enumerate() {
        if !grant.as_bytes().cmp(ceiling.grant().as_bytes()).is_gt() {
            return place;
        }
    }
    ceilings.len()
}

/// Where an end stands among these, or would.
fn place_of_end(ends: &[End], end: &End) -> usize
    ensures { result ≤ length ends.now }
{
    for (place, other) in ends.iter().enumerate() {
        if !end.compare(other).is_gt() {
            return place;
        }
    }
    ends.len()
}

/// Those of these rights of which an authority in a certificate of this version says something.
#[tactic(auto, using(crate::proofs::Authorities::asked_are_told))]
fn said_rights(version: Version, rights: Rights) -> Rights
    ensures { is_told_ceiling (version_of version) result.0 ≡ true }
{
    rights.asked(version.tells_further())
}

/// The ceiling with these rights in a grant, if there are any.
fn ceiling(grant: Name, rights: Rights) -> Option<Ceiling>
    ensures { IfSome result (λ ceiling. (ceiling_of ceiling).rights ≡ rights.0) }
{
    if rights == Rights::empty() || !Rights::all().contains(rights) {
        return None;
    }
    Some(Ceiling::new(grant, rights))
}

impl Need {
    /// A program needs nothing yet.
    fn new(alloc: Global, program: Name, version: Version) -> Need {
        Need {
            program,
            version,
            ceilings: Vec::new(alloc),
            ends: Vec::new(alloc),
            changed: false,
        }
    }

    /// Has rights in a grant be needed, if there are any.
    fn add_rights(&mut self, grant: Name, held: &Held) -> Result<(), AllocError> {
        let rights = said_rights(self.version, held.rights().greatest());
        let at = place_of_grant(&self.ceilings, &grant);
        if let Some(there) = self.ceilings.get_mut(at) {
            if there.grant().as_bytes() == grant.as_bytes() {
                if let (false, Some(more)) = (
                    there.rights().contains(rights),
                    ceiling(grant, there.rights().union(rights)),
                ) {
                    *there = more;
                    self.changed = true;
                }
                return Ok(());
            }
        }
        if let Some(first) = ceiling(grant, rights) {
            self.changed = true;
            self.ceilings.insert(at, first)?;
        }
        Ok(())
    }

    /// Has an end be needed.
    fn add_end(&mut self, end: End) -> Result<(), AllocError> {
        let at = place_of_end(&self.ends, &end);
        if let Some(other) = self.ends.get(at) {
            if end.compare(other).is_eq() {
                return Ok(());
            }
        }
        self.changed = true;
        self.ends.insert(at, end)?;
        Ok(())
    }

    /// Takes what a descriptor may be. What may be of any node, or of anything, no authority has.
    fn take(&mut self, held: &Held) -> Result<(), AllocError> {
        match held.target() {
            Target::InGrant(grant) => self.add_rights(grant, held),
            Target::Socket(class, side) => self.add_end(End::new(class, side)),
            Target::AnyNode | Target::Unknown => Ok(()),
        }
    }

    /// Takes what each slot may be.
    fn take_slots(&mut self, bound: &Bound) -> Result<(), AllocError> {
        for slot in bound.slots() {
            if let Some(held) = slot.held() {
                self.take(&held)?;
            }
        }
        Ok(())
    }

    /// Takes what comes by the ends, which others send, and has anything be sent from them.
    fn take_received(&mut self, alloc: Global, channels: &mut Channels) -> Result<(), Refusal> {
        for at in 0..self.ends.len() {
            if let Some(end) = self.ends.get(at) {
                let end = *end;
                channels.open_end(alloc, end)?;
                if let Some(held) = channels.received(&end) {
                    if self.take(&held).is_err() {
                        return Err(Refusal::Memory);
                    }
                }
            }
        }
        Ok(())
    }
}

/// Takes what a program's processes hold where they enter the mode.
fn take_entered(
    need: &mut Need,
    points: &ProgramPoints,
    code: &[Instruction],
) -> Result<(), AllocError> {
    for (point, instruction) in code.iter().enumerate() {
        if !enters_mode(instruction) {
            continue;
        }
        if let Some(
            PointState {
                bound: Some(bound),
                ..
            },
        ) = points.point_states.get(point)
        {
            need.take_slots(bound)?;
        }
    }
    Ok(())
}

/// Takes what its processes among these hold that start in the mode.
fn take_first(
    task: &Task,
    need: &mut Need,
    program: usize,
    starts: &[Start],
) -> Result<(), AllocError>
    requires { list_all (is_start task.now.nodes (length task.now.programs)) (starts_of starts.now) ≡ true }
{
    match starts {
        [] => Ok(()),
        [first, rest @ ..] => {
            if first.mode && first.program as usize == program {
                need.take_slots(&first_bound(task, first))?;
            }
            take_first(task, need, program, rest)
        }
    }
}

/// Takes what each of its processes holds that starts in the mode.
fn take_starts(task: &Task, need: &mut Need, program: usize) -> Result<(), AllocError> {
    take_first(task, need, program, task.starts())
}

/// The marked programs, none of which needs anything yet.
pub(crate) fn all_needs(alloc: Global, task: &Task) -> Result<Vec<Option<Need>>, AllocError> {
    let version = marked_version(task);
    let mut needs = Vec::new(alloc);
    for program in task.programs() {
        let need = program
            .untrusted
            .then(|| Need::new(alloc, program.name, version));
        needs.push(need)?;
    }
    Ok(needs)
}

/// Learns what a marked program needs, by what is known of its points.
fn learn_need(
    alloc: Global,
    task: &Task,
    channels: &mut Channels,
    number: usize,
    points: &ProgramPoints,
    need: &mut Need,
) -> Result<(), Refusal> {
    need.changed = false;
    let Some(program) = task.programs().get(number) else {
        return Ok(());
    };
    if take_entered(need, points, program.program.code()).is_err()
        || take_starts(task, need, number).is_err()
    {
        return Err(Refusal::Memory);
    }
    need.take_received(alloc, channels)
}

/// Learns what each marked program needs, by what is known of the points. Whether a need or a channel grew.
pub(crate) fn learn_needs(
    alloc: Global,
    task: &Task,
    channels: &mut Channels,
    all_points: &[ProgramPoints],
    needs: &mut Vec<Option<Need>>,
) -> Result<bool, Refusal> {
    let mut any = false;
    for (number, points) in all_points.iter().enumerate() {
        if let Some(Some(need)) = needs.get_mut(number) {
            learn_need(alloc, task, channels, number, points, need)?;
            any = any || need.changed;
        }
    }
    Ok(any || channels.changed)
}

/// Adds ceilings to the last authority, with the rights that the certificate's version says.
fn push_ceilings(cert: &mut Cert, ceilings: &[Ceiling]) -> Result<(), Refusal>
    requires { has_authorities cert.old.version ≡ true }
    ensures { cert.new.version ≡ cert.old.version }
{
    match ceilings {
        [] => Ok(()),
        [first, rest @ ..] => {
            let rights = said_rights(cert.version(), first.rights());
            if let Some(said) = ceiling(*first.grant(), rights) {
                cert.push(&Line::Ceiling(said))?;
            }
            push_ceilings(cert, rest)
        }
    }
}

/// Adds ends to the last authority.
fn push_ends(cert: &mut Cert, ends: &[End]) -> Result<(), Refusal>
    requires { has_authorities cert.old.version ≡ true }
    ensures { cert.new.version ≡ cert.old.version }
{
    match ends {
        [] => Ok(()),
        [first, rest @ ..] => {
            cert.push(&Line::Hold(End::new(first.class(), first.side())))?;
            push_ends(cert, rest)
        }
    }
}

/// Adds the lines of what a program needs, if it needs anything.
fn push_need(cert: &mut Cert, need: &Need) -> Result<(), Refusal>
    requires { has_authorities cert.old.version ≡ true }
    ensures { cert.new.version ≡ cert.old.version }
{
    if need.ceilings.is_empty() && need.ends.is_empty() {
        return Ok(());
    }
    cert.push(&Line::Authority(need.program))?;
    push_ceilings(cert, &need.ceilings)?;
    push_ends(cert, &need.ends)
}

/// Where the need stands whose program's name is the first; past all where there is none.
fn first_named(needs: &[Option<Need>]) -> usize {
    let mut first = needs.len();
    let mut least: &[u8] = b"";
    for (at, need) in needs.iter().enumerate() {
        if let Some(need) = need {
            let name = need.program.as_bytes();
            if first == needs.len() || name.cmp(least).is_lt() {
                first = at;
                least = name;
            }
        }
    }
    first
}

/// Adds what programs need, by their names, as often as this.
fn push_so_many(cert: &mut Cert, needs: &mut Vec<Option<Need>>, left: usize) -> Result<(), Refusal>
    requires { has_authorities cert.old.version ≡ true }
    ensures { cert.new.version ≡ cert.old.version }
{
    let at = first_named(needs);
    if left == 0 || at >= needs.len() {
        return Ok(());
    }
    if let Some(need) = needs.swap_remove(at) {
        push_need(cert, &need)?;
    }
    push_so_many(cert, needs, left - 1)
}

/// Adds what programs need, by their names.
pub(crate) fn push_needs(cert: &mut Cert, needs: &mut Vec<Option<Need>>) -> Result<(), Refusal>
    requires { has_authorities cert.old.version ≡ true }
    ensures { cert.new.version ≡ cert.old.version }
{
    let count = needs.len();
    push_so_many(cert, needs, count)
}
