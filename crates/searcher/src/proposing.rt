//! The search for a certificate of a task with untrusted programs.

ghost use Rattle.std.specs.Prelude.{◌≡◌, true, false, IfOk, IfSome, OnOk};
ghost use Rattle.certificate.specs.Bounds.{Certificate, has_authorities};
ghost use Rattle.checker.specs.Verdicts.{IsAccepted};
ghost use Rattle.searcher.specs.Flat.{flat};
ghost use Rattle.searcher.specs.Shortening.{short_form};
ghost use Rattle.searcher.specs.Versions.{flat_version, marked_version};
ghost use Rattle.task.specs.Plans.{none_marked};

use crate::authority::{Need, all_needs, learn_needs, push_needs};
use crate::channels::Channels;
use crate::drawing::push_found;
use crate::point_states::ProgramPoints;
use crate::rounds::{all_program_points, settle, wake_receivers};
use crate::searching::{by_points, is_accepted, search};
use crate::shortening::push_named;
use crate::versions::marked_version;
use certificate::{Cert, Refusal, push_authorities, push_channels};
use rights::Memory;
use std::alloc::Global;
use task::{Task, none_marked};

/// How often the points settle at most, each time with more authority.
const MOST_TURNS: usize = 1_024;

/// Goes through all points until none waits and nothing more is needed. Whether that came.
fn settle_needs(
    alloc: Global,
    task: &Task,
    channels: &mut Channels,
    all_points: &mut Vec<ProgramPoints>,
    needs: &mut Vec<Option<Need>>,
) -> Result<bool, Refusal> {
    for _ in 0..MOST_TURNS {
        if !settle(alloc, task, channels, all_points)? {
            return Ok(false);
        }
        if !learn_needs(alloc, task, channels, all_points, needs)? {
            return Ok(true);
        }
        if channels.changed {
            channels.changed = false;
            wake_receivers(task, all_points);
        }
    }
    Ok(false)
}

/// Adds what is found of a task's points, and what its untrusted programs need. Whether that was found.
fn push_all(
    alloc: Global,
    task: &Task,
    cert: &mut Cert,
    channels: &mut Channels,
    all_points: &mut Vec<ProgramPoints>,
    needs: &mut Vec<Option<Need>>,
) -> Result<bool, Refusal>
    requires { has_authorities cert.old.version ≡ true }
    ensures { OnOk result (cert.new.version ≡ cert.old.version) }
{
    if !settle_needs(alloc, task, channels, all_points, needs)? {
        return Ok(false);
    }
    push_found(cert, all_points, channels)?;
    push_needs(cert, needs)?;
    Ok(true)
}

/// The certificate with what is found of a task's points, and what its untrusted programs need.
fn drawn(
    alloc: Global,
    task: &Task,
    mut all_points: Vec<ProgramPoints>,
    mut needs: Vec<Option<Need>>,
) -> Result<Option<Cert>, Refusal>
    ensures { IfOk result (λ found. IfSome found (λ cert. cert.version ≡ marked_version task.now)) }
{
    let version = marked_version(task);
    let mut channels = Channels::new(alloc, version);
    let mut cert = Cert::new(alloc, version);
    match push_all(
        alloc,
        task,
        &mut cert,
        &mut channels,
        &mut all_points,
        &mut needs,
    ) {
        Ok(true) => Ok(Some(cert)),
        Ok(false) => Ok(None),
        Err(refusal) => Err(refusal),
    }
}

/// The same where it isn't refused for its length.
fn proposed(alloc: Global, task: &Task) -> Result<Option<Cert>, Memory>
    ensures { IfOk result (λ found. IfSome found (λ cert. cert.version ≡ marked_version task.now)) }
{
    let all_points = all_program_points(alloc, task)?;
    let needs = all_needs(alloc, task)?;
    match drawn(alloc, task, all_points, needs) {
        Ok(cert) => Ok(cert),
        Err(Refusal::Memory) => Err(Memory),
        Err(Refusal::Limit | Refusal::Order) => Ok(None),
    }
}

/// Adds the bounds of a certificate at named points, its channels and its authorities.
#[tactic(auto, using(certificate::proofs::Growths::grown_keeps, certificate::proofs::Growths::by_keeps, crate::proofs::Authorities::with_keeps))]
fn push_short(short: &mut Cert, task: &Task, cert: &Cert) -> Result<(), Refusal>
    requires authorities { has_authorities short.old.version ≡ true }
    requires same { short.old.version ≡ cert.now.version }
    ensures { OnOk result (short.new.version ≡ short.old.version) }
{
    push_named(short, task, cert.points())?;
    push_channels(short, cert.channels())?;
    push_authorities(short, cert.authorities())
}

/// The same certificate, of a version with authorities, with bounds at named points alone, if it isn't refused.
fn shortened(alloc: Global, task: &Task, cert: &Cert) -> Result<Option<Cert>, Memory>
    requires { has_authorities cert.now.version ≡ true }
    ensures { IfOk result (λ found. IfSome found (λ short. short.version ≡ cert.now.version)) }
{
    let mut short = Cert::new(alloc, cert.version());
    match push_short(&mut short, task, cert) {
        Ok(()) => Ok(Some(short)),
        Err(Refusal::Memory) => Err(Memory),
        Err(Refusal::Limit | Refusal::Order) => Ok(None),
    }
}

/// A certificate that was proposed, if the checker accepts it.
fn accepted(task: &Task, proposed: Option<Cert>) -> Option<Cert>
    ensures accepted { IfSome result (λ cert. IsAccepted task.now cert) }
    ensures same { IfSome result (λ cert. proposed ≡ Some cert) }
{
    let cert = proposed?;
    if is_accepted(task, &cert) {
        return Some(cert);
    }
    None
}

/// What is found for a task with an untrusted program.
#[tactic(auto, using(crate::proofs::VersionLaws::marked_has))]
fn found(alloc: Global, task: &Task) -> Result<Option<Cert>, Memory>
    ensures accepted { IfOk result (λ found. IfSome found (λ cert. IsAccepted task.now cert)) }
    ensures version { IfOk result (λ found. IfSome found (λ cert. cert.version ≡ marked_version task.now)) }
{
    let Some(cert) = proposed(alloc, task)? else {
        return Ok(None);
    };
    if let Some(short) = accepted(task, shortened(alloc, task, &cert)?) {
        return Ok(Some(short));
    }
    Ok(accepted(task, Some(cert)))
}

/// What the search comes to, whether or not the checker accepts it: bounds of each point that it reaches, in version 2; of a task with a
/// marked program in version 3, with the authorities that its programs seem to need; and of either in version 4 where the task asks for
/// further rights. Nothing where it gives up: the bounds don't settle, or are more than a certificate has. `Memory` may come in place of any
/// other answer. (own)
pub fn reached(alloc: Global, task: &Task) -> Result<Option<Cert>, Memory>
    ensures marked { none_marked task.now ≡ false → IfOk result (λ found. IfSome found (λ cert. cert.version ≡ marked_version task.now)) }
    ensures unmarked { none_marked task.now ≡ true → IfOk result (λ found. IfSome found (λ cert. cert.version ≡ flat_version task.now)) }
{
    if none_marked(task.programs()) {
        return by_points(alloc, task);
    }
    proposed(alloc, task)
}

/// A certificate of a task that the checker accepts, if one is found. For a task with an untrusted program it is of version 3, or of
/// version 4 where the task asks for further rights: what each such program takes into the mode, and what may come to it there, is
/// its authority, and of the other points there are bounds as `search` finds them. Of other tasks it gives what `search` gives. `Memory` may come in place of any other answer. It always
/// ends. (own)
pub fn propose(alloc: Global, task: &Task) -> Result<Option<Cert>, Memory>
    ensures accepted { IfOk result (λ found. IfSome found (λ cert. IsAccepted task.now cert)) }
    ensures marked { none_marked task.now ≡ false → IfOk result (λ found. IfSome found (λ cert. cert.version ≡ marked_version task.now)) }
    ensures version { none_marked task.now ≡ true → IfOk result (λ found. IfSome found (λ cert. cert.version ≡ flat_version task.now)) }
    ensures short { none_marked task.now ≡ true → IfOk result (λ found. IfSome found (λ cert.
        IsAccepted task.now (short_form task.now cert) → cert ≡ short_form task.now cert)) }
    ensures flat { none_marked task.now ≡ true → result ≡ Ok None →
        (certificate : Certificate) → flat task.now ≡ Some certificate → IsAccepted task.now certificate → ⊥ }
{
    if none_marked(task.programs()) {
        return search(alloc, task);
    }
    found(alloc, task)
}
