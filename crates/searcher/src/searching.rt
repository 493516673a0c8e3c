//! The search.

ghost use Rattle.std.specs.Prelude.{◌≡◌, true, false, IfOk, IfSome, IsOk, Ok};
ghost use Rattle.certificate.specs.Bounds.{Certificate};
ghost use Rattle.checker.specs.Verdicts.{IsAccepted};
ghost use Rattle.searcher.specs.Flat.{flat};
ghost use Rattle.searcher.specs.Shortening.{IsShort, short_form};
ghost use Rattle.searcher.specs.Versions.{flat_version};
ghost use Rattle.task.specs.Limits.{is_plan};
ghost use Rattle.task.specs.Plans.{none_marked};

use crate::channels::Channels;
use crate::drawing::{push_found, push_found_short};
use crate::flat::flat;
use crate::point_states::ProgramPoints;
use crate::rounds::{all_program_points, settle};
use crate::shortening::shortened;
use crate::versions::flat_version;
use certificate::{Cert, Refusal};
use checker::{Verdict, check};
use rights::Memory;
use std::alloc::Global;
use task::{Task, none_marked};

/// Whether the checker accepts a certificate.
pub(crate) fn is_accepted(task: &Task, cert: &Cert) -> bool
    ensures yes { result ≡ true → IsAccepted task.now cert.now }
    ensures no { result ≡ false → IsAccepted task.now cert.now → ⊥ }
{
    check(task, cert) == Verdict::Yes
}

/// What the search point by point comes to: the points of the programs, and the channels.
#[derive(Drop)]
struct AllFound {
    all_points: Vec<ProgramPoints>,
    channels: Channels,
}

/// Goes through all points until none waits, where that comes.
fn settled(alloc: Global, task: &Task) -> Result<Option<AllFound>, Memory> {
    let mut all_points = all_program_points(alloc, task)?;
    let mut channels = Channels::new(alloc, flat_version(task));
    match settle(alloc, task, &mut channels, &mut all_points) {
        Ok(true) => {}
        Ok(false) | Err(Refusal::Limit | Refusal::Order) => return Ok(None),
        Err(Refusal::Memory) => return Err(Memory),
    }
    Ok(Some(AllFound {
        all_points,
        channels,
    }))
}

/// Whether a certificate has room for what was added.
fn has_room(added: Result<(), Refusal>) -> Result<bool, Memory>
    ensures { IfOk result (λ has. has ≡ true → IsOk added) }
{
    match added {
        Ok(()) => Ok(true),
        Err(Refusal::Limit | Refusal::Order) => Ok(false),
        Err(Refusal::Memory) => Err(Memory),
    }
}

/// All bounds that were found, as a certificate.
fn drawn(alloc: Global, task: &Task, mut found: AllFound) -> Result<Option<Cert>, Memory>
    ensures { IfOk result (λ cert. IfSome cert (λ c. c.version ≡ flat_version task.now)) }
{
    let mut cert = Cert::new(alloc, flat_version(task));
    if !has_room(push_found(&mut cert, &mut found.all_points, &found.channels))? {
        return Ok(None);
    }
    Ok(Some(cert))
}

/// Those at named points alone.
fn drawn_short(alloc: Global, task: &Task, mut found: AllFound) -> Result<Option<Cert>, Memory>
    ensures { IfOk result (λ cert. IfSome cert (λ c. IsShort task.now c)) }
{
    let mut short = Cert::new(alloc, flat_version(task));
    if !has_room(push_found_short(&mut short, task, &mut found.all_points, &found.channels))? {
        return Ok(None);
    }
    Ok(Some(short))
}

/// The certificate that the search point by point proposes, if it comes to one.
pub(crate) fn by_points(alloc: Global, task: &Task) -> Result<Option<Cert>, Memory>
    ensures { IfOk result (λ found. IfSome found (λ cert. cert.version ≡ flat_version task.now)) }
{
    match settled(alloc, task)? {
        Some(found) => drawn(alloc, task, found),
        None => Ok(None),
    }
}

/// A certificate in its short form, if the checker accepts that; else as it is, if it accepts it so.
fn preferred(alloc: Global, task: &Task, cert: Cert) -> Result<Option<Cert>, Memory>
    requires version { cert.version ≡ flat_version task.now }
    ensures accepted { IfOk result (λ found. IfSome found (λ given. IsAccepted task.now given)) }
    ensures version { IfOk result (λ found. IfSome found (λ given. given.version ≡ flat_version task.now)) }
    ensures short { IfOk result (λ found. IfSome found (λ given.
        IsAccepted task.now (short_form task.now given) → given ≡ short_form task.now given)) }
    ensures none { result ≡ Ok None → IsAccepted task.now cert → ⊥ }
{
    let short = shortened(alloc, task, &cert)?;
    if is_accepted(task, &short) {
        return Ok(Some(short));
    }
    if is_accepted(task, &cert) {
        return Ok(Some(cert));
    }
    Ok(None)
}

/// The flat certificate of a task, in the form that is preferred, if it has one that the checker accepts.
fn flat_preferred(alloc: Global, task: &Task) -> Result<Option<Cert>, Memory>
    ensures accepted { IfOk result (λ found. IfSome found (λ cert. IsAccepted task.now cert)) }
    ensures version { IfOk result (λ found. IfSome found (λ cert. cert.version ≡ flat_version task.now)) }
    ensures short { IfOk result (λ found. IfSome found (λ cert.
        IsAccepted task.now (short_form task.now cert) → cert ≡ short_form task.now cert)) }
    ensures flat { result ≡ Ok None → (certificate : Certificate) → flat task.now ≡ Some certificate → IsAccepted task.now certificate → ⊥ }
{
    match flat(alloc, task)? {
        Some(cert) => preferred(alloc, task, cert),
        None => Ok(None),
    }
}

/// The certificate that the search point by point proposes, with bounds at named points alone, if the checker accepts it.
fn proposed_short(alloc: Global, task: &Task) -> Result<Option<Cert>, Memory>
    ensures accepted { IfOk result (λ found. IfSome found (λ cert. IsAccepted task.now cert)) }
    ensures short { IfOk result (λ found. IfSome found (λ cert. IsShort task.now cert)) }
{
    let Some(found) = settled(alloc, task)? else {
        return Ok(None);
    };
    let Some(short) = drawn_short(alloc, task, found)? else {
        return Ok(None);
    };
    if is_accepted(task, &short) {
        return Ok(Some(short));
    }
    Ok(None)
}

/// What the search finds for a task, whatever is marked: what it comes to point by point, or else the flat certificate.
fn searched(alloc: Global, task: &Task) -> Result<Option<Cert>, Memory>
    ensures accepted { IfOk result (λ found. IfSome found (λ cert. IsAccepted task.now cert)) }
    ensures version { IfOk result (λ found. IfSome found (λ cert. cert.version ≡ flat_version task.now)) }
    ensures short { IfOk result (λ found. IfSome found (λ cert.
        IsAccepted task.now (short_form task.now cert) → cert ≡ short_form task.now cert)) }
    ensures flat { result ≡ Ok None → (certificate : Certificate) → flat task.now ≡ Some certificate → IsAccepted task.now certificate → ⊥ }
{
    match proposed_short(alloc, task)? {
        Some(cert) => Ok(Some(cert)),
        None => flat_preferred(alloc, task),
    }
}

/// A certificate of a task, of version 2, or of version 4 where the task asks for further rights, that the checker accepts, if the
/// search finds one: that of what it finds point by point, or the flat one. Where its short form is accepted, with bounds at named points alone, it is given in that form. Where
/// the flat certificate is accepted, it finds one. Of a task with a marked program it finds none. `Memory` may come in place of any
/// other answer. It always ends. Who asks learns that the task is valid. (own)
pub fn search(alloc: Global, task: &Task) -> Result<Option<Cert>, Memory>
    ensures accepted { IfOk result (λ found. IfSome found (λ cert. IsAccepted task.now cert)) }
    ensures version { IfOk result (λ found. IfSome found (λ cert. cert.version ≡ flat_version task.now)) }
    ensures short { IfOk result (λ found. IfSome found (λ cert.
        IsAccepted task.now (short_form task.now cert) → cert ≡ short_form task.now cert)) }
    ensures flat { result ≡ Ok None → (certificate : Certificate) → flat task.now ≡ Some certificate → IsAccepted task.now certificate → ⊥ }
    ensures marked { none_marked task.now ≡ false → result ≡ Ok None }
    ensures valid { is_plan task.now ≡ true }
{
    if !none_marked(task.programs()) {
        return Ok(None);
    }
    searched(alloc, task)
}
