//! The expansion of a certificate: the one in which each carried bound is written.

ghost use Rattle.std.specs.Prelude.{◌≡◌, ◌↔◌, None, IfOk, map, option_map, true};
ghost use Rattle.std.specs.List.{flat_map};
ghost use Rattle.certificate.specs.Growth.{IsCertificate};
ghost use Rattle.certificate.specs.Growths.{grown, grown_by};
ghost use Rattle.certificate.specs.GrowthViews.{Grows};
ghost use Rattle.certificate.specs.Lines.{lines_of, rest_lines};
ghost use Rattle.certificate.specs.Told.{told_point};
ghost use Rattle.certificate.specs.Views.{bound_of, points_of, version_of};
ghost use Rattle.texts.specs.Views.{name_of};
ghost use Rattle.certificate.specs.Bounds.{One, has_authorities, tells_further};
ghost use Rattle.checker.specs.Verdicts.{Verdict, IsVerdict};
ghost use Rattle.rights.specs.Limits.{most_instructions};
ghost use Rattle.rules.specs.Expansions.{expanded_points, expanded_version, expansion, points_along, programs_behind, with_bound};

use crate::carrying::{bound_with, carried_past};
use crate::points::code_named;
use certificate::{
    Bound, Cert, Point, Refusal, Version, push_authorities, push_block, push_channels,
};
use rights::Memory;
use rights::limits::MAX_INSTRUCTIONS;
use std::alloc::Global;
use task::Task;
use texts::Name;

/// Adds a point, if it has a bound, as the certificate's version tells it.
#[tactic(auto, unfolding(certificate::specs::Growths::grown_by))]
fn push_point(
    expanded: &mut Cert,
    name: &Name,
    point: u8,
    bound: Option<Bound>,
) -> Result<(), Refusal>
    ensures { Grows result expanded.new
        (grown_by (map (told_point expanded.old.version) (with_bound (name_of name.now) point (option_map bound_of bound))) expanded.old) }
{
    match bound {
        None => Ok(()),
        Some(bound) => push_block(expanded, name, point, &bound),
    }
}

/// Adds the points of a program that are given a bound, or to which one is carried.
fn push_program(expanded: &mut Cert, task: &Task, cert: &Cert, name: &Name) -> Result<(), Refusal>
    ensures { Grows result expanded.new
        (grown_by (map (told_point expanded.old.version) (points_along task.now cert.now (name_of name.now) None 0 most_instructions)) expanded.old) }
{
    let code = code_named(task, name.as_bytes());
    let mut carried = None;
    for point in 0..MAX_INSTRUCTIONS {
        let bound = bound_with(cert, name, point, &carried);
        let point = point as u8;
        push_point(expanded, name, point, bound)?;
        carried = carried_past(task, cert, name, code, point, &bound);
    }
    Ok(())
}

/// Adds the programs of these points, behind the program of this name.
#[tactic(auto, using(crate::proofs::Along::told_append), unfolding(certificate::specs::Growths::grown_by, rules::specs::Expansions::programs_behind))]
fn push_behind(
    expanded: &mut Cert,
    task: &Task,
    cert: &Cert,
    last: &Name,
    points: &[Point],
) -> Result<(), Refusal>
    ensures { Grows result expanded.new
        (grown_by (map (told_point expanded.old.version)
        (flat_map (λ name. points_along task.now cert.now name None 0 most_instructions) (programs_behind (name_of last.now) (points_of points.now))))
        expanded.old) }
{
    match points {
        [] => Ok(()),
        [first, rest @ ..] => {
            if first.program().as_bytes() == last.as_bytes() {
                return push_behind(expanded, task, cert, last, rest);
            }
            push_program(expanded, task, cert, first.program())?;
            push_behind(expanded, task, cert, first.program(), rest)
        }
    }
}

/// Adds the points of the expansion of a certificate in which bounds are carried. Who asks learns that it is a certificate.
#[tactic(auto, using(crate::proofs::Along::told_append), unfolding(certificate::specs::Growths::grown_by))]
fn push_programs(expanded: &mut Cert, task: &Task, cert: &Cert) -> Result<(), Refusal>
    ensures grows { Grows result expanded.new (grown_by (map (told_point expanded.old.version) (expanded_points task.now cert.now)) expanded.old) }
    ensures valid { IsCertificate cert.now }
{
    match cert.points() {
        [] => Ok(()),
        [first, rest @ ..] => {
            push_program(expanded, task, cert, first.program())?;
            push_behind(expanded, task, cert, first.program(), rest)
        }
    }
}

/// Adds points as the certificate's version tells them.
#[tactic(auto, unfolding(certificate::specs::Growths::grown_by))]
fn push_points(expanded: &mut Cert, points: &[Point]) -> Result<(), Refusal>
    ensures { Grows result expanded.new (grown_by (map (told_point expanded.old.version) (points_of points.now)) expanded.old) }
{
    match points {
        [] => Ok(()),
        [first, rest @ ..] => {
            push_block(expanded, first.program(), first.point(), &first.bound())?;
            push_points(expanded, rest)
        }
    }
}

/// Adds the points of the expansion. Who asks learns that it is of a certificate.
fn push_expanded(expanded: &mut Cert, task: &Task, cert: &Cert) -> Result<(), Refusal>
    requires { tells_further expanded.old.version ≡ tells_further cert.now.version }
    ensures grows { Grows result expanded.new (grown_by (expansion task.now cert.now).points expanded.old) }
    ensures valid { IsCertificate cert.now }
{
    match cert.version() {
        Version::One => push_points(expanded, cert.points()),
        Version::Two | Version::Three | Version::Four => push_programs(expanded, task, cert),
    }
}

/// Adds channels and authorities as they are.
fn push_rest(expanded: &mut Cert, cert: &Cert) -> Result<(), Refusal>
    requires authorities { has_authorities expanded.old.version ≡ has_authorities cert.now.version }
    requires further { tells_further expanded.old.version ≡ tells_further cert.now.version }
    ensures { Grows result expanded.new (grown (rest_lines cert.now) expanded.old) }
{
    push_channels(expanded, cert.channels())?;
    if !cert.version().has_authorities() {
        return Ok(());
    }
    push_authorities(expanded, cert.authorities())
}

/// Adds the lines of the expansion. Who asks learns that it is of a certificate.
fn push_expansion(expanded: &mut Cert, task: &Task, cert: &Cert) -> Result<(), Refusal>
    requires { expanded.old.version ≡ expanded_version cert.now.version }
    ensures grows { Grows result expanded.new (grown (lines_of (expansion task.now cert.now)) expanded.old) }
    ensures valid { IsCertificate cert.now }
{
    push_expanded(expanded, task, cert)?;
    push_rest(expanded, cert)
}

/// The version of a certificate's expansion.
fn version_of_expansion(version: Version) -> Version
    ensures { version_of result ≡ expanded_version (version_of version) }
{
    match version {
        Version::One | Version::Two => Version::One,
        Version::Three => Version::Three,
        Version::Four => Version::Four,
    }
}

/// Whether a certificate is its own expansion, as each of version 1 is: nothing is carried in it. (own)
pub fn is_expanded(task: &Task, cert: &Cert) -> bool
    ensures own { result ≡ true → expansion task.now cert.now ≡ cert.now }
    ensures one { (result ≡ true) ↔ (cert.now.version ≡ One) }
{
    match cert.version() {
        Version::One => true,
        Version::Two | Version::Three | Version::Four => false,
    }
}

/// The expansion of a certificate: that of version 1, or of version 3 or 4 where it is of that, with all bounds that it gives and all
/// that are carried, and the same channels and authorities. `check` gives both the same verdict. Its one error is `Memory`.
/// (own)
pub fn expand(alloc: Global, task: &Task, cert: &Cert) -> Result<Cert, Memory>
    ensures value { IfOk result (λ expanded. expanded ≡ expansion task.now cert.now) }
    ensures same { IfOk result (λ expanded. (verdict : Verdict) → IsVerdict task.now expanded verdict ↔ IsVerdict task.now cert.now verdict) }
{
    let mut expanded = Cert::new(alloc, version_of_expansion(cert.version()));
    match push_expansion(&mut expanded, task, cert) {
        Ok(()) => Ok(expanded),
        Err(Refusal::Memory) => Err(Memory),
        Err(Refusal::Limit) => unreachable!(),
        Err(Refusal::Order) => unreachable!(),
    }
}
