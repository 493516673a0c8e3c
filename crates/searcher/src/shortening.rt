//! Certificates of versions 2 and 4 with bounds at named points alone.

ghost use Rattle.std.specs.Prelude.{◌≡◌, [], ◌∷◌, IfOk, map};
ghost use Rattle.std.specs.List.{filter};
ghost use Rattle.certificate.specs.Growth.{IsCertificate};
ghost use Rattle.certificate.specs.Growths.{grown, grown_by};
ghost use Rattle.certificate.specs.GrowthViews.{Grows};
ghost use Rattle.certificate.specs.Lines.{lines_of};
ghost use Rattle.certificate.specs.Told.{told_point};
ghost use Rattle.certificate.specs.Views.{point_of, points_of};
ghost use Rattle.searcher.specs.Shortening.{is_at_named, short_form};
ghost use Rattle.searcher.specs.Versions.{flat_version};

use crate::versions::flat_version;
use certificate::{Cert, Point, Refusal, push_block, push_channels};
use checker::{code_named, is_named};
use rights::Memory;
use std::alloc::Global;
use task::Task;

/// Adds a point, if it is named, as the certificate's version tells it.
#[tactic(auto, unfolding(certificate::specs::Growths::grown_by))]
fn push_if_named(short: &mut Cert, task: &Task, point: &Point) -> Result<(), Refusal>
    ensures { Grows result short.new (grown_by (map (told_point short.old.version) (filter (is_at_named task.now) (point_of point.now ∷ []))) short.old) }
{
    let code = code_named(task, point.program().as_bytes());
    if !is_named(code, point.point() as usize) {
        return Ok(());
    }
    push_block(short, point.program(), point.point(), &point.bound())
}

/// Adds those of some points that are named, as the certificate's version tells them.
pub(crate) fn push_named(short: &mut Cert, task: &Task, points: &[Point]) -> Result<(), Refusal>
    ensures { Grows result short.new (grown_by (map (told_point short.old.version) (filter (is_at_named task.now) (points_of points.now))) short.old) }
{
    for point in points {
        push_if_named(short, task, point)?;
    }
    Ok(())
}

/// Adds the lines of a certificate's short form.
fn push_short(short: &mut Cert, task: &Task, cert: &Cert) -> Result<(), Refusal>
    requires { short.old.version ≡ cert.now.version }
    ensures grows { Grows result short.new (grown (lines_of (short_form task.now cert.now)) short.old) }
    ensures valid { IsCertificate cert.now }
{
    push_named(short, task, cert.points())?;
    push_channels(short, cert.channels())
}

/// The short form of a certificate of version 2 or 4: the same with its bounds at named points alone, of which no line is ever
/// refused.
pub(crate) fn shortened(alloc: Global, task: &Task, cert: &Cert) -> Result<Cert, Memory>
    requires { cert.now.version ≡ flat_version task.now }
    ensures { IfOk result (λ short. short ≡ short_form task.now cert.now) }
{
    let mut short = Cert::new(alloc, flat_version(task));
    match push_short(&mut short, task, cert) {
        Ok(()) => Ok(short),
        Err(Refusal::Memory) => Err(Memory),
        Err(Refusal::Limit) => unreachable!(),
        Err(Refusal::Order) => unreachable!(),
    }
}
