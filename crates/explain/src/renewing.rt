//! The certificate of an older text of a task's programs, with its points where the programs have them now.

ghost use Rattle.std.specs.Prelude.{◌≡◌, IfOk, IfSome, OnOk};
ghost use Rattle.checker.specs.Verdicts.{IsAccepted};
ghost use Rattle.certificate.specs.Bounds.{has_authorities};

use crate::older::{Move, moves};
use certificate::{Cert, Point, Refusal, push_authorities, push_block, push_channels};
use checker::{Verdict, check};
use rights::Memory;
use std::alloc::Global;
use task::Task;

/// Where a point has come to by some moves; none where no program has such a point.
fn place_now(moves: &[Move<'_>], point: &Point) -> Option<u8> {
    let mut place = Some(usize::from(point.point()));
    for moved in moves {
        if moved.program == point.program().as_bytes() {
            place = moved.place(usize::from(point.point()));
        }
    }
    u8::try_from(place?).ok()
}

/// Adds points where they have come to. One that has come nowhere is out of order.
#[tactic(auto, using(certificate::proofs::Growths::grown_keeps))]
fn push_moved(renewed: &mut Cert, moves: &[Move<'_>], points: &[Point]) -> Result<(), Refusal>
    ensures { OnOk result (renewed.new.version ≡ renewed.old.version) }
{
    match points {
        [] => Ok(()),
        [first, rest @ ..] => {
            let Some(place) = place_now(moves, first) else {
                return Err(Refusal::Order);
            };
            push_block(renewed, first.program(), place, &first.bound())?;
            push_moved(renewed, moves, rest)
        }
    }
}

/// Adds a certificate's points where they have come to, and all else as it is.
#[tactic(auto, using(certificate::proofs::Growths::grown_keeps))]
fn push_all(renewed: &mut Cert, moves: &[Move<'_>], cert: &Cert) -> Result<(), Refusal>
    requires { renewed.old.version ≡ cert.now.version }
{
    push_moved(renewed, moves, cert.points())?;
    push_channels(renewed, cert.channels())?;
    if !cert.version().has_authorities() {
        return Ok(());
    }
    push_authorities(renewed, cert.authorities())
}

/// The certificate with its points where the programs have them now, if the checker accepts it so.
pub fn renewed(alloc: Global, task: &Task, cert: &Cert) -> Result<Option<Cert>, Memory>
    ensures { IfOk result (λ found. IfSome found (λ renewed. IsAccepted task.now renewed)) }
{
    let moves = moves(alloc, task, cert)?;
    let mut renewed = Cert::new(alloc, cert.version());
    match push_all(&mut renewed, &moves, cert) {
        Ok(()) => {}
        Err(Refusal::Memory) => return Err(Memory),
        Err(Refusal::Limit | Refusal::Order) => return Ok(None),
    }
    if check(task, &renewed) == Verdict::Yes {
        return Ok(Some(renewed));
    }
    Ok(None)
}
