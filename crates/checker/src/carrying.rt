//! What is carried from point to point along a program.

ghost use Rattle.std.specs.Prelude.{◌≡◌, option_map, true};
ghost use Rattle.std.specs.List.{list_all, slice_get};
ghost use Rattle.certificate.specs.Views.{bound_of};
ghost use Rattle.texts.specs.Views.{name_of};
ghost use Rattle.instruction_set.specs.Views.{code_of};
ghost use Rattle.certificate.specs.Bounds.{bound_at};
ghost use Rattle.rules.specs.Expansions.{carried_by, code_named, or_carried};
ghost use Rattle.transfer.specs.Limits.{leaves_known};

use crate::points::{instruction_in, may_carry};
use certificate::{Bound, Cert};
use instruction_set::Instruction;
use task::Task;
use texts::Name;
use transfer::{Site, carried_on};

/// The bound of a point: the one that the certificate gives, or else what is carried there.
pub(crate) fn bound_with(
    cert: &Cert,
    name: &Name,
    point: usize,
    carried: &Option<Bound>,
) -> Option<Bound>
    ensures { option_map bound_of result
        ≡ or_carried (bound_at cert.now (name_of name.now) point) (option_map bound_of carried.now) }
{
    match cert.point_at(name.as_bytes(), point) {
        Some(found) => Some(found.bound()),
        None => *carried,
    }
}

/// What a point that has this bound carries on to the next: in versions 2 to 4, the join of the outcomes that go there, if it isn't
/// named. Takes no memory.
pub(crate) fn carried_past(
    task: &Task,
    cert: &Cert,
    name: &Name,
    code: &[Instruction],
    point: u8,
    bound: &Option<Bound>,
) -> Option<Bound>
    requires named { code_of code.now ≡ code_named task.now.programs (name_of name.now) }
    requires known { list_all leaves_known (code_of code.now) ≡ true }
    ensures { option_map bound_of result
        ≡ carried_by task.now cert.now (name_of name.now) point (slice_get (code_named task.now.programs (name_of name.now)) point) (option_map bound_of bound.now) }
{
    let instruction = instruction_in(code, point)?;
    if !may_carry(cert.version(), code, point as usize + 1) {
        return None;
    }
    let bound = bound.as_ref()?;
    let site = Site {
        task,
        cert,
        name,
        point,
        bound,
    };
    carried_on(&site, instruction)
}
