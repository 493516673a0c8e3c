//! What a number may have in the mode beyond the policy.

ghost use Rattle.std.specs.Prelude.{◌≡◌, All, IfOk, length, map, option_map, true};
ghost use Rattle.certificate.specs.Views.{bound_of, held_of};
ghost use Rattle.instruction_set.specs.Views.{code_of};
ghost use Rattle.remarks.specs.RemarkViews.{bounds_of};
ghost use Rattle.remarks.specs.Remarks.{bound_here};
ghost use Rattle.certificate.specs.Lines.{is_ceiling};
ghost use Rattle.remarks.specs.Beyond.{beyond_at, beyond_at_all, held_in_mode, is_unlisted, points_beyond, rights_beyond, rights_of_operations, unlisted_among};
ghost use Rattle.task.specs.Views.{grants_of};
ghost use Rattle.texts.specs.Views.{name_of};

use certificate::{Bound, Ceiling, Held, Target};
use checker::allowances::keeps_ceiling;
use instruction_set::Instruction;
use rights::{RightOperation, Rights, operations_of_rights};
use std::alloc::{AllocError, Global};
use task::Grant;
use texts::Name;
use transfer::may_be_on;

/// Whether a right alone is for what a grant doesn't list.
fn is_unlisted(wide: bool, grants: &[Grant], grant: &Name, right: Rights) -> bool
    requires { is_ceiling right.0 ≡ true }
    ensures { result ≡ is_unlisted wide (grants_of grants.now) (name_of grant.now) right.0 }
{
    !keeps_ceiling(wide, grants, &Ceiling::new(*grant, right))
}

/// Of some rights those that are held and for what the grant doesn't list.
fn unlisted_among(
    wide: bool,
    grants: &[Grant],
    grant: &Name,
    held: Rights,
    rows: &[RightOperation],
) -> Rights
    requires { All (λ o. is_ceiling o.right.0 ≡ true) rows.now }
    ensures { result.0 ≡ unlisted_among wide (grants_of grants.now) (name_of grant.now) held.0 (map (λ o. o.right.0) rows.now) }
{
    match rows {
        [] => Rights::empty(),
        [first, rest @ ..] => {
            let others = unlisted_among(wide, grants, grant, held, rest);
            if held.contains(first.right) && is_unlisted(wide, grants, grant, first.right) {
                first.right.union(others)
            } else {
                others
            }
        }
    }
}

/// Of some rights in a grant those that are for what it doesn't list. (rights(4); own)
pub fn unlisted_rights(wide: bool, grants: &[Grant], grant: &Name, held: Rights) -> Rights
    ensures { result.0 ≡ unlisted_among wide (grants_of grants.now) (name_of grant.now) held.0 rights_of_operations }
{
    unlisted_among(wide, grants, grant, held, operations_of_rights())
}

/// The rights that a number may have beyond what its grant lists. Of what lies in no grant, or is an end of a pair, none are. (rights(4); own)
pub fn rights_beyond(wide: bool, grants: &[Grant], held: &Held) -> Rights
    ensures { result.0 ≡ rights_beyond wide (grants_of grants.now) (held_of held.now) }
{
    match held.target() {
        Target::InGrant(grant) => {
            unlisted_rights(wide, grants, &grant, held.rights().greatest())
        }
        Target::AnyNode | Target::Socket(..) | Target::Unknown => Rights::empty(),
    }
}

/// The bound of a point, if it has one.
fn bound_here(bounds: &[Option<Bound>], point: usize) -> Option<&Bound>
    ensures { option_map (λ b. bound_of b.now) result ≡ bound_here (bounds_of bounds.now) point }
{
    match bounds.get(point) {
        None | Some(None) => None,
        Some(Some(bound)) => Some(bound),
    }
}

/// What a number may hold at a point in the mode, by the bounds of a program's points. A point that only ends doesn't count.
pub fn held_in_mode(
    code: &[Instruction],
    bounds: &[Option<Bound>],
    number: u32,
    point: usize,
) -> Option<Held>
    ensures { option_map held_of result ≡ held_in_mode (code_of code.now) (bounds_of bounds.now) number point }
{
    let bound = bound_here(bounds, point)?;
    let instruction = code.get(point)?;
    if may_be_on(bound.mode()) && !matches!(instruction, Instruction::Halt) {
        bound.slot(number).held()
    } else {
        None
    }
}

/// The rights that a number may have beyond its grant at a point in the mode.
fn beyond_at(
    wide: bool,
    grants: &[Grant],
    code: &[Instruction],
    bounds: &[Option<Bound>],
    number: u32,
    point: usize,
) -> Rights
    ensures { result.0 ≡ beyond_at wide (grants_of grants.now) (code_of code.now) (bounds_of bounds.now) number point }
{
    match held_in_mode(code, bounds, number, point) {
        None => Rights::empty(),
        Some(held) => rights_beyond(wide, grants, &held),
    }
}

/// How many points a program has.
fn count(code: &[Instruction]) -> usize
    ensures { result ≡ length (code_of code.now) }
{
    code.len()
}

/// The points in the mode at which a number may have rights beyond its grant.
pub fn points_beyond(
    alloc: Global,
    wide: bool,
    grants: &[Grant],
    code: &[Instruction],
    bounds: &[Option<Bound>],
    number: u32,
) -> Result<Vec<usize>, AllocError>
    ensures { IfOk result (λ found. found.items ≡ points_beyond wide (grants_of grants.now) (code_of code.now) (bounds_of bounds.now) number) }
{
    (0..count(code))
        .filter(|point| beyond_at(wide, grants, code, bounds, number, *point) != Rights::empty())
        .collect(alloc)
}

/// The rights that a number may have beyond its grant at some points.
pub fn beyond_at_all(
    wide: bool,
    grants: &[Grant],
    code: &[Instruction],
    bounds: &[Option<Bound>],
    number: u32,
    points: &[usize],
) -> Rights
    ensures { result.0 ≡ beyond_at_all wide (grants_of grants.now) (code_of code.now) (bounds_of bounds.now) number points.now }
{
    match points {
        [] => Rights::empty(),
        [first, rest @ ..] => {
            let others = beyond_at_all(wide, grants, code, bounds, number, rest);
            beyond_at(wide, grants, code, bounds, number, *first).union(others)
        }
    }
}
