//! Which operations of a grant nothing needs.

ghost use Rattle.std.specs.Prelude.{◌≡◌, ◌∷◌, [], IfOk, filter, map};
ghost use Rattle.std.specs.List.{list_any};
ghost use Rattle.certificate.specs.Views.{authorities_of, authority_of, ceiling_of};
ghost use Rattle.remarks.specs.Unneeded.{authority_needs, ceiling_needs, has_right_for, is_other, is_unneeded, others, unneeded, without};
ghost use Rattle.rights.specs.Views.{operation_of};
ghost use Rattle.task.specs.Views.{grant_of, grants_of};
ghost use Rattle.texts.specs.Views.{name_of};

use crate::policies::any_program_does;
use certificate::{Authority, Ceiling, Cert};
use checker::allowances::keeps_ceiling;
use file_tree::Place;
use rights::{Op, Rights};
use std::alloc::{AllocError, Global};
use task::{Grant, Task};
use texts::Name;

/// The operations of a policy.
const OPERATIONS: [Op; 5] = [Op::Look, Op::Read, Op::Write, Op::Create, Op::Remove];

/// Whether an operation isn't the other.
fn is_other(operation: Op, other: Op) -> bool
    ensures { result ≡ is_other (operation_of operation) (operation_of other) }
{
    !operation.is_listed(&[other])
}

/// Those of these operations that aren't the other.
fn others_among(alloc: Global, operation: Op, among: &[Op]) -> Result<Vec<Op>, AllocError>
    ensures { IfOk result (λ found. found.items ≡ filter (λ other. is_other (operation_of operation) (operation_of other)) among.now) }
{
    among
        .iter()
        .copied()
        .filter(|other| is_other(operation, *other))
        .collect(alloc)
}

/// All operations but one.
fn others(alloc: Global, operation: Op) -> Result<Vec<Op>, AllocError>
    ensures { IfOk result (λ found. map operation_of found.items ≡ others (operation_of operation)) }
{
    let found = others_among(alloc, operation, &OPERATIONS)?;
    Ok(found)
}

/// A grant of a name that lists all operations but one.
fn without(alloc: Global, name: &Name, operation: Op) -> Result<Grant, AllocError>
    ensures { IfOk result (λ grant. grant_of grant ≡ without (name_of name.now) (operation_of operation)) }
{
    Ok(Grant {
        name: *name,
        path: Place::root(alloc),
        operations: others(alloc, operation)?,
    })
}

/// Whether a ceiling has a right for an operation: such a grant as has all but that doesn't list what the ceiling's rights are for.
fn has_right_for(wide: bool, operation: Op, grants: &[Grant], ceiling: &Ceiling) -> bool
    ensures { result ≡ has_right_for wide (operation_of operation) (grants_of grants.now) (ceiling_of ceiling.now) }
{
    !keeps_ceiling(wide, grants, ceiling)
        || matches!(operation, Op::Look) && ceiling.rights().contains(Rights::LOOKUP)
}

/// Whether a ceiling on a grant needs an operation.
fn ceiling_needs(
    wide: bool,
    grant: &[u8],
    operation: Op,
    grants: &[Grant],
    ceiling: &Ceiling,
) -> bool
    ensures { result ≡ ceiling_needs wide grant.now (operation_of operation) (grants_of grants.now) (ceiling_of ceiling.now) }
{
    ceiling.grant().as_bytes() == grant && has_right_for(wide, operation, grants, ceiling)
}

/// Whether one of some ceilings does.
fn any_ceiling_needs(
    wide: bool,
    grant: &[u8],
    operation: Op,
    grants: &[Grant],
    ceilings: &[Ceiling],
) -> bool
    ensures { result ≡ list_any (ceiling_needs wide grant.now (operation_of operation) (grants_of grants.now)) (map ceiling_of ceilings.now) }
{
    match ceilings {
        [] => false,
        [first, rest @ ..] => {
            ceiling_needs(wide, grant, operation, grants, first)
                || any_ceiling_needs(wide, grant, operation, grants, rest)
        }
    }
}

/// Whether a ceiling of an authority does.
fn authority_needs(
    wide: bool,
    grant: &[u8],
    operation: Op,
    grants: &[Grant],
    authority: &Authority,
) -> bool
    ensures { result ≡ authority_needs wide grant.now (operation_of operation) (grants_of grants.now) (authority_of authority.now) }
{
    any_ceiling_needs(wide, grant, operation, grants, authority.ceilings())
}

/// Whether a ceiling of some authority does.
fn any_needs(
    wide: bool,
    grant: &[u8],
    operation: Op,
    grants: &[Grant],
    authorities: &[Authority],
) -> bool
    ensures { result ≡ list_any (authority_needs wide grant.now (operation_of operation) (grants_of grants.now)) (authorities_of authorities.now) }
{
    match authorities {
        [] => false,
        [first, rest @ ..] => {
            authority_needs(wide, grant, operation, grants, first)
                || any_needs(wide, grant, operation, grants, rest)
        }
    }
}

/// Whether no call does an operation in a grant in the mode, and no authority needs it.
fn is_unneeded(
    alloc: Global,
    task: &Task,
    cert: &Cert,
    grant: &Name,
    operation: Op,
) -> Result<bool, AllocError>
    ensures { IfOk result (λ is_so. is_so ≡ is_unneeded task.now cert.now (name_of grant.now) (operation_of operation)) }
{
    let name = grant.as_bytes();
    let grants = [without(alloc, grant, operation)?];
    Ok(
        !any_program_does(cert, name, operation, task.programs())
            && !any_needs(
                task.further_rights(),
                name,
                operation,
                &grants,
                cert.authorities(),
            ),
    )
}

/// The operations that a grant lists and that nothing needs: no call does them there in the mode, by the bounds of a certificate in which all
/// are written, and no ceiling has a right for them. (own)
pub fn unneeded(
    alloc: Global,
    task: &Task,
    cert: &Cert,
    grant: &Grant,
) -> Result<Vec<Op>, AllocError>
    ensures { IfOk result (λ found. map operation_of found.items
        ≡ unneeded task.now cert.now (grant_of grant.now).name (grant_of grant.now).operations) }
{
    let mut found = Vec::new(alloc);
    for operation in &grant.operations {
        if is_unneeded(alloc, task, cert, &grant.name, *operation)? {
            found.push(*operation)?;
        }
    }
    Ok(found)
}
