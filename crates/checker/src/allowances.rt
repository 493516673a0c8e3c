//! What a marked program may hold, and what is asked of that.

ghost use Rattle.std.specs.Prelude.{◌≡◌, ◌==◌, ◌&&◌, ◌||◌, [], MatchOption, not, map};
ghost use Rattle.std.specs.List.{list_all};
ghost use Rattle.certificate.specs.Growth.{IsCertificate};
ghost use Rattle.certificate.specs.Order.{same_class};
ghost use Rattle.certificate.specs.Views.{authorities_of, authority_of, ceiling_of, class_of, held_of, slot_of, target_of};
ghost use Rattle.texts.specs.Views.{name_of};
ghost use Rattle.checker.specs.AllowanceViews.{allowance_of};
ghost use Rattle.checker.specs.RuleViews.{keeps_in_authority};
ghost use Rattle.rights.specs.Classes.{Initial};
ghost use Rattle.rights.specs.Views.{operation_of, side_seen};
ghost use Rattle.rights.specs.Sets.{is_within};
ghost use Rattle.rules.specs.Authority.{authority_at, authority_in, ceiling_in, is_widest, keeps_ceiling, may_come, most_in};
ghost use Rattle.rules.specs.Authority.{may_have_slot, may_hold, may_hold_all, may_start_all, may_start_with, stays_in, unsaid};
ghost use Rattle.rules.specs.Channels.{channel_at};
ghost use Rattle.task.specs.Policies.{grant_lists};
ghost use Rattle.task.specs.Views.{first_descriptor_of, grants_of, start_of};

use crate::rule::AuthorityRule;
use certificate::{Authority, Ceiling, Cert, Class, Domain, End, Held, Side, Slot, Target};
use rights::{RightOperation, Rights, operations_of_rights};
use task::{FirstDescriptor, FirstObject, Grant, Start, Task, grant_lists, node_begins};
use texts::Name;
use transfer::{channel_at, unknown_held};

/// What a program may hold: nodes of grants with rights up to their ceilings, and ends. (own)
#[derive(Clone, Copy)]
pub struct Allowance<'a> {
    pub program: Name,
    pub ceilings: &'a [Ceiling],
    pub ends: &'a [End],
    /// Whether its task asks for further rights: else nothing is said of them.
    pub wide: bool,
}

/// The authority of the program of this name, the first of these, if it has one.
fn authority_among<'a>(authorities: &'a [Authority], program: &[u8]) -> Option<&'a Authority>
    ensures { MatchOption result
        (authority_in (authorities_of authorities.now) program.now ≡ record { program = program.now; ceilings = []; holds = [] })
        (λ a. authority_of a.now ≡ authority_in (authorities_of authorities.now) program.now) }
{
    authorities
        .iter()
        .find(|authority| authority.program().as_bytes() == program)
}

/// What a program of a task may hold by a certificate; nothing where it has no authority. `wide` is whether the task asks for
/// further rights. Who asks learns that it is a certificate. (own)
pub fn allowance_at<'a>(cert: &'a Cert, program: &Name, wide: bool) -> Allowance<'a>
    ensures wide { result.wide ≡ wide }
    ensures allowance { allowance_of result ≡ authority_at cert.now (name_of program.now) }
    ensures valid { IsCertificate cert.now }
{
    match authority_among(cert.authorities(), program.as_bytes()) {
        None => Allowance {
            program: *program,
            ceilings: &[],
            ends: &[],
            wide,
        },
        Some(authority) => Allowance {
            program: *authority.program(),
            ceilings: authority.ceilings(),
            ends: authority.holds(),
            wide,
        },
    }
}

/// The most rights on nodes of the grant of a name; none where there is no ceiling.
fn ceiling_among(ceilings: &[Ceiling], grant: &[u8]) -> Rights
    ensures { result.0 ≡ ceiling_in (map ceiling_of ceilings.now) grant.now }
{
    match ceilings
        .iter()
        .find(|ceiling| ceiling.grant().as_bytes() == grant)
    {
        None => Rights::empty(),
        Some(ceiling) => ceiling.rights(),
    }
}

/// The most rights that a program may have on nodes of the grant of a name, by its authority in a certificate; none where it has
/// no ceiling there. (own)
#[tactic(auto, unfolding(rules::specs::Authority::ceiling_in))]
pub fn ceiling_at(cert: &Cert, program: &[u8], grant: &[u8]) -> Rights
    ensures { result.0 ≡ ceiling_in (authority_at cert.now program.now).ceilings grant.now }
{
    match authority_among(cert.authorities(), program) {
        None => Rights::empty(),
        Some(authority) => ceiling_among(authority.ceilings(), grant),
    }
}

/// The rights of which an authority says nothing: the further ones, where the task doesn't ask for them.
fn unsaid(wide: bool) -> Rights
    ensures { result.0 ≡ unsaid wide }
{
    if wide {
        Rights::empty()
    } else {
        Rights::further()
    }
}

/// The most rights on nodes of the grant of a name; all further ones where nothing is said of them.
fn most_in(allowance: &Allowance<'_>, grant: &[u8]) -> Rights
    ensures { result.0 ≡ most_in allowance.now.wide (allowance_of allowance.now) grant.now }
{
    let said = ceiling_among(allowance.ceilings, grant);
    said.union(unsaid(allowance.wide))
}

/// Whether a descriptor of this target with at most these rights is within.
fn may_hold(allowance: &Allowance<'_>, target: &Target, rights: Rights) -> bool
    ensures { result ≡ may_hold allowance.now.wide (allowance_of allowance.now) (target_of target.now) rights.0 }
{
    match target {
        Target::InGrant(name) => most_in(allowance, name.as_bytes()).contains(rights),
        Target::AnyNode | Target::Unknown => false,
        Target::Socket(class, side) => {
            allowance
                .ends
                .iter()
                .any(|end| end.class().is(class) && end.side().is(*side))
        }
    }
}

/// Whether all descriptors are within that this describes. (own)
pub fn may_hold_all(allowance: &Allowance<'_>, held: &Held) -> bool
    ensures { result ≡ may_hold_all allowance.now.wide (allowance_of allowance.now) (held_of held.now) }
{
    may_hold(allowance, &held.target(), held.rights().greatest())
}

/// Whether a slot's descriptor is within, if it may be open. (own)
pub fn may_have_slot(allowance: &Allowance<'_>, slot: &Slot) -> bool
    ensures { result ≡ may_have_slot allowance.now.wide (allowance_of allowance.now) (slot_of slot.now) }
{
    match slot {
        Slot::Closed => true,
        Slot::Open(held) | Slot::Maybe(held) => may_hold_all(allowance, held),
    }
}

/// Whether a class is of this initial pair.
pub(crate) fn is_initial(class: &Class, pair: u8) -> bool
    ensures same { result ≡ same_class (class_of class.now) (Initial pair) }
    ensures turned { result ≡ same_class (Initial pair) (class_of class.now) }
{
    match class {
        Class::Initial(own) => own.number() == pair,
        Class::MadeAt(..) => false,
    }
}

/// Whether a first descriptor of the task is within: a node lies in some grant whose ceiling has its rights, and an end is listed. (own)
pub fn may_start_with(task: &Task, allowance: &Allowance<'_>, descriptor: FirstDescriptor) -> bool
    ensures { result ≡ may_start_with allowance.now.wide task.now (allowance_of allowance.now) (first_descriptor_of descriptor) }
{
    match descriptor.object {
        FirstObject::Node { node, .. } => {
            let nodes = task.nodes();
            task.grants().iter().any(|grant| {
                node_begins(nodes, node, &grant.path)
                    && most_in(allowance, grant.name.as_bytes()).contains(descriptor.rights)
            })
        }
        FirstObject::End { pair, side } => {
            allowance.ends.iter().any(|end| is_initial(&end.class(), pair) && end.side().is(side))
        }
    }
}

/// Whether each first descriptor of a process is within.
fn may_start(task: &Task, allowance: &Allowance<'_>, start: &Start) -> bool
    ensures { result ≡ list_all (may_start_with allowance.now.wide task.now (allowance_of allowance.now)) (start_of start.now).descriptors }
{
    start
        .descriptors
        .iter()
        .all(|first| may_start_with(task, allowance, *first))
}

/// Whether the first descriptors are of each process that starts in the mode with a program.
pub(crate) fn may_start_all(task: &Task, allowance: &Allowance<'_>, program: u8) -> bool
    ensures { result ≡ may_start_all allowance.now.wide task.now (allowance_of allowance.now) program task.now.starts }
{
    task.starts().iter().all(|start| {
        !(start.mode && start.program == program) || may_start(task, allowance, start)
    })
}

/// Whether the ceiling's grant lists the operation that a right is for, if the right is among these.
fn lists_if_held(grants: &[Grant], ceiling: &Ceiling, rights: Rights, own: RightOperation) -> bool
    ensures { result ≡ (not (is_within own.right.0 rights.0)
        || grant_lists (grants_of grants.now) (ceiling_of ceiling.now).grant (operation_of own.operation)) }
{
    !rights.contains(own.right) || grant_lists(grants, ceiling.grant().as_bytes(), own.operation)
}

/// Whether a ceiling's grant lists all that its rights are for. (rights(4))
pub fn keeps_ceiling(wide: bool, grants: &[Grant], ceiling: &Ceiling) -> bool
    ensures { result ≡ keeps_ceiling wide (grants_of grants.now) (ceiling_of ceiling.now) }
{
    let rights = ceiling.rights().asked(wide);
    operations_of_rights()
        .iter()
        .all(|own| lists_if_held(grants, ceiling, rights, *own))
}

/// Whether nothing can be moved from one ceiling's grant into another's, since they are of one grant, or one of them lacks the right. (own)
pub fn stays_in(source: &Ceiling, target: &Ceiling) -> bool
    ensures { result ≡ stays_in (ceiling_of source.now) (ceiling_of target.now) }
{
    source.grant().as_bytes() == target.grant().as_bytes()
        || !(source.rights().contains(Rights::RENAMEAT_SOURCE)
            && target.rights().contains(Rights::RENAMEAT_TARGET))
}

/// Whether nothing can be moved from one ceiling's grant into another of these.
fn stays_in_all(source: &Ceiling, targets: &[Ceiling]) -> bool
    ensures { result ≡ list_all (stays_in (ceiling_of source.now)) (map ceiling_of targets.now) }
{
    targets.iter().all(|target| stays_in(source, target))
}

/// Whether what this side of a class sends is known, and is within. (own)
pub fn may_come(cert: &Cert, allowance: &Allowance<'_>, class: &Class, side: Side) -> bool
    ensures { result ≡ may_come allowance.now.wide (allowance_of allowance.now) (channel_at cert.now (class_of class.now) (side_seen side)) }
{
    match channel_at(cert, class, side) {
        None => false,
        Some(channel) => match channel.sends() {
            None => true,
            Some(held) => may_hold_all(allowance, &held),
        },
    }
}

/// Whether anything is expected from this side of a class. (own)
pub fn is_widest(cert: &Cert, class: &Class, side: Side) -> bool
    ensures { result ≡ is_widest (channel_at cert.now (class_of class.now) (side_seen side)) }
{
    match channel_at(cert, class, side) {
        None => false,
        Some(channel) => match channel.sends() {
            None => false,
            Some(held) => unknown_held().within(&held),
        },
    }
}

/// Whether a program's authority keeps a rule.
pub(crate) fn keeps_in_authority(
    rule: AuthorityRule,
    task: &Task,
    cert: &Cert,
    allowance: &Allowance<'_>,
) -> bool
    ensures { result ≡ keeps_in_authority rule allowance.now.wide task.now cert.now (allowance_of allowance.now) }
{
    let (ceilings, ends) = (allowance.ceilings, allowance.ends);
    match rule {
        AuthorityRule::Ceilings => {
            let grants = task.grants();
            ceilings
                .iter()
                .all(|ceiling| keeps_ceiling(allowance.wide, grants, ceiling))
        }
        AuthorityRule::Moves => ceilings.iter().all(|source| stays_in_all(source, ceilings)),
        AuthorityRule::Received => {
            ends.iter().all(|end| may_come(cert, allowance, &end.class(), end.side().other()))
        }
        AuthorityRule::Sent => ends
            .iter()
            .all(|end| is_widest(cert, &end.class(), end.side())),
    }
}
