//! What a call looks up beneath a descriptor, and what of it is otherwise in FreeBSD. (docs/FREEBSD.md)

ghost use Rattle.std.specs.Prelude.{◌≡◌, ◌&&◌, ◌||◌, ◌==◌, ◌∷◌, [], None, Some, false, map, not, option_map};
ghost use Rattle.std.specs.List.{list_all, list_any};
ghost use Rattle.std.specs.Option.{option_map_or};
ghost use Rattle.call_facts.specs.ArgumentViews.{argument_seen};
ghost use Rattle.certificate.specs.Views.{bound_of, held_of, mode_of, slot_of, target_of};
ghost use Rattle.instruction_set.specs.Views.{operand_of, syscall_of};
ghost use Rattle.remarks.specs.RemarkViews.{beneath_of, look_of};
ghost use Rattle.lookup.specs.Paths.{is_absolute};
ghost use Rattle.remarks.specs.Warnings.{are_all_open, are_limited, are_open_but_one, beneath, creates, goes_out, is_unlimited, leads_out, lets_look};
ghost use Rattle.remarks.specs.Warnings.{limits_nothing, limits_nothing_by, looks_unlisted, makes_beyond, may_be_off, name_leads_out, one_beneath, passes_by, takes_beyond, takes_one_beyond};
ghost use Rattle.rights.specs.Sets.{fcntl_right, is_within};
ghost use Rattle.rules.specs.Slots.{slots_in};
ghost use Rattle.task.specs.Views.{grants_of};

use crate::link_names::names_link;
use call_facts::{
    Argument, Arguments, arguments_of, first_operand, first_path, opening_flags, second_operand,
    second_path,
};
use certificate::{Bound, Held, ModeBound, Slot, Target};
use instruction_set::{Operand, Syscall};
use rights::{Fcntls, Op, OpenFlags, Rights};
use task::{Grant, Task, grant_lists};
use texts::first_part;
use transfer::{SlotTest, Takes, all_slots_pass, demanded, may_be_on};

/// A path that is looked up beneath a descriptor.
#[derive(Clone, Copy)]
pub(crate) struct Look<'a> {
    pub descriptor: Operand,
    pub path: &'a [u8],
}

/// The paths that a call looks up beneath descriptors: none, one, or the two of a move.
#[derive(Clone, Copy)]
pub(crate) struct Looks<'a> {
    pub first: Option<Look<'a>>,
    pub second: Option<Look<'a>>,
}

/// A path beneath a descriptor, if there are both.
fn look_of<'a>(descriptor: Option<Operand>, path: Option<&'a [u8]>) -> Option<Look<'a>>
    ensures { look_of result ≡ one_beneath (option_map operand_of descriptor) (option_map (λ p. p.now) path.entry) }
{
    match descriptor {
        None => None,
        Some(descriptor) => match path {
            None => None,
            Some(path) => Some(Look { descriptor, path }),
        },
    }
}

/// What a call looks up beneath descriptors.
fn beneath(call: &Syscall) -> Looks<'_>
    ensures { beneath_of result ≡ beneath (syscall_of call.now) }
{
    Looks {
        first: look_of(first_operand(call), first_path(call)),
        second: look_of(second_operand(call), second_path(call)),
    }
}

/// Whether a process may be outside the mode.
pub(crate) fn may_be_off(mode: ModeBound) -> bool
    ensures { result ≡ may_be_off (mode_of mode) }
{
    match mode {
        ModeBound::Off | ModeBound::Either => true,
        ModeBound::On => false,
    }
}

/// The test that a slot has less than all rights and all commands.
#[derive(Clone, Copy)]
struct IsLimited;

impl SlotTest for IsLimited {
    ghost passes = { λ t s. not (is_unlimited s.held) };

    fn asks(&self, _number: u8, held: &Held) -> bool {
        !(held.rights().greatest().contains(Rights::plain())
            && held.fcntls().greatest() == Fcntls::all())
    }
}

/// Whether each slot that an operand may name has less than all rights and all commands.
fn are_limited(bound: &Bound, operand: Operand) -> bool
    ensures { result ≡ are_limited (bound_of bound.now) (operand_of operand) }
{
    all_slots_pass(bound, operand, &IsLimited)
}

/// The test that a slot has FCNTL for sure.
#[derive(Clone, Copy)]
struct HasFcntl;

impl SlotTest for HasFcntl {
    ghost passes = { λ t s. is_within fcntl_right s.held.least };

    fn asks(&self, _number: u8, held: &Held) -> bool {
        held.rights().least().contains(Rights::FCNTL)
    }
}

/// The test that looking is listed by what a slot is in.
#[derive(Clone, Copy)]
struct LetsLook<'a> {
    grants: &'a [Grant],
}

/// Whether a grant lists looking, if it is one.
pub(crate) fn lets_look(grants: &[Grant], target: &Target) -> bool
    ensures { result ≡ lets_look (grants_of grants.now) (target_of target.now) }
{
    match target {
        Target::InGrant(name) => grant_lists(grants, name.as_bytes(), Op::Look),
        Target::AnyNode | Target::Unknown | Target::Socket(..) => true,
    }
}

impl<'a> SlotTest for LetsLook<'a> {
    ghost passes = { λ t s. lets_look (grants_of t.grants.now) s.held.target };

    fn asks(&self, _number: u8, held: &Held) -> bool {
        lets_look(self.grants, &held.target())
    }
}

/// Whether a path begins at the root.
fn is_absolute(path: &[u8]) -> bool
    ensures { result ≡ is_absolute path.now }
{
    match path {
        [] => false,
        [first, ..] => *first == b'/',
    }
}

/// Whether a name of a path may lead out of its directory.
fn name_leads_out(task: &Task, name: &[u8]) -> bool
    ensures { result ≡ name_leads_out task.now name.now }
{
    name == b"..".as_slice() || names_link(task, name)
}

/// Whether some name of a path may.
fn leads_out(task: &Task, path: &[u8]) -> bool
    ensures { result ≡ leads_out task.now path.now }
{
    let (first, behind) = first_part(path, b'/');
    if name_leads_out(task, first) {
        return true;
    }
    match behind {
        None => false,
        Some(rest) => leads_out(task, rest),
    }
}

/// Whether a call outside the mode has an absolute path, so that its descriptor counts for nothing.
pub(crate) fn passes_by(bound: &Bound, call: &Syscall) -> bool
    ensures { result ≡ passes_by (bound_of bound.now) (syscall_of call.now) }
{
    let looks = beneath(call);
    may_be_off(bound.mode()) && (is_absolute_look(&looks.first) || is_absolute_look(&looks.second))
}

/// Whether a path that is looked up is absolute, if there is one.
fn is_absolute_look(look: &Option<Look<'_>>) -> bool
    ensures { result ≡ list_any (λ q. is_absolute q.path) (look_of look.now) }
{
    match look {
        None => false,
        Some(look) => is_absolute(look.path),
    }
}

/// Whether a path may lead out of a directory that isn't limited, if there is one.
fn look_goes_out(task: &Task, bound: &Bound, look: &Option<Look<'_>>) -> bool
    ensures { result ≡ list_any (λ q. leads_out task.now q.path && not (are_limited (bound_of bound.now) q.descriptor)) (look_of look.now) }
{
    match look {
        None => false,
        Some(look) => leads_out(task, look.path) && !are_limited(bound, look.descriptor),
    }
}

/// Whether a call outside the mode may lead out of a directory that isn't limited.
pub(crate) fn goes_out(task: &Task, bound: &Bound, call: &Syscall) -> bool
    ensures { result ≡ goes_out task.now (bound_of bound.now) (syscall_of call.now) }
{
    let looks = beneath(call);
    may_be_off(bound.mode())
        && (look_goes_out(task, bound, &looks.first) || look_goes_out(task, bound, &looks.second))
}

/// Whether a file is made where there is none.
fn creates(flags: Option<OpenFlags>) -> bool
    ensures { result ≡ creates flags }
{
    match flags {
        None => false,
        Some(flags) => flags.create(),
    }
}

/// Whether there is a descriptor, and it isn't limited.
fn goes_by_unlimited(bound: &Bound, descriptor: Option<Operand>) -> bool
    ensures { result ≡ option_map_or (λ x. not (are_limited (bound_of bound.now) x)) (option_map operand_of descriptor) false }
{
    match descriptor {
        None => false,
        Some(descriptor) => !are_limited(bound, descriptor),
    }
}

/// Whether a call outside the mode may make a file where a last link leads, beneath a directory that isn't limited.
pub(crate) fn makes_beyond(bound: &Bound, call: &Syscall) -> bool
    ensures { result ≡ makes_beyond (bound_of bound.now) (syscall_of call.now) }
{
    may_be_off(bound.mode())
        && creates(opening_flags(call))
        && goes_by_unlimited(bound, first_operand(call))
}

/// Whether these arguments limit commands where FCNTL may be gone.
fn limits_nothing_by(bound: &Bound, first: &Argument<'_>, second: &Argument<'_>) -> bool
    ensures { result ≡ limits_nothing_by (bound_of bound.now) (argument_seen first.now ∷ argument_seen second.now ∷ []) }
{
    match (first, second) {
        (Argument::Descriptor(descriptor), Argument::Commands(commands)) => {
            *commands != Fcntls::empty() && !all_slots_pass(bound, *descriptor, &HasFcntl)
        }
        _ => false,
    }
}

/// Whether a call limits commands where FCNTL may be gone.
pub(crate) fn limits_nothing(bound: &Bound, call: &Syscall) -> bool
    ensures { result ≡ limits_nothing (bound_of bound.now) (syscall_of call.now) }
{
    match arguments_of(call) {
        Arguments::Two(first, second) => limits_nothing_by(bound, &first, &second),
        Arguments::None | Arguments::One(_) | Arguments::Three(_, _, _) => false,
        Arguments::Four(_, _, _, _) => false,
    }
}

/// Whether each of some slots may be open.
fn are_all_open(slots: &[Slot]) -> bool
    ensures { result ≡ are_all_open (map slot_of slots.now) }
{
    match slots {
        [] => true,
        [slot, rest @ ..] => slot.held().is_some() && are_all_open(rest),
    }
}

/// Whether a call takes a number, where all may be open.
pub(crate) fn takes_beyond(bound: &Bound, call: &Syscall) -> bool
    ensures { result ≡ takes_beyond (bound_of bound.now) (syscall_of call.now) }
{
    let takes = match demanded(call).takes {
        Takes::Nothing => false,
        Takes::One | Takes::Two => true,
    };
    takes && are_all_open(bound.slots())
}

/// Whether each of some slots but one may be open.
fn are_open_but_one(slots: &[Slot]) -> bool
    ensures { result ≡ are_open_but_one (map slot_of slots.now) }
{
    match slots {
        [] => false,
        [slot, rest @ ..] => {
            if slot.held().is_some() {
                are_open_but_one(rest)
            } else {
                are_all_open(rest)
            }
        }
    }
}

/// Whether a call takes two numbers, where all but one may be open.
pub(crate) fn takes_one_beyond(bound: &Bound, call: &Syscall) -> bool
    ensures { result ≡ takes_one_beyond (bound_of bound.now) (syscall_of call.now) }
{
    let takes = match demanded(call).takes {
        Takes::Nothing | Takes::One => false,
        Takes::Two => true,
    };
    takes && are_open_but_one(bound.slots())
}

/// Whether a path is looked up in a grant that doesn't list looking, if there is one.
fn look_is_unlisted(grants: &[Grant], bound: &Bound, look: &Option<Look<'_>>) -> bool
    ensures { result ≡ list_any (λ q. not (list_all (λ s. lets_look (grants_of grants.now) s.held.target) (slots_in (bound_of bound.now) q.descriptor))) (look_of look.now) }
{
    match look {
        None => false,
        Some(look) => !all_slots_pass(bound, look.descriptor, &LetsLook { grants }),
    }
}

/// Whether a call in the mode looks something up in a grant that doesn't list looking.
pub(crate) fn looks_unlisted(grants: &[Grant], bound: &Bound, call: &Syscall) -> bool
    ensures { result ≡ looks_unlisted (grants_of grants.now) (bound_of bound.now) (syscall_of call.now) }
{
    let looks = beneath(call);
    may_be_on(bound.mode())
        && (look_is_unlisted(grants, bound, &looks.first)
            || look_is_unlisted(grants, bound, &looks.second))
}
