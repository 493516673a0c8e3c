//! Where each call may lead, but for errors.

ghost use Rattle.std.specs.Prelude.{◌≡◌, ◌-◌, true};
ghost use Rattle.rights.specs.Views.{side_seen};
ghost use Rattle.certificate.specs.Views.{bound_of, held_of, interval_of, mode_of};
ghost use Rattle.instruction_set.specs.Programs.{Cap_enter, Fork, Socketpair};
ghost use Rattle.instruction_set.specs.Views.{syscall_of};
ghost use Rattle.rules.specs.Outcomes.{is_formed, is_surely_on, mode_interval};
ghost use Rattle.transfer.specs.CallViews.{call_at, end_at, invoked_at, pair_made};
ghost use Rattle.transfer.specs.Kept.{TestsEach};
ghost use Rattle.transfer.specs.Limits.{has_known_limit};
ghost use Rattle.transfer.specs.MannerViews.{led_by};

use crate::channels::all_have_channels;
use crate::demands::{demanded, keeps_single};
use crate::given::{Kind, both_given_pass, given_passes, step_passes};
use crate::intervals::only;
use crate::outcomes::Change;
use crate::slots::{FreeNumbers, Takes, free_numbers};
use crate::successes::{Act, Limit, OutcomeVisitor, Site, all_pass, next_passes, taken_passes};
use crate::targets::{all_held, target_of_path};
use certificate::{
    Bound, Class, FcntlsRange, Held, Interval, ModeBound, RightsRange, Side, Slot, Target,
};
use instruction_set::{Operand, Syscall};
use rights::acts_beneath;
use rights::limits::{MAX_BYTES, MAX_PROCESSES};

/// Whether a process is surely in capability mode.
fn is_surely_on(mode: ModeBound) -> bool
    ensures { result ≡ is_surely_on (mode_of mode) }
{
    match mode {
        ModeBound::On => true,
        ModeBound::Off | ModeBound::Either => false,
    }
}

/// What `cap_getmode` gives.
fn mode_interval(mode: ModeBound) -> Interval
    ensures { interval_of result ≡ mode_interval (mode_of mode) }
{
    match mode {
        ModeBound::Off => only(0),
        ModeBound::On => only(1),
        ModeBound::Either => Interval::new(0, 1),
    }
}

/// Whether the success of a call is looked at: where its slot is a single number if it has to be, the channels that it uses
/// are known, and it isn't surely kept from a global name space by the mode.
fn is_formed(site: &Site<'_>, call: &Syscall) -> bool
    ensures { result ≡ is_formed site.now.cert.now (bound_of site.now.bound.now) (syscall_of call.now) }
{
    keeps_single(site.bound, call)
        && all_have_channels(site.cert, site.bound, call)
        && !(is_surely_on(site.bound.mode()) && demanded(call).is_global)
}

/// An end of a pair that is made at this point.
fn end_at(site: &Site<'_>, side: Side) -> Held
    ensures { held_of result ≡ end_at site.now (side_seen side) }
{
    all_held(Target::Socket(Class::MadeAt(*site.name, site.point), side))
}

/// The bound with both ends of a new pair, and the second number in register 1.
fn paired(site: &Site<'_>, first: u8, second: u8) -> Bound
    ensures { bound_of result ≡ pair_made site.now first second }
{
    site.bound
        .with_slot(first, Slot::Open(end_at(site, Side::A)))
        .with_slot(second, Slot::Open(end_at(site, Side::B)))
        .with_interval(1, only(second as u32))
}

/// Whether the outcome passes of a new pair, if two numbers are free.
fn pair_passes<T: OutcomeVisitor>(site: &Site<'_>, visitor: &mut T) -> bool
    ensures { TestsEach T.passes T.joins T.kept visitor.old visitor.new result
        (call_at site.now Socketpair) }
{
    match free_numbers(Takes::Two, site.bound) {
        None | Some(FreeNumbers::None | FreeNumbers::One(_)) => true,
        Some(FreeNumbers::Two(first, second)) => {
            let change = Change::Register {
                register: 0,
                interval: only(first as u32),
            };
            next_passes(site, &paired(site, first, second), change, visitor)
        }
    }
}

/// Whether the outcome of entering the mode passes.
fn entered_passes<T: OutcomeVisitor>(site: &Site<'_>, visitor: &mut T) -> bool
    ensures { TestsEach T.passes T.joins T.kept visitor.old visitor.new result
        (call_at site.now Cap_enter) }
{
    let change = Change::Register {
        register: 0,
        interval: only(0),
    };
    next_passes(site, &site.bound.with_mode(ModeBound::On), change, visitor)
}

/// Whether the outcomes pass of a child and of its parent, which gets the child's number.
fn forked_pass<T: OutcomeVisitor>(site: &Site<'_>, visitor: &mut T) -> bool
    ensures { TestsEach T.passes T.joins T.kept visitor.old visitor.new result
        (call_at site.now Fork) }
{
    step_passes(site, only(0), visitor)
        && step_passes(site, Interval::new(1, MAX_PROCESSES as u32 - 1), visitor)
}

/// How the successes of a call are asked about.
#[derive(Clone, Copy)]
enum Manner {
    /// By what it does with each slot of an operand.
    Acts(Act, Operand),
    /// All slots stay, and register 0 gets this for each slot of an operand that may be of a kind,
    Gives(Operand, Kind, Interval),
    /// for each of one operand and each of another,
    GivesBoth((Operand, Kind), (Operand, Kind), Interval),
    /// or whatever the slots are.
    Stays(Interval),
    /// The lowest free number is taken for this.
    Takes(Held),
    /// It enters the mode.
    Enters,
    /// It makes a pair.
    Pairs,
    /// It makes a child.
    Forks,
}

/// How the successes of a call are asked about.
fn manner_of(site: &Site<'_>, call: &Syscall) -> Manner
    requires { has_known_limit (syscall_of call.now) ≡ true }
    ensures { led_by site.now result ≡ call_at site.now (syscall_of call.now) }
{
    match call {
        Syscall::Open { path, .. } => {
            Manner::Takes(all_held(target_of_path(site.task, path.bytes())))
        }
        Syscall::Openat { descriptor, .. } => Manner::Acts(Act::Opens, *descriptor),
        Syscall::Recvfd { descriptor } => Manner::Acts(Act::Receives, *descriptor),
        Syscall::Dup { descriptor } => Manner::Acts(Act::Copies, *descriptor),
        Syscall::Close { descriptor } => Manner::Acts(Act::Closes, *descriptor),
        Syscall::CapRightsLimit { descriptor, rights } => {
            let left = RightsRange::new(*rights, *rights);
            Manner::Acts(Act::Limits(Limit::Rights(left)), *descriptor)
        }
        Syscall::CapFcntlsLimit {
            descriptor,
            commands,
        } => {
            let left = FcntlsRange::new(*commands, *commands);
            Manner::Acts(Act::Limits(Limit::Commands(left)), *descriptor)
        }
        Syscall::CapEnter => Manner::Enters,
        Syscall::Socketpair => Manner::Pairs,
        Syscall::Fork => Manner::Forks,
        Syscall::Use { descriptor, right } if acts_beneath(*right) => {
            Manner::Gives(*descriptor, Kind::Node, only(0))
        }
        Syscall::Use { descriptor, .. } => Manner::Gives(*descriptor, Kind::Any, only(0)),
        Syscall::CapGetmode => Manner::Stays(mode_interval(site.bound.mode())),
        Syscall::Stat { .. } => Manner::Stays(Interval::new(1, 2)),
        Syscall::Mkdir { .. } | Syscall::Unlink { .. } => Manner::Stays(only(0)),
        Syscall::Read { descriptor } => {
            Manner::Gives(*descriptor, Kind::Any, Interval::new(0, 256))
        }
        Syscall::Write { descriptor, .. } => Manner::Gives(*descriptor, Kind::Any, only(1)),
        Syscall::Sendfd {
            descriptor,
            sent,
            ..
        } => Manner::GivesBoth((*descriptor, Kind::End), (*sent, Kind::Any), only(1)),
        Syscall::Lseek { descriptor, .. } => {
            Manner::Gives(*descriptor, Kind::Any, Interval::new(0, MAX_BYTES as u32))
        }
        Syscall::Ftruncate { descriptor, .. }
        | Syscall::Fsync { descriptor }
        | Syscall::FcntlSetfl { descriptor, .. } => Manner::Gives(*descriptor, Kind::Any, only(0)),
        Syscall::Fstat { descriptor } => Manner::Gives(*descriptor, Kind::Any, Interval::new(1, 3)),
        Syscall::FcntlGetfl { descriptor } => {
            Manner::Gives(*descriptor, Kind::Any, Interval::new(0, 3))
        }
        Syscall::Fstatat { descriptor, .. } => {
            Manner::Gives(*descriptor, Kind::Node, Interval::new(1, 2))
        }
        Syscall::Mkdirat { descriptor, .. } | Syscall::Unlinkat { descriptor, .. } => {
            Manner::Gives(*descriptor, Kind::Node, only(0))
        }
        Syscall::Renameat {
            descriptor,
            target,
            ..
        } => Manner::GivesBoth((*descriptor, Kind::Node), (*target, Kind::Node), only(0)),
    }
}

/// Whether the outcomes pass that a call leads to by its manner.
fn passes_by<T: OutcomeVisitor>(site: &Site<'_>, manner: &Manner, visitor: &mut T) -> bool
    ensures { TestsEach T.passes T.joins T.kept visitor.old visitor.new result
        (led_by site.now manner.now) }
{
    match manner {
        Manner::Acts(act, operand) => all_pass(site, *act, *operand, visitor),
        Manner::Gives(operand, kind, given) => given_passes(site, *operand, *kind, *given, visitor),
        Manner::GivesBoth(first, second, given) => {
            both_given_pass(site, *first, *second, *given, visitor)
        }
        Manner::Stays(given) => step_passes(site, *given, visitor),
        Manner::Takes(held) => taken_passes(site, held, visitor),
        Manner::Enters => entered_passes(site, visitor),
        Manner::Pairs => pair_passes(site, visitor),
        Manner::Forks => forked_pass(site, visitor),
    }
}

/// Whether each success of a call passes, where it is looked at.
pub(crate) fn call_passes<T: OutcomeVisitor>(
    site: &Site<'_>,
    call: &Syscall,
    visitor: &mut T,
) -> bool
    requires { has_known_limit (syscall_of call.now) ≡ true }
    ensures { TestsEach T.passes T.joins T.kept visitor.old visitor.new result
        (invoked_at site.now (syscall_of call.now)) }
{
    !is_formed(site, call) || passes_by(site, &manner_of(site, call), visitor)
}
