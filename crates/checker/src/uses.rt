//! The rules on each slot that a call may go through.

ghost use Rattle.std.specs.Prelude.{◌≡◌, option_map};
ghost use Rattle.std.specs.List.{list_all};
ghost use Rattle.certificate.specs.Order.{held_within};
ghost use Rattle.certificate.specs.Views.{bound_of, held_of, target_of};
ghost use Rattle.checker.specs.KeptUses.{keeps_all};
ghost use Rattle.checker.specs.RuleViews.{keeps_at_slot};
ghost use Rattle.instruction_set.specs.Programs.{Invoke};
ghost use Rattle.instruction_set.specs.Views.{operand_of, syscall_of};
ghost use Rattle.rules.specs.Channels.{sends_into};
ghost use Rattle.rules.specs.Expansions.{expansion};
ghost use Rattle.rules.specs.Rules.{in_the_mode, is_known, same_grant, target_lists};
ghost use Rattle.rules.specs.Slots.{OpenSlot, slots_in};
ghost use Rattle.rules.specs.Uses.{named_slots};
ghost use Rattle.transfer.specs.Views.{operation_list};

use crate::rule::SlotRule;
use certificate::{Bound, Cert, Domain, Held, Target};
use instruction_set::{Operand, Syscall};
use rights::Op;
use task::{Task, grant_lists};
use transfer::{
    HasChannel, Need, Passed, SlotTest, UseTest, all_slots_pass, all_uses_pass, channel_at,
    may_be_on,
};

/// Whether each slot that a call may go through passes, where a process may be in capability mode.
pub(crate) fn in_the_mode<T: UseTest>(bound: &Bound, call: &Syscall, test: &T) -> bool
    ensures { result ≡ in_the_mode (bound_of bound.now) (T.passes test.now) (Invoke (syscall_of call.now) 0) }
{
    !may_be_on(bound.mode()) || all_uses_pass(bound, call, test)
}

/// Whether what it is of is known: a node of a grant, or a socket.
fn is_known(target: &Target) -> bool
    ensures { result ≡ is_known (target_of target.now) }
{
    match target {
        Target::InGrant(_) | Target::Socket(..) => true,
        Target::AnyNode | Target::Unknown => false,
    }
}

/// Whether the grant lists the operation, if there is one, where the target is in one. (own)
pub fn target_lists(task: &Task, target: &Target, operation: Option<Op>) -> bool
    ensures { result ≡ list_all (target_lists task.now.grants (target_of target.now)) (operation_list operation) }
{
    match (target, operation) {
        (Target::InGrant(name), Some(operation)) => {
            grant_lists(task.grants(), name.as_bytes(), operation)
        }
        (_, None) | (Target::AnyNode | Target::Socket(..) | Target::Unknown, Some(_)) => true,
    }
}

/// The test whether a slot is in no other grant than this target. (own)
#[derive(Clone, Copy)]
pub struct SameGrant<'a> {
    pub source: &'a Target,
}

impl<'a> SlotTest for SameGrant<'a> {
    ghost passes = { λ t slot. same_grant (target_of t.source.now) slot.held.target };

    fn asks(&self, _number: u8, held: &Held) -> bool {
        match (self.source, &held.target()) {
            (Target::InGrant(source), Target::InGrant(target)) => {
                source.as_bytes() == target.as_bytes()
            }
            (Target::InGrant(_), Target::AnyNode | Target::Socket(..) | Target::Unknown)
            | (Target::AnyNode | Target::Socket(..) | Target::Unknown, _) => true,
        }
    }
}

/// The test whether a slot is within what a channel sends. (own)
#[derive(Clone, Copy)]
pub struct IsWithin<'a> {
    pub most: &'a Held,
}

impl<'a> SlotTest for IsWithin<'a> {
    ghost passes = { λ t slot. held_within slot.held (held_of t.most.now) };

    fn asks(&self, _number: u8, held: &Held) -> bool {
        held.within(self.most)
    }
}

/// Whether each slot of an operand may be sent from here, where the channel has a line.
fn sends_into(cert: &Cert, bound: &Bound, target: &Target, sent: Operand) -> bool
    ensures { result ≡ sends_into cert.now (target_of target.now)
        (slots_in (bound_of bound.now) (operand_of sent)) }
{
    match target {
        Target::InGrant(_) | Target::AnyNode | Target::Unknown => true,
        Target::Socket(class, side) => match channel_at(cert, class, *side) {
            None => true,
            Some(channel) => match channel.sends() {
                None => false,
                Some(most) => all_slots_pass(bound, sent, &IsWithin { most: &most }),
            },
        },
    }
}

/// Whether nothing is moved from a slot of this target into another grant.
fn moves_within(bound: &Bound, source: &Target, targets: Option<Operand>) -> bool
    ensures { result ≡ list_all (λ (t : OpenSlot). same_grant (target_of source.now) t.held.target)
        (named_slots (bound_of bound.now) (option_map operand_of targets)) }
{
    match targets {
        None => true,
        Some(operand) => all_slots_pass(bound, operand, &SameGrant { source }),
    }
}

/// The test whether a slot that a call goes through keeps a rule. (own; after rights(4), capsicum(4), cap_rights_limit(2),
/// cap_fcntls_limit(2), sendmsg(2) and recvmsg(2))
#[derive(Clone, Copy)]
pub struct KeepsRule<'a> {
    pub rule: SlotRule,
    pub task: &'a Task,
    pub cert: &'a Cert,
}

impl<'a> UseTest for KeepsRule<'a> {
    ghost passes = { λ t u. keeps_at_slot t.rule t.task.now (expansion t.task.now t.cert.now) u };

    #[inline(always)]
    #[tactic(auto, using(rules::proofs::expansions::Channelled::expansion_keeps, rules::proofs::expansions::Channelled::expansion_has))]
    fn asks(&self, bound: &Bound, need: &Need, number: u8, held: &Held) -> bool {
        let cert = self.cert;
        let target = &held.target();
        match self.rule {
            SlotRule::Rights => held.rights().least().contains(need.rights),
            SlotRule::Commands => {
                held.fcntls().least().contains(need.commands)
                    && held.rights().least().contains(need.further)
            }
            SlotRule::Limit => {
                held.rights().least().contains(need.kept_rights)
                    && held.fcntls().least().contains(need.kept_commands)
            }
            SlotRule::KnownObject => !need.works || is_known(target),
            SlotRule::Policy => {
                target_lists(self.task, target, need.operation)
                    && target_lists(self.task, target, need.other_operation)
            }
            SlotRule::KnownNames => !need.changes_names || is_known(target),
            SlotRule::Moves => moves_within(bound, target, need.targets),
            SlotRule::Sent => match need.passed {
                Passed::Nothing | Passed::Received => true,
                Passed::Sent(sent) => sends_into(cert, bound, target, sent),
            },
            SlotRule::Channel => HasChannel { cert }.asks(bound, need, number, held),
        }
    }
}

/// The test of all that the rules 7 to 14 ask of a slot that a call goes through.
#[derive(Clone, Copy)]
pub(crate) struct KeepsAll<'a> {
    pub task: &'a Task,
    pub cert: &'a Cert,
    /// The process may be in capability mode.
    pub may_be_on: bool,
}

impl<'a> KeepsAll<'a> {
    /// The test of one of the rules.
    fn test(&self, rule: SlotRule) -> KeepsRule<'a>
        ensures rule { result.rule ≡ rule }
        ensures task { result.task.now ≡ self.now.task.now }
        ensures cert { result.cert.now ≡ self.now.cert.now }
    {
        KeepsRule {
            rule,
            task: self.task,
            cert: self.cert,
        }
    }
}

impl<'a> UseTest for KeepsAll<'a> {
    ghost passes = { λ t u. keeps_all t.task.now (expansion t.task.now t.cert.now) t.may_be_on u };

    fn asks(&self, bound: &Bound, need: &Need, number: u8, held: &Held) -> bool {
        let on = self.may_be_on;
        self.test(SlotRule::Rights).asks(bound, need, number, held)
            && self
                .test(SlotRule::Commands)
                .asks(bound, need, number, held)
            && self.test(SlotRule::Limit).asks(bound, need, number, held)
            && (!on
                || self
                    .test(SlotRule::KnownObject)
                    .asks(bound, need, number, held))
            && (!on || self.test(SlotRule::Policy).asks(bound, need, number, held))
            && self
                .test(SlotRule::KnownNames)
                .asks(bound, need, number, held)
            && self.test(SlotRule::Moves).asks(bound, need, number, held)
            && self.test(SlotRule::Sent).asks(bound, need, number, held)
    }
}
