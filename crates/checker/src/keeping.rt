//! Whether a point of a program keeps a rule.

ghost use Rattle.std.specs.Prelude.{◌≡◌, ◌==◌, ◌&&◌, ◌||◌, Some, not, true};
ghost use Rattle.certificate.specs.Views.{bound_of};
ghost use Rattle.checker.specs.Asked.{is_rule_kept};
ghost use Rattle.checker.specs.PointViews.{authority_of_program, call_tests, call_tests_of, expansion_of, instruction_of_point, name_of_point, starts_there, successes_from, tests_by, tests_of};
ghost use Rattle.checker.specs.RuleViews.{authority_rule_number, call_rule_number, rule_number, slot_rule_number};
ghost use Rattle.instruction_set.specs.Views.{syscall_of};
ghost use Rattle.rules.specs.Outcomes.{error_outcomes};
ghost use Rattle.rules.specs.Rules.{all_there, authority_tests, enters_within, is_started, marked_at, tests_without};
ghost use Rattle.rules.specs.Slots.{may_be_on};

use crate::allowances::{keeps_in_authority, may_have_slot, may_start_all};
use crate::arrivals::{Arrival, error_arrives, successes_arrive};
use crate::asked::AskedPoint;
use crate::rule::{AuthorityRule, CallRule, Rule, SlotRule};
use crate::starts::{is_started, starts_within};
use crate::uses::{KeepsRule, in_the_mode};
use certificate::Bound;
use instruction_set::{Instruction, Syscall, enters_mode};
use transfer::{all_uses_pass, demanded, keeps_beneath, keeps_numbers, keeps_single, may_be_on};

/// Whether a call keeps a rule that is asked of each slot that it goes through.
fn keeps_slot_rule(rule: SlotRule, at: &AskedPoint<'_>, bound: &Bound, call: &Syscall) -> bool
    ensures { result ≡ is_rule_kept (call_tests at.now (bound_of bound.now) (syscall_of call.now)) (slot_rule_number rule) }
{
    let (task, cert) = (at.of.task, at.of.cert);
    let test = &KeepsRule { rule, task, cert };
    match rule {
        SlotRule::KnownObject | SlotRule::Policy => in_the_mode(bound, call, test),
        SlotRule::KnownNames => {
            !demanded(call).changes_global_names && all_uses_pass(bound, call, test)
        }
        SlotRule::Rights
        | SlotRule::Commands
        | SlotRule::Limit
        | SlotRule::Moves
        | SlotRule::Sent
        | SlotRule::Channel => all_uses_pass(bound, call, test),
    }
}

/// Whether a call keeps a rule on calls.
#[tactic(auto, unfolding(rules::specs::Rules::tests))]
fn keeps_call_rule(rule: CallRule, at: &AskedPoint<'_>, bound: &Bound, call: &Syscall) -> bool
    ensures { result ≡ is_rule_kept (call_tests at.now (bound_of bound.now) (syscall_of call.now)) (call_rule_number rule) }
{
    match rule {
        CallRule::OneNumber => keeps_single(bound, call),
        CallRule::FreeNumbers => keeps_numbers(bound, call),
        CallRule::NoGlobalPath => keeps_beneath(bound, call),
        CallRule::OfSlot(rule) => keeps_slot_rule(rule, at, bound, call),
    }
}

/// Whether a program's authority keeps a rule, which is asked at point 0 of a marked one.
#[tactic(auto, unfolding(rules::specs::Rules::authority_tests))]
fn keeps_authority_rule(rule: AuthorityRule, at: &AskedPoint<'_>) -> bool
    ensures { result ≡ is_rule_kept (authority_tests at.now.of.now.task.now at.now.of.now.cert.now at.now.of.now.program at.now.point) (authority_rule_number rule) }
{
    let of = at.of;
    if at.point != 0 || !of.marked {
        return true;
    }
    keeps_in_authority(rule, of.task, of.cert, &of.allowance)
}

/// Whether what a process holds that starts in the mode at this point is within its program's authority.
fn starts_in_authority(at: &AskedPoint<'_>) -> bool
    ensures { result ≡ starts_there at.now }
{
    at.point != 0 || may_start_all(at.of.task, &at.of.allowance, at.of.program)
}

/// Whether what a process may hold where it enters the mode at this point is within its program's authority.
fn enters_within(at: &AskedPoint<'_>, bound: &Bound) -> bool
    ensures { result ≡ enters_within at.now.of.now.task.now.wide (authority_of_program at.now.of.now) (instruction_of_point at.now) (bound_of bound.now) }
{
    let allowance = &at.of.allowance;
    !enters_mode(at.instruction)
        || bound
            .slots()
            .iter()
            .all(|slot| may_have_slot(allowance, slot))
}

/// Whether what a process of a marked program takes into the mode at this point, or starts with in it, is within its authority.
fn takes_within(at: &AskedPoint<'_>, bound: &Bound) -> bool
    ensures { result ≡ (not (marked_at at.now.of.now.task.now at.now.of.now.program)
        || (enters_within at.now.of.now.task.now.wide (authority_of_program at.now.of.now) (instruction_of_point at.now) (bound_of bound.now)
        && starts_there at.now)) }
{
    !at.of.marked || (enters_within(at, bound) && starts_in_authority(at))
}

/// Whether the points of a marked program bound it outside the mode alone.
fn stays_outside(at: &AskedPoint<'_>, bound: &Bound) -> bool
    ensures { result ≡ (not (marked_at at.now.of.now.task.now at.now.of.now.program) || not (may_be_on (bound_of bound.now).mode)) }
{
    !at.of.marked || !may_be_on(bound.mode())
}

/// Whether each point that the instruction leads to has a bound.
fn leads_to_bounds(at: &AskedPoint<'_>, bound: &Bound) -> bool
    ensures { result ≡ (all_there (expansion_of at.now.of.now) (name_of_point at.now) (successes_from at.now (bound_of bound.now))
        && all_there (expansion_of at.now.of.now) (name_of_point at.now) (error_outcomes (bound_of bound.now) (instruction_of_point at.now))) }
{
    successes_arrive(at, bound, Arrival::There) && error_arrives(at, bound, Arrival::There)
}

/// Whether the instruction keeps a rule on calls, as each keeps that is none.
fn keeps_if_call(rule: CallRule, at: &AskedPoint<'_>, bound: &Bound) -> bool
    ensures { result ≡ is_rule_kept (call_tests_of at.now (bound_of bound.now) (instruction_of_point at.now)) (call_rule_number rule) }
{
    let Instruction::Invoke { call, .. } = at.instruction else {
        return true;
    };
    keeps_call_rule(rule, at, bound, call)
}

/// Whether a point that has this bound keeps a rule.
fn keeps_with(rule: Rule, at: &AskedPoint<'_>, bound: &Bound) -> bool
    ensures { result ≡ is_rule_kept (tests_by at.now (Some (bound_of bound.now))) (rule_number rule) }
{
    match rule {
        Rule::StartsWithin => starts_within(at, bound),
        Rule::SuccessesWithin => successes_arrive(at, bound, Arrival::Within),
        Rule::ErrorsWithin => error_arrives(at, bound, Arrival::Within),
        Rule::OfCall(rule) => keeps_if_call(rule, at, bound),
        Rule::LeadsToBounds => leads_to_bounds(at, bound),
        Rule::BoundsOutside => stays_outside(at, bound),
        Rule::TakesWithin => takes_within(at, bound),
        Rule::OfAuthority(rule) => keeps_authority_rule(rule, at),
    }
}

/// Whether a process that is bounded by the program's points starts at this one.
fn is_begun(at: &AskedPoint<'_>) -> bool
    ensures { result ≡ ((at.now.point == 0) && is_started at.now.of.now.task.now at.now.of.now.program) }
{
    at.point == 0 && is_started(at.of)
}

/// Whether a point without a bound keeps a rule. It is claimed not to be reached, so few are asked of it.
#[tactic(auto, unfolding(rules::specs::Rules::tests_without))]
fn keeps_without(rule: Rule, at: &AskedPoint<'_>) -> bool
    ensures { result ≡ is_rule_kept (tests_without at.now.of.now.task.now (expansion_of at.now.of.now) at.now.of.now.program at.now.point) (rule_number rule) }
{
    match rule {
        Rule::LeadsToBounds => !is_begun(at),
        Rule::TakesWithin => !at.of.marked || starts_in_authority(at),
        Rule::OfAuthority(rule) => keeps_authority_rule(rule, at),
        Rule::StartsWithin
        | Rule::SuccessesWithin
        | Rule::ErrorsWithin
        | Rule::OfCall(_)
        | Rule::BoundsOutside => true,
    }
}

/// Whether a point keeps a rule: that is the rule's test in the definition.
pub(crate) fn keeps(rule: Rule, at: &AskedPoint<'_>) -> bool
    ensures { result ≡ is_rule_kept (tests_of at.now) (rule_number rule) }
{
    match &at.bound {
        Some(bound) => keeps_with(rule, at, bound),
        None => keeps_without(rule, at),
    }
}
