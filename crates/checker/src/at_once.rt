//! The rules at a point, asked at once, and one by one only where one of them is broken.

ghost use Rattle.std.specs.Prelude.{◌≡◌, None, option_map, true};
ghost use Rattle.certificate.specs.Views.{bound_of};
ghost use Rattle.checker.specs.KeptUses.{keeps_call_rules};
ghost use Rattle.checker.specs.PointViews.{call_tests_of, expansion_of, instruction_of_point, tests_of};
ghost use Rattle.checker.specs.RuleViews.{rule_number};
ghost use Rattle.instruction_set.specs.Views.{syscall_of};
ghost use Rattle.rules.specs.Rules.{least_broken, mark_tests, tests};

use crate::arrivals::{Arrival, error_arrives, successes_arrive};
use crate::asked::{AskedPoint, AskedProgram};
use crate::keeping::keeps;
use crate::rule::{AuthorityRule, RULES, Rule};
use crate::starts::starts_within;
use crate::uses::KeepsAll;
use certificate::Bound;
use instruction_set::{Instruction, Syscall};
use transfer::{
    all_have_channels, all_uses_pass, demanded, keeps_beneath, keeps_numbers, keeps_single,
    may_be_on,
};

/// The rules that marked programs alone can break.
const MARK_RULES: [Rule; 6] = [
    Rule::BoundsOutside,
    Rule::TakesWithin,
    Rule::OfAuthority(AuthorityRule::Ceilings),
    Rule::OfAuthority(AuthorityRule::Moves),
    Rule::OfAuthority(AuthorityRule::Received),
    Rule::OfAuthority(AuthorityRule::Sent),
];

/// Whether a call keeps the rules 4 to 15: each slot that it goes through is looked at one time.
#[tactic(auto, using(rules::proofs::expansions::Channelled::expansion_channels))]
fn keeps_call_rules(of: &AskedProgram<'_>, bound: &Bound, call: &Syscall) -> bool
    ensures { result ≡ keeps_call_rules of.now.task.now (expansion_of of.now) (bound_of bound.now) (syscall_of call.now) }
{
    let (task, cert) = (of.task, of.cert);
    let may_be_on = may_be_on(bound.mode());
    let test = &KeepsAll {
        task,
        cert,
        may_be_on,
    };
    keeps_single(bound, call)
        && keeps_numbers(bound, call)
        && keeps_beneath(bound, call)
        && !demanded(call).changes_global_names
        && all_uses_pass(bound, call, test)
        && all_have_channels(cert, bound, call)
}

/// Whether the instruction of a point keeps them, as each does that is no call.
fn keeps_if_call(at: &AskedPoint<'_>, bound: &Bound) -> bool
    ensures { result ≡ true → least_broken (call_tests_of at.now (bound_of bound.now) (instruction_of_point at.now)) ≡ None }
{
    let Instruction::Invoke { call, .. } = at.instruction else {
        return true;
    };
    keeps_call_rules(at.of, bound, call)
}

/// Whether a point with a bound keeps the rules 1 to 16: where each outcome goes is looked at one time.
fn keeps_first(at: &AskedPoint<'_>, bound: &Bound) -> bool
    ensures { result ≡ true → least_broken (tests at.now.of.now.task.now (expansion_of at.now.of.now) at.now.of.now.program at.now.point (instruction_of_point at.now) (bound_of bound.now))
        ≡ least_broken (mark_tests at.now.of.now.task.now (expansion_of at.now.of.now) at.now.of.now.program at.now.point (instruction_of_point at.now) (bound_of bound.now)) }
{
    starts_within(at, bound)
        && successes_arrive(at, bound, Arrival::WithinThere)
        && error_arrives(at, bound, Arrival::WithinThere)
        && keeps_if_call(at, bound)
}

/// Whether a point keeps all rules. At one without a bound only point 0 is asked anything.
fn keeps_all(at: &AskedPoint<'_>) -> bool
    ensures { result ≡ true → least_broken (tests_of at.now) ≡ None }
{
    match &at.bound {
        None => at.point != 0,
        Some(bound) => {
            keeps_first(at, bound)
                && (!at.of.marked || MARK_RULES.iter().all(|rule| keeps(*rule, at)))
        }
    }
}

/// The least rule that is broken at a point.
pub(crate) fn first_broken(at: &AskedPoint<'_>) -> Option<Rule>
    ensures { option_map rule_number result ≡ least_broken (tests_of at.now) }
{
    if keeps_all(at) {
        return None;
    }
    RULES.iter().copied().find(|rule| !keeps(*rule, at))
}
