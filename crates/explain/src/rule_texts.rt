//! What each rule is called, and what to do where it is broken.

ghost use Rattle.std.specs.Prelude.{◌≡◌, true};
ghost use Rattle.explain.specs.Wording.{is_one_line};

use checker::{AuthorityRule, CallRule, Rule, SlotRule};

/// What a rule is called, within a line. (own)
pub fn rule_title(rule: Rule) -> &'static str
    ensures { is_one_line result.now ≡ true }
{
    match rule {
        Rule::StartsWithin => "the first state",
        Rule::SuccessesWithin => "where a success leads",
        Rule::ErrorsWithin => "where an error leads",
        Rule::OfCall(CallRule::OneNumber) => "a number that is known",
        Rule::OfCall(CallRule::FreeNumbers) => "a number to take",
        Rule::OfCall(CallRule::NoGlobalPath) => "no global names",
        Rule::OfCall(CallRule::OfSlot(SlotRule::Rights)) => "rights",
        Rule::OfCall(CallRule::OfSlot(SlotRule::Commands)) => "fcntl commands",
        Rule::OfCall(CallRule::OfSlot(SlotRule::Limit)) => "limits only shrink",
        Rule::OfCall(CallRule::OfSlot(SlotRule::KnownObject)) => "files that are known",
        Rule::OfCall(CallRule::OfSlot(SlotRule::Policy)) => "the policy",
        Rule::OfCall(CallRule::OfSlot(SlotRule::KnownNames)) => "names change in grants alone",
        Rule::OfCall(CallRule::OfSlot(SlotRule::Moves)) => "nothing moves between grants",
        Rule::OfCall(CallRule::OfSlot(SlotRule::Sent)) => "what is sent",
        Rule::OfCall(CallRule::OfSlot(SlotRule::Channel)) => "channels that are known",
        Rule::LeadsToBounds => "points that are reached",
        Rule::BoundsOutside => "bounds outside the mode",
        Rule::TakesWithin => "what is carried into the mode",
        Rule::OfAuthority(AuthorityRule::Ceilings) => "ceilings and the policy",
        Rule::OfAuthority(AuthorityRule::Moves) => "ceilings and renames",
        Rule::OfAuthority(AuthorityRule::Received) => "what is sent to an untrusted program",
        Rule::OfAuthority(AuthorityRule::Sent) => "what an untrusted program sends",
    }
}

/// What to do where a rule is broken, in a line. (own)
pub fn rule_advice(rule: Rule) -> &'static str
    ensures { is_one_line result.now ≡ true }
{
    match rule {
        Rule::StartsWithin => "Widen the bound of point 0.",
        Rule::SuccessesWithin | Rule::ErrorsWithin =>
            "Widen the bound of the point that it leads to.",
        Rule::OfCall(CallRule::OneNumber) =>
            "Name the descriptor by a number, or part the ways on which it has another.",
        Rule::OfCall(CallRule::FreeNumbers) =>
            "Let all ways that come together here have the same numbers open: close what only one of them has.",
        Rule::OfCall(CallRule::NoGlobalPath) =>
            "Open it before cap_enter, or by a call beneath a directory that is held.",
        Rule::OfCall(CallRule::OfSlot(rule)) => slot_rule_advice(rule),
        Rule::LeadsToBounds => "Add a bound of the point that it leads to.",
        Rule::BoundsOutside =>
            "Leave out the bounds in the mode of an untrusted program: its authority bounds it there.",
        Rule::TakesWithin =>
            "Close or limit it before cap_enter, or let the policy and the authority have it.",
        Rule::OfAuthority(AuthorityRule::Ceilings) =>
            "Lower the ceiling, or let the policy list the operation.",
        Rule::OfAuthority(AuthorityRule::Moves) =>
            "Take from one ceiling the right to move names out, or from the other that to move them in.",
        Rule::OfAuthority(AuthorityRule::Received) =>
            "Send the untrusted program less, or widen its authority.",
        Rule::OfAuthority(AuthorityRule::Sent) => "Let whoever receives from it expect anything.",
    }
}

/// What to do where a rule on slots is broken.
fn slot_rule_advice(rule: SlotRule) -> &'static str
    ensures { is_one_line result.now ≡ true }
{
    match rule {
        SlotRule::Rights => "Keep the right in the limits before it, or leave the call out.",
        SlotRule::Commands => "Keep the command in the limits before it, or leave the call out.",
        SlotRule::Limit => "Limit to what is held there.",
        SlotRule::KnownObject => "Open it beneath a grant, or let a grant hold it.",
        SlotRule::Policy =>
            "Leave the call out, or let the policy list the operation. No certificate mends that.",
        SlotRule::KnownNames =>
            "Change names beneath grants alone: where that is meant outside the mode, add a grant with ops=[], or a program of its own.",
        SlotRule::Moves => "Move it beneath one grant, or make one grant over both.",
        SlotRule::Sent => "Widen the channel's line, or limit what is sent before.",
        SlotRule::Channel => "Add the channel's line.",
    }
}
