//! Laws of the rules. Each is the contract of a function that does nothing.

ghost use Rattle.rules.specs.Expansions.{ExpansionBounds, ExpansionIsGrown};
ghost use Rattle.rules.specs.Refusals.{EachRuleIsBroken, EachRuleIsKept, LeastIsTold};
ghost use Rattle.rules.specs.MarkedRefusals.{EachMarkRuleIsBroken, EachMarkRuleIsKept, LeastMarkRuleIsTold, WithinRefuses};
ghost use Rattle.rules.specs.Verdicts.{FirstIsFound, IsConfining, IsHeldWithin, IsSound};

/// Where going through all points in order finds none that breaks a rule, the certificate meets the rules at every point;
/// and what it finds is the first program, the first point there, and the least rule that is broken there. (own)
pub fn the_first_is_found()
    ensures { FirstIsFound }
{}

/// Each of the rules K1 to K22 refuses a certificate, where no rule before it does: those on marked programs of a task that has
/// one. (own)
pub fn each_rule_is_broken()
    ensures plain { EachRuleIsBroken }
    ensures marked { EachMarkRuleIsBroken }
{}

/// And each lets the same through where what it asks is there. (own)
pub fn each_rule_is_kept()
    ensures plain { EachRuleIsKept }
    ensures marked { EachMarkRuleIsKept }
{}

/// Where two rules are broken at one point, the lesser is told: of each two neighbours that one instruction can break. (own)
pub fn the_least_is_told()
    ensures plain { LeastIsTold }
    ensures marked { LeastMarkRuleIsTold }
{}

/// The expansion of a certificate bounds each point by the bound that is given there, or else by the one that is carried there from
/// point to point. (own)
pub fn the_expansion_bounds_each_point()
    ensures { ExpansionBounds }
{}

/// The lines of the expansion, one after another, make it of nothing: each has room and stands in its place.
pub fn the_expansion_is_what_its_lines_make()
    ensures { ExpansionIsGrown }
{}

/// Soundness: where a certificate meets the rules and no program is marked, no run of the task, whatever its events, inputs, schedule and refusals, does
/// in capability mode what the policy doesn't allow, has a call refused for a missing right or by the mode, or gives a
/// descriptor more than its source has. (own)
pub fn what_meets_the_rules_is_sandboxed()
    ensures { IsSound }
{}

/// Soundness whatever programs are marked: where a certificate meets the rules, no run of the task, whatever its events, inputs, schedule and
/// refusals, and whatever processes of marked programs do in capability mode, does in the mode what the policy doesn't allow, has a call of an
/// unmarked program's process refused for a missing right or by the mode, or gives a descriptor more than its source has. (own)
pub fn what_meets_the_rules_is_confined()
    ensures { IsConfining }
{}

/// Where a certificate meets the rules, what a process of a marked program holds in the mode is within the program's authority, in each world of
/// every run, whatever such processes do; and there is what isn't within. (own)
pub fn what_is_held_is_within_the_authority()
    ensures held { IsHeldWithin }
    ensures refused { WithinRefuses }
{}
