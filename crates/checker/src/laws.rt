//! Laws of findings. Each is the contract of a function that does nothing.

ghost use Rattle.checker.specs.Findings.{FindingsAreBroken, NoFindingMeetsRules};

/// The findings are the rules that some point breaks: each of them is one, and each of these is among them. (own)
pub fn findings_are_what_is_broken()
    ensures { FindingsAreBroken }
{}

/// There is none exactly where the certificate meets the rules. (own)
pub fn no_findings_meet_the_rules()
    ensures { NoFindingMeetsRules }
{}
