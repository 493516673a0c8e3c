//! The rules, by name.

ghost use Rattle.std.specs.Prelude.{◌≡◌};
ghost use Rattle.checker.specs.RuleViews.{rule_number};

/// A rule of the checker. (own)
#[derive(Clone, Copy, PartialEq, Eq)]
pub enum Rule {
    /// K1: the bound of point 0 describes how each process of the program starts.
    StartsWithin,
    /// K2: a success leads to a point whose bound, if it has one, describes what arrives.
    SuccessesWithin,
    /// K3: so does an error.
    ErrorsWithin,
    /// K4 to K15: what is asked of a call.
    OfCall(CallRule),
    /// K16: a point that an instruction leads to has a bound, and so has point 0 of a program that a process starts.
    LeadsToBounds,
    /// K17: the points of a marked program bound it outside the mode alone.
    BoundsOutside,
    /// K18: what a process of a marked program takes into the mode, or starts with in it, is within the program's authority.
    TakesWithin,
    /// K19 to K22: what is asked of a marked program's authority.
    OfAuthority(AuthorityRule),
}

/// A rule on a call. (own)
#[derive(Clone, Copy, PartialEq, Eq)]
pub enum CallRule {
    /// K4: a call that changes a slot names it by one number.
    OneNumber,
    /// K5: the free numbers that it takes are determined.
    FreeNumbers,
    /// K6: in the mode it reaches no global path.
    NoGlobalPath,
    /// K7 to K15: what is asked of each slot that it goes through.
    OfSlot(SlotRule),
}

/// A rule on each slot that a call goes through. (own)
#[derive(Clone, Copy, PartialEq, Eq)]
pub enum SlotRule {
    /// K7: the rights that the call needs are surely held.
    Rights,
    /// K8: the fcntl commands that it needs are.
    Commands,
    /// K9: what a limit keeps is.
    Limit,
    /// K10: in the mode, what the call works on is known.
    KnownObject,
    /// K11: in the mode, the grant lists what the call does there.
    Policy,
    /// K12: names change beneath what is known alone, and by no global path.
    KnownNames,
    /// K13: nothing is moved from one grant into another.
    Moves,
    /// K14: what is sent lies within its channel's line.
    Sent,
    /// K15: the channel that is used has a line.
    Channel,
}

/// A rule on a marked program's authority. (own)
#[derive(Clone, Copy, PartialEq, Eq)]
pub enum AuthorityRule {
    /// K19: the grant of a ceiling lists what the ceiling's rights are for.
    Ceilings,
    /// K20: by no two ceilings can a name be moved from one grant into another.
    Moves,
    /// K21: what may come by a listed end is within the authority.
    Received,
    /// K22: whoever receives from a listed end expects anything.
    Sent,
}

/// All rules, in the order of their numbers.
pub const RULES: [Rule; 22] = [
    Rule::StartsWithin,
    Rule::SuccessesWithin,
    Rule::ErrorsWithin,
    Rule::OfCall(CallRule::OneNumber),
    Rule::OfCall(CallRule::FreeNumbers),
    Rule::OfCall(CallRule::NoGlobalPath),
    Rule::OfCall(CallRule::OfSlot(SlotRule::Rights)),
    Rule::OfCall(CallRule::OfSlot(SlotRule::Commands)),
    Rule::OfCall(CallRule::OfSlot(SlotRule::Limit)),
    Rule::OfCall(CallRule::OfSlot(SlotRule::KnownObject)),
    Rule::OfCall(CallRule::OfSlot(SlotRule::Policy)),
    Rule::OfCall(CallRule::OfSlot(SlotRule::KnownNames)),
    Rule::OfCall(CallRule::OfSlot(SlotRule::Moves)),
    Rule::OfCall(CallRule::OfSlot(SlotRule::Sent)),
    Rule::OfCall(CallRule::OfSlot(SlotRule::Channel)),
    Rule::LeadsToBounds,
    Rule::BoundsOutside,
    Rule::TakesWithin,
    Rule::OfAuthority(AuthorityRule::Ceilings),
    Rule::OfAuthority(AuthorityRule::Moves),
    Rule::OfAuthority(AuthorityRule::Received),
    Rule::OfAuthority(AuthorityRule::Sent),
];

impl Rule {
    /// Its number, from 1 to 22.
    pub fn number(self) -> u8
        ensures { result ≡ rule_number self }
    {
        match self {
            Rule::StartsWithin => 1,
            Rule::SuccessesWithin => 2,
            Rule::ErrorsWithin => 3,
            Rule::OfCall(CallRule::OneNumber) => 4,
            Rule::OfCall(CallRule::FreeNumbers) => 5,
            Rule::OfCall(CallRule::NoGlobalPath) => 6,
            Rule::OfCall(CallRule::OfSlot(SlotRule::Rights)) => 7,
            Rule::OfCall(CallRule::OfSlot(SlotRule::Commands)) => 8,
            Rule::OfCall(CallRule::OfSlot(SlotRule::Limit)) => 9,
            Rule::OfCall(CallRule::OfSlot(SlotRule::KnownObject)) => 10,
            Rule::OfCall(CallRule::OfSlot(SlotRule::Policy)) => 11,
            Rule::OfCall(CallRule::OfSlot(SlotRule::KnownNames)) => 12,
            Rule::OfCall(CallRule::OfSlot(SlotRule::Moves)) => 13,
            Rule::OfCall(CallRule::OfSlot(SlotRule::Sent)) => 14,
            Rule::OfCall(CallRule::OfSlot(SlotRule::Channel)) => 15,
            Rule::LeadsToBounds => 16,
            Rule::BoundsOutside => 17,
            Rule::TakesWithin => 18,
            Rule::OfAuthority(AuthorityRule::Ceilings) => 19,
            Rule::OfAuthority(AuthorityRule::Moves) => 20,
            Rule::OfAuthority(AuthorityRule::Received) => 21,
            Rule::OfAuthority(AuthorityRule::Sent) => 22,
        }
    }
}
