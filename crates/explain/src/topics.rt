//! What remarks and warnings are about: the name of each matter, its heading, and what it means.

ghost use Rattle.std.specs.Prelude.{◌≡◌, true};
ghost use Rattle.explain.specs.TopicViews.{joint, topic_name};
ghost use Rattle.explain.specs.Wording.{is_one_line};

/// What is remarked, or warned of.
#[derive(Clone, Copy, PartialEq, Eq)]
pub enum Topic {
    NeverEnters,
    Untrusted,
    Unreached,
    ModeSkipped,
    InNoGrant,
    BeyondPolicy,
    NeverNamed,
    RightsUnused,
    CommandsUnused,
    BothEnds,
    NeverOpen,
    LoneEnd,
    WholeTree,
    OperationUnused,
    /// FreeBSD does otherwise than the model: the part of docs/FREEBSD.md that says more.
    FreeBsd(&'static str),
}

/// All topics of remarks, those that matter most before the others.
pub const REMARK_TOPICS: [Topic; 14] = [
    Topic::InNoGrant,
    Topic::NeverEnters,
    Topic::ModeSkipped,
    Topic::BeyondPolicy,
    Topic::Untrusted,
    Topic::NeverNamed,
    Topic::RightsUnused,
    Topic::CommandsUnused,
    Topic::BothEnds,
    Topic::LoneEnd,
    Topic::NeverOpen,
    Topic::Unreached,
    Topic::WholeTree,
    Topic::OperationUnused,
];

impl Topic {
    /// Its name, in letters and `-`. (own)
    pub fn name(self) -> &'static str
        ensures { result.now ≡ topic_name self }
    {
        match self {
            Topic::NeverEnters => "never-enters",
            Topic::Untrusted => "untrusted",
            Topic::Unreached => "unreached",
            Topic::ModeSkipped => "mode-skipped",
            Topic::InNoGrant => "in-no-grant",
            Topic::BeyondPolicy => "beyond-the-policy",
            Topic::NeverNamed => "never-named",
            Topic::RightsUnused => "rights-unused",
            Topic::CommandsUnused => "commands-unused",
            Topic::BothEnds => "both-ends",
            Topic::NeverOpen => "never-open",
            Topic::LoneEnd => "lone-end",
            Topic::WholeTree => "whole-tree",
            Topic::OperationUnused => "operation-unused",
            Topic::FreeBsd(part) => part,
        }
    }

    /// Its heading, without a full stop, within a line. (own)
    pub fn heading(self) -> &'static str
        ensures { is_one_line result.now ≡ true }
    {
        match self {
            Topic::NeverEnters => "Never in the mode",
            Topic::Untrusted => "Untrusted",
            Topic::Unreached => "Not reached",
            Topic::ModeSkipped => "In the mode or not",
            Topic::InNoGrant => "In no grant",
            Topic::BeyondPolicy => "Beyond the policy",
            Topic::NeverNamed => "Held and never named",
            Topic::RightsUnused => "More rights than are needed",
            Topic::CommandsUnused => "More commands than are needed",
            Topic::BothEnds => "Both ends of a pair",
            Topic::NeverOpen => "Never open",
            Topic::LoneEnd => "One end alone",
            Topic::WholeTree => "The whole tree",
            Topic::OperationUnused => "Listed and not used",
            Topic::FreeBsd(_) => "FreeBSD does otherwise",
        }
    }

    /// What joins the points to what is said of it.
    pub(crate) fn joint(self) -> &'static str
        ensures { result.now ≡ joint self }
    {
        match self {
            Topic::NeverEnters | Topic::NeverNamed | Topic::BothEnds | Topic::NeverOpen => ", at ",
            _ => " at ",
        }
    }

    /// What it means, in a sentence and a line. (own)
    pub fn meaning(self) -> &'static str
        ensures { is_one_line result.now ≡ true }
    {
        match self {
            Topic::NeverEnters =>
                "No process of the program enters the mode, so a yes says little of it.",
            Topic::Untrusted =>
                "In the mode the program may do anything with what its authority has.",
            Topic::Unreached => "Nothing arrives at these points.",
            Topic::ModeSkipped =>
                "Some way skips cap_enter, so a process may be here in the mode or outside it.",
            Topic::InNoGrant =>
                "What is held in the mode may lie in no grant, and a report has no line of it.",
            Topic::BeyondPolicy =>
                "What is held in the mode has rights for what its grant doesn't list. The program as it is written never uses them so; one that is taken over could.",
            Topic::NeverNamed => "What is held in the mode and never named can be closed before.",
            Topic::RightsUnused =>
                "In the mode no call can use the other rights, so a limit could drop them.",
            Topic::CommandsUnused =>
                "In the mode no call can use the other fcntl commands, so a limit could drop them.",
            Topic::BothEnds =>
                "One process holds both ends of a pair, so nobody else is at its other end.",
            Topic::NeverOpen =>
                "The number is never open where the instruction names it, so the call always fails.",
            Topic::LoneEnd =>
                "No process has the other side of this pair, so nothing ever comes by it.",
            Topic::WholeTree =>
                "A grant of / holds everything, so the policy restricts nothing beneath it but operations.",
            Topic::OperationUnused =>
                "No call in the mode does this there, so the policy could leave it out.",
            Topic::FreeBsd(_) =>
                "Where FreeBSD does otherwise than the model, a yes says nothing of what it does more.",
        }
    }
}
