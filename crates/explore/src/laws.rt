//! Laws of runs that break something. Each is the contract of a function that does nothing.

ghost use Rattle.explore.specs.Broken.{BreachesRefute};
ghost use Rattle.explore.specs.DeedTexts.{OwnStepsAreTraced};
ghost use Rattle.explore.specs.Samples.{SomeAreTried, SomeRunsBreak};

/// A task some run of which breaks something at its last step isn't confined, and without an attacker's move it isn't sandboxed.
pub fn breaches_refute()
    ensures { BreachesRefute }
{}

/// To break something says something. In two steps a process reads without the right to, opens a file by its path alone in the mode,
/// writes in a grant that lists reading alone, or moves a file in a grant that lists removing alone, where the second of two effects
/// isn't allowed. In one step an attacker makes a directory where its grant doesn't list that, and in three it sends what a trusted process is
/// refused for. The first step of a run of two breaks nothing, and neither does no step, nor what the attacked program has.
pub fn some_runs_break()
    ensures { SomeRunsBreak }
{}

/// To go by a descriptor, and to be tried, says something. A call that sends one descriptor through another goes by the other; no call goes by a
/// number that it reads in a register, and one without a descriptor goes by none. Nothing is what is tried of a task without an untrusted
/// program, and not of one with such a program.
pub fn some_deeds_are_tried()
    ensures { SomeAreTried }
{}

/// In a run of attackers a step that is none of theirs is told as `run` tells it. (own)
pub fn steps_without_attackers_are_traced()
    ensures { OwnStepsAreTraced }
{}
