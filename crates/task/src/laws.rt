//! Laws of tasks. Each is the contract of a function that does nothing.

ghost use Rattle.task.specs.Breaches.{SomeAreNotSandboxed};
ghost use Rattle.task.specs.Confined.{TrustedTasksAreSandboxed};
ghost use Rattle.task.specs.Escapes.{SomeAreNotConfined};
ghost use Rattle.task.specs.KeptLimits.{PlansKeepLimits, TreesAreMadeInOrder};
ghost use Rattle.task.specs.Laws.{AllowedIsTested, FirstWorldsAreFirst, FirstWorldsAreWellFormed, PlanExists};

/// What is tested of a plan, fact by fact: its tree is one, with no removed node; names are words that are given once; no
/// place is in two grants; programs are valid; and first descriptors can be used, each at a number of its own.
pub fn plans_keep_limits()
    ensures { PlansKeepLimits }
{}

/// The tree can be made node by node, in the order of the task: none is refused.
pub fn trees_are_made_in_order()
    ensures { TreesAreMadeInOrder }
{}

/// A task starts in a well-formed world: its programs are valid, its tree is one, and what each first descriptor names is a
/// file or directory of it, or an end of an initial pair, both of whose ends are of its class.
pub fn first_worlds_are_well_formed()
    ensures { FirstWorldsAreWellFormed }
{}

/// A task's first world has the task's tree and processes, which stand at point 0 with all registers 0; each first
/// descriptor, and no other, at offset 0 and without flags; and nothing is queued. Two descriptors share a description exactly
/// if they are of one side of one pair; one of a file or directory shares its own with no other.
pub fn first_worlds_are_first()
    ensures { FirstWorldsAreFirst }
{}

/// What the test of a policy allows is what a grant lists at a place that goes on from its path, name by name.
pub fn allowed_operations_are_tested()
    ensures { AllowedIsTested }
{}

/// Some plan is valid, of a dozen nodes, two grants and two processes with descriptors on nodes and on ends: so the laws
/// speak of something.
pub fn a_valid_plan_exists()
    ensures { PlanExists }
{}

/// To be sandboxed says something. These tasks aren't: one whose process lacks the right for its call; one that opens a
/// file by its path alone in the mode; one that writes in a grant that lists reading alone; and one that moves a file in a
/// grant that lists removing alone, where the second of two effects isn't allowed. And a step isn't safe in which a process that
/// calls nothing has a descriptor more, though its line shows nothing of that; no step of the kernel is such a one.
pub fn some_tasks_are_not_sandboxed()
    ensures { SomeAreNotSandboxed }
{}

/// A task that is confined is sandboxed, where no program of it is marked.
pub fn trusted_tasks_are_sandboxed()
    ensures { TrustedTasksAreSandboxed }
{}

/// To be confined says something. These tasks of a trusted program and a marked one aren't: one whose marked process holds a
/// directory with a right too many, and uses it; one whose trusted process reads through what the marked one sends it, which
/// can't be read through; and one whose trusted process sends the root with all rights, and the marked one makes a directory there.
pub fn some_tasks_are_not_confined()
    ensures { SomeAreNotConfined }
{}
