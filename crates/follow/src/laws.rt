//! Laws of what shows a record. Each is the contract of a function that does nothing.

ghost use Rattle.follow.specs.Samples.{NoExcuseWithin, SomeCallsAreExcused, SomePathsAreForeign, SomeRunsShow};

/// To show the calls of a record says something. A run that reads, copies a descriptor, closes the copy and ends shows a record with these
/// calls, under another number of the copy. It doesn't show one without the copy, one that goes on, one with another number or with
/// another order, one whose read fails or is at the end; nor does a run that opens a file by another path. And a call is skipped outside
/// the mode alone: of a place that lies in no grant and that no program names, or through a number that the task doesn't have.
pub fn some_runs_show()
    ensures { SomeRunsShow }
{}

/// A path is foreign only if it is a place's and lies elsewhere: not one in a grant, one that a program names, one with a `.`, a `..` or a
/// second slash in it, one with a slash at its end, one that doesn't begin at the root, or one through a link of the tree.
pub fn some_paths_are_foreign()
    ensures { SomePathsAreForeign }
{}

/// A call that is skipped may have no excuse. A task that does nothing shows a record of which it skips all, and an open of a path that a task can
/// have is not excused then, nor is what goes by its number. An open of a path that no task can have is, and so is what goes by its number
/// and by that of a copy, up to where it is closed; not so where words place a path that a task can have at one that it can't, or the other way round.
pub fn some_calls_are_excused()
    ensures { SomeCallsAreExcused }
{}

/// Of a record whose paths are within the limits no call that is skipped is excused.
pub fn no_excuse_within()
    ensures { NoExcuseWithin }
{}
