//! Laws of the system calls. Each is the contract of a function that does nothing.

ghost use Rattle.kernel.specs.Alike.{AlikeWorldsActAlike, AlikeWorldsShareNumbers, AlikeWorldsTwice};
ghost use Rattle.kernel.specs.Gainful.{NothingComesFromElsewhere};
ghost use Rattle.kernel.specs.Gains.{NoRunGains};
ghost use Rattle.kernel.specs.Hostile.{NextWorldExistsAsWell, NoRunGainsAsWell, NumbersDoNotMatterAsWell};
ghost use Rattle.kernel.specs.LaterEvents.{LaterEventsFailLate};
ghost use Rattle.kernel.specs.Renamings.{NumbersAreIgnoredTwice, NumbersDoNotMatter};
ghost use Rattle.kernel.specs.Runs.{AlikeWorldsRunAlike, FreshNumbersExist, NextWorldExists, RunExists, RunsShowTheSame, RunsShowTheSameLines, WellFormedWorldExists};
ghost use Rattle.kernel.specs.Scans.{LookupsCompute, OpenEndsAreNamed, WalksArrive};

/// From a well-formed world each event has a next world: there are fresh numbers to choose, and whichever are chosen,
/// the next world is well formed.
pub fn a_next_world_exists()
    ensures { NextWorldExists }
{}

/// Whatever number that nobody names is taken for the first description, the rest of a fresh choice exists; and numbers
/// that are free one by one are fresh together.
pub fn fresh_numbers_exist()
    ensures { FreshNumbersExist }
{}

/// A world that says of all that is named what a well-formed one says is well formed too, answers each call the same, has
/// the same fresh choices, and steps to such a world again, with the same line.
pub fn alike_worlds_act_alike()
    ensures { AlikeWorldsActAlike }
{}

/// Two well-formed worlds that differ only in the numbers of descriptions and pairs show the same line, and their next
/// worlds differ only so, whatever fresh numbers are chosen in each.
pub fn numbers_do_not_matter()
    ensures { NumbersDoNotMatter }
{}

/// Worlds that are alike differ in no number.
pub fn alike_worlds_share_numbers()
    ensures { AlikeWorldsShareNumbers }
{}

/// What differs only in numbers from a world that differs only in numbers does so itself.
pub fn numbers_are_ignored_twice()
    ensures { NumbersAreIgnoredTwice }
{}

/// From each well-formed world all events have a run.
pub fn a_run_exists()
    ensures { RunExists }
{}

/// All runs of the same events from one world show the same lines.
pub fn runs_show_the_same_lines()
    ensures { RunsShowTheSameLines }
{}

/// So do runs from two worlds that differ only in numbers.
pub fn worlds_show_the_same_lines()
    ensures { RunsShowTheSame }
{}

/// In every run, from any world, no process leaves capability mode, and the children of one in it are in it. After a step
/// each descriptor of a table is the one that stood there; or the acting process's call has made it, within the rights and
/// commands of that call's own source, or, for `open` outside the mode and `socketpair`, at a number that was free; or it is
/// a child's copy of what its parent has at that number. And what a message carries was in that queue, or is what
/// `sendfd` sends, within its source. (cap_enter(2), capsicum(4), cap_rights_limit(2), fork(2), sendmsg(2))
pub fn no_run_gains()
    ensures { NoRunGains }
{}

/// That says something: in a world of two processes the relation refuses that the second one's child has the first one's
/// descriptors, or that another call or for another process than the child copies them; that a `dup` of the second has the
/// first one's rights or more commands, or is the first one's; that a limit widens rights or commands, or puts what it narrows
/// elsewhere; that an `openat` has more than its directory; that an `open` takes a number that is taken, makes something in the
/// mode, or less than all rights and commands; that more is received than was sent, or of one's own end, of a file or through a
/// number that isn't open; a message with a descriptor that nobody sent, also behind another, with another than it had, with more
/// than what was sent, into another end's or pair's queue, through a file or a number that isn't open, or of another call than
/// `sendfd`; that a process that has ended or was never made, or an instruction that is no call, makes something; that a process
/// leaves the mode, vanishes, or comes from nowhere; and that a child of one in the mode is outside it.
pub fn nothing_comes_from_elsewhere()
    ensures { NothingComesFromElsewhere }
{}

/// Worlds that are alike have the same runs.
pub fn alike_worlds_run_alike()
    ensures { AlikeWorldsRunAlike }
{}

/// What is alike to what is alike is alike.
pub fn alike_twice_is_alike()
    ensures { AlikeWorldsTwice }
{}

/// Some world is well formed, in which a process holds a directory and both ends of a pair, and a message with a
/// directory is queued: so the laws speak of something.
pub fn a_well_formed_world_exists()
    ensures { WellFormedWorldExists }
{}

/// What a path leads to on one tree, as a relation, is what the model's function gives. (open(2))
pub fn lookups_compute()
    ensures { LookupsCompute }
{}

/// A lookup that takes an event for each name, as those of the calls do, comes on one tree to what the path leads to, and to
/// nothing else. (own)
pub fn walks_arrive()
    ensures { WalksArrive }
{}

/// In a well-formed world an end is open, which the model finds by a scan of sixteen tables and of the pairs in use, exactly
/// where some entry or some queued message names it.
pub fn open_ends_are_named()
    ensures { OpenEndsAreNamed }
{}

/// Each event of a call asks the mode, the descriptors, their rights and what they are of. In every run from a well-formed world in
/// which nobody has a lookup under way, that makes a difference at the first event alone: a later one fails for such a cause only
/// where a rename's second descriptor lacks the right to remove what it would replace, which is asked once both paths are found.
pub fn later_events_fail_late()
    ensures { LaterEventsFailLate }
{}

/// From a well-formed world each event has a next world, and each is well formed, too where its process does anything that it
/// likes, since its program is untrusted. (own)
pub fn a_deed_has_a_next_world()
    ensures { NextWorldExistsAsWell }
{}

/// Which numbers are chosen doesn't matter there either.
pub fn numbers_do_not_matter_to_a_deed()
    ensures { NumbersDoNotMatterAsWell }
{}

/// In every run in which processes of untrusted programs do anything that they like, none leaves capability mode, and each descriptor
/// comes from where the call that was made takes it. (cap_enter(2), capsicum(4), cap_rights_limit(2), fork(2), sendmsg(2))
pub fn no_deed_gains()
    ensures { NoRunGainsAsWell }
{}
