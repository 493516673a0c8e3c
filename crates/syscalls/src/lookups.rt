//! Lookups of calls, one name at an event: what the event finds, or why its call doesn't go on.

ghost use Rattle.std.specs.Prelude.{◌≡◌, ◌<◌, Err, Ok, IfErr, IfOk, IfSome, None, OnOk, false, length, not};
ghost use Rattle.file_tree.specs.Nodes.{is_link, node};
ghost use Rattle.file_tree.specs.WellFormed.{IsTree};
ghost use Rattle.lookup.specs.Answers as lookups;
ghost use Rattle.lookup.specs.Promises.{IsUnderName};
ghost use Rattle.lookup.specs.Looks.{lookup_fault};
ghost use Rattle.lookup.specs.UnderWay.{IsUnderWay};
ghost use Rattle.lookup.specs.Views.{fault_of, found_of, last_of, way_of};
ghost use Rattle.lookup.specs.Walks as walks;
ghost use Rattle.lookup.specs.Walks.{IsInTree, first_handled, handled};
ghost use Rattle.process.specs.State.{ProcessState, Two};
ghost use Rattle.process.specs.Views.{walking_in};
ghost use Rattle.kernel.specs.Answers as answers;
ghost use Rattle.kernel.specs.Answers.{Answer, unless};
ghost use Rattle.kernel.specs.Calls as model;
ghost use Rattle.kernel.specs.Calls.{found_last, resumed_one, or_fails};
ghost use Rattle.kernel.specs.Walks.{IfOne, IfTwo};
ghost use Rattle.rights.specs.Errors.{CapMode, ECAPMODE};
ghost use Rattle.rights.specs.Values.{PathText};
ghost use Rattle.syscalls.specs.AnswerViews.{AreFound, Finds, FindsLast, IsFoundAt, IsReadyAt, LeavesNames, LooksUpIn, Refuses, RenamesIn, held_at, need, state_with};

use crate::kernels::{Caller, Kernel};
use crate::outcomes::Refusal;
use file_tree::{NodeId, Tree};
use instruction_set::Operand;
use lookup::{Found, Last, PathFault, Progress, Walk, Way, find_name};
use process::Walking;
use rights::{Call, Cause, Errno};

/// What a fault of a lookup is refused as. An escape is no missing right, though its error is the same. (open(2),
/// capsicum(4))
fn refusal_of(fault: PathFault) -> Refusal
    ensures { (event : walks.Progress) → IfSome (fault_of fault) (λ f. event ≡ walks.Done (lookups.Not_found f)) → Finds event (Err result) }
{
    match fault {
        PathFault::Escape => Refusal::Fails(Errno::ENOTCAPABLE, Cause::Escape),
        PathFault::NoEntry => Refusal::Fails(Errno::ENOENT, Cause::Path),
        PathFault::NotDir => Refusal::Fails(Errno::ENOTDIR, Cause::Path),
        PathFault::Loop => Refusal::Fails(Errno::ELOOP, Cause::Path),
        PathFault::TooLong => Refusal::Fails(Errno::ENAMETOOLONG, Cause::Path),
        PathFault::BadLast => Refusal::Fails(Errno::EINVAL, Cause::Path),
        PathFault::Memory => Refusal::Memory,
    }
}

/// One event of a lookup under way.
fn step_on<T: Tree>(tree: &T, walk: Walk) -> Result<Found, Refusal>
    requires { IsInTree (T.nodes tree.now) walk }
    ensures { Finds (handled (T.nodes tree.now) walk) result }
{
    let mut walk = walk;
    match walk.step(tree) {
        Ok(Progress::Done(found)) => Ok(found),
        Ok(Progress::More) => Err(Refusal::Walks(Walking::One(walk))),
        Err(fault) => Err(refusal_of(fault)),
    }
}

/// The event of a lookup that has more than one name left: it leaves names, or the call is refused.
fn step_before_last<T: Tree>(tree: &T, walk: Walk) -> Result<Walk, Refusal>
    requires { IsInTree (T.nodes tree.now) walk }
    ensures { LeavesNames (handled (T.nodes tree.now) walk) result }
{
    let mut walk = walk;
    match walk.step(tree) {
        Ok(Progress::More) => Ok(walk),
        Ok(Progress::Done(_)) => Err(Refusal::Fails(Errno::ENOENT, Cause::Path)),
        Err(fault) => Err(refusal_of(fault)),
    }
}

/// The event of a lookup that has one name left, which is kept.
fn step_last<T: Tree>(tree: &T, walk: Walk) -> Result<Found, Refusal>
    requires { IsInTree (T.nodes tree.now) walk }
    ensures { FindsLast (found_last (handled (T.nodes tree.now) walk)) result }
{
    let mut walk = walk;
    match walk.step(tree) {
        Ok(Progress::Done(found)) => Ok(found),
        Ok(Progress::More) => Err(Refusal::Fails(Errno::ENOENT, Cause::Path)),
        Err(fault) => Err(refusal_of(fault)),
    }
}

/// What the two paths of a rename lead to: the node of the old one, and what is found by the new one.
#[derive(Clone, Copy)]
pub(crate) struct Both {
    pub node: NodeId,
    pub place: Found,
}

/// A name of the old path, where more than the last one is left.
fn step_old<T: Tree>(tree: &T, one: Walk, other: Walk) -> Refusal
    requires { IsInTree (T.nodes tree.now) one }
    ensures { Refuses result (model.walked (λ walk. Two walk other) model.lost (handled (T.nodes tree.now) one)) }
{
    match step_before_last(tree, one) {
        Ok(next) => Refusal::Walks(Walking::Two(next, other)),
        Err(refused) => refused,
    }
}

/// A name of the new path, where more than the last one is left.
fn step_new<T: Tree>(tree: &T, one: Walk, other: Walk) -> Refusal
    requires { IsInTree (T.nodes tree.now) other }
    ensures { Refuses result (model.walked (λ walk. Two one walk) model.lost (handled (T.nodes tree.now) other)) }
{
    match step_before_last(tree, other) {
        Ok(next) => Refusal::Walks(Walking::Two(one, next)),
        Err(refused) => refused,
    }
}

/// Both last names, the old path's first. The new one's is looked up only if the old one leads to a node. (rename(2), ENOENT)
fn step_last_names<T: Tree>(tree: &T, one: Walk, other: Walk) -> Result<Both, Refusal>
    requires one { IsInTree (T.nodes tree.now) one }
    requires other { IsInTree (T.nodes tree.now) other }
    ensures leads { (s : ProcessState) → RenamesIn (T.nodes tree.now) s (λ w p s e rest.
        rest (found_last (handled (T.nodes tree.now) one)) (found_last (handled (T.nodes tree.now) other))) result }
    ensures node { IfOk result (λ both. found_last (handled (T.nodes tree.now) one) ≡ lookups.Found_node both.node) }
    ensures place { IfOk result (λ both. found_last (handled (T.nodes tree.now) other) ≡ found_of both.place) }
{
    let source = step_last(tree, one)?;
    match source {
        Found::Free(_) => Err(Refusal::Fails(Errno::ENOENT, Cause::Path)),
        Found::Node(node) => {
            let place = step_last(tree, other)?;
            Ok(Both { node, place })
        }
    }
}

/// One event of the two lookups of a rename: a name of the old path, or else of the new one, or both last names. (own)
fn step_both<T: Tree>(tree: &T, one: Walk, other: Walk) -> Result<Both, Refusal>
    requires one { IsInTree (T.nodes tree.now) one }
    requires other { IsInTree (T.nodes tree.now) other }
    ensures leads { (s : ProcessState) → RenamesIn (T.nodes tree.now) s (λ w p s e rest. model.walked_both w p s e rest one other) result }
    ensures found { (path new_path : PathText) → IsTree (T.nodes tree.now) → IsUnderWay (T.nodes tree.now) path lookups.Beneath lookups.Keep one
        → IsUnderWay (T.nodes tree.now) new_path lookups.Beneath lookups.Keep other → IfOk result (AreFound (T.nodes tree.now) path new_path) }
{
    if !one.one_left() {
        return Err(step_old(tree, one, other));
    }
    if !other.one_left() {
        return Err(step_new(tree, one, other));
    }
    step_last_names(tree, one, other)
}

/// What two paths lead to of which each is one name, if both lead there at once.
fn find_both<T: Tree>(
    tree: &T,
    start: NodeId,
    path: &[u8],
    target: NodeId,
    new_path: &[u8],
) -> Option<Both>
    requires there { start < length (T.nodes tree.now) }
    requires opened { is_link (node (T.nodes tree.now) start).kind ≡ false }
    requires target_there { target < length (T.nodes tree.now) }
    requires target_opened { is_link (node (T.nodes tree.now) target).kind ≡ false }
    ensures leads { (s : ProcessState) → IfSome result (λ both. RenamesIn (T.nodes tree.now) s (λ w p s e rest.
        or_fails (lookup_fault (T.nodes tree.now) start path.now lookups.Beneath lookups.Keep)
        (or_fails (lookup_fault (T.nodes tree.now) target new_path.now lookups.Beneath lookups.Keep)
        (model.walked_both w p s e rest (walks.begun start path.now lookups.Beneath lookups.Keep) (walks.begun target new_path.now lookups.Beneath lookups.Keep)))) (Ok both)) }
    ensures found { IfSome result (AreFound (T.nodes tree.now) path.now new_path.now) }
{
    match find_name(tree, start, path, Last::Keep)? {
        Found::Free(_) => None,
        Found::Node(node) => {
            let place = find_name(tree, target, new_path, Last::Keep)?;
            Some(Both { node, place })
        }
    }
}

/// Global name spaces can't be reached in capability mode. (capsicum(4), cap_enter(2), ECAPMODE)
#[tactic(auto, unfolding(kernel::specs::Answers::unless))]
fn outside_mode(caller: &Caller<'_>) -> Result<(), Refusal>
    ensures ok { OnOk result (caller.now.process.now.mode ≡ false) }
    ensures refused { (rest : Answer) → IfErr result (λ refused. Refuses refused (unless (not caller.now.process.now.mode) ECAPMODE CapMode rest)) }
{
    if caller.process.mode() {
        return Err(Refusal::Fails(Errno::ECAPMODE, Cause::CapMode));
    }
    Ok(())
}

impl<T: Tree> Kernel<'_, T> {
    /// The first event of a lookup, from a start that is in the tree.
    fn step_first(&self, start: NodeId, path: &[u8], way: Way, last: Last) -> Result<Found, Refusal>
        requires { start < length (T.nodes self.now.tree.now) }
        ensures { Finds (first_handled (T.nodes self.now.tree.now) start path.now (way_of way) (last_of last)) result }
    {
        // One name that leads somewhere at once needs no walk.
        if way == Way::Beneath {
            if let Some(found) = find_name(self.tree, start, path, last) {
                return Ok(found);
            }
        }
        match Walk::begin(self.alloc, self.tree, start, path, way, last) {
            Ok(walk) => step_on(self.tree, walk),
            Err(fault) => Err(refusal_of(fault)),
        }
    }

    /// The event of a lookup: the first one, or the next one of what the call has under way.
    fn step_of(
        &self,
        start: NodeId,
        path: &[u8],
        way: Way,
        last: Last,
        walk: Option<Walking>,
    ) -> Result<Found, Refusal>
        requires there { start < length (T.nodes self.now.tree.now) }
        requires under { IfOne (IsUnderWay (T.nodes self.now.tree.now) path.now (way_of way) (last_of last)) (walking_in walk) }
        ensures { Finds (resumed_one (walking_in walk) (first_handled (T.nodes self.now.tree.now) start path.now (way_of way) (last_of last)) (handled (T.nodes self.now.tree.now))) result }
    {
        match walk {
            None => self.step_first(start, path, way, last),
            Some(walking) => match walking {
                Walking::One(walk) => step_on(self.tree, walk),
                Walking::Two(_, _) => self.step_first(start, path, way, last),
            },
        }
    }

    /// What an event of a lookup finds, from a start that is a file or directory of the tree.
    pub fn look_up(
        &self,
        start: NodeId,
        path: &[u8],
        way: Way,
        last: Last,
        walk: Option<Walking>,
    ) -> Result<Found, Refusal>
        requires tree { IsTree (T.nodes self.now.tree.now) }
        requires there { start < length (T.nodes self.now.tree.now) }
        requires opened { is_link (node (T.nodes self.now.tree.now) start).kind ≡ false }
        requires under { IfOne (IsUnderWay (T.nodes self.now.tree.now) path.now (way_of way) (last_of last)) (walking_in walk) }
        ensures finds { Finds (resumed_one (walking_in walk) (first_handled (T.nodes self.now.tree.now) start path.now (way_of way) (last_of last)) (handled (T.nodes self.now.tree.now))) result }
        ensures found { IfOk result (IsFoundAt (T.nodes self.now.tree.now) path.now) }
        ensures named { last ≡ Last.Keep → IfOk result (λ found. IsUnderName (T.nodes self.now.tree.now) path.now (found_of found)) }
    {
        self.step_of(start, path, way, last, walk)
    }

    /// What an event finds beneath the directory of an operand, through the rights that the call needs.
    pub fn find_beneath(
        &self,
        operand: Operand,
        path: &[u8],
        call: Call,
        last: Last,
        walk: Option<Walking>,
    ) -> Result<Found, Refusal>
        requires ready { IsReadyAt T.nodes self.now }
        requires under { IfOne (IsUnderWay (T.nodes self.now.tree.now) path.now lookups.Beneath (last_of last)) (walking_in walk) }
        ensures leads { LooksUpIn T.nodes self.now (state_with self.now.caller walk) (λ w p s e rest. answers.through (need call) (held_at self.now operand)
            (λ d. model.in_directory w p s e d.description (λ n. model.looks w p s e n lookups.Beneath path.now (last_of last) rest))) result }
        ensures found { IfOk result (IsFoundAt (T.nodes self.now.tree.now) path.now) }
        ensures named { last ≡ Last.Keep → IfOk result (λ found. IsUnderName (T.nodes self.now.tree.now) path.now (found_of found)) }
    {
        let dir = self.directory_through(operand, call)?;
        self.look_up(dir, path, Way::Beneath, last, walk)
    }

    /// What an event finds from the root, outside capability mode.
    pub fn find_from_root(
        &self,
        path: &[u8],
        last: Last,
        walk: Option<Walking>,
    ) -> Result<Found, Refusal>
        requires { IfOne (IsUnderWay (T.nodes self.now.tree.now) path.now lookups.Global (last_of last)) (walking_in walk) }
        ensures leads { LooksUpIn T.nodes self.now (state_with self.now.caller walk) (λ w p s e rest.
            model.outside_mode w p s e (model.looks w p s e 0 lookups.Global path.now (last_of last) rest)) result }
        ensures found { IfOk result (IsFoundAt (T.nodes self.now.tree.now) path.now) }
        ensures named { last ≡ Last.Keep → IfOk result (λ found. IsUnderName (T.nodes self.now.tree.now) path.now (found_of found)) }
    {
        outside_mode(&self.caller)?;
        self.look_up(self.tree.root(), path, Way::Global, last, walk)
    }

    /// The first event of the two lookups of a rename. What is wrong with the text or the start of either path is told first. (own)
    fn step_both_first(
        &self,
        start: NodeId,
        path: &[u8],
        target: NodeId,
        new_path: &[u8],
    ) -> Result<Both, Refusal>
        requires there { start < length (T.nodes self.now.tree.now) }
        requires opened { is_link (node (T.nodes self.now.tree.now) start).kind ≡ false }
        requires target_there { target < length (T.nodes self.now.tree.now) }
        requires target_opened { is_link (node (T.nodes self.now.tree.now) target).kind ≡ false }
        ensures leads { (s : ProcessState) → RenamesIn (T.nodes self.now.tree.now) s (λ w p s e rest.
            or_fails (lookup_fault (T.nodes self.now.tree.now) start path.now lookups.Beneath lookups.Keep)
            (or_fails (lookup_fault (T.nodes self.now.tree.now) target new_path.now lookups.Beneath lookups.Keep)
            (model.walked_both w p s e rest (walks.begun start path.now lookups.Beneath lookups.Keep) (walks.begun target new_path.now lookups.Beneath lookups.Keep)))) result }
        ensures found { IfOk result (AreFound (T.nodes self.now.tree.now) path.now new_path.now) }
    {
        if let Some(both) = find_both(self.tree, start, path, target, new_path) {
            return Ok(both);
        }
        let (way, last) = (Way::Beneath, Last::Keep);
        let one = match Walk::begin(self.alloc, self.tree, start, path, way, last) {
            Err(fault) => return Err(refusal_of(fault)),
            Ok(walk) => walk,
        };
        let other = match Walk::begin(self.alloc, self.tree, target, new_path, way, last) {
            Err(fault) => return Err(refusal_of(fault)),
            Ok(walk) => walk,
        };
        step_both(self.tree, one, other)
    }

    /// What an event of a rename finds, by a path beneath each of two files or directories of the tree. (renameat(2))
    pub fn look_up_both(
        &self,
        start: NodeId,
        path: &[u8],
        target: NodeId,
        new_path: &[u8],
        walk: Option<Walking>,
    ) -> Result<Both, Refusal>
        requires tree { IsTree (T.nodes self.now.tree.now) }
        requires there { start < length (T.nodes self.now.tree.now) }
        requires opened { is_link (node (T.nodes self.now.tree.now) start).kind ≡ false }
        requires target_there { target < length (T.nodes self.now.tree.now) }
        requires target_opened { is_link (node (T.nodes self.now.tree.now) target).kind ≡ false }
        requires under { IfTwo (IsUnderWay (T.nodes self.now.tree.now) path.now lookups.Beneath lookups.Keep)
            (IsUnderWay (T.nodes self.now.tree.now) new_path.now lookups.Beneath lookups.Keep) (walking_in walk) }
        ensures leads { (s : ProcessState) → s.walk ≡ walking_in walk → RenamesIn (T.nodes self.now.tree.now) s (λ w p s e rest.
            model.looks_twice w p s e start path.now target new_path.now rest) result }
        ensures found { IfOk result (AreFound (T.nodes self.now.tree.now) path.now new_path.now) }
    {
        match walk {
            None => self.step_both_first(start, path, target, new_path),
            Some(walking) => match walking {
                Walking::One(_) => self.step_both_first(start, path, target, new_path),
                Walking::Two(one, other) => step_both(self.tree, one, other),
            },
        }
    }
}
