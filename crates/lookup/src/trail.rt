//! Where a lookup stands, and how it goes on by a name.

ghost use Rattle.std.specs.Prelude.{◌≡◌, ◌<◌, ◌^◌, ℕ, List, ◌∷◌, None, length, nat_eq, slice_get, IfSome, IfOk, IfErr, OnOk};
ghost use Rattle.std.specs.Option.{option_copied};
ghost use Rattle.file_tree.specs.Nodes.{Node, parent_of};
ghost use Rattle.file_tree.specs.WellFormed.{IsTree};
ghost use Rattle.lookup.specs.Answers.{Not_found, absent, is_kept};
ghost use Rattle.lookup.specs.Leads.{next};
ghost use Rattle.lookup.specs.Steps.{Rules, Moves, Meets, Stops};
ghost use Rattle.lookup.specs.ByNodes.{Walked, back, from_node, is_holder, no_way_back};
ghost use Rattle.lookup.specs.Looks.{first_stand, lookup_fault, start_node};
ghost use Rattle.lookup.specs.Views.{IsMeaningThere, IsSettled, Means, IsStand, StepsAlong, after_move, after_name, after_node, SameRules, Told};
ghost use Rattle.lookup.specs.Views.{fault_of, last_of, rules_of, stand_of, walk_state, way_of};

use crate::faults::PathFault;
use crate::names::Names;
use crate::paths::{check_text, is_absolute, is_dot, is_dot_dot};
use crate::ways::{Found, Last, Progress, Stand, Way};
use file_tree::{Kind, NodeId, Tree};
use rights::limits::MAX_LINKS;
use std::alloc::{AllocError, Global};

/// What a name means in a directory.
#[derive(Clone, Copy)]
enum Meaning {
    /// The directory itself.
    Itself,
    /// The directory that was walked before.
    Above,
    /// No node there has the name.
    Nothing,
    /// The node that has the name there.
    Node(NodeId),
}

/// Where a lookup stands, and by which rules it goes on: its node, the directories that it walked before, the
/// latest last, the names left, and how many links it followed.
#[derive(Drop)]
pub(crate) struct Trail {
    way: Way,
    last: Last,
    current: NodeId,
    before: Vec<NodeId>,
    left: Names,
    followed: u8,
}

impl Trail {
    /// A lookup before its first name, if nothing is wrong with the path's text or the start.
    #[tactic(auto, unfolding(crate::specs::Looks::lookup_fault))]
    pub(crate) fn begin<T: Tree>(
        alloc: Global,
        tree: &T,
        start: NodeId,
        path: &[u8],
        way: Way,
        last: Last,
    ) -> Result<Trail, PathFault>
        requires { start < length (T.nodes tree.now) }
        ensures tree { IsTree (T.nodes tree.now) }
        ensures allowed { OnOk result (lookup_fault (T.nodes tree.now) start path.now (way_of way) (last_of last) ≡ None) }
        ensures begun { IfOk result (λ trail. stand_of trail ≡ first_stand (from_node (start_node start (way_of way))) path.now) }
        ensures rules { IfOk result (λ trail. (trail.way ≡ way) × (trail.last ≡ last)) }
        ensures refused { IfErr result (Told (lookup_fault (T.nodes tree.now) start path.now (way_of way) (last_of last))) }
    {
        let root = tree.root();
        check_text(path, way, last)?;
        let current = match way {
            Way::Beneath => {
                if !tree.is_linked(start) {
                    return Err(PathFault::NoEntry);
                }
                start
            }
            Way::Global => root,
        };
        let left = Names::new(alloc, path)?;
        Ok(Trail {
            way,
            last,
            current,
            before: Vec::new(alloc),
            left,
            followed: 0,
        })
    }

    /// The same lookup once more. A refused growth is its only error.
    pub(crate) fn copy(&self, alloc: Global) -> Result<Trail, AllocError>
        ensures { IfOk result (λ trail. walk_state trail ≡ walk_state self.now) }
    {
        let before = Vec::from_slice(alloc, &self.before)?;
        let left = self.left.copy(alloc)?;
        Ok(Trail {
            way: self.way,
            last: self.last,
            current: self.current,
            before,
            left,
            followed: self.followed,
        })
    }

    /// Where it stands, and how it goes on.
    pub(crate) fn stand(&self) -> Stand<'_>
        ensures { IsStand result (walk_state self.now) }
    {
        Stand {
            way: self.way,
            last: self.last,
            current: self.current,
            before: &self.before,
            followed: self.followed,
        }
    }

    /// The name behind so many others of those left, or nothing where there are no more.
    pub(crate) fn name_left(&self, at: usize) -> Option<&[u8]>
        ensures { option_copied result ≡ slice_get (stand_of self.now).left at }
    {
        self.left.get(at)
    }

    /// The fault where the directory that was walked before doesn't hold the current one any more.
    fn lost_way(&self) -> PathFault
        ensures { IfSome (fault_of result) (λ fault. no_way_back (way_of self.now.way) ≡ Stops (Not_found fault)) }
    {
        match self.way {
            Way::Beneath => PathFault::Escape,
            Way::Global => PathFault::NoEntry,
        }
    }

    /// Whether that directory holds the current node now.
    fn is_held_by<T: Tree>(&self, tree: &T, dir: NodeId) -> bool
        requires { self.now.current < length (T.nodes tree.now) }
        ensures { result ≡ is_holder dir (parent_of (T.nodes tree.now) self.now.current) }
    {
        match tree.parent(self.current) {
            None => false,
            Some(parent) => dir == parent,
        }
    }

    /// Goes back to the directory that was walked before, if that is the parent now.
    fn go_back<T: Tree>(&mut self, tree: &T) -> Result<Progress, PathFault>
        requires { self.old.current < length (T.nodes tree.now) }
        ensures steps { (rules : Rules Walked) →
            StepsAlong result (after_move rules self.old (back (T.nodes tree.now) (way_of self.old.way) self.old.current (stand_of self.old).cursor.before))
            (stand_of self.new) }
        ensures rules { SameRules self.old self.new }
    {
        match self.before.pop() {
            Some(dir) => {
                if !self.is_held_by(tree, dir) {
                    return Err(self.lost_way());
                }
                self.current = dir;
                Ok(Progress::More)
            }
            None => match self.way {
                Way::Beneath => Err(PathFault::Escape),
                Way::Global => Ok(Progress::More),
            },
        }
    }

    /// Goes on to a node in the directory where the walk stands.
    fn go_down(&mut self, next: NodeId) -> Result<Progress, PathFault>
        ensures steps { (rules : Rules Walked) →
            StepsAlong result (after_move rules self.old (Moves (record { current = next; before = self.old.current ∷ (stand_of self.old).cursor.before })))
            (stand_of self.new) }
        ensures rules { SameRules self.old self.new }
    {
        self.before.push(self.current)?;
        self.current = next;
        Ok(Progress::More)
    }

    /// Whether a name is kept as it is, after which the names left come.
    fn keeps(&self) -> bool
        ensures { result ≡ is_kept (last_of self.now.last) self.now.left }
    {
        match self.last {
            Last::Keep => self.left.is_empty(),
            Last::Follow => false,
        }
    }

    /// Ends where a name is absent.
    fn end_at_absent(&self) -> Result<Progress, PathFault>
        ensures { (rules : Rules Walked) → StepsAlong result
            (after_move rules self.now (Stops (absent (last_of self.now.last) self.now.left self.now.current))) (stand_of self.now) }
    {
        if self.keeps() {
            return Ok(Progress::Done(Found::Free(self.current)));
        }
        Err(PathFault::NoEntry)
    }

    /// Follows a link: the names of its target come before the names left.
    #[tactic(auto, unfolding(crate::specs::ByNodes::by_nodes))]
    fn follow(&mut self, root: NodeId, target: &[u8]) -> Result<Progress, PathFault>
        requires { root ≡ 0 }
        ensures steps { (t : List Node) → StepsAlong result (after_move (rules_of t self.old) self.old (Meets target.now)) (stand_of self.new) }
        ensures rules { SameRules self.old self.new }
    {
        if self.followed >= MAX_LINKS {
            return Err(PathFault::Loop);
        }
        if is_absolute(target) {
            match self.way {
                Way::Beneath => return Err(PathFault::Escape),
                Way::Global => {
                    self.current = root;
                    self.before.clear();
                }
            }
        }
        self.left.put_before(target)?;
        self.followed += 1;
        Ok(Progress::More)
    }

    /// Goes on to a node in the directory where the walk stands, or follows it if it is a link.
    #[tactic(auto, unfolding(file_tree::specs::Nodes::link_target))]
    fn go_to<T: Tree>(
        &mut self,
        tree: &T,
        root: NodeId,
        next: NodeId,
    ) -> Result<Progress, PathFault>
        requires there { next < length (T.nodes tree.now) }
        requires root { root ≡ 0 }
        ensures steps { StepsAlong result (after_node (T.nodes tree.now) self.old next) (stand_of self.new) }
        ensures rules { SameRules self.old self.new }
    {
        match tree.target(next) {
            None => self.go_down(next),
            Some(target) => {
                if self.keeps() {
                    return self.go_down(next);
                }
                self.follow(root, target)
            }
        }
    }

    /// What a name means where the walk stands, which has to be a directory that wasn't removed.
    #[tactic(auto, using(file_tree::proofs::TreeLaws::child_there))]
    fn meaning<T: Tree>(&self, tree: &T, name: &[u8]) -> Result<Meaning, PathFault>
        requires { self.now.current < length (T.nodes tree.now) }
        ensures means { Means (T.nodes tree.now) self.now name.now result }
        ensures there { IfOk result (IsMeaningThere (T.nodes tree.now)) }
    {
        if tree.kind(self.current) != Kind::Dir {
            return Err(PathFault::NotDir);
        }
        if !tree.is_linked(self.current) {
            return Err(PathFault::NoEntry);
        }
        if is_dot(name) {
            return Ok(Meaning::Itself);
        }
        if is_dot_dot(name) {
            return Ok(Meaning::Above);
        }
        match tree.child(self.current, name) {
            None => Ok(Meaning::Nothing),
            Some(next) => Ok(Meaning::Node(next)),
        }
    }

    /// Goes to what a name means, after which the names left come.
    fn enter<T: Tree>(
        &mut self,
        tree: &T,
        root: NodeId,
        meaning: Meaning,
    ) -> Result<Progress, PathFault>
        requires stands { self.old.current < length (T.nodes tree.now) }
        requires there { IsMeaningThere (T.nodes tree.now) meaning }
        requires root { root ≡ 0 }
        ensures steps { StepsAlong result (after_name (T.nodes tree.now) self.old meaning) (stand_of self.new) }
        ensures rules { SameRules self.old self.new }
    {
        match meaning {
            Meaning::Itself => Ok(Progress::More),
            Meaning::Above => self.go_back(tree),
            Meaning::Nothing => self.end_at_absent(),
            Meaning::Node(next) => self.go_to(tree, root, next),
        }
    }

    /// Handles the next name, or ends where none is left.
    #[tactic(auto, unfolding(crate::specs::ByNodes::by_nodes))]
    pub(crate) fn step<T: Tree>(&mut self, tree: &T) -> Result<Progress, PathFault>
        requires { self.old.current < length (T.nodes tree.now) }
        ensures tree { IsTree (T.nodes tree.now) }
        ensures steps { StepsAlong result (next (rules_of (T.nodes tree.now) self.old) (stand_of self.old)) (stand_of self.new) }
        ensures rules { SameRules self.old self.new }
    {
        let root = tree.root();
        let meaning = match self.left.next() {
            None => return Ok(Progress::Done(Found::Node(self.current))),
            Some(name) => self.meaning(tree, name)?,
        };
        self.left.pass();
        self.enter(tree, root, meaning)
    }

    /// Whether the lookup goes on, or ends since no name is left.
    pub(crate) fn settle(&self) -> Progress
        ensures settled { IsSettled result (stand_of self.now) }
        ensures short { length (stand_of self.now).left < 2 ^ 64 }
    {
        if self.left.is_empty() {
            return Progress::Done(Found::Node(self.current));
        }
        Progress::More
    }

    /// Whether one name is left.
    pub(crate) fn one_left(&self) -> bool
        ensures { result ≡ nat_eq (length (stand_of self.now).left) 1 }
    {
        self.left.len() == 1
    }
}
