//! Names: stat, mkdir, unlink and rename, of what is found at a path.

ghost use Rattle.std.specs.Prelude.{[], ◌<◌, ◌∷◌, ◌≡◌, ◌≢◌, IfErr, IfOk, List, None, ℕ, length, true};
ghost use Rattle.file_tree.specs.Nodes as nodes;
ghost use Rattle.file_tree.specs.Nodes.{Dir};
ghost use Rattle.file_tree.specs.Places.{at_name, begins, is_file_name, place_text};
ghost use Rattle.file_tree.specs.Views.{kind_of};
ghost use Rattle.file_tree.specs.WellFormed.{IsTree};
ghost use Rattle.fd_table.specs.Descriptions.{Descriptor};
ghost use Rattle.lookup.specs.Answers as lookups;
ghost use Rattle.lookup.specs.Promises.{HasName, IsFindingThere, IsUnderName};
ghost use Rattle.lookup.specs.UnderWay.{IsUnderWay};
ghost use Rattle.lookup.specs.Views.{found_of};
ghost use Rattle.process.specs.Views.{walking_in};
ghost use Rattle.instruction_set.specs.Programs as programs;
ghost use Rattle.instruction_set.specs.Programs.{Syscall, is_path};
ghost use Rattle.instruction_set.specs.Views.{operand_of};
ghost use Rattle.kernel.specs.Calls as model;
ghost use Rattle.kernel.specs.Calls.{kind_number, made_directory, stats, stats_at, unlinks};
ghost use Rattle.kernel.specs.Walks.{IfOne, IfTwo};
ghost use Rattle.syscalls.specs.AnswerViews.{DoesFor, GoesOn, IsFoundAt, IsReadyAt, MayReplace};

use crate::changes::create_node;
use crate::effects::{Effects, place_of};
use crate::kernels::Kernel;
use crate::operands::{need_of, second_need};
use crate::outcomes::{Refusal, Success};
use file_tree::{Kind, New, NodeId, Tree, TreeFault};
use instruction_set::Operand;
use lookup::{Found, Last, last_name};
use process::Walking;
use rights::limits::MAX_NODES;
use rights::{Call, Cause, Errno, Op};

/// 1 for a file, 2 for a directory. (fstat(2))
fn number_of(kind: Kind) -> u32
    ensures { result ≡ kind_number (kind_of kind) }
{
    match kind {
        Kind::File => 1,
        Kind::Dir => 2,
        Kind::Link => 3,
    }
}

impl<T: Tree> Kernel<'_, T> {
    /// What a node is. (fstat(2))
    pub fn stat(self, n: NodeId) -> Result<Success, Refusal>
        requires ready { IsReadyAt T.nodes self }
        requires there { n < length (T.nodes self.tree.now) }
        ensures { DoesFor T.nodes self.entry self.exit.0.now self.exit.1.0.now result (λ w p s e. stats w p s e n) }
    {
        let value = number_of(self.tree.kind(n));
        Ok(Success::with_effects(value, Effects::One(Op::Look, n)))
    }

    /// What is found at a path. (fstatat(2), stat(2))
    fn stat_found(self, found: Found) -> Result<Success, Refusal>
        requires ready { IsReadyAt T.nodes self }
        requires there { IsFindingThere (T.nodes self.tree.now) (found_of found) }
        ensures { DoesFor T.nodes self.entry self.exit.0.now self.exit.1.0.now result (λ w p s e. stats_at w p s e (found_of found)) }
    {
        match found {
            Found::Free(_) => Err(Refusal::Fails(Errno::ENOENT, Cause::Path)),
            Found::Node(n) => self.stat(n),
        }
    }

    /// Asks what the node beneath a directory is. (fstatat(2))
    pub fn stat_beneath(
        self,
        operand: Operand,
        path: &[u8],
        walk: Option<Walking>,
    ) -> Result<Success, Refusal>
        requires ready { IsReadyAt T.nodes self }
        requires under { IfOne (IsUnderWay (T.nodes self.tree.now) path.now lookups.Beneath lookups.Follow) (walking_in walk) }
        ensures { GoesOn T.nodes self.entry walk self.exit.0.now self.exit.1.0.now result (programs.Fstatat (operand_of operand) path.now) }
    {
        let found = self.find_beneath(operand, path, Call::Fstatat, Last::Follow, walk)?;
        self.stat_found(found)
    }

    /// Asks what the node at a path is. (stat(2))
    pub fn stat_path(self, path: &[u8], walk: Option<Walking>) -> Result<Success, Refusal>
        requires ready { IsReadyAt T.nodes self }
        requires under { IfOne (IsUnderWay (T.nodes self.tree.now) path.now lookups.Global lookups.Follow) (walking_in walk) }
        ensures { GoesOn T.nodes self.entry walk self.exit.0.now self.exit.1.0.now result (programs.Stat path.now) }
    {
        let found = self.find_from_root(path, Last::Follow, walk)?;
        self.stat_found(found)
    }

    /// Makes a directory of the last name of the path, if that is what is free. (mkdirat(2), mkdir(2); that a full tree is asked
    /// before the kernel is own)
    #[tactic(auto, unfolding(kernel::specs::Answers::unless), using(crate::proofs::Tests::below, crate::proofs::Tests::not_below))]
    fn make_directory(self, found: Found, path: &[u8]) -> Result<Success, Refusal>
        requires ready { IsReadyAt T.nodes self }
        requires found { IsFoundAt (T.nodes self.tree.now) path.now found }
        requires text { is_path path.now ≡ true }
        ensures { DoesFor T.nodes self.entry self.exit.0.now self.exit.1.0.now result (λ w p s e. made_directory w p s e path.now (found_of found)) }
    {
        let dir = match found {
            Found::Node(_) => return Err(Refusal::Fails(Errno::EEXIST, Cause::Path)),
            Found::Free(dir) => dir,
        };
        if self.tree.made() >= MAX_NODES {
            return Err(Refusal::Fails(Errno::ENOSPC, Cause::Full));
        }
        if self.caller.refuse {
            return Err(Refusal::Fails(Errno::ENOSPC, Cause::Refused));
        }
        let n = create_node(self.tree, dir, last_name(path), New::Dir)?;
        Ok(Success::with_effects(0, Effects::One(Op::Create, n)))
    }

    /// Makes a directory beneath a directory. (mkdirat(2))
    pub fn make_beneath(
        self,
        operand: Operand,
        path: &[u8],
        walk: Option<Walking>,
    ) -> Result<Success, Refusal>
        requires ready { IsReadyAt T.nodes self }
        requires text { is_path path.now ≡ true }
        requires under { IfOne (IsUnderWay (T.nodes self.tree.now) path.now lookups.Beneath lookups.Keep) (walking_in walk) }
        ensures { GoesOn T.nodes self.entry walk self.exit.0.now self.exit.1.0.now result (programs.Mkdirat (operand_of operand) path.now) }
    {
        let found = self.find_beneath(operand, path, Call::Mkdirat, Last::Keep, walk)?;
        self.make_directory(found, path)
    }

    /// Makes a directory at a path. (mkdir(2))
    pub fn make_path(self, path: &[u8], walk: Option<Walking>) -> Result<Success, Refusal>
        requires ready { IsReadyAt T.nodes self }
        requires text { is_path path.now ≡ true }
        requires under { IfOne (IsUnderWay (T.nodes self.tree.now) path.now lookups.Global lookups.Keep) (walking_in walk) }
        ensures { GoesOn T.nodes self.entry walk self.exit.0.now self.exit.1.0.now result (programs.Mkdir path.now) }
    {
        let found = self.find_from_root(path, Last::Keep, walk)?;
        self.make_directory(found, path)
    }

    /// Removes a node: a directory if one is asked for, which has to be empty, and else another node. (unlinkat(2),
    /// unlink(2), rmdir(2))
    #[tactic(auto, unfolding(kernel::specs::Answers::unless))]
    fn remove(self, found: Found, directory: bool) -> Result<Success, Refusal>
        requires ready { IsReadyAt T.nodes self }
        requires there { IsFindingThere (T.nodes self.tree.now) (found_of found) }
        requires named { (path : List ℕ) × IsUnderName (T.nodes self.tree.now) path (found_of found) }
        ensures { DoesFor T.nodes self.entry self.exit.0.now self.exit.1.0.now result (λ w p s e. unlinks w p s e directory (found_of found)) }
    {
        let n = match found {
            Found::Free(_) => return Err(Refusal::Fails(Errno::ENOENT, Cause::Path)),
            Found::Node(n) => n,
        };
        let is_directory = self.is_directory(n);
        if directory != is_directory {
            let errno = if directory {
                Errno::ENOTDIR
            } else {
                Errno::EPERM
            };
            return Err(Refusal::Fails(errno, Cause::Path));
        }
        match self.tree.remove(n) {
            Ok(()) => Ok(Success::with_effects(0, Effects::One(Op::Remove, n))),
            Err(fault) => match fault {
                TreeFault::NotEmpty => Err(Refusal::Fails(Errno::ENOTEMPTY, Cause::Path)),
                TreeFault::Memory => Err(Refusal::Memory),
                TreeFault::Exists | TreeFault::Full | TreeFault::IntoItself | TreeFault::Gone =>
                    unreachable!(),
            },
        }
    }

    /// Removes a node beneath a directory. (unlinkat(2))
    pub fn remove_beneath(
        self,
        operand: Operand,
        path: &[u8],
        directory: bool,
        walk: Option<Walking>,
    ) -> Result<Success, Refusal>
        requires ready { IsReadyAt T.nodes self }
        requires under { IfOne (IsUnderWay (T.nodes self.tree.now) path.now lookups.Beneath lookups.Keep) (walking_in walk) }
        ensures { GoesOn T.nodes self.entry walk self.exit.0.now self.exit.1.0.now result (programs.Unlinkat (operand_of operand) path.now directory) }
    {
        let found = self.find_beneath(operand, path, Call::Unlinkat, Last::Keep, walk)?;
        self.remove(found, directory)
    }

    /// Removes the node at a path. (unlink(2), rmdir(2))
    pub fn remove_path(
        self,
        path: &[u8],
        directory: bool,
        walk: Option<Walking>,
    ) -> Result<Success, Refusal>
        requires ready { IsReadyAt T.nodes self }
        requires under { IfOne (IsUnderWay (T.nodes self.tree.now) path.now lookups.Global lookups.Keep) (walking_in walk) }
        ensures { GoesOn T.nodes self.entry walk self.exit.0.now self.exit.1.0.now result (programs.Unlink path.now directory) }
    {
        let found = self.find_from_root(path, Last::Keep, walk)?;
        self.remove(found, directory)
    }

    /// Gives a node a free name in a directory. (rename(2), EINVAL)
    #[tactic(auto, unfolding(kernel::specs::Answers::unless))]
    fn rename_free(self, n: NodeId, dir: NodeId, name: &[u8]) -> Result<Success, Refusal>
        requires ready { IsReadyAt T.nodes self }
        requires there { n < length (T.nodes self.tree.now) }
        requires linked { (nodes.node (T.nodes self.tree.now) n).linked ≡ true }
        requires dir_there { dir < length (T.nodes self.tree.now) }
        requires dir_linked { (nodes.node (T.nodes self.tree.now) dir).linked ≡ true }
        requires directory { (nodes.node (T.nodes self.tree.now) dir).kind ≡ Dir }
        requires name { is_file_name name.now ≡ true }
        requires free { nodes.child_of (T.nodes self.tree.now) dir name.now ≡ None }
        ensures { DoesFor T.nodes self.entry self.exit.0.now self.exit.1.0.now result (λ w p s e. model.renamed_free w p s e n (at_name (nodes.node w.tree dir).place name.now)) }
    {
        let from = place_of(self.alloc, self.tree, n)?;
        match self.tree.rename(n, dir, name) {
            Err(fault) => match fault {
                TreeFault::IntoItself => Err(Refusal::Fails(Errno::EINVAL, Cause::Path)),
                TreeFault::Memory => Err(Refusal::Memory),
                TreeFault::Exists | TreeFault::NotEmpty | TreeFault::Full | TreeFault::Gone =>
                    unreachable!(),
            },
            Ok(()) => Ok(Success::with_effects(0, Effects::Renamed(n, from))),
        }
    }

    /// Whether a node's place begins with another's, which has this text: it is that node, or below it.
    fn is_within(&self, n: NodeId, upper: NodeId, place: &[u8]) -> bool
        requires there { n < length (T.nodes self.now.tree.now) }
        requires upper { upper < length (T.nodes self.now.tree.now) }
        requires tree { IsTree (T.nodes self.now.tree.now) }
        requires place { place.now ≡ place_text (nodes.node (T.nodes self.now.tree.now) upper).place }
        ensures { result ≡ begins (nodes.node (T.nodes self.now.tree.now) upper).place (nodes.node (T.nodes self.now.tree.now) n).place }
    {
        self.tree.place_begins(n, place)
    }

    /// Gives a node the place of another one, which is removed. The kinds have to fit. (rename(2), ENOTDIR, EISDIR, ENOTEMPTY)
    #[tactic(auto, unfolding(kernel::specs::Answers::unless))]
    fn rename_over(self, n: NodeId, over: NodeId, name: &[u8]) -> Result<Success, Refusal>
        requires ready { IsReadyAt T.nodes self }
        requires there { n < length (T.nodes self.tree.now) }
        requires linked { (nodes.node (T.nodes self.tree.now) n).linked ≡ true }
        requires over_there { over < length (T.nodes self.tree.now) }
        requires over_linked { (nodes.node (T.nodes self.tree.now) over).linked ≡ true }
        requires named { HasName (T.nodes self.tree.now) over name.now }
        requires other { over ≢ n }
        requires name { is_file_name name.now ≡ true }
        ensures { DoesFor T.nodes self.entry self.exit.0.now self.exit.1.0.now result (λ w p s e. model.renamed_over w p s e n over) }
    {
        let from = place_of(self.alloc, self.tree, n)?;
        if self.is_within(over, n, &from) {
            return Err(Refusal::Fails(Errno::EINVAL, Cause::Path));
        }
        let moves_directory = self.is_directory(n);
        if moves_directory != self.is_directory(over) {
            let errno = if moves_directory {
                Errno::ENOTDIR
            } else {
                Errno::EISDIR
            };
            return Err(Refusal::Fails(errno, Cause::Path));
        }
        let Some(dir) = self.tree.parent(over) else {
            unreachable!()
        };
        match self.tree.rename(n, dir, name) {
            Err(fault) => match fault {
                TreeFault::NotEmpty => Err(Refusal::Fails(Errno::ENOTEMPTY, Cause::Path)),
                TreeFault::Memory => Err(Refusal::Memory),
                TreeFault::Exists | TreeFault::Full | TreeFault::IntoItself | TreeFault::Gone =>
                    unreachable!(),
            },
            Ok(()) => Ok(Success::with_effects(0, Effects::Replaced(n, from))),
        }
    }

    /// Gives a node the place that was found at a path. (renameat(2); that a node is replaced with the right to unlink alone
    /// is own)
    #[tactic(auto, unfolding(kernel::specs::Answers::unless))]
    fn rename_to(
        self,
        n: NodeId,
        place: Found,
        path: &[u8],
        may_replace: bool,
    ) -> Result<Success, Refusal>
        requires ready { IsReadyAt T.nodes self }
        requires there { n < length (T.nodes self.tree.now) }
        requires linked { (nodes.node (T.nodes self.tree.now) n).linked ≡ true }
        requires place { IsFoundAt (T.nodes self.tree.now) path.now place }
        requires named { IsUnderName (T.nodes self.tree.now) path.now (found_of place) }
        requires text { is_path path.now ≡ true }
        ensures { (call : Syscall) (target : Descriptor) → MayReplace call target may_replace
            → DoesFor T.nodes self.entry self.exit.0.now self.exit.1.0.now result (λ w p s e. model.renamed_to w p s e call target n path.now (found_of place)) }
    {
        let over = match place {
            Found::Free(dir) => return self.rename_free(n, dir, last_name(path)),
            Found::Node(over) => over,
        };
        if n.number() == over.number() {
            return Ok(Success::value(0));
        }
        if !may_replace {
            return Err(Refusal::Fails(Errno::ENOTCAPABLE, Cause::MissingRight));
        }
        self.rename_over(n, over, last_name(path))
    }

    /// Renames what a path leads to beneath a directory to where another leads beneath another. (renameat(2))
    #[tactic(auto, unfolding(kernel::specs::Answers::unless))]
    pub fn rename_beneath(
        self,
        operand: Operand,
        path: &[u8],
        target: Operand,
        new_path: &[u8],
        walk: Option<Walking>,
    ) -> Result<Success, Refusal>
        requires ready { IsReadyAt T.nodes self }
        requires text { is_path new_path.now ≡ true }
        requires under { IfTwo (IsUnderWay (T.nodes self.tree.now) path.now lookups.Beneath lookups.Keep)
            (IsUnderWay (T.nodes self.tree.now) new_path.now lookups.Beneath lookups.Keep) (walking_in walk) }
        ensures { GoesOn T.nodes self.entry walk self.exit.0.now self.exit.1.0.now result (programs.Renameat (operand_of operand) path.now (operand_of target) new_path.now) }
    {
        let source = self.held(operand)?;
        let target = self.held(target)?;
        if !source.rights.contains(need_of(Call::Renameat)) {
            return Err(Refusal::Fails(Errno::ENOTCAPABLE, Cause::MissingRight));
        }
        if !target.rights.contains(second_need(false)) {
            return Err(Refusal::Fails(Errno::ENOTCAPABLE, Cause::MissingRight));
        }
        let start = self.directory_of(source.description)?;
        let end = self.directory_of(target.description)?;
        let may_replace = target.rights.contains(second_need(true));
        let both = self.look_up_both(start, path, end, new_path, walk)?;
        self.rename_to(both.node, both.place, new_path, may_replace)
    }
}
