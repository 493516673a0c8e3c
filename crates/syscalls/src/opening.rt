//! Opening: open and openat, of what is found at a path.

ghost use Rattle.std.specs.Prelude.{◌<◌, ◌||◌, ◌≡◌, Bool, IfErr, IfOk, None, false, length, map, not, true};
ghost use Rattle.rights.specs.Calls as calls;
ghost use Rattle.rights.specs.Errors.{ENFILE, Refused};
ghost use Rattle.rights.specs.Needs.{First, needs_of};
ghost use Rattle.file_tree.specs.Nodes as nodes;
ghost use Rattle.file_tree.specs.Nodes.{Dir, File};
ghost use Rattle.file_tree.specs.Places.{at_name, is_file_name};
ghost use Rattle.fd_table.specs.Filled.{IsFreeAt, IsNamed};
ghost use Rattle.fd_table.specs.Kept.{open_files};
ghost use Rattle.fd_table.specs.OpenFiles as open_state;
ghost use Rattle.lookup.specs.Answers as lookups;
ghost use Rattle.lookup.specs.UnderWay.{IsUnderWay};
ghost use Rattle.lookup.specs.Views.{found_of, last_of};
ghost use Rattle.process.specs.Views.{walking_in};
ghost use Rattle.instruction_set.specs.Programs as programs;
ghost use Rattle.instruction_set.specs.Programs.{is_path};
ghost use Rattle.instruction_set.specs.Views.{operand_of};
ghost use Rattle.kernel.specs.Answers as answers;
ghost use Rattle.kernel.specs.Calls as model;
ghost use Rattle.kernel.specs.Changes.{tree_after};
ghost use Rattle.kernel.specs.Walks.{IfOne};
ghost use Rattle.syscalls.specs.AnswerViews.{DoesFor, GoesOn, IsFoundAt, IsReadyAt, IsReadyDescription, Passes, beneath_seen, held_at, number_seen};
ghost use Rattle.syscalls.specs.Shows.{shown};
ghost use Rattle.syscalls.specs.Views.{AreThere, effects_in};

use crate::changes::create_node;
use crate::effects::Effects;
use crate::kernels::Kernel;
use crate::outcomes::{Refusal, Success, want_of_memory};
use fd_table::DescriptionId;
use file_tree::{Kind, New, NodeId, Tree};
use instruction_set::Operand;
use lookup::{Found, Last, Way, last_name};
use process::Walking;
use rights::limits::MAX_NODES;
use rights::{Call, Cause, Errno, Fcntls, Op, OpenFlags, Position, Rights, needs};

/// How a node is to be opened, and with what rights.
#[derive(Clone, Copy)]
pub(crate) struct Opening {
    pub flags: OpenFlags,
    pub rights: Rights,
    pub fcntls: Fcntls,
}

/// A directory's description, and how what is beneath it is opened.
#[derive(Clone, Copy)]
pub(crate) struct Beneath {
    pub description: DescriptionId,
    pub how: Opening,
}

/// Whether an open would write or make its node.
fn changes(flags: OpenFlags) -> bool
    ensures { result ≡ (flags.write || flags.create) }
{
    flags.write() || flags.create()
}

/// What becomes of the last name of a path that is opened: a name that is made is kept as it is. (open(2), O_CREAT; own)
fn last_if(flags: OpenFlags) -> Last
    ensures { last_of result ≡ model.last_if flags.create }
{
    if flags.create() {
        Last::Keep
    } else {
        Last::Follow
    }
}

/// Empties a file that is opened so. (open(2), O_TRUNC)
fn emptied<T: Tree>(tree: &mut T, n: NodeId, trunc: bool) -> Result<Effects, Refusal>
    requires there { n < length (T.nodes tree.old) }
    requires file { (nodes.node (T.nodes tree.old) n).kind ≡ File }
    ensures tree { IfOk result (λ effects. T.nodes tree.new ≡ tree_after (T.nodes tree.old) (model.truncated trunc n)) }
    ensures effects { IfOk result (λ effects. effects_in (T.nodes tree.new) effects ≡ map shown (model.truncates trunc (nodes.node (T.nodes tree.old) n).place)) }
    ensures there { IfOk result (AreThere (T.nodes tree.new)) }
    ensures only_memory { IfErr result (λ e. e ≡ Refusal.Memory) }
{
    if !trunc {
        return Ok(Effects::Nothing);
    }
    tree.truncate(n, 0).map_err(want_of_memory)?;
    Ok(Effects::One(Op::Write, n))
}

impl<T: Tree> Kernel<'_, T> {
    /// A free number, if the kernel lets the call have one. (ENFILE)
    #[tactic(auto, unfolding(kernel::specs::Answers::unless))]
    fn granted_number(&self) -> Result<u8, Refusal>
        requires { self.now.caller.number < 16 }
        ensures free { IfOk result (λ n. IsFreeAt (open_files self.now.files.now) self.now.caller.number n) }
        ensures passes { (refuse : Bool) → refuse ≡ self.now.caller.refuse → Passes number_seen (λ rest.
            answers.at_number (open_state.lowest_free ((open_files self.now.files.now).table self.now.caller.number)) (λ n. answers.unless (not refuse) ENFILE Refused (rest n))) result }
    {
        let number = self.free_number()?;
        if self.caller.refuse {
            return Err(Refusal::Fails(Errno::ENFILE, Cause::Refused));
        }
        Ok(number)
    }

    /// Opens a directory, which is not written. (open(2), EISDIR)
    #[tactic(auto, unfolding(kernel::specs::Answers::unless))]
    fn open_directory(self, n: NodeId, how: &Opening) -> Result<Success, Refusal>
        requires { self.caller.number < 16 }
        ensures { DoesFor T.nodes self.entry self.exit.0.now self.exit.1.0.now result
            (λ w p s e. model.opened_as w p s e how.now.flags how.now.rights.0 how.now.fcntls.0 n Dir) }
    {
        let flags = how.flags;
        if changes(flags) {
            return Err(Refusal::Fails(Errno::EISDIR, Cause::Path));
        }
        let number = self.granted_number()?;
        let process = self.caller.number;
        self.files
            .open_node(process, number, n, flags, how.rights, how.fcntls)?;
        Ok(Success::value(number as u32))
    }

    /// Opens a file that is there.
    fn open_file(self, n: NodeId, how: &Opening) -> Result<Success, Refusal>
        requires process { self.caller.number < 16 }
        requires there { n < length (T.nodes self.tree.now) }
        requires file { (nodes.node (T.nodes self.tree.now) n).kind ≡ File }
        ensures { DoesFor T.nodes self.entry self.exit.0.now self.exit.1.0.now result
            (λ w p s e. model.opened_as w p s e how.now.flags how.now.rights.0 how.now.fcntls.0 n File) }
    {
        let number = self.granted_number()?;
        let flags = how.flags;
        let process = self.caller.number;
        let effects = emptied(self.tree, n, flags.trunc())?;
        self.files
            .open_node(process, number, n, flags, how.rights, how.fcntls)?;
        Ok(Success::with_effects(number as u32, effects))
    }

    /// Makes a file and opens it. (open(2), O_CREAT; that a full tree is asked before the kernel is own)
    #[tactic(auto, unfolding(kernel::specs::Answers::unless), using(crate::proofs::Tests::below, crate::proofs::Tests::not_below))]
    fn open_new(self, dir: NodeId, name: &[u8], how: &Opening) -> Result<Success, Refusal>
        requires process { self.caller.number < 16 }
        requires there { dir < length (T.nodes self.tree.now) }
        requires directory { (nodes.node (T.nodes self.tree.now) dir).kind ≡ Dir }
        requires linked { (nodes.node (T.nodes self.tree.now) dir).linked ≡ true }
        requires absent { nodes.child_of (T.nodes self.tree.now) dir name.now ≡ None }
        requires name { is_file_name name.now ≡ true }
        ensures { DoesFor T.nodes self.entry self.exit.0.now self.exit.1.0.now result
            (λ w p s e. model.opened_new w p s e how.now.flags how.now.rights.0 how.now.fcntls.0 (at_name (nodes.node w.tree dir).place name.now)) }
    {
        let number = self.free_number()?;
        if self.tree.made() >= MAX_NODES {
            return Err(Refusal::Fails(Errno::ENOSPC, Cause::Full));
        }
        if self.caller.refuse {
            return Err(Refusal::Fails(Errno::ENFILE, Cause::Refused));
        }
        let process = self.caller.number;
        let n = create_node(self.tree, dir, name, New::File)?;
        let flags = how.flags;
        self.files
            .open_node(process, number, n, flags, how.rights, how.fcntls)?;
        let effects = Effects::One(Op::Create, n);
        Ok(Success::with_effects(number as u32, effects))
    }

    /// Opens what is found at a path, or makes a file of its last name.
    fn open_found(self, found: Found, path: &[u8], how: &Opening) -> Result<Success, Refusal>
        requires process { self.caller.number < 16 }
        requires found { IsFoundAt (T.nodes self.tree.now) path.now found }
        requires text { is_path path.now ≡ true }
        ensures { DoesFor T.nodes self.entry self.exit.0.now self.exit.1.0.now result
            (λ w p s e. model.opened w p s e how.now.flags how.now.rights.0 how.now.fcntls.0 path.now (found_of found)) }
    {
        let n = match found {
            Found::Free(dir) => return self.open_new(dir, last_name(path), how),
            Found::Node(n) => n,
        };
        match self.tree.kind(n) {
            Kind::Link => Err(Refusal::Fails(Errno::ELOOP, Cause::Path)),
            Kind::Dir => self.open_directory(n, how),
            Kind::File => self.open_file(n, how),
        }
    }

    /// Opens the file or directory at a path, with all rights. (open(2))
    pub fn open_path(
        self,
        path: &[u8],
        flags: OpenFlags,
        walk: Option<Walking>,
    ) -> Result<Success, Refusal>
        requires ready { IsReadyAt T.nodes self }
        requires text { is_path path.now ≡ true }
        requires under { IfOne (IsUnderWay (T.nodes self.tree.now) path.now lookups.Global (model.last_if flags.create)) (walking_in walk) }
        ensures { GoesOn T.nodes self.entry walk self.exit.0.now self.exit.1.0.now result (programs.Open path.now flags) }
    {
        let found = self.find_from_root(path, last_if(flags), walk)?;
        let how = Opening {
            flags,
            rights: Rights::all(),
            fcntls: Fcntls::all(),
        };
        self.open_found(found, path, &how)
    }

    /// What `openat` needs of its directory, and what it opens gets from it. (openat(2); that it gets these is own)
    fn opening_beneath(&self, operand: Operand, flags: OpenFlags) -> Result<Beneath, Refusal>
        requires { IsReadyAt T.nodes self.now }
        ensures passes { Passes beneath_seen (answers.through (needs_of calls.Openat flags First false) (held_at self.now operand)) result }
        ensures flags { IfOk result (λ b. b.how.flags ≡ flags) }
        ensures named { IfOk result (λ b. IsNamed (open_files self.now.files.now) b.description) }
        ensures ready { IfOk result (λ b. IsReadyDescription (T.nodes self.now.tree.now) (open_files self.now.files.now) b.description) }
    {
        let need = needs(Call::Openat, flags, Position::First, false);
        let held = self.through_rights(operand, need)?;
        Ok(Beneath {
            description: held.description,
            how: Opening {
                flags,
                rights: held.rights,
                fcntls: held.fcntls,
            },
        })
    }

    /// Opens the file or directory at a path beneath a directory, with the rights of the directory's descriptor. (openat(2);
    /// that it gets these is own)
    pub fn open_beneath(
        self,
        operand: Operand,
        path: &[u8],
        flags: OpenFlags,
        walk: Option<Walking>,
    ) -> Result<Success, Refusal>
        requires ready { IsReadyAt T.nodes self }
        requires text { is_path path.now ≡ true }
        requires under { IfOne (IsUnderWay (T.nodes self.tree.now) path.now lookups.Beneath (model.last_if flags.create)) (walking_in walk) }
        ensures { GoesOn T.nodes self.entry walk self.exit.0.now self.exit.1.0.now result (programs.Openat (operand_of operand) path.now flags) }
    {
        let beneath = self.opening_beneath(operand, flags)?;
        let dir = self.directory_of(beneath.description)?;
        let found = self.look_up(dir, path, Way::Beneath, last_if(flags), walk)?;
        self.open_found(found, path, &beneath.how)
    }
}
