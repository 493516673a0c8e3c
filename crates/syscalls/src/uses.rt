//! The call that needs a further right.

ghost use Rattle.std.specs.Prelude.{◌≡◌, ◌<◌, ◌&&◌, ◌||◌, List, length, map, not};
ghost use Rattle.rights.specs.Uses.{acts_beneath, reaches_globally};
ghost use Rattle.file_tree.specs.Nodes.{is_dir, node};
ghost use Rattle.fd_table.specs.Kept.{open_files};
ghost use Rattle.instruction_set.specs.Programs as programs;
ghost use Rattle.instruction_set.specs.Views.{operand_of};
ghost use Rattle.kernel.specs.Answers.{Effect};
ghost use Rattle.kernel.specs.Calls as model;
ghost use Rattle.syscalls.specs.AnswerViews.{Calls, DoesFor, IsIdle, IsReadyAt};
ghost use Rattle.syscalls.specs.Shows.{shown};
ghost use Rattle.syscalls.specs.Views.{AreThere, effects_in};

use crate::effects::Effects;
use crate::kernels::Kernel;
use crate::operands::Target;
use crate::outcomes::{Refusal, Success};
use file_tree::{NodeId, Tree};
use instruction_set::Operand;
use rights::{
    Cause, Errno, Rights, acts_beneath, companions_of, operation_of_use, reaches_globally,
};

impl<T: Tree> Kernel<'_, T> {
    /// Does this, unless the descriptor doesn't fit or the kernel refuses. (own)
    #[tactic(auto, unfolding(kernel::specs::Answers::unless))]
    fn used(self, fits: bool, effects: Effects) -> Result<Success, Refusal>
        requires idle { IsIdle (open_files self.files.now) }
        requires there { AreThere (T.nodes self.tree.now) effects }
        ensures { (did : List Effect) → map shown did ≡ effects_in (T.nodes self.entry.tree.now) effects
            → DoesFor T.nodes self.entry self.exit.0.now self.exit.1.0.now result (λ w p s e. model.used w p s e fits did) }
    {
        if !fits {
            return Err(Refusal::Fails(Errno::ENOTDIR, Cause::Kind));
        }
        if self.caller.refuse {
            return Err(Refusal::Fails(Errno::EAGAIN, Cause::Refused));
        }
        Ok(Success::with_effects(0, effects))
    }

    /// Whether a call that needs this right can act on the node.
    fn fits(&self, n: NodeId, right: Rights) -> bool
        requires { n < length (T.nodes self.now.tree.now) }
        ensures { result ≡ not (acts_beneath right.0) || is_dir (node (T.nodes self.now.tree.now) n).kind }
    {
        !acts_beneath(right) || self.is_directory(n)
    }

    /// Whether a call that needs this right is refused by capability mode. (capsicum(4))
    fn is_out_of_reach(&self, right: Rights) -> bool
        ensures { result ≡ self.now.caller.process.now.mode && reaches_globally right.0 }
    {
        self.caller.process.mode() && reaches_globally(right)
    }

    /// Does to a node what a call does that needs this right.
    fn use_node(self, n: NodeId, right: Rights) -> Result<Success, Refusal>
        requires ready { IsReadyAt T.nodes self }
        requires there { n < length (T.nodes self.tree.now) }
        ensures { DoesFor T.nodes self.entry self.exit.0.now self.exit.1.0.now result (λ w p s e.
            model.used w p s e (not (acts_beneath right.0) || is_dir (node w.tree n).kind) (model.effects_of_use right.0 (node w.tree n).place)) }
    {
        let fits = self.fits(n, right);
        match operation_of_use(right) {
            None => self.used(fits, Effects::Nothing),
            Some(operation) => self.used(fits, Effects::One(operation, n)),
        }
    }

    /// Makes a call that needs a further right, and changes nothing. (rights(4); where a global name space is reached:
    /// capsicum(4))
    pub fn use_right(self, operand: Operand, right: Rights) -> Result<Success, Refusal>
        requires { IsReadyAt T.nodes self }
        ensures { Calls T.nodes self.entry self.exit.0.now self.exit.1.0.now result (programs.Use (operand_of operand) right.0) }
    {
        if self.is_out_of_reach(right) {
            return Err(Refusal::Fails(Errno::ECAPMODE, Cause::CapMode));
        }
        let reached = self.reach_through(operand, companions_of(right).union(right))?;
        let target = reached.target;
        match target {
            Target::Node(found) => self.use_node(found.node, right),
            Target::End(_) => self.used(!acts_beneath(right), Effects::Nothing),
        }
    }
}
