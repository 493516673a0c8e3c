//! The tests of the descriptors that a call names.

ghost use Rattle.std.specs.Prelude.{◌<◌, ◌≡◌, IfOk, IfSome, false, length, option_map};
ghost use Rattle.rights.specs.Calls as calls;
ghost use Rattle.rights.specs.Needs.{second_needs};
ghost use Rattle.file_tree.specs.Nodes.{File, is_dir, is_link, node};
ghost use Rattle.fd_table.specs.Filled.{IsNamed};
ghost use Rattle.fd_table.specs.Kept.{open_files};
ghost use Rattle.fd_table.specs.Views.{object_seen};
ghost use Rattle.kernel.specs.Answers as answers;
ghost use Rattle.kernel.specs.Calls.{at_file, in_directory};
ghost use Rattle.syscalls.specs.AnswerViews.{HasNumbers, IsHeldAt, IsReached, IsReadyAt, IsReadyDescription, IsTarget, Passes, PassesIn};
ghost use Rattle.syscalls.specs.AnswerViews.{held_at, held_seen, need, node_seen, number_seen, opened_seen, reached_seen};

use crate::kernels::Kernel;
use crate::outcomes::Refusal;
use fd_table::{Access, DescriptionId, End, Object};
use file_tree::{Kind, NodeId, Tree};
use instruction_set::Operand;
use rights::{Call, Cause, Errno, Fcntls, OpenFlags, Position, Rights, needs};

/// A descriptor, with its number.
#[derive(Clone, Copy)]
pub(crate) struct Numbered {
    pub number: u8,
    pub description: DescriptionId,
    pub rights: Rights,
    pub fcntls: Fcntls,
}

/// A file or directory that is open, and what for.
#[derive(Clone, Copy)]
pub(crate) struct OpenNode {
    pub node: NodeId,
    pub access: Access,
}

/// A descriptor of a file.
#[derive(Clone, Copy)]
pub(crate) struct Opened {
    pub held: Numbered,
    pub file: OpenNode,
}

/// What a descriptor is of.
#[derive(Clone, Copy)]
pub(crate) enum Target {
    Node(OpenNode),
    End(End),
}

/// A descriptor with what it is of.
#[derive(Clone, Copy)]
pub(crate) struct Reached {
    pub held: Numbered,
    pub target: Target,
}

/// What a call needs of the rights of its first descriptor. (rights(4))
pub(crate) fn need_of(call: Call) -> Rights
    ensures { result.0 ≡ need call }
{
    needs(call, OpenFlags::unused(), Position::First, false)
}

/// What a rename needs of its second descriptor, where it replaces a node or not. (rights(4), renameat(2))
pub(crate) fn second_need(replaces: bool) -> Rights
    ensures { result.0 ≡ second_needs calls.Renameat replaces }
{
    needs(
        Call::Renameat,
        OpenFlags::unused(),
        Position::Second,
        replaces,
    )
}

fn target_in(object: Object) -> Target
    ensures { IsTarget result (object_seen object) }
{
    match object {
        Object::Node { node, access } => Target::Node(OpenNode { node, access }),
        Object::End { end, .. } => Target::End(end),
    }
}

impl<T: Tree> Kernel<'_, T> {
    /// The caller's descriptor at a number, if there is one.
    fn entry(&self, number: u32) -> Option<Numbered>
        requires { HasNumbers (open_files self.now.files.now) self.now.caller.number }
        ensures entry { option_map held_seen result ≡ (open_files self.now.files.now).table self.now.caller.number number }
        ensures number { IfSome result (λ held. held.number ≡ number) }
    {
        let number = u8::try_from(number).ok()?;
        match self.files.get(self.caller.number, number) {
            None => None,
            Some(descriptor) => Some(Numbered {
                number,
                description: descriptor.description,
                rights: descriptor.rights,
                fcntls: descriptor.fcntls,
            }),
        }
    }

    /// The descriptor of an operand. (EBADF)
    #[tactic(auto, unfolding(kernel::specs::Answers::held))]
    pub fn held(&self, operand: Operand) -> Result<Numbered, Refusal>
        requires { IsReadyAt T.nodes self.now }
        ensures passes { Passes held_seen (answers.held (held_at self.now operand)) result }
        ensures held { IfOk result (IsHeldAt T.nodes self.now operand) }
    {
        match self.entry(self.value_of(operand)) {
            None => Err(Refusal::Fails(Errno::EBADF, Cause::BadDescriptor)),
            Some(held) => Ok(held),
        }
    }

    /// The descriptor of an operand, if it has the rights that the call needs.
    pub fn through(&self, operand: Operand, call: Call) -> Result<Numbered, Refusal>
        requires { IsReadyAt T.nodes self.now }
        ensures passes { Passes held_seen (answers.through (need call) (held_at self.now operand)) result }
        ensures held { IfOk result (IsHeldAt T.nodes self.now operand) }
    {
        self.through_rights(operand, need_of(call))
    }

    /// The descriptor of an operand, if it has the rights. (EBADF; ENOTCAPABLE)
    #[tactic(auto, unfolding(kernel::specs::Answers::held, kernel::specs::Answers::unless))]
    pub fn through_rights(&self, operand: Operand, need: Rights) -> Result<Numbered, Refusal>
        requires { IsReadyAt T.nodes self.now }
        ensures passes { Passes held_seen (answers.through need.0 (held_at self.now operand)) result }
        ensures held { IfOk result (IsHeldAt T.nodes self.now operand) }
    {
        let held = self.held(operand)?;
        if !held.rights.contains(need) {
            return Err(Refusal::Fails(Errno::ENOTCAPABLE, Cause::MissingRight));
        }
        Ok(held)
    }

    /// What a descriptor is of.
    #[tactic(auto, unfolding(kernel::specs::Answers::at_object))]
    pub fn target_of(&self, description: DescriptionId) -> Target
        requires { IsNamed (open_files self.now.files.now) description }
        ensures { IsTarget result ((open_files self.now.files.now).objects description) }
    {
        target_in(self.files.what(description).object)
    }

    /// Whether the node is a directory.
    pub fn is_directory(&self, n: NodeId) -> bool
        requires { n < length (T.nodes self.now.tree.now) }
        ensures { result ≡ is_dir (node (T.nodes self.now.tree.now) n).kind }
    {
        self.tree.kind(n) == Kind::Dir
    }

    /// The directory of a descriptor. (openat(2), ENOTDIR)
    #[tactic(auto, unfolding(kernel::specs::Answers::at_object, kernel::specs::Answers::unless))]
    pub fn directory_of(&self, description: DescriptionId) -> Result<NodeId, Refusal>
        requires named { IsNamed (open_files self.now.files.now) description }
        requires ready { IsReadyDescription (T.nodes self.now.tree.now) (open_files self.now.files.now) description }
        ensures passes { PassesIn T.nodes self.now number_seen (λ w p s e. in_directory w p s e description) result }
        ensures there { IfOk result (λ n. n < length (T.nodes self.now.tree.now)) }
        ensures opened { IfOk result (λ n. is_link (node (T.nodes self.now.tree.now) n).kind ≡ false) }
    {
        match self.target_of(description) {
            Target::End(_) => Err(Refusal::Fails(Errno::ENOTDIR, Cause::Kind)),
            Target::Node(found) => {
                if !self.is_directory(found.node) {
                    return Err(Refusal::Fails(Errno::ENOTDIR, Cause::Kind));
                }
                Ok(found.node)
            }
        }
    }

    /// The file of a descriptor. (EINVAL)
    #[tactic(auto, unfolding(kernel::specs::Answers::at_object, kernel::specs::Answers::unless))]
    fn file_of(&self, description: DescriptionId) -> Result<OpenNode, Refusal>
        requires named { IsNamed (open_files self.now.files.now) description }
        requires ready { IsReadyDescription (T.nodes self.now.tree.now) (open_files self.now.files.now) description }
        ensures passes { PassesIn T.nodes self.now node_seen (λ w p s e rest. at_file w p s e description (λ n access. rest (n, access))) result }
        ensures there { IfOk result (λ found. found.node < length (T.nodes self.now.tree.now)) }
        ensures file { IfOk result (λ found. (node (T.nodes self.now.tree.now) found.node).kind ≡ File) }
    {
        match self.target_of(description) {
            Target::End(_) => Err(Refusal::Fails(Errno::EINVAL, Cause::Kind)),
            Target::Node(found) => {
                if self.tree.kind(found.node) != Kind::File {
                    return Err(Refusal::Fails(Errno::EINVAL, Cause::Kind));
                }
                Ok(found)
            }
        }
    }

    /// The file of an operand, through the rights that are needed.
    pub fn file_through(&self, operand: Operand, call: Call) -> Result<Opened, Refusal>
        requires { IsReadyAt T.nodes self.now }
        ensures passes { PassesIn T.nodes self.now opened_seen (λ w p s e rest. answers.through (need call) (held_at self.now operand)
            (λ d. at_file w p s e d.description (λ n access. rest (d, n, access)))) result }
        ensures there { IfOk result (λ found. found.file.node < length (T.nodes self.now.tree.now)) }
        ensures file { IfOk result (λ found. (node (T.nodes self.now.tree.now) found.file.node).kind ≡ File) }
        ensures named { IfOk result (λ found. IsNamed (open_files self.now.files.now) found.held.description) }
    {
        let held = self.through(operand, call)?;
        let file = self.file_of(held.description)?;
        Ok(Opened { held, file })
    }

    /// What the descriptor of an operand is of, through the rights that the call needs.
    pub fn reach(&self, operand: Operand, call: Call) -> Result<Reached, Refusal>
        requires { IsReadyAt T.nodes self.now }
        ensures passes { Passes reached_seen (answers.through (need call) (held_at self.now operand)) result }
        ensures target { IfOk result (λ reached. IsTarget reached.target ((open_files self.now.files.now).objects reached.held.description)) }
        ensures ready { IfOk result (IsReached (T.nodes self.now.tree.now) (open_files self.now.files.now)) }
    {
        self.reach_through(operand, need_of(call))
    }

    /// What the descriptor of an operand is of, through these rights.
    pub fn reach_through(&self, operand: Operand, need: Rights) -> Result<Reached, Refusal>
        requires { IsReadyAt T.nodes self.now }
        ensures passes { Passes reached_seen (answers.through need.0 (held_at self.now operand)) result }
        ensures target { IfOk result (λ reached. IsTarget reached.target ((open_files self.now.files.now).objects reached.held.description)) }
        ensures ready { IfOk result (IsReached (T.nodes self.now.tree.now) (open_files self.now.files.now)) }
    {
        let held = self.through_rights(operand, need)?;
        let target = self.target_of(held.description);
        Ok(Reached { held, target })
    }

    /// The directory of an operand, through the rights that the call needs.
    pub fn directory_through(&self, operand: Operand, call: Call) -> Result<NodeId, Refusal>
        requires { IsReadyAt T.nodes self.now }
        ensures passes { PassesIn T.nodes self.now number_seen (λ w p s e rest. answers.through (need call) (held_at self.now operand)
            (λ d. in_directory w p s e d.description rest)) result }
        ensures there { IfOk result (λ n. n < length (T.nodes self.now.tree.now)) }
        ensures opened { IfOk result (λ n. is_link (node (T.nodes self.now.tree.now) n).kind ≡ false) }
    {
        let held = self.through(operand, call)?;
        self.directory_of(held.description)
    }
}
