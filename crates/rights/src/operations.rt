//! The operations that a policy speaks of.

ghost use Rattle.std.specs.Prelude.{◌≡◌, map};
ghost use Rattle.rights.specs.OperationLists.{lists, operation_name, same_operation};
ghost use Rattle.rights.specs.Operations.{operations_of_rights};
ghost use Rattle.rights.specs.RightViews.{right_operation_seen};
ghost use Rattle.rights.specs.Views.{operation_of};

use crate::sets::Rights;

/// What a call does to a place of the tree, and what a grant lists.
#[derive(Clone, Copy, PartialEq, Eq)]
pub enum Op {
    /// To ask what a node is.
    Look,
    /// To read a file's byte.
    Read,
    /// To change a file's bytes or its length.
    Write,
    /// To make a node at the place, or to rename one to it.
    Create,
    /// To take a node away from the place, or to rename it from there.
    Remove,
}

impl Op {
    /// The operation's name, as a trace prints it and a task writes it.
    pub fn name(self) -> &'static str
        ensures { result.now ≡ operation_name (operation_of self) }
    {
        match self {
            Op::Look => "look",
            Op::Read => "read",
            Op::Write => "write",
            Op::Create => "create",
            Op::Remove => "remove",
        }
    }

    /// Whether this is the other.
    fn is_same(self, other: Op) -> bool
        ensures { result ≡ same_operation (operation_of self) (operation_of other) }
    {
        matches!(
            (self, other),
            (Op::Look, Op::Look)
                | (Op::Read, Op::Read)
                | (Op::Write, Op::Write)
                | (Op::Create, Op::Create)
                | (Op::Remove, Op::Remove)
        )
    }

    /// Whether a list of operations, as a grant has it, has this one.
    pub fn is_listed(self, operations: &[Op]) -> bool
        ensures { result ≡ lists (map operation_of operations.now) (operation_of self) }
    {
        match operations {
            [] => false,
            [first, rest @ ..] => self.is_same(*first) || self.is_listed(rest),
        }
    }
}

/// A right, and what it lets its holder do to a node or beneath it.
#[derive(Clone, Copy)]
pub struct RightOperation {
    pub right: Rights,
    pub operation: Op,
}

/// The table.
const RIGHT_OPERATIONS: [RightOperation; 24] = [
    RightOperation {
        right: Rights::READ,
        operation: Op::Read,
    },
    RightOperation {
        right: Rights::WRITE,
        operation: Op::Write,
    },
    RightOperation {
        right: Rights::FTRUNCATE,
        operation: Op::Write,
    },
    RightOperation {
        right: Rights::FSTAT,
        operation: Op::Look,
    },
    RightOperation {
        right: Rights::CREATE,
        operation: Op::Create,
    },
    RightOperation {
        right: Rights::FSTATAT,
        operation: Op::Look,
    },
    RightOperation {
        right: Rights::MKDIRAT,
        operation: Op::Create,
    },
    RightOperation {
        right: Rights::UNLINKAT,
        operation: Op::Remove,
    },
    RightOperation {
        right: Rights::RENAMEAT_SOURCE,
        operation: Op::Remove,
    },
    RightOperation {
        right: Rights::RENAMEAT_TARGET,
        operation: Op::Create,
    },
    RightOperation {
        right: Rights::CONNECTAT,
        operation: Op::Write,
    },
    RightOperation {
        right: Rights::FCHFLAGS,
        operation: Op::Write,
    },
    RightOperation {
        right: Rights::FCHMOD,
        operation: Op::Write,
    },
    RightOperation {
        right: Rights::FCHMODAT,
        operation: Op::Write,
    },
    RightOperation {
        right: Rights::FCHOWN,
        operation: Op::Write,
    },
    RightOperation {
        right: Rights::FCHOWNAT,
        operation: Op::Write,
    },
    RightOperation {
        right: Rights::FEXECVE,
        operation: Op::Read,
    },
    RightOperation {
        right: Rights::FPATHCONF,
        operation: Op::Look,
    },
    RightOperation {
        right: Rights::FSTATFS,
        operation: Op::Look,
    },
    RightOperation {
        right: Rights::FUTIMES,
        operation: Op::Write,
    },
    RightOperation {
        right: Rights::FUTIMESAT,
        operation: Op::Write,
    },
    RightOperation {
        right: Rights::MMAP_R,
        operation: Op::Read,
    },
    RightOperation {
        right: Rights::MMAP_W,
        operation: Op::Write,
    },
    RightOperation {
        right: Rights::MMAP_X,
        operation: Op::Read,
    },
];

/// What each right lets its holder do to a node or beneath it, as a policy counts it. The other rights let it do none of these by the calls of
/// the model. (own; after rights(4))
pub fn operations_of_rights() -> &'static [RightOperation]
    ensures { map right_operation_seen result.now ≡ operations_of_rights }
{
    &RIGHT_OPERATIONS
}
