//! The call that needs a further right: what else it needs of the descriptor, and what it does. (rights(4))

ghost use Rattle.std.specs.Prelude.{◌≡◌, map};
ghost use Rattle.std.specs.Option.{option_map};
ghost use Rattle.rights.specs.Uses.{acts_beneath, beside_in, companions_of, is_further_right, operation_of_use, or_no_right, reaches_globally};
ghost use Rattle.rights.specs.RightViews.{companion_seen, right_operation_seen};
ghost use Rattle.rights.specs.Views.{operation_of};

use crate::operations::{Op, RightOperation, operations_of_rights};
use crate::sets::Rights;

/// A further right, and what a call that needs it needs too.
#[derive(Clone, Copy)]
struct Companion {
    right: Rights,
    beside: Rights,
}

/// The table.
const COMPANIONS: [Companion; 8] = [
    Companion {
        right: Rights::CONNECTAT,
        beside: Rights::LOOKUP,
    },
    Companion {
        right: Rights::FCHMODAT,
        beside: Rights::LOOKUP,
    },
    Companion {
        right: Rights::FCHOWNAT,
        beside: Rights::LOOKUP,
    },
    Companion {
        right: Rights::FEXECVE,
        beside: Rights::READ,
    },
    Companion {
        right: Rights::FUTIMESAT,
        beside: Rights::LOOKUP,
    },
    Companion {
        right: Rights::MMAP_R,
        beside: Rights(0x5),
    },
    Companion {
        right: Rights::MMAP_W,
        beside: Rights(0x6),
    },
    Companion {
        right: Rights::MMAP_X,
        beside: Rights::SEEK,
    },
];

/// What else a call that needs this further right needs of the same descriptor.
pub fn companions_of(right: Rights) -> Rights
    ensures { result.0 ≡ companions_of right.0 }
{
    companions_among(&COMPANIONS, right)
}

/// The same by the rows of a table.
fn companions_among(rows: &[Companion], right: Rights) -> Rights
    ensures { result.0 ≡ or_no_right (beside_in (map companion_seen rows.now) right.0) }
{
    match rows {
        [] => Rights::empty(),
        [first, rest @ ..] => {
            if first.right == right {
                first.beside
            } else {
                companions_among(rest, right)
            }
        }
    }
}

/// Whether a call that needs this further right acts beneath the descriptor, which has to be of a directory then.
pub fn acts_beneath(right: Rights) -> bool
    ensures { result ≡ acts_beneath right.0 }
{
    companions_of(right).contains(Rights::LOOKUP)
}

/// What a call that needs this further right does at the descriptor's place, or beneath it; `None` where that
/// is nothing that a policy counts. (own)
pub fn operation_of_use(right: Rights) -> Option<Op>
    ensures { option_map operation_of result ≡ operation_of_use right.0 }
{
    operation_among(operations_of_rights(), right)
}

/// The same by the rows of a table.
fn operation_among(rows: &[RightOperation], right: Rights) -> Option<Op>
    ensures { option_map operation_of result ≡ beside_in (map right_operation_seen rows.now) right.0 }
{
    match rows {
        [] => None,
        [first, rest @ ..] => {
            if first.right == right {
                Some(first.operation)
            } else {
                operation_among(rest, right)
            }
        }
    }
}

/// Whether a call that needs this further right reaches a global name space, which it can't in capability mode.
/// (rights(4), BIND and CONNECT; FCHDIR after the kernel's source)
pub fn reaches_globally(right: Rights) -> bool
    ensures { result ≡ reaches_globally right.0 }
{
    right.intersection(Rights(0x98000)) != Rights::empty()
}

/// Whether the set is one further right alone.
pub fn is_further_right(set: Rights) -> bool
    ensures { result ≡ is_further_right set.0 }
{
    let bits = set.0;
    Rights::further().contains(set) && bits != 0 && bits & (bits - 1) == 0
}
