//! What FreeBSD does in the mode with a call that a task hasn't.

use crate::demands::Way;
use crate::further::FurtherRights;
use crate::policies::Account;
use crate::room::Room;
use crate::trees::Tree;
use call_facts::sets::read_plain_rights;
use call_facts::{TableChange, table_change};
use records::{Entry, Event, LeftOut, MadeCall, Reason, WantedRight};
use rights::Rights;

/// That, and where the right is that the call wants.
#[derive(Clone, Copy, PartialEq, Eq)]
pub(crate) enum Fate {
    /// In a limit of the plan.
    InLimits,
    /// Among those that caph_limit_stdio(3) leaves, or in a limit of the plan.
    Standard,
    /// With the descriptor, which is made in the mode and has all rights.
    MadeThere,
    /// With a file that a library opens, later than it can.
    OfLibrary,
    /// The mode refuses the call.
    Refused,
    NotKnown,
}

/// The rights of an input, an output or of errors that caph_limit_stdio(3) leaves, of those that a task can have.
pub(crate) fn standard_rights() -> Rights {
    Rights::READ
        .union(Rights::WRITE)
        .union(Rights::SEEK)
        .union(Rights::FSTAT)
        .union(Rights::FCNTL)
}

impl Fate {
    /// In words.
    pub(crate) fn words(self) -> &'static str {
        match self {
            Fate::InLimits => "in the limits above",
            Fate::Standard => "as 0, 1 and 2 have it above",
            Fate::MadeThere => "of a descriptor that is made there and has all rights",
            Fate::OfLibrary => "of a file that a library opens, as told here",
            Fate::Refused => "refused in the mode (ECAPMODE)",
            Fate::NotKnown => "not known",
        }
    }

    /// Whether the call is refused, or nobody knows whether it is.
    pub(crate) fn is_left(self) -> bool {
        matches!(self, Fate::Refused | Fate::NotKnown)
    }
}

/// The calls of a record, and what was found out about it.
#[derive(Clone, Copy)]
pub(crate) struct Told<'a> {
    pub tree: &'a Tree,
    pub account: &'a Account,
    pub entries: &'a [Entry],
}

impl<'a> Told<'a> {
    /// The call of an entry, if it is one.
    fn made_at(&self, at: usize) -> Option<&'a MadeCall> {
        match self.entries.get(at) {
            Some(
                Entry {
                    event: Event::Called(made),
                    ..
                },
            ) => Some(made),
            _ => None,
        }
    }
}

/// Where a descriptor comes from that an entry makes in the mode.
fn fate_of_made(room: &mut Room, told: &Told<'_>, at: Option<usize>) -> Fate {
    let Some(at) = at else {
        return Fate::NotKnown;
    };
    let Some(made) = told.made_at(at) else {
        return Fate::NotKnown;
    };
    match table_change(made.call) {
        TableChange::Opened => {
            if told.account.way_of(room, told.tree, made, at) == Way::Late {
                Fate::OfLibrary
            } else {
                Fate::InLimits
            }
        }
        TableChange::Pair | TableChange::Copied => Fate::MadeThere,
        TableChange::Inherited | TableChange::Received | TableChange::Child => Fate::NotKnown,
        TableChange::Freed | TableChange::Limited | TableChange::Unchanged => Fate::NotKnown,
    }
}

/// Where the rights of a descriptor are that a call in the mode works on.
fn fate_of_descriptor(room: &mut Room, told: &Told<'_>, handle: usize) -> Fate {
    let account = told.account;
    let mut at = handle;
    for _ in 0..account.handles.list.len() {
        let Some(own) = account.handles.list.get(at) else {
            return Fate::NotKnown;
        };
        if own.is_standard {
            return Fate::Standard;
        }
        if account.demands.are_limited(at) {
            return Fate::InLimits;
        }
        match own.source {
            Some(source) if !account.handles.is_standard(Some(source)) => at = source,
            _ => return fate_of_made(room, told, own.made),
        }
    }
    Fate::NotKnown
}

/// What becomes of a call that wants a right.
fn fate_of_wanting(
    room: &mut Room,
    told: &Told<'_>,
    wanted: &WantedRight,
    process: u32,
    at: usize,
) -> Fate {
    let further = FurtherRights::named(&wanted.right);
    if further.is_empty() && read_plain_rights(&wanted.right) == Rights::empty() {
        return Fate::NotKnown;
    }
    match told
        .account
        .handles
        .position_at(process, wanted.descriptor, at)
    {
        Some(handle) => fate_of_descriptor(room, told, handle),
        None => Fate::NotKnown,
    }
}

/// What becomes of a call in the mode that the task hasn't, if it is one with descriptors or names.
pub(crate) fn fate_of(
    room: &mut Room,
    told: &Told<'_>,
    left_out: &LeftOut,
    at: usize,
) -> Option<Fate> {
    let process = match told.entries.get(at) {
        Some(entry) => entry.process,
        None => return None,
    };
    match (left_out.reason, &left_out.wanted) {
        (Reason::Loader | Reason::Quiet, _) => None,
        (Reason::Global, _) => Some(Fate::Refused),
        (_, Some(wanted)) => Some(fate_of_wanting(room, told, wanted, process, at)),
        (_, None) => Some(Fate::NotKnown),
    }
}
