//! What may be open at a point, and what changed before it.

use crate::room::Room;
use certificate::{Bound, Domain, Held, Slot, Target};
use page::{Change, OpenKind, OpenState, Tone};
use remarks::rights_beyond;
use rights::Rights;
use rights::limits::MAX_DESCRIPTORS;
use task::Grant;
use texts::{ToldRights, parts_of};
use transfer::may_be_on;

/// Whether a number may be open at some point of a program.
fn is_ever_open(bounds: &[Option<Bound>], number: u8) -> bool {
    for bound in bounds {
        if let Some(bound) = bound {
            if !bound.slot(u32::from(number)).is_closed() {
                return true;
            }
        }
    }
    false
}

/// The numbers that may be open at some point.
pub(crate) fn numbers_of(room: &mut Room, bounds: &[Option<Bound>]) -> Vec<u8> {
    let mut numbers = room.list();
    for number in 0..MAX_DESCRIPTORS as u8 {
        if is_ever_open(bounds, number) {
            room.push(&mut numbers, number);
        }
    }
    numbers
}

/// The bound of a point.
fn bound_at(bounds: &[Option<Bound>], point: usize) -> Option<&Bound> {
    match bounds.get(point) {
        Some(Some(bound)) => Some(bound),
        _ => None,
    }
}

/// What a number is open on.
fn kind_of(wide: bool, grants: &[Grant], bound: &Bound, held: &Held) -> OpenKind {
    let is_on = may_be_on(bound.mode());
    match held.target() {
        Target::Socket(..) => OpenKind::End,
        Target::InGrant(_) => {
            if is_on && rights_beyond(wide, grants, held) != Rights::empty() {
                OpenKind::Beyond
            } else {
                OpenKind::Granted
            }
        }
        Target::AnyNode | Target::Unknown => {
            if is_on {
                OpenKind::Nowhere
            } else {
                OpenKind::Granted
            }
        }
    }
}

/// What a number is at a point.
fn state_of(wide: bool, grants: &[Grant], bound: &Bound, number: u8) -> OpenState {
    let (kind, maybe) = match bound.slot(u32::from(number)) {
        Slot::Closed => (OpenKind::Closed, false),
        Slot::Open(held) => (kind_of(wide, grants, bound, &held), false),
        Slot::Maybe(held) => (kind_of(wide, grants, bound, &held), true),
    };
    OpenState { kind, maybe }
}

/// What the numbers are at a point; nothing where it has no bound.
pub(crate) fn states_at(
    room: &mut Room,
    wide: bool,
    grants: &[Grant],
    bounds: &[Option<Bound>],
    numbers: &[u8],
    point: usize,
) -> Vec<OpenState> {
    let mut states = room.list();
    if let Some(bound) = bound_at(bounds, point) {
        for number in numbers {
            let state = state_of(wide, grants, bound, *number);
            room.push(&mut states, state);
        }
    }
    states
}

/// The tone of what is told of a number.
fn tone_of(kind: OpenKind) -> Tone {
    match kind {
        OpenKind::Closed => Tone::Faint,
        OpenKind::Granted => Tone::Plain,
        OpenKind::Beyond => Tone::Beyond,
        OpenKind::End => Tone::InMode,
        OpenKind::Nowhere => Tone::Broken,
    }
}

/// What is told of a number.
fn change_of(room: &mut Room, wide: bool, grants: &[Grant], bound: &Bound, number: u8) -> Change {
    let tone = tone_of(state_of(wide, grants, bound, number).kind);
    let (held, word) = match bound.slot(u32::from(number)) {
        Slot::Closed => {
            let text = room.text(parts_of!(number, " closed"));
            return Change { tone, text };
        }
        Slot::Open(held) => (held, " "),
        Slot::Maybe(held) => (held, " maybe "),
    };
    let told = ToldRights {
        wide,
        rights: held.rights().greatest(),
    };
    let text = room.text(parts_of!(number, word, held.target(), " ", told));
    Change { tone, text }
}

/// Whether a number is told at a point: it is otherwise than at the point before, or, where the mode may be entered there or nothing is known of that point, it may be
/// open.
fn is_told(bound: &Bound, before: Option<&Bound>, number: u8) -> bool {
    let slot = bound.slot(u32::from(number));
    match before {
        Some(before) if may_be_on(before.mode()) == may_be_on(bound.mode()) => {
            let was = before.slot(u32::from(number));
            !(slot.within(&was) && was.within(&slot))
        }
        _ => !slot.is_closed(),
    }
}

/// What changed before a point.
pub(crate) fn changes_at(
    room: &mut Room,
    wide: bool,
    grants: &[Grant],
    bounds: &[Option<Bound>],
    numbers: &[u8],
    point: usize,
) -> Vec<Change> {
    let mut changes = room.list();
    let Some(bound) = bound_at(bounds, point) else {
        return changes;
    };
    let before = match point.checked_sub(1) {
        None => None,
        Some(before) => bound_at(bounds, before),
    };
    for number in numbers {
        if is_told(bound, before, *number) {
            let change = change_of(room, wide, grants, bound, *number);
            room.push(&mut changes, change);
        }
    }
    changes
}
