//! What a half of a program may hold at most.

use crate::room::Room;
use crate::views::{Reviewed, Side, Viewed};
use certificate::{Cert, Class, Pair, Side as PairSide, Target};
use checker::allowance_at;
use rights::Rights;
use rights::limits::MAX_PAIRS;
use task::{FirstDescriptor, FirstObject, Grant, Task, node_begins};
use texts::Name;

/// An end of a pair that may be held.
#[derive(Clone, Copy)]
pub(crate) struct HeldEnd {
    pub class: Class,
    pub side: PairSide,
    pub rights: Rights,
}

/// What may be held at most.
#[derive(Drop)]
pub(crate) struct Holdings {
    /// The greatest rights in each grant of the task, in its order; none where nothing of it is held.
    pub grants: Vec<Option<Rights>>,
    /// Those in what lies in no grant.
    pub nowhere: Option<Rights>,
    /// The ends, each once.
    pub ends: Vec<HeldEnd>,
}

/// The place of a grant in a policy.
pub(crate) fn grant_place(grants: &[Grant], name: &Name) -> Option<usize> {
    for (place, grant) in grants.iter().enumerate() {
        if grant.name.as_bytes() == name.as_bytes() {
            return Some(place);
        }
    }
    None
}

/// Adds rights to what is held.
fn add_rights(held: &mut Option<Rights>, rights: Rights) {
    let before = held.unwrap_or(Rights::empty());
    *held = Some(before.union(rights));
}

impl Holdings {
    /// Nothing.
    fn none(room: &mut Room, task: &Task) -> Holdings {
        let grants = vec![in room.alloc(); None; task.grants().len()];
        Holdings {
            grants: room.made(grants),
            nowhere: None,
            ends: room.list(),
        }
    }

    /// Adds what lies in a grant; in one that the task hasn't, it lies in none.
    fn add_granted(&mut self, task: &Task, name: &Name, rights: Rights) {
        if let Some(place) = grant_place(task.grants(), name) {
            if let Some(held) = self.grants.get_mut(place) {
                return add_rights(held, rights);
            }
        }
        add_rights(&mut self.nowhere, rights)
    }

    /// Adds an end.
    fn add_end(&mut self, room: &mut Room, class: Class, side: PairSide, rights: Rights) {
        for end in self.ends.iter_mut() {
            if end.class.is(&class) && end.side == side {
                end.rights = end.rights.union(rights);
                return;
            }
        }
        let end = HeldEnd {
            class,
            side,
            rights,
        };
        room.push(&mut self.ends, end);
    }

    /// Adds what a descriptor may be of.
    fn add(&mut self, room: &mut Room, task: &Task, target: &Target, rights: Rights) {
        match target {
            Target::InGrant(name) => self.add_granted(task, name, rights),
            Target::AnyNode | Target::Unknown => add_rights(&mut self.nowhere, rights),
            Target::Socket(class, side) => self.add_end(room, *class, *side, rights),
        }
    }

    /// Adds a first descriptor.
    fn add_first(&mut self, room: &mut Room, task: &Task, first: &FirstDescriptor) {
        match first.object {
            FirstObject::Node { node, .. } => {
                let mut is_granted = false;
                for (place, grant) in task.grants().iter().enumerate() {
                    if node_begins(task.nodes(), node, &grant.path) {
                        is_granted = true;
                        if let Some(held) = self.grants.get_mut(place) {
                            add_rights(held, first.rights);
                        }
                    }
                }
                if !is_granted {
                    add_rights(&mut self.nowhere, first.rights);
                }
            }
            FirstObject::End { pair, side } => {
                if pair < MAX_PAIRS {
                    self.add_end(room, Class::Initial(Pair::new(pair)), side, first.rights)
                }
            }
        }
    }

    /// Whether it has an end.
    pub(crate) fn has_end(&self, end: &HeldEnd) -> bool {
        for own in &self.ends {
            if own.class.is(&end.class) && own.side == end.side {
                return true;
            }
        }
        false
    }
}

/// What the bounds of a half say.
pub(crate) fn held_on_side(
    room: &mut Room,
    task: &Task,
    viewed: &Viewed<'_>,
    side: Side,
) -> Holdings {
    let mut holdings = Holdings::none(room, task);
    for point in 0..viewed.bounds.len() {
        if let Some(bound) = viewed.bound_in(side, point) {
            for slot in bound.slots() {
                if let Some(held) = slot.held() {
                    holdings.add(room, task, &held.target(), held.rights().greatest());
                }
            }
        }
    }
    holdings
}

/// What an untrusted program may hold in the mode: its authority.
fn held_by_authority(room: &mut Room, task: &Task, cert: &Cert, program: &Name) -> Holdings {
    let mut holdings = Holdings::none(room, task);
    let allowed = allowance_at(cert, program, task.further_rights());
    for ceiling in allowed.ceilings {
        holdings.add_granted(task, ceiling.grant(), ceiling.rights());
    }
    for end in allowed.ends {
        holdings.add_end(room, end.class(), end.side(), Rights::all());
    }
    holdings
}

/// What the processes of a program start with.
pub(crate) fn held_at_start(room: &mut Room, task: &Task, viewed: &Viewed<'_>) -> Holdings {
    let mut holdings = Holdings::none(room, task);
    for start in task.starts() {
        if start.program == viewed.number {
            for first in &start.descriptors {
                holdings.add_first(room, task, first);
            }
        }
    }
    holdings
}

/// What may be held in the mode: of an untrusted program its authority, of another what its bounds say.
pub(crate) fn held_inside(
    room: &mut Room,
    reviewed: &Reviewed<'_>,
    viewed: &Viewed<'_>,
) -> Holdings {
    if viewed.named.untrusted {
        let scene = &reviewed.scene;
        held_by_authority(room, scene.task, scene.cert, &viewed.named.name)
    } else {
        held_on_side(room, reviewed.scene.task, viewed, Side::Inside)
    }
}
