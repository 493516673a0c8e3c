//! What is asked of each descriptor of a record from a call on.

use crate::calls::{
    ROOT, changes_names, flags_of, number_at, path_at, path_place, second_path_place, second_place,
};
use crate::entrances::Entrances;
use crate::evidence::place_in;
use crate::further::FurtherRights;
use crate::handles::{CallHandles, Handles};
use crate::libraries::library_of;
use crate::places::{above, path_from};
use crate::room::Room;
use crate::trees::Tree;
use call_facts::sets::read_plain_rights;
use call_facts::{Scope, beneath, scope_of};
use records::{Entry, Event, LeftOut, MadeCall, Reason};
use rights::need_table::{Position, command_needed, needs};
use rights::{Call, Fcntls, Rights};

/// What is asked of a descriptor.
#[derive(Clone, Copy)]
pub(crate) struct Demand {
    pub rights: Rights,
    pub commands: Fcntls,
    /// What calls ask of it that none of the task's stands for.
    pub further: FurtherRights,
    /// A call in the mode works on it, other than to close it, or a lock on it lasts.
    pub is_used: bool,
    /// Names beneath it are changed outside the mode, or opened that are used in it.
    pub is_ground: bool,
}

/// What a descriptor is limited to, in front of or behind an entry.
#[derive(Clone, Copy)]
pub(crate) struct Limit {
    pub entry: usize,
    pub handle: usize,
    pub demand: Demand,
}

/// How a plan has a call.
#[derive(Clone, Copy, PartialEq, Eq)]
pub(crate) enum Way {
    /// As it is.
    Kept,
    /// By the directories of the policy.
    Beneath,
    /// Not at all: a library makes it later than it should.
    Late,
}

/// What is asked.
#[derive(Drop)]
pub(crate) struct Demands {
    /// Of each descriptor, from the entry on that is looked at; when all are, in the whole record.
    pub of: Vec<Demand>,
    /// Of the directory of each entry's path, with what is asked of what it opens.
    pub asked: Vec<Demand>,
    /// What is left to each descriptor of a process that enters the mode, where it does.
    pub kept: Vec<Limit>,
    /// What is left to each descriptor that is sent, where it is.
    pub sent: Vec<Limit>,
    /// What is asked of the input, output and errors of a process that enters the mode, where it does.
    pub standard: Vec<Limit>,
    /// The descriptors of files that are locked outside the mode.
    locked: Vec<usize>,
}

impl Demand {
    /// Nothing.
    pub(crate) fn nothing() -> Demand {
        Demand {
            rights: Rights::empty(),
            commands: Fcntls::empty(),
            further: FurtherRights::none(),
            is_used: false,
            is_ground: false,
        }
    }

    /// Whether it is asked to lie in a grant.
    pub(crate) fn lies_in_grant(self) -> bool {
        self.is_used || self.is_ground
    }

    /// Both.
    pub(crate) fn with(self, other: Demand) -> Demand {
        Demand {
            rights: self.rights.union(other.rights),
            commands: self.commands.union(other.commands),
            further: self.further.with(other.further),
            is_used: self.is_used || other.is_used,
            is_ground: self.is_ground || other.is_ground,
        }
    }
}

/// What a call asks of the descriptor at a position, or of the directory that stands for it.
fn asked_by(made: &MadeCall, position: Position) -> Demand {
    let call = beneath(made.call);
    Demand {
        rights: needs(call, flags_of(made), position, true),
        commands: command_needed(call),
        ..Demand::nothing()
    }
}

/// Whether a call names, makes or removes something by a path alone.
pub(crate) fn is_global(made: &MadeCall) -> bool {
    match scope_of(made.call) {
        Scope::Root => true,
        Scope::Beneath => {
            number_at(made, 0) == Some(ROOT)
                || second_place(made.call).is_some_and(|at| number_at(made, at) == Some(ROOT))
        }
        Scope::Mode | Scope::Table | Scope::Object | Scope::Node | Scope::System => false,
    }
}

/// Whether the path of a call leads out of its directory.
fn leads_out(
    room: &mut Room,
    tree: &Tree,
    handles: &Handles,
    made: &MadeCall,
    directory: Option<usize>,
    at: usize,
) -> bool {
    let (Some(place), Some(path)) = (handles.place_at(directory), place_in(room, tree, made, at))
    else {
        return path_at(made, at).is_some();
    };
    path_from(place, &path).is_none()
}

/// Whether a call goes by a path alone, or by one that leads out of its directory.
pub(crate) fn goes_anywhere(
    room: &mut Room,
    tree: &Tree,
    handles: &Handles,
    made: &MadeCall,
    naming: &CallHandles,
) -> bool {
    if path_place(made.call).is_none() {
        return false;
    }
    is_global(made)
        || leads_out(room, tree, handles, made, naming.first, 1)
        || match second_path_place(made.call) {
            Some(at) => leads_out(room, tree, handles, made, naming.second, at),
            None => false,
        }
}

/// How a plan has a call in the mode.
pub(crate) fn way_in_mode(
    room: &mut Room,
    tree: &Tree,
    handles: &Handles,
    made: &MadeCall,
    naming: &CallHandles,
) -> Way {
    if !goes_anywhere(room, tree, handles, made, naming) {
        return Way::Kept;
    }
    let at = path_place(made.call).unwrap_or(0);
    match place_in(room, tree, made, at) {
        Some(place) if library_of(&place).is_some() => Way::Late,
        _ => Way::Beneath,
    }
}

/// A record whose calls are gone through from the last on.
#[derive(Clone, Copy)]
struct Course<'a> {
    tree: &'a Tree,
    entries: &'a [Entry],
    handles: &'a Handles,
    entrances: &'a Entrances,
}

impl<'a> Course<'a> {
    /// Whether the path of a call leads to a name of its directory.
    fn is_in(&self, room: &mut Room, made: &MadeCall, naming: &CallHandles) -> bool {
        match (
            self.handles.place_at(naming.first),
            place_in(room, self.tree, made, 1),
        ) {
            (Some(directory), Some(place)) => above(&place) == directory,
            _ => false,
        }
    }
}

impl Demands {
    /// Adds to what is asked of a descriptor.
    fn add(&mut self, handle: Option<usize>, demand: Demand) {
        if let Some(handle) = handle {
            if let Some(own) = self.of.get_mut(handle) {
                *own = own.with(demand);
            }
        }
    }

    /// What is asked of a descriptor.
    pub(crate) fn at(&self, handle: usize) -> Demand {
        match self.of.get(handle) {
            Some(demand) => *demand,
            None => Demand::nothing(),
        }
    }

    /// What is asked of the directory of an entry's path.
    pub(crate) fn asked_at(&self, entry: usize) -> Demand {
        match self.asked.get(entry) {
            Some(demand) => *demand,
            None => Demand::nothing(),
        }
    }

    /// Notes what is left to the descriptors of a process that enters the mode behind an entry.
    fn enter(&mut self, room: &mut Room, course: &Course<'_>, process: u32, entry: usize) {
        for (handle, own) in course.handles.list.iter().enumerate() {
            if own.process == process && own.is_open_after(entry) {
                let mut demand = self.at(handle);
                demand.is_used = demand.is_used || self.is_locked(course.handles, handle);
                let limit = Limit {
                    entry,
                    handle,
                    demand,
                };
                if own.is_standard {
                    room.push(&mut self.standard, limit);
                } else {
                    room.push(&mut self.kept, limit);
                }
            }
        }
    }

    /// Whether the file of a descriptor is locked: by it, or by one that it is a copy of.
    fn is_locked(&self, handles: &Handles, handle: usize) -> bool {
        let mut at = handle;
        for _ in 0..handles.list.len() {
            if self.locked.contains(&at) {
                return true;
            }
            match handles.source_of(at) {
                Some(source) if handles.place_at(Some(source)) == handles.place_at(Some(at)) => {
                    at = source;
                }
                _ => return false,
            }
        }
        false
    }

    /// Whether the plan has a limit of a descriptor.
    pub(crate) fn are_limited(&self, handle: usize) -> bool {
        self.kept.iter().any(|limit| limit.handle == handle)
            || self.sent.iter().any(|limit| limit.handle == handle)
    }

    /// What is asked of what an entry makes.
    pub(crate) fn made_by(&self, naming: &CallHandles) -> Demand {
        let mut demand = Demand::nothing();
        for handle in naming.made..naming.made.saturating_add(naming.count) {
            demand = demand.with(self.at(handle));
        }
        demand
    }

    /// Hands on what is asked of what an entry makes to what that comes of.
    fn hand_on(
        &mut self,
        room: &mut Room,
        course: &Course<'_>,
        made: &MadeCall,
        naming: &CallHandles,
    ) {
        for handle in naming.made..naming.made.saturating_add(naming.count) {
            let source = course.handles.source_of(handle);
            let mut demand = self.at(handle);
            if made.call == Call::Openat {
                demand.is_ground = demand.lies_in_grant() && course.is_in(room, made, naming);
                demand.is_used = false;
            }
            // (what stands as a copy of an input or an output is mostly a socket, which has all rights)
            if course.handles.is_standard(source) && made.call != Call::Fork {
                demand.rights = Rights::empty();
                demand.further = FurtherRights::none();
            }
            self.add(source, demand);
        }
    }

    /// Notes what a call asks.
    fn ask(&mut self, room: &mut Room, course: &Course<'_>, made: &MadeCall, at: usize) {
        let naming = course.handles.naming(at);
        let in_mode = course.entrances.is_in_mode(at);
        let mut first = asked_by(made, Position::First);
        let mut second = asked_by(made, Position::Second);
        if made.call == Call::Sendfd {
            second = self.limit_of_sent(room, naming.second, at);
        }
        first.is_used = in_mode && made.call != Call::Close;
        second.is_used = second.is_used || in_mode;
        let way = way_in_mode(room, course.tree, course.handles, made, &naming);
        if in_mode && way != Way::Kept {
            let asked = first.with(second).with(self.made_by(&naming));
            if let Some(own) = self.asked.get_mut(at) {
                *own = asked;
            }
            return;
        }
        if changes_names(made) && course.is_in(room, made, &naming) {
            first.is_ground = true;
            second.is_ground = true;
        }
        self.hand_on(room, course, made, &naming);
        self.add(naming.first, first);
        self.add(naming.second, second);
    }

    /// Notes what is left to a descriptor that is sent.
    fn limit_of_sent(&mut self, room: &mut Room, handle: Option<usize>, entry: usize) -> Demand {
        let Some(handle) = handle else {
            return Demand::nothing();
        };
        let demand = self.at(handle);
        room.push(
            &mut self.sent,
            Limit {
                entry,
                handle,
                demand,
            },
        );
        demand
    }

    /// Notes what a call that is none of the task's asks in the mode; one that is refused there asks for no right.
    fn ask_outside(
        &mut self,
        room: &mut Room,
        course: &Course<'_>,
        left_out: &LeftOut,
        process: u32,
        at: usize,
    ) {
        let Some(wanted) = &left_out.wanted else {
            return;
        };
        if !course.entrances.is_in_mode(at) {
            return;
        }
        let handle = course.handles.position_at(process, wanted.descriptor, at);
        let mut demand = Demand::nothing();
        if left_out.reason != Reason::Global {
            demand.rights = read_plain_rights(&wanted.right);
            demand.further = FurtherRights::named(&wanted.right);
        }
        demand.is_used = true;
        self.add(handle, demand);
    }

    /// Goes back by an entry.
    fn go_back(&mut self, room: &mut Room, course: &Course<'_>, at: usize, entry: &Entry) {
        if course.entrances.enters(entry.process, at) {
            self.enter(room, course, entry.process, at);
        }
        match &entry.event {
            Event::Called(made) => self.ask(room, course, made, at),
            Event::Omitted(left_out) => {
                self.ask_outside(room, course, left_out, entry.process, at);
            }
            Event::Ended => {}
        }
    }
}

/// The descriptors of files that are locked outside the mode: a lock lasts as long as one of them is open.
fn locked_of(
    room: &mut Room,
    entries: &[Entry],
    handles: &Handles,
    entrances: &Entrances,
) -> Vec<usize> {
    let mut locked = room.list();
    for (at, entry) in entries.iter().enumerate() {
        if let Event::Omitted(
            LeftOut {
                wanted: Some(wanted),
                ..
            },
        ) = &entry.event
        {
            if wanted.right.as_slice() == b"FLOCK".as_slice() && !entrances.is_in_mode(at) {
                if let Some(handle) = handles.position_at(entry.process, wanted.descriptor, at) {
                    room.push(&mut locked, handle);
                }
            }
        }
    }
    locked
}

/// So many demands of nothing.
fn nothings(room: &mut Room, count: usize) -> Vec<Demand> {
    let mut demands = room.list();
    for _ in 0..count {
        room.push(&mut demands, Demand::nothing());
    }
    demands
}

/// What is asked of the descriptors of a record.
pub(crate) fn demands_of(
    room: &mut Room,
    tree: &Tree,
    entries: &[Entry],
    handles: &Handles,
    entrances: &Entrances,
) -> Demands {
    let course = Course {
        tree,
        entries,
        handles,
        entrances,
    };
    let mut demands = Demands {
        of: nothings(room, handles.list.len()),
        asked: nothings(room, entries.len()),
        kept: room.list(),
        sent: room.list(),
        standard: room.list(),
        locked: locked_of(room, entries, handles, entrances),
    };
    for (at, entry) in course.entries.iter().enumerate().rev() {
        demands.go_back(room, &course, at, entry);
    }
    demands
}
