//! The policy of a plan: the directories beneath which its programs work in the mode.

use crate::assembly::is_writable;
use crate::calls::{changes_names, opens};
use crate::demands::{Demand, Demands, Way, goes_anywhere, way_in_mode};
use crate::entrances::Entrances;
use crate::evidence::place_in;
use crate::handles::{Handle, Handles};
use crate::places::{above, last_name, path_from};
use crate::room::Room;
use crate::trees::{Presence, Tree};
use records::{Entry, Event, MadeCall};
use rights::limits::MAX_GRANTS;
use rights::{Op, Rights, operations_of_rights};
use texts::{Page, Say, parts_of};

/// A directory of the policy.
#[derive(Drop)]
pub(crate) struct Ground {
    pub place: Vec<u8>,
    /// What is asked of a descriptor of the directory itself, for calls that went by paths alone.
    pub demand: Demand,
    /// The rights that are held in the mode on it and on what is beneath it.
    pub rights: Rights,
}

/// The directories, none beneath another.
#[derive(Drop)]
pub(crate) struct Policy {
    pub grounds: Vec<Ground>,
    /// There would be more than a task may have.
    pub is_over: bool,
}

/// A record, and what was found out about it.
#[derive(Drop)]
pub(crate) struct Account {
    pub handles: Handles,
    pub entrances: Entrances,
    pub demands: Demands,
}

/// How long a grant's name is made of a directory's at most; a number may stand behind it.
const MOST_OF_NAME: usize = 13;

/// The operations of a policy.
const OPERATIONS: [Op; 5] = [Op::Look, Op::Read, Op::Write, Op::Create, Op::Remove];

/// Whether one of some rights is for an operation.
fn are_for(rights: Rights, operation: Op) -> bool {
    for own in operations_of_rights() {
        if own.operation == operation && rights.contains(own.right) {
            return true;
        }
    }
    false
}

/// The nearest directory at or above a place that is there from the start.
fn directory_at<'a>(tree: &Tree, place: &'a [u8]) -> &'a [u8] {
    let mut place = place;
    for _ in 0..place.len() {
        if tree.begins_with_directory(place) {
            break;
        }
        place = above(place);
    }
    place
}

impl Account {
    /// How a plan has a call.
    pub(crate) fn way_of(&self, room: &mut Room, tree: &Tree, made: &MadeCall, at: usize) -> Way {
        let naming = self.handles.naming(at);
        if self.entrances.is_in_mode(at) {
            return way_in_mode(room, tree, &self.handles, made, &naming);
        }
        let is_known = match naming.first {
            Some(first) => self.demands.at(first).lies_in_grant(),
            None => false,
        };
        if is_known && !goes_anywhere(room, tree, &self.handles, made, &naming) {
            return Way::Kept;
        }
        let opens_beneath = opens(made.call) && self.demands.made_by(&naming).lies_in_grant();
        if opens_beneath || changes_names(made) {
            Way::Beneath
        } else {
            Way::Kept
        }
    }
}

impl Ground {
    /// The operations that the rights in the mode are for.
    pub(crate) fn operations(&self, room: &mut Room) -> Vec<Op> {
        let mut operations = room.list();
        for operation in OPERATIONS {
            if are_for(self.rights, operation) {
                room.push(&mut operations, operation);
            }
        }
        operations
    }
}

impl Policy {
    /// The directory at or above a place.
    pub(crate) fn ground_of(&self, place: &[u8]) -> Option<usize> {
        for (at, ground) in self.grounds.iter().enumerate() {
            if path_from(&ground.place, place).is_some() {
                return Some(at);
            }
        }
        None
    }

    /// The name of a directory's grant: its last name, as far as a word has its letters, with a number where two are alike.
    pub(crate) fn name_of(&self, room: &mut Room, at: usize) -> Vec<u8> {
        let name = self.word_of(room, at);
        for other in 0..at {
            if self.word_of(room, other) == name {
                return room.text(parts_of!(name.as_slice(), "_", at));
            }
        }
        name
    }

    /// What the name of a directory's grant is made of.
    fn word_of(&self, room: &mut Room, at: usize) -> Vec<u8> {
        let mut word = room.list();
        if let Some(ground) = self.grounds.get(at) {
            for byte in last_name(&ground.place) {
                let byte = byte.to_ascii_lowercase();
                let is_letter = matches!(byte, b'a'..=b'z');
                let is_other = matches!(byte, b'0'..=b'9' | b'_') && !word.is_empty();
                if (is_letter || is_other) && word.len() < MOST_OF_NAME {
                    room.push(&mut word, byte);
                }
            }
        }
        if word.is_empty() {
            word = room.copy(b"all");
        }
        word
    }

    /// Whether a directory is at or beneath a place.
    fn stands_beneath(&self, place: &[u8], ground: usize) -> bool {
        match self.grounds.get(ground) {
            Some(ground) => path_from(place, &ground.place).is_some(),
            None => false,
        }
    }

    /// Removes the directories beneath a place.
    fn remove_beneath(&mut self, place: &[u8]) {
        for at in (0..self.grounds.len()).rev() {
            if self.stands_beneath(place, at) && at < self.grounds.len() {
                self.grounds.remove(at);
            }
        }
    }

    /// Adds a directory, unless one at or above it is there, or a task can't have its place.
    fn add(&mut self, room: &mut Room, place: &[u8]) {
        if !is_writable(place) || self.ground_of(place).is_some() {
            return;
        }
        self.remove_beneath(place);
        if self.grounds.len() >= MAX_GRANTS {
            self.is_over = true;
            return;
        }
        let place = room.copy(place);
        room.push(
            &mut self.grounds,
            Ground {
                place,
                demand: Demand::nothing(),
                rights: Rights::empty(),
            },
        );
    }

    /// Adds the directory by which a place is reached: itself, if it is one from the start and no name of it is changed.
    fn add_way(&mut self, room: &mut Room, tree: &Tree, place: &[u8], changes: bool) {
        let place = if changes || !tree.begins_with_directory(place) {
            above(place)
        } else {
            place
        };
        self.add(room, directory_at(tree, place));
    }

    /// Adds the directories of the paths of a call.
    fn add_call(&mut self, room: &mut Room, tree: &Tree, made: &MadeCall) {
        let changes = changes_names(made);
        for at in 0..made.operands.len() {
            if let Some(place) = place_in(room, tree, made, at) {
                self.add_way(room, tree, &place, changes);
            }
        }
    }

    /// Adds the directory of a descriptor with which a process began, if it is used in the mode.
    fn add_handle(&mut self, room: &mut Room, tree: &Tree, account: &Account, at: usize) {
        if let Some(
            Handle {
                place: Some(place),
                made: None,
                ..
            },
        ) = account.handles.list.get(at)
        {
            if account.demands.at(at).lies_in_grant() {
                self.add_way(room, tree, place, false);
            }
        }
    }

    /// Adds the directories of a record.
    fn add_record(&mut self, room: &mut Room, tree: &Tree, entries: &[Entry], account: &Account) {
        for at in 0..account.handles.list.len() {
            self.add_handle(room, tree, account, at);
        }
        for (at, entry) in entries.iter().enumerate() {
            if let Event::Called(made) = &entry.event {
                if account.way_of(room, tree, made, at) == Way::Beneath {
                    self.add_call(room, tree, made);
                }
            }
        }
    }

    /// The directory that a place lies at or beneath.
    fn ground_over(&mut self, place: &[u8]) -> Option<&mut Ground> {
        match self.ground_of(place) {
            Some(at) => self.grounds.get_mut(at),
            None => None,
        }
    }

    /// Notes what is asked of the directory of a place.
    fn ask(&mut self, place: &[u8], demand: Demand) {
        if let Some(ground) = self.ground_over(place) {
            ground.demand = ground.demand.with(demand);
            ground.rights = ground.rights.union(demand.rights);
        }
    }

    /// Notes what a call asks of the directories of its paths.
    fn ask_call(&mut self, room: &mut Room, tree: &Tree, made: &MadeCall, demand: Demand) {
        for at in 0..made.operands.len() {
            if let Some(place) = place_in(room, tree, made, at) {
                self.ask(&place, demand);
            }
        }
    }

    /// Notes the rights that are held in the mode on what is at or beneath a directory.
    fn hold(&mut self, handle: Option<&Handle>, demand: Demand) {
        if let Some(
            Handle {
                place: Some(place),
                ..
            },
        ) = handle
        {
            if let Some(ground) = self.ground_over(place) {
                ground.rights = ground.rights.union(demand.rights);
            }
        }
    }

    /// Notes what a record asks and holds in the mode.
    fn ask_record(&mut self, room: &mut Room, tree: &Tree, entries: &[Entry], account: &Account) {
        for (at, entry) in entries.iter().enumerate() {
            if let Event::Called(made) = &entry.event {
                if account.entrances.is_in_mode(at)
                    && account.way_of(room, tree, made, at) == Way::Beneath
                {
                    self.ask_call(room, tree, made, account.demands.asked_at(at));
                }
            }
        }
        for limits in [&account.demands.kept, &account.demands.sent] {
            for limit in limits {
                if limit.demand.is_used {
                    self.hold(account.handles.list.get(limit.handle), limit.demand);
                }
            }
        }
    }

    /// The policy of records. What others do with the tree lies within it too.
    pub(crate) fn new(
        room: &mut Room,
        tree: &Tree,
        records: &[Vec<Entry>],
        accounts: &[Account],
    ) -> Policy {
        let mut policy = Policy {
            grounds: room.list(),
            is_over: false,
        };
        for change in &tree.changes {
            policy.add_way(room, tree, &change.place, true);
            if !change.target.is_empty() {
                policy.add_way(room, tree, &change.target, true);
            }
        }
        for (at, account) in accounts.iter().enumerate() {
            if let Some(entries) = records.get(at) {
                policy.add_record(room, tree, entries, account);
            }
        }
        for (at, account) in accounts.iter().enumerate() {
            if let Some(entries) = records.get(at) {
                policy.ask_record(room, tree, entries, account);
            }
        }
        policy
    }
}
