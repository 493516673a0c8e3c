//! The tree that a record's calls tell of.

use crate::assembly::is_writable;
use crate::places::{above, joined, lies_beneath, place_at};
use crate::room::Room;
use file_tree::rest_beneath;

/// What stands at a place.
#[derive(Clone, Copy, PartialEq, Eq)]
pub(crate) enum Presence {
    Absent,
    File,
    Directory,
}

/// A place that the record tells of.
#[derive(Drop)]
pub(crate) struct Node {
    pub place: Vec<u8>,
    /// What stood there before the first call.
    pub first: Presence,
    /// What stands there at the call that is looked at.
    now: Presence,
    /// How many bytes of it were read.
    pub length: usize,
}

/// A link, by its place and where it leads.
#[derive(Drop)]
pub(crate) struct Link {
    pub place: Vec<u8>,
    pub target: Vec<u8>,
}

/// What another process than the record's did with the tree.
#[derive(Clone, Copy, PartialEq, Eq)]
pub(crate) enum WorldAction {
    MakesFile,
    MakesDirectory,
    RemovesFile,
    RemovesDirectory,
    /// It moves what stood there to another place.
    Moves,
}

/// That, and where; what is moved, also to where.
#[derive(Drop)]
pub(crate) struct Change {
    pub deed: WorldAction,
    pub place: Vec<u8>,
    pub target: Vec<u8>,
}

/// What the calls so far tell of the tree.
#[derive(Drop)]
pub(crate) struct Tree {
    pub nodes: Vec<Node>,
    pub links: Vec<Link>,
    pub changes: Vec<Change>,
}

/// What is made where something appears.
fn making(presence: Presence) -> WorldAction {
    match presence {
        Presence::Directory => WorldAction::MakesDirectory,
        Presence::File | Presence::Absent => WorldAction::MakesFile,
    }
}

/// What is removed where nothing is left.
fn removing(presence: Presence) -> WorldAction {
    match presence {
        Presence::Directory => WorldAction::RemovesDirectory,
        Presence::File | Presence::Absent => WorldAction::RemovesFile,
    }
}

impl Tree {
    /// Nothing but the root.
    pub(crate) fn new(room: &Room) -> Tree {
        Tree {
            nodes: room.list(),
            links: room.list(),
            changes: room.list(),
        }
    }

    /// The node of a place, by its number.
    pub(crate) fn number_of(&self, place: &[u8]) -> Option<usize> {
        for (at, node) in self.nodes.iter().enumerate() {
            if node.place.as_slice() == place {
                return Some(at);
            }
        }
        None
    }

    /// The node of a place.
    pub(crate) fn node_at(&self, place: &[u8]) -> Option<&Node> {
        self.nodes.get(self.number_of(place)?)
    }

    /// Whether the world moves something.
    pub(crate) fn moves_something(&self) -> bool {
        for change in &self.changes {
            if change.deed == WorldAction::Moves {
                return true;
            }
        }
        false
    }

    /// Begins anew with what stood there before the first call.
    pub(crate) fn rewind(&mut self) {
        for node in self.nodes.iter_mut() {
            node.now = node.first;
        }
    }

    /// Whether a directory stands at a place from the start.
    pub(crate) fn begins_with_directory(&self, place: &[u8]) -> bool {
        if place == b"/".as_slice() {
            return true;
        }
        match self.node_at(place) {
            Some(node) => node.first == Presence::Directory,
            None => false,
        }
    }

    /// What is known to stand at a place.
    fn at(&self, place: &[u8]) -> Option<Presence> {
        match self.node_at(place) {
            Some(node) => Some(node.now),
            None => None,
        }
    }

    /// Whether something is known of a place: also that nothing stands there.
    pub(crate) fn is_known(&self, place: &[u8]) -> bool {
        self.at(place).is_some() || self.has_link(place)
    }

    /// Whether a file is known to stand at a place or above it.
    pub(crate) fn meets_file(&self, place: &[u8]) -> bool {
        for at in 1..=place.len() {
            let is_name = at == place.len() || place[at] == b'/';
            if is_name && self.at(&place[..at]) == Some(Presence::File) {
                return true;
            }
        }
        false
    }

    /// Whether a directory above a place wasn't there before the first call.
    fn begins_cut_off(&self, place: &[u8]) -> bool {
        for at in 1..place.len() {
            if place[at] == b'/' {
                if let Some(node) = self.node_at(&place[..at]) {
                    if node.first == Presence::Absent {
                        return true;
                    }
                }
            }
        }
        false
    }

    /// Whether a link stands at a place.
    fn has_link(&self, place: &[u8]) -> bool {
        for link in &self.links {
            if link.place.as_slice() == place {
                return true;
            }
        }
        false
    }

    /// Notes a place that wasn't told of yet, if a task can have it and no link stands there.
    fn add(&mut self, room: &mut Room, place: &[u8], first: Presence, now: Presence) {
        if !is_writable(place) || self.has_link(place) {
            return;
        }
        let mut first = first;
        if first != Presence::Absent && self.begins_cut_off(place) {
            first = Presence::Absent;
            self.change(room, making(now), place);
        }
        let place = room.copy(place);
        room.push(
            &mut self.nodes,
            Node {
                place,
                first,
                now,
                length: 0,
            },
        );
    }

    /// Notes what stands at a place now.
    fn set(&mut self, place: &[u8], now: Presence) {
        if let Some(number) = self.number_of(place) {
            if let Some(node) = self.nodes.get_mut(number) {
                node.now = now;
            }
        }
    }

    /// Notes that what stood at a place as a file all along is a directory.
    fn widen(&mut self, place: &[u8]) {
        if let Some(number) = self.number_of(place) {
            if let Some(node) = self.nodes.get_mut(number) {
                node.now = Presence::Directory;
                if node.first == Presence::File {
                    node.first = Presence::Directory;
                }
            }
        }
    }

    /// Notes what another process did.
    fn change(&mut self, room: &mut Room, deed: WorldAction, place: &[u8]) {
        self.change_to(room, deed, place, b"");
    }

    /// Notes what another process did, by two places.
    fn change_to(&mut self, room: &mut Room, deed: WorldAction, place: &[u8], target: &[u8]) {
        for change in &self.changes {
            if change.deed == deed
                && change.place.as_slice() == place
                && change.target.as_slice() == target
            {
                return;
            }
        }
        let place = room.copy(place);
        let target = room.copy(target);
        room.push(
            &mut self.changes,
            Change {
                deed,
                place,
                target,
            },
        );
    }

    /// Notes that another process moves what stands at a place: where a task can't have the one place, it comes or goes at the other.
    pub(crate) fn moved_by_other(&mut self, room: &mut Room, from: &[u8], to: &[u8]) {
        if !is_writable(from) {
            return self.there(room, to, Presence::File);
        }
        if !is_writable(to) {
            self.there(room, from, Presence::File);
            return self.absent(room, from);
        }
        self.moved(room, from, to);
        self.change_to(room, WorldAction::Moves, from, to);
    }

    /// Whether a name was looked for beneath a place.
    fn was_gone_through(&self, place: &[u8]) -> bool {
        for node in &self.nodes {
            if lies_beneath(place, &node.place) {
                return true;
            }
        }
        false
    }

    /// Notes what stands at a place of which nothing was known: a directory, if a name was looked for beneath it.
    fn meet_new(&mut self, room: &mut Room, place: &[u8], presence: Presence) {
        let presence = if self.was_gone_through(place) {
            Presence::Directory
        } else {
            presence
        };
        self.add(room, place, presence, presence);
    }

    /// Notes that something stands at a place, whatever is above it.
    fn meet(&mut self, room: &mut Room, place: &[u8], presence: Presence) {
        match self.at(place) {
            None => self.meet_new(room, place, presence),
            Some(Presence::Absent) => {
                self.change(room, making(presence), place);
                self.set(place, presence);
            }
            Some(Presence::File) => {
                if presence == Presence::Directory {
                    self.widen(place);
                }
            }
            Some(Presence::Directory) => {}
        }
    }

    /// Notes that the directories above a place are there.
    fn meet_above(&mut self, room: &mut Room, place: &[u8]) {
        for at in 1..place.len() {
            if place[at] == b'/' {
                self.meet(room, &place[..at], Presence::Directory);
            }
        }
    }

    /// Notes that something stands at a place.
    pub(crate) fn there(&mut self, room: &mut Room, place: &[u8], presence: Presence) {
        if place != b"/".as_slice() {
            self.meet_above(room, place);
            self.meet(room, place, presence);
        }
    }

    /// Has something stand at a place from the start, also where a call tells that it is made.
    fn begin_at(&mut self, room: &mut Room, place: &[u8], presence: Presence) {
        match self.number_of(place) {
            None => self.meet_new(room, place, presence),
            Some(number) => {
                if let Some(node) = self.nodes.get_mut(number) {
                    if node.first == Presence::Absent || presence == Presence::Directory {
                        node.first = presence;
                    }
                }
            }
        }
    }

    /// Has a file or a directory stand at a place from the start, and directories above it.
    pub(crate) fn begin_with(&mut self, room: &mut Room, place: &[u8]) {
        for at in 1..place.len() {
            if place[at] == b'/' {
                self.begin_at(room, &place[..at], Presence::Directory);
            }
        }
        if place != b"/".as_slice() {
            self.begin_at(room, place, Presence::File);
        }
        self.rewind();
    }

    /// Notes that something is made at a place, where nothing was unless it may have been there.
    pub(crate) fn made(&mut self, room: &mut Room, place: &[u8], presence: Presence, may_be: bool) {
        self.meet_above(room, place);
        match self.at(place) {
            None => self.add(room, place, Presence::Absent, presence),
            Some(Presence::Absent) => self.set(place, presence),
            Some(_) if may_be => {}
            Some(own) => {
                self.change(room, removing(own), place);
                self.set(place, presence);
            }
        }
    }

    /// Whether a directory above a place is known not to be there.
    fn is_cut_off(&self, place: &[u8]) -> bool {
        for at in 1..place.len() {
            if place[at] == b'/' && self.at(&place[..at]) == Some(Presence::Absent) {
                return true;
            }
        }
        false
    }

    /// Notes that what stood above a place as a file all along is a directory.
    fn widen_above(&mut self, place: &[u8]) {
        for at in 1..place.len() {
            if place[at] == b'/' && self.at(&place[..at]) == Some(Presence::File) {
                self.widen(&place[..at]);
            }
        }
    }

    /// Notes that nothing stands at a place.
    pub(crate) fn absent(&mut self, room: &mut Room, place: &[u8]) {
        if self.is_cut_off(place) {
            return;
        }
        self.widen_above(place);
        match self.at(place) {
            None => self.add(room, place, Presence::Absent, Presence::Absent),
            Some(Presence::Absent) => {}
            Some(own) => {
                self.change(room, removing(own), place);
                self.set(place, Presence::Absent);
            }
        }
    }

    /// Whether something is known to stand beneath a place.
    pub(crate) fn holds_something(&self, place: &[u8]) -> bool {
        for node in &self.nodes {
            if lies_beneath(place, &node.place) && node.now != Presence::Absent {
                return true;
            }
        }
        false
    }

    /// How many bytes of a file were read, one after another.
    pub(crate) fn length_of(&self, place: &[u8]) -> usize {
        match self.node_at(place) {
            Some(node) => node.length,
            None => 0,
        }
    }

    /// Notes that what stood at a place is removed.
    pub(crate) fn removed(&mut self, room: &mut Room, place: &[u8], presence: Presence) {
        self.there(room, place, presence);
        self.set(place, Presence::Absent);
    }

    /// What stands at a place and beneath it, each with its path from there.
    fn beneath(&self, room: &mut Room, place: &[u8]) -> Vec<Node> {
        let mut found = room.list();
        for node in &self.nodes {
            if let Some(rest) = rest_beneath(place, &node.place) {
                let rest = room.copy(rest);
                room.push(
                    &mut found,
                    Node {
                        place: rest,
                        first: Presence::Absent,
                        now: node.now,
                        length: 0,
                    },
                );
            }
        }
        found
    }

    /// Notes that what stands at a place, and beneath it, is moved.
    pub(crate) fn moved(&mut self, room: &mut Room, from: &[u8], to: &[u8]) {
        self.there(room, from, Presence::File);
        self.meet_above(room, to);
        for node in &self.beneath(room, from) {
            let old = joined(room, from, &node.place);
            let new = joined(room, to, &node.place);
            self.set(&old, Presence::Absent);
            self.made(room, &new, node.now, true);
            self.set(&new, node.now);
        }
    }

    /// Notes that a link at a place leads to another one, if a task can have both.
    pub(crate) fn linked(&mut self, room: &mut Room, place: &[u8], target: &[u8]) {
        if self.has_link(place) || !is_writable(place) || !is_writable(target) {
            return;
        }
        self.meet_above(room, place);
        let place = room.copy(place);
        let target = room.copy(target);
        room.push(&mut self.links, Link { place, target });
    }

    /// Where a link leads that stands at a place or above it.
    fn by_link(&self, room: &mut Room, place: &[u8]) -> Option<Vec<u8>> {
        for link in &self.links {
            if let Some(rest) = rest_beneath(&link.place, place) {
                return Some(joined(room, &link.target, rest));
            }
        }
        None
    }

    /// The place at which a path leads from a directory, by the links that are known.
    pub(crate) fn resolve(&self, room: &mut Room, directory: &[u8], path: &[u8]) -> Vec<u8> {
        let mut place = place_at(room, directory, path);
        for _ in 0..self.links.len() {
            match self.by_link(room, &place) {
                Some(next) => place = next,
                None => break,
            }
        }
        place
    }

    /// Notes that so many bytes of a file were read, one after another.
    pub(crate) fn read(&mut self, place: &[u8], length: usize) {
        if let Some(number) = self.number_of(place) {
            if let Some(node) = self.nodes.get_mut(number) {
                node.length = node.length.max(length);
            }
        }
    }

    /// What stands above a place: its directory.
    pub(crate) fn absent_above(&mut self, room: &mut Room, place: &[u8]) {
        let directory = above(place);
        if directory != b"/".as_slice() {
            self.absent(room, directory);
        }
    }
}
