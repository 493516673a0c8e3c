//! A record as its program would have made it by a plan: with the mode, limits in front of it, and names beneath directories.

use crate::calls::{number_at, path_of, path_place, wants_node};
use crate::demands::{Limit, Way};
use crate::evidence::{lists_directory, place_in};
use crate::places::path_from;
use crate::policies::{Account, Policy};
use crate::remade::{Remade, add_bindings, add_place, call_copy, left_out_copy, plain_call};
use crate::room::Room;
use crate::trees::Tree;
use call_facts::{TableChange, beneath, table_change};
use records::{Entry, Event, MadeCall, Operand};
use rights::Call;

/// The first of the numbers that stand for directories that are open in the mode; no record has them.
const DIRECTORIES: u32 = 4_000_000_000;

/// The first of those for directories that are open for one call.
const PASSING: u32 = 4_100_000_000;

/// A record on its way.
#[derive(Drop)]
pub(crate) struct Rewriting<'a> {
    tree: &'a Tree,
    policy: &'a Policy,
    account: &'a Account,
    /// For each descriptor, whether the plan hasn't it.
    left_out: Vec<bool>,
    remade: Remade,
}

/// A directory of the policy, and the path from it to where a call leads.
#[derive(Drop)]
struct Aim {
    ground: usize,
    path: Vec<u8>,
}

/// The number of a directory of the policy, of those from this one on.
fn number_from(first: u32, ground: usize) -> u32 {
    first.saturating_add(u32::try_from(ground).unwrap_or(0))
}

impl<'a> Rewriting<'a> {
    /// Whether the plan hasn't a descriptor.
    fn is_left_out(&self, handle: Option<usize>) -> bool {
        match handle {
            Some(handle) => self.left_out.get(handle) == Some(&true),
            None => false,
        }
    }

    /// Notes that the plan hasn't a descriptor.
    fn leave_out(&mut self, handle: usize) {
        if let Some(own) = self.left_out.get_mut(handle) {
            *own = true;
        }
    }

    /// The place of a directory of the policy.
    fn place_of(&self, ground: usize) -> &'a [u8] {
        match self.policy.grounds.get(ground) {
            Some(ground) => &ground.place,
            None => b"/",
        }
    }

    /// Where a path of a call leads from a directory of the policy, if one is above that.
    fn aim(&self, room: &mut Room, made: &MadeCall, at: usize) -> Option<Aim> {
        let place = place_in(room, self.tree, made, at)?;
        let ground = self.policy.ground_of(&place)?;
        let path = path_from(self.place_of(ground), &place)?;
        let path = if path.is_empty() {
            b".".as_slice()
        } else {
            path
        };
        Some(Aim {
            ground,
            path: room.copy(path),
        })
    }

    /// Adds a directory and a path to a call.
    fn add_aim(&self, room: &mut Room, made: &mut MadeCall, first: u32, aim: &Aim) {
        let number = number_from(first, aim.ground);
        room.push(&mut made.operands, Operand::Number(number));
        let path = Operand::Path(room.copy(&aim.path));
        room.push(&mut made.operands, path);
        add_place(room, made, number, self.place_of(aim.ground));
    }

    /// The same call by directories of the policy, with numbers from this one on.
    fn call_beneath(
        &self,
        room: &mut Room,
        made: &MadeCall,
        first: u32,
        aim: &Aim,
        second: Option<&Aim>,
    ) -> MadeCall {
        let mut call = plain_call(room, beneath(made.call), 0);
        call.outcome = made.outcome;
        self.add_aim(room, &mut call, first, aim);
        if let Some(second) = second {
            self.add_aim(room, &mut call, first, second);
        }
        match made.operands.last() {
            Some(Operand::Flags(flags)) => {
                room.push(&mut call.operands, Operand::Flags(*flags));
            }
            Some(Operand::Directory(is)) => {
                room.push(&mut call.operands, Operand::Directory(*is));
            }
            _ => {}
        }
        add_bindings(room, &mut call, made, None);
        call
    }

    /// Whether an open names a directory of the policy itself.
    fn names_directory(&self, made: &MadeCall) -> bool {
        if table_change(made.call) != TableChange::Opened {
            return false;
        }
        let Some(path) = path_of(made) else {
            return false;
        };
        for ground in &self.policy.grounds {
            if ground.place.as_slice() == path {
                return true;
            }
        }
        false
    }

    /// Adds that a directory of the policy is opened for one call.
    fn add_passing_open(&mut self, room: &mut Room, entry: &Entry, ground: usize) {
        let place = self.place_of(ground);
        let number = number_from(PASSING, ground);
        self.remade
            .open(room, entry.process, entry.span.first, number, place);
    }

    /// Adds that it is closed behind that.
    fn add_passing_close(&mut self, room: &mut Room, entry: &Entry, ground: usize) {
        let number = number_from(PASSING, ground);
        self.remade
            .close(room, entry.process, entry.span.first, number);
    }

    /// Adds a call by directories of the policy that are opened for it and closed behind it.
    fn add_passing(
        &mut self,
        room: &mut Room,
        entry: &Entry,
        made: &MadeCall,
        aim: &Aim,
        second: Option<&Aim>,
    ) {
        let other = match second {
            Some(second) if second.ground != aim.ground => Some(second.ground),
            _ => None,
        };
        self.add_passing_open(room, entry, aim.ground);
        if let Some(ground) = other {
            self.add_passing_open(room, entry, ground);
        }
        let call = self.call_beneath(room, made, PASSING, aim, second);
        self.remade
            .add(room, entry.process, entry.span.first, Event::Called(call));
        self.add_passing_close(room, entry, aim.ground);
        if let Some(ground) = other {
            self.add_passing_close(room, entry, ground);
        }
    }

    /// Adds a call by directories of the policy: in the mode by those that are open there.
    fn add_beneath(&mut self, room: &mut Room, entry: &Entry, made: &MadeCall, in_mode: bool) {
        let at = path_place(made.call).unwrap_or(0);
        let aim = self.aim(room, made, at);
        let second = if made.call == Call::Renameat {
            self.aim(room, made, 3)
        } else {
            None
        };
        let is_lost = made.call == Call::Renameat && second.is_none();
        match aim {
            Some(aim) if !is_lost => {
                if in_mode {
                    let call = self.call_beneath(room, made, DIRECTORIES, &aim, second.as_ref());
                    self.remade
                        .add(room, entry.process, entry.span.first, Event::Called(call));
                } else {
                    self.add_passing(room, entry, made, &aim, second.as_ref());
                }
            }
            _ => self.add_kept(room, entry, made, None),
        }
    }

    /// Adds a call as it is, with a descriptor that is of no file, if there is one.
    fn add_kept(&mut self, room: &mut Room, entry: &Entry, made: &MadeCall, without: Option<u32>) {
        let copy = call_copy(room, made, without);
        self.remade
            .add(room, entry.process, entry.span.first, Event::Called(copy));
    }

    /// Adds the limits of what a call sends.
    fn add_limits_of_sent(&mut self, room: &mut Room, entry: &Entry, at: usize) {
        let account = self.account;
        for limit in &account.demands.sent {
            if limit.entry == at && limit.demand.is_used {
                self.add_limit(room, entry.process, limit);
            }
        }
    }

    /// Adds a limit, or where nothing is asked of the descriptor that it is closed.
    fn add_limit(&mut self, room: &mut Room, process: u32, limit: &Limit) {
        let Some(handle) = self.account.handles.list.get(limit.handle) else {
            return;
        };
        if limit.demand.is_used {
            let Limit { demand, .. } = *limit;
            self.remade.limit(room, process, handle.number, demand.rights, demand.commands);
        } else {
            self.remade.close(room, process, 0, handle.number);
            self.leave_out(limit.handle);
        }
    }

    /// Adds that a process enters the mode behind an entry: directories are opened, and descriptors limited or closed.
    fn add_entrance(&mut self, room: &mut Room, process: u32, at: usize) {
        let account = self.account;
        let policy = self.policy;
        for limit in &account.demands.kept {
            if limit.entry == at
                && account.handles.is_of(limit.handle, process)
                && !self.is_left_out(Some(limit.handle))
            {
                self.add_limit(room, process, limit);
            }
        }
        for (number, ground) in policy.grounds.iter().enumerate() {
            if ground.demand.is_used {
                let number = number_from(DIRECTORIES, number);
                self.remade.open(room, process, 0, number, &ground.place);
                self.remade.limit(
                    room,
                    process,
                    number,
                    ground.demand.rights,
                    ground.demand.commands,
                );
            }
        }
        self.remade.enter(room, process);
    }

    /// Notes that the plan hasn't what a call makes.
    fn leave_out_made(&mut self, at: usize) {
        let naming = self.account.handles.naming(at);
        for handle in naming.made..naming.made.saturating_add(naming.count) {
            self.leave_out(handle);
        }
    }

    /// Notes of what a fork makes that the plan hasn't the copies of what it hasn't.
    fn leave_out_copies(&mut self, at: usize) {
        let account = self.account;
        let naming = account.handles.naming(at);
        for handle in naming.made..naming.made.saturating_add(naming.count) {
            let source = account.handles.source_of(handle);
            if self.is_left_out(source) {
                self.leave_out(handle);
            }
        }
    }

    /// The number of a descriptor that a process began with as its input, output or errors, if a call names one.
    fn standard(&self, made: &MadeCall, at: usize) -> Option<u32> {
        let first = self.account.handles.naming(at).first?;
        if self.account.handles.list.get(first)?.is_standard {
            number_at(made, 0)
        } else {
            None
        }
    }

    /// Adds what becomes of a call.
    fn add_call(&mut self, room: &mut Room, entry: &Entry, made: &MadeCall, at: usize) {
        let account = self.account;
        let naming = account.handles.naming(at);
        if self.is_left_out(naming.first) || self.is_left_out(naming.second) {
            self.leave_out_made(at);
            return;
        }
        if made.call == Call::Fork {
            self.leave_out_copies(at);
        }
        let standard = self.standard(made, at);
        if standard.is_some() && wants_node(made.call) {
            return;
        }
        match account.way_of(room, self.tree, made, at) {
            Way::Late => self.leave_out_made(at),
            Way::Beneath if !self.names_directory(made) || account.entrances.is_in_mode(at) => {
                self.add_beneath(room, entry, made, account.entrances.is_in_mode(at));
            }
            Way::Beneath | Way::Kept => {
                self.add_limits_of_sent(room, entry, at);
                self.add_kept(room, entry, made, standard);
            }
        }
    }

    /// Adds what becomes of an entry.
    fn add_entry(&mut self, room: &mut Room, entry: &Entry, at: usize) {
        match &entry.event {
            Event::Called(made) => self.add_call(room, entry, made, at),
            Event::Ended => {
                self.remade
                    .add(room, entry.process, entry.span.first, Event::Ended);
            }
            Event::Omitted(left_out) if lists_directory(left_out) => {
                let copy = left_out_copy(room, left_out);
                self.remade.add(room, entry.process, entry.span.first, Event::Omitted(copy));
            }
            Event::Omitted(_) => {}
        }
        if self.account.entrances.enters(entry.process, at) {
            self.add_entrance(room, entry.process, at);
        }
    }
}

/// A record as its program would have made it by a plan.
pub(crate) fn remade_of(
    room: &mut Room,
    tree: &Tree,
    policy: &Policy,
    account: &Account,
    entries: &[Entry],
) -> Vec<Entry> {
    let mut left_out = room.list();
    for _ in 0..account.handles.list.len() {
        room.push(&mut left_out, false);
    }
    let mut rewriting = Rewriting {
        tree,
        policy,
        account,
        left_out,
        remade: Remade::new(room),
    };
    for (at, entry) in entries.iter().enumerate() {
        rewriting.add_entry(room, entry, at);
    }
    rewriting.remade.entries
}
