//! What all processes have open: a table for each, the descriptions that their entries name, and the queues of socket
//! pairs.

ghost use Rattle.std.specs.Prelude.{◌≡◌, ◌+◌, ◌-◌, ◌<◌, ℕ, None, IfErr, IfOk, OnErr, OnOk, map, option_map};
ghost use Rattle.std.specs.Option.{IsSome};
ghost use Rattle.rights.specs.Sides.{other_side};
ghost use Rattle.fd_table.specs.Descriptions.{message_of};
ghost use Rattle.fd_table.specs.OpenFiles.{Alike, is_open as is_end_open, lowest_free as lowest_number, lowest_from};
ghost use Rattle.fd_table.specs.Openings.{with_entry};
ghost use Rattle.fd_table.specs.Filled.{AreApart, IsEmpty, IsEndThere, IsFree, IsFreeAt, IsNamed, MayLimit, MayPass, Opens, Pairs, front_byte, front_shown, front_passed};
ghost use Rattle.fd_table.specs.Filled.{with_limit, send_refusal, sent, with_received, taken_to, with_flags, with_offset, with_row};
ghost use Rattle.fd_table.specs.Counts.{Counts};
ghost use Rattle.rights.specs.Views.{side_seen};
ghost use Rattle.fd_table.specs.Views.{TellsSendFault, access_asked, class_seen, descriptor_seen, entry_seen, front_seen, object_seen, state_seen};

use crate::copies::sent_by;
use crate::descriptions::{description_of, set_description};
use crate::descriptors::{Class, Description, DescriptionId, Descriptor, Entry};
use crate::ends::{End, Front, Message, PairId};
use crate::faults::SendFault;
use crate::file_tables::FileTables;
use crate::pairs::{front_in, is_end_open, messages_in};
use crate::status::Status;
use file_tree::NodeId;
use rights::limits::MAX_MESSAGES;
use rights::{Fcntls, Memory, OpenFlags, Rights, Side};
use std::alloc::Global;
use std::marker::Model;

/// The tables of sixteen processes, with sixteen entries each, the descriptions, and the queues of socket pairs.
/// A clause sees lists, which `open_files` turns into maps. (own)
#[derive(Drop)]
pub struct Files {
    tables: FileTables,
}

impl Model for Files {
    ghost use Rattle.fd_table.specs.Kept.{Kept};
    ghost use Rattle.fd_table.specs.Holders.{IsKept, empty_hand};
    ghost use Rattle.fd_table.specs.StoredViews.{tables_kept};

    ghost Value = { Kept };

    ghost view = { λ f. tables_kept f.tables };

    ghost invariant = { λ f. IsKept (tables_kept f.tables) empty_hand };
}

impl Files {
    ghost use Rattle.fd_table.specs.Kept.{open_files};
    ghost use Rattle.fd_table.specs.StoredViews.{message_kept};

    /// Nothing is open. Room for all tables is made here, so that an entry takes no memory later.
    pub fn new(alloc: Global) -> Result<Files, Memory>
        ensures { IfOk result (λ files. IsEmpty (open_files files)) }
    {
        let tables = FileTables::new(alloc)?;
        Ok(Files { tables })
    }

    /// The same once more, with the same numbers. Want of memory alone keeps it from being made. (own)
    pub fn copy(&self) -> Result<Files, Memory>
        ensures { IfOk result (λ files. files ≡ self.now) }
    {
        let tables = self.tables.copy()?;
        Ok(Files { tables })
    }

    /// Makes it the same as another one, with the same numbers, in the room that it has for its tables. Want of memory alone keeps it
    /// from that, and then nothing changes. (own)
    pub fn copy_from(&mut self, other: &Files) -> Result<(), Memory>
        ensures ok { OnOk result (self.new ≡ other.now) }
        ensures err { OnErr result (self.new ≡ self.old) }
    {
        self.tables.copy_from(&other.tables)
    }

    /// The descriptor of a process at a number, if there is one.
    #[tactic(auto, unfolding(crate::specs::Kept::open_files))]
    pub fn get(&self, p: u8, n: u8) -> Option<Descriptor>
        ensures { option_map descriptor_seen result ≡ (open_files self.now).table p n }
    {
        self.tables.entries.at(p, n)
    }

    /// The lowest number that no descriptor of the process has, if one is free. (open(2), dup(2))
    #[tactic(auto, unfolding(crate::specs::Kept::open_files))]
    pub fn lowest_free(&self, p: u8) -> Option<u8>
        ensures { result ≡ lowest_number ((open_files self.now).table p) }
    {
        self.tables.entries.lowest(p, 0)
    }

    /// The lowest number above this one that no descriptor of the process has, if one is free. (socketpair(2))
    #[tactic(auto, unfolding(crate::specs::Kept::open_files))]
    pub fn next_free(&self, p: u8, n: u8) -> Option<u8>
        requires { n < 16 }
        ensures { result ≡ lowest_from (15 - n) (n + 1) ((open_files self.now).table p) }
    {
        self.tables.entries.lowest(p, n + 1)
    }

    /// What a description is of, and its state.
    #[tactic(auto, unfolding(crate::specs::Kept::open_files))]
    pub fn what(&self, d: DescriptionId) -> Description
        requires { IsNamed (open_files self.now) d }
        ensures object { object_seen result.object ≡ (open_files self.now).objects d }
        ensures state { state_seen result ≡ (open_files self.now).states d }
    {
        description_of(&self.tables.descriptions, d.number())
    }

    /// What the end would receive next: the byte, and whether a descriptor comes with it.
    #[tactic(auto, unfolding(crate::specs::Kept::open_files))]
    pub fn front(&self, end: End) -> Option<Front>
        ensures { option_map front_seen result ≡ front_shown ((open_files self.now).queue end.pair (other_side (side_seen end.side))) }
    {
        front_in(&self.tables.pairs, end.pair.number(), end.side.other())
    }

    /// What the end has sent that is on its way, the next to be received first. (own)
    #[tactic(auto, unfolding(crate::specs::Kept::open_files))]
    pub fn sent(&self, end: End) -> &[Message]
        ensures { map message_kept result.now ≡ (open_files self.now).queue end.pair (side_seen end.side) }
    {
        sent_by(&self.tables.pairs, end)
    }

    /// Whether some entry, or a descriptor on its way, is of that end.
    #[tactic(auto, unfolding(crate::specs::Kept::open_files))]
    pub fn is_open(&self, pair: PairId, side: Side) -> bool
        ensures { result ≡ is_end_open (open_files self.now) pair (side_seen side) }
    {
        is_end_open(&self.tables.pairs, End { pair, side })
    }

    /// Clears an entry. (close(2))
    #[tactic(auto, unfolding(crate::specs::Kept::open_files))]
    pub fn close(&mut self, p: u8, n: u8)
        requires { IsSome ((open_files self.old).table p n) }
        ensures { Alike (with_entry (open_files self.old) p n None) (open_files self.new) }
    {
        self.tables.put(p, n, None);
    }

    /// Clears all entries of a process.
    #[tactic(auto, unfolding(crate::specs::Kept::open_files))]
    pub fn close_all(&mut self, p: u8)
        requires { p < 16 }
        ensures { Alike (with_row (open_files self.old) p (λ n. None)) (open_files self.new) }
    {
        self.tables.clear_row(p);
    }

    /// Copies an entry to a free one, of the same process or of another. (dup(2))
    #[tactic(auto, unfolding(crate::specs::Kept::open_files))]
    pub fn share(&mut self, p: u8, n: u8, q: u8, m: u8)
        requires there { IsSome ((open_files self.old).table p n) }
        requires free { IsFreeAt (open_files self.old) q m }
        ensures { Alike (with_entry (open_files self.old) q m ((open_files self.old).table p n)) (open_files self.new) }
    {
        let shared = self.tables.entries.at(p, n);
        self.tables.hold(&shared);
        self.tables.put(q, m, shared);
    }

    /// Copies the table of a process to one that has no entry. (fork(2))
    #[tactic(auto, unfolding(crate::specs::Kept::open_files))]
    pub fn copy_table(&mut self, p: u8, q: u8)
        requires from { p < 16 }
        requires to { q < 16 }
        requires free { (n : ℕ) → (open_files self.old).table q n ≡ None }
        ensures { Alike (with_row (open_files self.old) q ((open_files self.old).table p)) (open_files self.new) }
    {
        self.tables.copy_row(p, q);
    }

    /// Leaves a descriptor these rights and fcntl commands, which are within those that it has.
    /// (cap_rights_limit(2), cap_fcntls_limit(2))
    #[tactic(auto, unfolding(crate::specs::Kept::open_files))]
    pub fn limit(&mut self, p: u8, n: u8, rights: Rights, fcntls: Fcntls)
        requires { MayLimit ((open_files self.old).table p n) rights.0 fcntls.0 }
        ensures { Alike (with_limit (open_files self.old) p n rights.0 fcntls.0) (open_files self.new) }
    {
        self.tables.limit(p, n, rights, fcntls);
    }

    /// Sets the offset of a description. (lseek(2))
    #[tactic(auto, unfolding(crate::specs::Kept::open_files))]
    pub fn set_offset(&mut self, d: DescriptionId, offset: u16)
        requires { IsNamed (open_files self.old) d }
        ensures { Alike (with_offset (open_files self.old) d offset) (open_files self.new) }
    {
        let at = d.number();
        let description = description_of(&self.tables.descriptions, at);
        let moved = Description {
            object: description.object,
            offset,
            status: description.status,
        };
        set_description(&mut self.tables.descriptions, at, moved);
    }

    /// Sets the status flags of a description. (fcntl(2), F_SETFL)
    #[tactic(auto, unfolding(crate::specs::Kept::open_files))]
    pub fn set_status(&mut self, d: DescriptionId, status: Status)
        requires { IsNamed (open_files self.old) d }
        ensures { Alike (with_flags (open_files self.old) d status.append status.nonblock) (open_files self.new) }
    {
        let at = d.number();
        let description = description_of(&self.tables.descriptions, at);
        let set = Description {
            object: description.object,
            offset: description.offset,
            status,
        };
        set_description(&mut self.tables.descriptions, at, set);
    }

    /// Opens a file or directory through a free entry: a new description, at its beginning. With too little memory
    /// nothing changes. (open(2))
    #[tactic(auto, unfolding(crate::specs::Kept::open_files))]
    pub fn open_node(
        &mut self,
        p: u8,
        n: u8,
        node: NodeId,
        flags: OpenFlags,
        rights: Rights,
        fcntls: Fcntls,
    ) -> Result<(), Memory>
        requires { IsFreeAt (open_files self.old) p n }
        ensures ok { OnOk result (Opens (open_files self.old) (open_files self.new) p n node (access_asked flags) flags.append rights.0 fcntls.0) }
        ensures err { OnErr result (open_files self.new ≡ open_files self.old) }
    {
        let number = self.tables.make_node(node, flags)?;
        let descriptor = Descriptor {
            description: DescriptionId::at(number),
            rights,
            fcntls,
        };
        self.tables.put(p, n, Some(descriptor));
        Ok(())
    }

    /// Sends a byte, with or without a descriptor of a description that is there, to the other end of a pair. (sendmsg(2))
    #[tactic(auto, unfolding(crate::specs::Kept::open_files))]
    pub fn send(&mut self, end: End, byte: u8, passed: Option<Descriptor>) -> Result<(), SendFault>
        requires there { IsEndThere (open_files self.old) end.pair (side_seen end.side) }
        requires named { MayPass (open_files self.old) (option_map descriptor_seen passed) }
        ensures ok { OnOk result (Alike (sent (open_files self.old) end.pair (side_seen end.side) (message_of byte (option_map descriptor_seen passed))) (open_files self.new)) }
        ensures allowed { OnOk result (send_refusal (open_files self.old) end.pair (side_seen end.side) ≡ None) }
        ensures refused { IfErr result (TellsSendFault (send_refusal (open_files self.old) end.pair (side_seen end.side))) }
        ensures err { OnErr result (open_files self.new ≡ open_files self.old) }
    {
        let other = End {
            pair: end.pair,
            side: end.side.other(),
        };
        if !is_end_open(&self.tables.pairs, other) {
            return Err(SendFault::Closed);
        }
        if messages_in(&self.tables.pairs, end.pair.number(), end.side) >= MAX_MESSAGES {
            return Err(SendFault::Full);
        }
        self.tables.send(end, byte, passed)
    }

    /// Takes the next message that the end receives, and gives its byte. A descriptor that came with it is lost.
    /// (recv(2))
    #[tactic(auto, unfolding(crate::specs::Kept::open_files))]
    pub fn receive(&mut self, end: End) -> Option<u8>
        requires { IsEndThere (open_files self.old) end.pair (side_seen end.side) }
        ensures byte { result ≡ front_byte ((open_files self.old).queue end.pair (other_side (side_seen end.side))) }
        ensures taken { Alike (with_received (open_files self.old) end.pair (side_seen end.side)) (open_files self.new) }
    {
        match self.tables.take(end) {
            Some(message) => {
                self.tables.release(message.passed);
                Some(message.byte)
            }
            None => None,
        }
    }

    /// Takes the next message that the end receives, and puts the descriptor that came with it into a free entry.
    /// (recvmsg(2))
    #[tactic(auto, unfolding(crate::specs::Kept::open_files))]
    pub fn receive_to(&mut self, end: End, p: u8, n: u8)
        requires there { IsEndThere (open_files self.old) end.pair (side_seen end.side) }
        requires free { IsFreeAt (open_files self.old) p n }
        requires carries { IsSome (front_passed ((open_files self.old).queue end.pair (other_side (side_seen end.side)))) }
        ensures { Alike (taken_to (open_files self.old) end.pair (side_seen end.side) p n) (open_files self.new) }
    {
        if let Some(message) = self.tables.take(end) {
            self.tables.put(p, n, message.passed);
        }
    }

    /// Makes a pair of sockets of a class, and puts each end into a free entry, or nowhere. With too little memory
    /// nothing changes. (socketpair(2))
    #[tactic(auto, unfolding(crate::specs::Kept::open_files))]
    pub fn open_pair(
        &mut self,
        class: Class,
        a: Option<Entry>,
        b: Option<Entry>,
    ) -> Result<(), Memory>
        requires free_a { IsFree (open_files self.old) (option_map entry_seen a) }
        requires free_b { IsFree (open_files self.old) (option_map entry_seen b) }
        requires apart { AreApart (option_map entry_seen a) (option_map entry_seen b) }
        ensures ok { OnOk result (Pairs (open_files self.old) (open_files self.new) (class_seen class) (option_map entry_seen a) (option_map entry_seen b)) }
        ensures err { OnErr result (open_files self.new ≡ open_files self.old) }
    {
        let (first, second) = self.tables.make_ends(class)?;
        self.tables.place(a, first);
        self.tables.place(b, second);
        Ok(())
    }

    /// How many open descriptions some entry names, or a descriptor on its way. (own)
    #[tactic(auto, unfolding(crate::specs::Kept::open_files))]
    pub fn count(&self) -> usize
        ensures { Counts (open_files self.now) result }
    {
        self.tables.descriptions.len()
    }
}
