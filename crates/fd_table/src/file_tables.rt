//! The tables, the open descriptions and the socket pairs, step by step. Each description knows how many entries and
//! queued messages name it.

ghost use Rattle.std.specs.Prelude.{◌≡◌, ◌<◌, IfErr, IfOk, None, OnErr, OnOk, Some, length, option_map};
ghost use Rattle.std.specs.Option.{IsSome};
ghost use Rattle.rights.specs.Sets.{all_commands, all_rights};
ghost use Rattle.rights.specs.Sides.{other_side};
ghost use Rattle.fd_table.specs.Descriptions.{At_node, Descriptor as SeenDescriptor, descriptor_of, message_of};
ghost use Rattle.fd_table.specs.OpenFiles.{IsUnnamed, OpenFiles};
ghost use Rattle.fd_table.specs.Openings.{described, with_entry};
ghost use Rattle.fd_table.specs.Filled.{IsEmpty, with_limit, sent, with_end, with_row};
ghost use Rattle.fd_table.specs.Kept.{end_of, entry_at, open_files, queue, item_at};
ghost use Rattle.fd_table.specs.Holders.{IsInHand, IsKept, IsDescriptionThere, empty_hand, with_hand};
ghost use Rattle.fd_table.specs.Changes.{front_message, passed_in};
ghost use Rattle.fd_table.specs.Follows.{Follows, Makes, Moves, same_hand, with_taken};
ghost use Rattle.rights.specs.Views.{side_seen};
ghost use Rattle.fd_table.specs.Views.{access_asked, class_seen, entry_seen};
ghost use Rattle.fd_table.specs.EntryViews.{entry_kept};
ghost use Rattle.fd_table.specs.StoredViews.{IsWithinTables, tables_kept, message_kept};
ghost use Rattle.fd_table.specs.declared.faults.SendFault.TheVariants as fault;

use crate::descriptions::{Held, describe, hold_named, opened_end, opened_node, release_one};
use crate::descriptors::{Class, DescriptionId, Descriptor, Entry};
use crate::ends::{End, Message, PairId};
use crate::entries::{Entries, NUMBERS};
use crate::faults::SendFault;
use crate::pairs::{Pair, close_ended, make_pair, note_few, send_in, take_in};
use file_tree::NodeId;
use rights::{Fcntls, Memory, OpenFlags, Rights, Side};
use slab::Slab;
use std::alloc::Global;

/// The tables, the open descriptions and the socket pairs.
#[derive(Drop)]
pub(crate) struct FileTables {
    pub(crate) alloc: Global,
    pub(crate) entries: Entries,
    pub(crate) descriptions: Slab<Held>,
    pub(crate) pairs: Slab<Pair>,
}

impl FileTables {
    /// Nothing is open.
    pub(crate) fn new(alloc: Global) -> Result<FileTables, Memory>
        ensures kept { IfOk result (λ tables. IsKept (tables_kept tables) empty_hand) }
        ensures empty { IfOk result (λ tables. IsEmpty (open_files (tables_kept tables))) }
    {
        let entries = Entries::new(alloc)?;
        Ok(FileTables {
            alloc,
            entries,
            descriptions: Slab::new(alloc),
            pairs: Slab::new(alloc),
        })
    }

    /// Puts a descriptor, or none, into an entry, and gives what was there.
    fn exchange(&mut self, p: u8, n: u8, descriptor: Option<Descriptor>) -> Option<Descriptor>
        requires room { length (tables_kept self.old).entries ≡ 256 }
        requires process { p < 16 }
        requires number { n < 16 }
        ensures given { entry_kept result ≡ entry_at (tables_kept self.old).entries p n }
        ensures follows { Moves (tables_kept self.old) (tables_kept self.new) (λ f. with_entry f p n (entry_kept descriptor))
            (with_hand (entry_kept descriptor)) (with_hand (entry_kept result)) }
    {
        let was = self.entries.at(p, n);
        self.entries.set(p, n, descriptor);
        was
    }

    /// Puts a descriptor that is counted, or none, into an entry, and lets go what was there.
    pub(crate) fn put(&mut self, p: u8, n: u8, descriptor: Option<Descriptor>)
        requires kept { IsInHand (tables_kept self.old) (entry_kept descriptor) }
        requires process { p < 16 }
        requires number { n < 16 }
        ensures { Moves (tables_kept self.old) (tables_kept self.new) (λ f. with_entry f p n (entry_kept descriptor))
            (with_hand (entry_kept descriptor)) same_hand }
    {
        let was = self.exchange(p, n, descriptor);
        self.release(was);
    }

    /// Leaves an entry these rights and commands.
    pub(crate) fn limit(&mut self, p: u8, n: u8, rights: Rights, fcntls: Fcntls)
        requires room { length (tables_kept self.old).entries ≡ 256 }
        requires there { IsSome (entry_at (tables_kept self.old).entries p n) }
        ensures { Moves (tables_kept self.old) (tables_kept self.new) (λ f. with_limit f p n rights.0 fcntls.0) same_hand same_hand }
    {
        if let Some(descriptor) = self.entries.at(p, n) {
            let left = Descriptor {
                description: descriptor.description,
                rights,
                fcntls,
            };
            self.entries.set(p, n, Some(left));
        }
    }

    /// Counts a descriptor, if there is one, that will be put into an entry.
    pub(crate) fn hold(&mut self, held: &Option<Descriptor>)
        requires kept { IsKept (tables_kept self.old) empty_hand }
        requires there { IsDescriptionThere (item_at (tables_kept self.old).descriptions) (entry_kept held.now) }
        ensures { (f : OpenFiles) → Follows f (tables_kept self.old) empty_hand → Follows f (tables_kept self.new) (with_hand (entry_kept held.now) empty_hand) }
    {
        note_few(&self.pairs);
        hold_named(&mut self.descriptions, held);
    }

    /// Lets a descriptor go, if there is one, that no entry and no message has. A description whose last holder it was
    /// is taken out, and so is a pair that nobody needs then.
    pub(crate) fn release(&mut self, held: Option<Descriptor>)
        requires { IsInHand (tables_kept self.old) (entry_kept held) }
        ensures { Moves (tables_kept self.old) (tables_kept self.new) (λ f. f) (with_hand (entry_kept held)) same_hand }
    {
        if let Some(descriptor) = held {
            let ended = release_one(&mut self.descriptions, descriptor.description.number());
            close_ended(&mut self.pairs, ended);
        }
    }

    /// Puts a message with a descriptor, or without one, behind the others that a side has sent.
    pub(crate) fn send(
        &mut self,
        end: End,
        byte: u8,
        passed: Option<Descriptor>,
    ) -> Result<(), SendFault>
        requires kept { IsKept (tables_kept self.old) empty_hand }
        requires opened { IsSome (end_of (tables_kept self.old).pairs end.pair (side_seen end.side)) }
        requires there { IsDescriptionThere (item_at (tables_kept self.old).descriptions) (entry_kept passed) }
        requires few { length (queue (tables_kept self.old).pairs end.pair (side_seen end.side)) < 16 }
        ensures ok { OnOk result (Follows (sent (open_files (tables_kept self.old)) end.pair (side_seen end.side) (message_of byte (entry_kept passed))) (tables_kept self.new) empty_hand) }
        ensures err { OnErr result (tables_kept self.new ≡ tables_kept self.old) }
        ensures memory { IfErr result (λ error. error ≡ fault.Memory) }
    {
        note_few(&self.pairs);
        send_in(&mut self.pairs, end.pair.number(), end.side, byte, passed)?;
        hold_named(&mut self.descriptions, &passed);
        Ok(())
    }

    /// Clears all entries of a process.
    pub(crate) fn clear_row(&mut self, p: u8)
        requires kept { IsKept (tables_kept self.old) empty_hand }
        requires process { p < 16 }
        ensures { Follows (with_row (open_files (tables_kept self.old)) p (λ n. None)) (tables_kept self.new) empty_hand }
    {
        for n in 0..NUMBERS {
            self.put(p, n, None);
        }
    }

    /// Copies all entries of a process over those of another.
    pub(crate) fn copy_row(&mut self, p: u8, q: u8)
        requires kept { IsKept (tables_kept self.old) empty_hand }
        requires process { q < 16 }
        ensures { Follows (with_row (open_files (tables_kept self.old)) q ((open_files (tables_kept self.old)).table p)) (tables_kept self.new) empty_hand }
    {
        for n in 0..NUMBERS {
            let copied = self.entries.at(p, n);
            self.hold(&copied);
            self.put(q, n, copied);
        }
    }

    /// Names a description, of which one holder is counted, with all rights and commands in an entry, or nowhere.
    pub(crate) fn place(&mut self, to: Option<Entry>, description: usize)
        requires kept { IsInHand (tables_kept self.old) (Some (descriptor_of description all_rights all_commands)) }
        requires within { IsWithinTables (option_map entry_seen to) }
        ensures { Moves (tables_kept self.old) (tables_kept self.new) (λ f. with_end f description (option_map entry_seen to))
            (with_hand (Some (descriptor_of description all_rights all_commands))) same_hand }
    {
        let named = Some(Descriptor {
            description: DescriptionId::at(description),
            rights: Rights::all(),
            fcntls: Fcntls::all(),
        });
        match to {
            Some(to) => self.put(to.process, to.number, named),
            None => self.release(named),
        }
    }

    /// Makes the description of a file or directory, at its beginning, with one holder.
    pub(crate) fn make_node(&mut self, node: NodeId, flags: OpenFlags) -> Result<usize, Memory>
        requires kept { IsKept (tables_kept self.old) empty_hand }
        ensures fresh { IfOk result (λ n. IsUnnamed (open_files (tables_kept self.old)) n) }
        ensures follows { IfOk result (λ n. (d : SeenDescriptor) → d.description ≡ n
            → Follows (described (open_files (tables_kept self.old)) n (At_node node (access_asked flags)) flags.append) (tables_kept self.new) (with_hand (Some d) empty_hand)) }
        ensures err { OnErr result (tables_kept self.new ≡ tables_kept self.old) }
    {
        self.descriptions.reserve(1)?;
        Ok(describe(&mut self.descriptions, opened_node(node, flags)))
    }

    /// Makes a pair and the descriptions of both its ends, with one holder each.
    pub(crate) fn make_ends(&mut self, class: Class) -> Result<(usize, usize), Memory>
        requires kept { IsKept (tables_kept self.old) empty_hand }
        ensures made { IfOk result (λ ends. Makes (tables_kept self.old) (tables_kept self.new) (class_seen class) ends.0 ends.1) }
        ensures err { OnErr result (tables_kept self.new ≡ tables_kept self.old) }
    {
        self.descriptions.reserve(2)?;
        self.pairs.reserve(1)?;
        let pair = PairId::at(self.pairs.vacant_key());
        let side_a = End {
            pair,
            side: Side::A,
        };
        let side_b = End {
            pair,
            side: Side::B,
        };
        let first = describe(&mut self.descriptions, opened_end(side_a, class));
        let second = describe(&mut self.descriptions, opened_end(side_b, class));
        make_pair(self.alloc, &mut self.pairs, first, second);
        Ok((first, second))
    }

    /// Takes the message in front of those that an end receives, if there is one.
    pub(crate) fn take(&mut self, end: End) -> Option<Message>
        requires { IsSome (end_of (tables_kept self.old).pairs end.pair (side_seen end.side)) }
        ensures front { option_map message_kept result ≡ front_message (queue (tables_kept self.old).pairs end.pair (other_side (side_seen end.side))) }
        ensures follows { Moves (tables_kept self.old) (tables_kept self.new) (λ f. with_taken f end.pair (other_side (side_seen end.side)))
            same_hand (with_hand (passed_in (option_map message_kept result))) }
    {
        take_in(&mut self.pairs, end.pair.number(), end.side.other())
    }
}
