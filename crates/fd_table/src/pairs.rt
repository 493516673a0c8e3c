//! Socket pairs by number: the descriptions of their ends, and what is on its way through them.

ghost use Rattle.std.specs.Prelude.{◌≡◌, ◌<◌, ◌^◌, ◌++◌, ◌∷◌, [], IfErr, None, OnErr, OnOk, Some, drop, is_some, length, map, option_map};
ghost use Rattle.std.specs.Option.{IsSome};
ghost use Rattle.slab.specs.Slab.{HasRoomFor};
ghost use Rattle.fd_table.specs.Filled.{front_shown};
ghost use Rattle.fd_table.specs.Descriptions.{message_of};
ghost use Rattle.fd_table.specs.Kept.{end_of, half_in, queue, item_at};
ghost use Rattle.fd_table.specs.Holders.{is_idle};
ghost use Rattle.fd_table.specs.Changes.{Changed, Ends, IsEndable, after_close, front_message, pair_new, with_closed, with_less, with_more, with_sent};
ghost use Rattle.rights.specs.Views.{side_seen};
ghost use Rattle.fd_table.specs.Views.{front_seen};
ghost use Rattle.fd_table.specs.EntryViews.{entry_kept};
ghost use Rattle.fd_table.specs.StoredViews.{description_kept, half_kept, message_kept, pair_kept, pairs_kept};
ghost use Rattle.fd_table.specs.declared.faults.SendFault.TheVariants as fault;

use crate::descriptors::{Description, Descriptor, Object};
use crate::ends::{End, Front, Message};
use crate::faults::SendFault;
use rights::Side;
use slab::Slab;
use std::alloc::Global;

/// A side of a pair.
#[derive(Drop)]
pub(crate) struct Half {
    /// The number of the description of this end, while it is open.
    pub(crate) description: Option<usize>,
    /// What the side has sent, the next to be received first.
    pub(crate) sent: Vec<Message>,
}

/// A socket pair. (socketpair(2))
#[derive(Drop)]
pub(crate) struct Pair {
    pub(crate) a: Half,
    pub(crate) b: Half,
}

/// Puts a message behind the others.
fn append(
    messages: &mut Vec<Message>,
    byte: u8,
    passed: Option<Descriptor>,
) -> Result<(), SendFault>
    ensures ok { OnOk result (map message_kept messages.new.items ≡ map message_kept messages.old.items ++ message_of byte (entry_kept passed) ∷ []) }
    ensures err { OnErr result (messages.new.items ≡ messages.old.items) }
    ensures memory { IfErr result (λ error. error ≡ fault.Memory) }
{
    messages.push(Message { byte, passed })?;
    Ok(())
}

/// Takes the message in front of the others, if there is one.
fn take_first(messages: &mut Vec<Message>) -> Option<Message>
    ensures front { option_map message_kept result ≡ front_message (map message_kept messages.old.items) }
    ensures rest { map message_kept messages.new.items ≡ drop 1 (map message_kept messages.old.items) }
{
    if messages.is_empty() {
        return None;
    }
    Some(messages.remove(0))
}

/// What stands first among some messages.
fn front_among(messages: &[Message]) -> Option<Front>
    ensures { option_map front_seen result ≡ front_shown (map message_kept messages.now) }
{
    match messages {
        [] => None,
        [message, ..] => Some(Front {
            byte: message.byte,
            carries: message.passed.is_some(),
        }),
    }
}

impl Pair {
    /// A pair of two open ends, by the numbers of their descriptions, with nothing on its way.
    fn new(alloc: Global, first: usize, second: usize) -> Pair
        ensures { pair_kept result ≡ pair_new first second }
    {
        Pair {
            a: Half {
                description: Some(first),
                sent: Vec::new(alloc),
            },
            b: Half {
                description: Some(second),
                sent: Vec::new(alloc),
            },
        }
    }

    /// What is of one side.
    pub(crate) fn half(&self, side: Side) -> &Half
        ensures { half_kept result.now ≡ half_in (Some (pair_kept self.now)) (side_seen side) }
    {
        match side {
            Side::A => &self.a,
            Side::B => &self.b,
        }
    }

    /// Whether no end is open, and nothing is on its way.
    fn is_idle(&self) -> bool
        ensures { result ≡ is_idle (pair_kept self.now) }
    {
        self.a.description.is_none()
            && self.b.description.is_none()
            && self.a.sent.is_empty()
            && self.b.sent.is_empty()
    }

    /// Closes an end, and tells whether nobody needs the pair then.
    fn close(&mut self, side: Side) -> bool
        ensures closed { pair_kept self.new ≡ with_closed (pair_kept self.old) (side_seen side) }
        ensures idle { result ≡ is_idle (pair_kept self.new) }
    {
        match side {
            Side::A => self.a.description = None,
            Side::B => self.b.description = None,
        }
        self.is_idle()
    }

    /// Puts a message behind the others that a side has sent.
    fn push(&mut self, side: Side, byte: u8, passed: Option<Descriptor>) -> Result<(), SendFault>
        ensures ok { OnOk result (pair_kept self.new
            ≡ with_sent (pair_kept self.old) (side_seen side) ((half_in (Some (pair_kept self.old)) (side_seen side)).sent ++ message_of byte (entry_kept passed) ∷ [])) }
        ensures err { OnErr result (pair_kept self.new ≡ pair_kept self.old) }
        ensures memory { IfErr result (λ error. error ≡ fault.Memory) }
    {
        match side {
            Side::A => append(&mut self.a.sent, byte, passed),
            Side::B => append(&mut self.b.sent, byte, passed),
        }
    }

    /// Takes the message in front of those that a side has sent, if there is one.
    fn take(&mut self, side: Side) -> Option<Message>
        ensures front { option_map message_kept result ≡ front_message ((half_in (Some (pair_kept self.old)) (side_seen side)).sent) }
        ensures rest { pair_kept self.new ≡ with_sent (pair_kept self.old) (side_seen side) (drop 1 ((half_in (Some (pair_kept self.old)) (side_seen side)).sent)) }
    {
        match side {
            Side::A => take_first(&mut self.a.sent),
            Side::B => take_first(&mut self.b.sent),
        }
    }
}

/// Whether an end is open.
pub(crate) fn is_end_open(pairs: &Slab<Pair>, end: End) -> bool
    ensures { result ≡ is_some (end_of (pairs_kept pairs.now.slots) end.pair (side_seen end.side)) }
{
    match pairs.get(end.pair.number()) {
        Some(pair) => pair.half(end.side).description.is_some(),
        None => false,
    }
}

/// What stands first in the queue of a pair and a side.
pub(crate) fn front_in(pairs: &Slab<Pair>, pair: usize, side: Side) -> Option<Front>
    ensures { option_map front_seen result ≡ front_shown (queue (pairs_kept pairs.now.slots) pair (side_seen side)) }
{
    match pairs.get(pair) {
        Some(pair) => front_among(pair.half(side).sent.as_slice()),
        None => None,
    }
}

/// How many messages are in the queue of a pair and a side.
pub(crate) fn messages_in(pairs: &Slab<Pair>, pair: usize, side: Side) -> usize
    ensures { result ≡ length (queue (pairs_kept pairs.now.slots) pair (side_seen side)) }
{
    match pairs.get(pair) {
        Some(pair) => pair.half(side).sent.len(),
        None => 0,
    }
}

/// Puts a message behind the others in the queue of a pair and a side.
pub(crate) fn send_in(
    pairs: &mut Slab<Pair>,
    pair: usize,
    side: Side,
    byte: u8,
    passed: Option<Descriptor>,
) -> Result<(), SendFault>
    requires { IsSome (item_at (pairs_kept pairs.old.slots) pair) }
    ensures ok { OnOk result (Changed (pairs_kept pairs.old.slots) (pairs_kept pairs.new.slots) pair
        (with_more (side_seen side) (message_of byte (entry_kept passed)) (item_at (pairs_kept pairs.old.slots) pair))) }
    ensures err { OnErr result (pairs_kept pairs.new.slots ≡ pairs_kept pairs.old.slots) }
    ensures memory { IfErr result (λ error. error ≡ fault.Memory) }
{
    pairs[pair].push(side, byte, passed)
}

/// Takes the message in front in the queue of a pair and a side, if there is one.
pub(crate) fn take_in(pairs: &mut Slab<Pair>, pair: usize, side: Side) -> Option<Message>
    requires { IsSome (item_at (pairs_kept pairs.old.slots) pair) }
    ensures front { option_map message_kept result ≡ front_message (queue (pairs_kept pairs.old.slots) pair (side_seen side)) }
    ensures rest { Changed (pairs_kept pairs.old.slots) (pairs_kept pairs.new.slots) pair (with_less (side_seen side) (item_at (pairs_kept pairs.old.slots) pair)) }
{
    pairs[pair].take(side)
}

/// Closes an end of a pair. A pair without an open end and with nothing on its way is taken out.
pub(crate) fn close_end(pairs: &mut Slab<Pair>, end: End)
    requires { IsSome (item_at (pairs_kept pairs.old.slots) end.pair) }
    ensures { Changed (pairs_kept pairs.old.slots) (pairs_kept pairs.new.slots) end.pair (after_close (side_seen end.side) (item_at (pairs_kept pairs.old.slots) end.pair)) }
{
    let number = end.pair.number();
    if pairs[number].close(end.side) {
        pairs.remove(number);
    }
}

/// Closes the end that a description was of, if it was of one: none names the description any more.
pub(crate) fn close_ended(pairs: &mut Slab<Pair>, ended: Option<Description>)
    requires { IsEndable (pairs_kept pairs.old.slots) (option_map description_kept ended) }
    ensures { Ends (pairs_kept pairs.old.slots) (pairs_kept pairs.new.slots) (option_map description_kept ended) }
{
    if let Some(description) = ended {
        if let Object::End { end, .. } = description.object {
            close_end(pairs, end);
        }
    }
}

/// Makes a pair of two open ends, by the numbers of their descriptions, in room that is there.
pub(crate) fn make_pair(alloc: Global, pairs: &mut Slab<Pair>, first: usize, second: usize) -> usize
    requires { HasRoomFor pairs.old 1 }
    ensures key { result ≡ pairs.old.vacant_key }
    ensures vacant { item_at (pairs_kept pairs.old.slots) result ≡ None }
    ensures change { Changed (pairs_kept pairs.old.slots) (pairs_kept pairs.new.slots) result (Some (pair_new first second)) }
{
    pairs.insert_reserved(Pair::new(alloc, first, second))
}

/// There are no more numbers of pairs than a slab has room for, which is a usize.
pub(crate) fn note_few(pairs: &Slab<Pair>)
    ensures { length (pairs_kept pairs.now.slots) < 2 ^ 64 }
{
    pairs.capacity();
}
