//! The entries of a record: what each call was and what it came to.

ghost use Rattle.std.specs.Prelude.{◌≡◌, map, option_map};
ghost use Rattle.records.specs.Calls.{end_bound, is_counted};
ghost use Rattle.records.specs.EntryViews.{binding_seen, event_seen, made_seen, reason_seen, recorded_end_seen};
ghost use Rattle.records.specs.Named.{reason_name};
ghost use Rattle.records.specs.Texts.{has_call, is_left_out, is_same, wants_right};

use crate::operands::Operand;
use rights::{Call, Errno, Side};

/// The lines of the record in which a call begins and ends, counted from 1.
#[derive(Clone, Copy)]
pub struct Span {
    pub first: u32,
    pub last: u32,
}

/// What a call came to.
#[derive(Clone, Copy)]
pub enum Outcome {
    /// Success, with this number.
    Success(u32),
    /// This error.
    Failure(Errno),
}

/// What a descriptor is.
#[derive(Drop)]
pub enum Binding {
    /// Of the node at a place, as the record tells it.
    Place {
        descriptor: u32,
        place: Vec<u8>,
    },
    /// An end of a pair of sockets.
    End {
        descriptor: u32,
        pair: u32,
        side: Side,
    },
}

/// An end of a pair of sockets.
#[derive(Clone, Copy, PartialEq, Eq)]
pub struct RecordedEnd {
    pub pair: u32,
    pub side: Side,
}

/// The end that the descriptor of a number is of, as some bindings tell it.
fn end_bound(bindings: &[Binding], number: u32) -> Option<RecordedEnd>
    ensures { option_map recorded_end_seen result ≡ end_bound number (map binding_seen bindings.now) }
{
    match bindings {
        [] => None,
        [Binding::Place { .. }, bindings @ ..] => end_bound(bindings, number),
        [
            Binding::End {
                descriptor,
                pair,
                side,
            },
            bindings @ ..,
        ] => {
            if *descriptor == number {
                let (pair, side) = (*pair, *side);
                Some(RecordedEnd { pair, side })
            } else {
                end_bound(bindings, number)
            }
        }
    }
}

/// A call that a process made.
#[derive(Drop)]
pub struct MadeCall {
    pub call: Call,
    /// What it was given, of the kinds that `operand_kinds` says.
    pub operands: Vec<Operand>,
    pub outcome: Outcome,
    /// What the descriptors that it names or makes are.
    pub bindings: Vec<Binding>,
    /// How many bytes went through, of a stream.
    pub bytes: Option<u32>,
}

impl MadeCall {
    /// The end that the descriptor of a number is of, if the call names or makes it and it is one.
    pub fn end_of(&self, number: u32) -> Option<RecordedEnd>
        ensures { option_map recorded_end_seen result ≡ end_bound number (made_seen self.now).bindings }
    {
        end_bound(&self.bindings, number)
    }
}

/// Why a call is left out.
#[derive(Clone, Copy, PartialEq, Eq)]
pub enum Reason {
    /// The loader made it.
    Loader,
    /// It has nothing to do with files or descriptors.
    Quiet,
    /// It works on a global name space, and is none of the calls.
    Global,
    /// It works on a descriptor by a right, in a way that none of the calls does.
    Right,
    /// What became of it has no counterpart.
    Unknown,
    /// Its name isn't known.
    Name,
}

impl Reason {
    /// The word of the reason.
    pub fn name(self) -> &'static str
        ensures { result.now ≡ reason_name (reason_seen self) }
    {
        match self {
            Reason::Loader => "loader",
            Reason::Quiet => "quiet",
            Reason::Global => "global",
            Reason::Right => "right",
            Reason::Unknown => "unknown",
            Reason::Name => "name",
        }
    }

    /// Whether it is the same reason.
    pub fn is(self, other: Reason) -> bool
        ensures { result ≡ is_same (reason_seen self) (reason_seen other) }
    {
        match (self, other) {
            (Reason::Loader, Reason::Loader)
            | (Reason::Quiet, Reason::Quiet)
            | (Reason::Global, Reason::Global)
            | (Reason::Right, Reason::Right)
            | (Reason::Unknown, Reason::Unknown)
            | (Reason::Name, Reason::Name) => true,
            _ => false,
        }
    }
}

/// A right that FreeBSD would want of a descriptor, by its name.
#[derive(Drop)]
pub struct WantedRight {
    pub right: Vec<u8>,
    pub descriptor: u32,
}

/// A call that is left out, by its name in the record.
#[derive(Drop)]
pub struct LeftOut {
    pub reason: Reason,
    pub name: Vec<u8>,
    pub wanted: Option<WantedRight>,
}

/// What happened.
#[derive(Drop)]
pub enum Event {
    /// A process made a call.
    Called(MadeCall),
    /// The process ended.
    Ended,
    /// A call that is left out.
    Omitted(LeftOut),
}

impl Event {
    /// Whether it is a call or an end, and so isn't left out.
    pub fn is_counted(&self) -> bool
        ensures { result ≡ is_counted (event_seen self.now) }
    {
        match self {
            Event::Called(_) | Event::Ended => true,
            Event::Omitted(_) => false,
        }
    }

    /// Whether it is a call.
    pub fn is_call(&self) -> bool
        ensures { result ≡ has_call (event_seen self.now) }
    {
        match self {
            Event::Called(_) => true,
            Event::Ended | Event::Omitted(_) => false,
        }
    }

    /// Whether it is left out for this reason.
    pub fn is_left_out(&self, reason: Reason) -> bool
        ensures { result ≡ is_left_out (reason_seen reason) (event_seen self.now) }
    {
        match self {
            Event::Omitted(left_out) => left_out.reason.is(reason),
            Event::Called(_) | Event::Ended => false,
        }
    }

    /// Whether a right is wanted for it.
    pub fn wants_right(&self) -> bool
        ensures { result ≡ wants_right (event_seen self.now) }
    {
        match self {
            Event::Omitted(left_out) => left_out.wanted.is_some(),
            Event::Called(_) | Event::Ended => false,
        }
    }
}

/// An entry of a record.
#[derive(Drop)]
pub struct Entry {
    pub span: Span,
    pub process: u32,
    pub event: Event,
}
