//! Bounds and what they have, as a page for people writes them. (own)

ghost use Rattle.std.specs.Prelude.{None};

use crate::bounds::{FcntlsRange, Held, Interval, ModeBound, RightsRange, Slot, Target};
use crate::classes::Class;
use rights::{Fcntls, Rights};
use texts::{Page, Say, ToldRights, say};

/// Rights, as they are to be told: in a task that asks for no further ones nothing is said of these where a set has all of them.
fn told(wide: bool, rights: Rights) -> Rights {
    if wide { rights } else { rights.noted() }
}

/// Adds what a range of rights goes from and to, or that it is all of them.
fn add_range(page: &mut Page, wide: bool, range: RightsRange) {
    let (least, greatest) = (range.least(), range.greatest());
    let most = ToldRights {
        wide,
        rights: greatest,
    };
    if told(wide, least) == told(wide, greatest) {
        return most.say(page);
    }
    let rights = least;
    say!(page; "at least ", ToldRights { wide, rights }, " and at most ", most)
}

/// What a range of commands goes from and to, unless it is all of them.
impl Say for FcntlsRange {
    ghost said = { λ range. None };

    fn say(self, page: &mut Page) {
        let (least, greatest) = (self.least(), self.greatest());
        if least == Fcntls::all() {
            return;
        }
        if least == greatest {
            return say!(page; ", commands ", least);
        }
        say!(page; ", commands at least ", least, " and at most ", greatest)
    }
}

/// A class, as a certificate writes it.
impl Say for Class {
    ghost said = { λ class. None };

    fn say(self, page: &mut Page) {
        match self {
            Class::Initial(pair) => say!(page; "@", pair.number()),
            Class::MadeAt(program, point) => say!(page; program.as_bytes(), ":", point),
        }
    }
}

/// What a descriptor is of.
impl Say for Target {
    ghost said = { λ target. None };

    fn say(self, page: &mut Page) {
        match self {
            Target::InGrant(name) => say!(page; "grant ", name.as_bytes()),
            Target::AnyNode => "any".say(page),
            Target::Socket(class, side) => say!(page; "sock ", class, " ", side),
            Target::Unknown => "unknown".say(page),
        }
    }
}

/// What a descriptor may be, as it is told of a task that asks for further rights or of another.
#[derive(Clone, Copy)]
pub struct ToldHeld {
    pub wide: bool,
    pub held: Held,
}

/// What it is of, and its rights and commands.
impl Say for ToldHeld {
    ghost said = { λ told. None };

    fn say(self, page: &mut Page) {
        let (wide, held) = (self.wide, self.held);
        say!(page; held.target(), " with ");
        add_range(page, wide, held.rights());
        say!(page; held.fcntls())
    }
}

/// What a number of a table may be, as it is told of a task that asks for further rights or of another.
#[derive(Clone, Copy)]
pub struct ToldSlot {
    pub wide: bool,
    pub slot: Slot,
}

impl Say for ToldSlot {
    ghost said = { λ told. None };

    fn say(self, page: &mut Page) {
        let wide = self.wide;
        match self.slot {
            Slot::Closed => "closed".say(page),
            Slot::Open(held) => say!(page; "open, ", ToldHeld { wide, held }),
            Slot::Maybe(held) => say!(page; "maybe open, ", ToldHeld { wide, held }),
        }
    }
}

/// What a register may be.
impl Say for Interval {
    ghost said = { λ interval. None };

    fn say(self, page: &mut Page) {
        if self.is_full() {
            return "any number".say(page);
        }
        if self.low() == self.high() {
            return self.low().say(page);
        }
        say!(page; self.low(), " to ", self.high())
    }
}

/// A mode, as a certificate writes it.
impl Say for ModeBound {
    ghost said = { λ mode. None };

    fn say(self, page: &mut Page) {
        match self {
            ModeBound::Off => "off",
            ModeBound::On => "on",
            ModeBound::Either => "maybe",
        }
        .say(page)
    }
}
