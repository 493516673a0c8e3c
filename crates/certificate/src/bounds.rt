//! What a certificate says.

ghost use Rattle.std.specs.Prelude.{◌≡◌, ◌≤◌, true, option_map};
ghost use Rattle.rights.specs.Sets.{all_commands, all_rights, is_within};

use crate::classes::Class;
use rights::limits::{MAX_DESCRIPTORS, REGISTERS};
use rights::{Fcntls, Rights, Side};
use texts::Name;

/// Whether a process is in capability mode.
#[derive(Clone, Copy, PartialEq, Eq)]
pub enum ModeBound {
    Off,
    On,
    /// Off or on.
    Either,
}

/// The numbers from `low` to `high`, both of them too; there is one.
#[derive(Clone, Copy, PartialEq, Eq)]
pub struct Interval {
    pub(crate) low: u32,
    pub(crate) high: u32,
    pub ghost ordered: { low ≤ high },
}

/// What a descriptor is of.
#[derive(Clone, Copy)]
pub enum Target {
    /// A node at or beneath the grant of this name.
    InGrant(Name),
    /// Any file or directory.
    AnyNode,
    /// This side of a socket pair of this class.
    Socket(Class, Side),
    /// Anything.
    Unknown,
}

/// The sets of rights that have at least those of `least` and at most those of `greatest`; there is one.
#[derive(Clone, Copy)]
pub struct RightsRange {
    pub(crate) least: Rights,
    pub(crate) greatest: Rights,
    pub ghost nested: { is_within least.0 greatest.0 ≡ true },
    pub ghost known: { is_within greatest.0 all_rights ≡ true },
}

/// The sets of fcntl commands that have at least those of `least` and at most those of `greatest`; there is one.
#[derive(Clone, Copy)]
pub struct FcntlsRange {
    pub(crate) least: Fcntls,
    pub(crate) greatest: Fcntls,
    pub ghost nested: { is_within least.0 greatest.0 ≡ true },
    pub ghost known: { is_within greatest.0 all_commands ≡ true },
}

/// A descriptor's bound.
#[derive(Clone, Copy)]
pub struct Held {
    pub(crate) target: Target,
    pub(crate) rights: RightsRange,
    pub(crate) fcntls: FcntlsRange,
}

/// What a number of a process's table may be.
#[derive(Clone, Copy)]
pub enum Slot {
    /// No descriptor has it.
    Closed,
    /// Such a descriptor has it.
    Open(Held),
    /// No descriptor has it, or such a one.
    Maybe(Held),
}

/// A bound on a process at a point: its mode, its registers, and its table.
#[derive(Clone, Copy)]
pub struct Bound {
    pub(crate) mode: ModeBound,
    pub(crate) registers: [Interval; REGISTERS],
    pub(crate) slots: [Slot; MAX_DESCRIPTORS],
}

impl Interval {
    /// All values of a register.
    pub const FULL: Interval = Interval {
        low: 0,
        high: 4_294_967_295,
    };

    ghost use Rattle.certificate.specs.Lines.{is_full};
    ghost use Rattle.certificate.specs.Views.{interval_of};

    /// The interval between these numbers.
    pub fn new(low: u32, high: u32) -> Interval
        requires { low ≤ high }
        ensures { interval_of result ≡ record { low = low; high = high } }
    {
        Interval { low, high }
    }

    /// Its lowest number.
    pub fn low(&self) -> u32
        ensures { result ≡ (interval_of self.now).low }
    {
        self.low
    }

    /// Its highest number.
    pub fn high(&self) -> u32
        ensures { result ≡ (interval_of self.now).high }
    {
        self.high
    }

    /// Whether it is of all values of a register.
    pub fn is_full(&self) -> bool
        ensures { result ≡ is_full (interval_of self.now) }
    {
        self.low == Interval::FULL.low && self.high == Interval::FULL.high
    }
}

impl Target {
    ghost use Rattle.certificate.specs.Kinds.{is_end_of, is_grant_of, is_node};
    ghost use Rattle.rights.specs.Views.{side_seen};
    ghost use Rattle.certificate.specs.Views.{class_of, target_of};
    ghost use Rattle.texts.specs.Views.{name_of};

    /// Whether it is the grant of this name.
    pub(crate) fn is_grant(&self, name: &Name) -> bool
        ensures { result ≡ is_grant_of (target_of self.now) (name_of name.now) }
    {
        match self {
            Target::InGrant(own) => own.as_bytes() == name.as_bytes(),
            Target::AnyNode | Target::Socket(..) | Target::Unknown => false,
        }
    }

    /// Whether it is of nodes alone.
    pub(crate) fn is_node(&self) -> bool
        ensures { result ≡ is_node (target_of self.now) }
    {
        match self {
            Target::InGrant(_) | Target::AnyNode => true,
            Target::Socket(..) | Target::Unknown => false,
        }
    }

    /// Whether it is this side of the pairs of this class.
    pub(crate) fn is_end(&self, class: &Class, side: Side) -> bool
        ensures { result ≡ is_end_of (target_of self.now) (class_of class.now) (side_seen side) }
    {
        match self {
            Target::Socket(own, end) => own.is(class) && end.is(side),
            Target::InGrant(_) | Target::AnyNode | Target::Unknown => false,
        }
    }
}

impl RightsRange {
    /// The sets between these.
    pub fn new(least: Rights, greatest: Rights) -> RightsRange
        requires nested { is_within least.0 greatest.0 ≡ true }
        requires known { is_within greatest.0 all_rights ≡ true }
        ensures least { result.least ≡ least }
        ensures greatest { result.greatest ≡ greatest }
    {
        RightsRange { least, greatest }
    }

    /// The rights that each of its sets has.
    pub fn least(&self) -> Rights
        ensures { result ≡ self.now.least }
    {
        self.least
    }

    /// The rights that some set of it has.
    pub fn greatest(&self) -> Rights
        ensures { result ≡ self.now.greatest }
    {
        self.greatest
    }
}

impl FcntlsRange {
    /// The sets between these.
    pub fn new(least: Fcntls, greatest: Fcntls) -> FcntlsRange
        requires nested { is_within least.0 greatest.0 ≡ true }
        requires known { is_within greatest.0 all_commands ≡ true }
        ensures least { result.least ≡ least }
        ensures greatest { result.greatest ≡ greatest }
    {
        FcntlsRange { least, greatest }
    }

    /// The commands that each of its sets has.
    pub fn least(&self) -> Fcntls
        ensures { result ≡ self.now.least }
    {
        self.least
    }

    /// The commands that some set of it has.
    pub fn greatest(&self) -> Fcntls
        ensures { result ≡ self.now.greatest }
    {
        self.greatest
    }
}

impl Held {
    ghost use Rattle.certificate.specs.Views.{held_of, target_of};

    /// The bound of a descriptor of this, with rights and fcntl commands in these ranges.
    pub fn new(target: Target, rights: RightsRange, fcntls: FcntlsRange) -> Held
        ensures { held_of result ≡ record {
          target = target_of target;
          least = rights.least.0;
          greatest = rights.greatest.0;
          least_fcntls = fcntls.least.0;
          greatest_fcntls = fcntls.greatest.0;
        } }
    {
        Held {
            target,
            rights,
            fcntls,
        }
    }

    /// What the descriptor is of.
    pub fn target(&self) -> Target
        ensures { target_of result ≡ (held_of self.now).target }
    {
        self.target
    }

    /// The rights that it may have.
    pub fn rights(&self) -> RightsRange
        ensures { result ≡ self.now.rights }
    {
        self.rights
    }

    /// The fcntl commands that it may have.
    pub fn fcntls(&self) -> FcntlsRange
        ensures { result ≡ self.now.fcntls }
    {
        self.fcntls
    }
}

impl Slot {
    ghost use Rattle.certificate.specs.Bounds.{held_in};
    ghost use Rattle.certificate.specs.Lines.{is_closed};
    ghost use Rattle.certificate.specs.Views.{held_of, slot_of};

    /// Whether no descriptor has it.
    pub fn is_closed(&self) -> bool
        ensures { result ≡ is_closed (slot_of self.now) }
    {
        match self {
            Slot::Closed => true,
            Slot::Open(_) | Slot::Maybe(_) => false,
        }
    }

    /// What it holds where it may be open.
    pub fn held(&self) -> Option<Held>
        ensures { option_map held_of result ≡ held_in (slot_of self.now) }
    {
        match self {
            Slot::Closed => None,
            Slot::Open(held) | Slot::Maybe(held) => Some(*held),
        }
    }
}

impl Bound {
    ghost use Rattle.std.specs.Prelude.{length, map, slice_set};
    ghost use Rattle.certificate.specs.Bounds.{interval, slot, with_interval, with_slot};
    ghost use Rattle.certificate.specs.Growth.{open_bound};
    ghost use Rattle.certificate.specs.Views.{bound_of, interval_of, mode_of, slot_of};

    /// The bound with this mode, these registers and these slots.
    pub fn new(
        mode: ModeBound,
        registers: [Interval; REGISTERS],
        slots: [Slot; MAX_DESCRIPTORS],
    ) -> Bound
        ensures { bound_of result ≡ record {
          mode = mode_of mode;
          registers = map interval_of registers;
          slots = map slot_of slots;
        } }
    {
        Bound {
            mode,
            registers,
            slots,
        }
    }

    /// The bound of a block that begins: full registers and closed slots.
    pub fn begins(mode: ModeBound) -> Bound
        ensures { bound_of result ≡ open_bound (mode_of mode) }
    {
        Bound {
            mode,
            registers: [Interval::FULL; REGISTERS],
            slots: [Slot::Closed; MAX_DESCRIPTORS],
        }
    }

    /// The process's mode.
    pub fn mode(&self) -> ModeBound
        ensures { mode_of result ≡ (bound_of self.now).mode }
    {
        self.mode
    }

    /// The intervals of its registers.
    pub fn registers(&self) -> &[Interval]
        ensures registers { map interval_of result.now ≡ (bound_of self.now).registers }
        ensures eight { length result.now ≡ 8 }
    {
        &self.registers
    }

    /// What the numbers of its table may be.
    pub fn slots(&self) -> &[Slot]
        ensures slots { map slot_of result.now ≡ (bound_of self.now).slots }
        ensures sixteen { length result.now ≡ 16 }
    {
        &self.slots
    }

    /// The interval of a register; all values of one that isn't there.
    pub fn interval(&self, register: u8) -> Interval
        ensures { interval_of result ≡ interval (bound_of self.now).registers register }
    {
        match self.registers.get(register as usize) {
            Some(interval) => *interval,
            None => Interval::FULL,
        }
    }

    /// What a number of the table may be; one past the last is closed.
    pub fn slot(&self, number: u32) -> Slot
        ensures { slot_of result ≡ slot (bound_of self.now).slots number }
    {
        match self.slots.get(number as usize) {
            Some(slot) => *slot,
            None => Slot::Closed,
        }
    }

    /// The same bound with another mode.
    pub fn with_mode(&self, mode: ModeBound) -> Bound
        ensures { bound_of result ≡ record (bound_of self.now) { mode = mode_of mode } }
    {
        Bound { mode, ..*self }
    }

    /// The same bound with a register in another interval.
    pub fn with_interval(&self, register: u8, interval: Interval) -> Bound
        ensures { bound_of result
            ≡ with_interval (bound_of self.now) register (interval_of interval) }
    {
        Bound {
            registers: self.registers_with(register, interval),
            ..*self
        }
    }

    /// Its registers, one of them in another interval.
    pub(crate) fn registers_with(&self, register: u8, interval: Interval) -> [Interval; REGISTERS]
        ensures { map interval_of result
            ≡ slice_set (bound_of self.now).registers register (interval_of interval) }
    {
        let mut registers = self.registers;
        let register = register as usize;
        if register < registers.len() {
            registers[register] = interval;
        }
        registers
    }

    /// The same bound with a number of the table being otherwise.
    pub fn with_slot(&self, number: u8, slot: Slot) -> Bound
        ensures { bound_of result ≡ with_slot (bound_of self.now) number (slot_of slot) }
    {
        let mut next = *self;
        let number = number as usize;
        if number < next.slots.len() {
            next.slots[number] = slot;
        }
        next
    }
}
