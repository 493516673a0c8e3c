//! The points of a certificate, each with its bound.

ghost use Rattle.std.specs.Prelude.{◌≡◌, map, slice_set};
ghost use Rattle.certificate.specs.Views.{slot_of, slots_with};

use crate::bounds::{Bound, Interval, ModeBound, Slot};
use crate::lines::{Refusal, add};
use rights::limits::{MAX_DESCRIPTORS, REGISTERS};
use std::alloc::Global;
use texts::Name;

/// A number of a process's table, and what it may be.
#[derive(Clone, Copy)]
pub(crate) struct NumberedSlot {
    pub(crate) number: u8,
    pub(crate) slot: Slot,
}

/// The bound of a point of the program of a name. Of its slots those alone are kept that may be open, in the order in which they
/// were bounded, so that a point takes memory for what was said of it and no more.
#[derive(Drop)]
pub struct Point {
    pub(crate) program: Name,
    pub(crate) point: u8,
    pub(crate) mode: ModeBound,
    pub(crate) registers: [Interval; REGISTERS],
    pub(crate) slots: Vec<NumberedSlot>,
}

/// Has a number be what it may be; one past the last changes nothing.
fn put(slots: &mut [Slot], kept: &NumberedSlot)
    ensures { map slot_of slots.new ≡ slice_set (map slot_of slots.old) kept.now.number (slot_of kept.now.slot) }
{
    let number = kept.number as usize;
    if number < slots.len() {
        slots[number] = kept.slot;
    }
}

/// Has these numbers be what they may be, one after another.
#[tactic(auto, unfolding(crate::specs::Views::slots_with))]
fn fill(slots: &mut [Slot], kept: &[NumberedSlot])
    ensures { map slot_of slots.new ≡ slots_with (map slot_of slots.old) kept.now }
{
    match kept {
        [] => {}
        [first, rest @ ..] => {
            put(slots, first);
            fill(slots, rest);
        }
    }
}

impl Point {
    ghost use Rattle.std.specs.Prelude.{IfErr, OnErr, OnOk};
    ghost use Rattle.certificate.specs.Bounds.{with_interval, with_slot};
    ghost use Rattle.certificate.specs.Growth.{open_bound};
    ghost use Rattle.certificate.specs.Views.{bound_of, interval_of, mode_of, point_of};
    ghost use Rattle.texts.specs.Views.{name_of};
    ghost use Rattle.certificate.specs.declared.lines.Refusal.TheVariants as refusal;

    /// The point with which a block begins: full registers and closed slots. Takes no memory.
    pub(crate) fn begins(alloc: Global, program: Name, point: u8, mode: ModeBound) -> Point
        ensures { point_of result
            ≡ record { program = name_of program; point = point; bound = open_bound (mode_of mode) } }
    {
        Point {
            program,
            point,
            mode,
            registers: [Interval::FULL; REGISTERS],
            slots: Vec::new(alloc),
        }
    }

    /// Bounds a register.
    pub(crate) fn bound_register(&mut self, register: u8, interval: Interval)
        ensures { point_of self.new
            ≡ record (point_of self.old) { bound = with_interval (point_of self.old).bound register (interval_of interval) } }
    {
        let register = register as usize;
        if register < self.registers.len() {
            self.registers[register] = interval;
        }
    }

    /// Bounds a slot. A refused growth changes nothing.
    pub(crate) fn bound_slot(&mut self, number: u8, slot: Slot) -> Result<(), Refusal>
        ensures ok { OnOk result (point_of self.new
            ≡ record (point_of self.old) { bound = with_slot (point_of self.old).bound number (slot_of slot) }) }
        ensures err { OnErr result (point_of self.new ≡ point_of self.old) }
        ensures memory { IfErr result (λ reason. reason ≡ refusal.Memory) }
    {
        add(&mut self.slots, NumberedSlot { number, slot })
    }

    /// The name of its program.
    pub fn program(&self) -> &Name
        ensures { name_of result.now ≡ (point_of self.now).program }
    {
        &self.program
    }

    /// Its number in the program.
    pub fn point(&self) -> u8
        ensures { result ≡ (point_of self.now).point }
    {
        self.point
    }

    /// The process's mode there.
    pub fn mode(&self) -> ModeBound
        ensures { mode_of result ≡ (point_of self.now).bound.mode }
    {
        self.mode
    }

    /// The bound on the process there.
    pub fn bound(&self) -> Bound
        ensures { bound_of result ≡ (point_of self.now).bound }
    {
        let mut bound = Bound {
            mode: self.mode,
            registers: self.registers,
            slots: [Slot::Closed; MAX_DESCRIPTORS],
        };
        fill(&mut bound.slots, &self.slots);
        bound
    }
}
