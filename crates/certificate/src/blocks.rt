//! How a certificate grows by blocks, by channels and by authorities.

ghost use Rattle.std.specs.Prelude.{◌≡◌, ◌+◌, ◌≤◌, ◌<◌, length, map, true, false};
ghost use Rattle.certificate.specs.Bounds.{has_authorities};
ghost use Rattle.certificate.specs.Lines.{Begins_authority, Bounds_channel, Bounds_grant, Bounds_register, Bounds_slot, Holds_end, authority_lines, block_lines, is_closed, is_full, is_line};
ghost use Rattle.certificate.specs.Lines.{is_of_version, register_lines, slot_lines};
ghost use Rattle.certificate.specs.Told.{are_told_authorities, are_told_ceilings, told_bound, told_channel, told_slot};
ghost use Rattle.certificate.specs.Views.{authorities_of, authority_of, bound_of, ceiling_of, channel_of, channels_of, held_end_of, interval_of, line_of, slot_of, version_of};
ghost use Rattle.texts.specs.Views.{name_of};
ghost use Rattle.certificate.specs.Growths.{grown, grown_with};
ghost use Rattle.certificate.specs.GrowthViews.{Grows};

use crate::authorities::{Authority, Ceiling, End};
use crate::bounds::{Bound, Interval, Slot};
use crate::certs::{Cert, Version};
use crate::lines::{Channel, Line, Refusal};
use texts::Name;

/// The line of a register that isn't full.
fn register_line(register: u8, interval: Interval) -> Line
    requires number { register < 8 }
    requires bounded { is_full (interval_of interval) ≡ false }
    ensures value { line_of result ≡ Bounds_register register (interval_of interval) }
    ensures valid { is_line (line_of result) ≡ true }
{
    Line::Register { register, interval }
}

/// The line of a slot that isn't closed, as this version tells it.
fn slot_line(version: Version, number: u8, slot: Slot) -> Line
    requires few { number < 16 }
    requires open { is_closed (slot_of slot) ≡ false }
    ensures value { line_of result ≡ Bounds_slot number (told_slot (version_of version) (slot_of slot)) }
    ensures valid { is_line (line_of result) ≡ true }
    ensures version { is_of_version (version_of version) (line_of result) ≡ true }
{
    Line::Slot {
        number,
        slot: slot.told_in(version),
    }
}

/// Adds the registers from a number on that aren't full.
#[tactic(auto, unfolding(crate::specs::Lines::register_lines, crate::specs::Growths::grown))]
fn push_registers(cert: &mut Cert, number: u8, registers: &[Interval]) -> Result<(), Refusal>
    requires { number + length registers.now ≤ 8 }
    ensures grows { Grows result cert.new (grown (register_lines number (map interval_of registers.now)) cert.old) }
    ensures version { cert.new.version ≡ cert.old.version }
{
    match registers {
        [] => Ok(()),
        [first, rest @ ..] => {
            if !first.is_full() {
                cert.push(&register_line(number, *first))?;
            }
            push_registers(cert, number + 1, rest)
        }
    }
}

/// Adds the slots from a number on that aren't closed, as the certificate's version tells them.
#[tactic(auto, unfolding(crate::specs::Lines::slot_lines, crate::specs::Growths::grown))]
fn push_slots(cert: &mut Cert, number: u8, slots: &[Slot]) -> Result<(), Refusal>
    requires { number + length slots.now ≤ 16 }
    ensures { Grows result cert.new (grown (slot_lines number (map (told_slot cert.old.version) (map slot_of slots.now))) cert.old) }
{
    match slots {
        [] => Ok(()),
        [first, rest @ ..] => {
            if !first.is_closed() {
                cert.push(&slot_line(cert.version(), number, *first))?;
            }
            push_slots(cert, number + 1, rest)
        }
    }
}

/// Adds the block of a point: its line, those of its registers that aren't full, and those of its slots that aren't closed, as the
/// certificate's version tells them: before version 4 it leaves out which further rights a descriptor has, and has it be any. Its
/// errors are those of `Cert::push`; after one of them the certificate may have some of the lines. (own)
#[tactic(auto, using(crate::proofs::Growths::grown_append, crate::proofs::ToldLaws::bound_by_slots), unfolding(crate::specs::Growths::grown))]
pub fn push_block(cert: &mut Cert, program: &Name, point: u8, bound: &Bound) -> Result<(), Refusal>
    ensures { Grows result cert.new (grown (block_lines (record { program = name_of program.now; point = point; bound = told_bound cert.old.version (bound_of bound.now) })) cert.old) }
{
    cert.push(&Line::Block {
        program: *program,
        point,
        mode: bound.mode(),
    })?;
    push_registers(cert, 0, bound.registers())?;
    push_slots(cert, 0, bound.slots())
}

/// The line of a channel, as this version tells it.
fn channel_line(version: Version, channel: Channel) -> Line
    ensures value { line_of result ≡ Bounds_channel (told_channel (version_of version) (channel_of channel)) }
    ensures valid { is_line (line_of result) ≡ true }
    ensures version { is_of_version (version_of version) (line_of result) ≡ true }
{
    Line::Channel(channel.told_in(version))
}

/// Adds channels, as the certificate's version tells them: before version 4 it leaves out which further rights the descriptors have
/// that they send, and has them be any. Its errors are those of `Cert::push`; after one of them the certificate may have some of
/// the channels. (own)
#[tactic(auto, unfolding(crate::specs::Growths::grown))]
pub fn push_channels(cert: &mut Cert, channels: &[Channel]) -> Result<(), Refusal>
    ensures { Grows result cert.new (grown (map Bounds_channel (map (told_channel cert.old.version) (channels_of channels.now))) cert.old) }
{
    match channels {
        [] => Ok(()),
        [first, rest @ ..] => {
            cert.push(&channel_line(cert.version(), *first))?;
            push_channels(cert, rest)
        }
    }
}

/// The line of a ceiling.
fn ceiling_line(ceiling: Ceiling) -> Line
    ensures value { line_of result ≡ Bounds_grant (ceiling_of ceiling) }
    ensures valid { is_line (line_of result) ≡ true }
{
    Line::Ceiling(ceiling)
}

/// Adds ceilings to the last authority.
#[tactic(auto, unfolding(crate::specs::Growths::grown))]
fn push_ceilings(cert: &mut Cert, ceilings: &[Ceiling]) -> Result<(), Refusal>
    requires version { has_authorities cert.old.version ≡ true }
    requires told { are_told_ceilings cert.old.version (map ceiling_of ceilings.now) ≡ true }
    ensures grows { Grows result cert.new (grown (map Bounds_grant (map ceiling_of ceilings.now)) cert.old) }
    ensures version { cert.new.version ≡ cert.old.version }
{
    match ceilings {
        [] => Ok(()),
        [first, rest @ ..] => {
            cert.push(&ceiling_line(*first))?;
            push_ceilings(cert, rest)
        }
    }
}

/// The line of an end.
fn end_line(held: End) -> Line
    ensures value { line_of result ≡ Holds_end (held_end_of held) }
    ensures valid { is_line (line_of result) ≡ true }
{
    Line::Hold(held)
}

/// Adds ends to the last authority.
#[tactic(auto, unfolding(crate::specs::Growths::grown))]
fn push_ends(cert: &mut Cert, holds: &[End]) -> Result<(), Refusal>
    requires { has_authorities cert.old.version ≡ true }
    ensures grows { Grows result cert.new (grown (map Holds_end (map held_end_of holds.now)) cert.old) }
    ensures version { cert.new.version ≡ cert.old.version }
{
    match holds {
        [] => Ok(()),
        [first, rest @ ..] => {
            cert.push(&end_line(*first))?;
            push_ends(cert, rest)
        }
    }
}

/// Adds the authority of a program: its line, its ceilings and its ends.
#[tactic(auto, using(crate::proofs::Growths::grown_append), unfolding(crate::specs::Growths::grown))]
fn push_authority(cert: &mut Cert, authority: &Authority) -> Result<(), Refusal>
    requires version { has_authorities cert.old.version ≡ true }
    requires told { are_told_ceilings cert.old.version (authority_of authority.now).ceilings ≡ true }
    ensures grows { Grows result cert.new (grown (authority_lines (authority_of authority.now)) cert.old) }
    ensures version { cert.new.version ≡ cert.old.version }
{
    cert.push(&Line::Authority(authority.program))?;
    push_ceilings(cert, &authority.ceilings)?;
    push_ends(cert, &authority.holds)
}

/// Adds authorities to a certificate of version 3 or 4; the ceilings of one of version 3 have no further right. Its errors are those
/// of `Cert::push`; after one of them the certificate may have some of their lines. (own)
#[tactic(auto, unfolding(crate::specs::Growths::grown_with))]
pub fn push_authorities(cert: &mut Cert, authorities: &[Authority]) -> Result<(), Refusal>
    requires version { has_authorities cert.old.version ≡ true }
    requires told { are_told_authorities cert.old.version (authorities_of authorities.now) ≡ true }
    ensures { Grows result cert.new (grown_with (authorities_of authorities.now) cert.old) }
{
    match authorities {
        [] => Ok(()),
        [first, rest @ ..] => {
            push_authority(cert, first)?;
            push_authorities(cert, rest)
        }
    }
}
