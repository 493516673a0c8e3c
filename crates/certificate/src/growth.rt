//! How a certificate grows by a line: whether there is room for it, whether it stands in its place, and what it adds.

ghost use Rattle.std.specs.Prelude.{◌≡◌, ◌≤◌, ◌∷◌, ◌++◌, [], Some, false, is_some, length, map, nat_lt, option_map, true, IfErr, MatchOption, OnErr, OnOk};
ghost use Rattle.std.specs.List.{flat_map, list_all, list_any};
ghost use Rattle.std.specs.Str.{bytes_eq};
ghost use Rattle.rights.specs.Limits.{most_programs};
ghost use Rattle.certificate.specs.Order.{same_class};
ghost use Rattle.certificate.specs.Bounds.{Version, with_interval, with_slot};
ghost use Rattle.certificate.specs.Lines.{is_closed, is_full};
ghost use Rattle.certificate.specs.Growth.{above_authorities, above_blocks, above_ceilings, above_channels, above_ends, all_classes, all_from, classes_held, classes_in, classes_in_line};
ghost use Rattle.certificate.specs.Growth.{classes_of_ends, distinct, may_bound_grant, may_bound_register, may_bound_slot, may_hold_end, most_classes};
ghost use Rattle.certificate.specs.Growth.{on_last, open_authority, open_bound, programs_in_line, programs_of_channel, programs_of_class, programs_of_held};
ghost use Rattle.certificate.specs.Growth.{stands, with_ceiling, with_held_end, with_last, with_line};
ghost use Rattle.certificate.specs.Room.{listed_with};
ghost use Rattle.certificate.specs.CountViews.{programs_listed};
ghost use Rattle.certificate.specs.Views.{authorities_of, ceiling_of, certificate_with, channel_of, channels_of, class_of, held_end_of, held_of};
ghost use Rattle.certificate.specs.Views.{interval_of, line_of, mode_of, point_of, points_of, slot_of};
ghost use Rattle.texts.specs.Views.{name_of};
ghost use Rattle.certificate.specs.declared.lines.Refusal.TheVariants as refusal;

use crate::authorities::{Authority, Ceiling, End};
use crate::bounds::{Held, Interval, ModeBound, Slot, Target};
use crate::classes::{Class, compare_point};
use crate::lines::{Channel, Line, Refusal, add};
use crate::points::{NumberedSlot, Point};
use crate::program_names::ProgramNames;
use texts::Name;

/// The classes that a certificate's channels and the ends of its authorities may be of.
const MAX_CLASSES: usize = 32;

/// The names with that of a class's program, if it has one.
fn with_class(programs: &ProgramNames, class: Class) -> Option<ProgramNames>
    ensures { option_map programs_listed result
        ≡ listed_with bytes_eq most_programs (programs_listed programs.now) (programs_of_class (class_of class)) }
{
    match class {
        Class::Initial(_) => Some(*programs),
        Class::MadeAt(program, _) => programs.with(&program),
    }
}

/// The names with that of the program that made the pairs of which a descriptor is an end.
fn with_held(programs: &ProgramNames, held: Option<Held>) -> Option<ProgramNames>
    ensures { option_map programs_listed result
        ≡ listed_with bytes_eq most_programs (programs_listed programs.now) (programs_of_held (option_map held_of held)) }
{
    let Some(held) = held else {
        return Some(*programs);
    };
    if let Target::Socket(class, _) = held.target {
        return with_class(programs, class);
    }
    Some(*programs)
}

/// The names with those of the programs that a channel names.
fn with_channel(programs: &ProgramNames, channel: &Channel) -> Option<ProgramNames>
    ensures { option_map programs_listed result
        ≡ listed_with bytes_eq most_programs (programs_listed programs.now) (programs_of_channel (channel_of channel.now)) }
{
    match with_class(programs, channel.class) {
        Some(programs) => with_held(&programs, channel.sends),
        None => None,
    }
}

/// The programs that are named once the line is taken, if there is room for their names.
fn programs_with(programs: &ProgramNames, line: &Line) -> Option<ProgramNames>
    ensures { option_map programs_listed result
        ≡ listed_with bytes_eq most_programs (programs_listed programs.now) (programs_in_line (line_of line.now)) }
{
    match line {
        Line::Block { program, .. } => programs.with(program),
        Line::Register { .. } => Some(*programs),
        Line::Slot { slot, .. } => with_held(programs, slot.held()),
        Line::Channel(channel) => with_channel(programs, channel),
        Line::Authority(program) => programs.with(program),
        Line::Ceiling(_) => Some(*programs),
        Line::Hold(held) => with_class(programs, held.class),
    }
}

/// Whether a descriptor is of an end whose pairs a program made, which is named then.
fn names_maker(held: &Held) -> bool
    ensures { result ≡ false → programs_of_held (Some (held_of held.now)) ≡ [] }
{
    matches!(held.target, Target::Socket(Class::MadeAt(..), _))
}

/// Whether a line may name a program.
fn names_program(line: &Line) -> bool
    ensures { result ≡ false → programs_in_line (line_of line.now) ≡ [] }
{
    match line {
        Line::Register { .. } | Line::Ceiling(_) => false,
        Line::Slot { slot, .. } => match slot {
            Slot::Closed => false,
            Slot::Open(held) | Slot::Maybe(held) => names_maker(held),
        },
        Line::Block { .. } | Line::Channel(_) | Line::Authority(_) | Line::Hold(_) => true,
    }
}

/// Whether there is room for the names of the programs that a line names.
pub(crate) fn has_room(programs: &ProgramNames, line: &Line) -> bool
    ensures { result ≡ is_some (listed_with bytes_eq most_programs (programs_listed programs.now) (programs_in_line (line_of line.now))) }
{
    !names_program(line) || programs_with(programs, line).is_some()
}

/// Adds the names of the programs that a line names, for which there is room.
pub(crate) fn add_programs(programs: &mut ProgramNames, line: &Line)
    requires { is_some (listed_with bytes_eq most_programs (programs_listed programs.old) (programs_in_line (line_of line.now))) ≡ true }
    ensures { Some (programs_listed programs.new) ≡ listed_with bytes_eq most_programs (programs_listed programs.old) (programs_in_line (line_of line.now)) }
{
    if !names_program(line) {
        return;
    }
    if let Some(more) = programs_with(programs, line) {
        *programs = more;
    }
}

/// Whether a channel is of this class.
fn has_class(channels: &[Channel], class: Class) -> bool
    ensures { result ≡ list_any (λ y. same_class y (class_of class)) (classes_in (channels_of channels.now)) }
{
    match channels {
        [] => false,
        [first, rest @ ..] => first.class.is(&class) || has_class(rest, class),
    }
}

/// Whether an end is of this class.
fn is_class_of_ends(holds: &[End], class: Class) -> bool
    ensures { result ≡ list_any (λ y. same_class y (class_of class)) (classes_of_ends (map held_end_of holds.now)) }
{
    match holds {
        [] => false,
        [first, rest @ ..] => first.class.is(&class) || is_class_of_ends(rest, class),
    }
}

/// Whether an authority has an end of this class.
fn is_class_held(authorities: &[Authority], class: Class) -> bool
    ensures { result ≡ list_any (λ y. same_class y (class_of class)) (flat_map classes_held (authorities_of authorities.now)) }
{
    match authorities {
        [] => false,
        [first, rest @ ..] => is_class_of_ends(&first.holds, class) || is_class_held(rest, class),
    }
}

/// The class that is counted where the line is taken, if one is.
fn counted_class(line: &Line) -> Option<Class>
    ensures { MatchOption result (classes_in_line (line_of line.now) ≡ []) (λ class. classes_in_line (line_of line.now) ≡ class_of class ∷ []) }
{
    match line {
        Line::Channel(channel) => Some(channel.class),
        Line::Hold(held) => Some(held.class),
        Line::Block { .. }
        | Line::Register { .. }
        | Line::Slot { .. }
        | Line::Authority(_)
        | Line::Ceiling(_) => None,
    }
}

/// How many classes the channels and the ends of authorities are of once the line is taken, if they are no more than 32.
pub(crate) fn classes_with(
    classes: usize,
    channels: &[Channel],
    authorities: &[Authority],
    line: &Line,
) -> Option<usize>
    requires counted { classes ≡ length (distinct same_class (all_classes (channels_of channels.now) (authorities_of authorities.now))) }
    requires few { classes ≤ 32 }
    ensures { result ≡ option_map length (listed_with same_class most_classes
        (distinct same_class (all_classes (channels_of channels.now) (authorities_of authorities.now))) (classes_in_line (line_of line.now))) }
{
    let Some(class) = counted_class(line) else {
        return Some(classes);
    };
    if has_class(channels, class) || is_class_held(authorities, class) {
        return Some(classes);
    }
    if classes == MAX_CLASSES {
        return None;
    }
    Some(classes + 1)
}

/// Whether the block of a point may stand behind these.
fn is_above_blocks(points: &[Point], program: &Name, point: u8) -> bool
    ensures { result ≡ above_blocks (points_of points.now) (name_of program.now) point }
{
    match points.split_last() {
        None => true,
        Some((last, _)) => {
            compare_point(
                &last.program,
                last.point,
                program.as_bytes(),
                point as usize,
            )
            .is_lt()
        }
    }
}

/// Whether a channel may stand behind these.
fn is_above_channels(channels: &[Channel], channel: &Channel) -> bool
    ensures { result ≡ above_channels (channels_of channels.now) (channel_of channel.now) }
{
    match channels.split_last() {
        None => true,
        Some((last, _)) => last.compare(channel).is_lt(),
    }
}

/// Whether all intervals from this one on are full.
fn are_full(registers: &[Interval], from: usize) -> bool
    ensures { result ≡ all_from is_full from (map interval_of registers.now) }
{
    let mut at = from;
    while at < registers.len() {
        if !registers[at].is_full() {
            return false;
        }
        at += 1;
    }
    true
}

/// Whether all slots from this one on are closed.
fn are_closed(slots: &[Slot], from: usize) -> bool
    ensures { result ≡ all_from is_closed from (map slot_of slots.now) }
{
    let mut at = from;
    while at < slots.len() {
        if !slots[at].is_closed() {
            return false;
        }
        at += 1;
    }
    true
}

/// Whether the numbers of all these are below one.
fn are_below(kept: &[NumberedSlot], number: u8) -> bool
    ensures { result ≡ list_all (λ slot. nat_lt slot.number number) kept.now }
{
    match kept {
        [] => true,
        [first, rest @ ..] => first.number < number && are_below(rest, number),
    }
}

/// Whether all slots of a point from this number on are closed: so they are where no number is kept that isn't below it.
fn is_closed_from(point: &Point, number: u8) -> bool
    ensures { result ≡ all_from is_closed number (point_of point.now).bound.slots }
{
    are_below(&point.slots, number) || are_closed(point.bound().slots(), number as usize)
}

/// Whether a register of the last block may be bounded.
fn may_bound_register(points: &[Point], register: u8) -> bool
    ensures { result ≡ may_bound_register (points_of points.now) register }
{
    match points.split_last() {
        None => false,
        Some((last, _)) => {
            are_full(&last.registers, register as usize) && is_closed_from(last, 0)
        }
    }
}

/// Whether a slot of the last block may be bounded.
fn may_bound_slot(points: &[Point], number: u8) -> bool
    ensures { result ≡ may_bound_slot (points_of points.now) number }
{
    match points.split_last() {
        None => false,
        Some((last, _)) => is_closed_from(last, number),
    }
}

/// Whether the authority of a program may stand behind these.
fn is_above_authorities(authorities: &[Authority], program: &Name) -> bool
    ensures { result ≡ above_authorities (authorities_of authorities.now) (name_of program.now) }
{
    match authorities.split_last() {
        None => true,
        Some((last, _)) => last.program.as_bytes().cmp(program.as_bytes()).is_lt(),
    }
}

/// Whether the ceiling of a grant may stand behind these.
fn is_above_ceilings(ceilings: &[Ceiling], grant: &Name) -> bool
    ensures { result ≡ above_ceilings (map ceiling_of ceilings.now) (name_of grant.now) }
{
    match ceilings.split_last() {
        None => true,
        Some((last, _)) => last.grant.as_bytes().cmp(grant.as_bytes()).is_lt(),
    }
}

/// Whether an end may stand behind these.
fn is_above_ends(holds: &[End], held: &End) -> bool
    ensures { result ≡ above_ends (map held_end_of holds.now) (held_end_of held.now) }
{
    match holds.split_last() {
        None => true,
        Some((last, _)) => last.compare(held).is_lt(),
    }
}

/// Whether a grant of the last authority may be bounded.
fn may_bound_grant(authorities: &[Authority], grant: &Name) -> bool
    ensures { result ≡ may_bound_grant (authorities_of authorities.now) (name_of grant.now) }
{
    match authorities.split_last() {
        None => false,
        Some((last, _)) => last.holds.is_empty() && is_above_ceilings(&last.ceilings, grant),
    }
}

/// Whether the last authority may have this end.
fn may_hold_end(authorities: &[Authority], held: &End) -> bool
    ensures { result ≡ may_hold_end (authorities_of authorities.now) (held_end_of held.now) }
{
    match authorities.split_last() {
        None => false,
        Some((last, _)) => is_above_ends(&last.holds, held),
    }
}

/// Whether the line stands in its place behind those that made these points, channels and authorities, in any version.
pub(crate) fn stands(
    points: &[Point],
    channels: &[Channel],
    authorities: &[Authority],
    line: &Line,
) -> bool
    ensures { (version : Version) → result ≡ stands (certificate_with version points.now channels.now authorities.now) (line_of line.now) }
{
    let in_blocks = channels.is_empty() && authorities.is_empty();
    match line {
        Line::Block { program, point, .. } => in_blocks && is_above_blocks(points, program, *point),
        Line::Register { register, .. } => in_blocks && may_bound_register(points, *register),
        Line::Slot { number, .. } => in_blocks && may_bound_slot(points, *number),
        Line::Channel(channel) => authorities.is_empty() && is_above_channels(channels, channel),
        Line::Authority(program) => is_above_authorities(authorities, program),
        Line::Ceiling(ceiling) => may_bound_grant(authorities, &ceiling.grant),
        Line::Hold(held) => may_hold_end(authorities, held),
    }
}

/// Bounds a register of the last block.
fn bound_register(points: &mut [Point], register: u8, interval: Interval)
    ensures { points_of points.new
        ≡ on_last (λ b. with_interval b register (interval_of interval)) (points_of points.old) }
{
    if let Some(last) = points.last_mut() {
        last.bound_register(register, interval);
    }
}

/// Bounds a slot of the last block. A refused growth changes nothing.
fn bound_slot(points: &mut [Point], number: u8, slot: Slot) -> Result<(), Refusal>
    ensures ok { OnOk result (points_of points.new ≡ on_last (λ b. with_slot b number (slot_of slot)) (points_of points.old)) }
    ensures err { OnErr result (points_of points.new ≡ points_of points.old) }
    ensures memory { IfErr result (λ reason. reason ≡ refusal.Memory) }
{
    match points.last_mut() {
        Some(last) => last.bound_slot(number, slot),
        None => Ok(()),
    }
}

/// Adds a ceiling to the last authority. A refused growth changes nothing.
fn bound_grant(authorities: &mut [Authority], ceiling: Ceiling) -> Result<(), Refusal>
    ensures ok { OnOk result (authorities_of authorities.new ≡ with_last (with_ceiling (ceiling_of ceiling)) (authorities_of authorities.old)) }
    ensures err { OnErr result (authorities_of authorities.new ≡ authorities_of authorities.old) }
    ensures memory { IfErr result (λ reason. reason ≡ refusal.Memory) }
{
    match authorities.last_mut() {
        Some(last) => last.bound_grant(ceiling),
        None => Ok(()),
    }
}

/// Adds an end to the last authority. A refused growth changes nothing.
fn hold_end(authorities: &mut [Authority], held: End) -> Result<(), Refusal>
    ensures ok { OnOk result (authorities_of authorities.new ≡ with_last (with_held_end (held_end_of held)) (authorities_of authorities.old)) }
    ensures err { OnErr result (authorities_of authorities.new ≡ authorities_of authorities.old) }
    ensures memory { IfErr result (λ reason. reason ≡ refusal.Memory) }
{
    match authorities.last_mut() {
        Some(last) => last.hold_end(held),
        None => Ok(()),
    }
}

/// Adds a point with full registers and closed slots. A refused growth changes nothing.
fn push_point(
    points: &mut Vec<Point>,
    program: Name,
    point: u8,
    mode: ModeBound,
) -> Result<(), Refusal>
    ensures ok { OnOk result (points_of points.new.items ≡ points_of points.old.items
        ++ (record { program = name_of program; point = point; bound = open_bound (mode_of mode) }) ∷ []) }
    ensures err { OnErr result (points_of points.new.items ≡ points_of points.old.items) }
    ensures memory { IfErr result (λ reason. reason ≡ refusal.Memory) }
{
    let alloc = *points.allocator();
    add(points, Point::begins(alloc, program, point, mode))
}

/// Adds a channel. A refused growth changes nothing.
fn push_channel(channels: &mut Vec<Channel>, channel: Channel) -> Result<(), Refusal>
    ensures ok { OnOk result (channels_of channels.new.items ≡ channels_of channels.old.items ++ channel_of channel ∷ []) }
    ensures err { OnErr result (channels_of channels.new.items ≡ channels_of channels.old.items) }
    ensures memory { IfErr result (λ reason. reason ≡ refusal.Memory) }
{
    add(channels, channel)
}

/// Adds an authority that holds nothing. A refused growth changes nothing.
fn push_authority(authorities: &mut Vec<Authority>, program: Name) -> Result<(), Refusal>
    ensures ok { OnOk result (authorities_of authorities.new.items ≡ authorities_of authorities.old.items ++ open_authority (name_of program) ∷ []) }
    ensures err { OnErr result (authorities_of authorities.new.items ≡ authorities_of authorities.old.items) }
    ensures memory { IfErr result (λ reason. reason ≡ refusal.Memory) }
{
    let alloc = *authorities.allocator();
    add(authorities, Authority::begins(alloc, program))
}

/// Adds what the line says, in any version. A refused growth changes nothing.
pub(crate) fn extend(
    points: &mut Vec<Point>,
    channels: &mut Vec<Channel>,
    authorities: &mut Vec<Authority>,
    line: &Line,
) -> Result<(), Refusal>
    ensures ok { OnOk result ((version : Version) → certificate_with version points.new.items channels.new.items authorities.new.items
        ≡ with_line (certificate_with version points.old.items channels.old.items authorities.old.items) (line_of line.now)) }
    ensures err { OnErr result ((version : Version) → certificate_with version points.new.items channels.new.items authorities.new.items
        ≡ certificate_with version points.old.items channels.old.items authorities.old.items) }
    ensures memory { IfErr result (λ reason. reason ≡ refusal.Memory) }
{
    match line {
        Line::Block {
            program,
            point,
            mode,
        } => push_point(points, *program, *point, *mode),
        Line::Register { register, interval } => {
            bound_register(points.as_mut_slice(), *register, *interval);
            Ok(())
        }
        Line::Slot { number, slot } => bound_slot(points.as_mut_slice(), *number, *slot),
        Line::Channel(channel) => push_channel(channels, *channel),
        Line::Authority(program) => push_authority(authorities, *program),
        Line::Ceiling(ceiling) => bound_grant(authorities.as_mut_slice(), *ceiling),
        Line::Hold(held) => hold_end(authorities.as_mut_slice(), *held),
    }
}
