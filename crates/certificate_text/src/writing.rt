//! How the text of a certificate is written. It is gathered in some room first, and handed on when that is full.

ghost use Rattle.std.specs.Prelude.{◌≡◌, ◌++◌, ◌<◌, ◌≤◌, ◌-◌, ◌^◌, ℕ, List, Ok, length, map};
ghost use Rattle.certificate.specs.Lines.{Begins_authority, Begins_block};
ghost use Rattle.certificate.specs.Views.{authorities_of, authority_of, bound_of, ceiling_of, channel_of, channels_of, held_end_of, interval_of, line_of, point_of, points_of, slot_of};
ghost use Rattle.certificate.specs.Views.{version_of};
ghost use Rattle.certificate_text.specs.Texts.{certificate_text, ended_line, first_line, end_line, line_text};
ghost use Rattle.certificate_text.specs.Readings.{certificate_of_text};
ghost use Rattle.certificate_text.specs.Pieces.{authority_text, block_text, ceiling_text, channel_text, end_text, in_order, register_text, slot_text};
ghost use Rattle.certificate_text.specs.WritingViews.{Gathers, Writes};

use crate::gathering::{Room, hand_on, make_room};
use crate::line_texts::push_line;
use certificate::{
    Authority, Bound, Ceiling, Cert, Channel, End, Interval, Line, Point, Slot, Version,
};
use rights::{Out, Stop};

/// Writes some bytes.
fn write_bytes<W: Out>(out: &mut W, room: &mut Room, bytes: &[u8]) -> Result<(), Stop>
    requires few { length bytes.now ≤ 288 }
    requires faults { W.faults out.old < 2 ^ 64 - 1 }
    ensures { Gathers result (W.taken out.old) (W.taken out.new) (W.faults out.old) (W.faults out.new) room.old room.new bytes.now }
{
    make_room(out, room)?;
    room.push(bytes);
    Ok(())
}

/// Writes a line of a certificate of this version, with its line feed.
#[tactic(auto, unfolding(crate::specs::Texts::line_text))]
fn write_line<W: Out>(
    out: &mut W,
    room: &mut Room,
    version: Version,
    line: &Line,
) -> Result<(), Stop>
    requires { W.faults out.old < 2 ^ 64 - 1 }
    ensures { Gathers result (W.taken out.old) (W.taken out.new) (W.faults out.old) (W.faults out.new) room.old room.new
        (ended_line (line_text (version_of version) (line_of line.now))) }
{
    make_room(out, room)?;
    push_line(room, version, line);
    room.push_byte(b'\n');
    Ok(())
}

/// Writes the line of a register that isn't full.
fn write_register<W: Out>(
    out: &mut W,
    room: &mut Room,
    version: Version,
    register: u8,
    interval: &Interval,
) -> Result<(), Stop>
    requires { W.faults out.old < 2 ^ 64 - 1 }
    ensures { Gathers result (W.taken out.old) (W.taken out.new) (W.faults out.old) (W.faults out.new) room.old room.new
        (register_text (version_of version) register (interval_of interval.now)) }
{
    if interval.is_full() {
        return Ok(());
    }
    write_line(
        out,
        room,
        version,
        &Line::Register {
            register,
            interval: *interval,
        },
    )
}

/// Writes the lines of registers, the first of which has this number.
fn write_registers<W: Out>(
    out: &mut W,
    room: &mut Room,
    version: Version,
    registers: &[Interval],
) -> Result<(), Stop>
    requires few { length registers.now ≤ 255 }
    requires faults { W.faults out.old < 2 ^ 64 - 1 }
    ensures { Gathers result (W.taken out.old) (W.taken out.new) (W.faults out.old) (W.faults out.new) room.old room.new
        (in_order (register_text (version_of version)) 0 (map interval_of registers.now)) }
{
    for (register, interval) in registers.iter().enumerate() {
        write_register(out, room, version, register as u8, interval)?;
    }
    Ok(())
}

/// Writes the line of a slot that isn't closed.
fn write_slot<W: Out>(
    out: &mut W,
    room: &mut Room,
    version: Version,
    number: u8,
    slot: &Slot,
) -> Result<(), Stop>
    requires { W.faults out.old < 2 ^ 64 - 1 }
    ensures { Gathers result (W.taken out.old) (W.taken out.new) (W.faults out.old) (W.faults out.new) room.old room.new
        (slot_text (version_of version) number (slot_of slot.now)) }
{
    if slot.is_closed() {
        return Ok(());
    }
    write_line(
        out,
        room,
        version,
        &Line::Slot {
            number,
            slot: *slot,
        },
    )
}

/// Writes the lines of slots, by their numbers.
fn write_slots<W: Out>(
    out: &mut W,
    room: &mut Room,
    version: Version,
    slots: &[Slot],
) -> Result<(), Stop>
    requires few { length slots.now ≤ 255 }
    requires faults { W.faults out.old < 2 ^ 64 - 1 }
    ensures { Gathers result (W.taken out.old) (W.taken out.new) (W.faults out.old) (W.faults out.new) room.old room.new
        (in_order (slot_text (version_of version)) 0 (map slot_of slots.now)) }
{
    for (number, slot) in slots.iter().enumerate() {
        write_slot(out, room, version, number as u8, slot)?;
    }
    Ok(())
}

/// Writes the registers and slots of a block.
fn write_bound<W: Out>(
    out: &mut W,
    room: &mut Room,
    version: Version,
    bound: &Bound,
) -> Result<(), Stop>
    requires { W.faults out.old < 2 ^ 64 - 1 }
    ensures { Gathers result (W.taken out.old) (W.taken out.new) (W.faults out.old) (W.faults out.new) room.old room.new
        (in_order (register_text (version_of version)) 0 (bound_of bound.now).registers ++ in_order (slot_text (version_of version)) 0 (bound_of bound.now).slots) }
{
    write_registers(out, room, version, bound.registers())?;
    write_slots(out, room, version, bound.slots())
}

/// The first line of a point's block.
fn first_line(point: &Point) -> Line
    ensures { line_of result ≡ Begins_block (point_of point.now).program (point_of point.now).point (point_of point.now).bound.mode }
{
    Line::Block {
        program: *point.program(),
        point: point.point(),
        mode: point.bound().mode(),
    }
}

/// Writes the block of a point.
fn write_block<W: Out>(
    out: &mut W,
    room: &mut Room,
    version: Version,
    point: &Point,
) -> Result<(), Stop>
    requires { W.faults out.old < 2 ^ 64 - 1 }
    ensures { Gathers result (W.taken out.old) (W.taken out.new) (W.faults out.old) (W.faults out.new) room.old room.new
        (block_text (version_of version) (point_of point.now)) }
{
    write_line(out, room, version, &first_line(point))?;
    write_bound(out, room, version, &point.bound())
}

/// Writes the blocks of points, one after another.
fn write_points<W: Out>(
    out: &mut W,
    room: &mut Room,
    version: Version,
    points: &[Point],
) -> Result<(), Stop>
    requires { W.faults out.old < 2 ^ 64 - 1 }
    ensures { Gathers result (W.taken out.old) (W.taken out.new) (W.faults out.old) (W.faults out.new) room.old room.new
        (in_order (λ n. block_text (version_of version)) 0 (points_of points.now)) }
{
    for point in points {
        write_block(out, room, version, point)?;
    }
    Ok(())
}

/// Writes the line of a channel.
fn write_channel<W: Out>(
    out: &mut W,
    room: &mut Room,
    version: Version,
    channel: &Channel,
) -> Result<(), Stop>
    requires { W.faults out.old < 2 ^ 64 - 1 }
    ensures { Gathers result (W.taken out.old) (W.taken out.new) (W.faults out.old) (W.faults out.new) room.old room.new
        (channel_text (version_of version) (channel_of channel.now)) }
{
    write_line(out, room, version, &Line::Channel(*channel))
}

/// Writes the lines of channels, one after another.
fn write_channels<W: Out>(
    out: &mut W,
    room: &mut Room,
    version: Version,
    channels: &[Channel],
) -> Result<(), Stop>
    requires { W.faults out.old < 2 ^ 64 - 1 }
    ensures { Gathers result (W.taken out.old) (W.taken out.new) (W.faults out.old) (W.faults out.new) room.old room.new
        (in_order (λ n. channel_text (version_of version)) 0 (channels_of channels.now)) }
{
    for channel in channels {
        write_channel(out, room, version, channel)?;
    }
    Ok(())
}

/// Writes the line of a ceiling.
fn write_ceiling<W: Out>(
    out: &mut W,
    room: &mut Room,
    version: Version,
    ceiling: &Ceiling,
) -> Result<(), Stop>
    requires { W.faults out.old < 2 ^ 64 - 1 }
    ensures { Gathers result (W.taken out.old) (W.taken out.new) (W.faults out.old) (W.faults out.new) room.old room.new
        (ceiling_text (version_of version) (ceiling_of ceiling.now)) }
{
    write_line(out, room, version, &Line::Ceiling(*ceiling))
}

/// Writes the lines of ceilings, one after another.
fn write_ceilings<W: Out>(
    out: &mut W,
    room: &mut Room,
    version: Version,
    ceilings: &[Ceiling],
) -> Result<(), Stop>
    requires { W.faults out.old < 2 ^ 64 - 1 }
    ensures { Gathers result (W.taken out.old) (W.taken out.new) (W.faults out.old) (W.faults out.new) room.old room.new
        (in_order (λ n. ceiling_text (version_of version)) 0 (map ceiling_of ceilings.now)) }
{
    for ceiling in ceilings {
        write_ceiling(out, room, version, ceiling)?;
    }
    Ok(())
}

/// Writes the line of an end.
fn write_end<W: Out>(out: &mut W, room: &mut Room, version: Version, held: &End) -> Result<(), Stop>
    requires { W.faults out.old < 2 ^ 64 - 1 }
    ensures { Gathers result (W.taken out.old) (W.taken out.new) (W.faults out.old) (W.faults out.new) room.old room.new
        (end_text (version_of version) (held_end_of held.now)) }
{
    write_line(out, room, version, &Line::Hold(*held))
}

/// Writes the lines of ends, one after another.
fn write_ends<W: Out>(
    out: &mut W,
    room: &mut Room,
    version: Version,
    holds: &[End],
) -> Result<(), Stop>
    requires { W.faults out.old < 2 ^ 64 - 1 }
    ensures { Gathers result (W.taken out.old) (W.taken out.new) (W.faults out.old) (W.faults out.new) room.old room.new
        (in_order (λ n. end_text (version_of version)) 0 (map held_end_of holds.now)) }
{
    for held in holds {
        write_end(out, room, version, held)?;
    }
    Ok(())
}

/// Writes the ceilings and the ends of an authority.
fn write_holdings<W: Out>(
    out: &mut W,
    room: &mut Room,
    version: Version,
    authority: &Authority,
) -> Result<(), Stop>
    requires { W.faults out.old < 2 ^ 64 - 1 }
    ensures { Gathers result (W.taken out.old) (W.taken out.new) (W.faults out.old) (W.faults out.new) room.old room.new
        (in_order (λ n. ceiling_text (version_of version)) 0 (authority_of authority.now).ceilings ++ in_order (λ n. end_text (version_of version)) 0 (authority_of authority.now).holds) }
{
    write_ceilings(out, room, version, authority.ceilings())?;
    write_ends(out, room, version, authority.holds())
}

/// The first line of an authority.
fn authority_line(authority: &Authority) -> Line
    ensures { line_of result ≡ Begins_authority (authority_of authority.now).program }
{
    Line::Authority(*authority.program())
}

/// Writes the lines of an authority.
fn write_authority<W: Out>(
    out: &mut W,
    room: &mut Room,
    version: Version,
    authority: &Authority,
) -> Result<(), Stop>
    requires { W.faults out.old < 2 ^ 64 - 1 }
    ensures { Gathers result (W.taken out.old) (W.taken out.new) (W.faults out.old) (W.faults out.new) room.old room.new
        (authority_text (version_of version) (authority_of authority.now)) }
{
    write_line(out, room, version, &authority_line(authority))?;
    write_holdings(out, room, version, authority)
}

/// Writes the lines of authorities, one after another.
fn write_authorities<W: Out>(
    out: &mut W,
    room: &mut Room,
    version: Version,
    authorities: &[Authority],
) -> Result<(), Stop>
    requires { W.faults out.old < 2 ^ 64 - 1 }
    ensures { Gathers result (W.taken out.old) (W.taken out.new) (W.faults out.old) (W.faults out.new) room.old room.new
        (in_order (λ n. authority_text (version_of version)) 0 (authorities_of authorities.now)) }
{
    for authority in authorities {
        write_authority(out, room, version, authority)?;
    }
    Ok(())
}

/// Writes the lines of authorities, and the last line behind them.
fn write_last<W: Out>(
    out: &mut W,
    room: &mut Room,
    version: Version,
    authorities: &[Authority],
) -> Result<(), Stop>
    requires { W.faults out.old < 2 ^ 64 - 1 }
    ensures { Gathers result (W.taken out.old) (W.taken out.new) (W.faults out.old) (W.faults out.new) room.old room.new
        (in_order (λ n. authority_text (version_of version)) 0 (authorities_of authorities.now) ++ ended_line end_line) }
{
    write_authorities(out, room, version, authorities)?;
    write_bytes(out, room, b"end\n")
}

/// Writes the channels and what stands behind them.
fn write_rest<W: Out>(
    out: &mut W,
    room: &mut Room,
    version: Version,
    channels: &[Channel],
    authorities: &[Authority],
) -> Result<(), Stop>
    requires { W.faults out.old < 2 ^ 64 - 1 }
    ensures { Gathers result (W.taken out.old) (W.taken out.new) (W.faults out.old) (W.faults out.new) room.old room.new
        (in_order (λ n. channel_text (version_of version)) 0 (channels_of channels.now)
        ++ (in_order (λ n. authority_text (version_of version)) 0 (authorities_of authorities.now) ++ ended_line end_line)) }
{
    write_channels(out, room, version, channels)?;
    write_last(out, room, version, authorities)
}

/// Writes the blocks of points, and what stands behind them.
fn write_body<W: Out>(
    out: &mut W,
    room: &mut Room,
    version: Version,
    points: &[Point],
    channels: &[Channel],
    authorities: &[Authority],
) -> Result<(), Stop>
    requires { W.faults out.old < 2 ^ 64 - 1 }
    ensures { Gathers result (W.taken out.old) (W.taken out.new) (W.faults out.old) (W.faults out.new) room.old room.new
        (in_order (λ n. block_text (version_of version)) 0 (points_of points.now)
        ++ (in_order (λ n. channel_text (version_of version)) 0 (channels_of channels.now)
        ++ (in_order (λ n. authority_text (version_of version)) 0 (authorities_of authorities.now) ++ ended_line end_line))) }
{
    write_points(out, room, version, points)?;
    write_rest(out, room, version, channels, authorities)
}

/// The first line of a certificate of this version, with its line feed.
fn version_line(version: Version) -> &'static [u8]
    ensures { result.now ≡ ended_line (first_line (version_of version)) }
{
    match version {
        Version::One => b"capcert 1\n",
        Version::Two => b"capcert 2\n",
        Version::Three => b"capcert 3\n",
        Version::Four => b"capcert 4\n",
    }
}

/// Gathers the text of a certificate, and hands on what there is no room for.
fn gather_cert<W: Out>(cert: &Cert, out: &mut W, room: &mut Room) -> Result<(), Stop>
    requires { W.faults out.old < 2 ^ 64 - 1 }
    ensures written { Gathers result (W.taken out.old) (W.taken out.new) (W.faults out.old) (W.faults out.new) room.old room.new
        (certificate_text cert.now) }
    ensures reads_back { certificate_of_text (certificate_text cert.now) ≡ Ok cert.now }
    ensures alone { (text : List ℕ) → certificate_of_text text ≡ Ok cert.now → text ≡ certificate_text cert.now }
{
    let (points, channels) = (cert.points(), cert.channels());
    let authorities = cert.authorities();
    let version = cert.version();
    write_bytes(out, room, version_line(version))?;
    write_body(out, room, version, points, channels, authorities)
}

/// Writes the text of a certificate of any version. `Device` is answered only after a failure of the writer, and what it
/// took then is a beginning of the text; nothing else is answered, since it takes no memory. That text is read as this
/// certificate, and no other is. (own)
pub fn write_cert<W: Out>(cert: &Cert, out: &mut W) -> Result<(), Stop>
    requires { W.faults out.old < 2 ^ 64 - 1 }
    ensures written { Writes result (W.taken out.old) (W.taken out.new) (W.faults out.old) (W.faults out.new)
        (certificate_text cert.now) }
    ensures reads_back { certificate_of_text (certificate_text cert.now) ≡ Ok cert.now }
    ensures alone { (text : List ℕ) → certificate_of_text text ≡ Ok cert.now → text ≡ certificate_text cert.now }
{
    let mut room = Room::new();
    gather_cert(cert, out, &mut room)?;
    hand_on(out, &room)
}
